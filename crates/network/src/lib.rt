// The PV network layer (pv/network.rs): received packets, and how a packet area is split into them.
#![tactic(auto)]

ghost use Rattle.std.specs.Prelude.{◌≡◌, ◌+◌, ◌%◌};
ghost use Rattle.network.specs.Split.{found_at, tally_of};
ghost use Rattle.network.specs.Nodes.{node_of, address_of, successor_of, header_of};

use std::ops::Add;

mod received_packets;

pub use received_packets::ReceivedPackets;

// The type of a PV application packet.
#[derive(Clone, Copy)]
pub struct PacketType(pub u8);

// A 16-bit PV link layer (802.15.4) short address.
#[derive(Clone, Copy)]
pub struct ShortAddress(pub u16);

// A 64-bit PV link layer (802.15.4) long address.
#[derive(Clone, Copy)]
pub struct LongAddress(pub [u8; 8]);

// A PV link layer data sequence number.
#[derive(Clone, Copy)]
pub struct DSN(pub u8);

// The number so many further on. Addition wraps.
impl Add<u8> for DSN {
    type Output = DSN;

    ghost add_gives = { λ dsn rhs result. result.0 ≡ (dsn.0 + rhs) % 256 };

    fn add(self, rhs: u8) -> DSN {
        DSN(self.0.wrapping_add(rhs))
    }
}

// A 16-bit PV network layer node ID, which is not 0.
#[derive(Clone, Copy)]
pub struct NodeID(u16);

impl NodeID {
    pub const GATEWAY: Self = NodeID(1);

    pub const MAX: Self = NodeID(65535);

    // The ID of a number, which 0 has not.
    #[tactic(auto, unfolding(crate::specs::Nodes::node_of))]
    pub fn new(value: u16) -> Option<NodeID>
        ensures { result ≡ node_of value }
    {
        if value == 0 {
            return None;
        }
        Some(NodeID(value))
    }

    pub fn get(self) -> u16
        ensures { result ≡ self.0 }
    {
        self.0
    }

    // The ID after this one, which the last has not.
    #[tactic(auto, unfolding(crate::specs::Nodes::successor_of))]
    pub fn successor(self) -> Option<NodeID>
        ensures { result ≡ successor_of self.0 }
    {
        let id = self.0;
        if id < 65535 {
            Some(NodeID(id + 1))
        } else {
            None
        }
    }
}

// A 16-bit PV network layer node address, which could be either a `NodeID` or the broadcast address.
#[derive(Clone, Copy)]
pub struct NodeAddress(pub u16);

impl NodeAddress {
    pub const ZERO: Self = NodeAddress(0);

    pub const GATEWAY: Self = NodeAddress(1);
}

// The node that an address names.
impl From<NodeAddress> for Option<NodeID> {
    ghost from_gives = { λ address result. result ≡ node_of address.0 };

    fn from(address: NodeAddress) -> Option<NodeID> {
        NodeID::new(address.0)
    }
}

// The address of a node, or of none.
impl From<Option<NodeID>> for NodeAddress {
    ghost from_gives = { λ node result. result.0 ≡ address_of node };

    fn from(node: Option<NodeID>) -> NodeAddress {
        match node {
            Some(id) => NodeAddress::from(id),
            None => NodeAddress::ZERO,
        }
    }
}

// The address of a node ID.
impl From<NodeID> for NodeAddress {
    ghost from_gives = { λ id result. result.0 ≡ id.0 };

    fn from(id: NodeID) -> NodeAddress {
        NodeAddress(id.0)
    }
}

// The header of a received packet.
#[derive(Clone, Copy)]
pub struct ReceivedPacketHeader {
    pub packet_type: PacketType,
    pub node_address: NodeAddress,
    pub short_address: ShortAddress,
    pub dsn: DSN,
    pub data_length: u8,
}

// Too few bytes for a packet's header, or for the data that the header says.
#[derive(Clone, Copy, PartialEq, Eq)]
pub struct PacketTooShort;

impl ReceivedPacketHeader {
    // The header of the packet that starts with `packet`'s first byte.
    #[tactic(auto, unfolding(crate::specs::Nodes::header_of))]
    pub fn read(packet: &[u8]) -> Result<ReceivedPacketHeader, PacketTooShort>
        ensures { result ≡ header_of packet.now }
    {
        if packet.len() < 7 {
            return Err(PacketTooShort);
        }
        let node_address = u16::from_be_bytes([packet[1], packet[2]]);
        let short_address = u16::from_be_bytes([packet[3], packet[4]]);
        Ok(ReceivedPacketHeader {
            packet_type: PacketType(packet[0]),
            node_address: NodeAddress(node_address),
            short_address: ShortAddress(short_address),
            dsn: DSN(packet[5]),
            data_length: packet[6],
        })
    }
}

// A whole packet of an area: its header up to `data_at`, its data from there up to `end`.
#[derive(Clone, Copy)]
pub struct Packet {
    pub data_at: usize,
    pub end: usize,
}

// How many whole packets an area has, and whether it ends too short.
#[derive(Clone, Copy)]
pub struct Tally {
    pub packets: u64,
    pub short: bool,
}

// What stands in `area` at `at`: a whole packet, or bytes that are too few for the packet that they begin, or no byte. A place past the area
// has none.
#[tactic(auto, unfolding(crate::specs::Split::found_at))]
pub fn packet_at(area: &[u8], at: usize) -> Option<Result<Packet, PacketTooShort>>
    ensures { result ≡ found_at area.now at }
{
    if area.len() <= at {
        return None;
    }
    let left = area.len() - at;
    if left < 7 {
        return Some(Err(PacketTooShort));
    }
    let size = 7 + area[at + 6] as usize;
    if left < size {
        return Some(Err(PacketTooShort));
    }
    let data_at = at + 7;
    let end = at + size;
    Some(Ok(Packet { data_at, end }))
}

// The packets of an area, counted.
pub fn counts(area: &[u8]) -> Tally
    ensures { result ≡ tally_of area.now }
{
    let mut packets: u64 = 0;
    for packet in ReceivedPackets::new(area) {
        match packet {
            Ok(_) => packets += 1,
            Err(PacketTooShort) => return Tally {
                packets,
                short: true,
            },
        }
    }
    Tally {
        packets,
        short: false,
    }
}
