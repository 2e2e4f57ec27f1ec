// The doors of node IDs and addresses, of packet headers and of the gateways that payloads name.
ghost use Rattle.std.specs.Prelude.{◌≡◌, ◌+◌, ◌%◌};
ghost use Rattle.network.specs.Nodes.{node_of, address_of, header_of};
ghost use Rattle.layouts.specs.Layouts.{named_of, identify_response_in, enumeration_start_request_in};
ghost use Rattle.doors.specs.Nodes.{named_number, node_number, after_number, header_list, header_answer, header_fields};

use address::GatewayID;
use layouts::{EnumerationStartRequest, IdentifyResponse, NamesFrom};
use network::{DSN, NodeAddress, NodeID, PacketTooShort, ReceivedPacketHeader};

// A node's number; 2^16 for none.
fn node_number(node: Option<NodeID>) -> u32
    ensures { result ≡ node_number node }
{
    match node {
        Some(id) => id.get() as u32,
        None => 0x1_0000,
    }
}

// The node that an address names; 2^16 for none.
#[unsafe(no_mangle)]
pub extern "C" fn johkkesir_node(address: u16) -> u32
    ensures { result ≡ node_number (node_of address) }
{
    node_number(Option::<NodeID>::from(NodeAddress(address)))
}

// The address of the node of a number, or of none.
#[unsafe(no_mangle)]
pub extern "C" fn johkkesir_node_address(number: u16) -> u16
    ensures { result ≡ address_of (node_of number) }
{
    NodeAddress::from(NodeID::new(number)).0
}

// The number of the ID after that of a number; 2^16 for the last, and where the number is no ID.
#[unsafe(no_mangle)]
pub extern "C" fn johkkesir_successor(number: u16) -> u32
    ensures { result ≡ after_number (node_of number) }
{
    node_number(NodeID::new(number).and_then(|id| id.successor()))
}

// The data sequence number so many further on.
#[unsafe(no_mangle)]
pub extern "C" fn johkkesir_dsn_add(dsn: u8, n: u8) -> u8
    ensures { result ≡ (dsn + n) % 256 }
{
    (DSN(dsn) + n).0
}

// A header's fields in the order of their bytes.
fn fields_of(h: ReceivedPacketHeader) -> [u64; 5]
    ensures { result ≡ header_list h }
{
    let packet_type = h.packet_type;
    let node = h.node_address;
    let short = h.short_address;
    let dsn = h.dsn;
    [
        packet_type.0 as u64,
        node.0 as u64,
        short.0 as u64,
        dsn.0 as u64,
        h.data_length as u64,
    ]
}

// The header of a packet: 0 and its five fields, or 1 and zeros where there are too few bytes.
#[unsafe(no_mangle)]
pub extern "C" fn johkkesir_header(packet: &[u8], fields: &mut [u64; 5]) -> u64
    ensures value { result ≡ header_answer (header_of packet.now) }
    ensures fields_after { fields.new ≡ header_fields (header_of packet.now) }
{
    match ReceivedPacketHeader::read(packet) {
        Ok(h) => {
            let f = fields_of(h);
            *fields = f;
            0
        }
        Err(PacketTooShort) => {
            let none = [0, 0, 0, 0, 0];
            *fields = none;
            1
        }
    }
}

// The gateway that is named; 2^16 where the address is From one.
fn named_number(n: Result<GatewayID, NamesFrom>) -> u32
    ensures { result ≡ named_number n }
{
    match n {
        Ok(id) => id.0 as u32,
        Err(NamesFrom) => 0x1_0000,
    }
}

// The gateway that an identify response names.
#[unsafe(no_mangle)]
pub extern "C" fn johkkesir_identified(payload: &[u8]) -> u32
    ensures { result ≡ named_number (named_of (identify_response_in payload.now).gateway_address) }
{
    named_number(IdentifyResponse::fields(payload).gateway_id())
}

// The gateway that an enumeration start request names.
#[unsafe(no_mangle)]
pub extern "C" fn johkkesir_enumerated(payload: &[u8]) -> u32
    ensures { result ≡ named_number (named_of (enumeration_start_request_in payload.now).enumeration_address) }
{
    named_number(EnumerationStartRequest::fields(payload).enumeration_gateway_id())
}
