// The doors of payloads: packet areas, status words and packet numbers.
ghost use Rattle.std.specs.Prelude.{◌≡◌};
ghost use Rattle.network.specs.Split.{found_at, tally_of};
ghost use Rattle.transport.specs.Status.{accepted_of, needed_of};
ghost use Rattle.transport.specs.Number.{interpret_of};
ghost use Rattle.doors.specs.Packets.{found_number, bounds_of, counts_of};

use network::PacketTooShort;

// What stands in a packet area at a place: 0 nothing, 1 too few bytes for a packet, 2 a packet, whose data's start and end are left in
// `found`; otherwise 0 and 0 are.
#[unsafe(no_mangle)]
pub extern "C" fn johkkesir_packet_at(area: &[u8], at: usize, found: &mut [u64; 2]) -> u64
    ensures value { result ≡ found_number (found_at area.now at) }
    ensures found_after { found.new ≡ bounds_of (found_at area.now at) }
{
    match network::packet_at(area, at) {
        None => {
            let none = [0, 0];
            *found = none;
            0
        }
        Some(Err(PacketTooShort)) => {
            let none = [0, 0];
            *found = none;
            1
        }
        Some(Ok(packet)) => {
            let bounds = [packet.data_at as u64, packet.end as u64];
            *found = bounds;
            2
        }
    }
}

// The packets of an area, counted: whole ones, and 1 if it ends too short.
#[unsafe(no_mangle)]
pub extern "C" fn johkkesir_packets(area: &[u8], out: &mut [u64; 2])
    ensures { out.new ≡ counts_of (tally_of area.now) }
{
    let t = network::counts(area);
    let counts = [t.packets, u64::from(t.short)];
    *out = counts;
}

// Whether a receive response may start with this status word.
#[unsafe(no_mangle)]
pub extern "C" fn johkkesir_accepted(status: u16) -> bool
    ensures { result ≡ accepted_of status }
{
    transport::accepted(status)
}

// How long a receive response with this status word has to be.
#[unsafe(no_mangle)]
pub extern "C" fn johkkesir_needed(status: u16) -> usize
    ensures { result ≡ needed_of status }
{
    transport::needed(status)
}

// The packet number that its low byte stands for, after `old`.
#[unsafe(no_mangle)]
pub extern "C" fn johkkesir_interpret_packet_number_lo(lo: u8, old: u16) -> u16
    ensures { result ≡ interpret_of lo old }
{
    let n = transport::interpret_packet_number_lo(lo, transport::PacketNumber(old));
    n.0
}
