// The walker over a packet area (pv/network.rs, `ReceivedPackets`): it holds the area and keeps its place between packets.
ghost use Rattle.std.specs.Prelude.{◌≡◌, ◌-◌, length};
ghost use Rattle.std.specs.Iterator.{at_most};
ghost use Rattle.network.specs.Walker.{Next};

use crate::{Packet, PacketTooShort};

// A packet area, and a place in it.
#[derive(Drop)]
pub struct ReceivedPackets<'a> {
    pub area: &'a [u8],
    pub at: usize,
}

impl<'a> ReceivedPackets<'a> {
    // A walker at the area's start.
    pub fn new(area: &'a [u8]) -> ReceivedPackets<'a>
        ensures { (result.area ≡ area.entry) × (result.at ≡ 0) }
    {
        ReceivedPackets { area, at: 0 }
    }
}

// What stands at the walker's place, which it leaves behind: behind a packet it goes on; too few bytes bring it to the area's end; a finished
// one stays.
impl<'a> Iterator for ReceivedPackets<'a> {
    type Item = Result<Packet, PacketTooShort>;

    ghost next_gives = { Next };

    ghost remaining = { λ w. at_most (length w.area.now - w.at) };

    fn next(&mut self) -> Option<Result<Packet, PacketTooShort>> {
        let found = crate::packet_at(self.area, self.at)?;
        self.at = match found {
            Ok(packet) => packet.end,
            Err(_) => self.area.len(),
        };
        Some(found)
    }
}
