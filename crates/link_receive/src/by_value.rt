// What a byte does to a receiver, by value.
ghost use Rattle.std.specs.Prelude.{◌≡◌, ◌<◌, ◌≤◌, take};
ghost use Rattle.crc.specs.Crc.{crc_of};
ghost use Rattle.link_receive.specs.Tally.{counter_of};
ghost use Rattle.link_receive.specs.Step.{room, to_of, pushed_of, counted_of, parsed_of, closed_of};

use crate::moves::parse_frame;
use crate::{Receiver, State, Stepped, Tally};

// In another state, nothing else changed.
pub fn to(r: Receiver, state: State) -> Receiver
    ensures { result ≡ to_of r state }
{
    Receiver { state, ..r }
}

// With one unit more.
pub fn pushed(mut r: Receiver, b: u8) -> Receiver
    requires { r.len < room }
    ensures { result ≡ pushed_of r b }
{
    r.body[r.len] = b;
    Receiver {
        state: State::Frame,
        len: r.len + 1,
        ..r
    }
}

// With one counted and the body emptied.
pub fn counted(r: Receiver, tally: Tally, state: State) -> Receiver
    ensures { result ≡ counted_of r (counter_of tally) state }
{
    Receiver {
        state,
        len: 0,
        tallies: r.tallies.raised(tally),
        ..r
    }
}

// With its frame closed.
pub fn closed(r: Receiver) -> Stepped
    requires { r.len ≤ room }
    ensures { result ≡ closed_of r (parsed_of crc_of (take r.len r.body)) }
{
    match parse_frame(&r.body[..r.len]) {
        Ok(head) => Stepped {
            next: counted(r, Tally::Frames, State::Idle),
            answer: Ok(Some(head)),
        },
        Err(tally) => Stepped {
            next: counted(r, tally, State::Idle),
            answer: Ok(None),
        },
    }
}
