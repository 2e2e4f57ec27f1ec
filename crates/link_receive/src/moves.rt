// What a byte asks of the receiver, and the verdict on a closed body.
ghost use Rattle.std.specs.Prelude.{◌≡◌};
ghost use Rattle.crc.specs.Crc.{crc_of};
ghost use Rattle.reading.specs.Grammar.{present};
ghost use Rattle.link_receive.specs.Step.{turn_of, parsed_of};

use crate::{Head, Move, Receiver, State, Tally};
use address::Address;
use link::Type;
use words::be16;

// The byte after 7e inside a frame that holds `len` units.
#[tactic(auto, unfolding(crate::specs::Step::turn_of, escaping::specs::Escapes::meaning))]
fn turn_escaped(len: usize, b: u8) -> Move
    ensures { result ≡ turn_of present State.FrameEscape len b }
{
    if b == 0x08 {
        return Move::Close;
    }
    match escaping::unescaped_byte(b) {
        Ok(d) => {
            if len < Receiver::MAX_FRAME_SIZE {
                Move::Push(d)
            } else {
                Move::Count(Tally::Escaped, State::GiantEscape)
            }
        }
        Err(_) => Move::Break,
    }
}

// What a byte asks for, in a state with `len` units held.
#[tactic(auto, unfolding(crate::specs::Step::turn_of, escaping::specs::Escapes::meaning))]
pub fn turn(state: State, len: usize, b: u8) -> Move
    ensures { result ≡ turn_of present state len b }
{
    match state {
        State::Idle => match b {
            0x00 | 0xff => Move::To(State::Idle),
            0x7e => Move::To(State::StartOfFrame),
            _ => Move::Count(Tally::Noise, State::Noise),
        },
        State::Noise => match b {
            0x00 | 0xff => Move::To(State::Idle),
            0x7e => Move::To(State::StartOfFrame),
            _ => Move::To(State::Noise),
        },
        State::StartOfFrame => match b {
            0x07 => Move::Count(Tally::Openings, State::Frame),
            _ => Move::Count(Tally::Noise, State::Noise),
        },
        State::Frame => {
            if b == 0x7e {
                return Move::To(State::FrameEscape);
            }
            if len < Receiver::MAX_FRAME_SIZE {
                Move::Push(b)
            } else {
                Move::Count(Tally::Giants, State::Giant)
            }
        }
        State::FrameEscape => turn_escaped(len, b),
        State::Giant => match b {
            0x7e => Move::To(State::GiantEscape),
            _ => Move::To(State::Giant),
        },
        State::GiantEscape => match b {
            0x07 => Move::Count(Tally::Openings, State::Frame),
            0x08 => Move::To(State::Idle),
            _ => Move::To(State::Giant),
        },
    }
}

// The verdict on a closed body: a sound frame's head, or the tally that one is counted in that is dropped.
#[tactic(auto, unfolding(crate::specs::Step::parsed_of, reading::specs::Counts::verdict))]
pub fn parse_frame(body: &[u8]) -> Result<Head, Tally>
    ensures { result ≡ parsed_of crc_of body.now }
{
    let n = body.len();
    if n < 6 {
        return Err(Tally::Runts);
    }
    let m = n - 2;
    let crc = crc::crc(&body[..m]);
    let expected = be16(body[n - 1], body[m]);
    if crc == expected {
        Ok(Head {
            address: Address::from(be16(body[0], body[1])),
            frame_type: Type(be16(body[2], body[3])),
            len: n - 6,
        })
    } else {
        Err(Tally::Checksums)
    }
}
