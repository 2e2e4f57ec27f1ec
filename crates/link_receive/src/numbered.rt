// A receiver as ten numbers (the state's own, the length, and the eight tallies in the ledger's order) and the 256 bytes of its body.
ghost use Rattle.std.specs.Prelude.{◌≡◌};
ghost use Rattle.link_receive.specs.Numbered.{state_at, state_number, receiver_at, numbers_told};

use crate::{OverLimit, Receiver, State, Tallies};

// The state of a number; any number above 5 stands for the last, which `State::from` at a call would not show.
#[tactic(auto, unfolding(crate::specs::Numbered::state_at))]
pub fn state_at(n: u64) -> State
    ensures { result ≡ state_at n }
{
    match n {
        0 => State::Idle,
        1 => State::Noise,
        2 => State::StartOfFrame,
        3 => State::Frame,
        4 => State::FrameEscape,
        5 => State::Giant,
        _ => State::GiantEscape,
    }
}

// The number of a state.
pub fn state_number(s: State) -> u64
    ensures { result ≡ state_number s }
{
    match s {
        State::Idle => 0,
        State::Noise => 1,
        State::StartOfFrame => 2,
        State::Frame => 3,
        State::FrameEscape => 4,
        State::Giant => 5,
        State::GiantEscape => 6,
    }
}

// The receiver that ten numbers and a body say.
#[tactic(auto, unfolding(crate::specs::Numbered::tallies_at))]
pub fn receiver_at(numbers: [u64; Receiver::NUMBERS], body: [u8; Receiver::ROOM]) -> Receiver
    ensures { result ≡ receiver_at numbers body }
{
    Receiver {
        state: state_at(numbers[0]),
        body,
        len: numbers[1] as usize,
        tallies: Tallies {
            openings: numbers[2],
            frames: numbers[3],
            runts: numbers[4],
            checksums: numbers[5],
            giants: numbers[6],
            escaped: numbers[7],
            broken: numbers[8],
            noise: numbers[9],
        },
    }
}

// The ten numbers of a receiver. Refused by 12 if its length is over the limit.
#[tactic(auto, unfolding(crate::specs::Numbered::numbers_told, crate::specs::Step::rules_of))]
pub fn numbers_of(r: Receiver) -> Result<[u64; Receiver::NUMBERS], OverLimit>
    ensures { result ≡ numbers_told r }
{
    if Receiver::MAX_FRAME_SIZE < r.len {
        return Err(OverLimit);
    }
    let n = state_number(r.state);
    let t = r.tallies;
    Ok([
        n,
        r.len as u64,
        t.openings,
        t.frames,
        t.runts,
        t.checksums,
        t.giants,
        t.escaped,
        t.broken,
        t.noise,
    ])
}
