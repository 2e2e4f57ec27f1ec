// The gateway link layer's receiver (link/receive.rs): bytes to frames, one byte at a time. The receiver is a state handed in and handed back by each step.
// Slices are fed by crates/link_feed.
#![tactic(auto)]

ghost use Rattle.std.specs.Prelude.{◌≡◌};
ghost use Rattle.crc.specs.Crc.{crc_of};
ghost use Rattle.link_receive.specs.Tally.{counter_of, raise};
ghost use Rattle.link_receive.specs.Frames.{payload_of};
ghost use Rattle.link_receive.specs.Step.{open_of, step_of, fresh_of, reset_of};

use address::Address;
use by_value::{closed, counted, pushed, to};
use link::Type;
use moves::turn;

mod by_value;
pub mod moves;
pub mod numbered;

// Where the receiver stands in the stream.
#[derive(Clone, Copy)]
pub enum State {
    Idle,
    Noise,
    StartOfFrame,
    Frame,
    FrameEscape,
    Giant,
    GiantEscape,
}

// 1 while a frame is open, a lone last 7e in it included, else 0.
pub fn open_frames(state: State) -> u64
    ensures { result ≡ open_of state }
{
    match state {
        State::Frame | State::FrameEscape => 1,
        _ => 0,
    }
}

// One of the eight tallies.
#[derive(Clone, Copy)]
pub enum Tally {
    Openings,
    Frames,
    Runts,
    Checksums,
    Giants,
    Escaped,
    Broken,
    Noise,
}

// The eight tallies. Each wraps at 2^64.
#[derive(Clone, Copy)]
pub struct Tallies {
    pub openings: u64,
    pub frames: u64,
    pub runts: u64,
    pub checksums: u64,
    pub giants: u64,
    pub escaped: u64,
    pub broken: u64,
    pub noise: u64,
}

impl Tallies {
    pub const ZERO: Self = Tallies {
        openings: 0,
        frames: 0,
        runts: 0,
        checksums: 0,
        giants: 0,
        escaped: 0,
        broken: 0,
        noise: 0,
    };

    // One more of a tally. Each is a field of its own by the form that is set for the lent tallies, so each has its arm.
    fn raised(mut self, tally: Tally) -> Tallies
        ensures { result ≡ raise (counter_of tally) self }
    {
        match tally {
            Tally::Openings => self.openings = self.openings.wrapping_add(1),
            Tally::Frames => self.frames = self.frames.wrapping_add(1),
            Tally::Runts => self.runts = self.runts.wrapping_add(1),
            Tally::Checksums => self.checksums = self.checksums.wrapping_add(1),
            Tally::Giants => self.giants = self.giants.wrapping_add(1),
            Tally::Escaped => self.escaped = self.escaped.wrapping_add(1),
            Tally::Broken => self.broken = self.broken.wrapping_add(1),
            Tally::Noise => self.noise = self.noise.wrapping_add(1),
        }
        self
    }
}

// What a byte asks for: another state; a data unit for the body; a tally raised, the body emptied and a state;
// the frame broken; the frame closed.
#[derive(Clone, Copy)]
pub enum Move {
    To(State),
    Push(u8),
    Count(Tally, State),
    Break,
    Close,
}

// A sound frame's head: its address, its type and how long its payload is. The payload is the first `len` bytes after the fourth of the body
// handed back.
#[derive(Clone, Copy)]
pub struct Head {
    pub address: Address,
    pub frame_type: Type,
    pub len: usize,
}

// The refusal 12: a state with a length over its limit.
#[derive(Clone, Copy, PartialEq, Eq)]
pub struct OverLimit;

// What a step or a feeding hands out: a frame, nothing, or the refusal.
pub type Answer = Result<Option<Head>, OverLimit>;

// The receiver: its state, the units of the open frame (the first `len` bytes of `body`), and the tallies. A field more goes behind them: the
// claims of crates/promises/proofs/Walked.antt count the fields up to `tallies`.
#[derive(Clone, Copy)]
pub struct Receiver {
    pub state: State,
    pub body: [u8; Receiver::ROOM],
    pub len: usize,
    pub tallies: Tallies,
}

// The payload that an answer's frame has in the body handed back beside it: what follows address and type.
pub fn payload(body: &[u8], len: usize) -> &[u8]
    ensures { result.now ≡ payload_of len body.now }
{
    let n = body.len();
    if n < 4 {
        return &body[n..];
    }
    if n - 4 < len {
        return &body[4..];
    }
    let end = 4 + len;
    &body[4..end]
}

// A receiver handed back, and what it hands out.
#[derive(Clone, Copy)]
pub struct Stepped {
    pub next: Receiver,
    pub answer: Answer,
}

impl Receiver {
    // The most units that a frame may have.
    pub const MAX_FRAME_SIZE: usize = 256;

    // The length of the array that they stand in.
    pub const ROOM: usize = 256;

    // How many numbers say a receiver beside its body.
    pub const NUMBERS: usize = 10;

    // A fresh receiver.
    pub fn new() -> Receiver
        ensures { result ≡ fresh_of }
    {
        Receiver {
            state: State::Idle,
            body: [0; Receiver::ROOM],
            len: 0,
            tallies: Tallies::ZERO,
        }
    }

    // One byte. Refused by 12, with nothing changed, if the length is over the limit.
    #[tactic(auto, unfolding(crate::specs::Step::step_of, crate::specs::Step::rules_of))]
    pub fn push_u8(mut self, b: u8) -> Stepped
        ensures { result ≡ step_of crc_of self b }
    {
        let len = self.len;
        if Receiver::MAX_FRAME_SIZE < len {
            return Stepped {
                next: self,
                answer: Err(OverLimit),
            };
        }
        match turn(self.state, len, b) {
            Move::To(next) => self = to(self, next),
            Move::Push(d) => self = pushed(self, d),
            Move::Count(tally, next) => self = counted(self, tally, next),
            Move::Break => {
                self = counted(self, Tally::Broken, State::Noise);
                self = counted(self, Tally::Noise, State::Noise);
            }
            Move::Close => return closed(self),
        }
        Stepped {
            next: self,
            answer: Ok(None),
        }
    }

    // The eight tallies to 0; state and body stay. Refused by 12, with nothing changed, if the length is over the limit.
    #[tactic(auto, unfolding(crate::specs::Step::reset_of, crate::specs::Step::rules_of))]
    pub fn reset_counters(mut self) -> Stepped
        ensures { result ≡ reset_of self }
    {
        let len = self.len;
        if Receiver::MAX_FRAME_SIZE < len {
            return Stepped {
                next: self,
                answer: Err(OverLimit),
            };
        }
        self.tallies = Tallies::ZERO;
        Stepped {
            next: self,
            answer: Ok(None),
        }
    }
}
