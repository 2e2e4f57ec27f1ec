// A slice of bytes fed to the link receiver: up to the first frame handed out, or through all of them. The steps are those of crates/link_receive, many at a time.
#![tactic(auto, unfolding(link_receive::specs::Step::rules_of))]

ghost use Rattle.std.specs.Prelude.{◌≡◌};
ghost use Rattle.crc.specs.Crc.{crc_of};
ghost use Rattle.link_feed.specs.Feed.{feed_of};
ghost use Rattle.link_feed.specs.Drain.{extend_of};

use feeding::advance;
use lending::feed_in;
use link_receive::numbered::{numbers_of, receiver_at, state_number};
use link_receive::{Answer, Head, OverLimit, Receiver, State, Stepped};

mod feeding;
mod inside;
pub mod lending;
mod outside;
mod tails;

// A receiver handed back, what it hands out, and the number of bytes taken.
#[derive(Clone, Copy)]
pub struct Fed {
    pub next: Receiver,
    pub answer: Answer,
    pub taken: usize,
}

// What a feeding over a lent receiver hands out, and how many bytes were taken.
#[derive(Clone, Copy)]
pub struct FedIn {
    pub answer: Answer,
    pub taken: usize,
}

// What a feeding from a place of a slice on hands out, and the place that it reaches.
#[derive(Clone, Copy)]
pub struct Reached {
    pub answer: Answer,
    pub at: usize,
}

// The units of an open frame: how many are held, the place behind them, and, where the pair that stands there is no unit, its second byte.
#[derive(Clone, Copy)]
struct Units {
    len: usize,
    at: usize,
    code: Option<u8>,
}

// Where the bytes outside a frame lead: to the open frame behind its opener, or to the slice's end.
#[derive(Clone, Copy)]
struct Course {
    state: State,
    len: usize,
    at: usize,
}

// A receiver after one byte, its body and tallies beside it, and the frame handed out, if any.
#[derive(Clone, Copy)]
struct Stood {
    state: State,
    len: usize,
    frame: Option<Head>,
}

// What a feeding stopped with: the parts of the receiver beside its body and tallies, the frame handed out, if any, and how many bytes of the
// slice were taken.
#[derive(Clone, Copy)]
struct Advanced {
    state: State,
    len: usize,
    frame: Option<Head>,
    at: usize,
}

// A slice, up to the first frame handed out or its end. Refused by 12, with nothing changed and nothing taken, if the
// length is over the limit.
#[tactic(auto, unfolding(crate::specs::Feed::feed_of, link_receive::specs::Step::rules_of))]
pub fn feed(r: Receiver, s: &[u8]) -> Fed
    ensures { result ≡ feed_of crc_of r s.now }
{
    let Ok(mut numbers) = numbers_of(r) else {
        return Fed {
            next: r,
            answer: Err(OverLimit),
            taken: 0,
        };
    };
    let mut body = r.body;
    let f = feed_in(&mut numbers, &mut body, s);
    Fed {
        next: receiver_at(numbers, body),
        answer: f.answer,
        taken: f.taken,
    }
}

// A whole slice, through every frame; the frames are not looked at. Refused by 12 as a step is.
#[tactic(auto, unfolding(crate::specs::Drain::extend_of, link_receive::specs::Step::rules_of))]
pub fn extend_from_slice(r: Receiver, s: &[u8]) -> Stepped
    ensures { result ≡ extend_of crc_of r s.now }
{
    let Ok(mut numbers) = numbers_of(r) else {
        return Stepped {
            next: r,
            answer: Err(OverLimit),
        };
    };
    let mut body = r.body;
    let a = advance(r.state, r.len, &mut numbers, &mut body, s, 0, false);
    numbers[0] = state_number(a.state);
    numbers[1] = a.len as u64;
    Stepped {
        next: receiver_at(numbers, body),
        answer: Ok(None),
    }
}
