// Feeding a slice: the parts of the receiver stand in locals, and its body and tallies are lent, so that no byte costs a copy of the whole.
ghost use Rattle.std.specs.Prelude.{◌≡◌, ◌<◌, ◌≤◌, true, length, take};
ghost use Rattle.crc.specs.Crc.{crc_of};
ghost use Rattle.link_receive.specs.Tally.{counter_of, raise};
ghost use Rattle.link_receive.specs.Numbered.{number_count, tally_index, tallies_at};
ghost use Rattle.link_receive.specs.Step.{room, fresh_of, parsed_of, closed_of, step_of};
ghost use Rattle.link_feed.specs.Advance.{held_of, limit, stepped_of, stood_of, fed_of, is_outside, Led, Stretched, Onward, went_of};

use crate::inside::inside;
use crate::outside::outside;
use crate::tails::tail;
use crate::{Advanced, Course, Stood};
use link_receive::moves::{parse_frame, turn};
use link_receive::{Head, Move, Receiver, State, Tally};

// The index of a tally among the ten numbers. It is spelled out, since a cast would rest it on the order in which the enum names them.
pub fn index_of(tally: Tally) -> usize
    ensures { (result ≡ tally_index tally) × (result < number_count) }
{
    match tally {
        Tally::Openings => 2,
        Tally::Frames => 3,
        Tally::Runts => 4,
        Tally::Checksums => 5,
        Tally::Giants => 6,
        Tally::Escaped => 7,
        Tally::Broken => 8,
        Tally::Noise => 9,
    }
}

// One more of a tally.
pub fn raise(tallies: &mut [u64; Receiver::NUMBERS], tally: Tally)
    ensures { tallies_at tallies.new ≡ raise (counter_of tally) (tallies_at tallies.old) }
{
    let i = index_of(tally);
    tallies[i] = tallies[i].wrapping_add(1);
}

// The open frame of `len` units closed, in whatever state the receiver is.
pub fn close(
    tallies: &mut [u64; Receiver::NUMBERS],
    body: &[u8; Receiver::ROOM],
    len: usize,
) -> Option<Head>
    requires { len ≤ room }
    ensures { (st : State) → stepped_of State.Idle body.now 0 tallies.new result ≡ closed_of (held_of st body.now len tallies.old) (parsed_of crc_of (take len body.now)) }
{
    match parse_frame(&body[..len]) {
        Ok(head) => {
            raise(tallies, Tally::Frames);
            Some(head)
        }
        Err(tally) => {
            raise(tallies, tally);
            None
        }
    }
}

// One byte.
#[tactic(auto, unfolding(link_receive::specs::Step::step_of, link_receive::specs::Step::rules_of))]
fn one(
    state: State,
    len: usize,
    tallies: &mut [u64; Receiver::NUMBERS],
    body: &mut [u8; Receiver::ROOM],
    b: u8,
) -> Stood
    requires { len ≤ limit }
    ensures { (stood_of result body.new tallies.new ≡ step_of crc_of (held_of state body.old len tallies.old) b) × (result.len ≤ limit) }
{
    match turn(state, len, b) {
        Move::To(next) => Stood {
            state: next,
            len,
            frame: None,
        },
        Move::Push(d) => {
            body[len] = d;
            Stood {
                state: State::Frame,
                len: len + 1,
                frame: None,
            }
        }
        Move::Count(tally, next) => {
            raise(tallies, tally);
            Stood {
                state: next,
                len: 0,
                frame: None,
            }
        }
        Move::Break => {
            raise(tallies, Tally::Broken);
            raise(tallies, Tally::Noise);
            Stood {
                state: State::Noise,
                len: 0,
                frame: None,
            }
        }
        Move::Close => {
            let frame = close(tallies, body, len);
            Stood {
                state: State::Idle,
                len: 0,
                frame,
            }
        }
    }
}

// Whether a state is outside an open frame and the overlong tail, with no 7e waiting.
fn is_outside(state: State) -> bool
    ensures { result ≡ is_outside state }
{
    matches!(state, State::Idle | State::Noise)
}

// Outside a frame: up to its opener, which is taken, or to the slice's end. In any other state nothing is taken.
fn line(
    state: State,
    len: usize,
    tallies: &mut [u64; Receiver::NUMBERS],
    s: &[u8],
    i: usize,
) -> Course
    requires { (len ≤ limit) × (i < length s.now) }
    ensures { Led crc_of fresh_of s.now state len i (tallies_at tallies.old) result (tallies_at tallies.new) }
{
    if !is_outside(state) {
        return Course { state, len, at: i };
    }
    let noisy = matches!(state, State::Noise);
    outside(noisy, len, tallies, s, i)
}

// Many bytes at once inside a frame, up to its end if the slice has it, and in an overlong tail, up to the pair that ends it.
fn stretch(
    state: State,
    len: usize,
    tallies: &mut [u64; Receiver::NUMBERS],
    body: &mut [u8; Receiver::ROOM],
    s: &[u8],
    i: usize,
) -> Advanced
    requires { (len ≤ limit) × (i ≤ length s.now) × (is_outside state ≡ true → i ≡ length s.now) }
    ensures { Stretched crc_of s.now (held_of state body.old len tallies.old) i (held_of result.state body.new result.len tallies.new) result.frame result.at }
{
    match state {
        State::Frame => inside(len, tallies, body, s, i),
        State::Giant => {
            let at = tail(s, i);
            Advanced {
                state: State::Giant,
                len,
                frame: None,
                at,
            }
        }
        _ => Advanced {
            state,
            len,
            frame: None,
            at: i,
        },
    }
}

// One byte of a slice.
fn single(
    state: State,
    len: usize,
    tallies: &mut [u64; Receiver::NUMBERS],
    body: &mut [u8; Receiver::ROOM],
    s: &[u8],
    i: usize,
) -> Advanced
    requires { (len ≤ limit) × (i < length s.now) }
    ensures { Onward crc_of s.now (held_of state body.old len tallies.old) i (held_of result.state body.new result.len tallies.new) result.frame result.at }
{
    let x = one(state, len, tallies, body, s[i]);
    Advanced {
        state: x.state,
        len: x.len,
        frame: x.frame,
        at: i + 1,
    }
}

// A frame up to its end, or else as much as goes at once and one byte more, if there is one.
fn onward(
    state: State,
    len: usize,
    tallies: &mut [u64; Receiver::NUMBERS],
    body: &mut [u8; Receiver::ROOM],
    s: &[u8],
    i: usize,
) -> Advanced
    requires { (len ≤ limit) × (i ≤ length s.now) × (is_outside state ≡ true → i ≡ length s.now) }
    ensures { Onward crc_of s.now (held_of state body.old len tallies.old) i (held_of result.state body.new result.len tallies.new) result.frame result.at }
{
    let a = stretch(state, len, tallies, body, s, i);
    if is_outside(a.state) {
        return a;
    }
    if a.at == s.len() {
        return a;
    }
    single(a.state, a.len, tallies, body, s, a.at)
}

// Feeds a slice from a place on: up to the first frame handed out if it is to stop there, else through every frame, and at most to its end.
// A turn of the loop goes on by a run or by a frame.
pub fn advance(
    state0: State,
    len0: usize,
    tallies: &mut [u64; Receiver::NUMBERS],
    body: &mut [u8; Receiver::ROOM],
    s: &[u8],
    i0: usize,
    stop: bool,
) -> Advanced
    requires { (len0 ≤ limit) × (i0 ≤ length s.now) }
    ensures { fed_of result body.new tallies.new ≡ went_of crc_of stop (held_of state0 body.old len0 tallies.old) s.now i0 }
{
    let mut state = state0;
    let mut len = len0;
    let mut i = i0;
    while i < s.len() {
        let o = line(state, len, tallies, s, i);
        let a = onward(o.state, o.len, tallies, body, s, o.at);
        if stop && a.frame.is_some() {
            return a;
        }
        state = a.state;
        len = a.len;
        i = a.at;
    }
    Advanced {
        state,
        len,
        frame: None,
        at: i,
    }
}
