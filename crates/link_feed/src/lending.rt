// A receiver that is lent: ten numbers (the state's own, the length, and the eight tallies in the ledger's order) and the 256 bytes of its body.
ghost use Rattle.std.specs.Prelude.{◌≡◌, ◌≤◌, length, drop};
ghost use Rattle.crc.specs.Crc.{crc_of};
ghost use Rattle.link_receive.specs.Numbered.{receiver_at};
ghost use Rattle.link_feed.specs.Feed.{feed_of};
ghost use Rattle.link_feed.specs.Lent.{numbers_fed, fed_in_of, start_of, reached_of};

use crate::feeding::advance;
use crate::{FedIn, Reached};
use link_receive::numbered::{state_at, state_number};
use link_receive::{OverLimit, Receiver};

// `feed` over a receiver that is lent as ten numbers (state, length, tallies) and its body: for a loop that keeps them.
// Refused by 12, with nothing changed and nothing taken, if the length is over the limit.
pub fn feed_in(
    numbers: &mut [u64; Receiver::NUMBERS],
    body: &mut [u8; Receiver::ROOM],
    s: &[u8],
) -> FedIn
    ensures answer { result ≡ fed_in_of (feed_of crc_of (receiver_at numbers.old body.old) s.now) }
    ensures numbers { numbers.new ≡ numbers_fed numbers.old (feed_of crc_of (receiver_at numbers.old body.old) s.now) }
    ensures units { body.new ≡ (feed_of crc_of (receiver_at numbers.old body.old) s.now).next.body }
{
    let len = numbers[1] as usize;
    if Receiver::MAX_FRAME_SIZE < len {
        return FedIn {
            answer: Err(OverLimit),
            taken: 0,
        };
    }
    let state = state_at(numbers[0]);
    let a = advance(state, len, numbers, body, s, 0, true);
    numbers[0] = state_number(a.state);
    numbers[1] = a.len as u64;
    FedIn {
        answer: Ok(a.frame),
        taken: a.at,
    }
}

// Where a feeding from a place on starts: at the slice's end at the latest.
fn start_of(n: usize, at: usize) -> usize
    ensures { (result ≡ start_of n at) × (result ≤ n) }
{
    if at < n { at } else { n }
}

// `feed_in` from a place of a slice on, with the place that it reaches: where 12 refuses it, the one where it starts.
pub fn feed_from(
    numbers: &mut [u64; Receiver::NUMBERS],
    body: &mut [u8; Receiver::ROOM],
    s: &[u8],
    at: usize,
) -> Reached
    ensures answer { result ≡ reached_of s.now at (feed_of crc_of (receiver_at numbers.old body.old) (drop at s.now)) }
    ensures numbers { numbers.new ≡ numbers_fed numbers.old (feed_of crc_of (receiver_at numbers.old body.old) (drop at s.now)) }
    ensures units { body.new ≡ (feed_of crc_of (receiver_at numbers.old body.old) (drop at s.now)).next.body }
    ensures within { result.at ≤ length s.now }
{
    let n = s.len();
    let start = start_of(n, at);
    let f = feed_in(numbers, body, &s[start..]);
    let reached = start + f.taken;
    Reached {
        answer: f.answer,
        at: reached,
    }
}
