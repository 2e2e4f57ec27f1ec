// The link receiver's doors. Its state crosses as ten numbers (the state's own, the length, and the eight tallies in the ledger's order)
// and the 256 bytes of its body, both lent and left as the call leaves them.
ghost use Rattle.std.specs.Prelude.{◌≡◌};
ghost use Rattle.link_receive.specs.Numbered.{receiver_at, numbers_of};
ghost use Rattle.link_feed.specs.Lent.{numbers_left, numbers_fed};
ghost use Rattle.doors.specs.Receivers.{told, taken_by, found_of, pushed_at, fed_at, reset_at, heard_of};

use link_receive::numbered::{numbers_of, receiver_at};
use link_receive::{Answer, OverLimit, Receiver};

// An answer as one number: 0 for nothing, 1 for a frame, or 12.
fn told_by(a: Answer) -> u64
    ensures { result ≡ told a }
{
    match a {
        Ok(None) => 0,
        Ok(Some(_)) => 1,
        Err(OverLimit) => 12 << 32,
    }
}

// An answer as one number, and of a frame the 16 bits of its address and of its type and the length of its payload.
fn found_by(a: Answer) -> [u64; 4]
    ensures { result ≡ found_of a }
{
    match a {
        Ok(None) => [0, 0, 0, 0],
        Ok(Some(head)) => [
            1,
            crate::number_of(head.address),
            head.frame_type.0 as u64,
            head.len as u64,
        ],
        Err(OverLimit) => [12 << 32, 0, 0, 0],
    }
}

// One byte. What it hands out is left in `found`; how many bytes were taken is given back, by which a caller goes on in its stream.
#[unsafe(no_mangle)]
pub extern "C" fn johkkesir_push_u8(
    numbers: &mut [u64; Receiver::NUMBERS],
    body: &mut [u8; Receiver::ROOM],
    found: &mut [u64; 4],
    b: u8,
) -> u64
    ensures value { result ≡ taken_by (pushed_at numbers.old body.old b).answer }
    ensures numbers_after { numbers.new ≡ numbers_left numbers.old (pushed_at numbers.old body.old b).next }
    ensures body_after { body.new ≡ (pushed_at numbers.old body.old b).next.body }
    ensures found_after { found.new ≡ found_of (pushed_at numbers.old body.old b).answer }
{
    if Receiver::MAX_FRAME_SIZE < numbers[1] as usize {
        *found = found_by(Err(OverLimit));
        return 0;
    }
    let r = receiver_at(*numbers, *body);
    let f = r.push_u8(b);
    // `f.next` is read once, and its body stored before the numbers are asked for: otherwise the body is copied once or twice more.
    let next = f.next;
    let units = next.body;
    *body = units;
    *found = found_by(f.answer);
    if let Ok(after) = numbers_of(next) {
        *numbers = after;
    }
    1
}

// A slice, up to the first frame handed out or its end.
#[unsafe(no_mangle)]
pub extern "C" fn johkkesir_feed(
    numbers: &mut [u64; Receiver::NUMBERS],
    body: &mut [u8; Receiver::ROOM],
    found: &mut [u64; 4],
    s: &[u8],
) -> u64
    ensures value { result ≡ (fed_at numbers.old body.old s.now).taken }
    ensures numbers_after { numbers.new ≡ numbers_fed numbers.old (fed_at numbers.old body.old s.now) }
    ensures body_after { body.new ≡ (fed_at numbers.old body.old s.now).next.body }
    ensures found_after { found.new ≡ found_of (fed_at numbers.old body.old s.now).answer }
{
    let f = link_feed::lending::feed_in(numbers, body, s);
    *found = found_by(f.answer);
    f.taken as u64
}

// The eight tallies to 0.
#[unsafe(no_mangle)]
pub extern "C" fn johkkesir_reset_counters(
    numbers: &mut [u64; Receiver::NUMBERS],
    body: &mut [u8; Receiver::ROOM],
) -> u64
    ensures value { result ≡ told (reset_at numbers.old body.old).answer }
    ensures numbers_after { numbers.new ≡ numbers_left numbers.old (reset_at numbers.old body.old).next }
    ensures body_after { body.new ≡ (reset_at numbers.old body.old).next.body }
{
    let r = receiver_at(*numbers, *body);
    let f = r.reset_counters();
    let Ok(after) = numbers_of(f.next) else {
        return told_by(f.answer);
    };
    *numbers = after;
    told_by(f.answer)
}

// The ten numbers of a fresh receiver after a whole slice.
#[unsafe(no_mangle)]
pub extern "C" fn johkkesir_ledger(s: &[u8], numbers: &mut [u64; Receiver::NUMBERS])
    ensures { numbers.new ≡ numbers_of (heard_of s.now) }
{
    let r = Receiver::new();
    let f = link_feed::extend_from_slice(r, s);
    if let Ok(after) = numbers_of(f.next) {
        *numbers = after;
    }
}
