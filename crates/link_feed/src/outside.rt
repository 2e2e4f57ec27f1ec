// Bytes outside a frame: idle bytes, noise, and pairs that open none. Long runs go by words; near a 7e, where runs are short, byte by byte.
ghost use Rattle.std.specs.Prelude.{◌≡◌, ◌+◌, ◌<◌, ◌≤◌, true, length, slice_index};
ghost use Rattle.crc.specs.Crc.{crc_of};
ghost use Rattle.byte_runs.specs.Runs.{is_of};
ghost use Rattle.link_receive.specs.Numbered.{tallies_at};
ghost use Rattle.link_receive.specs.Step.{fresh_of};
ghost use Rattle.link_feed.specs.Advance.{limit, line_of, noised, begins_of, held_after, Stands, Awaits, Passed, Led};

use crate::Course;
use crate::feeding::{index_of, raise};
use byte_runs::{Heard, Sort};
use link_receive::{Receiver, State, Tally};

// Whether 7e 07 stands at a place.
fn opens(s: &[u8], i: usize) -> bool
    requires { i ≤ length s.now }
    ensures { result ≡ true → Stands s.now i 0x07 }
{
    if s.len() - i < 2 {
        return false;
    }
    if s[i] != 0x7e {
        return false;
    }
    s[i + 1] == 0x07
}

// Whether a run of one byte at most is here, before a 7e or the slice's end.
fn short(s: &[u8], i: usize) -> bool
    requires { i < length s.now }
{
    if s[i] == 0x7e {
        return true;
    }
    if s.len() - i < 2 {
        return true;
    }
    s[i + 1] == 0x7e
}

// 1 if a noise begins with a byte, by whether the line was noisy and is.
fn begins(noisy: bool, busy: bool) -> usize
    ensures { (result ≡ begins_of noisy busy) × (result ≤ 1) }
{
    if noisy {
        return 0;
    }
    if busy { 1 } else { 0 }
}

// The place so many bytes further, or the slice's end if that comes before.
pub fn end_of(n: usize, i: usize, most: usize) -> usize
    requires { i ≤ n }
    ensures { (i ≤ result) × (result ≤ n) × (i < n → 1 ≤ most → i < result) }
{
    if n - i < most { n } else { i + most }
}

// Bytes and pairs one by one, up to a place, or to an opener or a lone last 7e before it. A step is one byte or two.
fn few(noisy0: bool, s: &[u8], i0: usize, end: usize) -> Heard
    requires { (i0 ≤ end) × (end ≤ length s.now) }
    ensures { Passed crc_of fresh_of s.now noisy0 i0 result × (result.at < end → Awaits s.now result.at) }
{
    let mut noisy = noisy0;
    let mut count = 0;
    let mut i = i0;
    while i < end {
        let b = s[i];
        if b == 0x7e {
            if s.len() - i < 2 {
                break;
            }
            if s[i + 1] == 0x07 {
                break;
            }
            count += 1;
            noisy = true;
            i += 2;
            continue;
        }
        let busy = !byte_runs::is(Sort::Idle, b);
        count += begins(noisy, busy);
        noisy = busy;
        i += 1;
    }
    Heard {
        noisy,
        count,
        at: i,
    }
}

// A run by words, unless it is a short one.
fn words(noisy: bool, s: &[u8], i: usize) -> Heard
    requires { i < length s.now }
    ensures { Passed crc_of fresh_of s.now noisy i result }
{
    if short(s, i) {
        return Heard {
            noisy,
            count: 0,
            at: i,
        };
    }
    byte_runs::noises(noisy, s, i)
}

// How many bytes are taken one by one after a run by words: more where there was none.
fn window(went: usize) -> usize
    ensures { 1 ≤ result }
{
    if went == 0 { 64 } else { 8 }
}

// All up to an opener, a lone last 7e or the slice's end, the first run by words. A step is as long as its runs.
fn quiet(noisy0: bool, s: &[u8], i0: usize) -> Heard
    requires { i0 ≤ length s.now }
    ensures { Passed crc_of fresh_of s.now noisy0 i0 result × Awaits s.now result.at }
{
    let mut noisy = noisy0;
    let mut count = 0;
    let mut i = i0;
    while i < s.len() {
        let h = words(noisy, s, i);
        let from = h.at;
        let end = end_of(s.len(), from, window(from - i));
        let q = few(h.noisy, s, from, end);
        noisy = q.noisy;
        count = count + h.count + q.count;
        i = q.at;
        if i < end {
            break;
        }
    }
    Heard {
        noisy,
        count,
        at: i,
    }
}

// Whether just two idle bytes, and then a 7e, stand behind a place: with the byte there the start of a frame to a gateway.
fn three(s: &[u8], i: usize) -> bool
    requires { i < length s.now }
    ensures { result ≡ true → (i + 3 ≤ length s.now) × (is_of Sort.Idle (slice_index s.now (i + 1)) ≡ true) × (is_of Sort.Idle (slice_index s.now (i + 2)) ≡ true) }
{
    if s.len() - i < 4 {
        return false;
    }
    if s[i + 3] != 0x7e {
        return false;
    }
    if !byte_runs::is(Sort::Idle, s[i + 1]) {
        return false;
    }
    byte_runs::is(Sort::Idle, s[i + 2])
}

// The place behind idle bytes where the line is idle. Before most frames there is one byte, or there are three.
fn lull(noisy: bool, s: &[u8], i: usize) -> usize
    requires { i < length s.now }
    ensures { Passed crc_of fresh_of s.now noisy i (record { noisy = noisy; count = 0; at = result }) }
{
    if noisy {
        return i;
    }
    if !byte_runs::is(Sort::Idle, s[i]) {
        return i;
    }
    if s.len() - i < 2 {
        return i;
    }
    if s[i + 1] == 0x7e {
        return i + 1;
    }
    if three(s, i) {
        return i + 3;
    }
    i + byte_runs::run(Sort::Idle, s, i)
}

// The same as `quiet`, with the way that most frames begin looked for first, and then some bytes one by one.
fn calm(noisy: bool, s: &[u8], i: usize) -> Heard
    requires { i < length s.now }
    ensures { Passed crc_of fresh_of s.now noisy i result × Awaits s.now result.at }
{
    let start = lull(noisy, s, i);
    if opens(s, start) {
        return Heard {
            noisy,
            count: 0,
            at: start,
        };
    }
    let end = end_of(s.len(), start, 8);
    let f = few(noisy, s, start, end);
    let from = f.at;
    if from < end {
        return f;
    }
    let q = quiet(f.noisy, s, from);
    Heard {
        noisy: q.noisy,
        count: f.count + q.count,
        at: q.at,
    }
}

// So many noises more.
fn add_noise(tallies: &mut [u64; Receiver::NUMBERS], count: usize)
    ensures { tallies_at tallies.new ≡ noised count (tallies_at tallies.old) }
{
    let i = index_of(Tally::Noise);
    tallies[i] = tallies[i].wrapping_add(count as u64);
}

// How many units are held after so many noises.
fn held_after(count: usize, len: usize) -> usize
    ensures { result ≡ held_after count len }
{
    if count == 0 { len } else { 0 }
}

fn line_of(noisy: bool) -> State
    ensures { result ≡ line_of noisy }
{
    if noisy { State::Noise } else { State::Idle }
}

// Up to the opener of a frame, which is taken, or to the slice's end.
pub fn outside(
    noisy: bool,
    len: usize,
    tallies: &mut [u64; Receiver::NUMBERS],
    s: &[u8],
    i: usize,
) -> Course
    requires { (len ≤ limit) × (i < length s.now) }
    ensures { Led crc_of fresh_of s.now (line_of noisy) len i (tallies_at tallies.old) result (tallies_at tallies.new) }
{
    let q = calm(noisy, s, i);
    let count = q.count;
    let at = q.at;
    let held = held_after(count, len);
    add_noise(tallies, count);
    if s.len() - at < 2 {
        if at == s.len() {
            let state = line_of(q.noisy);
            return Course {
                state,
                len: held,
                at,
            };
        }
        return Course {
            state: State::StartOfFrame,
            len: held,
            at: at + 1,
        };
    }
    raise(tallies, Tally::Openings);
    Course {
        state: State::Frame,
        len: 0,
        at: at + 2,
    }
}
