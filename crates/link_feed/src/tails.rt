// What an overlong tail skips. A pair that ends it has 07 or 08 for its second byte, so all up to the next of these is skipped at once; whether
// that one ends a pair is told by the 7e before it.
ghost use Rattle.std.specs.Prelude.{◌≡◌, ◌-◌, ◌≤◌, length};
ghost use Rattle.crc.specs.Crc.{crc_of};
ghost use Rattle.link_receive.specs.Step.{fresh_of};
ghost use Rattle.link_feed.specs.Advance.{half_at, Skipped};

use crate::outside::end_of;
use byte_runs::Sort;

// Whether the bytes of a tail from i to j end within a pair: of a row of 7e before j every second one ends a pair, so an odd one is left.
fn half(s: &[u8], i: usize, j: usize) -> bool
    requires { (i ≤ j) × (j ≤ length s.now) }
    ensures { result ≡ half_at s.now i (j - i) }
{
    let mut odd = false;
    let mut q = j;
    while i < q {
        if s[q - 1] != 0x7e {
            break;
        }
        odd = !odd;
        q -= 1;
    }
    odd
}

// Units of a tail one by one, up to a place, or to the pair that ends the tail or a lone last 7e before it. A step is one byte or two.
fn few(s: &[u8], i0: usize, end: usize) -> usize
    requires { (i0 ≤ end) × (end ≤ length s.now) }
    ensures { Skipped crc_of fresh_of s.now i0 result }
{
    let mut i = i0;
    while i < end {
        if s[i] != 0x7e {
            i += 1;
            continue;
        }
        if s.len() - i < 2 {
            break;
        }
        if !byte_runs::is(Sort::Calm, s[i + 1]) {
            break;
        }
        i += 2;
    }
    i
}

// How many units are taken one by one after a run: none after a long one, after each short one on end some more.
fn paced(pace: usize, went: usize) -> usize {
    if 4 <= went {
        return 0;
    }
    if pace < 64 { pace + 8 } else { 64 }
}

// What an overlong tail skips, as far as the slice has it whole: all before the pair that opens or closes a frame. All up to the next 07 or 08
// goes at once; where it ends no pair, it is skipped too. A step is as long as its run. Within the loop of `advance` a long run would want for
// registers and take half as long again.
#[inline(never)]
pub fn tail(s: &[u8], i0: usize) -> usize
    requires { i0 ≤ length s.now }
    ensures { Skipped crc_of fresh_of s.now i0 result }
{
    let mut i = i0;
    let mut pace = 0;
    while i < s.len() {
        let k = byte_runs::run(Sort::Calm, s, i);
        let j = i + k;
        if half(s, i, j) {
            return j - 1;
        }
        if j == s.len() {
            return j;
        }
        let next = j + 1;
        pace = paced(pace, k);
        let end = end_of(s.len(), next, pace);
        i = few(s, next, end);
        if i < end {
            break;
        }
    }
    i
}
