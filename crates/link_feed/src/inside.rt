// An open frame: its units, raw and escaped, and the pair that closes or breaks it.
ghost use Rattle.std.specs.Prelude.{◌+◌, ◌≤◌, length};
ghost use Rattle.crc.specs.Crc.{crc_of};
ghost use Rattle.link_receive.specs.declared.State.TheVariants.{Frame};
ghost use Rattle.link_receive.specs.Step.{room, fresh_of};
ghost use Rattle.link_feed.specs.Advance.{held_of, limit, Ahead, Stretched};

use crate::feeding::{close, raise};
use crate::{Advanced, Units};
use byte_runs::Sort;
use link_receive::{Receiver, State, Tally};

// Whether a 7e stands at one of the two places behind this one, or no two bytes stand there.
fn soon(s: &[u8], i: usize) -> bool
    requires { i + 2 ≤ length s.now }
{
    if s[i + 1] == 0x7e {
        return true;
    }
    if s.len() - i < 3 {
        return true;
    }
    s[i + 2] == 0x7e
}

// The units of an open frame, raw and escaped, as far as there is room and the slice has them whole. A raw byte that has a 7e soon behind it is
// taken by itself: the start of a loop over words would cost more. A step is one byte, a pair or a run, so the place is kept by hand.
fn units(len0: usize, body: &mut [u8; Receiver::ROOM], s: &[u8], i0: usize) -> Units
    requires { (len0 ≤ limit) × (i0 ≤ length s.now) }
    ensures { Ahead crc_of fresh_of s.now body.old len0 i0 body.new result }
{
    let mut len = len0;
    let mut i = i0;
    while 2 <= s.len() - i {
        let b = s[i];
        let c = s[i + 1];
        if b == 0x7e {
            match escaping::unescaped_byte(c) {
                Ok(d) => {
                    if Receiver::MAX_FRAME_SIZE <= len {
                        break;
                    }
                    body[len] = d;
                    len += 1;
                    i += 2;
                    continue;
                }
                Err(_) => {
                    return Units {
                        len,
                        at: i,
                        code: Some(c),
                    };
                }
            }
        }
        if Receiver::MAX_FRAME_SIZE <= len {
            break;
        }
        if soon(s, i) {
            body[len] = b;
            len += 1;
            i += 1;
            continue;
        }
        let k = byte_runs::copy_run(Sort::Raw, body, len, s, i);
        len += k;
        i += k;
    }
    Units {
        len,
        at: i,
        code: None,
    }
}

// An open frame up to its end, if the slice has the pair that closes or breaks it.
pub fn inside(
    len: usize,
    tallies: &mut [u64; Receiver::NUMBERS],
    body: &mut [u8; Receiver::ROOM],
    s: &[u8],
    i: usize,
) -> Advanced
    requires { (len ≤ limit) × (i ≤ length s.now) }
    ensures { Stretched crc_of s.now (held_of State.Frame body.old len tallies.old) i (held_of result.state body.new result.len tallies.new) result.frame result.at }
{
    let p = units(len, body, s, i);
    let Some(code) = p.code else {
        return Advanced {
            state: State::Frame,
            len: p.len,
            frame: None,
            at: p.at,
        };
    };
    let at = p.at + 2;
    if code == 0x08 {
        let frame = close(tallies, body, p.len);
        return Advanced {
            state: State::Idle,
            len: 0,
            frame,
            at,
        };
    }
    raise(tallies, Tally::Broken);
    // No frame has more units. Asked here, it keeps the compiler from raising both tallies as one word of 16 bytes, which would have to wait for
    // the last store to either.
    if p.len <= Receiver::MAX_FRAME_SIZE {
        raise(tallies, Tally::Noise);
    }
    Advanced {
        state: State::Noise,
        len: 0,
        frame: None,
        at,
    }
}
