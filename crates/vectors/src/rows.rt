// The text of a row: `INPUT = EXPECTED # rule`, in hexadecimal; a byte that is no digit does not count; `*N` makes the byte before it stand N times.
ghost use Rattle.std.specs.Prelude.{◌≡◌, ℕ, ◌<◌, ◌≤◌, drop, length, vec_len, IfOk, IfSome};

use std::alloc::{AllocError, Global};

// The most bytes that a side spells, or that a function puts.
pub const ROOM: usize = 70000;

// What a hexadecimal digit stands for.
fn digit(b: u8) -> Option<u8>
    ensures { IfSome result (λ d. d < 16) }
{
    match b {
        b'0'..=b'9' => Some(b - b'0'),
        b'a'..=b'f' => Some(b - b'a' + 10),
        _ => None,
    }
}

// The number that the digits at the front spell, up to the one that takes it above ffff, and what stands behind it.
fn number(text: &[u8]) -> (usize, &[u8])
    ensures value { result.0 < 0x100000 }
    ensures behind { (n : ℕ) × (n ≤ length text.now) × (result.1.now ≡ drop n text.now) }
{
    let mut value = 0;
    let mut rest = text;
    while let [b, behind @ ..] = rest {
        match digit(*b) {
            Some(d) if value <= 0xffff => {
                value = value * 16 + d as usize;
                rest = behind;
            }
            _ => break,
        }
    }
    (value, rest)
}

// The bytes that a side spells, and what stands from its end on, which is `=`, `#`, a line end or nothing. Behind a digit any byte is taken for
// the second one; one that is no digit counts as 0.
pub fn side(alloc: Global, text: &[u8]) -> Result<(Vec<u8>, &[u8]), AllocError>
    ensures { IfOk result (λ r. (vec_len r.0 ≤ 70000) × (length r.1.now ≤ length text.now)) }
{
    let mut bytes = Vec::new(alloc);
    let mut rest = text;
    loop {
        match rest {
            [] | [b'=' | b'#' | b'\n', ..] => return Ok((bytes, rest)),
            [b'*', behind @ ..] => {
                let (times, behind) = number(behind);
                if let Some(last) = bytes.last().copied() {
                    bytes.resize(ROOM.min(bytes.len() + times.saturating_sub(1)), last)?;
                }
                rest = behind;
            }
            [b, behind @ ..] => match (digit(*b), behind) {
                (Some(high), [low, behind @ ..]) => {
                    if bytes.len() < ROOM {
                        bytes.push(high << 4 | digit(*low).unwrap_or(0))?;
                    }
                    rest = behind;
                }
                _ => rest = behind,
            },
        }
    }
}

// The input and the expected bytes of the row at the front; none, if the line there is no row.
pub fn sides(alloc: Global, text: &[u8]) -> Result<Option<(Vec<u8>, Vec<u8>)>, AllocError> {
    let (input, rest) = side(alloc, text)?;
    let [b'=', expected @ ..] = rest else {
        return Ok(None);
    };
    let (expected, _) = side(alloc, expected)?;
    Ok(Some((input, expected)))
}
