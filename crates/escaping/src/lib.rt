// Gateway link layer escaping (link/escaping.rs).
#![tactic(auto)]

ghost use Rattle.std.specs.Prelude.{◌≡◌, ◌+◌, ◌≤◌, length, leb, is_some};
ghost use Rattle.std.proofs.Math.Seq.{paste};
ghost use Rattle.laws.specs.Bytes.{laid_over};
ghost use Rattle.escaping.specs.Escapes.{code_if, escaped_byte, escaped};
ghost use Rattle.escaping.specs.Handed.{handed_byte, handed_length, handed_written, input_limit, unescape_handed, length_handed, escape_handed, escape_bytes};

use byte_runs::Sort;

// The longest input that is escaped or measured.
pub const INPUT_LIMIT: usize = 65536;

// The refusal 10: an input of over 65,536 bytes.
#[derive(Clone, Copy, PartialEq, Eq)]
pub struct TooLong;

// The refusals of `escape`: 10, and 11, too little room.
#[derive(Clone, Copy, PartialEq, Eq)]
pub enum EscapeError {
    TooLong,
    NoRoom,
}

// The refusal 14: a code above 06.
#[derive(Clone, Copy, PartialEq, Eq)]
pub struct InvalidEscapeSequence;

// The code of a byte that is escaped; of any other there is none.
fn code_of(b: u8) -> Option<u8>
    ensures { result ≡ code_if b }
{
    match b {
        0x7e => Some(0x00),
        0x24 => Some(0x01),
        0x23 => Some(0x02),
        0x25 => Some(0x03),
        0xa4 => Some(0x04),
        0xa3 => Some(0x05),
        0xa5 => Some(0x06),
        _ => None,
    }
}

// Whether a byte is one of the seven that are escaped: one that does not stand for itself. A count by `code_of`, which jumps for each byte, takes
// a third longer.
fn is_escaped(b: u8) -> bool
    ensures { result ≡ is_some (code_if b) }
{
    !byte_runs::is(Sort::Plain, b)
}

// The length of the escaped form of an input of at most 65,536 bytes.
fn length_of(input: &[u8]) -> usize
    requires { length input.now ≤ input_limit }
    ensures { result ≡ length (escaped input.now) }
{
    let sevens = input.iter().filter(|b| is_escaped(**b)).count();
    input.len() + sevens
}

// The number of bytes that the escaped form of `input` takes. Refused by 10 if the input is over 65,536 bytes.
pub fn escaped_length(input: &[u8]) -> Result<usize, TooLong>
    ensures { handed_length result ≡ length_handed input.now }
{
    if INPUT_LIMIT < input.len() {
        return Err(TooLong);
    }
    Ok(length_of(input))
}

// Whether the escaped form of an input of at most 65,536 bytes fits into so much room. Twice its length is always enough.
fn has_room(input: &[u8], room: usize) -> bool
    requires { length input.now ≤ input_limit }
    ensures { result ≡ leb (length (escaped input.now)) room }
{
    if 2 * input.len() <= room {
        return true;
    }
    length_of(input) <= room
}

// Writes the escaped form of a byte at a place with room for it; the place after it.
fn write_byte(b: u8, out: &mut [u8], k: usize) -> usize
    requires { k + length (escaped_byte b) ≤ length out.old }
    ensures { (result ≡ k + length (escaped_byte b)) × (out.new ≡ paste out.old k (escaped_byte b) (length (escaped_byte b))) }
{
    match code_of(b) {
        Some(code) => {
            out[k] = 0x7e;
            out[k + 1] = code;
            k + 2
        }
        None => {
            out[k] = b;
            k + 1
        }
    }
}

// Writes the escaped form of `input` to the start of `out`, which has room for it; its length. Runs of bytes that stand for
// themselves are copied at once.
fn write_escaped(input: &[u8], out: &mut [u8]) -> usize
    requires { length (escaped input.now) ≤ length out.old }
    ensures { (result ≡ length (escaped input.now)) × (out.new ≡ laid_over (escaped input.now) out.old) }
{
    let mut k = 0;
    let mut i = 0;
    while i < input.len() {
        let n = byte_runs::copy_run(Sort::Plain, out, k, input, i);
        k += n;
        i += n;
        if i == input.len() {
            break;
        }
        k = write_byte(input[i], out, k);
        i += 1;
    }
    k
}

// Escapes `input` to the start of `out`. Refused by 10, then 11; a refusal leaves `out` as it was.
pub fn escape(input: &[u8], out: &mut [u8]) -> Result<usize, EscapeError>
    ensures answer { handed_written result ≡ escape_handed input.now (length out.old) }
    ensures bytes { out.new ≡ escape_bytes input.now out.old }
{
    if INPUT_LIMIT < input.len() {
        return Err(EscapeError::TooLong);
    }
    if has_room(input, out.len()) {
        let n = write_escaped(input, out);
        return Ok(n);
    }
    Err(EscapeError::NoRoom)
}

// The byte that stands behind 7e and `code`. Refused by 14 if the code is above 06.
pub fn unescaped_byte(code: u8) -> Result<u8, InvalidEscapeSequence>
    ensures { handed_byte result ≡ unescape_handed code }
{
    match code {
        0x00 => Ok(0x7e),
        0x01 => Ok(0x24),
        0x02 => Ok(0x23),
        0x03 => Ok(0x25),
        0x04 => Ok(0xa4),
        0x05 => Ok(0xa3),
        0x06 => Ok(0xa5),
        _ => Err(InvalidEscapeSequence),
    }
}
