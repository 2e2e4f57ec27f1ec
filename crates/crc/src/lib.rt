// The 16-bit check of the link layer (link/crc.rs). 01's stand-in: the reflected CRC-16 with polynomial 0x8408, start 0.
// It has two forms with one contract, the bitwise `crc_from` of specs/Crc.antt, so that they are proved equal. by_table::crc_plain goes by a
// table, a byte at a time, and its proof asks of the table nothing but its rule; by_words::crc_fast goes by words and rests on the powers of
// this polynomial. The line in `crc` says which of them is used. What a true crc.rs moves here:
// - another start: START below and `start` in specs/Crc.antt. Every proof stands.
// - another table: TABLE in table.rt, `polynomial` in specs/Crc.antt, and the line in `crc` becomes `by_table::crc_plain(START, buffer)`. The
//   proofs of by_table.rt and of `crc` stand. by_words.rt falls, and goes: with its proofs, and the laws and definitions that it alone cites.
// - another algorithm: `crc_of` in specs/Crc.antt, and the code of `crc` with its proof.
// Above this crate contracts name `crc_of`, and no code or proof changes. Rows, captures and printed lines do: docs/DIFFERENCES.md lists them.
#![tactic(auto)]

ghost use Rattle.std.specs.Prelude.{◌≡◌};
ghost use Rattle.crc.specs.Crc.{crc_of};

mod by_table;
mod by_words;
mod table;

pub use table::TABLE;

pub const START: u16 = 0x0000;

// The check of a slice.
pub fn crc(buffer: &[u8]) -> u16
    ensures { result ≡ crc_of buffer.now }
{
    by_words::crc_fast(START, buffer)
}
