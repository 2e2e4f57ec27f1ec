// The check by words of 64 bits, with no table: the powers of this polynomial are sparse. Another polynomial asks for other words than these.
ghost use Rattle.std.specs.Prelude.{◌≡◌, [], ◌∷◌, ◌+◌, ◌^◌, ◌≤◌, ◌<◌, length, drop};
ghost use Rattle.crc.specs.Crc.{crc_bits, crc_from};
ghost use Rattle.crc.specs.Words.{le_at, crc_words};

use crate::by_table::crc_plain;

// The four bytes at i, the first lowest. It differs from `word_at` as `words::half` does from `words::word`: a number has its length in its type.
fn half_at(b: &[u8], i: usize) -> u64
    requires { i + 4 ≤ length b.now }
    ensures { (result ≡ le_at b.now i 0 4) × (result < 2 ^ 32) }
{
    let e = i + 4;
    words::half(&b[i..e])
}

// The eight bytes at i, the first lowest.
fn word_at(b: &[u8], i: usize) -> u64
    requires { i + 8 ≤ length b.now }
    ensures { result ≡ le_at b.now i 0 8 }
{
    let e = i + 8;
    words::word(&b[i..e])
}

// 64 bits of the check, as a word that is still to be settled: the fourth power is x^64 + x^48 + x^20 + 1.
fn fold(x: u64) -> u64
    ensures { crc_bits 64 result ≡ crc_bits 128 x }
{
    let u = x ^ (x << 32);
    let q = u ^ (u << 16) ^ (u << 44);
    q ^ (q >> 20) ^ (q >> 48)
}

// What the 64 bits of a word come to.
fn settle(x: u64) -> u64
    ensures { result ≡ crc_bits 64 x }
{
    let t = x ^ (x << 32);
    let u = t ^ (t << 16) ^ (t << 44);
    let v = u ^ (u << 8) ^ (u << 22) ^ (u << 32);
    let q = v ^ (v << 4) ^ (v << 11) ^ (v << 16);
    (q >> 60) ^ (q >> 53) ^ (q >> 48)
}

// Four words as one: by the eighth power, x^128 + x^96 + x^40 + 1, a word is passed on to the two after it.
fn joined(a: u64, b: u64, c: u64, d: u64) -> u64
    ensures { crc_bits 64 result ≡ crc_words 0 (a ∷ b ∷ c ∷ d ∷ []) }
{
    let u = a ^ (a << 32);
    let v = b ^ ((u >> 32) ^ (u << 24));
    let w = v ^ (v << 32);
    let x = c ^ ((u >> 40) ^ u) ^ ((w >> 32) ^ (w << 24));
    (d ^ ((w >> 40) ^ w)) ^ fold(x)
}

// A word with the bytes from i on, at most seven, taken in: they stand in the top of the last word.
fn tail(x: u64, b: &[u8], i: usize) -> u64
    requires { (8 ≤ i) × (i ≤ length b.now) × (length b.now < i + 8) }
    ensures { crc_bits 64 result ≡ crc_from (crc_bits 64 x) (drop i b.now) }
{
    let n = b.len();
    if i == n {
        return x;
    }
    let r = n - i;
    let low = r * 8;
    let high = (8 - r) * 8;
    let last = word_at(b, n - 8) >> high << high;
    last ^ (x >> low) ^ fold(x << high)
}

// The check of four to seven bytes.
fn crc_few(start: u16, b: &[u8]) -> u64
    requires { (4 ≤ length b.now) × (length b.now < 8) }
    ensures { result ≡ crc_from start b.now }
{
    let n = b.len();
    let high = (8 - n) * 8;
    let upper = half_at(b, n - 4) >> high;
    settle((start as u64 ^ half_at(b, 0) ^ (upper << 32)) << high)
}

// The check of just four bytes, as of a frame with no payload: by a way that is shorter than `crc_few`, since of `settle` the lower half of the
// word asks for nothing.
fn crc_four(start: u16, b: &[u8]) -> u64
    requires { length b.now ≡ 4 }
    ensures { result ≡ crc_from start b.now }
{
    settle((start as u64 ^ half_at(b, 0)) << 32)
}

// The check of eight bytes or more, a word at a time.
fn crc_words(start: u16, b: &[u8]) -> u64
    requires { 8 ≤ length b.now }
    ensures { result ≡ crc_from start b.now }
{
    let (chunks, _) = b.as_chunks::<8>();
    let mut x = start as u64 ^ word_at(b, 0);
    for chunk in &chunks[1..] {
        x = words::word(chunk) ^ fold(x);
    }
    settle(tail(x, b, 8 * chunks.len()))
}

// A word as it is, of which 64 bits are all.
fn whole(x: u64) -> u64
    ensures { (result ≡ x) × (result < 2 ^ 64) }
{
    x
}

// The check of 32 bytes or more: by the sixteenth power, x^256 + x^192 + x^80 + 1, a word is passed on to the four after it.
fn crc_many(start: u16, b: &[u8]) -> u64
    requires { 32 ≤ length b.now }
    ensures { result ≡ crc_from start b.now }
{
    let (chunks, _) = b.as_chunks::<8>();
    let mut t = start as u64 ^ word_at(b, 0);
    let mut u = word_at(b, 8);
    let mut v = word_at(b, 16);
    let mut w = word_at(b, 24);
    for chunk in &chunks[4..] {
        let x = whole(t);
        t = u ^ x;
        u = v ^ (x << 48);
        v = w ^ (x >> 16);
        w = words::word(chunk) ^ x;
    }
    settle(tail(joined(t, u, v, w), b, 8 * chunks.len()))
}

// The check of four bytes or more.
fn crc_wide(start: u16, b: &[u8]) -> u64
    requires { 4 ≤ length b.now }
    ensures { result ≡ crc_from start b.now }
{
    match b.len() {
        4 => crc_four(start, b),
        5..=7 => crc_few(start, b),
        8..=31 => crc_words(start, b),
        _ => crc_many(start, b),
    }
}

// The check from any start: up to three bytes by the table, more by words.
pub fn crc_fast(start: u16, buffer: &[u8]) -> u16
    ensures { result ≡ crc_from start buffer.now }
{
    if buffer.len() < 4 {
        return crc_plain(start, buffer);
    }
    crc_wide(start, buffer) as u16
}
