// Four or eight bytes at once as one number, the first byte lowest. A caller lends just those bytes, so that their length need not be asked at run time.
// And single bytes, two as a number, the first byte highest, a number's two, and any number of them copied into a slice.
#![tactic(auto)]

ghost use Rattle.std.specs.Prelude.{◌≡◌, ◌/◌, ◌%◌, ◌^◌, ◌<◌, get_or};
ghost use Rattle.laws.specs.Bytes.{of16};
ghost use Rattle.words.specs.Words.{number_of, put_of, copied_in};

// The number of four bytes; 0 of more or fewer. It differs from `word` in the type of the number: `from_le_bytes` stands at each type apart.
pub fn half(b: &[u8]) -> u64
    ensures { (result ≡ number_of 4 b.now) × (result < 2 ^ 32) }
{
    match b.as_array::<4>() {
        Some(four) => u32::from_le_bytes(*four) as u64,
        None => 0,
    }
}

// The number of eight bytes; 0 of more or fewer.
pub fn word(b: &[u8]) -> u64
    ensures { result ≡ number_of 8 b.now }
{
    match b.as_array::<8>() {
        Some(eight) => u64::from_le_bytes(*eight),
        None => 0,
    }
}

// A word's eight bytes, laid over just eight; over more or fewer nothing.
pub fn put_word(d: &mut [u8], x: u64)
    ensures { d.new ≡ put_of d.old x }
{
    if let Some(eight) = d.as_mut_array::<8>() {
        *eight = x.to_le_bytes();
    }
}

// Two bytes as a number, the higher first.
pub fn be16(hi: u8, lo: u8) -> u16
    ensures { result ≡ of16 hi lo }
{
    u16::from_be_bytes([hi, lo])
}

// The higher byte of a number.
pub fn high(n: u16) -> u8
    ensures { result ≡ n / 256 }
{
    n.to_be_bytes()[0]
}

// The lower byte of a number.
pub fn low(n: u16) -> u8
    ensures { result ≡ n % 256 }
{
    n.to_be_bytes()[1]
}

// A byte of a slice; 0 past its end.
pub fn byte_at(s: &[u8], at: usize) -> u8
    ensures { result ≡ get_or s.now at 0 }
{
    s.get(at).copied().unwrap_or(0)
}

// Copies `s` into `d` from the place `at`; where it does not fit there, nothing.
pub fn copy_in(d: &mut [u8], at: usize, s: &[u8])
    ensures { d.new ≡ copied_in d.old at s.now }
{
    if at <= d.len() && s.len() <= d.len() - at {
        d[at..at + s.len()].copy_from_slice(s);
    }
}
