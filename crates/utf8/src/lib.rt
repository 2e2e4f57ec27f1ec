// Whether bytes are UTF-8 (RFC 3629), in one pass: the test that stands for `str::from_utf8`.
#![tactic(auto)]

ghost use Rattle.std.specs.Prelude.{◌≡◌, ◌↔◌, true, Some};
ghost use Rattle.utf8.specs.Utf8.{Utf8, Text};
ghost use Rattle.utf8.specs.Scan.{want, lead_of, step_of};

// How many bytes a character still wants, and where the next of them must lie.
#[derive(Clone, Copy)]
struct Want {
    left: u8,
    lo: u8,
    hi: u8,
}

fn wants(left: u8, lo: u8, hi: u8) -> Option<Want>
    ensures { result ≡ Some (want left lo hi) }
{
    Some(Want { left, lo, hi })
}

// What a character wants after its first byte; nothing after a byte that begins none.
fn lead(b: u8) -> Option<Want>
    ensures { result ≡ lead_of b }
{
    // most bytes of a text are ASCII, so that these go first
    if b.is_ascii() {
        return wants(0, 0x80, 0xbf);
    }
    match b {
        0xc2..=0xdf => wants(1, 0x80, 0xbf),
        0xe0 => wants(2, 0xa0, 0xbf),
        0xe1..=0xec => wants(2, 0x80, 0xbf),
        0xed => wants(2, 0x80, 0x9f),
        0xee..=0xef => wants(2, 0x80, 0xbf),
        0xf0 => wants(3, 0x90, 0xbf),
        0xf1..=0xf3 => wants(3, 0x80, 0xbf),
        0xf4 => wants(3, 0x80, 0x8f),
        _ => None,
    }
}

// What is wanted after one byte more; nothing after a byte that was not.
fn step(w: Want, b: u8) -> Option<Want>
    ensures { result ≡ step_of w b }
{
    if w.left == 0 {
        return lead(b);
    }
    if b < w.lo || w.hi < b {
        return None;
    }
    wants(w.left - 1, 0x80, 0xbf)
}

// True exactly if the bytes are UTF-8. No bytes are.
pub fn is_utf8(s: &[u8]) -> bool
    ensures { (result ≡ true) ↔ Utf8 s.now }
{
    let mut w = Want {
        left: 0,
        lo: 0x80,
        hi: 0xbf,
    };
    for b in s {
        match step(w, *b) {
            Some(next) => w = next,
            None => return false,
        }
    }
    w.left == 0
}

// True exactly if the bytes are a text: UTF-8, and not empty.
pub fn is_text(s: &[u8]) -> bool
    ensures { (result ≡ true) ↔ Text s.now }
{
    !s.is_empty() && is_utf8(s)
}
