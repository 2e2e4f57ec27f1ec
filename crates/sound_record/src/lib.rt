// Event records, a house form: whether one is sound, and whether one stands at a place of a log.
#![tactic(auto)]

ghost use Rattle.std.specs.Prelude.{◌≡◌, ◌+◌};
ghost use Rattle.laws.specs.Bytes.{of16};
ghost use Rattle.sound_record.specs.Kinds.{number_of, Numbered};
ghost use Rattle.sound_record.specs.Record.{written, body_start, sound_body, sound_at, stands_at};

use words::be16;

// The version that is written.
pub const VERSION: u8 = 1;

// Where version, kind and gateway stand in a record of any version.
const VERSION_AT: usize = 2;

const KIND_AT: usize = 3;

const GATEWAY_AT: usize = 4;

// Where the body starts in a record of the version that is written.
pub const BODY_AT: usize = 6;

// The kinds of records, each under its number.
#[derive(Clone, Copy, PartialEq, Eq)]
pub enum Kind {
    EnumerationStarted = 1,
    Identity,
    VersionText,
    EnumerationEnded,
    SlotCaptured,
    SlotCounter,
    Packet,
    Command,
}

// A number that no kind has.
#[derive(Clone, Copy, PartialEq, Eq)]
pub struct UnknownKind;

impl TryFrom<u8> for Kind {
    type Error = UnknownKind;

    ghost try_from_gives = { Numbered };

    fn try_from(number: u8) -> Result<Self, UnknownKind> {
        match number {
            1 => Ok(Kind::EnumerationStarted),
            2 => Ok(Kind::Identity),
            3 => Ok(Kind::VersionText),
            4 => Ok(Kind::EnumerationEnded),
            5 => Ok(Kind::SlotCaptured),
            6 => Ok(Kind::SlotCounter),
            7 => Ok(Kind::Packet),
            8 => Ok(Kind::Command),
            _ => Err(UnknownKind),
        }
    }
}

impl From<Kind> for u8 {
    ghost from_gives = { λ kind number. number ≡ number_of kind };

    fn from(kind: Kind) -> u8 {
        kind as u8
    }
}

impl Kind {
    // Whether the bytes are a body that a record of this kind may have.
    pub fn allows(self, body: &[u8]) -> bool
        ensures { result ≡ sound_body written (number_of self) body.now }
    {
        let n = body.len();
        match self {
            Kind::EnumerationStarted | Kind::EnumerationEnded | Kind::SlotCaptured => n == 0,
            Kind::Identity => n == 8,
            Kind::VersionText => n <= 1024 && utf8::is_text(body),
            Kind::SlotCounter => n == 3 && body[2] <= 1,
            // the seventh byte says how many bytes follow it
            Kind::Packet => 7 <= n && 7 + usize::from(body[6]) == n,
            // request type, request payload length, request payload, response type, response payload
            Kind::Command => match body {
                [_, size, _, ..] => n <= 1025 && 3 + usize::from(*size) <= n,
                _ => false,
            },
        }
    }
}

// Whether the bytes are a body that a record of this kind may have.
pub fn sound_body(kind: u8, body: &[u8]) -> bool
    ensures { result ≡ sound_body written kind body.now }
{
    match Kind::try_from(kind) {
        Ok(known) => known.allows(body),
        Err(UnknownKind) => false,
    }
}

// Where the body starts in a record of a version.
fn body_start(version: u8) -> usize
    ensures { result ≡ body_start version }
{
    BODY_AT
}

// How many bytes a record has whose first two bytes are these: they count what follows them.
fn size_of(hi: u8, lo: u8) -> usize
    ensures { result ≡ 2 + of16 hi lo }
{
    usize::from(be16(hi, lo)) + 2
}

// Whether the bytes are one sound record of a version.
fn sound_version(version: u8, bytes: &[u8]) -> bool
    ensures { result ≡ sound_at version bytes.now }
{
    let Some(body) = bytes.get(body_start(version)..) else {
        return false;
    };
    size_of(bytes[0], bytes[1]) == bytes.len()
        && bytes[VERSION_AT] == version
        && bytes[GATEWAY_AT] <= 0x7f
        && sound_body(bytes[KIND_AT], body)
}

// Whether the bytes are one sound record of version 1.
pub fn sound(bytes: &[u8]) -> bool
    ensures { result ≡ sound_at written bytes.now }
{
    sound_version(VERSION, bytes)
}

// Where a sound record of a version that stands at a place of a log ends, if one stands there.
fn sound_version_at(version: u8, log: &[u8], at: usize) -> Option<usize>
    ensures { result ≡ stands_at version log.now at }
{
    let rest = log.get(at..)?;
    let [hi, lo, ..] = rest else {
        return None;
    };
    let n = size_of(*hi, *lo);
    let record = rest.get(..n)?;
    sound_version(version, record).then_some(at + n)
}

// Where a sound record of version 1 that stands at a place of a log ends, if one stands there.
pub fn sound_at(log: &[u8], at: usize) -> Option<usize>
    ensures { result ≡ stands_at written log.now at }
{
    sound_version_at(VERSION, log, at)
}
