// Runs the rows of data/ through the event records' functions, and prints for each file how many of its rows agree. A row that does not is
// named by its rule. tools/vectors/records.py makes the files and says what a row holds.
#![tactic(auto)]

ghost use Rattle.std.specs.Prelude.{◌≡◌, ◌-◌, ◌<◌, ◌≤◌, length, MatchOption};

use address::GatewayID;
use event_record::RecordError;
use std::fs::File;
use std::io::{Print, Read, Result};

// How many bytes of a file are read.
const MOST: u64 = 65536;

// What an encoder gives.
type Recorded = std::result::Result<usize, RecordError>;

// A row: what is asked, by the file's own number, the answer that is wanted, and what the function is given. `third` is what an encoder leaves
// in its buffer.
#[derive(Clone, Copy)]
struct Row<'a> {
    op: u8,
    answer: u16,
    gateway: GatewayID,
    room: u16,
    request_type: u8,
    response_type: u8,
    first: &'a [u8],
    second: &'a [u8],
    third: &'a [u8],
    rule: &'a [u8],
}

// The head of the row at the front; a byte that is missing counts as 0.
fn head_of(text: &[u8]) -> [u8; 16] {
    let mut head = [0; 16];
    for (to, from) in head.iter_mut().zip(text) {
        *to = *from;
    }
    head
}

// The part of `n` bytes at the front, and what stands behind it; nothing is either, where the bytes end before the part does.
fn part(s: &[u8], n: usize) -> (&[u8], &[u8])
    ensures { length result.1.now ≤ length s.now - n }
{
    s.split_at_checked(n).unwrap_or((&[], &[]))
}

// The row at the front, and what stands behind it; none at the end. Of a row that is cut off, a part that does not lie within counts as empty.
fn row_at(text: &[u8]) -> Option<(Row<'_>, &[u8])>
    ensures { MatchOption result (length text.now ≡ 0) (λ r. (0 < length text.now) × (length r.1.now ≤ length text.now - 16)) }
{
    if text.is_empty() {
        return None;
    }
    let [
        op,
        a0,
        a1,
        g0,
        g1,
        r0,
        r1,
        request_type,
        response_type,
        x0,
        x1,
        y0,
        y1,
        z0,
        z1,
        named,
    ] = head_of(text);
    let (_, rest) = part(text, 16);
    let (first, rest) = part(rest, u16::from_be_bytes([x0, x1]) as usize);
    let (second, rest) = part(rest, u16::from_be_bytes([y0, y1]) as usize);
    let (third, rest) = part(rest, u16::from_be_bytes([z0, z1]) as usize);
    let (rule, rest) = part(rest, named as usize);
    let row = Row {
        op,
        answer: u16::from_be_bytes([a0, a1]),
        gateway: GatewayID(u16::from_be_bytes([g0, g1])),
        room: u16::from_be_bytes([r0, r1]),
        request_type,
        response_type,
        first,
        second,
        third,
        rule,
    };
    Some((row, rest))
}

fn encode(row: Row<'_>, out: &mut [u8]) -> Recorded {
    let gateway = row.gateway;
    let first = row.first;
    match row.op {
        1 => event_record::enumeration_started(out, gateway),
        2 => event_record::identity(out, gateway, first),
        3 => event_record::version(out, gateway, first),
        4 => event_record::enumeration_ended(out, gateway),
        5 => event_record::slot_captured(out, gateway),
        6 => {
            let [high, low, sound] = [0, 1, 2].map(|i| first.get(i).copied().unwrap_or(0));
            event_record::slot_counter(out, gateway, u16::from_be_bytes([high, low]), sound == 1)
        }
        7 => event_record::packet(out, gateway, first),
        _ => event_record::command(
            out,
            gateway,
            row.request_type,
            row.second,
            row.response_type,
            first,
        ),
    }
}

// What an encoder hands back, as a row has it.
fn handed(r: Recorded) -> u16 {
    match r {
        Ok(n) => (n % 65536) as u16,
        Err(RecordError::InvalidGatewayID) => 0xff00 + 13,
        Err(RecordError::Unsound) => 0xff00 + 41,
        Err(RecordError::NoRoom) => 0xff00 + 40,
    }
}

// Whether the encoder gives the row's answer, and leaves the row's bytes in the buffer.
fn encodes(row: Row<'_>) -> bool {
    let mut buffer = [0xeeu8; 2048];
    match buffer.get_mut(..row.room as usize) {
        Some(out) => handed(encode(row, out)) == row.answer && &*out == row.third,
        None => false,
    }
}

// Whether the row's answer is where the record ends that stands at the row's place, or ffff for none.
fn stands(row: Row<'_>) -> bool {
    match sound_record::sound_at(row.first, row.room as usize) {
        Some(end) => end == row.answer as usize,
        None => row.answer == 0xffff,
    }
}

fn agrees(row: Row<'_>) -> bool {
    match row.op {
        0 => u16::from(sound_record::sound(row.first)) == row.answer,
        9 => stands(row),
        _ => encodes(row),
    }
}

// Runs each row of a file, and prints the file's line.
fn file(rt: &HostRuntime, path: &str) -> Result<()> {
    let opened = match File::open(rt, path) {
        Ok(opened) => opened,
        Err(why) => return eprintln!(rt; "{path}: {why}"),
    };
    let mut text = Vec::new(rt.alloc());
    opened.take(MOST).read_to_end(&mut text)?;
    let mut all = 0u64;
    let mut agreed = 0u64;
    // the first line says what the file is
    let mut rest = match text.iter().position(|b| *b == b'\n') {
        Some(end) => &text[end + 1..],
        None => &text[..0],
    };
    while let Some((row, behind)) = row_at(rest) {
        all = all.saturating_add(1);
        if agrees(row) {
            agreed = agreed.saturating_add(1);
        } else {
            rt.write_all(row.rule)?;
            rt.write_all(b"\n")?;
        }
        rest = behind;
    }
    println!(rt; "{path}: {agreed} of {all} rows agree")
}

fn main(rt: HostRuntime) -> Result<()> {
    file(&rt, "sound")?;
    file(&rt, "damaged")?;
    file(&rt, "places")?;
    file(&rt, "encoded")
}
