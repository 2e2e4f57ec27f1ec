// Runs the vectors of data/ through the functions on payloads, and prints how many rows each file has and how many came out wrong.
// A row is a line `LETTER ANSWER INPUT RULE`; a line that starts with # or has fewer than five bytes is none. tools/vectors/payloads.py makes the files and says what the letters ask.
#![tactic(auto)]

ghost use Rattle.std.specs.Prelude.{◌<◌, ◌≤◌, vec_len, IfSome, OnOk};

use slot_counter::SlotCounter;
use std::env::Env;
use std::fs::File;
use std::io::{Read, Result};
use transport::{PacketNumber, ReceiveResponse, ReceiveResponseError};

// How many bytes of a file are read.
const MOST: u64 = 65536;

// What a hexadecimal digit stands for.
fn digit(b: u8) -> Option<u8>
    ensures { IfSome result (λ d. d < 16) }
{
    match b {
        b'0'..=b'9' => Some(b - b'0'),
        b'a'..=b'f' => Some(b - b'a' + 10),
        _ => None,
    }
}

// The number that digits spell, up to the first byte that is none; its low 64 bits.
fn number(word: &[u8]) -> u64 {
    word.iter()
        .map_while(|b| digit(*b))
        .fold(0, |n, d| n << 4 | u64::from(d))
}

// The bytes that pairs of digits spell, up to the first pair that is none, 512 at most, in the place of what `input` held.
fn bytes(word: &[u8], input: &mut Vec<u8>) -> Result<()>
    ensures { OnOk result (vec_len input.new ≤ 512) }
{
    let (pairs, _) = word.as_chunks::<2>();
    input.clear();
    for [high, low] in pairs {
        match (digit(*high), digit(*low)) {
            (Some(high), Some(low)) if input.len() < 512 => input.push(high << 4 | low)?,
            _ => break,
        }
    }
    Ok(())
}

// The big-endian number at the front; 0 where the bytes end before it does.
fn be16(input: &[u8]) -> u16 {
    input.first_chunk().map_or(0, |b| u16::from_be_bytes(*b))
}

// Letter p: 16 for each whole packet, and 1 if the area ends too short.
fn area(input: &[u8]) -> u64 {
    let t = network::counts(input);
    (t.packets % 65536) * 16 + u64::from(t.short)
}

// Letter s: the length needed, or 22.
fn status(input: &[u8]) -> u64 {
    let word = be16(input);
    if transport::accepted(word) {
        transport::needed(word) as u64
    } else {
        22
    }
}

// Letter r: area, packet number and slot counter, or the refusal and its value.
fn response(input: &[u8]) -> u64 {
    let Some((old, payload)) = input.split_first_chunk() else {
        return 0;
    };
    let old = PacketNumber(u16::from_be_bytes(*old));
    match ReceiveResponse::read(payload, old) {
        Ok((r, at)) => {
            let number = r.packet_number;
            let slot = r.slot_counter;
            (at % 65536) as u64 * 0x100000000 + number.0 as u64 * 0x10000 + slot.0 as u64
        }
        Err(ReceiveResponseError::TooShort(n)) => 0x17000000000000 + (n % 65536) as u64,
        Err(ReceiveResponseError::UnknownStatusType(word)) => 0x16000000000000 + word as u64,
    }
}

// Letter n: the packet number that a low byte gives.
fn packet_number(input: &[u8]) -> u64 {
    let [lo, high, low, ..] = input else {
        return 0;
    };
    let old = PacketNumber(u16::from_be_bytes([*high, *low]));
    transport::interpret_packet_number_lo(*lo, old).0 as u64
}

// Letter c: the slots since, or 0x10000 and the bad slot number.
fn since(input: &[u8]) -> u64 {
    let now = SlotCounter(be16(input));
    let past = SlotCounter(be16(input.get(2..).unwrap_or(&[])));
    match now.slots_since(past) {
        Ok(n) => n as u64,
        Err(bad) => 0x10000 + bad.0 as u64,
    }
}

// Letter k: the epoch's index and the slot number, and 0x40000 more if that is bad.
fn counter(input: &[u8]) -> u64 {
    let c = SlotCounter(be16(input));
    let epoch = c.epoch();
    let index = epoch.index() as u64 * 0x10000;
    match c.slot_number() {
        Ok(n) => index + n.get() as u64,
        Err(bad) => 0x40000 + index + bad.0 as u64,
    }
}

// What the functions answer to an input of a letter.
fn answer(letter: u8, input: &[u8]) -> u64 {
    match letter {
        b'u' => u64::from(utf8::is_utf8(input)),
        b'p' => area(input),
        b's' => status(input),
        b'r' => response(input),
        b'n' => packet_number(input),
        b'c' => since(input),
        _ => counter(input),
    }
}

// Whether a line is a row.
fn is_row(line: &[u8]) -> bool {
    5 <= line.len() && !line.starts_with(b"#")
}

// Whether the answer to a row is the row's. Its input is put into `input`.
fn agrees(row: &[u8], input: &mut Vec<u8>) -> Result<bool> {
    let [letter, _, words @ ..] = row else {
        return Ok(false);
    };
    let mut words = words.split(|b| *b == b' ');
    let (Some(expected), Some(spelled)) = (words.next(), words.next()) else {
        return Ok(false);
    };
    bytes(spelled, input)?;
    Ok(answer(*letter, input) == number(expected))
}

// Runs the file of a path, and prints its line.
fn run(rt: &HostRuntime, path: &str) -> Result<()> {
    let opened = match File::open(rt, path) {
        Ok(opened) => opened,
        Err(why) => return eprintln!(rt; "{path}: {why}"),
    };
    let mut text = Vec::new(rt.alloc());
    opened.take(MOST).read_to_end(&mut text)?;
    let mut input = Vec::new(rt.alloc());
    let mut all = 0u64;
    let mut wrong = 0u64;
    for row in text.split(|b| *b == b'\n').filter(|line| is_row(line)) {
        all = all.saturating_add(1);
        if !agrees(row, &mut input)? {
            wrong = wrong.saturating_add(1);
        }
    }
    println!(rt; "{path} rows {all} wrong {wrong}")
}

// Runs the file that an argument names, and prints its line.
fn run_argument(rt: &HostRuntime, i: usize) -> Result<()> {
    let mut space = io::buffer();
    let length = rt.arg(i, &mut space).unwrap_or(0);
    match str::from_utf8(&space[..length]) {
        Ok(path) => run(rt, path),
        Err(_) => eprintln!(rt; "argument {i} is no text"),
    }
}

fn main(rt: HostRuntime) -> Result<()> {
    for i in 1..=6 {
        run_argument(&rt, i)?;
    }
    Ok(())
}
