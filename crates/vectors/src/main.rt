// Replays the rows of data/ on the leaves and on `encode`, and prints for each file how many of its rows agree.
// tools/vectors/make.py writes the files; the head of each says what a row holds.
#![tactic(auto)]

mod rows;
mod runs;

use std::fs::File;
use std::io::{Read, Result};

// How many bytes of a file are read.
const MOST: u64 = 65536;

// Replays a file of data/ on a function, and prints its line.
fn file<F: Fn(&[u8], &mut Vec<u8>) -> Result<()>>(
    rt: &HostRuntime,
    path: &str,
    run: &F,
) -> Result<()>
    requires { F.IsAlwaysCallable run.now }
{
    let opened = match File::open(rt, path) {
        Ok(opened) => opened,
        Err(why) => return eprintln!(rt; "{path}: {why}"),
    };
    let mut text = Vec::new(rt.alloc());
    opened.take(MOST).read_to_end(&mut text)?;
    let mut all = 0u64;
    let mut agreed = 0u64;
    let mut rest = text.as_slice();
    while !rest.is_empty() {
        // where a digit ends a line, a side goes on in the next one
        if let Some((input, expected)) = rows::sides(rt.alloc(), rest)? {
            let mut got = Vec::new(rt.alloc());
            run(&input, &mut got)?;
            all = all.saturating_add(1);
            if got == expected {
                agreed = agreed.saturating_add(1);
            }
        }
        rest = match rest.iter().position(|b| *b == b'\n') {
            Some(end) => &rest[end + 1..],
            None => &[],
        };
    }
    println!(rt; "{path}: {agreed} of {all} rows agree")
}

fn main(rt: HostRuntime) -> Result<()> {
    file(&rt, "crc", &runs::crc)?;
    file(&rt, "escaped_length", &runs::escaped_length)?;
    file(&rt, "escape", &runs::escape)?;
    file(&rt, "unescaped_byte", &runs::unescaped_byte)?;
    file(&rt, "gateway_id", &runs::gateway_id)?;
    file(&rt, "address", &runs::address)?;
    file(&rt, "number", &runs::number)?;
    file(&rt, "encode", &runs::encode)
}
