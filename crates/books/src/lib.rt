// The books of a stream: what the receiver's functions come to in the grammar's terms. A host that reads a stream in blocks starts with
// `Receiver::new()`, takes each block in by `absorb` (or, frame by frame, by `give`), and asks `told` for the ledger.
#![tactic(auto)]

ghost use Rattle.std.specs.Prelude.{◌≡◌};
ghost use Rattle.crc.specs.Crc.{crc_of};
ghost use Rattle.reading.specs.Grammar.{present};
ghost use Rattle.books.specs.Ledgers.{ledger_at, Ledgered, Absorbed, ToldAs};
ghost use Rattle.books.specs.Gives.{Gave};

use link_feed::Fed;
use link_receive::{OverLimit, Receiver, Stepped};

// The nine numbers that the ledger program prints; `unfinished` is 1 while a frame is open.
#[derive(Clone, Copy)]
pub struct Ledger {
    pub openings: u64,
    pub frames: u64,
    pub runts: u64,
    pub checksums: u64,
    pub giants: u64,
    pub escaped: u64,
    pub broken: u64,
    pub noise: u64,
    pub unfinished: u64,
}

fn ledger_at(r: Receiver) -> Ledger
    ensures { result ≡ ledger_at r }
{
    let t = r.tallies;
    Ledger {
        openings: t.openings,
        frames: t.frames,
        runts: t.runts,
        checksums: t.checksums,
        giants: t.giants,
        escaped: t.escaped,
        broken: t.broken,
        noise: t.noise,
        unfinished: link_receive::open_frames(r.state),
    }
}

// The ledger so far. Refused by 12 if the receiver's length is over its limit.
#[tactic(auto, unfolding(crate::specs::Ledgers::told_of, link_receive::specs::Step::rules_of))]
pub fn told(r: Receiver) -> Result<Ledger, OverLimit>
    ensures { ToldAs crc_of r result }
{
    if Receiver::MAX_FRAME_SIZE < r.len {
        return Err(OverLimit);
    }
    Ok(ledger_at(r))
}

// Takes a whole block in; its frames are not looked at. Refused by 12, with nothing changed, as a step is.
pub fn absorb(r: Receiver, s: &[u8]) -> Stepped
    ensures { Absorbed crc_of r s.now result }
{
    link_feed::extend_from_slice(r, s)
}

// Takes a block in up to its first frame, which it hands out, or its end. Refused by 12, with nothing taken, as a step is.
pub fn give(r: Receiver, s: &[u8]) -> Fed
    ensures { Gave crc_of r s.now result }
{
    link_feed::feed(r, s)
}

// The ledger of a whole slice.
pub fn ledger_of(s: &[u8]) -> Ledger
    ensures { Ledgered crc_of present s.now result }
{
    let r = Receiver::new();
    let x = absorb(r, s);
    ledger_at(x.next)
}
