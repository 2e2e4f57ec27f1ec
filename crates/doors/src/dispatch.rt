// The transport receiver's doors. Its nine arrays are lent, and are left as the step leaves them.
ghost use Rattle.std.specs.Prelude.{◌≡◌};
ghost use Rattle.transport_receiver.specs.Lent.{arrays, reset_in};
ghost use Rattle.doors.specs.Dispatch.{crossed_by, step_answer, step_news, stepped_at, reset_answer};

use answers::{Accepted, Answer};
use link::Type;
use transport_receiver::POOL;

// How an answer crosses: as one number, and what it says besides.
#[derive(Clone, Copy)]
struct Crossed {
    number: u64,
    news: [u64; 4],
}

// The number: a refusal by its number in 01's table; 0 for a frame that is counted and no more, 9 for a command kept, and otherwise the kind of
// its event in 01's event record. Besides: the value of a refusal that has one; the gateway named; number, slot counter, repeat mark and where the
// packets start; or the request's place, type and length and the response's type. Zeros for any other.
fn crossed_by(answer: Answer) -> Crossed
    ensures { result ≡ crossed_by answer }
{
    match answer {
        Err(refusal) => Crossed {
            number: (refusal.number() as u64) << 32,
            news: [refusal.needed().unwrap_or(0) as u64, 0, 0, 0],
        },
        Ok(Accepted::Counted) => Crossed {
            number: 0,
            news: [0, 0, 0, 0],
        },
        Ok(Accepted::CommandKept) => Crossed {
            number: 9,
            news: [0, 0, 0, 0],
        },
        Ok(Accepted::EnumerationStarted { gateway }) => Crossed {
            number: 1,
            news: [gateway.0 as u64, 0, 0, 0],
        },
        Ok(Accepted::IdentityObserved) => Crossed {
            number: 2,
            news: [0, 0, 0, 0],
        },
        Ok(Accepted::VersionObserved) => Crossed {
            number: 3,
            news: [0, 0, 0, 0],
        },
        Ok(Accepted::EnumerationEnded) => Crossed {
            number: 4,
            news: [0, 0, 0, 0],
        },
        Ok(Accepted::SlotCounterCaptured) => Crossed {
            number: 5,
            news: [0, 0, 0, 0],
        },
        Ok(
            Accepted::SlotCounterObserved {
                number,
                slot,
                repeat,
                area,
            },
        ) => Crossed {
            number: 6,
            news: [number.0 as u64, slot.0 as u64, repeat as u64, area as u64],
        },
        Ok(
            Accepted::CommandExecuted {
                place,
                request,
                length,
                response,
            },
        ) => Crossed {
            number: 8,
            news: [
                place as u64,
                request.0 as u64,
                length as u64,
                response.0 as u64,
            ],
        },
    }
}

// One frame From or To a gateway.
#[unsafe(no_mangle)]
pub extern "C" fn johkkesir_transport_step(
    nkeys: &mut [u32; 32],
    numbers: &mut [u16; 32],
    skeys: &mut [u32; 32],
    sequences: &mut [u8; 32],
    ckeys: &mut [u32; 64],
    ctypes: &mut [u8; 64],
    clengths: &mut [u16; 64],
    cpayloads: &mut [u8; POOL],
    counters: &mut [u64; 33],
    news: &mut [u64; 4],
    from: bool,
    id: u16,
    frame_type: u16,
    payload: &[u8],
) -> u64
    ensures value { result ≡ step_answer (stepped_at (arrays nkeys.old numbers.old skeys.old sequences.old ckeys.old ctypes.old clengths.old cpayloads.old counters.old) from id frame_type payload.now).answer }
    ensures news_after { news.new ≡ step_news (stepped_at (arrays nkeys.old numbers.old skeys.old sequences.old ckeys.old ctypes.old clengths.old cpayloads.old counters.old) from id frame_type payload.now).answer }
    ensures counters_after { arrays nkeys.new numbers.new skeys.new sequences.new ckeys.new ctypes.new clengths.new cpayloads.new counters.new ≡ (stepped_at (arrays nkeys.old numbers.old skeys.old sequences.old ckeys.old ctypes.old clengths.old cpayloads.old counters.old) from id frame_type payload.now).receiver }
{
    let address = crate::address_toward(from, id);
    let a = transport_receiver::step_in(
        nkeys,
        numbers,
        skeys,
        sequences,
        ckeys,
        ctypes,
        clengths,
        cpayloads,
        counters,
        address,
        Type(frame_type),
        payload,
    );
    let c = crossed_by(a);
    let n = c.news;
    *news = n;
    c.number
}

// The counters to 0, and nothing else; or 12, and nothing changes.
#[tactic(auto, unfolding(transport_receiver::specs::Lent::reset_in))]
#[unsafe(no_mangle)]
pub extern "C" fn johkkesir_transport_reset(
    nkeys: &mut [u32; 32],
    numbers: &mut [u16; 32],
    skeys: &mut [u32; 32],
    sequences: &mut [u8; 32],
    ckeys: &mut [u32; 64],
    ctypes: &mut [u8; 64],
    clengths: &mut [u16; 64],
    cpayloads: &mut [u8; POOL],
    counters: &mut [u64; 33],
) -> u64
    ensures value { result ≡ reset_answer (reset_in (arrays nkeys.old numbers.old skeys.old sequences.old ckeys.old ctypes.old clengths.old cpayloads.old counters.old)).answer }
    ensures counters_after { arrays nkeys.new numbers.new skeys.new sequences.new ckeys.new ctypes.new clengths.new cpayloads.new counters.new ≡ (reset_in (arrays nkeys.old numbers.old skeys.old sequences.old ckeys.old ctypes.old clengths.old cpayloads.old counters.old)).receiver }
{
    match transport_receiver::reset_in(ckeys, clengths, counters) {
        Ok(()) => 0,
        Err(_) => 12 << 32,
    }
}
