// Counters raised, and keys of places.
ghost use Rattle.std.specs.Prelude.{◌≡◌, suc};
ghost use Rattle.answers.specs.Counters.{raise, raise_at, add, add_at};
ghost use Rattle.answers.specs.Places.{place_of};
ghost use Rattle.answers.specs.Stored.{gateway_key, command_key};

use crate::counters::{COUNT, Counter};
use address::GatewayID;
use transport::CommandSequenceNumber;

// The most bytes that are kept of a command request's payload: what a frame's payload has behind the request's own five.
pub const KEPT_LIMIT: u16 = 245;

// How many bytes of the pool of payloads each of the 64 places has.
pub const STRIDE: usize = 245;

// How many bytes the pool has.
pub const POOL: usize = 15680;

// The counter at a place raised by `n`; past the last there is none.
pub fn add_at(counters: &mut [u64; 33], place: usize, n: u64)
    ensures { counters.new ≡ add_at n place counters.old }
{
    if place < COUNT {
        counters[place] = counters[place].wrapping_add(n);
    }
}

// The counter at a place raised by one; past the last there is none.
pub fn raise_at(counters: &mut [u64; 33], place: usize)
    ensures { counters.new ≡ raise_at place counters.old }
{
    add_at(counters, place, 1);
}

// One counter raised by `n`.
pub fn add(counters: &mut [u64; 33], counter: Counter, n: u64)
    ensures { counters.new ≡ add n (place_of counter) counters.old }
{
    let i = counter.place();
    counters[i] = counters[i].wrapping_add(n);
}

// One counter raised by one.
pub fn raise(counters: &mut [u64; 33], counter: Counter)
    ensures { counters.new ≡ raise (place_of counter) counters.old }
{
    add(counters, counter, 1);
}

// The key of a gateway's place.
pub fn gateway_key(gateway: GatewayID) -> u32
    ensures { result ≡ suc (gateway_key gateway.0) }
{
    let number = gateway.0;
    (number as u32) + 1
}

// The key of a command's place.
pub fn command_key(gateway: GatewayID, sequence: CommandSequenceNumber) -> u32
    ensures { result ≡ suc (command_key gateway.0 sequence.0) }
{
    let number = gateway.0;
    let low = sequence.0;
    (number as u32) * 256 + (low as u32) + 1
}
