// Tables of a fixed number of places, as the transport receiver holds them: an array of keys, and beside it arrays of what the places hold.
// A key of 0 is a free place; a place that holds k has the key k + 1. What the arrays mean is `places_of` of specs/Places.antt.
#![tactic(auto)]

ghost use Rattle.std.specs.Prelude.{◌≡◌, length};
ghost use Rattle.tables.specs.Keys.{first_of, seat_of, any_over, over_of, place_within};

// The key of a free place.
pub const FREE: u32 = 0;

// The first place with this key, if there is one.
pub fn find(keys: &[u32], key: u32) -> Option<usize>
    ensures { result ≡ place_within (length keys.now) (first_of keys.now key) }
{
    keys.iter().position(|k| *k == key)
}

// Where an entry with this key goes: its place, else the first free one, if there is one.
pub fn seat(keys: &[u32], key: u32) -> Option<usize>
    ensures { result ≡ place_within (length keys.now) (seat_of keys.now key) }
{
    find(keys, key).or_else(|| find(keys, FREE))
}

// Whether a length is over the limit, at whatever place. It goes on behind the first: so many lengths are compared at once.
fn any_over(lengths: &[u16], limit: u16) -> bool
    ensures { result ≡ any_over lengths.now limit }
{
    let mut found = false;
    for n in lengths {
        if limit < *n {
            found = true;
        }
    }
    found
}

// Whether a held place has a length over the limit; what stands at a free place never matters, and a place without a length is not over it.
pub fn over(keys: &[u32], lengths: &[u16], limit: u16) -> bool
    ensures { result ≡ over_of keys.now lengths.now limit }
{
    // Lengths are seldom over the limit: the keys are looked at only then.
    any_over(lengths, limit)
        && keys
            .iter()
            .zip(lengths)
            .any(|(k, n)| limit < *n && *k != FREE)
}
