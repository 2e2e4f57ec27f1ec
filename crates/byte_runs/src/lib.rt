// Runs of bytes, taken by words of eight: the bytes that end a run are marked in the word, and those before the first mark are counted at once.
// The receiver skips and copies such runs, and the encoder copies the bytes that stand for themselves.
#![tactic(auto)]

ghost use Rattle.std.specs.Prelude.{◌≡◌, not, [], ◌∷◌, ◌+◌, ◌-◌, ◌≤◌, ◌<◌, length, take, drop};
ghost use Rattle.std.specs.List.{prefix_len};
ghost use Rattle.std.proofs.Math.Seq.{paste};
ghost use Rattle.byte_runs.specs.Runs.{idle, fenced, is_of, lead};
ghost use Rattle.byte_runs.specs.Marks.{Marks, between_of, Below, First, Blended};
ghost use Rattle.byte_runs.specs.Noises.{noises_of, noises_at, tick, Behind, Begun, NoisyAt, NoisyBehind};

// A sort of bytes: any but 7e; 00 and ff; those that stand for themselves on the wire; any but 07 and 08.
#[derive(Clone, Copy)]
pub enum Sort {
    Raw,
    Idle,
    Plain,
    Calm,
}

// 23 to 25 and a3 to a5.
fn is_fenced(b: u8) -> bool
    ensures { result ≡ fenced b }
{
    matches!(b % 0x80, 0x23..=0x25)
}

// 00 and ff.
fn is_idle(b: u8) -> bool
    ensures { result ≡ idle b }
{
    matches!(b, 0x00 | 0xff)
}

// Whether a byte is of a sort.
pub fn is(sort: Sort, b: u8) -> bool
    ensures { result ≡ is_of sort b }
{
    match sort {
        Sort::Raw => b != 0x7e,
        Sort::Idle => is_idle(b),
        Sort::Plain => b != 0x7e && !is_fenced(b),
        Sort::Calm => b != 0x07 && b != 0x08,
    }
}

// Marks the bytes of a word that are 7e: 80 in the place of each, 00 elsewhere.
fn escapes(w: u64) -> u64
    ensures { Marks (is_of Sort.Raw) w result }
{
    let y = w ^ 0x7e7e7e7e7e7e7e7e;
    let t = (y & 0x7f7f7f7f7f7f7f7f) + 0x7f7f7f7f7f7f7f7f;
    (t | y | 0x7f7f7f7f7f7f7f7f) ^ 0xffffffffffffffff
}

// Marks those that are neither 00 nor ff.
fn busy(w: u64) -> u64
    ensures { Marks (is_of Sort.Idle) w result }
{
    let t = (w & 0x7f7f7f7f7f7f7f7f) + (w & 0x7f7f7f7f7f7f7f7f);
    let v = (t ^ w) & 0xfefefefefefefefe;
    (((v & 0x7f7f7f7f7f7f7f7f) + 0x7f7f7f7f7f7f7f7f) | v) & 0x8080808080808080
}

// Marks those whose lower seven bits are at least 80 less a byte of `a`, and below 80 less a byte of `b`.
fn between(w: u64, a: u64, b: u64) -> u64
    requires { (a ≤ 0x8080808080808080) × (b ≤ 0x8080808080808080) }
    ensures { result ≡ between_of w a b }
{
    let x = w & 0x7f7f7f7f7f7f7f7f;
    ((x + a) & ((x + b) ^ 0xffffffffffffffff)) & 0x8080808080808080
}

// Marks those that are 23 to 25 or a3 to a5.
fn fences(w: u64) -> u64
    ensures { Marks (λ b. not (fenced b)) w result }
{
    between(w, 0x5d5d5d5d5d5d5d5d, 0x5a5a5a5a5a5a5a5a)
}

// Marks those that are 07 or 08.
fn ends(w: u64) -> u64
    ensures { Marks (is_of Sort.Calm) w result }
{
    between(w, 0x7979797979797979, 0x7777777777777777) & (w ^ 0xffffffffffffffff)
}

// Marks those that are not of a sort.
fn others(sort: Sort, w: u64) -> u64
    ensures { Marks (is_of sort) w result }
{
    match sort {
        Sort::Raw => escapes(w),
        Sort::Idle => busy(w),
        Sort::Plain => escapes(w) | fences(w),
        Sort::Calm => ends(w),
    }
}

// All bits of the bytes below the first mark.
fn below(z: u64) -> u64
    requires { 1 ≤ z }
    ensures { Below z result }
{
    (z ^ (z - 1)) >> 8
}

// How many bytes stand before the first mark.
fn first(z: u64) -> usize
    requires { 1 ≤ z }
    ensures { First z result }
{
    (z.trailing_zeros() >> 3) as usize
}

// How many bytes of a sort a slice begins with.
fn leading(sort: Sort, s: &[u8]) -> usize
    ensures { result ≡ prefix_len (is_of sort) s.now }
{
    s.iter().take_while(|b| is(sort, **b)).count()
}

// How many bytes of a sort stand at i.
pub fn run(sort: Sort, s: &[u8], i: usize) -> usize
    ensures { result ≡ lead (is_of sort) (drop i s.now) }
{
    if s.len() <= i {
        return 0;
    }
    let (chunks, tail) = s[i..].as_chunks::<8>();
    for (k, chunk) in chunks.iter().enumerate() {
        let z = others(sort, words::word(chunk));
        if z != 0 {
            return 8 * k + first(z);
        }
    }
    8 * chunks.len() + leading(sort, tail)
}

// Lays the bytes of a word before the first mark to d at l.
fn blend(d: &mut [u8], l: usize, w: u64, z: u64) -> usize
    requires { (l + 8 ≤ length d.old) × (1 ≤ z) }
    ensures { Blended d.old l w z result d.new }
{
    let m = below(z);
    let e = l + 8;
    let b = words::word(&d[l..e]);
    words::put_word(&mut d[l..e], b ^ ((b ^ w) & m));
    first(z)
}

// Copies the bytes of a sort that stand at i, as many as there is room for, to d at l.
pub fn copy_run(sort: Sort, d: &mut [u8], l: usize, s: &[u8], i: usize) -> usize
    ensures count { result ≡ lead (is_of sort) (take (length d.old - l) (drop i s.now)) }
    ensures bytes { d.new ≡ paste d.old l (drop i s.now) result }
{
    if s.len() <= i || d.len() <= l {
        return 0;
    }
    let most = (s.len() - i).min(d.len() - l);
    let (chunks, tail) = s[i..i + most].as_chunks::<8>();
    for (k, chunk) in chunks.iter().enumerate() {
        let w = words::word(chunk);
        let z = others(sort, w);
        let b = l + 8 * k;
        if z != 0 {
            return 8 * k + blend(d, b, w, z);
        }
        words::put_word(&mut d[b..b + 8], w);
    }
    let m = 8 * chunks.len();
    // in one pass: to count first, as `run` does, and then to copy takes a third longer where runs are short
    for (k, b) in tail.iter().enumerate() {
        if !is(sort, *b) {
            return m + k;
        }
        d[l + m + k] = *b;
    }
    most
}

// What bytes outside a frame come to: whether the last of them was noise, how many noises began among them, and the place behind them.
#[derive(Clone, Copy)]
pub struct Heard {
    pub noisy: bool,
    pub count: usize,
    pub at: usize,
}

// A mark for a noisy line.
fn ticked(noisy: bool) -> u64
    ensures { result ≡ tick noisy }
{
    if noisy { 0x80 } else { 0x00 }
}

// How many noises one byte is.
fn one_noise(noisy: bool, b: u8) -> usize
    ensures { result ≡ noises_of noisy (b ∷ []) }
{
    if is_idle(b) || noisy { 0 } else { 1 }
}

// Of marks, for each byte the mark of the one before it; for the first, that of what came before.
fn behind(z: u64, before: u64) -> u64
    ensures { Behind z before result }
{
    (z << 8) | before
}

// How many of the bytes that `m` fills have a mark that follows none. A mark is the highest bit of its byte: shifted down it counts one there, and
// the remainder by 255 adds up the bytes of a word, since 256 leaves 1.
fn begun(z: u64, was: u64, m: u64) -> usize
    ensures { Begun z was m result }
{
    (((z & (was ^ 0xffffffffffffffff) & m) >> 7) % 255) as usize
}

// The mark of what stands before the byte at k.
fn noisy_at(was: u64, k: usize) -> u64
    requires { k < 8 }
    ensures { NoisyAt was k result }
{
    (was >> (8 * k)) & 0x80
}

// The last mark.
fn noisy_behind(z: u64) -> u64
    ensures { NoisyBehind z result }
{
    z >> 56
}

// What the bytes from i on that stand before a 7e come to, on a line that is noisy or not.
pub fn noises(noisy: bool, s: &[u8], i: usize) -> Heard
    ensures { result ≡ noises_at noisy s.now i }
{
    if s.len() <= i {
        return Heard {
            noisy,
            count: 0,
            at: i,
        };
    }
    let (chunks, tail) = s[i..].as_chunks::<8>();
    let mut before = ticked(noisy);
    let mut count = 0;
    for (k, chunk) in chunks.iter().enumerate() {
        let w = words::word(chunk);
        let z = busy(w);
        if z == 0 {
            before = 0;
            continue;
        }
        let x = escapes(w);
        let was = behind(z, before);
        if x != 0 {
            let j = first(x);
            let more = begun(z, was, below(x));
            let last = noisy_at(was, j);
            return Heard {
                noisy: last != 0,
                count: count + more,
                at: i + 8 * k + j,
            };
        }
        count += begun(z, was, 0xffffffffffffffff);
        before = noisy_behind(z);
    }
    let at = i + 8 * chunks.len();
    let mut noise = before != 0;
    for (k, b) in tail.iter().enumerate() {
        if *b == 0x7e {
            return Heard {
                noisy: noise,
                count,
                at: at + k,
            };
        }
        count += one_noise(noise, *b);
        noise = !is_idle(*b);
    }
    Heard {
        noisy: noise,
        count,
        at: s.len(),
    }
}
