// Lent bytes: a whole slice, and the same on a part of a buffer that starts in its middle, lent on as `&mut`.
// What the buffer then holds is a `splice`; `proofs/Splice.antt` and `proofs/Parts.antt` have the laws that callers go by.
#![tactic(auto)]

ghost use Rattle.std.specs.Prelude.{◌≡◌, ◌+◌, ◌≤◌, ◌<◌, length, replicate, get_or, set};
ghost use Rattle.slices.specs.Cells.{and_bytes, splice, part, all_at_most, some_set};

// Every byte becomes `v`.
pub fn fill(dst: &mut [u8], v: u8)
    ensures { dst.new ≡ replicate (length dst.old) v }
{
    dst.fill(v);
}

// `dst` becomes `src`.
pub fn copy(dst: &mut [u8], src: &[u8])
    requires { length dst.old ≡ length src.now }
    ensures { dst.new ≡ src.now }
{
    // an index: `copy_from_slice` is memmove, a name that the library for C would need from outside
    for i in 0..dst.len() {
        dst[i] = src[i];
    }
}

// Each byte of `dst` becomes itself AND the byte of `src`.
pub fn and_into(dst: &mut [u8], src: &[u8])
    requires { length dst.old ≡ length src.now }
    ensures { dst.new ≡ and_bytes dst.old src.now }
{
    // an index: after `zip` over what is written a proof knows the length alone
    for i in 0..dst.len() {
        dst[i] = dst[i] & src[i];
    }
}

// The `n` bytes from `at` on become `v`.
#[tactic(auto, unfolding(crate::specs::Cells::splice))]
pub fn fill_part(buffer: &mut [u8], at: usize, n: usize, v: u8)
    requires { at + n ≤ length buffer.old }
    ensures { buffer.new ≡ splice buffer.old at n (replicate n v) }
{
    fill(&mut buffer[at..at + n], v)
}

// The `n` bytes from `at` on become those of `src` from `from` on.
#[tactic(auto, unfolding(crate::specs::Cells::splice, crate::specs::Cells::part))]
pub fn copy_part(buffer: &mut [u8], at: usize, n: usize, src: &[u8], from: usize)
    requires { (at + n ≤ length buffer.old) × (from + n ≤ length src.now) }
    ensures { buffer.new ≡ splice buffer.old at n (part src.now from n) }
{
    copy(&mut buffer[at..at + n], &src[from..from + n])
}

// The `n` bytes from `at` on become themselves AND those of `src` from `from` on.
#[tactic(auto, unfolding(crate::specs::Cells::splice, crate::specs::Cells::part))]
pub fn and_part(buffer: &mut [u8], at: usize, n: usize, src: &[u8], from: usize)
    requires { (at + n ≤ length buffer.old) × (from + n ≤ length src.now) }
    ensures { buffer.new ≡ splice buffer.old at n (and_bytes (part buffer.old at n) (part src.now from n)) }
{
    and_into(&mut buffer[at..at + n], &src[from..from + n])
}

// One byte of a slice.
pub fn put(dst: &mut [u8], i: usize, v: u8)
    requires { i < length dst.old }
    ensures { dst.new ≡ set dst.old i v }
{
    dst[i] = v;
}

// Byte `i` of the `n` bytes from `at` on becomes `v`.
#[tactic(auto, unfolding(crate::specs::Cells::splice, crate::specs::Cells::part))]
pub fn put_part(buffer: &mut [u8], at: usize, n: usize, i: usize, v: u8)
    requires { (at + n ≤ length buffer.old) × (i < n) }
    ensures { buffer.new ≡ splice buffer.old at n (set (part buffer.old at n) i v) }
{
    put(&mut buffer[at..at + n], i, v)
}

// The byte at `i`, and 0 past the end.
pub fn byte_at(s: &[u8], i: usize) -> u8
    ensures { result ≡ get_or s.now i 0 }
{
    if i < s.len() { s[i] } else { 0 }
}

// No byte is above `most`.
#[tactic(auto, unfolding(crate::specs::Cells::all_at_most))]
pub fn at_most(s: &[u8], most: u8) -> bool
    ensures { result ≡ all_at_most most s.now }
{
    s.iter().all(|&x| x <= most)
}

// Some byte is above 0. The whole slice is looked at, without a way out, so that many bytes go at once.
#[tactic(auto, unfolding(crate::specs::Cells::some_set))]
pub fn some_set(s: &[u8]) -> bool
    ensures { result ≡ some_set s.now }
{
    let mut any = false;
    for &x in s {
        any = any | (0 < x);
    }
    any
}

// The `count` bytes from `at` on, as many as there are.
#[tactic(auto, unfolding(crate::specs::Cells::part))]
pub fn part_of(s: &[u8], at: usize, count: usize) -> &[u8]
    ensures { result.now ≡ part s.now at count }
{
    if s.len() <= at {
        return &s[..0];
    }
    if s.len() - at <= count {
        return &s[at..];
    }
    &s[at..at + count]
}

// Some byte of the `count` from `at` on is above 0.
pub fn some_set_part(s: &[u8], at: usize, count: usize) -> bool
    ensures { result ≡ some_set (part s.now at count) }
{
    some_set(part_of(s, at, count))
}
