// Sums, products and places that have an answer everywhere, so that a test program needs few proofs: past an end there
// is 0, nothing is written there, and the program's lines would show it.
ghost use Rattle.io.specs.Counts.{IsPrefixLen};

pub fn add(a: usize, b: usize) -> usize {
    a.wrapping_add(b)
}

pub fn sub(a: usize, b: usize) -> usize {
    a.wrapping_sub(b)
}

// The product of two numbers below 2^32.
pub fn times(a: usize, b: usize) -> usize {
    (a % 4294967296).wrapping_mul(b % 4294967296)
}

// 2 to the `n`.
pub fn power(n: usize) -> usize {
    if n < 64 { 1 << n } else { 0 }
}

// The fewest bits that hold the numbers below `n`.
pub fn bits_for(n: usize) -> usize {
    (64 - n.saturating_sub(1).leading_zeros()) as usize
}

pub fn at_most(n: usize, most: usize) -> usize {
    n.min(most)
}

// `n` or the slice's length, whichever is less.
pub fn count(n: usize, s: &[u8]) -> usize
    ensures { IsPrefixLen result s.now }
{
    n.min(s.len())
}

pub fn wide(b: u8) -> usize {
    usize::from(b)
}

pub fn byte(n: usize) -> u8 {
    (n % 256) as u8
}

pub fn get(s: &[u8], i: usize) -> usize {
    s.get(i).map_or(0, |b| wide(*b))
}

pub fn set(s: &mut [u8], i: usize, n: usize) {
    if let Some(b) = s.get_mut(i) {
        *b = byte(n);
    }
}

// What a hex digit stands for; the letters are capitals.
pub(crate) fn hex_value(c: u8) -> Option<u8> {
    match c {
        b'0'..=b'9' => Some(c - b'0'),
        b'A'..=b'F' => Some(c - b'A' + 10),
        _ => None,
    }
}

// A hex digit's value, 16 for every other character.
pub fn hex_digit(c: u8) -> usize {
    hex_value(c).map_or(16, wide)
}
