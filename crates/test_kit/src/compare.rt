// Comparing and counting.
use crate::numbers::get;

// In how many of their first `length` places two buffers differ.
pub fn differing(a: &[u8], b: &[u8], length: usize) -> usize {
    (0..length).filter(|i| get(a, *i) != get(b, *i)).count()
}

// How many of the replies in a reply room are refusals.
pub fn refusals(room: &[u8]) -> usize {
    room.chunks(2)
        .filter(|reply| reply.first() == Some(&2))
        .count()
}
