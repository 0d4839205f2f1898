// Random numbers and digests.
ghost use Rattle.std.specs.Prelude.{◌<◌};

// What a run of random numbers begins with.
pub const SEED: usize = 88172645463325252;

// xorshift64: the number after `x`.
pub fn drawn(x: usize) -> usize {
    let a = x ^ (x << 13);
    let b = a ^ (a >> 7);
    b ^ (b << 17)
}

// A digest with one number more.
fn mixed<const FACTOR: usize, const MODULUS: usize>(h: usize, n: usize) -> usize
    requires { 0 < MODULUS }
{
    (h % MODULUS)
        .wrapping_mul(FACTOR)
        .wrapping_add(n % 4294967296 + 1)
        % MODULUS
}

// Two digests, each with one number more.
pub fn mixed_1(h: usize, n: usize) -> usize {
    mixed::<1000003, 4294967291>(h, n)
}

pub fn mixed_2(h: usize, n: usize) -> usize {
    mixed::<16777619, 4294967279>(h, n)
}

// The first digest, of bytes.
pub fn digest(s: &[u8]) -> usize {
    s.iter().fold(0, |h, b| mixed_1(h, usize::from(*b)))
}
