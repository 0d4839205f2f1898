// Bytes that are gathered in a room of their own, since nib has no heap: a list that holds at most `N`.
ghost use Rattle.std.specs.Prelude.{◌==◌, ◌≤◌, ◌≡◌, ◌++◌, ◌∷◌, [], take};

#[derive(Clone, Copy)]
pub struct Bytes<const N: usize> {
    room: [u8; N],
    n: usize,
    ghost held: { n ≤ N },
}

impl<const N: usize> Bytes<N> {
    ghost use Rattle.nib_print.specs.Gathered.{gathered};

    pub fn new() -> Bytes<N>
        ensures { gathered result ≡ [] }
    {
        Bytes { room: [0; N], n: 0 }
    }

    // One byte more. One too many is left out.
    pub fn push(&mut self, b: u8)
        ensures { gathered self.new ≡ take N (gathered self.old ++ b ∷ []) }
    {
        if self.n < N {
            self.room[self.n] = b;
            self.n += 1;
        }
    }

    pub fn extend(&mut self, s: &[u8])
        ensures { gathered self.new ≡ take N (gathered self.old ++ s.now) }
    {
        for &b in s {
            self.push(b);
        }
    }

    pub fn is_full(&self) -> bool
        ensures { result ≡ (self.now.n == N) }
    {
        self.n == N
    }

    pub fn clear(&mut self)
        ensures { gathered self.new ≡ [] }
    {
        self.n = 0;
    }

    pub fn as_slice(&self) -> &[u8]
        ensures { result.now ≡ gathered self.now }
    {
        &self.room[..self.n]
    }
}
