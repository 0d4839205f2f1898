// A desk: bytes put down one after the other on a lent slice, and where the next goes. What does not fit is left out. A slice and a
// place, since C lends the bytes.
ghost use Rattle.std.specs.Prelude.{[], ◌∷◌, ◌<◌, ◌≡◌};

#[derive(Drop)]
pub struct Desk<'a> {
    pub room: &'a mut [u8],
    pub at: usize,
}

impl Desk<'_> {
    ghost use Rattle.nib_words.specs.Desk.{Writes, when, hexed, byte_words, placed, high_places, decimal};

    // One byte more.
    pub fn put(&mut self, b: u8)
        ensures { Writes self.old self.new (b ∷ []) }
    {
        if self.at < self.room.len() {
            self.room[self.at] = b;
            self.at += 1;
        }
    }

    pub fn say(&mut self, words: &[u8])
        ensures { Writes self.old self.new words.now }
    {
        for &b in words {
            self.put(b);
        }
    }

    // In one case alone: one step of a chain of words, where an `if` in the caller would split the chain.
    #[tactic(auto, using(crate::proofs::Desks::none))]
    pub fn put_if(&mut self, on: bool, b: u8)
        ensures { Writes self.old self.new (when on (b ∷ [])) }
    {
        if on {
            self.put(b);
        }
    }

    #[tactic(auto, using(crate::proofs::Desks::none))]
    pub fn say_if(&mut self, on: bool, words: &[u8])
        ensures { Writes self.old self.new (when on words.now) }
    {
        if on {
            self.say(words);
        }
    }

    // A byte as two hex digits.
    pub fn hex(&mut self, b: u8, small: bool)
        ensures { Writes self.old self.new (hexed b small) }
    {
        self.put(glyph(b / 16, small));
        self.put(glyph(b % 16, small));
    }

    // A byte as the requirements write it, as 3Ch.
    pub fn byte(&mut self, b: u8)
        ensures { Writes self.old self.new (byte_words b) }
    {
        self.hex(b, false);
        self.put(b'h');
    }

    // The digit of a number at the place of a power of ten, where the number has it.
    #[tactic(auto, using(crate::proofs::Desks::none))]
    fn place(&mut self, n: usize, power: usize)
        requires { 0 < power }
        ensures { Writes self.old self.new (placed n power) }
    {
        if power <= n {
            self.put(48 + (n / power % 10) as u8);
        }
    }

    // A number in decimal. One power after the other, since a loop over them would have to show each above 0.
    pub fn number(&mut self, n: usize)
        ensures { Writes self.old self.new (decimal n) }
    {
        self.high_places(n);
        self.place(n, 1000000000);
        self.place(n, 100000000);
        self.place(n, 10000000);
        self.place(n, 1000000);
        self.place(n, 100000);
        self.place(n, 10000);
        self.place(n, 1000);
        self.place(n, 100);
        self.place(n, 10);
        self.put(48 + (n % 10) as u8);
    }

    fn high_places(&mut self, n: usize)
        ensures { Writes self.old self.new (high_places n) }
    {
        self.place(n, 10000000000000000000);
        self.place(n, 1000000000000000000);
        self.place(n, 100000000000000000);
        self.place(n, 10000000000000000);
        self.place(n, 1000000000000000);
        self.place(n, 100000000000000);
        self.place(n, 10000000000000);
        self.place(n, 1000000000000);
        self.place(n, 100000000000);
        self.place(n, 10000000000);
    }
}

ghost use Rattle.nib_words.specs.Desk.{glyph};

// A hex digit, small or capital.
#[tactic(auto, unfolding(crate::specs::Desk::glyph))]
fn glyph(d: u8, small: bool) -> u8
    ensures { result ≡ glyph d small }
{
    match d % 16 {
        d @ 0..=9 => 48 + d,
        d if small => 87 + d,
        d => 55 + d,
    }
}
