// What a line digests and counts.
use test_kit::numbers::{add, count, wide};
use test_kit::random::{mixed_1, mixed_2};

#[derive(Clone, Copy)]
pub struct Tally {
    pub events: usize,
    // spoiled events not answered 13
    pub surprises: usize,
    // two digests
    pub first: usize,
    pub second: usize,
    // how often each refusal number was met; 0 an accepted power-on
    pub refused: [usize; 26],
    // accepted events by kind
    pub accepted: [usize; 6],
}

fn one_more(counts: &mut [usize], i: usize) {
    if let Some(n) = counts.get_mut(i) {
        *n = add(*n, 1);
    }
}

fn add_each(sums: &mut [usize], counts: &[usize]) {
    for (sum, n) in sums.iter_mut().zip(counts) {
        *sum = add(*sum, *n);
    }
}

impl Tally {
    pub fn new() -> Tally {
        Tally {
            events: 0,
            surprises: 0,
            first: 0,
            second: 0,
            refused: [0; 26],
            accepted: [0; 6],
        }
    }

    // Digests one number more.
    pub fn absorb(&mut self, n: usize) {
        self.first = mixed_1(self.first, n);
        self.second = mixed_2(self.second, n);
    }

    pub fn absorb_all(&mut self, numbers: &[usize]) {
        for n in numbers {
            self.absorb(*n);
        }
    }

    pub fn absorb_bytes(&mut self, from: &[u8]) {
        for b in from {
            self.absorb(wide(*b));
        }
    }

    // The first `n` bytes.
    pub fn absorb_front(&mut self, from: &[u8], n: usize) {
        self.absorb_bytes(&from[..count(n, from)]);
    }

    pub fn refuse(&mut self, number: usize) {
        one_more(&mut self.refused, number);
    }

    // An event of this kind, and the reply to it.
    pub fn count(&mut self, kind: u8, reply: [u8; 2]) {
        self.events = add(self.events, 1);
        match reply {
            [0 | 1, _] => one_more(&mut self.accepted, wide(kind)),
            [2, number] => self.refuse(wide(number)),
            _ => {}
        }
    }

    // Adds a line to the totals.
    pub fn add(&mut self, line: &Tally) {
        self.events = add(self.events, line.events);
        self.surprises = add(self.surprises, line.surprises);
        self.first = mixed_1(self.first, line.first);
        self.second = mixed_2(self.second, line.second);
        add_each(&mut self.refused, &line.refused);
        add_each(&mut self.accepted, &line.accepted);
    }
}
