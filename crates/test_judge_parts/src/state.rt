// The generator's state, and random numbers.
ghost use Rattle.std.specs.Prelude.{◌<◌};

use crate::buffers::Lengths;
use crate::knobs::{Knobs, TraceKind};
use crate::parts::Part;
use crate::tally::Tally;
use crate::trace::Trace;
use test_kit::numbers::{add, byte};
use test_kit::random::{SEED, drawn};

#[derive(Clone, Copy)]
pub struct State {
    // the last random number
    random: usize,
    pub tally: Tally,
    // the trace so far
    pub trace: Trace,
    // its number in its line
    pub number: usize,
    // whether what happens is printed
    pub shown: bool,
    // the LUNs that the generator takes to be working
    pub busy: [bool; 4],
    // the LUN that it takes to be selected
    pub selected: usize,
    pub part: Part,
    pub device: u8,
    // lengths to lend
    pub lengths: Lengths,
    pub knobs: Knobs,
}

impl State {
    // A line's state before its part and knobs are loaded.
    pub fn new(shown: bool, seed: usize, line: usize) -> State {
        let part = Part::of(0);
        let mut g = State {
            random: SEED ^ (seed % 4294967296) ^ (add(line, 1) << 40),
            tally: Tally::new(),
            trace: Trace::new(),
            number: 0,
            shown,
            busy: [false; 4],
            selected: 0,
            part,
            device: 0,
            lengths: part.lengths(),
            knobs: Knobs::of(TraceKind::Whole),
        };
        for _ in 0..16 {
            g.below(2);
        }
        g
    }

    pub fn load_part(&mut self, part: usize) {
        self.part = Part::of(part);
        self.measure();
    }

    // By the kind's number.
    pub fn load_knobs(&mut self, kind: usize) {
        self.knobs = Knobs::of(TraceKind::from(kind));
    }

    // Lends what the part asks.
    pub fn measure(&mut self) {
        self.lengths = self.part.lengths();
    }

    // The next number, below `n`.
    pub fn below(&mut self, n: usize) -> usize
        ensures { 0 < n → result < n }
    {
        self.random = drawn(self.random);
        if n == 0 { 0 } else { (self.random >> 20) % n }
    }

    // Any byte.
    pub fn any_byte(&mut self) -> u8 {
        byte(self.below(256))
    }

    // One in `n`.
    pub fn chance(&mut self, n: usize) -> bool {
        n != 0 && self.below(n) == 0
    }

    // One in two.
    pub fn half(&mut self) -> bool {
        self.below(2) == 1
    }

    pub fn fill_random(&mut self, to: &mut [u8]) {
        for b in to {
            *b = self.any_byte();
        }
    }
}
