// The model on its bench: what a word of the table says of the part and of what is expected, and what it asks.
use crate::spoils::spoil;
use power::unpowered;
use target::{Event, Reply, Target, reply_first, reply_second};
use test_kit::compare::differing;
use test_kit::numbers::{add, byte, set};
use test_lent::{Lengths, lent_power, lent_run, lent_step};
use test_table_read::reading::{Kind, Word};
use test_table_read::tally::{Buffer, Item, Tally};
use trace::run_number;

// Room for one more than the largest part has, here and below.
type Page = [u8; 257];

type Array = [u8; 33793];

type Registers = [u8; 1057];

// Counts or flags.
type Few = [u8; 65];

// What array, registers and counts are to hold, one behind the other: a place past the array's end is one of the registers.
type Expected = [u8; 34915];

const REGISTERS_AT: usize = 33793;

const COUNTS_AT: usize = 34850;

// A trace, and behind it what its reply room is to hold: a record past the trace's end is a byte of that.
type Tape = [u8; 128];

const ROOM_AT: usize = 64;

// A part, and how much of each buffer is lent.
#[derive(Drop)]
struct Part {
    lengths: Lengths,
    device: u8,
    page: Page,
    // the counts at power-on
    counts: Few,
    flags: Few,
}

impl Part {
    // The page, counts and flags of a new part.
    fn clear(&mut self) {
        self.page = [0; 257];
        self.counts = [0; 65];
        self.flags = [0; 65];
    }

    // A number of line L.
    fn set_length(&mut self, place: usize, n: usize) {
        match place {
            0 => self.lengths.page = n,
            1 => self.lengths.array = n,
            2 => self.lengths.registers = n,
            3 => self.lengths.counts = n,
            4 => self.lengths.flags = n,
            5 => self.device = byte(n),
            _ => {}
        }
    }
}

// The buffers that an event may change.
#[derive(Clone, Copy)]
struct Buffers {
    array: Array,
    registers: Registers,
    counts: Few,
}

// A target and its buffers.
#[derive(Clone, Copy)]
struct State {
    target: Target,
    buffers: Buffers,
}

// An event as one number, kind and value.
fn event_of(n: usize) -> Event {
    Event {
        kind: byte(n / 256),
        value: byte(n),
    }
}

const DATA_OUT: Event = Event { kind: 3, value: 0 };

// A reply as one number, its two bytes. Where any byte will do, the byte doesn't count.
fn number_of(reply: Reply, any: bool) -> usize {
    let first = reply_first(reply) as usize * 256;
    if any {
        first
    } else {
        first + reply_second(reply) as usize
    }
}

impl State {
    fn step(&mut self, part: &Part, event: Event) -> Reply {
        let buffers = &mut self.buffers;
        let stepped = lent_step(
            self.target,
            part.lengths,
            event,
            &part.page,
            &mut buffers.array,
            &mut buffers.registers,
            &mut buffers.counts,
            &part.flags,
        );
        self.target = stepped.target;
        stepped.reply
    }
}

// A trace, and how many of its bytes are run.
#[derive(Clone, Copy)]
struct Trace {
    tape: Tape,
    length: usize,
}

const NO_TRACE: Trace = Trace {
    tape: [0xee; 128],
    length: 0,
};

#[derive(Drop)]
pub struct Bench {
    part: Part,
    state: State,
    expected: Expected,
    trace: Trace,
}

// What an array holds at power-on.
fn lay(array: &mut [u8]) {
    for (i, b) in array.iter_mut().enumerate() {
        *b = (i % 251) as u8;
    }
}

// `times` bytes from place `at` on.
fn expect(expected: &mut Expected, at: usize, times: usize, v: usize) {
    for b in expected.iter_mut().skip(at).take(times) {
        *b = byte(v);
    }
}

impl Bench {
    pub fn new() -> Bench {
        Bench {
            part: Part {
                lengths: Lengths {
                    page: 0,
                    array: 0,
                    registers: 0,
                    counts: 0,
                    flags: 0,
                },
                device: 0,
                page: [0; 257],
                counts: [0; 65],
                flags: [0; 65],
            },
            state: State {
                target: unpowered(),
                buffers: Buffers {
                    array: [0; 33793],
                    registers: [0; 1057],
                    counts: [0; 65],
                },
            },
            expected: [0; 34915],
            trace: NO_TRACE,
        }
    }

    // A file begins: all is as new, but that the numbers of line L stay until it has such a line.
    pub fn begin_file(&mut self) {
        self.part.clear();
        self.state.target = unpowered();
        let buffers = &mut self.state.buffers;
        buffers.array.fill(0);
        buffers.registers.fill(0);
        buffers.counts.fill(0);
        self.expected.fill(0);
        self.trace.tape.fill(0xee);
    }

    // Does what a word says.
    pub fn take(&mut self, rt: HostRuntime, tally: &mut Tally, word: &Word) {
        let [x, y, _] = word.numbers;
        match word.kind {
            Kind::Part => self.part.clear(),
            Kind::Lengths => self.set_number(tally, word.place, x),
            Kind::Page => set(&mut self.part.page, x, y),
            Kind::FirstCounts => set(&mut self.part.counts, x, y),
            Kind::Flags => set(&mut self.part.flags, x, y),
            Kind::Array => expect(&mut self.expected, x, word.times, y),
            Kind::Registers => expect(&mut self.expected, add(REGISTERS_AT, x), word.times, y),
            Kind::Counts => expect(&mut self.expected, add(COUNTS_AT, x), word.times, y),
            Kind::Trace => {
                set(&mut self.trace.tape, word.place, x);
                self.trace.length = self.trace.length.wrapping_add(1);
            }
            Kind::Replies => set(&mut self.trace.tape, add(ROOM_AT, word.place), x),
            Kind::PowerOn => self.power(rt, tally, word),
            Kind::Events => self.events(rt, tally, word),
            Kind::Cells => self.cell(rt, tally, word),
            Kind::Record => spoil(&mut self.state.target, x, y),
            Kind::Compare => self.compare(rt, tally, word),
            Kind::Run => self.run(rt, tally, word),
            Kind::Remark | Kind::State | Kind::Case | Kind::Wrong | Kind::Unknown => {}
        }
    }

    // A number of line L: the six that it has, and past them the trace's length and what is counted.
    fn set_number(&mut self, tally: &mut Tally, place: usize, n: usize) {
        match place {
            0..=5 => self.part.set_length(place, n),
            6 => self.trace.length = n,
            _ => tally.set(place - 7, n),
        }
    }

    // What is expected of the buffers right after a power-on: the registers are FFh if it is accepted, else as they were.
    fn expect_power(&mut self, accepted: bool) {
        lay(&mut self.expected);
        expect(
            &mut self.expected,
            REGISTERS_AT,
            1057,
            if accepted { 0xff } else { 0 },
        );
        for (i, &count) in self.part.counts.iter().enumerate() {
            set(&mut self.expected, add(COUNTS_AT, i), count as usize);
        }
    }

    // Power-on with everything as new.
    fn power(&mut self, rt: HostRuntime, tally: &mut Tally, word: &Word) {
        let due = word.numbers[0];
        self.expect_power(due == 0);
        let part = &self.part;
        let buffers = &mut self.state.buffers;
        lay(&mut buffers.array);
        buffers.registers = [0; 1057];
        buffers.counts = part.counts;
        let on = lent_power(
            part.lengths,
            part.device,
            &part.page,
            &buffers.array,
            &mut buffers.registers,
            &buffers.counts,
            &part.flags,
        );
        let (answer, target) = match on {
            Ok(target) => (0, target),
            Err(refused) => (refused.why.number(), refused.target),
        };
        self.state.target = target;
        let got = answer as usize;
        tally.compare(rt, word, Item::PowerOn, due, got);
    }

    // The same event so many times.
    fn events(&mut self, rt: HostRuntime, tally: &mut Tally, word: &Word) {
        let [event, due, _] = word.numbers;
        for i in 0..word.times {
            let reply = self.state.step(&self.part, event_of(event));
            let got = number_of(reply, word.any);
            tally.compare(rt, word, Item::Event(i + 1), due, got);
        }
    }

    // The event and then a data out, on copies. A refused event changes no lent byte: all that changes one does so "when it is
    // accepted".
    fn cell(&self, rt: HostRuntime, tally: &mut Tally, word: &Word) {
        let [event, first, second] = word.numbers;
        tally.begin_cell();
        let mut tried = self.state;
        let reply = tried.step(&self.part, event_of(event));
        tally.compare(rt, word, Item::Reply(1), first, number_of(reply, word.any));
        let reply = tried.step(&self.part, DATA_OUT);
        tally.compare(rt, word, Item::Reply(2), second, number_of(reply, word.any));
        if first / 256 == 2 {
            let changed = self.changed(&tried.buffers);
            tally.compare(rt, word, Item::Changed, 0, changed);
        }
    }

    // In how many of the lent bytes other buffers differ from these.
    fn changed(&self, after: &Buffers) -> usize {
        let before = &self.state.buffers;
        let lent = self.part.lengths;
        let array = differing(&before.array, &after.array, lent.array);
        let registers = differing(&before.registers, &after.registers, lent.registers);
        let counts = differing(&before.counts, &after.counts, lent.counts);
        array.wrapping_add(registers).wrapping_add(counts)
    }

    // All three buffers.
    fn compare(&self, rt: HostRuntime, tally: &mut Tally, word: &Word) {
        let Lengths {
            array,
            registers,
            counts,
            ..
        } = self.part.lengths;
        let due = &self.expected;
        let got = &self.state.buffers;
        tally.compare_bytes(rt, word, Buffer::Array, array, due, &got.array);
        tally.compare_bytes(
            rt,
            word,
            Buffer::Registers,
            registers,
            &due[REGISTERS_AT..],
            &got.registers,
        );
        tally.compare_bytes(
            rt,
            word,
            Buffer::Counts,
            counts,
            &due[COUNTS_AT..],
            &got.counts,
        );
    }

    // A byte trace, its answer as a whole and every byte of its reply room.
    fn run(&mut self, rt: HostRuntime, tally: &mut Tally, word: &Word) {
        let [lent, due, _] = word.numbers;
        let mut room = [0xee; 64];
        let part = &self.part;
        let buffers = &mut self.state.buffers;
        let ran = lent_run(
            self.state.target,
            part.lengths,
            &self.trace.tape,
            self.trace.length,
            &mut room,
            lent,
            &part.page,
            &mut buffers.array,
            &mut buffers.registers,
            &mut buffers.counts,
            &part.flags,
        );
        self.state.target = ran.unwrap_or(self.state.target);
        let got = run_number(ran) as usize;
        tally.compare(rt, word, Item::Run, due, got);
        let due = &self.trace.tape[ROOM_AT..];
        tally.compare_bytes(rt, word, Buffer::Replies, 64, due, &room);
        self.trace = NO_TRACE;
    }
}
