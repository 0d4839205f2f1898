// The generator's runs: the proved model, lent what the state says, and what it answers.
#![tactic(auto)]

use power::unpowered;
use slices::part_of;
use target::{Event, Output, Target, reply_first, reply_second};
use test_judge_cycles::pick_lun;
use test_judge_parts::buffers::Buffers;
use test_judge_parts::show::show;
use test_judge_parts::state::State;
use test_judge_parts::trace::ROOM;
use test_judge_spoils::{follow_geometry, is_legal, pick_spoil, set_blank, spoil, spoil_length};
use test_kit::numbers::{add, byte, count, sub, times, wide};
use test_lent::{Lengths, lent_power, lent_run, lent_step};
use trace::run_number;
use unread::{Source, rest, unread_part};

// The model on the bench: its record, and the buffers that it is lent.
#[derive(Drop)]
pub struct Bench {
    pub target: Target,
    pub buffers: Buffers,
}

// Some bytes of a trace, from byte `at` of it on.
#[derive(Clone, Copy)]
struct Batch<'a> {
    bytes: &'a [u8],
    at: usize,
}

impl Batch<'_> {
    fn of(trace: &[u8], at: usize, n: usize) -> Batch<'_> {
        Batch {
            bytes: part_of(trace, at, n),
            at,
        }
    }

    // How many bytes of replies it asks.
    fn need(&self) -> usize {
        times(self.bytes.len().div_ceil(2), 2)
    }
}

// What is lent, as the state says. The generator has lengths of its own, since its lower crates stand on no model.
fn lengths(g: &State) -> Lengths {
    Lengths {
        page: g.lengths.page,
        array: g.lengths.array,
        registers: g.lengths.registers,
        counts: g.lengths.counts,
        flags: g.lengths.flags,
    }
}

// The first two bytes: past the end there is 0, as behind an odd byte.
fn first_two(s: &[u8]) -> [u8; 2] {
    match s {
        [a, b, ..] => [*a, *b],
        [a] => [*a, 0],
        [] => [0, 0],
    }
}

// A reply record as a number.
fn number(reply: [u8; 2]) -> usize {
    usize::from(u16::from_be_bytes(reply))
}

fn tally_replies(rt: HostRuntime, g: &mut State, batch: Batch<'_>, replies: &[u8]) {
    for (i, (record, reply)) in batch.bytes.chunks(2).zip(replies.chunks(2)).enumerate() {
        let [kind, value] = first_two(record);
        let reply = first_two(reply);
        g.tally.count(kind, reply);
        let place = add(batch.at / 2, i);
        show(
            rt,
            g,
            "record",
            [place, wide(kind), wide(value), number(reply)],
        );
    }
}

fn short_room(g: &mut State, need: usize) -> usize {
    match g.below(3) {
        0 => sub(need, 1),
        1 => sub(need, 2),
        _ => g.below(need),
    }
}

// The kind of an output, its LUN and its next place.
fn kept_place(o: Output) -> [usize; 3] {
    match o {
        Output::Nothing => [0, 0, 0],
        Output::Register { lun, column } => [1, lun, column.0],
        Output::Parameters { at } => [2, 0, at],
        Output::Status { lun } => [3, lun, 0],
        Output::Ids { at } => [4, 0, at],
        Output::Signature { at } => [5, 0, at],
        Output::Feature { at } => [6, 0, at],
    }
}

// The record of a spoiled event: data out for a legal one (43, 53: data in), which changes no lent byte, else any.
fn spoiled_record(g: &mut State, what: usize) -> [u8; 2] {
    match what {
        43 | 53 => [2, 0],
        _ if is_legal(what) => [3, 0],
        _ => {
            let kind = byte(g.below(6));
            [kind, g.any_byte()]
        }
    }
}

// How many bytes of the trace the next batch has: all of these, and at times an odd one more.
fn batch_bytes(g: &mut State, trace: &[u8], at: usize, bytes: usize) -> usize {
    if add(at, bytes) < trace.len() && g.chance(g.knobs.odd) {
        add(bytes, 1)
    } else {
        bytes
    }
}

impl Bench {
    pub fn new() -> Bench {
        Bench {
            target: unpowered(),
            buffers: Buffers::new(),
        }
    }

    // Power-on as lent: the number of its answer, which is digested.
    pub fn power_on(&mut self, g: &mut State) -> usize {
        let b = &mut self.buffers;
        let powered = lent_power(
            lengths(g),
            g.device,
            &b.page,
            &b.array,
            &mut b.registers,
            &b.counts,
            &b.flags,
        );
        let (answer, target) = match powered {
            Ok(target) => (0, target),
            Err(refused) => (refused.why.number(), refused.target),
        };
        let number = wide(answer);
        self.target = target;
        g.tally.absorb(number);
        number
    }

    // A batch, lent what the state says, with this room for replies: the number of its answer, which is digested like
    // the replies and four bytes past the room that they need.
    fn run(&mut self, g: &mut State, batch: Batch<'_>, replies: &mut [u8], room: usize) -> usize {
        let b = &mut self.buffers;
        let ran = lent_run(
            self.target,
            lengths(g),
            batch.bytes,
            batch.bytes.len(),
            replies,
            room,
            &b.page,
            &mut b.array,
            &mut b.registers,
            &mut b.counts,
            &b.flags,
        );
        self.target = ran.unwrap_or(self.target);
        let number = wide(run_number(ran));
        g.tally.absorb(number);
        g.tally.absorb_front(replies, add(batch.need(), 4));
        number
    }

    // A batch with too little room.
    fn run_short(&mut self, rt: HostRuntime, g: &mut State, batch: Batch<'_>, replies: &mut [u8]) {
        let room = short_room(g, batch.need());
        let number = self.run(g, batch, replies, room);
        if number == 16 {
            g.tally.refuse(16);
        }
        show(rt, g, "room", [batch.at / 2, room, number, 0]);
    }

    // A batch; where the knob says so, first with too little room.
    fn run_batch(&mut self, rt: HostRuntime, g: &mut State, batch: Batch<'_>) {
        let mut replies = [238; ROOM];
        if g.chance(g.knobs.short) {
            self.run_short(rt, g, batch, &mut replies);
        }
        let room = add(batch.need(), g.below(5));
        self.run(g, batch, &mut replies, room);
        tally_replies(rt, g, batch, &replies);
    }

    // One record by the call for one event.
    fn run_single(&mut self, rt: HostRuntime, g: &mut State, batch: Batch<'_>) {
        let [kind, value] = first_two(batch.bytes);
        let b = &mut self.buffers;
        let stepped = lent_step(
            self.target,
            lengths(g),
            Event { kind, value },
            &b.page,
            &mut b.array,
            &mut b.registers,
            &mut b.counts,
            &b.flags,
        );
        self.target = stepped.target;
        let reply = [reply_first(stepped.reply), reply_second(stepped.reply)];
        g.tally.absorb(number(reply));
        g.tally.count(kind, reply);
        show(
            rt,
            g,
            "event",
            [batch.at / 2, wide(kind), wide(value), number(reply)],
        );
    }

    // The unread rest: where it lies, and its bytes.
    fn absorb_rest(&self, rt: HostRuntime, g: &mut State) {
        let b = &self.buffers;
        let page = &b.page[..count(g.lengths.page, &b.page)];
        let registers = &b.registers[..count(g.lengths.registers, &b.registers)];
        let unread = unread_part(self.target, page.len(), registers.len());
        let [which, at, count] = match unread {
            None => [0, 0, 0],
            Some(part) => match part.source {
                Source::Registers => [1, part.at, part.count],
                Source::Parameters => [2, part.at, part.count],
            },
        };
        g.tally.absorb_all(&[which, at, count]);
        g.tally.absorb_bytes(rest(self.target, page, registers));
        show(rt, g, "rest", [which, at, count, 0]);
    }

    // The number of blank blocks that the record keeps, by LUN.
    pub fn absorb_blanks(&self, rt: HostRuntime, g: &mut State) {
        let blanks = self.target.luns.map(|lun| usize::from(lun.blank));
        g.tally.absorb_all(&blanks);
        show(rt, g, "blanks", blanks);
    }

    // The record's numbers that no reply need show: which LUNs have a copyback open, what is kept behind a status, and
    // the blank blocks.
    fn absorb_record(&self, rt: HostRuntime, g: &mut State) {
        let open = self.target.luns.map(|lun| usize::from(lun.copyback));
        g.tally.absorb_all(&open);
        show(rt, g, "copybacks", open);
        let [kind, lun, at] = kept_place(self.target.decoder.kept);
        g.tally.absorb_all(&[kind, lun, at]);
        show(rt, g, "kept", [kind, lun, at, 0]);
        self.absorb_blanks(rt, g);
    }

    pub fn absorb_buffers(&self, g: &mut State) {
        let b = &self.buffers;
        g.tally.absorb_front(&b.array, g.lengths.array);
        g.tally.absorb_front(&b.registers, g.lengths.registers);
        g.tally.absorb_front(&b.counts, g.lengths.counts);
        g.tally.absorb_front(&b.flags, g.lengths.flags);
    }

    // On a record that is spoiled already: one event, then a trace of it and an odd byte; the numbers of blank blocks
    // as they are left.
    fn run_copy(&mut self, rt: HostRuntime, g: &mut State, what: usize, record: [u8; 2]) {
        let [kind, value] = record;
        let batch = Batch {
            bytes: &[kind, value, 0],
            at: 0,
        };
        let refused = g.tally.refused[13];
        let due = if is_legal(what) {
            refused
        } else {
            add(refused, 1)
        };
        self.run_single(rt, g, batch);
        if g.tally.refused[13] != due {
            g.tally.surprises = add(g.tally.surprises, 1);
        }
        self.run_batch(rt, g, batch);
        self.absorb_blanks(rt, g);
    }

    // A copy of the record is spoiled and run; then the record is as it was.
    fn run_spoiled(&mut self, rt: HostRuntime, g: &mut State) {
        let what = pick_spoil(g);
        let follow = g.below(2);
        let record = spoiled_record(g, what);
        show(rt, g, "spoil", [what, follow, 0, 0]);
        let kept = self.target;
        spoil(&mut self.target, &g.part, what);
        spoil_length(g, what);
        if follow == 1 && matches!(what, 1..=8) {
            follow_geometry(&self.target, g);
        }
        self.absorb_rest(rt, g);
        self.run_copy(rt, g, what, record);
        self.target = kept;
        g.measure();
    }

    // One time in eight the record itself gets an untrue number of blank blocks that 13 lets pass, 0 or all, and the
    // trace goes on with it: so programs meet a number that stops at 0, and erases one that stops at all.
    fn lie_blank(&mut self, rt: HostRuntime, g: &mut State) {
        let what = g.below(16);
        let lun = pick_lun(g);
        if what <= 1 {
            let number = times(what, g.part.blocks);
            show(rt, g, "lie", [lun, number, 0, 0]);
            set_blank(&mut self.target, lun, number);
        }
    }

    // One batch of a trace, or its one event, and what is looked at after it.
    fn run_some(&mut self, rt: HostRuntime, g: &mut State, batch: Batch<'_>, single: bool) {
        if single {
            self.run_single(rt, g, batch);
        } else {
            self.run_batch(rt, g, batch);
        }
        self.absorb_rest(rt, g);
        self.absorb_record(rt, g);
        if g.chance(g.knobs.spoil) {
            self.run_spoiled(rt, g);
            self.lie_blank(rt, g);
        }
    }

    // Runs the trace that was made, in batches of `step` bytes; with a step of one record, event by event.
    pub fn run_trace(&mut self, rt: HostRuntime, g: &mut State) {
        let made = g.trace;
        let trace = made.records();
        let step = times(2, g.below(g.knobs.step)).saturating_add(2);
        for (i, part) in trace.chunks(step).enumerate() {
            let at = times(i, step);
            let bytes = batch_bytes(g, trace, at, part.len());
            self.run_some(rt, g, Batch::of(trace, at, bytes), step == 2);
        }
    }
}
