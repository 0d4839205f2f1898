// Runs one long trace all three ways, as a byte trace, in batches of events held as records, and one event at a time over a
// record that is lent, and compares every reply and every buffer. Part and trace are files of data/.
#![tactic(auto)]

use in_place::{run_some, step_lent};
use power::power_on;
use target::{Event, Target, reply_first, reply_second};
use test_kit::compare::{differing, refusals};
use test_kit::files::load_hex;
use test_kit::random::{SEED, drawn};
use trace::{run, run_number};

// A parameter page; the script; the trace.
type Page = [u8; 256];

type Script = [u8; 384];

type Records = [u8; 49152];

// The buffers of T1, and room for the trace's replies and a little more.
#[derive(Clone, Copy)]
struct Buffers {
    room: [u8; 49160],
    array: [u8; 33792],
    registers: [u8; 1056],
    counts: [u8; 64],
}

// No bad block.
const GOOD: [u8; 16] = [0; 16];

const NEW: Buffers = Buffers {
    room: [0; 49160],
    array: [0; 33792],
    registers: [0; 1056],
    counts: [0; 64],
};

impl Buffers {
    // As they are right after power-on, in their own place: a set handed on by value would take as much stack again.
    fn refresh(&mut self) {
        self.room.fill(0xee);
        self.array.fill(0xff);
        self.registers.fill(0xff);
        self.counts.fill(0);
    }
}

// The script over and over, with another byte in one of sixteen places.
fn lay_trace(records: &mut [u8], script: &Script) {
    let mut x = SEED;
    for (i, byte) in records.iter_mut().enumerate() {
        x = drawn(x);
        *byte = if x % 16 != 0 {
            script[i % 384]
        } else if i % 2 == 0 {
            (x / 16 % 6) as u8
        } else {
            (x / 16 % 256) as u8
        };
    }
}

// The 64 events of a batch, two bytes each.
fn events_of(batch: &[u8]) -> [Event; 64] {
    let mut events = [Event { kind: 0, value: 0 }; 64];
    for (event, record) in events.iter_mut().zip(batch.chunks_exact(2)) {
        if let &[kind, value] = record {
            *event = Event { kind, value };
        }
    }
    events
}

fn by_batches(target: Target, page: &Page, records: &Records, buffers: &mut Buffers) {
    let Buffers {
        room,
        array,
        registers,
        counts,
    } = buffers;
    let mut t = target;
    for (batch, replies) in records.chunks_exact(128).zip(room.chunks_exact_mut(128)) {
        let ran = run_some(
            t,
            events_of(batch),
            64,
            page,
            array,
            registers,
            counts,
            &GOOD,
            replies,
        );
        t = ran.unwrap_or(t);
    }
}

fn by_events(target: Target, page: &Page, records: &Records, buffers: &mut Buffers) {
    let Buffers {
        room,
        array,
        registers,
        counts,
    } = buffers;
    let mut t = target;
    for (record, reply) in records.chunks_exact(2).zip(room.chunks_exact_mut(2)) {
        if let (&[kind, value], [first, second]) = (record, reply) {
            let event = Event { kind, value };
            let stepped = step_lent(t, event, page, array, registers, counts, &GOOD);
            *first = reply_first(stepped.reply);
            *second = reply_second(stepped.reply);
            t = stepped.target;
        }
    }
}

// A way's replies and buffers against those of the byte trace.
fn compare(rt: HostRuntime, way: &str, due: &Buffers, got: &Buffers) {
    let room = differing(&due.room, &got.room, 49160);
    let array = differing(&due.array, &got.array, 33792);
    let registers = differing(&due.registers, &got.registers, 1056);
    let counts = differing(&due.counts, &got.counts, 64);
    let _ = println!(rt; "{way}: reply bytes that differ {room}");
    let _ = println!(rt; "{way}: array bytes that differ {array}");
    let _ = println!(rt; "{way}: register bytes that differ {registers}");
    let _ = println!(rt; "{way}: counts that differ {counts}");
}

fn power(rt: HostRuntime, page: &Page, buffers: &mut Buffers) -> Target {
    let on = power_on(
        page,
        0x68,
        &buffers.array,
        &mut buffers.registers,
        &buffers.counts,
        &GOOD,
    );
    let (answer, target) = match on {
        Ok(target) => (0, target),
        Err(refused) => (refused.why.number(), refused.target),
    };
    let _ = println!(rt; "power-on answers {answer}");
    target
}

fn by_bytes(rt: HostRuntime, t: Target, page: &Page, records: &Records, buffers: &mut Buffers) {
    let ran = run(
        t,
        records,
        &mut buffers.room,
        page,
        &mut buffers.array,
        &mut buffers.registers,
        &mut buffers.counts,
        &GOOD,
    );
    let _ = println!(rt; "the byte trace answers {}", run_number(ran));
    let _ = println!(rt; "records {}", records.len() / 2);
    let _ = println!(rt; "refused {}", refusals(&buffers.room));
    let changed = buffers.array.iter().filter(|&&b| b != 0xff).count();
    let _ = println!(rt; "array bytes changed {changed}");
}

fn all_ways(rt: HostRuntime, page: &Page, records: &Records) {
    let mut bytes = NEW;
    bytes.refresh();
    bytes.registers.fill(0);
    let t = power(rt, page, &mut bytes);
    by_bytes(rt, t, page, records, &mut bytes);
    let mut other = NEW;
    other.refresh();
    by_batches(t, page, records, &mut other);
    compare(rt, "batches", &bytes, &other);
    other.refresh();
    by_events(t, page, records, &mut other);
    compare(rt, "one at a time", &bytes, &other);
}

fn main(rt: HostRuntime) {
    let mut page = [0; 256];
    let mut script = [0; 384];
    let mut records = [0; 49152];
    load_hex(rt, b"t1", &mut page);
    load_hex(rt, b"script", &mut script);
    lay_trace(&mut records, &script);
    all_ways(rt, &page, &records);
}
