// Byte traces: two-byte records in, two-byte replies out, over the proved step.
#![tactic(auto)]

mod bursts;

ghost use Rattle.std.specs.Prelude.{◌≡◌, ◌+◌, ◌*◌, ◌/◌, ◌%◌, ◌≤◌, ◌<◌, length, get_or, eqb, ltb};
ghost use Rattle.target.specs.declared.Reply.TheVariants as reply;
ghost use Rattle.target.specs.declared.Refusal.TheVariants as refusal;
ghost use Rattle.target.specs.Pick.{pick};
ghost use Rattle.step.specs.Usable.{usable};
ghost use Rattle.step.specs.Step.{Outcome, step_of};
ghost use Rattle.trace.specs.Run.{run_number, Running, written, one_more, ran_all, events_of, stands_usable, odd_answered, needed, start, came_to, trace_of};

use bursts::{burst, may_burst};
use step::usable::usable;
use step::{Stepped, steady};
use target::{Decoder, Event, Output, Refusal, Reply, Target, reply_first, reply_second};

// Why a trace or a batch is refused as a whole. Then nothing was changed, and the target is what it was.
#[derive(Clone, Copy)]
pub enum RunRefusal {
    // 16
    NoRoom,
}

// Document 01's number of a run's answer, 0 where it was run.
pub fn run_number<T: Copy>(outcome: Result<T, RunRefusal>) -> u8
    ensures { result ≡ run_number outcome }
{
    match outcome {
        Ok(_) => 0,
        Err(RunRefusal::NoRoom) => 16,
    }
}

// Reply number `i` into the room.
pub fn put_reply(room: &mut [u8], i: usize, r: Reply)
    requires { 2 * i + 1 < length room.old }
    ensures { room.new ≡ written room.old i r }
{
    room[2 * i] = reply_first(r);
    room[2 * i + 1] = reply_second(r);
}

// One event where it is known whether rule 13 holds.
fn step_known(
    ok: bool,
    t: Target,
    e: Event,
    params: &[u8],
    array: &mut [u8],
    registers: &mut [u8],
    counts: &mut [u8],
    flags: &[u8],
) -> Stepped
    requires { ok ≡ usable t (length params.now) (length array.old) (length registers.old) (length counts.old) (length flags.now) }
    ensures { ◌≡◌ {A = Outcome}
        (record { reply = result.reply; target = result.target; buffers = record { array = array.new; registers = registers.new; counts = counts.new } })
        (step_of t e params.now (record { array = array.old; registers = registers.old; counts = counts.old }) flags.now) }
{
    if !ok {
        return Stepped {
            reply: Reply::Refused(Refusal::NotUsable),
            target: t,
        };
    }
    steady(t, e, params, array, registers, counts, flags)
}

// The same output, made anew from its numbers. A copy of it would take the gaps between them along, and the compiler can't see
// that nobody reads those: carried from event to event, they were half the time of a trace. So it has an arm for each.
fn output_anew(o: Output) -> Output
    ensures { result ≡ o }
{
    match o {
        Output::Nothing => Output::Nothing,
        Output::Register { lun, column } => Output::Register { lun, column },
        Output::Parameters { at } => Output::Parameters { at },
        Output::Status { lun } => Output::Status { lun },
        Output::Ids { at } => Output::Ids { at },
        Output::Signature { at } => Output::Signature { at },
        Output::Feature { at } => Output::Feature { at },
    }
}

fn outputs_anew(t: Target) -> Target
    ensures { result ≡ t }
{
    let decoder = Decoder {
        output: output_anew(t.decoder.output),
        kept: output_anew(t.decoder.kept),
        ..t.decoder
    };
    Target { decoder, ..t }
}

// Record number `i`, and its reply.
fn turn(
    ok: bool,
    t: Target,
    i: usize,
    records: &[u8],
    room: &mut [u8],
    params: &[u8],
    array: &mut [u8],
    registers: &mut [u8],
    counts: &mut [u8],
    flags: &[u8],
) -> Target
    requires ok_value { ok ≡ usable t (length params.now) (length array.old) (length registers.old) (length counts.old) (length flags.now) }
    requires i_in_bounds { (2 * i + 1 < length records.now) × (2 * i + 1 < length room.old) }
    ensures { ◌≡◌ {A = Running}
        (record { target = result; done = i + 1; buffers = record { array = array.new; registers = registers.new; counts = counts.new }; room = room.new })
        (one_more params.now flags.now
        (record { target = t; done = i; buffers = record { array = array.old; registers = registers.old; counts = counts.old }; room = room.old })
        (record { kind = get_or records.now (2 * i) 0; value = get_or records.now (2 * i + 1) 0 })) }
{
    let e = Event {
        kind: records[2 * i],
        value: records[2 * i + 1],
    };
    let s = step_known(ok, t, e, params, array, registers, counts, flags);
    put_reply(room, i, s.reply);
    outputs_anew(s.target)
}

// All whole records. Whether rule 13 holds can't change on the way. An index, since a burst of data leaps over many records.
fn run_records(
    ok: bool,
    t: Target,
    records: &[u8],
    room: &mut [u8],
    params: &[u8],
    array: &mut [u8],
    registers: &mut [u8],
    counts: &mut [u8],
    flags: &[u8],
) -> Target
    requires ok_value { ok ≡ usable t (length params.now) (length array.old) (length registers.old) (length counts.old) (length flags.now) }
    requires records_in_bounds { length records.now ≤ length room.old }
    ensures { ◌≡◌ {A = Running}
        (record { target = result; done = length records.now / 2; buffers = record { array = array.new; registers = registers.new; counts = counts.new }; room = room.new })
        (ran_all params.now flags.now (events_of records.now)
        (start t (record { array = array.old; registers = registers.old; counts = counts.old }) room.old)) }
{
    let n = records.len() / 2;
    let mut at = t;
    let mut i: usize = 0;
    while i < n {
        at = turn(
            ok, at, i, records, room, params, array, registers, counts, flags,
        );
        i += 1;
        if ok && may_burst(records, i) {
            let b = burst(at, i, records, room, registers);
            at = b.target;
            i += b.count;
        }
    }
    at
}

// The reply room is too short for the replies of a trace of `n` bytes.
pub fn too_short(room: usize, n: usize) -> bool
    ensures { result ≡ ltb room (needed n) }
{
    if n % 2 == 1 { room <= n } else { room < n }
}

// 12, or 13 where 13 holds.
fn odd_refusal(ok: bool) -> Refusal
    ensures { result ≡ pick ok refusal.BadRecord refusal.NotUsable }
{
    if ok {
        Refusal::BadRecord
    } else {
        Refusal::NotUsable
    }
}

// The odd last byte of a trace of `n` bytes.
fn answer_odd(ok: bool, n: usize, room: &mut [u8])
    requires { needed n ≤ length room.old }
    ensures { room.new ≡ pick (eqb (n % 2) 1) (written room.old (n / 2) (reply.Refused (pick ok refusal.BadRecord refusal.NotUsable))) room.old }
{
    if n % 2 == 1 {
        put_reply(room, n / 2, Reply::Refused(odd_refusal(ok)));
    }
}

// A byte trace, and the target after it. Refusals don't stop it; if the room is too short for all replies, it is refused once
// and nothing changes.
pub fn run(
    t: Target,
    records: &[u8],
    room: &mut [u8],
    params: &[u8],
    array: &mut [u8],
    registers: &mut [u8],
    counts: &mut [u8],
    flags: &[u8],
) -> Result<Target, RunRefusal>
    ensures { came_to t result (record { array = array.new; registers = registers.new; counts = counts.new }) room.new
        ≡ trace_of t records.now room.old params.now (record { array = array.old; registers = registers.old; counts = counts.old }) flags.now }
{
    let n = records.len();
    if too_short(room.len(), n) {
        return Err(RunRefusal::NoRoom);
    }
    let ok = usable(
        t,
        params.len(),
        array.len(),
        registers.len(),
        counts.len(),
        flags.len(),
    );
    let target = run_records(
        ok, t, records, room, params, array, registers, counts, flags,
    );
    answer_odd(ok, n, room);
    Ok(target)
}
