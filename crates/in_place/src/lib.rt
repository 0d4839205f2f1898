// References to structs: one event over a record that is lent, and batches of events that are held as records in memory. Each
// function over one is as thin as it can be. `step_lent` and `run_some` hold the record and the events themselves.
#![tactic(auto)]

ghost use Rattle.std.specs.Prelude.{◌≡◌, ◌+◌, ◌*◌, ◌<◌, length, take};
ghost use Rattle.step.specs.Step.{Outcome, step_of};
ghost use Rattle.trace.specs.Run.{Running, one_more, came_to, batch_of};
ghost use Rattle.in_place.specs.Plan.{plan_of};

use step::Stepped;
use target::{Event, Reply, Target};
use trace::{RunRefusal, put_reply};

// One event over a record that is lent: it is taken out, stepped by value, and stored back.
pub fn step_in_place(
    t: &mut Target,
    e: Event,
    params: &[u8],
    array: &mut [u8],
    registers: &mut [u8],
    counts: &mut [u8],
    flags: &[u8],
) -> Reply
    ensures { ◌≡◌ {A = Outcome}
        (record { reply = result; target = t.new; buffers = record { array = array.new; registers = registers.new; counts = counts.new } })
        (step_of t.old e params.now (record { array = array.old; registers = registers.old; counts = counts.old }) flags.now) }
{
    let s = step::step(*t, e, params, array, registers, counts, flags);
    *t = s.target;
    s.reply
}

// The same on a record that is held here: whoever calls it lends no record.
pub fn step_lent(
    mut t: Target,
    e: Event,
    params: &[u8],
    array: &mut [u8],
    registers: &mut [u8],
    counts: &mut [u8],
    flags: &[u8],
) -> Stepped
    ensures { ◌≡◌ {A = Outcome}
        (record { reply = result.reply; target = result.target; buffers = record { array = array.new; registers = registers.new; counts = counts.new } })
        (step_of t e params.now (record { array = array.old; registers = registers.old; counts = counts.old }) flags.now) }
{
    let reply = step_in_place(&mut t, e, params, array, registers, counts, flags);
    Stepped { reply, target: t }
}

// What a batch does with the event at place `i`: the step, and its two reply bytes.
fn run_one(
    t: Target,
    e: Event,
    i: usize,
    params: &[u8],
    array: &mut [u8],
    registers: &mut [u8],
    counts: &mut [u8],
    flags: &[u8],
    replies: &mut [u8],
) -> Target
    requires { 2 * i + 1 < length replies.old }
    ensures { ◌≡◌ {A = Running}
        (record { target = result; done = i + 1; buffers = record { array = array.new; registers = registers.new; counts = counts.new }; room = replies.new })
        (one_more params.now flags.now
        (record { target = t; done = i; buffers = record { array = array.old; registers = registers.old; counts = counts.old }; room = replies.old })
        e) }
{
    let s = step::step(t, e, params, array, registers, counts, flags);
    put_reply(replies, i, s.reply);
    s.target
}

// How many events of a batch are run: all of them, or none.
pub fn batch_plan(events: usize, room: usize) -> Result<usize, RunRefusal>
    ensures { result ≡ plan_of events room }
{
    if room / 2 < events {
        return Err(RunRefusal::NoRoom);
    }
    Ok(events)
}

// A batch of events that are held as records, and the target after it. If the room is too short for all replies, it is refused
// and nothing changes.
pub fn run_batch(
    mut t: Target,
    events: &[Event],
    params: &[u8],
    array: &mut [u8],
    registers: &mut [u8],
    counts: &mut [u8],
    flags: &[u8],
    replies: &mut [u8],
) -> Result<Target, RunRefusal>
    ensures { came_to t result (record { array = array.new; registers = registers.new; counts = counts.new }) replies.new
        ≡ batch_of t events.now replies.old params.now (record { array = array.old; registers = registers.old; counts = counts.old }) flags.now }
{
    batch_plan(events.len(), replies.len())?;
    for (i, &event) in events.iter().enumerate() {
        t = run_one(
            t, event, i, params, array, registers, counts, flags, replies,
        );
    }
    Ok(t)
}

// Events that a program holds itself.
pub type Held = [Event; 64];

// A batch of the first `n` events of an array that is held here, or of all 64: whoever calls it lends no events.
pub fn run_some(
    t: Target,
    events: Held,
    n: usize,
    params: &[u8],
    array: &mut [u8],
    registers: &mut [u8],
    counts: &mut [u8],
    flags: &[u8],
    replies: &mut [u8],
) -> Result<Target, RunRefusal>
    ensures { came_to t result (record { array = array.new; registers = registers.new; counts = counts.new }) replies.new
        ≡ batch_of t (take n events) replies.old params.now (record { array = array.old; registers = registers.old; counts = counts.old }) flags.now }
{
    let k = n.min(64);
    run_batch(
        t,
        &events[..k],
        params,
        array,
        registers,
        counts,
        flags,
        replies,
    )
}
