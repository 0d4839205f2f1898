// One event over a target's record and its lent buffers.
#![tactic(auto)]

pub mod buffers;
pub mod usable;

ghost use Rattle.std.specs.Prelude.{◌≡◌, true, length, Ok};
ghost use Rattle.rules.specs.Rules.{verdict};
ghost use Rattle.step.specs.Usable.{record_sound};
ghost use Rattle.step.specs.Step.{Outcome, reply_of, accepted, steady, step_of, Sizes};

use buffers::{findings, output_byte, perform};
use effects::works::work_of;
use effects::{target_after, target_refused};
use rules::decide;
use target::events::Kind;
use target::place::put_out;
use target::{Event, Refusal, Reply, Target};
use usable::usable;

#[derive(Clone, Copy)]
pub struct Stepped {
    pub reply: Reply,
    pub target: Target,
}

#[tactic(auto, unfolding(crate::specs::Step::reply_of))]
fn reply_of(t: Target, e: Event, params: &[u8], registers: &[u8]) -> Reply
    requires { record_sound t ≡ true }
    ensures { result ≡ reply_of t e params.now registers.now }
{
    if e.is(Kind::DataOut) {
        Reply::Byte(output_byte(t, params, registers, put_out(t.decoder)))
    } else {
        Reply::Accepted
    }
}

#[tactic(auto, unfolding(crate::specs::Step::accepted, crate::specs::Step::accepted_by, crate::specs::Step::worked))]
fn accept(
    t: Target,
    e: Event,
    params: &[u8],
    array: &mut [u8],
    registers: &mut [u8],
    counts: &mut [u8],
    flags: &[u8],
) -> Stepped
    requires t_value { record_sound t ≡ true }
    requires e_value { verdict t e ≡ Ok tt }
    requires sizes { Sizes t.geometry array.old registers.old counts.old }
    ensures { ◌≡◌ {A = Outcome}
        (record { reply = result.reply; target = result.target; buffers = record { array = array.new; registers = registers.new; counts = counts.new } })
        (accepted t e params.now (record { array = array.old; registers = registers.old; counts = counts.old }) flags.now) }
{
    let g = t.geometry;
    let s = t.decoder.sequence;
    let found = findings(g, t.words, s, e, counts, flags);
    let reply = reply_of(t, e, params, registers);
    let work = work_of(g, t.clear, s, e, found);
    perform(g, work, array, registers, counts);
    Stepped {
        reply,
        target: target_after(t, e, found),
    }
}

// One event where rule 13 is known not to hold: what a run goes by, which looks at rule 13 once.
#[tactic(auto, unfolding(crate::specs::Step::steady, crate::specs::Step::by_verdict))]
pub fn steady(
    t: Target,
    e: Event,
    params: &[u8],
    array: &mut [u8],
    registers: &mut [u8],
    counts: &mut [u8],
    flags: &[u8],
) -> Stepped
    requires t_value { record_sound t ≡ true }
    requires sizes { Sizes t.geometry array.old registers.old counts.old }
    ensures { ◌≡◌ {A = Outcome}
        (record { reply = result.reply; target = result.target; buffers = record { array = array.new; registers = registers.new; counts = counts.new } })
        (steady t e params.now (record { array = array.old; registers = registers.old; counts = counts.old }) flags.now) }
{
    match decide(t, e) {
        Err(why) => Stepped {
            reply: Reply::Refused(why),
            target: target_refused(t, e),
        },
        Ok(()) => accept(t, e, params, array, registers, counts, flags),
    }
}

// One event.
#[tactic(auto, unfolding(crate::specs::Step::step_of))]
pub fn step(
    t: Target,
    e: Event,
    params: &[u8],
    array: &mut [u8],
    registers: &mut [u8],
    counts: &mut [u8],
    flags: &[u8],
) -> Stepped
    ensures { ◌≡◌ {A = Outcome}
        (record { reply = result.reply; target = result.target; buffers = record { array = array.new; registers = registers.new; counts = counts.new } })
        (step_of t e params.now (record { array = array.old; registers = registers.old; counts = counts.old }) flags.now) }
{
    if !usable(
        t,
        params.len(),
        array.len(),
        registers.len(),
        counts.len(),
        flags.len(),
    ) {
        return Stepped {
            reply: Reply::Refused(Refusal::NotUsable),
            target: t,
        };
    }
    steady(t, e, params, array, registers, counts, flags)
}
