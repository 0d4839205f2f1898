// Which rule refuses an event: one function for each of document 01's numbers, and their order. All by value, with no
// `requires`.
#![tactic(auto)]

ghost use Rattle.std.specs.Prelude.{◌≡◌, Ok, Err};
ghost use Rattle.target.specs.Pick.{pick};
ghost use Rattle.rules.specs.Rules.{unknown, before_reset, fits, misplaced, exists, row_fits, beyond, out_of_range, names_working, output_works, lun_works, lacks_copyback, no_copyback, work_for, others_work_for, others_busy, is_guarded, line_low, data_ended, output_ended, past_end, unoffered, not_offered, not_working, line_held, verdict};

use target::address::{block_exists, lun_exists, lun_of, row_exists};
use target::bits::has_feature;
use target::commands::{
    Looks, Waits, first_of, is_known, knows_address, looks_of, needs_copyback, needs_ready,
    offered, second_of, second_row, waits_for,
};
use target::events::{Kind, bad_record, is_bus, is_reset};
use target::place::{has_output, is_open, put_out, takes_address, takes_command, takes_data};
use target::records::{any_works, copyback_at, others_work, works};
use target::sizes::{column_end, page_size};
use target::views::{Given, Taker, completed, taking};
use target::{
    Decoder, Event, First, Geometry, Luns, Output, Refusal, Row, Second, Sequence, Target, Words,
};

// Rule 1.
#[tactic(auto, unfolding(crate::specs::Rules::unknown))]
pub fn unknown(w: Words, s: Sequence, e: Event) -> bool
    ensures { result ≡ unknown w s e }
{
    e.is(Kind::Command) && !(is_known(e.value) && offered(w, is_open(s), e.value))
}

// Rule 2.
#[tactic(auto, unfolding(crate::specs::Rules::before_reset))]
pub fn before_reset(seen: bool, e: Event) -> bool
    ensures { result ≡ before_reset seen e }
{
    is_bus(e) && !is_reset(e) && !seen
}

#[tactic(auto, unfolding(crate::specs::Rules::fits))]
pub fn fits(d: Decoder, e: Event) -> bool
    ensures { result ≡ fits d e }
{
    match e.kind() {
        Some(Kind::Command) => takes_command(d.sequence, e.value),
        Some(Kind::Address) => takes_address(d.sequence),
        Some(Kind::DataIn) => takes_data(d.sequence),
        _ => has_output(put_out(d)),
    }
}

// Rule 3.
#[tactic(auto, unfolding(crate::specs::Rules::misplaced))]
pub fn misplaced(d: Decoder, e: Event) -> bool
    ensures { result ≡ misplaced d e }
{
    is_bus(e) && !fits(d, e)
}

pub fn exists(g: Geometry, l: Looks, r: Row) -> bool
    ensures { result ≡ exists g l r }
{
    match l {
        Looks::Nothing => true,
        Looks::Lun => lun_exists(g, r),
        Looks::Block => block_exists(g, r),
        Looks::Page => row_exists(g, r),
    }
}

pub fn row_fits(g: Geometry, f: First, r: Row) -> bool
    ensures { result ≡ row_fits g f r }
{
    exists(g, looks_of(f), r)
}

pub fn beyond(g: Geometry, k: Option<Given>) -> bool
    ensures { result ≡ beyond g k }
{
    match k {
        Some(Given::Column(k)) => column_end(g, k.page) <= k.column.0,
        Some(Given::Row(k)) => !row_fits(g, k.first, k.row),
        Some(Given::Single(k)) => !knows_address(k.first, k.value),
        None => false,
    }
}

// Rule 4.
#[tactic(auto, unfolding(crate::specs::Rules::out_of_range))]
pub fn out_of_range(g: Geometry, s: Sequence, e: Event) -> bool
    ensures { result ≡ out_of_range g s e }
{
    e.is(Kind::Address) && beyond(g, completed(s, e.value))
}

pub fn names_working(g: Geometry, luns: Luns, selected: usize, k: Option<Given>) -> bool
    ensures { result ≡ names_working g luns selected k }
{
    match k {
        Some(Given::Column(k)) => k.asks && works(luns, selected),
        Some(Given::Row(k)) => needs_ready(k.first) && works(luns, lun_of(g, k.row)),
        _ => false,
    }
}

pub fn output_works(luns: Luns, o: Output) -> bool
    ensures { result ≡ output_works luns o }
{
    match o {
        Output::Register { lun, .. } => works(luns, lun),
        _ => false,
    }
}

// Rule 5.
#[tactic(auto, unfolding(crate::specs::Rules::lun_works))]
pub fn lun_works(g: Geometry, luns: Luns, selected: usize, d: Decoder, e: Event) -> bool
    ensures { result ≡ lun_works g luns selected d e }
{
    match e.kind() {
        Some(Kind::Address) => names_working(g, luns, selected, completed(d.sequence, e.value)),
        Some(Kind::DataOut) => output_works(luns, put_out(d)),
        _ => false,
    }
}

pub fn lacks_copyback(g: Geometry, luns: Luns, k: Option<Given>) -> bool
    ensures { result ≡ lacks_copyback g luns k }
{
    match k {
        Some(Given::Row(k)) => needs_copyback(k.first) && !copyback_at(luns, lun_of(g, k.row)),
        _ => false,
    }
}

// Rule 14.
#[tactic(auto, unfolding(crate::specs::Rules::no_copyback))]
pub fn no_copyback(g: Geometry, luns: Luns, s: Sequence, e: Event) -> bool
    ensures { result ≡ no_copyback g luns s e }
{
    e.is(Kind::Address) && lacks_copyback(g, luns, completed(s, e.value))
}

pub fn work_for(luns: Luns, selected: usize, w: Waits) -> bool
    ensures { result ≡ work_for luns selected w }
{
    match w {
        Waits::Nobody => false,
        Waits::Others => others_work(luns, selected),
        Waits::All => any_works(luns),
    }
}

pub fn others_work_for(luns: Luns, selected: usize, k: Option<First>) -> bool
    ensures { result ≡ others_work_for luns selected k }
{
    match k {
        Some(f) => work_for(luns, selected, waits_for(f)),
        None => false,
    }
}

// Rule 6.
#[tactic(auto, unfolding(crate::specs::Rules::others_busy))]
pub fn others_busy(luns: Luns, selected: usize, e: Event) -> bool
    ensures { result ≡ others_busy luns selected e }
{
    e.is(Kind::Command) && others_work_for(luns, selected, first_of(e.value))
}

pub fn is_guarded(k: Option<Second>) -> bool
    ensures { result ≡ is_guarded k }
{
    match k {
        Some(s) => second_row(s).guarded,
        None => false,
    }
}

// Rule 7.
#[tactic(auto, unfolding(crate::specs::Rules::line_low))]
pub fn line_low(high: bool, e: Event) -> bool
    ensures { result ≡ line_low high e }
{
    e.is(Kind::Command) && is_guarded(second_of(e.value)) && !high
}

pub fn data_ended(g: Geometry, k: Option<Taker>) -> bool
    ensures { result ≡ data_ended g k }
{
    match k {
        Some(Taker::Program(k)) => page_size(g) <= k.at.0,
        _ => false,
    }
}

pub fn output_ended(g: Geometry, o: Output) -> bool
    ensures { result ≡ output_ended g o }
{
    match o {
        Output::Register { column, .. } => page_size(g) <= column.0,
        Output::Parameters { at } => 768 <= at,
        Output::Ids { at } => 2 <= at,
        Output::Signature { at } | Output::Feature { at } => 4 <= at,
        Output::Nothing | Output::Status { .. } => false,
    }
}

// Rule 8.
#[tactic(auto, unfolding(crate::specs::Rules::past_end))]
pub fn past_end(g: Geometry, d: Decoder, e: Event) -> bool
    ensures { result ≡ past_end g d e }
{
    match e.kind() {
        Some(Kind::DataIn) => data_ended(g, taking(d.sequence)),
        Some(Kind::DataOut) => output_ended(g, put_out(d)),
        _ => false,
    }
}

pub fn unoffered(w: Words, k: Option<Taker>, v: u8) -> bool
    ensures { result ≡ unoffered w k v }
{
    match k {
        Some(Taker::Feature(k)) => !(v == 0 || (k.got == 0 && v == 0x40 && has_feature(w, 8))),
        _ => false,
    }
}

// Rule 9.
#[tactic(auto, unfolding(crate::specs::Rules::not_offered))]
pub fn not_offered(w: Words, s: Sequence, e: Event) -> bool
    ensures { result ≡ not_offered w s e }
{
    e.is(Kind::DataIn) && unoffered(w, taking(s), e.value)
}

// Rule 10.
#[tactic(auto, unfolding(crate::specs::Rules::not_working))]
pub fn not_working(g: Geometry, luns: Luns, e: Event) -> bool
    ensures { result ≡ not_working g luns e }
{
    let l = e.value as usize;
    e.is(Kind::Finish) && !(l < g.luns && works(luns, l))
}

// Rule 11.
#[tactic(auto, unfolding(crate::specs::Rules::line_held))]
pub fn line_held(luns: Luns, s: Sequence, e: Event) -> bool
    ensures { result ≡ line_held luns s e }
{
    e.is(Kind::Protect) && (any_works(luns) || is_open(s))
}

// A refusal where its rule holds.
pub fn refuse_if(holds: bool, why: Refusal) -> Result<(), Refusal>
    ensures { result ≡ pick holds (Err why) (Ok tt) }
{
    if holds { Err(why) } else { Ok(()) }
}

// What a command can meet: 2, 1, 3, 6 and 7.
#[tactic(auto, unfolding(crate::specs::Rules::verdict, crate::specs::Rules::rules, target::specs::Pick::or_else, target::specs::Events::bad_record, crate::specs::Rules::out_of_range, crate::specs::Rules::not_offered, crate::specs::Rules::lun_works, crate::specs::Rules::past_end, crate::specs::Rules::not_working, crate::specs::Rules::line_held, crate::specs::Rules::no_copyback))]
fn decide_command(t: Target, v: u8) -> Result<(), Refusal>
    ensures { result ≡ verdict t (record { kind = 0; value = v }) }
{
    let e = Event { kind: 0, value: v };
    let d = t.decoder;
    refuse_if(before_reset(t.seen, e), Refusal::BeforeReset)?;
    refuse_if(unknown(t.words, d.sequence, e), Refusal::Unknown)?;
    refuse_if(misplaced(d, e), Refusal::Misplaced)?;
    refuse_if(others_busy(t.luns, t.selected, e), Refusal::OthersWork)?;
    refuse_if(line_low(t.high, e), Refusal::Protected)
}

// What an address can meet: 2, 3, 4, 5 and 14.
#[tactic(auto, unfolding(crate::specs::Rules::verdict, crate::specs::Rules::rules, target::specs::Pick::or_else, target::specs::Events::bad_record, crate::specs::Rules::unknown, crate::specs::Rules::others_busy, crate::specs::Rules::not_offered, crate::specs::Rules::line_low, crate::specs::Rules::past_end, crate::specs::Rules::not_working, crate::specs::Rules::line_held))]
fn decide_address(t: Target, v: u8) -> Result<(), Refusal>
    ensures { result ≡ verdict t (record { kind = 1; value = v }) }
{
    let e = Event { kind: 1, value: v };
    let d = t.decoder;
    let g = t.geometry;
    refuse_if(before_reset(t.seen, e), Refusal::BeforeReset)?;
    refuse_if(misplaced(d, e), Refusal::Misplaced)?;
    refuse_if(out_of_range(g, d.sequence, e), Refusal::OutOfRange)?;
    refuse_if(lun_works(g, t.luns, t.selected, d, e), Refusal::LunWorks)?;
    refuse_if(no_copyback(g, t.luns, d.sequence, e), Refusal::NoCopyback)
}

// What data in can meet: 2, 3, 9 and 8.
#[tactic(auto, unfolding(crate::specs::Rules::verdict, crate::specs::Rules::rules, target::specs::Pick::or_else, target::specs::Events::bad_record, crate::specs::Rules::unknown, crate::specs::Rules::others_busy, crate::specs::Rules::out_of_range, crate::specs::Rules::lun_works, crate::specs::Rules::line_low, crate::specs::Rules::not_working, crate::specs::Rules::line_held, crate::specs::Rules::no_copyback))]
fn decide_in(t: Target, v: u8) -> Result<(), Refusal>
    ensures { result ≡ verdict t (record { kind = 2; value = v }) }
{
    let e = Event { kind: 2, value: v };
    let d = t.decoder;
    refuse_if(before_reset(t.seen, e), Refusal::BeforeReset)?;
    refuse_if(misplaced(d, e), Refusal::Misplaced)?;
    refuse_if(not_offered(t.words, d.sequence, e), Refusal::NotOffered)?;
    refuse_if(past_end(t.geometry, d, e), Refusal::PastEnd)
}

// What data out can meet: 12, 2, 3, 5 and 8.
#[tactic(auto, unfolding(crate::specs::Rules::verdict, crate::specs::Rules::rules, target::specs::Pick::or_else, crate::specs::Rules::unknown, crate::specs::Rules::others_busy, crate::specs::Rules::out_of_range, crate::specs::Rules::not_offered, crate::specs::Rules::line_low, crate::specs::Rules::not_working, crate::specs::Rules::line_held, crate::specs::Rules::no_copyback))]
fn decide_out(t: Target, v: u8) -> Result<(), Refusal>
    ensures { result ≡ verdict t (record { kind = 3; value = v }) }
{
    let e = Event { kind: 3, value: v };
    let d = t.decoder;
    let g = t.geometry;
    refuse_if(bad_record(e), Refusal::BadRecord)?;
    refuse_if(before_reset(t.seen, e), Refusal::BeforeReset)?;
    refuse_if(misplaced(d, e), Refusal::Misplaced)?;
    refuse_if(lun_works(g, t.luns, t.selected, d, e), Refusal::LunWorks)?;
    refuse_if(past_end(g, d, e), Refusal::PastEnd)
}

// What a finish can meet: 10.
#[tactic(auto, unfolding(crate::specs::Rules::verdict, crate::specs::Rules::rules, target::specs::Pick::or_else, target::specs::Events::bad_record, crate::specs::Rules::before_reset, crate::specs::Rules::unknown, crate::specs::Rules::misplaced, crate::specs::Rules::others_busy, crate::specs::Rules::out_of_range, crate::specs::Rules::not_offered, crate::specs::Rules::lun_works, crate::specs::Rules::line_low, crate::specs::Rules::past_end, crate::specs::Rules::line_held, crate::specs::Rules::no_copyback))]
fn decide_finish(t: Target, v: u8) -> Result<(), Refusal>
    ensures { result ≡ verdict t (record { kind = 4; value = v }) }
{
    let e = Event { kind: 4, value: v };
    refuse_if(not_working(t.geometry, t.luns, e), Refusal::NotWorking)
}

// What the protect line can meet: 12 and 11.
#[tactic(auto, unfolding(crate::specs::Rules::verdict, crate::specs::Rules::rules, target::specs::Pick::or_else, crate::specs::Rules::before_reset, crate::specs::Rules::unknown, crate::specs::Rules::misplaced, crate::specs::Rules::others_busy, crate::specs::Rules::out_of_range, crate::specs::Rules::not_offered, crate::specs::Rules::lun_works, crate::specs::Rules::line_low, crate::specs::Rules::past_end, crate::specs::Rules::not_working, crate::specs::Rules::no_copyback))]
fn decide_protect(t: Target, v: u8) -> Result<(), Refusal>
    ensures { result ≡ verdict t (record { kind = 5; value = v }) }
{
    let e = Event { kind: 5, value: v };
    refuse_if(bad_record(e), Refusal::BadRecord)?;
    refuse_if(line_held(t.luns, t.decoder.sequence, e), Refusal::LineHeld)
}

// The first rule that holds, in document 01's order, looking only at the rules that can hold for an event of that kind.
#[tactic(auto, unfolding(crate::specs::Rules::verdict, crate::specs::Rules::rules, target::specs::Pick::or_else, target::specs::Events::bad_record))]
pub fn decide(t: Target, e: Event) -> Result<(), Refusal>
    ensures { result ≡ verdict t e }
{
    let v = e.value;
    match e.kind {
        0 => decide_command(t, v),
        1 => decide_address(t, v),
        2 => decide_in(t, v),
        3 => decide_out(t, v),
        4 => decide_finish(t, v),
        5 => decide_protect(t, v),
        _ => Err(Refusal::BadRecord),
    }
}
