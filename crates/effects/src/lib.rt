// The record after an event, and the work that an accepted event asks of the lent buffers. All by value. Each function goes by the
// event's kind first, so that an event computes its own case alone.
#![tactic(auto)]

pub mod outputs;
pub mod sequences;
pub mod works;

ghost use Rattle.std.specs.Prelude.{◌≡◌, true, ◌<◌};
ghost use Rattle.target.specs.Sizes.{in_limits};
ghost use Rattle.target.specs.Views.{taking};
ghost use Rattle.target.specs.Place.{put_out};
ghost use Rattle.effects.specs.Effects.{row_selects, selected_after, clear_set, clear_after, high_after, target_after, target_refused, place_in, place_out};

use lun_records::luns_after;
use memory::kept_after;
use outputs::output_after;
use sequences::sequence_after;
use target::address::lun_of;
use target::events::{Kind, bad_record, is_bus, is_reset};
use target::views::{Given, Taker, completed, taking};
use target::{Decoder, Event, Findings, Geometry, Output, Sequence, Target};

pub fn row_selects(g: Geometry, selected: usize, k: Option<Given>) -> usize
    ensures { result ≡ row_selects g selected k }
{
    match k {
        Some(Given::Row(k)) => lun_of(g, k.row),
        _ => selected,
    }
}

#[tactic(auto, unfolding(crate::specs::Effects::selected_after))]
pub fn selected_after(g: Geometry, selected: usize, s: Sequence, e: Event) -> usize
    ensures { result ≡ selected_after g selected s e }
{
    if is_reset(e) {
        0
    } else if e.is(Kind::Address) {
        row_selects(g, selected, completed(s, e.value))
    } else {
        selected
    }
}

pub fn clear_set(clear: bool, k: Option<Taker>) -> bool
    ensures { result ≡ clear_set clear k }
{
    match k {
        Some(Taker::Feature(k)) if k.got == 3 => k.value == 0x40,
        _ => clear,
    }
}

#[tactic(auto, unfolding(crate::specs::Effects::clear_after))]
pub fn clear_after(clear: bool, s: Sequence, e: Event) -> bool
    ensures { result ≡ clear_after clear s e }
{
    if is_reset(e) {
        false
    } else if e.is(Kind::DataIn) {
        clear_set(clear, taking(s))
    } else {
        clear
    }
}

#[tactic(auto, unfolding(crate::specs::Effects::high_after))]
pub fn high_after(high: bool, e: Event) -> bool
    ensures { result ≡ high_after high e }
{
    if e.is(Kind::Protect) {
        e.value == 1
    } else {
        high
    }
}

// The record after an accepted event. What it asks is a `requires`, which docs/STATEMENTS.md names.
#[tactic(auto, unfolding(crate::specs::Effects::target_after))]
pub fn target_after(t: Target, e: Event, found: Findings) -> Target
    requires geometry_value { in_limits t.geometry ≡ true }
    requires sequence_bound { (place_in (taking t.decoder.sequence) < 65536) × (place_out (put_out t.decoder) < 65536) }
    ensures { result ≡ target_after t e found }
{
    let g = t.geometry;
    let d = t.decoder;
    let s = d.sequence;
    Target {
        high: high_after(t.high, e),
        clear: clear_after(t.clear, s, e),
        seen: t.seen || is_reset(e),
        selected: selected_after(g, t.selected, s, e),
        luns: luns_after(g, t.luns, s, e, found),
        decoder: Decoder {
            sequence: sequence_after(d, e),
            output: output_after(g, t.selected, d, e),
            kept: kept_after(g, d, e),
        },
        ..t
    }
}

// The record after a refusal: a bus cycle drops sequence, output and memory, a bench event or a bad record nothing.
#[tactic(auto, unfolding(crate::specs::Effects::target_refused))]
pub fn target_refused(t: Target, e: Event) -> Target
    ensures { result ≡ target_refused t e }
{
    if is_bus(e) && !bad_record(e) {
        let decoder = Decoder {
            sequence: Sequence::Idle,
            output: Output::Nothing,
            kept: Output::Nothing,
        };
        Target { decoder, ..t }
    } else {
        t
    }
}
