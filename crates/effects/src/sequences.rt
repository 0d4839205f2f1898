// The sequence after an event.
ghost use Rattle.std.specs.Prelude.{◌≡◌, ◌<◌, Some};
ghost use Rattle.target.specs.Views.{taking};
ghost use Rattle.target.specs.declared.Sequence.TheVariants as sequence;
ghost use Rattle.target.specs.declared.views.Taker.TheVariants as taker;
ghost use Rattle.effects.specs.Effects.{started, opened, is_move, ended_sequence, commanded, followed, column_given, addressed, filled, sequence_after, place_in};

use target::address::{column_from, row_from};
use target::commands::{Act, Then, cycles_of, second_row, takes_column, takes_row, then_of};
use target::events::{Kind, is_reset};
use target::place::{first_here, is_bare, is_open};
use target::views::{Ended, Taker, ending, taking};
use target::{
    Column, ColumnCycles, Decoder, Event, FeatureBytes, Fill, First, Moved, Row, RowCycles,
    Sequence, Wait,
};

// The sequence that waits for a command's column cycles, for its row cycles.
pub fn columns_of(f: First) -> Sequence
    ensures { result ≡ sequence.Columns (record { first = f; got = 0; low = 0 }) }
{
    Sequence::Columns(ColumnCycles {
        first: f,
        got: 0,
        low: 0,
    })
}

pub fn rows_of(f: First, c: Column) -> Sequence
    ensures { result ≡ sequence.Rows (record { first = f; column = c; got = 0; low = 0; mid = 0 }) }
{
    Sequence::Rows(RowCycles {
        first: f,
        column: c,
        got: 0,
        low: 0,
        mid: 0,
    })
}

// A first command waits for its address cycles.
pub fn started(f: First) -> Sequence
    ensures { result ≡ started f }
{
    if takes_column(f) {
        columns_of(f)
    } else if takes_row(f) {
        rows_of(f, Column(0))
    } else if cycles_of(f) == 1 {
        Sequence::Single(f)
    } else {
        Sequence::Idle
    }
}

pub fn opened(k: Option<First>) -> Sequence
    ensures { result ≡ opened k }
{
    match k {
        Some(f) => started(f),
        None => Sequence::Idle,
    }
}

pub fn is_move(a: Act) -> bool
    ensures { result ≡ is_move a }
{
    matches!(a, Act::Move)
}

pub fn ended_sequence(k: Option<Ended>) -> Sequence
    ensures { result ≡ ended_sequence k }
{
    match k {
        Some(k) if is_move(second_row(k.second).act) => Sequence::Moving(Moved {
            first: k.first,
            row: k.row,
            got: 0,
            low: 0,
        }),
        _ => Sequence::Idle,
    }
}

pub fn commanded(d: Decoder, v: u8) -> Sequence
    ensures { result ≡ commanded d v }
{
    if is_open(d.sequence) {
        ended_sequence(ending(d.sequence, v))
    } else {
        opened(first_here(d, v))
    }
}

pub fn followed(n: Then, f: First, c: Column, r: Row) -> Sequence
    ensures { result ≡ followed n f c r }
{
    match n {
        Then::Second => Sequence::Due(Wait {
            first: f,
            column: c,
            row: r,
        }),
        Then::Data => Sequence::Filling(Fill {
            first: f,
            row: r,
            at: c,
        }),
        Then::FeatureIn => Sequence::Setting(FeatureBytes { got: 0, value: 0 }),
        Then::Status | Then::Id | Then::ParameterPage | Then::FeatureOut => Sequence::Idle,
    }
}

pub fn column_given(f: First, c: Column) -> Sequence
    ensures { result ≡ column_given f c }
{
    if takes_row(f) {
        rows_of(f, c)
    } else {
        followed(then_of(f), f, c, Row(0))
    }
}

// After one of two column cycles.
pub fn column_cycle(k: ColumnCycles, v: u8) -> Sequence
    ensures { result ≡ addressed (sequence.Columns k) v }
{
    if k.got == 0 {
        Sequence::Columns(ColumnCycles {
            got: 1,
            low: v,
            ..k
        })
    } else {
        column_given(k.first, column_from(k.low, v))
    }
}

// After one of three row cycles.
pub fn row_cycle(k: RowCycles, v: u8) -> Sequence
    ensures { result ≡ addressed (sequence.Rows k) v }
{
    match k.got {
        0 => Sequence::Rows(RowCycles {
            got: 1,
            low: v,
            ..k
        }),
        1 => Sequence::Rows(RowCycles {
            got: 2,
            mid: v,
            ..k
        }),
        _ => followed(
            then_of(k.first),
            k.first,
            k.column,
            row_from(k.low, k.mid, v),
        ),
    }
}

// After one of the two column cycles of 85h.
pub fn move_cycle(k: Moved, v: u8) -> Sequence
    ensures { result ≡ addressed (sequence.Moving k) v }
{
    if k.got == 0 {
        Sequence::Moving(Moved {
            got: 1,
            low: v,
            ..k
        })
    } else {
        Sequence::Filling(Fill {
            first: k.first,
            row: k.row,
            at: column_from(k.low, v),
        })
    }
}

pub fn addressed(s: Sequence, v: u8) -> Sequence
    ensures { result ≡ addressed s v }
{
    match s {
        Sequence::Columns(k) => column_cycle(k, v),
        Sequence::Rows(k) => row_cycle(k, v),
        Sequence::Single(f) => followed(then_of(f), f, Column(0), Row(0)),
        Sequence::Moving(k) => move_cycle(k, v),
        _ => s,
    }
}

// EFh's bytes: the first is kept, the fourth ends the sequence.
pub fn feature_byte(k: FeatureBytes, v: u8) -> Sequence
    ensures { result ≡ filled sequence.Idle (Some (taker.Feature k)) v }
{
    match k.got {
        0 => Sequence::Setting(FeatureBytes { got: 1, value: v }),
        1 => Sequence::Setting(FeatureBytes { got: 2, ..k }),
        2 => Sequence::Setting(FeatureBytes { got: 3, ..k }),
        _ => Sequence::Idle,
    }
}

pub fn filled(s: Sequence, k: Option<Taker>, v: u8) -> Sequence
    requires { place_in k < 65536 }
    ensures { result ≡ filled s k v }
{
    match k {
        Some(Taker::Program(k)) => Sequence::Filling(Fill {
            at: Column(k.at.0 + 1),
            ..k
        }),
        Some(Taker::Feature(k)) => feature_byte(k, v),
        None => s,
    }
}

#[tactic(auto, unfolding(crate::specs::Effects::sequence_after))]
pub fn sequence_after(d: Decoder, e: Event) -> Sequence
    requires { place_in (taking d.sequence) < 65536 }
    ensures { result ≡ sequence_after d e }
{
    let s = d.sequence;
    if is_reset(e) {
        return Sequence::Idle;
    }
    match e.kind() {
        Some(Kind::Command) => commanded(d, e.value),
        Some(Kind::Address) => addressed(s, e.value),
        Some(Kind::DataIn) => filled(s, taking(s), e.value),
        Some(Kind::DataOut) if is_bare(s) => Sequence::Idle,
        _ => s,
    }
}
