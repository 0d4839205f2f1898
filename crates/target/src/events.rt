// What kind of event a record is.
ghost use Rattle.std.specs.Prelude.{◌≡◌, ◌<◌, eqb};
ghost use Rattle.std.specs.Option.{MatchOption};
ghost use Rattle.target.specs.Events.{kind_number, is_bus, is_reset, bad_record};

use crate::Event;

// The kinds of events: four bus cycles and two bench events.
#[derive(Clone, Copy)]
pub enum Kind {
    Command,
    Address,
    DataIn,
    DataOut,
    Finish,
    Protect,
}

impl Kind {
    // Its number in a record.
    pub fn number(self) -> u8
        ensures { result ≡ kind_number self }
    {
        match self {
            Kind::Command => 0,
            Kind::Address => 1,
            Kind::DataIn => 2,
            Kind::DataOut => 3,
            Kind::Finish => 4,
            Kind::Protect => 5,
        }
    }
}

impl Event {
    // The kind that the record's number names, if it names one.
    pub fn kind(self) -> Option<Kind>
        ensures { MatchOption result (5 < self.kind) (λ k. self.kind ≡ kind_number k) }
    {
        match self.kind {
            0 => Some(Kind::Command),
            1 => Some(Kind::Address),
            2 => Some(Kind::DataIn),
            3 => Some(Kind::DataOut),
            4 => Some(Kind::Finish),
            5 => Some(Kind::Protect),
            _ => None,
        }
    }

    // The record's number names this kind.
    pub fn is(self, kind: Kind) -> bool
        ensures { result ≡ eqb self.kind (kind_number kind) }
    {
        self.kind == kind.number()
    }
}

// Kinds 0 to 3 are bus cycles.
pub fn is_bus(e: Event) -> bool
    ensures { result ≡ is_bus e }
{
    matches!(
        e.kind(),
        Some(Kind::Command | Kind::Address | Kind::DataIn | Kind::DataOut)
    )
}

// The command FFh.
pub fn is_reset(e: Event) -> bool
    ensures { result ≡ is_reset e }
{
    e.is(Kind::Command) && e.value == 0xff
}

// Rule 12: unknown kind, kind 3 with value not 0, kind 5 above 1.
#[tactic(auto, unfolding(crate::specs::Events::bad_record))]
pub fn bad_record(e: Event) -> bool
    ensures { result ≡ bad_record e }
{
    match e.kind() {
        None => true,
        Some(Kind::DataOut) => e.value != 0,
        Some(Kind::Protect) => e.value > 1,
        Some(_) => false,
    }
}
