// The work that an accepted event asks of the lent buffers.
ghost use Rattle.std.specs.Prelude.{◌≡◌};
ghost use Rattle.effects.specs.Effects.{acted, ended_work, first_work, command_work, address_work, data_work, work_of};

use target::address::lun_of;
use target::commands::{Act, clears_register, first_of, second_row};
use target::events::{Kind, is_reset};
use target::place::is_open;
use target::views::{Ended, Given, Taker, completed, ending, taking};
use target::{Event, Findings, First, Geometry, Row, Sequence, Work};

// What a second command does with the page or block, where it proceeds.
pub fn acted(a: Act, r: Row, found: Findings) -> Work
    ensures { result ≡ acted a r found }
{
    match a {
        Act::Load => Work::Load { row: r },
        Act::Program if found.proceeds => Work::Program { row: r },
        Act::Erase if found.proceeds => Work::Erase { row: r },
        _ => Work::Nothing,
    }
}

pub fn ended_work(k: Option<Ended>, found: Findings) -> Work
    ensures { result ≡ ended_work k found }
{
    match k {
        Some(k) => acted(second_row(k.second).act, k.row, found),
        None => Work::Nothing,
    }
}

pub fn first_work(clear: bool, k: Option<First>) -> Work
    ensures { result ≡ first_work clear k }
{
    match k {
        Some(f) if clears_register(f) && !clear => Work::ClearAll,
        _ => Work::Nothing,
    }
}

pub fn command_work(clear: bool, s: Sequence, v: u8, found: Findings) -> Work
    ensures { result ≡ command_work clear s v found }
{
    if is_open(s) {
        ended_work(ending(s, v), found)
    } else {
        first_work(clear, first_of(v))
    }
}

pub fn address_work(g: Geometry, clear: bool, k: Option<Given>) -> Work
    ensures { result ≡ address_work g clear k }
{
    match k {
        Some(Given::Row(k)) if clears_register(k.first) && clear => Work::ClearOne {
            lun: lun_of(g, k.row),
        },
        _ => Work::Nothing,
    }
}

pub fn data_work(g: Geometry, k: Option<Taker>, v: u8) -> Work
    ensures { result ≡ data_work g k v }
{
    match k {
        Some(Taker::Program(k)) => Work::Put {
            lun: lun_of(g, k.row),
            column: k.at,
            value: v,
        },
        _ => Work::Nothing,
    }
}

// What an accepted event asks of the buffers.
#[tactic(auto, unfolding(crate::specs::Effects::work_of))]
pub fn work_of(g: Geometry, clear: bool, s: Sequence, e: Event, found: Findings) -> Work
    ensures { result ≡ work_of g clear s e found }
{
    if is_reset(e) {
        return Work::ClearAll;
    }
    match e.kind() {
        Some(Kind::Command) => command_work(clear, s, e.value, found),
        Some(Kind::Address) => address_work(g, clear, completed(s, e.value)),
        Some(Kind::DataIn) => data_work(g, taking(s), e.value),
        _ => Work::Nothing,
    }
}
