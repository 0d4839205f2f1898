// Lines in words, as `program LUN 1 block 5 page 3, column 0, 3 bytes`: bytes on a desk.
ghost use Rattle.std.specs.Prelude.{◌≡◌};
ghost use Rattle.nib_words.specs.Desk.{Writes};
ghost use Rattle.nib_told.specs.Words.{name_words, row_bytes, row_words, block_words, page_words, place_words, column_words, count_words, bytes_words, phrase_words, begun_words, data_name, data_words, times_words, alone_words, odd_words, whole_words, told_words, line_words};

use crate::lines::{Line, Told};
use crate::phrases::{Phrase, Place, phrase_of};
use jobs::Job;
use jobs::reading::First;
use nib_text::reading::up;
use nib_words::desk::Desk;
use nib_words::say::{event, with_number, with_number_if};
use target::Geometry;

fn name_words(f: First) -> &'static [u8]
    ensures { result.now ≡ name_words f }
{
    match f {
        First::Read => b"read",
        First::ReadOut => b"read-out",
        First::Program => b"program",
        First::Erase => b"erase",
        First::Status => b"status",
    }
}

// A row as its three bytes.
pub fn row_bytes(desk: &mut Desk<'_>, row: usize)
    ensures { Writes desk.old desk.new (row_bytes row) }
{
    desk.hex((row / 65536 % 256) as u8, false);
    desk.hex((row / 256 % 256) as u8, false);
    desk.byte((row % 256) as u8);
}

fn row_words(desk: &mut Desk<'_>, row: usize)
    ensures { Writes desk.old desk.new (row_words row) }
{
    desk.say(b" row ");
    row_bytes(desk, row);
}

fn block_words(desk: &mut Desk<'_>, lun: usize, block: usize)
    ensures { Writes desk.old desk.new (block_words lun block) }
{
    with_number(desk, b" LUN ", lun);
    with_number(desk, b" block ", block);
}

fn page_words(desk: &mut Desk<'_>, lun: usize, block: usize, page: usize)
    ensures { Writes desk.old desk.new (page_words lun block page) }
{
    block_words(desk, lun, block);
    with_number(desk, b" page ", page);
}

fn place_words(desk: &mut Desk<'_>, place: Place)
    ensures { Writes desk.old desk.new (place_words place) }
{
    match place {
        Place::Row(row) => row_words(desk, row),
        Place::Page { lun, block, page } => page_words(desk, lun, block, page),
        Place::Block { lun, block } => block_words(desk, lun, block),
        Place::Lun(lun) => with_number(desk, b" LUN ", lun),
    }
}

#[tactic(auto, using(nib_words::proofs::Desks::none))]
fn column_words(desk: &mut Desk<'_>, column: Option<usize>)
    ensures { Writes desk.old desk.new (column_words column) }
{
    if let Some(n) = column {
        with_number(desk, b", column ", n);
    }
}

// ', 3 bytes'
fn count_words(desk: &mut Desk<'_>, n: usize)
    ensures { Writes desk.old desk.new (count_words n) }
{
    with_number(desk, b", ", n);
    desk.say(b" byte");
    desk.put_if(n != 1, b's');
}

#[tactic(auto, using(nib_words::proofs::Desks::none))]
fn bytes_words(desk: &mut Desk<'_>, bytes: Option<usize>)
    ensures { Writes desk.old desk.new (bytes_words bytes) }
{
    if let Some(n) = bytes {
        count_words(desk, n);
    }
}

fn phrase_words(desk: &mut Desk<'_>, said: Phrase)
    ensures { Writes desk.old desk.new (phrase_words said) }
{
    desk.say(name_words(said.name));
    place_words(desk, said.place);
    column_words(desk, said.column);
    bytes_words(desk, said.bytes);
    desk.say_if(!said.there, b"; the part has no such place");
}

// A record that begins a job which is not whole; records count from 1 in words.
fn begun_words(desk: &mut Desk<'_>, kind: u8, value: u8, ends: bool, misfit: usize)
    ensures { Writes desk.old desk.new (begun_words kind value ends misfit) }
{
    desk.say(b"no whole job: ");
    event(desk, false, kind, value, false);
    desk.say_if(ends, b"; the trace ends inside it");
    with_number_if(desk, !ends, b"; record ", up(misfit));
    desk.say_if(!ends, b" doesn't fit it");
}

fn data_name(kind: u8) -> &'static [u8]
    ensures { result.now ≡ data_name kind }
{
    if kind == 2 { b"data in" } else { b"data out" }
}

// Data cycles in a row.
fn data_words(desk: &mut Desk<'_>, kind: u8, times: usize)
    ensures { Writes desk.old desk.new (data_words kind times) }
{
    desk.say(data_name(kind));
    count_words(desk, times);
}

// A record, or data cycles in a row.
pub fn times_words(desk: &mut Desk<'_>, kind: u8, value: u8, times: usize, inside: bool)
    ensures { Writes desk.old desk.new (times_words kind value times inside) }
{
    if times <= 1 {
        event(desk, false, kind, value, inside);
    } else {
        data_words(desk, kind, times);
    }
}

// A finish event is no bus cycle, and stands between jobs or inside them.
fn alone_words(desk: &mut Desk<'_>, kind: u8, value: u8, times: usize, inside: bool)
    ensures { Writes desk.old desk.new (alone_words kind value times inside) }
{
    desk.say_if(kind != 4, b"no job: ");
    times_words(desk, kind, value, times, inside);
}

fn odd_words(desk: &mut Desk<'_>, b: u8)
    ensures { Writes desk.old desk.new (odd_words b) }
{
    desk.say(b"no job: ");
    event(desk, true, b, 0, false);
}

fn whole_words(desk: &mut Desk<'_>, part: Option<Geometry>, job: Job, count: usize)
    ensures { Writes desk.old desk.new (whole_words part job count) }
{
    phrase_words(desk, phrase_of(part, job, count));
}

fn told_words(desk: &mut Desk<'_>, part: Option<Geometry>, line: Line)
    ensures { Writes desk.old desk.new (told_words part line.told line.next) }
{
    match line.told {
        Told::Whole { job, count } => whole_words(desk, part, job, count),
        Told::Begun { kind, value, ends } => begun_words(desk, kind, value, ends, line.next),
        Told::Event {
            kind,
            value,
            times,
            inside,
        } => alone_words(desk, kind, value, times, inside),
        Told::Odd(b) => odd_words(desk, b),
    }
}

// A line in words, on a part where one is known; nothing where there is no line. 128 bytes are room enough.
#[tactic(auto, using(nib_words::proofs::Desks::none))]
pub fn line_words(desk: &mut Desk<'_>, part: Option<Geometry>, line: Option<Line>)
    ensures { Writes desk.old desk.new (line_words part line) }
{
    if let Some(line) = line {
        told_words(desk, part, line);
    }
}
