// What is told of a job: its name, its place on a part or its row, its column and how many bytes it has.
ghost use Rattle.std.specs.Prelude.{◌≡◌};
ghost use Rattle.nib_told.specs.Phrases.{page_at, block_at, lun_at, page_there, block_there, lun_there, lun_column_there, on_page, phrase_of};

use jobs::Job;
use jobs::reading::First;
use target::address::{block_exists, block_of, lun_exists, lun_of, page_of, row_exists};
use target::sizes::page_size;
use target::{Geometry, Row};

// As much of the row as the job's commands look at, where a part is known; else the row.
#[derive(Clone, Copy)]
pub enum Place {
    Row(usize),
    Page {
        lun: usize,
        block: usize,
        page: usize,
    },
    Block {
        lun: usize,
        block: usize,
    },
    Lun(usize),
}

#[derive(Clone, Copy)]
pub struct Phrase {
    pub name: First,
    pub place: Place,
    pub column: Option<usize>,
    pub bytes: Option<usize>,
    // the part has the place, or no part is known
    pub there: bool,
}

fn page_at(part: Option<Geometry>, row: usize) -> Place
    ensures { result ≡ page_at part row }
{
    let r = Row(row);
    match part {
        Some(g) => Place::Page {
            lun: lun_of(g, r),
            block: block_of(g, r),
            page: page_of(g, r),
        },
        None => Place::Row(row),
    }
}

fn block_at(part: Option<Geometry>, row: usize) -> Place
    ensures { result ≡ block_at part row }
{
    let r = Row(row);
    match part {
        Some(g) => Place::Block {
            lun: lun_of(g, r),
            block: block_of(g, r),
        },
        None => Place::Row(row),
    }
}

fn lun_at(part: Option<Geometry>, row: usize) -> Place
    ensures { result ≡ lun_at part row }
{
    match part {
        Some(g) => Place::Lun(lun_of(g, Row(row))),
        None => Place::Row(row),
    }
}

// The part has the place, or no part is known.
fn page_there(part: Option<Geometry>, column: usize, row: usize) -> bool
    ensures { result ≡ page_there part column row }
{
    match part {
        Some(g) => row_exists(g, Row(row)) && column < page_size(g),
        None => true,
    }
}

fn block_there(part: Option<Geometry>, row: usize) -> bool
    ensures { result ≡ block_there part row }
{
    match part {
        Some(g) => block_exists(g, Row(row)),
        None => true,
    }
}

fn lun_there(part: Option<Geometry>, row: usize) -> bool
    ensures { result ≡ lun_there part row }
{
    match part {
        Some(g) => lun_exists(g, Row(row)),
        None => true,
    }
}

fn lun_column_there(part: Option<Geometry>, column: usize, row: usize) -> bool
    ensures { result ≡ lun_column_there part column row }
{
    match part {
        Some(g) => lun_exists(g, Row(row)) && column < page_size(g),
        None => true,
    }
}

// A read or a program.
fn on_page(
    part: Option<Geometry>,
    name: First,
    column: usize,
    row: usize,
    bytes: Option<usize>,
) -> Phrase
    ensures { result ≡ on_page part name column row bytes }
{
    Phrase {
        name,
        place: page_at(part, row),
        column: Some(column),
        bytes,
        there: page_there(part, column, row),
    }
}

// What is told of a job, on a part where one is known; `count` is that of a program's bytes.
pub fn phrase_of(part: Option<Geometry>, job: Job, count: usize) -> Phrase
    ensures { result ≡ phrase_of part job count }
{
    match job {
        Job::Read { column, row } => on_page(part, First::Read, column, row, None),
        Job::ReadOut {
            column,
            row,
            count: outs,
        } => Phrase {
            name: First::ReadOut,
            place: lun_at(part, row),
            column: Some(column),
            bytes: Some(outs),
            there: lun_column_there(part, column, row),
        },
        Job::Program { column, row } => on_page(part, First::Program, column, row, Some(count)),
        Job::Erase { row } => Phrase {
            name: First::Erase,
            place: block_at(part, row),
            column: None,
            bytes: None,
            there: block_there(part, row),
        },
        Job::Status { row, count: outs } => Phrase {
            name: First::Status,
            place: lun_at(part, row),
            column: None,
            bytes: Some(outs),
            there: lun_there(part, row),
        },
    }
}
