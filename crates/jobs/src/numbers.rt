// The writer and the reader over plain numbers, for hosts, whose functions take no enum. A job is named by a number: 1 read, 2
// read-out, 3 program, 4 erase, 5 status.
#![tactic(auto, unfolding(crate::specs::Numbers::named_job, crate::specs::Numbers::numbered_read, crate::specs::Numbers::misfit_number))]

ghost use Rattle.std.specs.Prelude.{◌≡◌, length};
ghost use Rattle.jobs.specs.Numbers.{named_job, answer_number, NumberedWrite, numbered_write, job_numbers, found_numbers, NumberedRead, numbered_read, misfit_number};

use crate::Job;
use crate::reading::{FoundJob, Misfit, first_misfit, job_at};
use crate::writing::{Unwritten, write};

// A job that was found, in numbers, since C has it as six: 0 none, 1 to 5 which job, 6 a misfit. `count` is that of its data cycles, `place` where a
// program's first byte stands, `next` the place after the job, or the misfit's place.
#[derive(Clone, Copy)]
pub struct JobNumbers {
    pub kind: usize,
    pub column: usize,
    pub row: usize,
    pub count: usize,
    pub place: usize,
    pub next: usize,
}

fn named_job(kind: u8, column: usize, row: usize, count: usize) -> Option<Job>
    ensures { result ≡ named_job kind column row count }
{
    match kind {
        1 => Some(Job::Read { column, row }),
        2 => Some(Job::ReadOut { column, row, count }),
        3 => Some(Job::Program { column, row }),
        4 => Some(Job::Erase { row }),
        5 => Some(Job::Status { row, count }),
        _ => None,
    }
}

fn answer_number(a: Result<usize, Unwritten>) -> usize
    ensures { result ≡ answer_number a }
{
    match a {
        Err(Unwritten::TooWide) => 1,
        Err(Unwritten::TooSmall) => 2,
        Ok(n) => n,
    }
}

// 0 no such job, 1 too wide, 2 too small a room, else how many bytes of the room are the job's records now.
pub fn write_numbers(
    kind: u8,
    column: usize,
    row: usize,
    count: usize,
    bytes: &[u8],
    room: &mut [u8],
) -> usize
    ensures { ◌≡◌ {A = NumberedWrite}
        (record { answer = result; room = room.new })
        (numbered_write (named_job kind column row count) bytes.now room.old) }
{
    match named_job(kind, column, row, count) {
        None => 0,
        Some(job) => answer_number(write(job, bytes, room)),
    }
}

fn job_numbers(g: FoundJob) -> JobNumbers
    ensures { result ≡ job_numbers g.job g.place g.count g.next }
{
    let plain = JobNumbers {
        kind: 0,
        column: 0,
        row: 0,
        count: 0,
        place: 0,
        next: g.next,
    };
    match g.job {
        Job::Read { column, row } => JobNumbers {
            kind: 1,
            column,
            row,
            ..plain
        },
        Job::ReadOut { column, row, count } => JobNumbers {
            kind: 2,
            column,
            row,
            count,
            ..plain
        },
        Job::Program { column, row } => JobNumbers {
            kind: 3,
            column,
            row,
            count: g.count,
            place: g.place,
            ..plain
        },
        Job::Erase { row } => JobNumbers {
            kind: 4,
            row,
            ..plain
        },
        Job::Status { row, count } => JobNumbers {
            kind: 5,
            row,
            count,
            ..plain
        },
    }
}

fn found_numbers(found: Result<Option<FoundJob>, Misfit>) -> JobNumbers
    ensures { result ≡ found_numbers found }
{
    let none = JobNumbers {
        kind: 0,
        column: 0,
        row: 0,
        count: 0,
        place: 0,
        next: 0,
    };
    match found {
        Ok(None) => none,
        Err(m) => JobNumbers {
            kind: 6,
            next: m.place,
            ..none
        },
        Ok(Some(g)) => job_numbers(g),
    }
}

// The six numbers of what stands at a place; answers the first of them, or 7 where there is no room for six.
pub fn read_numbers(records: &[u8], at: usize, numbers: &mut [usize]) -> usize
    ensures { ◌≡◌ {A = NumberedRead}
        (record { answer = result; numbers = numbers.new })
        (numbered_read records.now at numbers.old) }
{
    if numbers.len() < 6 {
        return 7;
    }
    let n = found_numbers(job_at(records, at));
    numbers[0] = n.kind;
    numbers[1] = n.column;
    numbers[2] = n.row;
    numbers[3] = n.count;
    numbers[4] = n.place;
    numbers[5] = n.next;
    n.kind
}

// The place of the first record of a list that doesn't fit, the place after the last if it stops inside a job, and the largest
// number where it is whole jobs.
pub fn misfit_number(records: &[u8]) -> usize
    ensures { result ≡ misfit_number records.now }
{
    match first_misfit(records) {
        Ok(()) => usize::MAX,
        Err(m) => m.place,
    }
}
