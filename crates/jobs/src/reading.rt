// From records to jobs: the job that stands at a place of a trace, and the first record of a list that is not whole jobs.
// Places count records from 0. What a trace's records mean to a part is not looked at: a row may name no page.
#![tactic(auto, unfolding(crate::specs::Reading::first_of, crate::specs::Reading::beginning, crate::specs::Reading::column_at, crate::specs::Reading::row_at))]

ghost use Rattle.std.specs.Prelude.{◌≡◌, true, ◌+◌, ◌*◌, ◌/◌, ◌≤◌, ◌<◌, length, drop, get_or};
ghost use Rattle.target.specs.Pick.{pick};
ghost use Rattle.jobs.specs.Reading.{first_of, beginning, of_kind, run, many_of, is_command, closed_items, open_items, through, value_at, column_at, row_at, grouped_of, items, job_at, first_misfit};

use crate::Job;
use slices::byte_at;

// Which job a record begins.
#[derive(Clone, Copy)]
pub enum First {
    Read,
    ReadOut,
    Program,
    Erase,
    Status,
}

// The first record that doesn't fit, or the place after the last if the list stops inside a job.
#[derive(Clone, Copy)]
pub struct Misfit {
    pub place: usize,
}

// A job that was found, and the place after it. A program's bytes are the values of `count` records, the first of them at `place`;
// both are 0 for another job.
#[derive(Clone, Copy)]
pub struct FoundJob {
    pub job: Job,
    pub place: usize,
    pub count: usize,
    pub next: usize,
}

// Which job a command begins.
fn first_of(command: u8) -> Option<First>
    ensures { result ≡ first_of command }
{
    match command {
        0x00 => Some(First::Read),
        0x06 => Some(First::ReadOut),
        0x80 => Some(First::Program),
        0x60 => Some(First::Erase),
        0x78 => Some(First::Status),
        _ => None,
    }
}

fn begins(kind: u8, value: u8) -> Option<First>
    ensures { result ≡ beginning kind value }
{
    if kind == 0 { first_of(value) } else { None }
}

// Record `i` is of this kind. A data out with a value is none.
fn of_kind(kind: u8, trace: &[u8], i: usize) -> bool
    requires { 2 * i + 1 < length trace.now }
    ensures { result ≡ of_kind kind (get_or trace.now (2 * i) 0) (get_or trace.now (2 * i + 1) 0) }
{
    trace[2 * i] == kind && (kind != 3 || trace[2 * i + 1] == 0)
}

// A place of a trace, no further than its end: what is read from there on.
#[derive(Clone, Copy)]
struct Spot<'a> {
    trace: &'a [u8],
    at: usize,
    ghost within: { at ≤ length trace.now / 2 },
}

impl<'a> Spot<'a> {
    // How many of the `most` records from here on are of this kind, up to the first that is not; of fewer, if so few are left.
    fn run(&self, kind: u8, most: usize) -> usize
        ensures { (result ≡ run most kind (drop (2 * self.now.at) self.now.trace.now)) × (self.now.at + result ≤ length self.now.trace.now / 2) × (result ≤ most) }
    {
        let left = most.min(self.trace.len() / 2 - self.at);
        for k in 0..left {
            if !of_kind(kind, self.trace, self.at + k) {
                return k;
            }
        }
        left
    }

    // All records of this kind from here on, where any number of them may come; else none are taken.
    fn many(&self, wanted: bool, kind: u8) -> usize
        ensures { (result ≡ pick wanted (many_of kind (drop (2 * self.now.at) self.now.trace.now)) 0) × (self.now.at + result ≤ length self.now.trace.now / 2) }
    {
        if wanted {
            self.run(kind, self.trace.len())
        } else {
            0
        }
    }

    // `n` addresses, data in where it may come, the last command, data out where it may come.
    fn through_closed(
        &self,
        n: usize,
        takes: bool,
        closing: u8,
        gives: bool,
    ) -> Result<usize, Misfit>
        ensures { result ≡ through (closed_items n takes closing gives) (drop (2 * self.now.at) self.now.trace.now) self.now.at }
    {
        let trace = self.trace;
        let a = self.run(1, n);
        if a < n {
            return Err(Misfit { place: self.at + a });
        }
        let d = Spot {
            trace,
            at: self.at + n,
        }
        .many(takes, 2);
        let p = self.at + n + d;
        if !is_command(closing, trace, p) {
            return Err(Misfit { place: p });
        }
        let o = Spot { trace, at: p + 1 }.many(gives, 3);
        Ok(p + 1 + o)
    }

    // `n` addresses, and any number of data out.
    fn through_open(&self, n: usize) -> Result<usize, Misfit>
        ensures { result ≡ through (open_items n) (drop (2 * self.now.at) self.now.trace.now) self.now.at }
    {
        let trace = self.trace;
        let a = self.run(1, n);
        if a < n {
            return Err(Misfit { place: self.at + a });
        }
        let o = Spot {
            trace,
            at: self.at + n,
        }
        .many(true, 3);
        Ok(self.at + n + o)
    }

    // The value of the record `i` places further on, 0 where there is none.
    fn value(&self, i: usize) -> usize
        requires { i < 256 }
        ensures { (result ≡ value_at (drop (2 * self.now.at) self.now.trace.now) i) × (result < 256) }
    {
        byte_at(self.trace, 2 * self.at + (2 * i + 1)) as usize
    }

    fn column(&self) -> usize
        ensures { result ≡ column_at (drop (2 * self.now.at) self.now.trace.now) }
    {
        self.value(1) + 256 * self.value(2)
    }

    fn row(&self, i: usize) -> usize
        requires { i < 200 }
        ensures { result ≡ row_at (drop (2 * self.now.at) self.now.trace.now) i }
    {
        self.value(i) + 256 * self.value(i + 1) + 65536 * self.value(i + 2)
    }

    // The job that begins here and ends before `next`.
    fn grouped(&self, first: First, next: usize) -> FoundJob
        ensures { result ≡ grouped_of first (drop (2 * self.now.at) self.now.trace.now) self.now.at next }
    {
        let (job, place, count) = match first {
            First::Read => {
                let column = self.column();
                let row = self.row(3);
                (Job::Read { column, row }, 0, 0)
            }
            First::ReadOut => {
                let column = self.column();
                let row = self.row(3);
                let count = next.saturating_sub(self.at + 7);
                (Job::ReadOut { column, row, count }, 0, 0)
            }
            First::Program => {
                let column = self.column();
                let row = self.row(3);
                let bytes = next.saturating_sub(self.at + 7);
                (Job::Program { column, row }, self.at + 6, bytes)
            }
            First::Erase => {
                let row = self.row(1);
                (Job::Erase { row }, 0, 0)
            }
            First::Status => {
                let row = self.row(1);
                let count = next.saturating_sub(self.at + 4);
                (Job::Status { row, count }, 0, 0)
            }
        };
        FoundJob {
            job,
            place,
            count,
            next,
        }
    }

    // How far a job's records fit, after its first: to the place after its last, or up to one that does not fit.
    fn reach(&self, first: First) -> Result<usize, Misfit>
        ensures { result ≡ through (items first) (drop (2 * self.now.at) self.now.trace.now) self.now.at }
    {
        match first {
            First::Read => self.through_closed(5, false, 0x30, false),
            First::ReadOut => self.through_closed(5, false, 0xe0, true),
            First::Program => self.through_closed(5, true, 0x10, false),
            First::Erase => self.through_closed(3, false, 0xd0, false),
            First::Status => self.through_open(3),
        }
    }
}

// All records of this kind from `at` on, where any number of them may come; else none are taken.
pub fn many(wanted: bool, kind: u8, trace: &[u8], at: usize) -> usize
    requires { at ≤ length trace.now / 2 }
    ensures { (result ≡ pick wanted (many_of kind (drop (2 * at) trace.now)) 0) × (at + result ≤ length trace.now / 2) }
{
    Spot { trace, at }.many(wanted, kind)
}

// There is a record at `i`, and it is this command.
fn is_command(command: u8, trace: &[u8], i: usize) -> bool
    ensures value { result ≡ is_command command (drop (2 * i) trace.now) }
    ensures i_in_bounds { result ≡ true → i < length trace.now / 2 }
{
    i < trace.len() / 2 && trace[2 * i] == 0 && trace[2 * i + 1] == command
}

// The job at a place; none where the list ends there, or before.
pub fn job_at(trace: &[u8], at: usize) -> Result<Option<FoundJob>, Misfit>
    ensures { result ≡ job_at trace.now at }
{
    let n = trace.len() / 2;
    if n < at {
        return Ok(None);
    }
    if n == at {
        if trace.len() % 2 == 0 {
            return Ok(None);
        }
        return Err(Misfit { place: at });
    }
    let Some(first) = begins(trace[2 * at], trace[2 * at + 1]) else {
        return Err(Misfit { place: at });
    };
    let next = Spot { trace, at: at + 1 }.reach(first)?;
    Ok(Some(Spot { trace, at }.grouped(first, next)))
}

// Whether a list of records is whole jobs, none or more, and where it stops to be.
pub fn first_misfit(trace: &[u8]) -> Result<(), Misfit>
    ensures { result ≡ first_misfit trace.now }
{
    let mut at: usize = 0;
    while let Some(found) = job_at(trace, at)? {
        at = found.next;
    }
    Ok(())
}
