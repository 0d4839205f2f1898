// A trace line by line: a whole job, or what is none. Places count records from 0.
ghost use Rattle.std.specs.Prelude.{◌≡◌, ◌+◌, ◌/◌, ◌<◌, ◌≤◌, length};
ghost use Rattle.nib_told.specs.Lines.{is_data, times_of, in_program, moves, begun_at, alone_at, line_at};

use jobs::Job;
use jobs::reading::{job_at, many};
use slices::byte_at;

// What stands at a place.
#[derive(Clone, Copy)]
pub enum Told {
    // a whole job; `count` is that of a program's bytes
    Whole {
        job: Job,
        count: usize,
    },
    // here and below kind and value are a record's two bytes, which may name no kind
    // the first record of a job that is not whole: the record at the next place doesn't fit it, or the trace ends there
    Begun {
        kind: u8,
        value: u8,
        ends: bool,
    },
    // no job's record; data cycles of one kind in a row are told at once. 85h inside a program moves its column
    Event {
        kind: u8,
        value: u8,
        times: usize,
        inside: bool,
    },
    // the odd last byte
    Odd(u8),
}

#[derive(Clone, Copy)]
pub struct Line {
    pub told: Told,
    // the place where the next line begins
    pub next: usize,
}

// Data in, or a data out as it should be.
fn is_data(kind: u8, value: u8) -> bool
    ensures { result ≡ is_data kind value }
{
    kind == 2 || (kind == 3 && value == 0)
}

fn begun_at(trace: &[u8], at: usize, misfit: usize) -> Line
    requires { at ≤ length trace.now / 2 }
    ensures { result ≡ begun_at trace.now at misfit }
{
    let n = trace.len();
    let told = Told::Begun {
        kind: byte_at(trace, 2 * at),
        value: byte_at(trace, 2 * at + 1),
        ends: n - n / 2 <= misfit,
    };
    Line { told, next: misfit }
}

// How many data cycles of its kind stand from a data cycle on; one record of any other kind.
fn times_of(kind: u8, value: u8, trace: &[u8], at: usize) -> usize
    requires { at < length trace.now / 2 }
    ensures { (result ≡ times_of kind value trace.now at) × (at + result ≤ length trace.now / 2) }
{
    if is_data(kind, value) {
        many(true, kind, trace, at)
    } else {
        1
    }
}

// Whether a program is open at a place, by the last command before it: 80h, or 85h. What a part would refuse is not known here.
fn in_program(trace: &[u8], at: usize) -> bool
    requires { at ≤ length trace.now / 2 }
    ensures { result ≡ in_program trace.now at }
{
    for i in (0..at).rev() {
        if byte_at(trace, 2 * i) == 0 {
            let value = byte_at(trace, 2 * i + 1);
            return value == 0x80 || value == 0x85;
        }
    }
    false
}

// 85h inside a program. Only there the records before it are looked at, and no further back than to a command.
fn moves(kind: u8, value: u8, trace: &[u8], at: usize) -> bool
    requires { at ≤ length trace.now / 2 }
    ensures { result ≡ moves kind value trace.now at }
{
    kind == 0 && value == 0x85 && in_program(trace, at)
}

fn alone_at(trace: &[u8], at: usize) -> Line
    requires { at ≤ length trace.now / 2 }
    ensures { result ≡ alone_at trace.now at }
{
    let kind = byte_at(trace, 2 * at);
    if at < trace.len() / 2 {
        let value = byte_at(trace, 2 * at + 1);
        let times = times_of(kind, value, trace, at);
        let inside = moves(kind, value, trace, at);
        Line {
            told: Told::Event {
                kind,
                value,
                times,
                inside,
            },
            next: at + times,
        }
    } else {
        Line {
            told: Told::Odd(kind),
            next: at + 1,
        }
    }
}

// The line that begins at a place; None where the trace has no record there.
#[tactic(auto, unfolding(crate::specs::Lines::line_at))]
pub fn line_at(trace: &[u8], at: usize) -> Option<Line>
    ensures { result ≡ line_at trace.now at }
{
    if trace.len() / 2 < at {
        return None;
    }
    match job_at(trace, at) {
        Ok(None) => None,
        Ok(Some(found)) => Some(Line {
            told: Told::Whole {
                job: found.job,
                count: found.count,
            },
            next: found.next,
        }),
        Err(misfit) if at < misfit.place => Some(begun_at(trace, at, misfit.place)),
        Err(_) => Some(alone_at(trace, at)),
    }
}
