// Words that name a whole job, and the values that come after each: `read LUN BLOCK PAGE COLUMN`, `read-out LUN COLUMN COUNT`,
// `program LUN BLOCK PAGE COLUMN` and any number of bytes, `erase LUN BLOCK`, `status LUN COUNT`. And the word `ok`.
ghost use Rattle.std.specs.Prelude.{◌≡◌};
ghost use Rattle.nib_text.specs.JobWords.{job_number, is_job, name_begun, name_next, job_named, is_ok, asks_number, wants, paged, asks_of};

use jobs::reading::First;
use slices::byte_at;

// What a job's next value is. Where no more is taken, it is None.
#[derive(Clone, Copy)]
pub enum Asks {
    // in decimal
    Lun,
    Block,
    Page,
    Column,
    // of data outs, in decimal
    Count,
    // a byte of a program, in two hex digits
    Byte,
}

// A job's number, as hosts have it; 0 for none.
pub fn job_number(f: Option<First>) -> u8
    ensures { result ≡ job_number f }
{
    match f {
        None => 0,
        Some(First::Read) => 1,
        Some(First::ReadOut) => 2,
        Some(First::Program) => 3,
        Some(First::Erase) => 4,
        Some(First::Status) => 5,
    }
}

pub fn is_job(f: Option<First>) -> bool
    ensures { result ≡ is_job f }
{
    f.is_some()
}

// How much of a job's word, or of `ok`, a word is: a place in the words' letters. This is it after the first byte.
pub fn name_begun(b: u8) -> u8
    ensures { result ≡ name_begun b }
{
    match b {
        b'r' => 1,
        b'p' => 10,
        b'e' => 18,
        b's' => 24,
        b'o' => 31,
        _ => 63,
    }
}

// And after one byte more.
pub fn name_next(n: u8, b: u8) -> u8
    ensures { result ≡ name_next n b }
{
    let due = byte_at(b"read-out\0program\0erase\0status\0ok\0", n as usize);
    if b == due && b != 0 && n < 33 {
        n + 1
    } else {
        63
    }
}

// The job whose word has come to that place, where it is whole.
pub fn job_named(n: u8) -> Option<First>
    ensures { result ≡ job_named n }
{
    match n {
        4 => Some(First::Read),
        8 => Some(First::ReadOut),
        16 => Some(First::Program),
        22 => Some(First::Erase),
        29 => Some(First::Status),
        _ => None,
    }
}

// The word `ok`, whole.
pub fn is_ok(n: u8) -> bool
    ensures { result ≡ is_ok n }
{
    n == 32
}

// A value's number, as hosts have it; 0 for none.
pub fn asks_number(a: Option<Asks>) -> u8
    ensures { result ≡ asks_number a }
{
    match a {
        None => 0,
        Some(Asks::Lun) => 1,
        Some(Asks::Block) => 2,
        Some(Asks::Page) => 3,
        Some(Asks::Column) => 4,
        Some(Asks::Count) => 5,
        Some(Asks::Byte) => 6,
    }
}

// A value must come.
pub fn wants(a: Option<Asks>) -> bool
    ensures { result ≡ wants a }
{
    !matches!(a, None | Some(Asks::Byte))
}

// LUN, block, page and column, and what comes after them.
pub fn paged(got: u8, rest: Option<Asks>) -> Option<Asks>
    ensures { result ≡ paged got rest }
{
    match got {
        0 => Some(Asks::Lun),
        1 => Some(Asks::Block),
        2 => Some(Asks::Page),
        3 => Some(Asks::Column),
        _ => rest,
    }
}

// A job's next value, where `got` of them have come.
pub fn asks_of(job: Option<First>, got: u8) -> Option<Asks>
    ensures { result ≡ asks_of job got }
{
    match (job, got) {
        (None, _) => None,
        (Some(First::Read), _) => paged(got, None),
        (Some(First::Program), _) => paged(got, Some(Asks::Byte)),
        (_, 0) => Some(Asks::Lun),
        (Some(First::ReadOut), 1) => Some(Asks::Column),
        (Some(First::ReadOut), 2) | (Some(First::Status), 1) => Some(Asks::Count),
        (Some(First::Erase), 1) => Some(Asks::Block),
        _ => None,
    }
}
