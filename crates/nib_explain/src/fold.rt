// Data cycles in a row are told in one line: what is held back, and when it goes out.
ghost use Rattle.std.specs.Prelude.{◌≡◌};
ghost use Rattle.nib_explain.specs.Fold.{run_number, run_of, carried, joins, held_next, goes_out};

use nib_text::reading::up;

// The run of data that an event belongs to. An event of none is told by itself.
#[derive(Clone, Copy, PartialEq, Eq)]
pub enum Run {
    // data in that is accepted
    In,
    // data out that gives a byte of a register, the parameter page, an ID or a feature
    Out,
    // data out that gives a status byte
    Status,
}

// What is held back: cycles of one run, the byte of the first of them, and how many there are; 0 where nothing is, and no Option round
// it, since C's number of it can hold a count without a run (`nib_fold_goes`).
#[derive(Clone, Copy)]
pub struct Held {
    pub run: Option<Run>,
    pub byte: u8,
    pub count: usize,
}

// A run's number, as hosts have it in their states; 0 for none.
pub fn run_number(r: Option<Run>) -> u8
    ensures { result ≡ run_number r }
{
    match r {
        None => 0,
        Some(Run::In) => 1,
        Some(Run::Out) => 2,
        Some(Run::Status) => 3,
    }
}

// The run of an event, by its kind and the first byte of its reply, both as a record has them; `status` says that the output is a status where it comes.
pub fn run_of(kind: u8, first: u8, status: bool) -> Option<Run>
    ensures { result ≡ run_of kind first status }
{
    match (kind, first) {
        (2, 0) => Some(Run::In),
        (3, 1) if status => Some(Run::Status),
        (3, 1) => Some(Run::Out),
        _ => None,
    }
}

// The byte of a data cycle: the one that goes in, or the one that comes out.
pub fn carried(kind: u8, value: u8, second: u8) -> u8
    ensures { result ≡ carried kind value second }
{
    if kind == 2 { value } else { second }
}

// Whether a cycle goes on with what is held back: it is of the same run, and a status byte is the same byte.
pub fn joins(h: Held, run: Option<Run>, byte: u8) -> bool
    ensures { result ≡ joins h run byte }
{
    match run {
        None => false,
        Some(Run::Status) => h.run == run && h.byte == byte,
        _ => h.run == run,
    }
}

// What is held back after a cycle.
pub fn held_next(h: Held, run: Option<Run>, byte: u8) -> Held
    ensures { result ≡ held_next h run byte }
{
    if joins(h, run, byte) {
        Held {
            count: up(h.count),
            ..h
        }
    } else if run.is_some() {
        Held {
            run,
            byte,
            count: 1,
        }
    } else {
        Held {
            run: None,
            byte: 0,
            count: 0,
        }
    }
}

// What is held back goes out before the cycle is told: there is something, and the cycle doesn't go on with it.
pub fn goes_out(h: Held, run: Option<Run>, byte: u8) -> bool
    ensures { result ≡ goes_out h run byte }
{
    0 < h.count && !joins(h, run, byte)
}
