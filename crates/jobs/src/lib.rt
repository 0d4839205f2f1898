// Whole jobs written as records and read back: a read, a read-out, a program, an erase and a status, over lent slices.
// `writing` makes a job's records, `reading` groups records into jobs, and `numbers` is both for hosts. No call has a `requires`.
#![tactic(auto)]

pub mod numbers;
pub mod reading;
pub mod writing;

// A job by value. Row and column are plain numbers, since they may be too wide for their cycles. A program's bytes are lent
// beside it.
#[derive(Clone, Copy)]
pub enum Job {
    // 00h, five addresses, 30h
    Read {
        column: usize,
        row: usize,
    },
    // 06h, five addresses, E0h, `count` data out
    ReadOut {
        column: usize,
        row: usize,
        count: usize,
    },
    // 80h, five addresses, the bytes as data in, 10h
    Program {
        column: usize,
        row: usize,
    },
    // 60h, three addresses, D0h
    Erase {
        row: usize,
    },
    // 78h, three addresses, `count` data out
    Status {
        row: usize,
        count: usize,
    },
}
