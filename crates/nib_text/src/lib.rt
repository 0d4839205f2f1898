// A trace as people write it, one byte of text at a time: what a text means (`reading`), and a trace back as text (`writing`).
// All by value, with no `requires`. A text is lines of words; `#` begins a comment. A letter says what the values after it
// are: c commands, a addresses, d data in, x bytes as they are, each of two hex digits; o a count of data outs, f the number of
// a LUN that finishes, p the level of the protect line, each in decimal. A word of `job_words` says a whole job. What must be
// answered is an expectation, which adds nothing to the trace: = bytes, ! a refusal's number, and the word `ok`.
#![tactic(auto)]

pub mod job_words;
pub mod reading;
pub mod writing;

ghost use Rattle.std.specs.Prelude.{◌≡◌};
ghost use Rattle.nib_text.specs.Kinds.{kind_number, same_kind};

// What the values on a line are: the letter that stands before them. Where a line has none, it is None.
#[derive(Clone, Copy, PartialEq, Eq)]
pub enum Kind {
    // c
    Command,
    // a
    Address,
    // d
    DataIn,
    // o
    DataOut,
    // f
    Finish,
    // p
    Protect,
    // x
    Raw,
    // =, bytes that must have come
    Bytes,
    // !, a refusal that must have come
    Refusal,
    // after the word `ok`, which takes no value
    Accepted,
}

// A letter's number, as hosts have it in their states; 0 for none.
pub fn kind_number(k: Option<Kind>) -> u8
    ensures { result ≡ kind_number k }
{
    match k {
        None => 0,
        Some(Kind::Command) => 1,
        Some(Kind::Address) => 2,
        Some(Kind::DataIn) => 3,
        Some(Kind::DataOut) => 4,
        Some(Kind::Finish) => 5,
        Some(Kind::Protect) => 6,
        Some(Kind::Raw) => 7,
        Some(Kind::Bytes) => 8,
        Some(Kind::Refusal) => 9,
        Some(Kind::Accepted) => 10,
    }
}

// By the derived `==`; the clause has the definition's word.
pub fn same_kind(a: Option<Kind>, b: Option<Kind>) -> bool
    ensures { result ≡ same_kind a b }
{
    a == b
}
