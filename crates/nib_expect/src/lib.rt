// Whether what a script expects was answered, and in words what came instead. By value: what has come since the expectation
// before (`Since`), one reply more (`after`), and whether an expectation holds. All with no `requires`.
#![tactic(auto)]

pub mod words;

ghost use Rattle.std.specs.Prelude.{◌≡◌};
ghost use Rattle.nib_expect.specs.Expect.{refused, gives, nothing, after, ok_holds, refusal_holds, bytes_hold};

use nib_args::is_word;

// What the events since the last expectation were answered, or those since the script's beginning. Replies are held as their two
// bytes, and the first refusal as numbers of which 0 is none, since C holds all of it in one number (`nib_expect_next`).
#[derive(Clone, Copy)]
pub struct Since {
    // an event has come
    pub any: bool,
    // one before the last was refused
    pub spoiled: bool,
    // the last one's reply
    pub first: u8,
    pub second: u8,
    // the number of the first one that was refused, and its refusal; 0 where none was
    pub event: usize,
    pub refusal: u8,
}

// A reply's first byte: a refusal.
pub fn is_refused(first: u8) -> bool
    ensures { result ≡ refused first }
{
    1 < first
}

// A reply's first byte: its second is a byte that a data out gave.
pub fn gives(first: u8) -> bool
    ensures { result ≡ gives first }
{
    first == 1
}

pub fn nothing() -> Since
    ensures { result ≡ nothing }
{
    Since {
        any: false,
        spoiled: false,
        first: 0,
        second: 0,
        event: 0,
        refusal: 0,
    }
}

// No event was refused.
pub fn ok_holds(s: Since) -> bool
    ensures { result ≡ ok_holds s }
{
    !(s.spoiled || is_refused(s.first))
}

// The last event was refused so, and no other was.
pub fn refusal_holds(s: Since, n: u8) -> bool
    ensures { result ≡ refusal_holds s n }
{
    !s.spoiled && is_refused(s.first) && s.second == n
}

// No event was refused, and the bytes that were given are those that are wanted.
pub fn bytes_hold(s: Since, given: &[u8], wanted: &[u8]) -> bool
    ensures { result ≡ bytes_hold s given.now wanted.now }
{
    ok_holds(s) && is_word(given, wanted)
}

// One event more: its number in the script, and its reply.
pub fn after(s: Since, number: usize, first: u8, second: u8) -> Since
    ensures { result ≡ after s number first second }
{
    let fresh = ok_holds(s) && is_refused(first);
    Since {
        any: true,
        spoiled: s.spoiled || is_refused(s.first),
        first,
        second,
        event: if fresh { number } else { s.event },
        refusal: if fresh { second } else { s.refusal },
    }
}
