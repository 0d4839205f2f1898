// The proved model, lent the first so many bytes of each buffer: the test programs hold larger ones, and say how much of them a
// part has.
#![tactic(auto)]

use power::{NotPowered, power_on};
use step::{Stepped, step};
use target::{Event, Target};
use trace::{RunRefusal, run};

// How many bytes of each buffer are lent.
#[derive(Clone, Copy)]
pub struct Lengths {
    pub page: usize,
    pub array: usize,
    pub registers: usize,
    pub counts: usize,
    pub flags: usize,
}

// The first `n` bytes, or all if there are not so many. nib and `test_pages_powers` have their own: neither stands on this crate.
fn front(s: &[u8], n: usize) -> &[u8] {
    &s[..n.min(s.len())]
}

fn front_mut(s: &mut [u8], n: usize) -> &mut [u8] {
    let n = n.min(s.len());
    &mut s[..n]
}

// The buffers one by one, here and below, as `step`, `run` and `power_on` take them: a struct of loans would be made for each
// call and taken apart in it.
pub fn lent_step(
    t: Target,
    l: Lengths,
    e: Event,
    page: &[u8],
    array: &mut [u8],
    registers: &mut [u8],
    counts: &mut [u8],
    flags: &[u8],
) -> Stepped {
    step(
        t,
        e,
        front(page, l.page),
        front_mut(array, l.array),
        front_mut(registers, l.registers),
        front_mut(counts, l.counts),
        front(flags, l.flags),
    )
}

// The first `bytes` bytes of a trace, with room for `room` bytes of replies.
pub fn lent_run(
    t: Target,
    l: Lengths,
    records: &[u8],
    bytes: usize,
    replies: &mut [u8],
    room: usize,
    page: &[u8],
    array: &mut [u8],
    registers: &mut [u8],
    counts: &mut [u8],
    flags: &[u8],
) -> Result<Target, RunRefusal> {
    run(
        t,
        front(records, bytes),
        front_mut(replies, room),
        front(page, l.page),
        front_mut(array, l.array),
        front_mut(registers, l.registers),
        front_mut(counts, l.counts),
        front(flags, l.flags),
    )
}

pub fn lent_power(
    l: Lengths,
    device: u8,
    page: &[u8],
    array: &[u8],
    registers: &mut [u8],
    counts: &[u8],
    flags: &[u8],
) -> Result<Target, NotPowered> {
    power_on(
        front(page, l.page),
        device,
        front(array, l.array),
        front_mut(registers, l.registers),
        front(counts, l.counts),
        front(flags, l.flags),
    )
}
