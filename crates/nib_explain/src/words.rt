// What `explain` says beyond events and replies: a row, a status byte, data in a row, and the tally. Bytes on a desk.
ghost use Rattle.std.specs.Prelude.{◌≡◌};
ghost use Rattle.nib_words.specs.Desk.{Writes, when};
ghost use Rattle.nib_explain.specs.Words.{ready_name, status_words, lun_alone, row_at, data_list, in_words, polled_words, run_words, out_reply, status_reply, run_reply, separator, rule_named, rule_times, by_rules, tally_words};

use crate::fold::{Held, Run};
use crate::tally::number_at;
use nib_told::words::{row_bytes, times_words};
use nib_words::desk::Desk;
use nib_words::say::{listed, with_number, with_number_if};
use target::address::{block_of, lun_of, page_of};
use target::{Geometry, Row};

fn ready_name(ready: bool) -> &'static [u8]
    ensures { result.now ≡ ready_name ready }
{
    if ready { b"ready" } else { b"working" }
}

// A status byte, as 'ready, FAIL'.
pub fn status_words(desk: &mut Desk<'_>, b: u8)
    ensures { Writes desk.old desk.new (status_words b) }
{
    desk.say(ready_name(b / 32 % 4 == 3));
    desk.say_if(b % 2 == 1, b", FAIL");
    desk.say_if(b < 128, b", line low");
}

// 06h and 78h, by their numbers in the list of first commands: numbers, since C hands them in so (`nib_say_row`).
fn lun_alone(first: usize) -> bool
    ensures { result ≡ lun_alone first }
{
    first == 2 || first == 5
}

// A row, and as much of it as the command looks at: LUN, block and page, 60h not the page, 06h and 78h the LUN alone.
pub fn row_at(desk: &mut Desk<'_>, first: usize, g: Geometry, row: usize)
    ensures { Writes desk.old desk.new (row_at first g row) }
{
    let lun = lun_of(g, Row(row));
    let block = block_of(g, Row(row));
    let page = page_of(g, Row(row));
    let more = !lun_alone(first);
    desk.say(b"row ");
    row_bytes(desk, row);
    with_number(desk, b": LUN ", lun);
    with_number_if(desk, more, b", block ", block);
    with_number_if(desk, more & (first != 3), b", page ", page);
}

// Words and the bytes that are lent, and two dots where the run has more than those.
fn data_list(desk: &mut Desk<'_>, words: &[u8], bytes: &[u8], count: usize)
    ensures { Writes desk.old desk.new (data_list words.now bytes.now count) }
{
    desk.say(words);
    listed(desk, bytes);
    desk.say_if(bytes.len() < count, b" ..");
}

#[tactic(auto, using(nib_words::proofs::Desks::none))]
fn data_list_if(desk: &mut Desk<'_>, on: bool, words: &[u8], bytes: &[u8], count: usize)
    ensures { Writes desk.old desk.new (when on (data_list words.now bytes.now count)) }
{
    if on {
        data_list(desk, words, bytes, count);
    }
}

// 'data in, 2 bytes: 3Ch A5h'
fn in_words(desk: &mut Desk<'_>, b: u8, count: usize, bytes: &[u8])
    ensures { Writes desk.old desk.new (in_words b count bytes.now) }
{
    times_words(desk, 2, b, count, false);
    data_list_if(desk, 1 < count, b":", bytes, count);
}

// 'data out, 3 times'
fn polled_words(desk: &mut Desk<'_>, count: usize)
    ensures { Writes desk.old desk.new (polled_words count) }
{
    desk.say(b"data out");
    with_number_if(desk, 1 < count, b", ", count);
    desk.say_if(1 < count, b" times");
}

// The cycles of a run in words; `bytes` are the first of its bytes.
#[tactic(auto, using(nib_words::proofs::Desks::none))]
pub fn run_words(desk: &mut Desk<'_>, h: Held, bytes: &[u8])
    ensures { Writes desk.old desk.new (run_words h.run h.byte h.count bytes.now) }
{
    match h.run {
        None => (),
        Some(Run::In) => in_words(desk, h.byte, h.count, bytes),
        Some(Run::Out) => times_words(desk, 3, 0, h.count, false),
        Some(Run::Status) => polled_words(desk, h.count),
    }
}

// 'byte 3Ch', or 'bytes 3Ch A5h'
fn out_reply(desk: &mut Desk<'_>, b: u8, count: usize, bytes: &[u8])
    ensures { Writes desk.old desk.new (out_reply b count bytes.now) }
{
    if 1 < count {
        data_list(desk, b"bytes", bytes, count);
    } else {
        let one = [b];
        data_list(desk, b"byte", &one, count);
    }
}

// 'byte E1h  ready, FAIL'
pub fn status_reply(desk: &mut Desk<'_>, b: u8)
    ensures { Writes desk.old desk.new (status_reply b) }
{
    desk.say(b"byte ");
    desk.byte(b);
    desk.say(b"  ");
    status_words(desk, b);
}

// The replies of a run in words.
#[tactic(auto, using(nib_words::proofs::Desks::none))]
pub fn run_reply(desk: &mut Desk<'_>, h: Held, bytes: &[u8])
    ensures { Writes desk.old desk.new (run_reply h.run h.byte h.count bytes.now) }
{
    match h.run {
        None => (),
        Some(Run::In) => desk.say(b"accepted"),
        Some(Run::Out) => out_reply(desk, h.byte, h.count, bytes),
        Some(Run::Status) => status_reply(desk, h.byte),
    }
}

fn separator(told: bool) -> &'static [u8]
    ensures { result.now ≡ separator told }
{
    if told { b", " } else { b": " }
}

// ': 1 by rule 3', and with a comma where a rule was told before.
fn rule_named(desk: &mut Desk<'_>, times: usize, rule: usize, told: bool)
    ensures { Writes desk.old desk.new (rule_named times rule told) }
{
    with_number(desk, separator(told), times);
    with_number(desk, b" by rule ", rule);
}

// Where the rule refused anything.
#[tactic(auto, using(nib_words::proofs::Desks::none))]
fn rule_times(desk: &mut Desk<'_>, times: usize, rule: usize, told: bool)
    ensures { Writes desk.old desk.new (rule_times times rule told) }
{
    if 0 < times {
        rule_named(desk, times, rule, told);
    }
}

// From rule 1 on. An index, since a rule is told by its number.
fn by_rules(desk: &mut Desk<'_>, counts: &[usize])
    ensures { Writes desk.old desk.new (by_rules counts.now) }
{
    let mut told = false;
    for rule in 1..counts.len() {
        rule_times(desk, counts[rule], rule, told);
        told |= 0 < counts[rule];
    }
}

// '22 events: 19 accepted, 3 refused: 1 by rule 3, 2 by rule 5'
pub fn tally_words(desk: &mut Desk<'_>, events: usize, counts: &[usize])
    ensures { Writes desk.old desk.new (tally_words events counts.now) }
{
    let accepted = number_at(counts, 0);
    desk.number(events);
    desk.say(b" event");
    desk.put_if(events != 1, b's');
    with_number(desk, b": ", accepted);
    with_number(desk, b" accepted, ", events.saturating_sub(accepted));
    desk.say(b" refused");
    by_rules(desk, counts);
}
