// An expectation that failed, in words: what was expected, and what came instead. And how a script went. Bytes on a desk.
ghost use Rattle.nib_words.specs.Desk.{Writes, when};
ghost use Rattle.nib_expect.specs.Words.{event_words, bytes_words, gave_words, came_words, refused_last, answer_words, last_words, ok_words, refusal_words, instead_words, bytes_failed, script_words, failed_words};

use crate::{Since, is_refused};
use nib_words::desk::Desk;
use nib_words::say::{listed, refused};

// ' event 9 was refused 4: ..': the first that was refused.
fn event_words(desk: &mut Desk<'_>, s: Since)
    ensures { Writes desk.old desk.new (event_words s) }
{
    desk.say(b" event ");
    desk.number(s.event);
    desk.say(b" was ");
    refused(desk, s.refusal);
}

#[tactic(auto, using(nib_words::proofs::Desks::none))]
fn event_if(desk: &mut Desk<'_>, on: bool, s: Since)
    ensures { Writes desk.old desk.new (when on (event_words s)) }
{
    if on {
        event_words(desk, s);
    }
}

// A list of bytes, and of a long one its first 16.
fn bytes_words(desk: &mut Desk<'_>, list: &[u8])
    ensures { Writes desk.old desk.new (bytes_words list.now) }
{
    if 16 < list.len() {
        listed(desk, &list[..16]);
        desk.say(b" ..");
    } else {
        listed(desk, list);
    }
}

// ' 3Ch FFh came'
fn came_words(desk: &mut Desk<'_>, given: &[u8])
    ensures { Writes desk.old desk.new (came_words given.now) }
{
    desk.say_if(given.is_empty(), b" no byte");
    bytes_words(desk, given);
    desk.say(b" came");
}

// ' gave 3Ch'
fn gave_words(desk: &mut Desk<'_>, b: u8)
    ensures { Writes desk.old desk.new (gave_words b) }
{
    desk.say(b" gave ");
    desk.byte(b);
}

// ' was refused 4: ..'
fn refused_last(desk: &mut Desk<'_>, n: u8)
    ensures { Writes desk.old desk.new (refused_last n) }
{
    desk.say(b" was ");
    refused(desk, n);
}

fn answer_words(desk: &mut Desk<'_>, first: u8, second: u8)
    ensures { Writes desk.old desk.new (answer_words first second) }
{
    match first {
        0 => desk.say(b" was accepted"),
        1 => gave_words(desk, second),
        _ => refused_last(desk, second),
    }
}

// ' event 12 was accepted': the last.
fn last_words(desk: &mut Desk<'_>, s: Since, last: usize)
    ensures { Writes desk.old desk.new (last_words s last) }
{
    desk.say(b" event ");
    desk.number(last);
    answer_words(desk, s.first, s.second);
}

#[tactic(auto, using(nib_words::proofs::Desks::none))]
fn last_if(desk: &mut Desk<'_>, on: bool, s: Since, last: usize)
    ensures { Writes desk.old desk.new (when on (last_words s last)) }
{
    if on {
        last_words(desk, s, last);
    }
}

// `ok` failed.
pub fn ok_words(desk: &mut Desk<'_>, s: Since)
    ensures { Writes desk.old desk.new (ok_words s) }
{
    desk.say(b"expected ok;");
    event_words(desk, s);
}

// `!` and a number failed; `last` is the number of the last event.
pub fn refusal_words(desk: &mut Desk<'_>, s: Since, last: usize, n: u8)
    ensures { Writes desk.old desk.new (refusal_words s last n) }
{
    desk.say(b"expected refusal ");
    desk.number(n as usize);
    desk.say_if(s.spoiled, b" of the last event alone");
    desk.put(b';');
    desk.say_if(!s.any, b" no event came");
    event_if(desk, s.spoiled, s);
    last_if(desk, s.any & !s.spoiled, s, last);
}

fn instead_words(desk: &mut Desk<'_>, s: Since, given: &[u8])
    ensures { Writes desk.old desk.new (instead_words s given.now) }
{
    if s.spoiled || is_refused(s.first) {
        event_words(desk, s);
    } else {
        came_words(desk, given);
    }
}

// `=` and bytes failed.
pub fn bytes_failed(desk: &mut Desk<'_>, s: Since, given: &[u8], wanted: &[u8])
    ensures { Writes desk.old desk.new (bytes_failed s given.now wanted.now) }
{
    desk.say(b"expected bytes");
    bytes_words(desk, wanted);
    desk.put(b';');
    instead_words(desk, s, given);
}

// '12 events, 5 expectations'
pub fn script_words(desk: &mut Desk<'_>, events: usize, expected: usize)
    ensures { Writes desk.old desk.new (script_words events expected) }
{
    desk.number(events);
    desk.say(b" event");
    desk.put_if(events != 1, b's');
    desk.say(b", ");
    desk.number(expected);
    desk.say(b" expectation");
    desk.put_if(expected != 1, b's');
}

// '2 of 5 expectations failed; nothing was stored'
pub fn failed_words(desk: &mut Desk<'_>, failed: usize, expected: usize)
    ensures { Writes desk.old desk.new (failed_words failed expected) }
{
    desk.number(failed);
    desk.say(b" of ");
    desk.number(expected);
    desk.say(b" expectations failed; nothing was stored");
}
