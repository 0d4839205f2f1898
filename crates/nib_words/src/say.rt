// Events, replies and refusals in words.
ghost use Rattle.std.specs.Prelude.{◌≡◌, ◌++◌};
ghost use Rattle.nib_words.specs.Desk.{Writes, when, byte_words, decimal, spaced, listed};
ghost use Rattle.nib_words.specs.Say.{command_name, command_words, bad_words, event_words, rule_words, refused_words, named_lun, which_words, reply_words};

use crate::desk::Desk;

// Words and a byte, as 'address 37h'.
fn with_byte(desk: &mut Desk<'_>, words: &[u8], b: u8)
    ensures { Writes desk.old desk.new (words.now ++ byte_words b) }
{
    desk.say(words);
    desk.byte(b);
}

// A blank and a byte.
fn spaced(desk: &mut Desk<'_>, b: u8)
    ensures { Writes desk.old desk.new (spaced b) }
{
    desk.put(b' ');
    desk.byte(b);
}

// Bytes, with a blank before each.
pub fn listed(desk: &mut Desk<'_>, bytes: &[u8])
    ensures { Writes desk.old desk.new (listed bytes.now) }
{
    for &b in bytes {
        spaced(desk, b);
    }
}

// Words and a number, as 'finish LUN 1'.
pub fn with_number(desk: &mut Desk<'_>, words: &[u8], n: usize)
    ensures { Writes desk.old desk.new (words.now ++ decimal n) }
{
    desk.say(words);
    desk.number(n);
}

// In one case alone.
#[tactic(auto, using(crate::proofs::Desks::none))]
pub fn with_number_if(desk: &mut Desk<'_>, on: bool, words: &[u8], n: usize)
    ensures { Writes desk.old desk.new (when on (words.now ++ decimal n)) }
{
    if on {
        with_number(desk, words, n);
    }
}

// What a command byte asks for; `inside` says that a sequence is open where it comes. 85h moves a program's column inside one, and
// else begins a copyback program.
#[tactic(auto, unfolding(crate::specs::Say::command_name))]
fn command_name(v: u8, inside: bool) -> &'static [u8]
    ensures { result.now ≡ command_name v inside }
{
    match v {
        0x00 => b"  read",
        0x05 => b"  change column",
        0x06 => b"  change LUN and column",
        0x10 => b"  start programming",
        0x30 => b"  start reading",
        0x35 => b"  start copyback read",
        0x60 => b"  erase",
        0x70 => b"  status",
        0x78 => b"  status of a LUN",
        0x80 => b"  program",
        0x85 if inside => b"  change column",
        0x85 => b"  copyback program",
        0x90 => b"  identify",
        0xd0 => b"  start erasing",
        0xe0 => b"  start output",
        0xec => b"  parameter page",
        0xee => b"  get feature",
        0xef => b"  set feature",
        0xff => b"  reset",
        _ => b"",
    }
}

fn command(desk: &mut Desk<'_>, v: u8, inside: bool)
    ensures { Writes desk.old desk.new (command_words v inside) }
{
    desk.say(b"command ");
    desk.byte(v);
    desk.say(command_name(v, inside));
}

// A record that is none, as its bytes.
fn bad(desk: &mut Desk<'_>, kind: u8, value: u8)
    ensures { Writes desk.old desk.new (bad_words kind value) }
{
    desk.say(b"bytes ");
    desk.hex(kind, false);
    desk.put(b' ');
    desk.hex(value, false);
}

// A record in words: its two bytes as they stand in a trace, which may be no record. One byte alone is an odd byte; `inside` says that a sequence is open where the record comes.
#[tactic(auto, unfolding(crate::specs::Say::event_words))]
pub fn event(desk: &mut Desk<'_>, odd: bool, kind: u8, value: u8, inside: bool)
    ensures { Writes desk.old desk.new (event_words odd kind value inside) }
{
    match (kind, value) {
        _ if odd => with_byte(desk, b"odd byte ", kind),
        (0, _) => command(desk, value, inside),
        (1, _) => with_byte(desk, b"address ", value),
        (2, _) => with_byte(desk, b"data in ", value),
        (3, 0) => desk.say(b"data out"),
        (4, _) => with_number(desk, b"finish LUN ", value as usize),
        (5, 0) => desk.say(b"protect line low"),
        (5, 1) => desk.say(b"protect line high"),
        _ => bad(desk, kind, value),
    }
}

// The words of a refusal's rule, and none where no rule has the number.
#[tactic(auto, unfolding(crate::specs::Say::rule_words))]
pub fn rule_words(number: u8) -> &'static [u8]
    ensures { result.now ≡ rule_words number }
{
    match number {
        1 => b"command byte not known, or not offered by this part",
        2 => b"bus cycle other than FFh before the first FFh",
        3 => b"known cycle that doesn't fit the place reached",
        4 => b"row, column, feature or identification address not in range",
        5 => b"the LUN is working",
        6 => b"a LUN is working; for 70h, one other than the selected LUN",
        7 => b"10h or D0h with the protect line low",
        8 => b"data in or out past the end",
        9 => b"feature byte not offered",
        10 => b"finish of a LUN that is not working or doesn't exist",
        11 => b"protect event while a LUN works or a sequence is open",
        12 => b"bad record",
        13 => b"target not powered, or a length or a number of the record that can't be",
        14 => b"no copyback is open there",
        16 => b"reply room too short",
        20 => b"the parameter bytes are not 256",
        21 => b"the parameter bytes don't start with ONFI",
        22 => b"the CRC is not that of the parameter bytes",
        23 => b"a field of the parameter bytes is outside its limits",
        24 => b"a buffer's length is not what the parameter bytes give",
        25 => b"a count above programs a page, or a flag above 1",
        _ => b"",
    }
}

pub fn rule(desk: &mut Desk<'_>, number: u8)
    ensures { Writes desk.old desk.new (rule_words number) }
{
    desk.say(rule_words(number));
}

// 'refused 5: the LUN is working'
pub fn refused(desk: &mut Desk<'_>, n: u8)
    ensures { Writes desk.old desk.new (refused_words n) }
{
    desk.say(b"refused ");
    desk.number(n as usize);
    desk.say(b": ");
    rule(desk, n);
}

// ' (LUN 1)'
fn named_lun(desk: &mut Desk<'_>, lun: usize)
    ensures { Writes desk.old desk.new (named_lun lun) }
{
    with_number(desk, b" (LUN ", lun);
    desk.put(b')');
}

// Refusal 5 names the LUN that is working.
#[tactic(auto, using(crate::proofs::Desks::none), unfolding(crate::specs::Say::which_words))]
fn which(desk: &mut Desk<'_>, n: u8, lun: usize)
    ensures { Writes desk.old desk.new (which_words n lun) }
{
    if n == 5 {
        named_lun(desk, lun);
    }
}

fn refused_which(desk: &mut Desk<'_>, n: u8, lun: usize)
    ensures { Writes desk.old desk.new (refused_words n ++ which_words n lun) }
{
    refused(desk, n);
    which(desk, n, lun);
}

// A reply in words, by its two bytes, which C gives. `lun` is the LUN that the event is about.
#[tactic(auto, unfolding(crate::specs::Say::reply_words))]
pub fn reply(desk: &mut Desk<'_>, first: u8, second: u8, lun: usize)
    ensures { Writes desk.old desk.new (reply_words first second lun) }
{
    match first {
        0 => desk.say(b"accepted"),
        1 => with_byte(desk, b"byte ", second),
        _ => refused_which(desk, second, lun),
    }
}
