// A trace as text, in pieces, and why a word of a text is bad: bytes on a desk.
ghost use Rattle.std.specs.Prelude.{◌≡◌, true, ◌∷◌, ◌++◌};
ghost use Rattle.nib_words.specs.Desk.{Writes, hexed, decimal};
ghost use Rattle.nib_speech.specs.Pieces.{reason_words, letter_words, value_words, outs_line, outs_words, piece_words};

use nib_text::Kind;
use nib_text::writing::{Piece, Value};
use nib_words::desk::Desk;

// Why a word is bad, by its number as C has it; nothing for another number.
#[tactic(auto, unfolding(crate::specs::Pieces::reason_words))]
fn reason_words(n: u8) -> &'static [u8]
    ensures { result.now ≡ reason_words n }
{
    match n {
        1 => b"no letter of c a d o f p x = ! and no job's word stands before it on its line",
        2 => b"a letter with no value",
        3 => b"not two hex digits",
        4 => b"not a decimal number, or too large",
        5 => {
            b"a letter, a job's word or ok, where the letter before it wants a value; a byte has two hex digits"
        }
        6 => b"a job's word, which needs a part: text DIR",
        7 => b"the job wants a value more",
        8 => b"a value more than the job takes",
        9 => b"the part has no such LUN",
        10 => b"the part has no such block",
        11 => b"the part has no such page",
        12 => b"the part has no such column",
        13 => b"a value after ok, which takes none",
        14 => b"not the number of a refusal: 1 to 255, in decimal",
        _ => b"",
    }
}

pub fn reason(desk: &mut Desk<'_>, n: u8)
    ensures { Writes desk.old desk.new (reason_words n) }
{
    desk.say(reason_words(n));
}

// The letter that is written before a line's values; none stands before what is expected.
fn letter_words(k: Option<Kind>) -> &'static [u8]
    ensures { result.now ≡ letter_words k }
{
    match k {
        Some(Kind::Command) => b"c",
        Some(Kind::Address) => b"a",
        Some(Kind::DataIn) => b"d",
        Some(Kind::DataOut) => b"o",
        Some(Kind::Finish) => b"f",
        Some(Kind::Protect) => b"p",
        Some(Kind::Raw) => b"x",
        _ => b"",
    }
}

// A blank, and a byte as two hex digits.
fn spaced(desk: &mut Desk<'_>, b: u8)
    ensures { Writes desk.old desk.new (32 ∷ hexed b true) }
{
    desk.put(b' ');
    desk.hex(b, true);
}

fn spaced_number(desk: &mut Desk<'_>, n: u8)
    ensures { Writes desk.old desk.new (32 ∷ decimal n) }
{
    desk.put(b' ');
    desk.number(n as usize);
}

fn spaced_pair(desk: &mut Desk<'_>, kind: u8, value: u8)
    ensures { Writes desk.old desk.new ((32 ∷ hexed kind true) ++ (32 ∷ hexed value true)) }
{
    spaced(desk, kind);
    spaced(desk, value);
}

#[tactic(auto, using(nib_words::proofs::Desks::none))]
fn value(desk: &mut Desk<'_>, v: Option<Value>)
    ensures { Writes desk.old desk.new (value_words v) }
{
    match v {
        None => (),
        Some(Value::Byte(b)) => spaced(desk, b),
        Some(Value::Number(n)) => spaced_number(desk, n),
        Some(Value::Pair { kind, value }) => spaced_pair(desk, kind, value),
    }
}

fn outs_line(desk: &mut Desk<'_>, n: usize)
    ensures { Writes desk.old desk.new (outs_line n) }
{
    desk.say(b"o ");
    desk.number(n);
    desk.put(b'\n');
}

// A line of data outs, where there are any.
#[tactic(auto, using(nib_words::proofs::Desks::none))]
fn counted_outs(desk: &mut Desk<'_>, n: usize)
    ensures { Writes desk.old desk.new (outs_words n) }
{
    if 0 < n {
        outs_line(desk, n);
    }
}

// What there is to write.
pub fn piece_words(desk: &mut Desk<'_>, piece: Piece)
    ensures { Writes desk.old desk.new (piece_words piece) }
{
    counted_outs(desk, piece.outs);
    desk.put_if(piece.close, b'\n');
    desk.say(letter_words(piece.letter));
    value(desk, piece.value);
}
