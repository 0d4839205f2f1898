// For hosts: the grammar of a trace as text, what a script expects, and the words of `explain` and `jobs`, over plain numbers and
// lent bytes, so that no host writes them a second time. What is read, written or answered so far is a number, which is 0 where a
// text, a trace or a script begins.
#![tactic(auto)]

pub mod expects;
pub mod folds;
pub mod pieces;
pub mod states;

ghost use Rattle.std.specs.Prelude.{◌≡◌, not, eqb};
ghost use Rattle.nib_words.specs.Desk.{Writes};
ghost use Rattle.nib_words.specs.Say.{event_words, reply_words, rule_words};
ghost use Rattle.nib_told.specs.Lines.{next_place};
ghost use Rattle.nib_places.specs.Places.{row_of};
ghost use Rattle.nib_speech.specs.Speech.{Says, version_number, text_next, text_said, text_job, text_listed, text_begins, sizes, said_on, back_next};
ghost use Rattle.nib_speech.specs.Pieces.{reason_words, back_words, end_words, part_of, line_said};

use nib_places::{on_part, row_of};
use nib_text::job_words::job_number;
use nib_text::reading::{Said, is_gap, next};
use nib_text::writing::{wrote_end, wrote_next, wrote_odd};
use nib_told::lines::line_at;
use nib_told::words::line_words;
use nib_words::desk::Desk;
use nib_words::say::{event, reply, rule};
use pieces::{piece_words, reason};
use states::{
    asks_of, reading_number, reading_of, said_number, set_bit, writing_number, writing_of,
};
use target::Geometry;

// The version, as VERSION has it: major, minor and patch, a byte each.
pub fn version_number() -> u32
    ensures { result ≡ version_number }
{
    1537
}

#[unsafe(no_mangle)]
pub extern "C" fn nib_version() -> u32
    ensures { result ≡ version_number }
{
    version_number()
}

// ---- text to trace ----

// What has been read after one byte more of a text.
#[unsafe(no_mangle)]
pub extern "C" fn nib_text_next(state: u64, byte: u8) -> u64
    ensures { result ≡ text_next state byte }
{
    reading_number(next(reading_of(state), byte).reading)
}

// What that byte adds to the trace: what it is times 65,536, and the value. 0 nothing; 1 a record, its kind times 256 and its
// value; 2 a byte as it is; 3 so many data outs; 4 a bad word, and which of the reasons 1 to 14; 5 to 9 a job's LUN, block, page,
// column and count; 10 a byte of a program. What it expects adds nothing: 11 `ok`, after the job and the list that end with the
// byte; 12 a byte of a list; 13 a refusal.
#[unsafe(no_mangle)]
pub extern "C" fn nib_text_said(state: u64, byte: u8) -> u64
    ensures { result ≡ text_said state byte }
{
    said_number(next(reading_of(state), byte).said)
}

// The job that ends with that byte, 1 to 5, with what it adds as the job's last value; 0 for none. It means nothing where the
// word is bad.
#[unsafe(no_mangle)]
pub extern "C" fn nib_text_job(state: u64, byte: u8) -> u8
    ensures { result ≡ text_job state byte }
{
    job_number(next(reading_of(state), byte).whole)
}

// 1 where a list of expected bytes ends with that byte, with what it says as the list's last; 0 elsewhere. It means nothing where
// the word is bad.
#[unsafe(no_mangle)]
pub extern "C" fn nib_text_listed(state: u64, byte: u8) -> u8
    ensures { result ≡ text_listed state byte }
{
    set_bit(next(reading_of(state), byte).listed)
}

// The sizes of a part; `columns` is its page size P.
pub fn sizes(luns: usize, blocks: usize, pages: usize, columns: u16) -> Geometry
    ensures { result ≡ sizes luns blocks pages columns }
{
    Geometry {
        bytes: columns,
        spare: 0,
        pages,
        blocks,
        luns,
        programs: 0,
    }
}

// The part of these sizes; with no LUNs no part is known.
fn part_of(g: Geometry) -> Option<Geometry>
    ensures { result ≡ part_of g }
{
    if g.luns == 0 { None } else { Some(g) }
}

// What a byte adds, on a part: a bad word where it is a value of a job that the part has not.
#[unsafe(no_mangle)]
pub extern "C" fn nib_text_on_part(
    said: u64,
    luns: usize,
    blocks: usize,
    pages: usize,
    columns: u16,
) -> u64
    ensures { result ≡ said_on said (sizes luns blocks pages columns) }
{
    let what = said / 65536;
    if 4 < what && what < 11 {
        let value = Said::Value {
            of: asks_of(what - 4),
            number: (said % 65536) as usize,
        };
        said_number(on_part(sizes(luns, blocks, pages, columns), value))
    } else {
        said
    }
}

// The row of a page; 16,777,216, which is too wide, where the part has no such page.
#[unsafe(no_mangle)]
pub extern "C" fn nib_row_number(
    luns: usize,
    blocks: usize,
    pages: usize,
    lun: usize,
    block: usize,
    page: usize,
) -> usize
    ensures { result ≡ row_of (sizes luns blocks pages 0) lun block page }
{
    row_of(sizes(luns, blocks, pages, 0), lun, block, page)
}

// 1 where that byte begins a word.
#[unsafe(no_mangle)]
pub extern "C" fn nib_text_begins(state: u64, byte: u8) -> u8
    ensures { result ≡ text_begins state byte }
{
    let r = reading_of(state);
    set_bit(r.word.length == 0 && !r.comment && !is_gap(byte))
}

// ---- trace to text ----

// What has been written after one byte more of a trace.
#[unsafe(no_mangle)]
pub extern "C" fn nib_back_next(state: u64, byte: u8) -> u64
    ensures { result ≡ back_next state byte }
{
    writing_number(wrote_next(writing_of(state), byte).writing)
}

// The text of that byte onto `out`, as much of it as there is room for; how many bytes. 64 are room enough.
#[unsafe(no_mangle)]
pub extern "C" fn nib_back_text(state: u64, byte: u8, out: &mut [u8]) -> usize
    ensures { Says out.old out.new result (back_words state byte) }
{
    let mut desk = Desk { room: out, at: 0 };
    piece_words(&mut desk, wrote_next(writing_of(state), byte).piece);
    desk.at
}

// An odd last byte, and what is left to write.
fn end_words(desk: &mut Desk<'_>, state: u64)
    ensures { Writes desk.old desk.new (end_words state) }
{
    let wrote = wrote_odd(writing_of(state));
    piece_words(desk, wrote.piece);
    piece_words(desk, wrote_end(wrote.writing));
}

// The text of a trace's end.
#[unsafe(no_mangle)]
pub extern "C" fn nib_back_end(state: u64, out: &mut [u8]) -> usize
    ensures { Says out.old out.new result (end_words state) }
{
    let mut desk = Desk { room: out, at: 0 };
    end_words(&mut desk, state);
    desk.at
}

// ---- words: onto `out`, as much as there is room for; how many bytes ----

// A record in words; where `odd` is not 0, its first byte alone; where `inside` is not 0, a sequence is open where it comes. 64 bytes
// are room enough.
#[unsafe(no_mangle)]
pub extern "C" fn nib_say_event(odd: u8, kind: u8, value: u8, inside: u8, out: &mut [u8]) -> usize
    ensures { Says out.old out.new result (event_words (not (eqb odd 0)) kind value (not (eqb inside 0))) }
{
    let mut desk = Desk { room: out, at: 0 };
    event(&mut desk, odd != 0, kind, value, inside != 0);
    desk.at
}

// A reply in words, `lun` being the LUN that its event is about. 128 are room enough.
#[unsafe(no_mangle)]
pub extern "C" fn nib_say_reply(first: u8, second: u8, lun: usize, out: &mut [u8]) -> usize
    ensures { Says out.old out.new result (reply_words first second lun) }
{
    let mut desk = Desk { room: out, at: 0 };
    reply(&mut desk, first, second, lun);
    desk.at
}

// The words of a refusal's rule; none where no rule has the number. 96 are room enough.
#[unsafe(no_mangle)]
pub extern "C" fn nib_say_rule(number: u8, out: &mut [u8]) -> usize
    ensures { Says out.old out.new result (rule_words number) }
{
    let mut desk = Desk { room: out, at: 0 };
    rule(&mut desk, number);
    desk.at
}

// Where the next line of a trace that is told as jobs begins, of the line at a place; that place itself where the trace has no
// record there.
#[unsafe(no_mangle)]
pub extern "C" fn nib_line_next(records: &[u8], at: usize) -> usize
    ensures { result ≡ next_place records.now at }
{
    match line_at(records, at) {
        Some(line) => line.next,
        None => at,
    }
}

// That line in words, on a part; where `luns` is 0, with no part known. 128 are room enough.
#[unsafe(no_mangle)]
pub extern "C" fn nib_say_line(
    records: &[u8],
    at: usize,
    luns: usize,
    blocks: usize,
    pages: usize,
    columns: u16,
    out: &mut [u8],
) -> usize
    ensures { Says out.old out.new result (line_said records.now at (sizes luns blocks pages columns)) }
{
    let mut desk = Desk { room: out, at: 0 };
    line_words(
        &mut desk,
        part_of(sizes(luns, blocks, pages, columns)),
        line_at(records, at),
    );
    desk.at
}

// The words of why a word of a text is bad, 1 to 14 as `nib_text_said` gives it; none for another number. 128 are room enough.
#[unsafe(no_mangle)]
pub extern "C" fn nib_say_wrong(which: u8, out: &mut [u8]) -> usize
    ensures { Says out.old out.new result (reason_words which) }
{
    let mut desk = Desk { room: out, at: 0 };
    reason(&mut desk, which);
    desk.at
}
