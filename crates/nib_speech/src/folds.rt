// For hosts: what `explain` says of rows, status bytes and data in a row, and its tally. What is held back is a number, 0 where
// nothing is.
ghost use Rattle.std.specs.Prelude.{◌≡◌};
ghost use Rattle.nib_explain.specs.Tally.{tallied};
ghost use Rattle.nib_explain.specs.Words.{row_at, status_words, tally_words};
ghost use Rattle.nib_speech.specs.Speech.{Says, sizes};
ghost use Rattle.nib_speech.specs.Folds.{run_at, held_of, held_number, fold_next, fold_goes, run_said, reply_said};

use crate::sizes;
use crate::states::set_bit;
use nib_explain::fold::{Held, Run, carried, goes_out, held_next, run_number, run_of};
use nib_explain::tally::tally;
use nib_explain::words::{row_at, run_reply, run_words, status_words, tally_words};
use nib_words::desk::Desk;

fn run_at(n: u64) -> Option<Run>
    ensures { result ≡ run_at n }
{
    match n {
        1 => Some(Run::In),
        2 => Some(Run::Out),
        3 => Some(Run::Status),
        _ => None,
    }
}

fn held_of(n: u64) -> Held
    ensures { result ≡ held_of n }
{
    Held {
        run: run_at(n % 4),
        byte: (n / 4 % 256) as u8,
        count: (n / 1024) as usize,
    }
}

fn held_number(h: Held) -> u64
    ensures { result ≡ held_number h }
{
    run_number(h.run) as u64 + h.byte as u64 * 4 + (h.count as u64 % 1099511627776) * 1024
}

// What is held back after an event, by its kind, value and reply; where `status` is not 0, the output is a status when it comes.
#[unsafe(no_mangle)]
pub extern "C" fn nib_fold_next(
    state: u64,
    kind: u8,
    value: u8,
    first: u8,
    second: u8,
    status: u8,
) -> u64
    ensures { result ≡ fold_next state kind value first second status }
{
    let run = run_of(kind, first, status != 0);
    let h = held_next(held_of(state), run, carried(kind, value, second));
    held_number(h)
}

// 1 where what is held back goes out before that event is told.
#[unsafe(no_mangle)]
pub extern "C" fn nib_fold_goes(
    state: u64,
    kind: u8,
    value: u8,
    first: u8,
    second: u8,
    status: u8,
) -> u8
    ensures { result ≡ fold_goes state kind value first second status }
{
    let run = run_of(kind, first, status != 0);
    set_bit(goes_out(held_of(state), run, carried(kind, value, second)))
}

// The cycles that are held back, in words; `bytes` are the first of their bytes.
#[unsafe(no_mangle)]
pub extern "C" fn nib_say_run(state: u64, bytes: &[u8], out: &mut [u8]) -> usize
    ensures { Says out.old out.new result (run_said state bytes.now) }
{
    let mut desk = Desk { room: out, at: 0 };
    run_words(&mut desk, held_of(state), bytes);
    desk.at
}

// Their replies.
#[unsafe(no_mangle)]
pub extern "C" fn nib_say_run_reply(state: u64, bytes: &[u8], out: &mut [u8]) -> usize
    ensures { Says out.old out.new result (reply_said state bytes.now) }
{
    let mut desk = Desk { room: out, at: 0 };
    run_reply(&mut desk, held_of(state), bytes);
    desk.at
}

// A row on a part, and as much of it as its command looks at; `first` is that command's place in the list.
#[unsafe(no_mangle)]
pub extern "C" fn nib_say_row(
    first: u8,
    row: usize,
    luns: usize,
    blocks: usize,
    pages: usize,
    out: &mut [u8],
) -> usize
    ensures { Says out.old out.new result (row_at first (sizes luns blocks pages 0) row) }
{
    let mut desk = Desk { room: out, at: 0 };
    row_at(
        &mut desk,
        first as usize,
        sizes(luns, blocks, pages, 0),
        row,
    );
    desk.at
}

// A status byte in words.
#[unsafe(no_mangle)]
pub extern "C" fn nib_say_status(byte: u8, out: &mut [u8]) -> usize
    ensures { Says out.old out.new result (status_words byte) }
{
    let mut desk = Desk { room: out, at: 0 };
    status_words(&mut desk, byte);
    desk.at
}

// One reply more in the counts: number 0 is how many events were accepted, number n how many rule n refused.
#[unsafe(no_mangle)]
pub extern "C" fn nib_tally(counts: &mut [usize], first: u8, second: u8)
    ensures { counts.new ≡ tallied counts.old first second }
{
    tally(counts, first, second)
}

// The counts of so many events in words.
#[unsafe(no_mangle)]
pub extern "C" fn nib_say_tally(events: usize, counts: &[usize], out: &mut [u8]) -> usize
    ensures { Says out.old out.new result (tally_words events counts.now) }
{
    let mut desk = Desk { room: out, at: 0 };
    tally_words(&mut desk, events, counts);
    desk.at
}
