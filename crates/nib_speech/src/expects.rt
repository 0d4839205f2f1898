// What a script expects, for hosts: what has been answered since the last expectation, as one number; whether an expectation
// holds; and, onto `out`, the words of one that failed. 256 bytes are room enough for any of them.
ghost use Rattle.std.specs.Prelude.{◌≡◌};
ghost use Rattle.nib_expect.specs.Words.{ok_words, refusal_words, bytes_failed, script_words, failed_words};
ghost use Rattle.nib_speech.specs.Speech.{Says};
ghost use Rattle.nib_speech.specs.Expects.{since_of, since_number, expect_next, expect_ok, expect_refusal, expect_bytes};

use crate::states::set_bit;
use nib_expect::words::{bytes_failed, failed_words, ok_words, refusal_words, script_words};
use nib_expect::{Since, after, bytes_hold, ok_holds, refusal_holds};
use nib_words::desk::Desk;

pub fn since_of(n: u64) -> Since
    ensures { result ≡ since_of n }
{
    Since {
        any: n % 2 == 1,
        spoiled: n / 2 % 2 == 1,
        first: (n / 4 % 256) as u8,
        second: (n / 1024 % 256) as u8,
        event: (n / 67108864) as usize,
        refusal: (n / 262144 % 256) as u8,
    }
}

pub fn since_number(s: Since) -> u64
    ensures { result ≡ since_number s }
{
    set_bit(s.any) as u64
        + (set_bit(s.spoiled) as u64) * 2
        + (s.first as u64) * 4
        + (s.second as u64) * 1024
        + (s.refusal as u64) * 262144
        + (s.event as u64) % 137438953472 * 67108864
}

// What has been answered after one event more: its number in the script, counted from 1, and its reply's two bytes.
#[unsafe(no_mangle)]
pub extern "C" fn nib_expect_next(state: u64, number: usize, first: u8, second: u8) -> u64
    ensures { result ≡ expect_next state number first second }
{
    let s = after(since_of(state), number, first, second);
    since_number(s)
}

// 1 where `ok` holds: none of the events since was refused.
#[unsafe(no_mangle)]
pub extern "C" fn nib_expect_ok(state: u64) -> u8
    ensures { result ≡ expect_ok state }
{
    set_bit(ok_holds(since_of(state)))
}

// 1 where `!` and a number holds: the last of them was refused so, and no other was.
#[unsafe(no_mangle)]
pub extern "C" fn nib_expect_refusal(state: u64, refusal: u8) -> u8
    ensures { result ≡ expect_refusal state refusal }
{
    set_bit(refusal_holds(since_of(state), refusal))
}

// 1 where `=` and bytes holds: none of them was refused, and the bytes that came are those.
#[unsafe(no_mangle)]
pub extern "C" fn nib_expect_bytes(state: u64, given: &[u8], wanted: &[u8]) -> u8
    ensures { result ≡ expect_bytes state given.now wanted.now }
{
    set_bit(bytes_hold(since_of(state), given, wanted))
}

// The words of an `ok` that failed.
#[unsafe(no_mangle)]
pub extern "C" fn nib_say_not_ok(state: u64, out: &mut [u8]) -> usize
    ensures { Says out.old out.new result (ok_words (since_of state)) }
{
    let mut desk = Desk { room: out, at: 0 };
    ok_words(&mut desk, since_of(state));
    desk.at
}

// The words of a refusal that was expected and did not come; `last` is the number of the last event.
#[unsafe(no_mangle)]
pub extern "C" fn nib_say_not_refusal(state: u64, last: usize, refusal: u8, out: &mut [u8]) -> usize
    ensures { Says out.old out.new result (refusal_words (since_of state) last refusal) }
{
    let mut desk = Desk { room: out, at: 0 };
    refusal_words(&mut desk, since_of(state), last, refusal);
    desk.at
}

// The words of bytes that were expected and did not come; of a long list its first 16.
#[unsafe(no_mangle)]
pub extern "C" fn nib_say_not_bytes(
    state: u64,
    given: &[u8],
    wanted: &[u8],
    out: &mut [u8],
) -> usize
    ensures { Says out.old out.new result (bytes_failed (since_of state) given.now wanted.now) }
{
    let mut desk = Desk { room: out, at: 0 };
    bytes_failed(&mut desk, since_of(state), given, wanted);
    desk.at
}

// How many events and expectations a script had.
#[unsafe(no_mangle)]
pub extern "C" fn nib_say_script(events: usize, expected: usize, out: &mut [u8]) -> usize
    ensures { Says out.old out.new result (script_words events expected) }
{
    let mut desk = Desk { room: out, at: 0 };
    script_words(&mut desk, events, expected);
    desk.at
}

// How many of its expectations failed.
#[unsafe(no_mangle)]
pub extern "C" fn nib_say_failed(failed: usize, expected: usize, out: &mut [u8]) -> usize
    ensures { Says out.old out.new result (failed_words failed expected) }
{
    let mut desk = Desk { room: out, at: 0 };
    failed_words(&mut desk, failed, expected);
    desk.at
}
