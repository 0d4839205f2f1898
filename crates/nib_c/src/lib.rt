// The archive for C, Python and Rust hosts: each exported function of host and nib_speech, under its name and with its clauses.
// Written by tools/make_c_crate.py.
#![tactic(auto)]

ghost use Rattle.std.specs.Prelude.{◌≡◌, length, not, eqb};
ghost use Rattle.host.specs.Image.{HostEvent, event_on, HostTrace, trace_on, HostPower, power_with, rest_on};
ghost use Rattle.jobs.specs.Numbers.{NumberedWrite, numbered_write, named_job, NumberedRead, numbered_read, misfit_number};
ghost use Rattle.nib_expect.specs.Words.{ok_words, refusal_words, bytes_failed, script_words, failed_words};
ghost use Rattle.nib_explain.specs.Tally.{tallied};
ghost use Rattle.nib_explain.specs.Words.{row_at, status_words, tally_words};
ghost use Rattle.nib_places.specs.Places.{row_of};
ghost use Rattle.nib_speech.specs.Expects.{expect_next, expect_ok, expect_refusal, expect_bytes, since_of};
ghost use Rattle.nib_speech.specs.Folds.{fold_next, fold_goes, run_said, reply_said};
ghost use Rattle.nib_speech.specs.Pieces.{back_words, end_words, line_said, reason_words};
ghost use Rattle.nib_speech.specs.Speech.{version_number, text_next, text_said, text_job, text_listed, said_on, sizes, text_begins, back_next, Says};
ghost use Rattle.nib_told.specs.Lines.{next_place};
ghost use Rattle.nib_words.specs.Say.{event_words, reply_words, rule_words};
ghost use Rattle.page_check.specs.Report.{Reported, report_of};

use host::Image;

// One event on a record that the host lends: the first reply byte times 256, and the second.
#[unsafe(no_mangle)]
pub extern "C" fn nib_event(
    t: &mut Image,
    kind: u8,
    value: u8,
    page: &[u8],
    array: &mut [u8],
    registers: &mut [u8],
    counts: &mut [u8],
    flags: &[u8],
) -> u32
    ensures { ◌≡◌ {A = HostEvent}
        (record { answer = result; image = t.new; buffers = record { array = array.new; registers = registers.new; counts = counts.new } })
        (event_on t.old kind value page.now (record { array = array.old; registers = registers.old; counts = counts.old }) flags.now) }
{
    host::nib_event(t, kind, value, page, array, registers, counts, flags)
}

// A byte trace: 0, or 16 where the room for replies is too short.
#[unsafe(no_mangle)]
pub extern "C" fn nib_trace(
    t: &mut Image,
    records: &[u8],
    replies: &mut [u8],
    page: &[u8],
    array: &mut [u8],
    registers: &mut [u8],
    counts: &mut [u8],
    flags: &[u8],
) -> u32
    ensures { ◌≡◌ {A = HostTrace}
        (record { answer = result; image = t.new; buffers = record { array = array.new; registers = registers.new; counts = counts.new }; room = replies.new })
        (trace_on t.old records.now replies.old page.now (record { array = array.old; registers = registers.old; counts = counts.old }) flags.now) }
{
    host::nib_trace(t, records, replies, page, array, registers, counts, flags)
}

// Power-on: 0, or 20 to 25. What the record held before is not looked at.
#[unsafe(no_mangle)]
pub extern "C" fn nib_power_on(
    t: &mut Image,
    page: &[u8],
    device: u8,
    array: &[u8],
    registers: &mut [u8],
    counts: &[u8],
    flags: &[u8],
) -> u32
    ensures { ◌≡◌ {A = HostPower}
        (record { answer = result; image = t.new; registers = registers.new })
        (power_with page.now device array.now registers.old counts.now flags.now) }
{
    host::nib_power_on(t, page, device, array, registers, counts, flags)
}

// Where the unread rest of the output lies: the buffer (0 none, 1 the registers, 2 the parameter page) times 2^60, where it
// starts times 2^30, and how long it is.
#[unsafe(no_mangle)]
pub extern "C" fn nib_rest(t: &Image, page: &[u8], registers: &[u8]) -> u64
    ensures { result ≡ rest_on t.now (length page.now) (length registers.now) }
{
    host::nib_rest(t, page, registers)
}

// 0 with the report in the first nine numbers; or why there is none, and the numbers stay: 1 another length than 768, 2 no good
// copy, 16 room for fewer than nine.
#[unsafe(no_mangle)]
pub extern "C" fn nib_page_report(answer: &[u8], report: &mut [u64]) -> u32
    ensures { ◌≡◌ {A = Reported} (record { answer = result; room = report.new }) (report_of answer.now report.old) }
{
    host::checks::nib_page_report(answer, report)
}

// The records of a job: 0 no such job, 1 too wide, 2 too small a room, else how many bytes of the room they are.
#[unsafe(no_mangle)]
pub extern "C" fn nib_job_write(
    kind: u8,
    column: usize,
    row: usize,
    count: usize,
    bytes: &[u8],
    room: &mut [u8],
) -> usize
    ensures { ◌≡◌ {A = NumberedWrite}
        (record { answer = result; room = room.new })
        (numbered_write (named_job kind column row count) bytes.now room.old) }
{
    host::whole_jobs::nib_job_write(kind, column, row, count, bytes, room)
}

// The six numbers of what stands at a place of a list of records; answers the first of them, or 7 where there is no room.
#[unsafe(no_mangle)]
pub extern "C" fn nib_job_read(records: &[u8], at: usize, numbers: &mut [usize]) -> usize
    ensures { ◌≡◌ {A = NumberedRead}
        (record { answer = result; numbers = numbers.new })
        (numbered_read records.now at numbers.old) }
{
    host::whole_jobs::nib_job_read(records, at, numbers)
}

// The first record of a list that doesn't fit.
#[unsafe(no_mangle)]
pub extern "C" fn nib_job_misfit(records: &[u8]) -> usize
    ensures { result ≡ misfit_number records.now }
{
    host::whole_jobs::nib_job_misfit(records)
}

#[unsafe(no_mangle)]
pub extern "C" fn nib_version() -> u32
    ensures { result ≡ version_number }
{
    nib_speech::nib_version()
}

// What has been read after one byte more of a text.
#[unsafe(no_mangle)]
pub extern "C" fn nib_text_next(state: u64, byte: u8) -> u64
    ensures { result ≡ text_next state byte }
{
    nib_speech::nib_text_next(state, byte)
}

// What that byte adds to the trace: what it is times 65,536, and the value. 0 nothing; 1 a record, its kind times 256 and its
// value; 2 a byte as it is; 3 so many data outs; 4 a bad word, and which of the reasons 1 to 14; 5 to 9 a job's LUN, block, page,
// column and count; 10 a byte of a program. What it expects adds nothing: 11 `ok`, after the job and the list that end with the
// byte; 12 a byte of a list; 13 a refusal.
#[unsafe(no_mangle)]
pub extern "C" fn nib_text_said(state: u64, byte: u8) -> u64
    ensures { result ≡ text_said state byte }
{
    nib_speech::nib_text_said(state, byte)
}

// The job that ends with that byte, 1 to 5, with what it adds as the job's last value; 0 for none. It means nothing where the
// word is bad.
#[unsafe(no_mangle)]
pub extern "C" fn nib_text_job(state: u64, byte: u8) -> u8
    ensures { result ≡ text_job state byte }
{
    nib_speech::nib_text_job(state, byte)
}

// 1 where a list of expected bytes ends with that byte, with what it says as the list's last; 0 elsewhere. It means nothing where
// the word is bad.
#[unsafe(no_mangle)]
pub extern "C" fn nib_text_listed(state: u64, byte: u8) -> u8
    ensures { result ≡ text_listed state byte }
{
    nib_speech::nib_text_listed(state, byte)
}

// What a byte adds, on a part: a bad word where it is a value of a job that the part has not.
#[unsafe(no_mangle)]
pub extern "C" fn nib_text_on_part(
    said: u64,
    luns: usize,
    blocks: usize,
    pages: usize,
    columns: u16,
) -> u64
    ensures { result ≡ said_on said (sizes luns blocks pages columns) }
{
    nib_speech::nib_text_on_part(said, luns, blocks, pages, columns)
}

// The row of a page; 16,777,216, which is too wide, where the part has no such page.
#[unsafe(no_mangle)]
pub extern "C" fn nib_row_number(
    luns: usize,
    blocks: usize,
    pages: usize,
    lun: usize,
    block: usize,
    page: usize,
) -> usize
    ensures { result ≡ row_of (sizes luns blocks pages 0) lun block page }
{
    nib_speech::nib_row_number(luns, blocks, pages, lun, block, page)
}

// 1 where that byte begins a word.
#[unsafe(no_mangle)]
pub extern "C" fn nib_text_begins(state: u64, byte: u8) -> u8
    ensures { result ≡ text_begins state byte }
{
    nib_speech::nib_text_begins(state, byte)
}

// What has been written after one byte more of a trace.
#[unsafe(no_mangle)]
pub extern "C" fn nib_back_next(state: u64, byte: u8) -> u64
    ensures { result ≡ back_next state byte }
{
    nib_speech::nib_back_next(state, byte)
}

// The text of that byte onto `out`, as much of it as there is room for; how many bytes. 64 are room enough.
#[unsafe(no_mangle)]
pub extern "C" fn nib_back_text(state: u64, byte: u8, out: &mut [u8]) -> usize
    ensures { Says out.old out.new result (back_words state byte) }
{
    nib_speech::nib_back_text(state, byte, out)
}

// The text of a trace's end.
#[unsafe(no_mangle)]
pub extern "C" fn nib_back_end(state: u64, out: &mut [u8]) -> usize
    ensures { Says out.old out.new result (end_words state) }
{
    nib_speech::nib_back_end(state, out)
}

// A record in words; where `odd` is not 0, its first byte alone; where `inside` is not 0, a sequence is open where it comes. 64 bytes
// are room enough.
#[unsafe(no_mangle)]
pub extern "C" fn nib_say_event(odd: u8, kind: u8, value: u8, inside: u8, out: &mut [u8]) -> usize
    ensures { Says out.old out.new result (event_words (not (eqb odd 0)) kind value (not (eqb inside 0))) }
{
    nib_speech::nib_say_event(odd, kind, value, inside, out)
}

// A reply in words, `lun` being the LUN that its event is about. 128 are room enough.
#[unsafe(no_mangle)]
pub extern "C" fn nib_say_reply(first: u8, second: u8, lun: usize, out: &mut [u8]) -> usize
    ensures { Says out.old out.new result (reply_words first second lun) }
{
    nib_speech::nib_say_reply(first, second, lun, out)
}

// The words of a refusal's rule; none where no rule has the number. 96 are room enough.
#[unsafe(no_mangle)]
pub extern "C" fn nib_say_rule(number: u8, out: &mut [u8]) -> usize
    ensures { Says out.old out.new result (rule_words number) }
{
    nib_speech::nib_say_rule(number, out)
}

// Where the next line of a trace that is told as jobs begins, of the line at a place; that place itself where the trace has no
// record there.
#[unsafe(no_mangle)]
pub extern "C" fn nib_line_next(records: &[u8], at: usize) -> usize
    ensures { result ≡ next_place records.now at }
{
    nib_speech::nib_line_next(records, at)
}

// That line in words, on a part; where `luns` is 0, with no part known. 128 are room enough.
#[unsafe(no_mangle)]
pub extern "C" fn nib_say_line(
    records: &[u8],
    at: usize,
    luns: usize,
    blocks: usize,
    pages: usize,
    columns: u16,
    out: &mut [u8],
) -> usize
    ensures { Says out.old out.new result (line_said records.now at (sizes luns blocks pages columns)) }
{
    nib_speech::nib_say_line(records, at, luns, blocks, pages, columns, out)
}

// The words of why a word of a text is bad, 1 to 14 as `nib_text_said` gives it; none for another number. 128 are room enough.
#[unsafe(no_mangle)]
pub extern "C" fn nib_say_wrong(which: u8, out: &mut [u8]) -> usize
    ensures { Says out.old out.new result (reason_words which) }
{
    nib_speech::nib_say_wrong(which, out)
}

// What has been answered after one event more: its number in the script, counted from 1, and its reply's two bytes.
#[unsafe(no_mangle)]
pub extern "C" fn nib_expect_next(state: u64, number: usize, first: u8, second: u8) -> u64
    ensures { result ≡ expect_next state number first second }
{
    nib_speech::expects::nib_expect_next(state, number, first, second)
}

// 1 where `ok` holds: none of the events since was refused.
#[unsafe(no_mangle)]
pub extern "C" fn nib_expect_ok(state: u64) -> u8
    ensures { result ≡ expect_ok state }
{
    nib_speech::expects::nib_expect_ok(state)
}

// 1 where `!` and a number holds: the last of them was refused so, and no other was.
#[unsafe(no_mangle)]
pub extern "C" fn nib_expect_refusal(state: u64, refusal: u8) -> u8
    ensures { result ≡ expect_refusal state refusal }
{
    nib_speech::expects::nib_expect_refusal(state, refusal)
}

// 1 where `=` and bytes holds: none of them was refused, and the bytes that came are those.
#[unsafe(no_mangle)]
pub extern "C" fn nib_expect_bytes(state: u64, given: &[u8], wanted: &[u8]) -> u8
    ensures { result ≡ expect_bytes state given.now wanted.now }
{
    nib_speech::expects::nib_expect_bytes(state, given, wanted)
}

// The words of an `ok` that failed.
#[unsafe(no_mangle)]
pub extern "C" fn nib_say_not_ok(state: u64, out: &mut [u8]) -> usize
    ensures { Says out.old out.new result (ok_words (since_of state)) }
{
    nib_speech::expects::nib_say_not_ok(state, out)
}

// The words of a refusal that was expected and did not come; `last` is the number of the last event.
#[unsafe(no_mangle)]
pub extern "C" fn nib_say_not_refusal(state: u64, last: usize, refusal: u8, out: &mut [u8]) -> usize
    ensures { Says out.old out.new result (refusal_words (since_of state) last refusal) }
{
    nib_speech::expects::nib_say_not_refusal(state, last, refusal, out)
}

// The words of bytes that were expected and did not come; of a long list its first 16.
#[unsafe(no_mangle)]
pub extern "C" fn nib_say_not_bytes(
    state: u64,
    given: &[u8],
    wanted: &[u8],
    out: &mut [u8],
) -> usize
    ensures { Says out.old out.new result (bytes_failed (since_of state) given.now wanted.now) }
{
    nib_speech::expects::nib_say_not_bytes(state, given, wanted, out)
}

// How many events and expectations a script had.
#[unsafe(no_mangle)]
pub extern "C" fn nib_say_script(events: usize, expected: usize, out: &mut [u8]) -> usize
    ensures { Says out.old out.new result (script_words events expected) }
{
    nib_speech::expects::nib_say_script(events, expected, out)
}

// How many of its expectations failed.
#[unsafe(no_mangle)]
pub extern "C" fn nib_say_failed(failed: usize, expected: usize, out: &mut [u8]) -> usize
    ensures { Says out.old out.new result (failed_words failed expected) }
{
    nib_speech::expects::nib_say_failed(failed, expected, out)
}

// What is held back after an event, by its kind, value and reply; where `status` is not 0, the output is a status when it comes.
#[unsafe(no_mangle)]
pub extern "C" fn nib_fold_next(
    state: u64,
    kind: u8,
    value: u8,
    first: u8,
    second: u8,
    status: u8,
) -> u64
    ensures { result ≡ fold_next state kind value first second status }
{
    nib_speech::folds::nib_fold_next(state, kind, value, first, second, status)
}

// 1 where what is held back goes out before that event is told.
#[unsafe(no_mangle)]
pub extern "C" fn nib_fold_goes(
    state: u64,
    kind: u8,
    value: u8,
    first: u8,
    second: u8,
    status: u8,
) -> u8
    ensures { result ≡ fold_goes state kind value first second status }
{
    nib_speech::folds::nib_fold_goes(state, kind, value, first, second, status)
}

// The cycles that are held back, in words; `bytes` are the first of their bytes.
#[unsafe(no_mangle)]
pub extern "C" fn nib_say_run(state: u64, bytes: &[u8], out: &mut [u8]) -> usize
    ensures { Says out.old out.new result (run_said state bytes.now) }
{
    nib_speech::folds::nib_say_run(state, bytes, out)
}

// Their replies.
#[unsafe(no_mangle)]
pub extern "C" fn nib_say_run_reply(state: u64, bytes: &[u8], out: &mut [u8]) -> usize
    ensures { Says out.old out.new result (reply_said state bytes.now) }
{
    nib_speech::folds::nib_say_run_reply(state, bytes, out)
}

// A row on a part, and as much of it as its command looks at; `first` is that command's place in the list.
#[unsafe(no_mangle)]
pub extern "C" fn nib_say_row(
    first: u8,
    row: usize,
    luns: usize,
    blocks: usize,
    pages: usize,
    out: &mut [u8],
) -> usize
    ensures { Says out.old out.new result (row_at first (sizes luns blocks pages 0) row) }
{
    nib_speech::folds::nib_say_row(first, row, luns, blocks, pages, out)
}

// A status byte in words.
#[unsafe(no_mangle)]
pub extern "C" fn nib_say_status(byte: u8, out: &mut [u8]) -> usize
    ensures { Says out.old out.new result (status_words byte) }
{
    nib_speech::folds::nib_say_status(byte, out)
}

// One reply more in the counts: number 0 is how many events were accepted, number n how many rule n refused.
#[unsafe(no_mangle)]
pub extern "C" fn nib_tally(counts: &mut [usize], first: u8, second: u8)
    ensures { counts.new ≡ tallied counts.old first second }
{
    nib_speech::folds::nib_tally(counts, first, second)
}

// The counts of so many events in words.
#[unsafe(no_mangle)]
pub extern "C" fn nib_say_tally(events: usize, counts: &[usize], out: &mut [u8]) -> usize
    ensures { Says out.old out.new result (tally_words events counts.now) }
{
    nib_speech::folds::nib_say_tally(events, counts, out)
}
