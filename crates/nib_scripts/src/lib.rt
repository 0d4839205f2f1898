// `nib test`: a text is run on a folder's part, and what it expects is looked at on the way.
#![tactic(auto)]

use nib_args::May;
use nib_expect::words::{bytes_failed, failed_words, ok_words, refusal_words, script_words};
use nib_expect::{Since, after, bytes_hold, gives, nothing, ok_holds, refusal_holds};
use nib_files::files::read_input;
use nib_files::part::{Buffers, refuse};
use nib_print::bytes::Bytes;
use nib_print::pen::{Pen, To, Told, front};
use nib_text::reading::{Said, Spot, spot_begun, up};
use nib_translate::texts::{JobRoom, Step, Text, look_at};
use nib_words::desk::Desk;
use std::io::Read;
use target::Target;

// As much text as is held, beside a part's buffers.
pub type Whole = [u8; 262144];

// The bytes that came, and those of a list that is expected, each of two digits and a blank in such a text: of those that came one
// more than a list can have is room enough, see `Decides` in nib_expect.
pub type List = Bytes<87383>;

// How far a script has come.
#[derive(Clone, Copy)]
pub struct Script {
    rt: HostRuntime,
    target: Target,
    // how many events and expectations have come, and how many of these failed
    events: usize,
    expected: usize,
    failed: usize,
    // what was answered since the last expectation, the bytes that came, and those that are expected so far
    since: Since,
    given: List,
    wanted: List,
    // where the list of expected bytes begins
    list: Spot,
    // the first byte of a record that is not whole yet
    half: Option<u8>,
}

// The line on standard error that names an expectation that failed, in the words that `say` writes.
fn tell<F: FnOnce(&mut Desk)>(rt: HostRuntime, at: Spot, say: F)
    requires { F.IsAlwaysCallable say }
{
    let mut pen = Pen::new(rt, To::Errors);
    pen.with_number(b"nib: standard input, line ", at.line);
    pen.with_number(b", place ", at.start);
    pen.text(b": ");
    pen.words(say);
    pen.end_line();
    pen.flush();
}

impl Script {
    pub fn new(rt: HostRuntime, target: Target) -> Script {
        Script {
            rt,
            target,
            events: 0,
            expected: 0,
            failed: 0,
            since: nothing(),
            given: Bytes::new(),
            wanted: Bytes::new(),
            list: spot_begun(),
            half: None,
        }
    }

    // After an expectation, which held or did not.
    fn settle(&mut self, held: bool) {
        if !held {
            self.failed = up(self.failed);
        }
        self.expected = up(self.expected);
        self.since = nothing();
        self.given.clear();
        self.wanted.clear();
    }

    // `ok`.
    fn judge_ok(&mut self, at: Spot) {
        let since = self.since;
        let held = ok_holds(since);
        if !held {
            tell(self.rt, at, |desk| ok_words(desk, since));
        }
        self.settle(held);
    }

    // `!` and a number.
    fn judge_refusal(&mut self, refusal: u8, at: Spot) {
        let since = self.since;
        let last = self.events;
        let held = refusal_holds(since, refusal);
        if !held {
            tell(
                self.rt,
                at,
                |desk| refusal_words(desk, since, last, refusal),
            );
        }
        self.settle(held);
    }

    // `=` and bytes.
    fn judge_bytes(&mut self) {
        let since = self.since;
        let given = self.given.as_slice();
        let wanted = self.wanted.as_slice();
        let held = bytes_hold(since, given, wanted);
        if !held {
            tell(
                self.rt,
                self.list,
                |desk| bytes_failed(desk, since, given, wanted),
            );
        }
        self.settle(held);
    }

    // A byte more of the list that is expected, whose first one says where the list is.
    fn expect(&mut self, b: u8, at: Spot) {
        if self.wanted.as_slice().is_empty() {
            self.list = at;
        }
        self.wanted.push(b);
    }

    // A whole record, or the odd last byte, is run.
    fn event(&mut self, records: &[u8], part: &mut Buffers<'_>) {
        let mut room = [0u8; 2];
        self.target = part.run(self.target, records, &mut room);
        self.events = up(self.events);
        self.since = after(self.since, self.events, room[0], room[1]);
        if gives(room[0]) {
            self.given.push(room[1]);
        }
    }

    // A byte of the trace.
    fn byte(&mut self, b: u8, part: &mut Buffers<'_>) {
        match self.half {
            None => self.half = Some(b),
            Some(kind) => {
                self.half = None;
                self.event(&[kind, b], part);
            }
        }
    }

    fn bytes(&mut self, records: &[u8], part: &mut Buffers<'_>) {
        for &b in records {
            self.byte(b, part);
        }
    }

    // What a byte of the text says: events are run, and what is expected is kept or looked at. `ok` comes after the job and the
    // list that end with the byte.
    fn hear(&mut self, step: Step, jobs: &mut JobRoom<'_>, part: &mut Buffers<'_>) {
        match step.said {
            Said::Record { kind, value } => self.bytes(&[kind, value], part),
            Said::Byte(b) => self.byte(b, part),
            Said::Outs(n) => {
                for _ in 0..n {
                    self.bytes(&[3, 0], part);
                }
            }
            Said::Expected(b) => self.expect(b, step.spot),
            Said::Refused(n) => self.judge_refusal(n, step.spot),
            _ => {}
        }
        let n = jobs.write(step.job);
        self.bytes(front(&*jobs.records, n), part);
        if step.listed {
            self.judge_bytes();
        }
        if matches!(step.said, Said::Accepted) {
            self.judge_ok(step.spot);
        }
    }

    // The whole text, the line end that is read after it, and the odd last byte, where there is one.
    fn text(
        &mut self,
        text: &mut Text,
        whole: &[u8],
        jobs: &mut JobRoom<'_>,
        part: &mut Buffers<'_>,
    ) -> Result<(), Told> {
        for &b in whole {
            let step = text.step(self.rt, b, jobs)?;
            self.hear(step, jobs, part);
        }
        let step = text.step(self.rt, b'\n', jobs)?;
        self.hear(step, jobs, part);
        if let Some(kind) = self.half {
            self.half = None;
            self.event(&[kind], part);
        }
        Ok(())
    }

    // How many events and expectations there were, and where an expectation failed the last line on standard error, by which
    // tools/nib gives its status. An error, where one failed or nobody could be told that all held.
    #[inline(never)]
    fn end(&self) -> Result<(), Told> {
        let mut pen = Pen::new(self.rt, To::Output);
        let events = self.events;
        let expected = self.expected;
        let failed = self.failed;
        pen.words(|desk| script_words(desk, events, expected));
        pen.end_line();
        pen.flush();
        if 0 < failed {
            let mut pen = Pen::new(self.rt, To::Errors);
            pen.text(b"nib: ");
            pen.words(|desk| failed_words(desk, failed, expected));
            pen.end_line();
            pen.flush();
            return Err(Told);
        }
        if pen.is_good() { Ok(()) } else { Err(Told) }
    }
}

fn read_script<'a, R: Read>(
    rt: HostRuntime,
    input: &mut R,
    whole: &'a mut Whole,
) -> Result<&'a [u8], Told> {
    read_input(
        rt,
        input,
        whole,
        b": a script of more than ",
        b" bytes; python3 -m nibtoggle test has no such limit\n",
    )
}

// A text that is looked at whole before its first event is run.
fn run_script<R: Read>(
    rt: HostRuntime,
    target: Target,
    input: &mut R,
    part: &mut Buffers<'_>,
) -> Result<(), Told> {
    let mut room = [0u8; 262144];
    let whole = read_script(rt, input, &mut room)?;
    let shape = Some(target.geometry);
    let mut records = [0u8; 700014];
    let mut jobs = JobRoom::new(&mut records);
    look_at(rt, shape, whole, &mut jobs)?;
    let mut text = Text::new(shape);
    let mut script = Script::new(rt, target);
    script.text(&mut text, whole, &mut jobs, part)?;
    script.end()
}

// `nib test`. What was powered, read whole, run and found as expected is stored, and by a command that may store alone.
#[inline(never)]
pub fn test_folder<R: Read>(
    rt: HostRuntime,
    dir: &[u8],
    may: May,
    input: &mut R,
    part: &mut Buffers<'_>,
) -> Result<(), Told> {
    part.load(rt, dir)?;
    let target = part.power().map_err(|e| refuse(rt, dir, e.why))?;
    run_script(rt, target, input, part)?;
    if may.store {
        part.store(rt, dir);
    }
    Ok(())
}
