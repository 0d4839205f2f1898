// A trace as it comes, byte by byte: its replies as they are, or in words.
use nib_args::May;
use nib_explain::fold::{Held, Run, carried, goes_out, held_next, joins, run_of};
use nib_explain::tally::{Tally, tally};
use nib_explain::words::{row_at, run_reply, run_words, status_reply, tally_words};
use nib_files::part::{Buffers, refuse};
use nib_print::bytes::Bytes;
use nib_print::pen::{Pen, To, Told, failed};
use nib_print::say::lun_meant;
use nib_text::reading::up;
use power::NotPowered;
use std::io::Read;
use target::commands::place_of;
use target::place::{is_open, put_out, shows_status};
use target::views::{Given, completed};
use target::{Event, Target};

// The first bytes of a run, which its line shows.
pub type Shown = Bytes<16>;

// How a trace's replies are given.
#[derive(Clone, Copy)]
pub enum Telling {
    // as two bytes
    Replies,
    // in words, data in a row in one line
    Folded,
    // in words, each event in a line of its own
    Each,
}

// How far a trace has come.
#[derive(Clone, Copy)]
pub struct Stream {
    target: Target,
    pub pen: Pen,
    how: Telling,
    // how many records have come
    number: usize,
    // the first byte of a record that is not whole yet
    half: Option<u8>,
    // what is held back of a run of data, its first bytes, and the number of its first record
    held: Held,
    shown: Shown,
    begun: usize,
    tally: Tally,
}

fn nothing_held() -> Held {
    Held {
        run: None,
        byte: 0,
        count: 0,
    }
}

impl Stream {
    pub fn new(target: Target, pen: Pen, how: Telling) -> Stream {
        Stream {
            target,
            pen,
            how,
            number: 0,
            half: None,
            held: nothing_held(),
            shown: Bytes::new(),
            begun: 0,
            tally: [0; 17],
        }
    }

    // A whole row, after the address cycle that completes it.
    fn row_words(&mut self, e: Event) {
        if e.kind != 1 {
            return;
        }
        let t = self.target;
        if let Some(Given::Row(k)) = completed(t.decoder.sequence, e.value) {
            let first = place_of(k.first);
            self.pen.text(b"  ");
            self.pen
                .words(|desk| row_at(desk, first, t.geometry, k.row.0));
        }
    }

    fn answer(&mut self, e: Event, room: [u8; 2]) {
        let t = self.target;
        if room[0] == 1 && shows_status(put_out(t.decoder)) {
            self.pen.words(|desk| status_reply(desk, room[1]));
        } else {
            self.pen.reply(room[0], room[1], lun_meant(t, e));
        }
    }

    // A line: the record's number, the event, the answer.
    fn line(&mut self, odd: bool, e: Event, room: [u8; 2]) {
        let inside = is_open(self.target.decoder.sequence);
        self.pen.ranked(self.number);
        self.pen.text(b"  ");
        self.pen.event(odd, e.kind, e.value, inside);
        if !odd {
            self.row_words(e);
        }
        self.pen.pad(43);
        self.answer(e, room);
        self.pen.end_line();
    }

    // What is held back goes out, as one line: the number of the run's first record, its cycles, their replies.
    fn let_out(&mut self) {
        let held = self.held;
        let bytes = self.shown.as_slice();
        self.pen.ranked(self.begun);
        self.pen.text(b"  ");
        self.pen.words(|desk| run_words(desk, held, bytes));
        self.pen.pad(43);
        self.pen.words(|desk| run_reply(desk, held, bytes));
        self.pen.end_line();
        self.held = nothing_held();
    }

    // What is held back after a cycle of a run.
    fn hold(&mut self, run: Option<Run>, b: u8) {
        if !joins(self.held, run, b) {
            self.begun = self.number;
            self.shown.clear();
        }
        self.shown.push(b);
        self.held = held_next(self.held, run, b);
    }

    // An event in words: at once, or held back as a cycle of a run. What was held back before it and doesn't go on goes out first.
    fn explained(&mut self, odd: bool, e: Event, room: [u8; 2]) {
        let status = shows_status(put_out(self.target.decoder));
        let run = match self.how {
            Telling::Folded => run_of(e.kind, room[0], status),
            _ => None,
        };
        let b = carried(e.kind, e.value, room[1]);
        if goes_out(self.held, run, b) {
            self.let_out();
        }
        tally(&mut self.tally, room[0], room[1]);
        if run.is_none() {
            self.line(odd, e, room);
        } else {
            self.hold(run, b);
        }
    }

    // A whole record, or the odd last byte, and its reply. An event is told by the target that it comes to.
    fn record(&mut self, records: &[u8], odd: bool, e: Event, part: &mut Buffers<'_>) {
        let mut room = [0u8; 2];
        let next = part.run(self.target, records, &mut room);
        self.number = up(self.number);
        match self.how {
            Telling::Replies => self.pen.text(&room),
            _ => self.explained(odd, e, room),
        }
        self.target = next;
    }

    fn byte(&mut self, b: u8, part: &mut Buffers<'_>) {
        match self.half {
            None => self.half = Some(b),
            Some(kind) => {
                self.half = None;
                self.record(&[kind, b], false, Event { kind, value: b }, part);
            }
        }
    }

    pub fn bytes(&mut self, chunk: &[u8], part: &mut Buffers<'_>) {
        for &b in chunk {
            self.byte(b, part);
        }
    }

    // The odd last byte, where there is one.
    fn odd_byte(&mut self, part: &mut Buffers<'_>) {
        if let Some(kind) = self.half {
            self.half = None;
            self.record(&[kind], true, Event { kind, value: 0 }, part);
        }
    }

    // What is held back goes out.
    fn drain(&mut self) {
        if 0 < self.held.count {
            self.let_out();
        }
    }

    // The end of a trace that is told in words: what is held back, and the tally.
    fn end(&mut self) {
        if matches!(self.how, Telling::Replies) {
            return;
        }
        self.drain();
        let events = self.number;
        let counts = self.tally;
        self.pen.words(|desk| tally_words(desk, events, &counts));
        self.pen.end_line();
    }

    // The trace of an input, what it has at hand at a time. An error, where not all of it was read, or not every reply written.
    // Not one loop with `nib_translate::texts::to_text`: what each does with an error and at the end is all of it. It ends with the input,
    // which has no length to count to.
    fn input<R: Read>(
        &mut self,
        rt: HostRuntime,
        input: &mut R,
        part: &mut Buffers<'_>,
    ) -> Result<(), Told> {
        for _ in 0..u64::MAX {
            let mut chunk = [0u8; 4096];
            match input.read(&mut chunk) {
                Err(e) => {
                    self.drain();
                    self.pen.flush();
                    return Err(failed(rt, b"standard input", &e));
                }
                Ok(0) => {
                    self.odd_byte(part);
                    self.end();
                    self.pen.flush();
                    break;
                }
                Ok(n) => {
                    self.bytes(&chunk[..n], part);
                    self.pen.flush();
                }
            }
            if !self.pen.is_good() {
                break;
            }
        }
        if self.pen.is_good() {
            Ok(())
        } else {
            Err(Told)
        }
    }
}

// Power-on told in words. Whether they were written.
fn tell_power(rt: HostRuntime, on: Result<Target, NotPowered>) -> bool {
    let mut pen = Pen::new(rt, To::Output);
    pen.text(b"power-on ");
    match on {
        Ok(_) => pen.text(b"accepted"),
        Err(e) => pen.power_sentence(e.why),
    }
    pen.end_line();
    pen.flush();
    pen.is_good()
}

// Power-on, told in words; where replies are bytes, only a refused one is told, as an error, and the trace is not run.
fn powered(
    rt: HostRuntime,
    dir: &[u8],
    how: Telling,
    part: &mut Buffers<'_>,
) -> Result<Target, Told> {
    let on = part.power();
    if matches!(how, Telling::Replies) {
        return on.map_err(|e| refuse(rt, dir, e.why));
    }
    if !tell_power(rt, on) {
        return Err(Told);
    }
    match on {
        Ok(target) => Ok(target),
        Err(e) => Ok(e.target),
    }
}

// `nib run` and, in words, `nib explain`. Only what was powered, read to its end and answered whole is stored, and by a command
// that may store alone.
#[inline(never)]
pub fn on_folder<R: Read>(
    rt: HostRuntime,
    dir: &[u8],
    may: May,
    how: Telling,
    input: &mut R,
    part: &mut Buffers<'_>,
) -> Result<(), Told> {
    part.load(rt, dir)?;
    let target = powered(rt, dir, how, part)?;
    let mut stream = Stream::new(target, Pen::new(rt, To::Output), how);
    stream.input(rt, input, part)?;
    if may.store {
        part.store(rt, dir);
    }
    Ok(())
}
