// A trace from text, and back as text.
use jobs::Job;
use jobs::writing::write;
use nib_files::files::read_input;
use nib_files::part::NO_SIZES;
use nib_places::{Values, job_of, no_values, on_part, stored};
use nib_print::bytes::Bytes;
use nib_print::input::printable;
use nib_print::pen::{Pen, To, Told, failed, front};
use nib_speech::pieces::{piece_words, reason};
use nib_speech::states::wrong_number;
use nib_text::job_words::Asks;
use nib_text::reading::{
    Reading, Said, Spot, begun, is_gap, is_wrong, next, spot_begun, spot_next,
};
use nib_text::writing::{Piece, writing_begun, wrote_end, wrote_next, wrote_odd};
use std::io::Read;
use target::Geometry;

// As many records as a job in a text that is held can have; lent, so that they are not copied on the stack.
pub type Records = [u8; 700014];

// Room for a job: a program's bytes, each of two digits and a blank in a text that is held, and the job's records. Rooms of fixed
// size, since there is no heap.
#[derive(Drop)]
pub struct JobRoom<'a> {
    data: Bytes<350000>,
    pub records: &'a mut Records,
}

impl<'a> JobRoom<'a> {
    pub fn new(records: &'a mut Records) -> JobRoom<'a> {
        JobRoom {
            data: Bytes::new(),
            records,
        }
    }

    // A program's bytes are kept; a job's first value is its LUN.
    fn keep(&mut self, of: Option<Asks>, number: usize) {
        match of {
            Some(Asks::Lun) => self.data.clear(),
            Some(Asks::Byte) => self.data.push((number % 256) as u8),
            _ => {}
        }
    }

    // A job's records, by the writer, and how many bytes they are. On a part's place it is not too wide, and the room is not too
    // small.
    pub fn write(&mut self, named: Option<Job>) -> usize {
        let records = &mut *self.records;
        match named {
            Some(job) => match write(job, self.data.as_slice(), records) {
                Ok(n) => n,
                Err(_) => 0,
            },
            None => 0,
        }
    }
}

// How far a text has come.
#[derive(Clone, Copy)]
pub struct Text {
    reading: Reading,
    spot: Spot,
    // as much of the last word as an error shows
    word: Bytes<32>,
    // the part's sizes, and the values of the job that is read
    geometry: Geometry,
    values: Values,
}

// What one byte of a text says, where it stands, the job that ends with it, and whether a list of expected bytes does.
#[derive(Clone, Copy)]
pub struct Step {
    pub said: Said,
    pub spot: Spot,
    pub job: Option<Job>,
    pub listed: bool,
}

// The line on standard error that names a bad word.
fn tell_wrong(rt: HostRuntime, line: usize, place: usize, word: &[u8], said: Said) -> Told {
    let mut pen = Pen::new(rt, To::Errors);
    pen.with_number(b"nib: standard input, line ", line);
    pen.with_number(b", place ", place);
    pen.text(b": '");
    pen.text(word);
    pen.text(b"': ");
    if let Said::Wrong(why) = said {
        pen.words(|desk| reason(desk, wrong_number(why)));
    }
    pen.end_line();
    pen.flush();
    Told
}

impl Text {
    // Jobs are taken where a part is known.
    pub fn new(part: Option<Geometry>) -> Text {
        Text {
            reading: begun(part.is_some()),
            spot: spot_begun(),
            word: Bytes::new(),
            geometry: part.unwrap_or(NO_SIZES),
            values: no_values(),
        }
    }

    // A byte of a word is kept.
    fn keep(&mut self, b: u8) {
        if self.reading.comment || is_gap(b) {
            return;
        }
        if self.reading.word.length == 0 {
            self.word.clear();
        }
        self.word.push(printable(b));
    }

    // One byte more. A bad word is told of, and ends the text.
    pub fn step(&mut self, rt: HostRuntime, b: u8, jobs: &mut JobRoom<'_>) -> Result<Step, Told> {
        self.keep(b);
        let before = self.spot;
        self.spot = spot_next(before, self.reading, b);
        let read = next(self.reading, b);
        self.reading = read.reading;
        let said = on_part(self.geometry, read.said);
        if is_wrong(said) {
            let word = self.word.as_slice();
            return Err(tell_wrong(rt, before.line, self.spot.start, word, said));
        }
        if let Said::Value { of, number } = said {
            self.values = stored(self.values, of, number);
            jobs.keep(of, number);
        }
        Ok(Step {
            said,
            spot: before,
            job: job_of(self.geometry, read.whole, self.values),
            listed: read.listed,
        })
    }
}

// Whether every word of a text is good, with the line end that is read after it; a bad one is told of.
pub fn look_at(
    rt: HostRuntime,
    part: Option<Geometry>,
    whole: &[u8],
    jobs: &mut JobRoom<'_>,
) -> Result<(), Told> {
    let mut text = Text::new(part);
    for &b in whole {
        text.step(rt, b, jobs)?;
    }
    text.step(rt, b'\n', jobs)?;
    Ok(())
}

// What a byte of text adds to the trace. What is expected is no part of it.
fn add(pen: &mut Pen, step: Step, jobs: &mut JobRoom<'_>) {
    match step.said {
        Said::Record { kind, value } => {
            pen.put(kind);
            pen.put(value);
        }
        Said::Byte(b) => pen.put(b),
        Said::Outs(n) => {
            for _ in 0..n {
                pen.put(3);
                pen.put(0);
            }
        }
        _ => {}
    }
    let n = jobs.write(step.job);
    pen.text(front(&*jobs.records, n));
}

// A text that was looked at, as a trace.
fn write_trace(
    rt: HostRuntime,
    part: Option<Geometry>,
    whole: &[u8],
    jobs: &mut JobRoom<'_>,
) -> Result<(), Told> {
    let mut pen = Pen::new(rt, To::Output);
    let mut text = Text::new(part);
    for &b in whole {
        let step = text.step(rt, b, jobs)?;
        add(&mut pen, step, jobs);
    }
    let step = text.step(rt, b'\n', jobs)?;
    add(&mut pen, step, jobs);
    pen.flush();
    Ok(())
}

// As much text as is held.
pub type Whole = [u8; 1048576];

fn read_text<'a, R: Read>(
    rt: HostRuntime,
    input: &mut R,
    whole: &'a mut Whole,
) -> Result<&'a [u8], Told> {
    read_input(
        rt,
        input,
        whole,
        b": a text of more than ",
        b" bytes; python3 -m nibtoggle text has no such limit\n",
    )
}

// `nib text`. The whole text is looked at before a record is written: where a word is bad there is no trace, so that none is
// run in part.
#[inline(never)]
pub fn from_text<R: Read>(
    rt: HostRuntime,
    part: Option<Geometry>,
    input: &mut R,
) -> Result<(), Told> {
    let mut room = [0u8; 1048576];
    let whole = read_text(rt, input, &mut room)?;
    let mut records = [0u8; 700014];
    let mut jobs = JobRoom::new(&mut records);
    look_at(rt, part, whole, &mut jobs)?;
    write_trace(rt, part, whole, &mut jobs)
}

fn put_piece(pen: &mut Pen, piece: Piece) {
    pen.words(|desk| piece_words(desk, piece));
}

// `nib text -d`. The loop ends with the input, which has no length to count to.
#[inline(never)]
pub fn to_text<R: Read>(rt: HostRuntime, input: &mut R) -> Result<(), Told> {
    let mut pen = Pen::new(rt, To::Output);
    let mut writing = writing_begun();
    for _ in 0..u64::MAX {
        let mut chunk = [0u8; 4096];
        match input.read(&mut chunk) {
            Err(e) => return Err(failed(rt, b"standard input", &e)),
            Ok(0) => {
                let wrote = wrote_odd(writing);
                put_piece(&mut pen, wrote.piece);
                put_piece(&mut pen, wrote_end(wrote.writing));
                pen.flush();
                break;
            }
            Ok(n) => {
                for &b in &chunk[..n] {
                    let wrote = wrote_next(writing, b);
                    writing = wrote.writing;
                    put_piece(&mut pen, wrote.piece);
                }
                pen.flush();
            }
        }
        if !pen.is_good() {
            break;
        }
    }
    Ok(())
}
