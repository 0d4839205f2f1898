// `nib jobs`: a trace told as whole jobs, and what is none.
#![tactic(auto)]

use nib_files::files::read_input;
use nib_files::part::Array;
use nib_print::pen::{Pen, To, Told};
use nib_text::reading::up;
use nib_told::lines::line_at;
use nib_told::words::line_words;
use std::io::Read;
use target::Geometry;

// Line by line: the number of its first record, counted from 1, and what it is. The loop ends with the lines, or with a write that failed.
fn tell_lines(rt: HostRuntime, part: Option<Geometry>, trace: &[u8]) {
    let mut pen = Pen::new(rt, To::Output);
    let mut at = 0;
    for _ in 0..u64::MAX {
        let Some(line) = line_at(trace, at) else {
            break;
        };
        pen.ranked(up(at));
        pen.text(b"  ");
        pen.words(|desk| line_words(desk, part, Some(line)));
        pen.end_line();
        at = line.next;
        if !pen.is_good() {
            break;
        }
    }
    pen.flush();
}

fn read_trace<'a, R: Read>(
    rt: HostRuntime,
    input: &mut R,
    trace: &'a mut Array,
) -> Result<&'a [u8], Told> {
    read_input(
        rt,
        input,
        trace,
        b": a trace of more than ",
        b" bytes; python3 -m nibtoggle jobs has no such limit\n",
    )
}

// `nib jobs`, by the sizes of a part where one is known. The trace is held in what is lent.
#[inline(never)]
pub fn tell_jobs<R: Read>(
    rt: HostRuntime,
    part: Option<Geometry>,
    input: &mut R,
    trace: &mut Array,
) -> Result<(), Told> {
    let held = read_trace(rt, input, trace)?;
    tell_lines(rt, part, held);
    Ok(())
}
