// nib, the bench at the command line: all of the program, so that it and the programs that try its commands are one call each. Each
// command's own work stands in a crate of its own: nib_run, nib_demo, nib_look, nib_page, nib_check, nib_translate, nib_scripts,
// nib_jobs.
#![tactic(auto)]

pub mod known;

use known::{is_maker_s, show_parts, show_version, too_large};
use nib_args::{Asked, allowed, asked_of, is_word};
use nib_check::show_check;
use nib_demo::demo::tell;
use nib_files::part::{Buffers, T1_ID, geometry_in, page_in, to_t2, to_w};
use nib_jobs::tell_jobs;
use nib_look::diff::diff;
use nib_look::dump::dump;
use nib_page::pages::show_page;
use nib_print::pen::{Pen, To, Told, front};
use nib_run::running::{Telling, on_folder};
use nib_scripts::test_folder;
use nib_translate::texts::{from_text, to_text};
use std::env::{Env, FillError};
use std::io::{Read, Write};

fn usage(rt: HostRuntime, to: To) {
    let mut pen = Pen::new(rt, to);
    pen.text(
        b"\
        \x20 nib demo                   two stations save at once, told in words; needs no file\n\
        \x20 nib new DIR [PART]         makes a part folder: part T1, one of `parts`, or the part of a page in a file\n\
        \x20 nib parts                  the parts that have a name\n\
        \x20 nib run DIR < TRACE        replies on standard output; the folder is brought up to date\n\
        \x20 nib explain [-v] DIR < TRACE  the same in words; with -v each event on a line; the folder stays as it is\n\
        \x20 nib dump DIR LUN BLOCK PAGE   a page of the array; the folder stays as it is\n\
        \x20 nib diff DIR DIR           where two parts differ; status 3 if they do\n\
        \x20 nib test DIR < TEXT        runs a text and what it expects, as: = 3c a5  ! 5  ok;\
        \x20stored if all held, status 3 if not\n\
        \x20 nib page FILE or DIR       what a parameter page says, and power-on's answer; of a folder its blank blocks too\n\
        \x20 nib check FILE             which rules a part's answer to ECh breaks: 768 bytes, its page three times\n\
        \x20 nib text < TEXT > TRACE    a trace from text, as: c 80  a 00 00 37 00 00  d 3c  o 16  f 1  p 0\n\
        \x20 nib text DIR < TEXT        with whole jobs too, on the folder's part, as: program 1 5 3 0\
        \x203c a5  f 1  erase 1 5\n\
        \x20 nib text -d < TRACE        a trace as text\n\
        \x20 nib jobs [DIR] < TRACE     a trace told as whole jobs; with DIR by LUN, block and page of its part\n\
        \x20 nib version                the version\n\
        \x20 nib help                   these lines\n",
    );
    pen.flush();
}

// The words that nib is given, from the second on. A word that is not there is empty.
#[derive(Clone, Copy)]
pub struct Words<'a> {
    pub second: &'a [u8],
    pub third: &'a [u8],
    pub fourth: &'a [u8],
    pub fifth: &'a [u8],
}

// The part of a new folder, by name, or of the page in a file. The page that is lent is T1's. A page does not say its part's device
// ID: it is 0 until the folder's owner puts another.
fn plan_part(rt: HostRuntime, name: &[u8], part: &mut Buffers<'_>) -> Result<(), Told> {
    if is_maker_s(name) {
        return Err(too_large(rt, name));
    }
    if is_word(name, b"T1") {
        return part.plan(rt, name, T1_ID);
    }
    if is_word(name, b"T2") {
        to_t2(&mut part.page);
        return part.plan(rt, name, T1_ID);
    }
    if is_word(name, b"W") {
        to_w(&mut part.page);
        return part.plan(rt, name, T1_ID);
    }
    page_in(rt, name, &mut part.page)?;
    part.plan(rt, name, 0)
}

// `new`.
#[inline(never)]
fn make_new(
    rt: HostRuntime,
    asked: Asked,
    words: Words<'_>,
    part: &mut Buffers<'_>,
) -> Result<(), Told> {
    let name: &[u8] = match asked {
        Asked::NewFrom => words.third,
        _ => b"T1",
    };
    plan_part(rt, name, part)?;
    if allowed(Some(asked)).make {
        part.make(rt, words.second)?;
    }
    Ok(())
}

// The commands that have a part, or need as much room, over its buffers. None is put in the place of its call (`inline(never)`
// where it stands), since the stack would then have the locals of all. `jobs` has its trace where a part's array would stand.
fn with_part<R: Read>(
    rt: HostRuntime,
    asked: Asked,
    words: Words<'_>,
    input: &mut R,
    part: &mut Buffers<'_>,
) -> Result<(), Told> {
    let dir = words.second;
    let may = allowed(Some(asked));
    match asked {
        Asked::New | Asked::NewFrom => make_new(rt, asked, words, part),
        Asked::Run => on_folder(rt, dir, may, Telling::Replies, input, part),
        Asked::Explain => on_folder(rt, dir, may, Telling::Folded, input, part),
        Asked::ExplainEach => on_folder(rt, words.third, may, Telling::Each, input, part),
        Asked::Test => test_folder(rt, dir, may, input, part),
        Asked::Dump => dump(rt, dir, words.third, words.fourth, words.fifth, part),
        Asked::Diff => diff(rt, dir, words.third, part),
        Asked::Page => show_page(rt, dir, part),
        Asked::Jobs => tell_jobs(rt, None, input, &mut *part.array),
        Asked::JobsOn => {
            let geometry = geometry_in(rt, dir)?;
            tell_jobs(rt, Some(geometry), input, &mut *part.array)
        }
        _ => tell(rt, part),
    }
}

// The buffers of a part stand here alone, and this is called in one place, since the stack has no room for two sets.
#[inline(never)]
fn on_part<R: Read>(
    rt: HostRuntime,
    asked: Asked,
    words: Words<'_>,
    input: &mut R,
) -> Result<(), Told> {
    let mut array = [0xff; 4194304];
    let mut part = Buffers::new(&mut array);
    with_part(rt, asked, words, input, &mut part)
}

// One command, with the words after it, over an input that is open. Where it stops, a line on standard error has said why.
pub fn act<R: Read>(
    rt: HostRuntime,
    asked: Option<Asked>,
    words: Words<'_>,
    input: &mut R,
) -> Result<(), Told> {
    match asked {
        Some(Asked::Text) => from_text(rt, None, input),
        Some(Asked::TextOn) => {
            let geometry = geometry_in(rt, words.second)?;
            from_text(rt, Some(geometry), input)
        }
        Some(Asked::Back) => to_text(rt, input),
        Some(Asked::Check) => {
            show_check(rt, words.second);
            Ok(())
        }
        Some(Asked::Parts) => {
            show_parts(rt);
            Ok(())
        }
        Some(Asked::Version) => {
            show_version(rt);
            Ok(())
        }
        Some(Asked::Help) => {
            usage(rt, To::Output);
            Ok(())
        }
        Some(asked) => on_part(rt, asked, words, input),
        None => {
            let _ = rt.stderr().write_all(b"nib: no such call; these are:\n");
            usage(rt, To::Errors);
            Err(Told)
        }
    }
}

// An argument. Of one that is too long there is as much as makes a path that is refused in its own words.
fn argument(rt: HostRuntime, i: usize, room: &mut [u8]) -> &[u8] {
    let n = match rt.arg(i, room) {
        Ok(n) => n,
        Err(FillError::NotPresent) => 0,
        Err(FillError::TooLong) => 4096,
    };
    front(room, n)
}

// How many arguments there are, of the first seven; a word may be empty.
fn argument_count(rt: HostRuntime) -> usize {
    let mut word = [0u8; 4096];
    let mut n = 0;
    for i in 0..7usize {
        match rt.arg(i, &mut word) {
            Ok(_) | Err(FillError::TooLong) => n = i + 1,
            Err(FillError::NotPresent) => {}
        }
    }
    n
}

// The program.
pub fn nib(rt: HostRuntime) {
    let mut first = [0u8; 4096];
    let mut second = [0u8; 4096];
    let mut third = [0u8; 4096];
    let mut fourth = [0u8; 4096];
    let mut fifth = [0u8; 4096];
    let command = argument(rt, 1, &mut first);
    let words = Words {
        second: argument(rt, 2, &mut second),
        third: argument(rt, 3, &mut third),
        fourth: argument(rt, 4, &mut fourth),
        fifth: argument(rt, 5, &mut fifth),
    };
    let asked = asked_of(argument_count(rt), command, words.second, words.third);
    // tools/nib makes the exit status, by what was said on standard error
    let _ = act(rt, asked, words, &mut rt.stdin());
}
