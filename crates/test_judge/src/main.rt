// The generator of judge/generate.c, run over the proved target. It makes the same traces by the same random numbers,
// and writes the same lines; the file `stdout` has those of the plain C model. SEED and COUNT may be given, and before
// them -t PART KIND: then only that line, with what happens on the way.
#![tactic(auto)]

use std::env::Env;
use std::ops::Range;
use test_judge_lines::cases::{PowerKind, run_power_line};
use test_judge_lines::lines::run_line;
use test_judge_parts::knobs::TraceKind;
use test_judge_parts::show::{print_heading, print_line, print_totals};
use test_judge_parts::state::State;
use test_judge_parts::tally::Tally;
use test_judge_runs::Bench;
use test_kit::numbers::{add, sub, times, wide};

// The decimal number that a text begins with.
fn value(s: &[u8]) -> usize {
    s.iter()
        .take_while(|b| b.is_ascii_digit())
        .fold(0, |n, b| add(times(n, 10), sub(wide(*b), 48)))
}

// Argument number 'i', or 'other' where there is none.
fn argument(rt: HostRuntime, i: usize, other: usize) -> usize {
    let mut text = [0u8; 32];
    match rt.arg(i, &mut text) {
        Ok(0) | Err(_) => other,
        Ok(n) => value(&text[..n]),
    }
}

fn is_shown(rt: HostRuntime) -> bool {
    let mut text = [0u8; 32];
    match rt.arg(1, &mut text) {
        Ok(n) => &text[..n] == b"-t".as_slice(),
        Err(_) => false,
    }
}

fn one_line(
    rt: HostRuntime,
    total: &mut Tally,
    shown: bool,
    seed: usize,
    count: usize,
    line: usize,
    bench: &mut Bench,
) {
    let mut g = State::new(shown, seed, line);
    let part = line / 17;
    let kind = line % 17;
    if part < 22 {
        run_line(rt, &mut g, count, part, TraceKind::ALL[kind], bench);
    } else {
        run_power_line(rt, &mut g, count, PowerKind::of(kind), bench);
    }
    print_line(rt, &g.tally, part, kind);
    total.add(&g.tally);
}

fn all_lines(
    rt: HostRuntime,
    shown: bool,
    seed: usize,
    count: usize,
    lines: Range<usize>,
) -> Tally {
    let mut total = Tally::new();
    let mut bench = Bench::new();
    for line in lines {
        one_line(rt, &mut total, shown, seed, count, line, &mut bench);
    }
    total
}

fn main(rt: HostRuntime) {
    if is_shown(rt) {
        let line = add(times(argument(rt, 2, 0), 17), argument(rt, 3, 0));
        let seed = argument(rt, 4, 1);
        let count = argument(rt, 5, 1);
        all_lines(rt, true, seed, count, line..add(line, 1));
    } else {
        print_heading(rt);
        let seed = argument(rt, 1, 1);
        let count = argument(rt, 2, 1);
        let total = all_lines(rt, false, seed, count, 0..378);
        print_totals(rt, &total);
    }
}
