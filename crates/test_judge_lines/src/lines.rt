// Lines: all traces of one part and one kind.
use power::unpowered;
use test_judge_parts::buffers::Buffers;
use test_judge_parts::knobs::TraceKind;
use test_judge_parts::parts::{fill_buffers, make_page};
use test_judge_parts::show::show;
use test_judge_parts::state::State;
use test_judge_runs::Bench;
use test_judge_traces::traces::make_trace;
use test_kit::numbers::{byte, count, set, times};

// The first `n` bytes, each at most `most`.
fn mend(bytes: &mut [u8], n: usize, most: u8) {
    for b in bytes.iter_mut().take(n) {
        *b = (*b).min(most);
    }
}

fn change_one(g: &mut State, b: &mut Buffers) {
    let at = g.below(g.lengths.counts);
    set(&mut b.counts, at, g.below(256));
    let at = g.below(g.lengths.flags);
    let bad = g.below(2);
    set(&mut b.flags, at, times(bad, g.below(256)));
}

// What power-on looked at may hold anything later.
fn change_contents(g: &mut State, kind: TraceKind, b: &mut Buffers) {
    match kind {
        TraceKind::Features | TraceKind::Long => g.fill_random(&mut b.page[..256]),
        TraceKind::Counts => {
            for _ in 0..4 {
                change_one(g, b);
            }
        }
        _ => {}
    }
}

// A part's first record, its counts and flags as power-on wants them.
fn power_up(rt: HostRuntime, g: &mut State, kind: TraceKind, bench: &mut Bench) {
    let b = &mut bench.buffers;
    mend(&mut b.counts, g.lengths.counts, byte(g.part.programs));
    mend(&mut b.flags, g.lengths.flags, 1);
    make_page(g, &mut b.page);
    let answer = bench.power_on(g);
    g.tally
        .absorb_front(&bench.buffers.registers, g.lengths.registers);
    show(rt, g, "power", [answer, 0, 0, 0]);
    bench.absorb_blanks(rt, g);
    g.busy = [false; 4];
    g.selected = 0;
    change_contents(g, kind, &mut bench.buffers);
}

// Trace number 'i' of a line.
fn one_trace(rt: HostRuntime, g: &mut State, kind: TraceKind, i: usize, bench: &mut Bench) {
    let fresh = g.chance(3) || i == 0 || kind == TraceKind::Early;
    g.number = i;
    if fresh {
        power_up(rt, g, kind, bench);
    }
    make_trace(g, kind as usize, fresh);
    bench.run_trace(rt, g);
    bench.absorb_buffers(g);
    show(rt, g, "buffers", [0; 4]);
}

pub fn run_line(
    rt: HostRuntime,
    g: &mut State,
    count: usize,
    part: usize,
    kind: TraceKind,
    bench: &mut Bench,
) {
    bench.target = unpowered();
    bench.buffers.page.fill(0);
    g.load_part(part);
    g.load_knobs(kind as usize);
    fill_buffers(g, &mut bench.buffers);
    for i in 0..times(g.knobs.traces, count) {
        one_trace(rt, g, kind, i, bench);
    }
}
