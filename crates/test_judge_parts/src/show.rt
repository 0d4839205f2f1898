// Writing: the lines, and with -t what happens on the way to one.
use crate::state::State;
use crate::tally::Tally;

// With -t, one line for each thing that happens, and the digest after it.
pub fn show(rt: HostRuntime, g: &State, what: &str, numbers: [usize; 4]) {
    if g.shown {
        let [a, b, c, d] = numbers;
        let _ = println!(rt; "{} {what} {a} {b} {c} {d} {}", g.number, g.tally.first);
    }
}

fn put_counts(rt: HostRuntime, counts: &[usize]) {
    for n in counts {
        let _ = print!(rt; " {n}");
    }
}

// Refusals 1 to 14 and 16.
fn put_refused(rt: HostRuntime, tally: &Tally) {
    put_counts(rt, &tally.refused[1..15]);
    put_counts(rt, &tally.refused[16..17]);
}

// Power-on: 0, and 20 to 25.
fn put_powered(rt: HostRuntime, tally: &Tally) {
    put_counts(rt, &tally.refused[..1]);
    put_counts(rt, &tally.refused[20..]);
}

pub fn print_heading(rt: HostRuntime) {
    let _ = println!(rt;
        "# part kind events digest digest  refused 1-14 16  accepted 0-5  (part 22: power-on 0 20-25)"
    );
}

pub fn print_line(rt: HostRuntime, tally: &Tally, part: usize, kind: usize) {
    let _ = print!(rt;
        "{part} {kind} {} {} {} ",
        tally.events, tally.first, tally.second
    );
    put_refused(rt, tally);
    let _ = print!(rt; " ");
    put_counts(rt, &tally.accepted);
    if part == 22 {
        let _ = print!(rt; " ");
        put_powered(rt, tally);
    }
    let _ = println!(rt);
}

pub fn print_totals(rt: HostRuntime, total: &Tally) {
    let _ = println!(rt;
        "total events {} digest {} {}",
        total.events, total.first, total.second
    );
    let _ = print!(rt; "refused 1-14 16:");
    put_refused(rt, total);
    let _ = print!(rt; "\naccepted command address in out finish protect:");
    put_counts(rt, &total.accepted);
    let _ = print!(rt; "\npower-on 0 20-25:");
    put_powered(rt, total);
    let _ = println!(rt;
        "\nspoiled events with another reply than due: {}",
        total.surprises
    );
}
