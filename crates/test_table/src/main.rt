// Runs the table 'state × event → answer' that tools/expect/cases.py writes, and its cases, over the proved model, and compares every
// answer. The table's form stands in tools/expect/cases.py.
#![tactic(auto)]

use test_kit::files::load;
use test_table_model::bench::Bench;
use test_table_read::reading::Reader;
use test_table_read::tally::Tally;

// A table by its characters.
fn run(rt: HostRuntime, table: &[u8], bench: &mut Bench, reader: &mut Reader, tally: &mut Tally) {
    for &c in table {
        if let Some(word) = reader.take(rt, tally, c) {
            bench.take(rt, tally, &word);
        }
    }
}

fn show(rt: HostRuntime, tally: &Tally) {
    let lines = [
        ("states", tally.states),
        ("cells", tally.cells),
        ("cases", tally.cases),
        ("power-ons compared", tally.power_ons),
        ("byte traces compared", tally.runs),
        ("replies compared", tally.replies),
        (
            "bytes of array, registers, counts and reply rooms compared",
            tally.bytes,
        ),
        ("refused cells found to change no byte", tally.kept),
        ("expectations wrong on purpose and found so", tally.found),
        ("mismatches", tally.mismatches),
    ];
    for (what, n) in lines {
        let _ = println!(rt; "{what} {n}");
    }
}

fn main(rt: HostRuntime) {
    let mut text = [0u8; 524288];
    let mut reader = Reader::new();
    let mut tally = Tally::new();
    let mut bench = Bench::new();
    // the second file's lines are counted on from the first's
    for path in [b"table".as_slice(), b"table2"] {
        let size = load(rt, path, &mut text);
        bench.begin_file();
        run(rt, &text[..size], &mut bench, &mut reader, &mut tally);
    }
    show(rt, &tally);
}
