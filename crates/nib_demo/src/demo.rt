// `nib demo`: two stations save a preset at once, on part T1 in memory, with program-clear on and then off.
use nib_files::part::{Buffers, T1_ID, refuse};
use nib_print::pen::{Pen, To, Told};
use nib_run::running::{Stream, Telling};

// A scene: its heading, and its records one by one.
fn scene(s: &mut Stream, heading: &[u8], records: &[u8], part: &mut Buffers<'_>) {
    s.pen.text(heading);
    s.bytes(records, part);
}

fn scenes(s: &mut Stream, clear: bool, part: &mut Buffers<'_>) {
    // reset
    scene(s, b"\nThe part is powered, and reset.\n", &[0, 255], part);
    // feature 01h, program-clear on; it stays off where this is left out
    if clear {
        scene(
            s,
            b"\nFeature 01h: program-clear on.\n",
            &[0, 239, 1, 1, 2, 64, 2, 0, 2, 0, 2, 0],
            part,
        );
    }
    // A programs 3Ch A5h at the start of row 0, of LUN 0
    scene(
        s,
        b"\nStation A saves its preset, 3Ch A5h, in LUN 0.\n",
        &[0, 128, 1, 0, 1, 0, 1, 0, 1, 0, 1, 0, 2, 60, 2, 165, 0, 16],
        part,
    );
    // B programs C3h at column 7 of row 32, of LUN 1
    scene(
        s,
        b"\nWhile LUN 0 works, station B saves its own, C3h at column 7, in LUN 1.\n",
        &[
            0, 128, 1, 0, 1, 0, 1, 32, 1, 0, 1, 0, 0, 133, 1, 7, 1, 0, 2, 195, 0, 16,
        ],
        part,
    );
    // A asks for B's register
    scene(
        s,
        b"\nA asks for B's register too early.\n",
        &[0, 6, 1, 0, 1, 0, 1, 32, 1, 0, 1, 0],
        part,
    );
    // the finish of LUN 0
    scene(s, b"\nLUN 0 comes to its end.\n", &[4, 0], part);
    // A reads its register
    scene(
        s,
        b"\nA reads its register again, to compare.\n",
        &[0, 6, 1, 0, 1, 0, 1, 0, 1, 0, 1, 0, 0, 224, 3, 0, 3, 0],
        part,
    );
    // the finish of LUN 1, and its status
    scene(
        s,
        b"\nLUN 1 comes to its end, and B asks for its status.\n",
        &[4, 1, 0, 120, 1, 32, 1, 0, 1, 0, 3, 0],
        part,
    );
}

fn two_bytes(pen: &mut Pen, words: &[u8], a: u8, b: u8) {
    pen.text(words);
    pen.byte(a);
    pen.put(b' ');
    pen.byte(b);
    pen.end_line();
}

// What each preset holds at the end: row 0 is the array's first page, row 32 lies 16,896 bytes on.
fn presets(pen: &mut Pen, part: &Buffers<'_>) {
    let registers = &part.registers;
    let array = &*part.array;
    two_bytes(pen, b"\nA's register   ", registers[0], registers[1]);
    two_bytes(pen, b"A's preset     ", array[0], array[1]);
    two_bytes(pen, b"B's preset     ", array[16903], array[16904]);
    pen.flush();
}

// On a part just powered.
fn telling(rt: HostRuntime, pen: Pen, clear: bool, part: &mut Buffers<'_>) -> Result<Pen, Told> {
    part.plan(rt, b"T1", T1_ID)?;
    part.array.fill(0xff);
    part.counts.fill(0);
    let target = part.power().map_err(|e| refuse(rt, b"T1", e.why))?;
    let mut s = Stream::new(target, pen, Telling::Each);
    scenes(&mut s, clear, part);
    presets(&mut s.pen, part);
    Ok(s.pen)
}

#[inline(never)]
pub fn tell(rt: HostRuntime, part: &mut Buffers<'_>) -> Result<(), Told> {
    let mut pen = Pen::new(rt, To::Output);
    pen.text(b"== Program-clear on: 80h clears the register of the LUN that it names.\n");
    let mut pen = telling(rt, pen, true, part)?;
    pen.text(b"\n== Program-clear off: 80h clears every register.\n");
    telling(rt, pen, false, part)?;
    Ok(())
}
