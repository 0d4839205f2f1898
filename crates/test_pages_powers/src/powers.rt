// Power-on, and a line for what it answers and leaves.
use crate::parts::{Cells, Harm, Part, front, front_mut, make_page, put, wanted};
use power::{power_answer, power_number, power_on};
use target::Target;
use target::bits::{has_feature, has_option};
use target::sizes::page_size;
use test_kit::random::digest;

// Sizes, options, IDs and state of a target, and whether each LUN works, and its FAIL.
fn show_target(rt: HostRuntime, t: Target) {
    let g = t.geometry;
    let size = page_size(g);
    let _ = print!(rt;
        " sizes {size} {} {} {} {}",
        g.pages, g.blocks, g.luns, g.programs
    );
    // 78h, 06h, EEh and EFh, and program-clear
    let w = t.words;
    let _ = print!(rt;
        " options {} {}",
        has_option(w, 3) as u8,
        has_option(w, 6) as u8
    );
    let _ = print!(rt; " {} {}", has_option(w, 2) as u8, has_feature(w, 8) as u8);
    let _ = print!(rt; " ids {} {}", t.ids.maker, t.ids.device);
    let _ = print!(rt;
        " line {} clear {} seen {}",
        t.high as u8, t.clear as u8, t.seen as u8
    );
    let _ = print!(rt; " selected {} working", t.selected);
    for lun in t.luns {
        let _ = print!(rt; " {}", lun.working as u8);
    }
    let _ = print!(rt; " fail");
    for lun in t.luns {
        let _ = print!(rt; " {}", lun.fail as u8);
    }
}

// Lays out the lent memory of a case, powers on, and writes a line.
pub fn run(rt: HostRuntime, n: usize, p: Part, h: Harm) {
    let mut page = [0u8; 300];
    let mut array = [0u8; 300000];
    let mut registers = [0u8; 73728];
    let mut counts = [0u8; 16384];
    let mut flags = [0u8; 16384];
    let l = wanted(p, h);
    make_page(&mut page, p, h);
    Cells::Mixed(5).lay(front_mut(&mut array, l.array));
    Cells::Mixed(77).lay(front_mut(&mut registers, l.registers));
    Cells::Ramp(p.programs).lay(front_mut(&mut counts, l.counts));
    Cells::Ramp(1).lay(front_mut(&mut flags, l.flags));
    put(&mut counts, h.count);
    put(&mut flags, h.flag);
    let page = front(&page, h.length);
    let array = front(&array, l.array);
    let registers = front_mut(&mut registers, l.registers);
    let counts = front(&counts, l.counts);
    let flags = front(&flags, l.flags);
    let done = power_on(page, p.device, array, registers, counts, flags);
    let (answer, t) = match done {
        Ok(t) => (0, t),
        Err(refused) => (refused.why.number(), refused.target),
    };
    let _ = print!(rt; "power {n} answer {answer}");
    let _ = print!(rt; " page {} array {}", digest(page), digest(array));
    let _ = print!(rt; " registers {}", digest(registers));
    let _ = print!(rt; " counts {} flags {}", digest(counts), digest(flags));
    let _ = print!(rt; " powered {}", t.powered as u8);
    if t.powered {
        show_target(rt, t);
    }
    let _ = println!(rt);
}

// The answer alone, where the array and the registers are only lengths.
pub fn large(rt: HostRuntime, n: usize, p: Part, h: Harm) {
    let mut page = [0u8; 300];
    let mut counts = [0u8; 1048576];
    let mut flags = [0u8; 20480];
    large_on(rt, n, p, h, &mut page, &mut counts, &mut flags);
}

// Apart from where the counts are made: there the proof of a slice of so large an array doesn't close.
fn large_on(
    rt: HostRuntime,
    n: usize,
    p: Part,
    h: Harm,
    page: &mut [u8; 300],
    counts: &mut [u8; 1048576],
    flags: &mut [u8; 20480],
) {
    let l = wanted(p, h);
    Cells::Ramp(p.programs).lay(front_mut(counts, l.counts));
    Cells::Ramp(1).lay(front_mut(flags, l.flags));
    put(counts, h.count);
    make_page(page, p, h);
    let page = front(page, h.length);
    let counts = front(counts, l.counts);
    let flags = front(flags, l.flags);
    let answer = power_number(power_answer(page, l.array, l.registers, counts, flags));
    let _ = println!(rt;
        "large {n} answer {answer} page {} counts {} flags {}",
        digest(page),
        digest(counts),
        digest(flags)
    );
}
