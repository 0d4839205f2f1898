// `nib check`: which rules the pages of an answer to ECh break.
#![tactic(auto)]

use nib_files::files::read_front;
use nib_print::pen::{Pen, To, complain, complain_of};
use page::fields::{data_bytes, lun_count, pages_a_block, programs_a_page};
use page_check::page_rules::multiplier;
use page_check::{Checked, Unchecked, check_answer};
use std::io::Write;

// A number as 75,000: a comma before every third digit from the end.
fn grouped(pen: &mut Pen, n: u64) {
    let mut digits = [0u8; 20];
    let k = io::decimal(n, &mut digits);
    for (i, &digit) in digits[..k].iter().enumerate() {
        if 0 < i && (k - i) % 3 == 0 {
            pen.put(b',');
        }
        pen.put(digit);
    }
}

fn copy_line(pen: &mut Pen, k: usize) {
    pen.label(b"copy");
    pen.number(k);
    match k {
        0 => {}
        1 => pen.text(b"  copy 0 has no good signature and CRC"),
        _ => pen.text(b"  copies 0 and 1 have no good signature and CRC"),
    }
    pen.end_line();
}

fn endurance_line(pen: &mut Pen, e: Option<u64>) {
    pen.label(b"block endurance");
    match e {
        Some(n) => grouped(pen, n),
        None => pen.text(b"not known: its multiplier is above 16"),
    }
    pen.end_line();
}

// What stands at a rule's byte, and what it should be.
fn rule_line(pen: &mut Pen, page: &[u8], rule: u8) {
    pen.with_number(b"byte ", rule as usize);
    pen.pad(18);
    let (name, n, should): (&'static [u8], usize, &'static [u8]) = match rule {
        80 => (
            b"data bytes ",
            data_bytes(page),
            b"a power of two, at least 512",
        ),
        92 => (b"pages a block ", pages_a_block(page), b"a multiple of 32"),
        100 => (b"LUNs ", lun_count(page), b"at least 1"),
        106 => (
            b"endurance multiplier ",
            multiplier(page) as usize,
            b"at most 16",
        ),
        _ => (b"programs a page ", programs_a_page(page), b"at least 1"),
    };
    pen.with_number(name, n);
    pen.text(b", should be ");
    pen.text(should);
    pen.end_line();
}

// The copy that was checked, 0 to 2.
fn told(rt: HostRuntime, c: Checked, page: &[u8]) {
    let mut pen = Pen::new(rt, To::Output);
    copy_line(&mut pen, c.copy);
    endurance_line(&mut pen, c.endurance);
    if c.broken.count == 0 {
        pen.label(b"broken rules");
        pen.text(b"none");
        pen.end_line();
    }
    for &rule in c.broken.bytes.iter().take(c.broken.count) {
        rule_line(&mut pen, page, rule);
    }
    pen.flush();
}

fn complain_of_length(rt: HostRuntime, path: &[u8], n: usize) {
    if n == 256 {
        let _ = complain(
            rt,
            path,
            b": one copy of a page, 256 bytes; a part answers ECh with three, and `nib page` shows one\n",
        );
        return;
    }
    let more: &'static [u8] = if n == 4096 { b" or more" } else { b"" };
    let _ = complain_of(rt, path, b": has ", n, more);
    let _ = rt.stderr().write_all(b" bytes, and an answer to ECh has 768: the page three times\n");
}

// `nib check`.
#[inline(never)]
pub fn show_check(rt: HostRuntime, path: &[u8]) {
    let mut room = [0u8; 4096];
    let Ok(answer) = read_front(rt, path, &mut room) else {
        return;
    };
    match check_answer(answer) {
        Err(Unchecked::Length) => complain_of_length(rt, path, answer.len()),
        Err(Unchecked::NoGoodCopy) => {
            let _ = complain(
                rt,
                path,
                b": no good copy: none of the three has good signature and CRC\n",
            );
        }
        Ok(c) => {
            let copies = answer.chunks(256);
            if let Some(page) = copies.skip(c.copy).next() {
                told(rt, c, page);
            }
        }
    }
}
