// Writing lines.
use std::io::Write;

pub fn text(rt: HostRuntime, s: &[u8]) {
    let _ = rt.stdout().write_all(s);
}

pub fn labelled(rt: HostRuntime, label: &[u8], n: usize) {
    text(rt, label);
    let _ = print!(rt; "{n}");
}

// Four hex digits.
pub fn hexed(rt: HostRuntime, label: &[u8], n: usize) {
    text(rt, label);
    let _ = print!(rt; "{n:04x}");
}

pub fn line(rt: HostRuntime, label: &[u8], n: usize) {
    labelled(rt, label, n);
    text(rt, b"\n");
}
