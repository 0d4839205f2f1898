// Events, replies and refusals in words: those of `nib_words`, on paper.
use crate::pen::Pen;
use power::PowerRefusal;
use target::address::lun_of;
use target::views::{Given, completed};
use target::{Event, Output, Target};

fn output_lun(o: Output, other: usize) -> usize {
    match o {
        Output::Register { lun, .. } | Output::Status { lun } => lun,
        _ => other,
    }
}

fn sequence_lun(t: Target, v: u8) -> usize {
    match completed(t.decoder.sequence, v) {
        Some(Given::Row(k)) => lun_of(t.geometry, k.row),
        _ => t.selected,
    }
}

// The LUN that a cycle which a working LUN refuses is about: that of the output, of the row that the cycle makes whole, or the
// selected one.
pub fn lun_meant(t: Target, e: Event) -> usize {
    if e.kind == 3 {
        output_lun(t.decoder.output, t.selected)
    } else {
        sequence_lun(t, e.value)
    }
}

impl Pen {
    // A record in words. One byte alone is an odd byte; `inside` says that a sequence is open where the record comes.
    pub fn event(&mut self, odd: bool, kind: u8, value: u8, inside: bool) {
        self.words(|desk| nib_words::say::event(desk, odd, kind, value, inside));
    }

    // A reply in words. `lun` is the LUN that the event is about, `lun_meant`.
    pub fn reply(&mut self, first: u8, second: u8, lun: usize) {
        self.words(|desk| nib_words::say::reply(desk, first, second, lun));
    }

    // A refused power-on in words.
    pub fn power_sentence(&mut self, why: PowerRefusal) {
        self.words(|desk| nib_words::say::refused(desk, why.number()));
    }
}
