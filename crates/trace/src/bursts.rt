// Many data cycles in a row: while a program takes data or a page register is put out, the bytes and the replies are moved in one
// tight loop, and the record is brought up to date once at its end. `trace::run` promises the same as without.
ghost use Rattle.std.specs.Prelude.{◌≡◌, true, false, ◌&&◌, ◌||◌, ◌+◌, ◌*◌, ◌≤◌, ◌<◌, length, get_or, eqb, ltb};
ghost use Rattle.target.specs.Luns.{works};
ghost use Rattle.target.specs.Place.{is_bare};
ghost use Rattle.target.specs.declared.Sequence.TheVariants as sequence;
ghost use Rattle.target.specs.declared.Output.TheVariants as output;
ghost use Rattle.target.specs.Sizes.{page_size};
ghost use Rattle.step.specs.Usable.{record_sound};
ghost use Rattle.trace.specs.Data.{is_data, AllData, filling, giving, Taking, taken_in, given_out, CarriesOn};

use crate::put_reply;
use slices::{byte_at, put_part};
use target::address::lun_of;
use target::place::is_bare;
use target::records::works;
use target::sizes::page_size;
use target::{Column, Decoder, Fill, Output, Reply, Sequence, Target};

// Record `j` is a data-out cycle, or a data-in cycle.
fn is_data(out: bool, records: &[u8], j: usize) -> bool
    requires { 2 * j + 1 < length records.now }
    ensures { result ≡ is_data out records.now j }
{
    if out {
        records[2 * j] == 3 && records[2 * j + 1] == 0
    } else {
        records[2 * j] == 2
    }
}

// How many of the `most` records from `i` on are data cycles, up to the first that is not.
fn data_run(out: bool, records: &[u8], i: usize, most: usize) -> usize
    requires { 2 * (i + most) ≤ length records.now }
    ensures upper_bound { result ≤ most }
    ensures all_data { AllData out records.now i result }
{
    for k in 0..most {
        if !is_data(out, records, i + k) {
            return k;
        }
    }
    most
}

// The bytes of `k` data-in cycles into the register that starts at `base`, and their replies.
fn take_in(
    page: usize,
    base: usize,
    records: &[u8],
    i: usize,
    at: usize,
    k: usize,
    registers: &mut [u8],
    room: &mut [u8],
)
    requires page_in_bounds { base + page ≤ length registers.old }
    requires k_bound { (at + k ≤ page) × (2 * (i + k) ≤ length records.now) × (length records.now ≤ length room.old) }
    ensures { ◌≡◌ {A = Taking}
        (record { registers = registers.new; room = room.new })
        (taken_in page base records.now i at k (record { registers = registers.old; room = room.old })) }
{
    for j in 0..k {
        put_part(registers, base, page, at + j, records[2 * (i + j) + 1]);
        put_reply(room, i + j, Reply::Accepted);
    }
}

// The replies of `k` data-out cycles, from byte `from` of the registers on.
fn give_out(registers: &[u8], i: usize, from: usize, k: usize, room: &mut [u8])
    requires { (from + k ≤ length registers.now) × (2 * (i + k) ≤ length room.old) }
    ensures { room.new ≡ given_out registers.now i from k room.old }
{
    for j in 0..k {
        put_reply(room, i + j, Reply::Byte(registers[from + j]));
    }
}

fn with_place(t: Target, fill: Fill, at: usize) -> Target
    ensures { result ≡ filling t fill at }
{
    let sequence = Sequence::Filling(Fill {
        at: Column(at),
        ..fill
    });
    let decoder = Decoder {
        sequence,
        ..t.decoder
    };
    Target { decoder, ..t }
}

fn with_output(t: Target, lun: usize, at: usize) -> Target
    ensures { result ≡ giving t lun at }
{
    let output = Output::Register {
        lun,
        column: Column(at),
    };
    let decoder = Decoder {
        output,
        ..t.decoder
    };
    Target { decoder, ..t }
}

// How many records were run, and the record of the target after them.
#[derive(Clone, Copy)]
pub struct Carry {
    pub target: Target,
    pub count: usize,
}

// Data into a program. Not one function with `give_burst`: this writes the registers from the records, and that only reads them.
fn fill_burst(
    t: Target,
    fill: Fill,
    i: usize,
    records: &[u8],
    room: &mut [u8],
    registers: &mut [u8],
) -> Carry
    requires sound { (record_sound t ≡ true) × (length registers.old ≡ t.geometry.luns * page_size t.geometry) }
    requires seen_value { (t.seen ≡ true) × (t.decoder.sequence ≡ sequence.Filling fill) }
    requires i_in_bounds { (2 * i ≤ length records.now) × (length records.now ≤ length room.old) }
    ensures { CarriesOn records.now t i registers.old room.old result.target (i + result.count) registers.new room.new }
{
    let at = fill.at.0;
    let l = lun_of(t.geometry, fill.row);
    let p = page_size(t.geometry);
    let most = (records.len() / 2 - i).min(p - at);
    let k = data_run(false, records, i, most);
    take_in(p, l * p, records, i, at, k, registers, room);
    Carry {
        target: with_place(t, fill, at + k),
        count: k,
    }
}

// Data out of a page register.
fn give_burst(
    t: Target,
    lun: usize,
    column: Column,
    i: usize,
    records: &[u8],
    room: &mut [u8],
    registers: &[u8],
) -> Carry
    requires sound { (record_sound t ≡ true) × (length registers.now ≡ t.geometry.luns * page_size t.geometry) }
    requires seen_value { (t.seen ≡ true) × (t.decoder.output ≡ output.Register lun column) × (works t.luns lun ≡ false) × (is_bare t.decoder.sequence ≡ false) }
    requires i_in_bounds { (2 * i ≤ length records.now) × (length records.now ≤ length room.old) }
    ensures { CarriesOn records.now t i registers.now room.old result.target (i + result.count) registers.now room.new }
{
    let p = page_size(t.geometry);
    let most = (records.len() / 2 - i).min(p - column.0);
    let k = data_run(true, records, i, most);
    give_out(registers, i, lun * p + column.0, k, room);
    Carry {
        target: with_output(t, lun, column.0 + k),
        count: k,
    }
}

// As many records from `i` on as go without looking at the record of the target at each: none, where no data comes.
pub fn burst(t: Target, i: usize, records: &[u8], room: &mut [u8], registers: &mut [u8]) -> Carry
    requires sound { (record_sound t ≡ true) × (length registers.old ≡ t.geometry.luns * page_size t.geometry) }
    requires i_in_bounds { (2 * i ≤ length records.now) × (length records.now ≤ length room.old) }
    ensures { CarriesOn records.now t i registers.old room.old result.target (i + result.count) registers.new room.new }
{
    if t.seen {
        if let Sequence::Filling(fill) = t.decoder.sequence {
            return fill_burst(t, fill, i, records, room, registers);
        }
        if let Output::Register { lun, column } = t.decoder.output {
            // after a bare 00h the kept output comes out, not this one
            if !works(t.luns, lun) && !is_bare(t.decoder.sequence) {
                return give_burst(t, lun, column, i, records, room, registers);
            }
        }
    }
    Carry {
        target: t,
        count: 0,
    }
}

// Record `i` is data, or might be.
pub fn may_burst(records: &[u8], i: usize) -> bool
    requires { 2 * i ≤ length records.now }
    ensures { result ≡ (eqb (get_or records.now (2 * i) 0) 2 || eqb (get_or records.now (2 * i) 0) 3) }
{
    let kind = byte_at(records, 2 * i);
    kind == 2 || kind == 3
}
