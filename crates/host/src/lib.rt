// The model for hosts in C, Python or Rust. An exported function takes no enum, and a host may write any byte into memory that
// it owns, so the host's record is all plain numbers: it is unpacked, the proved model is asked, and the answer is packed.
// Numbers that no record packs to stand for a target that is not powered, and stay as they are.
#![tactic(auto)]

pub mod checks;
pub mod numbers;
pub mod whole_jobs;

ghost use Rattle.std.specs.Prelude.{◌≡◌, length};
ghost use Rattle.host.specs.Image.{cycles_in, place_in, kept_in, unpacked, packed, marks_good, good, Unpacks, taken, put_back, reply_number, HostEvent, event_on, HostTrace, trace_on, HostPower, power_with, source_number, rest_number, rest_on};

use numbers::{
    Cycles, Place, four_marks, same_cycles, same_place, to_luns, to_output, to_sequence,
};
use power::unpowered;
use target::{Decoder, Event, Geometry, Ids, Reply, Target, Words, reply_first, reply_second};
use trace::run_number;
use unread::{Source, Unread, unread_part};

// The record as a host holds it: `nib_target` of include/nibtoggle.h.
#[repr(C)]
#[derive(Clone, Copy)]
pub struct Image {
    pub data_bytes: u16,
    pub spare_bytes: u16,
    pub features: u16,
    pub optional_commands: u16,
    pub pages: usize,
    pub blocks: usize,
    pub luns: usize,
    pub programs: usize,
    pub selected: usize,
    pub column: usize,
    pub row: usize,
    pub output_lun: usize,
    pub output_at: usize,
    pub kept_lun: usize,
    pub kept_at: usize,
    pub powered: u8,
    pub high: u8,
    pub clear: u8,
    pub seen: u8,
    pub working: [u8; 4],
    pub fail: [u8; 4],
    pub maker: u8,
    pub device: u8,
    pub sequence: u8,
    pub first: u8,
    pub got: u8,
    pub low: u8,
    pub mid: u8,
    pub value: u8,
    pub output: u8,
    pub copyback: [u8; 4],
    pub kept: u8,
    pub blank: [u16; 4],
}

pub fn cycles_in(i: Image) -> Cycles
    ensures { result ≡ cycles_in i }
{
    Cycles {
        kind: i.sequence,
        first: i.first,
        got: i.got,
        low: i.low,
        mid: i.mid,
        value: i.value,
        column: i.column,
        row: i.row,
    }
}

pub fn place_in(i: Image) -> Place
    ensures { result ≡ place_in i }
{
    Place {
        kind: i.output,
        lun: i.output_lun,
        at: i.output_at,
    }
}

pub fn kept_in(i: Image) -> Place
    ensures { result ≡ kept_in i }
{
    Place {
        kind: i.kept,
        lun: i.kept_lun,
        at: i.kept_at,
    }
}

// The record that the numbers stand for; those that no record packs to are read as some record all the same.
pub fn unpack(i: Image) -> Target
    ensures { result ≡ unpacked i }
{
    Target {
        powered: i.powered == 1,
        geometry: Geometry {
            bytes: i.data_bytes,
            spare: i.spare_bytes,
            pages: i.pages,
            blocks: i.blocks,
            luns: i.luns,
            programs: i.programs,
        },
        words: Words {
            features: i.features,
            optional: i.optional_commands,
        },
        ids: Ids {
            maker: i.maker,
            device: i.device,
        },
        high: i.high == 1,
        clear: i.clear == 1,
        seen: i.seen == 1,
        selected: i.selected,
        luns: to_luns(i.working, i.fail, i.copyback, i.blank),
        decoder: Decoder {
            sequence: to_sequence(cycles_in(i)),
            output: to_output(place_in(i)),
            kept: to_output(kept_in(i)),
        },
    }
}

// The numbers of a record.
impl From<Target> for Image {
    ghost from_gives = { λ t i. i ≡ packed t };

    fn from(t: Target) -> Image {
        let c = Cycles::from(t.decoder.sequence);
        let p = Place::from(t.decoder.output);
        let k = Place::from(t.decoder.kept);
        let [l0, l1, l2, l3] = t.luns;
        Image {
            data_bytes: t.geometry.bytes,
            spare_bytes: t.geometry.spare,
            features: t.words.features,
            optional_commands: t.words.optional,
            pages: t.geometry.pages,
            blocks: t.geometry.blocks,
            luns: t.geometry.luns,
            programs: t.geometry.programs,
            selected: t.selected,
            column: c.column,
            row: c.row,
            output_lun: p.lun,
            output_at: p.at,
            kept_lun: k.lun,
            kept_at: k.at,
            powered: t.powered as u8,
            high: t.high as u8,
            clear: t.clear as u8,
            seen: t.seen as u8,
            working: [
                l0.working as u8,
                l1.working as u8,
                l2.working as u8,
                l3.working as u8,
            ],
            fail: [l0.fail as u8, l1.fail as u8, l2.fail as u8, l3.fail as u8],
            maker: t.ids.maker,
            device: t.ids.device,
            sequence: c.kind,
            first: c.first,
            got: c.got,
            low: c.low,
            mid: c.mid,
            value: c.value,
            output: p.kind,
            copyback: [
                l0.copyback as u8,
                l1.copyback as u8,
                l2.copyback as u8,
                l3.copyback as u8,
            ],
            kept: k.kind,
            blank: [l0.blank, l1.blank, l2.blank, l3.blank],
        }
    }
}

fn marks_good(i: Image) -> bool
    ensures { result ≡ marks_good i }
{
    (i.powered <= 1)
        & (i.high <= 1)
        & (i.clear <= 1)
        & (i.seen <= 1)
        & four_marks(i.working)
        & four_marks(i.fail)
        & four_marks(i.copyback)
}

// The numbers are those that some record packs to. Only what might not be is compared, since a single call waits for it.
pub fn good(i: Image) -> bool
    ensures { result ≡ good i }
{
    let c = cycles_in(i);
    let p = place_in(i);
    let k = kept_in(i);
    marks_good(i)
        & same_cycles(c, Cycles::from(to_sequence(c)))
        & same_place(p, Place::from(to_output(p)))
        & same_place(k, Place::from(to_output(k)))
}

// No record packs to these numbers.
#[derive(Clone, Copy)]
pub struct NotPacked;

// The record that packs to the numbers.
impl TryFrom<Image> for Target {
    type Error = NotPacked;

    ghost try_from_gives = { Unpacks };

    fn try_from(i: Image) -> Result<Target, NotPacked> {
        if good(i) {
            Ok(unpack(i))
        } else {
            Err(NotPacked)
        }
    }
}

// What the numbers stand for. Whether they are good is asked once an event.
fn take(known: Result<Target, NotPacked>, i: Image) -> Target
    requires { Unpacks i known }
    ensures { result ≡ taken i }
{
    known.unwrap_or(unpowered())
}

fn put_back(known: Result<Target, NotPacked>, i: Image, t: Target) -> Image
    requires { Unpacks i known }
    ensures { result ≡ put_back i t }
{
    match known {
        Ok(_) => Image::from(t),
        Err(NotPacked) => i,
    }
}

pub fn reply_number(a: Reply) -> u32
    ensures { result ≡ reply_number a }
{
    (reply_first(a) as u32) * 256 + (reply_second(a) as u32)
}

// An answer, and the record after it.
#[derive(Clone, Copy)]
pub struct Answered {
    pub answer: u32,
    pub image: Image,
}

// One event, by value.
pub fn event_on(
    i: Image,
    kind: u8,
    value: u8,
    page: &[u8],
    array: &mut [u8],
    registers: &mut [u8],
    counts: &mut [u8],
    flags: &[u8],
) -> Answered
    ensures { ◌≡◌ {A = HostEvent}
        (record { answer = result.answer; image = result.image; buffers = record { array = array.new; registers = registers.new; counts = counts.new } })
        (event_on i kind value page.now (record { array = array.old; registers = registers.old; counts = counts.old }) flags.now) }
{
    let e = Event { kind, value };
    let known = Target::try_from(i);
    let s = step::step(take(known, i), e, page, array, registers, counts, flags);
    Answered {
        answer: reply_number(s.reply),
        image: put_back(known, i, s.target),
    }
}

// A byte trace, by value.
pub fn trace_on(
    i: Image,
    records: &[u8],
    replies: &mut [u8],
    page: &[u8],
    array: &mut [u8],
    registers: &mut [u8],
    counts: &mut [u8],
    flags: &[u8],
) -> Answered
    ensures { ◌≡◌ {A = HostTrace}
        (record { answer = result.answer; image = result.image; buffers = record { array = array.new; registers = registers.new; counts = counts.new }; room = replies.new })
        (trace_on i records.now replies.old page.now (record { array = array.old; registers = registers.old; counts = counts.old }) flags.now) }
{
    let known = Target::try_from(i);
    let t = take(known, i);
    let outcome = trace::run(t, records, replies, page, array, registers, counts, flags);
    Answered {
        answer: run_number(outcome) as u32,
        image: put_back(known, i, outcome.unwrap_or(t)),
    }
}

// Power-on, by value.
pub fn power_with(
    page: &[u8],
    device: u8,
    array: &[u8],
    registers: &mut [u8],
    counts: &[u8],
    flags: &[u8],
) -> Answered
    ensures { ◌≡◌ {A = HostPower}
        (record { answer = result.answer; image = result.image; registers = registers.new })
        (power_with page.now device array.now registers.old counts.now flags.now) }
{
    match power::power_on(page, device, array, registers, counts, flags) {
        Ok(next) => Answered {
            answer: 0,
            image: Image::from(next),
        },
        Err(e) => Answered {
            answer: e.why.number() as u32,
            image: Image::from(e.target),
        },
    }
}

fn source_number(s: Source) -> u64
    ensures { result ≡ source_number s }
{
    match s {
        Source::Registers => 1,
        Source::Parameters => 2,
    }
}

pub fn rest_number(rest: Option<Unread>) -> u64
    ensures { result ≡ rest_number rest }
{
    match rest {
        None => 0,
        Some(u) => {
            source_number(u.source) * 1152921504606846976
                + ((u.at as u64) % 1073741824) * 1073741824
                + (u.count as u64) % 1073741824
        }
    }
}

// Where the unread rest lies, by value.
pub fn rest_on(i: Image, page: usize, registers: usize) -> u64
    ensures { result ≡ rest_on i page registers }
{
    let known = Target::try_from(i);
    rest_number(unread_part(take(known, i), page, registers))
}

// One event on a record that the host lends: the first reply byte times 256, and the second.
#[unsafe(no_mangle)]
pub extern "C" fn nib_event(
    t: &mut Image,
    kind: u8,
    value: u8,
    page: &[u8],
    array: &mut [u8],
    registers: &mut [u8],
    counts: &mut [u8],
    flags: &[u8],
) -> u32
    ensures { ◌≡◌ {A = HostEvent}
        (record { answer = result; image = t.new; buffers = record { array = array.new; registers = registers.new; counts = counts.new } })
        (event_on t.old kind value page.now (record { array = array.old; registers = registers.old; counts = counts.old }) flags.now) }
{
    let s = event_on(*t, kind, value, page, array, registers, counts, flags);
    *t = s.image;
    s.answer
}

// A byte trace: 0, or 16 where the room for replies is too short.
#[unsafe(no_mangle)]
pub extern "C" fn nib_trace(
    t: &mut Image,
    records: &[u8],
    replies: &mut [u8],
    page: &[u8],
    array: &mut [u8],
    registers: &mut [u8],
    counts: &mut [u8],
    flags: &[u8],
) -> u32
    ensures { ◌≡◌ {A = HostTrace}
        (record { answer = result; image = t.new; buffers = record { array = array.new; registers = registers.new; counts = counts.new }; room = replies.new })
        (trace_on t.old records.now replies.old page.now (record { array = array.old; registers = registers.old; counts = counts.old }) flags.now) }
{
    let s = trace_on(*t, records, replies, page, array, registers, counts, flags);
    *t = s.image;
    s.answer
}

// Power-on: 0, or 20 to 25. What the record held before is not looked at.
#[unsafe(no_mangle)]
pub extern "C" fn nib_power_on(
    t: &mut Image,
    page: &[u8],
    device: u8,
    array: &[u8],
    registers: &mut [u8],
    counts: &[u8],
    flags: &[u8],
) -> u32
    ensures { ◌≡◌ {A = HostPower}
        (record { answer = result; image = t.new; registers = registers.new })
        (power_with page.now device array.now registers.old counts.now flags.now) }
{
    let s = power_with(page, device, array, registers, counts, flags);
    *t = s.image;
    s.answer
}

// Where the unread rest of the output lies: the buffer (0 none, 1 the registers, 2 the parameter page) times 2^60, where it
// starts times 2^30, and how long it is.
#[unsafe(no_mangle)]
pub extern "C" fn nib_rest(t: &Image, page: &[u8], registers: &[u8]) -> u64
    ensures { result ≡ rest_on t.now (length page.now) (length registers.now) }
{
    rest_on(*t, page.len(), registers.len())
}
