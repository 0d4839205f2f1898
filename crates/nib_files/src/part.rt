// A part: its page and its buffers, and the folder that holds it.
use crate::fields::outside;
use crate::files::{create, join, read_front, read_whole, remove, rename, text_of, write_beside};
use nib_print::pen::{Pen, To, Told, complain_of, failed, front, front_mut};
use nib_sizes::{Lengths, Unplanned, known_part, plan_of};
use power::{NotPowered, PowerRefusal, power_on};
use std::fs;
use std::io::ErrorKind;
use target::{Geometry, Target};
use trace::run;

// Room for every part that `Buffers::plan` takes: an array of at most 4 MiB; four registers of at most 16,384 + 2,048 bytes; a
// count for each page, of at least 16 bytes; a flag for each of at most 4 times 4,096 blocks.
pub type Array = [u8; 4194304];

pub type Registers = [u8; 73728];

pub type Counts = [u8; 262144];

pub type Flags = [u8; 16384];

pub type Page = [u8; 256];

// T1's parameter page: 512+16 bytes, 4 pages, 8 blocks, 2 LUNs; every option but copyback.
const T1: [u8; 256] = [
    79, 78, 70, 73, 0, 0, 2, 1, 76, 0, 0, 0, 0, 0, 0, 0, 0, 0, 0, 0, 0, 0, 0, 0, 0, 0, 0, 0, 0, 0,
    0, 0, 0, 0, 0, 0, 0, 0, 0, 0, 0, 0, 0, 0, 0, 0, 0, 0, 0, 0, 0, 0, 0, 0, 0, 0, 0, 0, 0, 0, 0, 0,
    0, 0, 44, 0, 0, 0, 0, 0, 0, 0, 0, 0, 0, 0, 0, 0, 0, 0, 0, 2, 0, 0, 16, 0, 0, 0, 0, 0, 0, 0, 4,
    0, 0, 0, 8, 0, 0, 0, 2, 35, 0, 0, 0, 0, 0, 0, 0, 0, 4, 0, 0, 0, 0, 0, 0, 0, 0, 0, 0, 0, 0, 0,
    0, 0, 0, 0, 0, 0, 0, 0, 0, 0, 0, 0, 0, 0, 0, 0, 0, 0, 0, 0, 0, 0, 0, 0, 0, 0, 0, 0, 0, 0, 0, 0,
    0, 0, 0, 0, 0, 0, 0, 0, 0, 0, 0, 0, 0, 0, 0, 0, 0, 0, 0, 0, 0, 0, 0, 0, 0, 0, 0, 0, 0, 0, 0, 0,
    0, 0, 0, 0, 0, 0, 0, 0, 0, 0, 0, 0, 0, 0, 0, 0, 0, 0, 0, 0, 0, 0, 0, 0, 0, 0, 0, 0, 0, 0, 0, 0,
    0, 0, 0, 0, 0, 0, 0, 0, 0, 0, 0, 0, 0, 0, 0, 0, 0, 0, 0, 0, 0, 0, 0, 0, 0, 0, 0, 0, 0, 0, 0, 0,
    0, 0, 207, 16,
];

// T1's page becomes T2's: 3 pages, 5 blocks, and their CRC.
pub fn to_t2(page: &mut Page) {
    page[92] = 3;
    page[96] = 5;
    page[254] = 180;
    page[255] = 50;
}

// T1's page becomes W's: copyback too, with bits for cache programming, pages in any order and planes, and the CRC.
pub fn to_w(page: &mut Page) {
    page[6] = 0x0e;
    page[8] = 0x5d;
    page[254] = 250;
    page[255] = 2;
}

// T1's device ID.
pub const T1_ID: u8 = 0x68;

// The line that tells of a refused power-on; where a field is outside its limits, it names the field.
fn refuse_page(rt: HostRuntime, path: &[u8], why: PowerRefusal, page: &[u8]) -> Told {
    let mut pen = Pen::new(rt, To::Errors);
    pen.text(b"nib: ");
    pen.text(path);
    pen.text(b": power-on ");
    pen.power_sentence(why);
    if matches!(why, PowerRefusal::Field) {
        outside(&mut pen, page);
    }
    pen.end_line();
    pen.flush();
    Told
}

pub fn refuse(rt: HostRuntime, path: &[u8], why: PowerRefusal) -> Told {
    refuse_page(rt, path, why, b"")
}

// The lengths of the part that a page describes; where nib can't hold it, a line that names `path` says why.
fn planned(rt: HostRuntime, path: &[u8], page: &[u8]) -> Result<Lengths, Told> {
    plan_of(page).map_err(|why| match why {
        Unplanned::Refused(why) => refuse_page(rt, path, why, page),
        Unplanned::TooLarge(l) => complain_of(
            rt,
            path,
            b": an array of ",
            l.array,
            b" bytes is more than the 4194304 that nib holds; python3 -m nibtoggle has no such limit\n",
        ),
    })
}

// The bytes are signed, and have the CRC that they say.
fn is_whole(bytes: &[u8]) -> bool {
    match plan_of(bytes) {
        Err(Unplanned::Refused(why)) => matches!(why, PowerRefusal::Field),
        _ => true,
    }
}

// The page among the bytes of a file: all 256, or of the three copies of an answer to ECh the first that is whole, and the first
// of all where none is.
fn page_among(bytes: &[u8]) -> Option<&[u8]> {
    match bytes.len() {
        256 => Some(bytes),
        768 => {
            for copy in bytes.chunks(256) {
                if is_whole(copy) {
                    return Some(copy);
                }
            }
            Some(front(bytes, 256))
        }
        _ => None,
    }
}

// The page of a file, 256 bytes or the three copies of an answer to ECh. Where there is none, a line says why.
pub fn page_in(rt: HostRuntime, path: &[u8], page: &mut Page) -> Result<(), Told> {
    // one byte more than three copies have
    let mut room = [0u8; 769];
    let bytes = read_front(rt, path, &mut room)?;
    let Some(these) = page_among(bytes) else {
        return Err(refuse(rt, path, PowerRefusal::PageLength));
    };
    for (to, from) in page.iter_mut().zip(these) {
        *to = *from;
    }
    Ok(())
}

// The sizes of no part.
pub const NO_SIZES: Geometry = Geometry {
    bytes: 0,
    spare: 0,
    pages: 0,
    blocks: 0,
    luns: 0,
    programs: 0,
};

// The sizes of a folder's part, from its page, for who only speaks of it: it may be larger than nib holds. Where there are none,
// a line says why.
pub fn geometry_in(rt: HostRuntime, dir: &[u8]) -> Result<Geometry, Told> {
    let path = join(dir, b"page");
    let mut page = [0u8; 256];
    page_in(rt, path.as_slice(), &mut page)?;
    known_part(&page).map_err(|why| refuse_page(rt, path.as_slice(), why, &page))
}

// A part in memory: its page, its device ID, and its buffers, of each of which the part takes a front. With no heap there is
// one room for every part.
#[derive(Drop)]
pub struct Buffers<'a> {
    pub page: Page,
    pub device: u8,
    pub lengths: Lengths,
    pub array: &'a mut Array,
    pub registers: Registers,
    pub counts: Counts,
    pub flags: Flags,
}

impl<'a> Buffers<'a> {
    // Room that no part takes yet, with T1's page: registers, counts and flags of 0. The array is lent: it is half of the stack that
    // there is, and must not be copied on its way.
    pub fn new(array: &'a mut Array) -> Buffers<'a> {
        Buffers {
            page: T1,
            device: 0,
            lengths: Lengths {
                array: 0,
                registers: 0,
                counts: 0,
                flags: 0,
            },
            array,
            registers: [0; 73728],
            counts: [0; 262144],
            flags: [0; 16384],
        }
    }

    // The part that the page describes is to be run or made; where nib can't hold it, a line that names `path` says why. A page
    // does not say its part's device ID.
    pub fn plan(&mut self, rt: HostRuntime, path: &[u8], device: u8) -> Result<(), Told> {
        self.lengths = planned(rt, path, &self.page)?;
        self.device = device;
        Ok(())
    }

    // The folder's files into the buffers.
    pub fn load(&mut self, rt: HostRuntime, dir: &[u8]) -> Result<(), Told> {
        let path = join(dir, b"page");
        page_in(rt, path.as_slice(), &mut self.page)?;
        self.plan(rt, path.as_slice(), 0)?;
        let mut id = [0u8; 1];
        read_whole(rt, dir, b"id", &mut id, 1)?;
        self.device = id[0];
        let l = self.lengths;
        read_whole(rt, dir, b"array", &mut *self.array, l.array)?;
        read_whole(rt, dir, b"counts", &mut self.counts, l.counts)?;
        read_whole(rt, dir, b"flags", &mut self.flags, l.flags)
    }

    // Array, counts and registers: all three are written beside the old ones before the first of them is renamed.
    fn store_whole(&self, rt: HostRuntime, dir: &[u8]) -> Result<(), Told> {
        let l = self.lengths;
        write_beside(rt, dir, b"array.new", front(&*self.array, l.array))?;
        write_beside(rt, dir, b"counts.new", front(&self.counts, l.counts))?;
        write_beside(
            rt,
            dir,
            b"registers.new",
            front(&self.registers, l.registers),
        )?;
        rename(rt, dir, b"array.new", b"array")?;
        rename(rt, dir, b"counts.new", b"counts")?;
        rename(rt, dir, b"registers.new", b"registers")
    }

    pub fn store(&self, rt: HostRuntime, dir: &[u8]) {
        if self.store_whole(rt, dir).is_err() {
            remove(rt, dir, b"array.new");
            remove(rt, dir, b"counts.new");
            remove(rt, dir, b"registers.new");
        }
    }

    // The five files of a new folder, each by its name. The error says how many were made before the one that failed.
    fn create_files(&self, rt: HostRuntime, dir: &[u8]) -> Result<(), usize> {
        let l = self.lengths;
        create(rt, dir, b"page", &self.page).map_err(|_| 0usize)?;
        create(rt, dir, b"id", &[self.device]).map_err(|_| 1usize)?;
        create(rt, dir, b"array", front(&*self.array, l.array)).map_err(|_| 2usize)?;
        create(rt, dir, b"counts", front(&self.counts, l.counts)).map_err(|_| 3usize)?;
        create(rt, dir, b"flags", front(&self.flags, l.flags)).map_err(|_| 4usize)
    }

    // A new part folder, of buffers that are still as `new` makes them.
    pub fn make(&self, rt: HostRuntime, dir: &[u8]) -> Result<(), Told> {
        let is_new = make_folder(rt, dir)?;
        if let Err(made) = self.create_files(rt, dir) {
            // what was made before the file that failed is taken away again
            let names: [&[u8]; 4] = [b"page", b"id", b"array", b"counts"];
            for name in names.iter().take(made) {
                remove(rt, dir, name);
            }
            if is_new {
                remove_folder(rt, dir);
            }
            return Err(Told);
        }
        let l = self.lengths;
        let mut pen = Pen::new(rt, To::Output);
        pen.text(dir);
        pen.with_number(b": page 256 bytes, id 1, array ", l.array);
        pen.with_number(b", counts ", l.counts);
        pen.with_number(b", flags ", l.flags);
        pen.end_line();
        pen.flush();
        Ok(())
    }

    // Power-on from the buffers, of which the part's lengths are lent.
    pub fn power(&mut self) -> Result<Target, NotPowered> {
        let l = self.lengths;
        power_on(
            &self.page,
            self.device,
            front(&*self.array, l.array),
            front_mut(&mut self.registers, l.registers),
            front(&self.counts, l.counts),
            front(&self.flags, l.flags),
        )
    }

    // A trace on those buffers.
    pub fn run(&mut self, t: Target, records: &[u8], room: &mut [u8]) -> Target {
        let l = self.lengths;
        let array = &mut *self.array;
        let ran = run(
            t,
            records,
            room,
            &self.page,
            front_mut(array, l.array),
            front_mut(&mut self.registers, l.registers),
            front_mut(&mut self.counts, l.counts),
            front(&self.flags, l.flags),
        );
        // a room for two bytes a record is never too short, and without a run the target is what it was
        ran.unwrap_or(t)
    }
}

// Whether the folder was made now; it may stand already.
fn make_folder(rt: HostRuntime, dir: &[u8]) -> Result<bool, Told> {
    let made = match text_of(dir) {
        Ok(text) => fs::create_dir(&rt, text),
        Err(e) => Err(e),
    };
    match made {
        Ok(()) => Ok(true),
        Err(e) if e.kind() == ErrorKind::AlreadyExists => Ok(false),
        Err(e) => Err(failed(rt, dir, &e)),
    }
}

fn remove_folder(rt: HostRuntime, dir: &[u8]) {
    if let Ok(text) = text_of(dir) {
        let _ = fs::remove_dir(&rt, text);
    }
}
