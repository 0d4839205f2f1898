// The target's record and its parts, all by value: events, replies and refusals, addresses, the command list, and the place
// that a sequence of bus cycles has reached. No function here but `sizes::sized` has a `requires`, and none sees a lent buffer.
#![tactic(auto)]

pub mod address;
pub mod bits;
pub mod commands;
pub mod events;
pub mod place;
pub mod records;
pub mod sizes;
pub mod views;

ghost use Rattle.std.specs.Prelude.{◌≡◌};
ghost use Rattle.target.specs.Numbers.{number_of, reply_first, reply_second};

// A row address, and a column address: neither is taken for the other.
#[derive(Clone, Copy)]
pub struct Row(pub usize);

#[derive(Clone, Copy)]
pub struct Column(pub usize);

// The sizes that the parameter page gave.
#[derive(Clone, Copy)]
pub struct Geometry {
    // data bytes and spare bytes of a page; together they are the page size P
    pub bytes: u16,
    pub spare: u16,
    // pages a block
    pub pages: usize,
    // blocks a LUN
    pub blocks: usize,
    pub luns: usize,
    // programs a page
    pub programs: usize,
}

// The two words of the parameter page that say what the part offers, as they came.
#[derive(Clone, Copy)]
pub struct Words {
    // bytes 6 and 7: features supported
    pub features: u16,
    // bytes 8 and 9: optional commands supported
    pub optional: u16,
}

#[derive(Clone, Copy)]
pub struct Ids {
    pub maker: u8,
    pub device: u8,
}

#[derive(Clone, Copy)]
pub struct Lun {
    pub working: bool,
    pub fail: bool,
    // a copyback is open: 35h has read a page, and 85h may program it
    pub copyback: bool,
    // how many blocks have all counts 0 and are not bad
    pub blank: u16,
}

// A record for each LUN that a target may have.
pub type Luns = [Lun; 4];

// The first commands, by the standard's names; `commands::FIRSTS` is their list, and says what each is like.
#[derive(Clone, Copy)]
pub enum First {
    // 00h
    Read,
    // 05h: change read column, in the selected LUN
    ChangeColumn,
    // 06h: change read column enhanced, in the LUN that its row names
    ChangeColumnEnhanced,
    // 60h
    Erase,
    // 70h
    Status,
    // 78h: read status enhanced, of the LUN that its row names
    StatusEnhanced,
    // 80h
    Program,
    // 90h
    ReadId,
    // ECh
    ParameterPage,
    // EEh
    GetFeatures,
    // EFh
    SetFeatures,
    // 85h with no sequence open: what the register holds is programmed
    CopybackProgram,
    // 05h while the parameter page is open, or kept behind a status: change read column within its 768 bytes
    ChangeColumnInPage,
}

// The second commands; `commands::second_row` has what each is like.
#[derive(Clone, Copy)]
pub enum Second {
    // 30h: the page is read
    StartRead,
    // E0h: the register is put out
    StartOutput,
    // 10h: the page is programmed
    StartProgram,
    // D0h: the block is erased
    StartErase,
    // 85h inside a program: its data goes on at another column
    Move,
    // 35h: the page is read, and a copyback is open
    StartCopyback,
}

// Column cycles: `got` of two have come, the first of which was `low`. Here and below these stay numbers and no Option: a host's
// record has both, and rule 13 looks at each by itself.
#[derive(Clone, Copy)]
pub struct ColumnCycles {
    pub first: First,
    pub got: u8,
    pub low: u8,
}

// Row cycles, after the column's where there is one: `got` of three have come.
#[derive(Clone, Copy)]
pub struct RowCycles {
    pub first: First,
    pub column: Column,
    pub got: u8,
    pub low: u8,
    pub mid: u8,
}

// All addresses have come, and the second command is due.
#[derive(Clone, Copy)]
pub struct Wait {
    pub first: First,
    pub column: Column,
    pub row: Row,
}

// A program that takes data, opened by 80h or 85h; `at` is the place of the next byte.
#[derive(Clone, Copy)]
pub struct Fill {
    pub first: First,
    pub row: Row,
    pub at: Column,
}

// 85h inside a program: `got` of its two column cycles have come.
#[derive(Clone, Copy)]
pub struct Moved {
    pub first: First,
    pub row: Row,
    pub got: u8,
    pub low: u8,
}

// EFh: `got` of its four bytes have come, the first of which was `value`.
#[derive(Clone, Copy)]
pub struct FeatureBytes {
    pub got: u8,
    pub value: u8,
}

// The open sequence, by its shape; `Idle` is a case among the others as `Nothing` is of `Output`. A `Column` or a `Row` is whole; bytes of a half-given one stand in `low` and `mid`.
#[derive(Clone, Copy)]
pub enum Sequence {
    Idle,
    Columns(ColumnCycles),
    Rows(RowCycles),
    // the one address cycle of 90h, ECh, EEh or EFh
    Single(First),
    Due(Wait),
    Filling(Fill),
    Moving(Moved),
    Setting(FeatureBytes),
}

// What the next data-out cycle gives. `Nothing` is no None around the others: it is one of the seven numbers that a host's record
// has for an output.
#[derive(Clone, Copy)]
pub enum Output {
    Nothing,
    // a page register from `column` on
    Register { lun: usize, column: Column },
    // the parameter page, three times over
    Parameters { at: usize },
    Status { lun: usize },
    // 90h with 00h: maker and device ID
    Ids { at: usize },
    // 90h with 20h
    Signature { at: usize },
    // EEh with 01h
    Feature { at: usize },
}

#[derive(Clone, Copy)]
pub struct Decoder {
    pub sequence: Sequence,
    pub output: Output,
    // the output that was open before a status: 00h and then data out go on from it
    pub kept: Output,
}

#[derive(Clone, Copy)]
pub struct Target {
    pub powered: bool,
    pub geometry: Geometry,
    pub words: Words,
    pub ids: Ids,
    // the protect line
    pub high: bool,
    // program-clear
    pub clear: bool,
    // the first FFh has come
    pub seen: bool,
    pub selected: usize,
    pub luns: Luns,
    pub decoder: Decoder,
}

// An event as a record. The kind is a number, and no `events::Kind`, since any number may come: rule 12 answers for those that
// name none.
#[derive(Clone, Copy)]
pub struct Event {
    pub kind: u8,
    pub value: u8,
}

#[derive(Clone, Copy)]
pub enum Refusal {
    Unknown,
    BeforeReset,
    Misplaced,
    OutOfRange,
    LunWorks,
    OthersWork,
    Protected,
    PastEnd,
    NotOffered,
    NotWorking,
    LineHeld,
    BadRecord,
    NotUsable,
    NoCopyback,
}

#[derive(Clone, Copy)]
pub enum Reply {
    Accepted,
    Byte(u8),
    Refused(Refusal),
}

// What the lent buffers say of the command that comes: a read always proceeds, a program or an erase where its page and block allow it.
#[derive(Clone, Copy)]
pub struct Findings {
    pub proceeds: bool,
    // the block that is to be programmed or erased is blank
    pub blank: bool,
}

// What an accepted event does to the lent buffers. `Nothing` is a case like the others: each rule over work has a line for it, and an
// Option around the rest would put `Some` into every other line.
#[derive(Clone, Copy)]
pub enum Work {
    Nothing,
    // every register
    ClearAll,
    // one LUN's register
    ClearOne {
        lun: usize,
    },
    // the page into its LUN's register
    Load {
        row: Row,
    },
    // a data-in byte into a register
    Put {
        lun: usize,
        column: Column,
        value: u8,
    },
    // the register into the page
    Program {
        row: Row,
    },
    // the block
    Erase {
        row: Row,
    },
}

// The number of a refusal.
pub fn number(r: Refusal) -> u8
    ensures { result ≡ number_of r }
{
    match r {
        Refusal::Unknown => 1,
        Refusal::BeforeReset => 2,
        Refusal::Misplaced => 3,
        Refusal::OutOfRange => 4,
        Refusal::LunWorks => 5,
        Refusal::OthersWork => 6,
        Refusal::Protected => 7,
        Refusal::PastEnd => 8,
        Refusal::NotOffered => 9,
        Refusal::NotWorking => 10,
        Refusal::LineHeld => 11,
        Refusal::BadRecord => 12,
        Refusal::NotUsable => 13,
        Refusal::NoCopyback => 14,
    }
}

// The first byte of a reply record.
pub fn reply_first(r: Reply) -> u8
    ensures { result ≡ reply_first r }
{
    match r {
        Reply::Accepted => 0,
        Reply::Byte(_) => 1,
        Reply::Refused(_) => 2,
    }
}

// The second byte of a reply record.
pub fn reply_second(r: Reply) -> u8
    ensures { result ≡ reply_second r }
{
    match r {
        Reply::Accepted => 0,
        Reply::Byte(b) => b,
        Reply::Refused(why) => number(why),
    }
}
