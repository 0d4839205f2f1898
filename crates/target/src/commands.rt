// The command list: each byte's class, the first commands and the second commands, and what each is like.
ghost use Rattle.std.specs.Prelude.{◌≡◌};
ghost use Rattle.target.specs.Commands.{class_of, is_first, is_known, first_of, place_of, row_of, byte_of, cycles_of, end_of, looks_of, then_of, needs_ready, waits_for, clears_register, knows_address, takes_column, takes_row, waits_second, second_row, second_of, offers, offered_to, offered_found, offered_second, is_second_found, offered, other_end, closes_copyback, needs_copyback, takes_program_data, gives_status, in_page};

use crate::bits::has_option;
use crate::{First, Second, Words};

// Each command byte has one class; optional bits don't count.
#[derive(Clone, Copy)]
pub enum Class {
    First,
    Second,
    Both,
    Alone,
    Unknown,
}

// 0 unknown, 1 first, 2 second, 3 both, 4 alone. Numbers, and no `Class`es: of a table of enum values the function that looks
// into it gets a local for each entry, and its proof did not close.
const CLASSES: [u8; 256] = [
    1, 0, 0, 0, 0, 1, 1, 0, 0, 0, 0, 0, 0, 0, 0, 0, 2, 0, 0, 0, 0, 0, 0, 0, 0, 0, 0, 0, 0, 0, 0, 0,
    0, 0, 0, 0, 0, 0, 0, 0, 0, 0, 0, 0, 0, 0, 0, 0, 2, 0, 0, 0, 0, 2, 0, 0, 0, 0, 0, 0, 0, 0, 0, 0,
    0, 0, 0, 0, 0, 0, 0, 0, 0, 0, 0, 0, 0, 0, 0, 0, 0, 0, 0, 0, 0, 0, 0, 0, 0, 0, 0, 0, 0, 0, 0, 0,
    1, 0, 0, 0, 0, 0, 0, 0, 0, 0, 0, 0, 0, 0, 0, 0, 1, 0, 0, 0, 0, 0, 0, 0, 1, 0, 0, 0, 0, 0, 0, 0,
    1, 0, 0, 0, 0, 3, 0, 0, 0, 0, 0, 0, 0, 0, 0, 0, 1, 0, 0, 0, 0, 0, 0, 0, 0, 0, 0, 0, 0, 0, 0, 0,
    0, 0, 0, 0, 0, 0, 0, 0, 0, 0, 0, 0, 0, 0, 0, 0, 0, 0, 0, 0, 0, 0, 0, 0, 0, 0, 0, 0, 0, 0, 0, 0,
    0, 0, 0, 0, 0, 0, 0, 0, 0, 0, 0, 0, 0, 0, 0, 0, 2, 0, 0, 0, 0, 0, 0, 0, 0, 0, 0, 0, 0, 0, 0, 0,
    2, 0, 0, 0, 0, 0, 0, 0, 0, 0, 0, 0, 1, 0, 1, 1, 0, 0, 0, 0, 0, 0, 0, 0, 0, 0, 0, 0, 0, 0, 0, 4,
];

pub fn class_of(v: u8) -> Class
    ensures { result ≡ class_of v }
{
    match CLASSES[v as usize] {
        1 => Class::First,
        2 => Class::Second,
        3 => Class::Both,
        4 => Class::Alone,
        _ => Class::Unknown,
    }
}

// The byte opens a sequence: it is in the list of first commands.
#[tactic(auto, using(crate::proofs::Classes::found_class))]
pub fn is_first(v: u8) -> bool
    ensures { result ≡ is_first (class_of v) }
{
    first_of(v).is_some()
}

// The byte is listed.
pub fn is_known(v: u8) -> bool
    ensures { result ≡ is_known (class_of v) }
{
    !matches!(class_of(v), Class::Unknown)
}

// Which fields of a command's row are looked at. Here and in `Waits` and `Act` 'nothing' is one of the answers that a row of the lists
// gives, as the others are, and an Option would be read as one that is not given.
#[derive(Clone, Copy)]
pub enum Looks {
    // it has no row
    Nothing,
    Lun,
    // block and LUN
    Block,
    // page, block and LUN
    Page,
}

// What follows a command's last address cycle.
#[derive(Clone, Copy)]
pub enum Then {
    // its second command is due
    Second,
    // data goes in
    Data,
    // four feature bytes go in
    FeatureIn,
    // a status comes out: of the row's LUN, and where there is no row of the selected one
    Status,
    // IDs come out, or the signature, by the address
    Id,
    // the parameter page comes out
    ParameterPage,
    // the feature's four bytes come out
    FeatureOut,
}

// Which LUNs have to be ready when a command comes (refusal 6).
#[derive(Clone, Copy)]
pub enum Waits {
    Nobody,
    // all but the selected one
    Others,
    All,
}

// What a first command is like.
#[derive(Clone, Copy)]
pub struct FirstRow {
    pub byte: u8,
    // how many address cycles follow
    pub cycles: u8,
    // the second command's byte, and 0 where there is none: 00h is no second command, and `end_of` gives a byte for each
    pub second: u8,
    // another second command that may stand for it, and 0 where there is none, as for `second`
    pub or: u8,
    pub looks: Looks,
    pub then: Then,
    // refusal 5 is asked of its LUN with its last address cycle
    pub ready: bool,
    pub waits: Waits,
    // program-clear says which registers it clears
    pub clears: bool,
    // its row closes the LUN's copyback
    pub closes: bool,
    // refusal 14 is asked of its row: it wants the LUN's copyback open
    pub copies: bool,
    // the two values that its one address may have
    pub one: u8,
    pub other: u8,
    // the bit of the optional-command word that offers it; none where every part has it
    pub option: Option<u8>,
    // its column is one of the parameter page
    pub page: bool,
}

// What most rows say: a command with no addresses and no second one, that nothing is asked of and every part has.
const PLAIN: FirstRow = FirstRow {
    byte: 0x00,
    cycles: 0,
    second: 0x00,
    or: 0x00,
    looks: Looks::Nothing,
    then: Then::Second,
    ready: false,
    waits: Waits::Nobody,
    clears: false,
    closes: false,
    copies: false,
    one: 0x00,
    other: 0x00,
    option: None,
    page: false,
};

const READ: FirstRow = FirstRow {
    byte: 0x00,
    cycles: 5,
    second: 0x30,
    or: 0x35,
    looks: Looks::Page,
    ready: true,
    ..PLAIN
};

const CHANGE_COLUMN: FirstRow = FirstRow {
    byte: 0x05,
    cycles: 2,
    second: 0xe0,
    ready: true,
    ..PLAIN
};

const CHANGE_COLUMN_ENHANCED: FirstRow = FirstRow {
    byte: 0x06,
    cycles: 5,
    second: 0xe0,
    looks: Looks::Lun,
    ready: true,
    option: Some(6),
    ..PLAIN
};

const ERASE: FirstRow = FirstRow {
    byte: 0x60,
    cycles: 3,
    second: 0xd0,
    looks: Looks::Block,
    ready: true,
    ..PLAIN
};

const STATUS: FirstRow = FirstRow {
    byte: 0x70,
    then: Then::Status,
    waits: Waits::Others,
    ..PLAIN
};

const STATUS_ENHANCED: FirstRow = FirstRow {
    byte: 0x78,
    cycles: 3,
    looks: Looks::Lun,
    then: Then::Status,
    option: Some(3),
    ..PLAIN
};

const PROGRAM: FirstRow = FirstRow {
    byte: 0x80,
    cycles: 5,
    second: 0x10,
    looks: Looks::Page,
    then: Then::Data,
    ready: true,
    clears: true,
    closes: true,
    ..PLAIN
};

const READ_ID: FirstRow = FirstRow {
    byte: 0x90,
    cycles: 1,
    then: Then::Id,
    waits: Waits::All,
    other: 0x20,
    ..PLAIN
};

const PARAMETER_PAGE: FirstRow = FirstRow {
    byte: 0xec,
    cycles: 1,
    then: Then::ParameterPage,
    waits: Waits::All,
    ..PLAIN
};

const GET_FEATURES: FirstRow = FirstRow {
    byte: 0xee,
    cycles: 1,
    then: Then::FeatureOut,
    waits: Waits::All,
    one: 0x01,
    other: 0x01,
    option: Some(2),
    ..PLAIN
};

const SET_FEATURES: FirstRow = FirstRow {
    byte: 0xef,
    cycles: 1,
    then: Then::FeatureIn,
    waits: Waits::All,
    one: 0x01,
    other: 0x01,
    option: Some(2),
    ..PLAIN
};

const COPYBACK_PROGRAM: FirstRow = FirstRow {
    byte: 0x85,
    cycles: 5,
    second: 0x10,
    looks: Looks::Page,
    then: Then::Data,
    ready: true,
    copies: true,
    option: Some(4),
    ..PLAIN
};

const CHANGE_COLUMN_IN_PAGE: FirstRow = FirstRow {
    byte: 0x05,
    cycles: 2,
    second: 0xe0,
    page: true,
    ..PLAIN
};

// The list of first commands.
const FIRSTS: [FirstRow; 13] = [
    READ,
    CHANGE_COLUMN,
    CHANGE_COLUMN_ENHANCED,
    ERASE,
    STATUS,
    STATUS_ENHANCED,
    PROGRAM,
    READ_ID,
    PARAMETER_PAGE,
    GET_FEATURES,
    SET_FEATURES,
    COPYBACK_PROGRAM,
    CHANGE_COLUMN_IN_PAGE,
];

// The first command with this byte; `place::first_here` says when 05h is the one within the parameter page.
#[tactic(auto, unfolding(crate::specs::Commands::first_of, crate::specs::Commands::row_of))]
pub fn first_of(v: u8) -> Option<First>
    ensures { result ≡ first_of v }
{
    match v {
        0x00 => Some(First::Read),
        0x05 => Some(First::ChangeColumn),
        0x06 => Some(First::ChangeColumnEnhanced),
        0x60 => Some(First::Erase),
        0x70 => Some(First::Status),
        0x78 => Some(First::StatusEnhanced),
        0x80 => Some(First::Program),
        0x90 => Some(First::ReadId),
        0xec => Some(First::ParameterPage),
        0xee => Some(First::GetFeatures),
        0xef => Some(First::SetFeatures),
        0x85 => Some(First::CopybackProgram),
        _ => None,
    }
}

// The place of a first command in the list.
pub fn place_of(f: First) -> usize
    ensures { result ≡ place_of f }
{
    match f {
        First::Read => 0,
        First::ChangeColumn => 1,
        First::ChangeColumnEnhanced => 2,
        First::Erase => 3,
        First::Status => 4,
        First::StatusEnhanced => 5,
        First::Program => 6,
        First::ReadId => 7,
        First::ParameterPage => 8,
        First::GetFeatures => 9,
        First::SetFeatures => 10,
        First::CopybackProgram => 11,
        First::ChangeColumnInPage => 12,
    }
}

// The command's row of the list, by its place.
pub fn listed(f: First) -> FirstRow
    ensures { result ≡ row_of f }
{
    FIRSTS[place_of(f)]
}

// The same row by the command's name. A list that is indexed is made anew at each look-up; of these arms the compiler makes
// constants, which are looked up in a few instructions.
#[tactic(auto, unfolding(crate::specs::Commands::row_of))]
pub fn row_of(f: First) -> FirstRow
    ensures { result ≡ row_of f }
{
    match f {
        First::Read => READ,
        First::ChangeColumn => CHANGE_COLUMN,
        First::ChangeColumnEnhanced => CHANGE_COLUMN_ENHANCED,
        First::Erase => ERASE,
        First::Status => STATUS,
        First::StatusEnhanced => STATUS_ENHANCED,
        First::Program => PROGRAM,
        First::ReadId => READ_ID,
        First::ParameterPage => PARAMETER_PAGE,
        First::GetFeatures => GET_FEATURES,
        First::SetFeatures => SET_FEATURES,
        First::CopybackProgram => COPYBACK_PROGRAM,
        First::ChangeColumnInPage => CHANGE_COLUMN_IN_PAGE,
    }
}

pub fn byte_of(f: First) -> u8
    ensures { result ≡ byte_of f }
{
    row_of(f).byte
}

pub fn cycles_of(f: First) -> u8
    ensures { result ≡ cycles_of f }
{
    listed(f).cycles
}

pub fn end_of(f: First) -> u8
    ensures { result ≡ end_of f }
{
    row_of(f).second
}

// Another second command that may stand for its own.
pub fn other_end(f: First) -> u8
    ensures { result ≡ other_end f }
{
    row_of(f).or
}

pub fn looks_of(f: First) -> Looks
    ensures { result ≡ looks_of f }
{
    row_of(f).looks
}

pub fn then_of(f: First) -> Then
    ensures { result ≡ then_of f }
{
    row_of(f).then
}

pub fn needs_ready(f: First) -> bool
    ensures { result ≡ needs_ready f }
{
    row_of(f).ready
}

pub fn waits_for(f: First) -> Waits
    ensures { result ≡ waits_for f }
{
    row_of(f).waits
}

pub fn clears_register(f: First) -> bool
    ensures { result ≡ clears_register f }
{
    row_of(f).clears
}

// Its row closes the LUN's copyback.
pub fn closes_copyback(f: First) -> bool
    ensures { result ≡ closes_copyback f }
{
    row_of(f).closes
}

// Its row wants the LUN's copyback open.
pub fn needs_copyback(f: First) -> bool
    ensures { result ≡ needs_copyback f }
{
    row_of(f).copies
}

// Its column is one of the parameter page.
pub fn in_page(f: First) -> bool
    ensures { result ≡ in_page f }
{
    row_of(f).page
}

// The one address of 90h, ECh, EEh or EFh is one that it knows.
pub fn knows_address(f: First, v: u8) -> bool
    ensures { result ≡ knows_address f v }
{
    let row = row_of(f);
    v == row.one || v == row.other
}

pub fn takes_column(f: First) -> bool
    ensures { result ≡ takes_column f }
{
    matches!(row_of(f).cycles, 2 | 5)
}

pub fn takes_row(f: First) -> bool
    ensures { result ≡ takes_row f }
{
    matches!(row_of(f).cycles, 3 | 5)
}

// Its second command is due once its addresses have come.
pub fn waits_second(f: First) -> bool
    ensures { result ≡ waits_second f }
{
    matches!(then_of(f), Then::Second)
}

// A status comes out.
pub fn gives_status(f: First) -> bool
    ensures { result ≡ gives_status f }
{
    matches!(then_of(f), Then::Status)
}

// Data goes into a program once its addresses have come.
pub fn takes_program_data(f: First) -> bool
    ensures { result ≡ takes_program_data f }
{
    matches!(then_of(f), Then::Data)
}

// The part has what no bit stands for, and else what its bit offers.
pub fn offers(w: Words, bit: Option<u8>) -> bool
    ensures { result ≡ offers w bit }
{
    match bit {
        Some(k) => has_option(w, k),
        None => true,
    }
}

// The part has the command.
pub fn offered_to(w: Words, f: First) -> bool
    ensures { result ≡ offered_to w f }
{
    offers(w, row_of(f).option)
}

// The part has the first command.
pub fn offered_first(w: Words, k: Option<First>) -> bool
    ensures { result ≡ offered_found w k }
{
    match k {
        Some(f) => offered_to(w, f),
        None => true,
    }
}

// What a second command does with the page or block that the sequence named.
#[derive(Clone, Copy)]
pub enum Act {
    Nothing,
    Load,
    Program,
    Erase,
    // the program goes on at another column
    Move,
}

// What a second command is like.
#[derive(Clone, Copy)]
pub struct SecondRow {
    pub byte: u8,
    // the LUN works from it on
    pub starts: bool,
    // refused with 7 while the protect line is low
    pub guarded: bool,
    // the register is put out from the column on
    pub shows: bool,
    pub act: Act,
    // a copyback is open on the LUN from it on
    pub opens: bool,
    // the LUN's copyback is closed
    pub closes: bool,
    // the bit of the optional-command word that offers it; none where every part has it
    pub option: Option<u8>,
}

// A second command that does nothing more.
const NO_MORE: SecondRow = SecondRow {
    byte: 0x00,
    starts: false,
    guarded: false,
    shows: false,
    act: Act::Nothing,
    opens: false,
    closes: false,
    option: None,
};

const START_READ: SecondRow = SecondRow {
    byte: 0x30,
    starts: true,
    shows: true,
    act: Act::Load,
    closes: true,
    ..NO_MORE
};

const START_OUTPUT: SecondRow = SecondRow {
    byte: 0xe0,
    shows: true,
    ..NO_MORE
};

const START_PROGRAM: SecondRow = SecondRow {
    byte: 0x10,
    starts: true,
    guarded: true,
    act: Act::Program,
    ..NO_MORE
};

const START_ERASE: SecondRow = SecondRow {
    byte: 0xd0,
    starts: true,
    guarded: true,
    act: Act::Erase,
    closes: true,
    ..NO_MORE
};

const MOVE: SecondRow = SecondRow {
    byte: 0x85,
    act: Act::Move,
    ..NO_MORE
};

const START_COPYBACK: SecondRow = SecondRow {
    byte: 0x35,
    starts: true,
    shows: true,
    act: Act::Load,
    opens: true,
    option: Some(4),
    ..NO_MORE
};

// The second command with this byte.
#[tactic(auto, unfolding(crate::specs::Commands::second_of, crate::specs::Commands::second_row))]
pub fn second_of(v: u8) -> Option<Second>
    ensures { result ≡ second_of v }
{
    match v {
        0x30 => Some(Second::StartRead),
        0xe0 => Some(Second::StartOutput),
        0x10 => Some(Second::StartProgram),
        0xd0 => Some(Second::StartErase),
        0x85 => Some(Second::Move),
        0x35 => Some(Second::StartCopyback),
        _ => None,
    }
}

// The command's row of the list.
#[tactic(auto, unfolding(crate::specs::Commands::second_row))]
pub fn second_row(s: Second) -> SecondRow
    ensures { result ≡ second_row s }
{
    match s {
        Second::StartRead => START_READ,
        Second::StartOutput => START_OUTPUT,
        Second::StartProgram => START_PROGRAM,
        Second::StartErase => START_ERASE,
        Second::Move => MOVE,
        Second::StartCopyback => START_COPYBACK,
    }
}

// The part has the second command.
pub fn offered_second(w: Words, k: Option<Second>) -> bool
    ensures { result ≡ offered_second w k }
{
    match k {
        Some(s) => offers(w, second_row(s).option),
        None => true,
    }
}

pub fn is_second_found(k: Option<Second>) -> bool
    ensures { result ≡ is_second_found k }
{
    k.is_some()
}

// The part has the command of this byte. While a sequence is open a byte of both lists is the second command: 85h, a program's move.
#[tactic(auto, unfolding(crate::specs::Commands::offered))]
pub fn offered(w: Words, inside: bool, v: u8) -> bool
    ensures { result ≡ offered w inside v }
{
    let second = second_of(v);
    offered_second(w, second)
        && ((inside && is_second_found(second)) || offered_first(w, first_of(v)))
}
