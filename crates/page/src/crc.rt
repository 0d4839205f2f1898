// The CRC, a byte at a time. What it is stands bit by bit in specs/Crc.antt.
ghost use Rattle.std.specs.Prelude.{◌≡◌, take};
ghost use Rattle.page.specs.Crc.{crc_byte, crc_of, steps};

use crate::table::STEPS;

// One byte, most significant bit first: its eight steps are one look-up.
#[tactic(auto, using(crate::proofs::Lookup::place_small, crate::proofs::Lookup::looked_up))]
fn crc_byte(table: &[u16; 256], crc: u16, byte: u8) -> u16
    requires { table.now ≡ steps 256 0 }
    ensures { result ≡ crc_byte crc byte }
{
    let i = (crc >> 8) ^ byte as u16;
    (crc << 8) ^ table[i as usize]
}

// The bytes, one after the other.
fn crc_by(table: &[u16; 256], s: &[u8]) -> u16
    requires { table.now ≡ steps 256 0 }
    ensures { result ≡ crc_of s.now }
{
    let mut r: u16 = 0x4f4e;
    for &byte in s {
        r = crc_byte(table, r, byte);
    }
    r
}

// The whole slice. The table is lent to the loop, since a constant's value is made anew wherever it is named.
pub fn crc_of(s: &[u8]) -> u16
    ensures { result ≡ crc_of s.now }
{
    let table = STEPS;
    crc_by(&table, s)
}

// Bytes 0-253 of a page, fewer if there are not so many.
pub fn page_crc(page: &[u8]) -> u16
    ensures { result ≡ crc_of (take 254 page.now) }
{
    crc_of(&page[..page.len().min(254)])
}
