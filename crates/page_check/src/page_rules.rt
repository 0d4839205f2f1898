// The rules of document 02's A8, each named by its first byte.
#![tactic(auto, unfolding(crate::specs::Check::data_broken, crate::specs::Check::pages_broken, crate::specs::Check::luns_broken, crate::specs::Check::multiplier, crate::specs::Check::multiplier_broken, crate::specs::Check::programs_broken, crate::specs::Check::broken_rules, crate::specs::Check::added))]

ghost use Rattle.std.specs.Prelude.{◌≡◌, []};
ghost use Rattle.page_check.specs.Check.{power_below, data_broken, pages_broken, luns_broken, multiplier, multiplier_broken, programs_broken, broken_rules, laid, added};

use page::fields::{data_bytes, field_1, lun_count, pages_a_block, programs_a_page};

// The bytes of the broken rules, in byte order; the places past `count` hold 0. A length beside an array, since the model has no
// heap and C gets the five places.
#[derive(Clone, Copy)]
pub struct Broken {
    pub count: usize,
    pub bytes: [u8; 5],
}

// A power of two below 2^32.
pub fn is_power_of_two(n: usize) -> bool
    ensures { result ≡ power_below 32 n }
{
    for k in 0..32u32 {
        if n == 1 << k {
            return true;
        }
    }
    false
}

pub fn data_broken(page: &[u8]) -> bool
    ensures { result ≡ data_broken page.now }
{
    let n = data_bytes(page);
    !(is_power_of_two(n) && 512 <= n)
}

pub fn pages_broken(page: &[u8]) -> bool
    ensures { result ≡ pages_broken page.now }
{
    pages_a_block(page) % 32 != 0
}

pub fn luns_broken(page: &[u8]) -> bool
    ensures { result ≡ luns_broken page.now }
{
    lun_count(page) == 0
}

pub fn multiplier(page: &[u8]) -> u8
    ensures { result ≡ multiplier page.now }
{
    field_1(page, 106)
}

pub fn multiplier_broken(page: &[u8]) -> bool
    ensures { result ≡ multiplier_broken page.now }
{
    multiplier(page) > 16
}

pub fn programs_broken(page: &[u8]) -> bool
    ensures { result ≡ programs_broken page.now }
{
    programs_a_page(page) == 0
}

pub fn no_rule() -> Broken
    ensures { result ≡ laid [] }
{
    Broken {
        count: 0,
        bytes: [0; 5],
    }
}

// One rule more, if it is broken.
fn with_rule(b: Broken, broken: bool, byte: u8) -> Broken
    ensures { result ≡ added b broken byte }
{
    let at = b.count;
    if !broken || at >= 5 {
        return b;
    }
    let mut n = b;
    n.bytes[at] = byte;
    n.count = at + 1;
    n
}

#[tactic(auto, using(crate::proofs::Listing::five), unfolding(crate::specs::Check::broken_rules))]
pub fn broken_rules(page: &[u8]) -> Broken
    ensures { result ≡ laid (broken_rules page.now) }
{
    let b = no_rule();
    let b = with_rule(b, data_broken(page), 80);
    let b = with_rule(b, pages_broken(page), 92);
    let b = with_rule(b, luns_broken(page), 100);
    let b = with_rule(b, multiplier_broken(page), 106);
    with_rule(b, programs_broken(page), 110)
}
