// A checker for other people's parameter pages: for the 768 bytes that a part answers to ECh, its page three times.
#![tactic(auto, unfolding(crate::specs::Check::good, crate::specs::Check::on_copy, crate::specs::Check::checked_of))]

pub mod endurance;
pub mod page_rules;
pub mod report;

ghost use Rattle.std.specs.Prelude.{◌≡◌};
ghost use Rattle.page_check.specs.Check.{good, on_copy, checked_of};

use endurance::endurance_of;
use page::limits::{crc_good, is_signed};
use page_rules::{Broken, broken_rules};

// Why no copy is looked at.
#[derive(Clone, Copy)]
pub enum Unchecked {
    // not 768 bytes
    Length,
    NoGoodCopy,
}

#[derive(Clone, Copy)]
pub struct Checked {
    // The copy that is looked at, 0 to 2.
    pub copy: usize,
    pub broken: Broken,
    // None where the multiplier is above 16.
    pub endurance: Option<u64>,
}

// Signature and CRC, as power-on asks them.
pub fn is_good(page: &[u8]) -> bool
    ensures { result ≡ good page.now }
{
    is_signed(page) && crc_good(page)
}

fn on_copy(k: usize, page: &[u8]) -> Checked
    ensures { result ≡ on_copy k page.now }
{
    Checked {
        copy: k,
        broken: broken_rules(page),
        endurance: endurance_of(page),
    }
}

// The first good copy, its broken rules and its endurance. Later copies are not looked at.
pub fn check_answer(answer: &[u8]) -> Result<Checked, Unchecked>
    ensures { result ≡ checked_of answer.now }
{
    if answer.len() != 768 {
        return Err(Unchecked::Length);
    }
    for k in 0..3 {
        let page = &answer[256 * k..256 * (k + 1)];
        if is_good(page) {
            return Ok(on_copy(k, page));
        }
    }
    Err(Unchecked::NoGoodCopy)
}
