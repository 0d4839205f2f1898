// Block endurance: byte 105 times ten to byte 106.
#![tactic(auto, unfolding(crate::specs::Check::endurance_of, crate::specs::Check::endurance_value))]

ghost use Rattle.std.specs.Prelude.{◌≡◌, ◌≤◌, ◌^◌};
ghost use Rattle.page_check.specs.Check.{endurance_of};

use crate::page_rules::multiplier;
use page::fields::field_1;

// By recursion on the falling multiplier, which is at most 16: so all of it is within 64 bits.
fn power_of_ten(m: u8) -> u64
    requires { m ≤ 16 }
    ensures { result ≡ 10 ^ m }
{
    if m == 0 { 1 } else { 10 * power_of_ten(m - 1) }
}

// None where the multiplier is above 16.
pub fn endurance_of(page: &[u8]) -> Option<u64>
    ensures { result ≡ endurance_of page.now }
{
    let m = multiplier(page);
    if m > 16 {
        return None;
    }
    Some(field_1(page, 105) as u64 * power_of_ten(m))
}
