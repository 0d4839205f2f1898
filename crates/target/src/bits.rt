// Bits of the feature and optional-command words. `page` reads bits of its bytes by a function of its own: it stands below this crate.
ghost use Rattle.std.specs.Prelude.{◌≡◌};
ghost use Rattle.target.specs.Words.{bit_of, has_feature, has_option};

use crate::Words;

// Bit `k` of `x` is 1.
pub fn bit_of(x: u16, k: u8) -> bool
    ensures { result ≡ bit_of x k }
{
    if k < 16 { (x >> k) % 2 == 1 } else { false }
}

pub fn has_feature(w: Words, k: u8) -> bool
    ensures { result ≡ has_feature w k }
{
    bit_of(w.features, k)
}

pub fn has_option(w: Words, k: u8) -> bool
    ensures { result ≡ has_option w k }
{
    bit_of(w.optional, k)
}
