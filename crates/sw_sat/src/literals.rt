//! Literals by their numbers.
ghost use Rattle.std.specs.Prelude.{◌≡◌};
ghost use Rattle.sw_refute.specs.Satisfaction.{negation};

use sw_refute::Lit;

/// The literal of the same variable with the other sign.
pub fn negation(lit: Lit) -> Lit
    ensures { result ≡ negation lit }
{
    if lit.0 % 2 == 0 {
        Lit(lit.0 + 1)
    } else {
        Lit(lit.0 - 1)
    }
}
