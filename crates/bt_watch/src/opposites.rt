//! The opposites of literals.
ghost use Rattle.std.specs.Prelude.{◌≡◌};
ghost use Rattle.bt_cnf.specs.Units.{opposite};

use bt_cnf::Lit;

/// The literal that is true where this one is false.
pub fn negation(lit: &Lit) -> Lit
    ensures { result ≡ opposite lit.now }
{
    Lit {
        var: lit.var,
        positive: !lit.positive,
    }
}
