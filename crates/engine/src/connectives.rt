// Which side of a connective counts, and the verdict of a quantifier that no row decides.
ghost use Rattle.std.specs.Prelude.{◌≡◌};
ghost use Rattle.logic.specs.Verdict.{settled};
ghost use Rattle.logic.specs.Marks.{left_decides};
ghost use Rattle.engine.specs.Marked.{side_for, undecided};

use tables::{Connective, Quantifier};

// Whether the left side of a connective decides it.
pub(crate) fn left_decides(by: Connective, left: bool) -> bool
    ensures { result ≡ left_decides by left }
{
    match by {
        Connective::Or => left,
        Connective::And | Connective::Implies => !left,
    }
}

// The verdict of a connective that no side decides by itself.
pub(crate) fn undecided(by: Connective) -> bool
    ensures { result ≡ undecided by }
{
    match by {
        Connective::And => true,
        Connective::Or | Connective::Implies => false,
    }
}

// The left side's verdict that goes with that verdict of a connective: where it is in its reason, or would settle it.
pub(crate) fn side(by: Connective, verdict: bool) -> bool
    ensures { result ≡ side_for by verdict }
{
    match by {
        Connective::And | Connective::Or => verdict,
        Connective::Implies => !verdict,
    }
}

// The verdict of a quantifier that no row decides.
pub(crate) fn settled(by: Quantifier) -> bool
    ensures { result ≡ settled by }
{
    match by {
        Quantifier::Every => true,
        Quantifier::Exists => false,
    }
}
