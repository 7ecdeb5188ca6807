//! The laws of derivations.

ghost use Rattle.lam_front_laws.specs.DerivationLaw.{SpeltIsDerived, DerivedIsSpelt, DerivedOnce, UnexpectedIsUnderived};

/// Tokens that spell a program derive it.
pub fn spelt_programs_are_derived()
    ensures { SpeltIsDerived }
{}

/// Tokens that derive a program spell it, or the depth sum passes its limit at one of them.
pub fn derived_programs_are_spelt()
    ensures { DerivedIsSpelt }
{}

/// Tokens derive one program at most.
pub fn programs_are_derived_once()
    ensures { DerivedOnce }
{}

/// The first token that continues no program is the first with which no derived text goes on.
pub fn unexpected_tokens_are_underived()
    ensures { UnexpectedIsUnderived }
{}
