//! The laws of principal types.

ghost use Rattle.isa_typing.specs.Laws.{NoUnifierNoTyping, UnifiersArePrincipal};
ghost use Rattle.isa_typing.specs.WellTyped.{AnnotationsHold, PrincipalTermsAreTyped, VariablesHaveOneType};

/// The term under a most general unifier of its equations, its open types named, is the most general typing of the text;
/// where there is no unifier, the text has no typing.
pub fn unifiers_are_principal()
    ensures principal { UnifiersArePrincipal }
    ensures none { NoUnifierNoTyping }
{}

/// A principal term is well typed, has no loose bound variables and is in normal form; that of an annotated term has the
/// type of the annotation; each free variable and each unknown has one type in it, and unknowns have the number 0.
pub fn principal_terms_are_typed()
    ensures typed { PrincipalTermsAreTyped }
    ensures annotated { AnnotationsHold }
    ensures variables { VariablesHaveOneType }
{}
