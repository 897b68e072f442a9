//! Laws of the test.
ghost use Rattle.isa_clash.specs.Laws.{LiftingsDiffer, DifferingHaveNoUnifier, DifferingHaveNoMatch};

/// A term that is lifted over parameters differs where the term did.
#[tactic(auto, using(crate::proofs::Lifted::liftings_differ))]
pub fn liftings_differ()
    ensures { LiftingsDiffer }
{}

/// Unification of terms that differ answers No.
#[tactic(auto, using(crate::proofs::Unifying::differing_have_no_unifier))]
pub fn differing_have_no_unifier()
    ensures { DifferingHaveNoUnifier }
{}

/// There is no match of terms that differ.
#[tactic(auto, using(crate::proofs::Matching::differing_have_no_match))]
pub fn differing_have_no_match()
    ensures { DifferingHaveNoMatch }
{}
