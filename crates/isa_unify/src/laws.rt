//! Laws of the definitions.

ghost use Rattle.isa_unify.specs.Laws.{UnificationEnds, ClashesEnd};
ghost use Rattle.isa_unify.specs.UnifyLaw.{NoIsRight, YesIsRight, YesGoesOn};
ghost use Rattle.isa_unify.specs.PatternLaw.{PatternsAreInside};
ghost use Rattle.isa_unify.specs.Clashes.{ClashesAreFound, ClashHasNoMatch, LiftedIsLifting, LiftingsClash};

/// The steps of unification end, and the walk that looks for clashes does; no bound in their
/// definitions is ever met.
pub fn unification_ends()
    ensures unification { UnificationEnds }
    ensures clashes { ClashesEnd }
{}

/// Where unification answers No, no instance makes the sides equal.
#[tactic(auto, using(crate::proofs::General::no_is_right))]
pub fn no_is_right()
    ensures { NoIsRight }
{}

/// Where unification answers Yes, its instance makes the sides equal, and each instance that does is
/// it, followed by another.
#[tactic(auto, using(crate::proofs::YesAnswers::yes_is_right))]
pub fn yes_is_right()
    ensures { YesIsRight }
{}

/// Unification finds a clash exactly where at some place two rigid heads disagree, or have other
/// numbers of arguments.
#[tactic(auto, using(crate::proofs::ClashLaws::clashes_are_found))]
pub fn clashes_are_found()
    ensures { ClashesAreFound }
{}

/// A pattern that clashes with a term, whose unknowns count as constants, has no match with it.
#[tactic(auto, using(crate::proofs::MatchClashes::clash_has_no_match))]
pub fn clash_has_no_match()
    ensures { ClashHasNoMatch }
{}

/// A term that is lifted over parameters, each unknown being applied to them, clashes where the term
/// did.
#[tactic(auto, using(crate::proofs::Liftings::lifted_is_lifting, crate::proofs::Liftings::liftings_clash))]
pub fn liftings_clash()
    ensures lifted { LiftedIsLifting }
    ensures clash { LiftingsClash }
{}

/// Where unification answers Yes, each unknown of its instance is one of the equations, at the
/// instance of its type, or has one of the numbers that were taken, of which there are at most
/// 1,000,000: another unification may follow.
pub fn yes_goes_on()
    ensures { YesGoesOn }
{}

/// On patterns unification answers `Outside` only where all of the 1,000,000 numbers were taken for new
/// unknowns, and one more is needed.
#[tactic(auto, using(crate::proofs::PatternSteps::patterns_are_inside))]
pub fn patterns_are_inside()
    ensures { PatternsAreInside }
{}
