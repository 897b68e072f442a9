//! Laws: facts that follow from the definitions.
ghost use Rattle.isa_subgoal.specs.Lift.{LiftedOverNoParameter, LiftedIsDerived};
ghost use Rattle.isa_subgoal.specs.Renumbering.{RenumberedIsDerived};
ghost use Rattle.isa_subgoal.specs.Elimination.{EliminationIsDerived};
ghost use Rattle.isa_subgoal.specs.Parts.{PartsMakeTheSubgoal};
ghost use Rattle.isa_subgoal.specs.Shape.{ShapedIsInForm, FormStays};

/// Lifting over no parameter puts premises and conclusion under the assumptions.
pub fn lifting_without_parameters()
    ensures { LiftedOverNoParameter }
{}

/// What a subgoal is brought into is in the form, and a subgoal in the form stays as it is.
pub fn subgoals_are_formed()
    ensures formed { ShapedIsInForm }
    ensures stays { FormStays }
{}

/// The parts of a normal subgoal make it again.
pub fn parts_make_the_subgoal()
    ensures { PartsMakeTheSubgoal }
{}

/// Rules that are lifted, renumbered or turned into ones for elimination have a derivation where the rule has one.
pub fn rules_stay_derived()
    ensures lifted { LiftedIsDerived }
    ensures renumbered { RenumberedIsDerived }
    ensures elimination { EliminationIsDerived }
{}
