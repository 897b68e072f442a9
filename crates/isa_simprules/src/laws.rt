//! Laws of the definitions: functions without a body, each of which states one fact.
ghost use Rattle.isa_simprules.specs.Numbers.{NumbersAreLeast};
ghost use Rattle.isa_simprules.specs.Opening.{OpenedHasNoQuantifier};
ghost use Rattle.isa_simprules.specs.RulesOf.{RulesAreEquations};
ghost use Rattle.isa_simprules.specs.Worked.{Rows};

/// A new unknown gets the least number that no unknown of its name has.
#[tactic(auto, using(crate::proofs::LeastNumbers::numbers_are_least))]
pub fn numbers_are_least()
    ensures { NumbersAreLeast }
{}

/// The rules of a fact are equations, under hypotheses among its own.
#[tactic(auto, using(crate::proofs::Equations::rules_are_equations))]
pub fn rules_are_equations()
    ensures { RulesAreEquations }
{}

/// What is opened has no `!!` in front.
#[tactic(auto, using(crate::proofs::Unquantified::opened_has_no_quantifier))]
pub fn opened_has_no_quantifier()
    ensures { OpenedHasNoQuantifier }
{}

/// The definition computes the worked rules.
#[tactic(auto, using(crate::proofs::WorkedRules::rows))]
pub fn rules_are_computed()
    ensures { Rows }
{}
