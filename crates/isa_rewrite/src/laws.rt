//! Laws of simplification: functions without a body, each of which states one fact.
ghost use Rattle.isa_rewrite.specs.Laws.{SimplificationGoesBySteps};
ghost use Rattle.isa_rewrite.specs.ProcedureRows.{ProcedureRows};
ghost use Rattle.isa_rewrite.specs.Rows.{Rows};
ghost use Rattle.isa_rewrite.specs.Traces.{TicksAreCounted};
ghost use Rattle.isa_rewrite.specs.Turns.{TriesInTurn, ChoosesInTurn};

/// Simplification goes by its four steps; the bounds in its definition are never met.
#[tactic(auto, using(crate::proofs::Steps::goes_by_steps))]
pub fn simplification_goes_by_steps()
    ensures { SimplificationGoesBySteps }
{}

/// The definition computes the worked rows.
#[tactic(auto, using(crate::proofs::WorkedRows::rows))]
pub fn rows_are_computed()
    ensures { Rows }
{}

/// The definitions of the simplification procedures compute the worked rows.
#[tactic(auto, using(crate::proofs::WorkedRows::procedure_rows))]
pub fn procedure_rows_are_computed()
    ensures { ProcedureRows }
{}

/// Answers of a rewriter tell what the definition gives, and after how many ticks.
#[tactic(auto, using(crate::proofs::Counting::ticks_are_counted))]
pub fn ticks_are_counted()
    ensures { TicksAreCounted }
{}

/// An attempt tries the rules in turn, and the conditions of each, where their unknowns are all on the left side.
#[tactic(auto, using(crate::proofs::InTurn::tries_in_turn))]
pub fn rules_are_tried_in_turn()
    ensures { TriesInTurn }
{}

/// Conditions with unknowns of their own go through the premises, and back to the latest choice.
#[tactic(auto, using(crate::proofs::InTurn::chooses_in_turn))]
pub fn premises_are_tried_in_turn()
    ensures { ChoosesInTurn }
{}
