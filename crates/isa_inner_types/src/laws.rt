//! Laws of the grammar of types.
ghost use Rattle.isa_inner_types.specs.TypeGrammar.{NoTypeDeadEnd, OneTypeOutcome, ReadsTypes};

/// Tokens have one reading as a type, or one refusal, at most.
pub fn one_type_outcome()
    ensures { OneTypeOutcome }
{}

/// What is read as a type is a phrase of the grammar of types.
pub fn reads_types()
    ensures { ReadsTypes }
{}

/// A text that is a phrase of the grammar is read as just this type, or refused as nested too deep.
pub fn no_type_dead_end()
    ensures { NoTypeDeadEnd }
{}
