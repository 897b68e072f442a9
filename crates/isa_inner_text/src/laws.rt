//! Laws of the reading.
ghost use Rattle.isa_inner_text.specs.Reading.{OneOutcome};
ghost use Rattle.isa_inner_text.specs.Texts.{OneReading};
ghost use Rattle.isa_inner_text.specs.Grammar.{ReadsPhrases};

/// Tokens have one outcome at most, and a text too.
pub fn one_reading()
    ensures tokens { OneOutcome }
    ensures text { OneReading }
{}

/// What is read of a whole text is a proposition by the grammar.
pub fn reads_phrases()
    ensures { ReadsPhrases }
{}
