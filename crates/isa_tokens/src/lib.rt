//! The tokens of a theory file.
#![tactic(auto)]

ghost use Rattle.isa_tokens.specs.Tokens.{OneCutting, EachIsCut};

mod bracket;
mod lexer;
mod token;

pub use bracket::is_blank;
pub use lexer::tokens;
pub use token::{Bytes, Fault, Lexeme, Token};

/// A text has one list of tokens.
pub fn one_cutting()
    ensures { OneCutting }
{}

/// Each text has tokens.
pub fn each_is_cut()
    ensures { EachIsCut }
{}
