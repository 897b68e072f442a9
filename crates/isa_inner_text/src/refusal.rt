//! Why a text is refused.
ghost use Rattle.std.specs.Prelude.{◌≡◌};
ghost use Rattle.isa_inner_text.specs.Refusals.{expected_word, mark_word};

use isa_inner::Mark;
use isa_terms::Name;
use std::alloc::{AllocError, AllocFailed};

/// What a text needs next.
#[derive(Clone, Copy, Debug, PartialEq, Eq)]
pub enum Expected {
    Proposition,
    Term,
    Name,
    Type,
    EndOfText,
    Mark(Mark),
    /// `==>`
    Implies,
    /// `]`
    CloseList,
    /// `=>`
    Arrow,
}

/// Why a text is refused, or want of memory.
#[derive(Drop)]
pub enum Refusal {
    /// Another token stands where this is needed.
    Expected(Expected),
    /// A symbol that begins no token: a byte, or the text from `\<` to the next `>`.
    UnknownSymbol(Name),
    /// No type constructor has this name.
    UnknownType(Name),
    /// The type constructor takes another number of arguments.
    Arity(Name),
    /// A judgment is needed, and none is declared.
    Judgment,
    /// An unknown, or a type unknown, in a text that may have none.
    Schematic(Name),
    /// A place is nested deeper than 500.
    Deep,
    /// No memory was left.
    Memory,
}

impl Expected {
    /// The words for it.
    pub fn word(self) -> &'static str
        ensures { result.now ≡ expected_word self }
    {
        match self {
            Expected::Proposition => "proposition",
            Expected::Term => "term",
            Expected::Name => "name",
            Expected::Type => "type",
            Expected::EndOfText => "end of text",
            Expected::Mark(mark) => mark_word(mark),
            Expected::Implies => "==>",
            Expected::CloseList => "]",
            Expected::Arrow => "=>",
        }
    }
}

/// How punctuation is written.
fn mark_word(mark: Mark) -> &'static str
    ensures { result.now ≡ mark_word mark }
{
    match mark {
        Mark::Open => "(",
        Mark::Close => ")",
        Mark::Dot => ".",
        Mark::Colons => "::",
        Mark::OpenPremises => "[|",
        Mark::Semicolon => ";",
        Mark::ClosePremises => "|]",
    }
}

impl From<AllocError> for Refusal {
    ghost use Rattle.std.specs.Prelude.{◌≡◌};
    ghost use Rattle.isa_inner_text.specs.declared.refusal.Refusal.TheVariants.{Memory};

    ghost from_gives = { λ _ e. e ≡ Memory };

    fn from(_: AllocError) -> Refusal {
        Refusal::Memory
    }
}

impl<T: Drop> From<AllocFailed<T>> for Refusal {
    ghost use Rattle.std.specs.Prelude.{◌≡◌};
    ghost use Rattle.isa_inner_text.specs.declared.refusal.Refusal.TheVariants.{Memory};

    ghost from_gives = { λ _ e. e ≡ Memory };

    fn from(_: AllocFailed<T>) -> Refusal {
        Refusal::Memory
    }
}
