//! Why a text is refused.
ghost use Rattle.std.specs.Prelude.{◌≡◌, ◌++◌, IfOk};
ghost use Rattle.isa_outer.specs.declared.refusal.Kind.TheVariants as kind;

use isa_terms::Name;
use std::alloc::{AllocError, AllocFailed};
use std::marker::Model;

/// What a form needs next, in the words of its refusal: `command`, `name`, `fact` or the like, or a token.
#[derive(Drop)]
pub struct What {
    text: &'static str,
}

impl Model for What {
    ghost use Rattle.std.specs.Prelude.{List, ℕ};

    ghost Value = { List ℕ };

    ghost view = { λ w. w.text.now };
}

impl What {
    /// The part that these words name.
    pub fn new(text: &'static str) -> What
        ensures { result ≡ text.now }
    {
        What { text }
    }

    /// The words.
    pub fn as_str(&self) -> &'static str
        ensures { result.now ≡ self.now }
    {
        self.text
    }
}

/// What a name stands for.
#[derive(Clone, Copy)]
pub enum Sort {
    Command,
    Type,
    Constant,
    Fact,
    Method,
    Attribute,
    Option,
    Role,
    Symbol,
    Wrapper,
    Judgment,
}

/// Why a text, a declaration or a command is refused. Each has one printed text (`Kind::text`), but for want of memory, which is never printed.
#[derive(Drop)]
pub enum Kind {
    /// A byte that is not allowed.
    Byte,
    /// The file ends in a comment.
    OpenComment,
    /// The file ends in a quoted text.
    OpenText,
    /// Comments, cartouches, parentheses, binders or operators nested deeper than 500.
    Deep,
    /// A number outside its range.
    Number,
    /// Another token stands where this is needed.
    Expected(What),
    /// Nothing of the sort has this name.
    Unknown(Sort, Name),
    /// Something of the sort has this name already.
    Duplicate(Sort, Name),
    /// The token has a notation, or none can be declared for it.
    Token(Name),
    /// A type constructor with another number of arguments than declared.
    Arity(Name),
    /// There is no principal type, or a constant's type doesn't fit its notation or the judgment.
    Types,
    /// A judgment is needed, and none is declared.
    Judgment,
    /// An unknown of this name stands in the text of a lemma.
    Schematic(Name),
    /// The fact gives no equation.
    NotEquation,
    /// The left side of a rule is no pattern.
    NotPattern,
    /// An unknown of this name isn't on the left side of its rule.
    ExtraVar(Name),
    /// The fact is no split rule.
    NotSplit,
    /// The fact is no elimination rule.
    NotElim,
    /// The fact doesn't have the form that this role asks for.
    Role(Name),
    /// The command doesn't stand in a proof, and one is open.
    InProof,
    /// The command belongs to a proof, and none is open.
    NoProof,
    /// The file ends in a proof.
    OpenProof,
    /// The language has it, and the program does not yet.
    NotBuilt,
    /// No memory was left.
    Memory,
}

impl From<AllocError> for Kind {
    ghost from_gives = { λ _ e. e ≡ kind.Memory };

    fn from(_: AllocError) -> Kind {
        Kind::Memory
    }
}

impl<T: Drop> From<AllocFailed<T>> for Kind {
    ghost from_gives = { λ _ e. e ≡ kind.Memory };

    fn from(_: AllocFailed<T>) -> Kind {
        Kind::Memory
    }
}

/// A refusal: its line in the file, counted from 1, and its kind.
#[derive(Drop)]
pub struct Refused {
    pub line: u64,
    pub kind: Kind,
}

impl<T: Drop> From<AllocFailed<T>> for Refused {
    ghost from_gives = { λ _ e. e.kind ≡ kind.Memory };

    fn from(_: AllocFailed<T>) -> Refused {
        Refused {
            line: 0,
            kind: Kind::Memory,
        }
    }
}

impl From<AllocError> for Refused {
    ghost from_gives = { λ _ e. e.kind ≡ kind.Memory };

    fn from(_: AllocError) -> Refused {
        Refused {
            line: 0,
            kind: Kind::Memory,
        }
    }
}
