//! Signs and how they are spelled.
ghost use Rattle.std.specs.Prelude.{◌≡◌, length, take, [], OnOk, OnErr};
ghost use Rattle.indexmap.specs.IndexMap.{insert_entry};
ghost use Rattle.isa_terms.specs.Equal.{name_eq};
ghost use Rattle.isa_inner_tokens.specs.Cutting.{spelled};
ghost use Rattle.isa_inner_tokens.specs.Lengths.{AreWithin};

use indexmap::IndexMap;
use isa_inner::Token;
use isa_terms::Name;
use std::alloc::{AllocError, Global};
use std::marker::Model;

/// Punctuation of types alone.
#[derive(Clone, Copy, Debug, PartialEq, Eq)]
pub enum TypeMark {
    /// `=>`
    Arrow,
    /// `[`
    OpenList,
    /// `]`
    CloseList,
    /// `,`
    Comma,
}

/// What a spelling stands for: a token of terms, punctuation of types included that terms have too, or one of types alone.
#[derive(Clone, Copy, Debug, PartialEq, Eq)]
pub enum Sign {
    Term(Token),
    Type(TypeMark),
}

/// A table of signs by their spellings, which contracts see as the list of spellings with their signs.
#[derive(Drop)]
pub struct Signs {
    entries: IndexMap<Name, Sign>,
    /// No spelling has more bytes.
    longest: usize,
}

impl Model for Signs {
    ghost use Rattle.std.specs.Prelude.{List, ℕ};
    ghost use Rattle.isa_inner_tokens.specs.declared.sign.Sign.{Sign};

    ghost Value = { List (List ℕ × Sign) };

    ghost use Rattle.isa_inner_tokens.specs.Lengths.{AreWithin};

    ghost view = { λ s. s.entries.entries };

    ghost invariant = { λ s. AreWithin s.longest s.entries.entries };
}

impl Signs {
    /// The table without signs.
    pub fn new(alloc: Global) -> Signs
        ensures { result ≡ [] }
    {
        Signs {
            entries: IndexMap::new(alloc),
            longest: 0,
        }
    }

    /// How many spellings there are.
    pub fn len(&self) -> usize
        ensures { result ≡ length self.now }
    {
        self.entries.len()
    }

    /// A number of bytes that no spelling exceeds.
    pub(crate) fn longest(&self) -> usize
        ensures { AreWithin result self.now }
    {
        self.longest
    }

    /// Gives a spelling its sign, in place of one that it had.
    #[tactic(auto, using(crate::proofs::Lengths::within_more, crate::proofs::Lengths::within_put))]
    pub fn declare(&mut self, spelling: Name, sign: Sign) -> Result<(), AllocError>
        ensures ok { OnOk result (self.new ≡ insert_entry name_eq self.old spelling sign) }
        ensures err { OnErr result (self.new ≡ self.old) }
    {
        self.longest = self.longest.max(spelling.len());
        match self.entries.insert(spelling, sign) {
            Ok(_) => Ok(()),
            Err(_) => Err(AllocError),
        }
    }

    /// The sign with this spelling.
    pub fn sign(&self, spelling: &Name) -> Option<Sign>
        ensures { result ≡ spelled self.now spelling.now }
    {
        self.entries.get(spelling).copied()
    }

    /// Keeps the first spellings.
    #[tactic(auto, using(crate::proofs::Lengths::within_first))]
    pub fn truncate(&mut self, len: usize)
        ensures { self.new ≡ take len self.old }
    {
        self.entries.truncate(len);
    }
}
