//! What a text is read under.
ghost use Rattle.std.specs.Prelude.{◌≡◌, ◌++◌, ◌∷◌, [], None, Some, IfOk, OnOk, OnErr};
ghost use Rattle.std.specs.Option.{option_copied};
ghost use Rattle.isa_inner_text.specs.Signatures.{arity_of};
ghost use Rattle.isa_syntax.specs.Syntaxes.{constant_type, pure_syntax, with_type, with_constant, with_judgment};
ghost use Rattle.isa_syntax.specs.Notations.{with_notation, is_taken};
ghost use Rattle.isa_syntax.specs.Growing.{Becomes, mark_of, undone};

use crate::notation::{fits_some, greatest, sign_of};
use crate::pure::{pure_constants, pure_signature};
use indexmap::IndexMap;
use isa_inner_text::Signature;
use isa_outer::{Kind, Notation, Sort};
use isa_terms::{Name, Typ};
use std::alloc::{AllocError, Global};
use std::marker::Model;

/// What a text is read under: the declared type constructors, notations, judgment, and constants with their general types.
/// It grows by declarations, and what was declared behind a mark can be taken back.
#[derive(Drop)]
pub struct Syntax {
    signature: Signature,
    constants: IndexMap<Name, Typ>,
}

impl Model for Syntax {
    ghost use Rattle.std.specs.Coded.{codes};
    ghost use Rattle.isa_terms.specs.Codes.{coded_ty};
    ghost use Rattle.isa_syntax.specs.Syntaxes.{SyntaxSeen};

    ghost Value = { SyntaxSeen };

    ghost coded = { Prim.hlevel (codes, coded_ty) };

    ghost view = { λ s. record { signature = s.signature; constants = s.constants.entries } };
}

/// How much is declared.
#[derive(Clone, Copy)]
pub struct Mark {
    pub types: usize,
    pub signs: usize,
    pub notated: usize,
    pub constants: usize,
    pub has_judgment: bool,
}

impl Syntax {
    /// The syntax of the pure logic.
    pub fn new(alloc: Global) -> Result<Syntax, AllocError>
        ensures { IfOk result (λ s. s ≡ pure_syntax) }
    {
        Ok(Syntax {
            signature: pure_signature(alloc)?,
            constants: pure_constants(alloc)?,
        })
    }

    /// The type constructors, signs and judgment.
    pub fn signature(&self) -> &Signature
        ensures { result.now ≡ self.now.signature }
    {
        &self.signature
    }

    /// The constants with their general types.
    pub fn constants(&self) -> &IndexMap<Name, Typ>
        ensures { result.now.entries ≡ self.now.constants }
    {
        &self.constants
    }

    /// The number of arguments of the type constructor, where it is declared.
    pub fn arity(&self, name: &Name) -> Option<usize>
        ensures { result ≡ arity_of self.now.signature name.now }
    {
        self.signature.arity(name)
    }

    /// The general type of the constant, where it is declared.
    pub fn constant(&self, name: &Name) -> Option<&Typ>
        ensures { option_copied result ≡ constant_type self.now name.now }
    {
        self.constants.get(name)
    }

    /// The judgment, where one is declared.
    pub fn judgment(&self) -> Option<&Name>
        ensures { option_copied result ≡ self.now.signature.judgment }
    {
        self.signature.judgment()
    }

    /// Declares a type constructor with that number of arguments. `Duplicate` comes where the name is there.
    #[tactic(auto, unfolding(crate::specs::Syntaxes::with_type))]
    pub fn declare_type(&mut self, name: &Name, arity: usize) -> Result<(), Kind>
        ensures { Becomes self.old self.new (with_type self.old name.now arity) result }
    {
        if self.arity(name).is_some() {
            return Err(Kind::Duplicate(Sort::Type, name.copy()?));
        }
        self.signature.put_arity(name.copy()?, arity)?;
        Ok(())
    }

    /// Declares a constant with its general type. `Duplicate` comes where the name is there.
    #[tactic(auto, unfolding(crate::specs::Syntaxes::with_constant))]
    pub fn declare_constant(&mut self, name: &Name, typ: &Typ) -> Result<(), Kind>
        ensures { Becomes self.old self.new (with_constant self.old name.now typ.now) result }
    {
        if self.constant(name).is_some() {
            return Err(Kind::Duplicate(Sort::Constant, name.copy()?));
        }
        self.put_constant(name.copy()?, typ.copy()?)?;
        Ok(())
    }

    /// Puts a constant of a new name last.
    #[tactic(auto, using(isa_inner_text::proofs::Putting::put_new))]
    fn put_constant(&mut self, name: Name, typ: Typ) -> Result<(), AllocError>
        requires new { constant_type self.old name ≡ None }
        ensures ok { OnOk result (self.new ≡ record self.old { constants = self.old.constants ++ (name, typ) ∷ [] }) }
        ensures err { OnErr result (self.new ≡ self.old) }
    {
        match self.constants.insert(name, typ) {
            Ok(_) => Ok(()),
            Err(_) => Err(AllocError),
        }
    }

    /// Puts the judgment in force. `Duplicate` comes where there is one.
    #[tactic(auto, unfolding(crate::specs::Syntaxes::with_judgment))]
    pub fn declare_judgment(&mut self, name: &Name) -> Result<(), Kind>
        ensures { Becomes self.old self.new (with_judgment self.old name.now) result }
    {
        if self.judgment().is_some() {
            return Err(Kind::Duplicate(Sort::Judgment, name.copy()?));
        }
        self.signature.set_judgment(name.copy()?);
        Ok(())
    }

    /// Whether a sign may not be spelled so.
    fn is_taken(&self, token: &Name) -> bool
        ensures { result ≡ is_taken self.now token.now }
    {
        token.is_empty() || self.signature.signs().sign(token).is_some()
    }

    /// Declares a constant's notation. `Number` comes where the priority is out of its range, `Types` where the constant is
    /// not declared or its type does not fit, and `Token` where the token is empty or is a sign already.
    #[tactic(auto, unfolding(crate::specs::Notations::with_notation))]
    pub fn declare_notation(&mut self, constant: &Name, notation: &Notation) -> Result<(), Kind>
        ensures { Becomes self.old self.new (with_notation self.old constant.now notation.now) result }
    {
        let kind = notation.kind;
        let Ok(priority) = u16::try_from(notation.priority) else {
            return Err(Kind::Number);
        };
        if greatest(kind) < u64::from(priority) {
            return Err(Kind::Number);
        }
        if !fits_some(kind, self.constant(constant)) {
            return Err(Kind::Types);
        }
        if self.is_taken(&notation.token) {
            return Err(Kind::Token(notation.token.copy()?));
        }
        let number = self.signature.notated().len() as u64;
        self.signature.put_sign(
            notation.token.copy()?,
            sign_of(kind, priority, number),
            constant.copy()?,
        )?;
        Ok(())
    }

    /// How much is declared.
    pub fn mark(&self) -> Mark
        ensures { result ≡ mark_of self.now }
    {
        Mark {
            types: self.signature.types(),
            signs: self.signature.signs().len(),
            notated: self.signature.notated().len(),
            constants: self.constants.len(),
            has_judgment: self.judgment().is_some(),
        }
    }

    /// Takes back what was declared behind the mark.
    pub fn undo_to(&mut self, mark: Mark)
        ensures { self.new ≡ undone mark self.old }
    {
        self.signature
            .cut(mark.types, mark.signs, mark.notated, mark.has_judgment);
        self.constants.truncate(mark.constants);
    }
}
