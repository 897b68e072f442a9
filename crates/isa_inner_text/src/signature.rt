//! What is declared that the reading of a text needs.
ghost use Rattle.std.specs.Prelude.{◌≡◌, None, length, IfOk, OnOk, OnErr};
ghost use Rattle.std.specs.Option.{option_copied};
ghost use Rattle.isa_inner_tokens.specs.Cutting.{spelled};
ghost use Rattle.isa_inner_text.specs.Signatures.{arity_of, fixed_signature, with_arity, with_sign, with_judgment, first_part};
ghost use Rattle.isa_inner_text.specs.Signature.{constant};

use indexmap::IndexMap;
use isa_inner_tokens::{Sign, Signs, declare_fixed};
use isa_terms::Name;
use std::alloc::{AllocError, Global};
use std::marker::Model;

/// What a text may use: the type constructors, the signs, the constants that they name, and the judgment.
#[derive(Drop)]
pub struct Signature {
    /// How many arguments each type constructor takes.
    arities: IndexMap<Name, usize>,
    /// The fixed signs, and those of declared notations.
    signs: Signs,
    /// The constants with notation, by their numbers in the signs.
    notated: Vec<Name>,
    /// The judgment, where one is declared.
    judgment: Option<Name>,
}

impl Model for Signature {
    ghost use Rattle.isa_inner_text.specs.Signatures.{SignatureSeen};

    ghost Value = { SignatureSeen };

    ghost view = { λ s. record { arities = s.arities.entries; signs = s.signs; notated = s.notated.items; judgment = s.judgment } };
}

impl Signature {
    /// The signature with the fixed signs alone.
    pub fn new(alloc: Global) -> Result<Signature, AllocError>
        ensures { IfOk result (λ sig. sig ≡ fixed_signature) }
    {
        let mut signs = Signs::new(alloc);
        declare_fixed(alloc, &mut signs)?;
        Ok(Signature {
            arities: IndexMap::new(alloc),
            signs,
            notated: Vec::new(alloc),
            judgment: None,
        })
    }

    /// How many arguments the type constructor takes, where it is declared.
    pub fn arity(&self, name: &Name) -> Option<usize>
        ensures { result ≡ arity_of self.now name.now }
    {
        self.arities.get(name).copied()
    }

    /// The fixed signs, and those of declared notations.
    pub fn signs(&self) -> &Signs
        ensures { result.now ≡ self.now.signs }
    {
        &self.signs
    }

    /// The constants with notation, by their numbers in the signs.
    pub fn notated(&self) -> &[Name]
        ensures { result.now ≡ self.now.notated }
    {
        self.notated.as_slice()
    }

    /// The judgment, where one is declared.
    pub fn judgment(&self) -> Option<&Name>
        ensures { option_copied result ≡ self.now.judgment }
    {
        self.judgment.as_ref()
    }

    /// How many type constructors there are.
    pub fn types(&self) -> usize
        ensures { result ≡ length self.now.arities }
    {
        self.arities.len()
    }

    /// Puts a type constructor of a new name last.
    #[tactic(auto, using(crate::proofs::Putting::put_new))]
    pub fn put_arity(&mut self, name: Name, arity: usize) -> Result<(), AllocError>
        requires new { arity_of self.old name ≡ None }
        ensures ok { OnOk result (self.new ≡ with_arity self.old name arity) }
        ensures err { OnErr result (self.new ≡ self.old) }
    {
        match self.arities.insert(name, arity) {
            Ok(_) => Ok(()),
            Err(_) => Err(AllocError),
        }
    }

    /// Puts a sign of a new spelling last, with the constant that it names.
    #[tactic(auto, using(crate::proofs::Putting::put_new))]
    pub fn put_sign(&mut self, spelling: Name, sign: Sign, constant: Name) -> Result<(), AllocError>
        requires new { spelled self.old.signs spelling ≡ None }
        ensures ok { OnOk result (self.new ≡ with_sign self.old spelling sign constant) }
        ensures err { OnErr result (self.new ≡ self.old) }
    {
        let Ok(()) = self.notated.push(constant) else {
            return Err(AllocError);
        };
        match self.signs.declare(spelling, sign) {
            Ok(()) => Ok(()),
            Err(_) => {
                let _ = self.notated.pop();
                Err(AllocError)
            }
        }
    }

    /// Puts the judgment in force.
    pub fn set_judgment(&mut self, name: Name)
        ensures { self.new ≡ with_judgment self.old name }
    {
        self.judgment = Some(name);
    }

    /// Keeps the first type constructors, signs and constants that they name, and the judgment where that is to stay.
    pub fn cut(&mut self, types: usize, signs: usize, notated: usize, judgment: bool)
        ensures { self.new ≡ first_part types signs notated judgment self.old }
    {
        self.arities.truncate(types);
        self.signs.truncate(signs);
        self.notated.truncate(notated);
        if !judgment {
            self.judgment = None;
        }
    }
}

/// The constant that a sign names by this number; the empty name where there is none.
pub(crate) fn constant(alloc: Global, sig: &Signature, number: u64) -> Result<Name, AllocError>
    ensures { IfOk result (λ name. name ≡ constant sig.now number) }
{
    match sig.notated().get(number as usize) {
        None => Ok(Name::new(alloc)),
        Some(name) => name.copy(),
    }
}
