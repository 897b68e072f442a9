//! Theories: what is declared, and what they accept.
ghost use Rattle.std.specs.Prelude.{◌≡◌, ◌≤◌, None, [], ◌∷◌, ◌++◌, length, take, drop, is_some, IfSome, IfOk, OnOk};
ghost use Rattle.std.specs.Option.{option_copied};
ghost use Rattle.isa_terms.specs.Types.{tys_of};
ghost use Rattle.isa_terms.specs.Typing.{type_at};
ghost use Rattle.isa_kernel.specs.declared.declarations.Declaration.TheVariants.{Constructor, Constant, Axiom};
ghost use Rattle.isa_kernel.specs.Logic.{IsProposition};
ghost use Rattle.isa_kernel.specs.Theories.{arity_of, constant_type, axiom_prop, unknown_in_ty, unknown_in_tys, unknown_in, misfit_in_ty, misfit_in_tys, misfit_in, takes, stands_at, type_refusal, constant_refusal, axiom_refusal, no_prop, Allows, Declares, Puts, types_in, constants_in, axioms_in, pure_types, any_type, pure_constants};

use crate::declarations::{Declaration, TheoryFail};
use crate::form::{is_prop, prop_type, relation_type};
use crate::type_instances::is_instance;
use indexmap::IndexMap;
use isa_terms::{IllTyped, Name, Term, TermNode, Typ, TypNode, function_type, type_of};
use std::alloc::{AllocError, Global};
use std::marker::Model;

/// The declared type constructors, constants and axioms, in the order of their declarations.
#[derive(Drop)]
pub struct Theory {
    declarations: Vec<Declaration>,
    /// Those of the pure logic stand first, here and in `constants`.
    types: IndexMap<Name, u32>,
    constants: IndexMap<Name, Typ>,
    axioms: IndexMap<Name, Term>,
}

impl Model for Theory {
    ghost use Rattle.std.specs.Prelude.{◌≡◌, ◌++◌, List};
    ghost use Rattle.isa_kernel.specs.declared.declarations.Declaration.{Declaration};
    ghost use Rattle.std.specs.Coded.{coded_list};
    ghost use Rattle.isa_kernel.specs.DeclarationCodes.{coded_declaration};
    ghost use Rattle.isa_kernel.specs.Theories.{pure_types, pure_constants, types_in, constants_in, axioms_in, AreProps};

    ghost Value = { List Declaration };

    ghost coded = { coded_list coded_declaration };

    ghost view = { λ a. a.declarations.items };

    ghost invariant = { λ a. (a.types.entries ≡ pure_types ++ types_in a.declarations.items) × (a.constants.entries ≡ pure_constants ++ constants_in a.declarations.items) × (a.axioms.entries ≡ axioms_in a.declarations.items) × AreProps (axioms_in a.declarations.items) };
}

impl Theory {
    /// The theory in which only the pure logic stands.
    pub fn new(alloc: Global) -> Result<Theory, AllocError>
        ensures { IfOk result (λ thy. thy ≡ []) }
    {
        Ok(Theory {
            declarations: Vec::new(alloc),
            types: pure_types(alloc)?,
            constants: pure_constants(alloc)?,
            axioms: IndexMap::new(alloc),
        })
    }

    /// Declares a type constructor with that number of arguments.
    pub fn declare_type(
        &mut self,
        _alloc: Global,
        name: &Name,
        arity: u32,
    ) -> Result<(), TheoryFail>
        ensures { Declares (Constructor name.now arity) (type_refusal self.old name.now) self.old self.new result }
    {
        self.check_type(name)?;
        self.put_type(name.copy()?, arity)
    }

    /// Declares a constant with its general type.
    pub fn declare_const(
        &mut self,
        _alloc: Global,
        name: &Name,
        typ: &Typ,
    ) -> Result<(), TheoryFail>
        ensures { Declares (Constant name.now typ.now) (constant_refusal self.old name.now typ.now) self.old self.new result }
    {
        self.check_constant(name, typ)?;
        self.put_constant(name.copy()?, typ.copy()?)
    }

    /// Declares an axiom.
    pub fn add_axiom(&mut self, alloc: Global, name: &Name, prop: &Term) -> Result<(), TheoryFail>
        ensures { Declares (Axiom name.now prop.now) (axiom_refusal self.old name.now prop.now) self.old self.new result }
    {
        self.check_axiom(alloc, name, prop)?;
        self.put_axiom(name.copy()?, prop.copy()?)
    }

    /// The number of arguments of the type constructor, if it is declared.
    pub fn arity(&self, name: &Name) -> Option<u32>
        ensures { result ≡ arity_of self.now name.now }
    {
        self.types.get(name).copied()
    }

    /// The general type of the constant, if it is declared.
    pub fn constant(&self, name: &Name) -> Option<&Typ>
        ensures { option_copied result ≡ constant_type self.now name.now }
    {
        self.constants.get(name)
    }

    /// The proposition of the axiom, if it is declared.
    #[tactic(auto, using(crate::proofs::Theories::axiom_is_prop))]
    pub fn axiom_prop(&self, name: &Name) -> Option<&Term>
        ensures found { option_copied result ≡ axiom_prop self.now name.now }
        ensures typed { IfSome result (λ p. IsProposition p.now) }
    {
        self.axioms.get(name)
    }

    /// The first type constructor that is not declared.
    #[cycle(unknown)]
    fn unknown_in_typ<'t>(&self, typ: &'t Typ) -> Option<&'t Name>
        ensures { option_copied result ≡ unknown_in_ty self.now typ.now }
    {
        match typ.view() {
            TypNode::Con(name, args) => match self.arity(name) {
                Some(_) => self.unknown_in_typs(args.as_slice()),
                None => Some(name),
            },
            TypNode::Fixed(_) | TypNode::Unknown(_, _) => None,
        }
    }

    #[cycle(unknown)]
    fn unknown_in_typs<'t>(&self, typs: &'t [Typ]) -> Option<&'t Name>
        ensures { option_copied result ≡ unknown_in_tys self.now (tys_of typs.now) }
    {
        let (first, rest) = typs.split_first()?;
        match self.unknown_in_typ(first) {
            Some(name) => Some(name),
            None => self.unknown_in_typs(rest),
        }
    }

    /// The first type constructor or constant that is not declared.
    fn unknown_in<'t>(&self, t: &'t Term) -> Option<&'t Name>
        ensures { option_copied result ≡ unknown_in self.now t.now }
    {
        match t.view() {
            TermNode::Const(name, typ) => match self.constant(name) {
                Some(_) => self.unknown_in_typ(typ),
                None => Some(name),
            },
            TermNode::Free(_, typ) | TermNode::Unknown(_, _, typ) => self.unknown_in_typ(typ),
            TermNode::Bound(_) => None,
            TermNode::Abs(_, typ, body) => match self.unknown_in_typ(typ) {
                Some(name) => Some(name),
                None => self.unknown_in(body),
            },
            TermNode::App(fun, arg) => match self.unknown_in(fun) {
                Some(name) => Some(name),
                None => self.unknown_in(arg),
            },
        }
    }

    /// Whether the type constructor, if declared, has that number of arguments.
    fn takes(&self, name: &Name, count: usize) -> bool
        ensures { result ≡ takes (arity_of self.now name.now) count }
    {
        match self.arity(name) {
            Some(arity) => arity as usize == count,
            None => true,
        }
    }

    /// The first type constructor with another number of arguments than declared.
    #[cycle(misfit)]
    #[tactic(auto, using(isa_terms::proofs::Types::list_of_tys))]
    fn misfit_in_typ<'t>(&self, typ: &'t Typ) -> Option<&'t Name>
        ensures { option_copied result ≡ misfit_in_ty self.now typ.now }
    {
        match typ.view() {
            TypNode::Con(name, args) => {
                if self.takes(name, args.len()) {
                    self.misfit_in_typs(args.as_slice())
                } else {
                    Some(name)
                }
            }
            TypNode::Fixed(_) | TypNode::Unknown(_, _) => None,
        }
    }

    #[cycle(misfit)]
    fn misfit_in_typs<'t>(&self, typs: &'t [Typ]) -> Option<&'t Name>
        ensures { option_copied result ≡ misfit_in_tys self.now (tys_of typs.now) }
    {
        let (first, rest) = typs.split_first()?;
        match self.misfit_in_typ(first) {
            Some(name) => Some(name),
            None => self.misfit_in_typs(rest),
        }
    }

    /// Whether the constant, if declared, may stand at the type.
    fn stands_at(&self, alloc: Global, name: &Name, typ: &Typ) -> Result<bool, AllocError>
        ensures { IfOk result (λ b. b ≡ stands_at (constant_type self.now name.now) typ.now) }
    {
        match self.constant(name) {
            Some(general) => is_instance(alloc, general, typ),
            None => Ok(true),
        }
    }

    /// The first type constructor or constant that is used otherwise than declared.
    fn misfit_in<'t>(&self, alloc: Global, t: &'t Term) -> Result<Option<&'t Name>, AllocError>
        ensures { IfOk result (λ o. option_copied o ≡ misfit_in self.now t.now) }
    {
        match t.view() {
            TermNode::Const(name, typ) => {
                if self.stands_at(alloc, name, typ)? {
                    Ok(self.misfit_in_typ(typ))
                } else {
                    Ok(Some(name))
                }
            }
            TermNode::Free(_, typ) | TermNode::Unknown(_, _, typ) => Ok(self.misfit_in_typ(typ)),
            TermNode::Bound(_) => Ok(None),
            TermNode::Abs(_, typ, body) => match self.misfit_in_typ(typ) {
                Some(name) => Ok(Some(name)),
                None => self.misfit_in(alloc, body),
            },
            TermNode::App(fun, arg) => match self.misfit_in(alloc, fun)? {
                Some(name) => Ok(Some(name)),
                None => self.misfit_in(alloc, arg),
            },
        }
    }

    /// Takes out the declarations behind the first `mark` ones.
    pub fn undo_to(&mut self, mark: usize)
        requires { mark ≤ length self.old }
        ensures { self.new ≡ take mark self.old }
    {
        let (types, constants, axioms) = counts(behind(self.declarations.as_slice(), mark));
        self.types.truncate(self.types.len() - types);
        self.constants.truncate(self.constants.len() - constants);
        self.axioms.truncate(self.axioms.len() - axioms);
        self.declarations.truncate(mark);
    }

    /// Puts a type constructor last.
    fn put_type(&mut self, name: Name, arity: u32) -> Result<(), TheoryFail>
        requires new { arity_of self.old name ≡ None }
        ensures { Puts (Constructor name arity) self.old self.new result }
    {
        let declaration = Declaration::Constructor(name.copy()?, arity);
        let Ok(()) = self.declarations.push(declaration) else {
            return Err(TheoryFail::Memory);
        };
        match self.types.insert(name, arity) {
            Ok(_) => Ok(()),
            Err(_) => {
                let _ = self.declarations.pop();
                Err(TheoryFail::Memory)
            }
        }
    }

    /// Puts a constant last.
    fn put_constant(&mut self, name: Name, typ: Typ) -> Result<(), TheoryFail>
        requires new { constant_type self.old name ≡ None }
        ensures { Puts (Constant name typ) self.old self.new result }
    {
        let declaration = Declaration::Constant(name.copy()?, typ.copy()?);
        let Ok(()) = self.declarations.push(declaration) else {
            return Err(TheoryFail::Memory);
        };
        match self.constants.insert(name, typ) {
            Ok(_) => Ok(()),
            Err(_) => {
                let _ = self.declarations.pop();
                Err(TheoryFail::Memory)
            }
        }
    }

    /// Puts an axiom last.
    fn put_axiom(&mut self, name: Name, prop: Term) -> Result<(), TheoryFail>
        requires new { axiom_prop self.old name ≡ None }
        requires typed { IsProposition prop }
        ensures { Puts (Axiom name prop) self.old self.new result }
    {
        let declaration = Declaration::Axiom(name.copy()?, prop.copy()?);
        let Ok(()) = self.declarations.push(declaration) else {
            return Err(TheoryFail::Memory);
        };
        match self.axioms.insert(name, prop) {
            Ok(_) => Ok(()),
            Err(_) => {
                let _ = self.declarations.pop();
                Err(TheoryFail::Memory)
            }
        }
    }

    /// Asks that the type constructor may be declared.
    fn check_type(&self, name: &Name) -> Result<(), TheoryFail>
        ensures allows { Allows result (type_refusal self.now name.now) }
        ensures new { OnOk result (arity_of self.now name.now ≡ None) }
    {
        match self.arity(name) {
            Some(_) => Err(TheoryFail::Duplicate(name.copy()?)),
            None => Ok(()),
        }
    }

    /// Asks that the constant may be declared.
    fn check_constant(&self, name: &Name, typ: &Typ) -> Result<(), TheoryFail>
        ensures allows { Allows result (constant_refusal self.now name.now typ.now) }
        ensures new { OnOk result (constant_type self.now name.now ≡ None) }
    {
        if let Some(_) = self.constant(name) {
            return Err(TheoryFail::Duplicate(name.copy()?));
        }
        if let Some(unknown) = self.unknown_in_typ(typ) {
            return Err(TheoryFail::Unknown(unknown.copy()?));
        }
        match self.misfit_in_typ(typ) {
            Some(misfit) => Err(TheoryFail::Misfit(misfit.copy()?)),
            None => Ok(()),
        }
    }

    /// Asks that the axiom may be declared.
    fn check_axiom(&self, alloc: Global, name: &Name, prop: &Term) -> Result<(), TheoryFail>
        ensures allows { Allows result (axiom_refusal self.now name.now prop.now) }
        ensures new { OnOk result (axiom_prop self.now name.now ≡ None) }
        ensures typed { OnOk result (IsProposition prop.now) }
    {
        if let Some(_) = self.axiom_prop(name) {
            return Err(TheoryFail::Duplicate(name.copy()?));
        }
        if let Some(unknown) = self.unknown_in(prop) {
            return Err(TheoryFail::Unknown(unknown.copy()?));
        }
        if let Some(misfit) = self.misfit_in(alloc, prop)? {
            return Err(TheoryFail::Misfit(misfit.copy()?));
        }
        check_prop(alloc, prop)
    }

    /// The number of declarations that were made and still stand.
    pub fn mark(&self) -> usize
        ensures { result ≡ length self.now }
    {
        self.declarations.len()
    }
}

/// Asks that the term is a well-typed proposition.
#[tactic(auto, using(crate::proofs::Theories::is_prop))]
fn check_prop(alloc: Global, t: &Term) -> Result<(), TheoryFail>
    ensures allows { Allows result (no_prop (type_at [] t.now)) }
    ensures typed { OnOk result (IsProposition t.now) }
{
    match type_of(alloc, t) {
        Ok(typ) => {
            if is_prop(&typ) {
                Ok(())
            } else {
                Err(TheoryFail::NotProp(typ))
            }
        }
        Err(IllTyped::Memory) => Err(TheoryFail::Memory),
        Err(fault) => Err(TheoryFail::IllTyped(fault)),
    }
}

/// The declarations behind the first `mark` ones.
#[tactic(auto, using(crate::proofs::Theories::behind_all))]
fn behind(declarations: &[Declaration], mark: usize) -> &[Declaration]
    requires { mark ≤ length declarations.now }
    ensures { result.now ≡ drop mark declarations.now }
{
    &declarations[mark..]
}

/// How many type constructors, constants and axioms are among the declarations.
fn counts(declarations: &[Declaration]) -> (usize, usize, usize)
    ensures { result ≡ (length (types_in declarations.now), length (constants_in declarations.now), length (axioms_in declarations.now)) }
{
    let mut types: usize = 0;
    let mut constants: usize = 0;
    let mut axioms: usize = 0;
    for declaration in declarations {
        match declaration {
            Declaration::Constructor(_, _) => types += 1,
            Declaration::Constant(_, _) => constants += 1,
            Declaration::Axiom(_, _) => axioms += 1,
        }
    }
    (types, constants, axioms)
}

/// The type constructors of the pure logic.
fn pure_types(alloc: Global) -> Result<IndexMap<Name, u32>, AllocError>
    ensures { IfOk result (λ m. m.entries ≡ pure_types) }
{
    let mut types = IndexMap::new(alloc);
    types.insert(Name::from_text(alloc, "fun")?, 2)?;
    types.insert(Name::from_text(alloc, "prop")?, 0)?;
    Ok(types)
}

/// The type unknown `?'a`.
fn any_type(alloc: Global) -> Result<Typ, AllocError>
    ensures { IfOk result (λ t. t ≡ any_type) }
{
    Typ::new(alloc, TypNode::Unknown(Name::from_text(alloc, "'a")?, 0))
}

/// The constants of the pure logic.
fn pure_constants(alloc: Global) -> Result<IndexMap<Name, Typ>, AllocError>
    ensures { IfOk result (λ m. m.entries ≡ pure_constants) }
{
    let any = any_type(alloc)?;
    let predicate = function_type(alloc, any.copy()?, prop_type(alloc)?)?;
    let relation = function_type(alloc, any, predicate.copy()?)?;
    let quantifier = function_type(alloc, predicate, prop_type(alloc)?)?;
    let implication = relation_type(alloc, &prop_type(alloc)?)?;
    let mut constants = IndexMap::new(alloc);
    constants.insert(Name::from_text(alloc, "Pure.imp")?, implication)?;
    constants.insert(Name::from_text(alloc, "Pure.eq")?, relation)?;
    constants.insert(Name::from_text(alloc, "Pure.all")?, quantifier)?;
    Ok(constants)
}
