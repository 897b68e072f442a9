//! The facts of an object logic by their roles.
ghost use Rattle.std.specs.Prelude.{◌≡◌, IfOk};
ghost use Rattle.isa_kernel.specs.Logics.{no_roles};

use crate::thm::Thm;
use crate::thms::Thms;
use std::alloc::{AllocError, Global};

/// The facts of an object logic, by the roles that they play for the proof methods.
/// J is the logic's judgment, N its negation, I implication, E equality and F equivalence.
#[derive(Drop)]
pub struct Logic {
    /// Facts without premises, which close what they match.
    pub close: Thms,
    /// Facts `A ==> J R`, whose premise closes a goal by an assumption.
    pub close_asm: Thms,
    /// Facts by which a fact's conclusion is taken apart.
    pub atomize: Thms,
    /// Facts that turn a conclusion into an equation `l == r`.
    pub meta: Thms,
    /// `J (N P) ==> (J (N R) ==> J P) ==> J R`
    pub swap: Option<Thm>,
    /// `(J (N P) ==> J P) ==> J P`
    pub classical: Option<Thm>,
    /// `J (N P) ==> J P ==> J R`
    pub not_elim: Option<Thm>,
    /// `J (I P Q) ==> J P ==> J Q`
    pub mp: Option<Thm>,
    /// `J (E a b) ==> J (P a) ==> J (P b)`
    pub subst: Option<Thm>,
    /// `J (E a b) ==> J (E b a)`
    pub sym: Option<Thm>,
    /// `J (F P Q) ==> J P ==> J Q`
    pub iff_d1: Option<Thm>,
    /// `J (F P Q) ==> J Q ==> J P`
    pub iff_d2: Option<Thm>,
}

impl Logic {
    /// No fact has a role.
    pub fn new(alloc: Global) -> Logic
        ensures { result ≡ no_roles }
    {
        Logic {
            close: Thms::new(alloc),
            close_asm: Thms::new(alloc),
            atomize: Thms::new(alloc),
            meta: Thms::new(alloc),
            swap: None,
            classical: None,
            not_elim: None,
            mp: None,
            subst: None,
            sym: None,
            iff_d1: None,
            iff_d2: None,
        }
    }

    /// Equal roles, whose theorems are shared.
    pub fn copy(&self, alloc: Global) -> Result<Logic, AllocError>
        ensures { IfOk result (λ l. l ≡ self.now) }
    {
        Ok(Logic {
            close: self.close.copy(alloc)?,
            close_asm: self.close_asm.copy(alloc)?,
            atomize: self.atomize.copy(alloc)?,
            meta: self.meta.copy(alloc)?,
            swap: copied(alloc, &self.swap)?,
            classical: copied(alloc, &self.classical)?,
            not_elim: copied(alloc, &self.not_elim)?,
            mp: copied(alloc, &self.mp)?,
            subst: copied(alloc, &self.subst)?,
            sym: copied(alloc, &self.sym)?,
            iff_d1: copied(alloc, &self.iff_d1)?,
            iff_d2: copied(alloc, &self.iff_d2)?,
        })
    }
}

/// The theorem of a role, shared.
fn copied(alloc: Global, role: &Option<Thm>) -> Result<Option<Thm>, AllocError>
    ensures { IfOk result (λ r. r ≡ role.now) }
{
    match role {
        Some(th) => Ok(Some(th.copy(alloc)?)),
        None => Ok(None),
    }
}
