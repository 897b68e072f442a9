//! Simplification procedures, by the facts that they use.
ghost use Rattle.std.specs.Prelude.{◌≡◌, ◌∷◌, ◌++◌, [], IfOk, OnOk, OnErr, slice_get};
ghost use Rattle.std.specs.Option.{option_copied};
ghost use Rattle.isa_simpset.specs.Lists.{same_proc, has_proc, with_proc_of};
ghost use Rattle.isa_simpset.specs.Refusals.{conditions_of};

use isa_kernel::Thm;
use isa_simprules::Rule;
use isa_terms::{Term, same_term};
use std::alloc::{AllocError, Global};
use std::marker::Model;

/// The kinds of facts that simplification procedures use.
#[derive(Clone, Copy, Drop)]
pub enum Proc {
    /// `~ x = y ==> (y = x) == False`: used where a premise is the condition.
    Neq,
    /// `(EX x. x = t & P x) == P t`: the quantifier goes, once the equation stands in front.
    OnePoint,
    /// `(e & L) & R == e & (L & R)`
    PullAssoc,
    /// `L & (e & R) == e & (L & R)`
    PullLeft,
    /// `L & e == e & L`
    PullSwap,
}

/// A fact of a simplification procedure, as an equation.
#[derive(Drop)]
pub struct ProcRule {
    pub proc: Proc,
    pub fact: Thm,
}

impl ProcRule {
    /// An equal one, whose theorem is shared.
    pub fn copy(&self, alloc: Global) -> Result<ProcRule, AllocError>
        ensures { IfOk result (λ r. r ≡ self.now) }
    {
        Ok(ProcRule {
            proc: self.proc,
            fact: self.fact.copy(alloc)?,
        })
    }
}

/// Whether they are the same kind.
fn same_proc(first: Proc, second: Proc) -> bool
    ensures { result ≡ same_proc first second }
{
    match (first, second) {
        (Proc::Neq, Proc::Neq)
        | (Proc::OnePoint, Proc::OnePoint)
        | (Proc::PullAssoc, Proc::PullAssoc)
        | (Proc::PullLeft, Proc::PullLeft)
        | (Proc::PullSwap, Proc::PullSwap) => true,
        _ => false,
    }
}

/// How many conditions a fact of the kind has.
pub(crate) fn conditions_of(proc: Proc) -> usize
    ensures { result ≡ conditions_of proc }
{
    match proc {
        Proc::Neq => 1,
        Proc::OnePoint | Proc::PullAssoc | Proc::PullLeft | Proc::PullSwap => 0,
    }
}

/// Whether a fact of the kind states the proposition.
fn has_proc(proc: Proc, prop: &Term, procs: &[ProcRule]) -> bool
    ensures { result ≡ has_proc proc prop.now procs.now }
{
    for other in procs {
        if same_proc(other.proc, proc) && same_term(other.fact.prop(), prop) {
            return true;
        }
    }
    false
}

/// A list of facts of simplification procedures, in the order in which they are tried.
#[derive(Drop)]
pub struct ProcRules {
    items: Vec<ProcRule>,
}

impl Model for ProcRules {
    ghost use Rattle.std.specs.Prelude.{List};
    ghost use Rattle.std.specs.Coded.{coded_list};
    ghost use Rattle.isa_simpset.specs.declared.procs.ProcRule.{ProcRule};
    ghost use Rattle.isa_simpset.specs.Lists.{proc_code};

    ghost Value = { List ProcRule };

    ghost coded = { coded_list proc_code };

    ghost view = { λ a. a.items.items };
}

/// Equal ones, which share their terms.
fn copied_procs(alloc: Global, rules: &[ProcRule]) -> Result<Vec<ProcRule>, AllocError>
    ensures { IfOk result (λ r. r.items ≡ rules.now) }
{
    let mut all = Vec::new(alloc);
    for rule in rules {
        all.push(rule.copy(alloc)?)?;
    }
    Ok(all)
}

impl ProcRules {
    /// No fact, which takes no memory.
    pub(crate) fn new(alloc: Global) -> ProcRules
        ensures { result ≡ [] }
    {
        ProcRules {
            items: Vec::new(alloc),
        }
    }

    /// An equal list, whose theorems are shared.
    pub(crate) fn copy(&self, alloc: Global) -> Result<ProcRules, AllocError>
        ensures { IfOk result (λ r. r ≡ self.now) }
    {
        let items = copied_procs(alloc, self.as_slice())?;
        Ok(ProcRules { items })
    }

    /// The facts, in their order.
    pub fn as_slice(&self) -> &[ProcRule]
        ensures { result.now ≡ self.now }
    {
        self.items.as_slice()
    }

    /// The fact at that place, counted from 0; `None` exactly past the end.
    pub fn get(&self, place: usize) -> Option<&ProcRule>
        ensures { option_copied result ≡ slice_get self.now place }
    {
        self.as_slice().get(place)
    }

    /// Puts the fact of that kind, where there is one, behind the others, unless it is there.
    pub(crate) fn add(
        &mut self,
        alloc: Global,
        proc: Proc,
        found: &Option<Rule>,
    ) -> Result<(), AllocError>
        ensures ok { OnOk result (self.new ≡ with_proc_of proc self.old found.now) }
        ensures err { OnErr result (self.new ≡ self.old) }
    {
        match found {
            None => Ok(()),
            Some(rule) => {
                if has_proc(proc, rule.thm().prop(), self.as_slice()) {
                    return Ok(());
                }
                let fact = rule.thm().copy(alloc)?;
                self.items.push(ProcRule { proc, fact })?;
                Ok(())
            }
        }
    }
}
