//! Simpsets.
ghost use Rattle.std.specs.Prelude.{◌≡◌, [], IfOk, OnOk, OnErr, slice_get, option_map};
ghost use Rattle.std.specs.Option.{option_copied};
ghost use Rattle.isa_simpset.specs.Lists.{is_fact_of};
ghost use Rattle.isa_simpset.specs.Simpsets.{no_rules, with_logic, cleared, added, deleted, cong_added, cong_deleted, split_added, split_deleted, looper_added, proc_added, with_solver, Answers};

use crate::congs::Congs;
use crate::fail::SimpFail;
use crate::procs::{Proc, ProcRule, ProcRules};
use crate::refusals::{proc_of, proc_refusal, rules_for, rules_refusal, split_of, split_refusal};
use crate::rules::Rules;
use isa_kernel::{Logic, Thm, Thms};
use isa_simprules::cong_of;
use isa_terms::same_term;
use std::alloc::{AllocError, Global};

/// What the simplifier works by. Each list stands in the order in which it is tried.
#[derive(Drop)]
pub struct Simpset {
    /// The facts of the object logic, by their roles.
    logic: Logic,
    /// Rewrite rules by rank: fewer conditions first, then the later declared.
    rules: Rules,
    /// Congruence rules, the latest first.
    congs: Congs,
    /// Split rules, the latest first.
    splits: Rules,
    /// Facts of simplification procedures, in declared order.
    procs: ProcRules,
    /// Added solvers, in declared order.
    solvers: Thms,
    /// Added loopers, in declared order.
    loopers: Rules,
}

/// Whether one of the facts states the proposition of that one.
fn is_fact_of(facts: &[Thm], fact: &Thm) -> bool
    ensures { result ≡ is_fact_of facts.now fact.now.prop }
{
    for other in facts {
        if same_term(other.prop(), fact.prop()) {
            return true;
        }
    }
    false
}

impl Simpset {
    /// A simpset without rules, for that logic.
    pub fn new(alloc: Global, logic: &Logic) -> Result<Simpset, AllocError>
        ensures { IfOk result (λ s. s ≡ no_rules logic.now) }
    {
        Ok(Simpset {
            logic: logic.copy(alloc)?,
            rules: Rules::new(alloc),
            congs: Congs::new(alloc),
            splits: Rules::new(alloc),
            procs: ProcRules::new(alloc),
            solvers: Thms::new(alloc),
            loopers: Rules::new(alloc),
        })
    }

    /// An equal simpset, whose theorems are shared.
    pub fn copy(&self, alloc: Global) -> Result<Simpset, AllocError>
        ensures { IfOk result (λ s. s ≡ self.now) }
    {
        Ok(Simpset {
            logic: self.logic.copy(alloc)?,
            rules: self.rules.copy(alloc)?,
            congs: self.congs.copy(alloc)?,
            splits: self.splits.copy(alloc)?,
            procs: self.procs.copy(alloc)?,
            solvers: self.solvers.copy(alloc)?,
            loopers: self.loopers.copy(alloc)?,
        })
    }

    /// The roles in force.
    pub fn logic(&self) -> &Logic
        ensures { result.now ≡ self.now.logic }
    {
        &self.logic
    }

    /// Puts other roles in force; what is there stays.
    pub fn set_logic(&mut self, alloc: Global, logic: &Logic) -> Result<(), AllocError>
        ensures ok { OnOk result (self.new ≡ with_logic logic.now self.old) }
        ensures err { OnErr result (self.new ≡ self.old) }
    {
        let other = logic.copy(alloc)?;
        self.logic = other;
        Ok(())
    }

    /// The rewrite rules, by rank: fewer conditions first, then the later declared.
    pub fn rules(&self) -> &Rules
        ensures { result.now ≡ self.now.rules }
    {
        &self.rules
    }

    /// The congruence rules, the latest first.
    pub fn congs(&self) -> &Congs
        ensures { result.now ≡ self.now.congs }
    {
        &self.congs
    }

    /// The split rules, the latest first.
    pub fn splits(&self) -> &Rules
        ensures { result.now ≡ self.now.splits }
    {
        &self.splits
    }

    /// The facts of simplification procedures, in declared order.
    pub fn procs(&self) -> &ProcRules
        ensures { result.now ≡ self.now.procs }
    {
        &self.procs
    }

    /// The added solvers, in declared order.
    pub fn solvers(&self) -> &Thms
        ensures { result.now ≡ self.now.solvers }
    {
        &self.solvers
    }

    /// The added loopers, in declared order.
    pub fn loopers(&self) -> &Rules
        ensures { result.now ≡ self.now.loopers }
    {
        &self.loopers
    }

    /// The theorem of the rewrite rule at that place, counted from 0; `None` exactly past the end.
    pub fn rule(&self, place: usize) -> Option<&Thm>
        ensures { option_copied result ≡ option_map (λ r. r.thm) (slice_get self.now.rules place) }
    {
        self.rules.thm(place)
    }

    /// The theorem of the congruence rule at that place.
    pub fn cong(&self, place: usize) -> Option<&Thm>
        ensures { option_copied result ≡ option_map (λ c. c.thm) (slice_get self.now.congs place) }
    {
        self.congs.thm(place)
    }

    /// The theorem of the split rule at that place.
    pub fn split_rule(&self, place: usize) -> Option<&Thm>
        ensures { option_copied result ≡ option_map (λ r. r.thm) (slice_get self.now.splits place) }
    {
        self.splits.thm(place)
    }

    /// The fact of a simplification procedure at that place.
    pub fn proc_rule(&self, place: usize) -> Option<&ProcRule>
        ensures { option_copied result ≡ slice_get self.now.procs place }
    {
        self.procs.get(place)
    }

    /// The added solver at that place.
    pub fn solver(&self, place: usize) -> Option<&Thm>
        ensures { option_copied result ≡ slice_get self.now.solvers place }
    {
        self.solvers.as_slice().get(place)
    }

    /// The theorem of the added looper at that place.
    pub fn looper(&self, place: usize) -> Option<&Thm>
        ensures { option_copied result ≡ option_map (λ r. r.thm) (slice_get self.now.loopers place) }
    {
        self.loopers.thm(place)
    }

    /// Takes out all rewrite rules, congruence rules and split rules, and leaves all else.
    pub fn clear(&mut self)
        ensures { self.new ≡ cleared self.old }
    {
        self.rules.clear();
        self.congs.clear();
        self.splits.clear();
    }

    /// Adds the rewrite rules of a fact. Those that are there change nothing.
    #[tactic(auto, using(crate::proofs::Answering::refused, crate::proofs::Answering::added_refused, crate::proofs::Answering::added_ok))]
    pub fn add(&mut self, alloc: Global, fact: &Thm) -> Result<(), SimpFail>
        ensures { Answers result self.old (added self.old fact.now) self.new }
    {
        let rules = rules_for(alloc, &self.logic, fact)?;
        if let Some(fail) = rules_refusal(alloc, rules.as_slice())? {
            return Err(fail);
        }
        self.rules.add_all(alloc, rules.as_slice())?;
        Ok(())
    }

    /// Takes out the rewrite rules of a fact. `NotThere` comes exactly where none of them is there.
    #[tactic(auto, using(crate::proofs::Answering::deleted_refused, crate::proofs::Answering::deleted_ok))]
    pub fn del(&mut self, alloc: Global, fact: &Thm) -> Result<(), SimpFail>
        ensures { Answers result self.old (deleted self.old fact.now) self.new }
    {
        let rules = rules_for(alloc, &self.logic, fact)?;
        if !self.rules.has_some(rules.as_slice()) {
            return Err(SimpFail::NotThere);
        }
        self.rules.take_out_all(rules.as_slice());
        Ok(())
    }

    /// Adds a congruence rule, which is tried before those that are there.
    #[tactic(auto, using(crate::proofs::Answering::cong_refused, crate::proofs::Answering::cong_there, crate::proofs::Answering::cong_ok))]
    pub fn add_cong(&mut self, alloc: Global, fact: &Thm) -> Result<(), SimpFail>
        ensures { Answers result self.old (cong_added self.old fact.now) self.new }
    {
        let Some(cong) = cong_of(alloc, fact)? else {
            return Err(SimpFail::NotEquation);
        };
        if self.congs.states(cong.thm().prop()) {
            return Ok(());
        }
        self.congs.add(cong)?;
        Ok(())
    }

    /// Takes out a congruence rule.
    #[tactic(auto, using(crate::proofs::Answering::cong_not_there, crate::proofs::Answering::cong_deleted_ok))]
    pub fn del_cong(&mut self, fact: &Thm) -> Result<(), SimpFail>
        ensures { Answers result self.old (cong_deleted self.old fact.now) self.new }
    {
        if !self.congs.states(fact.prop()) {
            return Err(SimpFail::NotThere);
        }
        self.congs.take_out(fact.prop());
        Ok(())
    }

    /// Adds a split rule, which is tried before those that are there.
    #[tactic(auto, using(crate::proofs::Answering::refused, crate::proofs::Answering::split_refused, crate::proofs::Answering::split_ok))]
    pub fn add_split(&mut self, alloc: Global, fact: &Thm) -> Result<(), SimpFail>
        ensures { Answers result self.old (split_added self.old fact.now) self.new }
    {
        let found = split_of(alloc, &self.logic, fact)?;
        if let Some(fail) = split_refusal(alloc, &found)? {
            return Err(fail);
        }
        self.splits.add_found(alloc, &found)?;
        Ok(())
    }

    /// Takes out a split rule.
    #[tactic(auto, using(crate::proofs::Answering::no_split, crate::proofs::Answering::split_not_there, crate::proofs::Answering::split_deleted_ok))]
    pub fn del_split(&mut self, alloc: Global, fact: &Thm) -> Result<(), SimpFail>
        ensures { Answers result self.old (split_deleted self.old fact.now) self.new }
    {
        let Some(rule) = split_of(alloc, &self.logic, fact)? else {
            return Err(SimpFail::NotThere);
        };
        if !self.splits.states(rule.thm().prop()) {
            return Err(SimpFail::NotThere);
        }
        self.splits.take_out(rule.thm().prop());
        Ok(())
    }

    /// Adds a split rule that is tried after the split rules, and after the loopers that are there.
    #[tactic(auto, using(crate::proofs::Answering::refused, crate::proofs::Answering::looper_refused, crate::proofs::Answering::looper_ok))]
    pub fn add_looper(&mut self, alloc: Global, fact: &Thm) -> Result<(), SimpFail>
        ensures { Answers result self.old (looper_added self.old fact.now) self.new }
    {
        let found = split_of(alloc, &self.logic, fact)?;
        if let Some(fail) = split_refusal(alloc, &found)? {
            return Err(fail);
        }
        self.loopers.add_last(found)?;
        Ok(())
    }

    /// Adds a fact of a simplification procedure, behind those that are there.
    #[tactic(auto, using(crate::proofs::Answering::refused, crate::proofs::Answering::proc_refused, crate::proofs::Answering::proc_ok))]
    pub fn add_proc(&mut self, alloc: Global, proc: Proc, fact: &Thm) -> Result<(), SimpFail>
        ensures { Answers result self.old (proc_added proc self.old fact.now) self.new }
    {
        let found = proc_of(alloc, proc, &self.logic, fact)?;
        if let Some(fail) = proc_refusal(alloc, &found)? {
            return Err(fail);
        }
        self.procs.add(alloc, proc, &found)?;
        Ok(())
    }

    /// Adds a fact that solves what it matches, behind those that are there.
    #[tactic(auto, using(crate::proofs::Answering::solver_there, crate::proofs::Answering::solver_new))]
    pub fn add_solver(&mut self, alloc: Global, fact: &Thm) -> Result<(), AllocError>
        ensures ok { OnOk result (self.new ≡ with_solver self.old fact.now) }
        ensures err { OnErr result (self.new ≡ self.old) }
    {
        if is_fact_of(self.solvers.as_slice(), fact) {
            return Ok(());
        }
        let other = fact.copy(alloc)?;
        self.solvers.push(other)?;
        Ok(())
    }
}
