//! Rewrite rules.
ghost use Rattle.std.specs.Prelude.{◌≡◌, ◌++◌, [], Some, List, IfOk, option_map};
ghost use Rattle.isa_simprules.specs.Rules.{Rule, rule_of, rules_in, IsRule};

use crate::renaming::is_renamed;
use isa_kernel::{Thm, split_eq};
use isa_subgoal::split_all_premises;
use isa_terms::{Term, Terms, copied};
use std::alloc::{AllocError, Global};
use std::marker::Model;

/// A rule `conditions ==> left == right`, with the theorem that says so.
#[derive(Drop)]
pub struct Rule {
    conditions: Terms,
    left: Term,
    right: Term,
    permutes: bool,
    thm: Thm,
}

impl Model for Rule {
    ghost use Rattle.isa_simprules.specs.Rules.{Rule, rule_code, IsRule};

    ghost Value = { Rule };

    ghost coded = { rule_code };

    ghost view = { λ a. record { conditions = a.conditions; left = a.left; right = a.right; permutes = a.permutes; thm = a.thm } };

    ghost invariant = { λ a. IsRule (record { conditions = a.conditions; left = a.left; right = a.right; permutes = a.permutes; thm = a.thm }) };
}

impl Rule {
    /// The conditions, in their order.
    pub fn conditions(&self) -> &[Term]
        ensures { result.now ≡ self.now.conditions }
    {
        self.conditions.as_slice()
    }

    /// The left side.
    pub fn left(&self) -> &Term
        ensures { result.now ≡ self.now.left }
    {
        &self.left
    }

    /// The right side.
    pub fn right(&self) -> &Term
        ensures { result.now ≡ self.now.right }
    {
        &self.right
    }

    /// Whether the sides are equal up to a renaming of unknowns.
    pub fn permutes(&self) -> bool
        ensures { result ≡ self.now.permutes }
    {
        self.permutes
    }

    /// The theorem.
    pub fn thm(&self) -> &Thm
        ensures { result.now ≡ self.now.thm }
    {
        &self.thm
    }

    /// The rule is what its theorem says.
    pub fn recall_theorem(&self)
        ensures { IsRule self.now }
    {
        let _ = &self.thm;
    }

    /// An equal rule, which shares its terms.
    pub fn copy(&self, alloc: Global) -> Result<Rule, AllocError>
        ensures { IfOk result (λ r. r ≡ self.now) }
    {
        Ok(Rule {
            conditions: copied(alloc, self.conditions.as_slice())?,
            left: self.left.copy()?,
            right: self.right.copy()?,
            permutes: self.permutes,
            thm: self.thm.copy(alloc)?,
        })
    }
}

/// The theorem as a rule, where its conclusion is an equation.
#[tactic(auto, using(crate::proofs::Granting::rule_made))]
pub fn rule_of(alloc: Global, th: &Thm) -> Result<Option<Rule>, AllocError>
    ensures { IfOk result (λ o. o ≡ rule_of th.now) }
{
    let form = split_all_premises(th.prop(), Terms::new(alloc))?;
    let Some((_, left, right)) = split_eq(&form.conclusion) else {
        return Ok(None);
    };
    let permutes = is_renamed(alloc, left, right)?;
    let left = left.copy()?;
    let right = right.copy()?;
    let thm = th.copy(alloc)?;
    let rule = Rule {
        conditions: form.premises,
        left,
        right,
        permutes,
        thm,
    };
    Ok(Some(rule))
}

/// Those of the theorems that are rules, behind what is done.
pub fn rules_in(
    alloc: Global,
    theorems: &[Thm],
    mut done: Vec<Rule>,
) -> Result<Vec<Rule>, AllocError>
    ensures { IfOk result (λ r. r.items ≡ done.items ++ rules_in theorems.now) }
{
    let Some((first, rest)) = theorems.split_first() else {
        return Ok(done);
    };
    let Some(rule) = rule_of(alloc, first)? else {
        return rules_in(alloc, rest, done);
    };
    done.push(rule)?;
    rules_in(alloc, rest, done)
}
