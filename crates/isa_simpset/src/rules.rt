//! Lists of rules.
ghost use Rattle.std.specs.Prelude.{◌≡◌, ◌∷◌, ◌++◌, [], IfOk, OnOk, OnErr, slice_get, option_map};
ghost use Rattle.std.specs.Option.{option_copied};
ghost use Rattle.isa_simpset.specs.Lists.{is_stated, rank_place, place_of, with_rules, with_found, with_last, without_rule, without_rules, has_some};

use isa_kernel::Thm;
use isa_simprules::Rule;
use isa_terms::{Term, same_term};
use std::alloc::{AllocError, Global};
use std::marker::Model;

/// Whether a rule's theorem states the proposition.
fn is_stated(rules: &[Rule], prop: &Term) -> bool
    ensures { result ≡ is_stated rules.now prop.now }
{
    for rule in rules {
        if same_term(rule.thm().prop(), prop) {
            return true;
        }
    }
    false
}

/// How many rules with fewer conditions stand in front.
fn rank_place(rules: &[Rule], conditions: usize) -> usize
    ensures { result ≡ rank_place conditions rules.now }
{
    for (place, rule) in rules.iter().enumerate() {
        if rule.conditions().len() >= conditions {
            return place;
        }
    }
    rules.len()
}

/// The place of the first rule whose theorem states the proposition.
fn place_of(rules: &[Rule], prop: &Term) -> Option<usize>
    ensures { result ≡ place_of prop.now 0 rules.now }
{
    for (place, rule) in rules.iter().enumerate() {
        if same_term(rule.thm().prop(), prop) {
            return Some(place);
        }
    }
    None
}

/// Puts the rules that aren't there in their ranks, the first of them first. Where memory runs out, the list stays as it was.
#[tactic(auto, using(crate::proofs::RankedLists::inserted_is, crate::proofs::RankedLists::removed_is, crate::proofs::RankedLists::rank_within))]
fn add_rules(alloc: Global, rules: &mut Vec<Rule>, others: &[Rule]) -> Result<(), AllocError>
    ensures ok { OnOk result (rules.new.items ≡ with_rules rules.old.items others.now) }
    ensures err { OnErr result (rules.new.items ≡ rules.old.items) }
{
    let Some((first, rest)) = others.split_first() else {
        return Ok(());
    };
    if is_stated(rules.as_slice(), first.thm().prop()) {
        return add_rules(alloc, rules, rest);
    }
    let place = rank_place(rules.as_slice(), first.conditions().len());
    let rule = first.copy(alloc)?;
    rules.insert(place, rule)?;
    match add_rules(alloc, rules, rest) {
        Ok(()) => Ok(()),
        Err(error) => {
            rules.remove(place);
            Err(error)
        }
    }
}

/// Takes out the first rule whose theorem states the proposition, if there is one.
#[tactic(auto, using(crate::proofs::RankedLists::taken_within, crate::proofs::RankedLists::taken_left, crate::proofs::RankedLists::untaken_left))]
fn take_out(rules: &mut Vec<Rule>, prop: &Term)
    ensures { rules.new.items ≡ without_rule prop.now rules.old.items }
{
    match place_of(rules.as_slice(), prop) {
        None => {}
        Some(place) => {
            rules.remove(place);
        }
    }
}

/// Takes out each of the rules.
fn take_out_all(rules: &mut Vec<Rule>, others: &[Rule])
    ensures { rules.new.items ≡ without_rules rules.old.items others.now }
{
    if let Some((first, rest)) = others.split_first() {
        take_out(rules, first.thm().prop());
        take_out_all(rules, rest);
    }
}

/// Whether one of the second rules is among the first.
fn has_some(rules: &[Rule], others: &[Rule]) -> bool
    ensures { result ≡ has_some rules.now others.now }
{
    for other in others {
        if is_stated(rules, other.thm().prop()) {
            return true;
        }
    }
    false
}

/// A list of rules, in the order in which they are tried.
#[derive(Drop)]
pub struct Rules {
    items: Vec<Rule>,
}

impl Model for Rules {
    ghost use Rattle.std.specs.Prelude.{List};
    ghost use Rattle.std.specs.Coded.{coded_list};
    ghost use Rattle.isa_simprules.specs.Rules.{Rule, rule_code};

    ghost Value = { List Rule };

    ghost coded = { coded_list rule_code };

    ghost view = { λ a. a.items.items };
}

/// Equal ones, which share their terms.
fn copied_rules(alloc: Global, rules: &[Rule]) -> Result<Vec<Rule>, AllocError>
    ensures { IfOk result (λ r. r.items ≡ rules.now) }
{
    let mut all = Vec::new(alloc);
    for rule in rules {
        all.push(rule.copy(alloc)?)?;
    }
    Ok(all)
}

impl Rules {
    /// No rule, which takes no memory.
    pub(crate) fn new(alloc: Global) -> Rules
        ensures { result ≡ [] }
    {
        Rules {
            items: Vec::new(alloc),
        }
    }

    /// An equal list, whose rules share their terms.
    pub(crate) fn copy(&self, alloc: Global) -> Result<Rules, AllocError>
        ensures { IfOk result (λ r. r ≡ self.now) }
    {
        let items = copied_rules(alloc, self.as_slice())?;
        Ok(Rules { items })
    }

    /// The rules, in their order.
    pub fn as_slice(&self) -> &[Rule]
        ensures { result.now ≡ self.now }
    {
        self.items.as_slice()
    }

    /// The theorem of the rule at that place, counted from 0; `None` exactly past the end.
    pub fn thm(&self, place: usize) -> Option<&Thm>
        ensures { option_copied result ≡ option_map (λ r. r.thm) (slice_get self.now place) }
    {
        Some(self.as_slice().get(place)?.thm())
    }

    /// Takes out all rules.
    pub(crate) fn clear(&mut self)
        ensures { self.new ≡ [] }
    {
        self.items.clear();
    }

    /// Whether a rule's theorem states the proposition.
    pub(crate) fn states(&self, prop: &Term) -> bool
        ensures { result ≡ is_stated self.now prop.now }
    {
        is_stated(self.as_slice(), prop)
    }

    /// Whether one of the other rules is there.
    pub(crate) fn has_some(&self, others: &[Rule]) -> bool
        ensures { result ≡ has_some self.now others.now }
    {
        has_some(self.as_slice(), others)
    }

    /// Puts the rules that aren't there in their ranks, the first of them first. Where memory runs out, the list stays as it was.
    pub(crate) fn add_all(&mut self, alloc: Global, others: &[Rule]) -> Result<(), AllocError>
        ensures ok { OnOk result (self.new ≡ with_rules self.old others.now) }
        ensures err { OnErr result (self.new ≡ self.old) }
    {
        add_rules(alloc, &mut self.items, others)
    }

    /// Puts the rule, where there is one, in its rank, unless it is there.
    pub(crate) fn add_found(
        &mut self,
        alloc: Global,
        found: &Option<Rule>,
    ) -> Result<(), AllocError>
        ensures ok { OnOk result (self.new ≡ with_found self.old found.now) }
        ensures err { OnErr result (self.new ≡ self.old) }
    {
        match found {
            None => Ok(()),
            Some(rule) => {
                let only = [rule.copy(alloc)?];
                self.add_all(alloc, &only)
            }
        }
    }

    /// Puts the rule, where there is one, behind the others, unless it is there.
    pub(crate) fn add_last(&mut self, found: Option<Rule>) -> Result<(), AllocError>
        ensures ok { OnOk result (self.new ≡ with_last self.old found) }
        ensures err { OnErr result (self.new ≡ self.old) }
    {
        match found {
            None => Ok(()),
            Some(rule) => {
                if self.states(rule.thm().prop()) {
                    return Ok(());
                }
                self.items.push(rule)?;
                Ok(())
            }
        }
    }

    /// Takes out the first rule whose theorem states the proposition, if there is one.
    pub(crate) fn take_out(&mut self, prop: &Term)
        ensures { self.new ≡ without_rule prop.now self.old }
    {
        take_out(&mut self.items, prop);
    }

    /// Takes out each of the rules that is there.
    pub(crate) fn take_out_all(&mut self, others: &[Rule])
        ensures { self.new ≡ without_rules self.old others.now }
    {
        take_out_all(&mut self.items, others);
    }
}
