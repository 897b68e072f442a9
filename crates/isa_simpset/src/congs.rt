//! Lists of congruence rules.
ghost use Rattle.std.specs.Prelude.{◌≡◌, ◌∷◌, [], IfOk, OnOk, OnErr, slice_get, option_map};
ghost use Rattle.std.specs.Option.{option_copied};
ghost use Rattle.isa_simpset.specs.Lists.{is_stated_by, without_cong, place_of_cong};

use isa_kernel::Thm;
use isa_simprules::Cong;
use isa_terms::{Term, same_term};
use std::alloc::{AllocError, Global};
use std::marker::Model;

/// A list of congruence rules, in the order in which they are tried.
#[derive(Drop)]
pub struct Congs {
    items: Vec<Cong>,
}

impl Model for Congs {
    ghost use Rattle.std.specs.Prelude.{List};
    ghost use Rattle.std.specs.Coded.{coded_list};
    ghost use Rattle.isa_simprules.specs.Congruences.{Cong, cong_code};

    ghost Value = { List Cong };

    ghost coded = { coded_list cong_code };

    ghost view = { λ a. a.items.items };
}

/// Whether a congruence rule's theorem states the proposition.
fn is_stated_by(congs: &[Cong], prop: &Term) -> bool
    ensures { result ≡ is_stated_by congs.now prop.now }
{
    for cong in congs {
        if same_term(cong.thm().prop(), prop) {
            return true;
        }
    }
    false
}

/// The place of the first congruence rule whose theorem states the proposition.
fn place_of_cong(congs: &[Cong], prop: &Term) -> Option<usize>
    ensures { result ≡ place_of_cong prop.now 0 congs.now }
{
    for (place, cong) in congs.iter().enumerate() {
        if same_term(cong.thm().prop(), prop) {
            return Some(place);
        }
    }
    None
}

/// Takes out the first congruence rule whose theorem states the proposition, if there is one.
#[tactic(auto, using(crate::proofs::RankedLists::cong_within, crate::proofs::RankedLists::cong_left, crate::proofs::RankedLists::no_cong_left))]
fn take_out_cong(congs: &mut Vec<Cong>, prop: &Term)
    ensures { congs.new.items ≡ without_cong prop.now congs.old.items }
{
    match place_of_cong(congs.as_slice(), prop) {
        None => {}
        Some(place) => {
            congs.remove(place);
        }
    }
}

/// Puts a congruence rule first.
#[tactic(auto, using(crate::proofs::RankedLists::inserted_first))]
fn add_first(congs: &mut Vec<Cong>, cong: Cong) -> Result<(), AllocError>
    ensures ok { OnOk result (congs.new.items ≡ cong ∷ congs.old.items) }
    ensures err { OnErr result (congs.new.items ≡ congs.old.items) }
{
    congs.insert(0, cong)?;
    Ok(())
}

/// Equal ones, which share their terms.
fn copied_congs(alloc: Global, congs: &[Cong]) -> Result<Vec<Cong>, AllocError>
    ensures { IfOk result (λ r. r.items ≡ congs.now) }
{
    let mut all = Vec::new(alloc);
    for cong in congs {
        all.push(cong.copy(alloc)?)?;
    }
    Ok(all)
}

impl Congs {
    /// No rule, which takes no memory.
    pub(crate) fn new(alloc: Global) -> Congs
        ensures { result ≡ [] }
    {
        Congs {
            items: Vec::new(alloc),
        }
    }

    /// An equal list, whose rules share their terms.
    pub(crate) fn copy(&self, alloc: Global) -> Result<Congs, AllocError>
        ensures { IfOk result (λ r. r ≡ self.now) }
    {
        let items = copied_congs(alloc, self.as_slice())?;
        Ok(Congs { items })
    }

    /// The rules, in their order.
    pub fn as_slice(&self) -> &[Cong]
        ensures { result.now ≡ self.now }
    {
        self.items.as_slice()
    }

    /// The theorem of the rule at that place, counted from 0; `None` exactly past the end.
    pub fn thm(&self, place: usize) -> Option<&Thm>
        ensures { option_copied result ≡ option_map (λ c. c.thm) (slice_get self.now place) }
    {
        Some(self.as_slice().get(place)?.thm())
    }

    /// Takes out all rules.
    pub(crate) fn clear(&mut self)
        ensures { self.new ≡ [] }
    {
        self.items.clear();
    }

    /// Whether a rule's theorem states the proposition.
    pub(crate) fn states(&self, prop: &Term) -> bool
        ensures { result ≡ is_stated_by self.now prop.now }
    {
        is_stated_by(self.as_slice(), prop)
    }

    /// Puts a rule first.
    pub(crate) fn add(&mut self, cong: Cong) -> Result<(), AllocError>
        ensures ok { OnOk result (self.new ≡ cong ∷ self.old) }
        ensures err { OnErr result (self.new ≡ self.old) }
    {
        add_first(&mut self.items, cong)
    }

    /// Takes out the first rule whose theorem states the proposition, if there is one.
    pub(crate) fn take_out(&mut self, prop: &Term)
        ensures { self.new ≡ without_cong prop.now self.old }
    {
        take_out_cong(&mut self.items, prop);
    }
}
