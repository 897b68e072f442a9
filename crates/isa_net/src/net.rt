//! Nets.

ghost use Rattle.std.specs.Prelude.{◌≡◌, [], None, true, false, not, is_some, IfOk, OnOk, option_copied};
ghost use Rattle.std.specs.Coded.{codes};
ghost use Rattle.std.specs.Map.{keys_of};
ghost use Rattle.std.specs.List.Sorted.{IsStrictlySortedBy};
ghost use Rattle.isa_net.specs.Nets.{Contents, rank_code, entry_code, rank_cmp, entry_at, removed, Inserts, value_at, candidates, agreeing_prefixes, AddsAtMost, AreThere, MissedClash, MissedHaveNoMatch};
ghost use Rattle.isa_net.specs.Words.{opens_unknowns};
ghost use Rattle.isa_net.specs.Inside.Holding.{Holds, word_in};
ghost use Rattle.isa_net.specs.declared.mode.Mode.TheVariants.{Unifiable, Matching};

use crate::cursor::Cursor;
use crate::held::Held;
use crate::mode::Mode;
use crate::rank::Rank;
use crate::ranks::in_order;
use crate::steps::Steps;
use crate::tree::Tree;
use isa_terms::Term;
use std::alloc::{AllocError, Global};
use std::collections::BTreeMap;
use std::marker::Model;

/// Values by rank, each under a key, which contracts see as a map from ranks to keys with values.
#[derive(Drop)]
pub struct Net<V> {
    alloc: Global,
    tree: Tree,
    entries: BTreeMap<Rank, Held<V>>,
}

impl<V> Model for Net<V> {
    ghost Value = { Contents V };

    ghost coded = { Prim.hlevel (codes, rank_code, entry_code V.code) };

    ghost view = { λ n. n.entries.entries };

    ghost invariant = { λ n. Holds n.tree (word_in n.entries.entries) };
}

impl<V: Drop> Net<V> {
    /// The empty net, which takes no memory.
    pub fn new(alloc: Global) -> Net<V>
        ensures { result ≡ [] }
    {
        Net {
            alloc,
            tree: Tree::new(alloc),
            entries: BTreeMap::new(alloc),
        }
    }

    /// Puts the key with its value at a rank that isn't there. Where memory is wanting, the value comes back.
    pub fn insert(&mut self, key: &Term, rank: Rank, value: V) -> Result<(), V>
        requires { entry_at self.old rank ≡ None }
        ensures { Inserts self.old result self.new key.now rank value }
    {
        let held = Held::new(self.alloc, key, value)?;
        match self.tree.insert(held.word(), rank) {
            Err(AllocError) => Err(held.into_value()),
            Ok(()) => match self.entries.insert(rank, held) {
                Ok(_) => Ok(()),
                Err(failed) => {
                    let (rank, held) = failed.value;
                    self.tree.remove(held.word(), rank);
                    Err(held.into_value())
                }
            },
        }
    }

    /// Takes the key with its value from the rank, and answers the value; none where the rank isn't there. Takes no
    /// memory, and frees the nodes that are idle then.
    pub fn remove(&mut self, rank: Rank) -> Option<V>
        ensures value { result ≡ value_at self.old rank }
        ensures net { self.new ≡ removed self.old rank }
    {
        let held = self.entries.remove(&rank)?;
        self.tree.remove(held.word(), rank);
        self.tree.clear_if(self.entries.is_empty());
        Some(held.into_value())
    }

    /// Whether the rank is there.
    pub fn contains(&self, rank: Rank) -> bool
        ensures { result ≡ is_some (entry_at self.now rank) }
    {
        self.entries.contains_key(&rank)
    }

    /// The value at the rank.
    pub(crate) fn get(&self, rank: Rank) -> Option<&V>
        ensures { option_copied result ≡ value_at self.now rank }
    {
        match self.entries.get(&rank) {
            None => None,
            Some(held) => Some(held.value()),
        }
    }

    /// The candidates whose key may become equal to the term, by rising rank; each visited node is a step.
    pub fn unifiable(&self, t: &Term, steps: &mut Steps) -> Result<Cursor, AllocError>
        ensures candidates { IfOk result (λ cursor. cursor ≡ candidates Unifiable t.now self.now) }
        ensures rising { IfOk result (IsStrictlySortedBy rank_cmp) }
        ensures there { IfOk result (AreThere self.now) }
        ensures missed { IfOk result (MissedClash false t.now self.now) }
        ensures steps { OnOk result (AddsAtMost (agreeing_prefixes Unifiable t.now self.now) steps.old.count steps.new.count) }
    {
        self.look_up(Mode::Unifiable, t, steps)
    }

    /// The candidates of which the term may be an instance, by rising rank; each visited node is a step.
    pub fn matching(&self, t: &Term, steps: &mut Steps) -> Result<Cursor, AllocError>
        ensures candidates { IfOk result (λ cursor. cursor ≡ candidates Matching t.now self.now) }
        ensures rising { IfOk result (IsStrictlySortedBy rank_cmp) }
        ensures there { IfOk result (AreThere self.now) }
        ensures missed { IfOk result (MissedClash true t.now self.now) }
        ensures unmatched { IfOk result (MissedHaveNoMatch t.now self.now) }
        ensures steps { OnOk result (AddsAtMost (agreeing_prefixes Matching t.now self.now) steps.old.count steps.new.count) }
    {
        self.look_up(Mode::Matching, t, steps)
    }

    /// Recalls that the ranks are in order.
    fn recall_order(&self)
        ensures { IsStrictlySortedBy rank_cmp (keys_of self.now) }
    {
        let _ = self.entries.len();
    }

    /// The candidates, in either way.
    fn look_up(&self, mode: Mode, t: &Term, steps: &mut Steps) -> Result<Cursor, AllocError>
        ensures candidates { IfOk result (λ cursor. cursor ≡ candidates mode t.now self.now) }
        ensures rising { IfOk result (IsStrictlySortedBy rank_cmp) }
        ensures there { IfOk result (AreThere self.now) }
        ensures missed { IfOk result (MissedClash (not (opens_unknowns mode)) t.now self.now) }
        ensures steps { OnOk result (AddsAtMost (agreeing_prefixes mode t.now self.now) steps.old.count steps.new.count) }
    {
        self.recall_order();
        let found = self.tree.given(mode, t)?;
        steps.count = steps.count.saturating_add(found.visited);
        Ok(Cursor::new(in_order(found.ranks)?))
    }
}
