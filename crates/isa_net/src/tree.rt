//! The tree of the words of a net.

ghost use Rattle.std.specs.Prelude.{◌≡◌, ◌+◌, ◌<◌, ◌^◌, None, true, IfOk, OnOk, OnErr, length};
ghost use Rattle.isa_net.specs.Inside.Holding.{Holds, IsSound, Puts, Loses, Keeps, IsRooted, GivesAll, GivesFew};

use crate::lookup::{Found, Look, given};
use crate::mode::Mode;
use crate::node::Node;
use crate::pruning::{place_whole, unplace};
use crate::rank::Rank;
use crate::symbol::Symbol;
use isa_terms::Term;
use slab::Slab;
use std::alloc::{AllocError, Global};
use std::collections::BTreeMap;

/// The nodes of a net.
#[derive(Drop)]
pub struct Tree {
    alloc: Global,
    pub nodes: Slab<Node>,
    /// No node for the empty net.
    pub root: Option<usize>,
    /// Above the length of each word.
    pub deep: usize,
}

impl Tree {
    /// No nodes, which take no memory.
    pub fn new(alloc: Global) -> Tree
        ensures { (word_at : _) → ((r : _) → word_at r ≡ None) → Holds result word_at }
    {
        Tree {
            alloc,
            nodes: Slab::new(alloc),
            root: None,
            deep: 0,
        }
    }

    /// Words of that length may be placed.
    fn deepen(&mut self, length: usize)
        requires { length < 2 ^ 63 }
        ensures long { length < self.new.deep }
        ensures root { self.new.root ≡ self.old.root }
        ensures keeps { Keeps self.old self.new }
    {
        self.deep = self.deep.max(length + 1);
    }

    /// The root, which is made where there is none.
    fn rooted(&mut self) -> Result<usize, AllocError>
        requires { 0 < self.old.deep }
        ensures ok { IfOk result (λ root. IsRooted self.old self.new root) }
        ensures err { OnErr result (Keeps self.old self.new) }
    {
        match self.root {
            Some(root) => Ok(root),
            None => {
                let root = self.nodes.insert(Node {
                    edges: BTreeMap::new(self.alloc),
                    ranks: Vec::new(self.alloc),
                })?;
                self.root = Some(root);
                Ok(root)
            }
        }
    }

    /// Puts the rank at the end of the word.
    pub fn insert(&mut self, word: &[Symbol], rank: Rank) -> Result<(), AllocError>
        requires { IsSound self.old }
        ensures ok { OnOk result (Puts self.old self.new word.now rank) }
        ensures err { OnErr result (Keeps self.old self.new) }
    {
        self.deepen(word.len());
        let root = self.rooted()?;
        place_whole(self.alloc, &mut self.nodes, root, word, rank)
    }

    /// Takes the rank from the end of the word, with the nodes that are idle then.
    pub fn remove(&mut self, word: &[Symbol], rank: Rank)
        ensures { Loses self.old self.new word.now rank }
    {
        match self.root {
            None => {}
            Some(root) => unplace(&mut self.nodes, root, word, rank),
        }
    }

    /// No nodes, where nothing is left.
    pub fn clear_if(&mut self, empty: bool)
        ensures { (word_at : _) → (empty ≡ true → (r : _) → word_at r ≡ None) → Holds self.old word_at → Holds self.new word_at }
    {
        if empty {
            *self = Tree::new(self.alloc);
        }
    }

    /// The ranks whose word agrees with the term, in no order, and how many nodes were visited.
    pub fn given(&self, mode: Mode, t: &Term) -> Result<Found, AllocError>
        ensures given { IfOk result (λ found. GivesAll self.now mode t.now found.ranks.items) }
        ensures visited { IfOk result (λ found. GivesFew self.now mode t.now found.visited) }
    {
        match self.root {
            None => Ok(Found {
                ranks: Vec::new(self.alloc),
                visited: 0,
            }),
            Some(root) => given(
                self.alloc,
                &Look {
                    mode,
                    nodes: &self.nodes,
                },
                root,
                self.deep,
                t,
            ),
        }
    }
}
