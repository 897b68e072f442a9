//! Idle nodes are taken away.

ghost use Rattle.std.specs.Prelude.{◌≡◌, Some, OnOk, OnErr};
ghost use Rattle.slab.specs.Slab.{get};
ghost use Rattle.isa_net.specs.Inside.Index.{IsTree, AddsEdge, IsLeaf, KeepsIndex, Shrunk, Prunes, Places, Unplaces, Restores};
ghost use Rattle.isa_net.specs.Inside.Reach.{edges_of, target, Apart, is_idle};

use crate::leaves::{edge_at, grow};
use crate::node::Node;
use crate::rank::Rank;
use crate::ranks::{put_rank, unrank};
use crate::symbol::Symbol;
use slab::Slab;
use std::alloc::{AllocError, Global};

/// The edge with the symbol goes.
fn take_edge(node: &mut Node, symbol: &Symbol)
    ensures edges { (c : _) → Apart (edges_of node.old) → target symbol.now (edges_of node.old) ≡ Some c → AddsEdge (edges_of node.new) (edges_of node.old) symbol.now c }
    ensures ranks { node.new.ranks ≡ node.old.ranks }
{
    let _ = node.edges.remove(symbol);
}

/// The leaf goes, and the edge that leads to it.
fn drop_leaf(nodes: &mut Slab<Node>, at: usize, symbol: &Symbol, leaf: usize)
    ensures { IsLeaf nodes.old at symbol.now leaf → Shrunk nodes.old nodes.new at leaf symbol.now }
{
    let _ = nodes.try_remove(leaf);
    if let Some(node) = nodes.get_mut(at) {
        take_edge(node, symbol);
    }
}

/// Whether the node is there, and has neither edges nor ranks.
fn is_idle(nodes: &Slab<Node>, at: usize) -> bool
    ensures { result ≡ is_idle (get nodes.now at) }
{
    match nodes.get(at) {
        None => false,
        Some(node) => node.edges.len() == 0 && node.ranks.len() == 0,
    }
}

/// Takes the idle nodes at the end of the word away. Whether the node at which the word begins is then idle itself.
pub fn prune(nodes: &mut Slab<Node>, at: usize, word: &[Symbol]) -> bool
    ensures { Prunes nodes.old nodes.new at word.now result }
{
    let [symbol, rest @ ..] = word else {
        return is_idle(nodes, at);
    };
    let Some(next) = edge_at(nodes, at, symbol) else {
        return is_idle(nodes, at);
    };
    if !prune(nodes, next, rest) {
        return false;
    }
    drop_leaf(nodes, at, symbol, next);
    is_idle(nodes, at)
}

/// Puts the rank at the end of the word; what of its way isn't there is made.
fn place(
    alloc: Global,
    nodes: &mut Slab<Node>,
    root: usize,
    word: &[Symbol],
    rank: Rank,
) -> Result<(), AllocError>
    requires { IsTree nodes.old root }
    ensures placed { OnOk result (Places nodes.old nodes.new root word.now rank) }
    ensures err { OnErr result (KeepsIndex nodes.old nodes.new root word.now) }
{
    let end = grow(alloc, nodes, root, word)?;
    put_rank(nodes, end, rank)
}

/// The same; where memory is wanting, nothing of the way that was made is left.
pub fn place_whole(
    alloc: Global,
    nodes: &mut Slab<Node>,
    root: usize,
    word: &[Symbol],
    rank: Rank,
) -> Result<(), AllocError>
    requires { IsTree nodes.old root }
    ensures placed { OnOk result (Places nodes.old nodes.new root word.now rank) }
    ensures err { OnErr result (Restores nodes.old nodes.new root word.now) }
{
    match place(alloc, nodes, root, word, rank) {
        Ok(()) => Ok(()),
        Err(AllocError) => {
            let _ = prune(nodes, root, word);
            Err(AllocError)
        }
    }
}

/// Takes the rank from the end of the word, and what of its way is idle then.
pub fn unplace(nodes: &mut Slab<Node>, root: usize, word: &[Symbol], rank: Rank)
    ensures { Unplaces nodes.old nodes.new root word.now rank }
{
    unrank(nodes, root, word, rank);
    let _ = prune(nodes, root, word);
}
