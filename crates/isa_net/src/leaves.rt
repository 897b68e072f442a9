//! The way of a word is grown, leaf by leaf.

ghost use Rattle.std.specs.Prelude.{◌≡◌, None, IfOk, OnOk, OnErr};
ghost use Rattle.isa_net.specs.Inside.Index.{IsLive, IsTree, AddsEdge, Grown, Alike, Descends, KeepsIndex};
ghost use Rattle.isa_net.specs.Inside.Reach.{edges_of, target, edge, reach};

use crate::lookup::leads_to;
use crate::node::Node;
use crate::symbol::Symbol;
use slab::Slab;
use std::alloc::{AllocError, Global};
use std::collections::BTreeMap;

/// One more edge.
fn put_edge(node: &mut Node, symbol: Symbol, leaf: usize) -> Result<(), AllocError>
    requires { target symbol (edges_of node.old) ≡ None }
    ensures ok { OnOk result (AddsEdge (edges_of node.old) (edges_of node.new) symbol leaf) }
    ensures err { OnErr result (edges_of node.new ≡ edges_of node.old) }
    ensures ranks { node.new.ranks ≡ node.old.ranks }
{
    node.edges.insert(symbol, leaf)?;
    Ok(())
}

/// A new node without edges and ranks, to which the symbol leads.
pub fn add_leaf(
    alloc: Global,
    nodes: &mut Slab<Node>,
    at: usize,
    symbol: Symbol,
) -> Result<usize, AllocError>
    requires live { IsLive nodes.old at }
    requires free { edge nodes.old at symbol ≡ None }
    ensures ok { IfOk result (λ leaf. Grown nodes.old nodes.new at leaf symbol) }
    ensures err { OnErr result (Alike nodes.old nodes.new) }
{
    let leaf = nodes.insert(Node {
        edges: BTreeMap::new(alloc),
        ranks: Vec::new(alloc),
    })?;
    let Some(node) = nodes.get_mut(at) else {
        unreachable!()
    };
    match put_edge(node, symbol, leaf) {
        Ok(()) => Ok(leaf),
        Err(AllocError) => {
            let _ = nodes.remove(leaf);
            Err(AllocError)
        }
    }
}

/// Where the symbol leads to.
pub fn edge_at(nodes: &Slab<Node>, at: usize, symbol: &Symbol) -> Option<usize>
    ensures { result ≡ edge nodes.now at symbol.now }
{
    match nodes.get(at) {
        None => None,
        Some(node) => leads_to(&node.edges, symbol),
    }
}

/// The node to which the symbol leads, which is made where there is none.
pub fn descend(
    alloc: Global,
    nodes: &mut Slab<Node>,
    at: usize,
    symbol: &Symbol,
) -> Result<usize, AllocError>
    requires { IsLive nodes.old at }
    ensures ok { IfOk result (Descends nodes.old nodes.new at symbol.now) }
    ensures err { OnErr result (Alike nodes.old nodes.new) }
{
    match edge_at(nodes, at, symbol) {
        Some(next) => Ok(next),
        None => add_leaf(alloc, nodes, at, symbol.copy()?),
    }
}

/// The node at the end of the word; what of its way isn't there is made.
pub fn grow(
    alloc: Global,
    nodes: &mut Slab<Node>,
    root: usize,
    word: &[Symbol],
) -> Result<usize, AllocError>
    requires { IsTree nodes.old root }
    ensures end { IfOk result (λ n. reach nodes.new root word.now ≡ Some n) }
    ensures tree { OnOk result (IsTree nodes.new root) }
    ensures index { KeepsIndex nodes.old nodes.new root word.now }
{
    let mut at = root;
    for symbol in word {
        at = descend(alloc, nodes, at, symbol)?;
    }
    Ok(at)
}
