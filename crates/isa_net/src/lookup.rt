//! Look-ups.

ghost use Rattle.std.specs.Prelude.{◌≡◌, ◌+◌, ◌≤◌, ◌∷◌, ◌++◌, length, IfOk, OnOk};
ghost use Rattle.std.specs.BTreeMap.{IsOrdered};
ghost use Rattle.isa_net.specs.Symbols.{symbol_cmp};
ghost use Rattle.isa_net.specs.Words.{Along};
ghost use Rattle.isa_net.specs.Inside.Index.{AreGiven, AreCounted};
ghost use Rattle.isa_net.specs.Inside.Lists.{items_in};
ghost use Rattle.isa_net.specs.Inside.Reach.{target};
ghost use Rattle.isa_net.specs.Inside.Trails.{trail, along_edges, along_all, along_two, if_leads, ranks_at};

use crate::items::{Items, front_of, passes};
use crate::mode::Mode;
use crate::node::Node;
use crate::rank::Rank;
use crate::symbol::{Symbol, symbol_on};
use isa_terms::Term;
use slab::Slab;
use std::alloc::{AllocError, Global};
use std::collections::BTreeMap;

/// Where is looked, and how.
#[derive(Drop)]
pub struct Look<'n> {
    pub mode: Mode,
    pub nodes: &'n Slab<Node>,
}

/// What was found: ranks in the order of the visit, and how many nodes were visited.
#[derive(Drop)]
pub struct Found {
    pub ranks: Vec<Rank>,
    /// Stops at the greatest number.
    pub visited: u64,
}

/// Recalls that a map has its keys in order.
fn recall_order(edges: &BTreeMap<Symbol, usize>)
    ensures { IsOrdered symbol_cmp edges.now }
{
    let _ = edges.len();
}

/// Puts the ranks of the nodes that agree behind others, and counts these nodes.
#[cycle(visits)]
pub fn visit(
    look: &Look<'_>,
    at: usize,
    items: &Items<'_>,
    left: usize,
    found: &mut Found,
) -> Result<(), AllocError>
    ensures found { OnOk result (found.new.ranks.items ≡ found.old.ranks.items ++ ranks_at look.now.nodes.now (trail look.now.mode look.now.nodes.now left at (items_in items.now))) }
    ensures visited { OnOk result (found.new.visited ≤ found.old.visited + length (trail look.now.mode look.now.nodes.now left at (items_in items.now))) }
{
    if left == 0 {
        return Ok(());
    }
    let Some(node) = look.nodes.get(at) else {
        return Ok(());
    };
    found.visited = found.visited.saturating_add(1);
    found.ranks.extend_from_slice(node.ranks.as_slice())?;
    let Some(front) = front_of(items) else {
        return Ok(());
    };
    let rest = Items::More(front.spine, front.args, front.overs, front.rest);
    match front.item {
        None => visit_all(look, &node.edges, front.spine, &rest, left - 1, found),
        Some(t) => visit_along(look, &node.edges, t, &rest, left - 1, found),
    }
}

/// The same along the edges that can be read along a subterm.
#[cycle(visits)]
fn visit_along<'t>(
    look: &Look<'_>,
    edges: &BTreeMap<Symbol, usize>,
    t: &'t Term,
    rest: &'t Items<'t>,
    left: usize,
    found: &mut Found,
) -> Result<(), AllocError>
    ensures found { OnOk result (found.new.ranks.items ≡ found.old.ranks.items ++ ranks_at look.now.nodes.now (along_edges look.now.mode (trail look.now.mode look.now.nodes.now left) (Along t.now ∷ items_in rest.now) edges.now.entries)) }
    ensures visited { OnOk result (found.new.visited ≤ found.old.visited + length (along_edges look.now.mode (trail look.now.mode look.now.nodes.now left) (Along t.now ∷ items_in rest.now) edges.now.entries)) }
{
    if passes(look.mode, t) {
        visit_all(look, edges, t, rest, left, found)
    } else {
        recall_order(edges);
        visit_two(look, edges, t, rest, left, found)
    }
}

/// The same along all edges, where a subword is passed over. The spine is any term.
#[cycle(visits)]
fn visit_all<'t>(
    look: &Look<'_>,
    edges: &BTreeMap<Symbol, usize>,
    spine: &'t Term,
    rest: &'t Items<'t>,
    left: usize,
    found: &mut Found,
) -> Result<(), AllocError>
    ensures found { OnOk result (found.new.ranks.items ≡ found.old.ranks.items ++ ranks_at look.now.nodes.now (along_all (trail look.now.mode look.now.nodes.now left) (items_in rest.now) edges.now.entries)) }
    ensures visited { OnOk result (found.new.visited ≤ found.old.visited + length (along_all (trail look.now.mode look.now.nodes.now left) (items_in rest.now) edges.now.entries)) }
{
    for (symbol, next) in edges {
        let behind = Items::More(spine, 0, symbol.arity(), rest);
        visit(look, *next, &behind, left, found)?;
    }
    Ok(())
}

/// The same along the star and along the subterm's own symbol, which are looked up.
#[cycle(visits)]
fn visit_two<'t>(
    look: &Look<'_>,
    edges: &BTreeMap<Symbol, usize>,
    t: &'t Term,
    rest: &'t Items<'t>,
    left: usize,
    found: &mut Found,
) -> Result<(), AllocError>
    ensures found { OnOk result (found.new.ranks.items ≡ found.old.ranks.items ++ ranks_at look.now.nodes.now (along_two (trail look.now.mode look.now.nodes.now left) t.now (items_in rest.now) edges.now.entries)) }
    ensures visited { OnOk result (found.new.visited ≤ found.old.visited + length (along_two (trail look.now.mode look.now.nodes.now left) t.now (items_in rest.now) edges.now.entries)) }
{
    visit_one(look, edges, &Symbol::Star, rest, left, found)?;
    let symbol = symbol_on(0, t)?;
    if symbol.is_star() {
        return Ok(());
    }
    let behind = Items::More(t, symbol.arity(), 0, rest);
    visit_one(look, edges, &symbol, &behind, left, found)
}

/// The same along one symbol, where an edge has it.
#[cycle(visits)]
fn visit_one(
    look: &Look<'_>,
    edges: &BTreeMap<Symbol, usize>,
    symbol: &Symbol,
    behind: &Items<'_>,
    left: usize,
    found: &mut Found,
) -> Result<(), AllocError>
    ensures found { OnOk result (found.new.ranks.items ≡ found.old.ranks.items ++ ranks_at look.now.nodes.now (if_leads (target symbol.now edges.now.entries) (λ n. trail look.now.mode look.now.nodes.now left n (items_in behind.now)))) }
    ensures visited { OnOk result (found.new.visited ≤ found.old.visited + length (if_leads (target symbol.now edges.now.entries) (λ n. trail look.now.mode look.now.nodes.now left n (items_in behind.now)))) }
{
    match leads_to(edges, symbol) {
        None => Ok(()),
        Some(next) => visit(look, next, behind, left, found),
    }
}

/// Where the symbol leads to.
pub fn leads_to(edges: &BTreeMap<Symbol, usize>, symbol: &Symbol) -> Option<usize>
    ensures { result ≡ target symbol.now edges.now.entries }
{
    edges.get(symbol).copied()
}

/// The ranks of the nodes that agree with the term, in the order of the visit, and how many nodes were visited.
pub fn given(
    alloc: Global,
    look: &Look<'_>,
    root: usize,
    deep: usize,
    t: &Term,
) -> Result<Found, AllocError>
    ensures given { IfOk result (λ found. AreGiven look.now.mode look.now.nodes.now root deep t.now found.ranks.items) }
    ensures visited { IfOk result (λ found. AreCounted look.now.mode look.now.nodes.now root deep t.now 0 found.visited) }
{
    let mut found = Found {
        ranks: Vec::new(alloc),
        visited: 0,
    };
    let end = Items::End;
    visit(look, root, &Items::Whole(t, &end), deep, &mut found)?;
    Ok(found)
}
