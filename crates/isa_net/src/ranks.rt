//! Ranks at the ends of words.

ghost use Rattle.std.specs.Prelude.{◌≡◌, ◌++◌, ◌∷◌, [], Some, filter, ◌↔◌, IfOk, OnOk, OnErr};
ghost use Rattle.std.specs.Ordering.{is_ne};
ghost use Rattle.std.specs.List.Sorted.{IsStrictlySortedBy};
ghost use Rattle.isa_net.specs.Nets.{rank_cmp};
ghost use Rattle.isa_net.specs.Inside.Index.{In, IsLive, Alike, Ranks, Unranks};
ghost use Rattle.isa_net.specs.Inside.Reach.{reach};

use crate::leaves::edge_at;
use crate::node::Node;
use crate::rank::Rank;
use crate::symbol::Symbol;
use slab::Slab;
use std::alloc::AllocError;

/// One more rank.
fn push_rank(node: &mut Node, rank: Rank) -> Result<(), AllocError>
    ensures ok { OnOk result (node.new.ranks.items ≡ node.old.ranks.items ++ rank ∷ []) }
    ensures err { OnErr result (node.new.ranks.items ≡ node.old.ranks.items) }
    ensures edges { node.new.edges ≡ node.old.edges }
{
    node.ranks.push(rank)?;
    Ok(())
}

/// Puts the rank at the node.
pub fn put_rank(nodes: &mut Slab<Node>, at: usize, rank: Rank) -> Result<(), AllocError>
    requires { IsLive nodes.old at }
    ensures ok { OnOk result (Ranks nodes.old nodes.new at rank) }
    ensures err { OnErr result (Alike nodes.old nodes.new) }
{
    let Some(node) = nodes.get_mut(at) else {
        unreachable!()
    };
    push_rank(node, rank)
}

/// The same ranks without this one.
fn drop_rank(node: &mut Node, rank: Rank)
    ensures ranks { node.new.ranks.items ≡ filter (λ q. is_ne (rank_cmp q rank)) node.old.ranks.items }
    ensures edges { node.new.edges ≡ node.old.edges }
{
    node.ranks.retain(|other| other.cmp(&rank).is_ne());
}

/// Takes the rank from the node.
fn take_rank(nodes: &mut Slab<Node>, at: usize, rank: Rank)
    requires { IsLive nodes.old at }
    ensures { Unranks nodes.old nodes.new at rank }
{
    let Some(node) = nodes.get_mut(at) else {
        unreachable!()
    };
    drop_rank(node, rank);
}

/// The node at the end of the word, where there is one.
fn node_at(nodes: &Slab<Node>, root: usize, word: &[Symbol]) -> Option<usize>
    ensures { result ≡ reach nodes.now root word.now }
{
    let mut at = root;
    for symbol in word {
        match edge_at(nodes, at, symbol) {
            None => return None,
            Some(next) => at = next,
        }
    }
    match nodes.get(at) {
        None => None,
        Some(_) => Some(at),
    }
}

/// Takes the rank from the end of the word.
pub fn unrank(nodes: &mut Slab<Node>, root: usize, word: &[Symbol], rank: Rank)
    ensures { (n : _) → reach nodes.old root word.now ≡ Some n → Unranks nodes.old nodes.new n rank }
{
    match node_at(nodes, root, word) {
        None => {}
        Some(end) => take_rank(nodes, end, rank),
    }
}

/// The ranks by rising rank, each once.
pub fn in_order(mut ranks: Vec<Rank>) -> Result<Vec<Rank>, AllocError>
    ensures rising { IfOk result (λ rs. IsStrictlySortedBy rank_cmp rs.items) }
    ensures same { IfOk result (λ rs. (r : _) → In r rs.items ↔ In r ranks.items) }
{
    ranks.sort()?;
    ranks.dedup();
    Ok(ranks)
}
