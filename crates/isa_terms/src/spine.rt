//! A term as its head and its arguments.
ghost use Rattle.std.specs.Prelude.{◌≡◌, ◌↔◌, ◌<◌, [], length, map, slice_get, Some, IsTrue, IfOk};
ghost use Rattle.isa_terms.specs.Order.{head_of};
ghost use Rattle.isa_terms.specs.Spines.{args_of, applied_to};

use crate::order::head;
use crate::term::{Term, TermNode};
use smallvec::SmallVec;
use std::alloc::{AllocError, Global};
use std::marker::Model;

/// The arguments of a term, which contracts see as the list of them. Up to four take no memory of their own.
#[derive(Drop)]
pub struct Args {
    /// Each of them is there: a place of a `SmallVec` has a value before it is filled.
    items: SmallVec<Option<Term>, 4>,
}

impl Model for Args {
    ghost use Rattle.std.specs.Prelude.{◌≡◌, List, map, Some};
    ghost use Rattle.std.specs.Coded.{coded_list};
    ghost use Rattle.isa_terms.specs.Terms.{Tm};
    ghost use Rattle.isa_terms.specs.Codes.{coded_tm};
    ghost use Rattle.isa_terms.specs.Spines.{present};

    ghost Value = { List Tm };

    ghost coded = { coded_list coded_tm };

    ghost view = { λ a. present a.items.items };

    ghost invariant = { λ a. a.items.items ≡ map Some (present a.items.items) };
}

/// What stands at the place.
fn place_in(items: &[Option<Term>], place: usize) -> &Option<Term>
    requires { place < length items.now }
    ensures { slice_get items.now place ≡ Some result.now }
{
    &items[place]
}

impl Args {
    #[tactic(auto, using(crate::proofs::Present::present_length))]
    pub fn len(&self) -> usize
        ensures { result ≡ length self.now }
    {
        self.items.len()
    }

    #[tactic(auto, using(crate::proofs::Present::present_length, crate::proofs::Present::none_present))]
    pub fn is_empty(&self) -> bool
        ensures { IsTrue result ↔ (self.now ≡ []) }
    {
        self.items.len() == 0
    }

    #[tactic(auto, using(crate::proofs::Present::present_length, crate::proofs::Present::present_get, crate::proofs::Present::present_none))]
    pub fn get(&self, place: usize) -> &Term
        requires { place < length self.now }
        ensures { slice_get self.now place ≡ Some result.now }
    {
        match place_in(self.items.as_slice(), place) {
            Some(item) => item,
            None => unreachable!(),
        }
    }
}

/// A term as its head, which is no application, and its arguments from left to right.
#[derive(Drop)]
pub struct Spine {
    pub head: Term,
    pub args: Args,
}

fn args_in(alloc: Global, t: &Term) -> Result<SmallVec<Option<Term>, 4>, AllocError>
    ensures { IfOk result (λ r. r.items ≡ map Some (args_of t.now)) }
{
    match t.view() {
        TermNode::App(fun, arg) => {
            let mut items = args_in(alloc, fun)?;
            items.push(Some(arg.copy()?))?;
            Ok(items)
        }
        _ => Ok(SmallVec::new(alloc)),
    }
}

/// The head and the arguments of the term. `applied_to` is the way back.
#[tactic(auto, using(crate::proofs::Present::all_present, crate::proofs::Present::present_are, crate::proofs::HeadsApplied::spine_back))]
pub fn spine_of(alloc: Global, t: &Term) -> Result<Spine, AllocError>
    ensures head { IfOk result (λ s. s.head ≡ head_of t.now) }
    ensures args { IfOk result (λ s. s.args ≡ args_of t.now) }
    ensures back { IfOk result (λ s. applied_to s.head s.args ≡ t.now) }
{
    let items = args_in(alloc, t)?;
    Ok(Spine {
        head: head(t).copy()?,
        args: Args { items },
    })
}
