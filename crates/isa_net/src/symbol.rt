//! The symbols of a key's word.

ghost use Rattle.std.specs.Prelude.{◌≡◌, [], ◌+◌, ◌<◌, ◌^◌, map, ◌++◌, IfOk, OnOk, ◌==◌};
ghost use Rattle.std.proofs.Common.{rules};
ghost use Rattle.std.specs.Cmp.{partial_order_from_own_ties};
ghost use Rattle.std.specs.Cmp as Cmp;
ghost use Rattle.std.specs.Cmp.Rules.{comparing};
ghost use Rattle.std.specs.Cmp.Lexicographic.{slice_cmp, pointwise};
ghost use Rattle.std.specs.Ordering.{nat_cmp, on, then_cmp, eq_of_both, as_partial_cmp};
ghost use Rattle.isa_terms.specs.Terms.{nodes};
ghost use Rattle.isa_net.specs.Symbols.{kind, spelling, arity, is_star};
ghost use Rattle.isa_net.specs.Words.{symbol_on};

use isa_terms::{Name, Term, TermNode};
use std::alloc::AllocError;
use std::cmp::Ordering;

/// A constant or a free variable with the number of its arguments, or a star for any other subterm.
#[derive(Drop)]
pub enum Symbol {
    Star,
    Constant(Name, usize),
    Variable(Name, usize),
}

impl Symbol {
    /// The same symbol.
    pub fn copy(&self) -> Result<Symbol, AllocError>
        ensures { IfOk result (λ s. s ≡ self.now) }
    {
        match self {
            Symbol::Star => Ok(Symbol::Star),
            Symbol::Constant(name, count) => Ok(Symbol::Constant(name.copy()?, *count)),
            Symbol::Variable(name, count) => Ok(Symbol::Variable(name.copy()?, *count)),
        }
    }

    /// How many words of arguments follow the symbol.
    pub fn arity(&self) -> usize
        ensures { result ≡ arity self.now }
    {
        match self {
            Symbol::Star => 0,
            Symbol::Constant(_, count) | Symbol::Variable(_, count) => *count,
        }
    }

    /// Whether the symbol is the star.
    pub fn is_star(&self) -> bool
        ensures { result ≡ is_star self.now }
    {
        match self {
            Symbol::Star => true,
            Symbol::Constant(_, _) | Symbol::Variable(_, _) => false,
        }
    }

    /// Stars come first, then constants, then free variables.
    fn kind(&self) -> u8
        ensures { result ≡ kind self.now }
    {
        match self {
            Symbol::Star => 0,
            Symbol::Constant(_, _) => 1,
            Symbol::Variable(_, _) => 2,
        }
    }

    /// The bytes of the name; a star has none.
    fn spelling(&self) -> &[u8]
        ensures { result.now ≡ spelling self.now }
    {
        match self {
            Symbol::Star => &[],
            Symbol::Constant(name, _) | Symbol::Variable(name, _) => name.as_bytes(),
        }
    }
}

impl PartialEq for Symbol {
    ghost eq = { eq_of_both (on kind ◌==◌) (eq_of_both (on spelling (pointwise ◌==◌)) (on arity ◌==◌)) };

    ghost laws = { Cmp.partial_equiv_from_equiv (Prim.search (comparing, rules) depth 9) };

    fn eq(&self, other: &Symbol) -> bool {
        self.kind() == other.kind()
            && (self.spelling() == other.spelling() && self.arity() == other.arity())
    }
}

impl Eq for Symbol {
    ghost laws = { Prim.search (comparing, rules) depth 9 };
}

impl Ord for Symbol {
    ghost cmp = { then_cmp (on kind nat_cmp) (then_cmp (on spelling (slice_cmp nat_cmp)) (on arity nat_cmp)) };

    ghost total = { Prim.search (comparing, rules) depth 9 };

    ghost matches_partial_cmp = { Prim.search (comparing, rules) depth 9 };

    ghost matches_eq = { Prim.search (comparing, rules) depth 9 };

    fn cmp(&self, other: &Symbol) -> Ordering {
        self.kind().cmp(&other.kind()).then(
            self.spelling()
                .cmp(other.spelling())
                .then(self.arity().cmp(&other.arity())),
        )
    }
}

impl PartialOrd for Symbol {
    ghost partial_cmp = { as_partial_cmp (then_cmp (on kind nat_cmp) (then_cmp (on spelling (slice_cmp nat_cmp)) (on arity nat_cmp))) };

    ghost laws = { partial_order_from_own_ties (Prim.search (comparing, rules) depth 9) (Prim.search (comparing, rules) depth 9) };

    fn partial_cmp(&self, other: &Symbol) -> Option<Ordering> {
        Some(self.cmp(other))
    }
}

/// The symbol of the term with that many further arguments.
pub fn symbol_on(count: usize, t: &Term) -> Result<Symbol, AllocError>
    ensures { IfOk result (λ s. s ≡ symbol_on count t.now) }
{
    match t.view() {
        TermNode::Const(name, _) => Ok(Symbol::Constant(name.copy()?, count)),
        TermNode::Free(name, _) => Ok(Symbol::Variable(name.copy()?, count)),
        TermNode::App(fun, _) => symbol_on(count.checked_add(1).ok_or(AllocError)?, fun),
        _ => Ok(Symbol::Star),
    }
}
