//! The lines of a certificate. Types, terms, axioms and steps are told by the numbers of their lines.
use crate::numbers::{Numbers, Pairs};
use isa_terms::{Name, Names};

/// An inference, in the order of the kernel's.
#[derive(Drop)]
pub enum Rule {
    /// `s axiom a`
    ByAxiom(u32),
    /// `s assume e`
    Assume(u32),
    /// `s imp_i e s`
    ImpliesIntr {
        prop: u32,
        step: u32,
    },
    /// `s imp_e s s`
    ImpliesElim {
        implication: u32,
        step: u32,
    },
    /// `s all_i e s`
    ForallIntr {
        variable: u32,
        step: u32,
    },
    /// `s all_e e s`
    ForallElim {
        term: u32,
        step: u32,
    },
    /// `s refl e`
    Reflexive(u32),
    /// `s sym s`
    Symmetric(u32),
    /// `s trans s s`
    Transitive {
        left: u32,
        right: u32,
    },
    /// `s comb s s`
    Combination {
        fun: u32,
        arg: u32,
    },
    /// `s abs e s`
    AbstractRule {
        variable: u32,
        step: u32,
    },
    /// `s beta e`
    Beta(u32),
    /// `s eta e`
    Eta(u32),
    /// `s eq_i s s`
    EqualIntr {
        there: u32,
        back: u32,
    },
    /// `s eq_e s s`
    EqualElim {
        equation: u32,
        step: u32,
    },
    /// `s inst s K t t .. M e e ..`: pairs of a type unknown and its type, and of an unknown and its term.
    InstantiateThm {
        step: u32,
        types: Pairs,
        terms: Pairs,
    },
    /// `s gen s K NAME ..`
    Generalize {
        step: u32,
        names: Names,
    },
    /// `s cite N`: the digits of the number of an end, which may be of any size.
    Cite(Name),
}

/// What a line says.
#[derive(Drop)]
pub enum Line {
    /// `t C NAME t ..`
    TypeCon(Name, Numbers),
    /// `t F NAME`
    TypeFixed(Name),
    /// `t U NAME N`
    TypeUnknown(Name, u32),
    /// `e C NAME t`
    TermConst(Name, u32),
    /// `e F NAME t`
    TermFree(Name, u32),
    /// `e U NAME N t`
    TermUnknown { name: Name, number: u32, typ: u32 },
    /// `e B N`
    TermBound(u32),
    /// `e L NAME t e`
    TermAbs { name: Name, typ: u32, body: u32 },
    /// `e A e e`
    TermApp { fun: u32, arg: u32 },
    /// `a NAME e`
    Axiom(Name, u32),
    /// `s ..`
    Step(Rule),
    /// `end s NAME`
    End { step: u32, name: Name },
}
