//! The commands.
use crate::list::List;
use crate::method::Method;
use isa_terms::{Name, Names, Text};

/// A quoted text, not read yet, with the line of its command.
#[derive(Drop)]
pub struct Inner {
    pub line: u64,
    pub bytes: Text,
}

/// The kind of a simplification procedure.
#[derive(Clone, Copy)]
pub enum SimprocKind {
    Neq,
    OnePoint,
    PullAssoc,
    PullLeft,
    PullSwap,
}

/// What a fact is for the logic.
#[derive(Clone, Copy)]
pub enum Role {
    Close,
    CloseAsm,
    Atomize,
    Meta,
    Swap,
    Classical,
    NotElim,
    Mp,
    Subst,
    Sym,
    IffD1,
    IffD2,
}

/// How a fact is declared to the simplifier, the classical reasoner or the logic. The number is the rule's weight, from 0 to 1,000.
#[derive(Clone, Copy)]
pub enum Attribute {
    Simp,
    SimpDel,
    Cong,
    CongDel,
    Split,
    SplitDel,
    Intro(u32),
    SafeIntro(u32),
    Elim(u32),
    SafeElim(u32),
    Dest(u32),
    SafeDest(u32),
    RuleDel,
    Iff,
    IffDel,
    Simproc(SimprocKind),
    Logic(Role),
}

/// Attributes in the order of the text.
pub type Attributes = List<Attribute>;

/// An option with its value.
#[derive(Clone, Copy)]
pub enum Setting {
    SimpDepthLimit(u64),
    BlastDepthLimit(u64),
    StepBudget(u64),
    ShowTypes(bool),
}

/// How a constant's notation is read.
#[derive(Clone, Copy)]
pub enum NotationKind {
    Infix,
    Infixl,
    Infixr,
    Binder,
    Prefix,
}

/// A constant's notation. Its token has no blanks at the ends.
#[derive(Drop)]
pub struct Notation {
    pub kind: NotationKind,
    pub token: Name,
    pub priority: u64,
}

/// A constant with the text of its type.
#[derive(Drop)]
pub struct Constant {
    pub name: Name,
    pub typ: Inner,
    pub notation: Option<Notation>,
}

/// A name with attributes.
#[derive(Drop)]
pub struct Label {
    pub name: Name,
    pub attributes: Attributes,
}

/// An axiom with its text.
#[derive(Drop)]
pub struct Axiom {
    pub label: Label,
    pub prop: Inner,
}

/// A fact with attributes.
#[derive(Drop)]
pub struct Declaration {
    pub fact: Name,
    pub attributes: Attributes,
}

/// A command with the line of its first word. Its quoted texts are not read yet.
#[derive(Drop)]
pub enum Command {
    /// `typedecl`, with the type variables of the declared constructor.
    Typedecl {
        line: u64,
        variables: Names,
        name: Name,
    },
    Judgment {
        line: u64,
        name: Name,
        typ: Inner,
    },
    Consts {
        line: u64,
        constants: List<Constant>,
    },
    Axiomatization {
        line: u64,
        axioms: List<Axiom>,
    },
    /// `lemma` or `theorem`
    Lemma {
        line: u64,
        label: Option<Label>,
        prop: Inner,
    },
    SchematicGoal {
        line: u64,
        label: Option<Label>,
        prop: Inner,
    },
    Lemmas {
        line: u64,
        label: Label,
        facts: Names,
    },
    Declare {
        line: u64,
        declarations: List<Declaration>,
    },
    /// `declare` with an option.
    DeclareOption {
        line: u64,
        setting: Setting,
    },
    /// `wrapper`: whether it is `safe`, and whether it stands `before` its step.
    Wrapper {
        line: u64,
        safe: bool,
        before: bool,
        name: Name,
        method: Method,
    },
    Apply {
        line: u64,
        method: Method,
    },
    By {
        line: u64,
        method: Method,
    },
    Done {
        line: u64,
    },
    Back {
        line: u64,
    },
    Oops {
        line: u64,
    },
    /// `pr`, with the number of results where it is given.
    Print {
        line: u64,
        count: Option<u64>,
    },
}
