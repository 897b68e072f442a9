//! Methods.
ghost use Rattle.std.specs.Prelude.{◌≡◌, IfOk};
ghost use Rattle.isa_outer.specs.Methods.{At};
ghost use Rattle.isa_outer.specs.Private.Layers.{node_of, line_of_method};

use crate::list::List;
use isa_terms::{Name, Names};
use std::alloc::{AllocFailed, Global};
use std::marker::Model;

/// How `simp` uses the assumptions.
#[derive(Clone, Copy)]
pub enum SimpMode {
    NoAsm,
    NoAsmSimp,
    NoAsmUse,
    AsmLr,
}

/// What a method adds to the simpset or the claset, or takes out, for one call: a modifier's word with its facts.
#[derive(Drop)]
pub enum Modifier {
    SimpAdd(Names),
    SimpDel(Names),
    SimpOnly(Names),
    Cong(Names),
    Split(Names),
    Intro(Names),
    SafeIntro(Names),
    Elim(Names),
    SafeElim(Names),
    Dest(Names),
    SafeDest(Names),
    RuleDel(Names),
    Iff(Names),
}

/// One level of a method. Facts and modifiers stand in the order of the text.
#[cycle(method)]
#[derive(Drop)]
pub enum MethodNode {
    Match(Names),
    Rule(Names),
    Erule(Names),
    Drule(Names),
    Frule(Names),
    Assumption,
    Simp(Option<SimpMode>, List<Modifier>),
    Split(Names),
    /// `subst`: whether it is told `(asm)`, the number of the position where it is given, and the equation.
    Subst(bool, Option<u32>, Name),
    Hypsubst(List<Modifier>),
    SafeStep(List<Modifier>),
    ClarifyStep(List<Modifier>),
    InstStep(List<Modifier>),
    Step(List<Modifier>),
    SlowStep(List<Modifier>),
    Clarify(List<Modifier>),
    Safe(List<Modifier>),
    Fast(List<Modifier>),
    Slow(List<Modifier>),
    Best(List<Modifier>),
    Blast(List<Modifier>),
    Iprover(List<Modifier>),
    Auto(List<Modifier>),
    /// `m, n`
    Then(Method, Method),
    /// `m | n`
    OrElse(Method, Method),
    /// `m?`
    Try(Method),
    /// `m+`
    Plus(Method),
}

/// A method with the line of its command.
#[cycle(method)]
#[derive(Drop)]
pub struct Method {
    line: u64,
    node: Box<MethodNode>,
}

impl Model for Method {
    ghost use Rattle.isa_outer.specs.Methods.{Method as Shape};

    ghost Value = { Shape };

    ghost use Rattle.isa_outer.specs.Private.MethodCodes.{coded_method};

    ghost coded = { coded_method };

    ghost use Rattle.isa_outer.specs.Methods.{At};
    ghost use Rattle.isa_outer.specs.Private.Layers.{node_of};

    ghost view = { λ m. At m.line (node_of m.node.value) };

    ghost use Rattle.isa_outer.specs.Methods.{method_depth};

    ghost size = { method_depth };

    ghost use Rattle.isa_outer.specs.Private.MethodFalls.{method_falls};

    ghost size_decreases = { λ m h. method_falls m.line m.node.value };
}

impl Method {
    /// A method of this level.
    pub fn new(
        alloc: Global,
        line: u64,
        node: MethodNode,
    ) -> Result<Method, AllocFailed<MethodNode>>
        ensures { IfOk result (λ m. m ≡ At line (node_of node)) }
    {
        Ok(Method {
            line,
            node: Box::new(alloc, node)?,
        })
    }

    /// The line of the method's command.
    pub fn line(&self) -> u64
        ensures { result ≡ line_of_method self.now }
    {
        self.line
    }

    /// The method's first level.
    pub fn view(&self) -> &MethodNode
        ensures { At (line_of_method self.now) (node_of result.now) ≡ self.now }
    {
        self.node.as_ref()
    }
}
