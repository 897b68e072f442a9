//! The parts of a subgoal.
ghost use Rattle.std.specs.Prelude.{◌≡◌, ◌++◌, IfOk};
ghost use Rattle.isa_subgoal.specs.Parts.{leading_binders, behind_binders, parts_of};

use crate::lift::Parameter;
use crate::premises::split_all_premises;
use crate::shape::spelled;
use isa_kernel::split_quantifier;
use isa_terms::{Term, TermNode, Terms};
use std::alloc::{AllocError, Global};

/// The parts of a subgoal `!!x1 .. xk. H1 ==> .. ==> Hm ==> C`.
#[derive(Drop)]
pub struct SubgoalParts {
    /// The parameters, the outermost first.
    pub parameters: Vec<Parameter>,
    /// The assumptions, under the parameters.
    pub assumptions: Terms,
    /// The conclusion, under the parameters.
    pub conclusion: Term,
}

/// The binders of the leading `!!`s, behind those that are done, and what stands behind them.
fn split_binders(t: &Term, mut done: Vec<Parameter>) -> Result<(Vec<Parameter>, Term), AllocError>
    ensures binders { IfOk result (λ r. r.0.items ≡ done.items ++ leading_binders t.now) }
    ensures body { IfOk result (λ r. r.1 ≡ behind_binders t.now) }
{
    match t.view() {
        TermNode::App(_, arg) => match arg.view() {
            TermNode::Abs(name, typ, body) => match split_quantifier(t) {
                None => Ok((done, t.copy()?)),
                Some(_) => {
                    let name = name.copy()?;
                    let typ = typ.copy()?;
                    done.push(Parameter { name, typ })?;
                    split_binders(body, done)
                }
            },
            _ => Ok((done, t.copy()?)),
        },
        _ => Ok((done, t.copy()?)),
    }
}

/// The parts of a subgoal; a `!!` over a predicate that is no abstraction has a parameter named `x`.
pub fn split_subgoal(alloc: Global, t: &Term) -> Result<SubgoalParts, AllocError>
    ensures parameters { IfOk result (λ r. r.parameters.items ≡ (parts_of t.now).parameters) }
    ensures assumptions { IfOk result (λ r. r.assumptions ≡ (parts_of t.now).assumptions) }
    ensures conclusion { IfOk result (λ r. r.conclusion ≡ (parts_of t.now).conclusion) }
{
    let plain = spelled(alloc, t)?;
    let (parameters, body) = split_binders(&plain, Vec::new(alloc))?;
    let parts = split_all_premises(&body, Terms::new(alloc))?;
    Ok(SubgoalParts {
        parameters,
        assumptions: parts.premises,
        conclusion: parts.conclusion,
    })
}
