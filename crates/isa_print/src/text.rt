//! The printed text of terms, states and theorems.
ghost use Rattle.std.specs.Prelude.{◌≡◌, ◌<◌, ◌^◌, ◌∷◌, ◌++◌, length, codes, decimal, true, false, IfOk, IfSome, IfNone, OnOk, string_bytes};
ghost use Rattle.std.specs.Option.{option_copied};
ghost use Rattle.isa_terms.specs.Terms.{nodes};
ghost use Rattle.isa_print.specs.Text.{unknown_text, parenthesized, term_text, is_constant, judgment_text, prop_text, subgoal_text, subgoals_text, count_text, state_text, name_text, theorem_text, IsImplication, IsOther};

use isa_terms::{Name, Term, TermNode};
use std::alloc::{AllocError, Global};

fn push_all(text: &mut Vec<u8>, bytes: &[u8]) -> Result<(), AllocError>
    ensures { OnOk result (text.new.items ≡ text.old.items ++ bytes.now) }
{
    text.extend_from_slice(bytes)
}

fn push_unknown(
    alloc: Global,
    name: &Name,
    number: u32,
    text: &mut Vec<u8>,
) -> Result<(), AllocError>
    ensures { OnOk result (text.new.items ≡ text.old.items ++ unknown_text name.now number) }
{
    push_all(text, b"?")?;
    push_all(text, name.as_bytes())?;
    if number == 0 {
        return Ok(());
    }
    let suffix = format!(in alloc; ".{number}")?;
    push_all(text, suffix.as_bytes())
}

/// Adds a term, in parentheses where it is an application that is an argument.
#[tactic(auto, unfolding(crate::specs::Text::term_text))]
fn push_term(alloc: Global, argument: bool, t: &Term, text: &mut Vec<u8>) -> Result<(), AllocError>
    ensures { OnOk result (text.new.items ≡ text.old.items ++ term_text argument t.now) }
{
    match t.view() {
        TermNode::Const(name, _) | TermNode::Free(name, _) => push_all(text, name.as_bytes()),
        TermNode::Unknown(name, number, _) => push_unknown(alloc, name, *number, text),
        TermNode::Bound(_) | TermNode::Abs(_, _, _) => Ok(()),
        TermNode::App(fun, arg) => {
            if argument {
                push_all(text, b"(")?;
                push_term(alloc, false, fun, text)?;
                push_all(text, b" ")?;
                push_term(alloc, true, arg, text)?;
                push_all(text, b")")
            } else {
                push_term(alloc, false, fun, text)?;
                push_all(text, b" ")?;
                push_term(alloc, true, arg, text)
            }
        }
    }
}

fn is_constant(name: &[u8], t: &Term) -> bool
    ensures { result ≡ is_constant name.now t.now }
{
    match t.view() {
        TermNode::Const(constant, _) => constant.as_bytes() == name,
        _ => false,
    }
}

/// Adds a proposition that is no `==>`, without the judgment.
fn push_judgment(
    alloc: Global,
    judgment: &[u8],
    t: &Term,
    text: &mut Vec<u8>,
) -> Result<(), AllocError>
    ensures { OnOk result (text.new.items ≡ text.old.items ++ judgment_text judgment.now t.now) }
{
    if let TermNode::App(fun, arg) = t.view() {
        if is_constant(judgment, fun) {
            return push_term(alloc, false, arg, text);
        }
    }
    push_term(alloc, false, t, text)
}

/// The sides of a `==>`.
#[tactic(auto, unfolding(crate::specs::Text::prop_text))]
fn implication(t: &Term) -> Option<(&Term, &Term)>
    ensures found { IfSome result (λ p. IsImplication p.0.now p.1.now t.now) }
    ensures none { IfNone result (IsOther t.now) }
    ensures left_smaller { IfSome result (λ p. nodes p.0.now < nodes t.now) }
    ensures right_smaller { IfSome result (λ p. nodes p.1.now < nodes t.now) }
{
    let TermNode::App(fun, right) = t.view() else {
        return None;
    };
    let TermNode::App(constant, left) = fun.view() else {
        return None;
    };
    if is_constant(b"Pure.imp", constant) {
        Some((left, right))
    } else {
        None
    }
}

/// Adds a proposition, in parentheses where it is a `==>` to the left of a `==>`.
fn push_prop(
    alloc: Global,
    judgment: &[u8],
    left: bool,
    t: &Term,
    text: &mut Vec<u8>,
) -> Result<(), AllocError>
    ensures { OnOk result (text.new.items ≡ text.old.items ++ prop_text judgment.now left t.now) }
{
    let Some((premise, conclusion)) = implication(t) else {
        return push_judgment(alloc, judgment, t, text);
    };
    if left {
        push_all(text, b"(")?;
        push_prop(alloc, judgment, true, premise, text)?;
        push_all(text, b" ==> ")?;
        push_prop(alloc, judgment, false, conclusion, text)?;
        push_all(text, b")")
    } else {
        push_prop(alloc, judgment, true, premise, text)?;
        push_all(text, b" ==> ")?;
        push_prop(alloc, judgment, false, conclusion, text)
    }
}

#[tactic(auto, unfolding(crate::specs::Text::subgoal_text))]
fn push_subgoal(
    alloc: Global,
    judgment: &[u8],
    number: usize,
    t: &Term,
    text: &mut Vec<u8>,
) -> Result<(), AllocError>
    ensures { OnOk result (text.new.items ≡ text.old.items ++ subgoal_text judgment.now number t.now) }
{
    let label = format!(in alloc; " {number}. ")?;
    push_all(text, label.as_bytes())?;
    push_prop(alloc, judgment, false, t, text)?;
    push_all(text, b"\n")
}

fn push_subgoals(
    alloc: Global,
    judgment: &[u8],
    subgoals: &[Term],
    text: &mut Vec<u8>,
) -> Result<(), AllocError>
    ensures { OnOk result (text.new.items ≡ text.old.items ++ subgoals_text judgment.now 1 subgoals.now) }
{
    for (i, t) in subgoals.iter().enumerate() {
        push_subgoal(alloc, judgment, i + 1, t, text)?;
    }
    Ok(())
}

/// The line above the subgoals.
fn count_text(alloc: Global, count: usize) -> Result<String, AllocError>
    ensures { IfOk result (λ s. string_bytes s ≡ count_text count) }
{
    if count == 1 {
        format!(in alloc; "goal ({count} subgoal):\n")
    } else {
        format!(in alloc; "goal ({count} subgoals):\n")
    }
}

/// The text of a state, by its subgoals.
#[tactic(auto, unfolding(crate::specs::Text::state_text))]
pub fn state_text(alloc: Global, judgment: &Name, subgoals: &[Term]) -> Result<Vec<u8>, AllocError>
    ensures { IfOk result (λ text. text.items ≡ state_text judgment.now subgoals.now) }
{
    if subgoals.is_empty() {
        return Vec::from_slice(alloc, b"No subgoals!\n");
    }
    let count = count_text(alloc, subgoals.len())?;
    let mut text = Vec::from_slice(alloc, count.as_bytes())?;
    push_subgoals(alloc, judgment.as_bytes(), subgoals, &mut text)?;
    Ok(text)
}

/// Adds a blank and the name, where there is one.
fn push_name(text: &mut Vec<u8>, name: Option<&Name>) -> Result<(), AllocError>
    ensures { OnOk result (text.new.items ≡ text.old.items ++ name_text (option_copied name.entry)) }
{
    match name {
        None => Ok(()),
        Some(name) => {
            push_all(text, b" ")?;
            push_all(text, name.as_bytes())
        }
    }
}

/// The text of a theorem, under its name where it has one.
#[tactic(auto, unfolding(crate::specs::Text::theorem_text))]
pub fn theorem_text(
    alloc: Global,
    judgment: &Name,
    name: Option<&Name>,
    prop: &Term,
) -> Result<Vec<u8>, AllocError>
    ensures { IfOk result (λ text. text.items ≡ theorem_text judgment.now (option_copied name.entry) prop.now) }
{
    let mut text = Vec::from_slice(alloc, b"theorem")?;
    push_name(&mut text, name)?;
    push_all(&mut text, b": ")?;
    push_prop(alloc, judgment.as_bytes(), false, prop, &mut text)?;
    push_all(&mut text, b"\n")?;
    Ok(text)
}
