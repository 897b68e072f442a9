//! Attributes.
ghost use Rattle.std.specs.Prelude.{◌≡◌, ◌∷◌, [], ◌<◌, length, IfSome, IfNone};
ghost use Rattle.isa_outer.specs.Grammar.{separated, comma, simproc_kind, role, attribute, attributes, deletion, bang, weight};
ghost use Rattle.isa_outer.specs.Private.Answers.{Finds, Answers, AnswersPart, Reads};

use crate::command::{Attribute, Role, SimprocKind};
use crate::list::List;
use crate::refusal::{Kind, Sort};
use crate::words::{expect_sign, expect_word, expected, number, sign, unlisted, word};
use isa_tokens::Token;
use std::alloc::Global;

#[tactic(auto, unfolding(crate::specs::Grammar::simproc_kind))]
fn simproc_kind<'a, 't>(tokens: &'a [Token<'t>]) -> Result<(SimprocKind, &'a [Token<'t>]), Kind>
    ensures { Answers result simproc_kind tokens.now }
{
    if let Some(rest) = word("neq", tokens) {
        return Ok((SimprocKind::Neq, rest));
    }
    if let Some(rest) = word("one_point", tokens) {
        return Ok((SimprocKind::OnePoint, rest));
    }
    if let Some(rest) = word("pull_assoc", tokens) {
        return Ok((SimprocKind::PullAssoc, rest));
    }
    if let Some(rest) = word("pull_left", tokens) {
        return Ok((SimprocKind::PullLeft, rest));
    }
    if let Some(rest) = word("pull_swap", tokens) {
        return Ok((SimprocKind::PullSwap, rest));
    }
    Err(expected("neq", tokens))
}

#[tactic(auto, unfolding(crate::specs::Grammar::role))]
fn role<'a, 't>(alloc: Global, tokens: &'a [Token<'t>]) -> Result<(Role, &'a [Token<'t>]), Kind>
    ensures { Answers result role tokens.now }
{
    if let Some(rest) = word("close", tokens) {
        return Ok((Role::Close, rest));
    }
    if let Some(rest) = word("close_asm", tokens) {
        return Ok((Role::CloseAsm, rest));
    }
    if let Some(rest) = word("atomize", tokens) {
        return Ok((Role::Atomize, rest));
    }
    if let Some(rest) = word("meta", tokens) {
        return Ok((Role::Meta, rest));
    }
    if let Some(rest) = word("swap", tokens) {
        return Ok((Role::Swap, rest));
    }
    if let Some(rest) = word("classical", tokens) {
        return Ok((Role::Classical, rest));
    }
    if let Some(rest) = word("not_elim", tokens) {
        return Ok((Role::NotElim, rest));
    }
    if let Some(rest) = word("mp", tokens) {
        return Ok((Role::Mp, rest));
    }
    if let Some(rest) = word("subst", tokens) {
        return Ok((Role::Subst, rest));
    }
    if let Some(rest) = word("sym", tokens) {
        return Ok((Role::Sym, rest));
    }
    if let Some(rest) = word("iff_d1", tokens) {
        return Ok((Role::IffD1, rest));
    }
    if let Some(rest) = word("iff_d2", tokens) {
        return Ok((Role::IffD2, rest));
    }
    Err(unlisted(alloc, Sort::Role, "close", tokens))
}

/// Whether `del` stands here.
#[tactic(auto, unfolding(crate::specs::Grammar::deletion))]
fn deletion<'a, 't>(tokens: &'a [Token<'t>]) -> (bool, &'a [Token<'t>])
    ensures { Reads result deletion tokens.now }
{
    match word("del", tokens) {
        Some(rest) => (true, rest),
        None => (false, tokens),
    }
}

/// Whether `!` stands here.
#[tactic(auto, unfolding(crate::specs::Grammar::bang))]
pub(crate) fn bang<'a, 't>(tokens: &'a [Token<'t>]) -> (bool, &'a [Token<'t>])
    ensures { Reads result bang tokens.now }
{
    match sign(b'!', tokens) {
        Some(rest) => (true, rest),
        None => (false, tokens),
    }
}

/// Whether `!` stands here, and the weight.
#[tactic(auto, unfolding(crate::specs::Grammar::weight))]
fn weight<'a, 't>(tokens: &'a [Token<'t>]) -> Result<((bool, u32), &'a [Token<'t>]), Kind>
    ensures { AnswersPart result weight tokens.now }
{
    let (safe, rest) = bang(tokens);
    let Some(after) = word("weight", rest) else {
        return Ok(((safe, 0), rest));
    };
    let (weight, rest) = number(0, 1000, after)?;
    Ok(((safe, weight), rest))
}

#[tactic(auto, unfolding(crate::specs::Grammar::attribute))]
fn attribute<'a, 't>(
    alloc: Global,
    tokens: &'a [Token<'t>],
) -> Result<(Attribute, &'a [Token<'t>]), Kind>
    ensures { Answers result attribute tokens.now }
{
    if let Some(rest) = word("simp", tokens) {
        let (del, rest) = deletion(rest);
        return Ok((
            if del {
                Attribute::SimpDel
            } else {
                Attribute::Simp
            },
            rest,
        ));
    }
    if let Some(rest) = word("cong", tokens) {
        let (del, rest) = deletion(rest);
        return Ok((
            if del {
                Attribute::CongDel
            } else {
                Attribute::Cong
            },
            rest,
        ));
    }
    if let Some(rest) = word("split", tokens) {
        let (del, rest) = deletion(rest);
        return Ok((
            if del {
                Attribute::SplitDel
            } else {
                Attribute::Split
            },
            rest,
        ));
    }
    if let Some(rest) = word("intro", tokens) {
        let ((safe, weight), rest) = weight(rest)?;
        return Ok((
            if safe {
                Attribute::SafeIntro(weight)
            } else {
                Attribute::Intro(weight)
            },
            rest,
        ));
    }
    if let Some(rest) = word("elim", tokens) {
        let ((safe, weight), rest) = weight(rest)?;
        return Ok((
            if safe {
                Attribute::SafeElim(weight)
            } else {
                Attribute::Elim(weight)
            },
            rest,
        ));
    }
    if let Some(rest) = word("dest", tokens) {
        let ((safe, weight), rest) = weight(rest)?;
        return Ok((
            if safe {
                Attribute::SafeDest(weight)
            } else {
                Attribute::Dest(weight)
            },
            rest,
        ));
    }
    if let Some(rest) = word("rule", tokens) {
        let (_, rest) = expect_word("del", rest)?;
        return Ok((Attribute::RuleDel, rest));
    }
    if let Some(rest) = word("iff", tokens) {
        let (del, rest) = deletion(rest);
        return Ok((
            if del {
                Attribute::IffDel
            } else {
                Attribute::Iff
            },
            rest,
        ));
    }
    if let Some(rest) = word("simproc", tokens) {
        let (kind, rest) = simproc_kind(rest)?;
        return Ok((Attribute::Simproc(kind), rest));
    }
    if let Some(rest) = word("logic", tokens) {
        let (role, rest) = role(alloc, rest)?;
        return Ok((Attribute::Logic(role), rest));
    }
    Err(unlisted(alloc, Sort::Attribute, "simp", tokens))
}

/// One or more attributes, between which commas stand.
fn attribute_list<'a, 't>(
    alloc: Global,
    tokens: &'a [Token<'t>],
) -> Result<(List<Attribute>, &'a [Token<'t>]), Kind>
    ensures { Answers result (separated comma attribute) tokens.now }
{
    let (first, mut rest) = attribute(alloc, tokens)?;
    let mut attributes = List::new(alloc);
    attributes.push(first)?;
    while let Some(after) = sign(b',', rest) {
        let (next, after) = attribute(alloc, after)?;
        attributes.push(next)?;
        rest = after;
    }
    Ok((attributes, rest))
}

/// `[ATTRS]`, where it stands here.
#[tactic(auto, unfolding(crate::specs::Grammar::attributes))]
pub(crate) fn attributes<'a, 't>(
    alloc: Global,
    tokens: &'a [Token<'t>],
) -> Result<(List<Attribute>, &'a [Token<'t>]), Kind>
    ensures { AnswersPart result attributes tokens.now }
{
    let Some(rest) = sign(b'[', tokens) else {
        return Ok((List::new(alloc), tokens));
    };
    let (attributes, rest) = attribute_list(alloc, rest)?;
    let (_, rest) = expect_sign(b']', "]", rest)?;
    Ok((attributes, rest))
}
