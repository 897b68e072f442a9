//! Lists of facts.
ghost use Rattle.std.specs.Prelude.{◌≡◌, ◌∷◌, [], ◌<◌, length, None};
ghost use Rattle.std.specs.List.{list_any};
ghost use Rattle.isa_terms.specs.Equal.{name_eq};
ghost use Rattle.isa_outer.specs.Forms.{begins};
ghost use Rattle.isa_outer.specs.Grammar.{command_stands, is_among, command_words, simp_head, claset_head, auto_head, auto_word, claset_word, stands, fact, facts, unless};
ghost use Rattle.isa_outer.specs.Private.Heads.{head_of, stops_in, stops_at};
ghost use Rattle.isa_outer.specs.Private.Answers.{Answers};
ghost use Rattle.isa_outer.specs.Private.Words.{AnswersWord, modifier_of};

use crate::attributes::bang;
use crate::method::Modifier;
use crate::refusal::Kind;
use crate::words::{expect_sign_exactly, expected, identifier, word};
use isa_terms::Names;
use isa_tokens::{Lexeme, Token};
use std::alloc::Global;

/// Which modifiers a method takes.
#[derive(Clone, Copy)]
pub(crate) enum Heads {
    Simp,
    Claset,
    Auto,
}

/// What a modifier does with its facts.
#[derive(Clone, Copy)]
pub(crate) enum ModifierWord {
    SimpAdd,
    SimpDel,
    SimpOnly,
    Cong,
    Split,
    Intro,
    SafeIntro,
    Elim,
    SafeElim,
    Dest,
    SafeDest,
    RuleDel,
    Iff,
}

impl ModifierWord {
    /// The modifier with these facts.
    pub(crate) fn with(self, facts: Names) -> Modifier
        ensures { result ≡ modifier_of self facts }
    {
        match self {
            ModifierWord::SimpAdd => Modifier::SimpAdd(facts),
            ModifierWord::SimpDel => Modifier::SimpDel(facts),
            ModifierWord::SimpOnly => Modifier::SimpOnly(facts),
            ModifierWord::Cong => Modifier::Cong(facts),
            ModifierWord::Split => Modifier::Split(facts),
            ModifierWord::Intro => Modifier::Intro(facts),
            ModifierWord::SafeIntro => Modifier::SafeIntro(facts),
            ModifierWord::Elim => Modifier::Elim(facts),
            ModifierWord::SafeElim => Modifier::SafeElim(facts),
            ModifierWord::Dest => Modifier::Dest(facts),
            ModifierWord::SafeDest => Modifier::SafeDest(facts),
            ModifierWord::RuleDel => Modifier::RuleDel(facts),
            ModifierWord::Iff => Modifier::Iff(facts),
        }
    }
}

/// Whether the name is the word of a command.
pub(crate) fn is_command_word(name: &[u8]) -> bool
    ensures { result ≡ list_any (name_eq name.now) command_words }
{
    name == b"typedecl".as_slice()
        || name == b"judgment".as_slice()
        || name == b"consts".as_slice()
        || name == b"axiomatization".as_slice()
        || name == b"lemma".as_slice()
        || name == b"theorem".as_slice()
        || name == b"schematic_goal".as_slice()
        || name == b"lemmas".as_slice()
        || name == b"declare".as_slice()
        || name == b"wrapper".as_slice()
        || name == b"apply".as_slice()
        || name == b"by".as_slice()
        || name == b"done".as_slice()
        || name == b"back".as_slice()
        || name == b"oops".as_slice()
        || name == b"pr".as_slice()
}

/// Whether a command begins here.
#[tactic(auto, unfolding(crate::specs::Grammar::command_stands))]
pub(crate) fn is_command<'a, 't>(tokens: &'a [Token<'t>]) -> bool
    ensures { result ≡ command_stands tokens.now }
{
    match tokens.split_first() {
        None => false,
        Some((first, _)) => match &first.lexeme {
            Lexeme::Name(name) => is_command_word(name.as_slice()),
            _ => false,
        },
    }
}

#[tactic(auto, unfolding(crate::specs::Grammar::simp_head))]
fn simp_head<'a, 't>(tokens: &'a [Token<'t>]) -> Result<(ModifierWord, &'a [Token<'t>]), Kind>
    ensures { AnswersWord result simp_head tokens.now }
{
    if let Some(rest) = word("add", tokens) {
        let (_, rest) = expect_sign_exactly(b':', ":", rest)?;
        return Ok((ModifierWord::SimpAdd, rest));
    }
    if let Some(rest) = word("del", tokens) {
        let (_, rest) = expect_sign_exactly(b':', ":", rest)?;
        return Ok((ModifierWord::SimpDel, rest));
    }
    if let Some(rest) = word("only", tokens) {
        let (_, rest) = expect_sign_exactly(b':', ":", rest)?;
        return Ok((ModifierWord::SimpOnly, rest));
    }
    if let Some(rest) = word("cong", tokens) {
        let (_, rest) = expect_sign_exactly(b':', ":", rest)?;
        return Ok((ModifierWord::Cong, rest));
    }
    if let Some(rest) = word("split", tokens) {
        let (_, rest) = expect_sign_exactly(b':', ":", rest)?;
        return Ok((ModifierWord::Split, rest));
    }
    Err(expected("add", tokens))
}

#[tactic(auto, unfolding(crate::specs::Grammar::claset_word))]
fn claset_word<'a, 't>(tokens: &'a [Token<'t>]) -> Result<(ModifierWord, &'a [Token<'t>]), Kind>
    ensures { AnswersWord result claset_word tokens.now }
{
    if let Some(rest) = word("intro", tokens) {
        let (safe, rest) = bang(rest);
        if safe {
            return Ok((ModifierWord::SafeIntro, rest));
        }
        return Ok((ModifierWord::Intro, rest));
    }
    if let Some(rest) = word("elim", tokens) {
        let (safe, rest) = bang(rest);
        if safe {
            return Ok((ModifierWord::SafeElim, rest));
        }
        return Ok((ModifierWord::Elim, rest));
    }
    if let Some(rest) = word("dest", tokens) {
        let (safe, rest) = bang(rest);
        if safe {
            return Ok((ModifierWord::SafeDest, rest));
        }
        return Ok((ModifierWord::Dest, rest));
    }
    if let Some(rest) = word("del", tokens) {
        return Ok((ModifierWord::RuleDel, rest));
    }
    Err(expected("intro", tokens))
}

#[tactic(auto, unfolding(crate::specs::Grammar::claset_head))]
fn claset_head<'a, 't>(tokens: &'a [Token<'t>]) -> Result<(ModifierWord, &'a [Token<'t>]), Kind>
    ensures { AnswersWord result claset_head tokens.now }
{
    let (word, rest) = claset_word(tokens)?;
    let (_, rest) = expect_sign_exactly(b':', ":", rest)?;
    Ok((word, rest))
}

#[tactic(auto, unfolding(crate::specs::Grammar::auto_head))]
fn auto_head<'a, 't>(tokens: &'a [Token<'t>]) -> Result<(ModifierWord, &'a [Token<'t>]), Kind>
    ensures { AnswersWord result auto_head tokens.now }
{
    let (word, rest) = auto_word(tokens)?;
    let (_, rest) = expect_sign_exactly(b':', ":", rest)?;
    Ok((word, rest))
}

#[tactic(auto, unfolding(crate::specs::Grammar::auto_word))]
fn auto_word<'a, 't>(tokens: &'a [Token<'t>]) -> Result<(ModifierWord, &'a [Token<'t>]), Kind>
    ensures { AnswersWord result auto_word tokens.now }
{
    if begins_claset_word(tokens) {
        return claset_word(tokens);
    }
    if let Some(rest) = word("simp", tokens) {
        if let Some(rest) = word("add", rest) {
            return Ok((ModifierWord::SimpAdd, rest));
        }
        if let Some(rest) = word("del", rest) {
            return Ok((ModifierWord::SimpDel, rest));
        }
        if let Some(rest) = word("only", rest) {
            return Ok((ModifierWord::SimpOnly, rest));
        }
        return Err(expected("add", rest));
    }
    if let Some(rest) = word("cong", tokens) {
        return Ok((ModifierWord::Cong, rest));
    }
    if let Some(rest) = word("split", tokens) {
        return Ok((ModifierWord::Split, rest));
    }
    if let Some(rest) = word("iff", tokens) {
        return Ok((ModifierWord::Iff, rest));
    }
    claset_word(tokens)
}

#[tactic(auto, unfolding(crate::specs::Grammar::claset_word))]
fn begins_claset_word<'a, 't>(tokens: &'a [Token<'t>]) -> bool
    ensures { result ≡ begins claset_word tokens.now }
{
    if word("intro", tokens).is_some() {
        return true;
    }
    if word("elim", tokens).is_some() {
        return true;
    }
    if word("dest", tokens).is_some() {
        return true;
    }
    word("del", tokens).is_some()
}

/// The next modifier's word, with its colon.
pub(crate) fn head<'a, 't>(
    heads: Heads,
    tokens: &'a [Token<'t>],
) -> Result<(ModifierWord, &'a [Token<'t>]), Kind>
    ensures { AnswersWord result (head_of heads) tokens.now }
{
    match heads {
        Heads::Simp => simp_head(tokens),
        Heads::Claset => claset_head(tokens),
        Heads::Auto => auto_head(tokens),
    }
}

/// Whether a modifier stands here whole.
fn stands<'a, 't>(heads: Heads, tokens: &'a [Token<'t>]) -> bool
    ensures { result ≡ stands (head_of heads) tokens.now }
{
    match head(heads, tokens) {
        Ok(_) => true,
        Err(_) => false,
    }
}

/// Whether a command ends the list of facts here.
fn stops_in<'a, 't>(inside: bool, tokens: &'a [Token<'t>]) -> bool
    ensures { result ≡ stops_in inside tokens.now }
{
    if inside { false } else { is_command(tokens) }
}

/// Whether the list of facts ends here.
fn stops<'a, 't>(inside: bool, heads: Option<Heads>, tokens: &'a [Token<'t>]) -> bool
    ensures { result ≡ stops_at inside heads tokens.now }
{
    match heads {
        None => stops_in(inside, tokens),
        Some(heads) => {
            if stops_in(inside, tokens) {
                true
            } else {
                stands(heads, tokens)
            }
        }
    }
}

/// Whether the list of facts goes on here.
fn goes_on<'a, 't>(inside: bool, heads: Option<Heads>, tokens: &'a [Token<'t>]) -> bool
    ensures { result ≡ begins (unless (stops_at inside heads) fact) tokens.now }
{
    if stops(inside, heads, tokens) {
        return false;
    }
    match tokens.split_first() {
        None => false,
        Some((first, _)) => matches!(&first.lexeme, Lexeme::Name(_)),
    }
}

/// One or more facts.
pub(crate) fn facts<'a, 't>(
    alloc: Global,
    inside: bool,
    heads: Option<Heads>,
    tokens: &'a [Token<'t>],
) -> Result<(Names, &'a [Token<'t>]), Kind>
    ensures { Answers result (facts (stops_at inside heads)) tokens.now }
{
    let (first, mut rest) = identifier(alloc, "fact", tokens)?;
    let mut facts = Names::new(alloc);
    facts.push(first)?;
    while goes_on(inside, heads, rest) {
        let (next, after) = identifier(alloc, "fact", rest)?;
        facts.push(next)?;
        rest = after;
    }
    Ok((facts, rest))
}

/// Whether a modifier's word stands here.
#[tactic(auto, unfolding(crate::specs::Grammar::simp_head, crate::specs::Grammar::claset_head, crate::specs::Grammar::auto_head, crate::specs::Grammar::auto_word))]
pub(crate) fn begins_head<'a, 't>(heads: Heads, tokens: &'a [Token<'t>]) -> bool
    ensures { result ≡ begins (head_of heads) tokens.now }
{
    match heads {
        Heads::Simp => begins_simp_head(tokens),
        Heads::Claset => begins_claset_word(tokens),
        Heads::Auto => begins_auto_word(tokens),
    }
}

#[tactic(auto, unfolding(crate::specs::Grammar::simp_head))]
fn begins_simp_head<'a, 't>(tokens: &'a [Token<'t>]) -> bool
    ensures { result ≡ begins simp_head tokens.now }
{
    if word("add", tokens).is_some() {
        return true;
    }
    if word("del", tokens).is_some() {
        return true;
    }
    if word("only", tokens).is_some() {
        return true;
    }
    if word("cong", tokens).is_some() {
        return true;
    }
    word("split", tokens).is_some()
}

#[tactic(auto, unfolding(crate::specs::Grammar::auto_word))]
fn begins_auto_word<'a, 't>(tokens: &'a [Token<'t>]) -> bool
    ensures { result ≡ begins auto_word tokens.now }
{
    if begins_claset_word(tokens) {
        return true;
    }
    if word("simp", tokens).is_some() {
        return true;
    }
    if word("cong", tokens).is_some() {
        return true;
    }
    if word("split", tokens).is_some() {
        return true;
    }
    word("iff", tokens).is_some()
}
