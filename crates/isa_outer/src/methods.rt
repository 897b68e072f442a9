//! Reading methods.
ghost use Rattle.std.specs.Prelude.{◌≡◌, ◌∷◌, [], ◌<◌, length, codes, true, false};
ghost use Rattle.std.specs.List.{list_any};
ghost use Rattle.isa_terms.specs.Equal.{name_eq};
ghost use Rattle.isa_outer.specs.declared.refusal.Sort.TheVariants as sorts;
ghost use Rattle.isa_outer.specs.Forms.{begins, read, maybe, parens, value, unlisted};
ghost use Rattle.isa_outer.specs.Methods.{At};
ghost use Rattle.isa_outer.specs.Grammar.{facts, mode, modifier, modifier_list, plain_method, assumptions_part, position_part, subst_method, claset_method, simple_method, layer, operand, postfix, sequence, choice, postfix_sign, any_method, wrapped, method_words};
ghost use Rattle.isa_outer.specs.Private.Answers.{Answers, AnswersPart, Offers, IsThe};
ghost use Rattle.isa_outer.specs.Private.Heads.{head_of, stops_in};
ghost use Rattle.isa_outer.specs.Private.Layers.{node_of};
ghost use Rattle.isa_outer.specs.Private.Words.{fact_node, claset_node, mark_node, OffersMethod, OffersMark};

use crate::facts::{Heads, begins_head, facts, head};
use crate::list::List;
use crate::method::{Method, MethodNode, Modifier, SimpMode};
use crate::refusal::{Kind, Sort, What};
use crate::words::{
    cause_at, expect_sign, expect_word, expected, identifier, is_numbered, number, sign, unlisted,
    word,
};
use isa_terms::{Name, Names};
use isa_tokens::{Lexeme, Token};
use std::alloc::Global;

/// How deep the parentheses of a method nest.
const DEPTH: u32 = 500;

/// The methods that take facts.
#[derive(Clone, Copy)]
enum FactMethod {
    Match,
    Rule,
    Erule,
    Drule,
    Frule,
    Split,
}

impl FactMethod {
    /// The method with these facts.
    fn with(self, facts: Names) -> MethodNode
        ensures { node_of result ≡ fact_node self facts }
    {
        match self {
            FactMethod::Match => MethodNode::Match(facts),
            FactMethod::Rule => MethodNode::Rule(facts),
            FactMethod::Erule => MethodNode::Erule(facts),
            FactMethod::Drule => MethodNode::Drule(facts),
            FactMethod::Frule => MethodNode::Frule(facts),
            FactMethod::Split => MethodNode::Split(facts),
        }
    }
}

/// The methods that take the modifiers of the claset alone.
#[derive(Clone, Copy)]
enum ClasetMethod {
    Hypsubst,
    SafeStep,
    ClarifyStep,
    InstStep,
    Step,
    SlowStep,
    Clarify,
    Safe,
    Fast,
    Slow,
    Best,
    Blast,
    Iprover,
}

impl ClasetMethod {
    /// The method with these modifiers.
    fn with(self, modifiers: List<Modifier>) -> MethodNode
        ensures { node_of result ≡ claset_node self modifiers }
    {
        match self {
            ClasetMethod::Hypsubst => MethodNode::Hypsubst(modifiers),
            ClasetMethod::SafeStep => MethodNode::SafeStep(modifiers),
            ClasetMethod::ClarifyStep => MethodNode::ClarifyStep(modifiers),
            ClasetMethod::InstStep => MethodNode::InstStep(modifiers),
            ClasetMethod::Step => MethodNode::Step(modifiers),
            ClasetMethod::SlowStep => MethodNode::SlowStep(modifiers),
            ClasetMethod::Clarify => MethodNode::Clarify(modifiers),
            ClasetMethod::Safe => MethodNode::Safe(modifiers),
            ClasetMethod::Fast => MethodNode::Fast(modifiers),
            ClasetMethod::Slow => MethodNode::Slow(modifiers),
            ClasetMethod::Best => MethodNode::Best(modifiers),
            ClasetMethod::Blast => MethodNode::Blast(modifiers),
            ClasetMethod::Iprover => MethodNode::Iprover(modifiers),
        }
    }
}

#[tactic(auto, unfolding(crate::specs::Grammar::mode))]
fn mode<'a, 't>(tokens: &'a [Token<'t>]) -> Result<(SimpMode, &'a [Token<'t>]), Kind>
    ensures { Answers result mode tokens.now }
{
    if let Some(rest) = word("no_asm", tokens) {
        return Ok((SimpMode::NoAsm, rest));
    }
    if let Some(rest) = word("no_asm_simp", tokens) {
        return Ok((SimpMode::NoAsmSimp, rest));
    }
    if let Some(rest) = word("no_asm_use", tokens) {
        return Ok((SimpMode::NoAsmUse, rest));
    }
    if let Some(rest) = word("asm_lr", tokens) {
        return Ok((SimpMode::AsmLr, rest));
    }
    Err(expected("no_asm", tokens))
}

#[tactic(auto, unfolding(crate::specs::Grammar::modifier))]
fn modifier<'a, 't>(
    alloc: Global,
    inside: bool,
    heads: Heads,
    tokens: &'a [Token<'t>],
) -> Result<(Modifier, &'a [Token<'t>]), Kind>
    ensures { Answers result (modifier (head_of heads) (stops_in inside)) tokens.now }
{
    let (word, rest) = head(heads, tokens)?;
    let (facts, rest) = facts(alloc, inside, Some(heads), rest)?;
    Ok((word.with(facts), rest))
}

fn begins_modifier<'a, 't>(inside: bool, heads: Heads, tokens: &'a [Token<'t>]) -> bool
    ensures { result ≡ begins (modifier (head_of heads) (stops_in inside)) tokens.now }
{
    begins_head(heads, tokens)
}

fn modifiers<'a, 't>(
    alloc: Global,
    inside: bool,
    heads: Heads,
    tokens: &'a [Token<'t>],
) -> Result<(List<Modifier>, &'a [Token<'t>]), Kind>
    ensures { AnswersPart result (modifier_list (head_of heads) (stops_in inside)) tokens.now }
{
    let mut modifiers = List::new(alloc);
    if !begins_modifier(inside, heads, tokens) {
        return Ok((modifiers, tokens));
    }
    let (first, mut rest) = modifier(alloc, inside, heads, tokens)?;
    modifiers.push(first)?;
    while begins_modifier(inside, heads, rest) {
        let (next, after) = modifier(alloc, inside, heads, rest)?;
        modifiers.push(next)?;
        rest = after;
    }
    Ok((modifiers, rest))
}

/// The mode in parentheses, where it stands here.
fn mode_part<'a, 't>(
    deep: bool,
    tokens: &'a [Token<'t>],
) -> Result<(Option<SimpMode>, &'a [Token<'t>]), Kind>
    ensures { AnswersPart result (maybe (parens deep mode)) tokens.now }
{
    let Some(rest) = sign(b'(', tokens) else {
        return Ok((None, tokens));
    };
    if deep {
        return Err(Kind::Deep);
    }
    let (mode, rest) = mode(rest)?;
    let (_, rest) = expect_sign(b')', ")", rest)?;
    Ok((Some(mode), rest))
}

fn with_facts<'a, 't>(
    alloc: Global,
    line: u64,
    method: FactMethod,
    inside: bool,
    tokens: &'a [Token<'t>],
) -> Result<(Method, &'a [Token<'t>]), Kind>
    ensures { Answers result (value (λ names. At line (fact_node method names)) (facts (stops_in inside))) tokens.now }
{
    let (facts, rest) = facts(alloc, inside, None, tokens)?;
    Ok((Method::new(alloc, line, method.with(facts))?, rest))
}

/// The methods that a wrapper takes.
#[tactic(auto, unfolding(crate::specs::Grammar::plain_method))]
fn plain_method<'a, 't>(
    alloc: Global,
    line: u64,
    deep: bool,
    inside: bool,
    tokens: &'a [Token<'t>],
) -> Result<Option<(Method, &'a [Token<'t>])>, Kind>
    ensures { Offers result (plain_method line deep (stops_in inside)) tokens.now }
{
    if let Some(rest) = word("assumption", tokens) {
        return Ok(Some((Method::new(alloc, line, MethodNode::Assumption)?, rest)));
    }
    if let Some(rest) = word("rule", tokens) {
        return Ok(Some(with_facts(alloc, line, FactMethod::Rule, inside, rest)?));
    }
    if let Some(rest) = word("erule", tokens) {
        return Ok(Some(with_facts(alloc, line, FactMethod::Erule, inside, rest)?));
    }
    if let Some(rest) = word("drule", tokens) {
        return Ok(Some(with_facts(alloc, line, FactMethod::Drule, inside, rest)?));
    }
    if let Some(rest) = word("frule", tokens) {
        return Ok(Some(with_facts(alloc, line, FactMethod::Frule, inside, rest)?));
    }
    if let Some(rest) = word("simp", tokens) {
        let (mode, rest) = mode_part(deep, rest)?;
        let (modifiers, rest) = modifiers(alloc, inside, Heads::Simp, rest)?;
        return Ok(Some((
            Method::new(alloc, line, MethodNode::Simp(mode, modifiers))?,
            rest,
        )));
    }
    if let Some(rest) = word("split", tokens) {
        return Ok(Some(with_facts(alloc, line, FactMethod::Split, inside, rest)?));
    }
    Ok(None)
}

/// `(asm)`, where it stands here.
#[tactic(auto, unfolding(crate::specs::Grammar::assumptions_part))]
fn assumptions_part<'a, 't>(
    deep: bool,
    tokens: &'a [Token<'t>],
) -> Result<(bool, &'a [Token<'t>]), Kind>
    ensures { AnswersPart result (assumptions_part deep) tokens.now }
{
    if is_numbered(tokens) {
        return Ok((false, tokens));
    }
    let Some(rest) = sign(b'(', tokens) else {
        return Ok((false, tokens));
    };
    if deep {
        return Err(Kind::Deep);
    }
    let (_, rest) = expect_word("asm", rest)?;
    let (_, rest) = expect_sign(b')', ")", rest)?;
    Ok((true, rest))
}

/// `(N)`, where a parenthesis stands here.
#[tactic(auto, unfolding(crate::specs::Grammar::position_part))]
fn position_part<'a, 't>(
    deep: bool,
    tokens: &'a [Token<'t>],
) -> Result<(Option<u32>, &'a [Token<'t>]), Kind>
    ensures { AnswersPart result (position_part deep) tokens.now }
{
    let Some(rest) = sign(b'(', tokens) else {
        return Ok((None, tokens));
    };
    if deep {
        return Err(Kind::Deep);
    }
    let (position, rest) = number(1, 1000, rest)?;
    let (_, rest) = expect_sign(b')', ")", rest)?;
    Ok((Some(position), rest))
}

/// `subst [(asm)] [(N)] FACT`
#[tactic(auto, unfolding(crate::specs::Grammar::subst_method))]
fn subst_method<'a, 't>(
    alloc: Global,
    line: u64,
    deep: bool,
    tokens: &'a [Token<'t>],
) -> Result<Option<(Method, &'a [Token<'t>])>, Kind>
    ensures { Offers result (subst_method line deep) tokens.now }
{
    let Some(rest) = word("subst", tokens) else {
        return Ok(None);
    };
    let (assumptions, rest) = assumptions_part(deep, rest)?;
    let (position, rest) = position_part(deep, rest)?;
    let (fact, rest) = identifier(alloc, "fact", rest)?;
    Ok(Some((
        Method::new(alloc, line, MethodNode::Subst(assumptions, position, fact))?,
        rest,
    )))
}

/// The methods that take the modifiers of the claset.
#[tactic(auto, unfolding(crate::specs::Grammar::claset_method))]
fn claset_method<'a, 't>(tokens: &'a [Token<'t>]) -> Option<(ClasetMethod, &'a [Token<'t>])>
    ensures { OffersMethod result claset_method tokens.now }
{
    if let Some(rest) = word("hypsubst", tokens) {
        return Some((ClasetMethod::Hypsubst, rest));
    }
    if let Some(rest) = word("safe_step", tokens) {
        return Some((ClasetMethod::SafeStep, rest));
    }
    if let Some(rest) = word("clarify_step", tokens) {
        return Some((ClasetMethod::ClarifyStep, rest));
    }
    if let Some(rest) = word("inst_step", tokens) {
        return Some((ClasetMethod::InstStep, rest));
    }
    if let Some(rest) = word("step", tokens) {
        return Some((ClasetMethod::Step, rest));
    }
    if let Some(rest) = word("slow_step", tokens) {
        return Some((ClasetMethod::SlowStep, rest));
    }
    if let Some(rest) = word("clarify", tokens) {
        return Some((ClasetMethod::Clarify, rest));
    }
    if let Some(rest) = word("safe", tokens) {
        return Some((ClasetMethod::Safe, rest));
    }
    if let Some(rest) = word("fast", tokens) {
        return Some((ClasetMethod::Fast, rest));
    }
    if let Some(rest) = word("slow", tokens) {
        return Some((ClasetMethod::Slow, rest));
    }
    if let Some(rest) = word("best", tokens) {
        return Some((ClasetMethod::Best, rest));
    }
    if let Some(rest) = word("blast", tokens) {
        return Some((ClasetMethod::Blast, rest));
    }
    if let Some(rest) = word("iprover", tokens) {
        return Some((ClasetMethod::Iprover, rest));
    }
    None
}

/// A method by its word.
#[tactic(auto, unfolding(crate::specs::Grammar::simple_method), using(crate::proofs::HeadBegins::claset_method_needed))]
fn simple_method<'a, 't>(
    alloc: Global,
    line: u64,
    deep: bool,
    inside: bool,
    tokens: &'a [Token<'t>],
) -> Result<Option<(Method, &'a [Token<'t>])>, Kind>
    ensures { Offers result (simple_method line deep (stops_in inside)) tokens.now }
{
    if let Some(rest) = word("match", tokens) {
        return Ok(Some(with_facts(alloc, line, FactMethod::Match, inside, rest)?));
    }
    if let Some(read) = plain_method(alloc, line, deep, inside, tokens)? {
        return Ok(Some(read));
    }
    if let Some(read) = subst_method(alloc, line, deep, tokens)? {
        return Ok(Some(read));
    }
    if let Some((method, rest)) = claset_method(tokens) {
        let (modifiers, rest) = modifiers(alloc, inside, Heads::Claset, rest)?;
        return Ok(Some((Method::new(alloc, line, method.with(modifiers))?, rest)));
    }
    if let Some(rest) = word("auto", tokens) {
        let (modifiers, rest) = modifiers(alloc, inside, Heads::Auto, rest)?;
        return Ok(Some((Method::new(alloc, line, MethodNode::Auto(modifiers))?, rest)));
    }
    Ok(None)
}

/// An operand where no more parentheses may be opened.
#[tactic(auto, unfolding(crate::specs::Grammar::layer))]
fn deep_operand<'a, 't>(
    alloc: Global,
    line: u64,
    inside: bool,
    tokens: &'a [Token<'t>],
) -> Result<(Method, &'a [Token<'t>]), Kind>
    ensures { Answers result (layer line true (stops_in inside) (simple_method line true (stops_in inside))) tokens.now }
{
    if sign(b'(', tokens).is_some() {
        return Err(Kind::Deep);
    }
    match simple_method(alloc, line, true, inside, tokens)? {
        Some(read) => Ok(read),
        None => Err(unlisted(alloc, Sort::Method, "method", tokens)),
    }
}

/// An operand in which so many more parentheses may be opened.
#[cycle(method)]
fn operand<'a, 't>(
    alloc: Global,
    line: u64,
    left: u32,
    inside: bool,
    tokens: &'a [Token<'t>],
) -> Result<(Method, &'a [Token<'t>]), Kind>
    ensures { Answers result (operand line left (stops_in inside)) tokens.now }
{
    if left == 0 {
        return deep_operand(alloc, line, inside, tokens);
    }
    nested(alloc, line, left - 1, inside, tokens)
}

#[cycle(method)]
#[tactic(auto, unfolding(crate::specs::Grammar::layer))]
fn nested<'a, 't>(
    alloc: Global,
    line: u64,
    left: u32,
    inside: bool,
    tokens: &'a [Token<'t>],
) -> Result<(Method, &'a [Token<'t>]), Kind>
    ensures { Answers result (layer line false (stops_in inside) (choice line (operand line left (stops_in true)))) tokens.now }
{
    if let Some(rest) = sign(b'(', tokens) {
        let (method, rest) = choice(alloc, line, left, true, rest)?;
        let (_, rest) = expect_sign(b')', ")", rest)?;
        return Ok((method, rest));
    }
    match simple_method(alloc, line, false, inside, tokens)? {
        Some(read) => Ok(read),
        None => Err(unlisted(alloc, Sort::Method, "method", tokens)),
    }
}

/// An operand with its `?` and `+`.
#[cycle(method)]
fn postfix<'a, 't>(
    alloc: Global,
    line: u64,
    left: u32,
    inside: bool,
    tokens: &'a [Token<'t>],
) -> Result<(Method, &'a [Token<'t>]), Kind>
    ensures { Answers result (postfix line (operand line left (stops_in inside))) tokens.now }
{
    let (mut method, mut rest) = operand(alloc, line, left, inside, tokens)?;
    while let Some((mark, after)) = postfix_sign(rest) {
        method = Method::new(alloc, line, mark.with(method))?;
        rest = after;
    }
    Ok((method, rest))
}

/// Methods with `,` between them.
#[cycle(method)]
fn sequence<'a, 't>(
    alloc: Global,
    line: u64,
    left: u32,
    inside: bool,
    tokens: &'a [Token<'t>],
) -> Result<(Method, &'a [Token<'t>]), Kind>
    ensures { Answers result (sequence line (operand line left (stops_in inside))) tokens.now }
{
    let (mut method, mut rest) = postfix(alloc, line, left, inside, tokens)?;
    while let Some(after) = sign(b',', rest) {
        let (next, after) = postfix(alloc, line, left, inside, after)?;
        method = Method::new(alloc, line, MethodNode::Then(method, next))?;
        rest = after;
    }
    Ok((method, rest))
}

/// Methods with `|` between them.
#[cycle(method)]
fn choice<'a, 't>(
    alloc: Global,
    line: u64,
    left: u32,
    inside: bool,
    tokens: &'a [Token<'t>],
) -> Result<(Method, &'a [Token<'t>]), Kind>
    ensures { Answers result (choice line (operand line left (stops_in inside))) tokens.now }
{
    let (mut method, mut rest) = sequence(alloc, line, left, inside, tokens)?;
    while let Some(after) = sign(b'|', rest) {
        let (next, after) = sequence(alloc, line, left, inside, after)?;
        method = Method::new(alloc, line, MethodNode::OrElse(method, next))?;
        rest = after;
    }
    Ok((method, rest))
}

/// `?` or `+`
#[derive(Clone, Copy)]
enum Mark {
    Try,
    Plus,
}

#[tactic(auto, unfolding(crate::specs::Grammar::postfix_sign))]
fn postfix_sign<'a, 't>(tokens: &'a [Token<'t>]) -> Option<(Mark, &'a [Token<'t>])>
    ensures { OffersMark result postfix_sign tokens.now }
{
    if let Some(rest) = sign(b'?', tokens) {
        return Some((Mark::Try, rest));
    }
    if let Some(rest) = sign(b'+', tokens) {
        return Some((Mark::Plus, rest));
    }
    None
}

impl Mark {
    /// The method with this mark behind it.
    fn with(self, method: Method) -> MethodNode
        ensures { node_of result ≡ mark_node self method }
    {
        match self {
            Mark::Try => MethodNode::Try(method),
            Mark::Plus => MethodNode::Plus(method),
        }
    }
}

/// Any method.
#[tactic(auto, unfolding(crate::specs::Grammar::any_method))]
pub(crate) fn any_method<'a, 't>(
    alloc: Global,
    line: u64,
    tokens: &'a [Token<'t>],
) -> Result<(Method, &'a [Token<'t>]), Kind>
    ensures { Answers result (any_method line) tokens.now }
{
    choice(alloc, line, DEPTH, false, tokens)
}

/// The method of a wrapper.
#[tactic(auto, unfolding(crate::specs::Grammar::wrapped))]
pub(crate) fn wrapped<'a, 't>(
    alloc: Global,
    line: u64,
    tokens: &'a [Token<'t>],
) -> Result<(Method, &'a [Token<'t>]), Kind>
    ensures { Answers result (wrapped line) tokens.now }
{
    match plain_method(alloc, line, false, false, tokens)? {
        Some(read) => Ok(read),
        None => Err(unwrapped(alloc, tokens)),
    }
}

/// The refusal of a wrapper's method: known, but for no wrapper, or unknown.
fn unwrapped<'a, 't>(alloc: Global, tokens: &'a [Token<'t>]) -> Kind
    ensures { IsThe (unlisted sorts.Method (codes "method") method_words tokens.now) result }
{
    match tokens.split_first() {
        None => Kind::Expected(What::new("method")),
        Some((first, _)) => match &first.lexeme {
            Lexeme::Name(name) if is_method_word(name.as_slice()) => Kind::Expected(What::new(
                "method",
            )),
            Lexeme::Name(name) => match Name::from_bytes(alloc, name.as_slice()) {
                Ok(name) => Kind::Unknown(Sort::Method, name),
                Err(_) => Kind::Memory,
            },
            _ => cause_at("method", &first.lexeme),
        },
    }
}

/// Whether the name is a method that no wrapper takes.
fn is_method_word(name: &[u8]) -> bool
    ensures { result ≡ list_any (name_eq name.now) method_words }
{
    name == b"match".as_slice()
        || name == b"subst".as_slice()
        || name == b"hypsubst".as_slice()
        || name == b"safe_step".as_slice()
        || name == b"clarify_step".as_slice()
        || name == b"inst_step".as_slice()
        || name == b"step".as_slice()
        || name == b"slow_step".as_slice()
        || name == b"clarify".as_slice()
        || name == b"safe".as_slice()
        || name == b"fast".as_slice()
        || name == b"slow".as_slice()
        || name == b"best".as_slice()
        || name == b"blast".as_slice()
        || name == b"iprover".as_slice()
        || name == b"auto".as_slice()
}
