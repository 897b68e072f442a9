//! The commands that declare.
ghost use Rattle.std.specs.Prelude.{◌≡◌, ◌∷◌, [], ◌<◌, ◌&&◌, ◌^◌, ◌≤◌, length, codes};
ghost use Rattle.isa_outer.specs.Forms.{begins, number, pair, maybe};
ghost use Rattle.isa_outer.specs.Grammar.{◌▸◌, w, comma, equals, separated, name, label, variable, variables, token_with_priority, notation_inside, notation, constant, constants_form, unless, command_stands, axiom_form, axioms_form, goal_form, is_labelled, declaration, declare_form, option_form, setting_form, lemmas_form, typedecl_form, judgment_form, print_form, fact, token, trimmed, trimmed_end, safe_word, before_word, wrapper_form};
ghost use Rattle.isa_outer.specs.Private.Answers.{Answers, AnswersPart};

use crate::attributes::attributes;
use crate::command::{
    Axiom, Command, Constant, Declaration, Inner, Label, Notation, NotationKind, Setting,
};
use crate::facts::{facts, is_command};
use crate::list::List;
use crate::methods::wrapped;
use crate::refusal::{Kind, Sort, What};
use crate::words::{
    cause_at, expect_colons, expect_sign, expect_word, expected, identifier, inner, is_number,
    number, sign, unlisted, word,
};
use isa_terms::{Name, Names};
use isa_tokens::{Lexeme, Token, is_blank};
use std::alloc::Global;

fn variable<'a, 't>(alloc: Global, tokens: &'a [Token<'t>]) -> Result<(Name, &'a [Token<'t>]), Kind>
    ensures { Answers result variable tokens.now }
{
    let Some((first, rest)) = tokens.split_first() else {
        return Err(Kind::Expected(What::new("type")));
    };
    match &first.lexeme {
        Lexeme::TypeVariable(name) => Ok((Name::from_bytes(alloc, name.as_slice())?, rest)),
        _ => Err(cause_at("type", &first.lexeme)),
    }
}

fn is_variable<'a, 't>(tokens: &'a [Token<'t>]) -> bool
    ensures { result ≡ begins variable tokens.now }
{
    match tokens.split_first() {
        None => false,
        Some((first, _)) => matches!(&first.lexeme, Lexeme::TypeVariable(_)),
    }
}

fn variable_list<'a, 't>(
    alloc: Global,
    tokens: &'a [Token<'t>],
) -> Result<(Names, &'a [Token<'t>]), Kind>
    ensures { Answers result (separated comma variable) tokens.now }
{
    let (first, mut rest) = variable(alloc, tokens)?;
    let mut names = Names::new(alloc);
    names.push(first)?;
    while let Some(after) = sign(b',', rest) {
        let (next, after) = variable(alloc, after)?;
        names.push(next)?;
        rest = after;
    }
    Ok((names, rest))
}

#[tactic(auto, unfolding(crate::specs::Grammar::variables))]
fn variables<'a, 't>(
    alloc: Global,
    tokens: &'a [Token<'t>],
) -> Result<(Names, &'a [Token<'t>]), Kind>
    ensures { AnswersPart result variables tokens.now }
{
    let mut names = Names::new(alloc);
    if is_variable(tokens) {
        let (name, rest) = variable(alloc, tokens)?;
        names.push(name)?;
        return Ok((names, rest));
    }
    let Some(rest) = sign(b'(', tokens) else {
        return Ok((names, tokens));
    };
    let (names, rest) = variable_list(alloc, rest)?;
    let (_, rest) = expect_sign(b')', ")", rest)?;
    Ok((names, rest))
}

/// `typedecl NAME`, here and below without the first word.
#[tactic(auto, unfolding(crate::specs::Grammar::typedecl_form))]
pub(crate) fn typedecl<'a, 't>(
    alloc: Global,
    line: u64,
    tokens: &'a [Token<'t>],
) -> Result<(Command, &'a [Token<'t>]), Kind>
    ensures { Answers result (typedecl_form line) tokens.now }
{
    let (variables, rest) = variables(alloc, tokens)?;
    let (name, rest) = identifier(alloc, "name", rest)?;
    Ok((
        Command::Typedecl {
            line,
            variables,
            name,
        },
        rest,
    ))
}

/// `judgment NAME :: TYPE`
#[tactic(auto, unfolding(crate::specs::Grammar::judgment_form))]
pub(crate) fn judgment<'a, 't>(
    alloc: Global,
    line: u64,
    tokens: &'a [Token<'t>],
) -> Result<(Command, &'a [Token<'t>]), Kind>
    ensures { Answers result (judgment_form line) tokens.now }
{
    let (name, rest) = identifier(alloc, "name", tokens)?;
    let (_, rest) = expect_colons(rest)?;
    let (typ, rest) = inner(alloc, line, "type", rest)?;
    Ok((Command::Judgment { line, name, typ }, rest))
}

#[tactic(auto, unfolding(crate::specs::Grammar::label))]
fn label<'a, 't>(alloc: Global, tokens: &'a [Token<'t>]) -> Result<(Label, &'a [Token<'t>]), Kind>
    ensures { Answers result label tokens.now }
{
    let (name, rest) = identifier(alloc, "name", tokens)?;
    let (attributes, rest) = attributes(alloc, rest)?;
    Ok((Label { name, attributes }, rest))
}

#[tactic(auto, unfolding(crate::specs::Grammar::axiom_form))]
fn axiom_of<'a, 't>(
    alloc: Global,
    line: u64,
    tokens: &'a [Token<'t>],
) -> Result<(Axiom, &'a [Token<'t>]), Kind>
    ensures { Answers result (axiom_form line) tokens.now }
{
    let (label, rest) = label(alloc, tokens)?;
    let (_, rest) = expect_sign(b':', ":", rest)?;
    let (prop, rest) = inner(alloc, line, "proposition", rest)?;
    Ok((Axiom { label, prop }, rest))
}

fn axiom_list<'a, 't>(
    alloc: Global,
    line: u64,
    tokens: &'a [Token<'t>],
) -> Result<(List<Axiom>, &'a [Token<'t>]), Kind>
    ensures { Answers result (separated (w "and") (axiom_form line)) tokens.now }
{
    let (first, mut rest) = axiom_of(alloc, line, tokens)?;
    let mut axioms = List::new(alloc);
    axioms.push(first)?;
    while let Some(after) = word("and", rest) {
        let (next, after) = axiom_of(alloc, line, after)?;
        axioms.push(next)?;
        rest = after;
    }
    Ok((axioms, rest))
}

/// `axiomatization where NAME [ATTRS]: PROP`, more after `and`.
#[tactic(auto, unfolding(crate::specs::Grammar::axioms_form))]
pub(crate) fn axioms<'a, 't>(
    alloc: Global,
    line: u64,
    tokens: &'a [Token<'t>],
) -> Result<(List<Axiom>, &'a [Token<'t>]), Kind>
    ensures { Answers result (axioms_form line) tokens.now }
{
    let (_, rest) = expect_word("where", tokens)?;
    axiom_list(alloc, line, rest)
}

/// Whether the name of a lemma stands here.
fn is_labelled<'a, 't>(tokens: &'a [Token<'t>]) -> bool
    ensures { result ≡ (is_labelled tokens.now && begins name tokens.now) }
{
    let Some((first, rest)) = tokens.split_first() else {
        return false;
    };
    let Some((second, _)) = rest.split_first() else {
        return false;
    };
    if !matches!(&second.lexeme, Lexeme::Sign(b':' | b'[')) {
        return false;
    }
    matches!(&first.lexeme, Lexeme::Name(_))
}

/// A lemma: `PROP` or `NAME [ATTRS]: PROP`.
#[tactic(auto, unfolding(crate::specs::Grammar::goal_form, crate::specs::Grammar::label))]
pub(crate) fn goal<'a, 't>(
    alloc: Global,
    line: u64,
    tokens: &'a [Token<'t>],
) -> Result<((Option<Label>, Inner), &'a [Token<'t>]), Kind>
    ensures { Answers result (goal_form line) tokens.now }
{
    if is_labelled(tokens) {
        let (label, rest) = label(alloc, tokens)?;
        let (_, rest) = expect_sign(b':', ":", rest)?;
        let (prop, rest) = inner(alloc, line, "proposition", rest)?;
        return Ok(((Some(label), prop), rest));
    }
    let (prop, rest) = inner(alloc, line, "proposition", tokens)?;
    Ok(((None, prop), rest))
}

/// `lemmas NAME [ATTRS] = FACT ..`
#[tactic(auto, unfolding(crate::specs::Grammar::lemmas_form))]
pub(crate) fn lemmas<'a, 't>(
    alloc: Global,
    line: u64,
    tokens: &'a [Token<'t>],
) -> Result<(Command, &'a [Token<'t>]), Kind>
    ensures { Answers result (lemmas_form line) tokens.now }
{
    let (label, rest) = label(alloc, tokens)?;
    let (_, rest) = expect_sign(b'=', "=", rest)?;
    let (facts, rest) = facts(alloc, false, None, rest)?;
    Ok((Command::Lemmas { line, label, facts }, rest))
}

#[tactic(auto, unfolding(crate::specs::Grammar::declaration))]
fn declaration<'a, 't>(
    alloc: Global,
    tokens: &'a [Token<'t>],
) -> Result<(Declaration, &'a [Token<'t>]), Kind>
    ensures { Answers result declaration tokens.now }
{
    let (fact, rest) = identifier(alloc, "fact", tokens)?;
    let (attributes, rest) = attributes(alloc, rest)?;
    Ok((Declaration { fact, attributes }, rest))
}

fn declaration_list<'a, 't>(
    alloc: Global,
    tokens: &'a [Token<'t>],
) -> Result<(List<Declaration>, &'a [Token<'t>]), Kind>
    ensures { Answers result (separated (w "and") declaration) tokens.now }
{
    let (first, mut rest) = declaration(alloc, tokens)?;
    let mut declarations = List::new(alloc);
    declarations.push(first)?;
    while let Some(after) = word("and", rest) {
        let (next, after) = declaration(alloc, after)?;
        declarations.push(next)?;
        rest = after;
    }
    Ok((declarations, rest))
}

/// The number behind `=`.
fn limit<'a, 't>(
    low: u32,
    high: u32,
    tokens: &'a [Token<'t>],
) -> Result<(u32, &'a [Token<'t>]), Kind>
    ensures { Answers result (equals ▸ number low high) tokens.now }
{
    let (_, rest) = expect_sign(b'=', "=", tokens)?;
    number(low, high, rest)
}

#[tactic(auto, unfolding(crate::specs::Grammar::setting_form))]
fn setting<'a, 't>(
    alloc: Global,
    tokens: &'a [Token<'t>],
) -> Result<(Setting, &'a [Token<'t>]), Kind>
    ensures { Answers result setting_form tokens.now }
{
    if let Some(rest) = word("simp_depth_limit", tokens) {
        let (limit, rest) = limit(0, 200, rest)?;
        return Ok((Setting::SimpDepthLimit(limit as u64), rest));
    }
    if let Some(rest) = word("blast_depth_limit", tokens) {
        let (limit, rest) = limit(0, 100, rest)?;
        return Ok((Setting::BlastDepthLimit(limit as u64), rest));
    }
    if let Some(rest) = word("step_budget", tokens) {
        let (limit, rest) = limit(1, 2_000_000, rest)?;
        return Ok((Setting::StepBudget(limit as u64), rest));
    }
    if let Some(rest) = word("show_types", tokens) {
        let Some(after) = sign(b'=', rest) else {
            return Ok((Setting::ShowTypes(true), rest));
        };
        if let Some(rest) = word("true", after) {
            return Ok((Setting::ShowTypes(true), rest));
        }
        if let Some(rest) = word("false", after) {
            return Ok((Setting::ShowTypes(false), rest));
        }
        return Err(expected("true", after));
    }
    Err(unlisted(alloc, Sort::Option, "simp_depth_limit", tokens))
}

/// `[[OPTION = VALUE]]`
#[tactic(auto, unfolding(crate::specs::Grammar::option_form))]
fn option_of<'a, 't>(
    alloc: Global,
    tokens: &'a [Token<'t>],
) -> Result<(Setting, &'a [Token<'t>]), Kind>
    ensures { Answers result option_form tokens.now }
{
    let (_, rest) = expect_sign(b'[', "[", tokens)?;
    let (_, rest) = expect_sign(b'[', "[", rest)?;
    let (setting, rest) = setting(alloc, rest)?;
    let (_, rest) = expect_sign(b']', "]", rest)?;
    let (_, rest) = expect_sign(b']', "]", rest)?;
    Ok((setting, rest))
}

/// `pr [N]`
#[tactic(auto, unfolding(crate::specs::Grammar::print_form))]
pub(crate) fn print<'a, 't>(
    line: u64,
    tokens: &'a [Token<'t>],
) -> Result<(Command, &'a [Token<'t>]), Kind>
    ensures { AnswersPart result (print_form line) tokens.now }
{
    if is_number(1, 1000, tokens) {
        let (count, rest) = number(1, 1000, tokens)?;
        return Ok((
            Command::Print {
                line,
                count: Some(count as u64),
            },
            rest,
        ));
    }
    Ok((Command::Print { line, count: None }, tokens))
}

/// Whether a name stands here.
fn is_name<'a, 't>(tokens: &'a [Token<'t>]) -> bool
    ensures { result ≡ begins fact tokens.now }
{
    match tokens.split_first() {
        None => false,
        Some((first, _)) => matches!(&first.lexeme, Lexeme::Name(_)),
    }
}

/// `declare FACT [ATTRS]`, more after `and`, or `declare [[OPTION = VALUE]]`.
#[tactic(auto, unfolding(crate::specs::Grammar::declare_form, crate::specs::Grammar::declaration, crate::specs::Grammar::option_form))]
pub(crate) fn declare<'a, 't>(
    alloc: Global,
    line: u64,
    tokens: &'a [Token<'t>],
) -> Result<(Command, &'a [Token<'t>]), Kind>
    ensures { Answers result (declare_form line) tokens.now }
{
    if !is_name(tokens) && sign(b'[', tokens).is_some() {
        let (setting, rest) = option_of(alloc, tokens)?;
        return Ok((Command::DeclareOption { line, setting }, rest));
    }
    let (declarations, rest) = declaration_list(alloc, tokens)?;
    Ok((Command::Declare { line, declarations }, rest))
}

#[tactic(auto, unfolding(crate::specs::Grammar::safe_word))]
fn safe_word<'a, 't>(tokens: &'a [Token<'t>]) -> Result<(bool, &'a [Token<'t>]), Kind>
    ensures { Answers result safe_word tokens.now }
{
    if let Some(rest) = word("safe", tokens) {
        return Ok((true, rest));
    }
    if let Some(rest) = word("unsafe", tokens) {
        return Ok((false, rest));
    }
    Err(expected("safe", tokens))
}

#[tactic(auto, unfolding(crate::specs::Grammar::before_word))]
fn before_word<'a, 't>(tokens: &'a [Token<'t>]) -> Result<(bool, &'a [Token<'t>]), Kind>
    ensures { Answers result before_word tokens.now }
{
    if let Some(rest) = word("before", tokens) {
        return Ok((true, rest));
    }
    if let Some(rest) = word("after", tokens) {
        return Ok((false, rest));
    }
    Err(expected("before", tokens))
}

/// `wrapper safe before NAME = METHOD`
#[tactic(auto, unfolding(crate::specs::Grammar::wrapper_form))]
pub(crate) fn wrapper<'a, 't>(
    alloc: Global,
    line: u64,
    tokens: &'a [Token<'t>],
) -> Result<(Command, &'a [Token<'t>]), Kind>
    ensures { Answers result (wrapper_form line) tokens.now }
{
    let (safe, rest) = safe_word(tokens)?;
    let (before, rest) = before_word(rest)?;
    let (name, rest) = identifier(alloc, "name", rest)?;
    let (_, rest) = expect_sign(b'=', "=", rest)?;
    let (method, rest) = wrapped(alloc, line, rest)?;
    Ok((
        Command::Wrapper {
            line,
            safe,
            before,
            name,
            method,
        },
        rest,
    ))
}

/// Without the blanks at both ends.
fn trimmed(bytes: &[u8]) -> &[u8]
    ensures { result.now ≡ trimmed bytes.now }
{
    let mut rest = bytes;
    while let Some((first, after)) = rest.split_first() {
        if !is_blank(*first) {
            break;
        }
        rest = after;
    }
    trimmed_end(rest)
}

fn trimmed_end(bytes: &[u8]) -> &[u8]
    ensures { result.now ≡ trimmed_end bytes.now }
{
    let mut count = bytes.len();
    while count > 0 {
        if !is_blank(bytes[count - 1]) {
            return &bytes[..count];
        }
        count -= 1;
    }
    &[]
}

/// A notation's token.
#[tactic(auto, unfolding(crate::specs::Grammar::token))]
fn token<'a, 't>(alloc: Global, tokens: &'a [Token<'t>]) -> Result<(Name, &'a [Token<'t>]), Kind>
    ensures { Answers result token tokens.now }
{
    let Some((first, rest)) = tokens.split_first() else {
        return Err(Kind::Expected(What::new("name")));
    };
    match &first.lexeme {
        Lexeme::Text(text) => Ok((Name::from_bytes(alloc, trimmed(text.as_slice()))?, rest)),
        Lexeme::Name(name) => Ok((Name::from_bytes(alloc, trimmed(name.as_slice()))?, rest)),
        _ => Err(cause_at("name", &first.lexeme)),
    }
}

#[tactic(auto, unfolding(crate::specs::Grammar::token_with_priority))]
fn token_with_priority<'a, 't>(
    alloc: Global,
    high: u32,
    tokens: &'a [Token<'t>],
) -> Result<((Name, u32), &'a [Token<'t>]), Kind>
    ensures { Answers result (token_with_priority high) tokens.now }
{
    let (token, rest) = token(alloc, tokens)?;
    let (priority, rest) = number(0, high, rest)?;
    Ok(((token, priority), rest))
}

#[tactic(auto, unfolding(crate::specs::Grammar::notation_inside))]
fn notation_inside<'a, 't>(
    alloc: Global,
    tokens: &'a [Token<'t>],
) -> Result<(Notation, &'a [Token<'t>]), Kind>
    ensures { Answers result notation_inside tokens.now }
{
    if let Some(rest) = word("infix", tokens) {
        let ((token, priority), rest) = token_with_priority(alloc, 999, rest)?;
        return Ok((
            Notation {
                kind: NotationKind::Infix,
                token,
                priority: priority as u64,
            },
            rest,
        ));
    }
    if let Some(rest) = word("infixl", tokens) {
        let ((token, priority), rest) = token_with_priority(alloc, 999, rest)?;
        return Ok((
            Notation {
                kind: NotationKind::Infixl,
                token,
                priority: priority as u64,
            },
            rest,
        ));
    }
    if let Some(rest) = word("infixr", tokens) {
        let ((token, priority), rest) = token_with_priority(alloc, 999, rest)?;
        return Ok((
            Notation {
                kind: NotationKind::Infixr,
                token,
                priority: priority as u64,
            },
            rest,
        ));
    }
    if let Some(rest) = word("binder", tokens) {
        let ((token, priority), rest) = token_with_priority(alloc, 1000, rest)?;
        return Ok((
            Notation {
                kind: NotationKind::Binder,
                token,
                priority: priority as u64,
            },
            rest,
        ));
    }
    if let Some(rest) = word("prefix", tokens) {
        let ((token, priority), rest) = token_with_priority(alloc, 1000, rest)?;
        return Ok((
            Notation {
                kind: NotationKind::Prefix,
                token,
                priority: priority as u64,
            },
            rest,
        ));
    }
    Err(expected("infix", tokens))
}

/// `NAME :: TYPE [NOTE]`
#[tactic(auto, unfolding(crate::specs::Grammar::constant, crate::specs::Grammar::notation))]
fn constant<'a, 't>(
    alloc: Global,
    line: u64,
    tokens: &'a [Token<'t>],
) -> Result<(Constant, &'a [Token<'t>]), Kind>
    ensures { Answers result (constant line name) tokens.now }
{
    let (name, rest) = identifier(alloc, "name", tokens)?;
    let (_, rest) = expect_colons(rest)?;
    let (typ, rest) = inner(alloc, line, "type", rest)?;
    let Some(after) = sign(b'(', rest) else {
        return Ok((
            Constant {
                name,
                typ,
                notation: None,
            },
            rest,
        ));
    };
    let (notation, rest) = notation_inside(alloc, after)?;
    let (_, rest) = expect_sign(b')', ")", rest)?;
    Ok((
        Constant {
            name,
            typ,
            notation: Some(notation),
        },
        rest,
    ))
}

/// Whether a constant's name stands here and no command.
fn more_constants<'a, 't>(tokens: &'a [Token<'t>]) -> bool
    ensures { result ≡ begins (unless command_stands name) tokens.now }
{
    if is_command(tokens) {
        return false;
    }
    is_name(tokens)
}

/// One or more constants.
#[tactic(auto, unfolding(crate::specs::Grammar::constants_form))]
pub(crate) fn constants<'a, 't>(
    alloc: Global,
    line: u64,
    tokens: &'a [Token<'t>],
) -> Result<(List<Constant>, &'a [Token<'t>]), Kind>
    ensures { Answers result (constants_form line) tokens.now }
{
    let (first, mut rest) = constant(alloc, line, tokens)?;
    let mut constants = List::new(alloc);
    constants.push(first)?;
    while more_constants(rest) {
        let (next, after) = constant(alloc, line, rest)?;
        constants.push(next)?;
        rest = after;
    }
    Ok((constants, rest))
}
