//! The commands of a text.
ghost use Rattle.std.specs.Prelude.{◌≡◌, ◌<◌, ◌^◌, length, None};
ghost use Rattle.isa_outer.specs.Grammar.{theory_command, proof_command, command};
ghost use Rattle.isa_outer.specs.Texts.{is_end, first_line, line_at, reading_of, AnswersText, AnswersTokens, Meets};
ghost use Rattle.isa_outer.specs.Private.Answers.{Answers, AnswersNext, Offers};

use crate::command::Command;
use crate::declarations::{
    axioms, constants, declare, goal, judgment, lemmas, print, typedecl, wrapper,
};
use crate::list::List;
use crate::methods::any_method;
use crate::refusal::{Kind, Refused, Sort};
use crate::words::{unlisted, word};
use isa_tokens::{Lexeme, Token, tokens};
use std::alloc::Global;

#[tactic(auto, unfolding(crate::specs::Grammar::theory_command))]
fn theory_command<'a, 't>(
    alloc: Global,
    line: u64,
    tokens: &'a [Token<'t>],
) -> Result<Option<(Command, &'a [Token<'t>])>, Kind>
    ensures { Offers result (theory_command line) tokens.now }
{
    if let Some(rest) = word("typedecl", tokens) {
        return Ok(Some(typedecl(alloc, line, rest)?));
    }
    if let Some(rest) = word("judgment", tokens) {
        return Ok(Some(judgment(alloc, line, rest)?));
    }
    if let Some(rest) = word("consts", tokens) {
        let (constants, rest) = constants(alloc, line, rest)?;
        return Ok(Some((Command::Consts { line, constants }, rest)));
    }
    if let Some(rest) = word("axiomatization", tokens) {
        let (axioms, rest) = axioms(alloc, line, rest)?;
        return Ok(Some((Command::Axiomatization { line, axioms }, rest)));
    }
    if let Some(rest) = word("lemma", tokens) {
        let ((label, prop), rest) = goal(alloc, line, rest)?;
        return Ok(Some((Command::Lemma { line, label, prop }, rest)));
    }
    if let Some(rest) = word("theorem", tokens) {
        let ((label, prop), rest) = goal(alloc, line, rest)?;
        return Ok(Some((Command::Lemma { line, label, prop }, rest)));
    }
    if let Some(rest) = word("schematic_goal", tokens) {
        let ((label, prop), rest) = goal(alloc, line, rest)?;
        return Ok(Some((Command::SchematicGoal { line, label, prop }, rest)));
    }
    if let Some(rest) = word("lemmas", tokens) {
        return Ok(Some(lemmas(alloc, line, rest)?));
    }
    if let Some(rest) = word("declare", tokens) {
        return Ok(Some(declare(alloc, line, rest)?));
    }
    if let Some(rest) = word("wrapper", tokens) {
        return Ok(Some(wrapper(alloc, line, rest)?));
    }
    Ok(None)
}

#[tactic(auto, unfolding(crate::specs::Grammar::proof_command))]
fn proof_command<'a, 't>(
    alloc: Global,
    line: u64,
    tokens: &'a [Token<'t>],
) -> Result<Option<(Command, &'a [Token<'t>])>, Kind>
    ensures { Offers result (proof_command line) tokens.now }
{
    if let Some(rest) = word("apply", tokens) {
        let (method, rest) = any_method(alloc, line, rest)?;
        return Ok(Some((Command::Apply { line, method }, rest)));
    }
    if let Some(rest) = word("by", tokens) {
        let (method, rest) = any_method(alloc, line, rest)?;
        return Ok(Some((Command::By { line, method }, rest)));
    }
    if let Some(rest) = word("done", tokens) {
        return Ok(Some((Command::Done { line }, rest)));
    }
    if let Some(rest) = word("back", tokens) {
        return Ok(Some((Command::Back { line }, rest)));
    }
    if let Some(rest) = word("oops", tokens) {
        return Ok(Some((Command::Oops { line }, rest)));
    }
    if let Some(rest) = word("pr", tokens) {
        return Ok(Some(print(line, rest)?));
    }
    Ok(None)
}

#[tactic(auto, unfolding(crate::specs::Grammar::command))]
fn command<'a, 't>(
    alloc: Global,
    line: u64,
    tokens: &'a [Token<'t>],
) -> Result<(Command, &'a [Token<'t>]), Kind>
    ensures { Answers result (command line) tokens.now }
{
    if let Some(read) = theory_command(alloc, line, tokens)? {
        return Ok(read);
    }
    if let Some(read) = proof_command(alloc, line, tokens)? {
        return Ok(read);
    }
    Err(unlisted(alloc, Sort::Command, "command", tokens))
}

/// Whether no token is left but the end.
fn is_end<'a, 't>(tokens: &'a [Token<'t>]) -> bool
    ensures { result ≡ is_end tokens.now }
{
    match tokens.split_first() {
        None => true,
        Some((first, _)) => matches!(&first.lexeme, Lexeme::End),
    }
}

/// The line of the first token.
fn first_line<'a, 't>(tokens: &'a [Token<'t>]) -> u64
    ensures { result ≡ first_line tokens.now }
{
    match tokens.split_first() {
        None => 0,
        Some((first, _)) => first.line,
    }
}

/// The line of a refusal where a command should begin, behind one of the line `last`.
fn line_at<'a, 't>(last: Option<u64>, tokens: &'a [Token<'t>]) -> u64
    ensures { result ≡ line_at last tokens.now }
{
    let Some((first, _)) = tokens.split_first() else {
        return 0;
    };
    match &first.lexeme {
        Lexeme::Name(_) => first.line,
        _ => match last {
            Some(line) => line,
            None => first.line,
        },
    }
}

/// No command was read before the first token.
fn at_start<'a, 't>(tokens: &'a [Token<'t>]) -> (Option<u64>, &'a [Token<'t>])
    ensures last { result.0 ≡ None }
    ensures rest { result.1.now ≡ tokens.now }
{
    (None, tokens)
}

/// The next command, or the refusal with the line that it has behind a command of the line `last`.
fn next_command<'a, 't>(
    alloc: Global,
    last: Option<u64>,
    tokens: &'a [Token<'t>],
) -> Result<(Command, &'a [Token<'t>]), Refused>
    ensures { AnswersNext last result tokens.now }
{
    match command(alloc, first_line(tokens), tokens) {
        Ok(read) => Ok(read),
        Err(kind) => Err(Refused {
            line: line_at(last, tokens),
            kind,
        }),
    }
}

/// The commands that the tokens of a text hold, or the first refusal.
pub fn read_tokens<'a, 't>(alloc: Global, tokens: &'a [Token<'t>]) -> Result<List<Command>, Refused>
    ensures { AnswersTokens tokens.now result }
{
    let mut commands = List::new(alloc);
    let (mut last, mut rest) = at_start(tokens);
    while !is_end(rest) {
        let (next, after) = next_command(alloc, last, rest)?;
        last = Some(first_line(rest));
        commands.push(next)?;
        rest = after;
    }
    Ok(commands)
}

/// The commands of a text, or the first refusal in it.
fn commands_in(alloc: Global, text: &[u8]) -> Result<List<Command>, Refused>
    ensures { AnswersText text.now result }
{
    let tokens = tokens(alloc, text)?;
    read_tokens(alloc, tokens.as_slice())
}

/// The commands of a theory file, or the first refusal in it. Texts in quotes are not read yet, and facts not looked up.
pub fn read_commands(alloc: Global, text: &[u8]) -> Result<List<Command>, Refused>
    ensures holds { AnswersText text.now result }
    ensures is { Meets result (reading_of text.now) }
{
    commands_in(alloc, text)
}
