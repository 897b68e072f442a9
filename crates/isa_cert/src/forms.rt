//! The forms of lines.
ghost use Rattle.std.specs.Prelude.{ℕ, List};
ghost use Rattle.isa_cert.specs.Lines.{type_con, type_fixed, type_unknown, term_unknown, term_bound, term_abs, term_app, end_line, inst_of, gen_of, cite_of, by_word, begun_by, types, terms, rules, later_rules, line_of};
ghost use Rattle.isa_cert.specs.Answers.{Reads};

use crate::fail::LineFail;
use crate::line::{Line, Rule};
use crate::reader::{
    check_ended, is_number, is_word, named, next_name, next_names, next_number, next_pairs,
    numbers, one, two,
};
use crate::words::Words;
use isa_terms::Name;
use std::alloc::Global;

/// `NAME t ..`
fn type_con(alloc: Global, words: &mut Words<'_>) -> Result<Line, LineFail>
    ensures { Reads result (type_con words.old) }
{
    let name = next_name(alloc, words)?;
    let args = numbers(alloc, words)?;
    Ok(Line::TypeCon(name, args))
}

/// `NAME`
fn type_fixed(alloc: Global, words: &mut Words<'_>) -> Result<Line, LineFail>
    ensures { Reads result (type_fixed words.old) }
{
    let name = next_name(alloc, words)?;
    check_ended(words)?;
    Ok(Line::TypeFixed(name))
}

/// `NAME N`
fn type_unknown(alloc: Global, words: &mut Words<'_>) -> Result<Line, LineFail>
    ensures { Reads result (type_unknown words.old) }
{
    let name = next_name(alloc, words)?;
    let number = next_number(words)?;
    check_ended(words)?;
    Ok(Line::TypeUnknown(name, number))
}

/// The forms of types, behind `t`.
fn read_type(alloc: Global, words: &mut Words<'_>) -> Result<Line, LineFail>
    ensures { Reads result (begun_by types words.old) }
{
    let Some(word) = words.next() else {
        return Err(LineFail::Form);
    };
    if is_word(word, "C") {
        return type_con(alloc, words);
    }
    if is_word(word, "F") {
        return type_fixed(alloc, words);
    }
    if is_word(word, "U") {
        return type_unknown(alloc, words);
    }
    Err(LineFail::Form)
}

/// `NAME N t`
fn term_unknown(alloc: Global, words: &mut Words<'_>) -> Result<Line, LineFail>
    ensures { Reads result (term_unknown words.old) }
{
    let name = next_name(alloc, words)?;
    let number = next_number(words)?;
    let typ = next_number(words)?;
    check_ended(words)?;
    Ok(Line::TermUnknown { name, number, typ })
}

/// `N`
fn term_bound(words: &mut Words<'_>) -> Result<Line, LineFail>
    ensures { Reads result (term_bound words.old) }
{
    let number = next_number(words)?;
    check_ended(words)?;
    Ok(Line::TermBound(number))
}

/// `NAME t e`
fn term_abs(alloc: Global, words: &mut Words<'_>) -> Result<Line, LineFail>
    ensures { Reads result (term_abs words.old) }
{
    let name = next_name(alloc, words)?;
    let typ = next_number(words)?;
    let body = next_number(words)?;
    check_ended(words)?;
    Ok(Line::TermAbs { name, typ, body })
}

/// `e e`
fn term_app(words: &mut Words<'_>) -> Result<Line, LineFail>
    ensures { Reads result (term_app words.old) }
{
    let fun = next_number(words)?;
    let arg = next_number(words)?;
    check_ended(words)?;
    Ok(Line::TermApp { fun, arg })
}

/// The forms of terms, behind `e`.
fn read_term(alloc: Global, words: &mut Words<'_>) -> Result<Line, LineFail>
    ensures { Reads result (begun_by terms words.old) }
{
    let Some(word) = words.next() else {
        return Err(LineFail::Form);
    };
    if is_word(word, "C") {
        let (name, typ) = named(alloc, words)?;
        return Ok(Line::TermConst(name, typ));
    }
    if is_word(word, "F") {
        let (name, typ) = named(alloc, words)?;
        return Ok(Line::TermFree(name, typ));
    }
    if is_word(word, "U") {
        return term_unknown(alloc, words);
    }
    if is_word(word, "B") {
        return term_bound(words);
    }
    if is_word(word, "L") {
        return term_abs(alloc, words);
    }
    if is_word(word, "A") {
        return term_app(words);
    }
    Err(LineFail::Form)
}

/// `s K t t .. M e e ..`
fn instance(alloc: Global, words: &mut Words<'_>) -> Result<Rule, LineFail>
    ensures { Reads result (inst_of words.old) }
{
    let step = next_number(words)?;
    let count = next_number(words)?;
    let types = next_pairs(alloc, count, words)?;
    let count = next_number(words)?;
    let terms = next_pairs(alloc, count, words)?;
    check_ended(words)?;
    Ok(Rule::InstantiateThm { step, types, terms })
}

/// `s K NAME ..`
fn generalization(alloc: Global, words: &mut Words<'_>) -> Result<Rule, LineFail>
    ensures { Reads result (gen_of words.old) }
{
    let step = next_number(words)?;
    let count = next_number(words)?;
    let names = next_names(alloc, count, words)?;
    check_ended(words)?;
    Ok(Rule::Generalize { step, names })
}

/// `N`, of which the digits are kept.
fn citation(alloc: Global, words: &mut Words<'_>) -> Result<Rule, LineFail>
    ensures { Reads result (cite_of words.old) }
{
    let Some(digits) = words.next() else {
        return Err(LineFail::Form);
    };
    if !is_number(digits) {
        return Err(LineFail::Form);
    }
    check_ended(words)?;
    Ok(Rule::Cite(Name::from_bytes(alloc, digits)?))
}

/// The forms of the first nine inferences, and of the later ones.
fn read_rule(alloc: Global, words: &mut Words<'_>) -> Result<Rule, LineFail>
    ensures { Reads result (begun_by rules words.old) }
{
    let Some(word) = words.next() else {
        return Err(LineFail::Form);
    };
    if is_word(word, "axiom") {
        return Ok(Rule::ByAxiom(one(words)?));
    }
    if is_word(word, "assume") {
        return Ok(Rule::Assume(one(words)?));
    }
    if is_word(word, "imp_i") {
        let (prop, step) = two(words)?;
        return Ok(Rule::ImpliesIntr { prop, step });
    }
    if is_word(word, "imp_e") {
        let (implication, step) = two(words)?;
        return Ok(Rule::ImpliesElim { implication, step });
    }
    if is_word(word, "all_i") {
        let (variable, step) = two(words)?;
        return Ok(Rule::ForallIntr { variable, step });
    }
    if is_word(word, "all_e") {
        let (term, step) = two(words)?;
        return Ok(Rule::ForallElim { term, step });
    }
    if is_word(word, "refl") {
        return Ok(Rule::Reflexive(one(words)?));
    }
    if is_word(word, "sym") {
        return Ok(Rule::Symmetric(one(words)?));
    }
    if is_word(word, "trans") {
        let (left, right) = two(words)?;
        return Ok(Rule::Transitive { left, right });
    }
    later_rule(alloc, word, words)
}

/// The forms of the later inferences, which begin with this word.
fn later_rule(alloc: Global, word: &[u8], words: &mut Words<'_>) -> Result<Rule, LineFail>
    ensures { Reads result (by_word later_rules word.now words.old) }
{
    if is_word(word, "comb") {
        let (fun, arg) = two(words)?;
        return Ok(Rule::Combination { fun, arg });
    }
    if is_word(word, "abs") {
        let (variable, step) = two(words)?;
        return Ok(Rule::AbstractRule { variable, step });
    }
    if is_word(word, "beta") {
        return Ok(Rule::Beta(one(words)?));
    }
    if is_word(word, "eta") {
        return Ok(Rule::Eta(one(words)?));
    }
    if is_word(word, "eq_i") {
        let (there, back) = two(words)?;
        return Ok(Rule::EqualIntr { there, back });
    }
    if is_word(word, "eq_e") {
        let (equation, step) = two(words)?;
        return Ok(Rule::EqualElim { equation, step });
    }
    if is_word(word, "inst") {
        return instance(alloc, words);
    }
    if is_word(word, "gen") {
        return generalization(alloc, words);
    }
    if is_word(word, "cite") {
        return citation(alloc, words);
    }
    Err(LineFail::Form)
}

/// `s NAME`
fn end_line(alloc: Global, words: &mut Words<'_>) -> Result<Line, LineFail>
    ensures { Reads result (end_line words.old) }
{
    let step = next_number(words)?;
    let name = next_name(alloc, words)?;
    check_ended(words)?;
    Ok(Line::End { step, name })
}

/// What the words of a line say.
pub(crate) fn read_line(alloc: Global, words: &mut Words<'_>) -> Result<Line, LineFail>
    ensures { Reads result (line_of words.old) }
{
    let Some(word) = words.next() else {
        return Err(LineFail::Form);
    };
    if is_word(word, "t") {
        return read_type(alloc, words);
    }
    if is_word(word, "e") {
        return read_term(alloc, words);
    }
    if is_word(word, "a") {
        let (name, prop) = named(alloc, words)?;
        return Ok(Line::Axiom(name, prop));
    }
    if is_word(word, "s") {
        return Ok(Line::Step(read_rule(alloc, words)?));
    }
    if is_word(word, "end") {
        return end_line(alloc, words);
    }
    Err(LineFail::Form)
}
