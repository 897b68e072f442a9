//! Reading by priorities.
ghost use Rattle.std.specs.Prelude.{◌≡◌, ◌≢◌, ◌<◌, ◌≤◌, ◌+◌, ◌^◌, ◌∷◌, [], ℕ, Bool, List, length, MatchResult, IfOk};
ghost use Rattle.isa_terms.specs.Types.{Ty};
ghost use Rattle.isa_inner_text.specs.declared.refusal.Refusal.TheVariants as refusal;
ghost use Rattle.isa_inner_text.specs.declared.part.Part.{Part};
ghost use Rattle.isa_inner_text.specs.declared.part.Variable.{Variable};
ghost use Rattle.isa_inner_text.specs.Reading.{Read, Refused, Operand, Behind, Step, Ends, Goes, InType, Runs, step, text, front, further, variable, bindings, body, premises, conclusion, complete, with_judgment, goes_on, is_first, limit};
ghost use Rattle.isa_inner.specs.Priorities.{operators};
ghost use Rattle.isa_inner_text.specs.Private.Answers.{FailsBy, Leads};

use crate::part::{
    Part, Variable, annotated, applied, bound, bracketed, closed, joined, judged, parenthesised,
    prefixed,
};
use crate::refusal::{Expected, Refusal};
use crate::refusing::{
    CLOSED, begins, behind_first, expect, expect_arrow, expect_name, infix_next, is_met,
    is_variable, next, operand_expected, refused, starts, type_cause,
};
use crate::signature::Signature;
use isa_inner::{BinderSign, Mark, Wanted};
use isa_inner_types::{TermToken, TextToken, read_type};
use isa_raw::{RawNode, RawTerm};
use isa_terms::Typ;
use std::alloc::Global;

/// How deep a text may nest.
const LIMIT: u64 = 500;

/// Reads a whole text.
pub(crate) fn whole(alloc: Global, sig: &Signature, tokens: &[TextToken]) -> Result<Part, Refusal>
    ensures { MatchResult result
        (λ part. Runs sig.now (text sig.now tokens.now) (Read part []))
        (λ why. FailsBy sig.now why (text sig.now tokens.now)) }
{
    let (part, rest) = operand(alloc, sig, 0, Wanted::Proposition, 0, tokens)?;
    let part = complete(alloc, sig, Wanted::Proposition, part)?;
    match next(rest) {
        None => Ok(part),
        Some(_) => Err(refused(Expected::EndOfText, rest)),
    }
}

/// The complete term where this is wanted, with the judgment in front where a proposition is.
fn complete(alloc: Global, sig: &Signature, wanted: Wanted, part: Part) -> Result<Part, Refusal>
    ensures done { MatchResult result
        (λ whole. (go : Part → Step) → complete sig.now wanted part go ≡ go whole)
        (λ why. why ≢ refusal.Memory → (go : Part → Step) → complete sig.now wanted part go ≡ Ends (Refused why)) }
    ensures height { IfOk result (λ whole. whole.height ≡ part.height) }
{
    match wanted {
        Wanted::Proposition => {
            if part.is_proposition {
                return Ok(part);
            }
            with_judgment(alloc, sig, part)
        }
        Wanted::Term => Ok(part),
        Wanted::Name => Ok(part),
        Wanted::Type => Ok(part),
        Wanted::This(_) => Ok(part),
        Wanted::EndOfText => Ok(part),
    }
}

/// The term with the judgment in front.
fn with_judgment(alloc: Global, sig: &Signature, part: Part) -> Result<Part, Refusal>
    ensures done { MatchResult result
        (λ whole. (go : Part → Step) → with_judgment sig.now.judgment part go ≡ go whole)
        (λ why. why ≢ refusal.Memory → (go : Part → Step) → with_judgment sig.now.judgment part go ≡ Ends (Refused why)) }
    ensures height { IfOk result (λ whole. whole.height ≡ part.height) }
{
    match sig.judgment() {
        None => Err(Refusal::Judgment),
        Some(judgment) => Ok(judged(alloc, judgment, part)?),
    }
}

/// Whether the term goes on behind this left operand.
fn goes_on(least: u64, left: &Part, tokens: &[TextToken]) -> bool
    ensures { result ≡ goes_on least left.now tokens.now }
{
    if let Some((sign, _)) = infix_next(tokens) {
        return least <= sign.own() && sign.left() <= left.priority;
    }
    if starts(Mark::Colons, tokens) {
        return least <= 3 && 4 <= left.priority;
    }
    least <= 999 && (left.is_function && begins(CLOSED, tokens))
}

/// Reads the type that comes next, at this depth, with its height.
fn typ_at<'a>(
    alloc: Global,
    depth: u64,
    tokens: &'a [TextToken],
) -> Result<(Typ, u64, &'a [TextToken]), Refusal>
    ensures read { MatchResult result
        (λ read. (sig : Signature) (go : Ty → ℕ → List TextToken → Step) → Leads sig (InType depth tokens.now go) (go read.0 read.1 read.2.now))
        (λ why. (sig : Signature) (go : Ty → ℕ → List TextToken → Step) → FailsBy sig why (InType depth tokens.now go)) }
    ensures shorter { IfOk result (λ read. length read.2.now < length tokens.now) }
    ensures shallow { IfOk result (λ read. depth + read.1 ≤ limit) }
{
    match read_type(alloc, depth, tokens) {
        Ok((typ, height, rest)) => Ok((typ, height, rest)),
        Err(fail) => Err(type_cause(alloc, fail)),
    }
}

/// Reads an operand of this priority or more, as far as it reaches.
#[cycle(reading)]
fn operand<'a>(
    alloc: Global,
    sig: &Signature,
    depth: u64,
    name: Wanted,
    least: u64,
    tokens: &'a [TextToken],
) -> Result<(Part, &'a [TextToken]), Refusal>
    ensures read { MatchResult result
        (λ read. Runs sig.now (step sig.now (Operand depth name least) tokens.now) (Read read.0 read.1.now))
        (λ why. FailsBy sig.now why (step sig.now (Operand depth name least) tokens.now)) }
    ensures shorter { IfOk result (λ read. length read.1.now < length tokens.now) }
    ensures shallow { IfOk result (λ read. depth + read.0.height ≤ limit) }
{
    if LIMIT < depth {
        return Err(Refusal::Deep);
    }
    if !begins(least, tokens) {
        return Err(refused(operand_expected(name), tokens));
    }
    let (mut left, mut rest) = front(alloc, sig, depth, least, tokens)?;
    while goes_on(least, &left, rest) {
        let (longer, later) = further(alloc, sig, depth, least, left, rest)?;
        left = longer;
        rest = later;
    }
    if is_met(rest) {
        return Err(refused(Expected::EndOfText, rest));
    }
    Ok((left, rest))
}

/// Reads what an operand begins with.
#[cycle(reading)]
fn front<'a>(
    alloc: Global,
    sig: &Signature,
    depth: u64,
    least: u64,
    tokens: &'a [TextToken],
) -> Result<(Part, &'a [TextToken]), Refusal>
    requires { depth ≤ limit }
    ensures read { MatchResult result
        (λ read. Leads sig.now (front sig.now depth least tokens.now) (Goes (Behind depth least read.0) read.1.now))
        (λ why. FailsBy sig.now why (front sig.now depth least tokens.now)) }
    ensures shorter { IfOk result (λ read. length read.1.now < length tokens.now) }
    ensures shallow { IfOk result (λ read. depth + read.0.height ≤ limit) }
{
    let Some((first, after)) = next(tokens) else {
        return Err(refused(Expected::Term, tokens));
    };
    match first {
        TextToken::Name(name, _) => Ok((closed(alloc, RawNode::Name(name.copy()?))?, after)),
        TextToken::Open => {
            let (inner, later) = operand(alloc, sig, depth + 1, Wanted::Term, 0, after)?;
            let rest = expect(Mark::Close, later)?;
            Ok((parenthesised(inner), rest))
        }
        TextToken::Other(other) => match other {
            TermToken::Unknown(name) => {
                Ok((closed(alloc, RawNode::Unknown(name.copy()?))?, after))
            }
            TermToken::OpenPremises => premises(alloc, sig, depth, after),
            TermToken::Prefix(sign) => {
                let (inner, later) = operand(
                    alloc,
                    sig,
                    depth + 1,
                    Wanted::Term,
                    sign.own(),
                    after,
                )?;
                Ok((prefixed(alloc, sig, *sign, inner)?, later))
            }
            TermToken::Binder(sign) => bindings(alloc, sig, depth, *sign, after),
            _ => Err(refused(Expected::Term, tokens)),
        },
        _ => Err(refused(Expected::Term, tokens)),
    }
}

/// Reads the right operand, the type or the argument behind this left operand.
#[cycle(reading)]
fn further<'a>(
    alloc: Global,
    sig: &Signature,
    depth: u64,
    least: u64,
    left: Part,
    tokens: &'a [TextToken],
) -> Result<(Part, &'a [TextToken]), Refusal>
    requires { depth + left.height ≤ limit }
    ensures read { MatchResult result
        (λ read. Leads sig.now (further sig.now depth least left tokens.now) (Goes (Behind depth least read.0) read.1.now))
        (λ why. FailsBy sig.now why (further sig.now depth least left tokens.now)) }
    ensures shorter { IfOk result (λ read. length read.1.now < length tokens.now) }
    ensures shallow { IfOk result (λ read. depth + read.0.height ≤ limit) }
{
    if let Some((sign, after)) = infix_next(tokens) {
        let wanted = sign.operands();
        let least_right = sign.right();
        let left = complete(alloc, sig, wanted, left)?;
        if LIMIT <= depth + left.height {
            return Err(Refusal::Deep);
        }
        let (right, later) = operand(alloc, sig, depth + 1, wanted, least_right, after)?;
        let right = complete(alloc, sig, wanted, right)?;
        return Ok((joined(alloc, sig, sign, left, right)?, later));
    }
    if starts(Mark::Colons, tokens) {
        if LIMIT <= depth + left.height {
            return Err(Refusal::Deep);
        }
        let (typ, height, later) = typ_at(alloc, depth + 1, behind_first(tokens))?;
        return Ok((annotated(alloc, left, typ, height)?, later));
    }
    let (argument, later) = operand(alloc, sig, depth, Wanted::Term, CLOSED, tokens)?;
    Ok((applied(alloc, left, argument)?, later))
}

/// Reads a variable of a binder.
fn one_variable<'a>(
    alloc: Global,
    depth: u64,
    first: bool,
    tokens: &'a [TextToken],
) -> Result<(Variable, u64, bool, &'a [TextToken]), Refusal>
    requires { depth ≤ limit }
    ensures read { MatchResult result
        (λ read. (sig : Signature) (go : Variable → ℕ → Bool → List TextToken → Step) → Leads sig (variable depth first tokens.now go) (go read.0 read.1 read.2 read.3.now))
        (λ why. (sig : Signature) (go : Variable → ℕ → Bool → List TextToken → Step) → FailsBy sig why (variable depth first tokens.now go)) }
    ensures shorter { IfOk result (λ read. length read.3.now < length tokens.now) }
    ensures shallow { IfOk result (λ read. depth + read.1 ≤ limit) }
{
    if starts(Mark::Open, tokens) {
        let (name, rest) = expect_name(behind_first(tokens))?;
        let later = expect(Mark::Colons, rest)?;
        let (typ, height, last) = typ_at(alloc, depth + 2, later)?;
        let end = expect(Mark::Close, last)?;
        let variable = Variable {
            name,
            typ: Some(typ),
        };
        return Ok((variable, height + 2, false, end));
    }
    let (name, rest) = expect_name(tokens)?;
    if first && starts(Mark::Colons, rest) {
        let (typ, height, later) = typ_at(alloc, depth + 1, behind_first(rest))?;
        let variable = Variable {
            name,
            typ: Some(typ),
        };
        return Ok((variable, height + 1, true, later));
    }
    Ok((Variable { name, typ: None }, 0, false, rest))
}

/// Whether no variable was read yet.
fn is_first(variables: &[Variable]) -> bool
    ensures { result ≡ is_first variables.now }
{
    match variables.split_first() {
        None => true,
        Some(_) => false,
    }
}

/// How much deeper than a binder its body stands.
fn binders(sign: BinderSign, variables: &[Variable]) -> u64
    requires { length variables.now + 1 < 2 ^ 64 }
    ensures { result ≡ operators sign + length variables.now }
{
    sign.operators() + variables.len() as u64
}

/// Reads the variables of a binder and its body.
#[cycle(reading)]
fn bindings<'a>(
    alloc: Global,
    sig: &Signature,
    depth: u64,
    sign: BinderSign,
    tokens: &'a [TextToken],
) -> Result<(Part, &'a [TextToken]), Refusal>
    requires { depth ≤ limit }
    ensures read { MatchResult result
        (λ read. Runs sig.now (bindings sig.now depth sign [] 0 tokens.now) (Read read.0 read.1.now))
        (λ why. FailsBy sig.now why (bindings sig.now depth sign [] 0 tokens.now)) }
    ensures shorter { IfOk result (λ read. length read.1.now < length tokens.now) }
    ensures shallow { IfOk result (λ read. depth + read.0.height ≤ limit) }
{
    let mut variables = Vec::new(alloc);
    let mut height = 0;
    let mut rest = tokens;
    let mut more = true;
    while more {
        let (variable, typ_height, only, after) = one_variable(
            alloc,
            depth,
            is_first(variables.as_slice()),
            rest,
        )?;
        variables.push(variable)?;
        height = height.max(typ_height);
        rest = after;
        more = !only && is_variable(rest);
    }
    let start = expect(Mark::Dot, rest)?;
    body(alloc, sig, depth, sign, variables, height, start)
}

/// Reads a binder's body.
#[cycle(reading)]
fn body<'a>(
    alloc: Global,
    sig: &Signature,
    depth: u64,
    sign: BinderSign,
    variables: Vec<Variable>,
    height: u64,
    tokens: &'a [TextToken],
) -> Result<(Part, &'a [TextToken]), Refusal>
    requires few { depth + length variables.items + 1 < 2 ^ 64 }
    requires shallow { depth + height ≤ limit }
    ensures read { MatchResult result
        (λ read. Runs sig.now (body sig.now depth sign variables.items height tokens.now) (Read read.0 read.1.now))
        (λ why. FailsBy sig.now why (body sig.now depth sign variables.items height tokens.now)) }
    ensures shorter { IfOk result (λ read. length read.1.now < length tokens.now) }
    ensures shallow { IfOk result (λ read. depth + read.0.height ≤ limit) }
{
    let binders = binders(sign, variables.as_slice());
    let wanted = sign.body();
    let (inner, rest) = operand(alloc, sig, depth + binders, wanted, sign.own(), tokens)?;
    let inner = complete(alloc, sig, wanted, inner)?;
    Ok((bound(alloc, sig, sign, variables, height, inner)?, rest))
}

/// Reads premises up to `|]`, and what they imply.
#[cycle(reading)]
fn premises<'a>(
    alloc: Global,
    sig: &Signature,
    depth: u64,
    tokens: &'a [TextToken],
) -> Result<(Part, &'a [TextToken]), Refusal>
    requires { depth ≤ limit }
    ensures read { MatchResult result
        (λ read. Runs sig.now (premises sig.now depth [] 0 tokens.now) (Read read.0 read.1.now))
        (λ why. FailsBy sig.now why (premises sig.now depth [] 0 tokens.now)) }
    ensures shorter { IfOk result (λ read. length read.1.now < length tokens.now) }
    ensures shallow { IfOk result (λ read. depth + read.0.height ≤ limit) }
{
    let mut before = Vec::new(alloc);
    let mut height = 0;
    let mut rest = tokens;
    let mut more = true;
    while more {
        let (premise, later) = operand(alloc, sig, depth + 2, Wanted::Proposition, 0, rest)?;
        let premise = complete(alloc, sig, Wanted::Proposition, premise)?;
        height = height.max(premise.height + 2);
        before.push(premise.term)?;
        more = starts(Mark::Semicolon, later);
        rest = if more { behind_first(later) } else { later };
    }
    let last = expect(Mark::ClosePremises, rest)?;
    let start = expect_arrow(last)?;
    conclusion(alloc, sig, depth, before, height, start)
}

/// Reads what premises in brackets imply.
#[cycle(reading)]
fn conclusion<'a>(
    alloc: Global,
    sig: &Signature,
    depth: u64,
    before: Vec<RawTerm>,
    height: u64,
    tokens: &'a [TextToken],
) -> Result<(Part, &'a [TextToken]), Refusal>
    requires { depth + height ≤ limit }
    ensures read { MatchResult result
        (λ read. Runs sig.now (conclusion sig.now depth before.items height tokens.now) (Read read.0 read.1.now))
        (λ why. FailsBy sig.now why (conclusion sig.now depth before.items height tokens.now)) }
    ensures shorter { IfOk result (λ read. length read.1.now < length tokens.now) }
    ensures shallow { IfOk result (λ read. depth + read.0.height ≤ limit) }
{
    let (inner, rest) = operand(alloc, sig, depth + 1, Wanted::Proposition, 1, tokens)?;
    let inner = complete(alloc, sig, Wanted::Proposition, inner)?;
    Ok((bracketed(alloc, sig, before, height, inner)?, rest))
}
