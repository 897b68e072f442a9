//! Reading a type.
ghost use Rattle.std.specs.Prelude.{◌≡◌, ◌<◌, ◌≤◌, ◌+◌, ◌∷◌, ◌++◌, [], List, length, MatchResult, IfOk, IfNone, IfSome, ℕ};
ghost use Rattle.isa_terms.specs.Types.{Ty};
ghost use Rattle.isa_inner_types.specs.TypeReading.{Read, Refused, Whole, Behind, Arguments, Domains, Step, Ends, Goes, Runs, step, front, behind, closed, arguments, range, domains, construct, functions_of, why, limit, type_text};
ghost use Rattle.isa_inner_types.specs.TypeAnswers.{FailsBy, IfRefused, IsNoArrow, IsNoClose, IsNoCloseList, IsNoComma, IsNoName, IsNoSingle, IsRefusal, Leads};

use crate::token::{TextToken, TypeRefusal, TypeWanted};
use isa_terms::{Name, Typ, TypNode, Typs, function_type};
use std::alloc::{AllocError, AllocFailed, Global};

/// How deep a text may nest.
const LIMIT: u64 = 500;

/// Why there is no type: a refusal with the tokens from its place on, or want of memory.
#[derive(Clone, Copy)]
pub enum Fail<'a> {
    Memory,
    Refused(TypeRefusal, &'a [TextToken]),
}

impl<'a> From<AllocError> for Fail<'a> {
    ghost use Rattle.std.specs.Prelude.{◌≡◌};
    ghost use Rattle.isa_inner_types.specs.declared.reading.Fail.TheVariants.{Memory};

    ghost from_gives = { λ _ e. e ≡ Memory };

    fn from(_: AllocError) -> Fail<'a> {
        Fail::Memory
    }
}

impl<'a, T: Drop> From<AllocFailed<T>> for Fail<'a> {
    ghost use Rattle.std.specs.Prelude.{◌≡◌};
    ghost use Rattle.isa_inner_types.specs.declared.reading.Fail.TheVariants.{Memory};

    ghost from_gives = { λ _ e. e ≡ Memory };

    fn from(_: AllocFailed<T>) -> Fail<'a> {
        Fail::Memory
    }
}

/// A type that was read, how much deeper than it its deepest place is, and the tokens behind it.
pub type TypeRead<'a> = (Typ, u64, &'a [TextToken]);

/// Reads a whole text as a type.
pub fn read_whole_type<'a>(alloc: Global, tokens: &'a [TextToken]) -> Result<Typ, Fail<'a>>
    ensures { MatchResult result
        (λ T. (height : ℕ) × Runs (type_text tokens.now) (Read T height []))
        (λ fail. FailsBy fail (type_text tokens.now)) }
{
    let (typ, _height, rest) = read_type(alloc, 0, tokens)?;
    match rest.split_first() {
        None => Ok(typ),
        Some(_) => Err(refused(TypeWanted::EndOfText, rest)),
    }
}

/// Reads the type that these tokens begin with, as far as it reaches, at a place nested so deep.
#[cycle(typing)]
pub fn read_type<'a>(
    alloc: Global,
    depth: u64,
    tokens: &'a [TextToken],
) -> Result<(Typ, u64, &'a [TextToken]), Fail<'a>>
    ensures read { MatchResult result
        (λ read. Runs (step (Whole depth) tokens.now) (Read read.0 read.1 read.2.now))
        (λ fail. FailsBy fail (step (Whole depth) tokens.now)) }
    ensures shorter { IfOk result (λ read. length read.2.now < length tokens.now) }
    ensures shallow { IfOk result (λ read. depth + read.1 ≤ limit) }
{
    if LIMIT < depth {
        return Err(Fail::Refused(TypeRefusal::Deep, tokens));
    }
    front(alloc, depth, tokens)
}

/// The refusal of these tokens, where this is wanted.
fn refused<'a>(wanted: TypeWanted, tokens: &'a [TextToken]) -> Fail<'a>
    ensures { IsRefusal result (why wanted tokens.now) tokens.now }
{
    match tokens.split_first() {
        None => Fail::Refused(TypeRefusal::Expected(wanted), tokens),
        Some((TextToken::Refused(number), _)) => {
            Fail::Refused(TypeRefusal::Met(*number), tokens)
        }
        Some(_) => Fail::Refused(TypeRefusal::Expected(wanted), tokens),
    }
}

/// The name that comes next, with its number of arguments, and the tokens behind it.
fn name_next(tokens: &[TextToken]) -> Option<(&Name, Option<usize>, &[TextToken])>
    ensures none { IfNone result (IsNoName tokens.now) }
    ensures found { IfSome result (λ next. tokens.now ≡ TextToken.Name next.0.now next.1 ∷ next.2.now) }
{
    match tokens.split_first() {
        None => None,
        Some((TextToken::Name(name, arity), rest)) => Some((name, *arity, rest)),
        Some(_) => None,
    }
}

/// The tokens behind `,`, where it comes next.
fn behind_comma(tokens: &[TextToken]) -> Option<&[TextToken]>
    ensures none { IfNone result (IsNoComma tokens.now) }
    ensures found { IfSome result (λ rest. tokens.now ≡ TextToken.Comma ∷ rest.now) }
{
    match tokens.split_first() {
        None => None,
        Some((TextToken::Comma, rest)) => Some(rest),
        Some(_) => None,
    }
}

/// The tokens behind `)`, where it comes next.
fn behind_close(tokens: &[TextToken]) -> Option<&[TextToken]>
    ensures none { IfNone result (IsNoClose tokens.now) }
    ensures found { IfSome result (λ rest. tokens.now ≡ TextToken.Close ∷ rest.now) }
{
    match tokens.split_first() {
        None => None,
        Some((TextToken::Close, rest)) => Some(rest),
        Some(_) => None,
    }
}

/// The tokens behind `]`, where it comes next.
fn behind_close_list(tokens: &[TextToken]) -> Option<&[TextToken]>
    ensures none { IfNone result (IsNoCloseList tokens.now) }
    ensures found { IfSome result (λ rest. tokens.now ≡ TextToken.CloseList ∷ rest.now) }
{
    match tokens.split_first() {
        None => None,
        Some((TextToken::CloseList, rest)) => Some(rest),
        Some(_) => None,
    }
}

/// The tokens behind `=>`, where it comes next.
fn behind_arrow(tokens: &[TextToken]) -> Option<&[TextToken]>
    ensures none { IfNone result (IsNoArrow tokens.now) }
    ensures found { IfSome result (λ rest. tokens.now ≡ TextToken.Arrow ∷ rest.now) }
{
    match tokens.split_first() {
        None => None,
        Some((TextToken::Arrow, rest)) => Some(rest),
        Some(_) => None,
    }
}

/// The only one of these types.
fn single(types: &Typs) -> Option<&Typ>
    ensures none { IfNone result (IsNoSingle types.now) }
    ensures found { IfSome result (λ only. types.now ≡ only.now ∷ []) }
{
    let (first, others) = types.as_slice().split_first()?;
    match others.split_first() {
        None => Some(first),
        Some(_) => None,
    }
}

/// The type of a constructor with these arguments; its name is the first of the tokens `at`.
fn construct<'a>(
    alloc: Global,
    name: &Name,
    arity: Option<usize>,
    args: Typs,
    at: &'a [TextToken],
) -> Result<Typ, Fail<'a>>
    ensures { MatchResult result
        (λ T. (go : Ty → Step) → construct name.now arity args at.now go ≡ go T)
        (λ fail. IfRefused fail (λ w ts. (go : Ty → Step) → construct name.now arity args at.now go ≡ Ends (Refused w ts))) }
{
    let Some(count) = arity else {
        return Err(Fail::Refused(TypeRefusal::Undeclared, at));
    };
    if count != args.len() {
        return Err(Fail::Refused(TypeRefusal::Arity, at));
    }
    Ok(Typ::new(alloc, TypNode::Con(name.copy()?, args))?)
}

/// Reads a type that isn't nested too deep.
#[cycle(typing)]
fn front<'a>(
    alloc: Global,
    depth: u64,
    tokens: &'a [TextToken],
) -> Result<(Typ, u64, &'a [TextToken]), Fail<'a>>
    requires { depth ≤ limit }
    ensures read { MatchResult result
        (λ read. Runs (front depth tokens.now) (Read read.0 read.1 read.2.now))
        (λ fail. FailsBy fail (front depth tokens.now)) }
    ensures shorter { IfOk result (λ read. length read.2.now < length tokens.now) }
    ensures shallow { IfOk result (λ read. depth + read.1 ≤ limit) }
{
    let Some((first, after)) = tokens.split_first() else {
        return Err(refused(TypeWanted::Type, tokens));
    };
    match first {
        TextToken::Variable(name) => {
            let typ = Typ::new(alloc, TypNode::Fixed(name.copy()?))?;
            behind(alloc, depth, typ, 0, after)
        }
        TextToken::Unknown(name) => {
            let typ = Typ::new(alloc, TypNode::Unknown(name.copy()?, 0))?;
            behind(alloc, depth, typ, 0, after)
        }
        TextToken::Name(name, arity) => {
            let typ = construct(alloc, name, *arity, Typs::new(alloc), tokens)?;
            behind(alloc, depth, typ, 0, after)
        }
        TextToken::Open => {
            let (argument, height, later) = read_type(alloc, depth + 1, after)?;
            arguments(alloc, depth, argument, height + 1, later)
        }
        TextToken::OpenList => {
            let (domain, height, later) = read_type(alloc, depth + 2, after)?;
            domains(alloc, depth, domain, height + 2, later)
        }
        _ => Err(refused(TypeWanted::Type, tokens)),
    }
}

/// Reads the names behind a type, and what it is a function to.
#[cycle(typing)]
fn behind<'a>(
    alloc: Global,
    depth: u64,
    left: Typ,
    height: u64,
    tokens: &'a [TextToken],
) -> Result<(Typ, u64, &'a [TextToken]), Fail<'a>>
    requires { depth + height ≤ limit }
    ensures read { MatchResult result
        (λ read. Runs (behind depth left height tokens.now) (Read read.0 read.1 read.2.now))
        (λ fail. FailsBy fail (behind depth left height tokens.now)) }
    ensures shorter { IfOk result (λ read. length read.2.now ≤ length tokens.now) }
    ensures shallow { IfOk result (λ read. depth + read.1 ≤ limit) }
{
    let mut typ = left;
    let mut rest = tokens;
    while let Some((name, arity, after)) = name_next(rest) {
        let mut args = Typs::new(alloc);
        args.push(typ)?;
        typ = construct(alloc, name, arity, args, rest)?;
        rest = after;
    }
    to_range(alloc, depth, typ, height, rest)
}

/// Reads what a type is a function to, where `=>` comes next.
#[cycle(typing)]
fn to_range<'a>(
    alloc: Global,
    depth: u64,
    domain: Typ,
    height: u64,
    tokens: &'a [TextToken],
) -> Result<(Typ, u64, &'a [TextToken]), Fail<'a>>
    requires no_name { IsNoName tokens.now }
    requires shallow { depth + height ≤ limit }
    ensures read { MatchResult result
        (λ read. Runs (behind depth domain height tokens.now) (Read read.0 read.1 read.2.now))
        (λ fail. FailsBy fail (behind depth domain height tokens.now)) }
    ensures shorter { IfOk result (λ read. length read.2.now ≤ length tokens.now) }
    ensures shallow { IfOk result (λ read. depth + read.1 ≤ limit) }
{
    let Some(after) = behind_arrow(tokens) else {
        return Ok((domain, height, tokens));
    };
    if LIMIT <= depth + height {
        return Err(Fail::Refused(TypeRefusal::Deep, tokens));
    }
    let (range, range_height, rest) = read_type(alloc, depth + 1, after)?;
    let whole = function_type(alloc, domain, range)?;
    Ok((whole, height.max(range_height) + 1, rest))
}

/// Reads further types in parentheses, and what stands behind them.
#[cycle(typing)]
fn arguments<'a>(
    alloc: Global,
    depth: u64,
    first: Typ,
    height: u64,
    tokens: &'a [TextToken],
) -> Result<(Typ, u64, &'a [TextToken]), Fail<'a>>
    requires { depth + height ≤ limit }
    ensures read { MatchResult result
        (λ read. Runs (arguments depth (first ∷ []) height tokens.now) (Read read.0 read.1 read.2.now))
        (λ fail. FailsBy fail (arguments depth (first ∷ []) height tokens.now)) }
    ensures shorter { IfOk result (λ read. length read.2.now ≤ length tokens.now) }
    ensures shallow { IfOk result (λ read. depth + read.1 ≤ limit) }
{
    let mut args = Typs::new(alloc);
    args.push(first)?;
    let mut highest = height;
    let mut rest = tokens;
    while let Some(after) = behind_comma(rest) {
        let (argument, argument_height, later) = read_type(alloc, depth + 1, after)?;
        args.push(argument)?;
        highest = highest.max(argument_height + 1);
        rest = later;
    }
    let Some(after) = behind_close(rest) else {
        return Err(refused(TypeWanted::Close, rest));
    };
    closed(alloc, depth, args, highest, after)
}

/// Reads what stands behind types in parentheses: the name of their constructor, where they are several.
#[cycle(typing)]
fn closed<'a>(
    alloc: Global,
    depth: u64,
    args: Typs,
    height: u64,
    tokens: &'a [TextToken],
) -> Result<(Typ, u64, &'a [TextToken]), Fail<'a>>
    requires { depth + height ≤ limit }
    ensures read { MatchResult result
        (λ read. Runs (closed depth args height tokens.now) (Read read.0 read.1 read.2.now))
        (λ fail. FailsBy fail (closed depth args height tokens.now)) }
    ensures shorter { IfOk result (λ read. length read.2.now ≤ length tokens.now) }
    ensures shallow { IfOk result (λ read. depth + read.1 ≤ limit) }
{
    if let Some(only) = single(&args) {
        return behind(alloc, depth, only.copy()?, height, tokens);
    }
    let Some((name, arity, after)) = name_next(tokens) else {
        return Err(refused(TypeWanted::Name, tokens));
    };
    let typ = construct(alloc, name, arity, args, tokens)?;
    behind(alloc, depth, typ, height, after)
}

/// Reads further types in brackets, and what they are the domains to.
#[cycle(typing)]
fn domains<'a>(
    alloc: Global,
    depth: u64,
    first: Typ,
    height: u64,
    tokens: &'a [TextToken],
) -> Result<(Typ, u64, &'a [TextToken]), Fail<'a>>
    requires { depth + height ≤ limit }
    ensures read { MatchResult result
        (λ read. Runs (domains depth (first ∷ []) height tokens.now) (Read read.0 read.1 read.2.now))
        (λ fail. FailsBy fail (domains depth (first ∷ []) height tokens.now)) }
    ensures shorter { IfOk result (λ read. length read.2.now ≤ length tokens.now) }
    ensures shallow { IfOk result (λ read. depth + read.1 ≤ limit) }
{
    let mut types = Vec::new(alloc);
    types.push(first)?;
    let mut highest = height;
    let mut rest = tokens;
    while let Some(after) = behind_comma(rest) {
        let (domain, domain_height, later) = read_type(alloc, depth + 2, after)?;
        types.push(domain)?;
        highest = highest.max(domain_height + 2);
        rest = later;
    }
    let Some(after) = behind_close_list(rest) else {
        return Err(refused(TypeWanted::CloseList, rest));
    };
    range(alloc, depth, types, highest, after)
}

/// Reads what types in brackets are the domains to.
#[cycle(typing)]
fn range<'a>(
    alloc: Global,
    depth: u64,
    types: Vec<Typ>,
    height: u64,
    tokens: &'a [TextToken],
) -> Result<(Typ, u64, &'a [TextToken]), Fail<'a>>
    requires { depth + height ≤ limit }
    ensures read { MatchResult result
        (λ read. Runs (range depth types.items height tokens.now) (Read read.0 read.1 read.2.now))
        (λ fail. FailsBy fail (range depth types.items height tokens.now)) }
    ensures shorter { IfOk result (λ read. length read.2.now ≤ length tokens.now) }
    ensures shallow { IfOk result (λ read. depth + read.1 ≤ limit) }
{
    let Some(after) = behind_arrow(tokens) else {
        return Err(refused(TypeWanted::Arrow, tokens));
    };
    let (range, range_height, rest) = read_type(alloc, depth + 1, after)?;
    let whole = functions(alloc, types, range)?;
    Ok((whole, height.max(range_height + 1), rest))
}

/// The type of functions from these types.
fn functions(alloc: Global, domains: Vec<Typ>, range: Typ) -> Result<Typ, AllocError>
    ensures { IfOk result (λ T. T ≡ functions_of domains.items range) }
{
    let mut domains = domains;
    let mut typ = range;
    while let Some(domain) = domains.pop() {
        typ = function_type(alloc, domain, typ)?;
    }
    Ok(typ)
}
