//! The fixed signs.
ghost use Rattle.std.specs.Prelude.{◌≡◌, OnOk};
ghost use Rattle.isa_inner_tokens.specs.Fixed.{declared, mark_signs, operator_signs, type_signs, arrow_signs, symbol_signs};

use crate::sign::{Sign, Signs, TypeMark};
use isa_inner::{BinderSign, InfixSign, Mark, PrefixSign, Token};
use isa_terms::Name;
use std::alloc::{AllocError, Global};

/// Declares punctuation.
fn declare_marks(alloc: Global, signs: &mut Signs) -> Result<(), AllocError>
    ensures { OnOk result (signs.new ≡ declared mark_signs signs.old) }
{
    signs.declare(
        Name::from_text(alloc, "(")?,
        Sign::Term(Token::Mark(Mark::Open)),
    )?;
    signs.declare(
        Name::from_text(alloc, ")")?,
        Sign::Term(Token::Mark(Mark::Close)),
    )?;
    signs.declare(
        Name::from_text(alloc, ".")?,
        Sign::Term(Token::Mark(Mark::Dot)),
    )?;
    signs.declare(
        Name::from_text(alloc, "::")?,
        Sign::Term(Token::Mark(Mark::Colons)),
    )?;
    signs.declare(
        Name::from_text(alloc, ";")?,
        Sign::Term(Token::Mark(Mark::Semicolon)),
    )?;
    signs.declare(
        Name::from_text(alloc, "[|")?,
        Sign::Term(Token::Mark(Mark::OpenPremises)),
    )?;
    signs.declare(
        Name::from_text(alloc, "|]")?,
        Sign::Term(Token::Mark(Mark::ClosePremises)),
    )?;
    Ok(())
}

/// Declares the operators and binders of the pure logic.
fn declare_operators(alloc: Global, signs: &mut Signs) -> Result<(), AllocError>
    ensures { OnOk result (signs.new ≡ declared operator_signs signs.old) }
{
    signs.declare(
        Name::from_text(alloc, "==>")?,
        Sign::Term(Token::Infix(InfixSign::Implies)),
    )?;
    signs.declare(
        Name::from_text(alloc, "==")?,
        Sign::Term(Token::Infix(InfixSign::Equals)),
    )?;
    signs.declare(
        Name::from_text(alloc, "PROP")?,
        Sign::Term(Token::Prefix(PrefixSign::Prop)),
    )?;
    signs.declare(
        Name::from_text(alloc, "!!")?,
        Sign::Term(Token::Binder(BinderSign::Every)),
    )?;
    signs.declare(
        Name::from_text(alloc, "%")?,
        Sign::Term(Token::Binder(BinderSign::Lambda)),
    )?;
    Ok(())
}

/// Declares punctuation of types.
fn declare_type_marks(alloc: Global, signs: &mut Signs) -> Result<(), AllocError>
    ensures { OnOk result (signs.new ≡ declared type_signs signs.old) }
{
    signs.declare(Name::from_text(alloc, "=>")?, Sign::Type(TypeMark::Arrow))?;
    signs.declare(Name::from_text(alloc, "[")?, Sign::Type(TypeMark::OpenList))?;
    signs.declare(
        Name::from_text(alloc, "]")?,
        Sign::Type(TypeMark::CloseList),
    )?;
    signs.declare(Name::from_text(alloc, ",")?, Sign::Type(TypeMark::Comma))?;
    Ok(())
}

/// Declares the symbols that stand for operators and `=>`.
fn declare_arrows(alloc: Global, signs: &mut Signs) -> Result<(), AllocError>
    ensures { OnOk result (signs.new ≡ declared arrow_signs signs.old) }
{
    signs.declare(
        Name::from_text(alloc, "\\<Rightarrow>")?,
        Sign::Type(TypeMark::Arrow),
    )?;
    signs.declare(
        Name::from_text(alloc, "\\<Longrightarrow>")?,
        Sign::Term(Token::Infix(InfixSign::Implies)),
    )?;
    signs.declare(
        Name::from_text(alloc, "\\<equiv>")?,
        Sign::Term(Token::Infix(InfixSign::Equals)),
    )?;
    Ok(())
}

/// Declares the symbols that stand for binders and brackets.
fn declare_symbols(alloc: Global, signs: &mut Signs) -> Result<(), AllocError>
    ensures { OnOk result (signs.new ≡ declared symbol_signs signs.old) }
{
    signs.declare(
        Name::from_text(alloc, "\\<And>")?,
        Sign::Term(Token::Binder(BinderSign::Every)),
    )?;
    signs.declare(
        Name::from_text(alloc, "\\<lambda>")?,
        Sign::Term(Token::Binder(BinderSign::Lambda)),
    )?;
    signs.declare(
        Name::from_text(alloc, "\\<lbrakk>")?,
        Sign::Term(Token::Mark(Mark::OpenPremises)),
    )?;
    signs.declare(
        Name::from_text(alloc, "\\<rbrakk>")?,
        Sign::Term(Token::Mark(Mark::ClosePremises)),
    )?;
    Ok(())
}

/// Declares the fixed signs.
pub fn declare_fixed(alloc: Global, signs: &mut Signs) -> Result<(), AllocError>
    ensures { OnOk result (signs.new ≡ declared symbol_signs (declared arrow_signs (declared type_signs (declared operator_signs (declared mark_signs signs.old))))) }
{
    declare_marks(alloc, signs)?;
    declare_operators(alloc, signs)?;
    declare_type_marks(alloc, signs)?;
    declare_arrows(alloc, signs)?;
    declare_symbols(alloc, signs)?;
    Ok(())
}
