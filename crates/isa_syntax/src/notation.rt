//! Notations of constants.
ghost use Rattle.std.specs.Prelude.{◌≡◌};
ghost use Rattle.std.specs.Option.{option_copied};
ghost use Rattle.isa_inner.specs.declared.token.InfixSign.TheVariants as infix_sign;
ghost use Rattle.isa_inner.specs.declared.token.Token.TheVariants as token;
ghost use Rattle.isa_inner_tokens.specs.declared.sign.Sign.TheVariants as sign;
ghost use Rattle.isa_syntax.specs.Notations.{greatest, is_function, fits, fits_some, sign_of};

use isa_inner::{BinderSign, Fixity, InfixSign, PrefixSign, Token};
use isa_inner_tokens::Sign;
use isa_outer::NotationKind;
use isa_terms::{Typ, split_function};

/// The greatest priority of a notation of this kind.
pub(crate) fn greatest(kind: NotationKind) -> u64
    ensures { result ≡ greatest kind }
{
    match kind {
        NotationKind::Infix => 999,
        NotationKind::Infixl => 999,
        NotationKind::Infixr => 999,
        NotationKind::Binder => 1000,
        NotationKind::Prefix => 1000,
    }
}

/// Whether there are functions of this type.
fn is_function(typ: &Typ) -> bool
    ensures { result ≡ is_function typ.now }
{
    split_function(typ).is_some()
}

/// Whether a constant of the type may have a notation of this kind.
fn fits(kind: NotationKind, typ: &Typ) -> bool
    ensures { result ≡ fits kind typ.now }
{
    match split_function(typ) {
        None => false,
        Some((domain, range)) => match kind {
            NotationKind::Infix => is_function(range),
            NotationKind::Infixl => is_function(range),
            NotationKind::Infixr => is_function(range),
            NotationKind::Binder => is_function(domain),
            NotationKind::Prefix => true,
        },
    }
}

/// Whether the constant is declared with such a type.
pub(crate) fn fits_some(kind: NotationKind, typ: Option<&Typ>) -> bool
    ensures { result ≡ fits_some kind (option_copied typ.entry) }
{
    match typ {
        None => false,
        Some(typ) => fits(kind, typ),
    }
}

/// The sign of the constant of this number, with a notation of this kind and priority.
pub(crate) fn sign_of(kind: NotationKind, priority: u16, number: u64) -> Sign
    ensures { result ≡ sign_of kind priority number }
{
    match kind {
        NotationKind::Infix => infix(number, Fixity::Neither, priority),
        NotationKind::Infixl => infix(number, Fixity::Left, priority),
        NotationKind::Infixr => infix(number, Fixity::Right, priority),
        NotationKind::Binder => {
            Sign::Term(Token::Binder(BinderSign::Declared(number, priority)))
        }
        NotationKind::Prefix => {
            Sign::Term(Token::Prefix(PrefixSign::Declared(number, priority)))
        }
    }
}

/// The sign of an infix.
fn infix(number: u64, fixity: Fixity, priority: u16) -> Sign
    ensures { result ≡ sign.Term (token.Infix (infix_sign.Declared number fixity priority)) }
{
    Sign::Term(Token::Infix(InfixSign::Declared(number, fixity, priority)))
}
