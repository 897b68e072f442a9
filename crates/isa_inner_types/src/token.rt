//! Tokens of inner texts, and why types are refused.
use isa_inner::{BinderSign, InfixSign, PrefixSign};
use isa_terms::Name;

/// A token that stands in terms and in no type.
#[derive(Drop)]
pub enum TermToken {
    /// `?x`
    Unknown(Name),
    /// `==>`, `==` or a declared notation.
    Infix(InfixSign),
    /// `PROP` or a declared notation.
    Prefix(PrefixSign),
    /// `!!`, `%` or a declared notation.
    Binder(BinderSign),
    /// `.`
    Dot,
    /// `::`
    Colons,
    /// `[|`
    OpenPremises,
    /// `;`
    Semicolon,
    /// `|]`
    ClosePremises,
    /// A symbol that begins no token: a byte, or the text from `\<` to the next `>`.
    Symbol(Name),
    /// An unknown or a type unknown in a text that may have none.
    Schematic(Name),
}

/// A token of an inner text.
#[derive(Drop)]
pub enum TextToken {
    /// An identifier, with the number of arguments of the type constructor of this name, where one is declared.
    Name(Name, Option<usize>),
    /// A type variable, whose name begins with `'`.
    Variable(Name),
    /// A type unknown, whose name begins with `'`.
    Unknown(Name),
    /// `(`
    Open,
    /// `)`
    Close,
    /// `[`
    OpenList,
    /// `]`
    CloseList,
    /// `,`
    Comma,
    /// `=>`
    Arrow,
    /// What is refused as soon as it is met, by its number.
    Refused(u64),
    /// A token that stands in no type.
    Other(TermToken),
}

/// What a type needs next.
#[derive(Clone, Copy, Debug, PartialEq, Eq)]
pub enum TypeWanted {
    Type,
    Name,
    Close,
    CloseList,
    Arrow,
    EndOfText,
}

/// Why a type is refused at its place.
#[derive(Clone, Copy, Debug, PartialEq, Eq)]
pub enum TypeRefusal {
    Expected(TypeWanted),
    /// No type constructor has the name at this place.
    Undeclared,
    /// The type constructor at this place takes another number of arguments.
    Arity,
    /// The place is nested deeper than 500.
    Deep,
    /// The token was refused when it was met, by its number.
    Met(u64),
}
