//! Why a text is refused, as the commands of a file say it.
ghost use Rattle.std.specs.Prelude.{◌≡◌};
ghost use Rattle.isa_syntax.specs.Refusals.{kind_of};

use isa_inner_text::Refusal;
use isa_outer::{Kind, Sort, What};

/// The kind of a text's refusal.
pub(crate) fn kind_of(refusal: Refusal) -> Kind
    ensures { result ≡ kind_of refusal }
{
    match refusal {
        Refusal::Expected(expected) => Kind::Expected(What::new(expected.word())),
        Refusal::UnknownSymbol(symbol) => Kind::Unknown(Sort::Symbol, symbol),
        Refusal::UnknownType(name) => Kind::Unknown(Sort::Type, name),
        Refusal::Arity(name) => Kind::Arity(name),
        Refusal::Judgment => Kind::Judgment,
        Refusal::Schematic(name) => Kind::Schematic(name),
        Refusal::Deep => Kind::Deep,
        Refusal::Memory => Kind::Memory,
    }
}
