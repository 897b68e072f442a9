//! Refusals of declarations.
ghost use Rattle.std.specs.Prelude.{◌≡◌};
ghost use Rattle.isa_theory.specs.Applying.{kind_of, new_name};
ghost use Rattle.isa_theory.specs.Results.{Answers};

use isa_kernel::TheoryFail;
use isa_outer::{Kind, Sort};
use isa_terms::Name;

/// Why a declaration of this sort is refused.
pub fn kind_of(sort: Sort, fail: TheoryFail) -> Kind
    ensures { result ≡ kind_of sort fail }
{
    match fail {
        TheoryFail::Duplicate(name) => Kind::Duplicate(sort, name),
        TheoryFail::Unknown(name) => Kind::Unknown(Sort::Type, name),
        TheoryFail::Misfit(name) => Kind::Arity(name),
        TheoryFail::IllTyped(_) | TheoryFail::NotProp(_) => Kind::Types,
        TheoryFail::Memory => Kind::Memory,
    }
}

/// Refuses a name of this sort that is there.
pub fn new_name(sort: Sort, name: &Name, there: bool) -> Result<(), Kind>
    ensures { Answers result (new_name sort name.now there) }
{
    if there {
        Err(Kind::Duplicate(sort, name.copy()?))
    } else {
        Ok(())
    }
}
