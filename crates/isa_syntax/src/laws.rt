//! Laws of the inner syntax.
ghost use Rattle.isa_syntax.specs.Growing.{TakesBack};
ghost use Rattle.isa_syntax.specs.Laws.{OneProp, OneType, ToldPropsAreTyped};

/// A proposition that a text tells is well typed, of the type of propositions, without loose bound variables, and in normal
/// form; each free variable and each unknown has one type in it.
pub fn told_props_are_typed()
    ensures { ToldPropsAreTyped }
{}

/// A text tells one proposition at most, or one refusal; and one type.
pub fn texts_tell_one_thing()
    ensures prop { OneProp }
    ensures typ { OneType }
{}

/// What was declared behind a mark is taken back by it.
pub fn undoing_takes_back()
    ensures { TakesBack }
{}
