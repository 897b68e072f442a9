//! Laws of the commands.
ghost use Rattle.isa_theory.specs.Laws.{OneLemma, OneNextContext};

/// A command has one next context at most in a context, or one refusal.
pub fn commands_have_one_answer()
    ensures { OneNextContext }
{}

/// A text begins one lemma at most, or is refused for one cause.
pub fn texts_begin_one_lemma()
    ensures { OneLemma }
{}
