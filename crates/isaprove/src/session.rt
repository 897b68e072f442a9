//! A session: the context of the theory, and the lemma whose proof is open.
ghost use Rattle.std.specs.Prelude.{◌≡◌, ◌+◌, IfOk};
ghost use Rattle.std.specs.Option.{option_copied};
ghost use Rattle.isa_print.specs.Text.{state_text};
ghost use Rattle.isa_theory.specs.Contexts.{empty_context, judgment_name};
ghost use Rattle.isa_theory.specs.Results.{Answers};
ghost use Rattle.isa_outer.specs.declared.refusal.Kind.TheVariants as kind;
ghost use Rattle.isa_theory.specs.Applying.{all_known, line_of};
ghost use Rattle.isa_theory.specs.MethodFacts.{method_facts};
ghost use Rattle.isaprove.specs.Steps as steps;
ghost use Rattle.isaprove.specs.Steps.{opening_of, declared, opened, Begins, Declares, unhonoured, match_facts, tried_by, asked, first_asked, state_of, applying, going_back, new_fact_name, finishing, not_yet, quiet, dropped, proving, Outside, Comes};
ghost use Rattle.isaprove.specs.Taken.{within, ComesOut, Printing, Becomes, ComesQuiet, Proves, lemma_after, lemma_next};

use crate::asking::{ask_matching, ask_opening};
use crate::failure::{Failure, Rejection};
use crate::plain::{are_plain, is_plain};
use isa_goal::{State, are_first_order, has_counted, have_counted};
use isa_kernel::{InferenceError, Thm, Thms};
use isa_outer::{Command, Inner, Kind, Label, Method, MethodNode, Refused, Setting, Sort};
use isa_print::{state_text, theorem_text};
use isa_seq::Answer;
use isa_terms::{Name, Names, Term};
use isa_theory::{Context, Lemma, line_of};
use std::alloc::{AllocError, Global};

/// How many ticks may stand before a result.
pub const BUDGET: u64 = 200_000;

/// What was tried last in a proof.
#[derive(Drop)]
pub enum Tried {
    /// The opening of the lemma.
    Opening,
    /// The rules, matched with the first subgoal.
    Matching(Thms),
}

/// A lemma whose proof is open.
#[derive(Drop)]
pub struct OpenLemma {
    pub lemma: Lemma,
    /// The state before what was tried last.
    pub before: State,
    pub tried: Tried,
    /// How many results of it were passed over.
    pub rank: u64,
    /// The result behind them.
    pub state: State,
}

/// What is declared and proved, and the lemma whose proof is open.
#[derive(Drop)]
pub struct Session {
    pub context: Context,
    pub lemma: Option<OpenLemma>,
}

/// A refusal in this line.
fn refused(line: u64, kind: Kind) -> Rejection
    ensures { result ≡ Rejection.Refused (record { line = line; kind = kind }) }
{
    Rejection::Refused(Refused { line, kind })
}

/// The state in which a plain proposition is the only subgoal of itself.
fn opening_state(alloc: Global, context: &Context, prop: &Term) -> Result<State, Kind>
    ensures { Answers result (opening_of context.now prop.now) }
{
    if !is_plain(alloc, context, prop)? || has_counted(prop) {
        return Err(Kind::NotBuilt);
    }
    match State::start(alloc, prop) {
        Ok(state) => Ok(state),
        Err(InferenceError::Shape) => Err(Kind::Types),
        Err(InferenceError::Memory) => Err(Kind::Memory),
    }
}

/// The facts of the method `match`.
fn match_facts(method: &Method) -> Option<&Names>
    ensures { option_copied result ≡ match_facts method.now }
{
    match method.view() {
        MethodNode::Match(facts) => Some(facts),
        _ => None,
    }
}

/// What a method tries.
#[tactic(auto, unfolding(crate::specs::Steps::tried_by))]
fn tried_by(alloc: Global, context: &Context, method: &Method) -> Result<Tried, Kind>
    ensures { Answers result (tried_by context.now method.now) }
{
    match match_facts(method) {
        Some(facts) => Ok(Tried::Matching(context.known_facts(alloc, facts.as_slice())?)),
        None => {
            context.check_method(method)?;
            Err(Kind::NotBuilt)
        }
    }
}

/// The answer to the question for the result behind `rank` others.
#[tactic(auto, unfolding(crate::specs::Steps::asked))]
fn ask(
    alloc: Global,
    context: &Context,
    tried: &Tried,
    state: &State,
    rank: u64,
) -> Result<Answer<State>, Kind>
    ensures { Answers result (asked context.now tried.now state.now rank) }
{
    match tried {
        Tried::Opening => Ok(ask_opening(alloc, state, rank)?),
        Tried::Matching(rules) => {
            if !are_plain(alloc, context, rules.as_slice())? {
                return Err(Kind::NotBuilt);
            }
            if !are_first_order(rules) {
                return Err(Kind::NotBuilt);
            }
            if have_counted(rules) {
                return Err(Kind::NotBuilt);
            }
            if state.has_parameter(1) {
                return Err(Kind::NotBuilt);
            }
            Ok(ask_matching(alloc, rules, state, rank)?)
        }
    }
}

/// What a method tries on a state, and its first result.
#[tactic(auto, unfolding(crate::specs::Steps::first_asked))]
fn ask_first(
    alloc: Global,
    context: &Context,
    state: &State,
    method: &Method,
) -> Result<(Tried, Answer<State>), Kind>
    ensures { Answers result (first_asked context.now state.now method.now) }
{
    let tried = tried_by(alloc, context, method)?;
    let answer = ask(alloc, context, &tried, state, 0)?;
    Ok((tried, answer))
}

/// The state that was answered, or why there is none.
fn state_of(answer: Answer<State>) -> Result<State, Failure>
    ensures { result ≡ state_of answer }
{
    match answer {
        Answer::State(state) => Ok(state),
        Answer::NoMore => Err(Failure::NoResult(0)),
        Answer::NoMoreOutside(outside) => Err(Failure::NoResult(outside)),
        Answer::Spent => Err(Failure::Spent(BUDGET)),
    }
}

/// Refuses the name of a fact that is there.
fn new_fact_name(context: &Context, name: Option<&Name>) -> Result<(), Kind>
    ensures { Answers result (new_fact_name context.now (option_copied name.entry)) }
{
    let Some(name) = name else {
        return Ok(());
    };
    if context.fact(name).is_some() {
        return Err(Kind::Duplicate(Sort::Fact, name.copy()?));
    }
    Ok(())
}

/// The text of a state.
fn state_bytes(alloc: Global, context: &Context, state: &State) -> Result<Vec<u8>, AllocError>
    ensures { IfOk result (λ text. text.items ≡ state_text (judgment_name context.now) state.now.subgoals) }
{
    let name = context.judgment_name(alloc)?;
    state_text(alloc, &name, state.subgoals().as_slice())
}

/// The lemma with a result of what was tried on its state.
fn lemma_after(lemma: Option<OpenLemma>, tried: Tried, state: State) -> Option<OpenLemma>
    ensures { result ≡ lemma_after lemma tried state }
{
    match lemma {
        None => None,
        Some(old) => Some(OpenLemma {
            lemma: old.lemma,
            before: old.state,
            tried,
            rank: 0,
            state,
        }),
    }
}

/// The lemma with another result of what was tried before.
fn lemma_next(lemma: Option<OpenLemma>, rank: u64, state: State) -> Option<OpenLemma>
    ensures { result ≡ lemma_next lemma rank state }
{
    match lemma {
        None => None,
        Some(old) => Some(OpenLemma {
            lemma: old.lemma,
            before: old.before,
            tried: old.tried,
            rank,
            state,
        }),
    }
}

impl Session {
    /// The session in which nothing is declared yet.
    pub fn new(alloc: Global) -> Result<Session, AllocError>
        ensures { IfOk result (λ s. s ≡ record { context = empty_context; lemma = None }) }
    {
        let context = Context::new(alloc)?;
        Ok(Session {
            context,
            lemma: None,
        })
    }

    /// Begins a lemma by its text.
    fn begin(
        &mut self,
        alloc: Global,
        line: u64,
        schematic: bool,
        label: Option<&Label>,
        text: &Inner,
    ) -> Result<(), Rejection>
        ensures { ComesQuiet result self.old self.new (Begins self.old line schematic (option_copied label.entry) text.now) }
    {
        match self.context.lemma(alloc, schematic, label, text) {
            Ok(lemma) => self.open(alloc, line, lemma),
            Err(kind) => Err(refused(line, kind)),
        }
    }

    /// Opens the proof of a lemma.
    fn open(&mut self, alloc: Global, line: u64, lemma: Lemma) -> Result<(), Rejection>
        ensures { Becomes result self.old self.new (opened self.old line lemma (opening_of self.old.context lemma.goal)) }
    {
        match opening_state(alloc, &self.context, &lemma.goal) {
            Ok(state) => {
                let before = state.copy(alloc)?;
                self.lemma = Some(OpenLemma {
                    lemma,
                    before,
                    tried: Tried::Opening,
                    rank: 0,
                    state,
                });
                Ok(())
            }
            Err(kind) => Err(refused(line, kind)),
        }
    }

    /// Refuses an option: what it would change is not built yet.
    fn set_option(&self, line: u64, setting: Setting) -> Result<(), Rejection>
        ensures { Becomes result self.now self.now (declared self.now line (unhonoured self.now.context setting)) }
    {
        match self.context.options().with(setting) {
            Ok(_) => Err(refused(line, Kind::NotBuilt)),
            Err(kind) => Err(refused(line, kind)),
        }
    }

    /// Takes a command that the context takes.
    fn declare(&mut self, alloc: Global, command: &Command) -> Result<(), Rejection>
        ensures { ComesQuiet result self.old self.new (Declares self.old command.now) }
    {
        self.context.apply(alloc, command)?;
        Ok(())
    }

    /// Takes a command outside of proofs.
    #[tactic(auto, unfolding(crate::specs::Steps::Outside))]
    fn take_outside(&mut self, alloc: Global, command: &Command) -> Result<(), Rejection>
        ensures { ComesQuiet result self.old self.new (Outside self.old command.now) }
    {
        match command {
            Command::Lemma { line, label, prop } => {
                self.begin(alloc, *line, false, label.as_ref(), prop)
            }
            Command::SchematicGoal { line, label, prop } => {
                self.begin(alloc, *line, true, label.as_ref(), prop)
            }
            Command::DeclareOption { line, setting } => self.set_option(*line, *setting),
            _ => self.declare(alloc, command),
        }
    }

    /// `apply METHOD`: puts the first result of the method in the place of the lemma's state, and gives its text.
    #[tactic(auto, unfolding(crate::specs::Steps::applying))]
    fn apply(&mut self, alloc: Global, line: u64, method: &Method) -> Result<Vec<u8>, Rejection>
        ensures { Printing result self.old self.new (within line self.old.lemma (λ l. applying self.old line method.now l)) }
    {
        let Some(lemma) = &self.lemma else {
            return Err(refused(line, Kind::NoProof));
        };
        match ask_first(alloc, &self.context, &lemma.state, method) {
            Ok((tried, answer)) => {
                let state = state_of(answer)?;
                let text = state_bytes(alloc, &self.context, &state)?;
                self.lemma = lemma_after(self.lemma.take(), tried, state);
                Ok(text)
            }
            Err(kind) => Err(refused(line, kind)),
        }
    }

    /// `back`: puts the next result of what was tried before in the place of the lemma's state, and gives its text.
    #[tactic(auto, unfolding(crate::specs::Steps::going_back))]
    fn go_back(&mut self, alloc: Global, line: u64) -> Result<Vec<u8>, Rejection>
        ensures { Printing result self.old self.new (within line self.old.lemma (λ l. going_back self.old line l)) }
    {
        let Some(lemma) = &self.lemma else {
            return Err(refused(line, Kind::NoProof));
        };
        // Memory holds no so many results.
        let Some(rank) = lemma.rank.checked_add(1) else {
            return Err(refused(line, Kind::Memory));
        };
        match ask(alloc, &self.context, &lemma.tried, &lemma.before, rank) {
            Ok(answer) => {
                let state = state_of(answer)?;
                let text = state_bytes(alloc, &self.context, &state)?;
                self.lemma = lemma_next(self.lemma.take(), rank, state);
                Ok(text)
            }
            Err(kind) => Err(refused(line, kind)),
        }
    }

    /// `done`: closes the lemma where no subgoal is left, stores its theorem, and gives its text.
    #[tactic(auto, unfolding(crate::specs::Steps::finishing))]
    fn finish(&mut self, alloc: Global, line: u64) -> Result<Vec<u8>, Rejection>
        ensures { Printing result self.old self.new (within line self.old.lemma (λ l. finishing self.old l)) }
    {
        let Some(lemma) = &self.lemma else {
            return Err(refused(line, Kind::NoProof));
        };
        let state = lemma.state.copy(alloc)?;
        let Ok(thm) = state.finish() else {
            return Err(Rejection::Failed(Failure::NoResult(0)));
        };
        if let Err(kind) = new_fact_name(&self.context, lemma.lemma.name.as_ref()) {
            return Err(refused(lemma.lemma.line, kind));
        }
        let judgment = self.context.judgment_name(alloc)?;
        let general = self.context.store_lemma(alloc, &lemma.lemma, &thm)?;
        let text = theorem_text(alloc, &judgment, lemma.lemma.name.as_ref(), general.prop())?;
        self.lemma = None;
        Ok(text)
    }

    /// `by METHOD`, which is not built yet: its facts are there.
    fn close_by(&self, line: u64, method: &Method) -> Result<Vec<u8>, Rejection>
        ensures { Printing result self.now self.now (within line self.now.lemma (λ l. not_yet line (all_known self.now.context (method_facts method.now)))) }
    {
        if self.lemma.is_none() {
            return Err(refused(line, Kind::NoProof));
        }
        match self.context.check_method(method) {
            Ok(()) => Err(refused(line, Kind::NotBuilt)),
            Err(kind) => Err(refused(line, kind)),
        }
    }

    /// `pr`, which is not built yet.
    fn print_results(&self, line: u64) -> Result<Vec<u8>, Rejection>
        ensures { Printing result self.now self.now (within line self.now.lemma (λ l. steps.refused line kind.NotBuilt)) }
    {
        if self.lemma.is_none() {
            return Err(refused(line, Kind::NoProof));
        }
        Err(refused(line, Kind::NotBuilt))
    }

    /// `oops`: drops the lemma.
    fn give_up(&mut self, line: u64) -> Result<(), Rejection>
        ensures { Becomes result self.old self.new (within line self.old.lemma (λ l. quiet (dropped self.old))) }
    {
        if self.lemma.is_none() {
            return Err(refused(line, Kind::NoProof));
        }
        self.lemma = None;
        Ok(())
    }

    /// Refuses a command that stands in no proof.
    fn refuse_within(&self, line: u64) -> Result<Option<Vec<u8>>, Rejection>
        ensures { Proves result self.now self.now (within line self.now.lemma (λ l. steps.refused line kind.InProof)) }
    {
        if self.lemma.is_none() {
            return Err(refused(line, Kind::NoProof));
        }
        Err(refused(line, Kind::InProof))
    }

    /// Takes a command in a proof, and gives the text of what it shows.
    #[tactic(auto, unfolding(crate::specs::Steps::proving))]
    fn prove(&mut self, alloc: Global, command: &Command) -> Result<Option<Vec<u8>>, Rejection>
        ensures { Proves result self.old self.new (within (line_of command.now) self.old.lemma (λ l. proving self.old l command.now)) }
    {
        match command {
            Command::Apply { line, method } => Ok(Some(self.apply(alloc, *line, method)?)),
            Command::By { line, method } => Ok(Some(self.close_by(*line, method)?)),
            Command::Done { line } => Ok(Some(self.finish(alloc, *line)?)),
            Command::Back { line } => Ok(Some(self.go_back(alloc, *line)?)),
            Command::Print { line, .. } => Ok(Some(self.print_results(*line)?)),
            Command::Oops { line } => {
                self.give_up(*line)?;
                Ok(None)
            }
            _ => self.refuse_within(line_of(command)),
        }
    }

    /// Takes a command, and gives the text of what it shows. The session is as it was where the command is not accepted.
    pub fn take(&mut self, alloc: Global, command: &Command) -> Result<Option<Vec<u8>>, Rejection>
        ensures { ComesOut result self.old self.new (Comes self.old command.now) }
    {
        if self.lemma.is_some() {
            return self.prove(alloc, command);
        }
        self.take_outside(alloc, command)?;
        Ok(None)
    }
}
