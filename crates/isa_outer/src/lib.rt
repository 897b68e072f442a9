//! The commands of a theory file: what is read of its bytes, or the first refusal with its line.
#![tactic(auto)]

ghost use Rattle.isa_outer.specs.Samples.{Samples};
ghost use Rattle.isa_outer.specs.Texts.{OneReading, EachIsRead};

mod attributes;
mod command;
mod commands;
mod declarations;
mod facts;
mod list;
mod method;
mod methods;
mod refusal;
mod refusal_text;
mod words;

pub use command::{
    Attribute, Attributes, Axiom, Command, Constant, Declaration, Inner, Label, Notation,
    NotationKind, Role, Setting, SimprocKind,
};
pub use commands::{read_commands, read_tokens};
pub use list::List;
pub use method::{Method, MethodNode, Modifier, SimpMode};
pub use refusal::{Kind, Refused, Sort, What};

/// The definition on some lines.
pub fn samples()
    ensures { Samples }
{}

/// A list of tokens has one reading: the commands, and the first refusal where there is one.
pub fn one_reading()
    ensures { OneReading }
{}

/// Each text has a reading.
pub fn each_is_read()
    ensures { EachIsRead }
{}
