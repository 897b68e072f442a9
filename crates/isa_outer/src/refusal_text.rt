//! The printed texts of refusals.
ghost use Rattle.std.specs.Prelude.{◌≡◌, ◌++◌, codes, OnOk};
ghost use Rattle.isa_outer.specs.Refusals.{sort_text, text_of};
ghost use Rattle.isa_outer.specs.Private.Parts.{text_of_parts};

use crate::refusal::{Kind, Refused, Sort};
use std::alloc::AllocError;
use std::fmt;
use std::fmt::Write;

/// A text with a name in it.
#[derive(Drop)]
struct Parts<'a> {
    before: &'static str,
    sort: &'static str,
    name: &'a [u8],
    after: &'static str,
}

/// A text without a name.
fn plain(text: &'static str) -> Parts<'static>
    ensures { text_of_parts result ≡ text.now }
{
    Parts {
        before: text,
        sort: "",
        name: &[],
        after: "",
    }
}

/// A text that ends in a name.
fn ending<'a>(before: &'static str, name: &'a [u8]) -> Parts<'a>
    ensures { text_of_parts result ≡ before.now ++ name.now }
{
    Parts {
        before,
        sort: "",
        name,
        after: "",
    }
}

/// A text with a name in between.
fn around<'a>(before: &'static str, name: &'a [u8], after: &'static str) -> Parts<'a>
    ensures { text_of_parts result ≡ before.now ++ name.now ++ after.now }
{
    Parts {
        before,
        sort: "",
        name,
        after,
    }
}

/// A text that ends in a sort and a name.
fn sorted<'a>(before: &'static str, sort: Sort, name: &'a [u8]) -> Parts<'a>
    ensures { text_of_parts result ≡ before.now ++ sort_text sort ++ codes " " ++ name.now }
{
    Parts {
        before,
        sort: sort.word(),
        name,
        after: "",
    }
}

impl Sort {
    /// The sort's word, and a blank behind it.
    fn word(self) -> &'static str
        ensures { result.now ≡ sort_text self ++ codes " " }
    {
        match self {
            Sort::Command => "command ",
            Sort::Type => "type ",
            Sort::Constant => "constant ",
            Sort::Fact => "fact ",
            Sort::Method => "method ",
            Sort::Attribute => "attribute ",
            Sort::Option => "option ",
            Sort::Role => "role ",
            Sort::Symbol => "symbol ",
            Sort::Wrapper => "wrapper ",
            Sort::Judgment => "judgment ",
        }
    }
}

impl Kind {
    fn parts(&self) -> Parts<'_>
        ensures { text_of_parts result ≡ text_of self.now }
    {
        match self {
            Kind::Byte => plain("byte not allowed"),
            Kind::OpenComment => plain("comment not closed"),
            Kind::OpenText => plain("text not closed"),
            Kind::Deep => plain("nested deeper than 500"),
            Kind::Number => plain("number out of range"),
            Kind::Expected(what) => ending("expected ", what.as_str().as_bytes()),
            Kind::Unknown(sort, name) => sorted("unknown ", *sort, name.as_bytes()),
            Kind::Duplicate(sort, name) => sorted("duplicate ", *sort, name.as_bytes()),
            Kind::Token(token) => around("symbol ", token.as_bytes(), " is taken"),
            Kind::Arity(name) => ending("wrong number of arguments of ", name.as_bytes()),
            Kind::Types => plain("types do not agree"),
            Kind::Judgment => plain("no judgment declared"),
            Kind::Schematic(name) => around("unknown ?", name.as_bytes(), " in a lemma"),
            Kind::NotEquation => plain("no equation"),
            Kind::NotPattern => plain("left side is no pattern"),
            Kind::ExtraVar(name) => around(
                "unknown ?",
                name.as_bytes(),
                " is not on the left side",
            ),
            Kind::NotSplit => plain("no split rule"),
            Kind::NotElim => plain("no elimination rule"),
            Kind::Role(role) => ending("wrong form for ", role.as_bytes()),
            Kind::InProof => plain("proof is open"),
            Kind::NoProof => plain("no proof is open"),
            Kind::OpenProof => plain("proof not closed"),
            Kind::NotBuilt => plain("not built yet"),
            Kind::Memory => plain(""),
        }
    }

    /// Adds the printed text at the end. Without memory some of it may have been added.
    pub fn write_text(&self, text: &mut Vec<u8>) -> Result<(), AllocError>
        ensures { OnOk result (text.new.items ≡ text.old.items ++ text_of self.now) }
    {
        let parts = self.parts();
        text.extend_from_slice(parts.before.as_bytes())?;
        text.extend_from_slice(parts.sort.as_bytes())?;
        text.extend_from_slice(parts.name)?;
        text.extend_from_slice(parts.after.as_bytes())
    }
}

/// The printed text; a name's bytes are printed as the characters of these codes.
impl fmt::Display for Kind {
    fn fmt<W: fmt::Write>(&self, f: &mut fmt::Formatter<W>) -> fmt::Result {
        let parts = self.parts();
        f.write_str(parts.before)?;
        f.write_str(parts.sort)?;
        for byte in parts.name {
            f.write_char(*byte as char)?;
        }
        f.write_str(parts.after)
    }
}

/// `LINE: TEXT`
impl fmt::Display for Refused {
    fn fmt<W: fmt::Write>(&self, f: &mut fmt::Formatter<W>) -> fmt::Result {
        let line = self.line;
        let kind = &self.kind;
        write!(f, "{line}: {kind}")
    }
}
