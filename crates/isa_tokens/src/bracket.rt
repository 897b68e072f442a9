//! What stands between two marks.
ghost use Rattle.std.specs.Prelude.{◌≡◌};
ghost use Rattle.isa_tokens.specs.Tokens.{opens, closes, allows, fault_of, is_blank, is_allowed};

use crate::token::Fault;

/// A kind of comment or quoted text.
#[derive(Clone, Copy)]
pub(crate) enum Bracket {
    Comment,
    Cartouche,
    Quotes,
}

/// Whether the byte is a space, a tab, a line feed or a carriage return.
pub fn is_blank(b: u8) -> bool
    ensures { result ≡ is_blank b }
{
    matches!(b, b' ' | b'\t' | b'\n' | b'\r')
}

/// Whether the byte may stand outside of comments.
pub(crate) fn is_allowed(b: u8) -> bool
    ensures { result ≡ is_allowed b }
{
    is_blank(b) || b.is_ascii_graphic()
}

impl Bracket {
    pub(crate) fn opens(self) -> &'static [u8]
        ensures { result.now ≡ opens self }
    {
        match self {
            Bracket::Comment => b"(*",
            Bracket::Cartouche => b"\\<open>",
            Bracket::Quotes => b"\"",
        }
    }

    pub(crate) fn closes(self) -> &'static [u8]
        ensures { result.now ≡ closes self }
    {
        match self {
            Bracket::Comment => b"*)",
            Bracket::Cartouche => b"\\<close>",
            Bracket::Quotes => b"\"",
        }
    }

    pub(crate) fn allows(self, b: u8) -> bool
        ensures { result ≡ allows self b }
    {
        match self {
            Bracket::Comment => true,
            _ => is_allowed(b),
        }
    }

    /// The fault of one that is not closed.
    pub(crate) fn fault(self) -> Fault
        ensures { result ≡ fault_of self }
    {
        match self {
            Bracket::Comment => Fault::OpenComment,
            _ => Fault::OpenText,
        }
    }
}
