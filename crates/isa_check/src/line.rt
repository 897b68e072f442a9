//! The line of an accepted theorem.
ghost use Rattle.std.specs.Prelude.{◌≡◌, ◌++◌, IfOk, OnOk};
ghost use Rattle.isa_check.specs.Run.{names_of, line_of};

use isa_cert::Accepted;
use isa_kernel::NamedProp;
use std::alloc::{AllocError, Global};

/// Appends a blank and the name of each of the axioms.
fn put_names(axioms: &[NamedProp], text: &mut Vec<u8>) -> Result<(), AllocError>
    ensures { OnOk result (text.new.items ≡ text.old.items ++ names_of axioms.now) }
{
    for one in axioms {
        text.push(b' ')?;
        text.extend_from_slice(one.name.as_bytes())?;
    }
    Ok(())
}

/// `accepted NAME: AXIOM ..`, with a line feed.
pub(crate) fn line_of(alloc: Global, accepted: &Accepted) -> Result<Vec<u8>, AllocError>
    ensures { IfOk result (λ text. text.items ≡ line_of accepted.now) }
{
    let mut text = Vec::new(alloc);
    text.extend_from_slice(b"accepted ")?;
    text.extend_from_slice(accepted.name.as_bytes())?;
    text.push(b':')?;
    put_names(accepted.axioms.as_slice(), &mut text)?;
    text.push(b'\n')?;
    Ok(text)
}
