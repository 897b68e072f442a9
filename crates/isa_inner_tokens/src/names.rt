//! Names in a text, by their bytes.
ghost use Rattle.std.specs.Prelude.{◌≡◌, ◌≤◌, ◌+◌, length, IfSome};
ghost use Rattle.isa_inner_tokens.specs.Bytes.{is_blank, is_letter, is_digit, is_name_byte, run_length, name_length};

/// Whether the byte is a blank: a space, a tab, a line feed or a carriage return.
pub(crate) fn is_blank(byte: u8) -> bool
    ensures { result ≡ is_blank byte }
{
    byte == b' ' || byte == b'\t' || byte == b'\n' || byte == b'\r'
}

/// Whether the byte is a letter.
fn is_letter(byte: u8) -> bool
    ensures { result ≡ is_letter byte }
{
    (b'a' <= byte && byte <= b'z') || (b'A' <= byte && byte <= b'Z')
}

/// Whether the byte may stand in a name behind its first letter.
fn is_name_byte(byte: u8) -> bool
    ensures { result ≡ is_name_byte byte }
{
    is_letter(byte) || (b'0' <= byte && byte <= b'9') || byte == b'_' || byte == b'\''
}

/// How many bytes of a name the text begins with.
fn run_length(text: &[u8]) -> usize
    ensures { result ≡ run_length text.now }
{
    let mut count = 0;
    let mut rest = text;
    while let Some((first, after)) = rest.split_first() {
        if !is_name_byte(*first) {
            return count;
        }
        count += 1;
        rest = after;
    }
    count
}

/// The number of bytes of the name that the text begins with; 0 where it begins with none.
#[tactic(auto, using(crate::proofs::CuttingSteps::run_within))]
pub(crate) fn name_length(text: &[u8]) -> usize
    ensures length { result ≡ name_length text.now }
    ensures within { result ≤ length text.now }
{
    match text.split_first() {
        None => 0,
        Some((first, after)) => {
            if is_letter(*first) {
                run_length(after) + 1
            } else {
                0
            }
        }
    }
}
