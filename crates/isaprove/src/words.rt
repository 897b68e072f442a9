//! The words of a command line.
ghost use Rattle.std.specs.Prelude.{◌≡◌};
ghost use Rattle.isaprove.specs.Run.{is_file_name, are_file_names, keeps_on, file_words, is_reading, names};

/// Whether a word is the name of a file.
fn is_file_name(word: &[u8]) -> bool
    ensures { result ≡ is_file_name word.now }
{
    match word {
        [first, ..] => *first != b'-',
        [] => true,
    }
}

/// Whether each word is the name of a file.
fn are_file_names(words: &[String]) -> bool
    ensures { result ≡ are_file_names (names words.now) }
{
    match words.split_first() {
        None => true,
        Some((first, rest)) => is_file_name(first.as_bytes()) && are_file_names(rest),
    }
}

/// Whether the first word is `-k`.
pub fn keeps_on(words: &[String]) -> bool
    ensures { result ≡ keeps_on (names words.now) }
{
    match words.split_first() {
        None => false,
        Some((first, _)) => first.as_str() == "-k",
    }
}

/// The words behind `-k`.
pub fn file_words(words: &[String]) -> &[String]
    ensures { names result.now ≡ file_words (names words.now) }
{
    match words.split_first() {
        None => words,
        Some((first, rest)) => { if first.as_str() == "-k" { rest } else { words } }
    }
}

/// Whether the words are the names of one or more files, perhaps behind `-k`.
pub fn is_reading(words: &[String]) -> bool
    ensures { result ≡ is_reading (names words.now) }
{
    let files = file_words(words);
    !files.is_empty() && are_file_names(files)
}
