//! What a word is by its characters.

ghost use Rattle.std.specs.Prelude.{◌≡◌};
ghost use Rattle.std.specs.List.{before_first};
ghost use Rattle.std.specs.Option.{option_copied};
ghost use Rattle.a2_arguments.specs.Words.{is_file as is_file_word, is_equals, attached};

// Returns whether a word is a file: it does not begin with `-`, or it is a single `-`.
pub(crate) fn is_file(word: &str) -> bool
    ensures { result ≡ is_file_word word.now }
{
    !word.starts_with('-') || word == "-"
}

// Returns the name of an option, and the value that follows its `=`.
pub(crate) fn parts_of(word: &str) -> (&str, Option<&str>)
    ensures name { result.0.now ≡ before_first is_equals word.now }
    ensures value { option_copied result.1 ≡ attached word.now }
{
    match word.split_once('=') {
        Some((name, value)) => (name, Some(value)),
        None => (word, None),
    }
}
