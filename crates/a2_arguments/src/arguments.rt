//! What a list of words gives.

ghost use Rattle.std.specs.Prelude.{◌≡◌, map};
ghost use Rattle.std.specs.Option.{option_map, option_copied};
ghost use Rattle.a2_arguments.specs.Found.{option_of, found_of, first_given, first_file, is_given, text_given, number_given};

use crate::command::OptionRow;

/// An option that was given.
#[derive(Clone, Copy, Debug)]
pub struct Given<'a> {
    /// The name of its row.
    pub name: &'static str,
    /// Its value as it was typed; empty for a flag.
    pub value: &'a str,
    /// The number that the value spells, if the row asks for a number.
    pub number: Option<u32>,
}

/// The options and the files among a list of words.
#[derive(Drop)]
pub struct Arguments<'a> {
    /// The options, in the order of the words.
    pub options: Vec<Given<'a>>,
    /// The files, in the order of the words.
    pub files: Vec<&'a str>,
}

// The first of these options with this name.
fn first<'a>(options: &[Given<'a>], name: &str) -> Option<Given<'a>>
    ensures { option_map option_of result ≡ first_given name.now (map option_of options.now) }
{
    for option in options {
        if option.name == name {
            return Some(*option);
        }
    }
    None
}

impl<'a> Arguments<'a> {
    /// Returns whether the option of this row was given.
    pub fn has(&self, row: &OptionRow) -> bool
        ensures { result ≡ is_given row.now.name.now (found_of self.now) }
    {
        first(self.options.as_slice(), row.name).is_some()
    }

    /// Returns the value of the first option of this row, or `None` if there is none.
    pub fn text(&self, row: &OptionRow) -> Option<&'a str>
        ensures { option_copied result ≡ text_given row.now.name.now (found_of self.now) }
    {
        let option = first(self.options.as_slice(), row.name)?;
        Some(option.value)
    }

    /// Returns the number of the first option of this row, or `None` if there is none, or the row asks for no number.
    pub fn number(&self, row: &OptionRow) -> Option<u32>
        ensures { result ≡ number_given row.now.name.now (found_of self.now) }
    {
        let option = first(self.options.as_slice(), row.name)?;
        option.number
    }

    /// Returns the first file, or `None` if there is none.
    pub fn file(&self) -> Option<&'a str>
        ensures { option_copied result ≡ first_file (found_of self.now).files }
    {
        match self.files.as_slice() {
            [] => None,
            [file, ..] => Some(*file),
        }
    }
}
