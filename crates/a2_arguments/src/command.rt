//! The table of a command: its options, and how many files it takes.

/// The kind of value that an option takes.
#[derive(Clone, Copy, Debug)]
pub enum Value {
    /// No value.
    Flag,
    /// Any text.
    Text,
    /// A decimal number from `least` to `most`.
    Number { least: u32, most: u32 },
    /// One of these texts.
    OneOf(&'static [&'static str]),
}

/// An option of a command.
#[derive(Clone, Copy, Debug)]
pub struct OptionRow {
    /// The option as it is typed, with its dashes.
    pub name: &'static str,
    pub value: Value,
    /// The name of the value in a help page; empty for a flag.
    pub placeholder: &'static str,
    /// What a help page says is used without the option; empty if there is nothing to say.
    pub default: &'static str,
    /// Whether the option may be given more than once.
    pub repeat: bool,
    /// What the option does, in one sentence.
    pub sentence: &'static str,
}

/// The files of a command.
#[derive(Clone, Copy, Debug)]
pub struct Files {
    /// The files in a help page, such as `[F]`.
    pub form: &'static str,
    /// The endings of their names, for completion, such as `.s`.
    pub endings: &'static str,
    pub least: usize,
    pub most: usize,
}

/// A command of a program.
#[derive(Clone, Copy, Debug)]
pub struct Command {
    pub name: &'static str,
    /// What the command does, in one sentence.
    pub summary: &'static str,
    pub files: Files,
    pub options: &'static [OptionRow],
    /// What a help page says after the options, in whole lines.
    pub notes: &'static str,
}
