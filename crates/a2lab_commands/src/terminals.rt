//! The terminal at which a command runs, if it runs at one.

ghost use Rattle.std.specs.Prelude.{◌≡◌, IfSome, IfNone};
ghost use Rattle.a2_tty.specs.declared.cells.colours.Colours.{Colours as DeclaredColours};
ghost use Rattle.a2lab_commands.specs.ColourNames.{AreColours};

use a2_text::number_in;
use a2_tty::Colours;

/// Which of the standard streams are terminals.
#[derive(Clone, Copy)]
pub struct Terminals {
    /// Whether standard input is one; then a session prints a prompt before each line.
    pub stdin: bool,
    /// Whether standard output is one.
    pub stdout: bool,
}

/// A terminal that gives each byte as it is typed.
#[derive(Clone, Copy)]
pub struct Terminal {
    pub rows: u16,
    pub columns: u16,
    pub colours: Colours,
}

/// Returns the colours of this name, or `None` if there are none.
pub fn colours_named(word: &str) -> Option<Colours>
    ensures some { IfSome result (λ colours. AreColours word.now colours) }
    ensures only { IfSome result (λ colours. (other : DeclaredColours) → AreColours word.now other → other ≡ colours) }
    ensures none { IfNone result ((colours : DeclaredColours) → AreColours word.now colours → ⊥) }
{
    match word {
        "full" => Some(Colours::Full),
        "256" => Some(Colours::Palette),
        "none" => Some(Colours::None),
        "ascii" => Some(Colours::Ascii),
        _ => None,
    }
}

// The terminal that `word` describes, as `24x80x256`.
fn terminal_of(word: &str) -> Option<Terminal> {
    let (rows, rest) = word.split_once('x')?;
    let (columns, colours) = rest.split_once('x')?;
    Some(Terminal {
        rows: number_in(10, 5, rows.as_bytes())?,
        columns: number_in(10, 5, columns.as_bytes())?,
        colours: colours_named(colours)?,
    })
}

/// Returns the terminal that `--raw` describes, and the arguments that follow it. `dist/start` puts `--raw` and the terminal right
/// after the command, so they are the first of `words`. Without them, returns `None` and all of `words`.
pub fn terminal_in(words: &[String]) -> (Option<Terminal>, &[String]) {
    match words {
        [raw, word, rest @ ..] if raw.as_str() == "--raw" => match terminal_of(word.as_str()) {
            Some(terminal) => (Some(terminal), rest),
            None => (None, words),
        },
        _ => (None, words),
    }
}
