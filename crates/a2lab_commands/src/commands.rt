//! The commands: a row for each, in the order of the help page.
//!
//! `tests/commands` reads these rows as they are laid out here. It writes the manual's tables, the man page and the completions of
//! shells from them and from the rows of options.

ghost use Rattle.std.specs.Prelude.{◌≡◌, IfSome};

use crate::options::{
    CHECK_OPTIONS, DEBUG_OPTIONS, DIFF_OPTIONS, EXPAND_OPTIONS, FILM_OPTIONS, FMT_OPTIONS,
    IMPORT_OPTIONS, LIST_OPTIONS, MON_OPTIONS, OBJECT_OPTIONS, PLAY_OPTIONS, PROFILE_OPTIONS,
    PROMISE_OPTIONS, RUN_OPTIONS, SOURCE_OPTIONS, TEST_OPTIONS, TRACE_OPTIONS,
};
use a2_arguments::{Command, Files};

/// What a command does.
#[derive(Clone, Copy, Debug, PartialEq, Eq)]
pub enum Tool {
    Check,
    Dap,
    Debug,
    Diff,
    Expand,
    Film,
    Fmt,
    Help,
    Import,
    List,
    Lsp,
    Mon,
    Object,
    Play,
    Profile,
    Promise,
    Run,
    Source,
    Test,
    Trace,
}

/// A command, and what it does.
#[derive(Clone, Copy, Debug)]
pub struct CommandRow {
    pub tool: Tool,
    pub command: Command,
}

// The source of a command that can read it from standard input.
const ONE_SOURCE: Files = Files {
    form: "[F]",
    endings: ".s",
    least: 0,
    most: 1,
};

// The source of a session, whose standard input has lines or keys.
const NAMED_SOURCE: Files = Files {
    form: "F",
    endings: ".s",
    least: 1,
    most: 1,
};

// The command is given no file.
const NO_FILES: Files = Files {
    form: "",
    endings: "",
    least: 0,
    most: 0,
};

// The source or the image of a command that can read it from standard input.
const ONE_IMAGE: Files = Files {
    form: "[F]",
    endings: "",
    least: 0,
    most: 1,
};

// The sources and images of a command that can read one from standard input.
const IMAGES: Files = Files {
    form: "[F..]",
    endings: "",
    least: 0,
    most: usize::MAX,
};

const SOURCES: Files = Files {
    form: "[F..]",
    endings: ".s",
    least: 0,
    most: usize::MAX,
};

// What help says of places in memory.
const PLACES: &str =
    "P is $300, a name of F, or one of these with a number added, as in NAME+2. P..P
may be one place.
";

const PLACES_AND_LINES: &str =
    "P is $300, a name of F, a line of F as 12:, or one of these with a number
added, as in NAME+2. P..P may be one place.
";

// What help says of the lines of a test file.
const WANT_LINES: &str = "WANT has lines of these forms:

  case NAME                begins a case
  keys K                   types the keys K, as --keys K does
  keys-at N:K              types the keys K after N steps
  replay T                 types the keys of the recorded session T
  free                     runs without the guard, as --free does
  limit N                  stops the run after N steps
  call NAME A=05 $320=07   calls the routine NAME with these bytes
  screen                   the rows of the screen are on the next lines
  |TEXT                    a row of the screen, after a line screen
  attr                     the rows that run --attr prints are on the next
                           lines, each after |
  screen row 0 = \"TEXT\"    a row of the screen is TEXT; the top row is 0
  screen holds \"TEXT\"      some row of the screen contains TEXT
  screen row 0 is inverse \"TEXT\"
                           a row contains TEXT, and shows it inverse; normal
                           and flashing likewise
  screen is normal         all characters of the screen are shown normal
  mem $320 = A9 01         memory holds these bytes at the end
  reg A=E9 X=00            registers hold these bytes at the end
  stop RETURNED            the run stops with this cause
  cycles <= N              the run takes at most N cycles
  bytes <= N               the code has at most N bytes
  must use BNE             an instruction is a BNE
  must not use BNE         no instruction is a BNE

Blank lines, and lines that begin with ;, are ignored. a2lab help WANT says
more.
";

/// All commands, in the order of the help page.
static TOOLS: [Tool; 20] = [
    Tool::Run,
    Tool::Check,
    Tool::List,
    Tool::Trace,
    Tool::Profile,
    Tool::Film,
    Tool::Fmt,
    Tool::Expand,
    Tool::Import,
    Tool::Source,
    Tool::Object,
    Tool::Diff,
    Tool::Test,
    Tool::Promise,
    Tool::Mon,
    Tool::Play,
    Tool::Debug,
    Tool::Dap,
    Tool::Lsp,
    Tool::Help,
];

// (A function for each row, for the prover: a table of all rows would be in each of its goals.)

fn run_row() -> CommandRow {
    CommandRow {
        tool: Tool::Run,
        command: Command {
            name: "run",
            summary: "runs F as a2 does, and says why it stopped",
            files: ONE_SOURCE,
            options: &RUN_OPTIONS,
            notes: PLACES_AND_LINES,
        },
    }
}

fn check_row() -> CommandRow {
    CommandRow {
        tool: Tool::Check,
        command: Command {
            name: "check",
            summary: "reports all errors of F, each with its fix",
            files: SOURCES,
            options: &CHECK_OPTIONS,
            notes: "",
        },
    }
}

fn list_row() -> CommandRow {
    CommandRow {
        tool: Tool::List,
        command: Command {
            name: "list",
            summary: "lists F with addresses, bytes and names",
            files: ONE_SOURCE,
            options: &LIST_OPTIONS,
            notes: "",
        },
    }
}

fn trace_row() -> CommandRow {
    CommandRow {
        tool: Tool::Trace,
        command: Command {
            name: "trace",
            summary: "runs F, and prints a line for each step",
            files: ONE_SOURCE,
            options: &TRACE_OPTIONS,
            notes: PLACES,
        },
    }
}

fn profile_row() -> CommandRow {
    CommandRow {
        tool: Tool::Profile,
        command: Command {
            name: "profile",
            summary: "runs F, and counts how often each line was executed",
            files: ONE_SOURCE,
            options: &PROFILE_OPTIONS,
            notes: "",
        },
    }
}

fn film_row() -> CommandRow {
    CommandRow {
        tool: Tool::Film,
        command: Command {
            name: "film",
            summary: "writes the run of F as a web page that goes forwards and backwards",
            files: ONE_SOURCE,
            options: &FILM_OPTIONS,
            notes: "",
        },
    }
}

fn fmt_row() -> CommandRow {
    CommandRow {
        tool: Tool::Fmt,
        command: Command {
            name: "fmt",
            summary: "lays out F in columns",
            files: SOURCES,
            options: &FMT_OPTIONS,
            notes: "",
        },
    }
}

fn expand_row() -> CommandRow {
    CommandRow {
        tool: Tool::Expand,
        command: Command {
            name: "expand",
            summary: "prints F, a source in the larger language, as a plain source",
            files: ONE_SOURCE,
            options: &EXPAND_OPTIONS,
            notes: "",
        },
    }
}

fn import_row() -> CommandRow {
    CommandRow {
        tool: Tool::Import,
        command: Command {
            name: "import",
            summary: "converts F, a source for another assembler or a listing",
            files: ONE_SOURCE,
            options: &IMPORT_OPTIONS,
            notes: "What changed in F, and what could not be converted, goes to standard error.
",
        },
    }
}

fn source_row() -> CommandRow {
    CommandRow {
        tool: Tool::Source,
        command: Command {
            name: "source",
            summary: "writes a source that has the bytes of F, a dump or any file",
            files: ONE_IMAGE,
            options: &SOURCE_OPTIONS,
            notes: "An address A or B is 300 or '$300'. A..B may be one address.
",
        },
    }
}

fn object_row() -> CommandRow {
    CommandRow {
        tool: Tool::Object,
        command: Command {
            name: "object",
            summary: "writes the bytes of F for another program, or as a tape",
            files: IMAGES,
            options: &OBJECT_OPTIONS,
            notes: "F is a source, or a file of one of the formats. Only --dsk takes several.
",
        },
    }
}

fn diff_row() -> CommandRow {
    CommandRow {
        tool: Tool::Diff,
        command: Command {
            name: "diff",
            summary: "shows the instructions in which two files differ",
            files: Files {
                form: "F F",
                endings: "",
                least: 2,
                most: 2,
            },
            options: &DIFF_OPTIONS,
            notes: "F is a source, or a file of one of the formats of a2lab object.
",
        },
    }
}

fn test_row() -> CommandRow {
    CommandRow {
        tool: Tool::Test,
        command: Command {
            name: "test",
            summary: "tests the solutions F with the cases of WANT",
            files: Files {
                form: "WANT F..",
                endings: ".want,.s",
                least: 2,
                most: usize::MAX,
            },
            options: &TEST_OPTIONS,
            notes: WANT_LINES,
        },
    }
}

fn promise_row() -> CommandRow {
    CommandRow {
        tool: Tool::Promise,
        command: Command {
            name: "promise",
            summary: "tries what routines of F promise in comments",
            files: ONE_SOURCE,
            options: &PROMISE_OPTIONS,
            notes: "A promise is in lines that begin with ;: before a label of F:

  ;: requires $10 <= 100 and $11 <= 100
  ;: ensures  A = old $10 + old $11
  ;: changes  A

takes \"YES\\r\" types keys for it, and prints \"OK\\r\" says what it prints.
",
        },
    }
}

fn mon_row() -> CommandRow {
    CommandRow {
        tool: Tool::Mon,
        command: Command {
            name: "mon",
            summary: "answers Monitor lines as you type them",
            files: Files {
                form: "[F]",
                endings: ".s",
                least: 0,
                most: 1,
            },
            options: &MON_OPTIONS,
            notes: "F is object lines or a source. It is loaded first.
",
        },
    }
}

fn play_row() -> CommandRow {
    CommandRow {
        tool: Tool::Play,
        command: Command {
            name: "play",
            summary: "runs F at a terminal, with the keys you type",
            files: NAMED_SOURCE,
            options: &PLAY_OPTIONS,
            notes: "Keys go to the program. Ctrl-] and a letter is a command: q quits, p pauses and
continues, s makes a step, b goes back a second, d opens the debugger, + and -
change the pace, r starts again, k prints the keys at the end, l redraws.
",
        },
    }
}

fn debug_row() -> CommandRow {
    CommandRow {
        tool: Tool::Debug,
        command: Command {
            name: "debug",
            summary: "steps through the run of F in both directions, line by line",
            files: NAMED_SOURCE,
            options: &DEBUG_OPTIONS,
            notes: "",
        },
    }
}

fn dap_row() -> CommandRow {
    CommandRow {
        tool: Tool::Dap,
        command: Command {
            name: "dap",
            summary: "debugs a run for an editor, by the Debug Adapter Protocol",
            files: NO_FILES,
            options: &[],
            notes: "An editor starts this command, and names the source in its launch request.
",
        },
    }
}

fn lsp_row() -> CommandRow {
    CommandRow {
        tool: Tool::Lsp,
        command: Command {
            name: "lsp",
            summary: "shows errors and more in an editor, by the Language Server Protocol",
            files: NO_FILES,
            options: &[],
            notes: "An editor starts this command and speaks to it on standard input and output.
editors/README.md says how to set up an editor.
",
        },
    }
}

fn help_row() -> CommandRow {
    CommandRow {
        tool: Tool::Help,
        command: Command {
            name: "help",
            summary: "prints this page, or explains a command, an error, an instruction, a service or a word",
            files: Files {
                form: "[NAME]",
                endings: "",
                least: 0,
                most: usize::MAX,
            },
            options: &[],
            notes: "",
        },
    }
}

/// Returns the row of a command.
pub fn row_of(tool: Tool) -> CommandRow {
    match tool {
        Tool::Check => check_row(),
        Tool::Dap => dap_row(),
        Tool::Debug => debug_row(),
        Tool::Diff => diff_row(),
        Tool::Expand => expand_row(),
        Tool::Film => film_row(),
        Tool::Fmt => fmt_row(),
        Tool::Help => help_row(),
        Tool::Import => import_row(),
        Tool::List => list_row(),
        Tool::Lsp => lsp_row(),
        Tool::Mon => mon_row(),
        Tool::Object => object_row(),
        Tool::Play => play_row(),
        Tool::Profile => profile_row(),
        Tool::Promise => promise_row(),
        Tool::Run => run_row(),
        Tool::Source => source_row(),
        Tool::Test => test_row(),
        Tool::Trace => trace_row(),
    }
}

/// Returns all commands, in the order of the help page.
pub fn all_commands() -> &'static [Tool] {
    &TOOLS
}

/// Returns the command of this name, or `None` if there is none.
pub fn command_named(name: &str) -> Option<CommandRow>
    ensures { IfSome result (λ row. row.command.name.now ≡ name.now) }
{
    for tool in all_commands() {
        let row = row_of(*tool);
        if row.command.name == name {
            return Some(row);
        }
    }
    None
}
