//! The options of the commands: a row for each option, and a list of options for each command.
//!
//! `tests/commands` reads these rows as they are laid out here.

use a2_arguments::{OptionRow, Value};

// Makes the row of an option. It begins with the kind of value and the option's name. An option with a value then has a name for the
// value, the values that are allowed if not all are, and, after `or`, the default. The last part is the sentence of the help page. A
// `Flag` has no value. An option of the kind `Texts` may be given several times.
macro_rules! row {
    (Flag $name:literal, $sentence:literal) => {
        OptionRow {
            name: $name,
            value: Value::Flag,
            placeholder: "",
            default: "",
            repeat: false,
            sentence: $sentence,
        }
    };
    (Text $name:literal $placeholder:literal or $default:literal, $sentence:literal) => {
        OptionRow {
            name: $name,
            value: Value::Text,
            placeholder: $placeholder,
            default: $default,
            repeat: false,
            sentence: $sentence,
        }
    };
    (Texts $name:literal $placeholder:literal, $sentence:literal) => {
        OptionRow {
            name: $name,
            value: Value::Text,
            placeholder: $placeholder,
            default: "",
            repeat: true,
            sentence: $sentence,
        }
    };
    (Number $name:literal $placeholder:literal $least:literal to $most:literal or $default:literal, $sentence:literal) => {
        OptionRow {
            name: $name,
            value: Value::Number {
                least: $least,
                most: $most,
            },
            placeholder: $placeholder,
            default: $default,
            repeat: false,
            sentence: $sentence,
        }
    };
    (OneOf $name:literal $placeholder:literal [$($text:literal),*] or $default:literal, $sentence:literal) => {
        OptionRow {
            name: $name,
            value: Value::OneOf(&[$($text),*]),
            placeholder: $placeholder,
            default: $default,
            repeat: false,
            sentence: $sentence,
        }
    };
}

// Options of all commands that run a program.

pub const KEYS: OptionRow = row!(Text "--keys" "K" or "",
    "Types the keys K, which all wait from the start of the run; \\r is RETURN.");

pub const LIMIT: OptionRow = row!(Number "--limit" "N" 0 to 100_000_000 or "1000000",
    "Stops the run after N steps.");

pub const FREE: OptionRow = row!(Flag "--free",
    "Lets the program run code anywhere, and change its own code: the run is not guarded.");

// Options of commands that can type keys during a run.

pub const KEYS_AT: OptionRow = row!(Texts "--keys-at" "N:K",
    "Types the keys K after N steps, such as 1200:HI\\r.");

pub const REPLAY: OptionRow = row!(Text "--replay" "T" or "",
    "Repeats the session that a2lab play --record T recorded; cannot be combined with --keys, --keys-at or --free.");

// Options of `run`.

pub const ATTRIBUTES: OptionRow = row!(Flag "--attr",
    "Prints after the picture how each character is shown: normal, inverse or flashing.");

pub const MEM: OptionRow = row!(Texts "--mem" "P..P",
    "Prints, after the run, the bytes of RAM from one place to another.");

pub const SAVE: OptionRow = row!(Text "--save" "IMAGE" or "",
    "Writes all of RAM after the run to the file IMAGE, as object lines.");

pub const PNG: OptionRow = row!(Text "--png" "FILE" or "",
    "Writes the screen after the run to FILE, as a picture in PNG format.");

pub const LAST: OptionRow = row!(Number "--last" "N" 0 to 100_000_000 or "",
    "Prints the last N steps on standard error, as trace does.");

// Options of `check`.

pub const CHECK_FORMAT: OptionRow =
    row!(OneOf "--format" "FORMAT" ["long", "short", "json"] or "long",
    "Prints errors in full (long), one per line for editors (short), or as JSON.");

// Options of `list`.

pub const CYCLES: OptionRow = row!(Flag "--cycles",
    "Adds the cycles of each instruction; + means that the instruction may take more cycles.");

pub const NAMES: OptionRow = row!(Flag "--names",
    "Adds at the end a table of the names: the line that defines each, and those that use it.");

// Options of `expand`.

pub const LINES: OptionRow = row!(Flag "--lines",
    "Shows before each line the line of F that it comes from; + means that it is in a macro.");

// Options of `trace`.

pub const CALLS: OptionRow = row!(Flag "--calls",
    "Shows the routines of the whole run as a tree, instead of its steps.");

pub const TRACE_FROM: OptionRow = row!(Number "--from" "N" 0 to 100_000_000 or "0",
    "Shows step N and all later steps.");

pub const TRACE_LAST: OptionRow = row!(Number "--last" "N" 0 to 100_000_000 or "",
    "Shows only the last N of the steps that the other options choose.");

pub const ONLY: OptionRow = row!(Text "--only" "P..P" or "",
    "Shows only steps with PC at these places.");

pub const STORES: OptionRow = row!(Text "--stores" "P..P" or "",
    "Shows only steps that store at these places.");

// Options of `profile`.

pub const BY: OptionRow = row!(OneOf "--by" "UNIT" ["line", "routine"] or "line",
    "Counts by line, or by routine: code that a JSR entered.");

pub const PROFILE_FORMAT: OptionRow =
    row!(OneOf "--format" "FORMAT" ["text", "json", "callgrind"] or "text",
    "Writes a table, JSON, or a file for callgrind_annotate and KCachegrind.");

pub const PROFILE_KEYS: OptionRow = row!(Texts "--keys" "K",
    "Types the keys K, which all wait from the start; each --keys makes a run, and the counts are added up.");

// Options of `film`.

pub const PAGE: OptionRow = row!(Text "-o" "PAGE" or "",
    "Writes the page to the file PAGE.");

pub const TITLE: OptionRow = row!(Text "--title" "TEXT" or "",
    "Gives the page this title; the default is the name of the file.");

pub const FILM_FROM: OptionRow = row!(Number "--from" "N" 0 to 100_000_000 or "0",
    "Begins the film after N steps of the run.");

pub const STEPS: OptionRow = row!(Number "--steps" "M" 0 to 1_000_000 or "100000",
    "Films at most M steps.");

pub const FILM_LIMIT: OptionRow = row!(Number "--limit" "N" 0 to 1_000_000 or "",
    "Stops the run after N steps; --from and --steps film a part of a longer run.");

pub const SCRIPT: OptionRow = row!(Text "--script" "S" or "",
    "Takes the chapters of a lesson from the file S. The line `120 TEXT` begins a chapter at step 120; `line 12 TEXT` begins one when line 12 first comes next, `line LOOP TEXT` that of the label LOOP.");

// Options of `fmt`.

pub const CHECK: OptionRow = row!(Flag "--check",
    "Prints only the names of files that are not in columns; the exit status is 6 if there is such a file.");

pub const WRITE: OptionRow = row!(Flag "-w",
    "Rewrites each file that is not in columns.");

// Options of `import`.

pub const DIALECT: OptionRow =
    row!(OneOf "--from" "WHAT" ["auto", "sc", "lisa", "merlin", "edasm", "ca65", "64tass", "acme", "dasm", "easy6502", "listing"] or "auto",
    "Says what F is: a source for this assembler, or a listing of the Monitor; auto finds it out from the text.");

// Options of `source`.

pub const ENTRY: OptionRow = row!(Texts "--entry" "A",
    "Says that code begins at address A; the default is the address in a line such as 300G in F, or the lowest address.");

pub const CODE: OptionRow = row!(Texts "--code" "A..B",
    "Says that instructions are from address A to address B.");

pub const DATA: OptionRow = row!(Texts "--data" "A..B",
    "Says that bytes are from address A to address B.");

pub const TEXT: OptionRow = row!(Texts "--text" "A..B",
    "Says that characters are from address A to address B.");

pub const WORDS: OptionRow = row!(Texts "--words" "A..B",
    "Says that words, each of two bytes, are from address A to address B.");

pub const SOURCE_NAMES: OptionRow = row!(Text "--names" "N" or "",
    "Takes names from the file N, a source, in which lines such as SCORE EQU $1F give them to addresses.");

pub const SOURCE_ONLY: OptionRow = row!(Text "--only" "A..B" or "",
    "Writes only the bytes from address A to address B.");

pub const RUN: OptionRow = row!(Flag "--run",
    "Runs F from its first entry without a guard; what is executed is code.");
// Options of `object` and `diff`; AT is one of `source` too.

pub const OBJECT_FORMAT: OptionRow =
    row!(OneOf "--format" "FORMAT" ["object", "monitor", "hex", "srec", "dos", "raw", "applesingle"] or "object",
    "Writes object lines or Monitor lines, Intel HEX, S-records, a DOS 3.3 binary file, plain bytes, or AppleSingle.");

pub const FROM: OptionRow =
    row!(OneOf "--from" "WHAT" ["auto", "source", "object", "monitor", "hex", "srec", "dos", "raw", "applesingle"] or "auto",
    "Says what F is; auto finds it out from what is in F.");

pub const AT: OptionRow = row!(Text "--at" "A" or "",
    "Says that F is plain bytes, the first of which is at address A, such as 300.");

pub const FILL: OptionRow = row!(Text "--fill" "XX" or "",
    "Fills the gaps between the bytes of F with the byte XX, such as 00.");

pub const WIDTH: OptionRow = row!(OneOf "--width" "N" ["8", "23"] or "8",
    "Writes at most N bytes in a Monitor line.");

pub const OBJECT_OUT: OptionRow = row!(Text "-o" "OUT" or "",
    "Writes to the file OUT.");

pub const TAPE: OptionRow = row!(Text "--tape" "WAV" or "",
    "Writes the sound of a tape to the file WAV, and prints the Monitor line that reads it.");

pub const DISK: OptionRow = row!(Text "--dsk" "DSK" or "",
    "Writes a disk of DOS 3.3 with each F as a binary file, and without DOS, to the file DSK.");

// Options of `test`.

pub const TEST_FORMAT: OptionRow =
    row!(OneOf "--format" "FORMAT" ["table", "csv", "json", "junit", "html"] or "table",
    "Writes the results in this format.");

pub const PAGES: OptionRow = row!(Text "--pages" "FOLDER" or "",
    "Also writes a page for each solution, NAME.html, into the folder FOLDER.");

// Options of `promise`.

pub const STATES: OptionRow = row!(Number "--states" "N" 1 to 100_000_000 or "",
    "Tries all states if there are at most N, and N of the states otherwise. The default is all if there are at most 16777216, and 1000000 otherwise.");

pub const ONLY_PROMISE: OptionRow = row!(Text "--only" "NAME" or "",
    "Tries only the promise before the label NAME.");

pub const FILM: OptionRow = row!(Text "--film" "PAGE" or "",
    "Writes to the file PAGE the film of the first run that fails.");

pub const PROMISE_JSON: OptionRow = row!(Flag "--json",
    "Prints one JSON object: the statements and names of F, and each promise with its verdict.");

// Options of `mon`, `play` and `debug`.

pub const MONITOR_PLAIN: OptionRow = row!(Flag "--plain",
    "Shows no names or lines of a source beside the answers.");

pub const PACE: OptionRow = row!(Text "--pace" "N" or "1022727",
    "Runs N cycles a second, 1000 to 1000000000, or as many as possible if N is max.");

pub const RECORD: OptionRow = row!(Text "--record" "T" or "",
    "At the end of the session, writes each key with its step to the file T, for a2lab run --replay T.");

pub const COLOURS: OptionRow = row!(OneOf "--colours" "C" ["full", "256", "none", "ascii"] or "",
    "Shows lo-res in these colours; the default is the colours that the terminal has. With ascii, blocks are characters of ASCII.");

pub const SPEAKER: OptionRow = row!(Flag "--speaker",
    "Reports when the program moves the speaker, for a page that plays the sound.");

pub const TUI: OptionRow = row!(Flag "--tui",
    "Shows panes of source, registers, stack, memory and screen, in a terminal of at least 80x24.");

pub const DEBUGGER_REPLAY: OptionRow = row!(Text "--replay" "T" or "",
    "Begins at the end of the session that a2lab play --record T recorded.");

pub const DEBUGGER_PLAIN: OptionRow = row!(Flag "--plain",
    "Shows lines of the source only in the answer to list.");

pub const KEEP: OptionRow = row!(Number "--keep" "N" 20 to 100_000_000 or "540",
    "Keeps at most N copies of the machine, 124 KB each, for going back.");

pub static RUN_OPTIONS: [OptionRow; 10] = [
    KEYS, LIMIT, FREE, ATTRIBUTES, MEM, SAVE, PNG, LAST, KEYS_AT, REPLAY,
];

pub static CHECK_OPTIONS: [OptionRow; 1] = [CHECK_FORMAT];

pub static LIST_OPTIONS: [OptionRow; 2] = [CYCLES, NAMES];

pub static TRACE_OPTIONS: [OptionRow; 10] = [
    KEYS, LIMIT, FREE, TRACE_FROM, TRACE_LAST, ONLY, STORES, CALLS, KEYS_AT, REPLAY,
];

pub static PROFILE_OPTIONS: [OptionRow; 7] = [
    PROFILE_KEYS,
    LIMIT,
    FREE,
    BY,
    PROFILE_FORMAT,
    KEYS_AT,
    REPLAY,
];

pub static FILM_OPTIONS: [OptionRow; 10] = [
    KEYS, FILM_LIMIT, FREE, PAGE, TITLE, FILM_FROM, STEPS, SCRIPT, KEYS_AT, REPLAY,
];

pub static FMT_OPTIONS: [OptionRow; 2] = [CHECK, WRITE];

pub static EXPAND_OPTIONS: [OptionRow; 1] = [LINES];

pub static IMPORT_OPTIONS: [OptionRow; 1] = [DIALECT];

pub static SOURCE_OPTIONS: [OptionRow; 12] = [
    FROM,
    AT,
    ENTRY,
    CODE,
    DATA,
    TEXT,
    WORDS,
    SOURCE_NAMES,
    SOURCE_ONLY,
    RUN,
    KEYS,
    LIMIT,
];

pub static OBJECT_OPTIONS: [OptionRow; 8] = [
    OBJECT_FORMAT,
    FILL,
    WIDTH,
    OBJECT_OUT,
    TAPE,
    DISK,
    FROM,
    AT,
];

pub static DIFF_OPTIONS: [OptionRow; 2] = [FROM, AT];

pub static TEST_OPTIONS: [OptionRow; 2] = [TEST_FORMAT, PAGES];

pub static PROMISE_OPTIONS: [OptionRow; 4] = [STATES, ONLY_PROMISE, FILM, PROMISE_JSON];

pub static MON_OPTIONS: [OptionRow; 1] = [MONITOR_PLAIN];

pub static PLAY_OPTIONS: [OptionRow; 4] = [PACE, RECORD, COLOURS, SPEAKER];

pub static DEBUG_OPTIONS: [OptionRow; 8] = [
    KEYS,
    LIMIT,
    FREE,
    KEYS_AT,
    DEBUGGER_REPLAY,
    TUI,
    DEBUGGER_PLAIN,
    KEEP,
];
