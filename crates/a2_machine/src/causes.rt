//! The causes of a stop: for each its name, whether the program ended by itself, and a sentence that explains it.

ghost use Rattle.std.specs.Prelude.{◌≡◌};
ghost use Rattle.a2_machine.specs.Causes as by;

/// Why a run stops, in the order in which the causes are checked before each step. A step that is stopped changes nothing. This
/// project's profile.
#[derive(Clone, Copy, Debug, PartialEq, Eq)]
pub enum Cause {
    /// PC is $FF69, the address to which the last RTS returns.
    Returned,
    /// Only with a guard: the service at PC may store into code, or the instruction would store or push into code. For an
    /// instruction this is checked after `Decimal`.
    CodeWrite,
    /// The position of the window, the cursor or a block does not fit the service at PC.
    Window,
    /// The keys that the service at PC needs are not waiting.
    Keys,
    /// Only with a guard: no instruction statement begins at PC.
    OffStatement,
    /// A byte of the instruction would be at or above $C000.
    Rom,
    /// The byte at PC is not a documented opcode.
    Opcode,
    /// The instruction is BRK.
    Brk,
    /// The instruction is ADC or SBC, and the flag D is set.
    Decimal,
    /// No other cause holds, and as many steps were executed as the limit allows.
    Limit,
}

// Passes the table of causes to a macro: each cause, its name in the cause line, whether the program ended by itself, and what
// the cause means at the address in PC. `tests/film-page` reads names and sentences from here.
macro_rules! causes {
    ($make:ident $($of:ident)?) => {
        $make!($($of)?;
            Returned b"RETURNED" true b"the program returned",
            CodeWrite b"CODE WRITE" false b"the next instruction or service would overwrite code",
            Window b"WINDOW" false b"the window, cursor or block position is invalid for the next service",
            Keys b"KEYS" false b"the next service needs a key, but none is waiting; give keys with --keys",
            OffStatement b"OFF STATEMENT" false b"no instruction of the source begins at this address",
            Rom b"ROM" false b"the next instruction is at or above $C000, where there is no RAM",
            Opcode b"OPCODE" false b"the byte at this address is not a documented opcode",
            Brk b"BRK" true b"the next instruction is BRK",
            Decimal b"DECIMAL" false b"ADC and SBC do not support decimal mode; clear D with CLD",
            Limit b"LIMIT" false b"the limit of steps was reached; raise it with --limit"
        )
    };
}

macro_rules! all {
    (; $($cause:ident $name:literal $is_own:literal $sentence:literal),*) => { [$(Cause::$cause),*] };
}

macro_rules! names {
    ($of:ident; $($cause:ident $name:literal $is_own:literal $sentence:literal),*) => {
        match $of { $(Cause::$cause => $name),* }
    };
}

macro_rules! own_ends {
    ($of:ident; $($cause:ident $name:literal $is_own:literal $sentence:literal),*) => {
        match $of { $(Cause::$cause => $is_own),* }
    };
}

macro_rules! sentences {
    ($of:ident; $($cause:ident $name:literal $is_own:literal $sentence:literal),*) => {
        match $of { $(Cause::$cause => $sentence),* }
    };
}

impl Cause {
    /// The number of causes.
    pub const COUNT: usize = causes!(all).len();

    /// All causes, in the order in which they are checked.
    pub const ALL: [Cause; Cause::COUNT] = causes!(all);

    /// Returns the name used in the cause line, such as `CODE WRITE`. This project's profile.
    pub fn name(self) -> &'static [u8]
        ensures { result.now ≡ by.cause_name self }
    {
        causes!(names self)
    }

    /// Returns whether a program that stops with this cause ended by itself. This project's profile.
    pub fn is_normal_end(self) -> bool
        ensures { result ≡ by.is_normal_end self }
    {
        causes!(own_ends self)
    }

    /// Returns a sentence that explains to the user what the cause means at the address in PC.
    pub fn sentence(self) -> &'static [u8] {
        causes!(sentences self)
    }
}
