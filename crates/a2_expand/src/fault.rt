//! Why a text cannot be expanded.

ghost use Rattle.std.specs.Prelude.{◌≡◌, ◌≤◌, length};

use arrayvec::ArrayVec;
use std::alloc::AllocError;

/// What is wrong with a line of the larger language.
#[derive(Clone, Copy, Debug, PartialEq, Eq)]
pub enum Problem {
    /// The label is not a name.
    Label,
    /// The operation needs a label in column 1.
    NeedsLabel,
    /// The operation takes no label.
    TakesNoLabel,
    /// The operation needs an operand.
    NeedsOperand,
    /// The word is not allowed at this place of the expression.
    Expression,
    /// The expression ends where a number or a name is needed.
    Incomplete,
    /// A bracket is not closed, or not opened.
    Bracket,
    /// The expression needs the value of a name that is not known in this line.
    UnknownValue,
    /// The expression needs the address of the line.
    AddressHere,
    /// The expression needs the address of a local label.
    LocalAddress,
    /// The expression divides by 0.
    DivisionByZero,
    /// The value is too large to be computed.
    Overflow,
    /// The value is not 0 to 65,535.
    Range,
    /// The value is not a byte.
    ByteRange,
    /// The value of a count is not 0 to 65,535.
    Count,
    /// The operand is not a text in quotes.
    Text,
    /// The character does not exist in inverse or flashing.
    Character,
    /// The local label is not defined in its scope.
    UnknownLocal,
    /// The local label is defined twice in its scope.
    LocalTwice,
    /// There is no such anonymous label.
    NoAnonymous,
    /// A made name has no free spelling.
    NoFreeName,
    /// The block is not closed.
    Unclosed,
    /// The line closes a block that is not open.
    Unopened,
    /// `ELSE` or `ELSEIF` after `ELSE`.
    AfterElse,
    /// The name of a macro is not a name, or belongs to an operation or an instruction.
    MacroName,
    /// The macro is defined twice.
    MacroTwice,
    /// A parameter is not a name.
    Parameter,
    /// Two parameters of a macro have the same name.
    ParameterTwice,
    /// The counter of a repeated block is not a name.
    Counter,
    /// A macro is defined in a macro or in a repeated block.
    NestedMacro,
    /// The call has too many arguments.
    ManyArguments,
    /// The call lacks an argument that has no default.
    FewArguments,
    /// Macros, repeated blocks and included files are nested too deeply.
    Depth,
    /// The expansion has too many lines.
    ManyLines,
    /// The expansion has too many bytes.
    ManyBytes,
    /// Too many local labels get a name.
    ManyNames,
    /// A line of the source is too long.
    LongSource,
    /// A line is too long as soon as the text of a parameter or of a counter is in it.
    GrownLine,
    /// A line of the expansion is too long.
    LongLine,
    /// Too many lines are read.
    ManySteps,
    /// The text includes too many files.
    ManyFiles,
    /// The name of a file is not a text in quotes.
    FileName,
    /// The file is outside the folder.
    OutsideFolder,
    /// The file is needed and not among the loaded files.
    NeedsFile,
    /// The file includes itself.
    Circle,
    /// `ASSERT` does not hold.
    Assertion,
    /// `ERROR` was reached.
    Asked,
    /// The line is not allowed in this block.
    InTable,
    /// The line still uses the larger language.
    Remains,
    /// Memory ran out.
    Memory,
}

/// Where a line comes from: the file, 0 for the text itself and 1 for the first loaded file, its line, from 1, and the call of a macro, from 1, or 0 if it is not in a
/// macro.
#[derive(Clone, Copy, Debug, PartialEq, Eq)]
pub struct Origin {
    pub file: usize,
    pub line: usize,
    pub call: usize,
}

/// The word that a message names, shortened to 128 bytes.
pub type FaultWord = ArrayVec<u8, 128>;

/// Why a text cannot be expanded: what is wrong, where, the line of the outermost call if it is in a macro, and the word that is wrong, or
/// no word if it is the line.
#[derive(Debug, Drop)]
pub struct ExpandFault {
    pub problem: Problem,
    pub at: Origin,
    pub from: Origin,
    /// The name of the macro in which it is, or no name.
    pub within: FaultWord,
    pub word: FaultWord,
    /// How many bytes of the line are before the word, if this is known. It is not known of a line in which a parameter was replaced.
    pub column: Option<usize>,
}

/// The place of a fault whose line is not known yet.
pub(crate) const NOWHERE: Origin = Origin {
    file: 0,
    line: 0,
    call: 0,
};

/// Returns the first bytes of a word.
pub(crate) fn shortened(word: &[u8]) -> FaultWord {
    let mut short = ArrayVec::new();
    for c in word {
        if short.is_full() {
            break;
        }
        short.push(*c);
    }
    short
}

/// Returns a fault at a line that is not known yet.
pub(crate) fn trouble(problem: Problem, word: &[u8]) -> ExpandFault
    ensures { result.problem ≡ problem }
{
    ExpandFault {
        problem,
        at: NOWHERE,
        from: NOWHERE,
        within: ArrayVec::new(),
        word: shortened(word),
        column: None,
    }
}

/// Returns a fault at a line that is not known yet. `column` bytes of the text that is looked at are before the word.
pub(crate) fn trouble_at(problem: Problem, word: &[u8], column: usize) -> ExpandFault
    ensures { result.problem ≡ problem }
{
    ExpandFault {
        problem,
        at: NOWHERE,
        from: NOWHERE,
        within: ArrayVec::new(),
        word: shortened(word),
        column: Some(column),
    }
}

/// Returns a fault in a part of a text as a fault in the text, of which `count` bytes are before that part.
pub(crate) fn moved(fault: ExpandFault, count: usize) -> ExpandFault
    ensures { result.problem ≡ fault.problem }
{
    ExpandFault {
        problem: fault.problem,
        at: fault.at,
        from: fault.from,
        within: fault.within,
        word: fault.word,
        column: match fault.column {
            Some(column) => Some(column.saturating_add(count)),
            None => None,
        },
    }
}

/// Returns a fault whose place in its line is not known.
pub(crate) fn unplaced(fault: ExpandFault) -> ExpandFault
    ensures { result.problem ≡ fault.problem }
{
    ExpandFault {
        problem: fault.problem,
        at: fault.at,
        from: fault.from,
        within: fault.within,
        word: fault.word,
        column: None,
    }
}

/// Returns a fault with its line, unless it has one.
pub(crate) fn placed(fault: ExpandFault, at: Origin) -> ExpandFault
    ensures { result.problem ≡ fault.problem }
{
    ExpandFault {
        problem: fault.problem,
        at: if fault.at.line == 0 { at } else { fault.at },
        from: fault.from,
        within: fault.within,
        word: fault.word,
        column: fault.column,
    }
}

impl From<AllocError> for ExpandFault {
    ghost use Rattle.std.specs.Prelude.{◌≡◌};
    ghost use Rattle.a2_expand.specs.declared.fault.Problem.TheVariants.{Memory};

    ghost from_gives = { λ _ fault. fault.problem ≡ Memory };

    fn from(_error: AllocError) -> ExpandFault {
        ExpandFault {
            problem: Problem::Memory,
            at: NOWHERE,
            from: NOWHERE,
            within: ArrayVec::new(),
            word: ArrayVec::new(),
            column: None,
        }
    }
}
