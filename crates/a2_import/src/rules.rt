//! Translation of the operations of other assemblers.

use crate::dialect::Dialect;
use a2_opcode::Mnemonic;
use a2_text::first_word;

/// The meaning of the items of a list.
#[derive(Clone, Copy, PartialEq, Eq)]
pub(crate) enum List {
    /// Bytes, and texts if the dialect has them in such a list.
    Bytes,
    /// The low byte of each item.
    Low,
    /// The high byte of each item.
    High,
    Words,
    /// Words with the high byte first.
    Doubles,
    /// 16-bit words, but the low byte of an item after `#` and the high byte of one after `/`.
    Marked,
}

/// When the lines after a condition are read.
#[derive(Clone, Copy, PartialEq, Eq)]
pub(crate) enum Test {
    NotZero,
    Zero,
    Positive,
    NotNegative,
    Negative,
    NotPositive,
    Defined,
    Undefined,
    /// A comparison of texts.
    Texts,
}

/// What an operation means.
#[derive(Clone, Copy)]
pub(crate) enum Action {
    /// This instruction, with the same operand.
    As(&'static [u8]),
    Equate,
    /// A name whose value may change.
    Variable,
    /// A name and its value as the operand.
    Define,
    Origin,
    Room,
    List(List),
    /// A list, followed by a 0.
    Ended(List),
    /// Bytes in hexadecimal digits.
    Hex,
    /// A delimited text.
    Text,
    /// A delimited text, followed by a 0.
    EndedText,
    /// A text whose last byte has bit 7 inverted.
    LastTurned,
    /// A text with its length before it.
    Counted,
    /// A text from its end to its beginning.
    Reversed,
    /// A text in inverse or flashing, by this operation.
    Shown(&'static [u8]),
    /// A directive that sets whether texts have bit 7 set.
    Msb,
    /// The operation has no meaning here.
    Nothing,
    If(Test),
    ElseIf,
    Else,
    EndIf,
    Macro,
    EndMacro,
    Call,
    Repeat,
    EndRepeat,
    /// Names for places without bytes.
    Dummy,
    EndDummy,
    /// A block with names of its own.
    Scope,
    EndScope,
    /// The beginning of a scope of local labels.
    Zone,
    /// A block whose texts have bit 7 set.
    Raised,
    /// The end of a block in braces.
    Close,
    Include,
    Binary,
    Fail,
    Warn,
    /// Labels that belong to the call of a macro.
    Local,
}

// Words in capitals, separated by blanks, and their meaning.
type Row<T> = (&'static [u8], T);

// The operations that all old assemblers have.
static COMMON: [Row<Action>; 3] = [
    (b"ORG", Action::Origin),
    (b"EQU", Action::Equate),
    (b"DS", Action::Room),
];

// The operations that LISA and Merlin share. S-C also has the first two, and EDASM the first five.
static SHARED: [Row<Action>; 6] = [
    (b"BLT", Action::As(b"BCC")),
    (b"BGE", Action::As(b"BCS")),
    (b"ASC", Action::Text),
    (b"DCI", Action::LastTurned),
    (b"STR", Action::Counted),
    (b"HEX", Action::Hex),
];

static SC: [Row<Action>; 18] = [
    (b".OR", Action::Origin),
    (b".EQ", Action::Equate),
    (b".SE", Action::Variable),
    (b".DA", Action::List(List::Marked)),
    (b".AS", Action::Text),
    (b".AZ", Action::EndedText),
    (b".AT", Action::LastTurned),
    (b".HS", Action::Hex),
    (b".BS", Action::Room),
    (b".IN", Action::Include),
    (b".MA", Action::Macro),
    (b".EM", Action::EndMacro),
    (b".DO", Action::If(Test::NotZero)),
    (b".ELSE", Action::Else),
    (b".FIN", Action::EndIf),
    (b".DUMMY", Action::Dummy),
    (b".ED", Action::EndDummy),
    (b".TF .TA .EN .LI .LIST .TI .TITLE .PG", Action::Nothing),
];

static LISA: [Row<Action>; 16] = [
    (b"EPZ =", Action::Equate),
    (b"BYT", Action::List(List::Low)),
    (b"HBY", Action::List(List::High)),
    (b"ADR", Action::List(List::Words)),
    (b"DBY", Action::List(List::Doubles)),
    (b"DFS", Action::Room),
    (b"INV", Action::Shown(b"INV")),
    (b"BLK", Action::Shown(b"FLS")),
    (b".IF", Action::If(Test::NotZero)),
    (b".EL", Action::Else),
    (b".FI", Action::EndIf),
    (b"ICL", Action::Include),
    (b"OBJ END LST NLS TTL PAG PAU DCM GEN NOG", Action::Nothing),
    (b"BTR", Action::As(b"BNE")),
    (b"BFL", Action::As(b"BEQ")),
    (b"XOR", Action::As(b"EOR")),
];

static MERLIN: [Row<Action>; 21] = [
    (b"DFB DB", Action::List(List::Bytes)),
    (b"=", Action::Equate),
    (b"DA DW", Action::List(List::Words)),
    (b"DDB", Action::List(List::Doubles)),
    (b"REV", Action::Reversed),
    (b"INV", Action::Shown(b"INV")),
    (b"FLS", Action::Shown(b"FLS")),
    (b"DO", Action::If(Test::NotZero)),
    (b"IF", Action::If(Test::Texts)),
    (b"ELSE", Action::Else),
    (b"FIN", Action::EndIf),
    (b"MAC", Action::Macro),
    (b"<<< EOM", Action::EndMacro),
    (b">>> PMC", Action::Call),
    (b"LUP", Action::Repeat),
    (b"--^", Action::EndRepeat),
    (b"DUM", Action::Dummy),
    (b"DEND", Action::EndDummy),
    (b"PUT USE", Action::Include),
    (b"PUTBIN", Action::Binary),
    (
        b"OBJ END LST LSTDO EXP PAG PAU TTL SKP TR AST SAV DSK TYP XC MX CYC DAT",
        Action::Nothing,
    ),
];

static EDASM: [Row<Action>; 16] = [
    (b"DFB DB", Action::List(List::Bytes)),
    (b"DW", Action::List(List::Words)),
    (b"DDB", Action::List(List::Doubles)),
    (b"MSB", Action::Msb),
    (b"DO IFNE", Action::If(Test::NotZero)),
    (b"IFEQ", Action::If(Test::Zero)),
    (b"IFGT", Action::If(Test::Positive)),
    (b"IFGE", Action::If(Test::NotNegative)),
    (b"IFLT", Action::If(Test::Negative)),
    (b"IFLE", Action::If(Test::NotPositive)),
    (b"ELSE", Action::Else),
    (b"FIN", Action::EndIf),
    (b"DSECT", Action::Dummy),
    (b"DEND", Action::EndDummy),
    (b"INCLUDE CHN", Action::Include),
    (b"OBJ END LST SBTL PAGE SKP REP CHR", Action::Nothing),
];

static CA65: [Row<Action>; 32] = [
    (b"= :=", Action::Equate),
    (b".SET", Action::Variable),
    (b".ORG", Action::Origin),
    (b".BYTE .BYT", Action::List(List::Bytes)),
    (b".ASCIIZ", Action::Ended(List::Bytes)),
    (b".WORD .ADDR", Action::List(List::Words)),
    (b".DBYT", Action::List(List::Doubles)),
    (b".LOBYTES", Action::List(List::Low)),
    (b".HIBYTES", Action::List(List::High)),
    (b".RES", Action::Room),
    (b".INCLUDE", Action::Include),
    (b".INCBIN", Action::Binary),
    (b".IF", Action::If(Test::NotZero)),
    (b".IFDEF", Action::If(Test::Defined)),
    (b".IFNDEF", Action::If(Test::Undefined)),
    (
        b".IFBLANK .IFNBLANK .IFCONST .IFREF",
        Action::If(Test::Texts),
    ),
    (b".ELSEIF", Action::ElseIf),
    (b".ELSE", Action::Else),
    (b".ENDIF", Action::EndIf),
    (b".MACRO .MAC", Action::Macro),
    (b".ENDMACRO .ENDMAC", Action::EndMacro),
    (b".LOCAL", Action::Local),
    (b".REPEAT", Action::Repeat),
    (b".ENDREPEAT .ENDREP", Action::EndRepeat),
    (b".PROC .SCOPE", Action::Scope),
    (b".ENDPROC .ENDSCOPE", Action::EndScope),
    (b".STRUCT .ENUM", Action::Dummy),
    (b".ENDSTRUCT .ENDENUM", Action::EndDummy),
    (b".ERROR .FATAL", Action::Fail),
    (b".WARNING", Action::Warn),
    (
        b".SEGMENT .CODE .DATA .RODATA .SETCPU .P02 .EXPORT .LIST",
        Action::Nothing,
    ),
    (
        b".GLOBAL .DEBUGINFO .LISTBYTES .PAGELENGTH .ASSERT .OUT .END",
        Action::Nothing,
    ),
];

static TASS: [Row<Action>; 25] = [
    (b"=", Action::Equate),
    (b":= .VAR", Action::Variable),
    (b".BYTE .CHAR .TEXT", Action::List(List::Bytes)),
    (b".NULL", Action::Ended(List::Bytes)),
    (b".SHIFT", Action::LastTurned),
    (b".PTEXT", Action::Counted),
    (b".WORD .ADDR", Action::List(List::Words)),
    (b".FILL", Action::Room),
    (b".INCLUDE", Action::Include),
    (b".BINARY", Action::Binary),
    (b".IF .IFNE", Action::If(Test::NotZero)),
    (b".IFEQ", Action::If(Test::Zero)),
    (b".ELSIF", Action::ElseIf),
    (b".ELSE", Action::Else),
    (b".FI .ENDIF", Action::EndIf),
    (b".MACRO", Action::Macro),
    (b".ENDM .ENDMACRO", Action::EndMacro),
    (b".REPT .FOR", Action::Repeat),
    (b".NEXT .ENDREPT .ENDFOR", Action::EndRepeat),
    (b".PROC .BLOCK", Action::Scope),
    (b".PEND .BEND .ENDPROC .ENDBLOCK", Action::EndScope),
    (b".VIRTUAL", Action::Dummy),
    (b".ENDV .ENDVIRTUAL", Action::EndDummy),
    (b".ERROR", Action::Fail),
    (b".CPU .CERROR .CWARN .END", Action::Nothing),
];

static ACME: [Row<Action>; 22] = [
    (b"=", Action::Equate),
    (b"!SET", Action::Variable),
    (
        b"!BYTE !BY !8 !08 !TEXT !TX !RAW",
        Action::List(List::Bytes),
    ),
    (b"!WORD !WO !16 !LE16", Action::List(List::Words)),
    (b"!BE16", Action::List(List::Doubles)),
    (b"!FILL !FI !SKIP", Action::Room),
    (b"!HEX !H", Action::Hex),
    (b"!SOURCE !SRC", Action::Include),
    (b"!BINARY !BIN", Action::Binary),
    (b"!IF", Action::If(Test::NotZero)),
    (b"!IFDEF", Action::If(Test::Defined)),
    (b"!IFNDEF", Action::If(Test::Undefined)),
    (b"}ELSE", Action::Else),
    (b"}ELSEIF", Action::ElseIf),
    (b"}", Action::Close),
    (b"!MACRO", Action::Macro),
    (b"!FOR", Action::Repeat),
    (b"!ZONE !ZN", Action::Zone),
    (b"!XOR", Action::Raised),
    (b"!ERROR !SERIOUS", Action::Fail),
    (b"!WARN", Action::Warn),
    (b"!TO !CPU !SL !SYMBOLLIST", Action::Nothing),
];

static DASM: [Row<Action>; 24] = [
    (b"= EQU", Action::Equate),
    (b"SET", Action::Variable),
    (b"ORG .ORG", Action::Origin),
    (b"DC.B DC BYTE .BYTE .DC.B", Action::List(List::Bytes)),
    (b"DC.W WORD .WORD .DC.W", Action::List(List::Words)),
    (b"DS DS.B .DS", Action::Room),
    (b"HEX", Action::Hex),
    (b"INCLUDE", Action::Include),
    (b"INCBIN", Action::Binary),
    (b"IF", Action::If(Test::NotZero)),
    (b"IFCONST", Action::If(Test::Defined)),
    (b"IFNCONST", Action::If(Test::Undefined)),
    (b"ELSE", Action::Else),
    (b"ENDIF EIF", Action::EndIf),
    (b"MAC MACRO", Action::Macro),
    (b"ENDM", Action::EndMacro),
    (b"REPEAT", Action::Repeat),
    (b"REPEND", Action::EndRepeat),
    (b"SUBROUTINE", Action::Zone),
    (b"SEG.U", Action::Dummy),
    (b"SEG", Action::EndDummy),
    (b"ERR", Action::Fail),
    (b"PROCESSOR LIST ECHO", Action::Nothing),
    (b".PROCESSOR", Action::Nothing),
];

static EASY: [Row<Action>; 3] = [
    (b"DCB", Action::List(List::Bytes)),
    (b"DEFINE", Action::Define),
    (b"=", Action::Equate),
];

// The words that only one assembler has. They have at least two characters.
static SIGNS: [Row<Dialect>; 5] = [
    (
        b".OR .EQ .DA .AS .AT .AZ .HS .BS .TF .EN .MA .EM",
        Dialect::Sc,
    ),
    (b"EPZ BYT ADR HBY DFS BTR BFL XOR NLS", Dialect::Lisa),
    (
        b"DA LUP DSK BLT BGE MAC DUM PMC >>> <<< --^",
        Dialect::Merlin,
    ),
    (b"MSB SBTL CHN DSECT", Dialect::Edasm),
    (
        b".ORG .BYTE .BYT .ASCIIZ .WORD .ADDR .RES .SEGMENT .PROC .SETCPU .MACRO",
        Dialect::Ca65,
    ),
];

// The words that decide wherever they are in a text.
static STRONG_SIGNS: [Row<Dialect>; 3] = [
    (
        b"PROCESSOR SUBROUTINE DC.B DC.W REPEND SEG.U IFCONST IFNCONST",
        Dialect::Dasm,
    ),
    (
        b".FILL .PEND .BEND .BLOCK .ENDM .REPT .NULL .PTEXT .TEXT .CPU .ELSIF .VIRTUAL",
        Dialect::Tass,
    ),
    (b"DCB DEFINE", Dialect::Easy),
];

// Whether a word is one of these, in either case; they are separated by blanks.
fn is_among(word: &[u8], words: &[u8]) -> bool {
    let mut rest = words;
    while let Some((first, following)) = first_word(rest) {
        if word.eq_ignore_ascii_case(first) {
            return true;
        }
        rest = following;
    }
    false
}

// The meaning of a word in these rows.
fn found<T: Copy>(rows: &[Row<T>], word: &[u8]) -> Option<T> {
    for (words, said) in rows {
        if is_among(word, words) {
            return Some(*said);
        }
    }
    None
}

/// Returns the meaning of an operation. A mnemonic of the processor stays the same, unless the assembler gives it another
/// meaning.
pub(crate) fn action_of(dialect: Dialect, word: &[u8]) -> Option<Action> {
    let (own, shared): (&[Row<Action>], &[Row<Action>]) = match dialect {
        Dialect::Sc => (&SC, &SHARED[..2]),
        Dialect::Lisa => (&LISA, &SHARED),
        Dialect::Merlin => (&MERLIN, &SHARED),
        Dialect::Edasm => (&EDASM, &SHARED[..5]),
        Dialect::Ca65 => (&CA65, &SHARED[..0]),
        Dialect::Tass => (&TASS, &SHARED[..2]),
        Dialect::Acme => (&ACME, &SHARED[..0]),
        Dialect::Dasm => (&DASM, &SHARED[..0]),
        Dialect::Easy => (&EASY, &SHARED[..0]),
    };
    let common: &[Row<Action>] = if dialect.is_old() {
        &COMMON
    } else {
        &COMMON[..0]
    };
    let turn = found(own, word)
        .or(found(shared, word))
        .or(found(common, word));
    if turn.is_some() {
        return turn;
    }
    let mnemonic = Mnemonic::named(word)?;
    Some(Action::As(mnemonic.name().as_bytes()))
}

impl Action {
    /// Returns whether the operation begins a block that another line ends.
    pub(crate) fn opens(self) -> bool {
        matches!(
            self,
            Action::If(_)
                | Action::Macro
                | Action::Repeat
                | Action::Dummy
                | Action::Scope
                | Action::Raised
        )
    }

    /// Returns whether the operation ends a block.
    pub(crate) fn closes(self) -> bool {
        matches!(
            self,
            Action::EndIf
                | Action::EndMacro
                | Action::EndRepeat
                | Action::EndDummy
                | Action::EndScope
                | Action::Close
        )
    }
}

/// Returns the assembler to which a word belongs.
pub(crate) fn dialect_of_word(word: &[u8]) -> Option<Dialect> {
    let [first, next, ..] = word else {
        return None;
    };
    let is_named = next.is_ascii_alphabetic();
    match *first {
        b':' if is_named => Some(Dialect::Merlin),
        b']' if is_named => Some(Dialect::Merlin),
        b'@' if is_named => Some(Dialect::Ca65),
        b'^' if next.is_ascii_digit() && word.len() == 2 => Some(Dialect::Lisa),
        b'_' | b'A'..=b'Z' | b'a'..=b'z' if word.ends_with(b":") => Some(Dialect::Ca65),
        _ => found(&SIGNS, word),
    }
}

/// Returns the assembler to which a word belongs that decides wherever it is in a text.
pub(crate) fn dialect_of_strong_word(word: &[u8]) -> Option<Dialect> {
    match word {
        [b'!', ..] if found(&ACME, word).is_some() => Some(Dialect::Acme),
        _ => found(&STRONG_SIGNS, word),
    }
}
