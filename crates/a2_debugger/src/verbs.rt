//! The words that begin lines.

ghost use Rattle.std.specs.Prelude.{map, IfSome, IfNone};
ghost use Rattle.std.specs.List.{Contains};
ghost use Rattle.a2_text.specs.Bytes.{capital as capital_of};
ghost use Rattle.a2_debugger.specs.Words.{IsVerb, listed};
ghost use Rattle.a2_debugger.specs.declared.verbs.Verb.{Verb as DeclaredVerb};

/// The command word of a line.
#[derive(Clone, Copy)]
pub enum Verb {
    Step,
    Next,
    Out,
    Back,
    Rnext,
    Go,
    Until,
    Rback,
    Watch,
    Who,
    Break,
    Clear,
    Unwatch,
    Keys,
    Set,
    Goto,
    Where,
    Regs,
    Print,
    Mem,
    Screen,
    List,
    Info,
    Stack,
    Help,
}

// The greatest length of a command word.
const LONGEST: usize = 7;

// A word in capitals and the verb it stands for.
type Row = (&'static [u8], Verb);

// The full words of the verbs, followed by the letters that abbreviate some of them.
static WORDS: [Row; 38] = [
    (b"STEP", Verb::Step),
    (b"NEXT", Verb::Next),
    (b"OUT", Verb::Out),
    (b"BACK", Verb::Back),
    (b"RNEXT", Verb::Rnext),
    (b"GO", Verb::Go),
    (b"UNTIL", Verb::Until),
    (b"RBACK", Verb::Rback),
    (b"WATCH", Verb::Watch),
    (b"WHO", Verb::Who),
    (b"BREAK", Verb::Break),
    (b"CLEAR", Verb::Clear),
    (b"UNWATCH", Verb::Unwatch),
    (b"KEYS", Verb::Keys),
    (b"SET", Verb::Set),
    (b"GOTO", Verb::Goto),
    (b"WHERE", Verb::Where),
    (b"REGS", Verb::Regs),
    (b"PRINT", Verb::Print),
    (b"MEM", Verb::Mem),
    (b"SCREEN", Verb::Screen),
    (b"LIST", Verb::List),
    (b"INFO", Verb::Info),
    (b"STACK", Verb::Stack),
    (b"HELP", Verb::Help),
    (b"S", Verb::Step),
    (b"N", Verb::Next),
    (b"O", Verb::Out),
    (b"B", Verb::Back),
    (b"G", Verb::Go),
    (b"U", Verb::Until),
    (b"R", Verb::Rback),
    (b"W", Verb::Where),
    (b"P", Verb::Print),
    (b"X", Verb::Mem),
    (b"L", Verb::List),
    (b"I", Verb::Info),
    (b"H", Verb::Help),
];

// The verb that a word in capitals stands for in a table.
fn named(rows: &[Row], letters: &[u8]) -> Option<Verb>
    ensures found { IfSome result (λ v. Contains (listed rows.now) (letters.now, v)) }
    ensures none { IfNone result ((v : DeclaredVerb) → Contains (listed rows.now) (letters.now, v) → ⊥) }
{
    for (word, verb) in rows {
        if *word == letters {
            return Some(*verb);
        }
    }
    None
}

// The verb of a word in capitals.
fn spelled(letters: &[u8]) -> Option<Verb>
    ensures found { IfSome result (λ v. IsVerb letters.now v) }
    ensures none { IfNone result ((v : DeclaredVerb) → IsVerb letters.now v → ⊥) }
{
    named(&WORDS, letters)
}

/// Returns the verb that a word stands for, as a full word or a letter, in either case.
pub fn verb_of(word: &[u8]) -> Option<Verb>
    ensures found { IfSome result (λ v. IsVerb (map capital_of word.now) v) }
    ensures none { IfNone result ((v : DeclaredVerb) → IsVerb (map capital_of word.now) v → ⊥) }
{
    let mut letters = [0u8; LONGEST];
    let letters = letters.get_mut(..word.len())?;
    letters.copy_from_slice(word);
    letters.make_ascii_uppercase();
    spelled(letters)
}
