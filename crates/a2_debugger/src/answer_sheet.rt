//! The text of the answers.

ghost use Rattle.std.specs.Prelude.{List, ℕ};
ghost use Rattle.a2_stream.specs.Stream.{SendsOrBreaks};

use crate::changes::{put_bytes, put_changed_rows, put_registers};
use crate::inspector_command::{Outcome, Show};
use crate::stops::{
    Break, Condition, Flag, Moment, Register, Relation, Subject, Watch, in_flag, in_register,
    is_hit, is_watch_changed, value_of,
};
use crate::verbs::Verb;
use a2_history::Entry;
use a2_machine::{Cause, Machine, write_registers};
use a2_opcode::list_line;
use a2_page::print;
use a2_stream::{Kept, Output, WriteFault, put, put_all};
use a2_symbols::{Scene, Span, name_of, put_address, put_place, put_text, statement_at};
use a2_text::{decimal, hex_pair, hex_word};
use std::alloc::Allocator;

// The help text: the forms of all commands.
const HELP: &[u8] = b"step [N]     executes one step, or N: at most 65535      s
next         executes one step, or a whole routine      n
out          runs until the current routine is left     o
back [N]     goes back one step, or N                   b
rnext        goes back one step, or a whole routine
go           runs to the next stop                      g
until P      runs to P                                  u
rback        goes back to the previous stop             r
who W        goes back to the last step that changed W
break P      sets a breakpoint, or one with a condition:
             break P if A = $40: a register, a flag or a place, = <> < >
clear [P]    removes the breakpoint at P; without P, all that was set
watch W      sets a watchpoint: stops if W changes
unwatch W    removes a watchpoint
set W = N    sets a register, a flag or a byte; set PC = P sets PC
goto P       sets PC: the run continues at P
keys TEXT    types keys: \\r \\b \\f \\x \\\\ as in --keys
where        shows the place and the routines entered   w
regs         shows the registers
print W      shows a register, a flag, PC, or a place   p
mem P[..P]   shows bytes                                x
stack        shows the stack, and where it returns to
screen       shows the screen
list [P]     shows the source lines nearby, or at P     l
info         shows breakpoints and watchpoints          i
help, quit   shows this help; ends the session
P is a name, a line such as 12:, or an address such as $300. A + and a number
may follow it. W is a register (A X Y S P), a flag (N V D I Z C), or P[..P]: the
bytes at a place, or from one to another. An empty line repeats the last
command.
";

// The number of lines that `list` shows before and after the current one.
const LINES_LISTED: u16 = 4;

// The number of these lines that a stop shows.
const LINES_AT_STOP: u16 = 2;

// The blanks after a line number, up to the column of the line's text.
const BEHIND_NUMBER: &[u8; 6] = b"      ";

// The message if there are no breakpoints and no watchpoints.
const NO_STOPS: &[u8] = b"no breakpoints and no watchpoints\n";

/// What a stop reports besides the current position and the changes.
#[derive(Clone, Copy)]
pub enum Detail {
    /// The source lines, and the screen if it changed.
    Full,
    /// The screen, but no source line.
    Plain,
    /// Neither: the caller shows both.
    Beside,
}

/// The state of a run that an answer reports.
#[derive(Drop)]
pub struct RunReport<'a, A: Allocator> {
    pub scene: Scene<'a, A>,
    pub machine: &'a Machine<A>,
    /// The machine before the last command.
    pub before: &'a Machine<A>,
    pub breaks: &'a [Break],
    pub watches: &'a [Watch],
    /// The routines that were entered, if they are to be shown, outermost first.
    pub entries: &'a [Entry],
    /// The greatest number of steps that a command executes while it looks for a place.
    pub most: u32,
    pub detail: Detail,
    /// Whether something was set by hand at the current position.
    pub set_here: bool,
    /// Whether something was set by hand after the next step.
    pub set_next: bool,
}

/// An answer, assembled before it is written. If memory runs out for a part, this is noted and reported instead of the answer.
#[derive(Drop)]
pub(crate) struct Sheet<A: Allocator> {
    text: Kept<A>,
    is_whole: bool,
}

impl<A: Allocator + Copy> Sheet<A> {
    // Notes whether a part was added.
    fn note(&mut self, part: Result<(), WriteFault>) {
        self.is_whole = self.is_whole && part.is_ok();
    }

    /// Adds a text.
    pub(crate) fn put(&mut self, text: &[u8]) {
        let part = put(text, &mut self.text);
        self.note(part);
    }

    /// Adds several texts, one after another.
    pub(crate) fn put_all(&mut self, pieces: &[&[u8]]) {
        let part = put_all(pieces, &mut self.text);
        self.note(part);
    }

    // The text to write.
    fn told(&self) -> &[u8] {
        if self.is_whole {
            self.text.as_slice()
        } else {
            b"not enough memory for the answer\n"
        }
    }
}

/// Returns one of two texts.
pub(crate) fn one_of(is_first: bool, first: &'static [u8], other: &'static [u8]) -> &'static [u8] {
    if is_first { first } else { other }
}

/// Returns the byte of RAM at an address, or 0 if there is none.
pub(crate) fn byte_at<A: Allocator + Copy>(machine: &Machine<A>, address: u16) -> u8 {
    machine.peek(address).unwrap_or(0)
}

// Prints the source line of an address, if source lines are shown and the address has one.
fn put_line_at<A: Allocator + Copy>(stand: &RunReport<A>, address: u16, sheet: &mut Sheet<A>) {
    let spot = match stand.detail {
        Detail::Plain => put_address(address, &mut sheet.text),
        _ => put_place(&stand.scene, address, &mut sheet.text),
    };
    sheet.note(spot);
}

// Prints the instruction at an address of RAM, in the form of a listing.
fn put_instruction<A: Allocator + Copy>(machine: &Machine<A>, address: u16, sheet: &mut Sheet<A>) {
    let bytes = [
        byte_at(machine, address),
        byte_at(machine, address.wrapping_add(1)),
        byte_at(machine, address.wrapping_add(2)),
    ];
    sheet.put_all(&[b"  ", list_line(&bytes, address).text.as_str().as_bytes()]);
}

// Prints the current position: the step, the source line if one is shown, the instruction, and the registers.
fn put_position<A: Allocator + Copy>(stand: &RunReport<A>, sheet: &mut Sheet<A>) {
    let machine = stand.machine;
    let pc = machine.regs().pc;
    let is_ram = machine.peek(pc).is_some();
    sheet.put_all(&[b"step ", decimal(machine.steps()).as_slice()]);
    if !is_ram || !matches!(stand.detail, Detail::Plain) {
        sheet.put(b"  ");
        put_line_at(stand, pc, sheet);
    }
    if is_ram {
        put_instruction(machine, pc, sheet);
    }
    sheet.put(b"\n");
    let registers = write_registers(machine, &mut sheet.text);
    sheet.note(registers);
}

// Prints a stop: the current position, the changes, and the source lines around the position.
fn put_stop<A: Allocator + Copy>(stand: &RunReport<A>, sheet: &mut Sheet<A>) {
    put_position(stand, sheet);
    put_registers(stand.before.regs(), stand.machine.regs(), sheet);
    put_bytes(stand, sheet);
    if !matches!(stand.detail, Detail::Beside) {
        let rows = put_changed_rows(stand.before, stand.machine, &mut sheet.text);
        sheet.note(rows);
    }
    if matches!(stand.detail, Detail::Full) {
        put_lines(stand, stand.machine.regs().pc, LINES_AT_STOP, sheet);
    }
}

// Prints that something was set by hand here or after the next step, if so.
fn put_settings<A: Allocator + Copy>(stand: &RunReport<A>, sheet: &mut Sheet<A>) {
    if stand.set_here {
        sheet.put(b"note: you set something at this step\n");
    }
    if stand.set_next {
        sheet.put(b"note: you set something after the next step\n");
    }
}

// Prints which steps are forgotten because something was set before them, if any are.
fn put_dropped<A: Allocator + Copy>(stand: &RunReport<A>, farthest: u64, sheet: &mut Sheet<A>) {
    if farthest > stand.machine.steps() {
        let last = decimal(farthest);
        sheet.put_all(&[
            b"dropped: what followed, up to step ",
            last.as_slice(),
            b"\n",
        ]);
    }
}

// Prints why there is no further step.
fn put_cause<A: Allocator + Copy>(cause: Cause, most: u32, sheet: &mut Sheet<A>) {
    match cause {
        Cause::Limit => sheet.put_all(&[
            b"gave up after ",
            decimal(u64::from(most)).as_slice(),
            b" steps; raise it with --limit, or use keys TEXT if the program waits for a key\n",
        ]),
        _ => sheet.put_all(&[b"stopped: ", cause.sentence(), b"\n"]),
    }
}

// Prints the bytes at these addresses, eight on a line.
fn put_memory<A: Allocator + Copy>(machine: &Machine<A>, span: Span, sheet: &mut Sheet<A>) {
    for address in span.first..=span.last {
        if address == span.first || address % 8 == 0 {
            if address != span.first {
                sheet.put(b"\n");
            }
            sheet.put_all(&[&hex_word(address), b"-"]);
        }
        match machine.peek(address) {
            Some(byte) => sheet.put_all(&[b" ", &hex_pair(byte)]),
            None => sheet.put(b" --"),
        }
    }
    sheet.put(b"\n");
}

// Prints a source line after its number, with an arrow if it is the current one. Its text begins in column 8, a tab stop.
fn put_source_line<A: Allocator + Copy>(
    number: u16,
    text: &[u8],
    is_here: bool,
    sheet: &mut Sheet<A>,
) {
    let number = decimal(u64::from(number));
    sheet.put(one_of(is_here, b"> ", b"  "));
    sheet.put(number.as_slice());
    if !text.is_empty() {
        sheet.put(&BEHIND_NUMBER[number.len().min(5)..]);
        let part = put_text(text, &mut sheet.text);
        sheet.note(part);
    }
    sheet.put(b"\n");
}

// The number of the source line at an address, or 0 if it has none.
fn line_at<A: Allocator + Copy>(stand: &RunReport<A>, address: u16) -> u16 {
    match statement_at(stand.scene.program.statements(), address) {
        Some(statement) => statement.line,
        None => 0,
    }
}

// Prints the source lines around the one at an address, at most this many before and after it, with an arrow at the current one;
// none if the address has no source line.
fn put_lines<A: Allocator + Copy>(
    stand: &RunReport<A>,
    address: u16,
    around: u16,
    sheet: &mut Sheet<A>,
) {
    let middle = line_at(stand, address);
    let here = line_at(stand, stand.machine.regs().pc);
    if middle == 0 {
        return;
    }
    let mut number = 1u16;
    for text in stand.scene.lines {
        if number.saturating_add(around) >= middle && number <= middle.saturating_add(around) {
            put_source_line(number, text.trim_ascii_end(), number == here, sheet);
        }
        number = number.saturating_add(1);
    }
}

// Prints the source lines around the one at an address, or a message if there are none.
fn put_list<A: Allocator + Copy>(stand: &RunReport<A>, address: u16, sheet: &mut Sheet<A>) {
    if line_at(stand, address) == 0 {
        sheet.put_all(&[b"no source line at $", &hex_word(address), b"\n"]);
    }
    put_lines(stand, address, LINES_LISTED, sheet);
}

// The letter of a register.
fn letter_of(register: Register) -> &'static [u8] {
    match register {
        Register::A => b"A",
        Register::X => b"X",
        Register::Y => b"Y",
        Register::S => b"S",
        Register::P => b"P",
    }
}

// The letter of a flag.
fn letter_of_flag(flag: Flag) -> &'static [u8] {
    match flag {
        Flag::N => b"N",
        Flag::V => b"V",
        Flag::D => b"D",
        Flag::I => b"I",
        Flag::Z => b"Z",
        Flag::C => b"C",
    }
}

/// Prints an address by its first name, or as a number if it has none or source lines are left out.
pub(crate) fn put_named<A: Allocator + Copy>(
    stand: &RunReport<A>,
    address: u16,
    sheet: &mut Sheet<A>,
) {
    let name = name_of(stand.scene.program.names(), address);
    if name.is_empty() || matches!(stand.detail, Detail::Plain) {
        sheet.put_all(&[b"$", &hex_word(address)]);
    } else {
        sheet.put(name);
    }
}

// The operator of a condition, before a hexadecimal number.
fn sign_of(relation: Relation) -> &'static [u8] {
    match relation {
        Relation::Equal => b" = $",
        Relation::Other => b" <> $",
        Relation::Less => b" < $",
        Relation::More => b" > $",
    }
}

// Prints what a condition is about.
fn put_subject<A: Allocator + Copy>(stand: &RunReport<A>, subject: Subject, sheet: &mut Sheet<A>) {
    match subject {
        Subject::InRegister(register) => sheet.put(letter_of(register)),
        Subject::InFlag(flag) => sheet.put(letter_of_flag(flag)),
        Subject::InByte(address) => put_named(stand, address, sheet),
    }
}

// Prints a condition in the form in which it is typed.
fn put_condition<A: Allocator + Copy>(
    stand: &RunReport<A>,
    condition: Condition,
    sheet: &mut Sheet<A>,
) {
    sheet.put(b" if ");
    put_subject(stand, condition.subject, sheet);
    sheet.put(sign_of(condition.relation));
    if condition.value <= 0xFF {
        sheet.put(&hex_pair(condition.value as u8));
    } else {
        sheet.put(&hex_word(condition.value));
    }
}

// Prints a breakpoint.
fn put_break<A: Allocator + Copy>(stand: &RunReport<A>, place: Break, sheet: &mut Sheet<A>) {
    sheet.put(b"breakpoint at ");
    put_named(stand, place.address, sheet);
    if let Some(condition) = place.condition {
        put_condition(stand, condition, sheet);
    }
}

// Prints what is watched.
fn put_watch<A: Allocator + Copy>(stand: &RunReport<A>, watch: Watch, sheet: &mut Sheet<A>) {
    match watch {
        Watch::OfRegister(register) => sheet.put(letter_of(register)),
        Watch::OfFlag(flag) => sheet.put(letter_of_flag(flag)),
        Watch::OfBytes(span) => {
            put_named(stand, span.first, sheet);
            if span.first != span.last {
                sheet.put_all(&[b"..$", &hex_word(span.last)]);
            }
        }
    }
}

// Prints a line with what is watched, between two texts.
fn put_watch_line<A: Allocator + Copy>(
    stand: &RunReport<A>,
    before: &[u8],
    watch: Watch,
    after: &[u8],
    sheet: &mut Sheet<A>,
) {
    sheet.put(before);
    put_watch(stand, watch, sheet);
    sheet.put_all(&[after, b"\n"]);
}

// Prints the breakpoints, each with its source line if source lines are shown and it has one, and the watchpoints.
fn put_stops<A: Allocator + Copy>(stand: &RunReport<A>, sheet: &mut Sheet<A>) {
    if stand.breaks.is_empty() && stand.watches.is_empty() {
        sheet.put(NO_STOPS);
    }
    let statements = stand.scene.program.statements();
    for place in stand.breaks {
        put_break(stand, *place, sheet);
        if !matches!(stand.detail, Detail::Plain)
            && statement_at(statements, place.address).is_some()
        {
            sheet.put(b", ");
            put_line_at(stand, place.address, sheet);
        }
        sheet.put(b"\n");
    }
    for watch in stand.watches {
        put_watch_line(stand, b"watched: ", *watch, b"", sheet);
    }
}

// Prints which breakpoint was reached, and the value that its condition is about.
fn put_break_reached<A: Allocator + Copy>(
    stand: &RunReport<A>,
    place: Break,
    sheet: &mut Sheet<A>,
) {
    sheet.put(b"stopped: ");
    put_break(stand, place, sheet);
    if let Some(condition) = place.condition {
        let value = value_of(condition.subject, &Moment::of(stand.machine)).unwrap_or(0);
        sheet.put(b" (");
        put_subject(stand, condition.subject, sheet);
        sheet.put_all(&[b" = $", &hex_pair(value), b")"]);
    }
    sheet.put(b"\n");
}

// Prints which stops were reached: breakpoints, and what is watched, if it has changed; nothing if a routine returned.
fn put_reason<A: Allocator + Copy>(stand: &RunReport<A>, changed: &[u8], sheet: &mut Sheet<A>) {
    let now = Moment::of(stand.machine);
    let before = Moment::of(stand.before);
    for place in stand.breaks {
        if is_hit(place, &now) {
            put_break_reached(stand, *place, sheet);
        }
    }
    for watch in stand.watches {
        if is_watch_changed(watch, &before, &now) {
            put_watch_line(stand, b"stopped: ", *watch, changed, sheet);
        }
    }
}

// Prints the return address of a routine, which is at this place of the stack, and the call.
fn put_return<A: Allocator + Copy>(stand: &RunReport<A>, entry: &Entry, sheet: &mut Sheet<A>) {
    let place = 0x100 + u16::from(entry.s.wrapping_sub(1));
    let returns = entry.call.wrapping_add(2);
    let low = byte_at(stand.machine, place);
    let high = byte_at(stand.machine, 0x100 + u16::from(entry.s));
    sheet.put_all(&[b"$", &hex_word(place)]);
    if u16::from_le_bytes([low, high]) == returns {
        sheet.put(b" returns to ");
        put_line_at(stand, returns.wrapping_add(1), sheet);
    } else {
        sheet.put(b" no longer has the return address");
    }
    sheet.put(b"; called by ");
    put_line_at(stand, entry.call, sheet);
    sheet.put_all(&[b", step ", decimal(entry.position).as_slice(), b"\n"]);
}

// Prints the bytes of the stack that are in use, and where it returns to, innermost first.
fn put_stack<A: Allocator + Copy>(stand: &RunReport<A>, sheet: &mut Sheet<A>) {
    let s = stand.machine.regs().s;
    if s == 0xFF {
        sheet.put(b"the stack is empty\n");
    } else {
        let span = Span {
            first: 0x101 + u16::from(s),
            last: 0x1FF,
        };
        put_memory(stand.machine, span, sheet);
    }
    for entry in stand.entries.iter().rev() {
        put_return(stand, entry, sheet);
    }
}

// Prints the current position and the routines that were entered, innermost first.
fn put_where<A: Allocator + Copy>(stand: &RunReport<A>, sheet: &mut Sheet<A>) {
    put_position(stand, sheet);
    for entry in stand.entries.iter().rev() {
        sheet.put(b"called by ");
        put_line_at(stand, entry.call, sheet);
        sheet.put_all(&[b", step ", decimal(entry.position).as_slice(), b"\n"]);
    }
}

// Prints a byte after an equals sign: in hexadecimal, in decimal, as a negative number if bit 7 is set, and in binary.
fn put_value<A: Allocator + Copy>(byte: u8, sheet: &mut Sheet<A>) {
    let mut digits = [b'0'; 8];
    for place in 0..8usize {
        if byte & (0x80 >> place) != 0 {
            digits[place] = b'1';
        }
    }
    let number = decimal(u64::from(byte));
    sheet.put_all(&[b" = $", &hex_pair(byte), b" = ", number.as_slice()]);
    if byte >= 0x80 {
        let negative = decimal(0x100 - u64::from(byte));
        sheet.put_all(&[b" = -", negative.as_slice()]);
    }
    sheet.put_all(&[b" = %", &digits, b"\n"]);
}

// Prints an address, with its name if it has one, and the byte there.
fn put_value_at<A: Allocator + Copy>(stand: &RunReport<A>, address: u16, sheet: &mut Sheet<A>) {
    put_named(stand, address, sheet);
    let name = name_of(stand.scene.program.names(), address);
    if !name.is_empty() && !matches!(stand.detail, Detail::Plain) {
        sheet.put_all(&[b" ($", &hex_word(address), b")"]);
    }
    match stand.machine.peek(address) {
        Some(byte) => put_value(byte, sheet),
        None => sheet.put(b" is not RAM\n"),
    }
}

// Prints PC.
fn put_counter<A: Allocator + Copy>(pc: u16, sheet: &mut Sheet<A>) {
    let number = decimal(u64::from(pc));
    sheet.put_all(&[b"PC = $", &hex_word(pc), b" = ", number.as_slice(), b"\n"]);
}

// Prints a flag.
fn put_flag<A: Allocator + Copy>(flag: Flag, moment: &Moment, sheet: &mut Sheet<A>) {
    let value = decimal(u64::from(in_flag(flag, moment)));
    sheet.put_all(&[letter_of_flag(flag), b" = ", value.as_slice(), b"\n"]);
}

// Prints what a command asks to show.
fn put_shown<A: Allocator + Copy>(stand: &RunReport<A>, show: Show, sheet: &mut Sheet<A>) {
    let machine = stand.machine;
    match show {
        Show::Place => put_where(stand, sheet),
        Show::Registers => {
            let registers = write_registers(machine, &mut sheet.text);
            sheet.note(registers);
        }
        Show::Register(register) => {
            sheet.put(letter_of(register));
            put_value(in_register(register, &Moment::of(machine)), sheet);
        }
        Show::Flag(flag) => put_flag(flag, &Moment::of(machine), sheet),
        Show::Counter => put_counter(machine.regs().pc, sheet),
        Show::Address(address) => put_value_at(stand, address, sheet),
        Show::Memory(span) => put_memory(machine, span, sheet),
        Show::Screen => {
            let screen = print(&machine.view(), &mut sheet.text);
            sheet.note(screen);
        }
        Show::Lines => put_list(stand, machine.regs().pc, sheet),
        Show::LinesAt(address) => put_list(stand, address, sheet),
        Show::Stack => put_stack(stand, sheet),
        Show::Stops => put_stops(stand, sheet),
        Show::Help => sheet.put(HELP),
    }
}

// What `step` and `back` take, after their name.
const TAKES_STEPS: &[u8] = b" takes a number of steps, 0 to 65535\n";

// What `watch`, `unwatch` and `who` need, after their name.
const NEEDS_WATCH: &[u8] =
    b" needs a register (A X Y S P), a flag (N V D I Z C), one place, or two such as $300..$30F, the lower first, at most 256 bytes\n";

// What `set` needs.
const NEEDS_VALUE: &[u8] =
    b"set needs a register (A X Y S P), a flag (N V D I Z C) or a place below $C000, then = and a number: 0 to 255, for a flag 0 or 1; or PC = and a place\n";

// What `until`, `list`, `clear`, `goto` and `break` need, after their name.
const NEEDS_PLACE: &[u8] =
    b" needs a place: a name of the source, a line with an instruction such as 12:, or an address such as $300\n";

// Prints which arguments a command has.
fn put_form<A: Allocator + Copy>(verb: Verb, sheet: &mut Sheet<A>) {
    match verb {
        Verb::Step => sheet.put_all(&[b"step", TAKES_STEPS]),
        Verb::Back => sheet.put_all(&[b"back", TAKES_STEPS]),
        Verb::Until => sheet.put_all(&[b"until", NEEDS_PLACE]),
        Verb::Clear => sheet.put_all(&[b"clear", NEEDS_PLACE]),
        Verb::List => sheet.put_all(&[b"list", NEEDS_PLACE]),
        Verb::Break => {
            sheet.put_all(&[b"break", NEEDS_PLACE]);
            sheet.put(
                b"a condition may follow it: break P if A = $40 (a register, a flag or a place; = <> < >; a number)\n",
            )
        }
        Verb::Mem => {
            sheet.put(b"mem needs one place, or two such as $300..$30F, the lower first\n")
        }
        Verb::Watch => sheet.put_all(&[b"watch", NEEDS_WATCH]),
        Verb::Unwatch => sheet.put_all(&[b"unwatch", NEEDS_WATCH]),
        Verb::Who => sheet.put_all(&[b"who", NEEDS_WATCH]),
        Verb::Print => sheet.put(
            b"print needs a register (A X Y S P PC), a flag (N V D I Z C) or a place\n",
        ),
        Verb::Set => sheet.put(NEEDS_VALUE),
        Verb::Goto => sheet.put_all(&[b"goto", NEEDS_PLACE]),
        Verb::Keys => {
            sheet.put(b"keys needs the keys to type: blank to ~, and \\r \\b \\f \\x \\\\\n")
        }
        _ => sheet.put(b"this command takes no argument; help lists all commands\n"),
    }
}

// The whole answer to an outcome that needs no further text, or an empty text for the other outcomes.
fn sentence_of(outcome: Outcome) -> &'static [u8] {
    match outcome {
        Outcome::NoneEarlier => b"no earlier breakpoint or watched change\n",
        Outcome::NoRoutine => b"the program is not in a routine\n",
        Outcome::Full => b"not set: at most 64 breakpoints; clear removes all\n",
        Outcome::FullWatches => b"not set: at most 8 watchpoints; clear removes all\n",
        Outcome::Cleared => NO_STOPS,
        Outcome::Typed => b"typed\n",
        Outcome::KeysFull => b"not typed: more than 4096 keys would be waiting\n",
        Outcome::Memory => b"not done: not enough memory\n",
        Outcome::NoWord => b"unknown command; help lists all commands\n",
        _ => b"",
    }
}

// Prints the answer.
fn put_answer<A: Allocator + Copy>(stand: &RunReport<A>, outcome: Outcome, sheet: &mut Sheet<A>) {
    match outcome {
        Outcome::Moved => {
            put_stop(stand, sheet);
            put_settings(stand, sheet);
        }
        Outcome::Changed(farthest) => {
            put_stop(stand, sheet);
            put_dropped(stand, farthest, sheet);
        }
        Outcome::Seen => {
            put_stop(stand, sheet);
            put_settings(stand, sheet);
            put_reason(stand, b" changed", sheet);
        }
        Outcome::SeenEarlier => {
            put_stop(stand, sheet);
            put_settings(stand, sheet);
            put_reason(stand, b" is about to change", sheet);
        }
        Outcome::Stopped(cause) => {
            put_stop(stand, sheet);
            put_cause(cause, stand.most, sheet);
        }
        Outcome::NeverChanged(watch) => {
            put_watch_line(stand, b"no earlier step changed ", watch, b"", sheet)
        }
        Outcome::Set(place) => {
            put_break(stand, place, sheet);
            sheet.put(b"\n");
        }
        Outcome::Watched(watch) => put_watch_line(stand, b"watched: ", watch, b"", sheet),
        Outcome::Shown(show) => put_shown(stand, show, sheet),
        Outcome::Refused(verb) => put_form(verb, sheet),
        _ => sheet.put(sentence_of(outcome)),
    }
}

/// Writes the answer to a line.
pub fn report<A: Allocator + Copy, W: Output>(
    alloc: A,
    stand: &RunReport<A>,
    outcome: Outcome,
    writer: &mut W,
) -> Result<(), WriteFault>
    ensures { (text : List ℕ) × SendsOrBreaks (W.taker writer.old) (W.taker writer.new) result text }
{
    let mut sheet = Sheet {
        text: Kept::new(alloc),
        is_whole: true,
    };
    put_answer(stand, outcome, &mut sheet);
    put(sheet.told(), writer)
}
