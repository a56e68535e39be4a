//! The guard as a machine stores it: one byte of marks for each address.

ghost use Rattle.std.specs.Prelude.{◌≡◌, ℕ, ◌+◌, ◌<◌, ◌≤◌, ◌==◌, ◌&&◌, ◌||◌, nat_le, nat_lt, Bool, List, length, slice_index, if◌then◌else◌, true, is_some, IfOk, Some, None};
ghost use Rattle.a2_asm.specs.Programs.{begins_at, is_code};
ghost use Rattle.a2_machine.specs.ProgramGuard.{guard_of_program};
ghost use Rattle.std.specs.List.{list_any};
ghost use Rattle.a2_bus.specs.Memory.{ram_end};
ghost use Rattle.a2_services.specs.Services.{reach as reach_of};
ghost use Rattle.a2_machine.specs.ByteRun.{addresses_below};
ghost use Rattle.a2_machine.specs.Marks.{begins, begins_by, lies, first_mark, whole_end, AreStarted, BeginOnlyBelow};
ghost use Rattle.a2_machine.specs.CodeGuards.{ArePlainMarks, is_blocked, BlocksBy};
ghost use Rattle.a2_machine.specs.Outcome.{admits as admits_of, protected_by};

use a2_asm::{Program, Statement};
use a2_cpu::Protection;
use a2_hex::RAM_END;
use a2_services::{Service, reach};
use std::alloc::{AllocError, Allocator, Global};
use std::marker::Model;

/// The first address from which fewer than three bytes are in RAM.
const WHOLE_END: usize = RAM_END as usize - 2;

/// The number of addresses.
pub const ADDRESSES: usize = 0x1_0000;

/// The size of the notes of a long run in bytes: a mark and a kind for each address.
pub const NOTES: usize = 2 * ADDRESSES;

// The bits of a mark.

/// An instruction may begin here, and three bytes from here on are in RAM.
const BEGINS: u8 = 1;

/// A byte of code is here.
const CODE: u8 = 2;

/// There is no RAM here.
const ABOVE: u8 = 4;

/// An instruction may begin here, and fewer than three bytes from here on are in RAM.
const BEGINS_LAST: u8 = 8;

/// What is stored along with the marks: which services may store into code, by their numbers, and the end of the addresses
/// where instructions begin.
#[derive(Clone, Copy)]
pub struct Marked {
    pub blocked: [bool; Service::COUNT],
    pub end: u16,
}

/// The value without a guard.
const UNGUARDED: Marked = Marked {
    blocked: [false; Service::COUNT],
    end: RAM_END,
};

/// A guard, or no guard. Contracts see it as an option of the addresses where instructions begin and of the addresses of their
/// bytes.
#[derive(Drop)]
pub struct CodeGuard<A: Allocator = Global> {
    marks: Vec<u8, A>,
    marked: Marked,
    on: bool,
}

impl<A: Allocator> Model for CodeGuard<A> {
    ghost use Rattle.std.specs.Prelude.{Option};
    ghost use Rattle.a2_machine.specs.ByteRun.{Guard};

    ghost Value = { Option Guard };

    ghost use Rattle.a2_machine.specs.Marks.{guard_if};
    ghost use Rattle.a2_machine.specs.CodeGuards.{IsCodeGuard};

    ghost view = { λ w. guard_if w.on w.marks.items };

    ghost invariant = { λ w. IsCodeGuard w.on w.marks.items w.marked };
}

// Whether an instruction may begin at an address with this mark.
#[inline(always)]
fn has_begin(mark: u8) -> bool
    ensures { result ≡ begins_by mark }
{
    mark & BEGINS != 0 || mark & BEGINS_LAST != 0
}

// Also blocks the services that may store at an address.
fn block(blocked: &mut [bool; Service::COUNT], address: u16)
    ensures { (service : Service) → is_blocked blocked.new service
        ≡ (is_blocked blocked.old service || reach_of service address) }
{
    for service in Service::ALL {
        blocked[service as usize] |= reach(service, address);
    }
}

// Sets the same mark for every address from one on.
fn fill_from(marks: &mut [u8], start: usize, mark: u8)
    requires size { length marks.old ≡ 65536 }
    requires within { start ≤ 65536 }
    ensures size { length marks.new ≡ 65536 }
    ensures filled { (a : ℕ) → a < 65536 → slice_index marks.new a ≡ (if nat_lt a start then slice_index marks.old a else mark) }
{
    marks[start..].fill(mark);
}

// Sets the initial marks of the addresses from which fewer than three bytes are in RAM: the last two of RAM, and those above.
fn reset_last_marks(marks: &mut [u8], free: bool)
    requires size { length marks.old ≡ 65536 }
    requires before { (a : ℕ) → a < whole_end → slice_index marks.old a ≡ first_mark free a }
    ensures size { length marks.new ≡ 65536 }
    ensures first { (a : ℕ) → a < 65536 → slice_index marks.new a ≡ first_mark free a }
{
    let last = if free { BEGINS_LAST } else { 0 };
    fill_from(marks, usize::from(RAM_END), last | ABOVE);
    marks[WHOLE_END] = last;
    marks[WHOLE_END + 1] = last;
}

// Sets all marks to their initial values: those without a guard, where an instruction may begin anywhere, or those for a
// program.
fn reset_marks(marks: &mut [u8], free: bool)
    requires { length marks.old ≡ 65536 }
    ensures size { length marks.new ≡ 65536 }
    ensures first { (a : ℕ) → a < 65536 → slice_index marks.new a ≡ first_mark free a }
{
    marks[..WHOLE_END].fill(if free { BEGINS } else { 0 });
    reset_last_marks(marks, free);
}

// Marks that an instruction begins at an address, if the address is in RAM.
fn mark_begin(marks: &mut [u8], address: usize)
    requires started { AreStarted marks.old }
    requires in_ram { address < ram_end }
    ensures started { AreStarted marks.new }
    ensures begins { (a : ℕ) → a < ram_end → begins marks.new a ≡ (begins marks.old a || address == a) }
    ensures lies { (a : ℕ) → a < ram_end → lies marks.new a ≡ lies marks.old a }
{
    marks[address] |= if address < WHOLE_END {
        BEGINS
    } else {
        BEGINS_LAST
    };
}

// Marks that a byte of code is at an address.
fn mark_code(marks: &mut [u8], address: usize)
    requires started { AreStarted marks.old }
    requires in_ram { address < ram_end }
    ensures started { AreStarted marks.new }
    ensures begins { (a : ℕ) → a < ram_end → begins marks.new a ≡ begins marks.old a }
    ensures lies { (a : ℕ) → a < ram_end → lies marks.new a ≡ (lies marks.old a || address == a) }
{
    marks[address] |= CODE;
}

// Does the same, and blocks the services that may store there.
#[tactic(auto, using(crate::proofs::Marking::any_added))]
fn mark_byte(marks: &mut [u8], blocked: &mut [bool; Service::COUNT], address: usize)
    requires started { AreStarted marks.old }
    requires in_ram { address < ram_end }
    requires blocks { BlocksBy blocked.old (addresses_below ram_end (lies marks.old)) }
    ensures started { AreStarted marks.new }
    ensures begins { (a : ℕ) → a < ram_end → begins marks.new a ≡ begins marks.old a }
    ensures lies { (a : ℕ) → a < ram_end → lies marks.new a ≡ (lies marks.old a || address == a) }
    ensures blocks { BlocksBy blocked.new (addresses_below ram_end (lies marks.new)) }
{
    mark_code(marks, address);
    block(blocked, address as u16);
}

// Marks the bytes of code from one address up to another.
fn mark_bytes(marks: &mut [u8], blocked: &mut [bool; Service::COUNT], start: usize, end: usize)
    requires started { AreStarted marks.old }
    requires order { start ≤ end }
    requires within { end ≤ ram_end }
    requires blocks { BlocksBy blocked.old (addresses_below ram_end (lies marks.old)) }
    ensures started { AreStarted marks.new }
    ensures begins { (a : ℕ) → a < ram_end → begins marks.new a ≡ begins marks.old a }
    ensures lies { (a : ℕ) → a < ram_end → lies marks.new a ≡ (lies marks.old a || (nat_le start a && nat_lt a end)) }
    ensures blocks { BlocksBy blocked.new (addresses_below ram_end (lies marks.new)) }
{
    for address in start..end {
        mark_byte(marks, blocked, address);
    }
}

// Marks an instruction of this many bytes; bytes beyond RAM are left out.
#[tactic(auto, using(crate::proofs::Guarding::same_addresses))]
fn mark_instruction(marks: &mut [u8], marked: &mut Marked, address: u16, bytes: u16)
    requires started { AreStarted marks.old }
    requires ends { BeginOnlyBelow marks.old marked.old.end }
    requires blocks { BlocksBy marked.old.blocked (addresses_below ram_end (lies marks.old)) }
    ensures started { AreStarted marks.new }
    ensures ends { BeginOnlyBelow marks.new marked.new.end }
    ensures begins { (a : ℕ) → a < ram_end → begins marks.new a ≡ (begins marks.old a || address == a) }
    ensures lies { (a : ℕ) → a < ram_end → lies marks.new a
        ≡ (lies marks.old a || (nat_le address a && nat_lt a (address + bytes))) }
    ensures blocks { BlocksBy marked.new.blocked (addresses_below ram_end (lies marks.new)) }
{
    if address < RAM_END {
        let start = usize::from(address);
        let end = start + usize::from(bytes);
        let end = end.min(usize::from(RAM_END));
        mark_begin(marks, start);
        mark_bytes(marks, &mut marked.blocked, start, end);
        if marked.end <= address {
            marked.end = address + 1;
        }
    }
}

// Sets the marks for a program's instruction statements, and returns what belongs to them.
#[tactic(auto, using(crate::proofs::Marking::any_none, crate::proofs::CodeGuarding::first_started, crate::proofs::CodeGuarding::first_lies, crate::proofs::CodeGuarding::first_begins, crate::proofs::CodeGuarding::first_ends, crate::proofs::CodeGuarding::none_blocked))]
fn mark_statements(marks: &mut [u8], statements: &[Statement]) -> Marked
    requires { length marks.old ≡ 65536 }
    ensures started { AreStarted marks.new }
    ensures begins { (a : ℕ) → a < ram_end → begins marks.new a ≡ list_any (begins_at a) statements.now }
    ensures lies { (a : ℕ) → a < ram_end → lies marks.new a ≡ is_code statements.now a }
    ensures ends { BeginOnlyBelow marks.new result.end }
    ensures blocks { BlocksBy result.blocked (addresses_below ram_end (lies marks.new)) }
{
    reset_marks(marks, false);
    let mut marked = Marked {
        end: 0,
        ..UNGUARDED
    };
    for statement in statements {
        if statement.instr.is_some() {
            mark_instruction(marks, &mut marked, statement.addr, statement.length);
        }
    }
    marked
}

// Does the same in a machine's own marks.
fn mark_all<A: Allocator>(marks: &mut Vec<u8, A>, statements: &[Statement]) -> Marked
    requires { length marks.old.items ≡ 65536 }
    ensures started { AreStarted marks.new.items }
    ensures begins { (a : ℕ) → a < ram_end → begins marks.new.items a ≡ list_any (begins_at a) statements.now }
    ensures lies { (a : ℕ) → a < ram_end → lies marks.new.items a ≡ is_code statements.now a }
    ensures ends { BeginOnlyBelow marks.new.items result.end }
    ensures blocks { BlocksBy result.blocked (addresses_below ram_end (lies marks.new.items)) }
{
    mark_statements(marks.as_mut_slice(), statements)
}

// Sets the marks to those without a guard.
fn free_all<A: Allocator>(marks: &mut Vec<u8, A>)
    requires { length marks.old.items ≡ 65536 }
    ensures size { length marks.new.items ≡ 65536 }
    ensures first { (a : ℕ) → a < 65536 → slice_index marks.new.items a ≡ first_mark true a }
{
    reset_marks(marks.as_mut_slice(), true);
}

// Returns this many copies of a byte.
fn filled<A: Allocator>(alloc: A, byte: u8, count: usize) -> Result<Vec<u8, A>, AllocError>
    ensures size { IfOk result (λ bytes. length bytes.items ≡ count) }
    ensures alike { IfOk result (λ bytes. (a : ℕ) → a < count → slice_index bytes.items a ≡ byte) }
{
    vec![in alloc; byte; count]
}

// Returns the marks without a guard: all equal except the last ones.
fn free_marks<A: Allocator>(alloc: A) -> Result<Vec<u8, A>, AllocError>
    ensures size { IfOk result (λ marks. length marks.items ≡ 65536) }
    ensures first { IfOk result (λ marks. (a : ℕ) → a < 65536 → slice_index marks.items a ≡ first_mark true a) }
{
    let mut marks = filled(alloc, BEGINS, ADDRESSES)?;
    reset_last_marks(marks.as_mut_slice(), true);
    Ok(marks)
}

impl<A: Allocator> CodeGuard<A> {
    /// Returns a value without a guard. Fails only if memory runs out.
    pub fn new(alloc: A) -> Result<CodeGuard<A>, AllocError>
        ensures { IfOk result (λ guard. guard ≡ None) }
    {
        Ok(CodeGuard {
            marks: free_marks(alloc)?,
            marked: UNGUARDED,
            on: false,
        })
    }

    /// Sets the guard of a program.
    #[tactic(auto, using(crate::proofs::Guarding::guard_same, crate::proofs::CodeGuarding::started_marks, crate::proofs::CodeGuarding::started_above), unfolding(crate::specs::Marks::guard_of))]
    pub fn set<C: Allocator>(&mut self, program: &Program<C>)
        ensures { self.new ≡ Some (guard_of_program program.now) }
    {
        self.marked = mark_all(&mut self.marks, program.statements());
        self.on = true;
    }

    /// Removes the guard.
    pub fn free(&mut self)
        ensures { self.new ≡ None }
    {
        if self.on {
            free_all(&mut self.marks);
            self.marked = UNGUARDED;
            self.on = false;
        }
    }

    /// Makes this guard equal to another.
    pub fn copy_from<C: Allocator>(&mut self, other: &CodeGuard<C>)
        ensures { self.new ≡ other.now }
    {
        self.marks
            .as_mut_slice()
            .copy_from_slice(other.marks.as_slice());
        self.marked = other.marked;
        self.on = other.on;
    }

    /// Returns whether there is a guard.
    pub fn guards(&self) -> bool
        ensures { result ≡ is_some self.now }
    {
        self.on
    }

    /// Returns whether an instruction may begin at an address.
    #[inline(always)]
    pub fn admits(&self, address: u16) -> bool
        ensures { result ≡ admits_of self.now address }
    {
        has_begin(self.marks[address as usize])
    }

    /// Returns the end of the addresses of RAM where an instruction may begin, 0 to $C000.
    #[inline(always)]
    pub fn end(&self) -> u16
        ensures { (a : ℕ) → a < ram_end → admits_of self.now a ≡ true → a < result }
    {
        self.marked.end
    }

    /// Returns the marks, one byte for each address, which a burst of plain steps can rely on.
    #[inline(always)]
    pub fn marks(&self) -> &[u8]
        ensures { ArePlainMarks self.now result.now }
    {
        self.marks.as_slice()
    }

    /// Returns whether a service may store at a protected address.
    pub fn blocks(&self, service: Service) -> bool
        ensures { result ≡ list_any (reach_of service) (protected_by self.now) }
    {
        self.marked.blocked[service as usize]
    }
}

impl<A: Allocator> Protection for CodeGuard<A> {
    ghost use Rattle.a2_machine.specs.Outcome.{protected_by};
    ghost use Rattle.a2_text.specs.Bytes.{is_among};

    ghost is_protected = { λ w. is_among (protected_by w) };

    #[inline(always)]
    fn is_protected(&self, address: u16) -> bool {
        self.marks[address as usize] & CODE != 0
    }
}
