//! The table of services: the name and address of each, what it needs, where it may store, how long it takes, which registers
//! it reads and sets, and what it does on the screen.

ghost use Rattle.std.specs.Prelude.{◌≡◌, ◌≤◌, length};
ghost use Rattle.a2_services.specs.Rows.{service_row as row_by, service_name as name_of};
ghost use Rattle.a2_services.specs.Services.{service_at as service_at_of};

use a2_bus::locations::{COUT1, KEYIN};

/// A service of the Monitor. A hook takes 5 cycles, WAIT a number that depends on A, and every other service 6 (this project's
/// profile).
///
/// The output services are COUT1, HOME, PRBYTE, PRHEX and GETLN. They work in the window given by $20 to $23: its left edge,
/// its width, its top row and the row below its last. When such a service ends, it stores the address of the window's left edge
/// in the cursor's row at $28 and $29. The cursor is in column $24 of the window and in row $25 of the screen.
///
/// Lo-res blocks lie on page 1 in 48 rows of 40. A block takes its colour from $30: the low four bits in rows 0, 2, 4 and so
/// on, the high four bits in the other rows.
#[derive(Clone, Copy, Debug, PartialEq, Eq)]
pub enum Service {
    /// COUT, $FDED, a hook: sends the character in A through the output hook. PC becomes the 16-bit word at $36 and $37.
    Cout,
    /// COUT1, $FDF0: puts the byte in A at the cursor. A byte of $A0 or above is first masked with the byte at $32. $8D is a
    /// return, $8A a line feed and $88 a backspace; other bytes from $80 to $9F do nothing.
    Cout1,
    /// CROUT, $FD8E, a hook: sends a return through the output hook. A = $8D, and PC becomes the 16-bit word at $36 and $37.
    Crout,
    /// HOME, $FC58: clears the window and puts the cursor at its top left.
    Home,
    /// PRBYTE, $FDDA: puts A as two hexadecimal digits, with capital letters and bit 7 set.
    Prbyte,
    /// PRHEX, $FDE3: puts the low four bits of A as one hexadecimal digit, with capital letters and bit 7 set.
    Prhex,
    /// SETINV, $FE80: makes the text that follows inverse. Stores $3F in $32, the mask that is applied to characters.
    Setinv,
    /// SETNORM, $FE84: makes the text that follows normal. Stores $FF in $32, the mask that leaves characters unchanged.
    Setnorm,
    /// VTAB, $FC22: stores the address of the window's left edge in the cursor's row at $28 and $29.
    Vtab,
    /// CLREOL, $FC9C: clears the cursor's row from the cursor to the window's right edge.
    Clreol,
    /// CLREOP, $FC42: clears the window from the cursor on: the rest of the cursor's row and the rows below. Stores in $28 and
    /// $29 as VTAB does.
    Clreop,
    /// RDKEY, $FD0C, a hook: asks the input hook for a key. PC becomes the 16-bit word at $38 and $39.
    Rdkey,
    /// KEYIN, $FD1B: takes the first waiting key and sets A to that key with bit 7 set.
    Keyin,
    /// GETLN, $FD6A: puts the prompt stored in $33 and takes keys up to a return. It leaves the line at $0200 and sets X to its
    /// length without the return.
    ///
    /// A key stands for its own code with bit 7 set, and the right arrow for the byte under the cursor. A byte of $E0 or above
    /// loses $20, so small letters become capitals. Keys are echoed unmasked. The left arrow removes the last byte; on an empty
    /// line it puts a return and the prompt. Control X, or the 256th byte, puts `\`, a return and the prompt, and the line
    /// starts again. The return clears the cursor's row from the cursor to the window's right edge and is then put itself.
    Getln,
    /// WAIT, $FCA8: waits and sets A to 0. It takes (14 + 27a + 5a²) / 2 cycles, where a is A before the call, or 167,293
    /// cycles if a is 0.
    Wait,
    /// SETCOL, $F864: sets the colour of blocks in all rows. $30 = 17 times the low four bits of A.
    Setcol,
    /// PLOT, $F800: colours the block in row A, column Y.
    Plot,
    /// HLINE, $F819: colours the blocks in row A from column Y to the column in $2C, or only the one in column Y if that is
    /// greater.
    Hline,
    /// VLINE, $F828: colours the blocks in column Y from row A to the row in $2D, or only the one in row A if that is greater.
    Vline,
    /// SCRN, $F871: sets A to the colour, 0 to 15, of the block in row A, column Y.
    Scrn,
    /// CLRSCR, $F832: makes all blocks black. $30 = 0 and $2D = 47.
    Clrscr,
}

/// What a service needs of the window, the cursor, the keys and the registers.
#[derive(Clone, Copy)]
pub enum Needs {
    Nothing,
    /// A window that lies on the screen.
    Window,
    /// A window and a cursor that lie on the screen.
    Cursor,
    /// A waiting key.
    Key,
    /// A window and a cursor that lie on the screen, and a waiting line of keys.
    Line,
    /// A row of blocks in A and a column of blocks in Y.
    Block,
    /// The same as `Block`, and a column in H2.
    Across,
    /// The same as `Block`, and a row in V2.
    Down,
}

/// Where a service may store.
#[derive(Clone, Copy)]
pub enum Reach {
    Nowhere,
    /// The cursor's position, the base address and page 1.
    Screen,
    /// The same as `Screen`, and the line that GETLN reads.
    ScreenAndLine,
    /// The mask applied to characters.
    Mask,
    /// The base address.
    Base,
    /// Page 1.
    Page,
    /// The base address and page 1.
    BaseAndPage,
    /// The colour of blocks.
    Color,
    /// The colour of blocks, V2 and page 1.
    Graphics,
}

/// How long a service takes.
#[derive(Clone, Copy)]
pub enum Takes {
    /// 5 cycles: a jump through the output hook.
    OutputHook,
    /// 5 cycles: a jump through the input hook.
    InputHook,
    /// 6 cycles.
    Six,
    /// The cycles of WAIT, which depend on A.
    Wait,
}

/// A set of registers among A, X and Y.
#[derive(Clone, Copy)]
pub enum RegisterSet {
    Empty,
    A,
    X,
    AAndY,
}

/// What a service does with the cells of page 1.
#[derive(Clone, Copy)]
pub enum OnScreen {
    Nothing,
    /// Puts the byte in A.
    PutsByte,
    /// Puts A as two hexadecimal digits.
    PutsDigits,
    /// Puts the low four bits of A as one hexadecimal digit.
    PutsDigit,
    /// Puts the prompt and the line that is typed.
    ReadsLine,
    /// Clears the window.
    ClearsWindow,
    /// Clears the cursor's row from the cursor to the window's right edge.
    ClearsToEnd,
    /// Does the same, and clears the rows of the window below.
    ClearsBelow,
    /// Colours the block in row A, column Y.
    PaintsBlock,
    /// Colours the block in row A, column Y, and those up to the column in H2.
    PaintsAcross,
    /// Colours the block in row A, column Y, and those up to the row in V2.
    PaintsDown,
    /// Reads the block in row A, column Y.
    LooksAtBlock,
    /// Makes all blocks black.
    ClearsBlocks,
}

/// The row of a service in the table.
#[derive(Clone, Copy)]
pub struct Row {
    pub address: u16,
    pub needs: Needs,
    pub reach: Reach,
    pub takes: Takes,
    pub looks_at: RegisterSet,
    pub sets: RegisterSet,
    pub on_screen: OnScreen,
}

// The services that `service_at` tries first.
const COUT: u16 = 0xFDED;

const PLOT: u16 = 0xF800;

// Passes the table of services to a macro. A row holds the service, its name, its address, what it needs, where it may store,
// how long it takes, which registers it reads and sets, and what it does on the screen.
macro_rules! services {
    ($make:ident $($of:ident)?) => {
        $make!($($of)?;
            Cout b"COUT" COUT Nothing Nowhere OutputHook Empty Empty Nothing,
            Cout1 b"COUT1" COUT1 Cursor Screen Six A Empty PutsByte,
            Crout b"CROUT" 0xFD8E Nothing Nowhere OutputHook Empty A Nothing,
            Home b"HOME" 0xFC58 Window Screen Six Empty Empty ClearsWindow,
            Prbyte b"PRBYTE" 0xFDDA Cursor Screen Six A Empty PutsDigits,
            Prhex b"PRHEX" 0xFDE3 Cursor Screen Six A Empty PutsDigit,
            Setinv b"SETINV" 0xFE80 Nothing Mask Six Empty Empty Nothing,
            Setnorm b"SETNORM" 0xFE84 Nothing Mask Six Empty Empty Nothing,
            Vtab b"VTAB" 0xFC22 Cursor Base Six Empty Empty Nothing,
            Clreol b"CLREOL" 0xFC9C Cursor Page Six Empty Empty ClearsToEnd,
            Clreop b"CLREOP" 0xFC42 Cursor BaseAndPage Six Empty Empty ClearsBelow,
            Rdkey b"RDKEY" 0xFD0C Nothing Nowhere InputHook Empty Empty Nothing,
            Keyin b"KEYIN" KEYIN Key Nowhere Six Empty A Nothing,
            Getln b"GETLN" 0xFD6A Line ScreenAndLine Six Empty X ReadsLine,
            Wait b"WAIT" 0xFCA8 Nothing Nowhere Wait A A Nothing,
            Setcol b"SETCOL" 0xF864 Nothing Color Six A Empty Nothing,
            Plot b"PLOT" PLOT Block Page Six AAndY Empty PaintsBlock,
            Hline b"HLINE" 0xF819 Across Page Six AAndY Empty PaintsAcross,
            Vline b"VLINE" 0xF828 Down Page Six AAndY Empty PaintsDown,
            Scrn b"SCRN" 0xF871 Block Nowhere Six AAndY A LooksAtBlock,
            Clrscr b"CLRSCR" 0xF832 Nothing Graphics Six Empty Empty ClearsBlocks
        )
    };
}

macro_rules! rows {
    ($of:ident; $($service:ident $name:literal $address:tt $needs:ident $reach:ident $takes:ident $looks_at:ident $sets:ident $on_screen:ident),*) => {
        match $of {
            $(Service::$service => Row {
                address: $address,
                needs: Needs::$needs,
                reach: Reach::$reach,
                takes: Takes::$takes,
                looks_at: RegisterSet::$looks_at,
                sets: RegisterSet::$sets,
                on_screen: OnScreen::$on_screen,
            }),*
        }
    };
}

macro_rules! places {
    ($of:ident; $($service:ident $name:literal $address:tt $($rest:ident)*),*) => {
        match $of { $($address => Some(Service::$service),)* _ => None }
    };
}

macro_rules! names {
    ($of:ident; $($service:ident $name:literal $address:tt $($rest:ident)*),*) => {
        match $of { $(Service::$service => $name),* }
    };
}

macro_rules! all {
    (; $($service:ident $name:literal $address:tt $($rest:ident)*),*) => {
        [$(Service::$service),*]
    };
}

/// Returns the row of a service. The addresses come from the Apple II Reference Manual (1979), chapter 3; everything else is
/// this project's profile.
#[inline(always)]
pub fn row_of(service: Service) -> Row
    ensures { result ≡ row_by service }
{
    services!(rows service)
}

/// Returns the service at an address from 0 to $FFFF, or `None` if there is no service at it. Apple II Reference Manual (1979),
/// chapter 3, "Some useful Monitor subroutines".
#[inline(always)]
#[tactic(auto, unfolding(crate::specs::Services::service_at))]
pub fn service_at(address: u16) -> Option<Service>
    ensures { result ≡ service_at_of address }
{
    match address {
        COUT => Some(Service::Cout),
        COUT1 => Some(Service::Cout1),
        PLOT => Some(Service::Plot),
        _ => search_at(address),
    }
}

// The same, without trying any service first. (Not inlined: the compiler would merge both matches into one search, in which the
// services tried first take longer.)
#[inline(never)]
#[tactic(auto, unfolding(crate::specs::Services::service_at))]
fn search_at(address: u16) -> Option<Service>
    ensures { result ≡ service_at_of address }
{
    services!(places address)
}

impl Service {
    /// The number of services.
    pub const COUNT: usize = services!(all).len();

    /// All services, in the order of their numbers.
    pub const ALL: [Service; Service::COUNT] = services!(all);

    /// Returns the service's name in the Monitor, in capitals: 4 to 7 letters and digits. Apple II Reference Manual (1979),
    /// chapter 3, "Some useful Monitor subroutines".
    pub fn name(self) -> &'static [u8]
        ensures name { result.now ≡ name_of self }
        ensures short { length result.now ≤ 7 }
    {
        services!(names self)
    }
}
