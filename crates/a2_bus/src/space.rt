//! What the processor reads and writes: RAM, a keyboard and display switches. Apple II Reference Manual (1979), the
//! memory map and pages 6, 12 and 79.

ghost use Rattle.std.specs.Prelude.{◌≡◌, ◌<◌, ◌≤◌, ◌++◌, ◌∷◌, [], ◌+◌, ◌%◌, ℕ, length, All, IfOk, IsOk, OnErr, OnOk, ◌↔◌, List, None, slice_index, slice_range, replicate, unwrap_or, true, false};
ghost use Rattle.a2_bus.specs.Devices.{Devices, keyboard_byte, key_taken, device_byte, after_access, keys_typed, switched};
ghost use Rattle.a2_bus.specs.BusState.{BusState};
ghost use Rattle.a2_bus.specs.View.{memory_of};
ghost use Rattle.a2_bus.specs.PowerOn.{first_byte, first_devices, start_memory};
ghost use Rattle.a2_hex.specs.Images.{held};
ghost use Rattle.a2_page.specs.Grid.{with_part};
ghost use Rattle.a2_page.specs.Picture.{page_grid};
ghost use Rattle.a2_bus.specs.Memory.{ram_end};

use crate::Bus;
use crate::keys::{Keys, KeysFull};
use crate::locations::{HIRES, HISCR, KBD, KBDSTRB, LORES, LOWSCR, MIXCLR, MIXSET, TXTCLR, TXTSET};
use crate::start::{put_first_bytes, put_image};
use crate::zeros::zeroed;
use a2_hex::{Image, RAM_END};
use a2_page::{Switches, View};
use arrayvec::ArrayVec;
use std::alloc::{AllocError, Allocator, Global};
use std::marker::Model;

// How many bytes of RAM are copied at a time.
const PIECE: usize = 3072;

// Text mode, page 1.
const FIRST_SWITCHES: Switches = Switches {
    text: true,
    mixed: false,
    page2: false,
    hires: false,
};

/// The machine's 48K of RAM from address 0, its keyboard at $C000 and $C010, and its display switches at $C050 to
/// $C057. At any other address a read gives 0 and a write has no effect. Contracts see the bytes of RAM, the switches,
/// the waiting keys (at most 4,096, each from 0 to 127) and the last key taken.
pub struct AddressSpace<A: Allocator = Global> {
    ram: Vec<u8, A>,
    keys: ArrayVec<u8, 4096>,
    last_key: u8,
    switches: Switches,
}

// Not derived, because the prover sees this drop as one call, and a derived one as a call for each field.
impl<A: Allocator> Drop for AddressSpace<A> {
    fn drop(self) {
        let AddressSpace {
            ram: _,
            keys: _,
            last_key: _,
            switches: _,
        } = self;
    }
}

impl<A: Allocator> Model for AddressSpace<A> {
    ghost use Rattle.std.specs.Prelude.{◌≡◌, ◌<◌, length, ℕ, All};
    ghost use Rattle.a2_bus.specs.BusState.{BusState};
    ghost use Rattle.a2_bus.specs.Memory.{ram_end};

    ghost Value = { BusState };

    ghost view = { λ b. record {
      bytes = b.ram.items;
      devices = record { switches = b.switches; keys = b.keys.items; last_key = b.last_key };
    } };

    ghost invariant = { λ b. (length b.ram.items ≡ ram_end) × All (λ k. k < 128) b.keys.items };
}

impl<A: Allocator> AddressSpace<A> {
    ghost use Rattle.std.specs.Borrow.{sem, follows, Array, u8 as byte};
    ghost use Rattle.a2_bus.specs.contracts.space.AddressSpace.{the_row};
    ghost use Rattle.a2_bus.specs.Lending.{with_bytes};

    /// Returns the machine at its start, with nothing loaded, and with its RAM in memory of `alloc`. Page 1 is blank,
    /// the window is the whole screen, the cursor is at its top left, the screen shows the text of page 1, and no key
    /// waits. This project's profile. Fails only if memory runs out.
    pub fn new(alloc: A) -> Result<AddressSpace<A>, AllocError>
        ensures memory { IfOk result (λ b. memory_of b ≡ start_memory (λ _. None) []) }
        ensures bytes { IfOk result (λ b. (a : ℕ) → a < ram_end → slice_index b.bytes a ≡ first_byte a) }
        ensures devices { IfOk result (λ b. b.devices ≡ first_devices []) }
        ensures size { IfOk result (λ b. length b.bytes ≡ ram_end) }
    {
        let mut ram = zeroed(alloc, usize::from(RAM_END))?;
        put_first_bytes(&mut ram);
        Ok(AddressSpace {
            ram,
            keys: ArrayVec::new(),
            last_key: 0,
            switches: FIRST_SWITCHES,
        })
    }

    /// Resets this to the machine at its start, whatever its state was, with `image` laid over its RAM. Each address
    /// holds the image's byte, or the byte of the start if the image has none. No key waits, and none was taken before.
    /// This project's profile.
    pub fn load<C: Allocator>(&mut self, image: &Image<C>)
        ensures memory { memory_of self.new ≡ start_memory (held image.now) [] }
        ensures bytes { (a : ℕ) → a < ram_end → slice_index self.new.bytes a ≡ unwrap_or (held image.now a) (first_byte a) }
        ensures devices { self.new.devices ≡ first_devices [] }
        ensures size { length self.new.bytes ≡ ram_end }
    {
        put_image(&mut self.ram, image);
        self.keys.clear();
        self.last_key = 0;
        self.switches = FIRST_SWITCHES;
    }

    /// Returns the keys that are still waiting, the next one first: at most 4,096, each from 0 to 127.
    pub fn waiting(&self) -> &[u8]
        ensures keys { result.now ≡ self.now.devices.keys }
        ensures codes { All (λ k. k < 128) self.now.devices.keys }
        ensures room { length self.now.devices.keys ≤ 4096 }
    {
        self.keys.as_slice()
    }

    /// Types `keys`, in order, after those that wait. Fails exactly if more than 4,096 would wait, and then nothing
    /// changes. This project's profile.
    pub fn type_keys(&mut self, keys: &Keys) -> Result<(), KeysFull>
        ensures room { IsOk result ↔ (length self.old.devices.keys + length keys.now ≤ 4096) }
        ensures typed { OnOk result (self.new ≡ record self.old { devices = keys_typed self.old.devices keys.now }) }
        ensures kept { OnErr result (self.new ≡ self.old) }
    {
        let typed = self.keys.try_extend_from_slice(keys.bytes());
        typed.map_err(|_| KeysFull)
    }

    /// Returns the byte that a read of the keyboard at $C000 gives: the first waiting key with bit 7 set, 128 to 255.
    /// If no key waits, it is the last key taken, or 0 if none was taken yet. Nothing changes. Apple II Reference
    /// Manual (1979), page 6.
    #[inline(always)]
    pub fn keyboard(&self) -> u8
        ensures { result ≡ keyboard_byte self.now.devices }
    {
        match self.keys.first() {
            Some(key) => 128 + *key,
            None => self.last_key,
        }
    }

    /// Takes the first waiting key, as an access to the keyboard's strobe at $C010 does. If no key waits, nothing
    /// changes. Apple II Reference Manual (1979), page 6.
    pub fn take_key(&mut self)
        ensures { self.new ≡ record self.old { devices = key_taken self.old.devices } }
    {
        if !self.keys.is_empty() {
            self.last_key = self.keys.remove(0);
        }
    }

    /// Makes this space equal to `other` in everything that contracts see of it: RAM, keys, the last key taken and
    /// switches.
    pub fn copy_from<C: Allocator>(&mut self, other: &AddressSpace<C>)
        ensures { self.new ≡ other.now }
    {
        copy_ram(self.ram.as_mut_slice(), other.ram.as_slice());
        self.keys.truncate(0);
        // `other` has at most as many waiting keys as there is room for here, so the call does not fail.
        let _ = self.keys.try_extend_from_slice(other.keys.as_slice());
        self.last_key = other.last_key;
        self.switches = other.switches;
    }

    /// Copies `count` bytes of RAM, starting at address `from`, to the addresses that start at `to`. No other byte
    /// changes. Both ranges are below $C000, and may overlap.
    pub fn move_bytes(&mut self, from: u16, to: u16, count: u16)
        requires from { from + count ≤ ram_end }
        requires to { to + count ≤ ram_end }
        ensures moved { self.new ≡ record self.old {
          bytes = with_part self.old.bytes to (slice_range self.old.bytes from (from + count));
        } }
        ensures size { length self.old.bytes ≡ ram_end }
    {
        let first = usize::from(from);
        let end = first + usize::from(count);
        self.ram.copy_within(first..end, usize::from(to));
    }

    /// Sets `count` bytes of RAM, starting at `address`, to `byte`. No other byte changes. The range is below $C000.
    pub fn fill_bytes(&mut self, address: u16, count: u16, byte: u8)
        requires { address + count ≤ ram_end }
        ensures filled { self.new ≡ record self.old { bytes = with_part self.old.bytes address (replicate count byte) } }
        ensures size { length self.old.bytes ≡ ram_end }
    {
        let first = usize::from(address);
        let end = first + usize::from(count);
        self.ram[first..end].fill(byte);
    }

    /// Returns RAM, the 49,152 bytes that start at address 0.
    pub fn ram(&self) -> &[u8]
        ensures bytes { result.now ≡ self.now.bytes }
        ensures size { length self.now.bytes ≡ ram_end }
    {
        self.ram.as_slice()
    }

    /// Returns the same bytes, for a caller that reads and stores only in RAM.
    pub fn ram_mut(&mut self) -> &mut [u8]
        ensures* writes_back { sem 𝓛 (follows (the_row A.row A.Allocator) (Array byte 0)
            self.entry.ghost_name result.ghost_name (with_bytes self.old)) }
        ensures bytes { result.now ≡ self.old.bytes }
        ensures size { length self.old.bytes ≡ ram_end }
    {
        self.ram.as_mut_slice()
    }

    /// Returns what a screen shows now: all bytes of both text pages, including those that are not cells, and the
    /// switches. Apple II Reference Manual (1979), pages 12 to 20.
    pub fn view(&self) -> View<'_>
        ensures bytes1 { result.page1.now ≡ slice_range self.now.bytes 0x0400 0x0800 }
        ensures bytes2 { result.page2.now ≡ slice_range self.now.bytes 0x0800 0x0C00 }
        ensures page1 { page_grid result.page1.now ≡ (memory_of self.now).page1 }
        ensures page2 { page_grid result.page2.now ≡ (memory_of self.now).page2 }
        ensures switches { result.switches ≡ self.now.devices.switches }
    {
        View {
            page1: page_at(&self.ram, 0x0400),
            page2: page_at(&self.ram, 0x0800),
            switches: self.switches,
        }
    }

    // The effect of any access to an address above RAM.
    #[cold]
    #[inline(never)]
    fn touch(&mut self, address: u16)
        ensures { self.new ≡ record self.old { devices = after_access self.old.devices address } }
    {
        match address {
            KBDSTRB => self.take_key(),
            TXTCLR => self.switches.text = false,
            TXTSET => self.switches.text = true,
            MIXCLR => self.switches.mixed = false,
            MIXSET => self.switches.mixed = true,
            LOWSCR => self.switches.page2 = false,
            HISCR => self.switches.page2 = true,
            LORES => self.switches.hires = false,
            HIRES => self.switches.hires = true,
            _ => {}
        }
    }

    // A read of an address above RAM.
    #[cold]
    #[inline(never)]
    fn read_above(&mut self, address: u16) -> u8
        ensures byte { result ≡ device_byte self.old.devices address }
        ensures left { self.new ≡ record self.old { devices = after_access self.old.devices address } }
    {
        let byte = if address == KBD { self.keyboard() } else { 0 };
        self.touch(address);
        byte
    }
}

// Copies other RAM into this one, piece by piece. A C library moves a large piece in a way that is slower if both ends
// are already in a nearby cache.
fn copy_ram(ram: &mut [u8], other: &[u8])
    requires ram { length ram.old ≡ ram_end }
    requires other { length other.now ≡ ram_end }
    ensures { ram.new ≡ other.now }
{
    for piece in 0..usize::from(RAM_END) / PIECE {
        let start = piece * PIECE;
        let end = start + PIECE;
        ram[start..end].copy_from_slice(&other[start..end]);
    }
}

// Returns the 1,024 bytes that start at an address.
fn page_at(ram: &[u8], start: usize) -> &[u8; 1024]
    requires { start + 1024 ≤ length ram.now }
    ensures { result.now ≡ slice_range ram.now start (start + 1024) }
{
    match ram[start..].first_chunk() {
        Some(page) => page,
        None => unreachable!(),
    }
}

#[tactic(auto, unfolding(crate::specs::BusState::board_access))]
impl<A: Allocator> Bus for AddressSpace<A> {
    ghost use Rattle.std.specs.Prelude.{◌≡◌, ◌≤◌, length, slice_get};
    ghost use Rattle.a2_bus.specs.BusState.{board_access};
    ghost use Rattle.a2_bus.specs.Lawful.{board_lawful};

    ghost state = { λ b. b };

    ghost access = { board_access };

    #[inline(always)]
    fn read(&mut self, address: u16) -> u8
        ensures value { result ≡ board_access.byte_at self.old address }
        ensures left { self.new ≡ board_access.after_read self.old address }
        ensures size { length self.old.bytes ≡ ram_end }
    {
        // Shows the prover how long RAM is before the access.
        let _ = &self.ram;
        if address < RAM_END {
            self.ram[address as usize]
        } else {
            self.read_above(address)
        }
    }

    #[inline(always)]
    fn write(&mut self, address: u16, byte: u8)
        ensures left { self.new ≡ board_access.after_write self.old address byte }
        ensures size { length self.old.bytes ≡ ram_end }
    {
        // Shows the prover how long RAM is before the access.
        let _ = &self.ram;
        if address < RAM_END {
            self.ram[address as usize] = byte;
        } else {
            self.touch(address);
        }
    }

    #[inline(always)]
    fn peek(&self, address: u16) -> Option<u8>
        ensures value { result ≡ slice_get self.now.bytes address }
        ensures room { 512 ≤ length self.now.bytes }
        ensures size { length self.now.bytes ≡ ram_end }
    {
        if address < RAM_END {
            Some(self.ram[address as usize])
        } else {
            None
        }
    }

    ghost laws = { board_lawful };
}
