//! What an instruction works on: a bus, or RAM by itself.

ghost use Rattle.std.specs.Prelude.{ℕ, List, ◌≡◌, ◌<◌, ◌+◌};
ghost use Rattle.std.proofs.Common.{arith};
ghost use Rattle.a2_bus.specs.Access.{Access, bytes_access};
ghost use Rattle.a2_bus.specs.BusState.{BusState};
ghost use Rattle.a2_bus.specs.Memory.{ram_end};

use crate::Bus;
use a2_hex::RAM_END;

/// RAM by itself: the bytes at $0000 to $BFFF.
pub type Ram = [u8; RAM_END as usize];

/// A memory whose bytes instructions load and store.
pub trait Memory {
    /// What contracts see of a memory.
    ghost Seen: { Type 0 };

    /// What they see of this one.
    ghost seen: { Self → Seen };

    /// What its loads return, and the state that its loads and stores leave.
    ghost access: { Access Seen };

    /// The addresses that it has.
    ghost Has: { ℕ → Type 0 };

    /// Loads the byte at `address`, which must be an address that it has. The load may change a device.
    fn load(&mut self, address: u16) -> u8
        requires { Has address }
        ensures value { result ≡ access.byte_at (seen self.old) address }
        ensures left { seen self.new ≡ access.after_read (seen self.old) address };

    /// Stores `byte` at `address`, which must be an address that it has. The store may change a device.
    fn store(&mut self, address: u16, byte: u8)
        requires { Has address }
        ensures { seen self.new ≡ access.after_write (seen self.old) address byte };

    /// It has the stack, which is page 1.
    ghost stack: { (s : ℕ) → s < 256 → Has (256 + s) };
}

/// A bus has every address.
impl<B: Bus> Memory for B {
    ghost Seen = { BusState };

    ghost seen = { B.state };

    ghost access = { B.Bus.access };

    ghost Has = { λ address. Unit {0} };

    #[inline(always)]
    fn load(&mut self, address: u16) -> u8 {
        self.read(address)
    }

    #[inline(always)]
    fn store(&mut self, address: u16, byte: u8) {
        self.write(address, byte);
    }

    ghost stack = { λ s low. tt };
}

/// RAM has only the addresses of its bytes, and no devices.
impl Memory for Ram {
    ghost Seen = { List ℕ };

    ghost seen = { λ ram. ram };

    ghost access = { bytes_access };

    ghost Has = { λ address. address < ram_end };

    #[inline(always)]
    fn load(&mut self, address: u16) -> u8 {
        self[address as usize]
    }

    #[inline(always)]
    fn store(&mut self, address: u16, byte: u8) {
        self[address as usize] = byte;
    }

    ghost stack = { λ s low. omega (arith, low) };
}
