//! Texts of all addresses, written one after another.

ghost use Rattle.std.specs.Prelude.{ℕ, List};
ghost use Rattle.a2_stream.specs.Stream.{SendsOrBreaks};
ghost use Rattle.a2_profile.specs.Table.{rows_from};

use crate::profile::ADDRESSES;
use a2_stream::{Output, WriteFault};

/// What is written of each address; it may be nothing.
pub(crate) trait ByAddress {
    /// The text of an address.
    ghost text: { Self → ℕ → List ℕ };

    /// Writes the text of an address.
    fn put<W: Output>(&self, address: u16, writer: &mut W) -> Result<(), WriteFault>
        ensures { SendsOrBreaks (W.taker writer.old) (W.taker writer.new) result (text self.now address) };
}

/// Writes the texts of all addresses.
pub(crate) fn put_each<T: ByAddress, W: Output>(texts: &T, writer: &mut W) -> Result<(), WriteFault>
    ensures { SendsOrBreaks (W.taker writer.old) (W.taker writer.new) result (rows_from (T.text texts.now) 0 65536) }
{
    for address in 0..ADDRESSES {
        texts.put(address as u16, writer)?;
    }
    Ok(())
}
