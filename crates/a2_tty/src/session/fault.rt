//! Why a session ends before its input does.

ghost use Rattle.std.specs.Prelude.{◌≡◌};

use a2_stream::{ReadFault, WriteFault};

/// Why a session ends before its input does.
#[derive(Clone, Copy)]
pub enum TalkFault {
    /// A read failed.
    Read,
    /// A write failed.
    Write,
    /// There were 2^64 - 1 lines, or 2^64 - 1 bytes in one line, without an end.
    Endless,
}

impl From<ReadFault> for TalkFault {
    ghost use Rattle.a2_tty.specs.declared.session.fault.TalkFault.TheVariants.{Read};

    ghost from_gives = { λ _ e. e ≡ Read };

    fn from(_fault: ReadFault) -> TalkFault {
        TalkFault::Read
    }
}

impl From<WriteFault> for TalkFault {
    ghost use Rattle.a2_tty.specs.declared.session.fault.TalkFault.TheVariants.{Write};

    ghost from_gives = { λ _ e. e ≡ Write };

    fn from(_fault: WriteFault) -> TalkFault {
        TalkFault::Write
    }
}
