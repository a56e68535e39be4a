//! Laws about the meaning of lines. The functions do nothing: their contracts are the laws.

ghost use Rattle.a2_monitor.specs.Laws.{EachLineHasReply, OneReply, StoresEachByte, StoresNoOther, MovesEachByte, MovesNoOther};

/// In every session state, each line has exactly one reply: one text, and one state after it.
pub fn each_line_has_one_reply()
    ensures each { EachLineHasReply }
    ensures one { OneReply }
{}

/// After bytes are stored in RAM, each of them is at its address, and every other byte is unchanged.
pub fn a_store_is_its_bytes()
    ensures each { StoresEachByte }
    ensures others { StoresNoOther }
{}

/// After a range is moved, each byte of the destination is the byte that was at its source, and every other byte is
/// unchanged. If the destination begins inside the range, the bytes before the destination are copied repeatedly.
pub fn a_move_is_its_sources()
    ensures each { MovesEachByte }
    ensures others { MovesNoOther }
{}
