//! What is asked for: where code begins, what parts of the image hold, and the names of places.

/// What a part of an image holds.
#[derive(Clone, Copy, Debug, PartialEq, Eq)]
pub enum Content {
    /// Instructions, one after another.
    Code,
    /// Bytes.
    Data,
    /// Characters.
    Text,
    /// Words of two bytes, the low one first.
    Words,
}

/// A part of an image, and what it holds.
#[derive(Clone, Copy, Debug, PartialEq, Eq)]
pub struct Part {
    /// The address of its first byte.
    pub first: u16,
    /// The address after its last byte.
    pub end: u16,
    pub content: Content,
}

/// A name of an address.
#[derive(Clone, Copy, Debug, PartialEq, Eq)]
pub struct NamedPlace<'a> {
    pub address: u16,
    /// A name of the language: a letter or `_`, then letters, digits and `_`.
    pub name: &'a [u8],
}

/// What is known of an image beside its bytes.
#[derive(Clone, Copy)]
pub struct Request<'a> {
    /// Where code begins.
    pub entries: &'a [u16],
    /// Where instructions began that a run executed.
    pub executed: &'a [u16],
    /// Where instructions begin that a run changed.
    pub changed: &'a [u16],
    pub parts: &'a [Part],
    /// The names of addresses. If an address is given twice, its last name counts.
    pub names: &'a [NamedPlace<'a>],
    /// Lines that are kept as comments.
    pub remarks: &'a [&'a [u8]],
}
