//! Why a list isn't read.

/// Why a list isn't read as that of a call or of an expansion. "Such a list" is one that spells a value of the kind
/// that is read.
#[derive(Clone, Copy, Debug, PartialEq, Eq)]
pub enum ReadRefusal {
    /// The whole list, of this length, begins such a list and is shorter.
    Short(u8),
    /// This place is the first at which no such list goes on, with the symbol there, and isn't that of the error check
    /// character.
    Outside(u8, u8),
    /// This place is the first at which no such list goes on, and is that of the error check character.
    Check { n: u8, want: u8, got: u8 },
}
