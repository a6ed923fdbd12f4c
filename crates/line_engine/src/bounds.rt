//! The limits of an input, and the sizes of the engine's buffers.

/// An input has at most this many lines.
pub const MOST_LINES: usize = 65_536;

/// A line has at most this many bytes, without its line feed.
pub const LONGEST_LINE: usize = 4200;

/// How many bytes are asked of a source at once.
pub(crate) const PIECE: usize = 131_072;

/// As soon as so many bytes of text are pending, they are written.
pub(crate) const MOST_PENDING: usize = 65_536;

/// No more bytes than this are taken from a source: those of an input within the limits, and one piece.
pub const MOST_TAKEN: usize = MOST_LINES * (LONGEST_LINE + 1) + PIECE;
