//! Why bytes are no sentence.

/// Why bytes are no sentence, in the order in which it is found out (this project's profile).
#[derive(Clone, Copy, Debug, PartialEq, Eq)]
pub enum SentenceRefusal {
    /// There are more than 82 bytes, so many.
    TooLong(usize),
    /// They don't begin with the head of the sentence and a comma.
    Start,
    /// They don't end with `*`, two capital hexadecimal digits, CR and LF, or a byte between the `$` and the `*` is one
    /// of these two or outside 32 to 126.
    End,
    /// The checksum is another one than the one that is written.
    Checksum { want: u8, got: u8 },
    /// There are so many fields, which no such sentence has.
    FieldCount(usize),
    /// This field, counted from 1, is the first that isn't accepted.
    Field(usize),
}
