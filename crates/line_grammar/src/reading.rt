//! Reading words and digits of a line, and the column of a fault.
ghost use Rattle.std.specs.Prelude.{◌≡◌, ◌+◌, ◌≤◌, ◌<◌, ◌^◌, length, IfOk, IfErr, OnOk, Ok, Err};
ghost use Rattle.std.specs.List.{prefix_len};
ghost use Rattle.line_grammar.specs.Grammar.{none};
ghost use Rattle.line_grammar.specs.Tokens as tokens;
ghost use Rattle.line_grammar.specs.inside.Reading as readers;
ghost use Rattle.line_grammar.specs.inside.Reading.{after, ended, read_token};

/// How many bytes of a text were left to read at its fault: from where it leaves what its grammar has, 0 where it ends
/// too early.
pub type Left = usize;

/// Where a line is ill-formed: the least n for which its first n bytes begin no well-formed line, and its length plus one
/// where it ends too early.
pub type Column = usize;

/// What follows a word at the front of these bytes.
pub fn word<'a>(text: &[u8], bytes: &'a [u8]) -> Result<&'a [u8], Left>
    ensures rest { IfOk result (λ rest. after text.now bytes.now ≡ Ok rest.now) }
    ensures left { IfErr result (λ left. after text.now bytes.now ≡ Err left) }
{
    let mut rest = bytes;
    for c in text {
        let Some((b, back)) = rest.split_first() else {
            return Err(0);
        };
        if b != c {
            return Err(rest.len());
        }
        rest = back;
    }
    Ok(rest)
}

/// The same as `word`, for a word that is nearly always there. It compares the word whole, and goes byte by byte only
/// where another is there. Where the word is a constant, the comparison folds.
#[inline(always)]
pub fn whole_word<'a>(text: &[u8], bytes: &'a [u8]) -> Result<&'a [u8], Left>
    ensures rest { IfOk result (λ rest. after text.now bytes.now ≡ Ok rest.now) }
    ensures left { IfErr result (λ left. after text.now bytes.now ≡ Err left) }
{
    match bytes.strip_prefix(text) {
        Some(rest) => Ok(rest),
        None => word(text, bytes),
    }
}

/// Whether the first byte is one of these letters.
pub fn begins_with(letters: &[u8], bytes: &[u8]) -> bool
    ensures { result ≡ readers.begins_with letters.now bytes.now }
{
    match bytes.first() {
        Some(first) => letters.contains(first),
        None => false,
    }
}

/// How many of the first bytes are such signs, one after the other.
fn run_length(signs: &[u8], bytes: &[u8]) -> usize
    ensures length { result ≡ prefix_len (tokens.is_one_of signs.now) bytes.now }
    ensures most { result ≤ length bytes.now }
{
    bytes.iter().take_while(|b| signs.contains(*b)).count()
}

/// A run of these signs at the front of these bytes, as far as it goes, and what follows it.
pub fn run<'a>(signs: &[u8], bytes: &'a [u8]) -> Result<(&'a [u8], &'a [u8]), Left>
    ensures parts { IfOk result (λ parts. read_token (tokens.run signs.now) bytes.now ≡ Ok (parts.0.now, parts.1.now)) }
    ensures left { IfErr result (λ left. read_token (tokens.run signs.now) bytes.now ≡ Err left) }
{
    let n = run_length(signs, bytes);
    if n == 0 {
        return Err(bytes.len());
    }
    Ok(bytes.split_at(n))
}

/// Whether the line ends there.
pub fn end(bytes: &[u8]) -> Result<(), Left>
    ensures end { OnOk result (ended bytes.now ≡ Ok none) }
    ensures left { IfErr result (λ left. ended bytes.now ≡ Err left) }
{
    if bytes.is_empty() {
        Ok(())
    } else {
        Err(bytes.len())
    }
}

/// The answer of two that is no fault, or else the further fault. By reference, since the borrow checker has no rule
/// for a call that takes by value a `Result` of a value with an invariant beside the bytes that follow it.
pub fn further<T: Copy>(first: &Result<T, Left>, second: &Result<T, Left>) -> Result<T, Left>
    ensures { result ≡ readers.further first.now second.now }
{
    match (first, second) {
        (Ok(value), _) | (Err(_), Ok(value)) => Ok(*value),
        (Err(left), Err(right)) => Err(*left.min(right)),
    }
}

/// The column of a fault, by the bytes of its line.
pub fn column(bytes: &[u8], left: Left) -> Column
    requires left { left ≤ length bytes.now }
    requires fits { length bytes.now < 2 ^ 63 }
    ensures { result + left ≡ length bytes.now + 1 }
{
    bytes.len() - left + 1
}
