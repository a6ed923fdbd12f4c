//! The book of casualties: a set of rows.
ghost use Rattle.std.specs.Prelude.{◌≡◌, ◌↔◌, ◌++◌, ◌∷◌, false, IsTrue, IfOk, IfSome, OnOk, OnErr, Some, List, [], length, slice_get};
ghost use Rattle.std.specs.List.{Contains};
ghost use Rattle.line_grammar.specs.Bytes.{line_feed};
ghost use Rattle.dsc_sentences.specs.declared.dsc.DscFields.{DscFields};
ghost use Rattle.casualty_book.specs.Rows.{IsLawful};
ghost use Rattle.casualty_book.specs.Books.{HasAlsoOf, IsBook, IsUnion};
ghost use Rattle.casualty_book.specs.Sentences as rows;
ghost use Rattle.casualty_book.specs.Texts as texts;
ghost use Rattle.casualty_book.specs.inside.Packing.{unpack};
ghost use Rattle.casualty_book.specs.declared.rows.BookRow.{BookRow as Row};

use crate::packing::{Packed, pack, unpack};
use crate::rows::BookRow;
use crate::sentences::row_of;
use crate::texts::put_key;
use dsc_sentences::DscSentence;
use std::alloc::{AllocError, Global};
use std::collections::BTreeSet;
use std::marker::Model;

/// No row's text is longer than so many bytes, its LF among them.
const LONGEST_LINE: usize = 94;

/// A casualty book: a set of rows, seen as their rising list. It keeps their keys, which take less memory and time.
#[derive(Drop)]
pub struct Book {
    rows: BTreeSet<Packed>,
}

impl Model for Book {
    ghost use Rattle.std.specs.Prelude.{List};
    ghost use Rattle.casualty_book.specs.declared.rows.BookRow.{BookRow};
    ghost use Rattle.casualty_book.specs.inside.Packing.{rows_of, IsKept};

    ghost Value = { List BookRow };

    ghost view = { λ book. rows_of book.rows.keys };

    ghost invariant = { λ book. IsKept book.rows.keys };
}

impl Book {
    /// A book without rows. It takes no memory.
    pub fn new(alloc: Global) -> Book
        ensures { result ≡ [] }
    {
        Book {
            rows: BTreeSet::new(alloc),
        }
    }

    /// Puts a sentence's row into the book. True where it has one and it was not in the book. After false and after
    /// want of memory the book is unchanged.
    pub fn note(&mut self, s: &DscSentence) -> Result<bool, AllocError>
        ensures added { IfOk result (λ added. IsTrue added
            ↔ ((row : Row) × (rows.row_of s.now ≡ Some row) × (Contains self.old row → ⊥))) }
        ensures rows { OnOk result (HasAlsoOf self.old (rows.row_of s.now) self.new) }
        ensures kept { IfOk result (λ added. added ≡ false → self.new ≡ self.old) }
        ensures memory { OnErr result (self.new ≡ self.old) }
    {
        match row_of(s) {
            None => Ok(false),
            Some(row) => Ok(self.rows.insert(pack(&row))?),
        }
    }

    /// Makes the book the union of itself and another one. After want of memory the book is unchanged.
    pub fn merge(&mut self, other: &Book) -> Result<(), AllocError>
        ensures rows { OnOk result (IsUnion self.old other.now self.new) }
        ensures memory { OnErr result (self.new ≡ self.old) }
    {
        self.rows = (&self.rows | &other.rows)?;
        Ok(())
    }

    /// How many rows the book has.
    pub fn len(&self) -> usize
        ensures len { result ≡ length self.now }
        ensures book { IsBook self.now }
    {
        self.rows.len()
    }

    /// The row with this index in rising order, from 0; None from the length on.
    pub fn row(&self, i: usize) -> Option<BookRow>
        ensures row { result ≡ slice_get self.now i }
        ensures lawful { IfSome result IsLawful }
    {
        match self.rows.iter().nth(i) {
            Some(key) => Some(unpack(key)),
            None => None,
        }
    }

    /// Appends the text of each row, with LF, in rising order.
    pub fn append_text(&self, out: &mut Vec<u8>) -> Result<(), AllocError>
        ensures text { OnOk result (out.new.items ≡ out.old.items ++ texts.book_text self.now) }
        ensures book { IsBook self.now }
    {
        // Reserved at once, so that the buffer does not grow step by step.
        out.reserve_exact(self.rows.len().saturating_mul(LONGEST_LINE))?;
        for key in self.rows.iter() {
            append_row(out, key)?;
        }
        Ok(())
    }
}

/// Appends the text of a key's row, with LF.
fn append_row(out: &mut Vec<u8>, key: &Packed) -> Result<(), AllocError>
    ensures { OnOk result (out.new.items ≡ out.old.items ++ (texts.row_text (unpack key.now) ++ line_feed ∷ [])) }
{
    out.extend_from_slice(&put_key(key))?;
    out.push(b'\n')?;
    Ok(())
}
