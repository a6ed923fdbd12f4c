//! Laws: each function here does nothing, and its contract is a theorem over definitions.
ghost use Rattle.std.specs.Prelude.{◌≡◌, List, IfSome};
ghost use Rattle.std.specs.List.{All};
ghost use Rattle.casualty_book.specs.declared.rows.BookRow.{BookRow as Row};
ghost use Rattle.casualty_book.specs.Rows.{row_order, IsLawful};
ghost use Rattle.casualty_book.specs.Books.{IsBook, IsUnion, HaveSameRows};
ghost use Rattle.casualty_book.specs.Sentences.{row_of};
ghost use Rattle.dsc_sentences.specs.Dsc.{IsDsc};
ghost use Rattle.dsc_sentences.specs.declared.dsc.DscFields.{DscFields};

use crate::rows::BookRow;

/// The law that two books with the same rows are one list, and that rows compare by the order of the book.
pub fn books_with_the_same_rows_are_one_list()
    ensures list { (left right : List Row) → IsBook left → IsBook right → HaveSameRows left right → left ≡ right }
    ensures order { (a b : Row) → ⟦<BookRow as Ord>⟧.cmp a b ≡ row_order a b }
{}

/// The law that the union of books commutes and associates, and adds nothing to a book that is united with itself.
pub fn union_is_of_sets()
    ensures commutes { (a b both other : List Row) → IsBook both → IsBook other → IsUnion a b both → IsUnion b a other
        → both ≡ other }
    ensures associates { (a b c ab bc left right : List Row) → IsBook left → IsBook right
        → IsUnion a b ab → IsUnion ab c left → IsUnion b c bc → IsUnion a bc right → left ≡ right }
    ensures itself { (a both : List Row) → IsBook a → IsBook both → IsUnion a a both → both ≡ a }
{}

/// The law that any lawful rows have a book, and that the row of a lawful sentence is lawful.
pub fn rows_have_a_book()
    ensures book { (rows : List Row) → All IsLawful rows → (book : List Row) × IsBook book × HaveSameRows book rows }
    ensures lawful { (s : DscFields) → IsDsc s → IfSome (row_of s) IsLawful }
{}
