//! Laws: each function here does nothing, and its contract is a theorem over definitions.
ghost use Rattle.std.specs.Prelude.{◌≡◌, ℕ, List};
ghost use Rattle.line_engine.specs.Lines.{Lines};
ghost use Rattle.line_engine.specs.Determined.{IsDetermined, LacksNoOutput};
ghost use Rattle.sentence_files.specs.Booking.{HaveSameSentences, IsBookText, book_meaning};

use casualty_book::{books_with_the_same_rows_are_one_list, rows_have_a_book};
use dsc_sentences::texts_tell_sentences_apart;

/// The law that lines determine what `book` writes.
pub fn logs_determine_output()
    ensures { IsDetermined book_meaning }
{
    books_with_the_same_rows_are_one_list();
}

/// The law that inputs of which the same lines are accepted as DSC sentences have one text, whatever their order and
/// number.
pub fn accepted_sentences_determine_text()
    ensures { (a b : Lines) → HaveSameSentences a b → (text other : List ℕ) → IsBookText a text → IsBookText b other
        → text ≡ other }
{
    books_with_the_same_rows_are_one_list();
}

/// The law that no input of `book` lacks an output.
pub fn no_output_is_lacking()
    ensures { LacksNoOutput book_meaning }
{
    rows_have_a_book();
    texts_tell_sentences_apart();
}
