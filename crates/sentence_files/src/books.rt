//! The command `book`.
ghost use Rattle.std.specs.Prelude.{◌≡◌, [], OnOk, true};
ghost use Rattle.input_lines.specs.BookLine.{is_sentence};
ghost use Rattle.casualty_book.specs.Books.{HasAlsoOf};
ghost use Rattle.sentence_files.specs.Booking.{book_meaning};
ghost use Rattle.sentence_files.specs.inside.Booked.{StandsFor, TakesOne, row_heard};

use casualty_book::Book;
use dsc_sentences::{DscSentence, sentence_on};
use input_lines::{BookLine, Status, book_line, one_book_line};
use line_engine::{Command, Refusal};
use std::alloc::{AllocError, Global};

/// The command that puts the sentences of logs into one book of casualties.
#[derive(Drop)]
pub struct Logs {
    pub(crate) book: Book,
    /// A sentence was refused.
    pub(crate) refused: bool,
}

impl Logs {
    /// The command before its first line.
    pub fn new(alloc: Global) -> Logs
        ensures { StandsFor result [] [] }
    {
        Logs {
            book: Book::new(alloc),
            refused: false,
        }
    }

    /// Puts the row of what was heard of a line into the book.
    fn note(&mut self, heard: &Option<DscSentence>) -> Result<(), AllocError>
        ensures rows { OnOk result (HasAlsoOf self.old.book (row_heard heard.now) self.new.book) }
        ensures refused { self.new.refused ≡ self.old.refused }
    {
        match heard {
            Some(sentence) => {
                self.book.note(sentence)?;
                Ok(())
            }
            None => Ok(()),
        }
    }

    /// Takes a sentence.
    fn hear(&mut self, line: &[u8]) -> Result<(), AllocError>
        requires { is_sentence line.now ≡ true }
        ensures { OnOk result (TakesOne self.old self.new line.now) }
    {
        match sentence_on(line) {
            Ok(heard) => self.note(&heard),
            Err(_) => {
                self.refused = true;
                Ok(())
            }
        }
    }
}

impl Command for Logs {
    ghost meaning = { book_meaning };

    ghost stands_for = { StandsFor };

    fn take(&mut self, line: &[u8], _out: &mut Vec<u8>) -> Result<(), Refusal> {
        one_book_line();
        match book_line(line)? {
            BookLine::Nothing => Ok(()),
            BookLine::Sentence => {
                self.hear(line)?;
                Ok(())
            }
        }
    }

    fn finish(&mut self, out: &mut Vec<u8>) -> Result<Status, AllocError> {
        self.book.append_text(out)?;
        Ok(Status::of(!self.refused))
    }

    ghost gives = { λ command lines text stands. stands.unwritten };
}
