//! Rows of books, and their order.
use casualty_book::{Book, BookKind, put_row};
use dsc_sentences::read;
use std::test::Fail;

const ALERT: &[u8] = b"$CDDSC,12,3380400790,12,06,00,1423108312,2019,,,S,*2F\r\n";

const ACKNOWLEDGEMENT: &[u8] =
    b"$CDDSC,16,0022410220,12,10,00,1423108312,2019,3380400790,06,S,*2F\r\n";

const TEST: &[u8] = b"$CDDSC,20,3381581370,00,18,26,,,,,R,*23\r\n";

// A row is in a book once, however often it is noted and merged.
#[test]
fn rows_stand_once(rt: HostRuntime) -> Result<(), Fail> {
    let mut book = Book::new(rt.alloc());
    let mut other = Book::new(rt.alloc());
    assert!(rt; book.note(&read(ALERT)?)?);
    assert!(rt; !book.note(&read(ALERT)?)?);
    assert!(rt; other.note(&read(ALERT)?)?);
    book.merge(&other)?;
    assert_eq!(rt; book.len(), 1);
    Ok(())
}

// An acknowledgement comes after the alert that it came before, and a test call has no row.
#[test]
fn rows_stand_in_order(rt: HostRuntime) -> Result<(), Fail> {
    let mut book = Book::new(rt.alloc());
    assert!(rt; book.note(&read(ACKNOWLEDGEMENT)?)?);
    assert!(rt; !book.note(&read(TEST)?)?);
    assert!(rt; book.note(&read(ALERT)?)?);
    let Some(row) = book.row(1) else {
        return Err("no row")?;
    };
    assert_eq!(rt; row.kind, BookKind::Ack);
    let text =
        b"casualty 3380400790 ack from=0022410220 nature=06 pos=1423108312 time=2019 then=00";
    assert_eq!(rt; put_row(&row).as_slice(), text.as_slice());
    assert!(rt; book.row(2).is_none());
    Ok(())
}
