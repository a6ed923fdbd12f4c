//! Receptions of calls with expansions.
use crate::tests::receptions::{Row, WHOLE, compare, line};
use slot_join::{Extra, Joined, Sheet, report};
use std::alloc::{AllocError, Global};
use std::test::Fail;
use time_diversity::on_air;

// The worked alert, and after it an expansion with an enhanced position alone.
const EXPANDED: [u8; 29] = [
    112, 112, 33, 80, 40, 7, 90, 106, 14, 23, 10, 83, 12, 20, 19, 100, 127, 78, 127, 127, 100, 45,
    89, 44, 94, 127, 29, 127, 127,
];

const ALERT: &str = "g0 reported alert from=338040079 nature=106 pos=1423108312 time=2019 then=100";

// What is lost of the expansion, or another symbol, and the place at which it is broken.
const BROKEN: [(&[usize], &[(usize, u8)], u8); 3] = [
    // The first two digits lost.
    (&[54, 59], &[], 21),
    // A wrong check of the expansion.
    (&[], &[(64, 30), (69, 30)], 26),
    // A specifier that no expansion has.
    (&[], &[(52, 101), (57, 101)], 20),
];

fn expanded_line(alloc: Global, row: &Row) -> Result<Vec<u8>, AllocError> {
    line(alloc, &on_air(&EXPANDED), row)
}

#[test]
fn whole_expansions(rt: HostRuntime) -> Result<(), Fail> {
    let alloc = rt.alloc();
    let want = format!(in alloc; "{ALERT} exp enh=45894494\n")?;
    // In whole, only up to the expansion's check, and with another end of sequence after it.
    let other: &[(usize, u8)] = &[(66, 117), (68, 122)];
    for (last, other) in [(70, &[][..]), (65, &[]), (70, other)] {
        let row = Row {
            last,
            other,
            ..WHOLE
        };
        let heard = expanded_line(alloc, &row)?;
        compare(&rt, alloc, "dsc join", heard, want.as_bytes(), 0)?;
    }
    Ok(())
}

#[test]
fn broken_expansions(rt: HostRuntime) -> Result<(), Fail> {
    let alloc = rt.alloc();
    for (lost, other, place) in BROKEN {
        let row = Row {
            lost,
            other,
            ..WHOLE
        };
        let heard = expanded_line(alloc, &row)?;
        let want = format!(in alloc; "{ALERT} broken {place}\n")?;
        compare(&rt, alloc, "dsc join", heard, want.as_bytes(), 0)?;
    }
    Ok(())
}

#[test]
fn a_symbol_at_the_last_place_of_a_sheet(rt: HostRuntime) {
    let mut sheet = Sheet::empty();
    for p in 0..20u8 {
        sheet.add(p, EXPANDED[p as usize].min(127));
    }
    let Joined::Reported { expansion, .. } = report(&sheet) else {
        assert!(rt; false, "not reported");
        return;
    };
    assert_eq!(rt; expansion, Extra::Absent);
    sheet.add(63, 5);
    let Joined::Reported { expansion, .. } = report(&sheet) else {
        assert!(rt; false, "not reported");
        return;
    };
    assert_eq!(rt; expansion, Extra::Broken(20));
}
