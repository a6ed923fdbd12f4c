//! Lists of calls, worked by hand.
use call_grammar::*;
use call_values::{Call, End};
use dsc_symbols::worked::ALERT;
use std::alloc::Global;
use std::test::Fail;

/// How many symbols, the second format specifier aside, a walk takes, and where it ends.
fn walk_through(list: &[u8]) -> (usize, Step) {
    open_is_not_done();
    let mut walk = Walk::start();
    for (taken, symbol) in list.iter().enumerate() {
        match walk.take(*symbol % 128) {
            Step::More => {}
            step => return (taken, step),
        }
    }
    (list.len(), Step::More)
}

#[test]
fn the_standard_alert(rt: HostRuntime) {
    let (taken, step) = walk_through(&ALERT[1..]);
    assert_eq!(rt; taken, 16);
    let Step::Done(Call::Alert(casualty)) = step else {
        assert!(rt; false, "{step:?}");
        return;
    };
    assert_eq!(rt; casualty.mmsi.number(), 338_040_079);
    assert_eq!(rt; casualty.nature.number(), 106);
    assert_eq!(rt; casualty.time.known(), Some((20, 19)));
    assert_eq!(rt; casualty.comm.number(), 100);
}

#[test]
fn spelled_and_read(rt: HostRuntime) -> Result<(), Fail> {
    let Step::Done(call) = walk_through(&ALERT[1..]).1 else {
        return Err("not read")?;
    };
    assert_eq!(rt; spell(&call).as_slice(), ALERT.as_slice());
    let mut list = ALERT.as_slice().to_vec(rt.alloc())?;
    assert_eq!(rt; read(&list), Ok((call, 20)));
    list.push(112)?;
    assert_eq!(rt; read(&list), Ok((call, 20)));
    Ok(())
}

#[test]
fn refused_lists(rt: HostRuntime) {
    assert_eq!(rt; read(&[]), Err(ReadRefusal::Short(0)));
    assert_eq!(rt; read(&ALERT[..19]), Err(ReadRefusal::Short(19)));
    assert_eq!(rt; read(&ALERT[1..]), Err(ReadRefusal::Outside(1, 33)));
    let mut list = ALERT;
    list[19] = 117;
    assert_eq!(rt; read(&list), Err(ReadRefusal::Outside(19, 117)));
    list[18] = 122;
    assert_eq!(rt; read(&list), Err(ReadRefusal::Outside(18, 122)));
    list[17] = 79;
    let wrong = ReadRefusal::Check {
        n: 17,
        want: 78,
        got: 79,
    };
    assert_eq!(rt; read(&list), Err(wrong));
}

#[test]
fn refused_symbols(rt: HostRuntime) {
    let mut list = ALERT;
    list[17] = 79;
    let wrong = Step::Check { want: 78, got: 79 };
    assert_eq!(rt; walk_through(&list[1..]), (16, wrong));
    list[6] = 91;
    assert_eq!(rt; walk_through(&list[1..]), (5, Step::Outside));
    list[2] = 112;
    assert_eq!(rt; walk_through(&list[1..]), (1, Step::Outside));
    assert_eq!(rt; walk_through(&ALERT[1..16]), (15, Step::More));
}

/// Whether the list is read as a call that is spelled by it.
fn is_read_back(list: &[u8]) -> bool {
    match read(list) {
        Ok((call, length)) => length == list.len() && spell(&call).as_slice() == list,
        Err(_) => false,
    }
}

/// Whether a walk through the list wants the first end of sequence once, and then meets one.
fn is_end_wanted_once(list: &[u8]) -> bool {
    open_is_not_done();
    let mut walk = Walk::start();
    let mut was_wanted = false;
    for symbol in list.iter().skip(1) {
        if walk.wants_end() {
            if was_wanted || !matches!(symbol, 117 | 122 | 127) {
                return false;
            }
            was_wanted = true;
        }
        match walk.take(*symbol % 128) {
            Step::More => {}
            step => return matches!(step, Step::Done(_)) && was_wanted && !walk.wants_end(),
        }
    }
    false
}

/// Lists worked by hand, besides those that are compared with texts.
const LISTS: [&str; 4] = [
    "a relay acknowledged to a group: 114 114 0 22 41 2 20 112 33 80 40 7 90 112 33 80 40 7 90 106 14 23 10 83 12 20 19 100 122 100 122 122",
    "a group call in tens of hertz: 114 114 0 22 41 2 20 110 33 80 40 7 90 109 126 41 23 45 67 2 18 20 127 9 127 127",
    "a call to one station on channels: 120 120 0 22 41 2 20 100 33 80 40 7 90 109 126 31 23 45 126 126 126 122 3 122 122",
    "a call to one station with a position: 120 120 0 22 41 2 20 100 33 80 40 7 90 104 100 55 99 99 99 99 99 117 28 117 117",
];

/// The symbols of a list that is written as their numbers.
fn symbols_of(alloc: Global, list: &str) -> Result<Vec<u8>, Fail> {
    let mut symbols = Vec::new(alloc);
    for number in list.split_whitespace() {
        symbols.push(number.parse()?)?;
    }
    Ok(symbols)
}

#[test]
fn lists_are_walked_and_read(rt: HostRuntime) -> Result<(), Fail> {
    for row in LISTS {
        let (_name, list) = row.split_once(": ").ok_or("no name")?;
        let list = symbols_of(rt.alloc(), list)?;
        assert!(rt; is_read_back(&list), "{row}");
        assert!(rt; is_end_wanted_once(&list), "{row}");
    }
    Ok(())
}

#[test]
fn symbols_that_part_the_forms(rt: HostRuntime) {
    let mut list = [
        120, 120, 0, 22, 41, 2, 20, 108, 33, 80, 40, 7, 90, 118, 126, 126, 126, 126, 126, 126, 126,
        117, 68, 117, 117,
    ];
    list[7] = 106;
    assert_eq!(rt; read(&list), Err(ReadRefusal::Outside(7, 106)));
    list[7] = 108;
    list[21] = 127;
    assert_eq!(rt; read(&list), Err(ReadRefusal::Outside(21, 127)));
    list[13] = 109;
    list[14] = 100;
    list[22] = 79;
    list[23] = 127;
    list[24] = 127;
    let Ok((Call::Individual { end, .. }, 25)) = read(&list) else {
        assert!(rt; false, "{:?}", read(&list));
        return;
    };
    assert_eq!(rt; end, End::Plain);
}
