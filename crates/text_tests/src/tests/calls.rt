//! Texts of calls and expansions, and their columns.
use call_texts::*;
use call_values::Call;
use expansion::{Expansion, Part, PartKind};
use slot_join::{Extra, Joined};
use std::test::Fail;

/// The call with this text, which has no expansion.
pub(crate) fn call_of(text: &str) -> Result<Call, Fail> {
    Ok(read_bare_call(text.as_bytes()).ok().ok_or("a call")?)
}

// A call without an expansion: 42 bytes.
const CALL: &str = "askpos to=002241022 cat=100 from=338158137";

// The sets of an expansion, and the call's text with it.
const EXPANSIONS: [(PartKind, PartKind, PartKind, &str); 9] = [
    (
        PartKind::Digits(12_345_678),
        PartKind::LeftOut,
        PartKind::LeftOut,
        "askpos to=002241022 cat=100 from=338158137 exp enh=12345678",
    ),
    (
        PartKind::LeftOut,
        PartKind::Digits(0),
        PartKind::LeftOut,
        "askpos to=002241022 cat=100 from=338158137 exp speed=0000",
    ),
    (
        PartKind::LeftOut,
        PartKind::LeftOut,
        PartKind::Digits(3_599),
        "askpos to=002241022 cat=100 from=338158137 exp course=3599",
    ),
    (
        PartKind::Digits(9_030),
        PartKind::Digits(9_999),
        PartKind::LeftOut,
        "askpos to=002241022 cat=100 from=338158137 exp enh=00009030 speed=9999",
    ),
    (
        PartKind::Digits(99_999_999),
        PartKind::LeftOut,
        PartKind::Digits(7),
        "askpos to=002241022 cat=100 from=338158137 exp enh=99999999 course=0007",
    ),
    (
        PartKind::LeftOut,
        PartKind::Digits(125),
        PartKind::Digits(2_250),
        "askpos to=002241022 cat=100 from=338158137 exp speed=0125 course=2250",
    ),
    (
        PartKind::Digits(12_345_678),
        PartKind::Digits(1_234),
        PartKind::Digits(1_234),
        "askpos to=002241022 cat=100 from=338158137 exp enh=12345678 speed=1234 course=1234",
    ),
    (
        PartKind::NoInformation,
        PartKind::NoInformation,
        PartKind::NoInformation,
        "askpos to=002241022 cat=100 from=338158137 exp enh=none speed=none course=none",
    ),
    (
        PartKind::LeftOut,
        PartKind::NoInformation,
        PartKind::LeftOut,
        "askpos to=002241022 cat=100 from=338158137 exp speed=none",
    ),
];

// Texts of no call, with or without an expansion, and the column.
const FAULTS: [(&str, usize); 18] = [
    ("askpos to=002241022 cat=100 from=338158137 ", 44),
    ("askpos to=002241022 cat=100 from=338158137  exp", 44),
    ("askpos to=002241022 cat=100 from=338158137 broken 25", 44),
    ("askpos to=002241022 cat=100 from=338158137 ex", 46),
    ("askpos to=002241022 cat=100 from=338158137 exp", 47),
    ("askpos to=002241022 cat=100 from=338158137 exp ", 48),
    ("askpos to=002241022 cat=100 from=338158137 exp then=", 48),
    (
        "askpos to=002241022 cat=100 from=338158137 exp enh=1234567",
        59,
    ),
    (
        "askpos to=002241022 cat=100 from=338158137 exp enh=123456789",
        60,
    ),
    (
        "askpos to=002241022 cat=100 from=338158137 exp enh=12345678 enh=12345678",
        61,
    ),
    (
        "askpos to=002241022 cat=100 from=338158137 exp enh=none speed=12",
        65,
    ),
    (
        "askpos to=002241022 cat=100 from=338158137 exp enh=no speed=12",
        54,
    ),
    (
        "askpos to=002241022 cat=100 from=338158137 exp speed=0100 enh=12345678",
        59,
    ),
    (
        "askpos to=002241022 cat=100 from=338158137 exp speed=0100 course=0009 ",
        70,
    ),
    (
        "askpos to=002241022 cat=100 from=338158137 exp course=0009 speed=0100",
        59,
    ),
    (
        "askpos to=002241022 cat=100 from=338158137 exp course=3600",
        56,
    ),
    (
        "askpos to=002241022 cat=100 from=338158137 exp speed=none course=3600",
        67,
    ),
    (
        "askpos to=002241022 cat=100 from=338158137 exp course=nono",
        58,
    ),
];

fn part(kind: PartKind) -> Part {
    match kind {
        PartKind::LeftOut => Part::left_out(),
        PartKind::NoInformation => Part::none(),
        PartKind::Digits(number) => Part::digits(number),
    }
}

#[test]
fn expansions_are_written_and_read(rt: HostRuntime) {
    let call = read_bare_call(CALL.as_bytes()).expect(&rt, "a call");
    for (enhanced, speed, course, text) in &EXPANSIONS {
        let expansion = Expansion::new(part(*enhanced), part(*speed), part(*course)).expect(
            &rt, text,
        );
        let extra = Extra::Whole(expansion);
        assert_eq!(rt;
            put_call(&call, &extra).as_slice(),
            text.as_bytes(),
            "{text}"
        );
        assert_eq!(rt;
            read_call(text.as_bytes()),
            Ok((call, Some(expansion))),
            "{text}"
        );
        assert_eq!(rt; read_bare_call(text.as_bytes()), Err(43), "{text}");
    }
}

#[test]
fn the_column_of_a_text_that_is_no_expansion(rt: HostRuntime) {
    for (text, column) in &FAULTS {
        assert_eq!(rt; read_call(text.as_bytes()), Err(*column), "{text}");
        assert_eq!(rt; read_bare_call(text.as_bytes()), Err(43), "{text}");
    }
}

#[test]
fn an_answer_names_where_an_expansion_breaks(rt: HostRuntime) {
    let call = read_bare_call(CALL.as_bytes()).expect(&rt, "a call");
    let answer = Joined::Reported {
        call,
        expansion: Extra::Broken(25),
    };
    assert_eq!(rt;
        put_answer_line(7, &answer).as_slice(),
        "g7 reported askpos to=002241022 cat=100 from=338158137 broken 25\n".as_bytes()
    );
}
