//! Every form of call by its text and its list.
use call_grammar::{ReadRefusal, read, spell};
use call_texts::{put_call, read_bare_call, read_call};
use slot_join::Extra;
use std::test::Fail;

// Calls of every form and to every address: the text, and the numbers of the list that the table of forms gives by
// hand.
pub(crate) const CALLS: [(&str, &str); 26] = [
    (
        "alert from=338040079 nature=106 pos=1423108312 time=2019 then=100",
        "112 112 33 80 40 7 90 106 14 23 10 83 12 20 19 100 127 78 127 127",
    ),
    (
        "alert from=338040079 nature=112 pos=9999999999 time=8888 then=126",
        "112 112 33 80 40 7 90 112 99 99 99 99 99 88 88 126 127 102 127 127",
    ),
    (
        "ack from=002241022 casualty=338040079 nature=106 pos=1423108312 time=2019 then=100",
        "116 116 112 0 22 41 2 20 110 33 80 40 7 90 106 14 23 10 83 12 20 19 100 127 125 127 127",
    ),
    (
        "relay to=all from=338158137 casualty=338040079 nature=106 pos=1423108312 time=2019 then=100 end=117",
        "116 116 112 33 81 58 13 70 112 33 80 40 7 90 106 14 23 10 83 12 20 19 100 117 65 117 117",
    ),
    (
        "relay to=all from=338158137 casualty=338040079 nature=106 pos=1423108312 time=2019 then=100 end=127",
        "116 116 112 33 81 58 13 70 112 33 80 40 7 90 106 14 23 10 83 12 20 19 100 127 75 127 127",
    ),
    (
        "relayack to=all from=002241022 casualty=338040079 nature=106 pos=1423108312 time=2019 then=100",
        "116 116 112 0 22 41 2 20 112 33 80 40 7 90 106 14 23 10 83 12 20 19 100 122 102 122 122",
    ),
    (
        "relay to=area:1430840202 from=338158137 casualty=338040079 nature=106 pos=1423108312 time=2019 then=100 end=117",
        "102 102 14 30 84 2 2 112 33 81 58 13 70 112 33 80 40 7 90 106 14 23 10 83 12 20 19 100 117 23 117 117",
    ),
    (
        "relay to=area:1430840202 from=338158137 casualty=338040079 nature=106 pos=1423108312 time=2019 then=100 end=127",
        "102 102 14 30 84 2 2 112 33 81 58 13 70 112 33 80 40 7 90 106 14 23 10 83 12 20 19 100 127 29 127 127",
    ),
    (
        "relayack to=area:1430840202 from=002241022 casualty=338040079 nature=106 pos=1423108312 time=2019 then=100",
        "102 102 14 30 84 2 2 112 0 22 41 2 20 112 33 80 40 7 90 106 14 23 10 83 12 20 19 100 122 48 122 122",
    ),
    (
        "relay to=group:023200001 from=338158137 casualty=338040079 nature=106 pos=1423108312 time=2019 then=100 end=117",
        "114 114 2 32 0 0 10 112 33 81 58 13 70 112 33 80 40 7 90 106 14 23 10 83 12 20 19 100 117 111 117 117",
    ),
    (
        "relay to=group:023200001 from=338158137 casualty=338040079 nature=106 pos=1423108312 time=2019 then=100 end=127",
        "114 114 2 32 0 0 10 112 33 81 58 13 70 112 33 80 40 7 90 106 14 23 10 83 12 20 19 100 127 101 127 127",
    ),
    (
        "relayack to=group:023200001 from=002241022 casualty=338040079 nature=106 pos=1423108312 time=2019 then=100",
        "114 114 2 32 0 0 10 112 0 22 41 2 20 112 33 80 40 7 90 106 14 23 10 83 12 20 19 100 122 72 122 122",
    ),
    (
        "relay to=one:002241022 from=338158137 casualty=338040079 nature=106 pos=1423108312 time=2019 then=100 end=117",
        "120 120 0 22 41 2 20 112 33 81 58 13 70 112 33 80 40 7 90 106 14 23 10 83 12 20 19 100 117 100 117 117",
    ),
    (
        "relay to=one:002241022 from=338158137 casualty=338040079 nature=106 pos=1423108312 time=2019 then=100 end=127",
        "120 120 0 22 41 2 20 112 33 81 58 13 70 112 33 80 40 7 90 106 14 23 10 83 12 20 19 100 127 110 127 127",
    ),
    (
        "relayack to=one:002241022 from=002241022 casualty=338040079 nature=106 pos=1423108312 time=2019 then=100",
        "120 120 0 22 41 2 20 112 0 22 41 2 20 112 33 80 40 7 90 106 14 23 10 83 12 20 19 100 122 67 122 122",
    ),
    (
        "all cat=108 from=002241022 first=100 second=126 f1=900016 f2=none",
        "116 116 108 0 22 41 2 20 100 126 90 0 16 126 126 126 127 96 127 127",
    ),
    (
        "area to=1430840202 cat=110 from=002241022 first=109 second=110 f1=021820 f2=40218200",
        "102 102 14 30 84 2 2 110 0 22 41 2 20 109 110 2 18 20 40 21 82 0 127 114 127 127",
    ),
    (
        "group to=023200001 cat=100 from=338040079 first=113 second=126 f1=304123 f2=none",
        "114 114 2 32 0 0 10 100 33 80 40 7 90 113 126 30 41 23 126 126 126 127 20 127 127",
    ),
    (
        "one to=002241022 cat=100 from=338040079 first=109 second=126 f1=021820 f2=021820 end=117",
        "120 120 0 22 41 2 20 100 33 80 40 7 90 109 126 2 18 20 2 18 20 117 87 117 117",
    ),
    (
        "one to=002241022 cat=100 from=338040079 first=109 second=126 f1=021820 f2=021820 end=122",
        "120 120 0 22 41 2 20 100 33 80 40 7 90 109 126 2 18 20 2 18 20 122 88 122 122",
    ),
    (
        "one to=002241022 cat=100 from=338040079 first=109 second=126 f1=021820 f2=021820 end=127",
        "120 120 0 22 41 2 20 100 33 80 40 7 90 109 126 2 18 20 2 18 20 127 93 127 127",
    ),
    (
        "one to=002241022 cat=100 from=338040079 first=109 second=126 at=1423108312 end=117",
        "120 120 0 22 41 2 20 100 33 80 40 7 90 109 126 55 14 23 10 83 12 117 44 117 117",
    ),
    (
        "test to=002241022 cat=108 from=338040079 end=117",
        "120 120 0 22 41 2 20 108 33 80 40 7 90 118 126 126 126 126 126 126 126 117 68 117 117",
    ),
    (
        "test to=338040079 cat=108 from=002241022 end=122",
        "120 120 33 80 40 7 90 108 0 22 41 2 20 118 126 126 126 126 126 126 126 122 75 122 122",
    ),
    (
        "askpos to=002241022 cat=100 from=338158137",
        "120 120 0 22 41 2 20 100 33 81 58 13 70 121 126 126 126 126 126 126 126 117 70 117 117",
    ),
    (
        "pos to=002241022 cat=100 from=338158137 pos=1423108312 time=1902",
        "120 120 0 22 41 2 20 100 33 81 58 13 70 121 126 55 14 23 10 83 12 19 2 122 35 122 122",
    ),
];

#[test]
fn every_form_and_address(rt: HostRuntime) -> Result<(), Fail> {
    for (text, numbers) in &CALLS {
        let mut list = Vec::new(rt.alloc());
        for number in numbers.split_whitespace() {
            list.push(number.parse()?)?;
        }
        let (call, length) = read(&list)?;
        assert_eq!(rt; length, list.len(), "{text}");
        assert_eq!(rt; spell(&call).as_slice(), list.as_slice(), "{text}");
        let (bytes, none) = (text.as_bytes(), Extra::Absent);
        assert_eq!(rt; put_call(&call, &none).as_slice(), bytes, "{text}");
        assert_eq!(rt; read_call(bytes), Ok((call, None)), "{text}");
        assert_eq!(rt; read_bare_call(bytes), Ok(call), "{text}");
    }
    Ok(())
}

// Texts that are no call's, and the column: the least n for which their first n bytes begin no call's text.
const FAULTS: [(&str, usize); 14] = [
    ("", 1),
    ("x", 1),
    ("al", 3),
    ("alx", 3),
    (
        "alert from=338040079 nature=111 pos=1423108312 time=2019 then=100",
        31,
    ),
    (
        "alert from=338040079 nature=106 pos=1423108312 time=2460 then=100",
        54,
    ),
    ("alert from=338040079  nature=106", 22),
    ("relay to=area:1431 from=338158137", 19),
    ("relay to=agroup", 11),
    ("relayack to=one:00224102", 25),
    (
        "all cat=108 from=002241022 first=100 second=126 f1=900016 f2=910000",
        63,
    ),
    (
        "one to=002241022 cat=100 from=338158137 first=100 second=126 at=1423118001 end=117",
        74,
    ),
    (
        "one to=002241022 cat=100 from=338158137 first=100 second=126 f1=none f2=none end=118",
        84,
    ),
    ("test to=338040079 cat=106 from=002241022 end=117", 25),
];

#[test]
fn the_column_of_a_text_that_is_no_call(rt: HostRuntime) {
    for (text, column) in &FAULTS {
        assert_eq!(rt; read_call(text.as_bytes()), Err(*column), "{text}");
        assert_eq!(rt; read_bare_call(text.as_bytes()), Err(*column), "{text}");
    }
}

#[test]
fn the_category_of_ships_business(rt: HostRuntime) {
    let list = [
        120, 120, 0, 22, 41, 2, 20, 106, 33, 80, 40, 7, 90, 118, 126, 126, 126, 126, 126, 126, 126,
        117, 66, 117, 117,
    ];
    assert_eq!(rt; read(&list), Err(ReadRefusal::Outside(7, 106)));
}
