//! Fields of call texts at the ends of their ranges, and their faults.
use call_texts::read_bare_call;
use std::alloc::{AllocError, Global};
use std::test::Fail;

// What comes before a field; texts with which no such field begins, and how many of their bytes are left at the fault.
const FAULTS: [(&str, &[(&str, usize)]); 14] = [
    (
        "alert from=338040079 nature=",
        &[("111", 1), ("120", 2), ("112p", 1)],
    ),
    (
        "alert from=338040079 nature=106 pos=",
        &[
            ("1423168312", 5),
            ("1426008312", 7),
            ("0900100000", 6),
            ("1423118001", 1),
            ("999999999 ", 1),
            ("4", 1),
        ],
    ),
    (
        "alert from=338040079 nature=106 pos=1423108312 time=",
        &[("2460", 3), ("2400", 3), ("2360", 2), ("888", 0)],
    ),
    (
        "alert from=338040079 nature=106 pos=1423108312 time=2019 then=",
        &[("105", 1), ("115x", 1)],
    ),
    (
        "one to=338158137 cat=",
        &[("101", 1), ("12", 1), ("108f", 1)],
    ),
    (
        "one to=338158137 cat=100 from=002241022 first=",
        &[("102", 1)],
    ),
    (
        "one to=338158137 cat=100 from=002241022 first=109 second=",
        &[("114", 1)],
    ),
    (
        "one to=338158137 cat=100 from=002241022 first=109 second=126 f1=",
        &[("910000", 5), ("4123456", 0), ("no", 0), ("500000", 6)],
    ),
    (
        "one to=338158137 cat=100 from=002241022 first=109 second=126 f1=none f2=none end=",
        &[("128", 1), ("127 ", 1)],
    ),
    ("test to=", &[("33804007x", 1), ("3380", 0)]),
    (
        "test to=002241022 cat=108 from=338040079 end=",
        &[("127", 1), ("122 ", 1)],
    ),
    (
        "relay to=",
        &[
            ("al", 0),
            ("x", 1),
            ("area:..", 2),
            ("area:1421811210", 5),
            ("all f", 0),
            ("one:338040079,", 1),
        ],
    ),
    (
        "relay to=area:",
        &[("1421811210", 5), ("142080121", 0), ("091", 1)],
    ),
    (
        "relay to=all from=002241022 casualty=338040079 nature=106 pos=1423108312 time=2019 then=100 end=",
        &[("122", 1), ("127 ", 1)],
    ),
];

// Calls with fields at the ends of their ranges.
const CALLS: [&str; 8] = [
    "alert from=003669999 nature=112 pos=0900018000 time=8888 then=126",
    "alert from=338040079 nature=106 pos=9999999999 time=2019 then=115",
    "one to=338158137 cat=108 from=002241022 first=104 second=113 f1=399999 f2=900016 end=117",
    "one to=338158137 cat=110 from=002241022 first=104 second=113 f1=41234567 f2=none end=127",
    "relay to=area:1420801210 from=002241022 casualty=338040079 nature=106 pos=1423108312 time=2019 then=100 end=117",
    "relay to=group:003669999 from=002241022 casualty=338040079 nature=106 pos=1423108312 time=2019 then=100 end=127",
    "relay to=one:338040079 from=002241022 casualty=338040079 nature=106 pos=1423108312 time=2019 then=100 end=127",
    "test to=002241022 cat=108 from=338040079 end=122",
];

/// A text after what comes before it.
fn behind(alloc: Global, front: &str, field: &str) -> Result<Vec<u8>, AllocError> {
    let mut text = Vec::new(alloc);
    text.extend_from_slice(front.as_bytes())?;
    text.extend_from_slice(field.as_bytes())?;
    Ok(text)
}

#[test]
fn fields_are_refused_at_their_fault(rt: HostRuntime) -> Result<(), Fail> {
    for (front, fields) in FAULTS {
        for (field, left) in fields {
            let text = behind(rt.alloc(), front, field)?;
            let column = (text.len() + 1).saturating_sub(*left);
            assert_eq!(rt; read_bare_call(&text), Err(column), "{front}{field}");
        }
    }
    Ok(())
}

#[test]
fn fields_at_the_ends_of_their_ranges_are_read(rt: HostRuntime) {
    for text in CALLS {
        assert!(rt; read_bare_call(text.as_bytes()).is_ok(), "{text}");
    }
}
