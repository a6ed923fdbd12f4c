//! Lines of receptions, streams, logs and traffic files, and their columns.
use call_values::Band;
use dsc_files::{EventLine, FileKind, Line, line_of};
use input_lines::LineFault;
use phasing::Elements;
use slot_evidence::{Reception, Seen};
use std::alloc::Global;
use std::test::Fail;
use ten_unit::Element;
use traffic_lines::Point;

// Lines of join's input, and the column at which each is ill-formed.
const COLUMNS: [(&str, usize); 28] = [
    ("x", 1),
    (" r", 1),
    ("\r", 1),
    ("r ", 3),
    ("rY", 2),
    ("r YBX", 5),
    ("r YB ", 5),
    ("r  Y", 3),
    ("r g", 4),
    ("r gY", 4),
    ("r g07 Y", 5),
    ("r g0Y", 5),
    ("r g0 ", 6),
    ("r g1 g2", 6),
    ("r g4294967296", 13),
    ("r g42949672950", 14),
    ("e ", 3),
    ("e 5", 4),
    ("e 05:1", 4),
    ("e 64:1", 4),
    ("e 0:128", 7),
    ("e 7:130", 7),
    ("e 7:200", 7),
    ("e g5 ", 6),
    ("e g5 64:1", 7),
    ("e 1:2  3:4", 7),
    ("e 1:2 ", 7),
    ("e 1:2 3:4 g1", 11),
];

/// The column at which a line of this kind is ill-formed.
fn column_of(alloc: Global, kind: FileKind, text: &str) -> Option<usize> {
    match line_of(alloc, kind, text.as_bytes()) {
        Err(LineFault::Column(column)) => Some(column),
        _ => None,
    }
}

/// Whether a line of this kind says nothing.
fn is_nothing(alloc: Global, kind: FileKind, text: &str) -> bool {
    matches!(line_of(alloc, kind, text.as_bytes()), Ok(Line::Nothing))
}

#[test]
fn ill_formed_lines_have_columns(rt: HostRuntime) {
    for (text, column) in COLUMNS {
        let found = column_of(rt.alloc(), FileKind::Join, text);
        assert_eq!(rt; found, Some(column), "{text}");
    }
}

#[test]
fn comments_say_nothing(rt: HostRuntime) {
    for text in ["", "#", "# r YB", "#\r\n"] {
        assert!(rt; is_nothing(rt.alloc(), FileKind::Join, text), "{text}");
    }
}

// Lines of receptions, their groups and their signs.
const RECEPTIONS: [(&str, u32, &str); 5] = [
    ("r", 0, ""),
    ("r g0", 0, ""),
    ("r g4294967295", 4_294_967_295, ""),
    ("r YB-", 0, "YB-"),
    ("r g17 -Y", 17, "-Y"),
];

/// Whether a reception has these elements.
fn are_same(heard: &Reception, wanted: &[Element]) -> bool {
    heard.count() == wanted.len()
        && (0..wanted.len()).all(|begin| heard.planes_from(begin) == wanted.planes_from(begin))
}

#[test]
fn receptions_have_elements(rt: HostRuntime) -> Result<(), Fail> {
    for (text, wanted, signs) in RECEPTIONS {
        let Line::Reception { group, elements } = line_of(
            rt.alloc(),
            FileKind::Join,
            text.as_bytes(),
        )?
        else {
            return Err("no reception")?;
        };
        assert_eq!(rt; group, wanted, "{text}");
        let mut wanted = Vec::new(rt.alloc());
        for sign in signs.as_bytes() {
            wanted.push(match *sign {
                b'Y' => Element::Y,
                b'B' => Element::B,
                _ => Element::Lost,
            })?;
        }
        assert!(rt; are_same(&elements, &wanted), "{text}");
    }
    Ok(())
}

// Lines that are none of a stream, and the column at which each is ill-formed.
const STREAM_COLUMNS: [(&str, usize); 7] = [
    ("x", 1),
    ("r YB", 1),
    ("s", 2),
    ("sY", 2),
    ("s ", 3),
    ("s YX", 4),
    ("s Y ", 4),
];

#[test]
fn lines_of_streams_add_elements(rt: HostRuntime) -> Result<(), Fail> {
    for (text, column) in STREAM_COLUMNS {
        let found = column_of(rt.alloc(), FileKind::Stream, text);
        assert_eq!(rt; found, Some(column), "{text}");
    }
    for text in ["", "#", "# s YB"] {
        assert!(rt; is_nothing(rt.alloc(), FileKind::Stream, text), "{text}");
    }
    let Line::Stream(elements) = line_of(rt.alloc(), FileKind::Stream, b"s YB-")? else {
        return Err("no elements")?;
    };
    let wanted = [Element::Y, Element::B, Element::Lost];
    assert!(rt; are_same(&elements, &wanted));
    Ok(())
}

#[test]
fn lines_of_logs_are_sentences(rt: HostRuntime) -> Result<(), Fail> {
    for text in ["hello", " $", "alert", "s YB"] {
        assert_eq!(rt;
            column_of(rt.alloc(), FileKind::Book, text),
            Some(1),
            "{text}"
        );
    }
    for text in ["", "#", "#$"] {
        assert!(rt; is_nothing(rt.alloc(), FileKind::Book, text), "{text}");
    }
    for text in ["$", "$GPXXX"] {
        let Line::Sentence = line_of(rt.alloc(), FileKind::Book, text.as_bytes())? else {
            return Err("no sentence")?;
        };
    }
    Ok(())
}

#[test]
fn evidence_has_pairs(rt: HostRuntime) -> Result<(), Fail> {
    let text = b"e g9 63:127 0:120 8:22 8:14 8:14 8:17";
    let Line::Evidence { group, sheet } = line_of(rt.alloc(), FileKind::Join, text)? else {
        return Err("no evidence")?;
    };
    assert_eq!(rt; group, 9);
    assert_eq!(rt; sheet.at(0), Seen::One(120));
    assert_eq!(rt; sheet.at(8), Seen::Differ(14, 22));
    assert_eq!(rt; sheet.at(9), Seen::None);
    assert_eq!(rt; sheet.at(63), Seen::One(127));
    for text in ["e", "e g0"] {
        let Line::Evidence { group, sheet } = line_of(rt.alloc(), FileKind::Join, text.as_bytes())?
        else {
            return Err("no evidence")?;
        };
        assert_eq!(rt; group, 0);
        assert_eq!(rt; sheet.at(0), Seen::None);
    }
    Ok(())
}

// Points of a traffic file, and lines with the column at which each is ill-formed there.
const POINT_COLUMNS: [(Point, &[(&str, usize)]); 5] = [
    (
        Point::Station,
        &[("station coast 002241022 lf", 25), ("r YB", 1)],
    ),
    (Point::Base, &[("e 0:112", 1)]),
    (
        Point::Groups { held: 15 },
        &[("group 00000001", 15), ("r YBX", 5)],
    ),
    (
        Point::Ship,
        &[("e 64:1", 4), ("0 answer 0", 10), ("0 tick\r", 7)],
    ),
    (Point::Coast, &[("0 alert nature=106 then=100", 4)]),
];

#[test]
fn ill_formed_lines_of_points_have_columns(rt: HostRuntime) {
    for (point, lines) in POINT_COLUMNS {
        for (text, column) in lines {
            let found = column_of(rt.alloc(), FileKind::Traffic(point), text);
            assert_eq!(rt; found, Some(*column), "{text}");
        }
    }
}

#[test]
fn lines_of_points_say_what_they_say(rt: HostRuntime) -> Result<(), Fail> {
    let ship = FileKind::Traffic(Point::Ship);
    let Line::Event { at, what } = line_of(rt.alloc(), ship, b"7 heard g3")? else {
        return Err("no event")?;
    };
    assert_eq!(rt; (at, what), (7, EventLine::Heard(3)));
    let ship = FileKind::Traffic(Point::Ship);
    let Line::Evidence { group, .. } = line_of(rt.alloc(), ship, b"e g5 0:112")? else {
        return Err("no evidence")?;
    };
    assert_eq!(rt; group, 5);
    let station = FileKind::Traffic(Point::Station);
    let Line::Coast(mmsi, band) = line_of(rt.alloc(), station, b"station coast 002241022 hf")?
    else {
        return Err("no coast station")?;
    };
    assert_eq!(rt; (mmsi.number(), band), (2_241_022, Band::Hf));
    let coast = FileKind::Traffic(Point::Coast);
    let Line::Event { at, what } = line_of(rt.alloc(), coast, b"8 answer 16")? else {
        return Err("no event")?;
    };
    assert_eq!(rt; (at, what), (8, EventLine::Answer(16, true)));
    let base = FileKind::Traffic(Point::Base);
    let Line::Base(second) = line_of(rt.alloc(), base, b"base 1714594740")? else {
        return Err("no base")?;
    };
    assert_eq!(rt; second, 1_714_594_740);
    for point in [Point::Station, Point::Base, Point::Ship] {
        let kind = FileKind::Traffic(point);
        assert!(rt; is_nothing(rt.alloc(), kind, "# r YB"), "{point:?}");
    }
    Ok(())
}
