//! Lists of expansions, worked by hand.
use call_values::End;
use expansion::*;
use std::test::Fail;

/// The lists with the end of sequence 127 of an enhanced position, a speed and a course, worked by hand: the sets of
/// list n are the bits of n + 1.
const LISTS: [&[u8]; 7] = [
    &[100, 45, 89, 44, 94, 127, 29, 127, 127],
    &[102, 1, 23, 127, 15, 127, 127],
    &[100, 45, 89, 44, 94, 102, 1, 23, 127, 109, 127, 127],
    &[103, 35, 99, 127, 88, 127, 127],
    &[100, 45, 89, 44, 94, 103, 35, 99, 127, 58, 127, 127],
    &[102, 1, 23, 103, 35, 99, 127, 40, 127, 127],
    &[
        100, 45, 89, 44, 94, 102, 1, 23, 103, 35, 99, 127, 74, 127, 127,
    ],
];

/// The set with these digits where it is there.
fn set(is_there: bool, digits: u32) -> Part {
    if is_there {
        Part::digits(digits)
    } else {
        Part::left_out()
    }
}

/// The expansion that has the sets of these bits: 1 an enhanced position, 2 a speed and 4 a course.
fn choice(bits: usize) -> Option<Expansion> {
    let enhanced = set(bits % 2 == 1, 45_894_494);
    let speed = set(bits / 2 % 2 == 1, 123);
    Expansion::new(enhanced, speed, set(bits / 4 == 1, 3_599))
}

fn is_read_back(expansion: &Expansion, end: End) -> bool {
    let list = spell_sets(expansion, end);
    read_sets(list.as_slice(), end) == Ok((*expansion, list.len()))
}

#[test]
fn each_choice_of_sets_with_each_end(rt: HostRuntime) -> Result<(), Fail> {
    assert_eq!(rt; choice(0), None);
    for (n, list) in LISTS.iter().enumerate() {
        let expansion = choice(n + 1).ok_or("no expansion")?;
        assert_eq!(rt; spell_sets(&expansion, End::Plain).as_slice(), *list);
        for end in [End::Ask, End::Reply, End::Plain] {
            assert!(rt; is_read_back(&expansion, end));
        }
    }
    Ok(())
}

#[test]
fn other_ends_by_hand(rt: HostRuntime) -> Result<(), Fail> {
    let speed = choice(2).ok_or("no speed")?;
    let course = choice(4).ok_or("no course")?;
    let asks = [102, 1, 23, 117, 5, 117, 117];
    let replies = [103, 35, 99, 122, 93, 122, 122];
    assert_eq!(rt; spell_sets(&speed, End::Ask).as_slice(), asks.as_slice());
    assert_eq!(rt;
        spell_sets(&course, End::Reply).as_slice(),
        replies.as_slice()
    );
    assert_eq!(rt;
        read_sets(&asks, End::Plain),
        Err(ReadRefusal::Outside(3, 117))
    );
    Ok(())
}

#[test]
fn no_information(rt: HostRuntime) -> Result<(), Fail> {
    let (out, none) = (Part::left_out(), Part::none());
    let enhanced = Expansion::new(none, out, out).ok_or("no enhanced position")?;
    let list = [100, 126, 127, 101, 127, 127];
    assert_eq!(rt;
        spell_sets(&enhanced, End::Plain).as_slice(),
        list.as_slice()
    );
    assert_eq!(rt; read_sets(&list, End::Plain), Ok((enhanced, 6)));
    let others = Expansion::new(out, none, none).ok_or("no speed and course")?;
    let longer = [102, 126, 103, 126, 127, 126, 127, 127, 100];
    assert_eq!(rt; read_sets(&longer, End::Plain), Ok((others, 8)));
    assert_eq!(rt; others.enhanced().kind(), PartKind::LeftOut);
    assert_eq!(rt; others.speed().kind(), PartKind::NoInformation);
    assert_eq!(rt; others.course(), none);
    Ok(())
}

#[test]
fn no_expansion(rt: HostRuntime) {
    let out = Part::left_out();
    assert_eq!(rt; Expansion::new(out, out, out), None);
    assert_eq!(rt; Expansion::new(out, out, Part::digits(3_600)), None);
    assert_eq!(rt; Expansion::new(out, Part::digits(10_000), out), None);
    assert_eq!(rt; Expansion::new(Part::digits(100_000_000), out, out), None);
}

#[test]
fn refused_lists(rt: HostRuntime) {
    let table: [(&[u8], ReadRefusal); 9] = [
        (&[], ReadRefusal::Short(0)),
        (&[100, 45], ReadRefusal::Short(2)),
        (&[101], ReadRefusal::Outside(0, 101)),
        (&[127], ReadRefusal::Outside(0, 127)),
        (&[102, 1, 23, 102], ReadRefusal::Outside(3, 102)),
        (&[103, 35, 99, 102], ReadRefusal::Outside(3, 102)),
        (&[103, 36], ReadRefusal::Outside(1, 36)),
        (&[102, 1, 23, 127, 15, 127], ReadRefusal::Short(6)),
        (
            &[102, 1, 23, 127, 15, 127, 117],
            ReadRefusal::Outside(6, 117),
        ),
    ];
    for (list, refusal) in table {
        assert_eq!(rt; read_sets(list, End::Plain), Err(refusal));
    }
    let wrong = ReadRefusal::Check {
        n: 4,
        want: 15,
        got: 16,
    };
    assert_eq!(rt; read_sets(&[102, 1, 23, 127, 16], End::Plain), Err(wrong));
}
