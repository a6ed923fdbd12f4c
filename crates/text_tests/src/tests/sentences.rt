//! Sentences of calls and expansions, and verdicts.
use call_texts::read_bare_call;
use call_values::{Call, End, Mmsi};
use dsc_sentences::*;
use expansion::{Expansion, Part};
use std::test::Fail;

/// Calls of every form, and the sentence of each without CR and LF.
const CALLS: [(&str, &str); 17] = [
    (
        "alert from=338040079 nature=106 pos=1423108312 time=2019 then=100",
        "$CDDSC,12,3380400790,12,06,00,1423108312,2019,,,S,*2F",
    ),
    (
        "alert from=338040079 nature=112 pos=9999999999 time=8888 then=126",
        "$CDDSC,12,3380400790,12,12,26,9999999999,8888,,,S,*29",
    ),
    (
        "ack from=002241022 casualty=338040079 nature=106 pos=1423108312 time=2019 then=100",
        "$CDDSC,16,0022410220,12,10,00,1423108312,2019,3380400790,06,S,*2F",
    ),
    (
        "relay to=all from=338158137 casualty=338040079 nature=106 pos=1423108312 time=2019 then=100 end=117",
        "$CDDSC,16,3381581370,12,12,00,1423108312,2019,3380400790,06,R,*28",
    ),
    (
        "relay to=area:1430840202 from=338158137 casualty=338040079 nature=106 pos=1423108312 time=2019 then=100 end=127",
        "$CDDSC,02,1430840202,12,12,00,1423108312,2019,3380400790,06,S,*27",
    ),
    (
        "relay to=group:023200001 from=338158137 casualty=338040079 nature=106 pos=1423108312 time=2019 then=100 end=117",
        "$CDDSC,14,3381581370,12,12,00,1423108312,2019,3380400790,06,R,*2A",
    ),
    (
        "relayack to=one:338158137 from=002241022 casualty=338040079 nature=106 pos=1423108312 time=2019 then=100",
        "$CDDSC,20,0022410220,12,12,00,1423108312,2019,3380400790,06,B,*39",
    ),
    (
        "relayack to=area:1430840202 from=002241022 casualty=338040079 nature=106 pos=1423108312 time=2019 then=100",
        "$CDDSC,02,1430840202,12,12,00,1423108312,2019,3380400790,06,B,*36",
    ),
    (
        "all cat=110 from=338158137 first=109 second=113 f1=44125000 f2=40412000",
        "$CDDSC,16,3381581370,10,09,13,4412500040412000,,,,S,*25",
    ),
    (
        "area to=1430840202 cat=108 from=338158137 first=100 second=126 f1=900016 f2=none",
        "$CDDSC,02,1430840202,08,00,26,900016,,,,S,*26",
    ),
    (
        "group to=023200001 cat=100 from=338158137 first=115 second=126 f1=none f2=none",
        "$CDDSC,14,3381581370,00,15,26,,,,,S,*28",
    ),
    (
        "one to=002241022 cat=100 from=338158137 first=109 second=126 f1=021820 f2=301205 end=117",
        "$CDDSC,20,3381581370,00,09,26,021820301205,,,,R,*2F",
    ),
    (
        "one to=002241022 cat=108 from=338158137 first=106 second=126 at=1423108312 end=122",
        "$CDDSC,20,3381581370,08,06,26,1423108312,,,,B,*39",
    ),
    (
        "test to=002241022 cat=100 from=338158137 end=117",
        "$CDDSC,20,3381581370,00,18,26,,,,,R,*23",
    ),
    (
        "test to=002241022 cat=100 from=338158137 end=122",
        "$CDDSC,20,3381581370,00,18,26,,,,,B,*33",
    ),
    (
        "askpos to=002241022 cat=100 from=338158137",
        "$CDDSC,20,3381581370,00,21,26,,,,,R,*29",
    ),
    (
        "pos to=002241022 cat=100 from=338158137 pos=1423108312 time=1902",
        "$CDDSC,20,3381581370,00,21,26,1423108312,1902,,,B,*3E",
    ),
];

/// Whether this is the sentence of the call, and is read as its record.
fn is_sentence_of(call: &Call, line: &[u8]) -> bool {
    let record = of_call(call, false);
    let bytes = print(&record);
    put_sentences(call, &None).as_slice() == bytes.as_slice()
        && bytes.as_slice().strip_suffix(b"\r\n") == Some(line)
        && read(bytes.as_slice()) == Ok(record)
}

/// Whether this is the sentence of the call with this text, and is read as its record.
fn is_sentence_of_text(text: &str, line: &[u8]) -> bool {
    match read_bare_call(text.as_bytes()) {
        Ok(call) => is_sentence_of(&call, line),
        Err(_) => false,
    }
}

#[test]
fn sentences_of_calls(rt: HostRuntime) -> Result<(), Fail> {
    for (text, line) in CALLS {
        assert!(rt; is_sentence_of_text(text, line.as_bytes()), "{text}");
    }
    Ok(())
}

/// The sentences of `expansions`.
const EXPANSIONS: [&[u8]; 6] = [
    b"$CDDSE,1,1,A,3380400790,00,45894494*1B",
    b"$CDDSE,1,1,A,3380400790,02,0125*12",
    b"$CDDSE,1,1,A,3380400790,00,45894494,02,0125*1F",
    b"$CDDSE,1,1,A,3380400790,03,3599*13",
    b"$CDDSE,1,1,A,3380400790,02,,03,0000*17",
    b"$CDDSE,1,1,A,3380400790,00,,02,,03,*17",
];

/// Expansions of one set, of two and of three.
fn expansions() -> Option<[Expansion; 6]> {
    let (out, none) = (Part::left_out(), Part::none());
    let enhanced = Part::digits(45_894_494);
    let speed = Part::digits(125);
    Some([
        Expansion::new(enhanced, out, out)?,
        Expansion::new(out, speed, out)?,
        Expansion::new(enhanced, speed, out)?,
        Expansion::new(out, out, Part::digits(3_599))?,
        Expansion::new(out, none, Part::digits(0))?,
        Expansion::new(none, none, none)?,
    ])
}

/// Whether this is the sentence of the expansion, and is read as its record.
fn is_sentence_of_expansion(from: Mmsi, expansion: &Expansion, line: &[u8]) -> bool {
    let record = of_expansion(from, expansion);
    let bytes = print_dse(&record);
    bytes.as_slice().strip_suffix(b"\r\n") == Some(line) && read_dse(bytes.as_slice()) == Ok(record)
}

#[test]
fn sentences_of_expansions(rt: HostRuntime) -> Result<(), Fail> {
    let from = Mmsi::new(338_040_079).ok_or("no sender")?;
    let expansions = expansions().ok_or("no expansions")?;
    for (expansion, line) in expansions.iter().zip(&EXPANSIONS) {
        assert!(rt; is_sentence_of_expansion(from, expansion, line));
    }
    Ok(())
}

/// Whether these are the sentences of the call with this text and of the expansion.
fn are_sentences_of(text: &str, expansion: &Option<Expansion>, lines: &[u8]) -> bool {
    match read_bare_call(text.as_bytes()) {
        Ok(call) => put_sentences(&call, expansion).as_slice() == lines,
        Err(_) => false,
    }
}

#[test]
fn call_and_expansion(rt: HostRuntime) -> Result<(), Fail> {
    let alert = CALLS[0].0;
    let enhanced = Part::digits(45_894_494);
    let out = Part::left_out();
    let expansion = Expansion::new(enhanced, out, out).ok_or("no expansion")?;
    let alone = b"$CDDSC,12,3380400790,12,06,00,1423108312,2019,,,S,*2F\r\n";
    assert!(rt; are_sentences_of(alert, &None, alone));
    let both =
        b"$CDDSC,12,3380400790,12,06,00,1423108312,2019,,,S,E*6A\r\n$CDDSE,1,1,A,3380400790,00,45894494*1B\r\n";
    assert!(rt; are_sentences_of(alert, &Some(expansion), both));
    Ok(())
}

#[test]
fn fields_of_an_acknowledgement(rt: HostRuntime) -> Result<(), Fail> {
    let bytes = b"$CDDSC,16,0022410220,12,10,00,1423108312,2019,3380400790,06,S,*2F\r\n";
    let s = read(bytes).map_err(|_| "refused")?;
    assert_eq!(rt; s.format(), 16);
    assert_eq!(rt; s.address(), [0, 0, 2, 2, 4, 1, 0, 2, 2, 0]);
    assert_eq!(rt; s.category(), Some(12));
    assert_eq!(rt; s.first(), Some(10));
    assert_eq!(rt; s.second(), Some(0));
    assert_eq!(rt; s.place(), [1, 4, 2, 3, 1, 0, 8, 3, 1, 2].as_slice());
    assert_eq!(rt; s.time(), Some(2019));
    assert_eq!(rt; s.distress(), Some([3, 3, 8, 0, 4, 0, 0, 7, 9, 0]));
    assert_eq!(rt; s.nature(), Some(6));
    assert_eq!(rt; s.end(), End::Plain);
    assert!(rt; !s.expanded());
    Ok(())
}

/// Lines and the verdicts on them, worked by hand.
const VERDICTS: [&str; 40] = [
    "$CDDSE,1,1,A,3380400790,00,45894494*1B : accepted",
    "$CDDSC,12,3380400790,12,06,00,1423108312,2019,,,S,*2F\r : accepted",
    "$CDDSC,12,3380400790,12,06,00,1423108312,2019,,,S,*2F\r\r : refused end",
    "$CDDSC,12,3380400790,12,06,00,1423108312,2019,,,S,*2E : refused checksum 2F 2E",
    "$CDDSC,12,3380400790,12,06,00,1423108312,2019,,,S,*2f : refused end",
    "$CDDSC,12,3380400790,12,06,00,1423108312,2019,,*,S,*2F : refused end",
    "$CDDSC,12,3380400790,12,06,00,1423108312,2019,,$,S,*2F : refused end",
    "$CDDSC,12,3380400790,12,06,00,1423108312,2019,,\x7f,S,*2F : refused end",
    "$ : refused start",
    " : refused start",
    "$CDDSE : refused start",
    "$CDDSC,*7E : refused checksum 7F 7E",
    "$CDDSC, : refused end",
    "$CDDSC,*7F : refused fields 1",
    "$CDDSC,12,3380400790,12,06,00,1423108312,2019,,,S,,*03 : refused fields 12",
    "$CDDSC,99,3380400790,12,06,00,1423108312,2019,,,S,*2C : refused field 1",
    "$CDDSC,12,338040079,12,06,00,1423108312,2019,,,S,*1F : refused field 2",
    "$CDDSC,12,3380400790,09,06,00,1423108312,2019,,,S,*25 : refused field 3",
    "$CDDSC,12,3380400790,,,,,,,,S,*2D : accepted",
    "$CDDSC,12,3380400790,12,6,00,1423108312,2019,,,S,*1F : refused field 4",
    "$CDDSC,12,3380400790,12,06,0x,1423108312,2019,,,S,*67 : refused field 5",
    "$CDDSC,12,3380400790,12,06,00,12345678901234567,2019,,,S,*13 : refused field 6",
    "$CDDSC,12,3380400790,12,06,00,1423108312,201,,,S,*16 : refused field 7",
    "$CDDSC,12,3380400790,12,06,00,1423108312,2019,338040079,,S,*1D : refused field 8",
    "$CDDSC,12,3380400790,12,06,00,1423108312,2019,,100,S,*1E : refused field 9",
    "$CDDSC,12,3380400790,12,06,00,1423108312,2019,,,T,*28 : refused field 10",
    "$CDDSC,12,3380400790,12,06,00,1423108312,2019,,,S,e*4A : refused field 11",
    "$CDDSE,1,1,Q,3380400790,00,*06 : accepted",
    "$CDDSE,2,1,A,3380400790,00,*15 : refused field 1",
    "$CDDSE,1,1,A,338040079,00,*26 : refused field 4",
    "$CDDSE,1,1,A,3380400790,01,*17 : refused field 5",
    "$CDDSE,1,1,A,3380400790,00,4589449*2F : refused field 6",
    "$CDDSE,1,1,A,3380400790,03,3600*10 : refused field 6",
    "$CDDSE,1,1,A,3380400790,02,,02,*16 : refused field 7",
    "$CDDSE,1,1,A,3380400790,03,,02,*17 : refused field 7",
    "$CDDSE,1,1,A,3380400790,00,,02,,03,,*3B : refused fields 11",
    "$CDDSE,1,1,A,3380400790,00*3A : refused fields 5",
    "$CDDSC,,,,,,,,,,,,,,,,,,,,,,,,,,,,,,,,,,,,,,,,,,,,,,,,,,,,,,,,,,,,,,,,,,,,,,,,,,,,,,,,, : refused too long 89",
    "$CDDSC,,,,,,,,,,,,,,,,,,,,,,,,,,,,,,,,,,,,,,,,,,,,,,,,,,,,,,,,,,,,,,,,,,,,,,,,,,, : refused too long 83",
    "$CDDSC,,,,,,,,,,,,,,,,,,,,,,,,,,,,,,,,,,,,,,,,,,,,,,,,,,,,,,,,,,,,,,,,,,,,,,,,,, : refused end",
];

#[test]
fn verdicts(rt: HostRuntime) -> Result<(), Fail> {
    for row in VERDICTS {
        let (line, told) = row.split_once(" : ").ok_or("no verdict")?;
        let verdict = put_verdict(&verdict_on(line.as_bytes()));
        assert_eq!(rt; verdict.as_slice(), told.as_bytes(), "{row}");
    }
    Ok(())
}
