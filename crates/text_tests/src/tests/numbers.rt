//! Numbers in lines, and their faults.
use line_grammar::{fixed_number, free_number};

// Ranges, bytes, and what is read of them: the number and how many bytes follow it, or how many are left at the fault.
const FREE: [(u64, u64, &str, Result<(u64, usize), usize>); 12] = [
    (210000, 270000, "20", Err(1)),
    (210000, 270000, "28", Err(1)),
    (210000, 270000, "271", Err(1)),
    (210000, 270000, "240000 ", Ok((240000, 1))),
    (60000, 165000, "5", Err(1)),
    (60000, 165000, "17", Err(1)),
    (60000, 165000, "6", Err(0)),
    (1, 16, "0", Err(1)),
    (1, 16, "161", Ok((16, 1))),
    (0, 63, "64:1", Ok((6, 3))),
    (0, 4294967295, "4294967296", Ok((429496729, 1))),
    (0, 4294967295, "07", Ok((0, 1))),
];

// The natures of distress.
const NATURES: [(u64, u64); 2] = [(100, 110), (112, 112)];

// Bytes, and what is read of them: the number and how many bytes follow it, or how many are left at the fault.
const FIXED: [(&str, Result<(u64, usize), usize>); 9] = [
    ("100", Ok((100, 0))),
    ("110", Ok((110, 0))),
    ("111", Err(1)),
    ("112 x", Ok((112, 2))),
    ("10", Err(0)),
    ("1x", Err(1)),
    ("0", Err(1)),
    ("12", Err(1)),
    ("1134", Err(2)),
];

#[test]
fn free_numbers_go_as_far_as_their_range(rt: HostRuntime) {
    for (least, most, text, want) in FREE {
        assert!(rt; most < 1 << 60 && least <= most, "{text}");
        let read = free_number(least, most, text.as_bytes()).map(|(number, rest)| (
            number,
            rest.len(),
        ));
        assert_eq!(rt; read, want, "{text}");
    }
}

#[test]
fn fixed_numbers_have_so_many_digits(rt: HostRuntime) {
    for (text, want) in FIXED {
        let read = fixed_number(3, &NATURES, text.as_bytes()).map(|(number, rest)| (
            number,
            rest.len(),
        ));
        assert_eq!(rt; read, want, "{text}");
    }
}
