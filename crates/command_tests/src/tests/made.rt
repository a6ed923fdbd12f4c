//! Summaries of generated joins.
use generated_join::*;
use receiver_pool::Open;
use std::test::Fail;

// Numbers of groups, and the numbers of groups that are reported and of those that name a missing place. In every seven
// groups the last one isn't reported.
const SUMMARIES: [(u16, u16, u16); 6] = [
    (0, 0, 0),
    (1, 1, 0),
    (6, 6, 0),
    (7, 6, 1),
    (14, 12, 2),
    (20, 18, 2),
];

#[test]
fn every_seventh_group_is_missing(rt: HostRuntime) -> Result<(), Fail> {
    for (groups, reported, missing) in SUMMARIES {
        let summary = summary_of(rt.alloc(), groups, &Open)?;
        let counts = Summary {
            groups,
            receptions: 4 * groups,
            reported,
            missing,
        };
        assert_eq!(rt; summary, counts, "{groups}");
        assert_eq!(rt; summary.is_whole(), missing == 0);
    }
    Ok(())
}

#[test]
fn four_lines(rt: HostRuntime) -> Result<(), Fail> {
    let text = summary_of(rt.alloc(), 7, &Open)?.text();
    let lines = b"groups 7\nreceptions 28\nreported 6\nmissing 1\n";
    assert_eq!(rt; text.as_slice(), lines.as_slice());
    Ok(())
}
