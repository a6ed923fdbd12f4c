//! Words of the command line that are a plan, and words that are none.
use command_line::*;
use std::alloc::{AllocError, Global};
use std::test::Fail;

/// The words of a line, parted by `|`, so that a word may be empty or hold a blank.
fn words_of(alloc: Global, line: &str) -> Result<Vec<String>, AllocError> {
    let mut words = Vec::new(alloc);
    for word in line.split('|') {
        words.push(String::from_str(alloc, word)?)?;
    }
    Ok(words)
}

/// Word lists, and the plan that each is.
static PLANS: [(&str, Plan); 34] = [
    ("dsc|join", Plan::Join { workers: 1 }),
    ("dsc|evidence", Plan::Evidence { workers: 1 }),
    ("dsc|join|--workers|1", Plan::Join { workers: 1 }),
    ("dsc|join|--workers|9", Plan::Join { workers: 9 }),
    ("dsc|join|--workers|10", Plan::Join { workers: 10 }),
    ("dsc|join|--workers|64", Plan::Join { workers: 64 }),
    ("dsc|join|--workers=1", Plan::Join { workers: 1 }),
    ("dsc|join|--workers=64", Plan::Join { workers: 64 }),
    ("dsc|evidence|--workers|64", Plan::Evidence { workers: 64 }),
    ("dsc|evidence|--workers=2", Plan::Evidence { workers: 2 }),
    // The program's name is any word.
    ("|join", Plan::Join { workers: 1 }),
    ("--|join", Plan::Join { workers: 1 }),
    ("--help|evidence", Plan::Evidence { workers: 1 }),
    ("join|join", Plan::Join { workers: 1 }),
    ("/usr/bin/dsc|join|--workers=3", Plan::Join { workers: 3 }),
    // Commands without workers.
    ("dsc|encode", Plan::Encode { long: false }),
    ("dsc|encode|--dots|20", Plan::Encode { long: false }),
    ("dsc|encode|--dots=20", Plan::Encode { long: false }),
    ("dsc|encode|--dots|200", Plan::Encode { long: true }),
    ("dsc|encode|--dots=200", Plan::Encode { long: true }),
    ("dsc|sentences", Plan::Sentences),
    ("dsc|capture", Plan::Capture),
    ("dsc|exchange", Plan::Exchange),
    ("dsc|book", Plan::Book),
    ("dsc|replay", Plan::Replay { workers: 1 }),
    ("dsc|replay|--workers=64", Plan::Replay { workers: 64 }),
    ("dsc|watch", Plan::Watch { workers: 1 }),
    ("dsc|watch|--workers|1", Plan::Watch { workers: 1 }),
    ("dsc|watch|--workers|64", Plan::Watch { workers: 64 }),
    ("dsc|watch|--workers=2", Plan::Watch { workers: 2 }),
    ("dsc|watch|--workers=64", Plan::Watch { workers: 64 }),
    // A command with a number.
    ("dsc|make|1", Plan::Make { groups: 1 }),
    ("dsc|make|70", Plan::Make { groups: 70 }),
    ("dsc|make|1000", Plan::Make { groups: 1000 }),
];

/// Word lists that are no plan.
static REFUSED: [&str; 87] = [
    // No command, or none that there is.
    "dsc",
    "",
    "join",
    "dsc|",
    "dsc|listen",
    "dsc|Join",
    "dsc|joi",
    "dsc|joins",
    "dsc| join",
    "dsc|replay|--workers|65",
    "dsc|watch|--workers|0",
    "dsc|watch|--workers|65",
    "dsc|watch|--workers=",
    "dsc|watch|2",
    "dsc|watches",
    // Help and version are no plans.
    "dsc|help",
    "dsc|help|join",
    "dsc|--help",
    "dsc|-h",
    "dsc|--version",
    "dsc|-V",
    "dsc|join|--help",
    "dsc|join|-h",
    "dsc|join|help",
    "dsc|join|-V",
    // `--` isn't passed over.
    "dsc|--",
    "dsc|--|join",
    "dsc|join|--",
    "dsc|join|--workers=2|--",
    "dsc|join|--workers|--|2",
    // Numbers out of their range, or not plain.
    "dsc|join|--workers|0",
    "dsc|join|--workers|65",
    "dsc|join|--workers=01",
    "dsc|join|--workers|+1",
    "dsc|join|--workers|-1",
    "dsc|join|--workers| 1",
    "dsc|join|--workers=1 ",
    "dsc|join|--workers=1.0",
    "dsc|join|--workers=65537",
    "dsc|join|--workers=",
    "dsc|join|--workers|",
    "dsc|join|--workers",
    "dsc|join|--workers==1",
    // Other options, an option twice, a word too many.
    "dsc|join|--worker=1",
    "dsc|join|-w|1",
    "dsc|--workers=1|join",
    "dsc|join|--workers=1|--workers=1",
    "dsc|join|--workers|1|--workers|1",
    "dsc|join|evidence",
    "dsc|join|--workers=1|1",
    // The commands without workers.
    "dsc|encode|--dots|30",
    "dsc|encode|--dots=020",
    "dsc|encode|--dots=0",
    "dsc|encode|--dots",
    "dsc|encode|--dots=20|--dots=20",
    "dsc|encode|--workers=2",
    "dsc|join|--dots=20",
    "dsc|encode|20",
    "dsc|sentences|--dots=20",
    "dsc|sentences|sentences",
    "dsc|sentences|-h",
    "dsc|sentences|--",
    "dsc|sentences|",
    "dsc|capture|--workers=2",
    "dsc|capture|capture",
    "dsc|capture|1",
    "dsc|exchange|--workers=2",
    "dsc|exchange|exchange",
    "dsc|exchange|--",
    "dsc|exchanges",
    "dsc|book|book",
    "dsc|books",
    // The command with a number.
    "dsc|make",
    "dsc|make|",
    "dsc|make|0",
    "dsc|make|07",
    "dsc|make|1001",
    "dsc|make|65537",
    "dsc|make|+7",
    "dsc|make|-7",
    "dsc|make| 7",
    "dsc|make|seven",
    "dsc|make|7|7",
    "dsc|make|--number=7",
    "dsc|make|--number|7",
    "dsc|make|--|7",
    "dsc|make|--workers=2|7",
];

#[test]
fn words_at_the_edges_are_their_plan(rt: HostRuntime) -> Result<(), Fail> {
    let alloc = rt.alloc();
    for (line, plan) in PLANS {
        let words = words_of(alloc, line)?;
        assert_eq!(rt; plan_of(alloc, words.as_slice()), Ok(plan), "{line}");
    }
    Ok(())
}

#[test]
fn other_words_are_refused(rt: HostRuntime) -> Result<(), Fail> {
    let alloc = rt.alloc();
    let none = Vec::new(alloc);
    assert_eq!(rt; plan_of(alloc, none.as_slice()), Err(PlanError::Refused));
    for line in REFUSED {
        let words = words_of(alloc, line)?;
        assert_eq!(rt;
            plan_of(alloc, words.as_slice()),
            Err(PlanError::Refused),
            "{line}"
        );
    }
    Ok(())
}
