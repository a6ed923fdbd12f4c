//! The program `dsc`: the commands of the library `dsc_cmd` over the standard streams.
#![tactic(auto)]

use dsc_cmd::{StdSink, StdSource, run};
use dsc_usage::{USAGE, nearest_command};
use receiver_pool::Open;
use std::alloc::{AllocError, Global};
use std::io::Eprint;
use std::process::ExitCode;
use std::rt::Env;
use std::{env, io};

/// The command line's words, the program's name first. Words that are no text name no command, as no
/// words do.
fn words<R: Env + AllocGlobal>(rt: &R, alloc: Global) -> Result<Vec<String>, AllocError> {
    let args = match env::args(rt) {
        Ok(args) => args,
        Err(error) if error.kind() == io::ErrorKind::OutOfMemory => return Err(AllocError),
        Err(_) => return Ok(Vec::new(alloc)),
    };
    let mut words = Vec::new(alloc);
    for word in args {
        words.push(word)?;
    }
    Ok(words)
}

/// Says on the standard error which command was meant, where the first word nearly is one, and how the program is used.
#[inline(never)]
fn print_usage(rt: &impl Eprint, alloc: Global, words: &[String]) {
    if let Some(word) = words.get(1) {
        if let Ok(Some(command)) = nearest_command(alloc, word.as_str()) {
            let _ = eprintln!(rt; "dsc: did you mean {command}?");
        }
    }
    let _ = eprintln!(rt; "{USAGE}");
}

/// Says on the standard error what failed, or what the line on the standard output means for whoever doesn't see it.
/// Where that can't be written, the status alone says so.
fn explain_status(rt: &impl Eprint, status: u8) {
    let line = match status {
        3 | 7 => "dsc: the input was refused: the output's last line says where",
        4 => "dsc: the input failed",
        5 => "dsc: the output failed",
        6 => "dsc: out of memory",
        _ => return,
    };
    let _ = eprintln!(rt; "{line}");
}

fn main(rt: HostRuntime) -> ExitCode {
    let Ok(words) = words(&rt, rt.alloc()) else {
        explain_status(&rt, 6);
        return ExitCode::from(6);
    };
    let mut source = StdSource::new(rt.reader());
    let mut sink = StdSink::new(io::writer(&rt));
    let status = run(&rt, rt.alloc(), &words, &mut source, &mut sink, &Open).number();
    if status == 2 {
        print_usage(&rt, rt.alloc(), &words);
    }
    explain_status(&rt, status);
    ExitCode::from(status)
}
