//! The engine with small commands: limits, faults and failing streams.
ghost use Rattle.std.specs.Prelude.{◌≡◌, ℕ, ◌≤◌, nat_lt, None, [], ◌∷◌, ◌++◌, codes, length, slice_index, if◌then◌else◌};
ghost use Rattle.line_grammar.specs.Bytes.{line_feed};
ghost use Rattle.line_engine.specs.Lines.{Lines};
ghost use Rattle.line_engine.specs.Said.{said};
ghost use Rattle.line_engine.specs.Determined.{IsDetermined};

use byte_streams::{ByteSink, ByteSource, Failed, Source, Status, SureSink};
use line_engine::{
    Command, LONGEST_LINE, Refusal, drive, limits, one_first_fault, one_output, said_lines,
};
use std::alloc::{AllocError, Global};
use std::process::Abort;
use std::test::Fail;

/// Says each line again. A line that begins with `!` is ill-formed, and after three lines one that begins with `+` is a
/// group too many.
#[derive(Drop)]
struct Echo {
    count: usize,
}

/// The first byte of a line, 0 where it is empty.
fn first_byte(line: &[u8]) -> u8
    ensures { result ≡ slice_index line.now 0 }
{
    if line.is_empty() { 0 } else { line[0] }
}

impl Command for Echo {
    ghost meaning = { record {
      IsIllFormed = λ _ line n. (slice_index line 0 ≡ 33) × (n ≡ 1);
      IsOverfull = λ earlier line. (slice_index line 0 ≡ 43) × (3 ≤ length earlier);
      Gives = λ lines text. text ≡ said (λ _ line. line ++ line_feed ∷ []) lines;
      Ends = λ lines text status. (text ≡ said (λ _ line. line ++ line_feed ∷ []) lines) × (status ≡ 0);
    } };

    ghost stands_for = { λ echo lines text. (text ≡ said (λ _ line. line ++ line_feed ∷ []) lines)
        × (echo.count ≡ length lines) };

    ghost gives = { λ echo lines text h. h.0 };

    fn take(&mut self, line: &[u8], out: &mut Vec<u8>) -> Result<(), Refusal> {
        let first = first_byte(line);
        if first == b'!' {
            return Err(Refusal::Column(1));
        }
        if first == b'+' && self.count >= 3 {
            return Err(Refusal::TooManyGroups);
        }
        self.count += 1;
        out.extend_from_slice(line)?;
        out.push(b'\n')?;
        Ok(())
    }

    fn finish(&mut self, _out: &mut Vec<u8>) -> Result<Status, AllocError> {
        Ok(Status::new(0))
    }
}

/// The law that lines determine what is said again of them. It does nothing.
fn echoes_are_determined()
    ensures { IsDetermined ⟦<Echo as Command>⟧.meaning }
{}

/// Says at the end whether there was a line, and ends with 1 where there was one.
#[derive(Drop)]
struct Seen {
    any: bool,
}

impl Command for Seen {
    ghost meaning = { record {
      IsIllFormed = λ _ _ _. ⊥;
      IsOverfull = λ _ _. ⊥;
      Gives = λ _ text. text ≡ [];
      Ends = λ lines text status. (text ≡ (if nat_lt 0 (length lines) then codes "some\n" else []))
          × (status ≡ (if nat_lt 0 (length lines) then 1 else 0));
    } };

    ghost stands_for = { λ seen lines text. (text ≡ []) × (seen.any ≡ nat_lt 0 (length lines)) };

    ghost gives = { λ seen lines text h. h.0 };

    fn take(&mut self, _line: &[u8], _out: &mut Vec<u8>) -> Result<(), Refusal> {
        self.any = true;
        Ok(())
    }

    fn finish(&mut self, out: &mut Vec<u8>) -> Result<Status, AllocError> {
        if self.any {
            out.extend_from_slice(b"some\n")?;
            return Ok(Status::new(1));
        }
        Ok(Status::new(0))
    }
}

/// Gives one byte again and again, and never ends.
#[derive(Drop)]
struct Endless {
    byte: u8,
}

impl Source for Endless {
    ghost left = { λ _. None };

    ghost faults = { λ _. 0 };

    fn read(&mut self, into: &mut [u8]) -> Result<usize, Failed> {
        into.fill(self.byte);
        Ok(into.len())
    }
}

#[tactic(auto, unfolding(line_engine::specs::Said::said_behind))]
/// The status and the text of a run over these bytes, of which a read gives at most `piece`, where these reads and
/// these writes and flushes fail.
fn echoed(
    alloc: Global,
    bytes: &[u8],
    piece: usize,
    reads: &[u64],
    writes: &[u64],
) -> Result<(u8, Vec<u8>), AllocError>
    requires { 1 ≤ piece }
{
    let mut source = ByteSource::new(bytes.to_vec(alloc)?, piece, reads.to_vec(alloc)?);
    let mut sink = ByteSink::new(alloc, 1_000_000, 60_000, writes.to_vec(alloc)?)?;
    let mut echo = Echo { count: 0 };
    let status = drive(alloc, &mut echo, &mut source, &mut sink);
    Ok((status.number(), sink.bytes().to_vec(alloc)?))
}

#[tactic(auto, unfolding(line_engine::specs::Said::said_behind))]
/// What the sink has of a run over an endless source of one byte.
fn of_endless(alloc: Global, byte: u8) -> Result<(u8, Vec<u8>), AllocError> {
    let mut sink = SureSink::new(alloc, 100_000, 1000)?;
    let mut echo = Echo { count: 0 };
    let status = drive(alloc, &mut echo, &mut Endless { byte }, &mut sink);
    Ok((status.number(), sink.bytes().to_vec(alloc)?))
}

/// That a run ended with this status, and wrote this text.
fn compare(rt: &impl Abort, run: &(u8, Vec<u8>), status: u8, text: &[u8]) {
    assert_eq!(rt; run.0, status);
    assert_eq!(rt; run.1.as_slice(), text);
}

/// That a run over too much ended with status 7, and with this text.
fn compare_end(rt: &impl Abort, run: &(u8, Vec<u8>), end: &[u8]) {
    assert_eq!(rt; run.0, 7);
    assert!(rt; run.1.ends_with(end));
}

/// Lines of so many bytes each, which a line feed ends.
fn lines_of_length(alloc: Global, count: u32, length: usize) -> Result<Vec<u8>, AllocError> {
    let mut bytes = Vec::new(alloc);
    for _ in 0..count {
        for _ in 0..length {
            bytes.push(b'a')?;
        }
        bytes.push(b'\n')?;
    }
    Ok(bytes)
}

// The engine's laws, which do nothing, are met by this command.
#[test]
fn lines_are_told(rt: HostRuntime) -> Result<(), Fail> {
    limits();
    said_lines();
    one_first_fault::<Echo>();
    echoes_are_determined();
    one_output::<Echo>();
    let rows: [(&[u8], u8, &[u8]); 7] = [
        (b"", 0, b""),
        (b"\n", 0, b"\n"),
        (b"ab\n\ncd", 0, b"ab\n\ncd\n"),
        (b"ab\n!\ncd\n", 3, b"ab\ndsc: line 2 column 1\n"),
        (b"!", 3, b"dsc: line 1 column 1\n"),
        (
            b"+a\n+b\n\n+c",
            7,
            b"+a\n+b\n\ndsc: line 4 too many groups\n",
        ),
        (
            b"a\n+\n\n+\n!\n",
            7,
            b"a\n+\n\ndsc: line 4 too many groups\n",
        ),
    ];
    for (input, status, text) in rows {
        for piece in [1, 2, 1000] {
            let run = echoed(rt.alloc(), input, piece, &[], &[])?;
            compare(&rt, &run, status, text);
        }
    }
    Ok(())
}

#[test]
fn endless_sources_end(rt: HostRuntime) -> Result<(), Fail> {
    let run = of_endless(rt.alloc(), b'a')?;
    compare(&rt, &run, 7, b"dsc: line 1 too long\n");
    let run = of_endless(rt.alloc(), b'\n')?;
    compare_end(&rt, &run, b"\n\ndsc: line 65537 too many lines\n");
    assert_eq!(rt; run.1.len(), 65_536 + 31);
    Ok(())
}

#[test]
fn each_failing_call_is_told(rt: HostRuntime) -> Result<(), Fail> {
    let input = b"ab\ncde\n\nf";
    // What was read before the call that fails, in pieces of two bytes, gave these texts.
    let texts: [&[u8]; 6] = [b"", b"", b"ab\n", b"ab\n", b"ab\ncde\n\n", b"ab\ncde\n\n"];
    for (text, call) in texts.into_iter().zip(1..7) {
        let failing = vec![in rt.alloc(); call]?;
        let run = echoed(rt.alloc(), input, 2, &failing, &[])?;
        compare(&rt, &run, 4, text);
    }
    let fronts: [&[u8]; 4] = [b"", b"ab\n", b"ab\ncde\n\n", b"ab\ncde\n\nf\n"];
    for (text, call) in fronts.into_iter().zip(1..5) {
        let failing = vec![in rt.alloc(); call]?;
        let run = echoed(rt.alloc(), input, 2, &[], &failing)?;
        compare(&rt, &run, 5, text);
    }
    Ok(())
}

/// That lines are said again in whole, and that with these bytes after them a run ends with this text.
fn try_limit(
    rt: &impl Abort,
    alloc: Global,
    lines: &[u8],
    piece: usize,
    more: &[u8],
    end: &[u8],
) -> Result<(), AllocError>
    requires { 1 ≤ piece }
{
    compare(rt, &echoed(alloc, lines, piece, &[], &[])?, 0, lines);
    let mut longer = lines.to_vec(alloc)?;
    longer.extend_from_slice(more)?;
    compare_end(rt, &echoed(alloc, &longer, piece, &[], &[])?, end);
    Ok(())
}

// The longest lines cross the buffer.
#[test]
fn lines_at_the_limits(rt: HostRuntime) -> Result<(), Fail> {
    let alloc = rt.alloc();
    let longest = lines_of_length(alloc, 32, LONGEST_LINE)?;
    let longer = vec![in alloc; b'a'; LONGEST_LINE + 1]?;
    let too_long = b"a\ndsc: line 33 too long\n";
    try_limit(&rt, alloc, &longest, 200_000, &longer, too_long)?;
    let most = lines_of_length(alloc, 65_536, 1)?;
    let too_many = b"a\na\ndsc: line 65537 too many lines\n";
    try_limit(&rt, alloc, &most, 3, b"!", too_many)?;
    Ok(())
}

// 649 lines of 101 bytes are the first to pass 65,536 bytes; they are written in two pieces, and the third call fails.
#[test]
fn much_text_is_written_between_two_reads(rt: HostRuntime) -> Result<(), Fail> {
    let input = lines_of_length(rt.alloc(), 1200, 100)?;
    let (status, told) = echoed(rt.alloc(), &input, 200_000, &[], &[3])?;
    assert_eq!(rt; status, 5);
    assert_eq!(rt; told.len(), 649 * 101);
    Ok(())
}

#[test]
fn quiet_commands_write_at_the_end(rt: HostRuntime) -> Result<(), Fail> {
    let rows: [(&[u8], &[u64], u8, &[u8]); 3] = [
        (b"", &[], 0, b""),
        (b"a\nb", &[], 1, b"some\n"),
        (b"a\nb", &[2], 4, b""),
    ];
    for (input, fail, status, text) in rows {
        let mut source = ByteSource::new(input.to_vec(rt.alloc())?, 2, fail.to_vec(rt.alloc())?);
        let mut sink = ByteSink::new(rt.alloc(), 100, 100, Vec::new(rt.alloc()))?;
        let mut seen = Seen { any: false };
        let was = drive(rt.alloc(), &mut seen, &mut source, &mut sink);
        assert_eq!(rt; was.number(), status);
        assert_eq!(rt; sink.bytes(), text);
    }
    Ok(())
}
