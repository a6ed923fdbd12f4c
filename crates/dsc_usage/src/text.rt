//! How the program is used.

/// How the program is used, in ten lines at most: its version, its commands with their options, and where its manual
/// is. The last line has no line feed.
pub const USAGE: &str = "dsc 0.10.0: calls of maritime digital selective calling (DSC)
usage: dsc COMMAND < INPUT > OUTPUT, where COMMAND is one of
  join [--workers N]    evidence [--workers N]    watch [--workers N]
  capture               encode [--dots D]         sentences
  book                  replay [--workers N]      exchange
  make N
--workers takes 1 to 64, --dots 20 or 200, make 1 to 1000.
`man dsc` says what each reads and writes.";
