//! How long a sent call waits for its answer.
ghost use Rattle.std.specs.Prelude.{◌≡◌};

/// How long a sent call waits for its answer, in milliseconds, before it is sent again, and before it is given up after
/// that (this project's profile).
pub const ANSWER_WAIT: u64 = 300_000;

/// The law that fixes this number. That sent calls wait so long is what the rules of held calls say. It does nothing.
pub fn wait_for_answers()
    ensures { ANSWER_WAIT ≡ 300000 }
{}
