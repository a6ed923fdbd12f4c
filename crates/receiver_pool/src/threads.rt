//! How many threads the receptions of a batch pay for, and which workers each of them acts for.
ghost use Rattle.std.specs.Prelude.{◌+◌, ◌<◌, ◌≤◌};

/// A thread pays where there are this many elements for it: to start it, and to have them come to another processor,
/// takes about as long as to read them.
const ELEMENTS_OF_A_THREAD: usize = 524_288;

/// How many threads act for so many workers who read this many elements: as many as these pay for, no more than there
/// are workers, and at least two where there are two workers.
pub(crate) fn threads_for(workers: u32, elements: usize) -> u32
    requires { 1 ≤ workers }
    ensures some { (1 ≤ result) × (result ≤ workers) }
    ensures two { 2 ≤ workers → 2 ≤ result }
{
    let paid = (elements / ELEMENTS_OF_A_THREAD).min(64) as u32;
    paid.max(2).min(workers)
}

/// Where the workers from `low` on and below `high` are parted: a new thread, or several, act for those below. Of those
/// that have one of so many receptions it takes half, and where it is one of two threads a quarter, since its caller
/// begins before it has started. Workers that have none are with the last of them.
pub(crate) fn parted(low: u32, high: u32, receptions: usize, threads: u32) -> u32
    requires { low + 2 ≤ high }
    ensures { (low < result) × (result < high) }
{
    let busy = receptions.min(high as usize) as u32;
    let all = busy.saturating_sub(low);
    let share = if threads == 2 {
        all / 4
    } else {
        all.div_ceil(2)
    };
    low.saturating_add(share).max(low + 1).min(high - 1)
}
