//! The number of live threads of a report.
ghost use Rattle.std.specs.Prelude.{◌≡◌};
ghost use Rattle.boot_laws.specs.Saying.{live_threads, is_live};

use boot_data::{Report, ThreadLine, ThreadState};

// Whether the thread of this line is live.
fn is_live_line(line: &ThreadLine) -> bool
    ensures { result ≡ is_live line.now }
{
    !matches!(line.state, ThreadState::Ended)
}

/// The number of threads of a report that have not ended.
pub fn live_of(report: &Report) -> usize
    ensures { result ≡ live_threads report.now }
{
    report
        .threads
        .as_slice()
        .iter()
        .filter(|line| is_live_line(line))
        .count()
}
