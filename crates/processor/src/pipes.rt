//! The wait queues of a pipe.
ghost use Rattle.std.specs.Prelude.{◌≡◌};
ghost use Rattle.processor.specs.Pipes.{readers_of, writers_of};
ghost use Rattle.processor.specs.Queues.{waits_at};

use boot_data::BootPlan;
use boot_data::plan::{PlannedQueue, QueueIndex};
use event_theory::WaitNumber;

// The wait queues of those who find nothing to hear, and of those who find no room, if the queue is a pipe.
pub(crate) fn waits_of(
    plan: &BootPlan,
    queue: QueueIndex,
) -> (Option<WaitNumber>, Option<WaitNumber>)
    ensures readers { result.0 ≡ readers_of (waits_at plan.now queue) }
    ensures writers { result.1 ≡ writers_of (waits_at plan.now queue) }
{
    let QueueIndex::Small(index) = queue else {
        return (None, None);
    };
    match plan.queues.as_slice().get(index) {
        Some(
            PlannedQueue {
                waits: Some(waits),
                ..
            },
        ) => (Some(waits.readers), Some(waits.writers)),
        _ => (None, None),
    }
}
