//! A table's positions are a queue of the core, and each step on them is one of its events: statements over plain data.

ghost use Rattle.std.specs.Prelude.{◌≡◌, ◌+◌, ◌<◌, ◌≤◌, ℕ, List, [], ◌∷◌, ◌++◌, map, length, false, Ok};
ghost use Rattle.std.specs.Prelude.{take, drop, slice_index_or, slice_set, ◌/◌, min};
ghost use mathlib.Core.Option.{some};
ghost use lib.ListN.{get_elem?};
ghost use Rattle.event_theory.specs.Queues.{claim, raise, take_first, join_queue, left};
ghost use Rattle.event_theory.specs.Lawful.{IsLawfulQueue};
ghost use Rattle.event_theory.specs.Marks.{shut};
ghost use Rattle.table_theory.specs.declared.queues.Batch.{Batch};
ghost use Rattle.table_theory.specs.declared.queues.Positions.{Positions};
ghost use Rattle.table_theory.specs.declared.queues.QueueView.{QueueView};
ghost use Rattle.table_theory.specs.Sharing.{given};
ghost use Rattle.table_theory.specs.Positioned.{Lawful, head_of, left_of, fresh, stage_at, with_claim, with_take};
ghost use Rattle.table_theory.specs.Positioned.{Grows, blank, tail_of, with_shut, with_write};
ghost use Rattle.table_theory.specs.Filing.{Owned, entry_of, moved, ListedOnce};
ghost use Rattle.table_theory.specs.Interleaving.{Ascending, joined, Interleaves};
ghost use Rattle.table_theory.specs.Listing.{Adjacent, ViewsShow, with_stage};
ghost use Rattle.table_theory.specs.QueueOf.{IsHistory, IsEvent, no_event, queue_of};

/// A table's positions are a lawful queue, and each step of a table on its positions is one event of this queue, or
/// none. Byte queues, chains and element queues all describe their places in this way.
pub fn positions_are_queues()
    ensures lawful { (q : Positions) (runs : List (Owned Batch))
        → Lawful q → IsHistory q runs → IsLawfulQueue (queue_of q runs) }
    ensures left { (q : Positions) (runs : List (Owned Batch))
        → IsHistory q runs → left (queue_of q runs) ≡ left_of q }
    ensures claimed { (q : Positions) (views : List QueueView) (seat : ℕ) (v w : QueueView) (items : List ℕ)
        → ViewsShow q views → get_elem? views seat ≡ some v → Lawful q → 0 < length items
        → length q.places + length items ≤ q.taken + q.room → q.shut ≡ false
        → w.runs ≡ v.runs ++ record { start = head_of q; places = map fresh items } ∷ [] → w.takes ≡ v.takes
        → Grows w.queue (with_claim q items)
        → IsEvent q (with_claim q items) seat v w (claim q.room seat items) }
    ensures stored { (q : Positions) (views : List QueueView) (seat number index at : ℕ) (v w : QueueView) (run : Batch)
        → ViewsShow q views → get_elem? views seat ≡ some v → get_elem? v.runs number ≡ some run
        → index < length run.places → run.start + index ≡ q.first + at → Lawful q → q.taken ≤ at
        → (slice_index_or run.places index blank).stage < 2 → stage_at q at ≤ 1
        → w.runs ≡ slice_set v.runs number (with_stage run index 1) → w.takes ≡ v.takes
        → Grows w.queue (with_write q at 1)
        → IsEvent q (with_write q at 1) seat v w no_event }
    ensures raised { (q : Positions) (views : List QueueView) (seat number index at : ℕ) (v w : QueueView) (run : Batch)
        → ViewsShow q views → get_elem? views seat ≡ some v → get_elem? v.runs number ≡ some run
        → index < length run.places → run.start + index ≡ q.first + at → Lawful q → q.taken ≤ at
        → (slice_index_or run.places index blank).stage < 2 → stage_at q at ≤ 2
        → w.runs ≡ slice_set v.runs number (with_stage run index 2) → w.takes ≡ v.takes
        → Grows w.queue (with_write q at 2)
        → (k : ℕ) × (event : IsEvent q (with_write q at 2) seat v w (raise seat k index))
        × (get_elem? event.shown.lists.runs k ≡ some (seat, number, run)) }
    ensures taken { (q : Positions) (views : List QueueView) (seat count : ℕ) (v w : QueueView)
        → ViewsShow q views → get_elem? views seat ≡ some v → Lawful q → 0 < count
        → q.taken + count ≤ length q.places → ((i : ℕ) → i < count → 2 ≤ stage_at q (q.taken + i))
        → w.takes ≡ v.takes ++ record { start = tail_of q; places = take count (drop q.taken q.places) } ∷ []
        → w.runs ≡ v.runs → Grows w.queue (with_take q count)
        → IsEvent q (with_take q count) seat v w (take_first q.room count) }
    ensures shut { (q : Positions) (views : List QueueView) (seat : ℕ) (v w : QueueView)
        → ViewsShow q views → get_elem? views seat ≡ some v → Lawful q → w.runs ≡ v.runs → w.takes ≡ v.takes
        → Grows w.queue (with_shut q)
        → IsEvent q (with_shut q) seat v w (λ c. Ok (shut c)) }
    ensures joined { (q : Positions) (call other count : ℕ) (runs : List (Owned Batch))
        → queue_of q (map (moved call other count) runs) ≡ join_queue call other (queue_of q runs) }
{}

/// If each end lists its entries in their order, the log of all entries interleaves the ends' lists. The runs of a
/// queue are such entries, and so are its takings.
pub fn logs_interleave()
    ensures { (first : ℕ) (log : List (Owned Batch)) (lists : List (List Batch))
        → Adjacent first log → ((k : ℕ) (o : Owned Batch) → get_elem? log k ≡ some o → 0 < length o.2.places)
        → ListedOnce log (joined lists ∷ []) → ((k : ℕ) (l : List Batch) → get_elem? lists k ≡ some l → Ascending l)
        → Interleaves (map entry_of log) lists }
{}

/// A split gives the new end half of the old end's share, and 2^21 parts at most, whatever the code's constant is
/// called.
pub fn split_gives()
    ensures { (share : ℕ) → given share ≡ min (share / 2) 2097152 }
{}
