//! The list of an end is true, and each change is an event of the core: statements over plain data.

ghost use Rattle.std.specs.Prelude.{◌≡◌, ◌≢◌, ◌+◌, ◌*◌, ◌-◌, ◌/◌, ◌%◌, ◌<◌, ◌≤◌, ◌⊎◌, ℕ, true, false, List, [], ◌∷◌};
ghost use Rattle.std.specs.Prelude.{◌++◌, length, slice_set, Ok};
ghost use Rattle.std.specs.List.{AllByRecursion};
ghost use mathlib.Core.Option.{some};
ghost use lib.ListN.{get_elem?};
ghost use Rattle.event_theory.specs.Marks.{shut};
ghost use Rattle.event_theory.specs.Queues.{claim, take_first};
ghost use Rattle.table_theory.specs.declared.queues.Batch.{Batch};
ghost use Rattle.table_theory.specs.declared.queues.QueueView.{QueueView};
ghost use Rattle.table_theory.specs.declared.views.AbsState.{AbsState};
ghost use Rattle.table_theory.specs.Ledgers.{Step, load, change, count_down, ExtendsTrace, IsValidStep};
ghost use Rattle.table_theory.specs.Ledgers.{IsValidView, Reaches, Passes};
ghost use Rattle.table_theory.specs.Apart.{AreApart};
ghost use Rattle.table_theory.specs.Filing.{Owned};
ghost use Rattle.table_theory.specs.Listing.{ViewsShow};
ghost use Rattle.table_theory.specs.Positioned as positions;
ghost use Rattle.table_theory.specs.QueueOf.{IsEvent, IsEventOf, IsHistory, no_event};
ghost use Rattle.table_theory.specs.Raises.{AreAt, Spot, raise_all, raise_each};
ghost use Rattle.batch_queue.specs.declared.ends.BatchEnd.{BatchEnd};
ghost use Rattle.batch_queue.specs.declared.ends.BatchQueue.{BatchQueue};
ghost use Rattle.batch_queue.specs.declared.layout.TheConstants.{MOST_PLACES, POSITIONS, SHUT};
ghost use Rattle.batch_queue.specs.declared.refusals.PutRefusal.TheVariants as not_put;
ghost use Rattle.batch_queue.specs.declared.refusals.TakeRefusal.TheVariants as not_taken;
ghost use Rattle.batch_queue.specs.declared.rule.BatchState.{BatchState};
ghost use Rattle.batch_queue.specs.Endings.{JoinedBy};
ghost use Rattle.batch_queue.specs.Handles.{view_of, room_of, IsEndOf, IsOnlyEnd};
ghost use Rattle.batch_queue.specs.Layout.{head_word, tail_word, free_word, ends_word, mark_word, width, mark};
ghost use Rattle.batch_queue.specs.Object.{items_of, mark_of, phase_at, IsEdge, IsBatch, IsParted, IsRest};
ghost use Rattle.batch_queue.specs.Object.{IsStop, AreIn};
ghost use Rattle.batch_queue.specs.Object.{Becomes, Grows, with_batch, with_up, with_back, with_taken};
ghost use Rattle.batch_queue.specs.Object.{with_freed, with_shut};
ghost use Rattle.batch_queue.specs.Object.{Lawful, with_part};
ghost use Rattle.batch_queue.specs.Own.{View, of_batches, part_of, run, taking};
ghost use Rattle.batch_queue.specs.Parts.{RefusedTakeSome};
ghost use Rattle.batch_queue.specs.Placed.{positions_of, raised_run};
ghost use Rattle.batch_queue.specs.Puts.{RefusedPut, RefusedSome};
ghost use Rattle.batch_queue.specs.Takings.{RefusedTake};

use table_theory::protocol::Protocol;

/// The list of an end is true: each entry that a call adds is a real step. The step found a lawful queue that the words
/// showed, and the number in its word, and made one event, or none. Real steps lead from the queue that the end had
/// seen to each of these entries, in their order. The last of them left the queue that the end sees then.
pub fn lists_are_true()
    ensures end { (end : BatchEnd) → ∥ IsValidView of_batches (view_of end) ∥₁ }
    ensures entries { (old : View) (new : BatchEnd) (entries : List (Step BatchState))
        → ExtendsTrace old entries (view_of new) → ∥ AllByRecursion (IsValidStep of_batches) entries ∥₁ }
    ensures order { (old new : BatchEnd) (entries : List (Step BatchState))
        → ExtendsTrace (view_of old) entries (view_of new)
        → ∥ Passes of_batches (view_of old).seen entries (view_of new).seen ∥₁ }
    ensures since { (old new : BatchEnd) (entries : List (Step BatchState))
        → ExtendsTrace (view_of old) entries (view_of new) → ∥ Reaches of_batches (view_of old).seen (view_of new).seen ∥₁ }
    ensures grows { (m n : AbsState BatchState) → Reaches of_batches m n → Grows m.object n.object }
    ensures change { (e : Step BatchState) → IsValidStep of_batches e
        → (e.next.object ≡ e.then.object) ⊎ Becomes e.then.object e.next.object }
    ensures lawful { (e : Step BatchState) → IsValidStep of_batches e → Lawful e.next.object }
{}

/// The list of an end is true after a join: real steps lead from the queue that either end had seen to the queue that
/// the joined end sees. The entry of the step that counts one end less is a real step.
pub fn joins_are_true()
    ensures since { (old other new : BatchEnd) → JoinedBy (view_of old) (view_of other) (view_of new)
        → ∥ Reaches of_batches (view_of old).seen (view_of new).seen ∥₁
        × ∥ Reaches of_batches (view_of other).seen (view_of new).seen ∥₁ }
    ensures entry { (old other new : BatchEnd) (t : JoinedBy (view_of old) (view_of other) (view_of new))
        → ∥ IsValidStep of_batches (count_down ends_word t.found) ∥₁ }
{}

/// An end sees a queue with as many places as its own queue has, at least one. If the queue was shut it stays shut, and
/// its tail never falls. Some views list the queue, this end's view among them. An end with the whole share lists it
/// alone.
pub fn ends_list_queues<C: Protocol>()
    ensures room { (queue : BatchQueue C) (end : BatchEnd) → IsEndOf queue end
        → ((view_of end).seen.object.room ≡ room_of queue) × (0 < room_of queue) }
    ensures shut { (old new : BatchEnd) (entries : List (Step BatchState))
        → ExtendsTrace (view_of old) entries (view_of new)
        → (view_of old).seen.object.shut ≡ true → (view_of new).seen.object.shut ≡ true }
    ensures tail { (old new : BatchEnd) (entries : List (Step BatchState))
        → ExtendsTrace (view_of old) entries (view_of new)
        → (view_of old).seen.object.taken ≤ (view_of new).seen.object.taken }
    ensures listed { (end : BatchEnd)
        → ∥ ((views : List QueueView) × (seat : ℕ) × ViewsShow (positions_of (view_of end).seen.object) views
        × (get_elem? views seat ≡ some (part_of (view_of end)))) ∥₁ }
    ensures only { (end : BatchEnd) → IsOnlyEnd end
        → ∥ ViewsShow (positions_of (view_of end).seen.object) (part_of (view_of end) ∷ []) ∥₁ }
{}

/// The meaning of the number that a step found: the number of ends, the head and the shut mark, the tail, the free
/// position, or the mark of a place. So the queue determines each of these words. A mark of a position of the window
/// says, in both directions, what is published and what is given back.
pub fn numbers_say()
    ensures ends { (found : ℕ) (m : AbsState BatchState) → IsValidStep of_batches (load ends_word found m) → found ≡ m.ends }
    ensures head { (e : Step BatchState) → e.word ≡ head_word → IsValidStep of_batches e
        → (e.found ≡ length (items_of e.then.object) + mark e.then.object.shut)
        × (length (items_of e.then.object) < POSITIONS) }
    ensures tail { (e : Step BatchState) → e.word ≡ tail_word → IsValidStep of_batches e → e.found ≡ e.then.object.taken }
    ensures free { (e : Step BatchState) → e.word ≡ free_word → IsValidStep of_batches e → e.found ≡ e.then.object.freed }
    ensures mark { (e : Step BatchState) (p : ℕ) → e.word ≡ mark_word e.then.object.room p → IsValidStep of_batches e
        → e.found ≡ mark_of e.then.object p }
    ensures published { (e : Step BatchState) (p : ℕ) → e.word ≡ mark_word e.then.object.room p
        → IsValidStep of_batches e → e.then.object.freed ≤ p → p < e.then.object.freed + e.then.object.room
        → e.found % 2 ≡ 0 → p < e.found / 2
        → ((i : ℕ) → p ≤ i → i < e.found / 2 → 1 ≤ phase_at e.then.object i)
        × IsStop e.then.object p × IsRest e.then.object.batches p (e.found / 2) }
    ensures not_published { (e : Step BatchState) (p end : ℕ) → e.word ≡ mark_word e.then.object.room p
        → IsValidStep of_batches e → IsBatch e.then.object.batches p end → e.then.object.taken ≤ p → e.found ≢ 2 * end
        → AreIn e.then.object 0 p end }
    ensures parted { (e : Step BatchState) (p : ℕ) → e.word ≡ mark_word e.then.object.room p
        → IsValidStep of_batches e → IsParted e.then.object p → e.then.object.taken ≤ p
        → (end : ℕ) × IsRest e.then.object.batches p end × (e.found ≡ 2 * end) }
    ensures given { (e : Step BatchState) (p : ℕ) → e.word ≡ mark_word e.then.object.room p
        → IsValidStep of_batches e → e.then.object.freed ≤ p → p < e.then.object.freed + e.then.object.room
        → e.found % 2 ≡ 1 → p < e.found / 2
        → ((i : ℕ) → p ≤ i → i < e.found / 2 → 3 ≤ phase_at e.then.object i)
        × IsEdge e.then.object.takings (e.found / 2) }
    ensures not_given { (e : Step BatchState) (p end : ℕ) → e.word ≡ mark_word e.then.object.room p
        → IsValidStep of_batches e → IsBatch e.then.object.takings p end → e.then.object.freed ≤ p → e.found ≢ 2 * end + 1
        → phase_at e.then.object p < 3 }
{}

/// Each change that an answer lists is the event of the core with that name. This holds for all views that list the
/// queue as the step found it, if one of them is the end's view. A publication is a raise of each item of the batch, in
/// their order, at one step. Giving places back, moving the window and parting a batch are no event.
pub fn changes_are_events()
    ensures claimed { (head : ℕ) (items : List ℕ) (m : AbsState BatchState) (views : List QueueView) (seat : ℕ)
        (v w : QueueView) → IsValidStep of_batches (change head_word head m (with_batch m.object items)) → 0 < length items
        → ViewsShow (positions_of m.object) views → get_elem? views seat ≡ some v
        → w.runs ≡ v.runs ++ run head items ∷ [] → w.takes ≡ v.takes
        → positions.Grows w.queue (positions_of (with_batch m.object items))
        → (m.object.shut ≡ false) × (head ≡ length (items_of m.object))
        × IsEvent (positions_of m.object) (positions_of (with_batch m.object items)) seat v w
        (claim m.object.room seat items) }
    ensures published { (word found a b : ℕ) (m : AbsState BatchState) (views : List QueueView) (seat number : ℕ)
        (v w : QueueView) (e : Batch) → IsValidStep of_batches (change word found m (with_up m.object a b))
        → IsBatch m.object.batches a b → AreIn m.object 0 a b → ViewsShow (positions_of m.object) views
        → get_elem? views seat ≡ some v → get_elem? v.runs number ≡ some e → e.start ≡ a → a + length e.places ≡ b
        → w.runs ≡ slice_set v.runs number (raised_run e 0 (length e.places)) → w.takes ≡ v.takes
        → positions.Grows w.queue (positions_of (with_up m.object a b))
        → (k : ℕ) × (event : IsEvent (positions_of m.object) (positions_of (with_up m.object a b)) seat v w
        (raise_all seat k 0 (length e.places)))
        × (get_elem? event.shown.lists.runs k ≡ some (seat, number, e)) }
    ensures taken { (tail new : ℕ) (m : AbsState BatchState) (views : List QueueView) (seat : ℕ) (v w : QueueView)
        → IsValidStep of_batches (change tail_word tail m (with_taken m.object new)) → m.object.taken < new
        → ViewsShow (positions_of m.object) views → get_elem? views seat ≡ some v
        → w.takes ≡ v.takes ++ taking (positions_of m.object) (new - m.object.taken) ∷ [] → w.runs ≡ v.runs
        → positions.Grows w.queue (positions_of (with_taken m.object new))
        → (tail ≡ m.object.taken) × IsStop m.object new
        × IsEvent (positions_of m.object) (positions_of (with_taken m.object new)) seat v w
        (take_first m.object.room (new - m.object.taken)) }
    ensures given { (word found a b : ℕ) (m : AbsState BatchState) (views : List QueueView) (seat : ℕ) (v w : QueueView)
        → IsValidStep of_batches (change word found m (with_back m.object a b)) → AreIn m.object 2 a b → a < b
        → ViewsShow (positions_of m.object) views → get_elem? views seat ≡ some v → w.runs ≡ v.runs
        → w.takes ≡ v.takes → positions.Grows w.queue (positions_of (with_back m.object a b))
        → IsEvent (positions_of m.object) (positions_of (with_back m.object a b)) seat v w no_event }
    ensures freed { (free new : ℕ) (m : AbsState BatchState) (views : List QueueView) (seat : ℕ) (v w : QueueView)
        → IsValidStep of_batches (change free_word free m (with_freed m.object new))
        → ViewsShow (positions_of m.object) views → get_elem? views seat ≡ some v → w.runs ≡ v.runs
        → w.takes ≡ v.takes → positions.Grows w.queue (positions_of (with_freed m.object new))
        → (free ≡ m.object.freed)
        × IsEvent (positions_of m.object) (positions_of (with_freed m.object new)) seat v w no_event }
    ensures parted { (word found p end : ℕ) (m : AbsState BatchState) (views : List QueueView) (seat : ℕ) (v w : QueueView)
        → IsValidStep of_batches (change word found m (with_part m.object p end))
        → ViewsShow (positions_of m.object) views → get_elem? views seat ≡ some v → w.runs ≡ v.runs
        → w.takes ≡ v.takes → positions.Grows w.queue (positions_of (with_part m.object p end))
        → IsEvent (positions_of m.object) (positions_of (with_part m.object p end)) seat v w no_event }
    ensures shut { (head : ℕ) (m : AbsState BatchState) (views : List QueueView) (seat : ℕ) (v w : QueueView)
        → IsValidStep of_batches (change head_word head m (with_shut m.object))
        → ViewsShow (positions_of m.object) views → get_elem? views seat ≡ some v → w.runs ≡ v.runs
        → w.takes ≡ v.takes → positions.Grows w.queue (positions_of (with_shut m.object))
        → IsEvent (positions_of m.object) (positions_of (with_shut m.object)) seat v w (λ c. Ok (shut c)) }
{}

/// Each change that an answer lists is the event of the core with that name, whichever ends made the runs: for each
/// history of the queue as the step found it, and a history exists. The event leaves a history of the queue as the step
/// left it. A publication raises each item of the batch, in their order, at one step, wherever the history has their
/// places; if the batch is a run of the history, the publication is a raise of all of that run.
pub fn changes_are_events_of_histories()
    ensures history { (e : Step BatchState) → IsValidStep of_batches e
        → (runs : List (Owned Batch)) × IsHistory (positions_of e.then.object) runs }
    ensures claimed { (head call number : ℕ) (items : List ℕ) (m : AbsState BatchState) (runs : List (Owned Batch))
        → IsValidStep of_batches (change head_word head m (with_batch m.object items)) → 0 < length items
        → IsHistory (positions_of m.object) runs → (m.object.shut ≡ false) × (head ≡ length (items_of m.object))
        × IsEventOf (positions_of m.object) runs (claim m.object.room call items)
        (positions_of (with_batch m.object items)) (runs ++ (call, number, run head items) ∷ []) }
    ensures published { (word found a b : ℕ) (m : AbsState BatchState) (runs : List (Owned Batch))
        → IsValidStep of_batches (change word found m (with_up m.object a b))
        → IsBatch m.object.batches a b → AreIn m.object 0 a b → IsHistory (positions_of m.object) runs
        → (spots : List Spot) × AreAt runs a spots b × (left : List (Owned Batch))
        × IsEventOf (positions_of m.object) runs (raise_each spots) (positions_of (with_up m.object a b)) left }
    ensures published_run { (word found a b k : ℕ) (m : AbsState BatchState) (runs : List (Owned Batch))
        (e : Owned Batch) → IsValidStep of_batches (change word found m (with_up m.object a b))
        → IsBatch m.object.batches a b → AreIn m.object 0 a b → IsHistory (positions_of m.object) runs
        → get_elem? runs k ≡ some e → e.2.start ≡ a → a + length e.2.places ≡ b
        → IsEventOf (positions_of m.object) runs (raise_all e.0 k 0 (length e.2.places))
        (positions_of (with_up m.object a b))
        (slice_set runs k (e.0, e.1, raised_run e.2 0 (length e.2.places))) }
    ensures taken { (tail new : ℕ) (m : AbsState BatchState) (runs : List (Owned Batch))
        → IsValidStep of_batches (change tail_word tail m (with_taken m.object new)) → m.object.taken < new
        → IsHistory (positions_of m.object) runs → (tail ≡ m.object.taken) × IsStop m.object new
        × IsEventOf (positions_of m.object) runs (take_first m.object.room (new - m.object.taken))
        (positions_of (with_taken m.object new)) runs }
    ensures given { (word found a b : ℕ) (m : AbsState BatchState) (runs : List (Owned Batch))
        → IsValidStep of_batches (change word found m (with_back m.object a b)) → AreIn m.object 2 a b → a < b
        → IsHistory (positions_of m.object) runs
        → IsEventOf (positions_of m.object) runs no_event (positions_of (with_back m.object a b)) runs }
    ensures freed { (free new : ℕ) (m : AbsState BatchState) (runs : List (Owned Batch))
        → IsValidStep of_batches (change free_word free m (with_freed m.object new)) → IsHistory (positions_of m.object) runs
        → (free ≡ m.object.freed)
        × IsEventOf (positions_of m.object) runs no_event (positions_of (with_freed m.object new)) runs }
    ensures parted { (word found p end : ℕ) (m : AbsState BatchState) (runs : List (Owned Batch))
        → IsValidStep of_batches (change word found m (with_part m.object p end)) → IsHistory (positions_of m.object) runs
        → IsEventOf (positions_of m.object) runs no_event (positions_of (with_part m.object p end)) runs }
    ensures shut { (head : ℕ) (m : AbsState BatchState) (runs : List (Owned Batch))
        → IsValidStep of_batches (change head_word head m (with_shut m.object)) → IsHistory (positions_of m.object) runs
        → IsEventOf (positions_of m.object) runs (λ c. Ok (shut c)) (positions_of (with_shut m.object)) runs }
{}

/// No head, tail or free position falls. A number that an entry of a call found is no less than what the end had seen
/// before the call, and no more than what the end sees then. It is no less than the number that an earlier entry of the
/// call found in the same word.
pub fn never_below()
    ensures head { (old new : BatchEnd) (before after : List (Step BatchState)) (e : Step BatchState)
        → ExtendsTrace (view_of old) (before ++ e ∷ after) (view_of new) → e.word ≡ head_word
        → (length (items_of (view_of old).seen.object) ≤ e.found % SHUT)
        × (e.found % SHUT ≤ length (items_of (view_of new).seen.object)) }
    ensures heads { (old new : BatchEnd) (before between after : List (Step BatchState)) (e f : Step BatchState)
        → ExtendsTrace (view_of old) (before ++ e ∷ (between ++ f ∷ after)) (view_of new)
        → e.word ≡ head_word → f.word ≡ head_word → e.found % SHUT ≤ f.found % SHUT }
    ensures tail { (old new : BatchEnd) (before after : List (Step BatchState)) (e : Step BatchState)
        → ExtendsTrace (view_of old) (before ++ e ∷ after) (view_of new) → e.word ≡ tail_word
        → ((view_of old).seen.object.taken ≤ e.found) × (e.found ≤ (view_of new).seen.object.taken) }
    ensures tails { (old new : BatchEnd) (before between after : List (Step BatchState)) (e f : Step BatchState)
        → ExtendsTrace (view_of old) (before ++ e ∷ (between ++ f ∷ after)) (view_of new)
        → e.word ≡ tail_word → f.word ≡ tail_word → e.found ≤ f.found }
    ensures free { (old new : BatchEnd) (before after : List (Step BatchState)) (e : Step BatchState)
        → ExtendsTrace (view_of old) (before ++ e ∷ after) (view_of new) → e.word ≡ free_word
        → ((view_of old).seen.object.freed ≤ e.found) × (e.found ≤ (view_of new).seen.object.freed) }
    ensures frees { (old new : BatchEnd) (before between after : List (Step BatchState)) (e f : Step BatchState)
        → ExtendsTrace (view_of old) (before ++ e ∷ (between ++ f ∷ after)) (view_of new)
        → e.word ≡ free_word → f.word ≡ free_word → e.found ≤ f.found }
{}

/// If one end takes in another, no position is in a batch of both ends, and no position is in a taking of both.
pub fn joins_are_apart()
    ensures runs { (old other new : BatchEnd) → JoinedBy (view_of old) (view_of other) (view_of new)
        → AreApart (view_of old).own.runs (view_of other).own.runs }
    ensures takes { (old other new : BatchEnd) → JoinedBy (view_of old) (view_of other) (view_of new)
        → AreApart (view_of old).own.takes (view_of other).own.takes }
{}

/// A call of an end with the whole share never returns Lost: no other end steps between its steps.
pub fn only_ends_are_never_lost<C: Protocol>()
    ensures put { (old new : BatchEnd) (room count head : ℕ) → IsOnlyEnd old
        → RefusedPut room (view_of old) count (not_put.Lost head) (view_of new) → ⊥ }
    ensures put_some { (old new : BatchEnd) (room count head : ℕ) → IsOnlyEnd old
        → RefusedSome room (view_of old) count (not_put.Lost head) (view_of new) → ⊥ }
    ensures take { (old new : BatchEnd) (room most tail : ℕ) → IsOnlyEnd old
        → RefusedTake room (view_of old) most (not_taken.Lost tail) (view_of new) → ⊥ }
    ensures take_some { (queue : BatchQueue C) (old new : BatchEnd) (most tail : ℕ) → IsEndOf queue old → IsOnlyEnd old
        → RefusedTakeSome (room_of queue) (view_of old) most (not_taken.Lost tail) (view_of new) → ⊥ }
{}

/// The numbers of the layout: where the words are, and how many words and places a queue can have. The bound of its
/// positions, and the mark of a shut queue.
///
/// A cache line has 8 words, and a processor fetches lines in pairs. The head, the tail, the free position and the
/// first mark are 16 words apart, so they are in pairs of their own. Each of them begins a pair if the table's memory
/// begins at one.
pub fn layout_is()
    ensures words { (head_word ≡ 0) × (ends_word ≡ 1) × (tail_word ≡ 16) × (free_word ≡ 32) }
    ensures marks { (room position : ℕ) → mark_word room position ≡ position % room + 48 }
    ensures width { (room : ℕ) → width room ≡ room + 48 }
    ensures most { (MOST_PLACES ≡ 16777216) × (POSITIONS ≡ 4611686018427387904) × (SHUT ≡ 9223372036854775808) }
{}
