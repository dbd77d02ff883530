//! The list of an end is true, and each change is an event of the core: statements over plain data.

ghost use Rattle.std.specs.Prelude.{◌≡◌, ◌≢◌, ◌+◌, ◌*◌, ◌-◌, ◌%◌, ◌<◌, ◌≤◌, ◌⊎◌, ℕ, true, false, List, [], ◌∷◌, ◌++◌};
ghost use Rattle.std.specs.Prelude.{length, take, slice_index_or, slice_set, Ok};
ghost use Rattle.std.specs.List.{AllByRecursion};
ghost use mathlib.Core.Option.{some};
ghost use lib.ListN.{get_elem?};
ghost use Rattle.event_theory.specs.Marks.{shut};
ghost use Rattle.event_theory.specs.Queues.{claim, raise, take_first};
ghost use Rattle.table_theory.specs.declared.positions.TheConstants.{POSITIONS};
ghost use Rattle.table_theory.specs.declared.queues.Batch.{Batch};
ghost use Rattle.table_theory.specs.declared.queues.Positions.{Positions};
ghost use Rattle.table_theory.specs.declared.queues.QueueView.{QueueView};
ghost use Rattle.table_theory.specs.declared.views.AbsState.{AbsState};
ghost use Rattle.table_theory.specs.Ledgers.{Step, load, change, count_down, ExtendsTrace, IsValidStep};
ghost use Rattle.table_theory.specs.Ledgers.{IsValidView, Reaches, Passes};
ghost use Rattle.table_theory.specs.Apart.{AreApart};
ghost use Rattle.table_theory.specs.Filing.{Owned};
ghost use Rattle.table_theory.specs.Listing.{ViewsShow, with_stage};
ghost use Rattle.table_theory.specs.Positioned.{Lawful, Grows, blank, fresh, item_at, stage_at, head_of, tail_of};
ghost use Rattle.table_theory.specs.Positioned.{left_of};
ghost use Rattle.table_theory.specs.Positioned.{with_claim, with_take, with_shut};
ghost use Rattle.table_theory.specs.QueueOf.{IsEvent, IsEventOf, IsHistory, no_event};
ghost use Rattle.claim_queue.specs.declared.claim.ClaimRefusal.TheVariants as not_claimed;
ghost use Rattle.claim_queue.specs.declared.ends.QueueEnd.{QueueEnd};
ghost use Rattle.claim_queue.specs.declared.layout.TheConstants.{MOST_PLACES, SHUT};
ghost use Rattle.claim_queue.specs.declared.take.TakeRefusal.TheVariants as not_taken;
ghost use Rattle.claim_queue.specs.Answers.{Refused};
ghost use Rattle.claim_queue.specs.Changes.{Becomes, IsPlace, with_stage_at};
ghost use Rattle.claim_queue.specs.Endings.{JoinedBy};
ghost use Rattle.claim_queue.specs.Handles.{view_of, IsOnlyEnd};
ghost use Rattle.claim_queue.specs.Layout.{head_word, tail_word, ends_word, data_word, flag_word, width, mark};
ghost use Rattle.claim_queue.specs.Own.{View, of_queues, part_of, run, taking};
ghost use Rattle.claim_queue.specs.Takings.{RefusedTake, OfBoth, stop_position};

/// The list of an end is true: each entry that a call adds is a real step. The step found a lawful queue that the words
/// showed, and the number in its word, and made one event of the core, or none. Real steps lead from the queue that the
/// end had seen to each of these entries, in their order. The last of them left the queue that the end sees then.
pub fn lists_are_true()
    ensures end { (n : ℕ) (end : QueueEnd n) → ∥ IsValidView of_queues (view_of end) ∥₁ }
    ensures entries { (n : ℕ) (old : View) (new : QueueEnd n) (entries : List (Step Positions))
        → ExtendsTrace old entries (view_of new) → ∥ AllByRecursion (IsValidStep of_queues) entries ∥₁ }
    ensures order { (n : ℕ) (old new : QueueEnd n) (entries : List (Step Positions))
        → ExtendsTrace (view_of old) entries (view_of new)
        → ∥ Passes of_queues (view_of old).seen entries (view_of new).seen ∥₁ }
    ensures since { (n : ℕ) (old new : QueueEnd n) (entries : List (Step Positions))
        → ExtendsTrace (view_of old) entries (view_of new) → ∥ Reaches of_queues (view_of old).seen (view_of new).seen ∥₁ }
    ensures grows { (m n : AbsState Positions) → Reaches of_queues m n → Grows m.object n.object }
    ensures change { (e : Step Positions) → IsValidStep of_queues e
        → (e.next.object ≡ e.then.object) ⊎ Becomes e.then.object e.next.object }
    ensures lawful { (e : Step Positions) → IsValidStep of_queues e → Lawful e.next.object }
{}

/// The list of an end is true after a join: real steps lead from the queue that either end had seen to the queue that
/// the joined end sees. The entry of the step that counts one end less is a real step.
pub fn joins_are_true()
    ensures since { (n : ℕ) (old other new : QueueEnd n) → JoinedBy (view_of old) (view_of other) (view_of new)
        → ∥ Reaches of_queues (view_of old).seen (view_of new).seen ∥₁
        × ∥ Reaches of_queues (view_of other).seen (view_of new).seen ∥₁ }
    ensures entry { (n : ℕ) (old other new : QueueEnd n) (t : JoinedBy (view_of old) (view_of other) (view_of new))
        → ∥ IsValidStep of_queues (count_down ends_word t.found) ∥₁ }
{}

/// An end sees a queue with as many places as its type says, at least one. If the queue was shut it stays shut, and its
/// tail never falls. Some views list the queue, this end's view among them. An end with the whole share lists it alone.
pub fn ends_list_queues()
    ensures room { (n : ℕ) (end : QueueEnd n) → ((view_of end).seen.object.room ≡ n) × (0 < n) }
    ensures shut { (n : ℕ) (old new : QueueEnd n) (entries : List (Step Positions))
        → ExtendsTrace (view_of old) entries (view_of new)
        → (view_of old).seen.object.shut ≡ true → (view_of new).seen.object.shut ≡ true }
    ensures tail { (n : ℕ) (old new : QueueEnd n) (entries : List (Step Positions))
        → ExtendsTrace (view_of old) entries (view_of new)
        → tail_of (view_of old).seen.object ≤ tail_of (view_of new).seen.object }
    ensures listed { (n : ℕ) (end : QueueEnd n)
        → ∥ ((views : List QueueView) × (seat : ℕ) × ViewsShow (view_of end).seen.object views
        × (get_elem? views seat ≡ some (part_of (view_of end)))) ∥₁ }
    ensures only { (n : ℕ) (end : QueueEnd n) → IsOnlyEnd end
        → ∥ ViewsShow (view_of end).seen.object (part_of (view_of end) ∷ []) ∥₁ }
{}

/// The meaning of the number that a step found: the number of ends, the head and the shut mark, the tail, whether a
/// place is raised, or its item. The words show the places from the tail on, as many as the queue has.
pub fn numbers_say()
    ensures ends { (found : ℕ) (m : AbsState Positions) → IsValidStep of_queues (load ends_word found m) → found ≡ m.ends }
    ensures head { (e : Step Positions) → e.word ≡ head_word → IsValidStep of_queues e
        → (e.found ≡ head_of e.then.object + mark e.then.object.shut) × (head_of e.then.object < POSITIONS) }
    ensures tail { (e : Step Positions) → e.word ≡ tail_word → IsValidStep of_queues e → e.found ≡ tail_of e.then.object }
    ensures raised { (e : Step Positions) (position : ℕ) → e.word ≡ flag_word e.then.object.room position
        → IsValidStep of_queues e → e.then.object.first ≤ position
        → position < tail_of e.then.object + e.then.object.room → e.found ≡ position + 1
        → 2 ≤ stage_at e.then.object (position - e.then.object.first) }
    ensures low { (e : Step Positions) (position : ℕ) → e.word ≡ flag_word e.then.object.room position
        → IsValidStep of_queues e → tail_of e.then.object ≤ position
        → position < tail_of e.then.object + e.then.object.room → e.found ≢ position + 1
        → stage_at e.then.object (position - e.then.object.first) < 2 }
    ensures item { (e : Step Positions) (position : ℕ) → e.word ≡ data_word e.then.object.room position
        → IsValidStep of_queues e → tail_of e.then.object ≤ position
        → position < tail_of e.then.object + e.then.object.room
        → 1 ≤ stage_at e.then.object (position - e.then.object.first)
        → e.found ≡ item_at e.then.object (position - e.then.object.first) }
{}

/// Each change that an answer lists is the event of the core with that name. This holds for all views that list the
/// queue as the step found it, if one of them is the end's view.
pub fn changes_are_events()
    ensures claimed { (head : ℕ) (items : List ℕ) (m : AbsState Positions) (views : List QueueView) (seat : ℕ)
        (v w : QueueView) → IsValidStep of_queues (change head_word head m (with_claim m.object items)) → 0 < length items
        → ViewsShow m.object views → get_elem? views seat ≡ some v → w.runs ≡ v.runs ++ run head items ∷ []
        → w.takes ≡ v.takes → Grows w.queue (with_claim m.object items)
        → (m.object.shut ≡ false) × (head ≡ head_of m.object)
        × IsEvent m.object (with_claim m.object items) seat v w (claim m.object.room seat items) }
    ensures stored { (word found position item : ℕ) (m : AbsState Positions) (views : List QueueView)
        (seat number index : ℕ) (v w : QueueView) (e : Batch)
        → IsValidStep of_queues (change word found m (with_stage_at m.object position 1)) → IsPlace m.object position (fresh item)
        → ViewsShow m.object views → get_elem? views seat ≡ some v → get_elem? v.runs number ≡ some e
        → index < length e.places → e.start + index ≡ position
        → w.runs ≡ slice_set v.runs number (with_stage e index 1) → w.takes ≡ v.takes
        → Grows w.queue (with_stage_at m.object position 1)
        → IsEvent m.object (with_stage_at m.object position 1) seat v w no_event }
    ensures raised { (word found position item : ℕ) (m : AbsState Positions) (views : List QueueView)
        (seat number index : ℕ) (v w : QueueView) (e : Batch)
        → IsValidStep of_queues (change word found m (with_stage_at m.object position 2))
        → IsPlace m.object position (record { item = item; stage = 1 })
        → ViewsShow m.object views → get_elem? views seat ≡ some v → get_elem? v.runs number ≡ some e
        → index < length e.places → e.start + index ≡ position
        → w.runs ≡ slice_set v.runs number (with_stage e index 2) → w.takes ≡ v.takes
        → Grows w.queue (with_stage_at m.object position 2)
        → (k : ℕ) × (event : IsEvent m.object (with_stage_at m.object position 2) seat v w (raise seat k index))
        × (get_elem? event.shown.lists.runs k ≡ some (seat, number, e)) }
    ensures taken { (tail count : ℕ) (m : AbsState Positions) (views : List QueueView) (seat : ℕ) (v w : QueueView)
        → IsValidStep of_queues (change tail_word tail m (with_take m.object count)) → 0 < count
        → ViewsShow m.object views → get_elem? views seat ≡ some v
        → w.takes ≡ v.takes ++ taking m.object count ∷ [] → w.runs ≡ v.runs → Grows w.queue (with_take m.object count)
        → (tail ≡ tail_of m.object)
        × IsEvent m.object (with_take m.object count) seat v w (take_first m.object.room count) }
    ensures shut { (head : ℕ) (m : AbsState Positions) (views : List QueueView) (seat : ℕ) (v w : QueueView)
        → IsValidStep of_queues (change head_word head m (with_shut m.object))
        → ViewsShow m.object views → get_elem? views seat ≡ some v → w.runs ≡ v.runs → w.takes ≡ v.takes
        → Grows w.queue (with_shut m.object) → IsEvent m.object (with_shut m.object) seat v w (λ c. Ok (shut c)) }
{}

/// Each change that an answer lists is the event of the core with that name, whichever ends made the runs: for each
/// history of the queue as the step found it, and a history exists. The event leaves a history of the queue as the step
/// left it. A raise is the raise of a place of a run, by the call that has the run.
pub fn changes_are_events_of_histories()
    ensures history { (e : Step Positions) → IsValidStep of_queues e
        → (runs : List (Owned Batch)) × IsHistory e.then.object runs }
    ensures claimed { (head call number : ℕ) (items : List ℕ) (m : AbsState Positions) (runs : List (Owned Batch))
        → IsValidStep of_queues (change head_word head m (with_claim m.object items)) → 0 < length items
        → IsHistory m.object runs → (m.object.shut ≡ false) × (head ≡ head_of m.object)
        × IsEventOf m.object runs (claim m.object.room call items) (with_claim m.object items)
        (runs ++ (call, number, run head items) ∷ []) }
    ensures stored { (word found position item : ℕ) (m : AbsState Positions) (runs : List (Owned Batch))
        → IsValidStep of_queues (change word found m (with_stage_at m.object position 1)) → IsPlace m.object position (fresh item)
        → IsHistory m.object runs → (k index : ℕ) × (run : Owned Batch) × (get_elem? runs k ≡ some run)
        × (run.2.start + index ≡ position) × IsEventOf m.object runs no_event (with_stage_at m.object position 1)
        (slice_set runs k (run.0, run.1, with_stage run.2 index 1)) }
    ensures raised { (word found position item : ℕ) (m : AbsState Positions) (runs : List (Owned Batch))
        → IsValidStep of_queues (change word found m (with_stage_at m.object position 2))
        → IsPlace m.object position (record { item = item; stage = 1 })
        → IsHistory m.object runs → (k index : ℕ) × (run : Owned Batch) × (get_elem? runs k ≡ some run)
        × (run.2.start + index ≡ position)
        × IsEventOf m.object runs (raise run.0 k index) (with_stage_at m.object position 2)
        (slice_set runs k (run.0, run.1, with_stage run.2 index 2)) }
    ensures taken { (tail count : ℕ) (m : AbsState Positions) (runs : List (Owned Batch))
        → IsValidStep of_queues (change tail_word tail m (with_take m.object count)) → 0 < count → IsHistory m.object runs
        → (tail ≡ tail_of m.object)
        × IsEventOf m.object runs (take_first m.object.room count) (with_take m.object count) runs }
    ensures shut { (head : ℕ) (m : AbsState Positions) (runs : List (Owned Batch))
        → IsValidStep of_queues (change head_word head m (with_shut m.object)) → IsHistory m.object runs
        → IsEventOf m.object runs (λ c. Ok (shut c)) (with_shut m.object) runs }
{}

/// No head and no tail falls. A number that an entry of a call found is no less than what the end had seen before the
/// call, and no more than what the end sees then. It is no less than the number that an earlier entry of the call found
/// in the same word.
pub fn never_below()
    ensures head { (n : ℕ) (old new : QueueEnd n) (before after : List (Step Positions)) (e : Step Positions)
        → ExtendsTrace (view_of old) (before ++ e ∷ after) (view_of new) → e.word ≡ head_word
        → (head_of (view_of old).seen.object ≤ e.found % POSITIONS)
        × (e.found % POSITIONS ≤ head_of (view_of new).seen.object) }
    ensures heads { (n : ℕ) (old new : QueueEnd n) (before between after : List (Step Positions))
        (e f : Step Positions) → ExtendsTrace (view_of old) (before ++ e ∷ (between ++ f ∷ after)) (view_of new)
        → e.word ≡ head_word → f.word ≡ head_word → e.found % POSITIONS ≤ f.found % POSITIONS }
    ensures tail { (n : ℕ) (old new : QueueEnd n) (before after : List (Step Positions)) (e : Step Positions)
        → ExtendsTrace (view_of old) (before ++ e ∷ after) (view_of new) → e.word ≡ tail_word
        → (tail_of (view_of old).seen.object ≤ e.found) × (e.found ≤ tail_of (view_of new).seen.object) }
    ensures tails { (n : ℕ) (old new : QueueEnd n) (before between after : List (Step Positions))
        (e f : Step Positions) → ExtendsTrace (view_of old) (before ++ e ∷ (between ++ f ∷ after)) (view_of new)
        → e.word ≡ tail_word → f.word ≡ tail_word → e.found ≤ f.found }
{}

/// If one end takes in another, no position is in a run of both ends, and no position is in a taking of both.
pub fn joins_are_apart()
    ensures runs { (n : ℕ) (old other new : QueueEnd n) → JoinedBy (view_of old) (view_of other) (view_of new)
        → AreApart (view_of old).own.runs (view_of other).own.runs }
    ensures takes { (n : ℕ) (old other new : QueueEnd n) → JoinedBy (view_of old) (view_of other) (view_of new)
        → AreApart (view_of old).own.takes (view_of other).own.takes }
{}

/// The meaning of a refusal. Closed, of a claim: the queue is shut. Full: there was no room when the head was loaded.
/// Closed, of a taking: the queue is shut, and all that was put was taken. Empty: when the flag was loaded, the tail
/// was the loaded tail and the place was not raised. When the head was loaded, the queue was open or had something
/// left.
pub fn refusals_say()
    ensures closed { (n : ℕ) (old new : QueueEnd n) (count : ℕ)
        → Refused n (view_of old) count not_claimed.Closed (view_of new) → (view_of new).seen.object.shut ≡ true }
    ensures full { (n : ℕ) (old new : QueueEnd n) (count head tail : ℕ)
        (r : Refused n (view_of old) count (not_claimed.Full head tail) (view_of new))
        → r.1.object.taken + n < length r.1.object.places + count }
    ensures done { (n : ℕ) (old new : QueueEnd n)
        → OfBoth n (λ Few Enough. RefusedTake Few Enough n (view_of old) not_taken.Closed (view_of new)
        → ((view_of new).seen.object.shut ≡ true)
        × ((view_of new).seen.object.taken ≡ length (view_of new).seen.object.places)) }
    ensures empty { (n : ℕ) (old new : QueueEnd n) (at : ℕ)
        → OfBoth n (λ Few Enough. (r : RefusedTake Few Enough n (view_of old) (not_taken.Empty at) (view_of new))
        → length r.0.scan < n
        → (tail_of r.0.at_flag.object ≡ r.0.tail)
        × (stage_at r.0.at_flag.object (stop_position r.0 - r.0.at_flag.object.first) < 2)
        × (r.2.object.shut ≡ true → r.2.object.taken < length r.2.object.places)) }
{}

/// Empty at a position: when the flag of that place was loaded, the place was not raised, and the items left before it
/// were too few for the call. For one item these were none, and for a line they were no whole line.
pub fn empty_means_none_before()
    ensures { (n : ℕ) (old new : QueueEnd n) (at : ℕ)
        → OfBoth n (λ Few Enough. (r : RefusedTake Few Enough n (view_of old) (not_taken.Empty at) (view_of new))
        → (tail_of r.0.at_flag.object ≡ r.0.tail) × (r.0.tail ≤ at)
        × Few (take (at - r.0.tail) (left_of r.0.at_flag.object))
        × (stage_at r.0.at_flag.object (at - r.0.at_flag.object.first) < 2)) }
{}

/// A call of an end with the whole share never returns Lost: no other end steps between its steps.
pub fn only_ends_are_never_lost()
    ensures claim { (n : ℕ) (old new : QueueEnd n) (count head : ℕ) → IsOnlyEnd old
        → Refused n (view_of old) count (not_claimed.Lost head) (view_of new) → ⊥ }
    ensures take { (n : ℕ) (old new : QueueEnd n) (tail : ℕ) → IsOnlyEnd old
        → OfBoth n (λ Few Enough. RefusedTake Few Enough n (view_of old) (not_taken.Lost tail) (view_of new) → ⊥) }
{}

/// The numbers of the layout: where the words are, how many words a queue has, and how many places it can have. The
/// mark of a shut queue is 2^32, and all positions are below it.
///
/// A cache line has 8 words. The head, the tail and the first place are 8 words apart, so they are in lines of their
/// own. Each of them begins a line if the table's memory begins at one.
pub fn layout_is()
    ensures words { (head_word ≡ 0) × (ends_word ≡ 1) × (tail_word ≡ 8) }
    ensures places { (room position : ℕ) → (data_word room position ≡ 2 * (position % room) + 16)
        × (flag_word room position ≡ 2 * (position % room) + 17) }
    ensures width { (room : ℕ) → width room ≡ room + room + 16 }
    ensures most { (MOST_PLACES ≡ 256) × (POSITIONS ≡ 4294967296) × (SHUT ≡ 4294967296) }
{}
