//! The list of an end is true, and each change is an event of the core: statements over plain data.

ghost use Rattle.std.specs.Prelude.{◌≡◌, ◌≢◌, ◌+◌, ◌-◌, ◌<◌, ◌≤◌, ◌⊎◌, ℕ, true, false, List, [], ◌∷◌, ◌++◌, length};
ghost use Rattle.std.specs.Prelude.{◌*◌, ◌/◌, ◌%◌, slice_set, slice_index_or};
ghost use Rattle.std.specs.List.{AllByRecursion};
ghost use mathlib.Core.Option.{some};
ghost use lib.ListN.{get_elem?};
ghost use Rattle.event_theory.specs.Chains.{claim_note, raise_note, take_note, notify, round, leave};
ghost use Rattle.table_theory.specs.declared.positions.TheConstants.{POSITIONS};
ghost use Rattle.table_theory.specs.declared.queues.Batch.{Batch};
ghost use Rattle.table_theory.specs.declared.views.AbsState.{AbsState};
ghost use Rattle.table_theory.specs.Courses.{Continues};
ghost use Rattle.table_theory.specs.Ledgers.{Step, load, change, count_down, ExtendsTrace, IsValidStep};
ghost use Rattle.table_theory.specs.Ledgers.{IsValidView, Reaches, Passes};
ghost use Rattle.table_theory.specs.Listing.{with_stage};
ghost use Rattle.table_theory.specs.Positioned.{Grows, fresh, item_at, stage_at, head_of, tail_of};
ghost use Rattle.table_theory.specs.Seeing.{RunIsIn};
ghost use Rattle.proc_chain.specs.declared.chaining.ChainRefusal.TheVariants.{Full, Lost};
ghost use Rattle.proc_chain.specs.declared.ends.ChainEnd.{ChainEnd};
ghost use Rattle.proc_chain.specs.declared.layout.TheConstants.{PLACES, IDLE, RUNNING, MORE};
ghost use Rattle.proc_chain.specs.declared.rule.GatedQueue.{GatedQueue};
ghost use Rattle.proc_chain.specs.declared.serve.TheConstants.{MOST_RUN};
ghost use Rattle.proc_chain.specs.Answers.{NotChained, with_turn};
ghost use Rattle.proc_chain.specs.Chainings.{AreShown, IsChainEvent};
ghost use Rattle.proc_chain.specs.Changes.{IsLawful, IsPlace, Becomes, taking};
ghost use Rattle.proc_chain.specs.Changes.{with_note, with_raise, with_taken, with_gate};
ghost use Rattle.proc_chain.specs.Endings.{JoinedBy, IsAmong};
ghost use Rattle.proc_chain.specs.Handles.{view_of, IsOnlyEnd};
ghost use Rattle.proc_chain.specs.Layout.{head_word, tail_word, ends_word, gate_word, place_word, note_of, mark_of};
ghost use Rattle.proc_chain.specs.Layout.{raised_word, width};
ghost use Rattle.proc_chain.specs.Happenings.{of_chains};
ghost use Rattle.proc_chain.specs.Histories.{History, IsEventOfEach, IsHistoryOf};
ghost use Rattle.proc_chain.specs.Own.{View, queue_of};
ghost use Rattle.proc_chain.specs.Shown.{Shows};
ghost use Rattle.proc_chain.specs.Steps.{run};

use crate::quaject::Quaject;

/// The numbers of a chain: where its words are, 8 words apart if different threads write them, and how many places it
/// has. The meaning of the numbers of the gate and of a place's word. The greatest number of notes and failed leaves in
/// one serving of `serve_all`. The words in between are 0.
pub fn layout_is()
    ensures words { (head_word ≡ 0) × (ends_word ≡ 1) × (tail_word ≡ 8) × (gate_word ≡ 16) × (width ≡ 56)
        × ((position : ℕ) → place_word position ≡ position % 32 + 24) }
    ensures places { (PLACES ≡ 32) × (POSITIONS ≡ 4294967296) × ((position note : ℕ)
        → raised_word position note ≡ (position + 1) * 65536 + note) }
    ensures place { (word : ℕ) → (mark_of word ≡ word / 65536) × (note_of word ≡ word % 65536) }
    ensures gates { (IDLE ≡ 0) × (RUNNING ≡ 1) × (MORE ≡ 2) }
    ensures serving { MOST_RUN ≡ 4294967295 }
    ensures shown { (o : GatedQueue) (words : List ℕ) → Shows o words → (length words ≡ 56) × (o.queue.room ≡ 32) }
    ensures unused { (o : GatedQueue) (words : List ℕ) (word : ℕ) → Shows o words → 1 < word → word < 24 → word ≢ 8
        → word ≢ 16 → slice_index_or words word 0 ≡ 0 }
{}

/// The list of an end is true: each entry that a call adds is a real step. The step found a lawful queue and a gate
/// that the words showed, and the number in its word, and made one event, or none. Real steps lead from what the end
/// had seen to each of these entries, in their order. The last of them left what the end sees then. If the end has the
/// whole share, these entries alone lead there.
pub fn lists_are_true<Q: Quaject>()
    ensures end { (end : ChainEnd Q Q.World Q.Quaject) → ∥ IsValidView of_chains (view_of end) ∥₁ }
    ensures entries { (old : View) (new : ChainEnd Q Q.World Q.Quaject) (entries : List (Step GatedQueue))
        → ExtendsTrace old entries (view_of new) → ∥ AllByRecursion (IsValidStep of_chains) entries ∥₁ }
    ensures order { (old new : ChainEnd Q Q.World Q.Quaject) (entries : List (Step GatedQueue))
        → ExtendsTrace (view_of old) entries (view_of new)
        → ∥ Passes of_chains (view_of old).seen entries (view_of new).seen ∥₁ }
    ensures alone { (old new : ChainEnd Q Q.World Q.Quaject) (entries : List (Step GatedQueue)) → IsOnlyEnd old
        → ExtendsTrace (view_of old) entries (view_of new) → ∥ Continues (view_of old).seen entries (view_of new).seen ∥₁ }
    ensures since { (old new : ChainEnd Q Q.World Q.Quaject) (entries : List (Step GatedQueue))
        → ExtendsTrace (view_of old) entries (view_of new)
        → ∥ Reaches of_chains (view_of old).seen (view_of new).seen ∥₁ }
    ensures grows { (m n : AbsState GatedQueue) → Reaches of_chains m n → Grows m.object.queue n.object.queue }
    ensures change { (e : Step GatedQueue) → IsValidStep of_chains e
        → (e.next.object ≡ e.then.object) ⊎ Becomes e.then.object e.next.object }
    ensures lawful { (e : Step GatedQueue) → IsValidStep of_chains e → IsLawful e.next.object }
{}

/// No head and no tail falls. A number that an end finds there is not below what the end had seen, nor below a number
/// that it found earlier. What the end sees then is not below that number. After a join, what the end sees is not below
/// what either end had seen.
pub fn never_below<Q: Quaject>()
    ensures head { (old new : ChainEnd Q Q.World Q.Quaject) (before : List (Step GatedQueue)) (e : Step GatedQueue)
        (after : List (Step GatedQueue)) → ExtendsTrace (view_of old) (before ++ e ∷ after) (view_of new) → e.word ≡ head_word
        → (head_of (queue_of (view_of old)) ≤ e.found) × (e.found ≤ head_of (queue_of (view_of new))) }
    ensures tail { (old new : ChainEnd Q Q.World Q.Quaject) (before : List (Step GatedQueue)) (e : Step GatedQueue)
        (after : List (Step GatedQueue)) → ExtendsTrace (view_of old) (before ++ e ∷ after) (view_of new) → e.word ≡ tail_word
        → (tail_of (queue_of (view_of old)) ≤ e.found) × (e.found ≤ tail_of (queue_of (view_of new))) }
    ensures later_head { (old new : ChainEnd Q Q.World Q.Quaject) (before : List (Step GatedQueue)) (e : Step GatedQueue)
        (between : List (Step GatedQueue)) (f : Step GatedQueue) (after : List (Step GatedQueue))
        → ExtendsTrace (view_of old) (before ++ e ∷ (between ++ f ∷ after)) (view_of new) → e.word ≡ head_word
        → f.word ≡ head_word → e.found ≤ f.found }
    ensures later_tail { (old new : ChainEnd Q Q.World Q.Quaject) (before : List (Step GatedQueue)) (e : Step GatedQueue)
        (between : List (Step GatedQueue)) (f : Step GatedQueue) (after : List (Step GatedQueue))
        → ExtendsTrace (view_of old) (before ++ e ∷ (between ++ f ∷ after)) (view_of new) → e.word ≡ tail_word
        → f.word ≡ tail_word → e.found ≤ f.found }
    ensures joined { (old other new : ChainEnd Q Q.World Q.Quaject)
        → JoinedBy (view_of old) (view_of other) (view_of new)
        → (head_of (queue_of (view_of old)) ≤ head_of (queue_of (view_of new)))
        × (tail_of (queue_of (view_of old)) ≤ tail_of (queue_of (view_of new)))
        × (head_of (queue_of (view_of other)) ≤ head_of (queue_of (view_of new)))
        × (tail_of (queue_of (view_of other)) ≤ tail_of (queue_of (view_of new))) }
{}

/// Two ends of one chain own nothing in common: no position is in runs of both ends, nor in takings of both. This holds
/// for ends whose views show the chain at one moment, and for two ends that were joined.
pub fn joins_are_apart<Q: Quaject>()
    ensures runs { (o : GatedQueue) (views : List View) → AreShown o views → (i j m n position : ℕ) (u v : View)
        (a b : Batch) → i ≢ j → get_elem? views i ≡ some u → get_elem? views j ≡ some v
        → get_elem? u.own.runs m ≡ some a → get_elem? v.own.runs n ≡ some b → IsAmong position a → IsAmong position b
        → ⊥ }
    ensures takings { (o : GatedQueue) (views : List View) → AreShown o views → (i j m n position : ℕ) (u v : View)
        (a b : Batch) → i ≢ j → get_elem? views i ≡ some u → get_elem? views j ≡ some v
        → get_elem? u.own.takes m ≡ some a → get_elem? v.own.takes n ≡ some b → IsAmong position a
        → IsAmong position b → ⊥ }
    ensures joined_runs { (old other new : ChainEnd Q Q.World Q.Quaject)
        → JoinedBy (view_of old) (view_of other) (view_of new) → (m n position : ℕ) (a b : Batch)
        → get_elem? (view_of old).own.runs m ≡ some a → get_elem? (view_of other).own.runs n ≡ some b
        → IsAmong position a → IsAmong position b → ⊥ }
    ensures joined_takings { (old other new : ChainEnd Q Q.World Q.Quaject)
        → JoinedBy (view_of old) (view_of other) (view_of new) → (m n position : ℕ) (a b : Batch)
        → get_elem? (view_of old).own.takes m ≡ some a → get_elem? (view_of other).own.takes n ≡ some b
        → IsAmong position a → IsAmong position b → ⊥ }
{}

/// The list of an end is true after a join: real steps lead from what either end had seen to what the joined end sees.
/// The entry of the step that counts one end less is a real step.
pub fn joins_are_true<Q: Quaject>()
    ensures since { (old other new : ChainEnd Q Q.World Q.Quaject)
        → JoinedBy (view_of old) (view_of other) (view_of new)
        → ∥ Reaches of_chains (view_of old).seen (view_of new).seen ∥₁
        × ∥ Reaches of_chains (view_of other).seen (view_of new).seen ∥₁ }
    ensures entry { (old other new : ChainEnd Q Q.World Q.Quaject)
        (t : JoinedBy (view_of old) (view_of other) (view_of new))
        → ∥ IsValidStep of_chains (count_down ends_word t.0.found) ∥₁ }
{}

/// The queue and the gate that an end sees are lawful. Some views show them, the end's view among them. The queue has
/// the end's runs and the chain's room, and its head is a position.
pub fn ends_are_shown<Q: Quaject>()
    ensures lawful { (end : ChainEnd Q Q.World Q.Quaject) → ∥ IsLawful (view_of end).seen.object ∥₁ }
    ensures shown { (end : ChainEnd Q Q.World Q.Quaject) → ∥ ((views : List View) × (seat : ℕ)
        × AreShown (view_of end).seen.object views × (get_elem? views seat ≡ some (view_of end))) ∥₁ }
    ensures runs { (end : ChainEnd Q Q.World Q.Quaject) (number : ℕ) (e : Batch)
        → get_elem? (view_of end).own.runs number ≡ some e → ∥ RunIsIn (queue_of (view_of end)) e ∥₁ }
    ensures room { (end : ChainEnd Q Q.World Q.Quaject) → (queue_of (view_of end)).room ≡ PLACES }
    ensures bounded { (end : ChainEnd Q Q.World Q.Quaject) → head_of (queue_of (view_of end)) < POSITIONS }
{}

/// The meaning of the number that a step found: the number of ends, the head, the tail, the gate, or whether a place is
/// raised, and with which note. The words show the places from the tail on, as many as the chain has.
pub fn numbers_say()
    ensures ends { (found : ℕ) (m : AbsState GatedQueue) → IsValidStep of_chains (load ends_word found m) → found ≡ m.ends }
    ensures head { (e : Step GatedQueue) → e.word ≡ head_word → IsValidStep of_chains e
        → (e.found ≡ head_of e.then.object.queue) × (e.found < POSITIONS) }
    ensures tail { (e : Step GatedQueue) → e.word ≡ tail_word → IsValidStep of_chains e
        → e.found ≡ tail_of e.then.object.queue }
    ensures gate_word { (e : Step GatedQueue) → e.word ≡ gate_word → IsValidStep of_chains e → e.found ≡ e.then.object.gate }
    ensures raised { (e : Step GatedQueue) (i : ℕ) → e.word ≡ place_word (e.then.object.queue.first + i)
        → IsValidStep of_chains e → e.then.object.queue.taken ≤ i → i < e.then.object.queue.taken + PLACES
        → mark_of e.found ≡ e.then.object.queue.first + i + 1
        → (2 ≤ stage_at e.then.object.queue i) × (note_of e.found ≡ item_at e.then.object.queue i) }
    ensures low { (e : Step GatedQueue) (i : ℕ) → e.word ≡ place_word (e.then.object.queue.first + i)
        → IsValidStep of_chains e → e.then.object.queue.taken ≤ i → i < e.then.object.queue.taken + PLACES
        → mark_of e.found ≢ e.then.object.queue.first + i + 1 → stage_at e.then.object.queue i < 2 }
{}

/// Each change is one event of the core, whichever ends made the runs, have the turn, or owe a notify: for each history
/// of the chain as the step found it, and a history exists. The event leaves a history of the chain as the step left it.
pub fn changes_are_events_of_histories()
    ensures history { (e : Step GatedQueue) → IsValidStep of_chains e
        → (h : History) × IsHistoryOf e.then.object h }
    ensures each { (e : Step GatedQueue) → IsValidStep of_chains e
        → (e.next.object ≡ e.then.object) ⊎ IsEventOfEach e.then.object e.next.object }
{}

/// Each change that an answer lists is the event of the core with that name, for all views that show the queue and the
/// gate that the step found, if one of them is the end's view. With this view changed, the views show the queue and the
/// gate that the step left.
pub fn changes_are_events()
    ensures claimed { (head note : ℕ) (m : AbsState GatedQueue) (views : List View) (seat : ℕ) (v w : View)
        (shown : AreShown m.object views) → IsValidStep of_chains (change head_word head m (with_note m.object note))
        → get_elem? views seat ≡ some v → w.seen.object ≡ with_note m.object note
        → w.own ≡ record v.own { runs = v.own.runs ++ run head note ∷ [] }
        → (head ≡ head_of m.object.queue) × (m.object.queue.shut ≡ false)
        × IsChainEvent m.object (with_note m.object note) views shown seat w (claim_note seat (note ∷ [])) }
    ensures raised { (position note found number : ℕ) (e : Batch) (m : AbsState GatedQueue) (views : List View)
        (seat : ℕ) (v w : View) (shown : AreShown m.object views)
        → IsValidStep of_chains (change (place_word position) found m (with_raise m.object position note))
        → IsPlace m.object.queue position (fresh note) → get_elem? views seat ≡ some v
        → get_elem? v.own.runs number ≡ some e → e.start ≡ position → 0 < length e.places
        → w.seen.object ≡ with_raise m.object position note
        → w.own ≡ record v.own { runs = slice_set v.own.runs number (with_stage e 0 2); owes = true }
        → (k : ℕ) × IsChainEvent m.object (with_raise m.object position note) views shown seat w (raise_note seat k 0)
        × (get_elem? shown.listed.lists.runs k ≡ some (seat, number, e)) }
    ensures taken { (tail : ℕ) (m : AbsState GatedQueue) (views : List View) (seat : ℕ) (v w : View)
        (shown : AreShown m.object views) → IsValidStep of_chains (change tail_word tail m (with_taken m.object))
        → get_elem? views seat ≡ some v → v.own.runner ≡ true → w.seen.object ≡ with_taken m.object
        → w.own ≡ record v.own {
          takes = v.own.takes ++ taking m.object.queue ∷ [];
          taken = v.own.taken + 1;
          saw = false;
        }
        → (tail ≡ tail_of m.object.queue)
        × IsChainEvent m.object (with_taken m.object) views shown seat w (take_note seat 1) }
    ensures notified { (gate : ℕ) (m : AbsState GatedQueue) (views : List View) (seat : ℕ) (v w : View)
        (shown : AreShown m.object views) → IsValidStep of_chains (change gate_word gate m (with_gate m.object MORE))
        → get_elem? views seat ≡ some v → v.own.owes ≡ true → gate ≢ IDLE → w.seen.object ≡ with_gate m.object MORE
        → w.own ≡ record v.own { owes = false }
        → IsChainEvent m.object (with_gate m.object MORE) views shown seat w (notify seat) }
    ensures won { (m : AbsState GatedQueue) (views : List View) (seat : ℕ) (v w : View)
        (shown : AreShown m.object views) → IsValidStep of_chains (change gate_word IDLE m (with_gate m.object MORE))
        → get_elem? views seat ≡ some v → v.own.owes ≡ true → w.seen.object ≡ with_gate m.object MORE
        → w.own ≡ with_turn m.object.queue.taken (record v.own { owes = false })
        → IsChainEvent m.object (with_gate m.object MORE) views shown seat w (notify seat) }
    ensures rounded { (gate : ℕ) (m : AbsState GatedQueue) (views : List View) (seat : ℕ) (v w : View)
        (shown : AreShown m.object views) → IsValidStep of_chains (change gate_word gate m (with_gate m.object RUNNING))
        → get_elem? views seat ≡ some v → v.own.runner ≡ true
        → w.seen.object ≡ with_gate m.object RUNNING → w.own ≡ record v.own { saw = false }
        → IsChainEvent m.object (with_gate m.object RUNNING) views shown seat w (round seat) }
    ensures left { (m : AbsState GatedQueue) (views : List View) (seat : ℕ) (v w : View)
        (shown : AreShown m.object views) → IsValidStep of_chains (change gate_word RUNNING m (with_gate m.object IDLE))
        → get_elem? views seat ≡ some v → v.own.runner ≡ true → v.own.saw ≡ true
        → w.seen.object ≡ with_gate m.object IDLE → w.own ≡ record v.own { runner = false; saw = false }
        → IsChainEvent m.object (with_gate m.object IDLE) views shown seat w (leave seat) }
{}

/// If a note was refused as Full, there was no room when the head was loaded. A call of an end with the whole share
/// never returns Lost: no other end steps between its steps.
pub fn refusals_say<Q: Quaject>()
    ensures full { (old new : ChainEnd Q Q.World Q.Quaject) (head tail : ℕ)
        (r : NotChained (view_of old) (Full head tail) (view_of new))
        → r.0.object.queue.taken + PLACES ≤ length r.0.object.queue.places }
    ensures lost { (old new : ChainEnd Q Q.World Q.Quaject) (head : ℕ) → IsOnlyEnd old
        → NotChained (view_of old) (Lost head) (view_of new) → ⊥ }
{}
