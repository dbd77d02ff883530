//! Laws over plain data: the truth of a hand's list, the parts of a hand that a call leaves as they were, and the
//! elements that a closed table reports as free.
ghost use Rattle.std.specs.Prelude.{◌≡◌, ◌<◌, ◌≤◌, ℕ, Bool, true, false, List, length, slice_index_or, Result, Ok, Err};
ghost use Rattle.std.specs.Prelude.{Option, None, ◌≢◌, ◌+◌, ◌*◌, ◌/◌, ◌%◌, ◌^◌, [], ◌∷◌, ◌++◌, take};
ghost use Rattle.std.specs.List.{AllByRecursion};
ghost use Rattle.event_theory.specs.Elements.{Thread};
ghost use Rattle.event_theory.specs.Queues.{left};
ghost use Rattle.event_theory.specs.States.{step};
ghost use Rattle.event_theory.specs.declared.event.Event.{Event};
ghost use Rattle.event_theory.specs.declared.event.Event.TheVariants as events;
ghost use Rattle.table_theory.specs.Ends.{Begins};
ghost use Rattle.thread_table.specs.declared.hand.Hand.{Hand};
ghost use Rattle.thread_table.specs.declared.layout.TheConstants.{PROCESSORS, ELEMENTS, RINGS, PLACES, WAITS, STOP};
ghost use Rattle.thread_table.specs.declared.layout.TheConstants.{WORDS, NOTIFY, CELL};
ghost use Rattle.thread_table.specs.Schedules.{Past, state_after, elements_after, IsAllowed, Grows, ring_at};
ghost use Rattle.thread_table.specs.Schedules.{thread_at};
ghost use Rattle.thread_table.specs.Layout.{ends_word, processor_word, state_word, done_word, head_word, tail_word};
ghost use Rattle.thread_table.specs.Layout.{place_word, stop_bit, cell_bit, ready_ring, free_ring, wait_ring};
ghost use Rattle.thread_table.specs.Shown.{StateShows, PlaceShows, processor_shown, tail_shown, mark_of};
ghost use Rattle.thread_table.specs.Rules.{HandIs, done_at};
ghost use Rattle.thread_table.specs.Handles.{view_of, call_of, IsOnlyHand};
ghost use Rattle.thread_table.specs.Telling.{of_hands, IsValidHandStep, IsValidHandView};
ghost use Rattle.thread_table.specs.Own.{View};
ghost use Rattle.thread_table.specs.declared.takings.NextRefusal.{NextRefusal};
ghost use Rattle.thread_table.specs.declared.takings.NextRefusal.TheVariants as nexts;
ghost use Rattle.thread_table.specs.declared.moves.MoveRefusal.{MoveRefusal};
ghost use Rattle.thread_table.specs.declared.moves.MoveRefusal.TheVariants as moves;
ghost use Rattle.thread_table.specs.declared.states.Started.{Started};
ghost use Rattle.thread_table.specs.declared.states.Started.TheVariants as started;
ghost use Rattle.thread_table.specs.declared.states.Lost.{Lost};
ghost use Rattle.thread_table.specs.declared.states.Signalled.{Signalled};
ghost use Rattle.thread_table.specs.declared.programs.Spent.{Spent};
ghost use Rattle.thread_table.specs.declared.places.Place.{Place};
ghost use Rattle.thread_table.specs.declared.places.Place.TheVariants as places;
ghost use Rattle.thread_table.specs.Closings.{ClosedNow};
ghost use Rattle.thread_table.specs.Retiring.{free_takings, was_freed};
ghost use Rattle.thread_table.specs.Views.{quiet};
ghost use Rattle.table_theory.specs.Courses.{Continues};
ghost use Rattle.table_theory.specs.Ledgers.{load, count_down, ExtendsTrace, Reaches, Passes};
ghost use Rattle.thread_table.specs.Entries.{Step, change, PerformsEvents, AreInOrder, steps_in};
ghost use Rattle.thread_table.specs.Endings.{JoinedBy};
ghost use Rattle.thread_table.specs.Answers.{TakeAnswer, MoveAnswer, WaitAnswer, IsTicket, StoppedNow, StartAnswer};
ghost use Rattle.thread_table.specs.Answers.{ParkAnswer, SignalAnswer, DeliverAnswer, ReadPc, DoneAnswer, is_in};
ghost use Rattle.thread_table.specs.Answers.{head_in, mark_in, IsPending};
ghost use Rattle.thread_table.specs.Notifies.{notifies_in, head_seen, tail_seen};
ghost use Rattle.thread_table.specs.Wakes.{WokeAll, NotifiedNow, BeforeAnswer};
ghost use Rattle.thread_table.specs.Keeping.{Keeps, Stays};

/// A hand's list is true: each entry that a call adds is a real step. It found events that were each allowed in their
/// turn, words that showed the state after them, and the number in its word. It made one event, or none. Real steps
/// lead from what the hand had seen to each of these entries, in order, and the last of them left what the hand sees
/// then. If the hand has the whole, these entries alone lead there. The events that were seen before are a beginning of
/// those that are seen, and the elements have grown since. A hand has seen as many steps of an element as done events
/// of it.
pub fn lists_are_true()
    ensures hand { (hand : Hand) → ∥ IsValidHandView (view_of hand) ∥₁ }
    ensures entries { (old : View) (new : Hand) (entries : List Step) → ExtendsTrace old entries (view_of new)
        → ∥ AllByRecursion (IsValidHandStep (view_of new).own.first) entries ∥₁ }
    ensures passes { (old new : Hand) (entries : List Step) → ExtendsTrace (view_of old) entries (view_of new)
        → ∥ Passes (of_hands (view_of new).own.first) (view_of old).seen entries (view_of new).seen ∥₁ }
    ensures leads { (first : ℕ) (m n : Past) → Reaches (of_hands first) m n
        → Begins m.object n.object × Grows (elements_after m.object) (elements_after n.object) }
    ensures alone { (old new : Hand) (entries : List Step) → IsOnlyHand old
        → ExtendsTrace (view_of old) entries (view_of new)
        → ∥ Continues (view_of old).seen entries (view_of new).seen ∥₁ }
    ensures order { (old new : Hand) (entries : List Step) → ExtendsTrace (view_of old) entries (view_of new)
        → ∥ AreInOrder (view_of old).seen entries ∥₁ }
    ensures among { (old : View) (new : Hand) (entries : List Step) → ExtendsTrace old entries (view_of new)
        → ∥ ((past : Past) × AreInOrder past entries) ∥₁ }
    ensures grows { (hand : Hand) (past : List Event) → Begins past (view_of hand).seen.object
        → ∥ Grows (elements_after past) (elements_after (view_of hand).seen.object) ∥₁ }
    ensures allowed { (first : ℕ) (e : Step) → IsValidHandStep first e → IsAllowed e.next.object }
    ensures counted { (past : List Event) (element : ℕ) → IsAllowed past
        → done_at past element ≡ steps_in element past }
{}

/// A hand has what its call has. If the hand has made a step, all it has is its call's in what the hand has seen: the
/// elements that it holds, those on its processors, its claimed run and its counted step.
pub fn hands_stand()
    ensures { (hand : Hand) → ((view_of hand).steps ≡ [] → ⊥)
        → ∥ HandIs (call_of hand) (view_of hand) (elements_after (view_of hand).seen.object) ∥₁ }
{}

/// A join: real steps lead from what either hand had seen to what the one hand sees then. The entry of the step that
/// counts one hand less is real.
pub fn joins_are_true()
    ensures since { (old other new : Hand) → JoinedBy (view_of old) (view_of other) (view_of new)
        → ∥ Reaches (of_hands (view_of new).own.first) (view_of old).seen (view_of new).seen ∥₁
        × ∥ Reaches (of_hands (view_of new).own.first) (view_of other).seen (view_of new).seen ∥₁ }
    ensures entry { (old other new : Hand) (t : JoinedBy (view_of old) (view_of other) (view_of new))
        → ∥ IsValidHandStep (view_of new).own.first (count_down ends_word t.found) ∥₁ }
{}

/// A hand that has the whole is never refused with Lost: no other hand makes a step between its steps.
pub fn only_hands_are_never_lost()
    ensures takes { (old new : Hand) (call ring seen : ℕ) → ring < RINGS → IsOnlyHand old
        → TakeAnswer call (view_of old) ring (Err (nexts.Lost seen)) (view_of new) → ⊥ }
    ensures befores { (old new : Hand) (call ring head seen : ℕ) → ring < RINGS → IsOnlyHand old
        → BeforeAnswer call (view_of old) ring head (Err (nexts.Lost seen)) (view_of new) → ⊥ }
    ensures moves { (old new : Hand) (call ring element seen : ℕ) → ring < RINGS → IsOnlyHand old
        → MoveAnswer call (view_of old) ring element (Err (moves.Lost seen)) (view_of new) → ⊥ }
    ensures waits { (old new : Hand) (call wait element ticket seen : ℕ) → wait < WAITS → IsOnlyHand old
        → WaitAnswer call (view_of old) wait element ticket (Err (moves.Lost seen)) (view_of new) → ⊥ }
    ensures starts { (old new : Hand) (call element : ℕ) (r : Lost) → element < ELEMENTS → IsOnlyHand old
        → StartAnswer call (view_of old) element (Err r) (view_of new) → ⊥ }
    ensures parks { (old new : Hand) (call element : ℕ) (r : Lost) → element < ELEMENTS → IsOnlyHand old
        → ParkAnswer call (view_of old) element (Err r) (view_of new) → ⊥ }
    ensures delivers { (old new : Hand) (call element : ℕ) (r : Lost) → element < ELEMENTS → IsOnlyHand old
        → DeliverAnswer call (view_of old) element (Err r) (view_of new) → ⊥ }
{}

/// The meaning of a number that a step found: the number of hands, the head and the number of notifies of an element
/// queue, its tail, one of its places, a state word by its bits, the steps done of an element, or the element on a
/// processor.
pub fn numbers_say()
    ensures ends { (first found : ℕ) (m : Past) → IsValidHandStep first (load ends_word found m) → found ≡ m.ends }
    ensures head { (first : ℕ) (e : Step) (ring : ℕ) → ring < RINGS → e.word ≡ head_word ring → IsValidHandStep first e
        → (head_in e.found ≡ first + length (ring_at (elements_after e.then.object) ring).history)
        × (mark_in e.found ≡ mark_of (elements_after e.then.object) ring) }
    ensures tail { (first : ℕ) (e : Step) (ring : ℕ) → ring < RINGS → e.word ≡ tail_word ring → IsValidHandStep first e
        → e.found ≡ tail_shown first (elements_after e.then.object) ring }
    ensures place { (first : ℕ) (e : Step) (ring run : ℕ) → ring < RINGS
        → (ring_at (elements_after e.then.object) ring).taken ≤ run
        → run < (ring_at (elements_after e.then.object) ring).taken + PLACES → e.word ≡ place_word ring (first + run)
        → IsValidHandStep first e → PlaceShows first (ring_at (elements_after e.then.object) ring) run e.found }
    ensures state { (first : ℕ) (e : Step) (element : ℕ) → element < ELEMENTS → e.word ≡ state_word element
        → IsValidHandStep first e → StateShows (thread_at (elements_after e.then.object) element) e.found }
    ensures bits { (thread : Thread) (word : ℕ) → StateShows thread word
        → (is_in word stop_bit ≡ thread.stop) × (is_in word cell_bit ≡ thread.parked)
        × ((signal : ℕ) → signal < 16 → is_in word signal ≡ thread.pending signal)
        × ((signal : ℕ) → signal < 16 → is_in (word % STOP) signal ≡ thread.pending signal) }
    ensures done { (first : ℕ) (e : Step) (element : ℕ) → element < ELEMENTS → e.word ≡ done_word element
        → IsValidHandStep first e → e.found ≡ done_at e.then.object element }
    ensures processor { (first : ℕ) (e : Step) (p : ℕ) → p < PROCESSORS → e.word ≡ processor_word p → IsValidHandStep first e
        → e.found ≡ processor_shown (slice_index_or (elements_after e.then.object).processors p None) }
{}

/// The meaning of a taking's entries. If the place at the tail was raised, and then the tail was found again, the place
/// has the oldest element of the queue. If the place was not raised, and the tail was found again, the run at the tail
/// was not raised. An entry that made an event found its number as a load finds it.
pub fn takings_say()
    ensures oldest { (first ring tail place : ℕ) (p q r : Past) → ring < RINGS
        → IsValidHandStep first (load (tail_word ring) tail p) → IsValidHandStep first (load (place_word ring tail) place q)
        → Grows (elements_after p.object) (elements_after q.object)
        → Grows (elements_after q.object) (elements_after r.object)
        → IsValidHandStep first (load (tail_word ring) tail r) → place / 256 ≡ tail + 1
        → take 1 (left (ring_at (elements_after r.object) ring)) ≡ place % 256 ∷ [] }
    ensures unraised { (first ring tail place : ℕ) (p q r : Past) → ring < RINGS
        → IsValidHandStep first (load (tail_word ring) tail p) → IsValidHandStep first (load (place_word ring tail) place q)
        → Grows (elements_after p.object) (elements_after q.object)
        → Grows (elements_after q.object) (elements_after r.object)
        → IsValidHandStep first (load (tail_word ring) tail r) → place / 256 ≢ tail + 1
        → (ring_at (elements_after q.object) ring).raised (ring_at (elements_after q.object) ring).taken 0 ≡ false }
    ensures found { (first word found : ℕ) (past : Past) (event : Event)
        → IsValidHandStep first (change word found past event) → IsValidHandStep first (load word found past) }
{}

/// The places of waits with a ticket, and the heads that notifies of their queue find, whichever hands make them. A
/// place that was claimed before a notify is below the head that the notify found; one that was claimed after the
/// notify is at that head or past it. If two steps found the same number of notifies, with fewer than 2^32 notifies
/// between them, there was none between them.
pub fn waits_stand_by_notifies()
    ensures before { (first wait element ticket call other word found : ℕ) (p q : Past) → wait < WAITS
        → IsValidHandStep first (change (head_word (wait_ring wait)) word p (events.WaitAt call wait element ticket))
        → IsValidHandStep first (change (head_word (wait_ring wait)) found q (events.NotifyWait other wait))
        → Begins (p.object ++ events.WaitAt call wait element ticket ∷ []) q.object
        → head_in word < head_in found }
    ensures after { (first wait element ticket call other word found : ℕ) (p q : Past) → wait < WAITS
        → IsValidHandStep first (change (head_word (wait_ring wait)) word p (events.WaitAt call wait element ticket))
        → IsValidHandStep first (change (head_word (wait_ring wait)) found q (events.NotifyWait other wait))
        → Begins (q.object ++ events.NotifyWait other wait ∷ []) p.object
        → head_in found ≤ head_in word }
    ensures none_between { (first wait : ℕ) (e f : Step) (rest : List Event) → wait < WAITS
        → e.word ≡ head_word (wait_ring wait) → f.word ≡ head_word (wait_ring wait) → IsValidHandStep first e → IsValidHandStep first f
        → e.then.object ++ rest ≡ f.then.object → mark_in e.found ≡ mark_in f.found
        → notifies_in wait rest < NOTIFY → notifies_in wait rest ≡ 0 }
{}

/// No head or tail of an element queue that a call finds is below one that its hand had seen. The number that an entry
/// found is at least what the hand had seen before the call. It is at least what an earlier entry of the call found in
/// the same word, and at most what the hand sees then.
pub fn never_below()
    ensures head { (old new : Hand) (before rest : List Step) (e : Step) (ring : ℕ) → ring < RINGS
        → ExtendsTrace (view_of old) (before ++ e ∷ rest) (view_of new) → e.word ≡ head_word ring
        → (head_seen (view_of new).own.first (view_of old) ring ≤ head_in e.found)
        × (head_in e.found ≤ head_seen (view_of new).own.first (view_of new) ring) }
    ensures heads { (old new : Hand) (before between rest : List Step) (e f : Step) (ring : ℕ) → ring < RINGS
        → ExtendsTrace (view_of old) (before ++ e ∷ (between ++ f ∷ rest)) (view_of new) → e.word ≡ head_word ring
        → f.word ≡ head_word ring → head_in e.found ≤ head_in f.found }
    ensures tail { (old new : Hand) (before rest : List Step) (e : Step) (ring : ℕ) → ring < RINGS
        → ExtendsTrace (view_of old) (before ++ e ∷ rest) (view_of new) → e.word ≡ tail_word ring
        → (tail_seen (view_of new).own.first (view_of old) ring ≤ e.found)
        × (e.found ≤ tail_seen (view_of new).own.first (view_of new) ring) }
    ensures tails { (old new : Hand) (before between rest : List Step) (e f : Step) (ring : ℕ) → ring < RINGS
        → ExtendsTrace (view_of old) (before ++ e ∷ (between ++ f ∷ rest)) (view_of new) → e.word ≡ tail_word ring
        → f.word ≡ tail_word ring → e.found ≤ f.found }
{}

/// Each change that a result lists is the event of the core that it names, which was allowed there.
pub fn changes_are_events()
    ensures { (first word found : ℕ) (past : Past) (event : Event) → IsValidHandStep first (change word found past event)
        → IsAllowed (past.object ++ event ∷ [])
        × (step event (state_after past.object) ≡ Ok (state_after (past.object ++ event ∷ []))) }
{}

/// A call that only loads, or that is refused, leaves to its hand all that the hand has, and makes no event.
///
/// These are the refusals of all takings, moves, starts, parks, deliveries and counts. These are also the results
/// without an event: a ticket, the pending signals, the steps done, a start, a park or a delivery with nothing to do,
/// and a try to take before a position that the tail has reached.
pub fn refusals_stay()
    ensures looks { (v w : View) (entries : List Step) → PerformsEvents v entries (quiet v) w → Stays v w }
    ensures takes { (call ring : ℕ) (v w : View) (r : NextRefusal) → TakeAnswer call v ring (Err r) w → Stays v w }
    ensures befores { (call ring head : ℕ) (v w : View) (r : NextRefusal) → BeforeAnswer call v ring head (Err r) w
        → Stays v w }
    ensures reached { (call ring head : ℕ) (v w : View) → BeforeAnswer call v ring head (Ok None) w → Stays v w }
    ensures moves { (call ring element : ℕ) (v w : View) (r : MoveRefusal)
        → MoveAnswer call v ring element (Err r) w → Stays v w }
    ensures waits { (call wait element ticket : ℕ) (v w : View) (r : MoveRefusal)
        → WaitAnswer call v wait element ticket (Err r) w → Stays v w }
    ensures tickets { (wait ticket : ℕ) (v w : View) → IsTicket v wait ticket w → Stays v w }
    ensures starts { (call element : ℕ) (v w : View) (r : Lost) → StartAnswer call v element (Err r) w → Stays v w }
    ensures goes_on { (call element : ℕ) (v w : View) → StartAnswer call v element (Ok started.NotStopped) w
        → Stays v w }
    ensures parks { (call element : ℕ) (v w : View) (r : Lost) → ParkAnswer call v element (Err r) w → Stays v w }
    ensures runs { (call element : ℕ) (v w : View) → ParkAnswer call v element (Ok false) w → Stays v w }
    ensures pendings { (element mask : ℕ) (v w : View) → IsPending v element mask w → Stays v w }
    ensures delivers { (call element : ℕ) (v w : View) (r : Lost) → DeliverAnswer call v element (Err r) w
        → Stays v w }
    ensures delivers_none { (call element : ℕ) (v w : View) → DeliverAnswer call v element (Ok 0) w → Stays v w }
    ensures counts { (element found : ℕ) (v w : View) → ReadPc element v found w → Stays v w }
    ensures spent { (call element : ℕ) (v w : View) (r : Spent) → DoneAnswer call v element (Err r) w → Stays v w }
{}

/// No taking, move, stop, start, park, signal, delivery, step, notify or wake changes the processors that its hand
/// serves, the elements that it has on them, or its share.
pub fn answers_keep()
    ensures takes { (call ring : ℕ) (v w : View) (r : Result ℕ NextRefusal) → TakeAnswer call v ring r w
        → Keeps v w }
    ensures moves { (call ring element : ℕ) (v w : View) (r : Result (Unit {0}) MoveRefusal)
        → MoveAnswer call v ring element r w → Keeps v w }
    ensures waits { (call wait element ticket : ℕ) (v w : View) (r : Result (Unit {0}) MoveRefusal)
        → WaitAnswer call v wait element ticket r w → Keeps v w }
    ensures stops { (call element : ℕ) (was : Bool) (v w : View) → StoppedNow call v element was w → Keeps v w }
    ensures starts { (call element : ℕ) (v w : View) (r : Result Started Lost) → StartAnswer call v element r w
        → Keeps v w }
    ensures parks { (call element : ℕ) (v w : View) (r : Result Bool Lost) → ParkAnswer call v element r w
        → Keeps v w }
    ensures signals { (call element number : ℕ) (v w : View) (r : Signalled)
        → SignalAnswer call v element number r w → Keeps v w }
    ensures delivers { (call element : ℕ) (v w : View) (r : Result ℕ Lost) → DeliverAnswer call v element r w
        → Keeps v w }
    ensures trace { (call element : ℕ) (v w : View) (r : Result ℕ Spent) → DoneAnswer call v element r w
        → Keeps v w }
    ensures wakes { (call wait mask : ℕ) (v w : View) → WokeAll call v wait mask w → Keeps v w }
    ensures notifies { (call wait head : ℕ) (v w : View) → NotifiedNow call v wait head w → Keeps v w }
    ensures befores { (call ring head : ℕ) (v w : View) (r : Result (Option ℕ) NextRefusal)
        → BeforeAnswer call v ring head r w → Keeps v w }
{}

/// A closed table began with 64 free elements. Condition: the list of the hand that closed it has at most 64 takings of
/// free elements. Then each element that an event of the list put after the free ones is reported as free.
pub fn freed_stay_free()
    ensures { (call : ℕ) (v : View) (stands : List Place) (pcs pending : List ℕ) (stops element : ℕ)
        → ClosedNow call v stands pcs pending stops → length (free_takings v.own.made) ≤ ELEMENTS → element < ELEMENTS
        → was_freed element v.own.made ≡ true → slice_index_or stands element places.Held ≡ places.Free }
{}

/// The numbers of the layout: the positions of the words, how many there are of each kind, and what the marks weigh.
///
/// A cache line has 8 words. The number of hands, the word of each processor, the two words of each element, and the
/// head, the tail and the first place of each ring begin 8 words apart, so they are in lines of their own. Each of them
/// begins a line if the table's memory begins at one.
pub fn layout_is()
    ensures firsts { (ends_word ≡ 0) × (ready_ring ≡ 0) × (free_ring ≡ 1) × (WORDS ≡ 2024) }
    ensures words { (n : ℕ) → (processor_word n ≡ 8 * n + 8) × (state_word n ≡ 8 * n + 72)
        × (done_word n ≡ 8 * n + 73) × (head_word n ≡ 80 * n + 584) × (tail_word n ≡ 80 * n + 592)
        × (wait_ring n ≡ n + 2) }
    ensures places { (ring position : ℕ) → place_word ring position ≡ 80 * ring + 600 + position % 64 }
    ensures kinds { (PROCESSORS ≡ 8) × (ELEMENTS ≡ 64) × (RINGS ≡ 18) × (PLACES ≡ 64) × (WAITS ≡ 16) }
    ensures marks { (NOTIFY ≡ 2 ^ 32) × (STOP ≡ 2 ^ stop_bit) × (stop_bit ≡ 16) × (CELL ≡ 2 ^ cell_bit)
        × (cell_bit ≡ 17) }
{}
