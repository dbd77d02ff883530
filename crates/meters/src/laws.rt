//! Laws over plain data: an end's list is true, and each change is an event of the core.

ghost use Rattle.std.specs.Prelude.{◌≡◌, ◌≢◌, ◌+◌, ◌^◌, ◌<◌, ◌≤◌, ◌∷◌, ◌++◌, ◌⊎◌, ℕ, List, Some, None, Ok};
ghost use Rattle.std.specs.Prelude.{slice_index_or};
ghost use Rattle.std.specs.List.{AllByRecursion};
ghost use Rattle.event_theory.specs.declared.alarm.Alarm.{Alarm};
ghost use Rattle.event_theory.specs.Meters.{tick, advance, fire, cancel};
ghost use Rattle.table_theory.specs.declared.views.AbsState.{AbsState};
ghost use Rattle.table_theory.specs.Courses.{Continues};
ghost use Rattle.table_theory.specs.Ledgers.{Step, load, change, count_down, ExtendsTrace, IsValidStep};
ghost use Rattle.table_theory.specs.Ledgers.{IsValidView, Reaches, Passes};
ghost use Rattle.meters.specs.Layout.{ends_word, gauge_word, clock_word, slot_word, width, word_of, alarm_in};
ghost use Rattle.meters.specs.declared.layout.TheConstants.{GAUGES, SLOTS, TICKS, LAST_TICK, ELEMENT, SIGNAL};
ghost use Rattle.meters.specs.declared.layout.TheConstants.{FIELD, STANDS};
ghost use Rattle.meters.specs.declared.rule.Reading.{Reading};
ghost use Rattle.meters.specs.declared.ends.MeterSeat.{MeterSeat};
ghost use Rattle.meters.specs.declared.alarms.SetRefusal.TheVariants as not_set;
ghost use Rattle.meters.specs.declared.gauges.AdvanceRefusal.TheVariants as not_advanced;
ghost use Rattle.meters.specs.Answers.{NotAdvanced, NotSet};
ghost use Rattle.meters.specs.Changes.{meters_of, IsLawful, in_slot};
ghost use Rattle.meters.specs.Changes.{with_tick, with_advance, with_alarm, with_fired, with_cancelled};
ghost use Rattle.meters.specs.Client.{AtSomeMoment, ChangesNothing, HasSeenBoth, WhyNotAdvanced, WhyNotSet};
ghost use Rattle.meters.specs.Endings.{JoinedBy};
ghost use Rattle.meters.specs.Events.{Happens, Leads, IsSet};
ghost use Rattle.meters.specs.Own.{SeatView, of_meters};
ghost use Rattle.meters.specs.Handles.{view_of, IsOnlySeat};

/// An end's list is true: each entry that a call adds is a real step. It found lawful meters that the words showed, and
/// the number in its word, and it made one event of the core, or none. Real steps lead from what the end had seen to
/// each of these entries, in order, and the last of them left what the end sees then. If the end has the whole, these
/// entries alone lead there.
pub fn lists_are_true()
    ensures seat { (seat : MeterSeat) → ∥ IsValidView of_meters (view_of seat) ∥₁ }
    ensures entries { (old : SeatView) (new : MeterSeat) (entries : List (Step Reading))
        → ExtendsTrace old entries (view_of new) → ∥ AllByRecursion (IsValidStep of_meters) entries ∥₁ }
    ensures order { (old new : MeterSeat) (entries : List (Step Reading)) → ExtendsTrace (view_of old) entries (view_of new)
        → ∥ Passes of_meters (view_of old).seen entries (view_of new).seen ∥₁ }
    ensures alone { (old new : MeterSeat) (entries : List (Step Reading)) → IsOnlySeat old
        → ExtendsTrace (view_of old) entries (view_of new)
        → ∥ Continues (view_of old).seen entries (view_of new).seen ∥₁ }
    ensures since { (old new : MeterSeat) (entries : List (Step Reading)) → ExtendsTrace (view_of old) entries (view_of new)
        → ∥ Reaches of_meters (view_of old).seen (view_of new).seen ∥₁ }
    ensures leads { (m n : AbsState Reading) → Reaches of_meters m n → Leads m.object n.object }
    ensures event { (e : Step Reading) → IsValidStep of_meters e
        → (e.next.object ≡ e.then.object) ⊎ Happens e.then.object e.next.object }
    ensures lawful { (e : Step Reading) → IsValidStep of_meters e → IsLawful e.next.object }
{}

/// A join: real steps lead from what either end had seen to what the one end sees then. The first clause reads only
/// what a client reads of a join. The entry of the step that counts one end less is real.
pub fn joins_are_true()
    ensures both { (old other new : MeterSeat) → HasSeenBoth (view_of old) (view_of other) (view_of new)
        → ∥ Reaches of_meters (view_of old).seen (view_of new).seen ∥₁
        × ∥ Reaches of_meters (view_of other).seen (view_of new).seen ∥₁ }
    ensures since { (old other new : MeterSeat) → JoinedBy (view_of old) (view_of other) (view_of new)
        → ∥ Reaches of_meters (view_of old).seen (view_of new).seen ∥₁
        × ∥ Reaches of_meters (view_of other).seen (view_of new).seen ∥₁ }
    ensures entry { (old other new : MeterSeat) (t : JoinedBy (view_of old) (view_of other) (view_of new))
        → ∥ IsValidStep of_meters (count_down ends_word t.0.found) ∥₁ }
{}

/// An end that has the whole is never refused with Lost: no other end makes a step between its steps. The first two
/// clauses read only what a client reads of a call.
pub fn only_ends_are_never_lost()
    ensures clock { (old new : MeterSeat) (clock : ℕ) → IsOnlySeat old → ChangesNothing (view_of old) (view_of new)
        → WhyNotAdvanced (view_of old) (not_advanced.Lost clock) (view_of new) → ⊥ }
    ensures slot { (old new : MeterSeat) (slot : ℕ) → IsOnlySeat old → ChangesNothing (view_of old) (view_of new)
        → WhyNotSet (view_of old) (not_set.Lost slot) (view_of new) → ⊥ }
    ensures advance { (old new : MeterSeat) (clock : ℕ) → IsOnlySeat old
        → NotAdvanced (view_of old) (not_advanced.Lost clock) (view_of new) → ⊥ }
    ensures set { (old new : MeterSeat) (slot : ℕ) → IsOnlySeat old
        → NotSet (view_of old) (not_set.Lost slot) (view_of new) → ⊥ }
{}

/// The meaning of a number that a step found: the number of ends, a gauge, the clock, or the content of a slot.
pub fn numbers_say()
    ensures ends { (found : ℕ) (m : AbsState Reading) → IsValidStep of_meters (load ends_word found m) → found ≡ m.ends }
    ensures gauge { (e : Step Reading) (gauge : ℕ) → gauge < GAUGES → e.word ≡ gauge_word gauge → IsValidStep of_meters e
        → e.found ≡ slice_index_or e.then.object.gauges gauge 0 }
    ensures clock { (e : Step Reading) → e.word ≡ clock_word → IsValidStep of_meters e
        → (e.found ≡ e.then.object.clock) × (e.found < TICKS) }
    ensures empty { (e : Step Reading) (slot : ℕ) → slot < SLOTS → e.word ≡ slot_word slot → IsValidStep of_meters e
        → e.found ≡ 0 → in_slot e.then.object slot ≡ None }
    ensures taken { (e : Step Reading) (slot : ℕ) → slot < SLOTS → e.word ≡ slot_word slot → IsValidStep of_meters e
        → 0 < e.found → in_slot e.then.object slot ≡ Some (alarm_in e.found) }
    ensures other { (e : Step Reading) (slot : ℕ) (alarm : Alarm) → slot < SLOTS → e.word ≡ slot_word slot
        → IsValidStep of_meters e → e.found ≢ word_of (Some alarm) → in_slot e.then.object slot ≢ Some alarm }
{}

/// No clock that a call finds is below one that its end had seen. The clock at a moment of a call is at least what the
/// end had seen before the call, and at most what it sees then. So is the clock that an entry found. It is at least
/// what an earlier entry of the call found.
pub fn never_below()
    ensures moment { (old new : MeterSeat) (clock : ℕ) → AtSomeMoment (view_of old) (view_of new) (λ m. m.clock ≡ clock)
        → ((view_of old).seen.object.clock ≤ clock) × (clock ≤ (view_of new).seen.object.clock) }
    ensures clock { (old new : MeterSeat) (before after : List (Step Reading)) (e : Step Reading)
        → ExtendsTrace (view_of old) (before ++ e ∷ after) (view_of new) → e.word ≡ clock_word
        → ((view_of old).seen.object.clock ≤ e.found) × (e.found ≤ (view_of new).seen.object.clock) }
    ensures clocks { (old new : MeterSeat) (before between after : List (Step Reading)) (e f : Step Reading)
        → ExtendsTrace (view_of old) (before ++ e ∷ (between ++ f ∷ after)) (view_of new)
        → e.word ≡ clock_word → f.word ≡ clock_word → e.found ≤ f.found }
{}

/// Each change that a result lists is the event of the core that its name says.
pub fn changes_are_events()
    ensures ticked { (gauge amount found : ℕ) (m : AbsState Reading) → gauge < GAUGES
        → IsValidStep of_meters (change (gauge_word gauge) found m (with_tick m.object gauge amount))
        → tick gauge amount (meters_of m.object) ≡ Ok (meters_of (with_tick m.object gauge amount)) }
    ensures advanced { (found : ℕ) (m : AbsState Reading)
        → IsValidStep of_meters (change clock_word found m (with_advance m.object))
        → advance (meters_of m.object) ≡ Ok (meters_of (with_advance m.object)) }
    ensures set { (slot : ℕ) (alarm : Alarm) (m : AbsState Reading) → slot < SLOTS
        → IsValidStep of_meters (change (slot_word slot) 0 m (with_alarm m.object slot alarm))
        → IsSet slot alarm m.object (with_alarm m.object slot alarm) }
    ensures fired { (slot : ℕ) (alarm : Alarm) (m : AbsState Reading) → slot < SLOTS
        → IsValidStep of_meters (change (slot_word slot) (word_of (Some alarm)) m (with_fired m.object slot alarm))
        → (alarm.due ≤ m.object.clock) × (in_slot m.object slot ≡ Some alarm)
        × (fire slot (meters_of m.object) ≡ Ok (meters_of (with_fired m.object slot alarm))) }
    ensures cancelled { (slot : ℕ) (alarm : Alarm) (m : AbsState Reading) → slot < SLOTS
        → IsValidStep of_meters (change (slot_word slot) (word_of (Some alarm)) m (with_cancelled m.object slot alarm))
        → (in_slot m.object slot ≡ Some alarm)
        × (cancel slot (meters_of m.object) ≡ Ok (meters_of (with_cancelled m.object slot alarm))) }
{}

/// The numbers of the layout: the positions of the words, how many there are of each kind, and what the parts of a
/// slot's word weigh. The words are side by side, even if different threads write them.
pub fn layout_is()
    ensures words { (ends_word ≡ 0) × (clock_word ≡ 9) × (width ≡ 26) }
    ensures rows { (i : ℕ) → (gauge_word i ≡ 1 + i) × (slot_word i ≡ 10 + i) }
    ensures kinds { (GAUGES ≡ 8) × (SLOTS ≡ 16) }
    ensures parts { (TICKS ≡ 2 ^ 32) × (LAST_TICK ≡ 4294967295) × (ELEMENT ≡ 2 ^ 32) × (SIGNAL ≡ 2 ^ 40)
        × (FIELD ≡ 2 ^ 8) × (STANDS ≡ 2 ^ 63) }
{}
