//! Each event keeps what is lawful. These are statements over plain data, without a width or a table.

ghost use Rattle.std.specs.Prelude.{◌≡◌, ◌==◌, ◌+◌, ◌<◌, ◌≤◌, ℕ, List, [], ◌∷◌, ◌++◌, map, length, false, Ok};
ghost use Rattle.event_theory.specs.Queues.{Queue, empty_queue, full_queue, claim, raise, take_first};
ghost use Rattle.event_theory.specs.Queues.{join_queue};
ghost use Rattle.event_theory.specs.Chains.{Chain, empty_chain, claim_note, raise_note, take_note, notify, round};
ghost use Rattle.event_theory.specs.Chains.{leave, join_chain};
ghost use Rattle.event_theory.specs.Meters.{Meters, first_meters, tick, advance, set_alarm, fire, cancel};
ghost use Rattle.event_theory.specs.Lawful.{IsLawfulQueue, IsLawfulChain, IsLawfulMeters, IsLawfulElements};
ghost use Rattle.event_theory.specs.declared.alarm.Alarm.{Alarm};
ghost use Rattle.event_theory.specs.Elements.{Elements, first_elements, claim_element, raise_element, take_element};
ghost use Rattle.event_theory.specs.Elements.{put_on, take_off, stop, park, start, signal, deliver, done};
ghost use Rattle.event_theory.specs.Elements.{join_elements};
ghost use Rattle.event_theory.specs.States.{State, first_state, step};
ghost use Rattle.event_theory.specs.Schedules.{Reaches};
ghost use Rattle.event_theory.specs.Lawful.{IsLawful};
ghost use Rattle.event_theory.specs.Accounts.{IsAccounted};
ghost use Rattle.event_theory.specs.Marks.{shut, notify_wait, wait_at};
ghost use Rattle.event_theory.specs.declared.event.Event.{Event};

/// The empty and full queues, the empty chain and the meters that a state begins with are lawful.
pub fn first_are_lawful()
    ensures empty { (capacity : ℕ) → IsLawfulQueue (empty_queue capacity) }
    ensures full { (count : ℕ) → IsLawfulQueue (full_queue count) }
    ensures chain { IsLawfulChain empty_chain }
    ensures meters { IsLawfulMeters first_meters }
{}

/// Each event of a queue keeps it lawful.
pub fn queues_keep_lawful()
    ensures claim { (longest call : ℕ) (items : List ℕ) (q r : Queue)
        → IsLawfulQueue q → claim longest call items q ≡ Ok r → IsLawfulQueue r }
    ensures raise { (call run index : ℕ) (q r : Queue)
        → IsLawfulQueue q → raise call run index q ≡ Ok r → IsLawfulQueue r }
    ensures take { (longest count : ℕ) (q r : Queue)
        → IsLawfulQueue q → take_first longest count q ≡ Ok r → IsLawfulQueue r }
    ensures shut { (q : Queue) → IsLawfulQueue q → IsLawfulQueue (shut q) }
    ensures join { (call other : ℕ) (q : Queue) → IsLawfulQueue q → IsLawfulQueue (join_queue call other q) }
{}

/// Each event of a chain keeps it lawful.
pub fn chains_keep_lawful()
    ensures claim { (call : ℕ) (items : List ℕ) (c d : Chain)
        → IsLawfulChain c → claim_note call items c ≡ Ok d → IsLawfulChain d }
    ensures raise { (call run index : ℕ) (c d : Chain)
        → IsLawfulChain c → raise_note call run index c ≡ Ok d → IsLawfulChain d }
    ensures take { (call count : ℕ) (c d : Chain) → IsLawfulChain c → take_note call count c ≡ Ok d → IsLawfulChain d }
    ensures notify { (call : ℕ) (c d : Chain) → IsLawfulChain c → notify call c ≡ Ok d → IsLawfulChain d }
    ensures round { (call : ℕ) (c d : Chain) → IsLawfulChain c → round call c ≡ Ok d → IsLawfulChain d }
    ensures leave { (call : ℕ) (c d : Chain) → IsLawfulChain c → leave call c ≡ Ok d → IsLawfulChain d }
    ensures join { (call other : ℕ) (c : Chain)
        → (call == other) ≡ false → IsLawfulChain c → IsLawfulChain (join_chain call other c) }
{}

/// Each event of the meters keeps them lawful.
pub fn meters_keep_lawful()
    ensures tick { (gauge amount : ℕ) (m n : Meters)
        → IsLawfulMeters m → tick gauge amount m ≡ Ok n → IsLawfulMeters n }
    ensures advance { (m n : Meters) → IsLawfulMeters m → advance m ≡ Ok n → IsLawfulMeters n }
    ensures set { (alarm : Alarm) (m n : Meters) → IsLawfulMeters m → set_alarm alarm m ≡ Ok n → IsLawfulMeters n }
    ensures fire { (slot : ℕ) (m n : Meters) → IsLawfulMeters m → fire slot m ≡ Ok n → IsLawfulMeters n }
    ensures cancel { (slot : ℕ) (m n : Meters) → IsLawfulMeters m → cancel slot m ≡ Ok n → IsLawfulMeters n }
{}

/// Each event of the element queues keeps the elements lawful.
pub fn element_queues_keep_lawful()
    ensures claimed { (ring call : ℕ) (items : List ℕ) (s t : Elements)
        → IsLawfulElements s → claim_element ring call items s ≡ Ok t → IsLawfulElements t }
    ensures raised { (ring call run index : ℕ) (s t : Elements)
        → IsLawfulElements s → raise_element ring call run index s ≡ Ok t → IsLawfulElements t }
    ensures taken { (ring call count : ℕ) (s t : Elements)
        → IsLawfulElements s → take_element ring call count s ≡ Ok t → IsLawfulElements t }
    ensures notified { (wait : ℕ) (s t : Elements)
        → IsLawfulElements s → notify_wait wait s ≡ Ok t → IsLawfulElements t }
    ensures waited { (call wait element ticket : ℕ) (s t : Elements)
        → IsLawfulElements s → wait_at call wait element ticket s ≡ Ok t → IsLawfulElements t }
{}

/// Each event that moves an element onto a processor or into its stop cell, or away from there, keeps the elements
/// lawful.
pub fn places_keep_lawful()
    ensures put { (call processor element : ℕ) (s t : Elements)
        → IsLawfulElements s → put_on call processor element s ≡ Ok t → IsLawfulElements t }
    ensures taken_off { (call processor : ℕ) (s t : Elements)
        → IsLawfulElements s → take_off call processor s ≡ Ok t → IsLawfulElements t }
    ensures parked { (call element : ℕ) (s t : Elements)
        → IsLawfulElements s → park call element s ≡ Ok t → IsLawfulElements t }
    ensures started { (call element : ℕ) (s t : Elements)
        → IsLawfulElements s → start call element s ≡ Ok t → IsLawfulElements t }
{}

/// Each event of a thread that leaves its element where it is keeps the elements lawful.
pub fn threads_keep_lawful()
    ensures stopped { (element : ℕ) (s t : Elements) → IsLawfulElements s → stop element s ≡ Ok t → IsLawfulElements t }
    ensures signalled { (element number : ℕ) (s t : Elements)
        → IsLawfulElements s → signal element number s ≡ Ok t → IsLawfulElements t }
    ensures delivered { (call element : ℕ) (s t : Elements)
        → IsLawfulElements s → deliver call element s ≡ Ok t → IsLawfulElements t }
    ensures done { (call element : ℕ) (s t : Elements)
        → IsLawfulElements s → done call element s ≡ Ok t → IsLawfulElements t }
{}

/// The first elements are lawful, and a join of two calls keeps them so.
pub fn elements_begin_and_join_lawful()
    ensures first { (count : ℕ) → IsLawfulElements (first_elements count) }
    ensures joined { (call other : ℕ) (s : Elements)
        → IsLawfulElements s → IsLawfulElements (join_elements call other s) }
{}

/// Each event keeps a lawful state.
pub fn step_keeps_lawful()
    ensures { (event : Event) (s t : State) → IsLawful s → step event s ≡ Ok t → IsLawful t }
{}

/// Every state that a schedule reaches is lawful, and agrees with the effects of the schedule's events.
pub fn every_schedule()
    ensures lawful { (elements : ℕ) (events : List Event) (s : State)
        → Reaches (first_state elements) events s → IsLawful s }
    ensures accounted { (elements : ℕ) (events : List Event) (s : State)
        → Reaches (first_state elements) events s → IsAccounted (first_state elements) events s }
{}
