//! Moves: an element that the hand holds gets the next place of an element queue.
ghost use Rattle.std.specs.Prelude.{◌≡◌, ◌<◌, ℕ, true, false, slice_set, MatchResult, IfOk, IfErr};
ghost use Rattle.event_theory.specs.declared.event.Event.TheVariants as events;
ghost use Rattle.table_theory.specs.Seating.{IsSame};
ghost use Rattle.thread_table.specs.declared.layout.TheConstants.{WORDS, ELEMENTS, RINGS};
ghost use Rattle.thread_table.specs.Layout.{ready_ring, free_ring, wait_ring, place_word, last_head};
ghost use Rattle.thread_table.specs.Handles.{view_of, call_of, IsHandOf, IsSameHand};
ghost use Rattle.thread_table.specs.Keeping.{Keeps};
ghost use Rattle.thread_table.specs.Client.{Moved, WhyNotMoved, WhyNotWaited, WaitedInTime, MadeNothing, IsTicketOf};
ghost use Rattle.thread_table.specs.Client.{OnlySteps};
ghost use Rattle.thread_table.specs.Entries.{claim_event};
ghost use Rattle.thread_table.specs.Evidence.{MoveAnswer, WaitAnswer, IsTicket};
ghost use Rattle.thread_table.specs.Answers.{raise_event};
ghost use Rattle.thread_table.specs.Rules.{HasStood, IsActive, has};
ghost use Rattle.thread_table.specs.Steps.{HandDid};
ghost use Rattle.thread_table.specs.Views.{HasClaimed};

use crate::hand::{Hand, ThreadTable};
use crate::layout::{FREE, READY, wait_ring};
use crate::plays::EventOf;
use crate::rule::View;
use crate::sets::BitSet;
use crate::steps::{Words, exchange_head, exchange_head_at, load_head, store_place};
use crate::words::{HeadWord, PlaceWord};
use atomic_table::Seat;
use event_theory::{Element, WaitNumber};
use std::marker::Brand;
use thiserror::Error;

/// Why an element wasn't moved. The hand then holds it still. Spent is checked first, then Moved, and Lost last.
#[derive(Clone, Copy, Debug, PartialEq, Eq, Error)]
pub enum MoveRefusal {
    /// The head of the queue is 4,294,967,295, the number after the last position. No position comes back.
    #[error("the queue's positions are spent")]
    Spent,
    /// Another hand put an element into the queue first, or made a notify: the exchange found this head word, not the
    /// one that was loaded. Bits 0 to 31 are the head, bits 32 to 63 the number of notifies.
    #[error("another hand changed the head word to {seen}")]
    Lost { seen: u64 },
    /// The wait queue's number of notifies is this one, not the ticket: in the head word that was loaded, or in the one
    /// that the exchange found.
    #[error("the number of notifies is {mark}")]
    Moved { mark: u32 },
}

// Raises the place that the hand has claimed for the element, which the hand then no longer holds.
fn raise<J: EventOf>(
    words: &Words,
    seat: &mut Seat<(), View>,
    held: &mut BitSet<64>,
    ring: usize,
    head: u64,
    element: u8,
)
    requires queue { (seat.old.table_id ≡ words.now.table_id) × (words.now.table_id.words ≡ WORDS) × (ring < RINGS) }
    requires mine { IsActive seat.old.me.0 }
    requires event { (J.call ≡ seat.old.id) × (J.event ≡ raise_event seat.old.id seat.old.me.0 ring head) }
    requires claimed { HasClaimed seat.old.me.0 ring head element × (element < ELEMENTS) × (head < last_head) }
    ensures queue { IsSame seat.old seat.new × (seat.new.me.1 ≡ seat.old.me.1) }
    ensures stands { ∥ HasStood seat.new.id seat.new.me.0 ∥₁ }
    ensures effect { (found : ℕ) × HandDid J.call seat.old.me.0 (place_word ring head) found J.event seat.new.me.0 }
    ensures held { held.new ≡ slice_set held.old element false }
{
    let place = PlaceWord {
        element,
        mark: head + 1,
    };
    // linearization point: the place is raised; one store publishes its element and its mark, after the claim, and no
    // other hand writes a claimed place
    store_place::<J>(words, seat, ring, head, element, place.word());
    held.set(element, false);
}

impl ThreadTable {
    /// Puts an element that the hand holds into the ready ring: it loads the head word, exchanges it by a
    /// compare-and-swap, and raises the place. Refused if no position is left, or if another hand moved first; never
    /// for lack of room, and never with Moved.
    ///
    /// Condition: the hand holds the element, which `Hand::holds` reports.
    pub fn try_ready(&self, hand: &mut Hand, element: Element) -> Result<(), MoveRefusal>
        requires table { IsHandOf self.now hand.old }
        requires holds { has (view_of hand.old) element ≡ true }
        ensures effect { MatchResult result
            (λ done. Moved (call_of hand.old) ready_ring element (claim_event (call_of hand.old) ready_ring element)
            (view_of hand.old) (view_of hand.new))
            (λ refusal. MadeNothing (view_of hand.old) (view_of hand.new)) }
        ensures frame { Keeps (view_of hand.old) (view_of hand.new) }
        ensures error { IfErr result (λ refusal. WhyNotMoved ready_ring refusal (view_of hand.old) (view_of hand.new)) }
        ensures steps { OnlySteps 3 (view_of hand.old) (view_of hand.new) }
        ensures trace { MoveAnswer (call_of hand.old) (view_of hand.old) ready_ring element result (view_of hand.new) }
        ensures handle { IsSameHand hand.old hand.new }
    {
        self.move_to(hand, READY, element)
    }

    /// Puts an element that the hand holds into a wait queue, as `try_ready` does into the ready ring.
    pub fn try_wait(
        &self,
        hand: &mut Hand,
        element: Element,
        wait: WaitNumber,
    ) -> Result<(), MoveRefusal>
        requires table { IsHandOf self.now hand.old }
        requires holds { has (view_of hand.old) element ≡ true }
        ensures effect { MatchResult result
            (λ done. Moved (call_of hand.old) (wait_ring wait) element
            (claim_event (call_of hand.old) (wait_ring wait) element) (view_of hand.old) (view_of hand.new))
            (λ refusal. MadeNothing (view_of hand.old) (view_of hand.new)) }
        ensures frame { Keeps (view_of hand.old) (view_of hand.new) }
        ensures error { IfErr result (λ refusal. WhyNotMoved (wait_ring wait) refusal (view_of hand.old)
            (view_of hand.new)) }
        ensures steps { OnlySteps 3 (view_of hand.old) (view_of hand.new) }
        ensures trace { MoveAnswer (call_of hand.old) (view_of hand.old) (wait_ring wait) element result
            (view_of hand.new) }
        ensures handle { IsSameHand hand.old hand.new }
    {
        self.move_to(hand, wait_ring(wait.number()), element)
    }

    /// Puts an element that the hand holds after the free elements, as `try_ready` does into the ready ring.
    pub fn try_retire(&self, hand: &mut Hand, element: Element) -> Result<(), MoveRefusal>
        requires table { IsHandOf self.now hand.old }
        requires holds { has (view_of hand.old) element ≡ true }
        ensures effect { MatchResult result
            (λ done. Moved (call_of hand.old) free_ring element (claim_event (call_of hand.old) free_ring element)
            (view_of hand.old) (view_of hand.new))
            (λ refusal. MadeNothing (view_of hand.old) (view_of hand.new)) }
        ensures frame { Keeps (view_of hand.old) (view_of hand.new) }
        ensures error { IfErr result (λ refusal. WhyNotMoved free_ring refusal (view_of hand.old) (view_of hand.new)) }
        ensures steps { OnlySteps 3 (view_of hand.old) (view_of hand.new) }
        ensures trace { MoveAnswer (call_of hand.old) (view_of hand.old) free_ring element result (view_of hand.new) }
        ensures handle { IsSameHand hand.old hand.new }
    {
        self.move_to(hand, FREE, element)
    }

    // Claims the next place of an element queue for an element, and raises the place.
    fn move_to(&self, hand: &mut Hand, ring: usize, element: Element) -> Result<(), MoveRefusal>
        requires table { IsHandOf self.now hand.old × (ring < RINGS) }
        requires holds { has (view_of hand.old) element ≡ true }
        ensures effect { MatchResult result
            (λ done. Moved (call_of hand.old) ring element (claim_event (call_of hand.old) ring element)
            (view_of hand.old) (view_of hand.new))
            (λ refusal. MadeNothing (view_of hand.old) (view_of hand.new)) }
        ensures frame { Keeps (view_of hand.old) (view_of hand.new) }
        ensures error { IfErr result (λ refusal. WhyNotMoved ring refusal (view_of hand.old) (view_of hand.new)) }
        ensures steps { OnlySteps 3 (view_of hand.old) (view_of hand.new) }
        ensures trace { MoveAnswer (call_of hand.old) (view_of hand.old) ring element result (view_of hand.new) }
        ensures handle { IsSameHand hand.old hand.new }
    {
        let number = element.number();
        // linearization point of Spent: one load suffices, since the head never goes down; the tail need not be loaded,
        // since the hand holds one of the 64 elements, so one of the 64 places is left
        let word = load_head(&self.table.shared, &mut hand.seat, ring);
        let head = HeadWord::of(word).head;
        if head == u32::MAX as u64 {
            return Err(MoveRefusal::Spent);
        }
        // linearization point: the place is claimed; the same head word means that no other hand claimed it since the
        // load
        let found = exchange_head::<Brand>(&self.table.shared, &mut hand.seat, ring, number, word);
        if found != word {
            return Err(MoveRefusal::Lost { seen: found });
        }
        raise::<Brand>(
            &self.table.shared,
            &mut hand.seat,
            &mut hand.held,
            ring,
            head,
            number,
        );
        Ok(())
    }

    /// The wait queue's number of notifies, by one load of its head word: a ticket for a wait.
    pub fn ticket(&self, hand: &mut Hand, wait: WaitNumber) -> u32
        requires { IsHandOf self.now hand.old }
        ensures effect { MadeNothing (view_of hand.old) (view_of hand.new) }
        ensures result { IsTicketOf wait result (view_of hand.old) (view_of hand.new) }
        ensures frame { Keeps (view_of hand.old) (view_of hand.new) }
        ensures steps { OnlySteps 1 (view_of hand.old) (view_of hand.new) }
        ensures trace { IsTicket (view_of hand.old) wait result (view_of hand.new) }
        ensures handle { IsSameHand hand.old hand.new }
    {
        // linearization point: the number of notifies is loaded
        HeadWord::of(load_head(&self.table.shared, &mut hand.seat, wait_ring(wait.number()))).mark
    }

    /// Puts an element that the hand holds into a wait queue, if the queue's number of notifies is still the ticket.
    /// The wait is refused with Moved if a notify came between the reading of the ticket and the wait, or between the
    /// two steps of the wait. Lost means that another hand put an element first, and that the ticket is still good.
    pub fn try_wait_at(
        &self,
        hand: &mut Hand,
        element: Element,
        wait: WaitNumber,
        ticket: u32,
    ) -> Result<(), MoveRefusal>
        requires table { IsHandOf self.now hand.old }
        requires holds { has (view_of hand.old) element ≡ true }
        ensures effect { MatchResult result
            (λ done. Moved (call_of hand.old) (wait_ring wait) element
            (events.WaitAt (call_of hand.old) wait element ticket) (view_of hand.old) (view_of hand.new))
            (λ refusal. MadeNothing (view_of hand.old) (view_of hand.new)) }
        ensures result { IfOk result (λ done. WaitedInTime (call_of hand.old) wait element ticket (view_of hand.old)
            (view_of hand.new)) }
        ensures frame { Keeps (view_of hand.old) (view_of hand.new) }
        ensures error { IfErr result (λ refusal. WhyNotWaited wait ticket refusal (view_of hand.old)
            (view_of hand.new)) }
        ensures steps { OnlySteps 3 (view_of hand.old) (view_of hand.new) }
        ensures trace { WaitAnswer (call_of hand.old) (view_of hand.old) wait element ticket result
            (view_of hand.new) }
        ensures handle { IsSameHand hand.old hand.new }
    {
        let (number, queue) = (element.number(), wait.number());
        let ring = wait_ring(queue);
        // linearization point of Spent, and of Moved if the number is not the ticket: head and number are in one word,
        // so one load finds both
        let word = load_head(&self.table.shared, &mut hand.seat, ring);
        let HeadWord { head, mark } = HeadWord::of(word);
        if head == u32::MAX as u64 {
            return Err(MoveRefusal::Spent);
        }
        if mark != ticket {
            return Err(MoveRefusal::Moved { mark });
        }
        // linearization point: the place is claimed while the number is the ticket; one compare-and-swap checks both,
        // and if it fails, the word that it found decides between Moved and Lost
        let found = exchange_head_at::<Brand>(
            &self.table.shared,
            &mut hand.seat,
            queue,
            number,
            ticket,
            word,
        );
        if found != word {
            let now = HeadWord::of(found).mark;
            if now != ticket {
                return Err(MoveRefusal::Moved { mark: now });
            }
            return Err(MoveRefusal::Lost { seen: found });
        }
        raise::<Brand>(
            &self.table.shared,
            &mut hand.seat,
            &mut hand.held,
            ring,
            head,
            number,
        );
        Ok(())
    }
}
