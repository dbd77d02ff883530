//! Making, freeing, splitting, joining and closing hands.
ghost use Rattle.std.specs.Prelude.{◌≤◌, ◌≡◌};
ghost use Rattle.bindings.specs.Handles.{hand_of, MadeHandle, FreedHandle, SplitHandle, JoinedHandle, MarksTell, Hand};
ghost use Rattle.bindings.specs.Handles.{EmptyHandle, held_by, NoneIn, HoldsThen, WasEnded};
ghost use Rattle.bindings.specs.HandHeld.{IsNewHand, MaySplit, MayNotSplit, SplitBy, Joined, AreOfOneTable, Ended};
ghost use Rattle.bindings.specs.Shares.{IsOneMark};
ghost use Rattle.bindings.specs.HandCalls.{ReportsPlaces};

use super::held::HeldHand;
use super::places::{SynthPlaces, answer_of_places};
use crate::answer::{BAD_NUMBER, DONE, EMPTY_HANDLE, FULL_HANDLE, OPEN};
use crate::ends::{fill, free, join, split};
use crate::handle::Handle;
use crate::kind::Kind;
use crate::payload::Payload;
use loose_box::Loose;
use std::alloc::Global;

/// `ThreadTable::new_at`. All tables have a mark of their own. The first position is at most 4,294,967,231.
#[unsafe(no_mangle)]
pub extern "C" fn synth_raw_hand_new_marked(
    alloc: Global,
    first: u32,
    mark: u64,
    hand: &mut Handle,
) -> i32
    ensures { MadeHandle Hand (first ≤ 4294967231) (IsNewHand first mark) hand.old hand.new result }
{
    if hand.is_full() {
        return FULL_HANDLE;
    }
    if first > 4294967231 {
        return BAD_NUMBER;
    }
    let made = HeldHand::new(alloc, first, mark);
    fill(alloc, made, hand)
}

/// Frees the handle, whose hand is then never joined.
#[unsafe(no_mangle)]
pub extern "C" fn synth_raw_hand_free(alloc: Global, hand: &mut Handle) -> i32
    ensures { FreedHandle hand_of hand.old hand.new result }
{
    free::<HeldHand>(alloc, hand)
}

/// A second hand of the table, for another thread. It has the processors of the mask, bit p for processor p.
#[unsafe(no_mangle)]
pub extern "C" fn synth_raw_hand_split(
    alloc: Global,
    hand: &mut Handle,
    processors: u32,
    other: &mut Handle,
) -> i32
    ensures { SplitHandle hand_of (MaySplit processors) (MayNotSplit processors) (SplitBy processors)
        hand.old hand.new other.old other.new result }
{
    split::<HeldHand>(alloc, hand, processors, other)
}

/// Joins two hands: the first then has all that both had, and the second handle is empty.
#[unsafe(no_mangle)]
pub extern "C" fn synth_raw_hand_join(alloc: Global, hand: &mut Handle, other: &mut Handle) -> i32
    requires { MarksTell (λ x z. IsOneMark x.share z.share) AreOfOneTable (hand_of hand.old) (hand_of other.old) }
    ensures { JoinedHandle hand_of (λ x. x.share) (λ x z. IsOneMark x.share z.share) Joined
        hand.old hand.new other.old other.new result }
{
    join::<HeldHand>(alloc, hand, other)
}

/// `ThreadTable::close`, if the hand has all parts of the table. Else the handle keeps its hand.
#[unsafe(no_mangle)]
pub extern "C" fn synth_raw_hand_close(
    alloc: Global,
    hand: &mut Handle,
    places: &mut SynthPlaces,
) -> i32
    ensures empty { NoneIn hand_of hand.old hand.new ((result ≡ EmptyHandle) × (places.new ≡ places.old)) }
    ensures closed { HoldsThen (hand_of hand.old)
        (λ x. WasEnded Hand (λ outcome. Ended outcome x) ReportsPlaces (held_by hand.new) places.old places.new result) }
{
    let Some(_held) = hand.find::<HeldHand>() else {
        return EMPTY_HANDLE;
    };
    let (payload, room) = Loose::of(hand.take(alloc)).take_out();
    match HeldHand::unwrap(payload).close() {
        Ok(ended) => {
            let _alloc = room.free();
            *places = answer_of_places(&ended);
            DONE
        }
        Err(held) => {
            hand.put(Loose::fill(room, Payload::Hand(held)).into_box());
            OPEN
        }
    }
}
