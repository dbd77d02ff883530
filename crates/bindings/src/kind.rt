//! The kinds of ends that a handle can hold.
ghost use Rattle.std.specs.Prelude.{◌≡◌, true, refl, MatchOption, Option as Maybe, None, Some};
ghost use Rattle.std.specs.Borrow.{sem};
ghost use Rattle.bindings.specs.Kinds.{batch_in, queue_in, chain_in, hand_in, seat_in, line_in_in, line_out_in};
ghost use Rattle.bindings.specs.Kinds.{Payload as PayloadValue};
ghost use Rattle.bindings.specs.Hiding.{is_some};
ghost use Rattle.bindings.specs.Lending.{LendsPayload};
ghost use Rattle.bindings.specs.declared.payload.Payload.TheVariants as payloads;

use crate::batch::held::HeldBatch;
use crate::chain::held::HeldChain;
use crate::hand::held::HeldHand;
use crate::line::held::{HeldIn, HeldOut};
use crate::payload::Payload;
use crate::queue::held::HeldQueue;
use crate::seat::held::HeldSeat;

/// A kind of end that a handle can hold.
pub trait Kind: Drop {
    // the end, if it is one of this kind
    ghost found: { PayloadValue → Maybe Self };

    // the contents of a handle with this end
    ghost wrap: { Self → PayloadValue };

    /// The end, in place, if it is one of this kind.
    fn find(payload: &mut Payload) -> Option<&mut Self>
        ensures* writes_back { sem 𝓛 (LendsPayload Self.row wrap payload.entry result) }
        ensures value { MatchOption result (found payload.old ≡ None) (λ r. payload.old ≡ wrap r.now) };

    /// Condition: the contents are an end of this kind.
    fn unwrap(payload: Payload) -> Self
        requires { is_some (found payload) ≡ true }
        ensures { found payload ≡ Some result };

    /// The contents of a handle with this end.
    fn wrap(self) -> Payload
        ensures { result ≡ wrap self };

    ghost found_again: { (x : Self) → found (wrap x) ≡ Some x };
}

impl Kind for HeldBatch {
    ghost found = { batch_in };

    ghost wrap = { payloads.Batch };

    fn find(payload: &mut Payload) -> Option<&mut HeldBatch> {
        match payload {
            Payload::Batch(held) => Some(held),
            _ => None,
        }
    }

    fn unwrap(payload: Payload) -> HeldBatch {
        match payload {
            Payload::Batch(held) => held,
            _ => unreachable!(),
        }
    }

    fn wrap(self) -> Payload {
        Payload::Batch(self)
    }

    ghost found_again = { λ x. refl };
}

impl Kind for HeldQueue {
    ghost found = { queue_in };

    ghost wrap = { payloads.Queue };

    fn find(payload: &mut Payload) -> Option<&mut HeldQueue> {
        match payload {
            Payload::Queue(held) => Some(held),
            _ => None,
        }
    }

    fn unwrap(payload: Payload) -> HeldQueue {
        match payload {
            Payload::Queue(held) => held,
            _ => unreachable!(),
        }
    }

    fn wrap(self) -> Payload {
        Payload::Queue(self)
    }

    ghost found_again = { λ x. refl };
}

impl Kind for HeldChain {
    ghost found = { chain_in };

    ghost wrap = { payloads.Chain };

    fn find(payload: &mut Payload) -> Option<&mut HeldChain> {
        match payload {
            Payload::Chain(held) => Some(held),
            _ => None,
        }
    }

    fn unwrap(payload: Payload) -> HeldChain {
        match payload {
            Payload::Chain(held) => held,
            _ => unreachable!(),
        }
    }

    fn wrap(self) -> Payload {
        Payload::Chain(self)
    }

    ghost found_again = { λ x. refl };
}

impl Kind for HeldHand {
    ghost found = { hand_in };

    ghost wrap = { payloads.Hand };

    fn find(payload: &mut Payload) -> Option<&mut HeldHand> {
        match payload {
            Payload::Hand(held) => Some(held),
            _ => None,
        }
    }

    fn unwrap(payload: Payload) -> HeldHand {
        match payload {
            Payload::Hand(held) => held,
            _ => unreachable!(),
        }
    }

    fn wrap(self) -> Payload {
        Payload::Hand(self)
    }

    ghost found_again = { λ x. refl };
}

impl Kind for HeldSeat {
    ghost found = { seat_in };

    ghost wrap = { payloads.Seat };

    fn find(payload: &mut Payload) -> Option<&mut HeldSeat> {
        match payload {
            Payload::Seat(held) => Some(held),
            _ => None,
        }
    }

    fn unwrap(payload: Payload) -> HeldSeat {
        match payload {
            Payload::Seat(held) => held,
            _ => unreachable!(),
        }
    }

    fn wrap(self) -> Payload {
        Payload::Seat(self)
    }

    ghost found_again = { λ x. refl };
}

impl Kind for HeldIn {
    ghost found = { line_in_in };

    ghost wrap = { payloads.LineIn };

    fn find(payload: &mut Payload) -> Option<&mut HeldIn> {
        match payload {
            Payload::LineIn(held) => Some(held),
            _ => None,
        }
    }

    fn unwrap(payload: Payload) -> HeldIn {
        match payload {
            Payload::LineIn(held) => held,
            _ => unreachable!(),
        }
    }

    fn wrap(self) -> Payload {
        Payload::LineIn(self)
    }

    ghost found_again = { λ x. refl };
}

impl Kind for HeldOut {
    ghost found = { line_out_in };

    ghost wrap = { payloads.LineOut };

    fn find(payload: &mut Payload) -> Option<&mut HeldOut> {
        match payload {
            Payload::LineOut(held) => Some(held),
            _ => None,
        }
    }

    fn unwrap(payload: Payload) -> HeldOut {
        match payload {
            Payload::LineOut(held) => held,
            _ => unreachable!(),
        }
    }

    fn wrap(self) -> Payload {
        Payload::LineOut(self)
    }

    ghost found_again = { λ x. refl };
}
