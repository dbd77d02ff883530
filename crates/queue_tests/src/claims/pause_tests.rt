//! The acts of another end between the steps of a claim or a take.
ghost use Rattle.std.specs.Prelude.{◌≡◌, true};
ghost use Rattle.claim_queue.specs.Handles.{IsEndOf};

use crate::claims::scripts::{Act, Four, does, new_four};
use claim_queue::*;
use std::alloc::Global;
use std::process::Abort;
use std::sync::Wait;
use std::test::*;

/// In the pause, another end does these acts.
#[derive(Drop)]
struct Held<'a, R: Abort + Wait> {
    rt: &'a R,
    queue: &'a Four,
    end: QueueEnd<4>,
    acts: &'static [Act],
    done: bool,
    ghost of: { IsEndOf queue.now end },
}

impl<'a, R: Abort + Wait> Pause for Held<'a, R> {
    ghost paused = { λ old new. new.done ≡ true };

    fn between(&mut self) {
        let rt = self.rt;
        assert!(rt; !self.done, "called once");
        does(self.rt, self.queue, &mut self.end, self.acts);
        self.done = true;
    }
}

/// The call with a pause, and how it is answered.
enum Call {
    /// A claim of these items.
    Claim(&'static [u64], ClaimRefusal),
    Take(Result<u64, TakeRefusal>),
}

/// The acts of an end before its call and after it, of another end in the pause, and of that other end after all these.
/// The call reaches its exchange.
struct Script {
    before: &'static [Act],
    call: Call,
    pause: &'static [Act],
    following: &'static [Act],
    other: &'static [Act],
}

fn is_answered<R: Abort + Wait>(
    queue: &Four,
    end: &mut QueueEnd<4>,
    call: &Call,
    held: &mut Held<R>,
) -> bool
    requires { IsEndOf queue.now end.old }
    ensures { IsEndOf queue.now end.new }
{
    match call {
        Call::Claim(items, refusal) => match queue.try_claim_paused(end, items, held) {
            Ok(_) => false,
            Err(answer) => answer == *refusal,
        },
        Call::Take(answer) => queue.try_take_paused(end, held) == *answer,
    }
}

fn plays<R: Abort + Wait>(rt: &R, alloc: Global, script: &Script) {
    let (queue, mut end) = new_four(rt, alloc, 0);
    let other = queue.split(&mut end);
    does(rt, &queue, &mut end, script.before);
    let mut held = Held {
        rt,
        queue: &queue,
        end: other,
        acts: script.pause,
        done: false,
    };
    assert!(rt; is_answered(&queue, &mut end, &script.call, &mut held));
    assert!(rt; held.done);
    does(rt, &queue, &mut end, script.following);
    does(rt, held.queue, &mut held.end, script.other);
}

/// A call that is refused before its exchange, at a queue whose first position is `first`: the acts of its end before
/// it, and the acts of another end, planned for the pause and made after the call.
struct Early {
    first: u32,
    before: &'static [Act],
    call: Call,
    pause: &'static [Act],
}

fn does_not_pause<R: Abort + Wait>(rt: &R, alloc: Global, early: &Early) {
    let (queue, mut end) = new_four(rt, alloc, early.first);
    let other = queue.split(&mut end);
    does(rt, &queue, &mut end, early.before);
    let mut held = Held {
        rt,
        queue: &queue,
        end: other,
        acts: early.pause,
        done: false,
    };
    assert!(rt; is_answered(&queue, &mut end, &early.call, &mut held));
    assert!(rt; !held.done);
    does(rt, held.queue, &mut held.end, early.pause);
}

/// Another end puts two items first: the items after the run are put and taken after it.
const LOST_HEAD: Script = Script {
    before: &[],
    call: Call::Claim(&[1], ClaimRefusal::Lost { head: 2 }),
    pause: &[Act::Put(&[2, 3], Ok(0))],
    following: &[
        Act::Put(&[1], Ok(2)),
        Act::Take(Ok(2)),
        Act::Take(Ok(3)),
        Act::Take(Ok(1)),
    ],
    other: &[],
};

/// Another end takes the item first.
const LOST_TAIL: Script = Script {
    before: &[Act::Put(&[1, 2], Ok(0))],
    call: Call::Take(Err(TakeRefusal::Lost { tail: 1 })),
    pause: &[Act::Take(Ok(1))],
    following: &[Act::Take(Ok(2))],
    other: &[Act::Take(Err(TakeRefusal::Empty { at: 2 }))],
};

/// Another end shuts the queue.
const SHUT_IN_THE_PAUSE: Script = Script {
    before: &[],
    call: Call::Claim(&[1], ClaimRefusal::Closed),
    pause: &[Act::Shut(true)],
    following: &[],
    other: &[],
};

/// Another end puts an item and shuts the queue, and what is in it is taken.
const CLOSED_WHEN_ALL_IS_TAKEN: Script = Script {
    before: &[Act::Put(&[1], Ok(0))],
    call: Call::Take(Ok(1)),
    pause: &[Act::Put(&[2], Ok(1)), Act::Shut(true)],
    following: &[
        Act::Take(Ok(2)),
        Act::Take(Err(TakeRefusal::Closed)),
        Act::Line(Err(TakeRefusal::Closed), &[]),
    ],
    other: &[],
};

#[test]
fn lost_head(rt: HostRuntime) {
    plays(&rt, rt.alloc(), &LOST_HEAD);
}

#[test]
fn lost_tail(rt: HostRuntime) {
    plays(&rt, rt.alloc(), &LOST_TAIL);
}

#[test]
fn shut_in_the_pause(rt: HostRuntime) {
    plays(&rt, rt.alloc(), &SHUT_IN_THE_PAUSE);
}

#[test]
fn closed_when_all_is_taken(rt: HostRuntime) {
    plays(&rt, rt.alloc(), &CLOSED_WHEN_ALL_IS_TAKEN);
}

const CLAIMS_WITHOUT_AN_EXCHANGE: &[Early] = &[
    Early {
        first: 0,
        before: &[],
        call: Call::Claim(&[], ClaimRefusal::NoItems),
        pause: &[Act::Put(&[1], Ok(0))],
    },
    Early {
        first: 0,
        before: &[],
        call: Call::Claim(&[1, 2, 3, 4, 5], ClaimRefusal::TooLong),
        pause: &[Act::Put(&[1], Ok(0))],
    },
    Early {
        first: 0,
        before: &[Act::Shut(true)],
        call: Call::Claim(&[1], ClaimRefusal::Closed),
        pause: &[Act::Shut(false)],
    },
    Early {
        first: 4_294_967_294,
        before: &[Act::Put(&[1], Ok(4_294_967_294))],
        call: Call::Claim(&[2], ClaimRefusal::Spent),
        pause: &[Act::Take(Ok(1))],
    },
    // With the first item taken there would be room.
    Early {
        first: 0,
        before: &[Act::Put(&[1, 2, 3, 4], Ok(0))],
        call: Call::Claim(&[5], ClaimRefusal::Full { head: 4, tail: 0 }),
        pause: &[Act::Take(Ok(1))],
    },
];

const TAKES_WITHOUT_AN_EXCHANGE: &[Early] = &[
    // With an item put there would be one to take.
    Early {
        first: 0,
        before: &[],
        call: Call::Take(Err(TakeRefusal::Empty { at: 0 })),
        pause: &[Act::Put(&[1], Ok(0))],
    },
    Early {
        first: 0,
        before: &[Act::Put(&[1], Ok(0)), Act::Take(Ok(1)), Act::Shut(true)],
        call: Call::Take(Err(TakeRefusal::Closed)),
        pause: &[Act::Shut(false)],
    },
];

#[test]
fn claims_without_an_exchange(rt: HostRuntime) {
    for early in CLAIMS_WITHOUT_AN_EXCHANGE {
        does_not_pause(&rt, rt.alloc(), early);
    }
}

#[test]
fn takes_without_an_exchange(rt: HostRuntime) {
    for early in TAKES_WITHOUT_AN_EXCHANGE {
        does_not_pause(&rt, rt.alloc(), early);
    }
}
