//! The answers of the calls to C.
ghost use Rattle.std.specs.Prelude.{◌≡◌};
ghost use Rattle.bindings.specs.Codes.{code_of_claim, head_of_claim, tail_of_claim, code_of_take, tail_of_take};
ghost use Rattle.bindings.specs.Codes.{code_of_some, tail_of_some, IsAnswer, IsCodeAlone};

use claim_queue::{ClaimRefusal, TakeRefusal};

/// The call succeeded.
pub const DONE: i32 = 0;

pub const NO_ITEMS: i32 = 1;

pub const TOO_LONG: i32 = 2;

pub const CLOSED: i32 = 3;

pub const SPENT: i32 = 4;

pub const FULL: i32 = 5;

pub const LOST: i32 = 6;

pub const EMPTY: i32 = 7;

pub const MOVED: i32 = 8;

pub const BUSY: i32 = 9;

pub const VACANT: i32 = 10;

pub const NO_ROOM: i32 = 11;

pub const OPEN: i32 = 12;

pub const NOT_HELD: i32 = 13;

pub const NOT_SERVED: i32 = 14;

pub const ALL_WOKEN: i32 = 15;

pub const BROKEN: i32 = 18;

pub const RUN: i32 = 20;

pub const LEFT: i32 = 21;

pub const NOTE: i32 = 22;

pub const AGAIN: i32 = 23;

pub const RUNNING: i32 = 24;

pub const NOT_RUNNING: i32 = 25;

pub const NO_MEMORY: i32 = -1;

pub const EMPTY_HANDLE: i32 = -2;

pub const FULL_HANDLE: i32 = -3;

pub const OTHER_OBJECT: i32 = -4;

pub const NO_SHARE: i32 = -5;

pub const SHORT_BUFFER: i32 = -6;

pub const BAD_NUMBER: i32 = -7;

/// The answer of a call: its code, and the positions in the answer or the refusal.
#[repr(C)]
#[derive(Drop)]
pub struct SynthAnswer {
    pub code: i32,
    pub head: u32,
    pub tail: u32,
}

/// The totals of a closed queue: its first position, and how many items were put, were taken and were left.
#[repr(C)]
#[derive(Drop)]
pub struct SynthClosed {
    pub first: u32,
    pub put: u32,
    pub taken: u32,
    pub left: usize,
}

/// This code, with these positions.
pub fn answer_at(code: i32, head: u32, tail: u32) -> SynthAnswer
    ensures { IsAnswer code head tail result }
{
    SynthAnswer { code, head, tail }
}

/// This code, with both positions 0.
pub fn answer_of(code: i32) -> SynthAnswer
    ensures { IsCodeAlone code result }
{
    answer_at(code, 0, 0)
}

/// This code, with this head.
pub fn answer_with(code: i32, head: u32) -> SynthAnswer
    ensures { IsAnswer code head 0 result }
{
    answer_at(code, head, 0)
}

/// The code of the answer, and its positions: the first position of a put, or the positions in the refusal.
pub fn answer_of_claim(answer: Result<u32, ClaimRefusal>) -> SynthAnswer
    ensures { IsAnswer (code_of_claim answer) (head_of_claim answer) (tail_of_claim answer) result }
{
    match answer {
        Ok(head) => answer_with(DONE, head),
        Err(ClaimRefusal::NoItems) => answer_of(NO_ITEMS),
        Err(ClaimRefusal::TooLong) => answer_of(TOO_LONG),
        Err(ClaimRefusal::Closed) => answer_of(CLOSED),
        Err(ClaimRefusal::Spent) => answer_of(SPENT),
        Err(ClaimRefusal::Full { head, tail }) => answer_at(FULL, head, tail),
        Err(ClaimRefusal::Lost { head }) => answer_with(LOST, head),
    }
}

/// The code of the refusal, and the position in it.
pub fn answer_of_take(refusal: TakeRefusal) -> SynthAnswer
    ensures { IsAnswer (code_of_take refusal) 0 (tail_of_take refusal) result }
{
    match refusal {
        TakeRefusal::Empty { at } => answer_at(EMPTY, 0, at),
        TakeRefusal::Lost { tail } => answer_at(LOST, 0, tail),
        TakeRefusal::Closed => answer_of(CLOSED),
    }
}

/// Done if anything was taken or nothing was refused, else the refusal's code. The position is the refusal's, or 0.
pub fn answer_of_some(count: usize, refusal: Option<TakeRefusal>) -> SynthAnswer
    ensures { IsAnswer (code_of_some count refusal) 0 (tail_of_some refusal) result }
{
    let Some(refusal) = refusal else {
        return answer_of(DONE);
    };
    let refused = answer_of_take(refusal);
    if count == 0 {
        return refused;
    }
    answer_at(DONE, 0, refused.tail)
}
