//! Two drivers of one device, each in a thread of its own.
ghost use Rattle.std.specs.Prelude.{◌≡◌, ◌<◌, ℕ, IfOk};
ghost use Rattle.std.specs.Thread.{IsSync};
ghost use Rattle.tags.specs.Handles.{count_of, IsHolderOf, Holds, HoldsSame, HoldsLess, SameShare};
ghost use Rattle.tags.specs.Lending.{AreAll};
ghost use Rattle.tags.specs.Turns.{Works};

use crate::tags::{Holder, Tags};
use arrayvec::ArrayVec;
use event_theory::OutOfMemory;
use std::alloc::Global;
use std::sync::Wait;
use std::thread;
use std::thread::Threads;

/// The number of tags of the drivers' device.
const TAGS: usize = 4;

/// The number of turns of a driver.
const TURNS: usize = 100;

/// Gives back a tag. Retries while another holder is first.
pub fn give_back<const N: usize, R: Wait>(rt: &R, tags: &Tags<N>, holder: &mut Holder<N>, tag: u64)
    requires pool { IsHolderOf tags.now holder.old }
    requires holds { Holds holder.old tag }
    ensures pool { IsHolderOf tags.now holder.new }
    ensures effect { HoldsLess tag holder.old holder.new }
    ensures share { SameShare holder.old holder.new }
{
    for _ in rt.forever() {
        match tags.give_back(holder, tag) {
            Ok(()) => return,
            Err(_) => thread::yield_now(),
        }
    }
}

/// One turn: takes a free tag, counts the command that has it, and gives the tag back. A tag is below the number of
/// tags, so it is an index of the counts.
fn turn<R: Wait>(rt: &R, tags: &Tags<TAGS>, holder: &mut Holder<TAGS>, commands: &mut [u64; TAGS])
    requires { IsHolderOf tags.now holder.old × (count_of tags.now ≡ 4) }
    ensures pool { IsHolderOf tags.now holder.new }
    ensures effect { HoldsSame holder.old holder.new }
    ensures share { SameShare holder.old holder.new }
{
    if let Ok(tag) = tags.take(holder) {
        let count = commands[tag as usize];
        commands[tag as usize] = count.saturating_add(1);
        give_back(rt, tags, holder, tag);
    }
}

/// The turns of a driver.
fn drive<R: Wait>(rt: &R, tags: &Tags<TAGS>, holder: Holder<TAGS>) -> Holder<TAGS>
    requires { IsHolderOf tags.now holder × (count_of tags.now ≡ 4) }
    ensures { Works tags.now holder result }
{
    let mut holder = holder;
    let mut commands = [0; TAGS];
    for _ in 0..TURNS {
        turn(rt, tags, &mut holder, &mut commands);
    }
    holder
}

/// Two drivers take and give back the tags of one device. When both are done, all tags are left, each once.
pub fn run_drivers<R: Threads + Wait + Sync>(
    rt: &R,
    alloc: Global,
) -> Result<ArrayVec<u64, TAGS>, OutOfMemory>
    ensures { IfOk result (λ left. AreAll 4 left.items) }
{
    let (tags, mut one) = Tags::<TAGS>::new(alloc, TAGS)?;
    let other = tags.split(&mut one);
    let shared = &tags;
    let back = thread::join(
        rt,
        move || -> Holder<TAGS>
            requires { IsSync R.row × IsHolderOf shared.now one × (count_of shared.now ≡ 4) }
            ensures { Works shared.entry.now one result }
        { drive(rt, shared, one) },
        move || -> Holder<TAGS>
            requires { IsSync R.row × IsHolderOf shared.now other × (count_of shared.now ≡ 4) }
            ensures { Works shared.entry.now other result }
        { drive(rt, shared, other) },
    );
    let (mut one, other) = back;
    tags.join(&mut one, other);
    match tags.close(one) {
        Ok(left) => Ok(left),
        Err(_) => unreachable!(),
    }
}
