//! The program `tags`: the tags of a device's commands, each of which is always with exactly one owner. Two holders
//! take and give back tags, first in one thread, and then each in a thread of its own.
#![tactic(auto)]

mod between;
mod drivers;
mod lending;
mod tags;

use drivers::{give_back, run_drivers};
use std::alloc::Global;
use std::process::ExitCode;
use std::sync::Wait;
use std::thread::Threads;
use tags::Tags;

/// The reason why a run ends early.
type Fault = &'static str;

/// Prints a line with what was done, and the tags with which it was done.
fn print_tags<R: Print>(rt: &R, done: &str, tags: &[u64]) -> Result<(), Fault> {
    print!(rt; "{done}").map_err(|_| "a line can't be written")?;
    for tag in tags {
        print!(rt; " {tag}").map_err(|_| "a line can't be written")?;
    }
    println!(rt; "").map_err(|_| "a line can't be written")
}

/// The tags, in ascending order.
fn sorted(alloc: Global, tags: &[u64]) -> Result<Vec<u64>, Fault> {
    let mut sorted = Vec::new(alloc);
    for tag in tags {
        sorted.push(*tag).map_err(|_| "no memory")?;
    }
    sorted.sort_unstable();
    Ok(sorted)
}

/// Two holders in one thread: the tags that each takes, in the order in which they were freed, and the tags left when
/// both have given back all.
fn run_both<R: Wait + Print>(rt: &R, alloc: Global) -> Result<(), Fault> {
    let Ok((tags, mut one)) = Tags::<8>::new(alloc, 3) else {
        return Err("no memory");
    };
    let mut other = tags.split(&mut one);
    let Ok(first) = tags.take(&mut one) else {
        return Err("no tag is free");
    };
    let Ok(second) = tags.take(&mut other) else {
        return Err("no tag is free");
    };
    print_tags(rt, "one takes", &[first])?;
    print_tags(rt, "other takes", &[second])?;
    give_back(rt, &tags, &mut other, second);
    give_back(rt, &tags, &mut one, first);
    let Ok(third) = tags.take(&mut one) else {
        return Err("no tag is free");
    };
    let Ok(fourth) = tags.take(&mut one) else {
        return Err("no tag is free");
    };
    print_tags(rt, "one takes", &[third, fourth])?;
    give_back(rt, &tags, &mut one, fourth);
    give_back(rt, &tags, &mut one, third);
    tags.join(&mut one, other);
    match tags.close(one) {
        Ok(left) => print_tags(rt, "left", left.as_slice()),
        Err(_open) => Err("a holder is not joined"),
    }
}

/// Runs the two holders, and then the drivers.
fn run<R: Threads + Wait + Print + AllocGlobal + Sync>(rt: &R) -> Result<(), Fault> {
    let alloc = rt.alloc();
    run_both(rt, alloc)?;
    let left = run_drivers(rt, alloc).map_err(|_| "no memory")?;
    print_tags(
        rt,
        "left by the drivers",
        sorted(alloc, left.as_slice())?.as_slice(),
    )
}

fn main(rt: HostRuntime) -> ExitCode {
    match run(&rt) {
        Ok(()) => ExitCode::SUCCESS,
        Err(fault) => {
            let _ = eprintln!(rt; "tags: {fault}");
            ExitCode::FAILURE
        }
    }
}
