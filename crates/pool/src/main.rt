//! The program `pool`: a pool of buffers, each of which is always with exactly one owner. Two holders acquire and
//! release buffers, first in one thread, and then each in a thread of its own.
#![tactic(auto)]

mod between;
mod lending;
mod pool;
mod workers;

use batch_queue::LeftItems;
use pool::Pool;
use std::alloc::Global;
use std::process::ExitCode;
use std::sync::Wait;
use std::thread::Threads;
use workers::{give_back, run_workers};

/// The reason why a run ends early.
type Fault = &'static str;

/// Prints a line with what was done, and the buffers with which it was done.
fn print_buffers<R: Print>(rt: &R, done: &str, buffers: &[u64]) -> Result<(), Fault> {
    print!(rt; "{done}").map_err(|_| "a line can't be written")?;
    for buffer in buffers {
        print!(rt; " {buffer}").map_err(|_| "a line can't be written")?;
    }
    println!(rt; "").map_err(|_| "a line can't be written")
}

/// The buffers that are left, in ascending order.
fn sorted(alloc: Global, left: &LeftItems) -> Result<Vec<u64>, Fault> {
    let mut buffers = Vec::new(alloc);
    for index in 0..left.len() {
        if let Some(buffer) = left.get(index) {
            buffers.push(buffer).map_err(|_| "no memory")?;
        }
    }
    buffers.sort_unstable();
    Ok(buffers)
}

/// Two holders in one thread: the buffers that each acquires, and the buffers left when both have released all.
fn run_both<R: Wait + Print>(rt: &R, alloc: Global) -> Result<(), Fault> {
    let Ok((pool, mut one)) = Pool::new(alloc, 5) else {
        return Err("no memory");
    };
    let mut buffers = [0; 5];
    let Ok(count) = pool.acquire(&mut one, &mut buffers) else {
        return Err("nothing is free");
    };
    print_buffers(rt, "one acquires", &buffers[..count])?;
    give_back(rt, &pool, &mut one, &buffers[..count]);
    let mut other = pool.split(&mut one);
    let (mut mine, mut yours) = ([0; 2], [0; 4]);
    let Ok(count) = pool.acquire(&mut one, &mut mine) else {
        return Err("nothing is free");
    };
    print_buffers(rt, "one acquires", &mine[..count])?;
    let Ok(rest) = pool.acquire(&mut other, &mut yours) else {
        return Err("nothing is free");
    };
    print_buffers(rt, "other acquires", &yours[..rest])?;
    give_back(rt, &pool, &mut other, &yours[..rest]);
    give_back(rt, &pool, &mut one, &mine[..count]);
    pool.join(&mut one, other);
    match pool.close(one) {
        Ok(left) => print_buffers(rt, "left", sorted(alloc, &left)?.as_slice()),
        Err(_) => Err("a holder is not joined"),
    }
}

/// Runs the two holders, and then the workers.
fn run<R: Threads + Wait + Print + AllocGlobal + Sync>(rt: &R) -> Result<(), Fault> {
    let alloc = rt.alloc();
    run_both(rt, alloc)?;
    let left = run_workers(rt, alloc).map_err(|_| "no memory")?;
    print_buffers(rt, "left by the workers", sorted(alloc, &left)?.as_slice())
}

fn main(rt: HostRuntime) -> ExitCode {
    match run(&rt) {
        Ok(()) => ExitCode::SUCCESS,
        Err(fault) => {
            let _ = eprintln!(rt; "pool: {fault}");
            ExitCode::FAILURE
        }
    }
}
