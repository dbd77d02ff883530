//! The boot scripts that are measured, and the counts of their reports.
use boot_script::parse_number;
use std::alloc::{AllocError, Global};

/// The number of threads of each script.
pub const THREADS: u64 = 64;

/// The maximum number of steps of a thread.
const STEPS: u64 = 64;

/// The number of items of the line `hi` with its end.
const ITEMS: u64 = 3;

/// The work of the threads of a script.
#[derive(Clone, Copy)]
pub enum Script {
    /// Each thread has 64 steps that do nothing.
    Pass,
    /// A half of the threads say 64 lines each, and the others hear them, in eight queues.
    Talk,
    /// Each thread tries to hear from a queue in which nothing is ever said.
    Listen,
}

/// The counts of a report.
#[derive(Clone, Copy)]
pub struct Counted {
    /// The threads that it lists.
    pub threads: u64,
    /// The steps that the threads have done.
    pub steps: u64,
    /// The lines that were put in all queues.
    pub said: u64,
    /// The lines that were taken from all queues.
    pub heard: u64,
}

impl Script {
    /// The text of the script.
    pub fn text(self, alloc: Global) -> Result<String, AllocError> {
        let mut text = String::new(alloc);
        text.push_str("synthesis 3\n")?;
        for queue in 0..8u64 {
            add_queue(alloc, &mut text, queue)?;
        }
        for thread in 0..THREADS {
            add_thread(alloc, &mut text, thread)?;
            self.add_steps(alloc, &mut text, thread)?;
        }
        Ok(text)
    }

    // The step of one thread, which the thread repeats.
    fn step(self, alloc: Global, thread: u64) -> Result<String, AllocError> {
        match self {
            Script::Pass => "pass\n".to_string(alloc),
            Script::Talk => talked(alloc, thread),
            Script::Listen => "hear q0\n".to_string(alloc),
        }
    }

    // The number of steps of a thread.
    fn steps(self) -> u64 {
        match self {
            Script::Pass | Script::Talk => STEPS,
            Script::Listen => 1,
        }
    }

    // The steps of one thread.
    fn add_steps(self, alloc: Global, text: &mut String, thread: u64) -> Result<(), AllocError> {
        let step = self.step(alloc, thread)?;
        for _ in 0..self.steps() {
            text.push_str(step.as_str())?;
        }
        Ok(())
    }

    /// The number of turns that do all steps of all threads, if each is done at its first try.
    pub fn turns(self) -> u64 {
        match self {
            Script::Pass | Script::Talk => THREADS * STEPS,
            Script::Listen => 200_000,
        }
    }
}

// The line that names a queue.
fn add_queue(alloc: Global, text: &mut String, queue: u64) -> Result<(), AllocError> {
    let line = format!(in alloc; "queue q{queue}\n")?;
    text.push_str(line.as_str())
}

// The line that names a thread.
fn add_thread(alloc: Global, text: &mut String, thread: u64) -> Result<(), AllocError> {
    let line = format!(in alloc; "thread t{thread}\n")?;
    text.push_str(line.as_str())
}

// The step of a thread that talks: a thread with an even number says, and one with an odd number hears.
fn talked(alloc: Global, thread: u64) -> Result<String, AllocError> {
    let queue = thread / 2 % 8;
    if thread % 2 == 0 {
        format!(in alloc; "say q{queue} hi\n")
    } else {
        format!(in alloc; "hear q{queue}\n")
    }
}

// The number in this place of a line, or 0 if there is none.
fn number_at(line: &[u8], place: usize) -> u64 {
    match line.split(|byte| *byte == b' ').nth(place) {
        Some(word) => parse_number(word, u64::MAX).unwrap_or(0),
        None => 0,
    }
}

/// The counts of a report, by its lines of threads and of queues of the line `hi`.
pub fn counts_of(report: &[u8]) -> Counted {
    let mut counted = Counted {
        threads: 0,
        steps: 0,
        said: 0,
        heard: 0,
    };
    for line in report.split(|byte| *byte == b'\n') {
        if line.starts_with(b"thread ") {
            counted.threads = counted.threads.wrapping_add(1);
            counted.steps = counted.steps.wrapping_add(number_at(line, 3));
        }
        if line.starts_with(b"queue ") {
            counted.said = counted.said.wrapping_add(number_at(line, 3) / ITEMS);
            counted.heard = counted.heard.wrapping_add(number_at(line, 5) / ITEMS);
        }
    }
    counted
}
