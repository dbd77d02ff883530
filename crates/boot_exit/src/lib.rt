//! The exit status of a program that boots a script, and its words for standard error.
#![tactic(auto)]

ghost use Rattle.std.specs.Prelude.{◌≡◌, OnErr};
ghost use Rattle.boot_script.specs.Exits.{IsExit};
ghost use Rattle.boot_script.specs.StreamFaults.{IsWriteFault};
ghost use Rattle.boot_exit.specs.Exits.{boot_exit_code_of, boot_words_of};

use boot_script::Sink;
use boot_script::exit::Exit;
use synth_kernel::{BootFault, Ended};

/// Reports how a boot has ended.
///
/// Status 0 is returned if all threads have ended; 1 if the script is invalid; 3 if memory was exhausted; 4 if threads
/// have not ended; 5 if the reader or the writer failed. Words are written only for a fault.
pub fn after_boot<E: Sink>(answer: Result<Ended, BootFault>, errors: &mut E) -> Exit
    ensures exit { IsExit result (boot_exit_code_of answer) (boot_words_of answer)
        (E.contents errors.old) (E.contents errors.new) }
    ensures error { OnErr result.reported (IsWriteFault E.fails errors.new) }
{
    let status = boot_status(answer);
    match answer {
        Ok(_) => Exit {
            status,
            reported: Ok(()),
        },
        Err(fault) => Exit {
            status,
            reported: errors.write_line(fault),
        },
    }
}

/// The exit status of a boot.
fn boot_status(answer: Result<Ended, BootFault>) -> u8
    ensures { result ≡ boot_exit_code_of answer }
{
    match answer {
        Ok(Ended::AllEnded) => 0,
        Ok(Ended::Unfinished { .. }) => 4,
        Err(BootFault::Script(_)) => 1,
        Err(BootFault::Memory) => 3,
        Err(BootFault::Read | BootFault::Write) => 5,
    }
}
