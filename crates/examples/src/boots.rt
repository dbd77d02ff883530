//! Boot scripts, each of which is only read here. Boots and their reports are tested with the built program.

use boot_script::parse_boot;
use std::{fs, io};

/// The folder of the boot scripts, each NAME.boot, with their reports.
pub const BOOTS: &str = "boots";

/// Whether a script has no fault. Prints the fault of an invalid script.
fn is_read(rt: &HostRuntime, file: &str) -> io::Result<bool> {
    let script = fs::read(rt, format!(in rt.alloc(); "{BOOTS}/{file}")?)?;
    let fault = parse_boot(rt.alloc(), &script).err();
    if let Some(fault) = &fault {
        println!(rt; "{BOOTS}/{file}: {fault}")?;
    }
    Ok(fault.is_none())
}

/// Reads each script among these files of the folder, prints how many there are, and returns whether none has a fault.
pub fn read_boots(rt: &HostRuntime, files: &[String]) -> io::Result<bool> {
    let mut count = 0u32;
    let mut same = true;
    for file in files {
        if file.ends_with(".boot") {
            same = is_read(rt, file.as_str())? && same;
            count = count.saturating_add(1);
        }
    }
    println!(rt; "{count} boot scripts")?;
    Ok(same)
}
