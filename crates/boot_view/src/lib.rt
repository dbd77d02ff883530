//! Boots a script with a recorder on each processor, and makes a page of what the turns did: a picture as SVG, or
//! Chrome's trace events as JSON. A page is of the logs that the recorders had at the end of the boot. `pages_have_fronts`
//! says what these logs have of all turns. A clock makes the recorders of one boot, so no other boot is recorded.
#![tactic(auto)]

mod boot_timer;
mod booting;
mod command;
mod dropping;
mod laws;
mod viewing;

pub use boot_timer::BootTimer;
pub use command::{Command, View, command_of};
pub use dropping::Dropper;
pub use laws::pages_have_fronts;
pub use viewing::view_on;
