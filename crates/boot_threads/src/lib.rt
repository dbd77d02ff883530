//! The threads of a kernel: one for each processor and each device. The work before they start is here too, and the
//! typing of each tty's bytes into its line while they run.
#![tactic(auto)]

mod alarms;
mod crew;
mod device;
mod elements;
mod laws;
mod setting_up;
mod starting;
mod stationing;
mod threads;
mod typing;
mod work;

pub use alarms::set_alarms;
pub use crew::{join_all, run_all, start_all};
pub use device::serve_device;
pub use elements::prepare;
pub use laws::{
    all_is_served, devices_come_back, first_is_prepared, first_is_ready, stations_come_together,
    works_may_run,
};
pub use setting_up::{add_devices, prepare_station};
pub use starting::{Job, JobPromise, NotStarted, Started, Witness};
pub use stationing::post_all;
pub use threads::run_kernel;
pub use typing::{type_all, type_bytes};
pub use work::{Back, Processed, Work, Worked};
