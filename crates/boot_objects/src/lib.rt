//! The objects of a plan that lines and notes go through, made before any thread starts: queues, quajects in their
//! chains, and devices with their lines.
#![tactic(auto)]

mod chains;
mod closing;
mod device;
mod laws;
mod making;
mod movers;
mod quaject_list;
mod queue_list;
mod stock;
mod stocked;
mod ttys;

pub use closing::{
    Answers, TornDown, bring_all_home, bring_home, close_all, close_chains, close_meters,
    close_queues, close_threads, homes_shut_nothing, join_at, join_chain_at, join_port_at,
    join_raws, retire_all, wholes_come_home,
};
pub use device::Device;
pub use laws::shares_come_home;
pub use making::{Objects, make_objects};
pub use stocked::{Stocked, make_stocked};
