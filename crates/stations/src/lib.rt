//! Stations for several processors: the ends of a station are split off from another's, for a processor of its own, and
//! joined again.
#![tactic(auto)]

mod chain_splitting;
mod laws;
mod queue_splitting;
mod station_splitting;

pub use chain_splitting::{join_chain_ends, split_chain_ends, split_chain_ends_into};
pub use laws::shares_add_up;
pub use queue_splitting::{
    join_ends, join_queue_ends, split_ends, split_ends_into, split_queue_ends_into,
};
pub use station_splitting::{join_station, split_station};
