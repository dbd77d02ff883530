//! Closing the objects that the processors and the devices of a boot shared: the queues, the chains, the thread
//! elements and the meters. All have stopped, and one owner has the ends.
//!
//! Nothing here takes memory: the lists of the results come in with room for them. If the one end of an object has the
//! whole, no other end exists, and closing the object can't be refused.
mod all;
mod chains;
mod homing;
mod joining;
mod laws;
mod queues;
mod raws;
mod tables;

pub use all::{Answers, TornDown, close_all};
pub use chains::retire_all;
pub use homing::{bring_all_home, bring_home, close_chains};
pub use joining::{join_at, join_chain_at, join_port_at};
pub use laws::{homes_shut_nothing, wholes_come_home};
pub use queues::close_queues;
pub use raws::join_raws;
pub use tables::{close_meters, close_threads};
