//! The tests of `boot_objects`, `boot_report`, `boot_threads` and `synth_kernel`, in a crate of their own. Beside each
//! of these crates they would prove it once more, and a test crate for each would have all below built for each.
#![tactic(auto)]

#[cfg(test)]
mod boots;
#[cfg(test)]
mod crews;
#[cfg(test)]
mod examples;
#[cfg(test)]
mod fixtures;
#[cfg(test)]
mod heard;
#[cfg(test)]
mod kernels;
#[cfg(test)]
mod making;
