//! Who holds an element.

use crate::names::Call;

/// A call and an element that it holds, or put on a processor.
#[derive(Clone, Copy)]
pub struct Hold {
    pub call: Call,
    /// The element's number.
    pub element: u64,
}
