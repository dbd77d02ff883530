//! The kinds of things in a boot.

/// The kind that a name of a boot script was declared for.
#[derive(Clone, Copy)]
pub enum Kind {
    /// A queue or pipe.
    Queue,
    /// A tty.
    Tty,
    /// A pump or switch.
    Mover,
    Gauge,
    Thread,
}
