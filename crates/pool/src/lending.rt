//! The protocol of a pool's queue. With it, what a single holder can only know of itself is known of every end.
ghost use Rattle.pool.specs.Lending.{Lends};
ghost use Rattle.pool.specs.Laws.{lends_begins, lends_takes, lends_joins};

use table_theory::protocol::Protocol;

/// An end has put back each buffer at most as often as it took it. Only the batch at the queue's first position is free
/// of this: it is all buffers of a pool.
pub struct Lending;

impl Protocol for Lending {
    ghost allows = { Lends };

    ghost begins = { lends_begins };

    ghost takes = { lends_takes };

    ghost joins = { lends_joins };
}
