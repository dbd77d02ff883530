//! The protocol of the tags' queue. With it, what a single end can only know of itself is known of every end.
ghost use Rattle.tags.specs.Lending.{Lends};
ghost use Rattle.tags.specs.Laws.{lends_begins, lends_takes, lends_joins};

use table_theory::protocol::Protocol;

/// An end has given back each tag at most as often as it took it. Only the line at the queue's first position is free
/// of this: it is all tags. The first position is the number of tags, so the protocol knows which numbers are tags.
pub struct Lending;

impl Protocol for Lending {
    ghost allows = { Lends };

    ghost begins = { lends_begins };

    ghost takes = { lends_takes };

    ghost joins = { lends_joins };
}
