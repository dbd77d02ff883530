//! The effect of the thread table's calls on the sum of a hand's events, for calls to which this crate adds nothing.
ghost use Rattle.std.specs.Prelude.{ℕ, Bool};
ghost use Rattle.thread_table.specs.declared.hand.Hand.{Hand};
ghost use Rattle.thread_table.specs.declared.states.Signalled.{Signalled};
ghost use Rattle.thread_table.specs.Handles.{view_of};
ghost use Rattle.thread_table.specs.Answers.{IsTicket, SignalAnswer, StoppedNow};
ghost use Rattle.turn_dispatch.specs.Holdings.{OnlyAdds};
ghost use Rattle.turn_dispatch.specs.Tallies.{no_events, one_signal};

/// A stop, a signal and the reading of a ticket leave to a hand all that it has, and count no step of its elements. A
/// signal adds one signal.
pub fn calls_only_add()
    ensures stops { (call element : ℕ) (was : Bool) (old new : Hand)
        → StoppedNow call (view_of old) element was (view_of new) → OnlyAdds no_events (view_of old) (view_of new) }
    ensures signals { (call element signal : ℕ) (answer : Signalled) (old new : Hand)
        → SignalAnswer call (view_of old) element signal answer (view_of new)
        → OnlyAdds (one_signal element signal) (view_of old) (view_of new) }
    ensures tickets { (wait ticket : ℕ) (old new : Hand) → IsTicket (view_of old) wait ticket (view_of new)
        → OnlyAdds no_events (view_of old) (view_of new) }
{}
