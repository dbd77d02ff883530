//! No turn of a log is left out of a trace, and no two turns of a thread overlap on its track.
ghost use Rattle.std.specs.Prelude.{◌≡◌, ◌<◌, ◌≤◌, ℕ, List, length, true, AllPairs, Contains};
ghost use Rattle.std.specs.List.{AllByRecursion, flat_map};
ghost use Rattle.boot_log.specs.declared.entry.Entry.{Entry};
ghost use Rattle.boot_log.specs.declared.line_turn.LineTurn.{LineTurn};
ghost use Rattle.boot_log.specs.Idling.{is_idle};
ghost use Rattle.boot_log.specs.Kept.{Kept};
ghost use Rattle.boot_log.specs.Lines.{is_before};
ghost use Rattle.trace_events.specs.declared.tracks.ThreadTurn.{ThreadTurn};
ghost use Rattle.trace_events.specs.Tracks.{AreApart, all_thread_turns, comes_before, precedes, slice_start};
ghost use Rattle.trace_events.specs.Tracks.{turn_of_line};
ghost use Rattle.trace_events.specs.Turns.{runs_of};

/// The runs of turns, one after the other, are all turns in their order: no turn is left out, and none is there twice.
/// Each run has a turn, and a run of several turns has idle turns alone.
pub fn no_turn_is_left_out()
    ensures turns { (entries : List Entry) → flat_map (λ run. run) (runs_of entries) ≡ entries }
    ensures some { (entries : List Entry) → AllByRecursion (λ run. 0 < length run) (runs_of entries) }
    ensures idle { (entries : List Entry) → AllByRecursion (λ run. 1 < length run
        → AllByRecursion (λ entry. is_idle entry ≡ true) run) (runs_of entries) }
{}

/// A turn begins on the track of its thread no earlier than each turn ends there that comes before it, and within its
/// time on its processor if it ended there no earlier than it began. So of two turns of a thread one has ended when the
/// other begins on the track. The order is that of the turns of lines.
pub fn no_turns_overlap()
    ensures order { (turns : List ThreadTurn) (one other : ThreadTurn) → Contains turns one
        → precedes one other ≡ true → one.ended ≤ slice_start turns other }
    ensures within { (turns : List ThreadTurn) (turn : ThreadTurn) → turn.began ≤ turn.ended
        → (turn.began ≤ slice_start turns turn) × (slice_start turns turn ≤ turn.ended) }
    ensures apart { (from : ℕ) (logs : List Kept) → let turns = all_thread_turns from 0 logs in
        AllPairs (AreApart (slice_start turns)) turns }
    ensures lines { (one other : LineTurn) → comes_before (turn_of_line one) (turn_of_line other)
        ≡ is_before one other }
{}
