//! Laws of the formats: each event has one spelling, and each text one reading.

ghost use Rattle.std.specs.Prelude.{◌≡◌, ◌≢◌, ℕ, List, Ok, Err};
ghost use Rattle.boot_script.specs.declared.fault.ScriptRefusal.TheVariants.{OutOfMemory};
ghost use Rattle.boot_script.specs.declared.fault.ScriptFault.{ScriptFault};
ghost use Rattle.event_theory.specs.declared.event.Event.{Event};
ghost use Rattle.boot_script.specs.declared.version.Version.{Version};
ghost use Rattle.boot_script.specs.Grammar.{line_event};
ghost use Rattle.boot_script.specs.Scripts.{text_events};
ghost use Rattle.boot_script.specs.Spellings.{spelling, Fits, SpellsText};

/// A line that says an event is that event's one spelling, and the event is in its ranges.
pub fn one_spelling()
    ensures { (version : Version) (line : List ℕ) (event : Event) → line_event version line ≡ Ok event
        → Fits version event × (line ≡ spelling event) }
{}

/// The spelling of an event that is in its ranges says that event.
pub fn read_again()
    ensures { (version : Version) (event : Event) → Fits version event
        → line_event version (spelling event) ≡ Ok event }
{}

/// A text says these events exactly if it is the first line of a version and then lines of the events. Each of these
/// lines is silent or the spelling of the next event.
pub fn whole_text()
    ensures spelled { (text : List ℕ) (elements : ℕ) (events : List (ℕ × Event))
        → text_events text ≡ Ok (elements, events) → SpellsText text elements events }
    ensures read { (text : List ℕ) (elements : ℕ) (events : List (ℕ × Event)) → SpellsText text elements events
        → text_events text ≡ Ok (elements, events) }
{}

/// No text is invalid because memory is exhausted, so a reader that returns `OutOfMemory` has found no fault.
pub fn memory_is_no_fault()
    ensures { (text : List ℕ) (fault : ScriptFault) → text_events text ≡ Err fault → fault.refusal ≢ OutOfMemory }
{}
