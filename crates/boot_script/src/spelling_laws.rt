//! Laws of boot scripts: each line has one spelling except for the escapes of a text, and each text has one reading.
//! Each plan that is read is within the limits of a boot.

ghost use Rattle.std.specs.Prelude.{◌≡◌, ◌≢◌, ◌<◌, ℕ, Bool, List, Ok, Err, true};
ghost use Rattle.std.specs.List.{AllByRecursion, list_all};
ghost use Rattle.boot_script.specs.declared.boot_lines.Line.{Line};
ghost use Rattle.boot_script.specs.declared.declared_names.Named.{Named};
ghost use Rattle.boot_script.specs.declared.fault.ScriptFault.{ScriptFault};
ghost use Rattle.boot_script.specs.declared.fault.ScriptRefusal.TheVariants.{OutOfMemory};
ghost use Rattle.boot_script.specs.declared.version.Version.{Version};
ghost use Rattle.boot_script.specs.BootLines.{boot_line};
ghost use Rattle.boot_script.specs.BootSpellings.{AreInOrder, FitsLine, IsSpelling, IsText, SpellsPlan};
ghost use Rattle.boot_script.specs.Grammar.{is_printable};
ghost use Rattle.boot_data.specs.PlanLimits.{IsPlan};
ghost use Rattle.boot_data.specs.Plans.{Plan};
ghost use Rattle.boot_script.specs.Plans.{Draft, first_draft, plan_from, text_plan};
ghost use Rattle.boot_script.specs.Texts.{bytes_of};

/// Each list of bytes is spelled by a text of printable bytes.
pub fn text_has_spelling()
    ensures { (bytes : List ℕ) → AllByRecursion (λ byte. byte < 256) bytes
        → (text : List ℕ) × IsText bytes text × (list_all is_printable text ≡ true) }
{}

/// A text of printable bytes says these bytes exactly if it is one of their spellings. A spelling is printable, so
/// that each text spells one list of bytes.
pub fn text_spellings()
    ensures spelled { (text bytes : List ℕ) → list_all is_printable text ≡ true → bytes_of text ≡ Ok bytes
        → IsText bytes text }
    ensures read { (text bytes : List ℕ) → IsText bytes text → bytes_of text ≡ Ok bytes }
    ensures printable { (text bytes : List ℕ) → IsText bytes text → list_all is_printable text ≡ true }
{}

/// If names are in order, a line that says something spells it, and each part of it is in its range. There is no other
/// spelling, except for the escapes of a text and for the space before a text without bytes.
pub fn one_spelling()
    ensures { (version : Version) (names : List Named) (going : Bool) (line : List ℕ) (said : Line)
        → AreInOrder names → boot_line version names going line ≡ Ok said
        → FitsLine version names going said × IsSpelling names said line }
{}

/// If names are in order, a line that spells something in its ranges says it.
pub fn read_again()
    ensures { (version : Version) (names : List Named) (going : Bool) (line : List ℕ) (said : Line)
        → AreInOrder names → FitsLine version names going said → IsSpelling names said line
        → boot_line version names going line ≡ Ok said }
{}

/// After any lines that were read, names are in order.
pub fn names_in_order()
    ensures { (version : Version) (number : ℕ) (lines : List (List ℕ)) (d : Draft)
        → plan_from version number lines first_draft ≡ Ok d → AreInOrder d.names }
{}

/// A text says a plan exactly if it is the first line of a version and then lines of the plan. Each of these lines is
/// silent or spells the next declaration or step.
pub fn whole_text()
    ensures spelled { (text : List ℕ) (plan : Plan) → text_plan text ≡ Ok plan → SpellsPlan text plan }
    ensures read { (text : List ℕ) (plan : Plan) → SpellsPlan text plan → text_plan text ≡ Ok plan }
{}

/// A plan that a text says is within the limits of a boot, and whatever it names exists.
pub fn within_limits()
    ensures { (text : List ℕ) (plan : Plan) → text_plan text ≡ Ok plan → IsPlan plan }
{}

/// No text is invalid because memory is exhausted, so a reader that returns `OutOfMemory` has found no fault.
pub fn memory_is_no_fault()
    ensures { (text : List ℕ) (fault : ScriptFault) → text_plan text ≡ Err fault → fault.refusal ≢ OutOfMemory }
{}
