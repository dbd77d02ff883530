//! The command that the words of the program are.

ghost use Rattle.std.specs.Prelude.{◌≡◌, ◌≤◌, ◌∷◌, [], ℕ, None, map, IfSome, IfNone};
ghost use Rattle.boot_view.specs.Commands.{IsCommand, IsNoCommand, AreNumbers, option_words};
ghost use Rattle.boot_view.specs.declared.command.View.{View};

use boot_script::parse_number;

/// The most processors of a boot.
const MOST_PROCESSORS: u64 = 8;

/// The most turns of each processor of a boot.
const MOST_TURNS: u64 = 100_000_000;

/// What is printed of a boot.
#[derive(Clone, Copy, Debug, PartialEq, Eq)]
pub enum View {
    /// A picture, with the turns in the order of the clock.
    InOrder,
    /// A picture, with the turns at their times.
    ByTime,
    /// Chrome's trace events.
    Trace,
}

/// A boot to be drawn: on this many processors, 1 to 8, with this many turns on each.
#[derive(Clone, Copy, Debug, PartialEq, Eq)]
pub struct Command {
    pub processors: u8,
    pub turns: u32,
    pub view: View,
}

/// The command that the words are; none if they are no command.
pub fn command_of(words: &[&str]) -> Option<Command>
    ensures some { IfSome result (IsCommand (map (λ word. word.now) words.now)) }
    ensures within { IfSome result (λ command. (1 ≤ command.processors) × (command.processors ≤ 8)) }
    ensures none { result ≡ None → IsNoCommand (map (λ word. word.now) words.now) }
{
    if words.len() < 2 {
        return None;
    }
    match view_of(&words[2..]) {
        Some(view) => numbers_of(words[0], words[1], view),
        None => None,
    }
}

/// The view that the words after the numbers ask for.
fn view_of(rest: &[&str]) -> Option<View>
    ensures some { IfSome result (λ view. map (λ word. word.now) rest.now ≡ option_words view) }
    ensures none { result ≡ None → (view : View) → map (λ word. word.now) rest.now ≡ option_words view → ⊥ }
{
    match rest {
        [] => Some(View::InOrder),
        [option] => view_named(option),
        _ => None,
    }
}

/// The view of this name.
fn view_named(option: &str) -> Option<View>
    ensures some { IfSome result (λ view. option.now ∷ [] ≡ option_words view) }
    ensures none { result ≡ None → (view : View) → option.now ∷ [] ≡ option_words view → ⊥ }
{
    if option == "--time" {
        Some(View::ByTime)
    } else if option == "--trace" {
        Some(View::Trace)
    } else {
        None
    }
}

/// The command with the numbers that these two words spell.
fn numbers_of(processors: &str, turns: &str, view: View) -> Option<Command>
    ensures some { IfSome result (λ command. AreNumbers processors.now turns.now command.processors command.turns
        × (command.view ≡ view)) }
    ensures within { IfSome result (λ command. (1 ≤ command.processors) × (command.processors ≤ 8)) }
    ensures none { result ≡ None → (p t : ℕ) → AreNumbers processors.now turns.now p t → ⊥ }
{
    let Ok(processors) = parse_number(processors.as_bytes(), MOST_PROCESSORS) else {
        return None;
    };
    let Ok(turns) = parse_number(turns.as_bytes(), MOST_TURNS) else {
        return None;
    };
    if processors == 0 {
        return None;
    }
    Some(Command {
        processors: processors as u8,
        turns: turns as u32,
        view,
    })
}
