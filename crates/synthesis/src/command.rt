//! The commands that the words of the program ask for.

ghost use Rattle.std.specs.Prelude.{◌≡◌, ◌↔◌, ℕ, map, IsTrue, IfSome, IfNone};
ghost use Rattle.synthesis.specs.Commands.{replay_command, Asks, IsWithin, AreNumbers, IsNoCommand, IsBootOf};

use boot_script::parse_number;

/// The most processors of a boot.
const MOST_PROCESSORS: u64 = 8;

/// The most turns of each processor of a boot.
const MOST_TURNS: u64 = 100_000_000;

/// A command of the program.
#[derive(Clone, Copy, Debug, PartialEq, Eq)]
pub enum Command {
    /// A list of events is replayed.
    Replay,
    /// A script is booted on this many processors, 1 to 8, with this many turns on each.
    Boot { processors: u8, turns: u32 },
}

/// The command that the words ask for; none if they are no command.
pub fn command_of(words: &[&str]) -> Option<Command>
    ensures asks { IfSome result (λ command. Asks (map (λ word. word.now) words.now) command) }
    ensures within { IfSome result IsWithin }
    ensures none { IfNone result (IsNoCommand (map (λ word. word.now) words.now)) }
{
    if is_replay(words) {
        return Some(Command::Replay);
    }
    match words {
        [first, processors, turns] if *first == "boot" => boot_of(processors, turns),
        _ => None,
    }
}

/// The one word is the command `replay`.
fn is_replay(words: &[&str]) -> bool
    ensures { IsTrue result ↔ (map (λ word. word.now) words.now ≡ replay_command) }
{
    words.len() == 1 && words[0] == "replay"
}

/// A boot with the numbers that these two words spell.
fn boot_of(processors: &str, turns: &str) -> Option<Command>
    ensures asks { IfSome result (IsBootOf processors.now turns.now) }
    ensures within { IfSome result IsWithin }
    ensures none { IfNone result ((p t : ℕ) → AreNumbers processors.now turns.now p t → ⊥) }
{
    let Ok(processors) = parse_number(processors.as_bytes(), MOST_PROCESSORS) else {
        return None;
    };
    let Ok(turns) = parse_number(turns.as_bytes(), MOST_TURNS) else {
        return None;
    };
    if processors == 0 {
        return None;
    }
    Some(Command::Boot {
        processors: processors as u8,
        turns: turns as u32,
    })
}
