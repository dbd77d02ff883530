//! The commands of a list of events: the first word of each line that says an event.

ghost use Rattle.std.specs.Prelude.{◌≡◌, IfErr};
ghost use Rattle.boot_script.specs.Commands.{command_word, commands, named, knows, command_of};

use crate::fault::ScriptRefusal;
use crate::version::Version;

/// The command of a line of a list of events, which the core executes.
#[derive(Clone, Copy)]
pub(crate) enum Command {
    Queue,
    Chain,
    Claim,
    Raise,
    Take,
    On,
    Off,
    Stop,
    Park,
    Start,
    Signal,
    Deliver,
    Done,
    Notify,
    Round,
    Leave,
    Tick,
    Advance,
    Set,
    Fire,
    Cancel,
    Join,
    Shut,
    WaitAt,
}

/// All commands.
const COMMANDS: [Command; 24] = [
    Command::Queue,
    Command::Chain,
    Command::Claim,
    Command::Raise,
    Command::Take,
    Command::On,
    Command::Off,
    Command::Stop,
    Command::Park,
    Command::Start,
    Command::Signal,
    Command::Deliver,
    Command::Done,
    Command::Notify,
    Command::Round,
    Command::Leave,
    Command::Tick,
    Command::Advance,
    Command::Set,
    Command::Fire,
    Command::Cancel,
    Command::Join,
    Command::Shut,
    Command::WaitAt,
];

impl Command {
    /// The command's word.
    fn word(self) -> &'static [u8]
        ensures { result.now ≡ command_word self }
    {
        match self {
            Command::Queue => b"queue",
            Command::Chain => b"chain",
            Command::Claim => b"claim",
            Command::Raise => b"raise",
            Command::Take => b"take",
            Command::On => b"on",
            Command::Off => b"off",
            Command::Stop => b"stop",
            Command::Park => b"park",
            Command::Start => b"start",
            Command::Signal => b"signal",
            Command::Deliver => b"deliver",
            Command::Done => b"done",
            Command::Notify => b"notify",
            Command::Round => b"round",
            Command::Leave => b"leave",
            Command::Tick => b"tick",
            Command::Advance => b"advance",
            Command::Set => b"set",
            Command::Fire => b"fire",
            Command::Cancel => b"cancel",
            Command::Join => b"join",
            Command::Shut => b"shut",
            Command::WaitAt => b"waitat",
        }
    }

    /// Whether a version has this command.
    fn is_in(self, version: Version) -> bool
        ensures { result ≡ knows version self }
    {
        match self {
            Command::Shut | Command::WaitAt => version.is_later(),
            _ => true,
        }
    }
}

/// The command that a word names in some version. Else UnknownWord.
fn named_command(word: &[u8]) -> Result<Command, ScriptRefusal>
    ensures result { result ≡ named word.now commands }
    ensures refused { IfErr result (λ refusal. refusal ≡ ScriptRefusal.UnknownWord) }
{
    for command in COMMANDS {
        if word == command.word() {
            return Ok(command);
        }
    }
    Err(ScriptRefusal::UnknownWord)
}

/// The command that a word names in a version. Else UnknownWord.
#[tactic(auto, unfolding(crate::specs::Commands::command_of))]
pub(crate) fn version_command(version: Version, word: &[u8]) -> Result<Command, ScriptRefusal>
    ensures result { result ≡ command_of version word.now }
    ensures refused { IfErr result (λ refusal. refusal ≡ ScriptRefusal.UnknownWord) }
{
    let command = named_command(word)?;
    if command.is_in(version) {
        Ok(command)
    } else {
        Err(ScriptRefusal::UnknownWord)
    }
}
