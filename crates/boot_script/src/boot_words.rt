//! The words of a boot script: the first word of each line that says something.

ghost use Rattle.std.specs.Prelude.{◌≡◌, IfErr};
ghost use Rattle.boot_script.specs.BootWords.{boot_word, boot_words, word_named, is_step, has_word, boot_word_of};

use crate::fault::ScriptRefusal;
use crate::text::same_word;
use crate::version::Version;

/// The kind of a line of a boot script: a declaration, or a step of a thread.
#[derive(Clone, Copy)]
pub(crate) enum BootWord {
    Queue,
    Pipe,
    Tty,
    Types,
    Pump,
    Switch,
    Gauge,
    Alarm,
    Thread,
    More,
    Say,
    Hear,
    Wait,
    Wake,
    Signal,
    Stop,
    Start,
    Tick,
    Poke,
    Pass,
    Close,
}

/// All words.
const BOOT_WORDS: [BootWord; 21] = [
    BootWord::Say,
    BootWord::Hear,
    BootWord::Pass,
    BootWord::Queue,
    BootWord::Pipe,
    BootWord::Tty,
    BootWord::Types,
    BootWord::Pump,
    BootWord::Switch,
    BootWord::Gauge,
    BootWord::Alarm,
    BootWord::Thread,
    BootWord::More,
    BootWord::Wait,
    BootWord::Wake,
    BootWord::Signal,
    BootWord::Stop,
    BootWord::Start,
    BootWord::Tick,
    BootWord::Poke,
    BootWord::Close,
];

impl BootWord {
    /// The word as it is written.
    fn word(self) -> &'static [u8]
        ensures { result.now ≡ boot_word self }
    {
        match self {
            BootWord::Queue => b"queue",
            BootWord::Pipe => b"pipe",
            BootWord::Tty => b"tty",
            BootWord::Types => b"type",
            BootWord::Pump => b"pump",
            BootWord::Switch => b"switch",
            BootWord::Gauge => b"gauge",
            BootWord::Alarm => b"alarm",
            BootWord::Thread => b"thread",
            BootWord::More => b"more",
            BootWord::Say => b"say",
            BootWord::Hear => b"hear",
            BootWord::Wait => b"wait",
            BootWord::Wake => b"wake",
            BootWord::Signal => b"signal",
            BootWord::Stop => b"stop",
            BootWord::Start => b"start",
            BootWord::Tick => b"tick",
            BootWord::Poke => b"poke",
            BootWord::Pass => b"pass",
            BootWord::Close => b"close",
        }
    }

    /// Whether it is a step of a thread.
    fn is_step(self) -> bool
        ensures { result ≡ is_step self }
    {
        match self {
            BootWord::Queue
            | BootWord::Pipe
            | BootWord::Tty
            | BootWord::Types
            | BootWord::Pump
            | BootWord::Switch
            | BootWord::Gauge
            | BootWord::Alarm
            | BootWord::Thread
            | BootWord::More => false,
            _ => true,
        }
    }

    /// Whether a version has this word. `going` is whether there is a current thread, whose program gets the next step.
    fn is_in(self, version: Version, going: bool) -> bool
        ensures { result ≡ has_word version going self }
    {
        match self {
            BootWord::Close => version.is_later() && going,
            _ => going || !self.is_step(),
        }
    }
}

/// The word that is written like this, in any version. Else UnknownWord.
fn named_word(word: &[u8]) -> Result<BootWord, ScriptRefusal>
    ensures result { result ≡ word_named word.now boot_words }
    ensures refused { IfErr result (λ refusal. refusal ≡ ScriptRefusal.UnknownWord) }
{
    for known in BOOT_WORDS {
        if same_word(word, known.word()) {
            return Ok(known);
        }
    }
    Err(ScriptRefusal::UnknownWord)
}

/// The first word of a line of this version; `going` is whether there is a current thread. Else UnknownWord.
#[tactic(auto, unfolding(crate::specs::BootWords::boot_word_of))]
pub(crate) fn line_word(
    version: Version,
    going: bool,
    word: &[u8],
) -> Result<BootWord, ScriptRefusal>
    ensures result { result ≡ boot_word_of version going word.now }
    ensures refused { IfErr result (λ refusal. refusal ≡ ScriptRefusal.UnknownWord) }
{
    let known = named_word(word)?;
    if known.is_in(version, going) {
        Ok(known)
    } else {
        Err(ScriptRefusal::UnknownWord)
    }
}
