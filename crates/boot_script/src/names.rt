//! The names in a line of a list of events: a letter, and a number with no leading zero.
//!
//! Only the form and the range of a name are tested here. The core tests whether the named queue exists.

ghost use Rattle.std.specs.Prelude.{◌≡◌, ◌≤◌, IfOk, IfErr};
ghost use Rattle.boot_script.specs.Names.{numbered_name, call_of, processor_of, element_of, gauge_of, signal_of};
ghost use Rattle.boot_script.specs.Versions.{last_wait};
ghost use Rattle.boot_script.specs.Words.{number_of};
ghost use Rattle.boot_script.specs.Names.{slot_of, byte_queue_of, chain_of, wait_of, queue_of, listener_of};

use crate::fault::ScriptRefusal;
use crate::text::number;
use crate::version::Version;
use event_theory::{
    Call, ChainNumber, Element, Gauge, Processor, QueueName, QueueNumber, Signal, Slot, WaitNumber,
};

/// The listener that a notify goes to.
#[derive(Clone, Copy)]
pub(crate) enum Listener {
    /// The runner of a chain.
    Chain(ChainNumber),
    /// The elements of a wait queue.
    Wait(WaitNumber),
}

/// The number after a letter. Else BadName.
fn numbered(word: &[u8], letter: u8, most: u8) -> Result<u8, ScriptRefusal>
    ensures result { result ≡ numbered_name letter most word.now }
    ensures within { IfOk result (λ n. n ≤ most) }
    ensures refused { IfErr result (λ refusal. refusal ≡ ScriptRefusal.BadName) }
{
    match word {
        [first, digits @ ..] if *first == letter => match number(digits, u64::from(most)) {
            Ok(n) => Ok(n as u8),
            Err(_) => Err(ScriptRefusal::BadName),
        },
        _ => Err(ScriptRefusal::BadName),
    }
}

/// A call, `c0` to `c63`. Else BadName.
pub(crate) fn call(word: &[u8]) -> Result<Call, ScriptRefusal>
    ensures result { result ≡ call_of word.now }
    ensures refused { IfErr result (λ refusal. refusal ≡ ScriptRefusal.BadName) }
{
    let number = numbered(word, b'c', 63)?;
    Call::new(number).ok_or(ScriptRefusal::BadName)
}

/// A processor of the version, `p0` to its last. Else BadName.
pub(crate) fn processor(version: Version, word: &[u8]) -> Result<Processor, ScriptRefusal>
    ensures result { result ≡ processor_of version word.now }
    ensures refused { IfErr result (λ refusal. refusal ≡ ScriptRefusal.BadName) }
{
    let number = numbered(word, b'p', version.last_processor())?;
    Processor::new(number).ok_or(ScriptRefusal::BadName)
}

/// An element of the version, `e0` to its last. Else BadName.
pub(crate) fn element(version: Version, word: &[u8]) -> Result<Element, ScriptRefusal>
    ensures result { result ≡ element_of version word.now }
    ensures refused { IfErr result (λ refusal. refusal ≡ ScriptRefusal.BadName) }
{
    let number = numbered(word, b'e', version.last_element())?;
    Element::new(number).ok_or(ScriptRefusal::BadName)
}

/// A gauge, `g0` to `g7`. Else BadName.
pub(crate) fn gauge(word: &[u8]) -> Result<Gauge, ScriptRefusal>
    ensures result { result ≡ gauge_of word.now }
    ensures refused { IfErr result (λ refusal. refusal ≡ ScriptRefusal.BadName) }
{
    let number = numbered(word, b'g', 7)?;
    Gauge::new(number).ok_or(ScriptRefusal::BadName)
}

/// A signal, 0 to 15. Else BadNumber.
pub(crate) fn signal(word: &[u8]) -> Result<Signal, ScriptRefusal>
    ensures result { result ≡ signal_of word.now }
    ensures refused { IfErr result (λ refusal. refusal ≡ ScriptRefusal.BadNumber) }
{
    let number = number(word, 15)? as u8;
    Signal::new(number).ok_or(ScriptRefusal::BadNumber)
}

/// A wait queue of the version by its number alone, 0 to its last. Else BadNumber.
pub(crate) fn wait_number(version: Version, word: &[u8]) -> Result<WaitNumber, ScriptRefusal>
    ensures result { result ≡ number_of (last_wait version) word.now }
    ensures refused { IfErr result (λ refusal. refusal ≡ ScriptRefusal.BadNumber) }
{
    let number = number(word, u64::from(version.last_wait()))? as u8;
    WaitNumber::new(number).ok_or(ScriptRefusal::BadNumber)
}

/// A slot of an alarm, 0 to 15. Else BadNumber.
pub(crate) fn slot(word: &[u8]) -> Result<Slot, ScriptRefusal>
    ensures result { result ≡ slot_of word.now }
    ensures refused { IfErr result (λ refusal. refusal ≡ ScriptRefusal.BadNumber) }
{
    let number = number(word, 15)? as u8;
    Slot::new(number).ok_or(ScriptRefusal::BadNumber)
}

/// A byte queue, `q0` to `q7`. Else BadName.
pub(crate) fn byte_queue(word: &[u8]) -> Result<QueueNumber, ScriptRefusal>
    ensures result { result ≡ byte_queue_of word.now }
    ensures refused { IfErr result (λ refusal. refusal ≡ ScriptRefusal.BadName) }
{
    let number = numbered(word, b'q', 7)?;
    QueueNumber::new(number).ok_or(ScriptRefusal::BadName)
}

/// A chain, `k0` to `k7`. Else BadName.
pub(crate) fn chain(word: &[u8]) -> Result<ChainNumber, ScriptRefusal>
    ensures result { result ≡ chain_of word.now }
    ensures refused { IfErr result (λ refusal. refusal ≡ ScriptRefusal.BadName) }
{
    let number = numbered(word, b'k', 7)?;
    ChainNumber::new(number).ok_or(ScriptRefusal::BadName)
}

/// A wait queue of the version, `w0` to its last. Else BadName.
pub(crate) fn wait(version: Version, word: &[u8]) -> Result<WaitNumber, ScriptRefusal>
    ensures result { result ≡ wait_of version word.now }
    ensures refused { IfErr result (λ refusal. refusal ≡ ScriptRefusal.BadName) }
{
    let number = numbered(word, b'w', version.last_wait())?;
    WaitNumber::new(number).ok_or(ScriptRefusal::BadName)
}

/// A queue of the version: a byte queue, the notes of a chain, a wait queue, `ready` or `free`. Else BadName.
#[tactic(auto, unfolding(crate::specs::Names::queue_of))]
pub(crate) fn queue(version: Version, word: &[u8]) -> Result<QueueName, ScriptRefusal>
    ensures result { result ≡ queue_of version word.now }
    ensures refused { IfErr result (λ refusal. refusal ≡ ScriptRefusal.BadName) }
{
    if word == b"ready".as_slice() {
        return Ok(QueueName::Ready);
    }
    if word == b"free".as_slice() {
        return Ok(QueueName::Free);
    }
    if let Ok(number) = byte_queue(word) {
        return Ok(QueueName::Bytes(number));
    }
    if let Ok(number) = chain(word) {
        return Ok(QueueName::Notes(number));
    }
    Ok(QueueName::Wait(wait(version, word)?))
}

/// The listener of a notify: a chain, and from the second version on also a wait queue. Else BadName.
#[tactic(auto, unfolding(crate::specs::Names::listener_of))]
pub(crate) fn notify_listener(version: Version, word: &[u8]) -> Result<Listener, ScriptRefusal>
    ensures result { result ≡ listener_of version word.now }
    ensures refused { IfErr result (λ refusal. refusal ≡ ScriptRefusal.BadName) }
{
    if let Ok(number) = chain(word) {
        return Ok(Listener::Chain(number));
    }
    if version.is_later() {
        return Ok(Listener::Wait(wait(version, word)?));
    }
    Err(ScriptRefusal::BadName)
}
