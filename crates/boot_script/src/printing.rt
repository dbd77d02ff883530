//! The printed text of a core: its status, and the event that it refused. Nothing here takes memory.
//!
//! Things in their first state have no line, except queues and chains. Each of the two goes out as one text. The page
//! has room for the longest status of a core, so that a reader of a pipe sees whole lines.

ghost use Rattle.std.specs.Prelude.{◌≡◌, ◌<◌, ◌++◌, OnOk, OnErr};
ghost use Rattle.std.specs.Io.KnownBytes.{Appends};
ghost use Rattle.event_theory.specs.RefusalNames.{refusal_name, refusal_number};
ghost use Rattle.boot_script.specs.Printed.{word_if, numbered_lines, queue_line, gate_word, chain_line, place_words};
ghost use Rattle.boot_script.specs.Printed.{hex_digit, hex_digits, is_first_state, element_words, element_line};
ghost use Rattle.boot_script.specs.Printed.{gauge_line, clock_line, alarm_line, notified_line, status_text};
ghost use Rattle.boot_script.specs.Printed.{refused_text};
ghost use Rattle.boot_script.specs.StreamFaults.{IsWriteFault};

use crate::page::Page;
use crate::streams::Sink;
use event_theory::{
    AlarmStatus, ChainStatus, ElementStatus, Gate, Place, QueueStatus, Refusal, Status,
};
use itoa::{Buffer, Integer};
use std::io;

/// A word, and a number after it.
pub(crate) fn print_number<W: Sink, I: Integer>(
    word: &'static str,
    number: I,
    out: &mut W,
) -> io::Result<()>
    ensures effect { OnOk result (Appends (W.contents out.old) (W.contents out.new) (word.now ++ I.text number)) }
    ensures error { OnErr result (IsWriteFault W.fails out.new) }
{
    let mut digits = Buffer::new();
    out.write_text(word.as_bytes())?;
    out.write_text(digits.format(number).as_bytes())
}

/// A word that is printed only if the test holds.
fn word_where(test: bool, word: &'static str) -> &'static str
    ensures { result.now ≡ word_if test word.now }
{
    if test { word } else { "" }
}

/// The line of one queue.
#[tactic(auto, unfolding(crate::specs::Printed::queue_line))]
fn print_queue<W: Sink>(number: usize, queue: &QueueStatus, out: &mut W) -> io::Result<()>
    ensures effect { OnOk result (Appends (W.contents out.old) (W.contents out.new) (queue_line number queue.now)) }
    ensures error { OnErr result (IsWriteFault W.fails out.new) }
{
    let shut = word_where(queue.shut, " shut");
    print_number("queue q", number, out)?;
    print_number(" capacity ", queue.capacity, out)?;
    print_number(" runs ", queue.runs, out)?;
    print_number(" put ", queue.put, out)?;
    print_number(" taken ", queue.taken, out)?;
    print_number(" left ", queue.left, out)?;
    print_number(" raised ", queue.raised, out)?;
    out.write_text(shut.as_bytes())?;
    out.write_text(b"\n")
}

/// The lines of the byte queues.
fn print_queues<W: Sink>(queues: &[QueueStatus], out: &mut W) -> io::Result<()>
    ensures effect { OnOk result (Appends (W.contents out.old) (W.contents out.new)
        (numbered_lines queue_line 0 queues.now)) }
    ensures error { OnErr result (IsWriteFault W.fails out.new) }
{
    for (number, queue) in queues.iter().enumerate() {
        print_queue(number, queue, out)?;
    }
    Ok(())
}

/// The word of a gate.
fn gate_name(gate: Gate) -> &'static str
    ensures { result.now ≡ gate_word gate }
{
    match gate {
        Gate::Idle => "idle",
        Gate::Running => "running",
        Gate::More => "more",
    }
}

/// The line of one chain.
#[tactic(auto, unfolding(crate::specs::Printed::chain_line))]
fn print_chain<W: Sink>(number: usize, chain: &ChainStatus, out: &mut W) -> io::Result<()>
    ensures effect { OnOk result (Appends (W.contents out.old) (W.contents out.new) (chain_line number chain.now)) }
    ensures error { OnErr result (IsWriteFault W.fails out.new) }
{
    let gate = gate_name(chain.gate);
    print_number("chain k", number, out)?;
    print_number(" put ", chain.put, out)?;
    print_number(" taken ", chain.taken, out)?;
    print_number(" left ", chain.left, out)?;
    out.write_text(b" gate ")?;
    out.write_text(gate.as_bytes())?;
    out.write_text(b"\n")
}

/// The lines of the chains.
fn print_chains<W: Sink>(chains: &[ChainStatus], out: &mut W) -> io::Result<()>
    ensures effect { OnOk result (Appends (W.contents out.old) (W.contents out.new)
        (numbered_lines chain_line 0 chains.now)) }
    ensures error { OnErr result (IsWriteFault W.fails out.new) }
{
    for (number, chain) in chains.iter().enumerate() {
        print_chain(number, chain, out)?;
    }
    Ok(())
}

/// The words of a place.
fn print_place<W: Sink>(place: Place, out: &mut W) -> io::Result<()>
    ensures effect { OnOk result (Appends (W.contents out.old) (W.contents out.new) (place_words place)) }
    ensures error { OnErr result (IsWriteFault W.fails out.new) }
{
    match place {
        Place::Processor(processor) => print_number("processor", processor.number(), out),
        Place::Ready => out.write_text(b"ready"),
        Place::Wait(wait) => print_number("wait", wait.number(), out),
        Place::Stopped => out.write_text(b"stopped"),
        Place::Free => out.write_text(b"free"),
        Place::Held(call) => print_number("held", call.number(), out),
    }
}

/// The digit of a number below 16.
fn digit_of(nibble: u8) -> u8
    requires { nibble < 16 }
    ensures { result ≡ hex_digit nibble }
{
    if nibble < 10 {
        b'0' + nibble
    } else {
        b'a' - 10 + nibble
    }
}

/// The four digits of a set of signals.
#[tactic(auto, unfolding(crate::specs::Printed::hex_digits))]
pub(crate) fn digits_of(signals: u16) -> [u8; 4]
    ensures { result ≡ hex_digits signals }
{
    [
        digit_of((signals / 4096) as u8),
        digit_of((signals / 256 % 16) as u8),
        digit_of((signals / 16 % 16) as u8),
        digit_of((signals % 16) as u8),
    ]
}

/// Whether an element is in its first state.
fn is_untouched(element: &ElementStatus) -> bool
    ensures { result ≡ is_first_state element.now }
{
    matches!(element.place, Place::Free)
        && element.done == 0
        && element.pending == 0
        && !element.stop
}

/// The words of one element.
#[tactic(auto, unfolding(crate::specs::Printed::element_words))]
fn print_element<W: Sink>(number: usize, element: &ElementStatus, out: &mut W) -> io::Result<()>
    ensures effect { OnOk result (Appends (W.contents out.old) (W.contents out.new)
        (element_words number element.now)) }
    ensures error { OnErr result (IsWriteFault W.fails out.new) }
{
    let stop = word_where(element.stop, " stop");
    print_number("element e", number, out)?;
    out.write_text(b" ")?;
    print_place(element.place, out)?;
    print_number(" done ", element.done, out)?;
    out.write_text(b" pending ")?;
    out.write_text(digits_of(element.pending).as_slice())?;
    out.write_text(stop.as_bytes())?;
    out.write_text(b"\n")
}

/// The lines of the elements that aren't in their first state.
fn print_elements<W: Sink>(elements: &[ElementStatus], out: &mut W) -> io::Result<()>
    ensures effect { OnOk result (Appends (W.contents out.old) (W.contents out.new)
        (numbered_lines element_line 0 elements.now)) }
    ensures error { OnErr result (IsWriteFault W.fails out.new) }
{
    for (number, element) in elements.iter().enumerate() {
        if !is_untouched(element) {
            print_element(number, element, out)?;
        }
    }
    Ok(())
}

/// The line of one gauge, if it isn't 0.
#[tactic(auto, unfolding(crate::specs::Printed::gauge_line))]
fn print_gauge<W: Sink>(number: usize, value: u64, out: &mut W) -> io::Result<()>
    ensures effect { OnOk result (Appends (W.contents out.old) (W.contents out.new) (gauge_line number value)) }
    ensures error { OnErr result (IsWriteFault W.fails out.new) }
{
    if value == 0 {
        return Ok(());
    }
    print_number("gauge g", number, out)?;
    print_number(" ", value, out)?;
    out.write_text(b"\n")
}

/// The lines of the gauges.
fn print_gauges<W: Sink>(gauges: &[u64], out: &mut W) -> io::Result<()>
    ensures effect { OnOk result (Appends (W.contents out.old) (W.contents out.new)
        (numbered_lines gauge_line 0 gauges.now)) }
    ensures error { OnErr result (IsWriteFault W.fails out.new) }
{
    for (number, value) in gauges.iter().enumerate() {
        print_gauge(number, *value, out)?;
    }
    Ok(())
}

/// The line of the clock, if it isn't 0.
#[tactic(auto, unfolding(crate::specs::Printed::clock_line))]
fn print_clock<W: Sink>(clock: u32, out: &mut W) -> io::Result<()>
    ensures effect { OnOk result (Appends (W.contents out.old) (W.contents out.new) (clock_line clock)) }
    ensures error { OnErr result (IsWriteFault W.fails out.new) }
{
    if clock == 0 {
        return Ok(());
    }
    print_number("clock ", clock, out)?;
    out.write_text(b"\n")
}

/// The line of the alarms, if one was set.
#[tactic(auto, unfolding(crate::specs::Printed::alarm_line))]
fn print_alarms<W: Sink>(alarms: &AlarmStatus, out: &mut W) -> io::Result<()>
    ensures effect { OnOk result (Appends (W.contents out.old) (W.contents out.new) (alarm_line alarms.now)) }
    ensures error { OnErr result (IsWriteFault W.fails out.new) }
{
    if alarms.set == 0 {
        return Ok(());
    }
    print_number("alarms set ", alarms.set, out)?;
    print_number(" fired ", alarms.fired, out)?;
    print_number(" cancelled ", alarms.cancelled, out)?;
    out.write_text(b"\n")
}

/// The line of one wait queue, if it had a notify.
#[tactic(auto, unfolding(crate::specs::Printed::notified_line))]
fn print_notified<W: Sink>(number: usize, count: u32, out: &mut W) -> io::Result<()>
    ensures effect { OnOk result (Appends (W.contents out.old) (W.contents out.new) (notified_line number count)) }
    ensures error { OnErr result (IsWriteFault W.fails out.new) }
{
    if count == 0 {
        return Ok(());
    }
    print_number("notified w", number, out)?;
    print_number(" ", count, out)?;
    out.write_text(b"\n")
}

/// The lines of the wait queues that had a notify.
fn print_notifies<W: Sink>(counts: &[u32], out: &mut W) -> io::Result<()>
    ensures effect { OnOk result (Appends (W.contents out.old) (W.contents out.new)
        (numbered_lines notified_line 0 counts.now)) }
    ensures error { OnErr result (IsWriteFault W.fails out.new) }
{
    for (number, count) in counts.iter().enumerate() {
        print_notified(number, *count, out)?;
    }
    Ok(())
}

/// The lines of a status.
#[tactic(auto, unfolding(crate::specs::Printed::status_text))]
fn print_lines<W: Sink>(status: &Status, out: &mut W) -> io::Result<()>
    ensures effect { OnOk result (Appends (W.contents out.old) (W.contents out.new) (status_text status.now)) }
    ensures error { OnErr result (IsWriteFault W.fails out.new) }
{
    print_number("events ", status.events, out)?;
    out.write_text(b"\n")?;
    print_queues(status.queues.as_slice(), out)?;
    print_chains(status.chains.as_slice(), out)?;
    print_elements(status.elements.as_slice(), out)?;
    print_gauges(status.gauges.as_slice(), out)?;
    print_clock(status.clock, out)?;
    print_alarms(&status.alarms, out)?;
    print_notifies(status.notified.as_slice(), out)
}

/// Prints the status of a core: the number of allowed events, and a line for each queue and chain. An element, gauge,
/// clock or wait queue has a line if not in its first state, and the alarms if one was set. Takes no memory.
///
/// The status is one text for the writer, up to 8,192 bytes; no core has a longer status. After a fault of the writer a
/// prefix of the text may have been written. There is no other fault.
pub fn print_status<W: Sink>(status: &Status, out: &mut W) -> io::Result<()>
    ensures effect { OnOk result (Appends (W.contents out.old) (W.contents out.new) (status_text status.now)) }
    ensures error { OnErr result (IsWriteFault W.fails out.new) }
{
    let mut page = Page::new();
    match print_lines(status, &mut page) {
        Ok(()) => out.write_text(page.text()),
        Err(_) => print_lines(status, out),
    }
}

/// The number of a refusal.
fn number_of(refusal: Refusal) -> u8
    ensures { result ≡ refusal_number refusal }
{
    refusal as u8
}

/// The name of a refusal.
fn refusal_word(refusal: Refusal) -> &'static str
    ensures { result.now ≡ refusal_name refusal }
{
    match refusal {
        Refusal::UnknownName => "UnknownName",
        Refusal::NoItems => "NoItems",
        Refusal::TooLong => "TooLong",
        Refusal::Full => "Full",
        Refusal::NotOwner => "NotOwner",
        Refusal::AlreadyRaised => "AlreadyRaised",
        Refusal::NotRaised => "NotRaised",
        Refusal::NotHeld => "NotHeld",
        Refusal::ProcessorBusy => "ProcessorBusy",
        Refusal::ProcessorEmpty => "ProcessorEmpty",
        Refusal::NotStopped => "NotStopped",
        Refusal::GateBusy => "GateBusy",
        Refusal::NotRunner => "NotRunner",
        Refusal::OutOfMemory => "OutOfMemory",
        Refusal::Closed => "Closed",
        Refusal::Moved => "Moved",
    }
}

/// The line of an event that was refused.
#[tactic(auto, unfolding(crate::specs::Printed::refused_text))]
fn print_refusal<W: Sink>(line: u32, refusal: Refusal, out: &mut W) -> io::Result<()>
    ensures effect { OnOk result (Appends (W.contents out.old) (W.contents out.new) (refused_text line refusal)) }
    ensures error { OnErr result (IsWriteFault W.fails out.new) }
{
    let number = number_of(refusal);
    print_number("refused ", line, out)?;
    print_number(" ", number, out)?;
    out.write_text(b" ")?;
    out.write_text(refusal_word(refusal).as_bytes())?;
    out.write_text(b"\n")
}

/// Prints the line of an event that was refused: its line in the script, and the refusal's number and name.
///
/// Takes no memory. The line is one text for the writer. After a fault of the writer a prefix of the line may have been
/// written. There is no other fault.
pub fn print_refused<W: Sink>(line: u32, refusal: Refusal, out: &mut W) -> io::Result<()>
    ensures effect { OnOk result (Appends (W.contents out.old) (W.contents out.new) (refused_text line refusal)) }
    ensures error { OnErr result (IsWriteFault W.fails out.new) }
{
    let mut page = Page::new();
    match print_refusal(line, refusal, &mut page) {
        Ok(()) => out.write_text(page.text()),
        Err(_) => print_refusal(line, refusal, out),
    }
}
