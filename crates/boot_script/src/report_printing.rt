//! The printed text of a report. Nothing here takes memory.
//!
//! Lines are gathered in a buffer. The buffer is written out when the next lines don't fit, so that a report goes out
//! in few writes, each of whole lines.

ghost use Rattle.std.specs.Prelude.{◌≡◌, ◌<◌, ◌++◌, [], OnOk, OnErr, length, Some, codes};
ghost use Rattle.std.specs.Fmt.{decimal};
ghost use Rattle.std.specs.Io.KnownBytes.{Appends, append_known};
ghost use Rattle.std.specs.List.{flat_map, slice_get};
ghost use Rattle.boot_script.specs.Reports.{named, counts_words, queue_word, queue_line, tty_queue, tty_line};
ghost use Rattle.boot_script.specs.Reports.{tty_lines, mover_word, mover_line, gauge_line, alarms_line, state_word};
ghost use Rattle.boot_script.specs.Reports.{signals_words, thread_line, stands_for_itself, upper_digit, written_byte};
ghost use Rattle.boot_script.specs.Reports.{heard_text, heard_line, chained_line, report_text};
ghost use Rattle.boot_script.specs.Heard.{shown};
ghost use Rattle.boot_script.specs.StreamFaults.{IsWriteFault};

use crate::printing::{digits_of, print_number};
use crate::streams::{Lines, Sink};
use arrayvec::{ArrayVec, CapacityError};
use boot_data::{
    AlarmCounts, GaugeLine, HeardReport, ItemCounts, MoverKind, MoverLine, Name, QueueKind,
    QueueLine, Report, ThreadLine, ThreadState, TtyLines,
};
use std::io;

/// Lines that go out in one write.
type Buffer = ArrayVec<u8, 8192>;

/// A line's first word, and a name.
#[tactic(auto, unfolding(crate::specs::Reports::named))]
fn print_named<W: Sink>(word: &'static str, name: &Name, out: &mut W) -> io::Result<()>
    ensures effect { OnOk result (Appends (W.contents out.old) (W.contents out.new) (named word.now name.now)) }
    ensures error { OnErr result (IsWriteFault W.fails out.new) }
{
    out.write_text(word.as_bytes())?;
    out.write_text(b" ")?;
    out.write_text(name.as_slice())
}

/// The counts of a queue, which end its line.
#[tactic(auto, unfolding(crate::specs::Reports::counts_words))]
fn print_counts<W: Sink>(items: ItemCounts, out: &mut W) -> io::Result<()>
    ensures effect { OnOk result (Appends (W.contents out.old) (W.contents out.new) (counts_words items)) }
    ensures error { OnErr result (IsWriteFault W.fails out.new) }
{
    print_number(" put ", items.put, out)?;
    print_number(" taken ", items.taken, out)?;
    print_number(" left ", items.left, out)?;
    out.write_text(b"\n")
}

/// The word that declares a queue or a pipe.
fn word_of_queue(kind: QueueKind) -> &'static str
    ensures { result.now ≡ queue_word kind }
{
    match kind {
        QueueKind::Queue => "queue",
        QueueKind::Pipe => "pipe",
    }
}

impl Lines for QueueLine {
    ghost text = { queue_line };

    #[tactic(auto, unfolding(crate::specs::Reports::queue_line))]
    fn print<W: Sink>(&self, out: &mut W) -> io::Result<()> {
        print_named(word_of_queue(self.kind), &self.name, out)?;
        print_counts(self.items, out)
    }
}

/// The line of one queue of a tty.
#[tactic(auto, unfolding(crate::specs::Reports::tty_queue))]
fn print_tty_queue<W: Sink>(
    name: &Name,
    queue: &'static str,
    items: ItemCounts,
    out: &mut W,
) -> io::Result<()>
    ensures effect { OnOk result (Appends (W.contents out.old) (W.contents out.new)
        (tty_queue name.now queue.now items)) }
    ensures error { OnErr result (IsWriteFault W.fails out.new) }
{
    print_named("tty", name, out)?;
    out.write_text(b" ")?;
    out.write_text(queue.as_bytes())?;
    print_counts(items, out)
}

/// The first line of a tty.
#[tactic(auto, unfolding(crate::specs::Reports::tty_line))]
fn print_tty<W: Sink>(tty: &TtyLines, out: &mut W) -> io::Result<()>
    ensures effect { OnOk result (Appends (W.contents out.old) (W.contents out.new) (tty_line tty.now)) }
    ensures error { OnErr result (IsWriteFault W.fails out.new) }
{
    print_named("tty", &tty.name, out)?;
    print_number(" typed ", tty.typed, out)?;
    print_number(" overrun ", tty.overrun, out)?;
    print_number(" notes ", tty.notes, out)?;
    print_number(" held ", tty.held, out)?;
    out.write_text(b"\n")
}

impl Lines for TtyLines {
    ghost text = { tty_lines };

    #[tactic(auto, unfolding(crate::specs::Reports::tty_lines))]
    fn print<W: Sink>(&self, out: &mut W) -> io::Result<()> {
        print_tty(self, out)?;
        print_tty_queue(&self.name, "raw", self.raw, out)?;
        print_tty_queue(&self.name, "line", self.line, out)?;
        print_tty_queue(&self.name, "screen", self.screen, out)
    }
}

/// The word that declares a pump or a switch.
fn word_of_mover(kind: MoverKind) -> &'static str
    ensures { result.now ≡ mover_word kind }
{
    match kind {
        MoverKind::Pump => "pump",
        MoverKind::Switch => "switch",
    }
}

impl Lines for MoverLine {
    ghost text = { mover_line };

    #[tactic(auto, unfolding(crate::specs::Reports::mover_line))]
    fn print<W: Sink>(&self, out: &mut W) -> io::Result<()> {
        print_named(word_of_mover(self.kind), &self.name, out)?;
        print_number(" notes ", self.notes, out)?;
        print_number(" taken ", self.taken, out)?;
        print_number(" put ", self.put, out)?;
        print_number(" held ", self.held, out)?;
        out.write_text(b"\n")
    }
}

impl Lines for GaugeLine {
    ghost text = { gauge_line };

    #[tactic(auto, unfolding(crate::specs::Reports::gauge_line))]
    fn print<W: Sink>(&self, out: &mut W) -> io::Result<()> {
        print_named("gauge", &self.name, out)?;
        print_number(" ", self.value, out)?;
        out.write_text(b"\n")
    }
}

impl Lines for AlarmCounts {
    ghost text = { alarms_line };

    #[tactic(auto, unfolding(crate::specs::Reports::alarms_line))]
    fn print<W: Sink>(&self, out: &mut W) -> io::Result<()> {
        if self.set == 0 {
            return Ok(());
        }
        print_number("alarms set ", self.set, out)?;
        print_number(" fired ", self.fired, out)?;
        print_number(" left ", self.left, out)?;
        out.write_text(b"\n")
    }
}

/// The word of a thread's state.
fn print_state<W: Sink>(state: ThreadState, out: &mut W) -> io::Result<()>
    ensures effect { OnOk result (Appends (W.contents out.old) (W.contents out.new) (state_word state)) }
    ensures error { OnErr result (IsWriteFault W.fails out.new) }
{
    match state {
        ThreadState::Ended => out.write_text(b"ended"),
        ThreadState::Ready => out.write_text(b"ready"),
        ThreadState::Wait(wait) => print_number("wait", wait.number(), out),
        ThreadState::Stopped => out.write_text(b"stopped"),
        ThreadState::Held => out.write_text(b"held"),
    }
}

/// The signals that were delivered, if there are any.
#[tactic(auto, unfolding(crate::specs::Reports::signals_words))]
fn print_signals<W: Sink>(signals: u16, out: &mut W) -> io::Result<()>
    ensures effect { OnOk result (Appends (W.contents out.old) (W.contents out.new) (signals_words signals)) }
    ensures error { OnErr result (IsWriteFault W.fails out.new) }
{
    if signals == 0 {
        return Ok(());
    }
    out.write_text(b" signals ")?;
    out.write_text(digits_of(signals).as_slice())
}

impl Lines for ThreadLine {
    ghost text = { thread_line };

    #[tactic(auto, unfolding(crate::specs::Reports::thread_line))]
    fn print<W: Sink>(&self, out: &mut W) -> io::Result<()> {
        print_named("thread", &self.name, out)?;
        out.write_text(b" ")?;
        print_state(self.state, out)?;
        print_number(" ", self.steps, out)?;
        print_signals(self.signals, out)?;
        out.write_text(b"\n")
    }
}

/// The digit of a number below 16.
fn upper_digit_of(nibble: u8) -> u8
    requires { nibble < 16 }
    ensures { result ≡ upper_digit nibble }
{
    if nibble < 10 {
        b'0' + nibble
    } else {
        b'A' - 10 + nibble
    }
}

/// Whether a byte is written as itself in a text.
fn is_plain(byte: u8) -> bool
    ensures { result ≡ stands_for_itself byte }
{
    32 <= byte && byte <= 126 && byte != b'\\'
}

/// A byte of a text: itself, or `\` and two digits.
#[tactic(auto, unfolding(crate::specs::Reports::written_byte))]
fn print_byte<W: Sink>(byte: u8, out: &mut W) -> io::Result<()>
    ensures effect { OnOk result (Appends (W.contents out.old) (W.contents out.new) (written_byte byte)) }
    ensures error { OnErr result (IsWriteFault W.fails out.new) }
{
    if is_plain(byte) {
        return out.write_text(&[byte]);
    }
    out.write_text(&[b'\\', upper_digit_of(byte / 16), upper_digit_of(byte % 16)])
}

/// The bytes of a line.
fn print_bytes<W: Sink>(bytes: &[u8], out: &mut W) -> io::Result<()>
    ensures effect { OnOk result (Appends (W.contents out.old) (W.contents out.new) (heard_text bytes.now)) }
    ensures error { OnErr result (IsWriteFault W.fails out.new) }
{
    for byte in bytes {
        print_byte(*byte, out)?;
    }
    Ok(())
}

/// A line that was heard.
#[derive(Clone, Copy)]
struct HeardLine<'a> {
    thread: &'a [u8],
    step: u8,
    bytes: &'a [u8],
}

/// The first word of a line that was heard, and the name of its thread.
#[tactic(auto, unfolding(crate::specs::Reports::named))]
fn print_hearer<W: Sink>(thread: &[u8], out: &mut W) -> io::Result<()>
    ensures effect { OnOk result (Appends (W.contents out.old) (W.contents out.new)
        (named (codes "heard") thread.now)) }
    ensures error { OnErr result (IsWriteFault W.fails out.new) }
{
    out.write_text(b"heard ")?;
    out.write_text(thread)
}

impl<'a> Lines for HeardLine<'a> {
    ghost text = { λ line. heard_line (shown line) };

    #[tactic(auto, unfolding(crate::specs::Reports::heard_line))]
    fn print<W: Sink>(&self, out: &mut W) -> io::Result<()> {
        print_hearer(self.thread, out)?;
        print_number(" ", self.step, out)?;
        out.write_text(b" ")?;
        print_bytes(self.bytes, out)?;
        out.write_text(b"\n")
    }
}

/// The heard line with this number.
fn line_at(heard: &HeardReport, number: usize) -> HeardLine<'_>
    requires { number < length heard.now }
    ensures { slice_get heard.now number ≡ Some (shown result) }
{
    HeardLine {
        thread: heard.thread(number),
        step: heard.step(number),
        bytes: heard.bytes(number),
    }
}

/// The notes left in all chains.
#[derive(Clone, Copy)]
struct Chained {
    notes: u64,
}

impl Lines for Chained {
    ghost text = { λ chained. chained_line chained.notes };

    #[tactic(auto, unfolding(crate::specs::Reports::chained_line))]
    fn print<W: Sink>(&self, out: &mut W) -> io::Result<()> {
        print_number("chained ", self.notes, out)?;
        out.write_text(b"\n")
    }
}

/// Writes out the content of the buffer, and empties it.
fn write_out<W: Sink>(buffer: &mut Buffer, out: &mut W) -> io::Result<()>
    ensures text { OnOk result (Appends (W.contents out.old) (W.contents out.new) buffer.old.items) }
    ensures error { OnErr result (IsWriteFault W.fails out.new) }
    ensures empty { OnOk result (buffer.new.items ≡ []) }
{
    out.write_text(buffer.as_slice())?;
    buffer.clear();
    Ok(())
}

/// Puts whole lines in the buffer. If they don't fit after its content, the content goes out first; if they don't fit
/// even then, they go out by themselves.
fn put_text<W: Sink>(text: &[u8], buffer: &mut Buffer, out: &mut W) -> io::Result<()>
    ensures effect { OnOk result (Appends (append_known (W.contents out.old) buffer.old.items)
        (append_known (W.contents out.new) buffer.new.items) text.now) }
    ensures error { OnErr result (IsWriteFault W.fails out.new) }
{
    if buffer.try_extend_from_slice(text).is_ok() {
        return Ok(());
    }
    write_out(buffer, out)?;
    if buffer.try_extend_from_slice(text).is_ok() {
        return Ok(());
    }
    out.write_text(text)
}

/// Puts the lines of one thing in the buffer. `own` is room to print them in; its old content is dropped.
fn put<L: Lines, W: Sink>(
    lines: &L,
    own: &mut Buffer,
    buffer: &mut Buffer,
    out: &mut W,
) -> io::Result<()>
    ensures effect { OnOk result (Appends (append_known (W.contents out.old) buffer.old.items)
        (append_known (W.contents out.new) buffer.new.items) (L.text lines.now)) }
    ensures error { OnErr result (IsWriteFault W.fails out.new) }
{
    own.clear();
    match lines.print(own) {
        Ok(()) => put_text(own.as_slice(), buffer, out),
        Err(_) => {
            // The lines are longer than a buffer, which no lines of one thing are today.
            write_out(buffer, out)?;
            lines.print(out)
        }
    }
}

/// Puts the lines of all these in the buffer.
fn put_all<L: Lines, W: Sink>(
    all: &[L],
    own: &mut Buffer,
    buffer: &mut Buffer,
    out: &mut W,
) -> io::Result<()>
    ensures effect { OnOk result (Appends (append_known (W.contents out.old) buffer.old.items)
        (append_known (W.contents out.new) buffer.new.items) (flat_map L.text all.now)) }
    ensures error { OnErr result (IsWriteFault W.fails out.new) }
{
    for lines in all {
        put(lines, own, buffer, out)?;
    }
    Ok(())
}

/// Adds bytes to the bytes in a buffer. Refused if there is no room for all of them.
fn add(bytes: &[u8], room: &mut Buffer) -> Result<(), CapacityError>
    ensures { OnOk result (room.new.items ≡ room.old.items ++ bytes.now) }
{
    room.try_extend_from_slice(bytes)
}

/// Adds the number of a step, of one or two digits, between spaces.
fn add_step(step: u8, room: &mut Buffer) -> Result<(), CapacityError>
    requires { step < 100 }
    ensures { OnOk result (room.new.items ≡ room.old.items ++ (codes " " ++ (decimal step ++ codes " "))) }
{
    if step < 10 {
        return add(&[b' ', b'0' + step, b' '], room);
    }
    add(&[b' ', b'0' + step / 10, b'0' + step % 10, b' '], room)
}

/// Adds a byte of a text: itself, or `\` and two digits.
#[tactic(auto, unfolding(crate::specs::Reports::written_byte))]
fn add_byte(byte: u8, room: &mut Buffer) -> Result<(), CapacityError>
    ensures { OnOk result (room.new.items ≡ room.old.items ++ written_byte byte) }
{
    if !is_plain(byte) {
        let high = upper_digit_of(byte / 16);
        let low = upper_digit_of(byte % 16);
        return add(&[b'\\', high, low], room);
    }
    add(&[byte], room)
}

/// Adds the bytes of a line.
fn add_bytes(bytes: &[u8], room: &mut Buffer) -> Result<(), CapacityError>
    ensures { OnOk result (room.new.items ≡ room.old.items ++ heard_text bytes.now) }
{
    for byte in bytes {
        add_byte(*byte, room)?;
    }
    Ok(())
}

/// Adds a line that was heard.
fn add_heard(line: &HeardLine, room: &mut Buffer) -> Result<(), CapacityError>
    requires { line.now.step < 100 }
    ensures { OnOk result (room.new.items ≡ room.old.items ++ heard_line (shown line.now)) }
{
    add(b"heard ", room)?;
    add(line.thread, room)?;
    add_step(line.step, room)?;
    add_bytes(line.bytes, room)?;
    add(b"\n", room)
}

/// Puts a line that was heard in the buffer. `room` is a buffer to build the line in; its old content is dropped. No
/// writer is used to build the line if its step is below 100, as each step is today.
fn put_line<W: Sink>(
    line: &HeardLine,
    room: &mut Buffer,
    buffer: &mut Buffer,
    out: &mut W,
) -> io::Result<()>
    ensures effect { OnOk result (Appends (append_known (W.contents out.old) buffer.old.items)
        (append_known (W.contents out.new) buffer.new.items) (heard_line (shown line.now))) }
    ensures error { OnErr result (IsWriteFault W.fails out.new) }
{
    room.clear();
    if line.step < 100 && add_heard(line, room).is_ok() {
        return put_text(room.as_slice(), buffer, out);
    }
    put(line, room, buffer, out)
}

/// Puts all lines that were heard in the buffer.
fn put_heard<W: Sink>(
    heard: &HeardReport,
    own: &mut Buffer,
    buffer: &mut Buffer,
    out: &mut W,
) -> io::Result<()>
    ensures effect { OnOk result (Appends (append_known (W.contents out.old) buffer.old.items)
        (append_known (W.contents out.new) buffer.new.items) (flat_map heard_line heard.now)) }
    ensures error { OnErr result (IsWriteFault W.fails out.new) }
{
    for number in 0..heard.len() {
        put_line(&line_at(heard, number), own, buffer, out)?;
    }
    Ok(())
}

/// Prints a report: the lines of its lists, one list after the other. The alarms have a line if one was set, and the
/// last line is the line of the chains. Takes no memory.
///
/// The lines go out in writes of up to 8,192 bytes, each of whole lines. After a fault of the writer a prefix of the
/// text may have been written. There is no other fault.
#[tactic(auto, unfolding(crate::specs::Reports::report_text))]
pub fn print_report<W: Sink>(report: &Report, out: &mut W) -> io::Result<()>
    ensures effect { OnOk result (Appends (W.contents out.old) (W.contents out.new) (report_text report.now)) }
    ensures error { OnErr result (IsWriteFault W.fails out.new) }
{
    let mut own = Buffer::new();
    let mut buffer = Buffer::new();
    let chained = Chained {
        notes: report.chained,
    };
    put_all(report.queues.as_slice(), &mut own, &mut buffer, out)?;
    put_all(report.ttys.as_slice(), &mut own, &mut buffer, out)?;
    put_all(report.movers.as_slice(), &mut own, &mut buffer, out)?;
    put_all(report.gauges.as_slice(), &mut own, &mut buffer, out)?;
    put(&report.alarms, &mut own, &mut buffer, out)?;
    put_all(report.threads.as_slice(), &mut own, &mut buffer, out)?;
    put_heard(&report.heard, &mut own, &mut buffer, out)?;
    put(&chained, &mut own, &mut buffer, out)?;
    write_out(&mut buffer, out)
}
