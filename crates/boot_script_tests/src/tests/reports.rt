//! Printed reports, and writers that fail.

use super::heard::{Line, heard_by, report_in};
use boot_data::{HeardReport, Name};
use boot_script::{print_report, *};
use event_theory::{Items, WaitNumber};
use std::alloc::Global;
use std::io;
use std::io::{ErrorKind, Write};

/// Takes at most this many bytes a call, and fails at one call.
#[derive(Drop)]
struct Parts {
    bytes: Vec<u8>,
    most: usize,
    calls: usize,
    fails_at: usize,
}

impl Write for Parts {
    fn write(&mut self, buf: &[u8]) -> io::Result<usize> {
        self.calls = self.calls.saturating_add(1);
        if self.calls == self.fails_at {
            return Err(io::Error::from(ErrorKind::Other));
        }
        let count = buf.len().min(self.most);
        self.bytes.extend_from_slice(&buf[..count])?;
        Ok(count)
    }

    fn flush(&mut self) -> io::Result<()> {
        Ok(())
    }
}

impl Parts {
    fn new(alloc: Global, most: usize, fails_at: usize) -> Parts {
        Parts {
            bytes: Vec::new(alloc),
            most,
            calls: 0,
            fails_at,
        }
    }
}

/// The written text of a report by calls of at most this many bytes, one of which fails, and whether none failed.
fn printed(alloc: Global, report: &Report, most: usize, fails_at: usize) -> (Parts, bool) {
    let mut out = Parts::new(alloc, most, fails_at);
    let all = print_report(report, &mut out).is_ok();
    (out, all)
}

/// A name of as many of these bytes as there is room for.
fn name(bytes: &[u8]) -> Name {
    let mut name = Name::new();
    for byte in bytes {
        if !name.push(*byte) {
            break;
        }
    }
    name
}

fn counts(put: u64, taken: u64, left: u64) -> ItemCounts {
    ItemCounts { put, taken, left }
}

fn queue(kind: QueueKind, called: &[u8], items: ItemCounts) -> QueueLine {
    QueueLine {
        kind,
        name: name(called),
        items,
    }
}

fn mover(kind: MoverKind, called: &[u8], numbers: [u64; 4]) -> MoverLine {
    let [notes, taken, put, held] = numbers;
    MoverLine {
        kind,
        name: name(called),
        notes,
        taken,
        put,
        held,
    }
}

fn gauge(called: &[u8], value: u64) -> GaugeLine {
    GaugeLine {
        name: name(called),
        value,
    }
}

fn thread(called: &[u8], state: ThreadState, steps: u32, signals: u16) -> ThreadLine {
    ThreadLine {
        name: name(called),
        state,
        steps,
        signals,
    }
}

/// A heard line of the thread with this number.
fn line(thread: u8, step: u8, items: &[u64]) -> Line<'_> {
    Line {
        thread,
        step,
        items,
    }
}

/// An empty report.
fn empty_report(alloc: Global) -> Report {
    Report {
        queues: Items::new(Vec::new(alloc)),
        ttys: Items::new(Vec::new(alloc)),
        movers: Items::new(Vec::new(alloc)),
        gauges: Items::new(Vec::new(alloc)),
        alarms: AlarmCounts {
            set: 0,
            fired: 0,
            left: 0,
        },
        threads: Items::new(Vec::new(alloc)),
        heard: HeardReport::new(Vec::new(alloc), Vec::new(alloc), Vec::new(alloc)),
        chained: 0,
    }
}

fn busy_tty() -> TtyLines {
    TtyLines {
        name: name(b"t"),
        typed: 14,
        overrun: 2,
        notes: 3,
        held: 5,
        raw: counts(12, 11, 1),
        line: counts(6, 4, 2),
        screen: counts(8, 0, 8),
    }
}

fn idle_tty() -> TtyLines {
    TtyLines {
        name: name(b"console8"),
        typed: 0,
        overrun: 0,
        notes: 0,
        held: 0,
        raw: counts(0, 0, 0),
        line: counts(0, 0, 0),
        screen: counts(0, 0, 0),
    }
}

fn full_threads(alloc: Global) -> Option<Items<ThreadLine>> {
    let (first, last) = (WaitNumber::new(0)?, WaitNumber::new(15)?);
    let threads = vec![in alloc;
        thread(b"a", ThreadState::Ended, 2, 0),
        thread(b"b", ThreadState::Ready, 0, 0),
        thread(b"c", ThreadState::Wait(first), 4, 1),
        thread(b"d", ThreadState::Wait(last), 4_294_967_295, 0xABCD),
        thread(b"e", ThreadState::Stopped, 64, 0x8000),
        thread(b"f", ThreadState::Held, 1, 0x0F10),
    ];
    Some(Items::new(threads.ok()?))
}

fn full_queues(alloc: Global) -> Option<Items<QueueLine>> {
    let wire = queue(QueueKind::Pipe, b"wire", counts(3, 3, 0));
    let named = queue(QueueKind::Queue, b"q", counts(12, 5, 7));
    let long = queue(QueueKind::Pipe, b"p8", counts(u64::MAX, 0, u64::MAX));
    Some(Items::new(vec![in alloc; wire, named, long].ok()?))
}

fn full_movers(alloc: Global) -> Option<Items<MoverLine>> {
    let switch = mover(MoverKind::Switch, b"s", [4, 9, 6, 3]);
    let pump = mover(MoverKind::Pump, b"m", [1, 2, 2, 0]);
    let idle = mover(MoverKind::Switch, b"z9", [0, 0, 0, 0]);
    Some(Items::new(vec![in alloc; switch, pump, idle].ok()?))
}

/// Lines of two processors, which are not in the order of the report.
fn full_heard(alloc: Global) -> Option<HeardReport> {
    let wide = line(1, 255, &[321, u64::MAX, 256, 544, 127]);
    let nothing = line(0, 63, &[]);
    let plain = line(0, 0, &[120, 92, 121, 126, 10]);
    let first = heard_by(alloc, &[wide, nothing])?;
    let second = heard_by(alloc, &[plain])?;
    let names = vec![in alloc; name(b"a"), name(b"b")].ok()?;
    let processors = vec![in alloc; first, second].ok()?;
    report_in(names, processors, alloc, &[(1, 0), (0, 1), (0, 0)])
}

/// A report with lines of each kind.
fn full_report(alloc: Global) -> Option<Report> {
    let gauges = vec![in alloc; gauge(b"load", 0), gauge(b"g", u64::MAX)];
    let ttys = vec![in alloc; busy_tty(), idle_tty()];
    Some(Report {
        queues: full_queues(alloc)?,
        ttys: Items::new(ttys.ok()?),
        movers: full_movers(alloc)?,
        gauges: Items::new(gauges.ok()?),
        alarms: AlarmCounts {
            set: 6,
            fired: 4,
            left: 2,
        },
        threads: full_threads(alloc)?,
        heard: full_heard(alloc)?,
        chained: 7,
    })
}

const FULL_REPORT: &[u8] = b"pipe wire put 3 taken 3 left 0
queue q put 12 taken 5 left 7
pipe p8 put 18446744073709551615 taken 0 left 18446744073709551615
tty t typed 14 overrun 2 notes 3 held 5
tty t raw put 12 taken 11 left 1
tty t line put 6 taken 4 left 2
tty t screen put 8 taken 0 left 8
tty console8 typed 0 overrun 0 notes 0 held 0
tty console8 raw put 0 taken 0 left 0
tty console8 line put 0 taken 0 left 0
tty console8 screen put 0 taken 0 left 0
switch s notes 4 taken 9 put 6 held 3
pump m notes 1 taken 2 put 2 held 0
switch z9 notes 0 taken 0 put 0 held 0
gauge load 0
gauge g 18446744073709551615
alarms set 6 fired 4 left 2
thread a ended 2
thread b ready 0
thread c wait0 4 signals 0001
thread d wait15 4294967295 signals abcd
thread e stopped 64 signals 8000
thread f held 1 signals 0f10
heard a 0 x\\5Cy~\\0A
heard a 63 \nheard b 255 A\\FF\\00 \\7F
chained 7
";

/// A report of up to a page is one write.
#[test]
fn a_report_has_lines_of_each_kind(rt: HostRuntime) {
    let Some(report) = full_report(rt.alloc()) else {
        panic!(rt; "no report")
    };
    let (out, all) = printed(rt.alloc(), &report, usize::MAX, 0);
    assert!(rt; all && out.calls == 1);
    assert!(rt; out.bytes.as_slice() == FULL_REPORT);
}

#[test]
fn an_empty_report_has_one_line(rt: HostRuntime) {
    let (out, all) = printed(rt.alloc(), &empty_report(rt.alloc()), usize::MAX, 0);
    assert!(rt; all && out.calls == 1);
    assert!(rt; out.bytes.as_slice() == b"chained 0\n".as_slice());
}

#[test]
fn a_write_of_a_report_may_fail_at_each_call(rt: HostRuntime) {
    let Some(report) = full_report(rt.alloc()) else {
        panic!(rt; "no report")
    };
    for fails_at in 1..FULL_REPORT.len() + 3 {
        let (out, all) = printed(rt.alloc(), &report, 1, fails_at);
        let count = FULL_REPORT.len().min(fails_at - 1);
        assert!(rt; all == (fails_at > FULL_REPORT.len()));
        assert!(rt; out.bytes.as_slice() == &FULL_REPORT[..count]);
    }
}

/// The text of each byte, 64 to a line; 0x5C is `\`.
const ALL_BYTES: &[u8] =
    b"heard a 0 \x5C00\x5C01\x5C02\x5C03\x5C04\x5C05\x5C06\x5C07\x5C08\x5C09\x5C0A\x5C0B\x5C0C\x5C0D\x5C0E\x5C0F\
\x5C10\x5C11\x5C12\x5C13\x5C14\x5C15\x5C16\x5C17\x5C18\x5C19\x5C1A\x5C1B\x5C1C\x5C1D\x5C1E\
\x5C1F !\"#$%&'()*+,-./0123456789:;<=>?
heard a 1 @ABCDEFGHIJKLMNOPQRSTUVWXYZ[\x5C5C]^_`abcdefghijklmnopqrstuvwxyz{|}~\x5C7F
heard a 2 \x5C80\x5C81\x5C82\x5C83\x5C84\x5C85\x5C86\x5C87\x5C88\x5C89\x5C8A\x5C8B\x5C8C\x5C8D\x5C8E\x5C8F\
\x5C90\x5C91\x5C92\x5C93\x5C94\x5C95\x5C96\x5C97\x5C98\x5C99\x5C9A\x5C9B\x5C9C\x5C9D\x5C9E\x5C9F\
\x5CA0\x5CA1\x5CA2\x5CA3\x5CA4\x5CA5\x5CA6\x5CA7\x5CA8\x5CA9\x5CAA\x5CAB\x5CAC\x5CAD\x5CAE\x5CAF\
\x5CB0\x5CB1\x5CB2\x5CB3\x5CB4\x5CB5\x5CB6\x5CB7\x5CB8\x5CB9\x5CBA\x5CBB\x5CBC\x5CBD\x5CBE\x5CBF
heard a 3 \x5CC0\x5CC1\x5CC2\x5CC3\x5CC4\x5CC5\x5CC6\x5CC7\x5CC8\x5CC9\x5CCA\x5CCB\x5CCC\x5CCD\x5CCE\x5CCF\
\x5CD0\x5CD1\x5CD2\x5CD3\x5CD4\x5CD5\x5CD6\x5CD7\x5CD8\x5CD9\x5CDA\x5CDB\x5CDC\x5CDD\x5CDE\x5CDF\
\x5CE0\x5CE1\x5CE2\x5CE3\x5CE4\x5CE5\x5CE6\x5CE7\x5CE8\x5CE9\x5CEA\x5CEB\x5CEC\x5CED\x5CEE\x5CEF\
\x5CF0\x5CF1\x5CF2\x5CF3\x5CF4\x5CF5\x5CF6\x5CF7\x5CF8\x5CF9\x5CFA\x5CFB\x5CFC\x5CFD\x5CFE\x5CFF
chained 0
";

/// The 64 items from this one on.
fn items_from(first: u64) -> [u64; 64] {
    let mut items = [0; 64];
    for (item, number) in items.iter_mut().zip(first..) {
        *item = number;
    }
    items
}

/// A report of only these lines, which one processor heard.
fn report_of(
    alloc: Global,
    name: Name,
    lines: &[Line<'_>],
    order: &[(usize, usize)],
) -> Option<Report> {
    let processors = vec![in alloc; heard_by(alloc, lines)?].ok()?;
    let names = vec![in alloc; name].ok()?;
    let mut report = empty_report(alloc);
    report.heard = report_in(names, processors, alloc, order)?;
    Some(report)
}

/// A report of each byte.
fn all_bytes(alloc: Global) -> Option<Report> {
    let (first, second) = (items_from(0), items_from(64));
    let (third, last) = (items_from(128), items_from(192));
    let lines = [
        line(0, 0, &first),
        line(0, 1, &second),
        line(0, 2, &third),
        line(0, 3, &last),
    ];
    report_of(alloc, name(b"a"), &lines, &[(0, 0), (0, 1), (0, 2), (0, 3)])
}

#[test]
fn each_byte_is_written(rt: HostRuntime) {
    let Some(report) = all_bytes(rt.alloc()) else {
        panic!(rt; "no report")
    };
    let (out, all) = printed(rt.alloc(), &report, usize::MAX, 0);
    assert!(rt; all);
    assert!(rt; out.bytes.as_slice() == ALL_BYTES);
}

/// A heard line as long as it can be, of 788 bytes, 25 times: ten fit on a page.
fn longest_lines(alloc: Global) -> Option<Report> {
    let longest = line(0, 255, &[255; 256]);
    report_of(alloc, name(b"longname"), &[longest], &[(0, 0); 25])
}

/// The call that fails, and how many bytes are written if it does.
const PAGES: &[(usize, usize)] = &[(1, 0), (2, 7880), (3, 15_760), (4, 19_710), (0, 19_710)];

/// Each write is of whole lines.
#[test]
fn a_longer_report_is_written_in_whole_lines(rt: HostRuntime) {
    let Some(report) = longest_lines(rt.alloc()) else {
        panic!(rt; "no report")
    };
    for (fails_at, written) in PAGES {
        let (out, all) = printed(rt.alloc(), &report, usize::MAX, *fails_at);
        assert!(rt; all == (*written == 19_710));
        assert!(rt; out.bytes.len() == *written);
        assert!(rt; *written == 0 || out.bytes.ends_with(b"\n"));
        assert!(rt; out.bytes.ends_with(b"\\FF\nchained 0\n") == all);
    }
}
