//! Both forms of a replay, and readers and writers that fail. `examples` replays many lists.

use super::{Counted, lines_of};
use boot_script::*;
use event_theory::Refusal;
use std::alloc::Global;
use std::io;
use std::io::{ErrorKind, Read, Write};

/// A text of 8 bytes is read by 9 calls: one for each byte, and one that finds the end.
#[derive(Clone, Copy)]
struct OneByOne<'a> {
    bytes: &'a [u8],
    interrupts: u32,
    calls: u32,
    fails_at: u32,
}

impl Read for OneByOne<'_> {
    fn read(&mut self, buf: &mut [u8]) -> io::Result<usize> {
        if self.interrupts > 0 {
            self.interrupts -= 1;
            return Err(io::Error::from(ErrorKind::Interrupted));
        }
        self.calls = self.calls.saturating_add(1);
        if self.calls == self.fails_at {
            return Err(io::Error::from(ErrorKind::Other));
        }
        match self.bytes {
            [first, rest @ ..] if !buf.is_empty() => {
                buf[0] = *first;
                self.bytes = rest;
                Ok(1)
            }
            _ => Ok(0),
        }
    }
}

fn one_by_one(bytes: &[u8], interrupts: u32, fails_at: u32) -> OneByOne<'_> {
    OneByOne {
        bytes,
        interrupts,
        calls: 0,
        fails_at,
    }
}

/// A page that takes no memory, and takes one byte a call. It fails at one call.
#[derive(Clone, Copy)]
struct Page {
    bytes: [u8; 128],
    len: usize,
    calls: u32,
    fails_at: u32,
}

impl Write for Page {
    fn write(&mut self, buf: &[u8]) -> io::Result<usize> {
        self.calls = self.calls.saturating_add(1);
        if self.calls == self.fails_at || self.len >= self.bytes.len() {
            return Err(io::Error::from(ErrorKind::Other));
        }
        match buf {
            [] => Ok(0),
            [first, ..] => {
                self.bytes[self.len] = *first;
                self.len += 1;
                Ok(1)
            }
        }
    }

    fn flush(&mut self) -> io::Result<()> {
        Ok(())
    }
}

impl Page {
    fn new(fails_at: u32) -> Page {
        Page {
            bytes: [0; 128],
            len: 0,
            calls: 0,
            fails_at,
        }
    }

    fn text(&self) -> &[u8] {
        self.bytes.get(..self.len).unwrap_or(&[])
    }
}

/// How a replay ends, and the bytes that it wrote. Both forms have to answer the same, write the same bytes, and leave
/// the reader at the same place. The streams are lent to each, so that all bytes are seen.
fn replayed(
    alloc: Global,
    reader: OneByOne<'_>,
    page: Page,
) -> Option<(Result<Replayed, ReplayFault>, Page)> {
    let (mut read, mut written) = (reader, page);
    let answer = replay_on(alloc, &mut read, &mut written);
    let (mut read_by_value, mut written_by_value) = (reader, page);
    let same = replay(alloc, &mut read_by_value, &mut written_by_value) == answer
        && written_by_value.text() == written.text()
        && written_by_value.calls == written.calls
        && read_by_value.bytes == read.bytes
        && read_by_value.calls == read.calls;
    same.then_some((answer, written))
}

/// How a replay ends that writes nothing at all.
fn unwritten(alloc: Global, reader: OneByOne<'_>) -> Option<ReplayFault> {
    match replayed(alloc, reader, Page::new(1))? {
        (Err(fault), page) if page.calls == 0 => Some(fault),
        _ => None,
    }
}

const NO_BYTES: ReplayFault = ReplayFault::Script(ScriptFault {
    line: 1,
    refusal: ScriptRefusal::NotVersion,
});

const UNKNOWN_WORD: ReplayFault = ReplayFault::Script(ScriptFault {
    line: 3,
    refusal: ScriptRefusal::UnknownWord,
});

const TOO_MANY: ReplayFault = ReplayFault::Script(ScriptFault {
    line: 0,
    refusal: ScriptRefusal::TooMany,
});

const FAULTY: [(&[u8], ReplayFault); 3] = [
    (b"", NO_BYTES),
    (b"events 1\nqueue 4\nque", UNKNOWN_WORD),
    (&[b'#'; 65_537], TOO_MANY),
];

/// Nothing is written, by either form.
#[test]
fn a_fault_of_the_text_is_answered(rt: HostRuntime) {
    for (text, fault) in FAULTY {
        assert!(rt; unwritten(rt.alloc(), one_by_one(text, 0, 0)) == Some(fault));
    }
}

#[test]
fn a_read_may_fail_at_each_call(rt: HostRuntime) {
    for fails_at in 1..10 {
        let reader = one_by_one(b"events 1", 3, fails_at);
        assert!(rt; unwritten(rt.alloc(), reader) == Some(ReplayFault::Read));
    }
    let reader = one_by_one(b"events 1", 3, 10);
    let Some((answer, page)) = replayed(rt.alloc(), reader, Page::new(0)) else {
        panic!(rt; "the forms differ")
    };
    assert!(rt; answer == Ok(Replayed::AllAllowed));
    assert!(rt; page.text() == b"events 0\n".as_slice());
}

#[test]
fn interrupted_reads_count(rt: HostRuntime) {
    let reader = one_by_one(b"", 131_072, 0);
    assert!(rt; unwritten(rt.alloc(), reader) == Some(ReplayFault::Read));
    let reader = one_by_one(b"", 131_071, 0);
    assert!(rt; unwritten(rt.alloc(), reader) == Some(NO_BYTES));
}

const REFUSED: &[u8] =
    b"events 1\nqueue 4\nclaim c1 q0 10 11\nclaim c2 q0 12\nraise c2 q0 1 0\ntake c1 q0 1";

const REFUSED_PRINTED: &[u8] =
    b"events 4\nqueue q0 capacity 4 runs 2 put 3 taken 0 left 3 raised 1\nrefused 6 7 NotRaised\n";

const NOT_RAISED: Replayed = Replayed::Refused {
    line: 6,
    refusal: Refusal::NotRaised,
};

/// How the replay of this list ends if this call of the writer fails, if a prefix of the printed text is written.
fn refused_at(alloc: Global, fails_at: u32) -> Option<(Result<Replayed, ReplayFault>, u32)> {
    let (answer, page) = replayed(alloc, one_by_one(REFUSED, 0, 0), Page::new(fails_at))?;
    let whole = answer.is_err() || page.text() == REFUSED_PRINTED;
    (whole && REFUSED_PRINTED.starts_with(page.text())).then_some((answer, page.calls))
}

#[test]
fn a_write_may_fail_at_each_call(rt: HostRuntime) {
    let calls = REFUSED_PRINTED.len() as u32;
    for fails_at in 1..200 {
        let wanted = if fails_at <= calls {
            (Err(ReplayFault::Write), fails_at)
        } else {
            (Ok(NOT_RAISED), calls)
        };
        assert!(rt; refused_at(rt.alloc(), fails_at) == Some(wanted));
    }
}

/// 64 elements are taken, and then one more.
fn more_than_all(alloc: Global) -> io::Result<Vec<u8>> {
    let mut text = Vec::from_slice(alloc, b"events 3\n")?;
    for _ in 0..65 {
        text.extend_from_slice(b"take c0 free 1\n")?;
    }
    Ok(text)
}

const LAST_REFUSED: Replayed = Replayed::Refused {
    line: 66,
    refusal: Refusal::NotRaised,
};

/// 65 lines of a status and the line of the refusal are two writes.
#[test]
fn whole_lines_are_written(rt: HostRuntime) {
    let Ok(text) = more_than_all(rt.alloc()) else {
        panic!(rt; "no text")
    };
    let mut out = Counted::new(rt.alloc());
    assert!(rt; replay(rt.alloc(), &mut text.as_slice(), &mut out) == Ok(LAST_REFUSED));
    assert!(rt; (out.writes, out.whole, lines_of(&out.bytes)) == (2, 2, 66));
    assert!(rt; out.bytes.ends_with(b"\nrefused 66 7 NotRaised\n"));
}
