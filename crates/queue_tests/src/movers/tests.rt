ghost use Rattle.std.specs.Prelude.{map};
ghost use Rattle.std.specs.List.{All};
ghost use Rattle.claim_queue.specs.Handles.{view_of};
ghost use Rattle.quajects.specs.Ports.{IsEndAt, IsUnused};
ghost use Rattle.quajects.specs.Routes.{KeysDiffer, IsGivenFit, IsGivenUnused, given_key};
ghost use Rattle.quajects.specs.Switches.{Fits};

use crate::fixtures::queue_with_two;
use crate::movers::fixtures::{Three, puts_at, takes_at, three_small};
use arrayvec::ArrayVec;
use claim_queue::{ClaimQueue, QueueEnd};
use event_theory::OutOfMemory;
use proc_chain::{Quaject, Ran};
use quajects::*;
use std::panic::Expect;
use std::test::*;

/// A raw line, and the line that it is cooked to.
struct Cooked {
    line: &'static [u8],
    want: &'static [u8],
}

const COOKED: &[Cooked] = &[
    Cooked {
        line: b"ab\x7Fc",
        want: b"ac\n",
    },
    Cooked {
        line: b"\x08x",
        want: b"x\n",
    },
    Cooked {
        line: b"abc\x15d\x7F\x7Fe",
        want: b"e\n",
    },
    Cooked {
        line: b"",
        want: b"\n",
    },
    Cooked {
        line: b"ab\x15\x08cd\x08\x08\x08e",
        want: b"e\n",
    },
    Cooked {
        line: b"aaaaaaaaaaaaaaaaaaaaaaaaaaaaaaaaaaaaaaaaaaaaaaaaaaaaaaaaaaaaaaaa",
        want: b"aaaaaaaaaaaaaaaaaaaaaaaaaaaaaaaaaaaaaaaaaaaaaaaaaaaaaaaaaaaaaaaa\n",
    },
];

#[test]
fn cooks(rt: HostRuntime) {
    for (at, row) in COOKED.iter().enumerate() {
        if row.line.len() > 64 {
            panic!(rt; "a long line");
        }
        let mut out = ArrayVec::new();
        cook(row.line, &mut out);
        assert!(rt; out.as_slice() == row.want, "line {at}");
    }
}

/// A switch over these queues, from the first, with the second as its rest.
fn switch_over(
    queues: &Queues,
    source: QueueEnd<64>,
    other: QueueEnd<64>,
    ways: [GivenWay; 4],
) -> Switch
    requires source { IsEndAt queues.now.small.items 0 source × IsUnused (view_of source) }
    requires other { IsEndAt queues.now.small.items 1 other × IsUnused (view_of other) }
    requires ways { All (IsGivenFit queues.now.small.items) ways × All IsGivenUnused ways }
    requires keys { KeysDiffer (map given_key ways) }
    ensures { Fits queues.now result }
{
    let _queues = queues.small.len();
    Switch::new(0, source, 1, other, ways)
}

/// A way whose key is the end of a line takes the empty lines, and no others.
#[test]
fn empty_lines_have_a_way(rt: HostRuntime) {
    let Three { queues, ends } = three_small(&rt, rt.alloc());
    let (from, rest, way) = ends;
    let (source, mut writer) = (from.mine, from.other);
    let (other, mut rest_reader) = (rest.mine, rest.other);
    let (way, mut reader) = (way.mine, way.other);
    let small = queues.small.as_slice();
    assert!(rt; puts_at(small, 0, &mut writer, &[97, 10]));
    assert!(rt; puts_at(small, 0, &mut writer, &[10]));
    let mut switch = switch_over(
        &queues,
        source,
        other,
        [Some((10, 2, way)), None, None, None],
    );
    assert!(rt; matches!(switch.run(&queues, 0), Ran::Worked));
    assert!(rt; matches!(switch.run(&queues, 0), Ran::Worked));
    assert!(rt; matches!(switch.run(&queues, 0), Ran::Nothing));
    assert!(rt; (switch.notes(), switch.taken(), switch.put(), switch.held()) == (3, 3, 3, 0));
    let mut line = ArrayVec::new();
    assert!(rt; takes_at(small, 1, &mut rest_reader, &mut line, &[97, 10]));
    assert!(rt; takes_at(small, 2, &mut reader, &mut line, &[10]));
}

#[test]
fn settles_with_all_ends(rt: HostRuntime) {
    let (queue, mut first) = ClaimQueue::<64>::new(rt.alloc(), 0).expect(&rt, "memory");
    let mut second = queue.split(&mut first);
    let mut third = queue.split(&mut second);
    let mut fourth = queue.split(&mut third);
    assert!(rt; queue.try_put(&mut second, &[104, 105, 10]) == Ok(0));
    assert!(rt; queue.try_put(&mut third, &[33]) == Ok(3));
    assert!(rt; queue.try_take(&mut first) == Ok(104));
    // Claimed, and never raised.
    assert!(rt; queue.try_claim(&mut fourth, &[44]).is_ok());
    let mut others = Vec::new(rt.alloc());
    others.push(second).expect(&rt, "memory");
    let (queue, first) = match settle(queue, first, others) {
        Ok(_) => panic!(rt; "closed over open ends"),
        Err((queue, mut first, others)) => {
            assert!(rt; others.others == 2);
            assert!(rt; queue.try_put(&mut first, &[55]) == Ok(5));
            (queue, first)
        }
    };
    let mut others = Vec::new(rt.alloc());
    others.push(third).expect(&rt, "memory");
    others.push(fourth).expect(&rt, "memory");
    let Ok(closed) = settle(queue, first, others) else {
        panic!(rt; "open ends")
    };
    assert!(rt; (closed.first, closed.put, closed.taken) == (0, 6, 1));
    assert!(rt;
        closed.left.as_slice() == [Some(105), Some(10), Some(33), None, Some(55)].as_slice()
    );
}

#[test]
fn gives_its_ends_away(rt: HostRuntime) {
    let (_queue, two) = queue_with_two::<_, 64>(&rt, rt.alloc(), 0);
    let pump = AnyQuaject::Pump(Pump::new(3, two.mine, 4, two.other));
    assert!(rt; (pump.notes(), pump.taken(), pump.put(), pump.held()) == (0, 0, 0, 0));
    let (small, large) = pump.into_ends();
    for (at, end) in small.iter().enumerate() {
        assert!(rt; end.is_some() == (at < 2));
    }
    assert!(rt; large.iter().all(Option::is_none));
}

#[test]
fn pipes_are_plain_data(rt: HostRuntime) {
    let pipe = Pipe {
        index: 3,
        readers: 0,
        writers: 1,
    };
    assert!(rt; pipe == pipe);
    assert!(rt; (pipe.index, pipe.readers, pipe.writers) == (3, 0, 1));
}

#[test]
fn memory_may_run_out(rt: HostRuntime) {
    let mut made = false;
    for _ in 0..12u8 {
        match Queues::new(rt.alloc(), 2, 1) {
            Ok((queues, small, large)) => {
                assert!(rt; (queues.small.len(), queues.large.len()) == (2, 1));
                assert!(rt; (small.len(), large.len()) == (2, 1));
                made = true;
            }
            Err(error) => assert!(rt; error == OutOfMemory),
        }
    }
    assert!(rt; made);
}
