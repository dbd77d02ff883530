//! The report of a boot that has a thing of each kind, and a thread left in each possible place.

use super::*;

/// The steps of v are last, since they name y, which is stopped before its first turn. The thread x hears before v
/// does, and w is left waiting. Three alarms fire and are shown, one fires while its thread waits, and one is left.
const SCRIPT: &str = "synthesis 3
queue a
pipe b 0 1
tty t
pump p a b
switch s b a x a
gauge g
gauge h
thread v
thread w
wait 9
pass
thread x
pass
pass
pass
pass
pass
hear b
pass
pass
pass
pass
thread y
pass
more v
stop y
tick h 7
say a xy
say a zzz
poke p
poke p
poke s
hear a
say b w
alarm 2 v 3
alarm 3 x 0
alarm 3 x 15
alarm 19 w 4
alarm 50 x 6
";

/// The output after 20 turns.
const PRINTED: &str = "queue a put 11 taken 11 left 0
pipe b put 9 taken 7 left 2
tty t typed 0 overrun 0 notes 0 held 0
tty t raw put 0 taken 0 left 0
tty t line put 0 taken 0 left 0
tty t screen put 0 taken 0 left 0
pump p notes 2 taken 7 put 7 held 0
switch s notes 1 taken 4 put 4 held 0
gauge g 0
gauge h 7
alarms set 5 fired 4 left 1
thread v ended 9 signals 0008
thread w wait9 1
thread x ready 9 signals 8001
thread y stopped 0
heard v 7 zzz\\0A
heard x 5 xy\\0A
chained 0
";

/// Each number is at its place, and the lines heard are in their order.
#[test]
fn each_kind_is_reported(rt: HostRuntime) {
    assert_boot(&rt, rt.alloc(), SCRIPT, 20, unfinished(3, PRINTED));
}
