//! Reading a script.

ghost use Rattle.std.specs.Prelude.{◌≡◌, ◌≤◌, length, take, IfOk, IfSome, OnErr};
ghost use Rattle.boot_script.specs.Plans.{text_plan};
ghost use Rattle.boot_script.specs.Scripts.{text_events};
ghost use Rattle.boot_script.specs.StreamFaults.{HasRead, IsReadFault};

use crate::opening::MOST_BYTES;
use crate::streams::Source;
use std::error::Error as StdError;
use std::fmt;
use std::io::ErrorKind;

/// How many calls of read a script may take.
const MOST_READS: u32 = 131_072;

/// The reader failed, or took more than 131,072 calls of read, interrupted ones counted.
#[derive(Clone, Copy, Debug, PartialEq, Eq)]
pub struct ReadFault;

impl fmt::Display for ReadFault {
    ghost use Rattle.std.specs.Prelude.{Some, codes};

    ghost output = { λ _. Some (codes "read fault") };

    fn fmt<W: fmt::Write>(&self, f: &mut fmt::Formatter<W>) -> fmt::Result {
        f.write_str("read fault")
    }
}

impl StdError for ReadFault {}

/// Fills the front of the buffer up to the end of the reader, or just past the length limit of a script. Returns the
/// length of that front. The front says what all bytes of the reader say, as a list of events and as a boot script.
///
/// Takes no memory, so that a fault of the text is returned even when memory is exhausted. After a call that reads a
/// byte or is interrupted, reading goes on. Any other call is the last one, and so is the 131,072nd.
///
/// Condition: the buffer has 65,537 bytes.
pub fn read_script<R: Source>(reader: &mut R, buffer: &mut [u8]) -> Result<usize, ReadFault>
    requires { length buffer.old ≡ 65537 }
    ensures events { IfOk result (λ n. IfSome (R.remaining reader.old) (λ bytes. text_events bytes ≡ text_events
        (take n buffer.new))) }
    ensures plan { IfOk result (λ n. IfSome (R.remaining reader.old) (λ bytes. text_plan bytes ≡ text_plan
        (take n buffer.new))) }
    ensures within { IfOk result (λ n. n ≤ 65537) }
    ensures long { length buffer.new ≡ 65537 }
    ensures error { OnErr result (IsReadFault R.answers reader.old reader.new) }
    ensures trace { IfOk result (λ n. HasRead R.answers n reader.old reader.new) }
{
    let mut filled = 0;
    for _ in 0..MOST_READS {
        match reader.ask(&mut buffer[filled..]) {
            Ok(0) => return Ok(filled),
            Ok(n) => {
                filled += n;
                if filled > MOST_BYTES {
                    return Ok(filled);
                }
            }
            Err(error) => {
                if error.kind() != ErrorKind::Interrupted {
                    return Err(ReadFault);
                }
            }
        }
    }
    Err(ReadFault)
}
