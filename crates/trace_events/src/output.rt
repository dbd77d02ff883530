//! What is printed piece by piece.

ghost use Rattle.std.specs.Prelude.{◌∷◌, OnOk};
ghost use Rattle.std.specs.Io.KnownBytes.{Appends};

use crate::fault::TraceFault;
use std::io::Write;

/// Prints bytes.
pub(crate) fn print_bytes<W: Write>(bytes: &[u8], out: &mut W) -> Result<(), TraceFault>
    ensures { OnOk result (Appends (W.contents out.old) (W.contents out.new) bytes.now) }
{
    match out.write_all(bytes) {
        Ok(()) => Ok(()),
        Err(_) => Err(TraceFault::Write),
    }
}

/// Prints an event after another one.
pub(crate) fn print_later<W: Write>(text: &[u8], out: &mut W) -> Result<(), TraceFault>
    ensures { OnOk result (Appends (W.contents out.old) (W.contents out.new) (44 ∷ text.now)) }
{
    print_bytes(b",", out)?;
    print_bytes(text, out)
}
