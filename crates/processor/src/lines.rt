//! The line as which a text is said.
ghost use Rattle.std.specs.Prelude.{◌≡◌};
ghost use Rattle.processor.specs.Queues.{said_line};

use arrayvec::ArrayVec;
use boot_data::Text;

// Makes the list the line as which a text is said.
pub(crate) fn write_line(text: &Text<63>, line: &mut ArrayVec<u64, 256>)
    ensures { line.new.items ≡ said_line text.now }
{
    line.clear();
    for byte in text.as_slice() {
        line.push(u64::from(*byte));
    }
    line.push(0x0A);
}
