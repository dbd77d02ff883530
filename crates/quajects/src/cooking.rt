//! Line editing.
ghost use Rattle.std.specs.Prelude.{◌≡◌, ◌≤◌, ◌||◌, ◌==◌, [], length};
ghost use Rattle.quajects.specs.Cooked.{is_erase, edited, without_end, typed, cooked};

use arrayvec::ArrayVec;

const BACKSPACE: u8 = 0x08;

const DELETE: u8 = 0x7F;

const KILL: u8 = 0x15;

const END: u8 = 0x0A;

fn is_eraser(byte: u8) -> bool
    ensures { result ≡ is_erase byte }
{
    byte == BACKSPACE || byte == DELETE
}

/// The cooked line of the typed bytes of `line`: each erase takes back the byte before it, a kill all before it. An end
/// of line is appended. `line` is without its own end: a 0x0A in it is a byte like any other.
pub fn cook(line: &[u8], out: &mut ArrayVec<u8, 65>)
    requires short { length line.now ≤ 64 }
    requires empty { out.old.items ≡ [] }
    ensures { out.new.items ≡ edited line.now }
{
    for byte in line {
        if *byte == KILL {
            out.clear();
        } else if is_eraser(*byte) {
            let _erased = out.pop();
        } else {
            out.push(*byte);
        }
    }
    out.push(END);
}

// The items without an end of line as the last one.
fn body_of(raw: &[u64]) -> &[u64]
    ensures { result.now ≡ without_end raw.now }
{
    let count = raw.len();
    if count > 0 && raw[count - 1] == END as u64 {
        &raw[..count - 1]
    } else {
        raw
    }
}

// The typed bytes of a raw line.
fn typed_bytes(raw: &[u64]) -> ArrayVec<u8, 64>
    requires { length raw.now ≤ 64 }
    ensures { result.items ≡ typed raw.now }
{
    let body = body_of(raw);
    let mut bytes = ArrayVec::new();
    for item in body {
        if *item < 256 {
            bytes.push(*item as u8);
        }
    }
    bytes
}

/// The cooked line of a raw line.
pub(crate) fn cooked_line(raw: &[u64]) -> ArrayVec<u64, 65>
    requires { length raw.now ≤ 64 }
    ensures { result.items ≡ cooked raw.now }
{
    let typed = typed_bytes(raw);
    let mut bytes = ArrayVec::new();
    cook(typed.as_slice(), &mut bytes);
    let mut line = ArrayVec::new();
    for byte in bytes.as_slice() {
        line.push(*byte as u64);
    }
    line
}
