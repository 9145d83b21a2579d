//! Bytes at the end of a text.

ghost use Rattle.std.specs.Prelude.{ℕ, ◌≡◌, ◌++◌, ◌∷◌, [], OnOk, take, drop, replicate, decimal};
ghost use Rattle.drawings.specs.Drawings.{at_right};

use itoa::Buffer;
use memory::{OutOfMemory, push};

/// Puts bytes at the end of the text.
pub(crate) fn push_all(text: &mut Vec<u8>, bytes: &[u8]) -> Result<(), OutOfMemory>
    ensures { OnOk result (text.new.items ≡ text.old.items ++ bytes.now) }
{
    'bytes: for byte in bytes {
        push(text, *byte)?;
    }
    Ok(())
}

/// Puts a number in decimal at the end of the text.
pub(crate) fn push_number(text: &mut Vec<u8>, number: u64) -> Result<(), OutOfMemory>
    ensures { OnOk result (text.new.items ≡ text.old.items ++ decimal number) }
{
    push_all(text, Buffer::new().format(number).as_bytes())
}

/// Puts bytes at the end of the text, at the right of `columns` columns.
pub(crate) fn push_at_right(
    text: &mut Vec<u8>,
    columns: usize,
    bytes: &[u8],
) -> Result<(), OutOfMemory>
    ensures { OnOk result (text.new.items ≡ text.old.items ++ at_right columns bytes.now) }
{
    push_spaces(text, columns.saturating_sub(bytes.len()))?;
    push_all(text, bytes)
}

/// Puts spaces at the end of the text.
pub(crate) fn push_spaces(text: &mut Vec<u8>, count: usize) -> Result<(), OutOfMemory>
    ensures { OnOk result (text.new.items ≡ text.old.items ++ replicate count 32) }
{
    'spaces: for _ in 0..count {
        push(text, b' ')?;
    }
    Ok(())
}

/// `count` items from the place `from` on, or as many as there are.
pub(crate) fn part<T>(items: &[T], from: usize, count: usize) -> &[T]
    ensures { result.now ≡ take count (drop from items.now) }
{
    let rest = &items[from.min(items.len())..];
    &rest[..count.min(rest.len())]
}
