//! A text that is made in memory.
ghost use Rattle.std.specs.{Fmt.{signed_decimal}, Prelude.{◌≡◌, ◌++◌, OnOk, decimal}};
ghost use Rattle.byte_texts.specs.Labels.{labelled, labelled_id};

use itoa::Buffer;
use std::alloc::AllocError;

/// Adds a part as it is.
pub fn push_text(text: &mut Vec<u8>, part: &[u8]) -> Result<(), AllocError>
    ensures { OnOk result (text.new.items ≡ text.old.items ++ part.now) }
{
    text.extend_from_slice(part)
}

/// Adds a number in decimal.
pub fn push_number(text: &mut Vec<u8>, number: u64) -> Result<(), AllocError>
    ensures { OnOk result (text.new.items ≡ text.old.items ++ decimal number) }
{
    text.extend_from_slice(Buffer::new().format(number).as_bytes())
}

/// Adds a label and a number.
pub fn push_labelled(text: &mut Vec<u8>, label: &[u8], number: u64) -> Result<(), AllocError>
    ensures { OnOk result (text.new.items ≡ text.old.items ++ labelled label.now number) }
{
    push_text(text, label)?;
    push_number(text, number)
}

/// Adds a label and a number that may be negative.
pub fn push_signed(text: &mut Vec<u8>, label: &[u8], number: i64) -> Result<(), AllocError>
    ensures { OnOk result (text.new.items
        ≡ text.old.items ++ (label.now ++ signed_decimal number)) }
{
    push_text(text, label)?;
    text.extend_from_slice(Buffer::new().format(number).as_bytes())
}

/// Adds a label and an id: a worker, a point and a serial.
pub fn push_labelled_id(
    text: &mut Vec<u8>,
    label: &[u8],
    worker: u32,
    serial: u32,
) -> Result<(), AllocError>
    ensures { OnOk result (text.new.items ≡ text.old.items ++ labelled_id label.now worker serial) }
{
    push_labelled(text, label, u64::from(worker))?;
    push_labelled(text, b".", u64::from(serial))
}
