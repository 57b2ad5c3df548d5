// What is said of the changes of a signal.
ghost use Rattle.std.specs.Prelude.{◌≡◌, ◌++◌, OnOk};
ghost use Rattle.svtv_report.specs.Texts.{change_line};

use flat_text::push_value;
use fourvec::Four;
use itoa::Buffer;
use std::alloc::AllocError;

/// The line of a change, behind so much: its time, and the value that the signal has from there on.
pub fn push_change(text: &mut Vec<u8>, time: u64, value: &Four) -> Result<(), AllocError>
    ensures { OnOk result (text.new.items ≡ text.old.items ++ change_line (time, value.now)) }
{
    let mut buffer = Buffer::new();
    text.extend_from_slice(buffer.format(time).as_bytes())?;
    text.push(b' ')?;
    push_value(text, value)?;
    text.push(b'\n')?;
    Ok(())
}
