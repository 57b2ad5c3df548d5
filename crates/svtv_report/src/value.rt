// Values as they are printed.
ghost use Rattle.std.specs.Prelude.{◌≡◌, ◌++◌, IfOk, OnOk};
ghost use Rattle.svtv_report.specs.Texts.{value_line, value_lines};

use flat_text::push_value;
use fourvec::Four;
use std::alloc::AllocError;
use sv_outside::Name;

/// A name with its value, after so much.
pub(crate) fn push_line(
    text: &mut Vec<u8>,
    before: &[u8],
    name: &Name,
    value: &Four,
) -> Result<(), AllocError>
    ensures { OnOk result (text.new.items ≡ text.old.items ++ value_line before.now name.now value.now) }
{
    text.extend_from_slice(before)?;
    text.extend_from_slice(name.bytes())?;
    text.extend_from_slice(b" = ")?;
    push_value(text, value)?;
    text.push(b'\n')?;
    Ok(())
}
