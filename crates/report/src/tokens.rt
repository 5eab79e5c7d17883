ghost use Rattle.std.specs.Prelude.{◌≡◌, ◌∷◌, ◌++◌, OnOk, codes, decimal};
ghost use Rattle.report.specs.EventTable.{field, number_field};

use itoa::Buffer;
use litmus_syntax::push_number;
use std::alloc::AllocError;

/// Appends a space and a number.
pub fn push_number_behind(out: &mut Vec<u8>, number: u32) -> Result<(), AllocError>
    ensures { OnOk result (out.new.items ≡ out.old.items ++ 32 ∷ decimal number) }
{
    out.push(b' ')?;
    push_number(out, number)?;
    Ok(())
}

/// Appends a field's name and what stands in it, each behind a space.
pub fn push_field(out: &mut Vec<u8>, name: &[u8], text: &[u8]) -> Result<(), AllocError>
    ensures { OnOk result (out.new.items ≡ out.old.items ++ field name.now text.now) }
{
    out.push(b' ')?;
    out.extend_from_slice(name)?;
    out.push(b' ')?;
    out.extend_from_slice(text)?;
    Ok(())
}

/// Appends a field of a number.
pub fn push_number_field(out: &mut Vec<u8>, name: &[u8], number: u32) -> Result<(), AllocError>
    ensures { OnOk result (out.new.items ≡ out.old.items ++ number_field name.now number) }
{
    let mut buffer = Buffer::new();
    push_field(out, name, buffer.format(number).as_bytes())?;
    Ok(())
}

/// Appends the field of a text's length.
pub fn push_len_field(out: &mut Vec<u8>, len: usize) -> Result<(), AllocError>
    ensures { OnOk result (out.new.items ≡ out.old.items ++ number_field (codes "len") len) }
{
    let mut buffer = Buffer::new();
    push_field(out, b"len", buffer.format(len).as_bytes())?;
    Ok(())
}
