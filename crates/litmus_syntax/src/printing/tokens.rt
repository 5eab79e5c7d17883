ghost use Rattle.std.specs.Prelude.{◌≡◌, ◌<◌, ◌∷◌, ◌++◌, OnOk, decimal};
ghost use Rattle.std.specs.List.{flat_map};
ghost use Rattle.litmus_syntax.specs.Texts.{path_text, hex_digit, byte_text, quoted};

use crate::call::{Path, Text};
use itoa::Buffer;
use std::alloc::AllocError;

/// Appends a number in decimal digits. After want of memory the bytes are open.
pub fn push_number(out: &mut Vec<u8>, number: u32) -> Result<(), AllocError>
    ensures { OnOk result (out.new.items ≡ out.old.items ++ decimal number) }
{
    let mut buffer = Buffer::new();
    out.extend_from_slice(buffer.format(number).as_bytes())?;
    Ok(())
}

/// Appends each component behind a `/`.
fn push_parts(out: &mut Vec<u8>, parts: &[Text]) -> Result<(), AllocError>
    ensures { OnOk result (out.new.items ≡ out.old.items ++ flat_map (λ part. 47 ∷ part) parts.now) }
{
    for part in parts {
        out.push(b'/')?;
        out.extend_from_slice(part.as_slice())?;
    }
    Ok(())
}

/// Appends a path. After want of memory the bytes are open.
pub fn push_path(out: &mut Vec<u8>, path: &Path) -> Result<(), AllocError>
    ensures { OnOk result (out.new.items ≡ out.old.items ++ path_text path.now) }
{
    if path.as_slice().is_empty() {
        out.push(b'/')?;
        return Ok(());
    }
    push_parts(out, path.as_slice())?;
    Ok(())
}

/// The hexadecimal digit of a value, in lower case.
fn hex_digit(value: u8) -> u8
    requires { value < 16 }
    ensures { result ≡ hex_digit value }
{
    if value <= 9 {
        return b'0' + value;
    }
    b'a' + (value - 10)
}

/// Appends a byte of a text, escaped where it has to be.
fn push_byte(out: &mut Vec<u8>, byte: u8) -> Result<(), AllocError>
    ensures { OnOk result (out.new.items ≡ out.old.items ++ byte_text byte) }
{
    match byte {
        b'\\' => out.extend_from_slice(b"\\\\")?,
        b'"' => out.extend_from_slice(b"\\\"")?,
        b'\n' => out.extend_from_slice(b"\\n")?,
        0x20..=0x7E => out.push(byte)?,
        _ => {
            out.extend_from_slice(b"\\x")?;
            out.push(hex_digit(byte / 16))?;
            out.push(hex_digit(byte % 16))?;
        }
    }
    Ok(())
}

/// Appends the bytes of a text, without its quotes.
fn push_bytes(out: &mut Vec<u8>, bytes: &[u8]) -> Result<(), AllocError>
    ensures { OnOk result (out.new.items ≡ out.old.items ++ flat_map byte_text bytes.now) }
{
    for byte in bytes {
        push_byte(out, *byte)?;
    }
    Ok(())
}

/// Appends a text in its quotes.
pub fn push_quoted(out: &mut Vec<u8>, text: &Text) -> Result<(), AllocError>
    ensures { OnOk result (out.new.items ≡ out.old.items ++ quoted text.now) }
{
    out.push(b'"')?;
    push_bytes(out, text.as_slice())?;
    out.push(b'"')?;
    Ok(())
}
