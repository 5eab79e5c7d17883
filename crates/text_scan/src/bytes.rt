ghost use Rattle.std.specs.Prelude.{◌≡◌};
ghost use Rattle.std.specs.List.{prefix_len};
ghost use Rattle.text_scan.specs.Bytes.{is_digit, is_hex_digit, is_name_byte, is_first_byte, is_path_byte, is_sign, is_blank, is_line_byte};

/// Whether the byte is a digit.
pub fn is_digit(byte: u8) -> bool
    ensures { result ≡ is_digit byte }
{
    byte.is_ascii_digit()
}

/// Whether the byte is a hexadecimal digit of either case.
pub fn is_hex_digit(byte: u8) -> bool
    ensures { result ≡ is_hex_digit byte }
{
    byte.is_ascii_hexdigit()
}

/// Whether a name may have this byte.
pub fn is_name_byte(byte: u8) -> bool
    ensures { result ≡ is_name_byte byte }
{
    byte.is_ascii_alphanumeric() || byte == b'_' || byte == b'-' || byte == b'.'
}

/// Whether a word may begin with this byte.
pub fn is_first_byte(byte: u8) -> bool
    ensures { result ≡ is_first_byte byte }
{
    byte.is_ascii_alphabetic() || byte == b'_'
}

/// Whether a path may have this byte.
pub fn is_path_byte(byte: u8) -> bool
    ensures { result ≡ is_path_byte byte }
{
    is_name_byte(byte) || byte == b'/'
}

/// Whether the byte is a sign.
pub fn is_sign(byte: u8) -> bool
    ensures { result ≡ is_sign byte }
{
    matches!(
        byte,
        b'(' | b')' | b'[' | b']' | b'=' | b':' | b',' | b'|' | b'&' | b';' | b'+'
    )
}

/// Whether the byte is a space or a tab.
pub fn is_blank(byte: u8) -> bool
    ensures { result ≡ is_blank byte }
{
    byte == b' ' || byte == b'\t'
}

/// Whether the byte is a tab, or from 0x20 to 0x7E.
pub fn is_line_byte(byte: u8) -> bool
    ensures { result ≡ is_line_byte byte }
{
    byte == b'\t' || (byte >= 0x20 && byte <= 0x7E)
}

/// How many bytes at the front are spaces or tabs.
pub fn blanks_len(bytes: &[u8]) -> usize
    ensures { result ≡ prefix_len is_blank bytes.now }
{
    bytes.iter().take_while(|byte| is_blank(**byte)).count()
}

/// How many bytes at the front may stand in a name.
pub fn name_len(bytes: &[u8]) -> usize
    ensures { result ≡ prefix_len is_name_byte bytes.now }
{
    bytes.iter().take_while(|byte| is_name_byte(**byte)).count()
}

/// How many bytes at the front may stand in a path.
pub fn path_len(bytes: &[u8]) -> usize
    ensures { result ≡ prefix_len is_path_byte bytes.now }
{
    bytes.iter().take_while(|byte| is_path_byte(**byte)).count()
}
