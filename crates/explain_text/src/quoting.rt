//! Names of a module as strings of the text format (6.3.3), which no byte of theirs can end, nor drive a terminal by.
ghost use Rattle.std.specs.Prelude.{◌≡◌, ◌<◌, ◌++◌, ◌∷◌, [], OnOk, string_bytes, flat_map};
ghost use Rattle.explain_text.specs.Texts.{hex_digit as digit_meant, hex_pair, is_plain as plain_meant};
ghost use Rattle.explain_text.specs.Texts.{name_text, string_byte, string_text};

use std::alloc::AllocError;

/// How many bytes of a name are shown.
const SHOWN: usize = 1024;

/// A digit of base 16.
fn hex_digit(digit: u8) -> u8
    requires { digit < 16 }
    ensures value { result ≡ digit_meant digit }
    ensures ascii { result < 128 }
{
    if digit < 10 {
        b'0' + digit
    } else {
        b'a' + (digit - 10)
    }
}

/// A character of ASCII.
fn push_ascii(text: &mut String, byte: u8) -> Result<(), AllocError>
    requires { byte < 128 }
    ensures { OnOk result (string_bytes text.new ≡ string_bytes text.old ++ byte ∷ []) }
{
    text.push(char::from(byte))
}

/// A byte as two digits of base 16.
fn push_hex(text: &mut String, byte: u8) -> Result<(), AllocError>
    ensures { OnOk result (string_bytes text.new ≡ string_bytes text.old ++ hex_pair byte) }
{
    push_ascii(text, hex_digit(byte / 16))?;
    push_ascii(text, hex_digit(byte % 16))
}

/// Whether a byte of a string stands for itself: a printable character of ASCII, but for the quotation mark and the backslash.
fn is_plain(byte: u8) -> bool
    ensures { result ≡ plain_meant byte }
{
    byte >= 0x20 && byte < 0x7F && byte != b'"' && byte != b'\\'
}

/// A byte of a string.
fn push_byte(text: &mut String, byte: u8) -> Result<(), AllocError>
    ensures { OnOk result (string_bytes text.new ≡ string_bytes text.old ++ string_byte byte) }
{
    if is_plain(byte) {
        push_ascii(text, byte)
    } else {
        push_ascii(text, b'\\')?;
        push_hex(text, byte)
    }
}

/// The bytes of a string.
fn push_bytes(text: &mut String, bytes: &[u8]) -> Result<(), AllocError>
    ensures { OnOk result (string_bytes text.new ≡ string_bytes text.old ++ flat_map string_byte bytes.now) }
{
    for byte in bytes {
        push_byte(text, *byte)?;
    }
    Ok(())
}

/// A string.
fn push_string(text: &mut String, bytes: &[u8]) -> Result<(), AllocError>
    ensures { OnOk result (string_bytes text.new ≡ string_bytes text.old ++ string_text bytes.now) }
{
    push_ascii(text, b'"')?;
    push_bytes(text, bytes)?;
    push_ascii(text, b'"')
}

/// A name as a string; two dots follow where it is too long to be shown.
pub fn push_name(text: &mut String, name: &[u8]) -> Result<(), AllocError>
    ensures { OnOk result (string_bytes text.new ≡ string_bytes text.old ++ name_text name.now) }
{
    if name.len() > SHOWN {
        let (shown, _others) = name.split_at(SHOWN);
        push_string(text, shown)?;
        text.push_str("..")
    } else {
        push_string(text, name)
    }
}
