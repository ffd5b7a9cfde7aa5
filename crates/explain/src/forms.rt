//! Of which other form bytes are that are no module, by how they begin.
ghost use Rattle.std.specs.Prelude.{◌≡◌, IfSome, IsSomeAnd, IsTrue, option_map};
ghost use Rattle.explain.specs.Forms.{AreSameAfterBlanks, BeginsField, BeginsJson, BeginsMarkup, BeginsText, BeginsUtf16, BeginsValue};
ghost use Rattle.explain.specs.Forms.{HasForm, IsText, first_bytes as bytes_of};
ghost use Rattle.explain_text.specs.Texts.{BeginsWith};

use explanation::Form;

/// The forms of files that begin with bytes of their own.
const FORMS: [Form; 11] = [
    Form::Component,
    Form::Gzip,
    Form::Xz,
    Form::Zstd,
    Form::Zip,
    Form::Elf,
    Form::Objects,
    Form::Bitcode,
    Form::Base64,
    Form::LfsPointer,
    Form::ByteOrderMark,
];

/// How files of the form begin, where all of them begin with these bytes.
fn first_bytes(form: Form) -> Option<&'static [u8]>
    ensures { option_map (λ b. b.now) result ≡ bytes_of form }
{
    match form {
        Form::Component => Some(b"\0asm\x0D\0\x01\0"),
        Form::Gzip => Some(b"\x1F\x8B"),
        Form::Xz => Some(b"\xFD7zXZ\0"),
        Form::Zstd => Some(b"\x28\xB5\x2F\xFD"),
        Form::Zip => Some(b"PK\x03\x04"),
        Form::Elf => Some(b"\x7FELF"),
        Form::Objects => Some(b"!<arch>\n"),
        Form::Bitcode => Some(b"BC\xC0\xDE"),
        Form::Base64 => Some(b"AGFzbQ"),
        Form::LfsPointer => Some(b"version https://git-lfs"),
        Form::ByteOrderMark => Some(b"\xEF\xBB\xBF"),
        Form::Utf16 | Form::Text | Form::Markup | Form::Json => None,
    }
}

/// Whether the bytes begin with these.
fn begins_with(bytes: &[u8], front: &[u8]) -> bool
    ensures { IsTrue result → BeginsWith front.now bytes.now }
{
    bytes.starts_with(front)
}

/// Whether the bytes begin with those of that form.
fn has_first_bytes(bytes: &[u8], form: Form) -> bool
    ensures { IsTrue result → IsSomeAnd (bytes_of form) (λ front. BeginsWith front bytes.now) }
{
    match first_bytes(form) {
        Some(front) => begins_with(bytes, front),
        None => false,
    }
}

/// The bytes from the first on that is no blank.
fn after_blanks(bytes: &[u8]) -> &[u8]
    ensures { AreSameAfterBlanks bytes.now result.now }
{
    let mut rest = bytes;
    for _ in 0..bytes.len() {
        match rest {
            [b' ' | b'\t' | b'\n' | b'\r', tail @ ..] => rest = tail,
            _ => return rest,
        }
    }
    rest
}

/// Whether bytes begin a field of the text format, a comment or an annotation: by a letter, a semicolon or an @.
fn begins_field(bytes: &[u8]) -> bool
    ensures { IsTrue result → BeginsField bytes.now }
{
    matches!(bytes, [b'a'..=b'z' | b'A'..=b'Z' | b';' | b'@', ..])
}

/// Whether bytes begin the text format (6.3): by a parenthesis and a field, or by the two characters of a comment.
fn begins_text(bytes: &[u8]) -> bool
    ensures { IsTrue result → BeginsText bytes.now }
{
    match bytes {
        [b';', b';', ..] => true,
        [b'(', rest @ ..] => begins_field(after_blanks(rest)),
        _ => false,
    }
}

/// Whether bytes begin a web page or other markup: by `<`, and a letter, `!` or `?`.
fn begins_markup(bytes: &[u8]) -> bool
    ensures { IsTrue result → BeginsMarkup bytes.now }
{
    matches!(bytes, [b'<', b'a'..=b'z' | b'A'..=b'Z' | b'!' | b'?', ..])
}

/// Whether bytes begin a key or a value of JSON, or end what holds them.
fn begins_value(bytes: &[u8]) -> bool
    ensures { IsTrue result → BeginsValue bytes.now }
{
    matches!(bytes, [b'"' | b'{' | b'[' | b'}' | b']' | b'0'..=b'9', ..])
}

/// Whether bytes begin JSON: by a brace or a bracket, and what may follow it.
fn begins_json(bytes: &[u8]) -> bool
    ensures { IsTrue result → BeginsJson bytes.now }
{
    match bytes {
        [b'{' | b'[', rest @ ..] => begins_value(after_blanks(rest)),
        _ => false,
    }
}

/// Whether bytes begin text in UTF-16: by its byte order mark.
fn begins_utf16(bytes: &[u8]) -> bool
    ensures { IsTrue result → BeginsUtf16 bytes.now }
{
    matches!(bytes, [0xFF, 0xFE, ..] | [0xFE, 0xFF, ..])
}

/// The form of text that the bytes have.
fn text_form_of(bytes: &[u8]) -> Option<Form>
    ensures { IfSome result (IsText bytes.now) }
{
    let rest = after_blanks(bytes);
    if begins_text(rest) {
        Some(Form::Text)
    } else if begins_markup(rest) {
        Some(Form::Markup)
    } else if begins_json(rest) {
        Some(Form::Json)
    } else if begins_utf16(bytes) {
        Some(Form::Utf16)
    } else {
        None
    }
}

/// The other form that the bytes have.
pub(crate) fn form_of(bytes: &[u8]) -> Option<Form>
    ensures { IfSome result (HasForm bytes.now) }
{
    for form in FORMS {
        if has_first_bytes(bytes, form) {
            return Some(form);
        }
    }
    text_form_of(bytes)
}
