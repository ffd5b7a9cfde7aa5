//! Bytes between marks.
ghost use Rattle.std.specs.Prelude.{◌≡◌, count_by};
ghost use Rattle.batch_text.specs.Reading.{SplitsBefore, is_mark};

/// The bytes before the first mark, and the rest, which is empty where there is no mark.
pub fn split_before(text: &[u8], mark: u8) -> (&[u8], &[u8])
    ensures { SplitsBefore mark text.now result.0.now result.1.now }
{
    let end = text.iter().position(|byte| *byte == mark);
    text.split_at(end.unwrap_or(text.len()))
}

/// How many marks a text has.
pub(crate) fn count_marks(text: &[u8], mark: u8) -> usize
    ensures { result ≡ count_by (is_mark mark) text.now }
{
    let mut count = 0;
    for byte in text {
        if *byte == mark {
            count += 1;
        }
    }
    count
}
