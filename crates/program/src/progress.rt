//! How far the program is, for whoever waits.
use std::io;
use std::io::Write;

/// How many lines stand between two reports; more, where more are written at once.
const LINES: u64 = 1_000;

/// How many lines were written, and how many there were at the last report.
#[derive(Clone, Copy)]
struct LineCount {
    written: u64,
    told: u64,
}

impl LineCount {
    /// Counts the lines that end in these bytes, and reports where there are enough. A report that fails changes nothing.
    fn count<E: Write>(&mut self, bytes: &[u8], err: &mut E) {
        let more = bytes.iter().filter(|byte| **byte == b'\n').count() as u64;
        self.written = self.written.saturating_add(more);
        if self.written.saturating_sub(self.told) >= LINES {
            self.told = self.written;
            let _ = writeln!(err, "gate: {} lines", self.written);
        }
    }
}

/// Hands on what is written to `out`, and reports to `err` how many lines that was.
#[derive(Drop)]
pub struct ProgressWriter<O, E> {
    out: O,
    err: E,
    lines: LineCount,
}

impl<O: Write, E: Write> ProgressWriter<O, E> {
    ghost use Rattle.std.specs.Prelude.{◌≡◌};

    /// Nothing is written yet.
    pub fn new(out: O, err: E) -> Self
        ensures { O.contents result.out ≡ O.contents out }
    {
        let lines = LineCount {
            written: 0,
            told: 0,
        };
        ProgressWriter { out, err, lines }
    }
}

impl<O: Write, E: Write> Write for ProgressWriter<O, E> {
    ghost contents = { λ p. O.contents p.out };

    fn write(&mut self, buf: &[u8]) -> io::Result<usize> {
        let taken = self.out.write(buf)?;
        self.lines.count(&buf[..taken], &mut self.err);
        Ok(taken)
    }

    fn flush(&mut self) -> io::Result<()> {
        self.out.flush()
    }
}
