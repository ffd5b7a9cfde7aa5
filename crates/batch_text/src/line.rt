use wsyntax::{Outcome, StartRefusal};

/// How a call ended: a line of the report.
#[derive(Drop, PartialEq, Eq)]
pub enum Line {
    /// It was run, at the cost of `fuel`, that of the start function included.
    Ran { outcome: Outcome, fuel: u32 },
    /// No export has the name.
    NoExport,
    /// The export of the name is no function.
    NotAFunction,
    /// The arguments are not of the function's parameter types.
    BadArguments,
    /// No instance was made.
    NotStarted(StartRefusal),
    /// A growth of memory was refused.
    NoMemory,
}
