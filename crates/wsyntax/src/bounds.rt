ghost use Rattle.std.specs.Prelude.{◌≡◌};
ghost use Rattle.wsyntax.specs.Binary.Shell.{module_limit, local_limit};
ghost use Rattle.wsyntax.specs.Validation.Rules.{page_range};
ghost use Rattle.wsyntax.specs.Execution.Store.{page};
ghost use Rattle.wsyntax.specs.Execution.Start.{table_limit};
ghost use Rattle.wsyntax.specs.Texts.Calls.{calls_limit, line_limit};
ghost use Rattle.wsyntax.specs.Texts.Answer.{fuel_limit, frames_limit, pages_limit};

/// The most bytes of a module.
pub const MODULE_LIMIT: usize = 16_777_216;

/// The most declared locals of a body, parameters aside.
pub const LOCAL_LIMIT: u32 = 100_000;

/// The most bytes of a text of calls.
pub const CALLS_LIMIT: usize = 4_194_304;

/// The most lines of a text of calls.
pub const LINE_LIMIT: usize = 100_000;

/// The bytes of a page (4.2.8).
pub const PAGE: usize = 65_536;

/// The most pages that the type of a memory may say (3.2.4).
pub const PAGE_RANGE: u32 = 65_536;

/// The most entries that the table of an instance may have.
pub const TABLE_LIMIT: u32 = 65_536;

/// The most units of fuel that a call may have.
pub const FUEL_LIMIT: u32 = 1_000_000_000;

/// The most frames that a call may have.
pub const FRAMES_LIMIT: u32 = 4_096;

/// The most pages that a call may let a memory have.
pub const PAGES_LIMIT: u32 = 1_024;

/// The limits of the code are those of the definitions.
pub fn limits_are_defined()
    ensures module { MODULE_LIMIT ≡ module_limit }
    ensures locals { LOCAL_LIMIT ≡ local_limit }
    ensures calls { CALLS_LIMIT ≡ calls_limit }
    ensures lines { LINE_LIMIT ≡ line_limit }
    ensures page { PAGE ≡ page }
    ensures range { PAGE_RANGE ≡ page_range }
    ensures table { TABLE_LIMIT ≡ table_limit }
    ensures fuel { FUEL_LIMIT ≡ fuel_limit }
    ensures frames { FRAMES_LIMIT ≡ frames_limit }
    ensures pages { PAGES_LIMIT ≡ pages_limit }
{}
