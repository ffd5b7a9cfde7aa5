//! What loads and stores say of their accesses (2.4.4).
ghost use Rattle.std.specs.Prelude.{◌≡◌, ◌≤◌, ◌^◌, ℕ};
ghost use Rattle.wsyntax.specs.Table.{load_access, store_access};

use crate::instructions::{Load, Store};
use crate::types::ValType::{self, F32, F64, I32, I64};

/// What a load or a store says of its access, the immediates apart (2.4.4).
#[derive(Clone, Copy, PartialEq, Eq)]
pub struct AccessRow {
    /// The type of the value that is loaded or stored.
    pub of_type: ValType,
    /// The exponent of the bytes in memory, which that of the alignment may not exceed.
    pub natural: u32,
}

#[inline(always)]
fn access(of_type: ValType, natural: u32) -> AccessRow
    ensures { result ≡ record { of_type = of_type; natural = natural } }
{
    AccessRow { of_type, natural }
}

impl Load {
    /// The load's row in the table of accesses.
    #[inline(always)]
    pub fn row(self) -> AccessRow
        ensures of_type { (align offset : ℕ) → (load_access self align offset).of_type ≡ result.of_type }
        ensures width { (align offset : ℕ) → (load_access self align offset).width ≡ 2 ^ result.natural }
        ensures aligned { (align offset : ℕ) → (load_access self align offset).align ≡ align }
        ensures narrow { result.natural ≤ 3 }
    {
        match self {
            Load::I32Load => access(I32, 2),
            Load::I64Load => access(I64, 3),
            Load::F32Load => access(F32, 2),
            Load::F64Load => access(F64, 3),
            Load::I32Load8S | Load::I32Load8U => access(I32, 0),
            Load::I32Load16S | Load::I32Load16U => access(I32, 1),
            Load::I64Load8S | Load::I64Load8U => access(I64, 0),
            Load::I64Load16S | Load::I64Load16U => access(I64, 1),
            Load::I64Load32S | Load::I64Load32U => access(I64, 2),
        }
    }
}

impl Store {
    /// The store's row in the table of accesses.
    #[inline(always)]
    pub fn row(self) -> AccessRow
        ensures of_type { (align offset : ℕ) → (store_access self align offset).of_type ≡ result.of_type }
        ensures width { (align offset : ℕ) → (store_access self align offset).width ≡ 2 ^ result.natural }
        ensures aligned { (align offset : ℕ) → (store_access self align offset).align ≡ align }
        ensures narrow { result.natural ≤ 3 }
    {
        match self {
            Store::I32Store => access(I32, 2),
            Store::I64Store => access(I64, 3),
            Store::F32Store => access(F32, 2),
            Store::F64Store => access(F64, 3),
            Store::I32Store8 => access(I32, 0),
            Store::I32Store16 => access(I32, 1),
            Store::I64Store8 => access(I64, 0),
            Store::I64Store16 => access(I64, 1),
            Store::I64Store32 => access(I64, 2),
        }
    }
}
