//! Which import an imported item is of.
ghost use Rattle.std.specs.Prelude.{◌≡◌, IfSome, map};
ghost use Rattle.explain_rules.specs.Rules.{IsImportOf, adds};

use wsyntax::{ExportKind, Import, ImportKind};

/// Whether an import is of that kind.
fn is_of_kind(import: ImportKind, kind: ExportKind) -> bool
    ensures { result ≡ adds kind import }
{
    match (kind, import) {
        (ExportKind::Function, ImportKind::Function(_))
        | (ExportKind::Table, ImportKind::Table(_))
        | (ExportKind::Memory, ImportKind::Memory(_))
        | (ExportKind::Global, ImportKind::Global(_)) => true,
        _ => false,
    }
}

/// The position of the import that adds the item of that index to the space of that kind.
pub(crate) fn import_of(imports: &[Import<'_>], kind: ExportKind, index: usize) -> Option<usize>
    ensures { IfSome result (IsImportOf (map (λ i. i.kind) imports.now) kind index) }
{
    let mut left = index;
    for (position, import) in imports.iter().enumerate() {
        if is_of_kind(import.kind, kind) {
            if left == 0 {
                return Some(position);
            }
            left -= 1;
        }
    }
    None
}
