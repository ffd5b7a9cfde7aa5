//! What an instance exports, by name.

ghost use Rattle.std.specs.Prelude.{◌≡◌};
ghost use Rattle.wstore.specs.ExportedGlobals.{IsGlobalOf};
ghost use Rattle.wstore.specs.Views.{module_in, store_in};

use crate::instance::Instance;
use wsyntax::{ExportKind, Value};

impl<'a> Instance<'a> {
    /// The value of the global that is exported under that name. `None` exactly where no global is.
    pub fn exported_global(&self, name: &[u8]) -> Option<Value>
        ensures { IsGlobalOf (module_in self.now) (store_in self.now) name.now result }
    {
        self.accepted.accepted_holds();
        let (kind, x) = self.accepted.export(name)?;
        let ExportKind::Global = kind else {
            return None;
        };
        Some(self.global(x))
    }
}
