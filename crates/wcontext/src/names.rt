//! Whether the names of exports are distinct. They are sorted, so that the time is near linear in their length whatever they are.
ghost use Rattle.std.specs.Prelude.{◌≡◌, ◌↔◌, ◌≢◌, IsTrue, IfOk, OnOk, AllPairs, map};

use std::alloc::{AllocError, Global};
use wsyntax::Export;

/// Room for the names of exports.
#[derive(Drop)]
pub struct NameRoom<'a> {
    names: Vec<&'a [u8]>,
}

impl<'a> NameRoom<'a> {
    /// Room for that many names.
    pub fn with_capacity(alloc: Global, names: usize) -> Result<Self, AllocError> {
        Ok(NameRoom {
            names: Vec::with_capacity(alloc, names)?,
        })
    }

    /// Puts the names of exports, in order, in place of what was held.
    fn put_all(&mut self, exports: &[Export<'a>]) -> Result<(), AllocError>
        ensures { OnOk result (self.new.names.items ≡ map (λ e. e.name) exports.now) }
    {
        self.names.clear();
        self.names.reserve_exact(exports.len())?;
        for export in exports {
            self.names.push(export.name)?;
        }
        Ok(())
    }
}

/// Whether the names of exports are distinct. What the room held is gone.
pub fn are_distinct<'a>(room: &mut NameRoom<'a>, exports: &[Export<'a>]) -> Result<bool, AllocError>
    ensures { IfOk result (λ b. IsTrue b ↔ AllPairs (λ x y. x.name.now ≢ y.name.now) exports.now) }
{
    room.put_all(exports)?;
    room.names.sort_unstable();
    Ok(room.names.is_sorted_by(|one, next| one != next))
}
