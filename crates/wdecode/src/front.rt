ghost use Rattle.std.specs.Prelude.{◌≡◌, ◌<◌, ℕ, List, ◌∷◌, length};
ghost use Rattle.wdecode.specs.declared.section.TheConstants.{DATA_SECTION};
ghost use Rattle.wsyntax.specs.Modules.{module_shape};

use crate::fault::Fault;
use crate::module::{Progress, advance, only_customs};
use crate::rule::{SegmentRule, each_passes};
use crate::values::blob_at;
use std::alloc::Global as Alloc;
use wsyntax::Module;

/// A module but for its data segments, and the bytes from their section on.
#[derive(Drop)]
pub struct ModuleHead<'a> {
    /// All that the sections before say; it has no data segments.
    pub module: Module<'a>,
    /// The id of the last section that was read, custom ones aside.
    pub(crate) last: u8,
    /// The bytes from the data section on; none where the module has no such section.
    pub(crate) rest: &'a [u8],
    ghost without: { length (module_shape «module»).segments ≡ 0 },
    ghost early: { last < DATA_SECTION },
    ghost next: { (id : ℕ) (tail : List ℕ) → rest.now ≡ id ∷ tail → id ≡ DATA_SECTION },
}

impl<'a> ModuleHead<'a> {
    ghost use Rattle.std.specs.Prelude.{◌↔◌, IsTrue, IsErrOf, IfOk, All};
    ghost use Rattle.wsyntax.specs.Modules.{DataShape};
    ghost use Rattle.wdecode.specs.Fronts.{with_segments, EndsFront};

    /// The whole module, its data segments kept.
    pub fn whole(self, alloc: Alloc) -> Result<Module<'a>, Fault>
        ensures found { IfOk result (λ m. (segments : List DataShape) × EndsFront self.entry segments
            × (module_shape m ≡ with_segments (module_shape self.entry.module) segments)) }
        ensures malformed { IsErrOf result Fault.Malformed → (segments : List DataShape) → EndsFront self.entry segments → ⊥ }
    {
        let ModuleHead { module, last, rest } = self;
        let end = advance(alloc, Progress { module, last, rest }, false)?;
        Ok(end.module)
    }

    /// Reads the data segments one after the other, keeps none, and says whether the rule accepts all of them. Sections
    /// after them are read too, which can only be custom ones.
    pub fn segments_pass<R: SegmentRule>(&self, alloc: Alloc, rule: &R) -> Result<bool, Fault>
        ensures found { IfOk result (λ b. (segments : List DataShape) × EndsFront self.now segments
            × (IsTrue b ↔ All (R.holds rule.now) segments)) }
        ensures malformed { IsErrOf result Fault.Malformed → (segments : List DataShape) → EndsFront self.now segments → ⊥ }
    {
        let [_id, rest @ ..] = self.rest else {
            return Ok(true);
        };
        let (segments, after) = blob_at(rest)?;
        let pass = each_passes(alloc, rule, segments)?;
        only_customs(alloc, after)?;
        Ok(pass)
    }
}
