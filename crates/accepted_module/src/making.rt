ghost use Rattle.std.specs.Prelude.{◌≡◌, IfOk};
ghost use Rattle.wsyntax.specs.Modules.{module_shape};
ghost use Rattle.accepted_module.specs.Judgement.{IsJudged};
ghost use Rattle.accepted_module.specs.Small.{IsSmall};
ghost use Rattle.soundness.specs.Instances.{SegmentsAreBytes};

use crate::accepted::Accepted;
use crate::exports::positions_by_name;
use crate::floats::module_has_floats;
use crate::initial_state::InitialState;
use crate::shapes::layouts_of_frames;
use crate::type_ids::ids_of_types;
use checked_body::CheckedBody;
use std::alloc::{AllocError, Global};
use wcontext::Context;
use wsyntax::Module;

impl<'a> Accepted<'a> {
    /// A module that passed, with its context and its checked bodies. What its holders ask for is computed here, once.
    pub fn of(
        alloc: Global,
        module: Module<'a>,
        context: Context,
        bodies: Vec<CheckedBody>,
    ) -> Result<Accepted<'a>, AllocError>
        requires judged { IsJudged (module_shape «module») context bodies.items }
        requires filled { SegmentsAreBytes (module_shape «module») }
        requires small { IsSmall (module_shape «module») bodies.items }
        ensures { IfOk result (λ a. (a.«module» ≡ «module».entry) × (a.context ≡ context) × (a.bodies ≡ bodies)) }
    {
        let by_name = positions_by_name(alloc, &module.exports)?;
        let type_ids = ids_of_types(alloc, &module.types)?;
        let shapes = layouts_of_frames(
            alloc,
            &module.types,
            &type_ids,
            &module.functions,
            &bodies,
        )?;
        let layout = InitialState::of(alloc, &module)?;
        let uses_floats = module_has_floats(&module, &bodies);
        Ok(Accepted {
            module,
            context,
            bodies,
            shapes,
            by_name,
            uses_floats,
            type_ids,
            layout,
        })
    }
}
