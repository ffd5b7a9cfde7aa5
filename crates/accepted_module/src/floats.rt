//! Where floats stand: a module that mentions f32 or f64 is not run.
ghost use Rattle.std.specs.Prelude.{◌≡◌, map};
ghost use Rattle.wsyntax.specs.Modules.{global_shape, module_shape};
ghost use Rattle.wsyntax.specs.Validation.Rules.{GlobalsConstant, ElementsValid, SegmentsValid};
ghost use Rattle.wsyntax.specs.Execution.Start.{any, type_has_floats, body_has_floats, has_floats};
ghost use Rattle.accepted_module.specs.Floats.{global_has_floats, declarations_have_floats};
ghost use Rattle.accepted_module.specs.Judgement.{shapes_of};

use checked_body::{CheckedBody, is_float, type_has_floats};
use wsyntax::{FuncTypes, Global, Module};

fn types_have_floats(types: &FuncTypes) -> bool
    ensures { result ≡ any type_has_floats types.now }
{
    for index in 0..types.len() {
        let Some(of_type) = types.get(index) else {
            unreachable!()
        };
        if type_has_floats(of_type) {
            return true;
        }
    }
    false
}

fn globals_have_floats(globals: &[Global<'_>]) -> bool
    ensures { result ≡ any global_has_floats (map global_shape globals.now) }
{
    globals
        .iter()
        .any(|global| is_float(global.global_type.val_type))
}

/// Whether a function type, a global or a segment of a valid module is of a float type, or an instruction there. The
/// types alone tell: a first value is a constant expression of its global's type, and an offset is one of type i32.
fn declarations_have_floats(module: &Module<'_>) -> bool
    requires globals { GlobalsConstant (module_shape «module».now) }
    requires elements { ElementsValid (module_shape «module».now) }
    requires segments { SegmentsValid (module_shape «module».now) }
    ensures { result ≡ declarations_have_floats (module_shape «module».now) }
{
    types_have_floats(&module.types) || globals_have_floats(&module.globals)
}

fn bodies_have_floats(bodies: &[CheckedBody]) -> bool
    ensures { result ≡ any body_has_floats (shapes_of bodies.now) }
{
    bodies.iter().any(|body| body.has_floats())
}

/// Whether a valid module with these bodies mentions a float.
pub(crate) fn module_has_floats(module: &Module<'_>, bodies: &[CheckedBody]) -> bool
    requires globals { GlobalsConstant (module_shape «module».now) }
    requires elements { ElementsValid (module_shape «module».now) }
    requires segments { SegmentsValid (module_shape «module».now) }
    ensures { result ≡ has_floats (module_shape «module».now) (shapes_of bodies.now) }
{
    declarations_have_floats(module) || bodies_have_floats(bodies)
}
