ghost use Rattle.wsyntax.specs.Modules.{module_shape};
ghost use Rattle.soundness.specs.Instances.{Judged};
ghost use Rattle.accepted_module.specs.Judgement.{shapes_of};

use accepted_module::Accepted;

/// The law that an accepted module is one that was judged: no rule is broken, and each function has its body, which is
/// typed. So the laws on the execution of judged modules hold of its instances.
pub fn accepted_is_judged(accepted: &Accepted<'_>)
    ensures { ∥ Judged (module_shape accepted.now.module) (shapes_of accepted.now.bodies.items) ∥₁ }
{
    accepted.accepted_holds();
}
