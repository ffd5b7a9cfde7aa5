//! What holds of values, stores, configurations and chains of steps.

ghost use Rattle.soundness.specs.Exact.{ResultsAreExact};
ghost use Rattle.soundness.specs.Leads.{EffectLeads, TeeTakesTwo};
ghost use Rattle.soundness.specs.Pair.{PairTyped};
ghost use Rattle.soundness.specs.Slots.{EffectIsStep, StraightTyped, TeeIsSet};
ghost use Rattle.soundness.specs.State.{BranchLands, FramesStand, ReturnEnds, ReturnGives, StateTyped, StepsThere, TrapFalls};
ghost use Rattle.wsyntax.specs.Execution.Allocation.{FreshTyped};
ghost use Rattle.wsyntax.specs.Execution.Laws.{CheckedIsTyped, Computed, CountsAdd, Joins, NeverStuck, OneEnd, OneOfThree};
ghost use Rattle.wsyntax.specs.Execution.Laws.{OneStep, Paid, Preservation, Progress, ResultsTyped, StoreKept};
ghost use Rattle.wsyntax.specs.Execution.Layers.{BranchTaken, ReturnTaken, StepsInside};
ghost use Rattle.wsyntax.specs.Execution.Weight.{EndExists, Lighter};

/// A configuration makes at most one step.
pub fn one_step()
    ensures { OneStep }
{}

/// A step keeps the type of a configuration.
pub fn preservation()
    ensures { Preservation }
{}

/// A typed configuration is not stuck.
pub fn progress()
    ensures { Progress }
{}

/// A typed configuration steps, or is values alone, or a trap alone.
pub fn one_of_three()
    ensures { OneOfThree }
{}

/// Every configuration that a chain from a call reaches is typed and not stuck.
pub fn never_stuck()
    ensures { NeverStuck }
{}

/// A call that ends in values ends in words of its result types.
pub fn results_typed()
    ensures { ResultsTyped }
{}

/// A call leaves a typed store.
pub fn store_kept()
    ensures { StoreKept }
{}

/// A call ends in one way.
pub fn one_end()
    ensures { OneEnd }
{}

/// What is charged and what is left are the fuel.
pub fn paid()
    ensures { Paid }
{}

/// One run after another is a run.
pub fn joins()
    ensures { Joins }
{}

/// What is charged and what is work add up.
pub fn counts_add()
    ensures { CountsAdd }
{}

/// What the bounded run computes is a chain within the limits to such an end.
pub fn computed()
    ensures { Computed }
{}

/// A step at the innermost level is a step of the whole.
pub fn steps_inside()
    ensures { StepsInside }
{}

/// A branch passes the inner labels and goes on with the continuation of its own.
pub fn branch_taken()
    ensures { BranchTaken }
{}

/// A return passes every label and leaves the frame.
pub fn return_taken()
    ensures { ReturnTaken }
{}

/// The store of a fresh instance is typed.
pub fn fresh_typed()
    ensures { FreshTyped }
{}

/// A step that is not charged makes the work lighter.
pub fn lighter()
    ensures { Lighter }
{}

/// A typed call ends, within any limits.
pub fn end_exists()
    ensures { EndExists }
{}

/// There is a typed module, and a typed call of it.
pub fn pair_typed()
    ensures { PairTyped }
{}

/// What the algorithm accepts is typed, and so never stuck.
pub fn checked_is_typed()
    ensures { CheckedIsTyped }
{}

/// Taking results modulo 2^N changes none of them.
pub fn results_are_exact()
    ensures { ResultsAreExact }
{
    wnum::operators_stay_in_range();
}

/// A step of what stands in the labels of the running activation is a step of the whole.
pub fn steps_there()
    ensures { StepsThere }
{}

/// A branch lands in an activation with the labels outside its own.
pub fn branch_lands()
    ensures { BranchLands }
{}

/// A return gives its topmost values to the activation that waits.
pub fn return_gives()
    ensures { ReturnGives }
{}

/// The last return leaves values alone.
pub fn return_ends()
    ensures { ReturnEnds }
{}

/// A trap passes everything around it, in steps that are neither charged nor work.
pub fn trap_falls()
    ensures { TrapFalls }
{}

/// One frame stands for each activation.
pub fn frames_stand()
    ensures { FramesStand }
{}

/// What the type of a configuration says of the running activation.
pub fn state_typed()
    ensures { StateTyped }
{}

/// Slots need no tags: on typed values the effect on the numbers is the step.
pub fn effect_is_step()
    ensures { EffectIsStep }
{}

/// The effect of `local.tee` is that of `local.set` on the operand twice.
pub fn tee_is_set()
    ensures { TeeIsSet }
{}

/// What an instruction leaves has its types, whatever code follows.
pub fn straight_typed()
    ensures { StraightTyped }
{}

/// `local.tee` is two steps, the second of which is work.
pub fn tee_takes_two()
    ensures { TeeTakesTwo }
{}

/// A configuration goes where the effect of its instruction says.
pub fn effect_leads()
    ensures { EffectLeads }
{}
