//! What validation says of execution: the instance of a module that was judged, its fresh store and its calls.

ghost use Rattle.soundness.specs.Instances.{CallsAreSafe, CallsTyped, OneInstance, StartIsPlain, StartsTyped};
ghost use Rattle.soundness.specs.Sole.{SoleInstantiated};

/// A module that was judged has one run-time module, which is typed.
pub fn one_instance()
    ensures { OneInstance }
{}

/// Where no instance is refused, the layout and the fresh store are typed.
pub fn starts_typed()
    ensures { StartsTyped }
{}

/// The start function has no parameters, and ends in no values.
pub fn start_is_plain()
    ensures { StartIsPlain }
{}

/// A call with arguments of its type is typed, on the fresh store and on the one that the start function leaves.
pub fn calls_typed()
    ensures { CallsTyped }
{}

/// Such a call is never stuck, ends, and gives values of its type.
pub fn calls_are_safe()
    ensures { CallsAreSafe }
{}

/// There is a module that was judged, and an instance of it.
pub fn sole_instantiated()
    ensures { SoleInstantiated }
{}
