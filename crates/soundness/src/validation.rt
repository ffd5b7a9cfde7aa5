//! What holds of the typing rules and of the algorithm that decides them.

ghost use Rattle.soundness.specs.Rules.{RuleBack, SameRules};
ghost use Rattle.wsyntax.specs.Validation.Inference.{RulesAgree};
ghost use Rattle.wsyntax.specs.Validation.Laws.{AcceptedIsTyped, Composes, FaultInside, OneFault, ReachedIsKnown};
ghost use Rattle.wsyntax.specs.Validation.Laws.{RefusedAtFirstFault, RunsDecide, Splits, TypedIsAccepted, TypedOrFault};
ghost use Rattle.wsyntax.specs.Validation.Laws.{TypedWhereNoFault, UniqueTree};

/// A body that the algorithm accepts is typed.
pub fn accepted_is_typed()
    ensures { AcceptedIsTyped }
{}

/// A typed body is accepted.
pub fn typed_is_accepted()
    ensures { TypedIsAccepted }
{}

/// The token that is refused is the first fault.
pub fn refused_at_first_fault()
    ensures { RefusedAtFirstFault }
{}

/// A body is typed exactly where it has no first fault.
pub fn typed_where_no_fault()
    ensures { TypedWhereNoFault }
{}

/// A body is typed, or it has a first fault.
pub fn typed_or_fault()
    ensures { TypedOrFault }
{}

/// A body has at most one first fault.
pub fn one_fault()
    ensures { OneFault }
{}

/// The first fault is one of the body's tokens.
pub fn fault_inside()
    ensures { FaultInside }
{}

/// The verdict is that of the frames, token by token.
pub fn runs_decide()
    ensures { RunsDecide }
{}

/// Sequences compose as the rule of the standard says.
pub fn composes()
    ensures { Composes }
{}

/// The type of a sequence is that of its parts.
pub fn splits()
    ensures { Splits }
{}

/// Where the code can be reached, the type of each operand is known.
pub fn reached_is_known()
    ensures { ReachedIsKnown }
{}

/// A body's tokens are those of one tree.
pub fn unique_tree()
    ensures { UniqueTree }
{}

/// What is typed by clauses and by recursion is what the rules of inference type.
pub fn rules_agree()
    ensures { RulesAgree }
{}

/// An instruction that has a rule of the algorithm is typed as the rule says.
pub fn rule_back()
    ensures { RuleBack }
{}

/// Rules and typing are the same under contexts that say the same.
pub fn same_rules()
    ensures { SameRules }
{}
