//! The definitions computed on small inputs, the answers given beforehand.

ghost use Rattle.soundness.specs.BlockTypes.{IndexedBlocks, IndexedIfs, IndexedLabels, IndexedLoops, SeveralResults};
ghost use Rattle.soundness.specs.Bodies.{ReachedBodies, UnreachedBodies};
ghost use Rattle.soundness.specs.CallTexts.{BadTexts, GoodTexts, LineExamples};
ghost use Rattle.soundness.specs.Counts.{CountExamples};
ghost use Rattle.soundness.specs.EndsOfCalls.{EndExamples};
ghost use Rattle.soundness.specs.Floats.{FloatExamples};
ghost use Rattle.soundness.specs.Growth.{GrowthExamples};
ghost use Rattle.soundness.specs.Instructions.{BlockExamples, BytesExamples, VariableExamples};
ghost use Rattle.soundness.specs.Operators.{OperatorExamples};
ghost use Rattle.soundness.specs.Reports.{EndTexts, ReportExamples, VerdictTexts};
ghost use Rattle.soundness.specs.Samples.{ControlExamples, DivisionExamples, LimitExamples, MemoryExamples, TableExamples};
ghost use Rattle.soundness.specs.SeveralValues.{SeveralExamples, TwoResults};
ghost use Rattle.soundness.specs.Spellings.{BlockTypeReadings, NameSpellings, SignedSpellings, UnsignedSpellings};
ghost use Rattle.soundness.specs.StartFirst.{StartFirstExamples};
ghost use Rattle.soundness.specs.Starts.{FreshExamples, RefusalExamples};
ghost use Rattle.soundness.specs.WholeAnswers.{AnswerExamples};

/// The verdicts of the algorithm on small bodies.
pub fn bodies()
    ensures reached { ReachedBodies }
    ensures unreached { UnreachedBodies }
{}

/// The verdicts of the algorithm on bodies with block types by index, as Core 2.0 has them: parameters, several results,
/// labels of several types, an `if` without `else` that passes its operands, and an index that no type has.
pub fn block_types()
    ensures blocks { IndexedBlocks }
    ensures loops { IndexedLoops }
    ensures ifs { IndexedIfs }
    ensures labels { IndexedLabels }
    ensures functions { SeveralResults }
{}

/// How calls of small functions end.
pub fn calls()
    ensures control { ControlExamples }
    ensures limits { LimitExamples }
    ensures division { DivisionExamples }
    ensures memory { MemoryExamples }
    ensures table { TableExamples }
{}

/// What each instruction does alone.
pub fn instructions()
    ensures variables { VariableExamples }
    ensures bytes { BytesExamples }
    ensures blocks { BlockExamples }
{}

/// How blocks with parameters and several results, branches that carry several values and calls with two results end.
pub fn several_values()
    ensures blocks { SeveralExamples }
    ensures calls { TwoResults }
{}

/// How a memory grows at each of its bounds.
pub fn growth()
    ensures { GrowthExamples }
{}

/// What is charged and what is work.
pub fn counts()
    ensures { CountExamples }
{}

/// The integer operators on values.
pub fn operators()
    ensures { OperatorExamples }
{}

/// Where a module mentions a float.
pub fn floats()
    ensures { FloatExamples }
{}

/// What refuses an instance, and the store of a fresh one.
pub fn starts()
    ensures refusals { RefusalExamples }
    ensures fresh { FreshExamples }
{}

/// The report on calls, and the text of each verdict.
pub fn reports()
    ensures reports { ReportExamples }
    ensures ends { EndTexts }
    ensures verdicts { VerdictTexts }
{}

/// A start function is run first, and its fuel is added.
pub fn start_functions()
    ensures { StartFirstExamples }
{}

/// The lines of a text of calls, and the calls that they say.
pub fn call_texts()
    ensures lines { LineExamples }
    ensures good { GoodTexts }
    ensures bad { BadTexts }
{}

/// Which bytes spell a number, a block type and a name.
pub fn spellings()
    ensures unsigned { UnsignedSpellings }
    ensures signed { SignedSpellings }
    ensures block_types { BlockTypeReadings }
    ensures names { NameSpellings }
{}

/// What a call on its own is refused for first, and its run.
pub fn ends_of_calls()
    ensures { EndExamples }
{}

/// What is answered for the module without sections.
pub fn answers()
    ensures { AnswerExamples }
{}
