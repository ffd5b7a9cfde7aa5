//! How a call ended, as the fields of `gate_call` of gate.h.

ghost use Rattle.std.specs.Prelude.{◌≡◌};
ghost use Rattle.c_api.specs.Ends.{trap_code, refusal_code, segment_of, outcome_fields, end_fields};

use batch_text::{Line, Outcome, StartRefusal};
use wnum::NumTrap;
use wsyntax::Trap;

// The numbers of `gate_end` of gate.h.
const END_VALUES: u32 = 0;

const END_TRAP: u32 = 1;

const END_OUT_OF_FUEL: u32 = 2;

const END_OUT_OF_FRAMES: u32 = 3;

const END_NO_EXPORT: u32 = 4;

const END_NOT_A_FUNCTION: u32 = 5;

const END_BAD_ARGUMENTS: u32 = 6;

const END_NOT_STARTED: u32 = 7;

const END_NO_MEMORY: u32 = 8;

/// How a call ended.
#[repr(C)]
#[derive(Clone, Copy)]
pub struct GateCall {
    /// One of the numbers of `gate_end`.
    pub end: u32,
    /// Of a trap and of a call that was not started, else 0.
    pub reason: u32,
    /// The position of the segment that lies outside, else 0.
    pub place: u32,
    /// What the call cost, the start function included; 0 where nothing ran.
    pub fuel: u32,
    /// How many values there are.
    pub results: u64,
}

const _: () = prove!(size_of::<GateCall>() == 24 && align_of::<GateCall>() == 8);

/// The code of a trap, as `gate_trap` of gate.h has it.
fn code_of_trap(trap: Trap) -> u32
    ensures { result ≡ trap_code trap }
{
    match trap {
        Trap::Unreachable => 0,
        Trap::OutOfBounds => 1,
        Trap::UndefinedElement => 2,
        Trap::UninitializedElement => 3,
        Trap::TypeMismatch => 4,
        Trap::ByOperator(NumTrap::DivideByZero) => 5,
        Trap::ByOperator(NumTrap::IntegerOverflow) => 6,
    }
}

/// The code of a refusal, as `gate_not_started` of gate.h has it, and the segment that lies outside, else 0.
fn fields_of_refusal(refusal: StartRefusal) -> (u32, u32)
    ensures reason { result.0 ≡ refusal_code refusal }
    ensures place { result.1 ≡ segment_of refusal }
{
    match refusal {
        StartRefusal::HasImports => (0, 0),
        StartRefusal::HasFloats => (1, 0),
        StartRefusal::TableLimit => (2, 0),
        StartRefusal::MemoryLimit => (3, 0),
        StartRefusal::ElementOutside(segment) => (4, segment),
        StartRefusal::DataOutside(segment) => (5, segment),
    }
}

impl GateCall {
    ghost use Rattle.c_api.specs.Beginnings.{begun_fields};

    /// An end with these fields, in their order.
    fn new(end: u32, reason: u32, place: u32, fuel: u32, results: u64) -> GateCall
        ensures end { result.end ≡ end }
        ensures reason { result.reason ≡ reason }
        ensures place { result.place ≡ place }
        ensures fuel { result.fuel ≡ fuel }
        ensures results { result.results ≡ results }
    {
        GateCall {
            end,
            reason,
            place,
            fuel,
            results,
        }
    }

    /// A start function that ended well, or that there is none.
    pub(crate) fn begun(fuel: u32) -> GateCall
        ensures { result ≡ begun_fields fuel }
    {
        GateCall::new(END_VALUES, 0, 0, fuel, 0)
    }

    /// The end of a call that ran and came to this.
    fn of_outcome(outcome: &Outcome, fuel: u32) -> GateCall
        ensures { result ≡ outcome_fields outcome.now fuel }
    {
        match outcome {
            Outcome::Values(values) => GateCall::new(END_VALUES, 0, 0, fuel, values.len() as u64),
            Outcome::Trapped(trap) => GateCall::new(END_TRAP, code_of_trap(*trap), 0, fuel, 0),
            Outcome::OutOfFuel => GateCall::new(END_OUT_OF_FUEL, 0, 0, fuel, 0),
            Outcome::OutOfFrames => GateCall::new(END_OUT_OF_FRAMES, 0, 0, fuel, 0),
        }
    }

    /// How a call ended.
    pub(crate) fn of(line: &Line) -> GateCall
        ensures { result ≡ end_fields line.now }
    {
        match line {
            Line::Ran { outcome, fuel } => GateCall::of_outcome(outcome, *fuel),
            Line::NoExport => GateCall::new(END_NO_EXPORT, 0, 0, 0, 0),
            Line::NotAFunction => GateCall::new(END_NOT_A_FUNCTION, 0, 0, 0, 0),
            Line::BadArguments => GateCall::new(END_BAD_ARGUMENTS, 0, 0, 0, 0),
            Line::NotStarted(refusal) => {
                let (reason, place) = fields_of_refusal(*refusal);
                GateCall::new(END_NOT_STARTED, reason, place, 0, 0)
            }
            Line::NoMemory => GateCall::new(END_NO_MEMORY, 0, 0, 0, 0),
        }
    }
}
