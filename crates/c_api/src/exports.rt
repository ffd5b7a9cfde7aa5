//! What C calls.

ghost use Rattle.std.specs.Prelude.{◌≡◌, ◌≢◌, ◌⊎◌, ℕ, List, IfSome, string_bytes};
ghost use Rattle.accepted_module.specs.Kept.{IsAcceptedFrom};
ghost use Rattle.wsyntax.specs.Validation.Verdict.{IsVerdict};
ghost use Rattle.refusal.specs.Refusals.{verdict_of};
ghost use Rattle.c_api.specs.Calls.{AnswersCall, EndsCall};
ghost use Rattle.c_api.specs.Handed.{HandsModule};
ghost use Rattle.c_api.specs.Handles.{IsAnswered};
ghost use Rattle.c_api.specs.Runs.{HandsAnswer, IsAnswerOf, IsAnswerTo};
ghost use Rattle.c_api.specs.Statuses.{code_of};
ghost use Rattle.c_api.specs.Texts.{Hands};
ghost use Rattle.c_api.specs.Verdicts.{Answers, HandsLine};

use crate::calling::{end_of_call, tell_end};
use crate::ending::GateCall;
use crate::handing::hand_out;
use crate::held::Held;
use crate::judged::GateVerdict;
use crate::loose::Loose;
use crate::module::{GateModule, ModuleSlot, ModuleStatus};
use crate::report::{GateReport, ReportSlot, ReportStatus};
use crate::settings::GateSettings;
use crate::status::{BAD_ARGUMENT, MODULE_REFUSED, NO_MEMORY, OK};
use crate::text::hand_text;
use crate::value::GateValue;
use batch::{answer_alone, answer_on_alone, verdict_line};
use std::alloc::Global;
use verdict::{Refusal, examine_alone, judge_alone};

/// The number of this interface.
#[unsafe(no_mangle)]
pub extern "C" fn gate_version() -> u32
    ensures { result ≡ 1 }
{
    1
}

/// Judges a module. 0: it is accepted; 2: it is refused; either way the verdict is written. 70: nothing is written.
#[unsafe(no_mangle)]
pub extern "C" fn gate_check(alloc: Global, bytes: &[u8], verdict: &mut GateVerdict) -> u32
    ensures { Answers bytes.now verdict.old verdict.new result }
{
    match examine_alone(alloc, bytes) {
        Ok(()) => {
            *verdict = GateVerdict::accepted();
            OK
        }
        Err(refusal) => refuse(refusal, verdict),
    }
}

/// Writes the verdict of a refusal.
fn refuse(refusal: Refusal, verdict: &mut GateVerdict) -> u32
    ensures fields { (bytes : List ℕ) → IfSome (verdict_of refusal) (IsVerdict bytes) → Answers bytes verdict.old verdict.new result }
    ensures refused { result ≢ 0 }
{
    let Some(fields) = GateVerdict::of_refusal(refusal) else {
        return NO_MEMORY;
    };
    *verdict = fields;
    MODULE_REFUSED
}

/// Writes the line of a verdict. 0: it is written, and its length; 64: the fields are of no verdict; 70: nothing is written;
/// 75: the line has `length` bytes, and there is no room for it.
#[unsafe(no_mangle)]
pub extern "C" fn gate_verdict_line(
    alloc: Global,
    verdict: &GateVerdict,
    out: &mut [u8],
    length: &mut usize,
) -> u32
    ensures { HandsLine verdict.now out.old out.new length.old length.new result }
{
    let Some(judged) = verdict.judged() else {
        return BAD_ARGUMENT;
    };
    let Ok(line) = verdict_line(alloc, judged) else {
        return NO_MEMORY;
    };
    hand_text(line.as_bytes(), OK, out, length)
}

/// Judges a module, runs the calls of a text, each on an instance of its own, and writes the answer. 0, 2, 3: it is written, and
/// its length; 64: a limit is out of its range; 70: nothing is written; 75: the answer has `length` bytes, there is no room for
/// it, and `kept` holds it.
#[unsafe(no_mangle)]
pub extern "C" fn gate_run(
    alloc: Global,
    module: &[u8],
    calls: &[u8],
    settings: &GateSettings,
    out: &mut [u8],
    length: &mut usize,
    kept: &mut ReportSlot,
) -> u32
    ensures { HandsAnswer settings.now (IsAnswerTo «module».now calls.now settings.now)
        out.old out.new length.old length.new kept.old kept.new result }
{
    let Some(limits) = settings.settings() else {
        return BAD_ARGUMENT;
    };
    match answer_alone(alloc, module, calls, limits) {
        Ok(answer) => hand_out(alloc, answer, out, length, kept),
        Err(_) => NO_MEMORY,
    }
}

/// Writes an answer that was kept. 0, 2, 3: it is written, and its length; 75: it has `length` bytes, and there is no room for
/// it. It stays kept either way.
#[unsafe(no_mangle)]
pub extern "C" fn gate_report_read(
    report: GateReport,
    out: &mut [u8],
    length: &mut usize,
) -> ReportStatus
    ensures text { Hands (string_bytes report.value.answer.text) (code_of report.value.answer.status)
        out.old out.new length.new result.status }
    ensures answered { ∥ IsAnswered (string_bytes report.value.answer.text) report.value.answer.status ∥₁ }
    ensures handle { result.at ≡ report.at }
    ensures alive { result.value ≡ report.value }
{
    let kept = report.loose();
    let status = kept.as_ref().hand(out, length);
    ReportStatus::of(status, kept)
}

/// Frees an answer that was kept.
#[unsafe(no_mangle)]
pub extern "C" fn gate_report_free(report: GateReport) {
    drop(report.loose().into_box());
}

/// Judges a module, and where it is accepted hands out what its calls are made with. 0: `module` is written; 2: it is refused;
/// either way the verdict is written. 70: nothing is written. The bytes must stay as they are until the last handle is freed.
#[unsafe(no_mangle)]
pub extern "C" fn gate_module_new(
    alloc: Global,
    bytes: &'static [u8],
    verdict: &mut GateVerdict,
    module: &mut ModuleSlot,
) -> u32
    ensures verdict { Answers bytes.now verdict.old verdict.new result }
    ensures handle { HandsModule (IsAcceptedFrom bytes.now) «module».old «module».new result }
{
    let accepted = match judge_alone(alloc, bytes) {
        Ok(accepted) => accepted,
        Err(refusal) => return refuse(refusal, verdict),
    };
    let Some(held) = Held::sole_owner(alloc, accepted) else {
        return NO_MEMORY;
    };
    *verdict = GateVerdict::accepted();
    *module = ModuleSlot::tied(Loose::of(held));
    OK
}

/// Runs the calls of a text on an accepted module. As `gate_run`.
#[unsafe(no_mangle)]
pub extern "C" fn gate_module_run(
    alloc: Global,
    module: GateModule,
    calls: &[u8],
    settings: &GateSettings,
    out: &mut [u8],
    length: &mut usize,
    kept: &mut ReportSlot,
) -> ModuleStatus
    ensures answer { HandsAnswer settings.now (IsAnswerOf «module».value.accepted.value calls.now settings.now)
        out.old out.new length.old length.new kept.old kept.new result.status }
    ensures handle { result.at ≡ «module».at }
    ensures alive { result.value ≡ «module».value }
{
    let held = module.loose();
    let status = run_on(alloc, held.as_ref(), calls, settings, out, length, kept);
    ModuleStatus::of(status, held)
}

/// Runs the calls on what the handle holds. As `gate_run`.
fn run_on(
    alloc: Global,
    held: &Held,
    calls: &[u8],
    settings: &GateSettings,
    out: &mut [u8],
    length: &mut usize,
    kept: &mut ReportSlot,
) -> u32
    ensures { HandsAnswer settings.now (IsAnswerOf held.now.accepted.value calls.now settings.now)
        out.old out.new length.old length.new kept.old kept.new result }
{
    let Some(limits) = settings.settings() else {
        return BAD_ARGUMENT;
    };
    match answer_on_alone(alloc, &held.accepted, calls, limits) {
        Ok(answer) => hand_out(alloc, answer, out, length, kept),
        Err(_) => NO_MEMORY,
    }
}

/// Calls an export of an accepted module on a fresh instance. 0: `ended` says how it ended, and as many results are written as
/// there is room for; 64: a limit is out of its range, or an argument is no value; 70: nothing is written.
#[unsafe(no_mangle)]
pub extern "C" fn gate_module_call(
    alloc: Global,
    module: GateModule,
    name: &[u8],
    args: &[GateValue],
    settings: &GateSettings,
    results: &mut [GateValue],
    ended: &mut GateCall,
) -> ModuleStatus
    ensures answer { AnswersCall settings.now args.now (EndsCall «module».value.accepted.value name.now args.now settings.now)
        results.old results.new ended.old ended.new result.status }
    ensures handle { result.at ≡ «module».at }
    ensures alive { result.value ≡ «module».value }
{
    let held = module.loose();
    let status = match end_of_call(alloc, &held.as_ref().accepted, name, args, settings) {
        Ok(line) => {
            tell_end(&line, results, ended);
            OK
        }
        Err(status) => status,
    };
    ModuleStatus::of(status, held)
}

/// Another handle of the same module, for another thread. 0: it is written; 70: nothing is written.
#[unsafe(no_mangle)]
pub extern "C" fn gate_module_share(
    alloc: Global,
    module: GateModule,
    other: &mut ModuleSlot,
) -> ModuleStatus
    ensures status { (result.status ≡ 0) ⊎ (result.status ≡ 70) }
    ensures shared { HandsModule (λ a. a ≡ «module».value.accepted.value) other.old other.new result.status }
    ensures handle { result.at ≡ «module».at }
    ensures alive { result.value ≡ «module».value }
{
    let held = module.loose();
    let status = match held.as_ref().another(alloc) {
        Some(shared) => {
            *other = ModuleSlot::tied(Loose::of(shared));
            OK
        }
        None => NO_MEMORY,
    };
    ModuleStatus::of(status, held)
}

/// Frees a module.
#[unsafe(no_mangle)]
pub extern "C" fn gate_module_free(module: GateModule) {
    drop(module.loose().into_box());
}
