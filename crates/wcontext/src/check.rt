//! The rules in their order: those before the bodies, those after them, or all.
ghost use Rattle.std.specs.Prelude.{◌≡◌, ◌↔◌, ◌≤◌, ◌<◌, ℕ, IsTrue, IfOk, OnOk, IfErr};
ghost use Rattle.wsyntax.specs.Modules.{module_shape};
ghost use Rattle.wsyntax.specs.Validation.ModuleContext.{indexed_context};
ghost use Rattle.wsyntax.specs.Validation.Rules.{Keeps, LeastBroken, NoneBroken};
ghost use Rattle.wcontext.specs.Spaces.{AreSpacesOf};
ghost use Rattle.wcontext.specs.Counted.{AreCountsOf};

use crate::context::Context;
use crate::fault::ModuleFault;
use crate::names::NameRoom;
use crate::rules;
use crate::space_sizes::SpaceSizes;
use crate::spaces::Spaces;
use std::alloc::{AllocError, Global};
use wsyntax::Module;

/// The number of the first rule that is asked late: the bodies may be checked before.
const FIRST_LATE_RULE: u32 = 9;

/// The number of the last rule, that on data segments (3.4.6), which may be asked of one segment at a time.
pub const SEGMENTS_RULE: u32 = 13;

/// Whether a module keeps the early rule of that number. Rule 1 of Core 1.0 is not asked.
fn keeps_early(module: &Module<'_>, spaces: &Spaces, rule: u32) -> bool
    requires spaces { AreSpacesOf (module_shape «module».now) spaces.now }
    requires least { 1 ≤ rule }
    requires most { rule < FIRST_LATE_RULE }
    ensures { IsTrue result ↔ Keeps (module_shape «module».now) rule }
{
    match rule {
        1 => true,
        2 => rules::first_untyped_import(module, spaces).is_none(),
        3 => rules::first_untyped_function(module).is_none(),
        4 => rules::first_unordered_table(module, spaces).is_none(),
        5 => rules::first_unlimited_memory(module, spaces).is_none(),
        6 => rules::one_table(module, spaces),
        7 => rules::one_memory(module, spaces),
        _ => rules::first_inconstant_global(module, spaces).is_none(),
    }
}

/// Whether a module keeps the late rule of that number.
fn keeps_late<'a>(
    names: &mut NameRoom<'a>,
    module: &Module<'a>,
    counts: &SpaceSizes,
    rule: u32,
) -> Result<bool, AllocError>
    requires counts { AreCountsOf (module_shape «module».now) counts.now }
    requires least { FIRST_LATE_RULE ≤ rule }
    requires most { rule < SEGMENTS_RULE }
    ensures { IfOk result (λ b. IsTrue b ↔ Keeps (module_shape «module».now) rule) }
{
    match rule {
        9 => Ok(rules::first_missing_export(module, counts).is_none()),
        10 => rules::exports_distinct(names, module),
        11 => Ok(counts.starts_plainly),
        _ => Ok(rules::first_invalid_element(module, counts).is_none()),
    }
}

/// What bodies are checked under (3.4) and what the late rules look up, of a module that keeps rules 1 to 8; or the
/// least of these that it breaks.
pub fn check_rules_before_code(
    alloc: Global,
    module: &Module<'_>,
) -> Result<(Context, SpaceSizes), ModuleFault>
    ensures context { IfOk result (λ x. x.0 ≡ indexed_context (module_shape «module».now)) }
    ensures counts { IfOk result (λ x. AreCountsOf (module_shape «module».now) x.1) }
    ensures valid { OnOk result ((k : ℕ) → k < 9 → Keeps (module_shape «module».now) k) }
    ensures broken { IfErr result (λ e. (k : ℕ) → e ≡ ModuleFault.Rule k →
        (k < 9) × LeastBroken (module_shape «module».now) k) }
{
    let spaces = Spaces::new(alloc, module)?;
    for rule in 1..FIRST_LATE_RULE {
        if !keeps_early(module, &spaces, rule) {
            return Err(ModuleFault::Rule(rule));
        }
    }
    let counts = SpaceSizes::of(alloc, module, &spaces)?;
    let context = Context::new(alloc, module, spaces)?;
    Ok((context, counts))
}

/// Whether a module that keeps rules 1 to 8 keeps rules 9 to 12 too, or the least of these that it breaks. What the room
/// for the names of its exports held is gone.
pub fn check_rules_after_code<'a>(
    names: &mut NameRoom<'a>,
    module: &Module<'a>,
    counts: &SpaceSizes,
) -> Result<(), ModuleFault>
    requires counts { AreCountsOf (module_shape «module».now) counts.now }
    requires early { (k : ℕ) → k < 9 → Keeps (module_shape «module».now) k }
    ensures valid { OnOk result ((k : ℕ) → k < 13 → Keeps (module_shape «module».now) k) }
    ensures broken { IfErr result (λ e. (k : ℕ) → e ≡ ModuleFault.Rule k →
        (k < 13) × LeastBroken (module_shape «module».now) k) }
{
    for rule in FIRST_LATE_RULE..SEGMENTS_RULE {
        if !keeps_late(names, module, counts, rule)? {
            return Err(ModuleFault::Rule(rule));
        }
    }
    Ok(())
}

/// The context of a module that keeps all rules (3.4), or the least rule that it breaks. The bodies of its functions
/// are not looked at.
pub fn check_module(alloc: Global, module: &Module<'_>) -> Result<Context, ModuleFault>
    ensures context { IfOk result (λ c. c ≡ indexed_context (module_shape «module».now)) }
    ensures valid { OnOk result (NoneBroken (module_shape «module».now)) }
    ensures broken { IfErr result (λ e. (k : ℕ) → e ≡ ModuleFault.Rule k → LeastBroken (module_shape «module».now) k) }
{
    let (context, counts) = check_rules_before_code(alloc, module)?;
    let mut names = NameRoom::with_capacity(alloc, 0)?;
    check_rules_after_code(&mut names, module, &counts)?;
    match rules::first_invalid_segment(module, &counts) {
        None => Ok(context),
        Some(_) => Err(ModuleFault::Rule(SEGMENTS_RULE)),
    }
}
