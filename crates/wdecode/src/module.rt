//! Modules (5.5.15), whole or up to their data segments.
ghost use Rattle.std.specs.Prelude.{◌≡◌, ◌≤◌, ◌<◌, true, List, length, ◌↔◌, IfOk, IsErrOf, option_map};
ghost use Rattle.wdecode.specs.Held.{section_shape};
ghost use Rattle.wdecode.specs.declared.section.TheConstants.{DATA_SECTION};
ghost use Rattle.wdecode.specs.Fronts.{with_segments, EndsAs, EndsFront, EndsProgress, IsBeforeSegments, stops};
ghost use Rattle.wsyntax.specs.Modules.{ModuleShape, DataShape, module_shape};
ghost use Rattle.wsyntax.specs.Binary.Shell.{with_section as put_section, empty_module as empty_shape, strip, header, Shell, module_limit};

use crate::fault::{DecodeFault, Fault};
use crate::front::ModuleHead;
use crate::section::{DATA_SECTION, Section, section_at};
use std::alloc::Global as Alloc;
use wsyntax::{MODULE_LIMIT, Module};

/// A module with what a section holds.
fn with_section<'a>(whole: Module<'a>, section: Section<'a>) -> Module<'a>
    ensures { module_shape result ≡ put_section (module_shape whole.entry) (section_shape section.entry) }
{
    match section {
        Section::Custom => whole,
        Section::Types(types) => Module { types, ..whole },
        Section::Imports(imports) => Module { imports, ..whole },
        Section::Functions(functions) => Module { functions, ..whole },
        Section::Tables(tables) => Module { tables, ..whole },
        Section::Memories(memories) => Module { memories, ..whole },
        Section::Globals(globals) => Module { globals, ..whole },
        Section::Exports(exports) => Module { exports, ..whole },
        Section::Start(start) => Module {
            start: Some(start),
            ..whole
        },
        Section::Elements(elements) => Module { elements, ..whole },
        Section::Code(bodies) => Module { bodies, ..whole },
        Section::Data(data) => Module { data, ..whole },
    }
}

/// What the sections up to some offset say.
#[derive(Drop)]
pub(crate) struct Progress<'a> {
    pub(crate) module: Module<'a>,
    /// The id of the last section, custom ones aside.
    pub(crate) last: u8,
    /// The bytes after them.
    pub(crate) rest: &'a [u8],
}

/// Whether the reading ends here: after the last section, or, with `before_segments`, at the data section.
fn is_over(rest: &[u8], before_segments: bool) -> bool
    ensures { result ≡ stops before_segments rest.now }
{
    match rest {
        [] => true,
        [id, ..] => before_segments && *id == DATA_SECTION,
    }
}

/// Reads sections, in order: up to the end of the bytes, or only those before the one of the data segments.
pub(crate) fn advance<'a>(
    alloc: Alloc,
    start: Progress<'a>,
    before_segments: bool,
) -> Result<Progress<'a>, Fault>
    ensures same { IfOk result (λ p. (whole : ModuleShape) → EndsProgress start.entry whole ↔ EndsProgress p whole) }
    ensures over { IfOk result (λ p. stops before_segments p.rest.now ≡ true) }
    ensures early { IfOk result (λ p. before_segments ≡ true → IsBeforeSegments start.entry.last (module_shape start.entry.module)
        → IsBeforeSegments p.last (module_shape p.module)) }
    ensures malformed { IsErrOf result Fault.Malformed → (whole : ModuleShape) → EndsProgress start.entry whole → ⊥ }
{
    let Progress {
        mut module,
        mut last,
        mut rest,
    } = start;
    'each: while !is_over(rest, before_segments) {
        let (section, after) = section_at(alloc, rest)?;
        let id = section.id();
        if id != 0 {
            if id <= last {
                return Err(Fault::Malformed);
            }
            last = id;
        }
        module = with_section(module, section);
        rest = after;
    }
    Ok(Progress { module, last, rest })
}

/// Refuses bytes that are not sections after the one of the data segments, which custom ones alone can be.
pub(crate) fn only_customs(alloc: Alloc, bytes: &[u8]) -> Result<(), Fault>
    ensures found { IfOk result (λ _. EndsAs DATA_SECTION empty_shape bytes.now empty_shape) }
    ensures malformed { IsErrOf result Fault.Malformed → EndsAs DATA_SECTION empty_shape bytes.now empty_shape → ⊥ }
{
    let start = Progress {
        module: Module::empty(alloc),
        last: DATA_SECTION,
        rest: bytes,
    };
    let _end = advance(alloc, start, false)?;
    Ok(())
}

/// The bytes after the magic and the version (5.5.15); `None` where they are not at the front.
fn after_header(bytes: &[u8]) -> Option<&[u8]>
    ensures { option_map (λ tail. tail.now) result ≡ strip header bytes.now }
{
    match bytes {
        [0x00, 0x61, 0x73, 0x6D, 0x01, 0x00, 0x00, 0x00, tail @ ..] => Some(tail),
        _ => None,
    }
}

/// All that stands before the data segments of a module, its bodies left as bytes (5.5.15).
fn front_at(alloc: Alloc, bytes: &[u8]) -> Result<ModuleHead<'_>, Fault>
    ensures whole { IfOk result (λ f. (m : ModuleShape) → Shell bytes.now m
        ↔ ((segments : List DataShape) × EndsFront f segments × (m ≡ with_segments (module_shape f.module) segments))) }
    ensures paired { IfOk result (λ f. length (module_shape f.module).functions ≡ length (module_shape f.module).bodies) }
    ensures malformed { IsErrOf result Fault.Malformed → (m : ModuleShape) → Shell bytes.now m → ⊥ }
{
    let Some(tail) = after_header(bytes) else {
        return Err(Fault::Malformed);
    };
    let start = Progress {
        module: Module::empty(alloc),
        last: 0,
        rest: tail,
    };
    let Progress { module, last, rest } = advance(alloc, start, true)?;
    if module.functions.len() == module.bodies.len() {
        Ok(ModuleHead { module, last, rest })
    } else {
        Err(Fault::Malformed)
    }
}

/// All that stands before the data segments of the module that the bytes spell (5.5.15), but for the insides of its bodies,
/// which stay slices of the input. The bytes of the data segments are not looked at.
///
/// The work is linear in the bytes before them, and nothing is allocated by a count that the bytes left cannot fill.
pub fn decode_front(alloc: Alloc, bytes: &[u8]) -> Result<ModuleHead<'_>, DecodeFault>
    // The bytes spell the module that is this one with the data segments that end it, and no other.
    ensures whole { IfOk result (λ f. (m : ModuleShape) → Shell bytes.now m
        ↔ ((segments : List DataShape) × EndsFront f segments × (m ≡ with_segments (module_shape f.module) segments))) }
    // It has a body for each function.
    ensures paired { IfOk result (λ f. length (module_shape f.module).functions ≡ length (module_shape f.module).bodies) }
    // Malformed are bytes that spell no module.
    ensures malformed { IsErrOf result DecodeFault.Malformed → (m : ModuleShape) → Shell bytes.now m → ⊥ }
    // Too large goes before all else.
    ensures too_large { IsErrOf result DecodeFault.TooLarge ↔ (module_limit < length bytes.now) }
{
    if bytes.len() > MODULE_LIMIT {
        return Err(DecodeFault::TooLarge);
    }
    match front_at(alloc, bytes) {
        Ok(front) => Ok(front),
        Err(Fault::Malformed) => Err(DecodeFault::Malformed),
        Err(Fault::Memory) => Err(DecodeFault::Memory),
    }
}

/// The module that the bytes spell (5.5.15), but for the insides of its bodies, which stay slices of the input.
///
/// The work is linear in the bytes, and nothing is allocated by a count that the bytes left cannot fill.
pub fn decode_module(alloc: Alloc, bytes: &[u8]) -> Result<Module<'_>, DecodeFault>
    // What is decoded is spelled so.
    ensures found { IfOk result (λ m. Shell bytes.now (module_shape m)) }
    // The bytes spell no other module.
    ensures only { IfOk result (λ m. (other : ModuleShape) → Shell bytes.now other → module_shape m ≡ other) }
    // Malformed are bytes that spell no module.
    ensures malformed { IsErrOf result DecodeFault.Malformed → (m : ModuleShape) → Shell bytes.now m → ⊥ }
    // Too large goes before all else.
    ensures too_large { IsErrOf result DecodeFault.TooLarge ↔ (module_limit < length bytes.now) }
{
    let front = decode_front(alloc, bytes)?;
    match front.whole(alloc) {
        Ok(module) => Ok(module),
        Err(Fault::Malformed) => Err(DecodeFault::Malformed),
        Err(Fault::Memory) => Err(DecodeFault::Memory),
    }
}
