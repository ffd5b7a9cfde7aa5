//! The names of instructions in the text format (6.5), and of those that `gate` does not admit what they are of.

/// By the first byte of the opcode, four a line. `-` stands where no instruction begins with it, and where further bytes name it.
static NAMES: &str = "\
    unreachable nop block loop \
    if else try catch \
    throw rethrow throw_ref end \
    br br_if br_table return \
    call call_indirect return_call return_call_indirect \
    call_ref return_call_ref - - \
    delegate catch_all drop select \
    select - - try_table \
    local.get local.set local.tee global.get \
    global.set table.get table.set - \
    i32.load i64.load f32.load f64.load \
    i32.load8_s i32.load8_u i32.load16_s i32.load16_u \
    i64.load8_s i64.load8_u i64.load16_s i64.load16_u \
    i64.load32_s i64.load32_u i32.store i64.store \
    f32.store f64.store i32.store8 i32.store16 \
    i64.store8 i64.store16 i64.store32 memory.size \
    memory.grow i32.const i64.const f32.const \
    f64.const i32.eqz i32.eq i32.ne \
    i32.lt_s i32.lt_u i32.gt_s i32.gt_u \
    i32.le_s i32.le_u i32.ge_s i32.ge_u \
    i64.eqz i64.eq i64.ne i64.lt_s \
    i64.lt_u i64.gt_s i64.gt_u i64.le_s \
    i64.le_u i64.ge_s i64.ge_u f32.eq \
    f32.ne f32.lt f32.gt f32.le \
    f32.ge f64.eq f64.ne f64.lt \
    f64.gt f64.le f64.ge i32.clz \
    i32.ctz i32.popcnt i32.add i32.sub \
    i32.mul i32.div_s i32.div_u i32.rem_s \
    i32.rem_u i32.and i32.or i32.xor \
    i32.shl i32.shr_s i32.shr_u i32.rotl \
    i32.rotr i64.clz i64.ctz i64.popcnt \
    i64.add i64.sub i64.mul i64.div_s \
    i64.div_u i64.rem_s i64.rem_u i64.and \
    i64.or i64.xor i64.shl i64.shr_s \
    i64.shr_u i64.rotl i64.rotr f32.abs \
    f32.neg f32.ceil f32.floor f32.trunc \
    f32.nearest f32.sqrt f32.add f32.sub \
    f32.mul f32.div f32.min f32.max \
    f32.copysign f64.abs f64.neg f64.ceil \
    f64.floor f64.trunc f64.nearest f64.sqrt \
    f64.add f64.sub f64.mul f64.div \
    f64.min f64.max f64.copysign i32.wrap_i64 \
    i32.trunc_f32_s i32.trunc_f32_u i32.trunc_f64_s i32.trunc_f64_u \
    i64.extend_i32_s i64.extend_i32_u i64.trunc_f32_s i64.trunc_f32_u \
    i64.trunc_f64_s i64.trunc_f64_u f32.convert_i32_s f32.convert_i32_u \
    f32.convert_i64_s f32.convert_i64_u f32.demote_f64 f64.convert_i32_s \
    f64.convert_i32_u f64.convert_i64_s f64.convert_i64_u f64.promote_f32 \
    i32.reinterpret_f32 i64.reinterpret_f64 f32.reinterpret_i32 f64.reinterpret_i64 \
    i32.extend8_s i32.extend16_s i64.extend8_s i64.extend16_s \
    i64.extend32_s - - - \
    - - - - \
    - - - - \
    ref.null ref.is_null ref.func ref.eq \
    ref.as_non_null br_on_null br_on_non_null";

/// By the number after the byte `fc`, four a line.
static AFTER_FC: &str = "\
    i32.trunc_sat_f32_s i32.trunc_sat_f32_u i32.trunc_sat_f64_s i32.trunc_sat_f64_u \
    i64.trunc_sat_f32_s i64.trunc_sat_f32_u i64.trunc_sat_f64_s i64.trunc_sat_f64_u \
    memory.init data.drop memory.copy memory.fill \
    table.init elem.drop table.copy table.grow \
    table.size table.fill";

/// The opcode of the select that says the type of its operands.
const TYPED_SELECT: u8 = 0x1C;

/// What instructions are of that `gate` does not admit.
#[derive(Clone, Copy, PartialEq, Eq)]
pub(crate) enum Feature {
    SaturatingTruncation,
    BulkMemory,
    ReferenceTypes,
    Vectors,
    RelaxedVectors,
    Exceptions,
    LegacyExceptions,
    TailCalls,
    FunctionReferences,
    GarbageCollection,
    Threads,
}

impl Feature {
    /// Its name, and where it is defined.
    pub(crate) fn title(self) -> &'static str {
        match self {
            Feature::SaturatingTruncation => "saturating truncation (Core 2.0)",
            Feature::BulkMemory => "bulk memory (Core 2.0)",
            Feature::ReferenceTypes => "reference types (Core 2.0)",
            Feature::Vectors => "vector instructions (Core 2.0)",
            Feature::RelaxedVectors => "relaxed vector instructions (Core 3.0)",
            Feature::Exceptions => "exception handling (Core 3.0)",
            Feature::LegacyExceptions => "legacy exception handling (a proposal)",
            Feature::TailCalls => "tail calls (Core 3.0)",
            Feature::FunctionReferences => "typed function references (Core 3.0)",
            Feature::GarbageCollection => "garbage collection (Core 3.0)",
            Feature::Threads => "threads (a proposal)",
        }
    }

    /// Whether a compiler for the least of WebAssembly leaves it out.
    pub(crate) fn is_left_out_by_mvp(self) -> bool {
        matches!(
            self,
            Feature::SaturatingTruncation
                | Feature::BulkMemory
                | Feature::ReferenceTypes
                | Feature::TailCalls
        )
    }
}

/// The word at that position of a text of words, if it has one there that is no `-`.
fn word_at(words: &'static str, position: usize) -> Option<&'static str> {
    for (at, word) in words.split_ascii_whitespace().enumerate() {
        if at == position && word != "-" {
            return Some(word);
        }
    }
    None
}

/// The name of the instructions whose opcode begins with that byte; empty where there is none.
pub fn name_of_byte(byte: u8) -> &'static str {
    word_at(NAMES, byte as usize).unwrap_or("")
}

/// The same, with what tells an instruction of a later standard from one of Core 1.0 that has its name.
pub(crate) fn name_of_later(byte: u8) -> &'static str {
    match byte {
        TYPED_SELECT => "select with types",
        _ => name_of_byte(byte),
    }
}

/// What the instructions are of whose opcode begins with that byte, `fc` apart, where `gate` admits none.
pub(crate) fn feature_of_byte(byte: u8) -> Option<Feature> {
    match byte {
        0x06 | 0x07 | 0x09 | 0x18 | 0x19 => Some(Feature::LegacyExceptions),
        0x08 | 0x0A | 0x1F => Some(Feature::Exceptions),
        0x12 | 0x13 => Some(Feature::TailCalls),
        0x14 | 0x15 | 0xD4..=0xD6 => Some(Feature::FunctionReferences),
        0x1C | 0x25 | 0x26 | 0xD0..=0xD2 => Some(Feature::ReferenceTypes),
        0xD3 | 0xFB => Some(Feature::GarbageCollection),
        0xFD => Some(Feature::Vectors),
        0xFE => Some(Feature::Threads),
        _ => None,
    }
}

/// The name and the feature of the instruction of that number after the byte `fc`.
pub(crate) fn named_after_fc(number: u32) -> Option<(&'static str, Feature)> {
    let name = word_at(AFTER_FC, number as usize)?;
    let feature = match number {
        0..=7 => Feature::SaturatingTruncation,
        8..=14 => Feature::BulkMemory,
        _ => Feature::ReferenceTypes,
    };
    Some((name, feature))
}
