//! The opcodes (5.4) that are matched as bytes, in the order of the table of instructions. Of the numeric instructions
//! the first and the last are here: between them each byte is the opcode of one.
pub const UNREACHABLE: u8 = 0x00;

pub const NOP: u8 = 0x01;

pub const BLOCK: u8 = 0x02;

pub const LOOP: u8 = 0x03;

pub const IF: u8 = 0x04;

pub const ELSE: u8 = 0x05;

pub const END: u8 = 0x0B;

pub const BR: u8 = 0x0C;

pub const BR_IF: u8 = 0x0D;

pub const RETURN: u8 = 0x0F;

pub const CALL: u8 = 0x10;

pub const DROP: u8 = 0x1A;

pub const SELECT: u8 = 0x1B;

pub const LOCAL_GET: u8 = 0x20;

pub const LOCAL_SET: u8 = 0x21;

pub const LOCAL_TEE: u8 = 0x22;

pub const GLOBAL_GET: u8 = 0x23;

pub const GLOBAL_SET: u8 = 0x24;

pub const I32_LOAD: u8 = 0x28;

pub const I64_LOAD: u8 = 0x29;

pub const F32_LOAD: u8 = 0x2A;

pub const F64_LOAD: u8 = 0x2B;

pub const I32_LOAD8_S: u8 = 0x2C;

pub const I32_LOAD8_U: u8 = 0x2D;

pub const I32_LOAD16_S: u8 = 0x2E;

pub const I32_LOAD16_U: u8 = 0x2F;

pub const I64_LOAD8_S: u8 = 0x30;

pub const I64_LOAD8_U: u8 = 0x31;

pub const I64_LOAD16_S: u8 = 0x32;

pub const I64_LOAD16_U: u8 = 0x33;

pub const I64_LOAD32_S: u8 = 0x34;

pub const I64_LOAD32_U: u8 = 0x35;

pub const I32_STORE: u8 = 0x36;

pub const I64_STORE: u8 = 0x37;

pub const F32_STORE: u8 = 0x38;

pub const F64_STORE: u8 = 0x39;

pub const I32_STORE8: u8 = 0x3A;

pub const I32_STORE16: u8 = 0x3B;

pub const I64_STORE8: u8 = 0x3C;

pub const I64_STORE16: u8 = 0x3D;

pub const I64_STORE32: u8 = 0x3E;

pub const I32_CONST: u8 = 0x41;

pub const I64_CONST: u8 = 0x42;

pub const I32_EQZ: u8 = 0x45;

pub const I64_EXTEND32_S: u8 = 0xC4;
