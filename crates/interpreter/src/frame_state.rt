/// Where the machine stands: the running function, its next token, where its locals (`base`) and its operands (`operand_base`)
/// begin, where the next operand goes (`sp`), and the fuel that is left.
// PERF: fuel has a whole word: of half a one the compiler would clear the other half at each token (bench/LAB.md, The interpreter:
// fuel in a whole word).
#[derive(Clone, Copy)]
pub(crate) struct FrameState {
    pub(crate) function: u32,
    pub(crate) pc: usize,
    pub(crate) base: usize,
    pub(crate) operand_base: usize,
    pub(crate) sp: usize,
    pub(crate) fuel: u64,
}

/// Where a caller goes on: its function, the token after its call, and where its locals and its operands begin.
#[derive(Clone, Copy)]
pub(crate) struct ReturnPoint {
    pub(crate) function: u32,
    pub(crate) pc: usize,
    pub(crate) base: usize,
    pub(crate) operand_base: usize,
}
