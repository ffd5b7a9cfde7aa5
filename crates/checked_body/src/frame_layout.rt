/// What the entry of a function needs to know of it: how many parameters, declared locals and results it has, and the
/// canonical id of its type.
// PERF: an entry reads this one record of 16 bytes, and sums and compares nothing.
#[derive(Clone, Copy, PartialEq, Eq)]
pub struct FrameLayout {
    pub params: u32,
    pub declared: u32,
    pub results: u32,
    pub type_id: u32,
}
