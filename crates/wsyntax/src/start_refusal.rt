/// Why no instance is made of an accepted module (4.5.4), in the order in which it is asked.
#[derive(Clone, Copy, Debug, PartialEq, Eq)]
pub enum StartRefusal {
    /// The module imports something.
    HasImports,
    /// A float type or a float instruction stands in the module.
    HasFloats,
    /// The table's minimum is above 65,536.
    TableLimit,
    /// The memory's minimum is above the limit of pages.
    MemoryLimit,
    /// The first element segment that does not end within the table, by its index.
    ElementOutside(u32),
    /// The first data segment that does not end within the memory, by its index.
    DataOutside(u32),
}
