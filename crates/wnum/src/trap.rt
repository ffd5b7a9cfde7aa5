/// Why an integer operator has no result (4.3.2).
#[derive(Debug, Clone, Copy, PartialEq, Eq)]
pub enum NumTrap {
    /// The divisor of a quotient or a remainder is 0.
    DivideByZero,
    /// The least signed number is divided by -1: the quotient is no word.
    IntegerOverflow,
}
