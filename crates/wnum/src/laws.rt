//! The laws of numbers and operators, each an `ensures` of a function that does nothing.
ghost use Rattle.std.specs.Prelude.{ℕ};
ghost use Rattle.wnum.specs.Number.{SpellsUnsigned, SpellsSigned};
ghost use Rattle.wnum.specs.Reading.{Reads, unsigned_at, signed_at};
ghost use Rattle.wnum.specs.OperatorLaws.{OperatorsStayInRange, SignsInvert, ComparesSigned};
ghost use Rattle.wnum.specs.OperatorEdges.{CountEdges, ArithmeticEdges, BitEdges, ComparisonEdges, ExtensionEdges, LowExtensionEdges};

/// What is read is spelled so and what is spelled so is read, for each number of bits (5.2.2).
pub fn numbers_are_read()
    ensures unsigned { (N : ℕ) → Reads (unsigned_at N) (SpellsUnsigned N) }
    ensures signed { (N : ℕ) → Reads (signed_at N) (SpellsSigned N) }
{}

/// An operator on words gives a word (4.3.2).
pub fn operators_stay_in_range()
    ensures { OperatorsStayInRange }
{}

/// Words and signed numbers stand for one another, and the comparisons with a sign are those of the signed numbers (4.3.2).
pub fn signed_words_are_numbers()
    ensures inverse { SignsInvert }
    ensures compared { ComparesSigned }
{}

/// Each operator at its edges (4.3.2).
pub fn operators_at_their_edges()
    ensures counts { CountEdges }
    ensures arithmetic { ArithmeticEdges }
    ensures bits { BitEdges }
    ensures comparisons { ComparisonEdges }
    ensures extensions { ExtensionEdges }
    ensures low_extensions { LowExtensionEdges }
{}
