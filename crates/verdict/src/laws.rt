ghost use Rattle.verdict.specs.Laws.{OneVerdict, SegmentsHoldBytes};

use soundness::validation::{one_fault, typed_where_no_fault, unique_tree};
use wdecode::{bodies_are_determined, shells_are_determined};

/// Bytes have one verdict at most: the first refusal, or none.
pub fn one_verdict()
    ensures { OneVerdict }
{
    bodies_are_determined();
    shells_are_determined();
    unique_tree();
    typed_where_no_fault();
    one_fault();
}

/// Where bytes spell a module, what its data segments hold are bytes.
pub fn segments_hold_bytes()
    ensures { SegmentsHoldBytes }
{}
