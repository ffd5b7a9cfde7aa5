//! The low mark, and the rule of its word.
ghost use Rattle.std.specs.Prelude.{◌≡◌};
ghost use Rattle.std.specs.Arc.{arc_value};

use crate::share::Share;
use crate::views::MarkView;
use atomic_table::{Play, Table, TableRule};
use std::alloc::Global;
use std::sync::Arc;

/// The word is a register that keeps the least index.
pub struct Least;

impl TableRule<(), MarkView, ()> for Least {
    ghost use Rattle.std.specs.Prelude.{[]};
    ghost use Rattle.pieces.specs.MarkRule.{mark_view, IsKept};

    ghost holds = { λ _ s. IsKept s.words s.views };

    ghost first = { λ _. mark_view 64 [] [] [] };
}

struct Lowers;

impl Play<(), MarkView> for Lowers {
    ghost use Rattle.std.specs.Prelude.{◌≡◌};
    ghost use Rattle.pieces.specs.declared.history.MarkCall.TheVariants.{Lowered};
    ghost use Rattle.pieces.specs.History.{Extends};

    ghost then = { λ s m n w. Extends m.0 (Lowered s.first) w.0 × (w.1 ≡ m.1) };
}

struct Reads;

impl Play<(), MarkView> for Reads {
    ghost use Rattle.std.specs.Prelude.{◌≡◌};
    ghost use Rattle.pieces.specs.declared.history.MarkCall.TheVariants.{Found};
    ghost use Rattle.pieces.specs.History.{Extends};
    ghost use Rattle.pieces.specs.MarkRule.{reading};

    ghost then = { λ s m n w. Extends m.0 (Found (reading n)) w.0 × (w.1 ≡ m.1) };
}

/// What the word is where nothing was lowered: above every index.
pub(crate) const NOTHING: u64 = u64::MAX;

pub type Register = Table<(), MarkView, (), Least, Global>;

/// A register that keeps the least index lowered so far. A call is one step of one word: it takes no
/// memory, no right to wait, and waits for nobody.
#[derive(Drop)]
pub struct Mark {
    pub(crate) table: Arc<Register, Global>,
    ghost one_word: { (arc_value table).shared.table_id.words ≡ 1 },
}

impl Mark {
    ghost use Rattle.std.specs.Prelude.{Some, None};
    ghost use Rattle.pieces.specs.declared.history.MarkCall.TheVariants.{Lowered, Found};
    ghost use Rattle.pieces.specs.History.{Extends, register, IsAtMost};
    ghost use Rattle.pieces.specs.Shares.{KeepsBag, mark_view_of, seen};
    ghost use Rattle.pieces.specs.Bags.{HasSeatAt};

    /// Lowers the mark to the index, where it is not that low already.
    pub fn lower(&self, share: &mut Share, index: u32)
        requires { HasSeatAt self.now share.old }
        ensures mark { HasSeatAt self.now share.new }
        ensures same { KeepsBag share.old share.new }
        ensures call { Extends (mark_view_of share.old) (Lowered index) (mark_view_of share.new) }
        ensures low { IsAtMost (register None (seen share.new)) (Some index) }
        ensures falls { IsAtMost (register None (seen share.new)) (register None (seen share.old)) }
    {
        let table: &Register = &self.table;
        table
            .shared
            .fetch_min::<Lowers>(&mut share.seat, 0, u64::from(index));
    }

    /// The least index lowered so far, or `None` where nothing was lowered.
    pub fn read(&self, share: &mut Share) -> Option<u32>
        requires { HasSeatAt self.now share.old }
        ensures mark { HasSeatAt self.now share.new }
        ensures same { KeepsBag share.old share.new }
        ensures call { Extends (mark_view_of share.old) (Found result) (mark_view_of share.new) }
        ensures is { result ≡ register None (seen share.new) }
        ensures falls { IsAtMost result (register None (seen share.old)) }
    {
        let table: &Register = &self.table;
        let found = table.shared.load::<Reads>(&mut share.seat, 0);
        if found < 1 << 32 {
            Some(found as u32)
        } else {
            None
        }
    }
}
