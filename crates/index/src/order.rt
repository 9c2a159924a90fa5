// Entries by rising cell. They compare by their cells alone.
ghost use Rattle.std.specs.Prelude.{◌≤◌, length, Some, nat_eq, refl};
ghost use Rattle.std.specs.Ordering.{on, nat_cmp};
ghost use Rattle.index.specs.Order.{Apart, Arranged};
ghost use Rattle.std.specs.Cmp.Rules.{comparing};
ghost use Rattle.std.proofs.Common.{rules};
ghost use Rattle.std.specs.Cmp as Keys;
ghost use Rattle.std.specs.Cmp.{partial_order_from_agreeing_total};

use crate::entry::CellEntry;
use std::cmp::Ordering;

impl PartialEq for CellEntry {
    ghost eq = { on (λ v. v.cell) nat_eq };

    ghost laws = { Keys.partial_equiv_from_equiv (Prim.search (comparing, rules)) };

    fn eq(&self, other: &CellEntry) -> bool {
        self.cell == other.cell
    }
}

impl Eq for CellEntry {
    ghost laws = { Prim.search (comparing, rules) };
}

impl PartialOrd for CellEntry {
    ghost partial_cmp = { λ x y. Some (nat_cmp x.cell y.cell) };

    ghost laws = { partial_order_from_agreeing_total (λ x y. nat_cmp x.cell y.cell) (Prim.search (comparing, rules)) (λ _ _. refl) (Prim.search (comparing, rules)) };

    fn partial_cmp(&self, other: &CellEntry) -> Option<Ordering> {
        Some(self.cmp(other))
    }
}

impl Ord for CellEntry {
    ghost cmp = { λ x y. nat_cmp x.cell y.cell };

    ghost total = { Prim.search (comparing, rules) };

    ghost matches_partial_cmp = { Prim.search (comparing, rules) };

    ghost matches_eq = { Prim.search (comparing, rules) };

    fn cmp(&self, other: &CellEntry) -> Ordering {
        self.cell.cmp(&other.cell)
    }
}

// Puts the first `count` entries, which are of different cells, in order.
pub fn arrange(cells: &mut [CellEntry], count: usize)
    requires within { count ≤ length cells.old }
    requires apart { Apart count cells.old }
    ensures { Arranged count cells.old cells.new }
{
    cells[..count].sort_unstable();
}
