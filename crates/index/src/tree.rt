// A search tree by the digits of the cell. No search in it is longer than a cell has digits.
// std's `HashMap`, with its room reserved, was tried in its place: 500,000 new cells by rising addresses took 70 ms by
// themselves, where the whole run that opens them takes about 80 with this tree; and a program that knows the hash can
// make searches long.
ghost use Rattle.std.specs.Prelude.{◌≡◌, ℕ, ◌+◌, ◌^◌, ◌<◌, List, length, IfOk, slice_set};
ghost use Rattle.index.specs.Tree.{renewed};
ghost use Rattle.index.specs.Map.{Keeps, FindsIn, RoomFor};

use crate::entry::CellEntry;
use std::alloc::{AllocError, Global};

// Where the search for a cell ends: at its entry, or at the slot that an entry for it would take.
pub enum Seat {
    Taken(usize),
    Free(usize),
}

// A slot holds 0, or one more than the number of an entry. The first `roots` slots are by the cell's lowest digit;
// entry k has the four slots from `roots + 4 * k` on, by its next digit. `Option<u32>` in place of the 0 was tried: it takes
// twice the room, and to make the links and insert 500,000 cells took 170 to 330 ms, where 0 takes 55 to 100.
#[derive(Drop)]
pub struct Index {
    links: Vec<u32>,
    roots: usize,
}

impl Index {
    // An index of no entry, with room for `limit`.
    pub fn new(heap: Global, limit: usize) -> Result<Index, AllocError>
        requires { limit < 2 ^ 32 }
        ensures { IfOk result (λ x. ((es : List CellEntry) → Keeps x es 0) × RoomFor x limit) }
    {
        let roots = limit + 1;
        let links = vec![in heap; 0u32; roots + 4 * limit]?;
        Ok(Index { links, roots })
    }

    // Where the search for a cell ends, of the first `count` entries.
    pub fn find(&self, cells: &[CellEntry], count: usize, cell: u32) -> Seat
        requires { Keeps self.now cells.now count }
        ensures { FindsIn self.now cells.now count cell result }
    {
        let word = (cell / 4) as usize;
        let mut slot = word % self.roots;
        let mut rest = word / self.roots;
        loop {
            let link = self.links[slot];
            if link == 0 {
                return Seat::Free(slot);
            }
            let number = link as usize - 1;
            if cells[number].cell == cell {
                return Seat::Taken(number);
            }
            slot = self.roots + 4 * number + rest % 4;
            rest /= 4;
        }
    }

    // Writes entry number `count` into the table, and puts it into the tree at the slot where the search for its cell ended.
    pub fn insert(&mut self, cells: &mut [CellEntry], count: usize, slot: usize, entry: CellEntry)
        requires kept { Keeps self.old cells.old count }
        requires found { FindsIn self.old cells.old count entry.cell (Seat.Free slot) }
        requires place { count < length cells.old }
        requires room { RoomFor self.old (count + 1) }
        ensures cells { cells.new ≡ slice_set cells.old count entry }
        ensures kept { Keeps self.new cells.new (count + 1) }
        ensures room { (n : ℕ) → RoomFor self.old n → RoomFor self.new n }
    {
        cells[count] = entry;
        self.links[slot] = count as u32 + 1;
    }

    // Writes what the last touch of an entry's cell left.
    pub fn renew(&self, cells: &mut [CellEntry], count: usize, number: usize, last: u32, value: u32)
        requires kept { Keeps self.now cells.old count }
        requires old { number < count }
        ensures cells { cells.new ≡ slice_set cells.old number (renewed cells.old number last value) }
        ensures kept { Keeps self.now cells.new count }
    {
        let entry = cells[number];
        cells[number] = CellEntry {
            last,
            value,
            ..entry
        };
    }
}
