// A map that owns its entries. Its type has what the calls of the tree need, so that none of its own needs anything; it
// takes the room of the entries beside that of the tree.
ghost use Rattle.std.specs.Prelude.{◌≡◌, length, [], IfOk, slice_set};
ghost use Rattle.index.specs.Tree.{renewed};
ghost use Rattle.index.specs.Order.{Apart, Arranged};
ghost use Rattle.index.specs.Cells.{HasEntry, Opens};

use crate::entry::CellEntry;
use crate::order::arrange;
use crate::tree::{Index, Seat};
use std::alloc::{AllocError, Global};
use std::marker::Model;

// The number of a cell's entry, and whether the cell had it before.
#[derive(Clone, Copy, PartialEq, Eq, Debug)]
pub enum Entered {
    New(usize),
    Known(usize),
}

// The entries by number, and their tree.
#[derive(Drop)]
pub struct CellMap {
    entries: Vec<CellEntry>,
    index: Index,
    limit: usize,
}

impl Model for CellMap {
    ghost use Rattle.index.specs.Cells.{Cells};

    ghost Value = { Cells };

    ghost use Rattle.index.specs.Owned.{Owned};

    ghost view = { λ x. record { entries = x.entries.items; limit = x.limit } };

    ghost invariant = { Owned };
}

impl CellMap {
    // A map of no entry, with room for `limit`.
    pub fn new(heap: Global, limit: u32) -> Result<CellMap, AllocError>
        ensures { IfOk result (λ x. x ≡ record { entries = []; limit = limit }) }
    {
        let limit = limit as usize;
        let index = Index::new(heap, limit)?;
        let entries = Vec::with_capacity(heap, limit)?;
        Ok(CellMap {
            entries,
            index,
            limit,
        })
    }

    // The entries in the order in which they were opened.
    pub fn entries(&self) -> &[CellEntry]
        ensures { result.now ≡ self.now.entries }
    {
        self.entries.as_slice()
    }

    // The number of the cell's entry.
    pub fn find(&self, cell: u32) -> Option<usize>
        ensures { HasEntry self.now.entries cell result }
    {
        match self.index.find(&self.entries, self.entries.len(), cell) {
            Seat::Taken(number) => Some(number),
            Seat::Free(_) => None,
        }
    }

    // The entry of this entry's cell, which is this one with the next number where there was none; or `None` where there
    // is no room for it.
    pub fn open(&mut self, entry: CellEntry) -> Option<Entered>
        ensures opens { Opens self.old entry result self.new }
        ensures apart { Apart (length self.new.entries) self.new.entries }
    {
        let number = self.entries.len();
        match self.index.find(&self.entries, number, entry.cell) {
            Seat::Taken(number) => Some(Entered::Known(number)),
            Seat::Free(slot) => {
                if number == self.limit {
                    return None;
                }
                self.entries.push(entry).ok()?;
                self.index.insert(&mut self.entries, number, slot, entry);
                Some(Entered::New(number))
            }
        }
    }

    // Writes what the last touch of an entry's cell left. A number of no entry changes nothing.
    pub fn renew(&mut self, number: usize, last: u32, value: u32)
        ensures entries { self.new.entries ≡ slice_set self.old.entries number (renewed self.old.entries number last value) }
        ensures limit { self.new.limit ≡ self.old.limit }
        ensures apart { Apart (length self.new.entries) self.new.entries }
    {
        let count = self.entries.len();
        if number < count {
            self.index
                .renew(&mut self.entries, count, number, last, value);
        }
    }

    // The entries by rising cell.
    pub fn into_arranged(self) -> Vec<CellEntry>
        ensures { Arranged (length self.entries) self.entries result.items }
    {
        let CellMap {
            mut entries,
            index: _,
            limit: _,
        } = self;
        let count = entries.len();
        arrange(&mut entries, count);
        entries
    }
}
