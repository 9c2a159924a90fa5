// The entries of a run's tables, and the records that they give.
ghost use Rattle.std.specs.Prelude.{◌≡◌};
ghost use Rattle.table.specs.Held.{word, instruction_words, line_of, row_words};

use dossier::listed::ListedRecord;
use dossier::record::{Line, Row};
use encoding::instruction::Instruction;
use index::entry::CellEntry;

// The numbers of an entry in hand are words, so it gives the record that the meaning has.
pub trait Entry: Copy {
    type Record: ListedRecord;

    ghost recorded: { Self → Self.Record };

    fn record(self) -> Self::Record
        ensures { result ≡ recorded self };
}

impl Entry for Instruction {
    type Record = Instruction;

    ghost recorded = { instruction_words };

    fn record(self) -> Instruction {
        self
    }
}

impl Entry for u32 {
    type Record = u32;

    ghost recorded = { word };

    fn record(self) -> u32 {
        self
    }
}

// A cell's entry gives its opening line.
impl Entry for CellEntry {
    type Record = Line;

    ghost recorded = { line_of };

    fn record(self) -> Line {
        Line {
            cell: self.cell,
            step: self.first,
        }
    }
}

impl Entry for Row {
    type Record = Row;

    ghost recorded = { row_words };

    fn record(self) -> Row {
        self
    }
}
