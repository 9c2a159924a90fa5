// A cell: four bytes of memory from an address that is a multiple of 4, as a word with its lowest byte first.
ghost use Rattle.std.specs.Prelude.{◌≡◌};
ghost use Rattle.word.specs.Cell.{loaded, stored, Bytewise};

// How much of a cell a load or a store takes.
#[derive(Clone, Copy, PartialEq, Eq, Debug)]
pub enum Size {
    Byte,
    Word,
}

// What a load at `address` takes from the cell there.
pub fn load(size: Size, address: u32, cell: u32) -> u32
    ensures { result ≡ loaded size address cell }
{
    match size {
        Size::Byte => u32::from(cell.to_le_bytes()[(address % 4) as usize]),
        Size::Word => cell,
    }
}

fn with_byte(cell: u32, address: u32, word: u32) -> u32
    ensures { result ≡ stored Size.Byte address word cell }
{
    let mut bytes = cell.to_le_bytes();
    bytes[(address % 4) as usize] = (word % 256) as u8;
    u32::from_le_bytes(bytes)
}

// Apart from `store`, whose second promise is proved from the first.
fn put(size: Size, address: u32, word: u32, cell: u32) -> u32
    ensures { result ≡ stored size address word cell }
{
    match size {
        Size::Byte => with_byte(cell, address, word),
        Size::Word => word,
    }
}

// What a store of `word` at `address` leaves in the cell there.
pub fn store(size: Size, address: u32, word: u32, cell: u32) -> u32
    ensures value { result ≡ stored size address word cell }
    ensures bytes { Bytewise size address word cell result }
{
    put(size, address, word, cell)
}
