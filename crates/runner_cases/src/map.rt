// The map that owns its entries.
use index::entry::CellEntry;
use index::map::{CellMap, Entered};
use std::test::Fail;

#[test]
fn owned_entries(rt: HostRuntime) -> Result<(), Fail> {
    let high = CellEntry {
        cell: 8,
        first: 1,
        last: 1,
        value: 5,
    };
    let low = CellEntry {
        cell: 4,
        first: 2,
        last: 2,
        value: 6,
    };
    let mut map = CellMap::new(rt.alloc(), 2)?;
    assert_eq!(rt; map.open(high), Some(Entered::New(0)));
    assert_eq!(rt; map.open(low), Some(Entered::New(1)));
    assert_eq!(rt; map.open(high), Some(Entered::Known(0)));
    assert_eq!(rt; map.open(CellEntry { cell: 12, ..low }), None);
    assert_eq!(rt; map.find(4), Some(1));
    map.renew(1, 3, 7);
    let told: [u32; 8] = match map.into_arranged().as_slice() {
        [a, b] => [
            a.cell, a.first, a.last, a.value, b.cell, b.first, b.last, b.value,
        ],
        _ => [0; 8],
    };
    assert_eq!(rt; told, [4, 2, 3, 7, 8, 1, 1, 5]);
    Ok(())
}
