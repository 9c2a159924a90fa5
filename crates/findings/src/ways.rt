// The ways of checking one dossier.
use crate::tables::{ReadError, Tables, read};
use checking::calls::{check_all, run_calls};
use codec::holder::ByteDossier;
use course::receipt::Receipt;
use dossier::questions::Dossier;
use layers::cache::RowCache;
use layers::pair::Pair;
use rules::call::Call;
use std::alloc::{AllocError, Global};
use table::holder::TableDossier;

// Advances by one unit at a time, with a question before each. A unit takes 7 bytes or more.
fn unit_by_unit(heap: Global, bytes: &[u8]) -> Result<Receipt, AllocError> {
    let mut calls = Vec::new(heap);
    for _ in 0..bytes.len() / 7 + 1 {
        calls.push(Call::Ask)?;
        calls.push(Call::Advance(1))?;
    }
    Ok(run_calls(ByteDossier::new(bytes), &calls).receipt())
}

fn in_tables<'a>(tables: &'a Tables) -> TableDossier<'a>
    ensures { ⟦<TableDossier<'a> as Dossier>⟧.rule result }
{
    TableDossier::new(
        tables.bound,
        &tables.program,
        &tables.words,
        &tables.cells,
        &tables.rows,
    )
}

// The receipts of the ways that take bytes, and if the records are readable, of those that take them in tables.
fn receipts(heap: Global, bytes: &[u8]) -> Result<Vec<Receipt>, AllocError> {
    let cached = RowCache::new(ByteDossier::new(bytes));
    let paired = Pair::new(
        RowCache::new(ByteDossier::new(bytes)),
        ByteDossier::new(bytes),
    );
    let mut receipts = vec![in heap;
        check_all(cached).receipt(),
        check_all(paired).receipt(),
        unit_by_unit(heap, bytes)?,
    ]?;
    match read(heap, &mut ByteDossier::new(bytes)) {
        Ok(tables) => {
            let mixed = RowCache::new(Pair::new(in_tables(&tables), ByteDossier::new(bytes)));
            receipts.push(check_all(in_tables(&tables)).receipt())?;
            receipts.push(check_all(mixed).receipt())?;
            Ok(receipts)
        }
        Err(ReadError::Refused(_)) => Ok(receipts),
        Err(ReadError::OutOfMemory) => Err(AllocError),
    }
}

// The receipt, where all ways give the same.
pub(crate) fn every_way(heap: Global, bytes: &[u8]) -> Result<Option<Receipt>, AllocError> {
    let receipt = check_all(ByteDossier::new(bytes)).receipt();
    let same = receipts(heap, bytes)?.iter().all(|other| *other == receipt);
    Ok(same.then_some(receipt))
}
