ghost use Rattle.std.specs.Prelude.{◌≡◌, IfOk, OnOk, option_map};
ghost use Rattle.rx_value.specs.Named.{named};
ghost use Rattle.rx_collection.specs.Commit.{IsNext, with_row};
ghost use Rattle.rx_collection.specs.Lawful.{IsLawful};
ghost use Rattle.rx_observe.specs.Indexes.{IsIndexOf, AreIndexesOf};

use rx_collection::Collection;
use rx_document::Stored;
use rx_index::{Filling, Index};
use rx_value::RxText;
use std::alloc::{AllocError, Global};

// The schema's indexes of a collection, with the documents that it has. The one by the primary key
// alone is the collection's own.
pub(crate) fn indexes_of(alloc: Global, collection: &Collection) -> Result<Vec<Index>, AllocError>
    ensures { IfOk result (λ all. AreIndexesOf collection.now all.items) }
{
    let mut indexes = Vec::new(alloc);
    let schema = collection.schema();
    let room = collection.len();
    for i in 0..schema.index_count() {
        indexes.push(index_by(alloc, collection, schema.index(i), room)?)?;
    }
    Ok(indexes)
}

// An index by fields, in whose order the documents don't come, with room for so many.
fn index_by(
    alloc: Global,
    collection: &Collection,
    fields: &[RxText],
    room: usize,
) -> Result<Index, AllocError>
    ensures index { IfOk result (IsIndexOf collection.now fields.now) }
    ensures lawful { OnOk result (IsLawful collection.now) }
{
    let mut filling = Filling::new(alloc, fields, room)?;
    let mut documents = collection.all();
    while let Some(document) = documents.next() {
        filling.take(document, documents.slot())?;
    }
    let index = filling.done()?;
    Ok(index)
}

// Puts a row in each index in the place of its key's document, before the collection takes it.
pub(crate) fn put_in_each(
    collection: &Collection,
    indexes: &mut Vec<Index>,
    old: Option<&Stored>,
    row: &Stored,
) -> Result<(), AllocError>
    requires next { IsNext collection.now row.now }
    requires old { option_map (λ d. d.now) old ≡ named collection.now.documents row.now.state.key }
    requires indexed { AreIndexesOf collection.now indexes.old.items }
    ensures { OnOk result (AreIndexesOf (with_row collection.now row.now) indexes.new.items) }
{
    // A new key isn't searched for, nor is any where no index wants its slot.
    let slot = match old {
        Some(_) if !indexes.is_empty() => collection.slot_for(row.state.key.as_str()),
        _ => collection.free_slot(),
    };
    for i in 0..indexes.len() {
        let index = &mut indexes[i];
        index.put(old, row, slot)?;
    }
    Ok(())
}
