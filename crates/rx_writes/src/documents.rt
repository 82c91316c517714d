// Documents as a line gives them, and as they are held.
ghost use Rattle.std.specs.Prelude.{◌≡◌, ◌+◌, None, Some, true, IfOk, OnOk, option_map};
ghost use Rattle.std.specs.List.{list_all};
ghost use Rattle.serde_json.specs.View.{view};
ghost use Rattle.rx_value.specs.Due.{Due, DueBy};
ghost use Rattle.rx_value.specs.Named.{named};
ghost use Rattle.rx_value.specs.declared.value.Value.TheVariants.{Text};
ghost use Rattle.rx_schema.specs.Validity.{first_fault, fault_seen};
ghost use Rattle.rx_document.specs.Revision.{revision_text};
ghost use Rattle.rx_collection.specs.Commit.{next_height};
ghost use Rattle.rx_collection.specs.Lawful.{IsLawful};
ghost use Rattle.rx_writes.specs.Documents.{key_in, state_of, valid_by, with_fields, keeps_key, live_document, document_at, has_revision, is_free};
ghost use Rattle.rx_writes.specs.Faults.{of_invalidity};
ghost use Rattle.rx_writes.specs.declared.fault.Fault.TheVariants.{Memory};

use crate::fault::{Fault, of_document};
use rx_collection::Collection;
use rx_document::{Revision, Stored};
use rx_reply::{Cause, DocumentFault, Refusal};
use rx_schema::{Invalid, Schema};
use rx_value::{Fields, RxText, State, is_text, read_fields, text_of};
use serde_json::Value as Json;
use std::alloc::{AllocError, Global};

/// The state that a document says.
pub(crate) fn read_state(alloc: Global, primary: &str, doc: &Json) -> Result<State, Fault>
    ensures exact { Due Memory result (state_of primary.now (view doc.now)) }
    ensures carries { IfOk result
        (λ state. named state.fields primary.now ≡ Some (Text state.key)) }
{
    let fields = read_fields(alloc, doc)?;
    let key = key_in(alloc, primary, &fields)?;
    Ok(State {
        key,
        fields,
        deleted: false,
    })
}

fn key_in(alloc: Global, primary: &str, fields: &Fields) -> Result<RxText, Fault>
    ensures exact { Due Memory result (key_in primary.now fields.now) }
    ensures carries { IfOk result (λ key. named fields.now primary.now ≡ Some (Text key)) }
{
    match text_of(fields.get(primary)) {
        Some(key) => Ok(key.copy(alloc)?),
        None => Err(of_document(DocumentFault::Key)),
    }
}

/// Refuses fields that aren't valid.
pub(crate) fn check_fields(alloc: Global, schema: &Schema, fields: &Fields) -> Result<(), Fault>
    ensures exact { Due Memory result (valid_by schema.now fields.now) }
    ensures valid { IfOk result (λ _. first_fault schema.now fields.now ≡ None) }
{
    match schema.valid(fields) {
        Ok(()) => Ok(()),
        Err(fault) => Err(of_document(invalid(alloc, fault)?)),
    }
}

fn invalid(alloc: Global, fault: Invalid<'_>) -> Result<DocumentFault, AllocError>
    ensures { IfOk result (λ f. f ≡ of_invalidity (fault_seen fault.entry)) }
{
    let (cause, name) = match fault {
        Invalid::Missing(name) => (Cause::Missing, name),
        Invalid::Unknown(name) => (Cause::Unknown, name),
        Invalid::Kind(name) => (Cause::Kind, name),
        Invalid::Bounds(name) => (Cause::Bounds, name),
        Invalid::Length(name) => (Cause::Length, name),
    };
    let name = RxText::new(alloc, name)?;
    Ok(DocumentFault::Invalid { cause, name })
}

/// Sets fields to the values of others.
pub(crate) fn set_fields(
    alloc: Global,
    fields: &mut Fields,
    more: &Fields,
) -> Result<(), AllocError>
    ensures { OnOk result (fields.new ≡ with_fields fields.old more.now) }
{
    for i in 0..more.len() {
        let (name, value) = more.at(i);
        fields.set(name.copy(alloc)?, value.copy(alloc)?)?;
    }
    Ok(())
}

/// Whether none of the fields gives the primary key another value.
pub(crate) fn keeps_key(primary: &str, key: &str, fields: &Fields) -> bool
    ensures { result ≡ keeps_key primary.now key.now fields.now }
{
    for i in 0..fields.len() {
        let (name, value) = fields.at(i);
        if name.as_str() == primary && !is_text(Some(value), key) {
            return false;
        }
    }
    true
}

/// The document of a key, if it is live.
pub(crate) fn find_live_document<'a>(collection: &'a Collection, key: &str) -> Option<&'a Stored>
    ensures value { option_map (λ d. d.now) result ≡ live_document collection.now key.now }
    ensures lawful { IsLawful collection.now }
{
    match collection.get(key) {
        Some(doc) if !doc.state.deleted => Some(doc),
        _ => None,
    }
}

/// The document of a key, which is to be live.
pub fn find_document<'a>(collection: &'a Collection, key: &str) -> Result<&'a Stored, Fault>
    ensures exact { DueBy Memory (λ d. d.now) result (document_at collection.now key.now) }
    ensures carries { IfOk result (λ d. named d.now.state.fields collection.now.schema.primary
        ≡ Some (Text key.now)) }
{
    match find_live_document(collection, key) {
        Some(doc) => Ok(doc),
        None => Err(Fault::Refused(Refusal::NoDocument)),
    }
}

/// Refuses a document whose revision is another one than that which is given.
pub(crate) fn check_revision(
    alloc: Global,
    given: &Option<RxText>,
    doc: &Stored,
) -> Result<(), Fault>
    ensures { Due Memory result (has_revision given.now doc.now) }
{
    let Some(given) = given else {
        return Ok(());
    };
    let rev = doc.rev.text(alloc)?;
    if *given == rev {
        Ok(())
    } else {
        Err(of_document(DocumentFault::Conflict { rev }))
    }
}

/// The height that the next write of a key gets, which isn't to be that of a live document.
pub(crate) fn free_height(alloc: Global, collection: &Collection, key: &str) -> Result<u64, Fault>
    ensures exact { DueBy Memory (λ _. tt) result (is_free collection.now key.now) }
    ensures height { IfOk result
        (λ height. height ≡ next_height (named collection.now.documents key.now)) }
{
    match collection.get(key) {
        None => Ok(1),
        Some(doc) if doc.state.deleted => Ok(doc.rev.height + 1),
        Some(doc) => {
            let rev = doc.rev.text(alloc)?;
            Err(of_document(DocumentFault::Conflict { rev }))
        }
    }
}

/// The revision of that height that a collection gives.
pub fn revision_at(
    alloc: Global,
    collection: &Collection,
    height: u64,
) -> Result<RxText, AllocError>
    ensures { IfOk result (λ rev. rev
        ≡ revision_text (record { height = height; token = collection.now.name })) }
{
    let token = collection.name().copy(alloc)?;
    Revision { height, token }.text(alloc)
}
