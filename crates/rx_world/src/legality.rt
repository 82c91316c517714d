ghost use Rattle.std.specs.Prelude.{◌≡◌, ◌+◌, ◌==◌, IfOk};
ghost use Rattle.std.specs.List.{list_all};
ghost use Rattle.rx_collection.specs.Commit.{next_height};
ghost use Rattle.rx_value.specs.Named.{by_bytes, named};
ghost use Rattle.rx_record.specs.Content.{collection};
ghost use Rattle.rx_record.specs.Shown.{content, content_in};
ghost use Rattle.rx_record.specs.Views.{row_in, rows_left};
ghost use Rattle.rx_world.specs.Chain.{IsForest};
ghost use Rattle.rx_world.specs.Holders.{AreWhole, holders_of, world_in};
ghost use Rattle.rx_world.specs.Step.{is_valid_state, is_next_row, takes, legal};

use crate::migrating::may_migrate;
use crate::names::find;
use crate::parts::{MAX_COLLECTIONS, Parts};
use crate::replicating::{may_begin, takes_exchange};
use crate::replicating_views::takes_exchange_view;
use crate::replications::find as find_replication;
use crate::schema_text::schema_in;
use crate::valid_views::is_valid_view;
use rx_collection::{Collection, Holder, MOST_LWT};
use rx_record::{Record, RecordView, RowOut, RowView, RowViews};
use rx_schema::Schema;
use rx_value::{State, is_name, is_text};
use std::alloc::{AllocError, Global};

pub(crate) fn is_legal<H: Holder>(
    parts: &Parts<H>,
    alloc: Global,
    entry: &Record,
) -> Result<bool, AllocError>
    requires whole { AreWhole H.held H.is_broken parts.now.holders.entries }
    requires forest { IsForest (by_bytes parts.now.replications.entries) }
    ensures { IfOk result
        (λ b. b ≡ legal (content entry.now) (world_in H.held (holders_of parts.now))) }
{
    match entry {
        Record::Collection { name, schema } => {
            is_new(parts, alloc, name.as_str(), schema.as_str())
        }
        Record::Rows { name, lwt, rows } => match find(&parts.holders, name.as_str()) {
            Some(holder) => Ok(takes(holder.collection(), *lwt, rows.as_slice())),
            None => Ok(false),
        },
        Record::Replication {
            name,
            fork,
            master,
            ..
        } => Ok(may_begin(parts, name.as_str(), fork.as_str(), master)),
        Record::Exchange {
            name,
            lwt,
            rows,
            known,
            up,
            down,
        } => match find_replication(&parts.replications, name.as_str()) {
            Some(replication) => Ok(takes_exchange(
                &parts.holders,
                replication,
                *lwt,
                rows.as_slice(),
                known.as_slice(),
                up,
                down,
            )),
            None => Ok(false),
        },
        Record::Epoch { number } => Ok(is_next(*number, parts.epoch)),
        Record::Migration {
            name,
            schema,
            steps,
        } => may_migrate(parts, alloc, name.as_str(), schema.as_str(), steps),
        _ => Ok(false),
    }
}

/// The same of a record that is only lent. A schema, a master's name, a checkpoint or a migration
/// is owned.
pub(crate) fn is_legal_view<H: Holder>(
    parts: &Parts<H>,
    alloc: Global,
    view: &RecordView<'_>,
) -> Result<bool, AllocError>
    requires whole { AreWhole H.held H.is_broken parts.now.holders.entries }
    requires forest { IsForest (by_bytes parts.now.replications.entries) }
    ensures { IfOk result
        (λ b. b ≡ legal (content_in view.now) (world_in H.held (holders_of parts.now))) }
{
    match view {
        RecordView::Collection { name, schema } => is_new(parts, alloc, name, schema),
        RecordView::Rows { name, lwt, rows } => match find(&parts.holders, name) {
            Some(holder) => Ok(takes_views(holder.collection(), *lwt, rows)),
            None => Ok(false),
        },
        RecordView::Replication {
            name,
            fork,
            master,
            ..
        } => {
            let master = master.own(alloc)?;
            Ok(may_begin(parts, name, fork, &master))
        }
        RecordView::Exchange {
            name,
            lwt,
            rows,
            known,
            up,
            down,
        } => match find_replication(&parts.replications, name) {
            Some(replication) => {
                let takes = takes_exchange_view(
                    &parts.holders,
                    alloc,
                    replication,
                    *lwt,
                    rows,
                    known,
                    up,
                    down,
                )?;
                Ok(takes)
            }
            None => Ok(false),
        },
        RecordView::Epoch { number } => Ok(is_next(*number, parts.epoch)),
        RecordView::Migration { .. } => is_legal(parts, alloc, &view.own(alloc)?),
        _ => Ok(false),
    }
}

// Whether there is room for a collection of that name, and the text is a schema's.
fn is_new<H: Holder>(
    parts: &Parts<H>,
    alloc: Global,
    name: &str,
    schema: &str,
) -> Result<bool, AllocError>
    requires { AreWhole H.held H.is_broken parts.now.holders.entries }
    ensures { IfOk result (λ b. b
        ≡ legal (collection name.now schema.now) (world_in H.held (holders_of parts.now))) }
{
    if !is_name(name) || find(&parts.holders, name).is_some() {
        return Ok(false);
    }
    if parts.holders.len() >= MAX_COLLECTIONS {
        return Ok(false);
    }
    Ok(schema_in(alloc, schema)?.is_some())
}

// Whether a collection takes the rows at that write time.
pub(crate) fn takes(collection: &Collection, lwt: u64, rows: &[RowOut]) -> bool
    ensures { result ≡ takes lwt rows.now collection.now }
{
    !rows.is_empty() && collection.last_lwt() < lwt && lwt <= MOST_LWT && are_due(collection, rows)
}

pub(crate) fn takes_views(collection: &Collection, lwt: u64, rows: &RowViews<'_>) -> bool
    ensures { result ≡ takes lwt (rows_left rows.now) collection.now }
{
    let mut rows = *rows;
    let Some(first) = rows.next() else {
        return false;
    };
    if lwt <= collection.last_lwt() || MOST_LWT < lwt {
        return false;
    }
    is_next_view(collection, &first) && are_due_views(collection, &rows)
}

fn are_due_views(collection: &Collection, rows: &RowViews<'_>) -> bool
    ensures { result ≡ list_all (is_next_row collection.now) (rows_left rows.now) }
{
    let mut rows = *rows;
    while let Some(row) = rows.next() {
        if !is_next_view(collection, &row) {
            return false;
        }
    }
    true
}

fn is_next_view(collection: &Collection, row: &RowView<'_>) -> bool
    ensures { result ≡ is_next_row collection.now (row_in row.now) }
{
    is_valid_view(collection.schema(), &row.state)
        && is_next_height(collection, row.state.key, row.height)
}

fn are_due(collection: &Collection, rows: &[RowOut]) -> bool
    ensures { result ≡ list_all (is_next_row collection.now) rows.now }
{
    rows.iter().all(|row| is_next_row(collection, row))
}

fn is_next_row(collection: &Collection, row: &RowOut) -> bool
    ensures { result ≡ is_next_row collection.now row.now }
{
    if !is_valid(collection.schema(), &row.state) {
        return false;
    }
    is_next_height(collection, row.state.key.as_str(), row.height)
}

fn is_next_height(collection: &Collection, key: &str, height: u64) -> bool
    ensures { result ≡ (height == next_height (named collection.now.documents key.now)) }
{
    match collection.get(key) {
        Some(held) => height == held.rev.height + 1,
        None => height == 1,
    }
}

pub(crate) fn is_valid(schema: &Schema, state: &State) -> bool
    ensures { result ≡ is_valid_state schema.now state.now }
{
    schema.valid(&state.fields).is_ok()
        && is_text(state.fields.get(schema.primary()), state.key.as_str())
}

fn is_next(number: u64, last: u64) -> bool
    ensures { result ≡ (number == last + 1) }
{
    match number.checked_sub(1) {
        Some(before) => before == last,
        None => false,
    }
}
