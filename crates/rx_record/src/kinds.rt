ghost use Rattle.rx_record.specs.Reading.{Reads};
ghost use Rattle.rx_record.specs.Content.{content_of, collection_of, written_of, replication_of, exchange_of, epoch_of};
ghost use Rattle.rx_record.specs.Content.{migration_of, part_of, known_part_of, end_epoch_of};
ghost use Rattle.rx_record.specs.Shown.{content_in};
ghost use Rattle.std.specs.Prelude.{◌≡◌};

use crate::master_view::read_master;
use crate::part_rows::read_part_rows;
use crate::place_view::read_place_if_there;
use crate::reading::{Read, read_byte, read_long, read_text, read_text_if_there};
use crate::record_view::RecordView;
use crate::rows::{read_rows, read_states};
use crate::step_list::read_steps;

pub(crate) const COLLECTION: u8 = 1;

pub(crate) const ROWS: u8 = 2;

pub(crate) const REPLICATION: u8 = 3;

pub(crate) const EXCHANGE: u8 = 4;

pub(crate) const EPOCH: u8 = 5;

pub(crate) const MIGRATION: u8 = 6;

pub(crate) const PART: u8 = 7;

pub(crate) const KNOWN_PART: u8 = 8;

pub(crate) const END: u8 = 9;

pub(crate) fn read_record(body: &[u8]) -> Read<'_, RecordView<'_>>
    ensures { Reads content_in result (content_of body.now) }
{
    let (kind, rest) = read_byte(body)?;
    match kind {
        COLLECTION => read_collection(rest),
        ROWS => read_written(rest),
        REPLICATION => read_replication(rest),
        EXCHANGE => read_exchange(rest),
        EPOCH => read_epoch(rest),
        MIGRATION => read_migration(rest),
        PART => read_part(rest),
        KNOWN_PART => read_known_part(rest),
        END => read_end(rest),
        _ => Err(body.len()),
    }
}

fn read_collection(bytes: &[u8]) -> Read<'_, RecordView<'_>>
    ensures { Reads content_in result (collection_of bytes.now) }
{
    let (name, rest) = read_text(bytes)?;
    let (schema, rest) = read_text(rest)?;
    Ok((RecordView::Collection { name, schema }, rest))
}

fn read_written(bytes: &[u8]) -> Read<'_, RecordView<'_>>
    ensures { Reads content_in result (written_of bytes.now) }
{
    let (name, rest) = read_text(bytes)?;
    let (lwt, rest) = read_long(rest)?;
    let (rows, rest) = read_rows(rest)?;
    Ok((RecordView::Rows { name, lwt, rows }, rest))
}

fn read_replication(bytes: &[u8]) -> Read<'_, RecordView<'_>>
    ensures { Reads content_in result (replication_of bytes.now) }
{
    let (name, rest) = read_text(bytes)?;
    let (fork, rest) = read_text(rest)?;
    let (master, rest) = read_master(rest)?;
    let (handler, rest) = read_text(rest)?;
    let (field, rest) = read_text_if_there(rest)?;
    let view = RecordView::Replication {
        name,
        fork,
        master,
        handler,
        field,
    };
    Ok((view, rest))
}

fn read_exchange(bytes: &[u8]) -> Read<'_, RecordView<'_>>
    ensures { Reads content_in result (exchange_of bytes.now) }
{
    let (name, rest) = read_text(bytes)?;
    let (lwt, rest) = read_long(rest)?;
    let (rows, rest) = read_rows(rest)?;
    let (known, rest) = read_states(rest)?;
    let (up, rest) = read_place_if_there(rest)?;
    let (down, rest) = read_place_if_there(rest)?;
    let view = RecordView::Exchange {
        name,
        lwt,
        rows,
        known,
        up,
        down,
    };
    Ok((view, rest))
}

fn read_epoch(bytes: &[u8]) -> Read<'_, RecordView<'_>>
    ensures { Reads content_in result (epoch_of bytes.now) }
{
    let (number, rest) = read_long(bytes)?;
    Ok((RecordView::Epoch { number }, rest))
}

fn read_migration(bytes: &[u8]) -> Read<'_, RecordView<'_>>
    ensures { Reads content_in result (migration_of bytes.now) }
{
    let (name, rest) = read_text(bytes)?;
    let (schema, rest) = read_text(rest)?;
    let (steps, rest) = read_steps(rest)?;
    let view = RecordView::Migration {
        name,
        schema,
        steps,
    };
    Ok((view, rest))
}

fn read_part(bytes: &[u8]) -> Read<'_, RecordView<'_>>
    ensures { Reads content_in result (part_of bytes.now) }
{
    let (name, rest) = read_text(bytes)?;
    let (rows, rest) = read_part_rows(rest)?;
    Ok((RecordView::Part { name, rows }, rest))
}

fn read_known_part(bytes: &[u8]) -> Read<'_, RecordView<'_>>
    ensures { Reads content_in result (known_part_of bytes.now) }
{
    let (name, rest) = read_text(bytes)?;
    let (known, rest) = read_states(rest)?;
    let (up, rest) = read_place_if_there(rest)?;
    let (down, rest) = read_place_if_there(rest)?;
    let view = RecordView::KnownPart {
        name,
        known,
        up,
        down,
    };
    Ok((view, rest))
}

fn read_end(bytes: &[u8]) -> Read<'_, RecordView<'_>>
    ensures { Reads content_in result (end_epoch_of bytes.now) }
{
    let (number, rest) = read_long(bytes)?;
    Ok((RecordView::End { number }, rest))
}
