ghost use Rattle.std.specs.Prelude.{◌≡◌, ◌<◌, ◌^◌, ◌++◌, true, IsTrue, IfOk, IfSome, Option, List, ℕ};
ghost use Rattle.std.specs.Int.{w16, w32, w64};
ghost use Rattle.rx_value.specs.Value.{is_value};
ghost use Rattle.rx_record.specs.Parts.{flag_bytes, number_bytes, number_of, text_bytes, text_of, is_above, option_bytes, option_of};
ghost use Rattle.rx_record.specs.Fields.{value_bytes, value_of, fields_bytes, fields_of};
ghost use Rattle.rx_record.specs.Rows.{state_bytes, state_of, states_bytes, states_of, row_bytes, row_of, rows_bytes, rows_of};
ghost use Rattle.rx_record.specs.Places.{place_bytes, read_place};
ghost use Rattle.rx_record.specs.Masters.{master_bytes, master_of};
ghost use Rattle.rx_record.specs.Content.{replication, exchange, content_bytes, content_of};
ghost use Rattle.rx_record.specs.Shown.{content};
ghost use Rattle.rx_record.specs.Writable.{IsOrdered, IsOrderedExchange, KeysRise, StatesRise, HasTime, ReadsBack, ShortReadsBack};

use crate::kinds::{COLLECTION, END, EPOCH, EXCHANGE, REPLICATION, ROWS};
use crate::known_part::put_known_part;
use crate::migration::put_migration;
use crate::part_rows::put_part;
use crate::record::{MasterName, Record, RowOut};
use crate::value_view::{FLAG, NUMBER, TEXT};
use rx_document::Place;
use rx_value::{Fields, RxText, State, Value};
use std::alloc::AllocError;

fn put_flag(out: &mut Vec<u8>, flag: bool) -> Result<(), AllocError>
    ensures { IfOk result (λ _. out.new.items ≡ out.old.items ++ flag_bytes flag) }
{
    out.extend_from_slice(&[u8::from(flag)])
}

// The low four bytes of a count.
#[tactic(auto, unfolding(crate::specs::Parts::number_bytes))]
pub(crate) fn put_count(out: &mut Vec<u8>, count: usize) -> Result<(), AllocError>
    ensures { IfOk result (λ _. out.new.items ≡ out.old.items ++ number_bytes w32 count) }
{
    let low = (count % (1 << 32)) as u32;
    out.extend_from_slice(&low.to_be_bytes())
}

// A number in two bytes.
#[tactic(auto, unfolding(crate::specs::Parts::number_bytes))]
pub(crate) fn put_short(out: &mut Vec<u8>, number: u16) -> Result<(), AllocError>
    ensures bytes { IfOk result (λ _. out.new.items ≡ out.old.items ++ number_bytes w16 number) }
    ensures back { IfOk result (λ _. ReadsBack (number_bytes w16) (number_of w16) number) }
{
    out.extend_from_slice(&number.to_be_bytes())
}

// A number in eight bytes.
#[tactic(auto, unfolding(crate::specs::Parts::number_bytes))]
pub(crate) fn put_long(out: &mut Vec<u8>, number: u64) -> Result<(), AllocError>
    ensures bytes { IfOk result (λ _. out.new.items ≡ out.old.items ++ number_bytes w64 number) }
    ensures back { IfOk result (λ _. ReadsBack (number_bytes w64) (number_of w64) number) }
{
    out.extend_from_slice(&number.to_be_bytes())
}

// A text with its length.
pub(crate) fn put_text(out: &mut Vec<u8>, text: &str) -> Result<(), AllocError>
    ensures bytes { IfOk result (λ _. out.new.items ≡ out.old.items ++ text_bytes text.now) }
    ensures back { IfOk result (λ _. ShortReadsBack text_bytes text_of text.now) }
{
    put_count(out, text.len())?;
    out.extend_from_slice(text.as_bytes())
}

// A text, if there is one.
fn put_text_if_there(out: &mut Vec<u8>, text: &Option<RxText>) -> Result<(), AllocError>
    ensures bytes { IfOk result
        (λ _. out.new.items ≡ out.old.items ++ option_bytes text_bytes text.now) }
    ensures back { IfOk result
        (λ _. ShortReadsBack (option_bytes text_bytes) (option_of text_of) text.now) }
{
    match text {
        Some(text) => {
            put_flag(out, true)?;
            put_text(out, text.as_str())
        }
        None => put_flag(out, false),
    }
}

fn put_place(out: &mut Vec<u8>, place: &Place) -> Result<(), AllocError>
    ensures bytes { IfOk result (λ _. out.new.items ≡ out.old.items ++ place_bytes place.now) }
    ensures back { HasTime place.now
        → IfOk result (λ _. ShortReadsBack place_bytes read_place place.now) }
{
    put_long(out, place.lwt)?;
    put_text(out, place.id.as_str())
}

// A place, if there is one.
pub(crate) fn put_place_if_there(out: &mut Vec<u8>, place: &Option<Place>) -> Result<(), AllocError>
    ensures bytes { IfOk result
        (λ _. out.new.items ≡ out.old.items ++ option_bytes place_bytes place.now) }
    ensures back { IfSome place.now HasTime → IfOk result
        (λ _. ShortReadsBack (option_bytes place_bytes) (option_of read_place) place.now) }
{
    match place {
        Some(place) => {
            put_flag(out, true)?;
            put_place(out, place)
        }
        None => put_flag(out, false),
    }
}

fn put_master(out: &mut Vec<u8>, master: &MasterName) -> Result<(), AllocError>
    ensures bytes { IfOk result (λ _. out.new.items ≡ out.old.items ++ master_bytes master.now) }
    ensures back { IfOk result (λ _. ShortReadsBack master_bytes master_of master.now) }
{
    match master {
        MasterName::Local(name) => {
            put_flag(out, false)?;
            put_text(out, name.as_str())
        }
        MasterName::Port(port) => {
            put_flag(out, true)?;
            put_short(out, *port)
        }
    }
}

pub(crate) fn put_value(out: &mut Vec<u8>, value: &Value) -> Result<(), AllocError>
    requires { IsTrue (is_value value.now) }
    ensures bytes { IfOk result (λ _. out.new.items ≡ out.old.items ++ value_bytes value.now) }
    ensures back { IfOk result (λ _. ShortReadsBack value_bytes value_of value.now) }
{
    match value {
        Value::Flag(flag) => out.extend_from_slice(&[FLAG, u8::from(*flag)]),
        Value::Int(number) => {
            out.push(NUMBER)?;
            put_long(out, number.cast_unsigned())
        }
        Value::Text(text) => {
            out.push(TEXT)?;
            put_text(out, text.as_str())
        }
    }
}

// Fields, from their count on.
fn put_fields(out: &mut Vec<u8>, fields: &Fields) -> Result<(), AllocError>
    ensures bytes { IfOk result (λ _. out.new.items ≡ out.old.items ++ fields_bytes fields.now) }
    ensures back { IfOk result (λ _. ShortReadsBack fields_bytes fields_of fields.now) }
{
    put_count(out, fields.len())?;
    for i in 0..fields.len() {
        let (name, value) = fields.at(i);
        put_text(out, name.as_str())?;
        put_value(out, value)?;
    }
    Ok(())
}

pub(crate) fn put_state(out: &mut Vec<u8>, state: &State) -> Result<(), AllocError>
    ensures bytes { IfOk result (λ _. out.new.items ≡ out.old.items ++ state_bytes state.now) }
    ensures back { IfOk result (λ _. (last : Option (List ℕ)) → is_above last state.now.key ≡ true
        → ShortReadsBack state_bytes (state_of last) state.now) }
{
    put_text(out, state.key.as_str())?;
    out.push(u8::from(state.deleted))?;
    put_fields(out, &state.fields)
}

// States, from their count on.
pub(crate) fn put_states(out: &mut Vec<u8>, known: &[State]) -> Result<(), AllocError>
    ensures bytes { IfOk result (λ _. out.new.items ≡ out.old.items ++ states_bytes known.now) }
    ensures back { StatesRise known.now
        → IfOk result (λ _. ShortReadsBack states_bytes states_of known.now) }
{
    put_count(out, known.len())?;
    for state in known {
        put_state(out, state)?;
    }
    Ok(())
}

// Rows, from their count on.
fn put_rows(out: &mut Vec<u8>, rows: &[RowOut]) -> Result<(), AllocError>
    ensures bytes { IfOk result (λ _. out.new.items ≡ out.old.items ++ rows_bytes rows.now) }
    ensures back { KeysRise rows.now
        → IfOk result (λ _. ShortReadsBack rows_bytes rows_of rows.now) }
{
    put_count(out, rows.len())?;
    for row in rows {
        put_long(out, row.height)?;
        put_state(out, &row.state)?;
    }
    Ok(())
}

pub(crate) fn put_record(out: &mut Vec<u8>, written: &Record) -> Result<(), AllocError>
    ensures bytes { IfOk result
        (λ _. out.new.items ≡ out.old.items ++ content_bytes (content written.now)) }
    ensures back { IsOrdered (content written.now)
        → IfOk result (λ _. ShortReadsBack content_bytes content_of (content written.now)) }
{
    match written {
        Record::Collection { name, schema } => {
            out.push(COLLECTION)?;
            put_text(out, name.as_str())?;
            put_text(out, schema.as_str())
        }
        Record::Rows { name, lwt, rows } => {
            out.push(ROWS)?;
            put_text(out, name.as_str())?;
            put_long(out, *lwt)?;
            put_rows(out, rows.as_slice())
        }
        Record::Replication {
            name,
            fork,
            master,
            handler,
            field,
        } => put_replication(out, name, fork, master, handler, field),
        Record::Exchange {
            name,
            lwt,
            rows,
            known,
            up,
            down,
        } => put_exchange(out, name, *lwt, rows.as_slice(), known.as_slice(), up, down),
        Record::Epoch { number } => {
            out.push(EPOCH)?;
            put_long(out, *number)
        }
        Record::Migration {
            name,
            schema,
            steps,
        } => put_migration(out, name, schema, steps),
        Record::Part { name, rows } => put_part(out, name, rows.as_slice()),
        Record::KnownPart {
            name,
            known,
            up,
            down,
        } => put_known_part(out, name, known.as_slice(), up, down),
        Record::End { number } => {
            out.push(END)?;
            put_long(out, *number)
        }
    }
}

fn put_replication(
    out: &mut Vec<u8>,
    name: &RxText,
    fork: &RxText,
    master: &MasterName,
    handler: &RxText,
    field: &Option<RxText>,
) -> Result<(), AllocError>
    ensures bytes { IfOk result (λ _. out.new.items ≡ out.old.items
        ++ content_bytes (replication name.now fork.now master.now handler.now field.now)) }
    ensures back { IfOk result (λ _. ShortReadsBack content_bytes content_of
        (replication name.now fork.now master.now handler.now field.now)) }
{
    out.push(REPLICATION)?;
    put_text(out, name.as_str())?;
    put_text(out, fork.as_str())?;
    put_master(out, master)?;
    put_text(out, handler.as_str())?;
    put_text_if_there(out, field)
}

fn put_exchange(
    out: &mut Vec<u8>,
    name: &RxText,
    lwt: u64,
    rows: &[RowOut],
    known: &[State],
    up: &Option<Place>,
    down: &Option<Place>,
) -> Result<(), AllocError>
    ensures bytes { IfOk result (λ _. out.new.items ≡ out.old.items
        ++ content_bytes (exchange name.now lwt rows.now known.now up.now down.now)) }
    ensures back { IsOrderedExchange rows.now known.now up.now down.now → IfOk result
        (λ _. ShortReadsBack content_bytes content_of
        (exchange name.now lwt rows.now known.now up.now down.now)) }
{
    out.push(EXCHANGE)?;
    put_text(out, name.as_str())?;
    put_long(out, lwt)?;
    put_rows(out, rows)?;
    put_states(out, known)?;
    put_place_if_there(out, up)?;
    put_place_if_there(out, down)
}
