ghost use Rattle.std.specs.Prelude.{◌≡◌, ◌∷◌, ◌++◌, ◌<◌, [], length, None, IfNone, IfSome, IfOk, OnOk, OnErr, slice_get, option_map};
ghost use Rattle.rx_value.specs.Named.{named, put_in_order};
ghost use Rattle.rx_runs.specs.Marked.{all_slots};
ghost use Rattle.rx_runs.specs.Rows.{shown, AreSlots};
ghost use Rattle.std.specs.List.{filter};
ghost use Rattle.std.specs.Vec.{vec_len, vec_capacity};
ghost use Rattle.rx_collection.specs.Log.{standing_at, written, is_up_to, is_standing, AreKeyed, IsWritten};
ghost use Rattle.rx_collection.specs.Hints.{AreKnown};
ghost use Rattle.rx_collection.specs.Marks.{AreMarked};

use crate::hints::Hints;
use rx_document::{Place, Stored};
use rx_runs::{MarkedRun, Slots};
use std::alloc::{AllocError, Global};

// A log of fewer writes is kept as it is.
const FEW: usize = 64;

/// Makes room for a write more. By an eighth at a time, so that a long log has little to spare.
pub(crate) fn reserve(log: &mut Vec<(u64, u32)>) -> Result<(), AllocError>
    ensures same { log.new.items ≡ log.old.items }
    ensures room { OnOk result (vec_len log.new < vec_capacity log.new) }
{
    if log.len() < log.capacity() {
        return Ok(());
    }
    log.reserve_exact(log.len() / 8 + FEW)
}

// The document of a write that stands.
fn standing(rows: &Slots<Stored>, lwt: u64, slot: u32) -> Option<&Stored>
    ensures { option_map (λ d. d.now) result ≡ standing_at lwt (slice_get rows.now slot) }
{
    if slot as usize >= rows.len() {
        return None;
    }
    let row = rows.at(slot as usize);
    if row.lwt == lwt { Some(row) } else { None }
}

// Whether the place of a write is at most that one.
pub(crate) fn is_up_to(rows: &Slots<Stored>, lwt: u64, slot: u32, place: &Place) -> bool
    ensures { result ≡ is_up_to place.now lwt (slice_get rows.now slot) }
{
    if slot as usize >= rows.len() {
        return true;
    }
    let key = &rows.at(slot as usize).state.key;
    lwt.cmp(&place.lwt)
        .then(key.compare(place.id.as_str()))
        .is_le()
}

// The next document of those that stand, and the writes after its own.
pub(crate) fn next_standing<'a>(
    rows: &'a Slots<Stored>,
    mut log: &'a [(u64, u32)],
) -> (Option<&'a Stored>, &'a [(u64, u32)])
    ensures none { IfNone result.0 (written rows.entry.now log.entry.now ≡ []) }
    ensures end { IfNone result.0 (written rows.entry.now result.1.now ≡ []) }
    ensures some { IfSome result.0 (λ d. written rows.entry.now log.entry.now
        ≡ d.now ∷ written rows.entry.now result.1.now) }
{
    'writes: while !log.is_empty() {
        let (lwt, slot) = log[0];
        log = &log[1..];
        if let Some(row) = standing(rows, lwt, slot) {
            return (Some(row), log);
        }
    }
    (None, log)
}

/// The slot of a key.
pub(crate) fn slot_of(
    names: &MarkedRun,
    rows: &Slots<Stored>,
    hints: &Hints,
    key: &str,
) -> Option<u32>
    requires slots { AreSlots rows.now (all_slots names.now) }
    requires keyed { AreKeyed rows.now (all_slots names.now) }
    requires known { AreKnown hints.now rows.now }
    ensures { result ≡ named (all_slots names.now) key.now }
{
    match hints.find(rows, key) {
        Some(slot) => Some(slot),
        None if hints.is_whole() => None,
        None => names.get(key.as_bytes()),
    }
}

// The slot of the document in whose place a row comes.
fn old_slot(names: &MarkedRun, rows: &Slots<Stored>, hints: &Hints, row: &Stored) -> Option<u32>
    requires slots { AreSlots rows.now (all_slots names.now) }
    requires keyed { AreKeyed rows.now (all_slots names.now) }
    requires known { AreKnown hints.now rows.now }
    requires first { row.now.rev.height ≡ 1 → named (all_slots names.now) row.now.state.key ≡ None }
    ensures { result ≡ named (all_slots names.now) row.now.state.key }
{
    // The first row of a key has none, so it isn't searched for.
    if row.rev.height == 1 {
        return None;
    }
    slot_of(names, rows, hints, row.state.key.as_str())
}

/// Writes a row into its key's slot, or into a new one, and gives the slot.
pub(crate) fn write(
    names: &mut MarkedRun,
    rows: &mut Slots<Stored>,
    hints: &mut Hints,
    row: Stored,
) -> Result<u32, AllocError>
    requires slots { AreSlots rows.old (all_slots names.old) }
    requires keyed { AreKeyed rows.old (all_slots names.old) }
    requires known { AreKnown hints.old rows.old }
    requires first { row.rev.height ≡ 1 → named (all_slots names.old) row.state.key ≡ None }
    ensures ok { IfOk result (λ s. IsWritten rows.old (all_slots names.old) row rows.new
        (all_slots names.new) s) }
    ensures marks { OnOk result (AreMarked (shown rows.old (all_slots names.old)) names.old
        → AreMarked (put_in_order (shown rows.old (all_slots names.old)) row.state.key row)
        names.new) }
    ensures known { AreKnown hints.new rows.new }
    ensures err_rows { OnErr result (rows.new ≡ rows.old) }
    ensures err_names { OnErr result (names.new ≡ names.old) }
{
    match old_slot(names, rows, hints, &row) {
        Some(slot) => {
            turn(names, rows, slot, &row)?;
            let _old = rows.replace(slot as usize, row);
            Ok(slot)
        }
        None => {
            let slot = add(names, rows, row)?;
            hints.note(rows, slot);
            Ok(slot)
        }
    }
}

// Gives a row's key the row's mark, where the document in its slot has another.
fn turn(
    names: &mut MarkedRun,
    rows: &Slots<Stored>,
    slot: u32,
    row: &Stored,
) -> Result<(), AllocError>
    requires slots { AreSlots rows.now (all_slots names.old) }
    requires there { named (all_slots names.old) row.now.state.key ≡ Some slot }
    ensures same { OnOk result (all_slots names.new ≡ all_slots names.old) }
    ensures marks { OnOk result (AreMarked (shown rows.now (all_slots names.old)) names.old
        → AreMarked
        (put_in_order (shown rows.now (all_slots names.old)) row.now.state.key row.now)
        names.new) }
    ensures err { OnErr result (names.new ≡ names.old) }
{
    let deleted = row.state.deleted;
    if rows.at(slot as usize).state.deleted == deleted {
        return Ok(());
    }
    names.turn(row.state.key.as_str(), slot, deleted)?;
    Ok(())
}

fn add(names: &mut MarkedRun, rows: &mut Slots<Stored>, row: Stored) -> Result<u32, AllocError>
    requires slots { AreSlots rows.old (all_slots names.old) }
    requires new { named (all_slots names.old) row.state.key ≡ None }
    ensures slot { IfOk result (λ s. s ≡ length rows.old) }
    ensures rows { OnOk result (rows.new ≡ rows.old ++ row ∷ []) }
    ensures names { IfOk result
        (λ s. all_slots names.new ≡ put_in_order (all_slots names.old) row.state.key s) }
    ensures marks { OnOk result (AreMarked (shown rows.old (all_slots names.old)) names.old
        → AreMarked (put_in_order (shown rows.old (all_slots names.old)) row.state.key row)
        names.new) }
    ensures err_rows { OnErr result (rows.new ≡ rows.old) }
    ensures err_names { OnErr result (names.new ≡ names.old) }
{
    let Ok(slot) = u32::try_from(rows.len()) else {
        return Err(AllocError);
    };
    let Ok(()) = rows.push(row) else {
        return Err(AllocError);
    };
    let state = &rows.at(slot as usize).state;
    let Ok(()) = names.add(state.key.as_str(), slot, state.deleted) else {
        let _row = rows.pop();
        return Err(AllocError);
    };
    Ok(slot)
}

/// The writes that stand, where so many are stale that it's worth it, and there is memory.
pub(crate) fn kept(
    alloc: Global,
    rows: &Slots<Stored>,
    log: &[(u64, u32)],
) -> Option<Vec<(u64, u32)>>
    ensures { IfSome result (λ kept. kept.items ≡ filter (is_standing rows.now) log.now) }
{
    if log.len() / 2 <= rows.len() || log.len() < FEW {
        return None;
    }
    log.iter()
        .copied()
        .filter(|write| stands(rows, write.0, write.1))
        .collect(alloc)
        .ok()
}

fn stands(rows: &Slots<Stored>, lwt: u64, slot: u32) -> bool
    ensures { result ≡ is_standing rows.now (lwt, slot) }
{
    standing(rows, lwt, slot).is_some()
}
