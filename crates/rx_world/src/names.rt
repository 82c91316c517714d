// Holders by name.
ghost use Rattle.std.specs.Prelude.{◌≡◌, ◌<◌, false, None, Some, OnOk, IfSome, IfNone, length, option_map, slice_get, string_bytes};
ghost use Rattle.std.specs.Fn.{FnOnceTakesAtMut};
ghost use Rattle.std.specs.Option.{ForSome};
ghost use Rattle.rx_value.specs.Named.{by_bytes, by_name, named, put_named, change_named};
ghost use Rattle.rx_collection.specs.Commit.{AreNext};
ghost use Rattle.rx_world.specs.Edit.{Edited, Leaves, LeavesWhole};
ghost use Rattle.rx_world.specs.Holders.{AreWhole, IsWhole};
ghost use Rattle.rx_world.specs.Step.{stored_rows, written_to};

use crate::rows::stored_rows;
use indexmap::IndexMap;
use rx_collection::Holder;
use rx_record::RowOut;
use std::alloc::{AllocError, Global};

pub(crate) fn find<'a, H: Holder>(holders: &'a IndexMap<String, H>, name: &str) -> Option<&'a H>
    ensures found { option_map (λ h. h.now) result ≡ named (by_bytes holders.now.entries) name.now }
    ensures held { option_map (λ h. H.held h.now) result
        ≡ named (by_name H.held holders.now.entries) name.now }
    ensures whole { AreWhole H.held H.is_broken holders.now.entries
        → IfSome result (λ h. IsWhole H.held H.is_broken name.now h.now) }
{
    holders.get(name)
}

// The holder at a place in the order of their making.
pub(crate) fn find_at<H: Holder>(holders: &IndexMap<String, H>, i: usize) -> &H
    requires within { i < length (by_bytes holders.now.entries) }
    requires whole { AreWhole H.held H.is_broken holders.now.entries }
    ensures found { slice_get (by_name H.held holders.now.entries) i
        ≡ Some ((H.held result.now).name, H.held result.now) }
    ensures whole { H.is_broken result.now ≡ false }
{
    let (_, holder) = holders.get_index(i).unwrap();
    holder
}

pub(crate) fn add<H: Holder + Drop>(
    holders: &mut IndexMap<String, H>,
    name: String,
    holder: H,
) -> Result<(), AllocError>
    requires { IsWhole H.held H.is_broken (string_bytes name) holder }
    ensures held { OnOk result (by_name H.held holders.new.entries
        ≡ put_named (by_name H.held holders.old.entries) (string_bytes name) (H.held holder)) }
    ensures holders { OnOk result (by_bytes holders.new.entries
        ≡ put_named (by_bytes holders.old.entries) (string_bytes name) holder) }
    ensures whole { AreWhole H.held H.is_broken holders.old.entries
        → OnOk result (AreWhole H.held H.is_broken holders.new.entries) }
{
    holders.insert(name, holder)?;
    Ok(())
}

// Writes the rows of a record to the holder of a name. After an `Err` it may be broken.
pub(crate) fn write<H: Holder>(
    holders: &mut IndexMap<String, H>,
    alloc: Global,
    name: &str,
    lwt: u64,
    rows: Vec<RowOut>,
) -> Result<(), AllocError>
    requires whole { AreWhole H.held H.is_broken holders.old.entries }
    requires next { ForSome (named (by_name H.held holders.old.entries) name.now)
        (λ c. AreNext c (stored_rows c.name lwt rows.items)) }
    ensures held { OnOk result (by_name H.held holders.new.entries
        ≡ change_named (by_name H.held holders.old.entries) name.now (written_to lwt rows.items)) }
    ensures holders { OnOk result (by_bytes holders.new.entries
        ≡ change_named (by_bytes holders.old.entries) name.now
        (λ h. H.written h (stored_rows (H.held h).name lwt rows.items))) }
    ensures whole { OnOk result (AreWhole H.held H.is_broken holders.new.entries) }
{
    match holders.get_mut(name) {
        Some(holder) => Ok(write_to(holder, alloc, lwt, rows)?),
        None => Ok(()),
    }
}

fn write_to<H: Holder>(
    holder: &mut H,
    alloc: Global,
    lwt: u64,
    rows: Vec<RowOut>,
) -> Result<(), AllocError>
    requires whole { H.is_broken holder.old ≡ false }
    requires next { AreNext (H.held holder.old)
        (stored_rows (H.held holder.old).name lwt rows.items) }
    ensures held { OnOk result (H.held holder.new ≡ written_to lwt rows.items (H.held holder.old)) }
    ensures written { OnOk result (holder.new
        ≡ H.written holder.old (stored_rows (H.held holder.old).name lwt rows.items)) }
    ensures whole { OnOk result (H.is_broken holder.new ≡ false) }
{
    let rows = stored_rows(alloc, holder.collection().name(), lwt, rows)?;
    holder.put_rows(rows)
}

// Calls a function on the holder of a name, which leaves its collection.
pub(crate) fn edit<H: Holder, R, F: FnOnce(&mut H) -> R + Drop>(
    holders: &mut IndexMap<String, H>,
    name: &str,
    f: F,
) -> Option<R>
    requires callable { ForSome (named (by_bytes holders.old.entries) name.now)
        (λ h. IsWhole H.held H.is_broken name.now h → FnOnceTakesAtMut F.FnOnce f h) }
    requires keeps { ForSome (named (by_bytes holders.old.entries) name.now)
        (λ h. IsWhole H.held H.is_broken name.now h → Leaves H.held F.FnOnce f h) }
    requires unbroken { ForSome (named (by_bytes holders.old.entries) name.now)
        (λ h. IsWhole H.held H.is_broken name.now h → LeavesWhole H.is_broken F.FnOnce f h) }
    requires whole { AreWhole H.held H.is_broken holders.old.entries }
    ensures done { IfSome result (Edited F.FnOnce f name.now (by_bytes holders.old.entries)
        (by_bytes holders.new.entries)) }
    ensures none { IfNone result (named (by_bytes holders.old.entries) name.now ≡ None) }
    ensures same { IfNone result (holders.new.entries ≡ holders.old.entries) }
    ensures held { by_name H.held holders.new.entries ≡ by_name H.held holders.old.entries }
    ensures whole { AreWhole H.held H.is_broken holders.new.entries }
{
    match holders.get_mut(name) {
        Some(holder) => Some(f(holder)),
        None => None,
    }
}
