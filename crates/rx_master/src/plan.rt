ghost use Rattle.std.specs.Prelude.{◌≡◌, map, IfOk, option_map};
ghost use Rattle.std.specs.List.{IsDistinct};
ghost use Rattle.std.specs.Str.{bytes_eq};
ghost use Rattle.rx_replication.specs.Master.{conflict_of, conflicts, writes};

use rx_collection::Collection;
use rx_value::{RxList, State};
use rx_wire::PushRow;
use std::alloc::{AllocError, Global};

/// What a push comes to at the master.
#[derive(Debug, Drop)]
pub struct MasterPlan {
    /// The new states that the master takes, in the order of their rows.
    pub writes: RxList<State>,
    /// The master's states of all other rows, in the order of the rows.
    pub conflicts: RxList<State>,
}

/// Compares each row's assumed state with the one that the collection holds.
pub fn take(
    alloc: Global,
    collection: &Collection,
    rows: &[PushRow],
) -> Result<MasterPlan, AllocError>
    ensures writes { IfOk result (λ plan. plan.writes ≡ writes collection.now.documents rows.now) }
    ensures conflicts { IfOk result (λ plan. plan.conflicts
        ≡ conflicts collection.now.documents rows.now) }
    ensures distinct { IsDistinct bytes_eq (map (λ row. row.new.key) rows.now)
        → IfOk result (λ plan. IsDistinct bytes_eq (map (λ s. s.key) plan.writes)) }
{
    let mut plan = MasterPlan {
        writes: RxList::new(alloc),
        conflicts: RxList::new(alloc),
    };
    for row in rows {
        match conflict_of(collection, row) {
            Some(real) => plan.conflicts.push(real.copy(alloc)?)?,
            None => plan.writes.push(row.new.copy(alloc)?)?,
        }
    }
    Ok(plan)
}

// The state that the row meets in place of the assumed one.
fn conflict_of<'a>(collection: &'a Collection, row: &PushRow) -> Option<&'a State>
    ensures { option_map (λ s. s.now) result ≡ conflict_of collection.now.documents row.now }
{
    let held = collection.get(row.new.key.as_str())?;
    match &row.assumed {
        Some(assumed) if *assumed == held.state => None,
        _ => Some(&held.state),
    }
}
