// A request that the link brings late.
ghost use Rattle.std.specs.Prelude.{◌≡◌, None, Some, IfOk, IsErrOf, option_map};
ghost use Rattle.rx_world.specs.Holders.{world_in};
ghost use Rattle.rx_world.specs.Sound.{IsSoundWorld};
ghost use Rattle.rx_sync.specs.Exchange.{late_request, late_records};
ghost use Rattle.rx_sync.specs.Laws.{ComeSoundly, HasMasterHere, RemembersLawful};
ghost use Rattle.rx_sync.specs.Shown.{record_in};

use crate::asks::Asks;
use crate::handling::handle_for;
use rx_collection::Holder;
use rx_record::Record;
use rx_script::Happening;
use rx_wire::Request;
use rx_world::{StepFault, World};
use std::alloc::Global;

/// The record of an earlier request that is handled before the newest one, where the link brings
/// one late and the master writes. Its reply is lost.
pub fn late<H: Holder + Drop>(
    alloc: Global,
    world: &World<H>,
    name: &str,
    asks: &Asks,
    happening: Happening,
    now: u64,
) -> Result<Option<Record>, StepFault>
    requires master { HasMasterHere (world_in H.held world.now) name.now }
    requires asks { RemembersLawful (world_in H.held world.now) name.now asks.now }
    ensures written { IfOk result (λ written. late_records name.now now (world_in H.held world.now)
        (late_request happening asks.now) ≡ Some (record_in written)) }
    ensures clock_end { IsErrOf result StepFault.ClockEnd → late_records name.now now
        (world_in H.held world.now) (late_request happening asks.now) ≡ None }
    ensures next { IsSoundWorld (world_in H.held world.now) → IfOk result
        (λ written. ComeSoundly (world_in H.held world.now) (record_in written)) }
{
    match late_request(asks, happening) {
        Some(request) => Ok(handle_for(alloc, world, name, request, now)?.written),
        None => Ok(None),
    }
}

// The earlier request that the link brings, where there is one.
fn late_request(asks: &Asks, happening: Happening) -> Option<&Request>
    ensures { option_map (λ q. q.now) result ≡ late_request happening asks.now }
{
    match happening {
        Happening::Late(j) => asks.earlier(j as usize),
        _ => None,
    }
}
