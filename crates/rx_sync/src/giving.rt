// Events as they are given to the fork of a replication, and the lines of that.
ghost use Rattle.std.specs.Prelude.{◌≡◌, ◌≢◌, true, Some, IfOk};
ghost use Rattle.std.specs.List.{list_any};
ghost use Rattle.rx_reply.specs.declared.given.Took.TheVariants.{Taken};
ghost use Rattle.rx_world.specs.Holders.{world_in};
ghost use Rattle.rx_world.specs.Sound.{IsSoundWorld};
ghost use Rattle.rx_sync.specs.Asking.{pending_in};
ghost use Rattle.rx_sync.specs.Delivery.{given_as, given_once, is_missed, is_resync, took_by};
ghost use Rattle.rx_sync.specs.Events.{IsGoodEventIn};
ghost use Rattle.rx_sync.specs.Exchange.{world_after};
ghost use Rattle.rx_sync.specs.Laws.{ComeSoundly, HasMasterHere};
ghost use Rattle.rx_sync.specs.Shown.{giving_of, record_in};
ghost use Rattle.rx_sync.specs.declared.fault.EventFault.TheVariants.{Memory};

use crate::copies::state_keys;
use crate::events::take_event;
use crate::fault::EventFault;
use rx_collection::Holder;
use rx_record::Record;
use rx_reply::{Given, Took};
use rx_stream::Event;
use rx_world::World;
use std::alloc::{AllocError, Global};

/// What one giving of an event comes to.
#[derive(Debug, Drop)]
pub struct Giving {
    /// The record that takes it, where anything changes.
    pub written: Option<Record>,
    pub given: Given,
}

/// Gives the event of that number to the fork of a replication. Where it is known that nothing of
/// the fork is to be pushed, `none` spares the look at its documents. Nothing is changed here: the
/// record is to be kept, and then applied.
pub fn give<H: Holder + Drop>(
    alloc: Global,
    world: &World<H>,
    name: &str,
    number: u64,
    event: &Event,
    now: u64,
    none: bool,
) -> Result<Giving, AllocError>
    requires master { HasMasterHere (world_in H.held world.now) name.now }
    requires sound { IsSoundWorld (world_in H.held world.now) }
    requires none { none ≡ true → pending_in (world_in H.held world.now) name.now ≡ Some 0 }
    requires good { IsGoodEventIn (world_in H.held world.now) name.now event.now }
    ensures exact { IfOk result (λ giving.
        given_once name.now now number event.now (world_in H.held world.now)
        ≡ giving_of giving) }
    // The record may come next, and keeps the world sound.
    ensures next { IfOk result
        (λ giving. ComeSoundly (world_in H.held world.now) (record_in giving.written)) }
    // After one that was taken nothing is to be pushed.
    ensures settled { IfOk result (λ giving. giving.given.took ≡ Taken → pending_in
        (world_after (record_in giving.written) (world_in H.held world.now)) name.now ≡ Some 0) }
{
    match take_event(alloc, world, name, event, now, none) {
        Ok(written) => Ok(Giving {
            written,
            given: given_as(alloc, number, event, Took::Taken)?,
        }),
        Err(fault) => Ok(Giving {
            written: None,
            given: given_as(alloc, number, event, took_by(&fault)?)?,
        }),
    }
}

/// The line of the event of that number.
pub fn given_as(alloc: Global, number: u64, event: &Event, took: Took) -> Result<Given, AllocError>
    ensures { IfOk result (λ given. given ≡ given_as number event.now took) }
{
    Ok(Given {
        event: number,
        rows: state_keys(alloc, event.states.as_slice())?,
        took,
    })
}

// Why an event isn't taken, where it isn't that memory ran out.
fn took_by(fault: &EventFault) -> Result<Took, AllocError>
    ensures named { IfOk result (λ took. fault.now ≢ Memory) }
    ensures exact { IfOk result (λ took. took ≡ took_by fault.now) }
{
    match fault {
        EventFault::Old => Ok(Took::Old),
        EventFault::Pending(_) => Ok(Took::Pending),
        EventFault::Gap => Ok(Took::Gap),
        EventFault::ClockEnd => Ok(Took::Clock),
        EventFault::Memory => Err(AllocError),
    }
}

/// Whether the fork has to ask its master before it can take another event: the mark stood, or an
/// event waited or was behind a lost one.
pub fn is_resync(mark: bool, given: &[Given]) -> bool
    ensures { result ≡ is_resync mark given.now }
{
    mark || is_any_missed(given)
}

fn is_any_missed(given: &[Given]) -> bool
    ensures { result ≡ list_any (λ g. is_missed g.took) given.now }
{
    given.iter().any(|event| is_missed(event.took))
}

fn is_missed(took: Took) -> bool
    ensures { result ≡ is_missed took }
{
    matches!(took, Took::Pending | Took::Gap)
}
