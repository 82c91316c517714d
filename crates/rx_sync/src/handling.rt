// What a master answers to a request, and what it writes.
ghost use Rattle.std.specs.Prelude.{◌≡◌, None, Some, IfOk, IsErrOf, IsSome, map, option_map};
ghost use Rattle.std.specs.List.{AllByRecursion, IsDistinct};
ghost use Rattle.std.specs.Option.{ForSome};
ghost use Rattle.std.specs.Str.{bytes_eq};
ghost use Rattle.rx_value.specs.Named.{named};
ghost use Rattle.rx_collection.specs.Since.{since};
ghost use Rattle.rx_replication.specs.Master.{docs, body_of};
ghost use Rattle.rx_replication.specs.Throughout.{AskPasses};
ghost use Rattle.rx_fork.specs.Asked.{HasRowsApart};
ghost use Rattle.rx_fork.specs.Valid.{is_valid};
ghost use Rattle.rx_world.specs.Holders.{world_in};
ghost use Rattle.rx_world.specs.Made.{IsMadeWorld};
ghost use Rattle.rx_world.specs.Sound.{IsSoundWorld};
ghost use Rattle.rx_world.specs.Step.{IsValidState};
ghost use Rattle.rx_world.specs.World.{World as Definition};
ghost use Rattle.rx_sync.specs.Asks.{IsLawfulRequest};
ghost use Rattle.rx_sync.specs.Handling.{commits_of, handled, handled_by, handled_for, written_by};
ghost use Rattle.rx_sync.specs.Laws.{ComeSoundly, HasMasterHere, IsLawfulIn, MayComeInTurn};
ghost use Rattle.rx_sync.specs.Shown.{handled_of, record_in};

use crate::copies::{copy_of_place, place_of};
use crate::lookup::{find_replication, local_name};
use rx_collection::{Collection, Holder, Page};
use rx_document::Place;
use rx_master::{MasterPlan, since, take};
use rx_record::Record;
use rx_value::{RxList, State};
use rx_wire::{AskKind, Body, Reply, Request};
use rx_world::{StepFault, World, commit};
use std::alloc::{AllocError, Global};

/// A request that was handled.
#[derive(Debug, Drop)]
pub struct Handled {
    /// The master's commit, if it writes.
    pub written: Option<Record>,
    pub reply: Reply,
}

/// What the collection of that name answers to a request, and what it writes. Nothing is changed:
/// the record is to be kept, and then applied.
pub fn handle<H: Holder + Drop>(
    alloc: Global,
    world: &World<H>,
    name: &str,
    request: &Request,
    now: u64,
) -> Result<Handled, StepFault>
    requires held { IsSome (named (world_in H.held world.now).collections name.now) }
    requires lawful { ForSome (named (world_in H.held world.now).collections name.now)
        (λ c. IsLawfulRequest c.schema request.now) }
    ensures handled { IfOk result
        (λ h. handled (world_in H.held world.now) name.now request.now now ≡ Some (handled_of h)) }
    ensures clock_end { IsErrOf result StepFault.ClockEnd
        → handled (world_in H.held world.now) name.now request.now now ≡ None }
    // The record may come next, and keeps a sound world sound.
    ensures next { IsMadeWorld (world_in H.held world.now)
        → IsSoundWorld (world_in H.held world.now)
        → IfOk result (λ h. ComeSoundly (world_in H.held world.now) (record_in h.written)) }
    // It may come next whether the world is sound or not.
    ensures may { IfOk result
        (λ h. MayComeInTurn (world_in H.held world.now) (record_in h.written)) }
{
    let holder = world.holder(name).unwrap();
    handle_by(alloc, holder.collection(), request, now)
}

// The same of the master of a replication.
pub(crate) fn handle_for<H: Holder + Drop>(
    alloc: Global,
    world: &World<H>,
    name: &str,
    request: &Request,
    now: u64,
) -> Result<Handled, StepFault>
    requires master { HasMasterHere (world_in H.held world.now) name.now }
    requires lawful { IsLawfulIn (world_in H.held world.now) name.now request.now }
    ensures handled { IfOk result
        (λ h. handled_for (world_in H.held world.now) name.now request.now now
        ≡ Some (handled_of h)) }
    ensures clock_end { IsErrOf result StepFault.ClockEnd
        → handled_for (world_in H.held world.now) name.now request.now now ≡ None }
    ensures next { IsSoundWorld (world_in H.held world.now) → IfOk result
        (λ h. ComeSoundly (world_in H.held world.now) (record_in h.written)) }
{
    let replication = find_replication(world, name);
    let master = local_name(&replication.master).unwrap();
    handle(alloc, world, master.as_str(), request, now)
}

/// What a collection answers to a request, and what it writes.
pub fn handle_by(
    alloc: Global,
    collection: &Collection,
    request: &Request,
    now: u64,
) -> Result<Handled, StepFault>
    requires { IsLawfulRequest collection.now.schema request.now }
    ensures handled { IfOk result (λ h.
        handled_by collection.now.name now request.now collection.now ≡ Some (handled_of h)) }
    ensures clock_end { IsErrOf result StepFault.ClockEnd
        → handled_by collection.now.name now request.now collection.now ≡ None }
    ensures next { (w : Definition) → named w.collections collection.now.name ≡ Some collection.now
        → IfOk result (λ h. MayComeInTurn w (record_in h.written)) }
{
    let (written, body) = answer(alloc, collection, &request.ask, now)?;
    let reply = Reply {
        epoch: request.epoch,
        n: request.n,
        body,
    };
    Ok(Handled { written, reply })
}

// The record that is written, if there is one, and the body of the reply.
fn answer(
    alloc: Global,
    collection: &Collection,
    ask: &AskKind,
    now: u64,
) -> Result<(Option<Record>, Body), StepFault>
    requires valid { AskPasses (is_valid collection.now.schema) ask.now }
    requires apart { HasRowsApart ask.now }
    ensures written { IfOk result (λ answer.
        commits_of collection.now.name now ask.now collection.now ≡ Some (record_in answer.0)) }
    ensures body { IfOk result (λ answer. answer.1 ≡ body_of collection.now.documents ask.now) }
    ensures clock_end { IsErrOf result StepFault.ClockEnd
        → commits_of collection.now.name now ask.now collection.now ≡ None }
    ensures next { (w : Definition) → named w.collections collection.now.name ≡ Some collection.now
        → IfOk result (λ answer. MayComeInTurn w (record_in answer.0)) }
{
    match ask {
        AskKind::Push(rows) => {
            let MasterPlan { writes, conflicts } = take(alloc, collection, rows.as_slice())?;
            let written = commit_all(alloc, collection, writes, now)?;
            Ok((written, Body::Conflicts(conflicts)))
        }
        AskKind::Pull { place, batch } => {
            Ok((None, page_of(alloc, collection, place.as_ref(), *batch)?))
        }
    }
}

// The record that writes the states, if there is one.
fn commit_all(
    alloc: Global,
    collection: &Collection,
    states: RxList<State>,
    now: u64,
) -> Result<Option<Record>, StepFault>
    requires distinct { IsDistinct bytes_eq (map (λ s. s.key) states) }
    requires valid { AllByRecursion (IsValidState collection.now.schema) states }
    ensures written { IfOk result (λ written.
        written_by collection.now.name now collection.now states ≡ Some (record_in written)) }
    ensures clock_end { IsErrOf result StepFault.ClockEnd
        → written_by collection.now.name now collection.now states ≡ None }
    ensures next { (w : Definition) → named w.collections collection.now.name ≡ Some collection.now
        → IfOk result (λ written. MayComeInTurn w (record_in written)) }
{
    if states.len() == 0 {
        return Ok(None);
    }
    Ok(Some(commit(alloc, collection, states.into_vec(), now)?))
}

// The documents above a place, at most so many.
fn page_of(
    alloc: Global,
    collection: &Collection,
    place: Option<&Place>,
    batch: u32,
) -> Result<Body, AllocError>
    ensures { IfOk result (λ body. body ≡ docs (option_map (λ p. p.now) place.entry)
        (since collection.now.documents (option_map (λ p. p.now) place.entry) batch)) }
{
    let page = since(collection, place, batch as usize);
    docs(alloc, copy_of_place(alloc, place)?, page)
}

// The states of documents above a place, and the place of the last one.
fn docs(alloc: Global, mut place: Option<Place>, page: Page<'_>) -> Result<Body, AllocError>
    ensures { IfOk result (λ body. body ≡ docs place page.entry) }
{
    let mut states = RxList::new(alloc);
    for held in page {
        states.push(held.state.copy(alloc)?)?;
        place = Some(place_of(alloc, held)?);
    }
    Ok(Body::Docs { states, place })
}
