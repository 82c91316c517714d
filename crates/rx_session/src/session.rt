ghost use Rattle.std.specs.Prelude.{◌≡◌, ◌<◌, [], true, false, Some, None, length, map, option_map, IfSome, IfOk, IsErrOf};
ghost use Rattle.std.specs.Bool.{Decides};
ghost use Rattle.std.specs.List.{AllByRecursion, IsDistinct, find};
ghost use Rattle.std.specs.Str.{bytes_eq};
ghost use Rattle.rx_value.specs.Named.{named};
ghost use Rattle.rx_collection.specs.Lawful.{IsLawful};
ghost use Rattle.rx_record.specs.Shown.{content};
ghost use Rattle.rx_record.specs.Writable.{IsOrdered};
ghost use Rattle.rx_update.specs.Shown.{hooking_of};
ghost use Rattle.rx_world.specs.Commit.{commit_to};
ghost use Rattle.rx_world.specs.Holders.{holders_in};
ghost use Rattle.rx_world.specs.Lawful.{IsLawfulWorld};
ghost use Rattle.rx_world.specs.Migrating.{is_in_group};
ghost use Rattle.rx_world.specs.Step.{IsValidState, legal};
ghost use Rattle.rx_world.specs.Touch.{IsNoMigration};
ghost use Rattle.rx_world.specs.Valid.{AreDistinct, AreValid};
ghost use Rattle.rx_session.specs.Placed.{AreUnwatched, place_named, world_of};
ghost use Rattle.rx_session.specs.Session.{is_observed, counts_of, first_observed};

use crate::query_place::QueryPlace;
use rx_collection::Collection;
use rx_diagram::Diagram;
use rx_observe::Live;
use rx_record::Record;
use rx_stream::Stream;
use rx_table::Counts;
use rx_update::{Attachments, HookKind};
use rx_value::{RxText, State};
use rx_world::{StepFault, World, commit};
use std::alloc::Global;
use std::marker::Model;
use std::rc::Rc;

/// Collections with their observed queries, hooks and streams, and the present moment. Between two
/// lines nothing is to be emitted.
#[derive(Drop)]
pub struct Session {
    pub(crate) world: World<Live>,
    pub(crate) moment: u64,
    pub(crate) hooks: Attachments,
    /// The open streams in the order of opening.
    pub(crate) streams: Vec<Stream>,
    /// The observed queries in the order of observing.
    pub(crate) places: Vec<QueryPlace>,
    /// A share for each collection that is made later.
    pub(crate) diagram: Rc<Diagram>,
}

impl Model for Session {
    ghost use Rattle.rx_session.specs.Session.{Session};
    ghost use Rattle.rx_session.specs.Codes.{session_code};

    ghost Value = { Session };

    ghost coded = { session_code };

    ghost use Rattle.rx_session.specs.Inside.{session_in, IsInOrder};

    ghost view = { session_in };

    ghost invariant = { IsInOrder };
}

impl Session {
    /// The session at the start of a run that knows these hooks, at the moment 0.
    pub fn new(
        alloc: Global,
        world: World<Live>,
        diagram: Rc<Diagram>,
        known: Vec<(RxText, HookKind)>,
    ) -> Session
        requires unwatched { AreUnwatched (holders_in world) }
        requires distinct { AreDistinct (world_of world) }
        ensures { result ≡ record {
          world = world_of world;
          moment = 0;
          hooks = record { known = known.items; attached = [] };
          streams = [];
          queries = [];
        } }
    {
        Session {
            world,
            moment: 0,
            hooks: Attachments {
                known,
                attached: Vec::new(alloc),
            },
            streams: Vec::new(alloc),
            places: Vec::new(alloc),
            diagram,
        }
    }

    /// The collection of that name, with its observed queries.
    pub fn holder(&self, name: &str) -> Option<&Live>
        ensures held { option_map (λ l. l.now.collection) result
            ≡ named self.now.world.collections name.now }
        ensures whole { IfSome result (λ l. l.now.broken ≡ false) }
        ensures called { IfSome result (λ l. l.now.collection.name ≡ name.now) }
        ensures lawful { IfSome result (λ l. IsLawful l.now.collection) }
        ensures valid { IfSome result (λ l. AreValid l.now.collection) }
    {
        self.world.holder(name)
    }

    /// The collections and replications, and the last epoch.
    pub fn world(&self) -> &World<Live>
        ensures { world_of result.now ≡ self.now.world }
    {
        &self.world
    }

    /// The present moment, as it was set last.
    pub fn moment(&self) -> u64
        ensures { result ≡ self.now.moment }
    {
        self.moment
    }

    /// The hooks that the run knows, and those of all collections.
    pub fn hooks(&self) -> &Attachments
        ensures { hooking_of result.now ≡ self.now.hooks }
    {
        &self.hooks
    }

    /// How many collections there are.
    pub fn collections(&self) -> usize
        ensures count { result ≡ length self.now.world.collections }
        ensures lawful { IsLawfulWorld self.now.world }
    {
        self.world.len()
    }

    /// The number of the present epoch.
    pub fn epoch(&self) -> u64
        ensures { result ≡ self.now.world.epoch }
    {
        self.world.epoch()
    }

    /// The record that writes states to a collection of the session at the present moment. Nothing
    /// is changed.
    pub fn commit(
        &self,
        alloc: Global,
        collection: &Collection,
        states: Vec<State>,
    ) -> Result<Record, StepFault>
        requires held { named self.now.world.collections collection.now.name
            ≡ Some collection.now }
        requires some { 0 < length states.items }
        requires distinct { IsDistinct bytes_eq (map (λ s. s.key) states.items) }
        requires valid { AllByRecursion (IsValidState collection.now.schema) states.items }
        ensures ok { IfOk result (λ entry.
            commit_to collection.now.name states.items self.now.moment collection.now
            ≡ Some (content entry)) }
        ensures legal { IfOk result (λ entry. legal (content entry) self.now.world ≡ true) }
        ensures ordered { IfOk result (λ entry. IsOrdered (content entry)) }
        ensures rows { IfOk result (λ entry. IsNoMigration (content entry)) }
        ensures clock_end { IsErrOf result StepFault.ClockEnd
            → commit_to collection.now.name states.items self.now.moment collection.now ≡ None }
    {
        commit(alloc, collection, states, self.moment)
    }

    /// Whether the collections and the replications are those of the world.
    pub fn has_same(&self, world: &World<Live>) -> bool
        ensures { Decides result
            ((self.now.world.collections ≡ (world_of world.now).collections)
            × (self.now.world.replications ≡ (world_of world.now).replications)) }
    {
        self.world.has_same(world)
    }

    /// How many queries are observed.
    pub fn queries(&self) -> usize
        ensures { result ≡ length self.now.queries }
    {
        self.places.len()
    }

    /// Whether a query of that name is observed.
    pub fn is_observed(&self, name: &RxText) -> bool
        ensures { result ≡ is_observed name.now self.now }
    {
        find_place(self.places.as_slice(), name).is_some()
    }

    /// The name of the first query that is observed in a collection of the group of that name.
    pub fn first_observed(&self, name: &str) -> Option<&RxText>
        ensures { option_map (λ n. n.now) result
            ≡ first_observed (is_in_group self.now.world.replications name.now) self.now.queries }
    {
        match find_joined(&self.world, self.places.as_slice(), name) {
            Some(place) => Some(&place.name),
            None => None,
        }
    }

    /// What the query of that name saw, if it is observed.
    pub fn counts(&self, name: &RxText) -> Option<&Counts>
        ensures { option_map (λ c. c.now) result ≡ counts_of name.now self.now }
    {
        let place = find_place(self.places.as_slice(), name)?;
        let live = self.world.holder(place.coll.as_str())?;
        Some(live.observed(name.as_str())?.counts())
    }
}

// The first place in a collection of the group of that name.
fn find_joined<'a>(
    world: &World<Live>,
    places: &'a [QueryPlace],
    name: &str,
) -> Option<&'a QueryPlace>
    ensures { option_map (λ p. p.now) result
        ≡ find (λ p. is_in_group (world_of world.now).replications name.now p.coll) places.now }
{
    for place in places {
        if world.is_in_group(name, place.coll.as_str()) {
            return Some(place);
        }
    }
    None
}

/// The place of the query of that name.
pub(crate) fn find_place<'a>(places: &'a [QueryPlace], name: &RxText) -> Option<&'a QueryPlace>
    ensures { option_map (λ p. p.now) result ≡ place_named name.now places.now }
{
    for place in places {
        if *name == place.name {
            return Some(place);
        }
    }
    None
}
