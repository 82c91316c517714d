// What a line does to a session.
ghost use Rattle.std.specs.Prelude.{◌≡◌, ◌++◌, [], ◌∷◌, Some, true, filter, not, option_map, IfOk, OnOk};
ghost use Rattle.std.specs.Str.{bytes_eq};
ghost use Rattle.rx_value.specs.Named.{named};
ghost use Rattle.rx_query.specs.QuerySpec.{asked};
ghost use Rattle.rx_record.specs.Shown.{content};
ghost use Rattle.rx_update.specs.Shown.{hooking_of};
ghost use Rattle.rx_world.specs.Holders.{holders_in};
ghost use Rattle.rx_session.specs.Applied.{due_in, settled_in, without_observed, watched_in};
ghost use Rattle.rx_session.specs.Doing as doing;
ghost use Rattle.rx_session.specs.Doing.{session_after, has_key, with_attached, MayDo};
ghost use Rattle.rx_session.specs.Emissions.{emissions, settled_session, IsSettled};
ghost use Rattle.rx_session.specs.Lives.{IsFree};
ghost use Rattle.rx_session.specs.Placed.{world_of};
ghost use Rattle.rx_session.specs.Shown.{done_by};

use crate::doing::{Doing, Watch};
use crate::emitting::{observe, take_due, unobserve};
use crate::query_place::QueryPlace;
use crate::session::{Session, find_place};
use rx_observe::{Emission, Live};
use rx_query::Query;
use rx_record::Record;
use rx_update::{Attached, Attachments};
use rx_value::RxText;
use rx_world::World;
use std::alloc::{AllocError, Global};

impl Session {
    /// The session after what a line does, and the emissions that are due then, which are emitted.
    pub fn next(self, alloc: Global, doing: Doing) -> Result<(Session, Vec<Emission>), AllocError>
        requires { MayDo (done_by doing) self }
        ensures session { IfOk result
            (λ p. p.0 ≡ settled_session (session_after (done_by doing) self)) }
        ensures emissions { IfOk result
            (λ p. p.1.items ≡ emissions (session_after (done_by doing) self)) }

        // Nothing of any session is to be emitted, so one to which nothing is done stays.
        ensures before { IsSettled self }
    {
        match doing {
            Doing::Nothing => Ok((self.keep(), Vec::new(alloc))),
            Doing::SetClock(at) => Ok((self.set_clock(at), Vec::new(alloc))),
            Doing::Write(entry) => self.write(alloc, entry),
            Doing::Watch(watch) => self.watch(alloc, watch),
            Doing::Unwatch(name) => Ok((self.unwatch(&name), Vec::new(alloc))),
            Doing::Attach(one) => Ok((self.attach(one)?, Vec::new(alloc))),
            Doing::OpenStream(opening) => Ok((self.open_stream(alloc, opening)?, Vec::new(alloc))),
            Doing::CloseStream(name) => Ok((self.close_stream(&name), Vec::new(alloc))),
        }
    }
}

impl Session {
    // The same session: nothing of it is to be emitted.
    fn keep(self) -> Session
        ensures session { result ≡ settled_session (session_after doing.nothing self) }
        ensures emissions { emissions (session_after doing.nothing self) ≡ [] }
        ensures before { IsSettled self }
    {
        let moment = self.moment;
        self.set_clock(moment)
    }

    fn set_clock(self, moment: u64) -> Session
        ensures session { result ≡ settled_session (session_after (doing.set_clock moment) self) }
        ensures emissions { emissions (session_after (doing.set_clock moment) self) ≡ [] }
        ensures before { IsSettled self }
    {
        Session {
            world: self.world,
            moment,
            hooks: self.hooks,
            streams: self.streams,
            places: self.places,
            diagram: self.diagram,
        }
    }

    // The session with one hook more.
    fn attach(self, one: Attached) -> Result<Session, AllocError>
        ensures session { IfOk result
            (λ s. s ≡ settled_session (session_after (doing.attach one) self)) }
        ensures emissions { emissions (session_after (doing.attach one) self) ≡ [] }
        ensures before { IsSettled self }
    {
        let Session {
            world,
            moment,
            mut hooks,
            streams,
            places,
            diagram,
        } = self;
        add_hook(&mut hooks, one)?;
        Ok(Session {
            world,
            moment,
            hooks,
            streams,
            places,
            diagram,
        })
    }

    // The session after a record. Queries of other collections keep their results.
    fn write(self, alloc: Global, entry: Record) -> Result<(Session, Vec<Emission>), AllocError>
        requires { MayDo (doing.write (content entry)) self }
        ensures session { IfOk result
            (λ p. p.0 ≡ settled_session (session_after (doing.write (content entry)) self)) }
        ensures emissions { IfOk result
            (λ p. p.1.items ≡ emissions (session_after (doing.write (content entry)) self)) }
        ensures before { IsSettled self }
    {
        let played = self.begin(alloc).write(alloc, entry)?;
        let (session, due) = played.settle(alloc)?;
        Ok((session, due))
    }

    // The session with one observed query more.
    fn watch(self, alloc: Global, watch: Watch) -> Result<(Session, Vec<Emission>), AllocError>
        requires { MayDo (doing.watch watch.name watch.coll (asked watch.query)) self }
        ensures session { IfOk result (λ p. p.0
            ≡ settled_session (session_after (doing.watch watch.name watch.coll (asked watch.query))
            self)) }
        ensures emissions { IfOk result (λ p. p.1.items
            ≡ emissions
            (session_after (doing.watch watch.name watch.coll (asked watch.query)) self)) }
        ensures before { IsSettled self }
    {
        let Session {
            mut world,
            moment,
            hooks,
            streams,
            mut places,
            diagram,
        } = self;
        let Watch { name, coll, query } = watch;
        let due = observe_in(alloc, &mut world, &name, &coll, query)?;
        add_place(&mut places, name, coll)?;
        let session = Session {
            world,
            moment,
            hooks,
            streams,
            places,
            diagram,
        };
        Ok((session, due))
    }

    // The session without the query of that name.
    fn unwatch(self, name: &RxText) -> Session
        ensures session { result ≡ settled_session (session_after (doing.unwatch name.now) self) }
        ensures emissions { emissions (session_after (doing.unwatch name.now) self) ≡ [] }
        ensures before { IsSettled self }
    {
        let mut world = self.world;
        let mut places = self.places;
        unobserve_at(&mut world, find_place(places.as_slice(), name), name);
        drop_place(&mut places, name);
        Session {
            world,
            moment: self.moment,
            hooks: self.hooks,
            streams: self.streams,
            places,
            diagram: self.diagram,
        }
    }
}

// Observes a query in a collection. Hands out the emissions that are due there.
fn observe_in(
    alloc: Global,
    world: &mut World<Live>,
    name: &RxText,
    coll: &RxText,
    query: Query,
) -> Result<Vec<Emission>, AllocError>
    requires free { IsFree name.now (named (holders_in world.old) coll.now) }
    requires keyed { has_key (asked query).primary (named (world_of world.old).collections coll.now)
        ≡ true }
    ensures lives { OnOk result (holders_in world.new ≡ settled_in (Some coll.now)
        (watched_in name.now coll.now (asked query) (holders_in world.old))) }
    ensures replications { world.new.replications ≡ world.old.replications }
    ensures epoch { world.new.epoch ≡ world.old.epoch }
    ensures due { IfOk result (λ due. due.items ≡ due_in (Some coll.now)
        (watched_in name.now coll.now (asked query) (holders_in world.old))) }
{
    let name = name.copy(alloc)?;
    observe(world, coll, name, query)?;
    take_due(alloc, world, coll)
}

fn add_place(places: &mut Vec<QueryPlace>, name: RxText, coll: RxText) -> Result<(), AllocError>
    ensures { OnOk result
        (places.new.items ≡ places.old.items ++ record { name = name; coll = coll } ∷ []) }
{
    places.push(QueryPlace { name, coll })?;
    Ok(())
}

fn add_hook(hooks: &mut Attachments, one: Attached) -> Result<(), AllocError>
    ensures { OnOk result (hooking_of hooks.new ≡ with_attached one (hooking_of hooks.old)) }
{
    hooks.attached.push(one)?;
    Ok(())
}

// Observes the query of a name no more in the collection of its place, if there is one.
fn unobserve_at(world: &mut World<Live>, place: Option<&QueryPlace>, name: &RxText)
    ensures lives { holders_in world.new
        ≡ without_observed name.now (option_map (λ p. p.now) place.entry) (holders_in world.old) }
    ensures replications { world.new.replications ≡ world.old.replications }
    ensures epoch { world.new.epoch ≡ world.old.epoch }
{
    match place {
        Some(place) => unobserve(world, &place.coll, name),
        None => {}
    }
}

fn drop_place(places: &mut Vec<QueryPlace>, name: &RxText)
    ensures { places.new.items ≡ filter (λ p. not (bytes_eq name.now p.name)) places.old.items }
{
    places.retain(|place| *name != place.name);
}
