// A session in the midst of a line.
ghost use Rattle.std.specs.Prelude.{◌≡◌, ◌++◌, true, filter, not, IfOk, OnOk};
ghost use Rattle.std.specs.List.{AllByRecursion, list_any};
ghost use Rattle.std.specs.Str.{bytes_eq};
ghost use Rattle.rx_record.specs.Shown.{content};
ghost use Rattle.rx_record.specs.Writable.{IsOrdered};
ghost use Rattle.rx_world.specs.Holders.{holders_in};
ghost use Rattle.rx_world.specs.Migrating.{is_in_group};
ghost use Rattle.rx_world.specs.Step.{legal};
ghost use Rattle.rx_world.specs.Touch.{touch};
ghost use Rattle.rx_session.specs.Doing as doing;
ghost use Rattle.rx_session.specs.Doing.{session_after, with_emptied, with_kept, without_hooks, IsUnobserved};
ghost use Rattle.rx_session.specs.Emissions.{emissions, settled_session, IsSettled};
ghost use Rattle.rx_session.specs.Placed.{world_of};
ghost use Rattle.rx_session.specs.Session.{has_lost, queued_in};
ghost use Rattle.rx_session.specs.Streams.{AreStreamed, IsGoodFor};
ghost use Rattle.rx_session.specs.Playing.{coll_to_note, due_each, due_in_all, emission_of, in_places, add_written, settled_each, without_emission};

use crate::applying::{apply_legal, coll_written};
use crate::emitting::take_due;
use crate::query_place::QueryPlace;
use crate::session::Session;
use crate::streaming::{coll_to_follow, follow_written, keep_queued, still_open, take_queued};
use rx_diagram::Diagram;
use rx_observe::{Emission, Live};
use rx_record::Record;
use rx_stream::{Event, Stream};
use rx_update::{Attached, Attachments};
use rx_value::RxText;
use rx_world::World;
use std::alloc::{AllocError, Global};
use std::marker::Model;
use std::rc::Rc;

/// The session after the records that a line has written so far. What they change of the results is
/// to be emitted yet.
#[derive(Drop)]
pub struct Playing {
    world: World<Live>,
    moment: u64,
    hooks: Attachments,
    streams: Vec<Stream>,
    places: Vec<QueryPlace>,
    diagram: Rc<Diagram>,
    // The names of the collections whose documents were written, where any query is observed.
    written: Vec<RxText>,
}

impl Model for Playing {
    ghost use Rattle.rx_session.specs.Session.{Session as SeenSession};
    ghost use Rattle.rx_session.specs.Codes.{session_code};

    ghost Value = { SeenSession };

    ghost coded = { session_code };

    ghost use Rattle.rx_session.specs.Playing.{session_in_play, IsInPlay};

    ghost view = { session_in_play };

    ghost invariant = { IsInPlay };
}

impl Session {
    /// The same session without the hooks that a record drops: a migration, those of its group.
    pub fn without_hooks(self, entry: &Record) -> Session
        ensures { result ≡ without_hooks (content entry.now) self }
    {
        let Session {
            world,
            moment,
            mut hooks,
            streams,
            places,
            diagram,
        } = self;
        if let Record::Migration { name, .. } = entry {
            drop_hooks(&mut hooks.attached, &world, name.as_str());
        }
        Session {
            world,
            moment,
            hooks,
            streams,
            places,
            diagram,
        }
    }

    /// The same session, of which a line is to write records.
    pub fn begin(self, alloc: Global) -> Playing
        ensures same { result ≡ self }
        ensures before { IsSettled self }
    {
        Playing {
            world: self.world,
            moment: self.moment,
            hooks: self.hooks,
            streams: self.streams,
            places: self.places,
            diagram: self.diagram,
            written: Vec::new(alloc),
        }
    }
}

impl Playing {
    /// The collections and replications, and the last epoch.
    pub fn world(&self) -> &World<Live>
        ensures { world_of result.now ≡ self.now.world }
    {
        &self.world
    }

    /// The session after one record more.
    pub fn write(self, alloc: Global, entry: Record) -> Result<Playing, AllocError>
        requires legal { legal (content entry) self.world ≡ true }
        requires ordered { IsOrdered (content entry) }
        requires unobserved { IsUnobserved (touch (content entry) self.world) self.queries }
        ensures { IfOk result (λ p. p ≡ session_after (doing.write (content entry)) self) }
    {
        let Playing {
            world,
            moment,
            hooks,
            streams,
            places,
            diagram,
            mut written,
        } = self;
        let coll = coll_to_note(alloc, &world, places.as_slice(), &entry)?;
        let streams = still_open(streams, &world, &entry);
        let master = coll_to_follow(alloc, &world, streams.as_slice(), &entry)?;
        let world = apply_legal(world, alloc, entry, &diagram)?;
        let streams = follow_written(alloc, &world, master, streams)?;
        note(&mut written, coll)?;
        Ok(Playing {
            world,
            moment,
            hooks,
            streams,
            places,
            diagram,
            written,
        })
    }

    /// The session without what the stream of a name has queued, those events, and whether it has
    /// lost any.
    pub fn take_queue(self, alloc: Global, name: &str) -> (Playing, Vec<Event>, bool)
        ensures session { result.0 ≡ with_emptied name.now self }
        ensures events { result.1.items ≡ queued_in name.now self }
        ensures lost { result.2 ≡ has_lost name.now self }
        ensures streamed { AreStreamed self.world self.streams }
    {
        let Playing {
            world,
            moment,
            hooks,
            mut streams,
            places,
            diagram,
            written,
        } = self;
        let (events, lost) = take_queued(alloc, &mut streams, name);
        let playing = Playing {
            world,
            moment,
            hooks,
            streams,
            places,
            diagram,
            written,
        };
        (playing, events, lost)
    }

    /// The session with events behind what the stream of a name has queued.
    pub fn keep_events(self, name: &str, events: Vec<Event>) -> Result<Playing, AllocError>
        requires good { AllByRecursion (IsGoodFor self.world name.now) events.items }
        ensures { IfOk result (λ p. p ≡ with_kept name.now events.items self) }
    {
        let Playing {
            world,
            moment,
            hooks,
            mut streams,
            places,
            diagram,
            written,
        } = self;
        keep_queued(&mut streams, name, events)?;
        Ok(Playing {
            world,
            moment,
            hooks,
            streams,
            places,
            diagram,
            written,
        })
    }

    /// The session once the emissions are written, and these, in the order of observing.
    pub fn settle(self, alloc: Global) -> Result<(Session, Vec<Emission>), AllocError>
        ensures session { IfOk result (λ p. p.0 ≡ settled_session self) }
        ensures emissions { IfOk result (λ p. p.1.items ≡ emissions self) }
    {
        let Playing {
            mut world,
            moment,
            hooks,
            streams,
            places,
            diagram,
            written,
        } = self;
        let due = take_all(alloc, &mut world, places.as_slice(), written.as_slice())?;
        let session = Session {
            world,
            moment,
            hooks,
            streams,
            places,
            diagram,
        };
        Ok((session, due))
    }
}

fn drop_hooks(attached: &mut Vec<Attached>, world: &World<Live>, name: &str)
    ensures { attached.new.items ≡ filter (λ one. not (is_in_group
        (world_of world.now).replications name.now one.coll)) attached.old.items }
{
    attached.retain(|one| !world.is_in_group(name, one.coll.as_str()));
}

// The collection whose documents a record writes, where any query is observed.
fn coll_to_note(
    alloc: Global,
    world: &World<Live>,
    places: &[QueryPlace],
    entry: &Record,
) -> Result<Option<RxText>, AllocError>
    ensures { IfOk result (λ coll. coll
        ≡ coll_to_note places.now (touch (content entry.now) (world_of world.now))) }
{
    if places.is_empty() {
        return Ok(None);
    }
    coll_written(alloc, world, entry)
}

// The names, with one more, if there is one.
fn note(written: &mut Vec<RxText>, coll: Option<RxText>) -> Result<(), AllocError>
    ensures { OnOk result (written.new.items ≡ add_written coll written.old.items) }
{
    let Some(coll) = coll else {
        return Ok(());
    };
    if is_noted(written.as_slice(), &coll) {
        return Ok(());
    }
    written.push(coll)?;
    Ok(())
}

fn is_noted(written: &[RxText], coll: &RxText) -> bool
    ensures { result ≡ list_any (bytes_eq coll.now) written.now }
{
    written.iter().any(|name| coll.as_str() == name.as_str())
}

// The emissions due of the collections of these names, which are emitted then.
fn take_all(
    alloc: Global,
    world: &mut World<Live>,
    places: &[QueryPlace],
    written: &[RxText],
) -> Result<Vec<Emission>, AllocError>
    ensures lives { OnOk result
        (holders_in world.new ≡ settled_each written.now (holders_in world.old)) }
    ensures replications { world.new.replications ≡ world.old.replications }
    ensures epoch { world.new.epoch ≡ world.old.epoch }
    ensures due { IfOk result (λ due. due.items
        ≡ due_in_all written.now places.now (holders_in world.old)) }
{
    let Some((first, more)) = written.split_first() else {
        return Ok(Vec::new(alloc));
    };
    if more.is_empty() {
        let due = take_due(alloc, world, first)?;
        return Ok(due);
    }
    let due = take_each(alloc, world, written)?;
    let due = in_places(alloc, places, due)?;
    Ok(due)
}

// The same, one collection after another.
fn take_each(
    alloc: Global,
    world: &mut World<Live>,
    written: &[RxText],
) -> Result<Vec<Emission>, AllocError>
    ensures lives { OnOk result
        (holders_in world.new ≡ settled_each written.now (holders_in world.old)) }
    ensures replications { world.new.replications ≡ world.old.replications }
    ensures epoch { world.new.epoch ≡ world.old.epoch }
    ensures due { IfOk result
        (λ due. due.items ≡ due_each written.now (holders_in world.old)) }
{
    let mut all = Vec::new(alloc);
    for coll in written {
        let due = take_due(alloc, world, coll)?;
        add_all(&mut all, due)?;
    }
    Ok(all)
}

fn add_all(all: &mut Vec<Emission>, more: Vec<Emission>) -> Result<(), AllocError>
    ensures { OnOk result (all.new.items ≡ all.old.items ++ more.items) }
{
    for emission in more {
        all.push(emission)?;
    }
    Ok(())
}

// Emissions in the order of the places.
fn in_places(
    alloc: Global,
    places: &[QueryPlace],
    mut due: Vec<Emission>,
) -> Result<Vec<Emission>, AllocError>
    ensures { IfOk result (λ ordered. ordered.items ≡ in_places places.now due.items) }
{
    let mut ordered = Vec::with_capacity(alloc, due.len())?;
    for place in places {
        if let Some(emission) = take_named(&mut due, &place.name) {
            ordered.push(emission)?;
        }
    }
    Ok(ordered)
}

// Takes the emission of that name out, if there is one.
fn take_named(due: &mut Vec<Emission>, name: &RxText) -> Option<Emission>
    ensures found { result ≡ emission_of name.now due.old.items }
    ensures left { due.new.items ≡ without_emission name.now due.old.items }
{
    for i in 0..due.len() {
        if name.as_str() == due[i].name.as_str() {
            return Some(due.remove(i));
        }
    }
    None
}
