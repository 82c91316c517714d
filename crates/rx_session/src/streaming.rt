// The streams of a session: what the masters of replications commit is queued for their forks.
ghost use Rattle.std.specs.Prelude.{◌≡◌, [], ◌∷◌, ◌++◌, map, filter, not, position, Some, None, option_map, IfOk, OnOk};
ghost use Rattle.std.specs.Str.{bytes_eq};
ghost use Rattle.rx_record.specs.Shown.{content};
ghost use Rattle.rx_stream.specs.Events.{emptied, kept};
ghost use Rattle.rx_world.specs.Migrating.{is_in_group};
ghost use Rattle.rx_world.specs.Touch.{touch};
ghost use Rattle.rx_session.specs.Doing as doing;
ghost use Rattle.rx_session.specs.Doing.{session_after, new_stream, pulled_to, still_open, stream_after, with_queue};
ghost use Rattle.rx_session.specs.Emissions.{emissions, settled_session, IsSettled};
ghost use Rattle.rx_session.specs.Placed.{world_of};
ghost use Rattle.rx_session.specs.Playing.{coll_to_follow};
ghost use Rattle.rx_session.specs.Session.{lost_at, queued_at, stream_at, stream_of};
ghost use Rattle.rx_session.specs.Streams.{AreStreamed, IsStreamable};

use crate::applying::coll_written;
use crate::doing::Opening;
use crate::session::Session;
use rx_collection::Holder;
use rx_document::Place;
use rx_observe::Live;
use rx_record::Record;
use rx_stream::{Event, Queue, Stream};
use rx_value::RxText;
use rx_world::World;
use std::alloc::{AllocError, Global};

impl Session {
    /// The session, of whose streams it is known that their masters committed what they have.
    pub fn seen(&self) -> &Session
        ensures value { result.now ≡ self.now }
        ensures streamed { AreStreamed self.now.world self.now.streams }
    {
        // What holds of all fields is told to whoever names one.
        let _ = &self.streams;
        self
    }

    /// The stream of the replication of that name, if it is open.
    pub fn stream(&self, name: &str) -> Option<&Stream>
        ensures found { option_map (λ st. st.now) result ≡ stream_of name.now self.now }
        ensures streamed { AreStreamed self.now.world self.now.streams }
    {
        find_named(self.streams.as_slice(), name)
    }

    // The session with one stream more, which begins at its master's last document.
    pub(crate) fn open_stream(self, alloc: Global, opening: Opening) -> Result<Session, AllocError>
        requires { IsStreamable self.world opening.name opening.master }
        ensures session { IfOk result (λ s. s
            ≡ settled_session
            (session_after (doing.open_stream opening.name opening.master) self)) }
        ensures emissions { emissions
            (session_after (doing.open_stream opening.name opening.master) self) ≡ [] }
        ensures before { IsSettled self }
    {
        let Session {
            world,
            moment,
            hooks,
            mut streams,
            places,
            diagram,
        } = self;
        streams.push(new_stream(alloc, &world, opening)?)?;
        Ok(Session {
            world,
            moment,
            hooks,
            streams,
            places,
            diagram,
        })
    }

    // The session without the stream of that name.
    pub(crate) fn close_stream(self, name: &RxText) -> Session
        ensures session { result
            ≡ settled_session (session_after (doing.close_stream name.now) self) }
        ensures emissions { emissions (session_after (doing.close_stream name.now) self) ≡ [] }
        ensures before { IsSettled self }
    {
        let mut streams = self.streams;
        drop_stream(&mut streams, name);
        Session {
            world: self.world,
            moment: self.moment,
            hooks: self.hooks,
            streams,
            places: self.places,
            diagram: self.diagram,
        }
    }
}

fn find_named<'a>(streams: &'a [Stream], name: &str) -> Option<&'a Stream>
    ensures { option_map (λ st. st.now) result ≡ stream_at name.now streams.now }
{
    for stream in streams {
        if name == stream.name.as_str() {
            return Some(stream);
        }
    }
    None
}

// A stream from its master's last document on.
fn new_stream(alloc: Global, world: &World<Live>, opening: Opening) -> Result<Stream, AllocError>
    requires { IsStreamable (world_of world.now) opening.name opening.master }
    ensures { IfOk result (λ st. st ≡ new_stream (world_of world.now) opening.name opening.master) }
{
    let Opening { name, master } = opening;
    let down = pulled_to(world, name.as_str());
    let queue = match world.holder(master.as_str()) {
        Some(live) => Queue::new(alloc, live.collection(), down)?,
        None => unreachable!(),
    };
    Ok(Stream {
        name,
        master,
        queue,
    })
}

// How far the replication of a name has pulled.
fn pulled_to<'a>(world: &'a World<Live>, name: &str) -> Option<&'a Place>
    ensures { option_map (λ p. p.now) result ≡ pulled_to name.now (world_of world.now) }
{
    world.replication(name)?.side.down()
}

fn drop_stream(streams: &mut Vec<Stream>, name: &RxText)
    ensures { streams.new.items ≡ filter (λ st. not (bytes_eq name.now st.name)) streams.old.items }
{
    streams.retain(|stream| *name != stream.name);
}

/// The streams that a record leaves open.
pub(crate) fn still_open(streams: Vec<Stream>, world: &World<Live>, entry: &Record) -> Vec<Stream>
    ensures { result.items ≡ still_open (content entry.now) (world_of world.now) streams.items }
{
    let mut streams = streams;
    match entry {
        Record::Migration { name, .. } => close_group(&mut streams, world, name.as_str()),
        _ => {}
    }
    streams
}

// Closes the streams from the masters of a group.
fn close_group(streams: &mut Vec<Stream>, world: &World<Live>, name: &str)
    ensures { streams.new.items ≡ filter (λ st. not (is_in_group
        (world_of world.now).replications name.now st.master)) streams.old.items }
{
    streams.retain(|stream| !world.is_in_group(name, stream.master.as_str()));
}

/// The collection whose documents a record writes, where any stream is open.
pub(crate) fn coll_to_follow(
    alloc: Global,
    world: &World<Live>,
    streams: &[Stream],
    entry: &Record,
) -> Result<Option<RxText>, AllocError>
    ensures { IfOk result (λ coll. coll
        ≡ coll_to_follow streams.now (touch (content entry.now) (world_of world.now))) }
{
    if streams.is_empty() {
        return Ok(None);
    }
    coll_written(alloc, world, entry)
}

/// Streams once a collection was written, if one was: those from it have what is new.
pub(crate) fn follow_written(
    alloc: Global,
    world: &World<Live>,
    coll: Option<RxText>,
    streams: Vec<Stream>,
) -> Result<Vec<Stream>, AllocError>
    ensures { IfOk result
        (λ all. all.items ≡ map (stream_after (world_of world.now) coll) streams.items) }
{
    match coll {
        Some(coll) => follow_all(alloc, world, &coll, streams),
        None => Ok(streams),
    }
}

fn follow_all(
    alloc: Global,
    world: &World<Live>,
    coll: &RxText,
    streams: Vec<Stream>,
) -> Result<Vec<Stream>, AllocError>
    ensures { IfOk result
        (λ all. all.items ≡ map (stream_after (world_of world.now) (Some coll.now)) streams.items) }
{
    let mut all = Vec::with_capacity(alloc, streams.len())?;
    for stream in streams {
        all.push(follow(alloc, world, coll, stream)?)?;
    }
    Ok(all)
}

// The stream with what its master has written since, if that is the collection.
fn follow(
    alloc: Global,
    world: &World<Live>,
    coll: &RxText,
    stream: Stream,
) -> Result<Stream, AllocError>
    ensures { IfOk result (λ st. st ≡ stream_after (world_of world.now) (Some coll.now) stream) }
{
    if *coll != stream.master {
        return Ok(stream);
    }
    let Stream {
        name,
        master,
        mut queue,
    } = stream;
    if let Some(live) = world.holder(master.as_str()) {
        queue.follow(alloc, live.collection())?;
    }
    Ok(Stream {
        name,
        master,
        queue,
    })
}

/// What the stream of a name has queued, and whether it has lost events, which are gone then.
pub(crate) fn take_queued(
    alloc: Global,
    streams: &mut Vec<Stream>,
    name: &str,
) -> (Vec<Event>, bool)
    ensures streams { streams.new.items ≡ with_queue name.now emptied streams.old.items }
    ensures events { result.0.items ≡ queued_at name.now streams.old.items }
    ensures lost { result.1 ≡ lost_at name.now streams.old.items }
{
    match find_stream(streams.as_slice(), name) {
        Some(i) => streams[i].queue.take(alloc),
        None => (Vec::new(alloc), false),
    }
}

/// Puts events behind what the stream of a name has queued.
pub(crate) fn keep_queued(
    streams: &mut Vec<Stream>,
    name: &str,
    events: Vec<Event>,
) -> Result<(), AllocError>
    ensures { OnOk result
        (streams.new.items ≡ with_queue name.now (kept events.items) streams.old.items) }
{
    match find_stream(streams.as_slice(), name) {
        Some(i) => streams[i].queue.keep(events),
        None => Ok(()),
    }
}

fn find_stream(streams: &[Stream], name: &str) -> Option<usize>
    ensures { result ≡ position (λ st. bytes_eq name.now st.name) streams.now }
{
    streams
        .iter()
        .position(|stream| name == stream.name.as_str())
}
