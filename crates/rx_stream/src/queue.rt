ghost use Rattle.std.specs.Prelude.{◌≡◌, length, IfOk, OnOk, OnErr, option_map};
ghost use Rattle.rx_stream.specs.Events.{emptied, follow, kept, last_above, new_queue, next_event, queued};

use crate::copies::{copy_if_some, copy_of_place, place_of};
use crate::event::{Event, next_event};
use rx_collection::Collection;
use rx_document::Place;
use std::alloc::{AllocError, Global};
use std::marker::Model;
use std::mem;

/// The most events of a queue.
pub const MAX_QUEUED: usize = 64;

/// The events of a stream that aren't delivered yet, in order.
#[derive(Drop)]
pub struct Queue {
    events: Vec<Event>,
    // Events were dropped since the last taking.
    mark: bool,
    // How far the master was followed.
    end: Option<Place>,
}

impl Model for Queue {
    ghost use Rattle.rx_stream.specs.Events.{Queue, queue_with};

    ghost Value = { Queue };

    ghost view = { λ q. queue_with q.events.items q.mark q.end };
}

impl Queue {
    /// An empty queue from the collection's last place on. `down` isn't above that place.
    pub fn new(
        alloc: Global,
        collection: &Collection,
        down: Option<&Place>,
    ) -> Result<Queue, AllocError>
        ensures { IfOk result (λ q. q
            ≡ new_queue (option_map (λ p. p.now) down.entry) collection.now.documents) }
    {
        Ok(Queue {
            events: Vec::new(alloc),
            mark: false,
            end: last_above(alloc, collection, down)?,
        })
    }

    /// Queues what the collection has above the end, in events of at most 100 states. An event that
    /// finds 64 queued isn't queued: all are dropped, and the mark is set.
    pub fn follow(&mut self, alloc: Global, collection: &Collection) -> Result<(), AllocError>
        ensures { OnOk result (self.new ≡ follow collection.now.documents self.old) }
    {
        for _ in 0..collection.len() {
            match self.next(alloc, collection)? {
                Some(event) => self.push(alloc, event)?,
                None => return Ok(()),
            }
        }
        Ok(())
    }

    fn next(&self, alloc: Global, collection: &Collection) -> Result<Option<Event>, AllocError>
        ensures { IfOk result
            (λ event. event ≡ next_event collection.now.documents self.now.end) }
    {
        next_event(alloc, collection, self.end.as_ref())
    }

    fn push(&mut self, alloc: Global, event: Event) -> Result<(), AllocError>
        ensures { OnOk result (self.new ≡ queued event self.old) }
    {
        let end = copy_of_place(alloc, &event.place)?;
        if self.events.len() >= MAX_QUEUED {
            self.events.clear();
            self.mark = true;
        } else {
            self.events.push(event)?;
        }
        self.end = Some(end);
        Ok(())
    }

    /// The events, and whether any were dropped since the last taking. The queue is empty and
    /// unmarked then, and follows from where it was.
    pub fn take(&mut self, alloc: Global) -> (Vec<Event>, bool)
        ensures events { result.0.items ≡ self.old.events }
        ensures mark { result.1 ≡ self.old.mark }
        ensures rest { self.new ≡ emptied self.old }
    {
        let events = mem::replace(&mut self.events, Vec::new(alloc));
        let mark = mem::replace(&mut self.mark, false);
        (events, mark)
    }

    /// Puts events behind those that are queued.
    pub fn keep(&mut self, events: Vec<Event>) -> Result<(), AllocError>
        ensures ok { OnOk result (self.new ≡ kept events.items self.old) }
        ensures err { OnErr result (self.new ≡ self.old) }
    {
        let mut events = events;
        self.events.append(&mut events)
    }

    /// How many events are queued.
    pub fn len(&self) -> usize
        ensures { result ≡ length self.now.events }
    {
        self.events.len()
    }
}

// The place of the last document above that place, or the place itself where there is none.
fn last_above(
    alloc: Global,
    collection: &Collection,
    place: Option<&Place>,
) -> Result<Option<Place>, AllocError>
    ensures { IfOk result (λ last. last
        ≡ last_above (option_map (λ p. p.now) place.entry) collection.now.documents) }
{
    match collection.page(place, collection.len()).last() {
        Some(held) => Ok(Some(place_of(alloc, held)?)),
        None => copy_if_some(alloc, place),
    }
}
