ghost use Rattle.std.specs.Prelude.{◌≡◌, IfOk, option_map};
ghost use Rattle.rx_stream.specs.Events.{event_with, next_event};

use crate::copies::{copy_if_some, place_of};
use rx_collection::{Collection, Page};
use rx_document::Place;
use rx_value::{RxList, State};
use std::alloc::{AllocError, Global};

/// The most states of an event.
pub const MAX_STATES: usize = 100;

/// What a master wrote, as the answer to a pull that nobody asked for.
#[derive(Debug, Drop)]
pub struct Event {
    /// The place that the states stand above, none where they are the master's first.
    pub from: Option<Place>,
    /// The states of the documents that come next, by rising place, at least one.
    pub states: RxList<State>,
    /// The place of the last of them.
    pub place: Place,
}

/// The next event of a collection from a place on. There is none where no document stands above it.
pub(crate) fn next_event(
    alloc: Global,
    collection: &Collection,
    from: Option<&Place>,
) -> Result<Option<Event>, AllocError>
    ensures { IfOk result (λ event.
        event ≡ next_event collection.now.documents (option_map (λ p. p.now) from.entry)) }
{
    event_with(alloc, from, collection.page(from, MAX_STATES))
}

fn event_with(
    alloc: Global,
    from: Option<&Place>,
    page: Page<'_>,
) -> Result<Option<Event>, AllocError>
    ensures { IfOk result
        (λ event. event ≡ event_with (option_map (λ p. p.now) from.entry) page.entry) }
{
    let mut states = RxList::new(alloc);
    let mut last = None;
    for held in page {
        states.push(held.state.copy(alloc)?)?;
        last = Some(held);
    }
    match last {
        Some(held) => Ok(Some(Event {
            from: copy_if_some(alloc, from)?,
            states,
            place: place_of(alloc, held)?,
        })),
        None => Ok(None),
    }
}
