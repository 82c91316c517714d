// Delivers what a stream has queued: each event is given once the records of those before it are
// staged.
ghost use Rattle.std.specs.Prelude.{◌≡◌, true, Some, IfOk};
ghost use Rattle.rx_sync.specs.Asking.{pending_in};
ghost use Rattle.rx_sync.specs.Delivery.{delivered, given_once, one_delivered, MayDeliver};
ghost use Rattle.rx_engine.specs.Delivering.{delivery_at, kept_as, noted_as, IsDelivered, IsDeliveredOn, MayGive};

use crate::play::Play;
use crate::streams::Deliver;
use rx_reply::{Given, Took};
use rx_script::Delivery;
use rx_stream::Event;
use rx_sync::{Giving, give, given_as};
use rx_value::RxList;
use std::alloc::{AllocError, Global};

/// A delivery that was made, and whether nothing of the fork is to be pushed, where that is known.
#[derive(Drop)]
pub(crate) struct Delivered {
    pub play: Play,
    pub given: RxList<Given>,
    pub kept: Vec<Event>,
    pub none: bool,
}

/// Delivers events, one after another. Where `none` nothing of the fork is to be pushed before it.
pub(crate) fn deliver_all(
    alloc: Global,
    first: Play,
    wanted: &Deliver,
    events: Vec<Event>,
    now: u64,
    none: bool,
) -> Result<Delivered, AllocError>
    requires may { MayDeliver first.playing.world wanted.now.name events.items }
    requires none { none ≡ true → pending_in first.playing.world wanted.now.name ≡ Some 0 }
    ensures delivered { IfOk result (λ made. IsDelivered
        (delivered wanted.now.name now 1 wanted.now.link.items events.items first.playing.world)
        first made) }
    ensures none { IfOk result (λ made. made.none ≡ true
        → pending_in made.play.playing.world wanted.now.name ≡ Some 0) }
{
    let mut made = Delivered {
        play: first,
        given: RxList::new(alloc),
        kept: Vec::new(alloc),
        none,
    };
    let count = events.len();
    let mut coming = events.into_iter();
    for i in 0..count {
        match coming.next() {
            Some(event) => {
                let delivery = delivery_at(wanted.link.as_slice(), i);
                made = made.deliver(alloc, wanted, i as u64 + 1, event, delivery, now)?;
            }
            None => break,
        }
    }
    Ok(made)
}

// What the link does to an event: nothing, where nothing is said.
fn delivery_at(link: &[Delivery], i: usize) -> Delivery
    ensures { result ≡ delivery_at i link.now }
{
    match link.get(i) {
        Some(delivery) => *delivery,
        None => Delivery::Ok,
    }
}

impl Delivered {
    // The same once the event of that number was delivered.
    fn deliver(
        self,
        alloc: Global,
        wanted: &Deliver,
        number: u64,
        event: Event,
        delivery: Delivery,
        now: u64,
    ) -> Result<Delivered, AllocError>
        requires may { MayGive self.play.playing.world wanted.now.name event }
        requires none { self.none ≡ true
            → pending_in self.play.playing.world wanted.now.name ≡ Some 0 }
        ensures delivered { IfOk result (IsDeliveredOn
            (one_delivered wanted.now.name now number delivery event self.play.playing.world)
            self) }
        ensures none { IfOk result (λ made. made.none ≡ true
            → pending_in made.play.playing.world wanted.now.name ≡ Some 0) }
    {
        match delivery {
            Delivery::Ok => self.give(alloc, wanted, number, &event, now),
            Delivery::Lose => self.note(alloc, number, &event, Took::Lost),
            Delivery::Twice => {
                let once = self.give(alloc, wanted, number, &event, now)?;
                once.give(alloc, wanted, number, &event, now)
            }
            Delivery::Later => {
                let noted = self.note(alloc, number, &event, Took::Later)?;
                noted.keep(event)
            }
        }
    }

    // The same once the event of that number was given.
    fn give(
        self,
        alloc: Global,
        wanted: &Deliver,
        number: u64,
        event: &Event,
        now: u64,
    ) -> Result<Delivered, AllocError>
        requires may { MayGive self.play.playing.world wanted.now.name event.now }
        requires none { self.none ≡ true
            → pending_in self.play.playing.world wanted.now.name ≡ Some 0 }
        ensures delivered { IfOk result (IsDeliveredOn
            (given_once wanted.now.name now number event.now self.play.playing.world) self) }
        ensures none { IfOk result (λ made. made.none ≡ true
            → pending_in made.play.playing.world wanted.now.name ≡ Some 0) }
    {
        let Delivered {
            play,
            mut given,
            kept,
            none,
        } = self;
        let name = wanted.name.as_str();
        let Giving {
            written,
            given: line,
        } = give(alloc, play.playing.world(), name, number, event, now, none)?;
        let none = none || matches!(line.took, Took::Taken);
        let play = play.stage_maybe(alloc, written)?;
        given.push(line)?;
        Ok(Delivered {
            play,
            given,
            kept,
            none,
        })
    }

    // The same with a line of an event that wasn't given.
    fn note(
        self,
        alloc: Global,
        number: u64,
        event: &Event,
        took: Took,
    ) -> Result<Delivered, AllocError>
        ensures delivered { IfOk result (IsDeliveredOn (noted_as number event.now took) self) }
        ensures none { IfOk result (λ made. (made.none ≡ self.none)
            × (made.play ≡ self.play)) }
    {
        let Delivered {
            play,
            mut given,
            kept,
            none,
        } = self;
        given.push(given_as(alloc, number, event, took)?)?;
        Ok(Delivered {
            play,
            given,
            kept,
            none,
        })
    }

    // The same with an event that is kept for the next line.
    fn keep(self, event: Event) -> Result<Delivered, AllocError>
        ensures delivered { IfOk result (IsDeliveredOn (kept_as event) self) }
        ensures none { IfOk result (λ made. (made.none ≡ self.none)
            × (made.play ≡ self.play)) }
    {
        let Delivered {
            play,
            given,
            mut kept,
            none,
        } = self;
        kept.push(event)?;
        Ok(Delivered {
            play,
            given,
            kept,
            none,
        })
    }
}
