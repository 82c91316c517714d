// A master over a disk and a clock, as what a connection asks.
ghost use Rattle.std.specs.Prelude.{◌≡◌, ◌≤◌, ℕ, List, [], None};
ghost use Rattle.rx_host.specs.Moments.{HasMoment, Ticks};

use crate::engine::MasterEngine;
use crate::moments::Moments;
use rx_disk::Disk;
use rx_outside::{Clock, Stop};
use rx_schema::Schema;
use rx_serve::Answer;
use rx_wire::{AskKind, Reply, Request};
use std::alloc::Global;
use std::mem::replace;

/// A master, until a stop spends it.
#[derive(Drop)]
pub(crate) enum Work {
    Going(MasterEngine),
    Stopped(Stop),
}

/// A master at work, and the moments of the pushes that it answered.
#[derive(Drop)]
pub(crate) struct Hosting {
    pub(crate) alloc: Global,
    pub(crate) work: Work,
    pub(crate) moments: Moments,
}

/// What works over a disk and a clock. The clock is read once for each push.
#[derive(Drop)]
pub(crate) struct Host<'a, D, C, S> {
    disk: &'a mut D,
    clock: &'a mut C,
    state: S,
}

impl<'a, D, C, S> Host<'a, D, C, S> {
    pub(crate) fn new(disk: &'a mut D, clock: &'a mut C, state: S) -> Host<'a, D, C, S>
        ensures same_disk { result.disk.ghost_name ≡ disk.entry.ghost_name }
        ensures same_clock { result.clock.ghost_name ≡ clock.entry.ghost_name }
        ensures disk { result.disk.now ≡ disk.old }
        ensures clock { result.clock.now ≡ clock.old }
        ensures state { result.state ≡ state }
    {
        Host { disk, clock, state }
    }

    /// Gives back the disk and the clock.
    pub(crate) fn finish(self) -> S
        ensures disk { self.exit.0.now ≡ self.entry.disk.now }
        ensures clock { self.exit.1.0.now ≡ self.entry.clock.now }
        ensures state { result ≡ self.entry.state }
    {
        let Host {
            disk: _,
            clock: _,
            state,
        } = self;
        state
    }
}

impl<'a, D: Disk, C: Clock> Answer for Host<'a, D, C, Hosting> {
    ghost use Rattle.rx_host.specs.Hosting.{Hosts, IsWorking, collection_in, stop_in};
    ghost use Rattle.rx_host.specs.Laws.{at_most, hosts_none, hosts_on, later, ticks_none, ticks_on};
    ghost use Rattle.std.proofs.Common.{refl, ◌∙◌};

    ghost collection = { λ h. collection_in h.state.work };

    ghost moments = { λ h. h.state.moments.items };

    ghost stop = { λ h. stop_in h.state.work };

    ghost is_ready = { λ h. D.tells → (bodies : List (List ℕ))
        × IsWorking D.Disk h.disk.now h.state.work bodies };

    ghost holds = { λ a b sure more. (b.disk.ghost_name ≡ a.disk.ghost_name)
        × (b.clock.ghost_name ≡ a.clock.ghost_name)
        × Hosts D.Disk a.disk.now b.disk.now a.state.work b.state.work sure more
        × Ticks C.tells (C.given a.clock.now) (C.given b.clock.now)
        a.state.moments.items b.state.moments.items
        × (C.faults a.clock.now ≤ C.faults b.clock.now) };

    fn answer(&mut self, request: &Request) -> Result<Option<Reply>, Stop> {
        let Work::Going(engine) = replace(&mut self.state.work, Work::Stopped(Stop::Memory)) else {
            unreachable!()
        };
        let now = moment(&request.ask, &mut *self.clock, &mut self.state.moments);
        match engine.answer(self.state.alloc, &mut *self.disk, request, now) {
            Ok((engine, reply)) => {
                self.state.work = Work::Going(engine);
                Ok(reply)
            }
            Err(stop) => {
                self.state.work = Work::Stopped(copy_of(&stop));
                Err(stop)
            }
        }
    }

    fn schema(&self) -> &Schema {
        match &self.state.work {
            Work::Going(engine) => engine.schema(),
            Work::Stopped(_) => unreachable!(),
        }
    }

    ghost holds_of_none = { λ a going. (
      refl,
      refl,
      hosts_none _ (λ disk c told left. D.only_now disk c told left) a.disk.now a.state.work going,
      ticks_none C.tells (C.given a.clock.now) a.state.moments.items,
      later (C.faults a.clock.now),
    ) };

    ghost holds_on = { λ a b c first second more going h k. (
      k.0 ∙ h.0,
      k.1 ∙ h.1,
      hosts_on _ a.disk.now b.disk.now c.disk.now a.state.work b.state.work c.state.work
          first second more going h.2 k.2,
      ticks_on C.tells (C.given a.clock.now) (C.given b.clock.now) (C.given c.clock.now)
          a.state.moments.items b.state.moments.items c.state.moments.items h.3 k.3,
      at_most (C.faults a.clock.now) (C.faults b.clock.now) (C.faults c.clock.now) h.4 k.4,
    ) };
}

// The moment of a push, by the clock. A pull needs none.
fn moment<C: Clock>(ask: &AskKind, clock: &mut C, moments: &mut Moments) -> u64
    ensures moment { HasMoment ask.now result moments.old.items moments.new.items }
    ensures ticks { Ticks C.tells (C.given clock.old) (C.given clock.new)
        moments.old.items moments.new.items }
    ensures count { C.faults clock.old ≤ C.faults clock.new }
{
    match ask {
        AskKind::Push(_) => {
            let now = clock.now();
            *moments = moments.then(now);
            now
        }
        AskKind::Pull { .. } => 0,
    }
}

fn copy_of(stop: &Stop) -> Stop
    ensures { result ≡ stop.now }
{
    match stop {
        Stop::Disk => Stop::Disk,
        Stop::NotJournal => Stop::NotJournal,
        Stop::Full { would, limit } => Stop::Full {
            would: *would,
            limit: *limit,
        },
        Stop::Memory => Stop::Memory,
    }
}
