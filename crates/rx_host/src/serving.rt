// A connection to a master.
ghost use Rattle.std.specs.Prelude.{◌≡◌, ℕ, List, Option, IfOk, IfErr, IsErrOf};
ghost use Rattle.rx_collection.specs.Held.{Held};
ghost use Rattle.rx_outside.specs.declared.stop.Stop.{Stop};
ghost use Rattle.rx_host.specs.Engine.{IsAt, IsStillOf, collection_of};
ghost use Rattle.rx_host.specs.Moments.{GivesMoments};
ghost use Rattle.rx_host.specs.Serving.{HasKept, HasStopped, TalksOn};
ghost use Rattle.rx_outside.specs.Failed.{Rises};
ghost use Rattle.rx_outside.specs.declared.stop.Stop.TheVariants as Stop;
ghost use Rattle.rx_serve.specs.Answered.{Commits};
ghost use Rattle.rx_serve.specs.Ends.{EndsBy, IsStopOf, IsStopped, joined_since};
ghost use Rattle.rx_serve.specs.declared.ended.Why.TheVariants as why;
ghost use Rattle.rx_store.specs.Safe.{HasDiskCause};

use crate::engine::MasterEngine;
use crate::host::{Host, Hosting, Work};
use crate::moments::Moments;
use rx_disk::Disk;
use rx_outside::{Clock, Stop, Wire};
use rx_serve::{Ended, serve};
use std::alloc::Global;

impl MasterEngine {
    /// Serves a connection to its end. Each reply is sent when the record of its commit is on the
    /// disk, and not before. The master is spent on a stop.
    pub fn serve<W: Wire, D: Disk, C: Clock>(
        self,
        alloc: Global,
        wire: &mut W,
        disk: &mut D,
        clock: &mut C,
    ) -> Result<(MasterEngine, Ended), Stop>
        requires at { D.tells → (bodies : List (List ℕ)) × IsAt D.Disk disk.old self bodies }

        // What is served at the moments that the clock gave was served, and the disk has the
        // records of its commits.
        ensures served { IfOk result (λ p. (moments : List ℕ)
            × (C.tells → GivesMoments (C.given clock.old) (C.given clock.new) moments)
            × (W.tells → EndsBy p.1.why p.1.requests (HasKept D.Disk disk.old disk.new self p.0)
            (record {
              before = collection_of self;
              after = collection_of p.0;
              moments = moments;
              coming = W.left wire.old;
              sent = joined_since (W.sent wire.old) (W.sent wire.new);
            }))) }

        // A stop came: no record is missing of a reply of which a byte was sent.
        ensures stopped { IfErr result (λ why. (moments : List ℕ)
            × (C.tells → GivesMoments (C.given clock.old) (C.given clock.new) moments)
            × (W.tells → (after : Held) × (stop : Option Stop) × IsStopOf why stop
            × IsStopped (HasStopped D.Disk disk.old disk.new self stop) (record {
              before = collection_of self;
              after = after;
              moments = moments;
              coming = W.left wire.old;
              sent = joined_since (W.sent wire.old) (W.sent wire.new);
            }))) }

        // Whatever the wire gave, the disk has the records of some commits.
        ensures kept { IfOk result (λ p. (commits : Commits)
            × HasKept D.Disk disk.old disk.new self p.0 commits) }
        ensures left { IfErr result (λ why. (sure : Commits) × (more : Commits)
            × (stop : Option Stop) × IsStopOf why stop
            × HasStopped D.Disk disk.old disk.new self stop sure more) }
        ensures at { D.tells → IfOk result (λ p. (bodies : List (List ℕ))
            × IsAt D.Disk disk.new p.0 bodies) }

        ensures same { IfOk result (λ p. IsStillOf self p.0) }
        ensures wire { TalksOn W.Wire wire.old wire.new }
        ensures failed { IfOk result (λ p. p.1.why ≡ why.Wire
            → Rises (W.faults wire.old) (W.faults wire.new)) }
        ensures not_journal { IsErrOf result Stop.NotJournal → ⊥ }
        ensures cause { HasDiskCause (D.faults disk.old) (D.faults disk.new) result }
    {
        let mut host = Host::new(
            disk,
            clock,
            Hosting {
                alloc,
                work: Work::Going(self),
                moments: Moments::new(),
            },
        );
        let ended = serve(alloc, wire, &mut host);
        let hosting = host.finish();
        match (ended, hosting.work) {
            (Ok(ended), Work::Going(engine)) => Ok((engine, ended)),
            (Ok(_), Work::Stopped(_)) => unreachable!(),
            (Err(stop), _) => Err(stop),
        }
    }
}
