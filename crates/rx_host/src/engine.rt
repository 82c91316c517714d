// A master over its journal.
ghost use Rattle.std.specs.Prelude.{◌≡◌, true, is_some};
ghost use Rattle.rx_host.specs.Worlds.{is_served, world_of};
ghost use Rattle.rx_value.specs.Named.{named};

use crate::planning::plan;
use rx_collection::{Collection, Holder, Plain};
use rx_disk::Disk;
use rx_journal::Journal;
use rx_outside::Stop;
use rx_record::Record;
use rx_schema::Schema;
use rx_store::keep;
use rx_sync::Handled;
use rx_value::RxText;
use rx_wire::{Reply, Request};
use rx_world::{StepFault, World};
use std::alloc::Global;

/// A collection that a journal holds and that is no fork, and the journal's world.
#[derive(Drop)]
pub struct MasterEngine {
    journal: Journal,
    world: World<Plain>,
    name: RxText,
    ghost held: { is_some (named (world_of world).collections name) ≡ true },
}

impl MasterEngine {
    ghost use Rattle.std.specs.Prelude.{◌≤◌, ◌<◌, ◌^◌, ℕ, List, [], ◌∷◌, Some, None, IfOk, IfSome, IsErrOf};
    ghost use Rattle.rx_host.specs.Engine.{Finds, IsAt, IsAtIfFound, collection_of, limit_of, name_of, world_at};
    ghost use Rattle.rx_host.specs.Records.{bodies_of};
    ghost use Rattle.rx_journal.specs.Reading.{IsUntouched};
    ghost use Rattle.rx_outside.specs.declared.stop.Stop.TheVariants as Stop;
    ghost use Rattle.rx_record.specs.Content.{content_bytes};
    ghost use Rattle.rx_record.specs.Shown.{content};
    ghost use Rattle.rx_record.specs.Writable.{IsOrdered};
    ghost use Rattle.rx_serve.specs.Answered.{Gives, answered_at, commit_at};
    ghost use Rattle.rx_store.specs.Holds.{IsIllegalFile, IsJournalOfSome, IsLegalFile};
    ghost use Rattle.rx_store.specs.Safe.{HasDiskCause, IsCrashSafe};
    ghost use Rattle.rx_wire.specs.Lawful.{IsReply, IsRequest};
    ghost use Rattle.rx_world.specs.Made.{IsMadeWorld};
    ghost use Rattle.rx_world.specs.Sound.{IsSoundWorld};
    ghost use Rattle.rx_world.specs.Step.{legal, step};
    ghost use Rattle.rx_world.specs.World as worlds;

    /// Opens a journal and plays its records. No record is written. There is no master where the
    /// journal doesn't hold the collection, or where it is a fork.
    pub fn open<D: Disk>(
        alloc: Global,
        disk: &mut D,
        limit: u64,
        name: &str,
    ) -> Result<Option<MasterEngine>, Stop>
        requires low { 9 ≤ limit }
        requires high { limit < 2 ^ 32 }

        // A file that is opened is legal, and the master is that of its world.
        ensures stood { D.tells → IfOk result (λ _. IsJournalOfSome (D.content disk.old)) }
        ensures found { D.tells → (bodies : List (List ℕ)) (w : worlds.World)
            → IsLegalFile (D.content disk.old) bodies w → IfOk result (Finds name.now w) }
        ensures found_somewhere { IfOk result (λ found. (w : worlds.World)
            × Finds name.now w found) }
        ensures limit { IfOk result (λ found. IfSome found (λ m. limit_of m ≡ limit)) }

        // Over a legal file: what holds at each moment, and at `Ok`. No record is due.
        ensures safe { D.tells → (bodies : List (List ℕ)) (w : worlds.World)
            → IsLegalFile (D.content disk.old) bodies w
            → IsCrashSafe D.Disk disk.old disk.new bodies [] limit
            (IsAtIfFound D.Disk disk.new) result }

        ensures at { D.tells → IfOk result (λ found. IfSome found (λ m.
            (bodies : List (List ℕ)) × IsAt D.Disk disk.new m bodies)) }

        // A file that isn't legal stays as it was, and nothing that a crash leaves is new.
        ensures illegal { D.tells → IsIllegalFile (D.content disk.old)
            → IsUntouched D.Disk disk.old disk.new }
        ensures no_full { (would most : ℕ) → IsErrOf result (Stop.Full would most) → ⊥ }
        ensures cause { HasDiskCause (D.faults disk.old) (D.faults disk.new) result }
    {
        let opened = rx_store::open(alloc, disk, limit, &|collection| Ok(Plain::new(collection)))?;
        let (journal, world) = opened;
        if !serves(&world, name) {
            return Ok(None);
        }
        let name = RxText::new(alloc, name)?;
        Ok(Some(MasterEngine {
            journal,
            world,
            name,
        }))
    }

    /// Answers a request at a moment. The reply exists only when each image of the disk has the
    /// record of its commit. There is none where a row is to be written and no write time is left.
    /// The master is spent on a stop.
    pub fn answer<D: Disk>(
        self,
        alloc: Global,
        disk: &mut D,
        request: &Request,
        now: u64,
    ) -> Result<(MasterEngine, Option<Reply>), Stop>
        requires at { D.tells → (bodies : List (List ℕ)) × IsAt D.Disk disk.old self bodies }
        requires lawful { IsRequest (collection_of self).schema request.now }
        ensures answers { IfOk result (λ p. Gives (answered_at (collection_of self) now request.now)
            (collection_of self) p.1 (collection_of p.0)) }
        // The fork reads the reply back.
        ensures lawful { IfOk result (λ p. IfSome p.1 (IsReply (collection_of self).schema)) }
        ensures name { IfOk result (λ p. name_of p.0 ≡ name_of self) }
        ensures limit { IfOk result (λ p. limit_of p.0 ≡ limit_of self) }

        // The record of its commit: what holds at each moment, at `Ok`, and at `Full`.
        ensures safe { D.tells → (bodies : List (List ℕ)) → IsAt D.Disk disk.old self bodies
            → IsCrashSafe D.Disk disk.old disk.new bodies
            (bodies_of (name_of self)
            (commit_at (collection_of self) now request.now request.now.ask))
            (limit_of self) (λ p. IsAt D.Disk disk.new p.0) result }
        ensures idle { commit_at (collection_of self) now request.now request.now.ask ≡ []
            → disk.new ≡ disk.old }
        ensures not_journal { IsErrOf result Stop.NotJournal → ⊥ }
        ensures cause { HasDiskCause (D.faults disk.old) (D.faults disk.new) result }
    {
        let planned = match plan(alloc, self.collection(), request, now) {
            Ok(planned) => planned,
            Err(StepFault::ClockEnd) => return Ok((self, None)),
            Err(StepFault::Memory) => return Err(Stop::Memory),
        };
        let Handled { written, reply } = planned;
        match written {
            None => Ok((self, Some(reply))),
            Some(entry) => {
                let engine = self.write(alloc, disk, entry)?;
                Ok((engine, Some(reply)))
            }
        }
    }

    /// The schema of its collection.
    pub fn schema(&self) -> &Schema
        ensures { result.now ≡ (collection_of self.now).schema }
    {
        self.collection().schema()
    }

    fn collection(&self) -> &Collection
        ensures shown { result.now ≡ collection_of self.now }
        ensures held { named (world_at self.now).collections (name_of self.now) ≡ Some result.now }
        ensures called { result.now.name ≡ name_of self.now }
        ensures made { IsMadeWorld (world_at self.now) }
    {
        // What the length tells besides: the world is one that records made.
        let _count = self.world.len();
        self.world.holder(self.name.as_str()).unwrap().collection()
    }

    // Puts a record on the disk, and then applies it.
    fn write<D: Disk>(
        self,
        alloc: Global,
        disk: &mut D,
        entry: Record,
    ) -> Result<MasterEngine, Stop>
        requires at { D.tells → (bodies : List (List ℕ)) × IsAt D.Disk disk.old self bodies }
        requires legal { legal (content entry) (world_at self) ≡ true }
        requires ordered { IsOrdered (content entry) }
        requires sound { IsSoundWorld (world_at self)
            → IsSoundWorld (step (content entry) (world_at self)) }
        requires held { is_some (named (step (content entry) (world_at self)).collections
            (name_of self)) ≡ true }
        ensures world { IfOk result (λ m. world_at m ≡ step (content entry) (world_at self)) }
        ensures name { IfOk result (λ m. name_of m ≡ name_of self) }
        ensures limit { IfOk result (λ m. limit_of m ≡ limit_of self) }
        ensures safe { D.tells → (bodies : List (List ℕ)) → IsAt D.Disk disk.old self bodies
            → IsCrashSafe D.Disk disk.old disk.new bodies (content_bytes (content entry) ∷ [])
            (limit_of self) (IsAt D.Disk disk.new) result }
        ensures not_journal { IsErrOf result Stop.NotJournal → ⊥ }
        ensures cause { HasDiskCause (D.faults disk.old) (D.faults disk.new) result }
    {
        let MasterEngine {
            journal,
            world,
            name,
        } = self;
        let journal = keep(alloc, journal, disk, &entry)?;
        let world = world.apply_legal(alloc, entry, &|collection| Ok(Plain::new(collection)))?;
        Ok(MasterEngine {
            journal,
            world,
            name,
        })
    }
}

// Whether a world has the collection of that name, and it is no fork.
fn serves(world: &World<Plain>, name: &str) -> bool
    ensures { result ≡ is_served name.now (world_of world.now) }
{
    world.holder(name).is_some() && !world.is_fork(name)
}
