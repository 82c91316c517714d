ghost use Rattle.std.specs.Prelude.{◌≡◌, ◌<◌, true, false, length, map, Some, None, Ok, IfOk, IfSome, IfNone, IsErrOf, IsSome, is_some, option_map, slice_get};
ghost use Rattle.std.specs.Bool.{Decides};
ghost use Rattle.std.specs.Fn.{FnOnceTakesAtMut};
ghost use Rattle.std.specs.List.{AllByRecursion, IsDistinct};
ghost use Rattle.std.specs.Option.{ForSome};
ghost use Rattle.std.specs.Str.{bytes_eq};
ghost use Rattle.rx_value.specs.Due.{DueBy};
ghost use Rattle.rx_value.specs.Named.{named};
ghost use Rattle.rx_collection.specs.Lawful.{IsLawful};
ghost use Rattle.rx_record.specs.Shown.{content, content_in};
ghost use Rattle.rx_record.specs.Writable.{IsOrdered};
ghost use Rattle.rx_world.specs.Chain.{is_fork, may_follow};
ghost use Rattle.rx_world.specs.Commit.{commit};
ghost use Rattle.rx_world.specs.Edit.{Edited, Leaves, LeavesWhole};
ghost use Rattle.rx_world.specs.Holders.{After, IsWhole, holders_in, world_in};
ghost use Rattle.rx_world.specs.Lawful.{IsLawfulWorld};
ghost use Rattle.rx_world.specs.Linked.{IsLinked};
ghost use Rattle.rx_world.specs.Made.{IsMadeWorld};
ghost use Rattle.rx_world.specs.Migrating.{is_in_group};
ghost use Rattle.rx_world.specs.Migration.{migration_of};
ghost use Rattle.rx_world.specs.Sound.{IsSoundWorld};
ghost use Rattle.rx_world.specs.Step.{IsValidState, step, legal};
ghost use Rattle.rx_world.specs.Touch.{IsMigration, IsNoMigration, touch};
ghost use Rattle.rx_world.specs.Valid.{AreValid, AreDistinct};
ghost use Rattle.rx_world.specs.World.{empty};
ghost use Rattle.rx_world.specs.declared.fault.MigrateFault.TheVariants.{Memory};

use crate::chain;
use crate::change::change;
use crate::fault::{ApplyFault, MigrateFault, StepFault};
use crate::following::follow_same;
use crate::legality::{is_legal, is_legal_view};
use crate::migrating::check_group;
use crate::names::{edit, find, find_at};
use crate::parts::Parts;
use crate::replication::Replication;
use crate::replications::{find as find_replication, find_at as find_replication_at};
use crate::rows::commit;
use crate::same::hold_same;
use crate::soundness::is_sound;
use indexmap::IndexMap;
use rx_collection::{Collection, Holder};
use rx_migrate::Steps;
use rx_record::{MasterName, Record, RecordView};
use rx_schema::Schema;
use rx_value::{RxText, State};
use std::alloc::{AllocError, Global};
use std::marker::Model;

/// Holders of collections and replications by name, in the order of their making, and the last
/// epoch.
#[derive(Drop)]
pub struct World<H: Holder + Drop> {
    pub(crate) parts: Parts<H>,
}

impl<H: Holder + Drop> Model for World<H> {
    ghost use Rattle.rx_world.specs.Holders.{Holders, holders_of, AreSound};

    ghost Value = { Holders H };

    ghost view = { λ w. holders_of w.parts };

    ghost invariant = { λ w. AreSound H.held H.is_broken (holders_of w.parts) };
}

impl<H: Holder + Drop> World<H> {
    pub fn new(alloc: Global) -> World<H>
        ensures { world_in H.held result ≡ empty }
    {
        World {
            parts: Parts {
                holders: IndexMap::new(alloc),
                replications: IndexMap::new(alloc),
                epoch: 0,
            },
        }
    }

    /// The number of the last epoch, 0 before the first.
    pub fn epoch(&self) -> u64
        ensures { result ≡ self.now.epoch }
    {
        self.parts.epoch
    }

    /// How many collections there are.
    pub fn len(&self) -> usize
        ensures count { result ≡ length (world_in H.held self.now).collections }
        ensures lawful { IsLawfulWorld (world_in H.held self.now) }
        ensures whole { AllByRecursion (λ e. IsWhole H.held H.is_broken e.0 e.1)
            (holders_in self.now) }
        ensures distinct { AreDistinct (world_in H.held self.now) }
        ensures made { IsMadeWorld (world_in H.held self.now) }
    {
        self.parts.holders.len()
    }

    /// The holder of the collection of that name.
    pub fn holder(&self, name: &str) -> Option<&H>
        ensures found { option_map (λ h. h.now) result ≡ named (holders_in self.now) name.now }
        ensures held { option_map (λ h. H.held h.now) result
            ≡ named (world_in H.held self.now).collections name.now }
        ensures whole { IfSome result (λ h. H.is_broken h.now ≡ false) }
        ensures called { IfSome result (λ h. (H.held h.now).name ≡ name.now) }
        ensures lawful { IfSome result (λ h. IsLawful (H.held h.now)) }
        ensures valid { IfSome result (λ h. AreValid (H.held h.now)) }
        ensures made { IsMadeWorld (world_in H.held self.now) }
    {
        find(&self.parts.holders, name)
    }

    /// The holder of the collection at that place in the order of their making.
    pub fn holder_at(&self, i: usize) -> &H
        requires { i < length (world_in H.held self.now).collections }
        ensures found { slice_get (world_in H.held self.now).collections i
            ≡ Some ((H.held result.now).name, H.held result.now) }
        ensures whole { H.is_broken result.now ≡ false }
    {
        find_at(&self.parts.holders, i)
    }

    /// Calls a function on the holder of the collection of that name. The function leaves the
    /// collection as it is.
    pub fn edit<R, F: FnOnce(&mut H) -> R + Drop>(&mut self, name: &str, f: F) -> Option<R>
        requires callable { ForSome (named (holders_in self.old) name.now)
            (λ h. IsWhole H.held H.is_broken name.now h → FnOnceTakesAtMut F.FnOnce f h) }
        requires keeps { ForSome (named (holders_in self.old) name.now)
            (λ h. IsWhole H.held H.is_broken name.now h → Leaves H.held F.FnOnce f h) }
        requires unbroken { ForSome (named (holders_in self.old) name.now)
            (λ h. IsWhole H.held H.is_broken name.now h → LeavesWhole H.is_broken F.FnOnce f h) }
        ensures done { IfSome result
            (Edited F.FnOnce f name.now (holders_in self.old) (holders_in self.new)) }
        ensures none { IfNone result (named (holders_in self.old) name.now ≡ None) }
        ensures same { IfNone result (self.new ≡ self.old) }
        ensures world { world_in H.held self.new ≡ world_in H.held self.old }
    {
        edit(&mut self.parts.holders, name, f)
    }

    /// Whether the record may come next.
    pub fn legal(&self, alloc: Global, entry: &Record) -> Result<bool, AllocError>
        ensures { IfOk result (λ b. b ≡ legal (content entry.now) (world_in H.held self.now)) }
    {
        is_legal(&self.parts, alloc, entry)
    }

    /// Whether the record of a view may come next, from its lent parts. Of these no state is owned
    /// for the test.
    pub fn legal_view(&self, alloc: Global, view: &RecordView<'_>) -> Result<bool, AllocError>
        ensures { IfOk result
            (λ b. b ≡ legal (content_in view.now) (world_in H.held self.now)) }
    {
        is_legal_view(&self.parts, alloc, view)
    }

    /// The record that takes the collection of that name, with all that local replications join to
    /// it, to a schema by those steps; or the first reason why they can't go there. Nothing is
    /// changed: the record is to be kept, and then applied.
    pub fn migrate(
        &self,
        alloc: Global,
        name: &str,
        schema: &Schema,
        steps: Steps,
    ) -> Result<Record, MigrateFault>
        requires held { IsSome (named (world_in H.held self.now).collections name.now) }
        ensures exact { ForSome (named (world_in H.held self.now).collections name.now)
            (λ c. DueBy Memory content result
            (migration_of name.now schema.now steps c (world_in H.held self.now))) }
        ensures legal { IfOk result (λ entry. legal (content entry) (world_in H.held self.now)
            ≡ true) }
        ensures migrates { IfOk result (λ entry. IsMigration (content entry)) }
    {
        let holder = self.holder(name).unwrap();
        check_group(&self.parts, alloc, holder.collection(), schema, &steps)?;
        Ok(Record::Migration {
            name: RxText::new(alloc, name)?,
            schema: schema.canonical().copy(alloc)?,
            steps,
        })
    }

    /// Whether local replications join two collections, over any number of them; each is joined to
    /// itself.
    pub fn is_in_group(&self, name: &str, other: &str) -> bool
        ensures { result
            ≡ is_in_group (world_in H.held self.now).replications name.now other.now }
    {
        chain::is_in_group(&self.parts.replications, name, other)
    }

    /// The record of a view, where it may come next. It is tested first, from its lent parts, so
    /// that none is owned that is refused.
    pub fn accept(&self, alloc: Global, view: &RecordView<'_>) -> Result<Option<Record>, AllocError>
        ensures some { IfOk result (λ taken. IfSome taken
            (λ entry. content entry ≡ content_in view.now)) }
        ensures legal { IfOk result (λ taken. is_some taken
            ≡ legal (content_in view.now) (world_in H.held self.now)) }
    {
        if !self.legal_view(alloc, view)? {
            return Ok(None);
        }
        Ok(Some(view.own(alloc)?))
    }

    /// The world after a record. It is spent on a refusal.
    pub fn apply<F: Fn(Collection) -> Result<H, AllocError>>(
        self,
        alloc: Global,
        entry: Record,
        make: &F,
    ) -> Result<World<H>, ApplyFault>
        requires callable { F.IsAlwaysCallable make.now }
        requires makes { (c : _) (r : _) → F.post make.now c r
            → IfOk r (λ h. (H.held h ≡ c) × (H.is_broken h ≡ false)) }
        requires ordered { IsOrdered (content entry) }
        ensures ok { IfOk result (λ world. (world_in H.held world
            ≡ step (content entry) (world_in H.held self))
            × (legal (content entry) (world_in H.held self) ≡ true)) }
        ensures holders { IfOk result (λ world. After H.held H.written
            (λ c h. F.post make.now c (Ok h)) (touch (content entry) (world_in H.held self))
            (holders_in self)
            (holders_in world)) }
        ensures distinct { IfOk result (λ world. AreDistinct (world_in H.held world)) }
        ensures made { IfOk result (λ world. IsMadeWorld (world_in H.held world)) }
        ensures illegal { IsErrOf result ApplyFault.Illegal
            → legal (content entry) (world_in H.held self) ≡ false }
    {
        if !self.legal(alloc, &entry)? {
            return Err(ApplyFault::Illegal);
        }
        Ok(self.apply_legal(alloc, entry, make)?)
    }

    /// The world after a record that may come next. It is not asked again whether it may, so what
    /// `commit` gave is applied without a further look at its documents.
    pub fn apply_legal<F: Fn(Collection) -> Result<H, AllocError>>(
        self,
        alloc: Global,
        entry: Record,
        make: &F,
    ) -> Result<World<H>, AllocError>
        requires callable { F.IsAlwaysCallable make.now }
        requires makes { (c : _) (r : _) → F.post make.now c r
            → IfOk r (λ h. (H.held h ≡ c) × (H.is_broken h ≡ false)) }
        requires ordered { IsOrdered (content entry) }
        requires legal { legal (content entry) (world_in H.held self) ≡ true }
        ensures world { IfOk result (λ world. world_in H.held world
            ≡ step (content entry) (world_in H.held self)) }
        ensures holders { IfOk result (λ world. After H.held H.written
            (λ c h. F.post make.now c (Ok h)) (touch (content entry) (world_in H.held self))
            (holders_in self)
            (holders_in world)) }
        ensures distinct { IfOk result (λ world. AreDistinct (world_in H.held world)) }
        ensures made { IfOk result (λ world. IsMadeWorld (world_in H.held world)) }
        ensures before { IsMadeWorld (world_in H.held self) }
    {
        let mut parts = self.parts;
        change(&mut parts, alloc, entry, make)?;
        Ok(World { parts })
    }

    /// Whether the collections are those of the other world, in the same order, and so are the
    /// replications, with what they know. So a journal that was opened again is compared with the
    /// world that wrote it. The epoch is left aside.
    pub fn has_same(&self, other: &World<H>) -> bool
        ensures { Decides result (((world_in H.held self.now).collections
            ≡ (world_in H.held other.now).collections)
            × ((world_in H.held self.now).replications
            ≡ (world_in H.held other.now).replications)) }
    {
        hold_same(&self.parts.holders, &other.parts.holders)
            && follow_same(&self.parts.replications, &other.parts.replications)
    }

    /// How many replications there are.
    pub fn replications(&self) -> usize
        ensures { result ≡ length (world_in H.held self.now).replications }
    {
        self.parts.replications.len()
    }

    /// The replication of that name.
    pub fn replication(&self, name: &str) -> Option<&Replication>
        ensures found { option_map (λ r. r.now) result
            ≡ named (world_in H.held self.now).replications name.now }
        ensures linked { IfSome result
            (λ r. IsLinked (world_in H.held self.now).collections name.now r.now) }
        ensures made { IsMadeWorld (world_in H.held self.now) }
    {
        find_replication(&self.parts.replications, name)
    }

    /// The replication at that place in the order of their making.
    pub fn replication_at(&self, i: usize) -> &Replication
        requires { i < length (world_in H.held self.now).replications }
        ensures { slice_get (world_in H.held self.now).replications i
            ≡ Some (result.now.name, result.now) }
    {
        find_replication_at(&self.parts.replications, i)
    }

    /// Whether no replication has lost anything: what is below a checkpoint is known, what is known
    /// is held, and no checkpoint is above all documents. It looks at each document of a fork or a
    /// master, and at each known state, once for each replication.
    pub fn sound(&self) -> bool
        ensures { Decides result (IsSoundWorld (world_in H.held self.now)) }
    {
        is_sound(&self.parts)
    }

    /// Whether the collection of that name is a fork.
    pub fn is_fork(&self, name: &str) -> bool
        ensures { result ≡ is_fork name.now (world_in H.held self.now).replications }
    {
        chain::is_fork(&self.parts.replications, name)
    }

    /// Whether the collection may follow that master: it follows none yet, and going from a fork to
    /// its master doesn't lead from that master to it.
    pub fn may_follow(&self, fork: &str, master: &MasterName) -> bool
        ensures { result
            ≡ may_follow (world_in H.held self.now).replications fork.now master.now }
    {
        chain::may_follow(&self.parts.replications, fork, master)
    }

    /// The holders, in the order of their making.
    pub fn release(self, alloc: Global) -> Result<Vec<H>, AllocError>
        ensures holders { IfOk result (λ all. all.items ≡ map (λ e. e.1) (holders_in self)) }
        ensures whole { AllByRecursion (λ e. IsWhole H.held H.is_broken e.0 e.1) (holders_in self) }
        ensures distinct { AreDistinct (world_in H.held self) }
    {
        self.parts.holders.into_values().collect(alloc)
    }

    /// The record that writes states to a collection, above all that it holds. Nothing is changed:
    /// the record is to be kept, and then applied.
    pub fn commit(
        &self,
        alloc: Global,
        name: &str,
        states: Vec<State>,
        now: u64,
    ) -> Result<Record, StepFault>
        requires held { IsSome (named (world_in H.held self.now).collections name.now) }
        requires some { 0 < length states.items }
        requires distinct { IsDistinct bytes_eq (map (λ s. s.key) states.items) }
        requires valid { ForSome (named (world_in H.held self.now).collections name.now)
            (λ c. AllByRecursion (IsValidState c.schema) states.items) }
        ensures ok { IfOk result (λ entry. commit (world_in H.held self.now) name.now
            states.items now
            ≡ Some (content entry)) }
        ensures legal { IfOk result (λ entry. legal (content entry) (world_in H.held self.now)
            ≡ true) }
        ensures ordered { IfOk result (λ entry. IsOrdered (content entry)) }
        ensures sound { IsSoundWorld (world_in H.held self.now) → IfOk result
            (λ entry. IsSoundWorld (step (content entry) (world_in H.held self.now))) }
        ensures rows { IfOk result (λ entry. IsNoMigration (content entry)) }
        ensures clock_end { IsErrOf result StepFault.ClockEnd
            → commit (world_in H.held self.now) name.now states.items now ≡ None }
    {
        let holder = self.holder(name).unwrap();
        commit(alloc, holder.collection(), states, now)
    }
}
