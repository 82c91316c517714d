// What a line that makes a turn to a master elsewhere does to an engine, and its answer.
ghost use Rattle.std.specs.Prelude.{◌≡◌, ◌≤◌, ℕ, List, IfOk, IsErrOf};
ghost use Rattle.rx_handler.specs.Shown.{kinds_of};
ghost use Rattle.rx_outside.specs.declared.stop.Stop.TheVariants as Stop;
ghost use Rattle.rx_store.specs.Safe.{HasDiskCause};
ghost use Rattle.rx_engine.specs.Calling.{CanCall, called};
ghost use Rattle.rx_engine.specs.Callings.{IsDialledBy, TurnsRemotely};
ghost use Rattle.rx_engine.specs.Shown.{call_of};

use crate::changing::AfterTurn;
use crate::dialling::call_by_name;
use crate::engine::Engine;
use crate::output::Output;
use crate::remote::Call;
use crate::turns::Begun;
use rx_disk::Disk;
use rx_handler::Handlers;
use rx_outside::{Dial, Stop};
use std::alloc::Global;

impl Engine {
    ghost use Rattle.rx_engine.specs.Engine.{AnswersCall, IsAfterCall, IsAt, session_of, standing_of, limit_of};

    /// The engine after a turn to a master elsewhere, and the line of each exchange, that of the
    /// turn, and the emissions that are due then.
    pub(crate) fn answer_call<D: Disk, L: Dial>(
        self,
        alloc: Global,
        disk: &mut D,
        dial: &mut L,
        handlers: &Handlers,
        wanted: &Call,
        number: u64,
    ) -> Result<(Engine, Output), Stop>
        requires at { D.tells → (bodies : List (List ℕ)) × IsAt D.Disk disk.old self bodies }
        requires batch { 1 ≤ wanted.now.batch }
        requires budget { 1 ≤ wanted.now.budget }
        requires can { CanCall (kinds_of handlers.now) (session_of self) wanted.now.name }
        ensures turned { TurnsRemotely D.Disk disk.old disk.new (limit_of self)
            (IsAt D.Disk disk.old self) (λ p. IsAt D.Disk disk.new p.0)
            (λ heard. called (call_of wanted.now) (standing_of (kinds_of handlers.now) heard self))
            (AnswersCall number wanted.now.name (kinds_of handlers.now) self)
            (IsDialledBy L.W.tells wanted.now.port (session_of self).world wanted.now.name
            (record {
              faults = L.faults dial.old;
              broken = L.broken dial.old;
              talks = L.talks dial.old;
              asked = L.asked dial.old;
            })
            (record {
              faults = L.faults dial.new;
              broken = L.broken dial.new;
              talks = L.talks dial.new;
              asked = L.asked dial.new;
            })) result }
        ensures limit { IfOk result (λ p. limit_of p.0 ≡ limit_of self) }
        ensures not_journal { IsErrOf result Stop.NotJournal → ⊥ }
        ensures cause { HasDiskCause (D.faults disk.old) (D.faults disk.new) result }
        ensures dial_count { L.faults dial.old ≤ L.faults dial.new }
    {
        let made = self.make_call(alloc, disk, dial, handlers, wanted)?;
        let answered = made.answer(alloc, number)?;
        Ok(answered)
    }

    // The engine after the turn, all of whose records are on the disk.
    fn make_call<D: Disk, L: Dial>(
        self,
        alloc: Global,
        disk: &mut D,
        dial: &mut L,
        handlers: &Handlers,
        wanted: &Call,
    ) -> Result<AfterTurn, Stop>
        requires at { D.tells → (bodies : List (List ℕ)) × IsAt D.Disk disk.old self bodies }
        requires batch { 1 ≤ wanted.now.batch }
        requires budget { 1 ≤ wanted.now.budget }
        requires can { CanCall (kinds_of handlers.now) (session_of self) wanted.now.name }
        ensures turned { TurnsRemotely D.Disk disk.old disk.new (limit_of self)
            (IsAt D.Disk disk.old self) (λ m. IsAt D.Disk disk.new m.engine)
            (λ heard. called (call_of wanted.now) (standing_of (kinds_of handlers.now) heard self))
            (IsAfterCall wanted.now.name (kinds_of handlers.now) self)
            (IsDialledBy L.W.tells wanted.now.port (session_of self).world wanted.now.name
            (record {
              faults = L.faults dial.old;
              broken = L.broken dial.old;
              talks = L.talks dial.old;
              asked = L.asked dial.old;
            })
            (record {
              faults = L.faults dial.new;
              broken = L.broken dial.new;
              talks = L.talks dial.new;
              asked = L.asked dial.new;
            })) result }
        ensures limit { IfOk result (λ m. limit_of m.engine ≡ limit_of self) }
        ensures not_journal { IsErrOf result Stop.NotJournal → ⊥ }
        ensures cause { HasDiskCause (D.faults disk.old) (D.faults disk.new) result }
        ensures dial_count { L.faults dial.old ≤ L.faults dial.new }
    {
        let name = wanted.name.as_str();
        let begun = self.begin_turn(alloc, name);
        let Begun {
            play,
            now,
            none,
            mut remembered,
            diagram,
        } = begun;
        let made = call_by_name(
            alloc,
            disk,
            dial,
            handlers,
            play,
            &mut remembered.asks,
            wanted,
            now,
            none,
        )?;
        let after = made.end(alloc, name, remembered, diagram)?;
        Ok(after)
    }
}
