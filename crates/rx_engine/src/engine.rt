// A journal in a run, from its opening on, line by line.
ghost use Rattle.std.specs.Prelude.{◌≡◌, ◌≤◌, ◌<◌, ◌^◌, ℕ, List, [], ◌∷◌, true, IfOk, IsErrOf, option_map};
ghost use Rattle.rx_digest.specs.Digest.{digest_of};
ghost use Rattle.rx_handler.specs.Handlers.{Kinds};
ghost use Rattle.rx_handler.specs.Shown.{kinds_of};
ghost use Rattle.rx_journal.specs.Reading.{IsUntouched};
ghost use Rattle.rx_outside.specs.declared.stop.Stop.TheVariants as Stop;
ghost use Rattle.rx_sync.specs.Remote.{Heard};
ghost use Rattle.rx_store.specs.Holds.{IsIllegalFile, IsJournalOfSome, IsLegalFile};
ghost use Rattle.rx_store.specs.Safe.{HasDiskCause, IsCrashSafe};
ghost use Rattle.rx_update.specs.Shown.{hook_kinds};
ghost use Rattle.rx_value.specs.Named.{named};
ghost use Rattle.rx_world.specs.World.{World};
ghost use Rattle.rx_engine.specs.Lines.{IsIdle, IsRestart, task};
ghost use Rattle.rx_engine.specs.Opening.{epoch_body, host_with, opened};

use crate::judging::{Judged, judge};
use crate::opening::{Opened, open};
use crate::output::Output;
use crate::remembered::Remembered;
use crate::sound_session::SoundSession;
use rx_collection::Holder;
use rx_diagram::Diagram;
use rx_digest::digest;
use rx_disk::Disk;
use rx_handler::Handlers;
use rx_journal::Journal;
use rx_outside::{Dial, Stop};
use rx_session::Session;
use rx_update::Hooks;
use rx_value::RxText;
use std::alloc::{AllocError, Global};
use std::rc::Rc;

/// A journal, and the session that its records make.
#[derive(Drop)]
pub struct Engine {
    pub(crate) journal: Journal,
    pub(crate) session: SoundSession,
    /// Built once, for the journal opened again too.
    pub(crate) diagram: Rc<Diagram>,
}

impl Engine {
    ghost use Rattle.rx_engine.specs.Engine.{IsAt, LeavesAll, session_of, standing_of, limit_of};
    ghost use Rattle.rx_engine.specs.Hearing.{DialsForCalls, PlaysLine};
    ghost use Rattle.rx_engine.specs.Kept.{IsInOrder, IsLineKept, IsWellMeant};

    /// Opens a journal for a run that knows these hooks, plays its records, and begins a new epoch.
    pub fn open<D: Disk>(
        alloc: Global,
        disk: &mut D,
        limit: u64,
        hooks: &Hooks,
    ) -> Result<Engine, Stop>
        requires low { 9 ≤ limit }
        requires high { limit < 2 ^ 32 }

        // A file that is opened, or that has no room for the new epoch's record, is legal.
        ensures stood { D.tells → IfOk result (λ _. IsJournalOfSome (D.content disk.old)) }
        ensures full_stood { D.tells → (would most : ℕ) → IsErrOf result (Stop.Full would most)
            → IsJournalOfSome (D.content disk.old) }
        ensures opened { D.tells → (bodies : List (List ℕ)) (w : World)
            → IsLegalFile (D.content disk.old) bodies w
            → IfOk result (λ engine. (kinds : Kinds) (heard : List Heard)
            → standing_of kinds heard engine
            ≡ opened (host_with kinds (hook_kinds hooks.now)) heard w) }
        ensures begun { IfOk result (λ engine. (w : World)
            × ((kinds : Kinds) (heard : List Heard)
            → standing_of kinds heard engine
            ≡ opened (host_with kinds (hook_kinds hooks.now)) heard w)) }
        ensures limit { IfOk result (λ engine. limit_of engine ≡ limit) }

        // Over a legal file: what holds at each moment, at `Ok`, and at `Full`.
        ensures safe { D.tells → (bodies : List (List ℕ)) (w : World)
            → IsLegalFile (D.content disk.old) bodies w
            → IsCrashSafe D.Disk disk.old disk.new bodies (epoch_body w ∷ []) limit
            (IsAt D.Disk disk.new) result }

        // A file that isn't legal stays as it was, and nothing that a crash leaves is new.
        ensures illegal { D.tells → IsIllegalFile (D.content disk.old)
            → IsUntouched D.Disk disk.old disk.new }
        ensures cause { HasDiskCause (D.faults disk.old) (D.faults disk.new) result }
    {
        let known = hooks.known(alloc)?;
        let built = Diagram::build(alloc)?;
        let diagram = Rc::new(alloc, built)?;
        let share = diagram.clone()?;
        let Opened { journal, world } = open(alloc, disk, limit, &diagram)?;
        let session = Session::new(alloc, world, share, known);
        let remembered = Remembered::new(alloc);
        let sound = SoundSession::new(session, remembered);
        Ok(Engine {
            journal,
            session: sound,
            diagram,
        })
    }

    /// Plays a line that isn't blank. Its records are on the disk before its output exists. A turn
    /// to a master elsewhere dials once, and hands the wire back. `hooks` are those that the engine
    /// was opened with. The engine is spent on a stop.
    pub fn line<D: Disk, L: Dial>(
        self,
        alloc: Global,
        disk: &mut D,
        dial: &mut L,
        handlers: &Handlers,
        hooks: &Hooks,
        text: &[u8],
        number: u64,
    ) -> Result<(Engine, Output), Stop>
        requires { D.tells → (bodies : List (List ℕ)) × IsAt D.Disk disk.old self bodies }

        // Its answer is that of its meaning, by what was heard of masters elsewhere, as the dial
        // shows; and its records: what holds at each moment, at `Ok`, and at `Full`.
        ensures plays { PlaysLine D.Disk L.W.tells (kinds_of handlers.now) number text.now disk.old
            disk.new
            (record {
              faults = L.faults dial.old;
              broken = L.broken dial.old;
              talks = L.talks dial.old;
              asked = L.asked dial.old;
            })
            (record {
              faults = L.faults dial.new;
              broken = L.broken dial.new;
              talks = L.talks dial.new;
              asked = L.asked dial.new;
            }) self result }
        ensures limit { IfOk result (λ p. limit_of p.0 ≡ limit_of self) }

        // Whatever comes of it, and whatever is to be heard: its turns lose no update and end in
        // time, no master elsewhere harms a fork, and a fork that has something to push takes no
        // event.
        ensures meant { (heard : List Heard)
            → IsWellMeant text.now (standing_of (kinds_of handlers.now) heard self) }

        // What it comes to may be done.
        ensures in_order { (IsErrOf result Stop.Memory → ⊥) → IsInOrder
            (task (kinds_of handlers.now) text.now (session_of self)) (session_of self) }

        // Where a turn or a sweep ends quiet, or a delivery answers level, forks and masters have
        // the same states.
        ensures kept { IfOk result (λ p. IsLineKept text.now
            (standing_of (kinds_of handlers.now) [] self) (session_of p.0).world) }

        // A refused line leaves the session, the disk and the dial, and so does one that tells what
        // there is.
        ensures refused { IfOk result (λ p. p.1.refused ≡ true → (disk.new ≡ disk.old)
            × (dial.new ≡ dial.old) × ((heard : List Heard)
            → LeavesAll number text.now (standing_of (kinds_of handlers.now) heard self) p.0 p.1)) }
        ensures idle { IsIdle text.now (standing_of (kinds_of handlers.now) [] self)
            → (disk.new ≡ disk.old) × (dial.new ≡ dial.old) × IfOk result (λ p.
            (heard : List Heard)
            → LeavesAll number text.now (standing_of (kinds_of handlers.now) heard self) p.0 p.1) }

        // A line that makes no turn to a master elsewhere leaves the dial, whatever comes of it.
        ensures dials { DialsForCalls L.faults
            (task (kinds_of handlers.now) text.now (session_of self)) dial.old dial.new }

        // Only where a journal is opened again, it may be none any more.
        ensures not_journal { IsErrOf result Stop.NotJournal → IsRestart text.now }
        ensures cause { HasDiskCause (D.faults disk.old) (D.faults disk.new) result }
    {
        match judge(alloc, self.session.session(), handlers, hooks, text, number)? {
            Judged::Printed(printed) => self.answer(alloc, disk, printed),
            Judged::Turns(turn) => self.answer_turn(alloc, disk, handlers, &turn, number),
            Judged::Calls(call) => self.answer_call(alloc, disk, dial, handlers, &call, number),
            Judged::Sweeps(sweep) => self.answer_sweep(alloc, disk, handlers, &sweep, number),
            Judged::Delivers(deliver) => self.answer_delivery(alloc, disk, &deliver, number),
        }
    }

    /// The digest of a collection's states, where the collection is held.
    #[tactic(auto, unfolding(crate::specs::Engine::session_of))]
    pub fn digest(&self, alloc: Global, name: &str) -> Result<Option<RxText>, AllocError>
        ensures { IfOk result (λ found. found ≡ option_map (λ c. digest_of c.documents)
            (named (session_of self.now).world.collections name.now)) }
    {
        match self.session.session().holder(name) {
            Some(live) => Ok(Some(digest(alloc, live.collection())?)),
            None => Ok(None),
        }
    }
}
