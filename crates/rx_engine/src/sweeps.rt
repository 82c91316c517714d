// What a line that makes the turns of a tree does to an engine, and its answer.
ghost use Rattle.std.specs.Prelude.{◌≡◌, ◌≤◌, ◌++◌, ℕ, List, [], Some, false, length, IfOk, IsErrOf, string_bytes};
ghost use Rattle.rx_handler.specs.Shown.{kinds_of};
ghost use Rattle.rx_outside.specs.declared.stop.Stop.TheVariants as Stop;
ghost use Rattle.rx_reply.specs.Answer.{sweep};
ghost use Rattle.rx_reply.specs.Reply.{answer_lines};
ghost use Rattle.rx_sync.specs.Remote.{Heard};
ghost use Rattle.rx_engine.specs.Meaning.{lines_of, sweep_meaning};
ghost use Rattle.rx_engine.specs.Shown.{sweep_of};
ghost use Rattle.rx_engine.specs.Sweeping.{swept};
ghost use Rattle.rx_engine.specs.Sweeps.{CanSweep};

use crate::engine::Engine;
use crate::output::Output;
use crate::play::Play;
use crate::sound_session::SoundSession;
use crate::sweeping::{MadeSweep, Sweep, sweep_all};
use rx_disk::Disk;
use rx_handler::Handlers;
use rx_observe::Emission;
use rx_outside::Stop;
use rx_reply::{Reply, Swept, TurnEnd};
use rx_value::RxList;
use std::alloc::{AllocError, Global};

/// The engine after a sweep, the emissions that are due then, and what the sweep came to.
#[derive(Drop)]
pub(crate) struct AfterSweep {
    pub engine: Engine,
    pub emissions: Vec<Emission>,
    pub turns: RxList<Swept>,
    pub ended: TurnEnd,
}

impl Engine {
    ghost use Rattle.rx_engine.specs.Engine.{Answers, Commits, IsAfterSweep, IsAt, session_of, standing_of};

    /// The engine after a sweep, and the lines of each turn, that of the sweep, and the emissions
    /// that are due then.
    pub(crate) fn answer_sweep<D: Disk>(
        self,
        alloc: Global,
        disk: &mut D,
        handlers: &Handlers,
        wanted: &Sweep,
        number: u64,
    ) -> Result<(Engine, Output), Stop>
        requires at { D.tells → (bodies : List (List ℕ)) × IsAt D.Disk disk.old self bodies }
        requires batch { 1 ≤ wanted.now.batch }
        requires can { CanSweep (kinds_of handlers.now) (session_of self) wanted.now.steps.items }
        ensures answers { (heard : List Heard)
            → IfOk result (λ p. Answers (kinds_of handlers.now) heard
            (sweep_meaning number (sweep_of wanted.now)
            (standing_of (kinds_of handlers.now) heard self)) p.0 p.1) }
        ensures commits { Commits D.Disk disk.old disk.new self
            (swept (sweep_of wanted.now) (standing_of (kinds_of handlers.now) [] self)).records
            (λ p. p.0) result }
        ensures not_journal { IsErrOf result Stop.NotJournal → ⊥ }
    {
        let made = self.make_sweep(alloc, disk, handlers, wanted)?;
        let answered = made.answer(alloc, number)?;
        Ok(answered)
    }

    // The engine after a sweep, all of whose records are on the disk.
    fn make_sweep<D: Disk>(
        self,
        alloc: Global,
        disk: &mut D,
        handlers: &Handlers,
        wanted: &Sweep,
    ) -> Result<AfterSweep, Stop>
        requires at { D.tells → (bodies : List (List ℕ)) × IsAt D.Disk disk.old self bodies }
        requires batch { 1 ≤ wanted.now.batch }
        requires can { CanSweep (kinds_of handlers.now) (session_of self) wanted.now.steps.items }
        ensures swept { IfOk result (IsAfterSweep
            (swept (sweep_of wanted.now) (standing_of (kinds_of handlers.now) [] self))
            (standing_of (kinds_of handlers.now) [] self)) }
        ensures commits { Commits D.Disk disk.old disk.new self
            (swept (sweep_of wanted.now) (standing_of (kinds_of handlers.now) [] self)).records
            (λ m. m.engine) result }
        ensures not_journal { IsErrOf result Stop.NotJournal → ⊥ }
    {
        let Engine {
            journal,
            session,
            diagram,
        } = self;
        let parts = session.release();
        let (session, mut remembered) = parts;
        let now = session.moment();
        let play = Play {
            journal,
            playing: session.begin(alloc),
            past: None,
        };
        let made = sweep_all(alloc, handlers, play, &mut remembered, wanted, now)?;
        let MadeSweep { play, turns, ended } = made;
        let play = play.commit(disk)?;
        let Play {
            journal,
            playing,
            ..
        } = play;
        let (session, emissions) = playing.settle(alloc)?;
        let engine = Engine {
            journal,
            session: SoundSession::new(session, remembered),
            diagram,
        };
        Ok(AfterSweep {
            engine,
            emissions,
            turns,
            ended,
        })
    }
}

impl AfterSweep {
    // The engine, and the lines of each turn, that of the sweep, and the emissions that are due.
    fn answer(self, alloc: Global, number: u64) -> Result<(Engine, Output), AllocError>
        ensures engine { IfOk result (λ p. p.0 ≡ self.engine) }
        ensures text { IfOk result (λ p. string_bytes p.1.text
            ≡ answer_lines number (sweep self.turns self.ended)
            ++ lines_of self.emissions.items) }
        ensures emissions { IfOk result (λ p. p.1.emissions ≡ length self.emissions.items) }
        ensures refused { IfOk result (λ p. p.1.refused ≡ false) }
        ensures end { IfOk result (λ p. p.1.end ≡ Some self.ended) }
    {
        let AfterSweep {
            engine,
            emissions,
            turns,
            ended,
        } = self;
        let reply = Reply::Sweep { turns, end: ended };
        let text = reply.lines(alloc, number)?;
        let output = Output::new(alloc, text, emissions.as_slice(), false, Some(ended))?;
        Ok((engine, output))
    }
}
