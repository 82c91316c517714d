// What a line does to an engine.
ghost use Rattle.std.specs.Prelude.{◌≡◌, ◌≤◌, ℕ, List, [], ◌∷◌, IfOk, OnOk, IsErrOf};
ghost use Rattle.rx_handler.specs.Shown.{kinds_of};
ghost use Rattle.rx_outside.specs.declared.stop.Stop.TheVariants as Stop;
ghost use Rattle.rx_record.specs.Shown.{content};
ghost use Rattle.rx_reply.specs.declared.turn.TurnEnd.TheVariants.{Quiet};
ghost use Rattle.rx_session.specs.Doing.{migrate, nothing, restart, write, session_after, MayDo};
ghost use Rattle.rx_session.specs.Emissions.{emissions, settled_session};
ghost use Rattle.rx_session.specs.Shown.{done_by};
ghost use Rattle.rx_sync.specs.Laws.{IsLevel};
ghost use Rattle.rx_engine.specs.Meaning.{asks_kept, records_of};
ghost use Rattle.rx_engine.specs.Shown.{doing_of, turn_of, WritesNoExchange};
ghost use Rattle.rx_engine.specs.Standing.{asks_after};
ghost use Rattle.rx_engine.specs.Turning.{CanTurn, turned};

use crate::engine::Engine;
use crate::opening::{Opened, is_next, open};
use crate::outcome::LineDoing;
use crate::play::Play;
use crate::remembered::Remembered;
use crate::requests::turn_by_name;
use crate::sound_session::SoundSession;
use crate::turning::{Turn, Turned};
use crate::turns::Begun;
use rx_disk::Disk;
use rx_handler::Handlers;
use rx_observe::Emission;
use rx_outside::Stop;
use rx_record::Record;
use rx_reply::{Exchanged, TurnEnd};
use rx_session::Doing;
use rx_value::RxList;
use std::alloc::{AllocError, Global};

/// The engine after a turn, the emissions that are due then, and what the turn came to.
#[derive(Drop)]
pub(crate) struct AfterTurn {
    pub engine: Engine,
    pub emissions: Vec<Emission>,
    pub exchanges: RxList<Exchanged>,
    pub ended: TurnEnd,
}

impl Engine {
    ghost use Rattle.rx_engine.specs.Engine.{Commits, IsAt, IsAfterTurn, asks_in, session_of, standing_of, limit_of};

    /// The engine after what a line does, and the emissions that are due then.
    pub(crate) fn carry_out<D: Disk>(
        self,
        alloc: Global,
        disk: &mut D,
        doing: LineDoing,
    ) -> Result<(Engine, Vec<Emission>), Stop>
        requires at { D.tells → (bodies : List (List ℕ)) × IsAt D.Disk disk.old self bodies }
        requires may { MayDo (doing_of doing) (session_of self) }
        requires apart { WritesNoExchange (doing_of doing) }
        ensures session { IfOk result (λ p. session_of p.0
            ≡ settled_session (session_after (doing_of doing) (session_of self))) }
        ensures emissions { IfOk result (λ p. p.1.items
            ≡ emissions (session_after (doing_of doing) (session_of self))) }
        ensures asks { IfOk result (λ p. asks_in p.0
            ≡ asks_kept (doing_of doing) (session_of self).world (asks_in self)) }
        ensures commits { Commits D.Disk disk.old disk.new self (records_of (doing_of doing))
            (λ p. p.0) result }
        ensures idle_disk { doing_of doing ≡ nothing → disk.new ≡ disk.old }
        ensures idle { doing_of doing ≡ nothing → IfOk result (λ p.
            (session_of p.0 ≡ session_of self) × (p.1.items ≡ [])) }
        ensures not_journal { IsErrOf result Stop.NotJournal
            → (number : ℕ) × (doing_of doing ≡ restart number) }
    {
        match doing {
            LineDoing::InSession(doing) => self.change_session(alloc, disk, doing),
            LineDoing::Migrate(entry) => self.migrate(alloc, disk, entry),
            LineDoing::Restart(epoch) => { Ok((self.reopen(alloc, disk, epoch)?, Vec::new(alloc))) }
        }
    }

    // The engine after something was done to its session, and the emissions that are due then.
    fn change_session<D: Disk>(
        self,
        alloc: Global,
        disk: &mut D,
        doing: Doing,
    ) -> Result<(Engine, Vec<Emission>), Stop>
        requires at { D.tells → (bodies : List (List ℕ)) × IsAt D.Disk disk.old self bodies }
        requires may { MayDo (done_by doing) (session_of self) }
        requires apart { WritesNoExchange (done_by doing) }
        ensures session { IfOk result (λ p. session_of p.0
            ≡ settled_session (session_after (done_by doing) (session_of self))) }
        ensures emissions { IfOk result (λ p. p.1.items
            ≡ emissions (session_after (done_by doing) (session_of self))) }
        ensures asks { IfOk result (λ p. asks_in p.0 ≡ asks_in self) }
        ensures commits { Commits D.Disk disk.old disk.new self (records_of (done_by doing))
            (λ p. p.0) result }
        ensures idle_disk { done_by doing ≡ nothing → disk.new ≡ disk.old }
        ensures idle { done_by doing ≡ nothing → IfOk result (λ p.
            (session_of p.0 ≡ session_of self) × (p.1.items ≡ [])) }
        ensures not_journal { IsErrOf result Stop.NotJournal → ⊥ }
    {
        match doing {
            Doing::Write(entry) => self.write_record(alloc, disk, entry),
            doing => Ok(self.change(alloc, doing)?),
        }
    }

    // The engine after a record, which is on the disk, and the emissions that are due then.
    fn write_record<D: Disk>(
        self,
        alloc: Global,
        disk: &mut D,
        entry: Record,
    ) -> Result<(Engine, Vec<Emission>), Stop>
        requires at { D.tells → (bodies : List (List ℕ)) × IsAt D.Disk disk.old self bodies }
        requires may { MayDo (write (content entry)) (session_of self) }
        requires apart { WritesNoExchange (write (content entry)) }
        ensures session { IfOk result (λ p. session_of p.0
            ≡ settled_session (session_after (write (content entry)) (session_of self))) }
        ensures emissions { IfOk result (λ p. p.1.items
            ≡ emissions (session_after (write (content entry)) (session_of self))) }
        ensures asks { IfOk result (λ p. asks_in p.0 ≡ asks_in self) }
        ensures commits { Commits D.Disk disk.old disk.new self (content entry ∷ []) (λ p. p.0)
            result }
        ensures not_journal { IsErrOf result Stop.NotJournal → ⊥ }
    {
        let Engine {
            journal,
            session,
            diagram,
        } = self;
        let parts = session.release();
        let (session, remembered) = parts;
        let play = Play {
            journal,
            playing: session.begin(alloc),
            past: None,
        };
        let staged = play.stage(alloc, entry)?;
        let play = staged.commit(disk)?;
        let Play {
            journal,
            playing,
            ..
        } = play;
        let (session, emissions) = playing.settle(alloc)?;
        let engine = Engine {
            journal,
            session: SoundSession::new(session, remembered),
            diagram,
        };
        Ok((engine, emissions))
    }

    // The engine after the record of a migration, which is on the disk. What was remembered of the
    // requests of its group is forgotten, and its hooks are dropped.
    fn migrate<D: Disk>(
        self,
        alloc: Global,
        disk: &mut D,
        entry: Record,
    ) -> Result<(Engine, Vec<Emission>), Stop>
        requires at { D.tells → (bodies : List (List ℕ)) × IsAt D.Disk disk.old self bodies }
        requires may { MayDo (migrate (content entry)) (session_of self) }
        ensures session { IfOk result (λ p. session_of p.0
            ≡ settled_session (session_after (migrate (content entry)) (session_of self))) }
        ensures emissions { IfOk result (λ p. p.1.items
            ≡ emissions (session_after (migrate (content entry)) (session_of self))) }
        ensures asks { IfOk result (λ p. asks_in p.0
            ≡ asks_after (content entry) (session_of self).world (asks_in self)) }
        ensures commits { Commits D.Disk disk.old disk.new self (content entry ∷ []) (λ p. p.0)
            result }
        ensures not_journal { IsErrOf result Stop.NotJournal → ⊥ }
    {
        let Engine {
            journal,
            session,
            diagram,
        } = self;
        let parts = session.release();
        let (session, remembered) = parts;
        let remembered = remembered.migrated(alloc, session.world(), &entry);
        let session = session.without_hooks(&entry);
        let play = Play {
            journal,
            playing: session.begin(alloc),
            past: None,
        };
        let staged = play.stage_record(alloc, entry)?;
        let play = staged.commit(disk)?;
        let Play {
            journal,
            playing,
            ..
        } = play;
        let (session, emissions) = playing.settle(alloc)?;
        let engine = Engine {
            journal,
            session: SoundSession::new(session, remembered),
            diagram,
        };
        Ok((engine, emissions))
    }

    /// The engine after something was done to its session, whose record, where it has one, is the
    /// journal's already; and the emissions that are due then.
    pub(crate) fn change(
        self,
        alloc: Global,
        doing: Doing,
    ) -> Result<(Engine, Vec<Emission>), AllocError>
        requires may { MayDo (done_by doing) (session_of self) }
        requires apart { WritesNoExchange (done_by doing) }
        ensures session { IfOk result (λ p. session_of p.0
            ≡ settled_session (session_after (done_by doing) (session_of self))) }
        ensures emissions { IfOk result (λ p. p.1.items
            ≡ emissions (session_after (done_by doing) (session_of self))) }
        ensures asks { IfOk result (λ p. asks_in p.0 ≡ asks_in self) }
        ensures journal { IfOk result (λ p. p.0.journal ≡ self.journal) }
        ensures idle { done_by doing ≡ nothing → IfOk result (λ p.
            (session_of p.0 ≡ session_of self) × (p.1.items ≡ [])) }
    {
        let Engine {
            journal,
            session,
            diagram,
        } = self;
        let parts = session.release();
        let (session, remembered) = parts;
        let (session, emissions) = session.next(alloc, doing)?;
        let engine = Engine {
            journal,
            session: SoundSession::new(session, remembered),
            diagram,
        };
        Ok((engine, emissions))
    }

    // The engine on the journal opened again, which is to give the collections that there are.
    fn reopen<D: Disk>(self, alloc: Global, disk: &mut D, epoch: u64) -> Result<Engine, Stop>
        requires at { D.tells → (bodies : List (List ℕ)) × IsAt D.Disk disk.old self bodies }
        requires next { MayDo (restart epoch) (session_of self) }
        ensures session { IfOk result (λ e. session_of e
            ≡ settled_session (session_after (restart epoch) (session_of self))) }
        ensures quiet { OnOk result
            (emissions (session_after (restart epoch) (session_of self)) ≡ []) }
        ensures asks { IfOk result (λ e. asks_in e ≡ []) }
        ensures commits { Commits D.Disk disk.old disk.new self (records_of (restart epoch))
            (λ e. e) result }
    {
        let Engine {
            journal,
            session,
            diagram,
        } = self;
        let before = session.into_session();
        let Opened { journal, world } = open(alloc, disk, journal.limit, &diagram)?;
        if !is_next(&before, &world, epoch) {
            return Err(Stop::NotJournal);
        }
        let session = before.reopen(alloc, world)?;
        let remembered = Remembered::new(alloc);
        Ok(Engine {
            journal,
            session: SoundSession::new(session, remembered),
            diagram,
        })
    }

    /// The engine after a turn, all of whose records are on the disk.
    pub(crate) fn make_turn<D: Disk>(
        self,
        alloc: Global,
        disk: &mut D,
        handlers: &Handlers,
        wanted: &Turn,
    ) -> Result<AfterTurn, Stop>
        requires at { D.tells → (bodies : List (List ℕ)) × IsAt D.Disk disk.old self bodies }
        requires batch { 1 ≤ wanted.now.batch }
        requires can { CanTurn (kinds_of handlers.now) (session_of self) wanted.now.name }
        ensures turned { IfOk result (IsAfterTurn wanted.now.name
            (turned (turn_of wanted.now) (standing_of (kinds_of handlers.now) [] self))
            (standing_of (kinds_of handlers.now) [] self)) }
        ensures commits { Commits D.Disk disk.old disk.new self
            (turned (turn_of wanted.now) (standing_of (kinds_of handlers.now) [] self)).records
            (λ m. m.engine) result }
        ensures quiet { IfOk result (λ m.
            (turned (turn_of wanted.now) (standing_of (kinds_of handlers.now) [] self)).ended
            ≡ Quiet
            → IsLevel (session_of m.engine).world wanted.now.name) }
        ensures not_journal { IsErrOf result Stop.NotJournal → ⊥ }
    {
        let name = wanted.name.as_str();
        let begun = self.begin_turn(alloc, name);
        let Begun {
            play,
            now,
            none,
            mut remembered,
            diagram,
        } = begun;
        let made = turn_by_name(
            alloc,
            handlers,
            play,
            &mut remembered.asks,
            wanted,
            now,
            none,
        )?;
        let Turned {
            play,
            exchanges,
            ended,
            pulled,
        } = made;
        let play = play.commit(disk)?;
        let turned = Turned {
            play,
            exchanges,
            ended,
            pulled,
        };
        let after = turned.end(alloc, name, remembered, diagram)?;
        Ok(after)
    }
}
