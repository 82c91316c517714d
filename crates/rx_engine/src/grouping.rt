// Lines whose records are put on the disk together.
ghost use Rattle.std.specs.Prelude.{◌≡◌, ℕ, List, IfOk, IsErrOf};
ghost use Rattle.rx_handler.specs.Handlers.{Kinds};
ghost use Rattle.rx_handler.specs.Shown.{kinds_of};
ghost use Rattle.rx_outside.specs.declared.stop.Stop.TheVariants as Stop;
ghost use Rattle.rx_record.specs.Shown.{content};
ghost use Rattle.rx_session.specs.Doing.{write, MayDo};
ghost use Rattle.rx_session.specs.Shown.{done_by};
ghost use Rattle.rx_store.specs.Safe.{HasDiskCause, IsCrashSafe};
ghost use Rattle.rx_sync.specs.Remote.{Heard};
ghost use Rattle.rx_engine.specs.Shown.{doing_of, WritesNoExchange};

use crate::engine::Engine;
use crate::judging::{Judged, Printed, judge};
use crate::outcome::LineDoing;
use crate::output::Output;
use rx_disk::Disk;
use rx_handler::Handlers;
use rx_observe::Emission;
use rx_outside::Stop;
use rx_record::Record;
use rx_session::Doing;
use rx_store::{commit, stage};
use rx_update::Hooks;
use std::alloc::{AllocError, Global};

/// What became of a line that was to be played before its records are on the disk.
#[derive(Drop)]
pub enum Staged {
    /// It is played, and its record, where it has one, waits for the commit.
    Played(Engine, Output),
    /// It has to be played by itself, since it may need the disk or a dial in its midst, since it
    /// migrates a group, or since its record has no room. Nothing of it is done.
    Alone(Engine),
}

/// The same of something to be done to the session, with the emissions that are due then.
#[derive(Drop)]
pub(crate) enum Changed {
    Done(Engine, Vec<Emission>),
    Alone(Engine),
}

impl Engine {
    ghost use Rattle.rx_engine.specs.Ahead.{IsAhead, StagesDoing, StagesLine, StagesPrinted, staged_len};
    ghost use Rattle.rx_engine.specs.Engine.{IsAt, limit_of, session_of, standing_of};
    ghost use Rattle.rx_engine.specs.SoundSession.{HasSoundWorld};

    /// Plays a line that isn't blank, and stages its record. No disk is asked for it. Its output is
    /// to be told to no one before the commit.
    pub fn stage_line(
        self,
        alloc: Global,
        handlers: &Handlers,
        hooks: &Hooks,
        text: &[u8],
        number: u64,
    ) -> Result<Staged, AllocError>
        ensures { IfOk result (StagesLine (kinds_of handlers.now) number text.now self) }
    {
        match judge(alloc, self.session.session(), handlers, hooks, text, number)? {
            Judged::Printed(printed) => self.stage_printed(alloc, printed),
            Judged::Turns(_) => Ok(Staged::Alone(self)),
            Judged::Calls(_) => Ok(Staged::Alone(self)),
            Judged::Sweeps(_) => Ok(Staged::Alone(self)),
            Judged::Delivers(_) => Ok(Staged::Alone(self)),
        }
    }

    /// How many bytes the next commit adds to the file.
    pub fn staged_len(&self) -> u64
        ensures { result ≡ staged_len self.now }
    {
        self.journal.staged_len()
    }

    /// Puts all that was staged on the disk, by no call of it where nothing was. The engine is
    /// spent on a stop.
    pub fn commit<D: Disk>(self, disk: &mut D) -> Result<Engine, Stop>
        requires { D.tells → (bodies : List (List ℕ)) × (more : List (List ℕ))
            × IsAhead D.Disk disk.old self bodies more }
        ensures safe { D.tells → (bodies more : List (List ℕ))
            → IsAhead D.Disk disk.old self bodies more
            → IsCrashSafe D.Disk disk.old disk.new bodies more (limit_of self)
            (IsAt D.Disk disk.new) result }
        ensures same { IfOk result (λ engine. (kinds : Kinds) (heard : List Heard)
            → standing_of kinds heard engine ≡ standing_of kinds heard self) }
        ensures limit { IfOk result (λ engine. limit_of engine ≡ limit_of self) }
        ensures only_disk { (stop : _) → IsErrOf result stop → stop ≡ Stop.Disk }
        ensures cause { HasDiskCause (D.faults disk.old) (D.faults disk.new) result }
    {
        let Engine {
            journal,
            session,
            diagram,
        } = self;
        let journal = commit(journal, disk)?;
        Ok(Engine {
            journal,
            session,
            diagram,
        })
    }

    // Stages what a line does, and answers it.
    fn stage_printed(self, alloc: Global, printed: Printed) -> Result<Staged, AllocError>
        requires held { HasSoundWorld self.session }
        requires may { MayDo (doing_of printed.doing) (session_of self) }
        requires apart { WritesNoExchange (doing_of printed.doing) }
        ensures { IfOk result (StagesPrinted printed self) }
    {
        let Printed {
            doing,
            text,
            refused,
        } = printed;
        let doing = match doing {
            LineDoing::InSession(doing) => doing,
            LineDoing::Migrate(_) => return Ok(Staged::Alone(self)),
            LineDoing::Restart(_) => return Ok(Staged::Alone(self)),
        };
        match self.stage_doing(alloc, doing)? {
            Changed::Done(engine, emissions) => {
                let output = Output::new(alloc, text, emissions.as_slice(), refused, None)?;
                Ok(Staged::Played(engine, output))
            }
            Changed::Alone(engine) => Ok(Staged::Alone(engine)),
        }
    }

    // Stages the record of what is to be done, where it has one, and does it.
    fn stage_doing(self, alloc: Global, doing: Doing) -> Result<Changed, AllocError>
        requires held { HasSoundWorld self.session }
        requires may { MayDo (done_by doing) (session_of self) }
        requires apart { WritesNoExchange (done_by doing) }
        ensures { IfOk result (StagesDoing (done_by doing) self) }
    {
        match doing {
            Doing::Write(entry) => self.stage_record(alloc, entry),
            doing => {
                let (engine, emissions) = self.change(alloc, doing)?;
                Ok(Changed::Done(engine, emissions))
            }
        }
    }

    // Stages a record and plays it, unless it would end past the limit.
    fn stage_record(self, alloc: Global, entry: Record) -> Result<Changed, AllocError>
        requires held { HasSoundWorld self.session }
        requires may { MayDo (write (content entry)) (session_of self) }
        requires apart { WritesNoExchange (write (content entry)) }
        ensures { IfOk result (StagesDoing (write (content entry)) self) }
    {
        let Engine {
            mut journal,
            session,
            diagram,
        } = self;
        let room = stage(alloc, &mut journal, &entry);
        let engine = Engine {
            journal,
            session,
            diagram,
        };
        match room {
            Ok(()) => {
                let (engine, emissions) = engine.change(alloc, Doing::Write(entry))?;
                Ok(Changed::Done(engine, emissions))
            }
            Err(Stop::Full { .. }) => Ok(Changed::Alone(engine)),
            Err(_) => Err(AllocError),
        }
    }
}
