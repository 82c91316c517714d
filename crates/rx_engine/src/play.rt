// What a line writes is staged, record after record, and put on the disk together.
ghost use Rattle.std.specs.Prelude.{◌≡◌, [], ◌∷◌, ◌++◌, List, true, map, IfOk};
ghost use Rattle.rx_journal.specs.Ready.{MayCommit};
ghost use Rattle.rx_journal.specs.declared.journal.Journal.{Journal as Begun};
ghost use Rattle.rx_record.specs.Content.{Content};
ghost use Rattle.rx_record.specs.Shown.{content};
ghost use Rattle.rx_record.specs.Writable.{IsOrdered};
ghost use Rattle.rx_session.specs.Doing.{IsUnobserved};
ghost use Rattle.rx_sync.specs.Laws.{ComeSoundly};
ghost use Rattle.rx_sync.specs.Shown.{record_in};
ghost use Rattle.rx_world.specs.Sound.{IsSoundWorld};
ghost use Rattle.rx_world.specs.Step.{step, legal};
ghost use Rattle.rx_world.specs.Touch.{touch};
ghost use Rattle.rx_world.specs.World.{World};
ghost use Rattle.rx_engine.specs.Play.{CommitsStaged, Follows, IsAfter};

use rx_disk::Disk;
use rx_journal::Journal;
use rx_outside::Stop;
use rx_record::Record;
use rx_session::Playing;
use rx_store::{commit, stage};
use std::alloc::{AllocError, Global};

/// Where a record would end, past the limit.
#[derive(Clone, Copy)]
pub(crate) struct Past {
    pub would: u64,
    pub limit: u64,
}

/// A journal with what a line has staged, and the session that its records make. Behind a record
/// that would end past the limit none is staged any more.
#[derive(Drop)]
pub(crate) struct Play {
    pub journal: Journal,
    pub playing: Playing,
    pub past: Option<Past>,
}

impl Play {
    /// The same after a record more.
    pub(crate) fn stage(self, alloc: Global, entry: Record) -> Result<Play, AllocError>
        requires { ComeSoundly self.playing.world (content entry ∷ []) }
        ensures { IfOk result (Follows self (content entry ∷ [])) }
    {
        self.stage_record(alloc, entry)
    }

    /// The same after one that may be a migration, where no query is observed in its group.
    pub(crate) fn stage_record(self, alloc: Global, entry: Record) -> Result<Play, AllocError>
        requires legal { legal (content entry) self.playing.world ≡ true }
        requires ordered { IsOrdered (content entry) }
        requires sound { IsSoundWorld (step (content entry) self.playing.world) }
        requires unobserved { IsUnobserved (touch (content entry) self.playing.world)
            self.playing.queries }
        ensures { IfOk result (Follows self (content entry ∷ [])) }
    {
        let Play {
            mut journal,
            playing,
            past,
        } = self;
        let past = stage_within(alloc, &mut journal, past, &entry)?;
        let playing = playing.write(alloc, entry)?;
        Ok(Play {
            journal,
            playing,
            past,
        })
    }

    /// The same after a record more, where there is one.
    pub(crate) fn stage_maybe(
        self,
        alloc: Global,
        entry: Option<Record>,
    ) -> Result<Play, AllocError>
        requires { ComeSoundly self.playing.world (record_in entry) }
        ensures { IfOk result (Follows self (record_in entry)) }
    {
        match entry {
            Some(entry) => self.stage(alloc, entry),
            None => Ok(self),
        }
    }

    /// The same after some records.
    pub(crate) fn stage_all(self, alloc: Global, entries: Vec<Record>) -> Result<Play, AllocError>
        requires { ComeSoundly self.playing.world (map content entries.items) }
        ensures { IfOk result (Follows self (map content entries.items)) }
    {
        let mut play = self;
        for entry in entries {
            play = play.stage(alloc, entry)?;
        }
        Ok(play)
    }

    /// The same once all that was staged is on the disk. Where a record would have ended past the
    /// limit, those before it are there.
    pub(crate) fn commit<D: Disk>(self, disk: &mut D) -> Result<Play, Stop>
        requires { D.tells → MayCommit D.Disk disk.old self.journal }
        ensures { CommitsStaged D.Disk disk.old disk.new self result }
    {
        let Play {
            journal,
            playing,
            past,
        } = self;
        let journal = commit(journal, disk)?;
        match past {
            Some(past) => Err(Stop::Full {
                would: past.would,
                limit: past.limit,
            }),
            None => Ok(Play {
                journal,
                playing,
                past: None,
            }),
        }
    }
}

// Stages a record, unless it would end past the limit, or one before it would have.
fn stage_within(
    alloc: Global,
    journal: &mut Journal,
    past: Option<Past>,
    entry: &Record,
) -> Result<Option<Past>, AllocError>
    requires { IsOrdered (content entry.now) }
    ensures limit { journal.new.limit ≡ journal.old.limit }
    ensures staged { (first : Begun) (v w : World) (all : List Content)
        → IsAfter first v all journal.old past w → legal (content entry.now) w ≡ true
        → IsSoundWorld (step (content entry.now) w)
        → IfOk result (λ then. IsAfter first v (all ++ content entry.now ∷ []) journal.new then
        (step (content entry.now) w)) }
{
    if let Some(past) = past {
        return Ok(Some(past));
    }
    match stage(alloc, journal, entry) {
        Ok(()) => Ok(None),
        Err(Stop::Full { would, limit }) => Ok(Some(Past { would, limit })),
        Err(_) => Err(AllocError),
    }
}
