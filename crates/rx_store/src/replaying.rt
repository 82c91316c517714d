// The world that the records of a journal make.
ghost use Rattle.std.specs.Prelude.{◌≡◌, ◌<◌, ◌≤◌, ◌+◌, ◌^◌, ℕ, List, [], false, Ok, IfOk, IsErr, IsErrOf, Some, None};
ghost use Rattle.rx_disk.specs.Calls.{OnlyReads};
ghost use Rattle.rx_journal.specs.Reading.{IsUntouched};
ghost use Rattle.rx_journal.specs.Windows.{HaveLent, IsAtEnd, MayGoOn, WillLend, limit_of, version_of};
ghost use Rattle.rx_outside.specs.Failed.{Rises};
ghost use Rattle.rx_outside.specs.declared.stop.Stop.TheVariants as Stop;
ghost use Rattle.rx_record.specs.Content.{record_of};
ghost use Rattle.rx_world.specs.Holders.{holders_in, world_in};
ghost use Rattle.rx_world.specs.Replay.{after_body};
ghost use Rattle.rx_store.specs.Counted.{AreCounted};
ghost use Rattle.rx_store.specs.Made.{AreMade};
ghost use Rattle.rx_store.specs.Versions.{replay_in};

use crate::phase::{Phase, Played, play};
use rx_collection::{Collection, Holder};
use rx_disk::Disk;
use rx_journal::Windows;
use rx_outside::Stop;
use rx_record::RecordView;
use rx_world::World;
use std::alloc::{AllocError, Global};

/// The world that the records of a journal make, how many they are, and how many bytes they have,
/// with their gates and lengths.
#[derive(Drop)]
pub(crate) struct Replayed<H: Holder + Drop> {
    pub world: World<H>,
    pub records: u64,
    pub bytes: u64,
}

/// Plays the records of a journal of either version. They are read to the closed gate.
pub(crate) fn replay<H: Holder + Drop, D: Disk, F: Fn(Collection) -> Result<H, AllocError>>(
    alloc: Global,
    disk: &mut D,
    windows: &mut Windows,
    make: &F,
) -> Result<Replayed<H>, Stop>
    requires callable { F.IsAlwaysCallable make.now }
    requires makes { (c : _) (r : _) → F.post make.now c r
        → IfOk r (λ h. (H.held h ≡ c) × (H.is_broken h ≡ false)) }

    // All that were lent make the world, and the journal may go on from them.
    ensures ok { D.tells → HaveLent D.Disk disk.old windows.old [] → IfOk result (λ r.
        (bodies : List (List ℕ)) × MayGoOn D.Disk disk.new windows.new bodies
        × (replay_in (version_of windows.old) bodies ≡ Some (world_in H.held r.world))) }
    // They are those that were to come, and counted.
    ensures counted { D.tells → IfOk result (λ r. (bodies : List (List ℕ))
        × WillLend (D.content disk.old) windows.old bodies
        × AreCounted (version_of windows.old) bodies (world_in H.held r.world) r.records r.bytes) }
    ensures ended { IfOk result (λ _. IsAtEnd windows.new) }
    ensures limit { limit_of windows.new ≡ limit_of windows.old }

    // The bodies to come are refused only where they make no world.
    ensures not_journal { D.tells → IsErrOf result Stop.NotJournal → (bodies : List (List ℕ))
        → WillLend (D.content disk.old) windows.old bodies
        → replay_in (version_of windows.old) bodies ≡ None }

    ensures made { IfOk result (λ r.
        AreMade (λ c h. F.post make.now c (Ok h)) H.written (holders_in r.world)) }
    ensures epochs { IfOk result (λ r. r.world.epoch < 2 ^ 53) }
    ensures short { IfOk result (λ r. r.bytes < 2 ^ 32) }
    ensures untouched { D.tells → IsUntouched D.Disk disk.old disk.new }
    ensures only_reads { D.tells → OnlyReads D.Disk disk.old disk.new }
    ensures disk_only { IsErrOf result Stop.Disk → Rises (D.faults disk.old) (D.faults disk.new) }
    ensures faults { D.faults disk.old ≤ D.faults disk.new }
    ensures no_full { (would limit : ℕ) → IsErrOf result (Stop.Full would limit) → ⊥ }
{
    let Played {
        phase,
        records,
        bytes,
    } = play(alloc, disk, windows, make)?;
    match phase {
        Phase::Running(world) => Ok(Replayed {
            world,
            records,
            bytes,
        }),
        Phase::Copying(_) => Err(Stop::NotJournal),
    }
}

// What is no record is refused before memory is taken.
pub(crate) fn replay_one<H: Holder + Drop, F: Fn(Collection) -> Result<H, AllocError>>(
    alloc: Global,
    world: World<H>,
    body: &[u8],
    make: &F,
) -> Result<World<H>, Stop>
    requires callable { F.IsAlwaysCallable make.now }
    requires makes { (c : _) (r : _) → F.post make.now c r
        → IfOk r (λ h. (H.held h ≡ c) × (H.is_broken h ≡ false)) }
    requires made { AreMade (λ c h. F.post make.now c (Ok h)) H.written (holders_in world) }
    ensures ok { IfOk result (λ w. after_body (record_of body.now) (world_in H.held world)
        ≡ Some (world_in H.held w)) }
    ensures made { IfOk result (λ w.
        AreMade (λ c h. F.post make.now c (Ok h)) H.written (holders_in w)) }
    ensures epoch { IfOk result (λ w. w.epoch ≤ world.epoch + 1) }
    ensures not_journal { IsErrOf result Stop.NotJournal
        → after_body (record_of body.now) (world_in H.held world) ≡ None }
    ensures unread { IsErr (record_of body.now) → IsErrOf result Stop.NotJournal }
    ensures no_disk { IsErrOf result Stop.Disk → ⊥ }
    ensures no_full { (would limit : ℕ) → IsErrOf result (Stop.Full would limit) → ⊥ }
{
    let Ok(view) = RecordView::read(body) else {
        return Err(Stop::NotJournal);
    };
    let Some(entry) = world.accept(alloc, &view)? else {
        return Err(Stop::NotJournal);
    };
    Ok(world.apply_legal(alloc, entry, make)?)
}
