// Plays the records of a journal of either version, one after another as they are read.
ghost use Rattle.std.specs.Prelude.{◌≡◌, ◌<◌, ◌≤◌, ◌+◌, ◌^◌, ◌∷◌, ℕ, max, List, [], false, None, Some, Ok, IfOk, IsErrOf};
ghost use Rattle.rx_disk.specs.Calls.{OnlyReads};
ghost use Rattle.rx_journal.specs.Reading.{IsUntouched};
ghost use Rattle.rx_journal.specs.Windows.{HaveLent, IsAtEnd, MayGoOn, WillLend, limit_of, version_of};
ghost use Rattle.rx_outside.specs.Failed.{Rises};
ghost use Rattle.rx_outside.specs.declared.stop.Stop.TheVariants as Stop;
ghost use Rattle.rx_record.specs.Shown.{content_in};
ghost use Rattle.rx_record.specs.Writable.{IsWritable};
ghost use Rattle.rx_store.specs.Phase.{ArePlayed, HasNone, IsMadeIn, epoch_of, world_to_come};
ghost use Rattle.rx_store.specs.Versions.{replay_in};
ghost use Rattle.rx_world.specs.Copy.{after_copied, is_end, most_copied_epoch, plain_world, replay_copy};

use crate::replaying::replay_one;
use crate::stopping::of_open;
use rx_collection::{Collection, Holder, Plain};
use rx_disk::Disk;
use rx_journal::Windows;
use rx_outside::Stop;
use rx_record::RecordView;
use rx_world::{ApplyFault, World, copy, with_holders};
use std::alloc::{AllocError, Global};

/// The bytes of a record before its body: a gate and a length.
const LENGTH_BYTES: u64 = 5;

/// The version of a file that begins with a copy.
const WITH_COPY: u8 = 2;

/// The world so far: one without observers while its records are copied, and then one that runs.
#[derive(Drop)]
pub(crate) enum Phase<H: Holder + Drop> {
    Copying(World<Plain>),
    Running(World<H>),
}

/// What the records of a journal come to, how many they are, and how many bytes they have, with
/// their gates and lengths.
#[derive(Drop)]
pub(crate) struct Played<H: Holder + Drop> {
    pub phase: Phase<H>,
    pub records: u64,
    pub bytes: u64,
}

/// Plays the records of a journal. They are read to the closed gate.
pub(crate) fn play<H: Holder + Drop, D: Disk, F: Fn(Collection) -> Result<H, AllocError>>(
    alloc: Global,
    disk: &mut D,
    windows: &mut Windows,
    make: &F,
) -> Result<Played<H>, Stop>
    requires callable { F.IsAlwaysCallable make.now }
    requires makes { (c : _) (r : _) → F.post make.now c r
        → IfOk r (λ h. (H.held h ≡ c) × (H.is_broken h ≡ false)) }

    // All that were lent were played, and the journal may go on from them.
    ensures ok { D.tells → HaveLent D.Disk disk.old windows.old [] → IfOk result (λ r.
        (bodies : List (List ℕ)) × MayGoOn D.Disk disk.new windows.new bodies
        × (replay_in (version_of windows.old) bodies ≡ world_to_come H.held r.phase [])) }
    // They are those that were to come, and counted.
    ensures counted { D.tells → IfOk result (λ r. (bodies : List (List ℕ))
        × WillLend (D.content disk.old) windows.old bodies
        × ArePlayed H.held (version_of windows.old) bodies r.phase r.records r.bytes) }
    ensures all { D.tells → IfOk result (λ r. (bodies : List (List ℕ))
        → WillLend (D.content disk.old) windows.old bodies
        → replay_in (version_of windows.old) bodies ≡ world_to_come H.held r.phase []) }
    ensures ended { IfOk result (λ _. IsAtEnd windows.new) }
    ensures limit { limit_of windows.new ≡ limit_of windows.old }

    // The bodies to come are refused only where they make no world.
    ensures not_journal { D.tells → IsErrOf result Stop.NotJournal → (bodies : List (List ℕ))
        → WillLend (D.content disk.old) windows.old bodies
        → replay_in (version_of windows.old) bodies ≡ None }

    ensures made { IfOk result (λ r.
        IsMadeIn (λ c h. F.post make.now c (Ok h)) H.written r.phase) }
    ensures epochs { IfOk result (λ r. epoch_of r.phase < 2 ^ 53) }
    ensures short { IfOk result (λ r. r.bytes < 2 ^ 32) }
    ensures untouched { D.tells → IsUntouched D.Disk disk.old disk.new }
    ensures only_reads { D.tells → OnlyReads D.Disk disk.old disk.new }
    ensures disk_only { IsErrOf result Stop.Disk → Rises (D.faults disk.old) (D.faults disk.new) }
    ensures faults { D.faults disk.old ≤ D.faults disk.new }
    ensures no_full { (would limit : ℕ) → IsErrOf result (Stop.Full would limit) → ⊥ }
{
    let mut phase = begin(alloc, windows.version());
    let mut records = 0u64;
    let mut bytes = 0u64;
    loop {
        let body = match windows.next(disk) {
            Ok(Some(body)) => body,
            Ok(None) => {
                return Ok(Played {
                    phase,
                    records,
                    bytes,
                });
            }
            Err(fault) => return Err(of_open(fault)),
        };
        records += 1;
        bytes += LENGTH_BYTES + body.len() as u64;
        phase = play_one(alloc, phase, body, make)?;
    }
}

// Nothing was played yet.
fn begin<H: Holder + Drop>(alloc: Global, version: u8) -> Phase<H>
    ensures all { (bodies : List (List ℕ))
        → replay_in version bodies ≡ world_to_come H.held result bodies }
    ensures epoch { epoch_of result ≡ 0 }
    ensures none { HasNone result }
{
    if version == WITH_COPY {
        Phase::Copying(World::new(alloc))
    } else {
        Phase::Running(World::new(alloc))
    }
}

fn play_one<H: Holder + Drop, F: Fn(Collection) -> Result<H, AllocError>>(
    alloc: Global,
    phase: Phase<H>,
    body: &[u8],
    make: &F,
) -> Result<Phase<H>, Stop>
    requires callable { F.IsAlwaysCallable make.now }
    requires makes { (c : _) (r : _) → F.post make.now c r
        → IfOk r (λ h. (H.held h ≡ c) × (H.is_broken h ≡ false)) }
    requires made { IsMadeIn (λ c h. F.post make.now c (Ok h)) H.written phase }
    ensures ok { IfOk result (λ next. (more : List (List ℕ))
        → world_to_come H.held phase (body.now ∷ more) ≡ world_to_come H.held next more) }
    ensures made { IfOk result (λ next.
        IsMadeIn (λ c h. F.post make.now c (Ok h)) H.written next) }
    ensures epoch { IfOk result
        (λ next. epoch_of next ≤ max (epoch_of phase + 1) most_copied_epoch) }
    ensures not_journal { IsErrOf result Stop.NotJournal → (more : List (List ℕ))
        → world_to_come H.held phase (body.now ∷ more) ≡ None }
    ensures no_disk { IsErrOf result Stop.Disk → ⊥ }
    ensures no_full { (would limit : ℕ) → IsErrOf result (Stop.Full would limit) → ⊥ }
{
    match phase {
        Phase::Copying(world) => copy_one(alloc, world, body, make),
        Phase::Running(world) => Ok(Phase::Running(replay_one(alloc, world, body, make)?)),
    }
}

// The end of a copy makes its world one that runs.
fn copy_one<H: Holder + Drop, F: Fn(Collection) -> Result<H, AllocError>>(
    alloc: Global,
    world: World<Plain>,
    body: &[u8],
    make: &F,
) -> Result<Phase<H>, Stop>
    requires callable { F.IsAlwaysCallable make.now }
    requires makes { (c : _) (r : _) → F.post make.now c r
        → IfOk r (λ h. (H.held h ≡ c) × (H.is_broken h ≡ false)) }
    ensures ok { IfOk result (λ next. (more : List (List ℕ))
        → replay_copy (Some (plain_world world)) (body.now ∷ more)
        ≡ world_to_come H.held next more) }
    ensures made { IfOk result (λ next.
        IsMadeIn (λ c h. F.post make.now c (Ok h)) H.written next) }
    ensures epoch { IfOk result
        (λ next. epoch_of next ≤ max (world.epoch + 1) most_copied_epoch) }
    ensures not_journal { IsErrOf result Stop.NotJournal → (more : List (List ℕ))
        → replay_copy (Some (plain_world world)) (body.now ∷ more) ≡ None }
    ensures no_disk { IsErrOf result Stop.Disk → ⊥ }
    ensures no_full { (would limit : ℕ) → IsErrOf result (Stop.Full would limit) → ⊥ }
{
    let Ok(view) = RecordView::read(body) else {
        return Err(Stop::NotJournal);
    };
    let copied = copy_record(alloc, world, &view)?;
    if is_end(&view) {
        Ok(Phase::Running(with_holders(alloc, copied, make)?))
    } else {
        Ok(Phase::Copying(copied))
    }
}

fn copy_record(
    alloc: Global,
    world: World<Plain>,
    view: &RecordView<'_>,
) -> Result<World<Plain>, Stop>
    requires { IsWritable (content_in view.now) }
    ensures ok { IfOk result (λ copied. after_copied (Ok (content_in view.now)) (plain_world world)
        ≡ Some (plain_world copied)) }
    ensures epoch { IfOk result
        (λ copied. copied.epoch ≤ max (world.epoch + 1) most_copied_epoch) }
    ensures not_journal { IsErrOf result Stop.NotJournal
        → after_copied (Ok (content_in view.now)) (plain_world world) ≡ None }
    ensures no_disk { IsErrOf result Stop.Disk → ⊥ }
    ensures no_full { (would limit : ℕ) → IsErrOf result (Stop.Full would limit) → ⊥ }
{
    let entry = view.own(alloc)?;
    match copy(alloc, world, entry) {
        Ok(copied) => Ok(copied),
        Err(ApplyFault::Illegal) => Err(Stop::NotJournal),
        Err(ApplyFault::Memory) => Err(Stop::Memory),
    }
}

fn is_end(view: &RecordView<'_>) -> bool
    ensures { result ≡ is_end (Ok (content_in view.now)) }
{
    matches!(view, RecordView::End { .. })
}
