// The turns of a tree, one after another.
ghost use Rattle.std.specs.Prelude.{◌≡◌, ◌≤◌, IfOk};
ghost use Rattle.std.specs.List.{list_all};
ghost use Rattle.rx_value.specs.Due.{DueBy};
ghost use Rattle.rx_value.specs.Named.{by_bytes};
ghost use Rattle.rx_handler.specs.Shown.{kinds_of};
ghost use Rattle.rx_session.specs.Placed.{world_of};
ghost use Rattle.rx_sync.specs.Sweep.{sweep, turn_in};
ghost use Rattle.rx_engine.specs.Lines.{sweep_line};
ghost use Rattle.rx_engine.specs.Shown.{task_of, MayDoTask};
ghost use Rattle.rx_engine.specs.Sweeping.{is_step_handled, is_quiet};
ghost use Rattle.rx_engine.specs.Sweeps.{CanSweep, IsGoodPlay, IsStepped, IsSwept, sweep_terms};
ghost use Rattle.rx_engine.specs.Turning.{CanTurn};
ghost use Rattle.rx_writes.specs.declared.fault.Fault.TheVariants.{Memory};

use crate::lookup::find_live;
use crate::outcome::Task;
use crate::play::Play;
use crate::remembered::Remembered;
use crate::requests::turn_by_name;
use crate::turning::{Turn, Turned};
use rx_handler::Handlers;
use rx_observe::Live;
use rx_reply::{Refusal, Swept, TurnEnd};
use rx_session::Session;
use rx_sync::{Step, sweep_steps};
use rx_value::{RxList, RxText};
use rx_world::World;
use rx_writes::Fault;
use std::alloc::{AllocError, Global};

/// Turns that are to be made, one after another: of so many documents an exchange, so many
/// exchanges at most each.
#[derive(Drop)]
pub(crate) struct Sweep {
    pub steps: Vec<Step>,
    pub batch: u32,
    pub budget: u32,
}

/// Turns that were made, and how the last one ended: quiet, where there was none.
#[derive(Drop)]
pub(crate) struct MadeSweep {
    pub play: Play,
    pub turns: RxList<Swept>,
    pub ended: TurnEnd,
}

/// The sweep that a line asks for: its collection is there, and so is the handler of each
/// replication of its tree.
pub(crate) fn sweep_line<'a>(
    alloc: Global,
    session: &'a Session,
    handlers: &Handlers,
    name: &RxText,
    batch: u32,
    budget: u32,
) -> Result<Task<'a>, Fault>
    requires batch { 1 ≤ batch }
    ensures exact { DueBy Memory task_of result
        (sweep_line (kinds_of handlers.now) name.now batch budget session.now) }
    ensures may { IfOk result (λ t. MayDoTask t session.now) }
{
    find_live(alloc, session, name)?;
    let steps = sweep_steps(alloc, session.world(), name.as_str())?;
    if !are_handled(session.world(), handlers, steps.as_slice()) {
        return Err(Fault::Refused(Refusal::NoHandler));
    }
    Ok(Task::Sweeps(Sweep {
        steps,
        batch,
        budget,
    }))
}

// Whether the handler of each turn's replication is there.
fn are_handled(world: &World<Live>, handlers: &Handlers, steps: &[Step]) -> bool
    ensures { result
        ≡ list_all (is_step_handled (kinds_of handlers.now) (world_of world.now)) steps.now }
{
    for step in steps {
        if !is_step_handled(world, handlers, step) {
            return false;
        }
    }
    true
}

fn is_step_handled(world: &World<Live>, handlers: &Handlers, step: &Step) -> bool
    ensures { result ≡ is_step_handled (kinds_of handlers.now) (world_of world.now) step.now }
{
    match world.replication(step.name.as_str()) {
        Some(replication) => handlers.find(replication.handler.as_str()).is_some(),
        None => false,
    }
}

/// Makes turns up to the first that isn't quiet, and marks their replications.
pub(crate) fn sweep_all(
    alloc: Global,
    handlers: &Handlers,
    first: Play,
    remembered: &mut Remembered,
    wanted: &Sweep,
    now: u64,
) -> Result<MadeSweep, AllocError>
    requires batch { 1 ≤ wanted.now.batch }
    requires good { IsGoodPlay first remembered.old }
    requires can { CanSweep (kinds_of handlers.now) first.playing wanted.now.steps.items }
    ensures swept { IfOk result (λ made. IsSwept
        (sweep (sweep_terms wanted.now.batch wanted.now.budget now (kinds_of handlers.now))
        wanted.now.steps.items first.playing.world (by_bytes remembered.old.asks.entries))
        first made (by_bytes remembered.new.asks.entries)) }
    ensures good { IfOk result (λ made. IsGoodPlay made.play remembered.new) }
{
    let mut play = first;
    let mut turns = RxList::new(alloc);
    for step in &wanted.steps {
        let (next, turn) = make_step(alloc, handlers, play, remembered, wanted, step, now)?;
        play = next;
        let ended = turn.end;
        turns.push(turn)?;
        if !is_quiet(ended) {
            return Ok(MadeSweep { play, turns, ended });
        }
    }
    Ok(MadeSweep {
        play,
        turns,
        ended: TurnEnd::Quiet,
    })
}

fn is_quiet(end: TurnEnd) -> bool
    ensures { result ≡ is_quiet end }
{
    matches!(end, TurnEnd::Quiet)
}

// Makes a turn, and marks its replication.
fn make_step(
    alloc: Global,
    handlers: &Handlers,
    play: Play,
    remembered: &mut Remembered,
    wanted: &Sweep,
    step: &Step,
    now: u64,
) -> Result<(Play, Swept), AllocError>
    requires batch { 1 ≤ wanted.now.batch }
    requires good { IsGoodPlay play remembered.old }
    requires can { CanTurn (kinds_of handlers.now) play.playing step.now.name }
    ensures stepped { IfOk result (λ p. IsStepped step.now
        (turn_in (sweep_terms wanted.now.batch wanted.now.budget now (kinds_of handlers.now))
        step.now.name play.playing.world (by_bytes remembered.old.asks.entries)) play p.0 p.1
        (by_bytes remembered.old.asks.entries) (by_bytes remembered.new.asks.entries)) }
    ensures good { IfOk result (λ p. IsGoodPlay p.0 remembered.new) }
{
    let turn = Turn {
        name: step.name.copy(alloc)?,
        batch: wanted.batch,
        budget: wanted.budget,
        link: Vec::new(alloc),
    };
    let none = remembered
        .marks
        .tell_none(play.playing.world(), step.name.as_str());
    let made = turn_by_name(
        alloc,
        handlers,
        play,
        &mut remembered.asks,
        &turn,
        now,
        none,
    )?;
    let Turned {
        play,
        exchanges,
        ended,
        pulled,
    } = made;
    remembered
        .marks
        .set(alloc, play.playing.world(), step.name.as_str(), pulled)?;
    let swept = Swept {
        pass: step.pass,
        name: turn.name,
        exchanges,
        end: ended,
    };
    Ok((play, swept))
}
