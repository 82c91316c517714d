// Makes an exchange: each record is staged before the next one is planned.
ghost use Rattle.std.specs.Prelude.{◌≡◌, ◌≤◌, ℕ, true, Some, IfOk, IsSome, OnOk};
ghost use Rattle.rx_value.specs.Named.{named};
ghost use Rattle.rx_handler.specs.Shown.{kinds_of};
ghost use Rattle.rx_sync.specs.Asking.{asked_in, pending_in};
ghost use Rattle.rx_sync.specs.Asks.{next_number, with_request};
ghost use Rattle.rx_sync.specs.Exchange.{course, exchange};
ghost use Rattle.rx_sync.specs.Laws.{IsAskedIn, IsDueIn, IsLawfulIn, IsReady, MayTurn, RemembersLawful};
ghost use Rattle.rx_world.specs.Sound.{IsSoundWorld};
ghost use Rattle.rx_engine.specs.Carried.{carried};
ghost use Rattle.rx_engine.specs.Play.{Follows};
ghost use Rattle.rx_engine.specs.Turning.{terms};

use crate::play::Play;
use crate::turning::Turn;
use rx_fork::Asked;
use rx_handler::Handlers;
use rx_reply::Exchanged;
use rx_script::Happening;
use rx_sync::{Asks, Planned, ask, ask_to_pull, copy_of_request, exchange, late};
use rx_world::StepFault;
use std::alloc::{AllocError, Global};

/// Makes an exchange, where the one before it has pulled or not. Nothing came of it where a commit
/// found no write time.
pub(crate) fn make_exchange(
    alloc: Global,
    handlers: &Handlers,
    play: Play,
    asks: &mut Asks,
    wanted: &Turn,
    happening: Happening,
    now: u64,
    pulled: bool,
) -> Result<(Play, Option<Exchanged>), AllocError>
    requires batch { 1 ≤ wanted.now.batch }
    requires may { MayTurn (terms wanted.now.name now (kinds_of handlers.now)) play.playing.world
        asks.old }
    requires pulled { pulled ≡ true → pending_in play.playing.world wanted.now.name ≡ Some 0 }
    ensures came { IfOk result (λ p. p.1
        ≡ (course (terms wanted.now.name now (kinds_of handlers.now)) wanted.now.batch happening
        play.playing.world asks.old).came) }
    ensures asks { OnOk result (asks.new
        ≡ (course (terms wanted.now.name now (kinds_of handlers.now)) wanted.now.batch happening
        play.playing.world asks.old).asks) }
    ensures staged { IfOk result (λ p. Follows play
        (course (terms wanted.now.name now (kinds_of handlers.now)) wanted.now.batch happening
        play.playing.world asks.old).records p.0) }
{
    let name = wanted.name.as_str();
    let asked = ask_next(alloc, &play, asks, name, wanted.batch, pulled)?;
    carry_request(alloc, handlers, play, asks, name, &asked, happening, now)
}

/// Makes the next request, and remembers it, where the exchange before it has pulled or not.
pub(crate) fn ask_next(
    alloc: Global,
    play: &Play,
    asks: &mut Asks,
    name: &str,
    batch: u32,
    pulled: bool,
) -> Result<Asked, AllocError>
    requires held { IsSome (named play.now.playing.world.replications name.now) }
    requires sound { IsSoundWorld play.now.playing.world }
    requires batch { 1 ≤ batch }
    requires pulled { pulled ≡ true → pending_in play.now.playing.world name.now ≡ Some 0 }
    ensures asked { IfOk result (λ asked. asked_in play.now.playing.world name.now
        (next_number asks.old) batch ≡ Some asked) }
    ensures lawful { IfOk result
        (λ asked. IsLawfulIn play.now.playing.world name.now asked.request) }
    ensures due { IfOk result (λ asked. IsDueIn play.now.playing.world name.now asked) }
    ensures asks { IfOk result (λ asked. asks.new ≡ with_request asked.request asks.old) }
{
    let asked = next_request(alloc, play, name, asks.next_number(), batch, pulled)?;
    asks.push(copy_of_request(alloc, &asked.request)?)?;
    Ok(asked)
}

// The request of that number that is due. Behind an exchange that has pulled it is a pull, and no
// document is looked at for it.
fn next_request(
    alloc: Global,
    play: &Play,
    name: &str,
    number: u64,
    batch: u32,
    pulled: bool,
) -> Result<Asked, AllocError>
    requires held { IsSome (named play.now.playing.world.replications name.now) }
    requires sound { IsSoundWorld play.now.playing.world }
    requires batch { 1 ≤ batch }
    requires pulled { pulled ≡ true → pending_in play.now.playing.world name.now ≡ Some 0 }
    ensures asked { IfOk result
        (λ asked. asked_in play.now.playing.world name.now number batch ≡ Some asked) }
    ensures lawful { IfOk result
        (λ asked. IsLawfulIn play.now.playing.world name.now asked.request) }
    ensures due { IfOk result (λ asked. IsDueIn play.now.playing.world name.now asked) }
{
    let world = play.playing.world();
    if pulled {
        return ask_to_pull(alloc, world, name, number, batch);
    }
    ask(alloc, world, name, number, batch)
}

// What the link makes of the request that was made last.
fn carry_request(
    alloc: Global,
    handlers: &Handlers,
    play: Play,
    asks: &Asks,
    name: &str,
    asked: &Asked,
    happening: Happening,
    now: u64,
) -> Result<(Play, Option<Exchanged>), AllocError>
    requires ready { IsReady play.playing.world name.now (kinds_of handlers.now) }
    requires asked { IsAskedIn play.playing.world name.now asked.now }
    requires asks { RemembersLawful play.playing.world name.now asks.now }
    ensures came { IfOk result (λ p. p.1 ≡ (carried (terms name.now now (kinds_of handlers.now))
        asked.now happening asks.now play.playing.world).came) }
    ensures staged { IfOk result (λ p. Follows play
        (carried (terms name.now now (kinds_of handlers.now)) asked.now happening asks.now
        play.playing.world).records p.0) }
{
    let earlier = match late(alloc, play.playing.world(), name, asks, happening, now) {
        Ok(earlier) => earlier,
        Err(StepFault::ClockEnd) => return Ok((play, None)),
        Err(StepFault::Memory) => return Err(AllocError),
    };
    let play = play.stage_maybe(alloc, earlier)?;
    stage_exchange(alloc, handlers, play, name, asked, happening, now)
}

// What the link makes of it once an earlier one was handled, where one comes late.
fn stage_exchange(
    alloc: Global,
    handlers: &Handlers,
    play: Play,
    name: &str,
    asked: &Asked,
    happening: Happening,
    now: u64,
) -> Result<(Play, Option<Exchanged>), AllocError>
    requires ready { IsReady play.playing.world name.now (kinds_of handlers.now) }
    requires asked { IsAskedIn play.playing.world name.now asked.now }
    ensures came { IfOk result (λ p. p.1 ≡ (exchange (terms name.now now (kinds_of handlers.now))
        asked.now happening play.playing.world).came) }
    ensures staged { IfOk result (λ p. Follows play
        (exchange (terms name.now now (kinds_of handlers.now)) asked.now happening
        play.playing.world).records p.0) }
{
    let world = play.playing.world();
    let Planned { records, came } = exchange(alloc, world, name, asked, happening, handlers, now)?;
    let play = play.stage_all(alloc, records)?;
    Ok((play, came))
}
