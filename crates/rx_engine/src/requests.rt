// What is remembered of requests from one turn to the next.
ghost use Rattle.std.specs.Prelude.{◌≡◌, ◌≤◌, ℕ, true, Some, IfOk, OnOk};
ghost use Rattle.rx_handler.specs.Shown.{kinds_of};
ghost use Rattle.rx_sync.specs.Asking.{pending_in};
ghost use Rattle.rx_sync.specs.Laws.{MayTurn};
ghost use Rattle.rx_sync.specs.Turn.{turn};
ghost use Rattle.rx_value.specs.Named.{by_bytes, put_named};
ghost use Rattle.rx_engine.specs.Play.{Follows, IsMadeByName};
ghost use Rattle.rx_sync.specs.Asks.{asks_of};
ghost use Rattle.rx_engine.specs.Turning.{terms};

use crate::play::Play;
use crate::turning::{Turn, Turned, take_turn};
use indexmap::IndexMap;
use rx_handler::Handlers;
use rx_sync::Asks;
use std::alloc::{AllocError, Global};

/// Makes a turn, and remembers the requests of its replication.
pub(crate) fn turn_by_name(
    alloc: Global,
    handlers: &Handlers,
    play: Play,
    asks: &mut IndexMap<String, Asks>,
    wanted: &Turn,
    now: u64,
    none: bool,
) -> Result<Turned, AllocError>
    requires batch { 1 ≤ wanted.now.batch }
    requires may { MayTurn (terms wanted.now.name now (kinds_of handlers.now)) play.playing.world
        (asks_of wanted.now.name (by_bytes asks.old.entries)) }
    requires none { none ≡ true → pending_in play.playing.world wanted.now.name ≡ Some 0 }
    ensures turned { IfOk result (λ made. IsMadeByName wanted.now.name
        (turn (terms wanted.now.name now (kinds_of handlers.now)) wanted.now.batch
        wanted.now.budget wanted.now.link.items play.playing.world
        (asks_of wanted.now.name (by_bytes asks.old.entries)))
        play.playing made (by_bytes asks.old.entries) (by_bytes asks.new.entries)) }
    ensures staged { IfOk result (λ made. Follows play
        (turn (terms wanted.now.name now (kinds_of handlers.now)) wanted.now.batch
        wanted.now.budget wanted.now.link.items play.playing.world
        (asks_of wanted.now.name (by_bytes asks.old.entries))).records made.play) }
    ensures none { IfOk result (λ made. made.pulled ≡ true
        → pending_in made.play.playing.world wanted.now.name ≡ Some 0) }
{
    remember(asks, alloc, wanted.name.as_str())?;
    match asks.get_mut(wanted.name.as_str()) {
        Some(remembered) => take_turn(alloc, handlers, play, remembered, wanted, now, none),
        None => unreachable!(),
    }
}

/// Makes room for the requests of a replication that has made none yet.
pub(crate) fn remember(
    asks: &mut IndexMap<String, Asks>,
    alloc: Global,
    name: &str,
) -> Result<(), AllocError>
    ensures { OnOk result (by_bytes asks.new.entries
        ≡ put_named (by_bytes asks.old.entries) name.now
        (asks_of name.now (by_bytes asks.old.entries))) }
{
    if asks.contains_key(name) {
        return Ok(());
    }
    asks.insert(String::from_str(alloc, name)?, Asks::new(alloc))?;
    Ok(())
}
