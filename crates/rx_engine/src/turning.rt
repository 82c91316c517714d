// Makes a turn: exchange after exchange, until one ends it.
ghost use Rattle.std.specs.Prelude.{◌≡◌, ◌≤◌, ℕ, true, Some, IfOk};
ghost use Rattle.rx_handler.specs.Shown.{kinds_of};
ghost use Rattle.rx_sync.specs.Asking.{pending_in};
ghost use Rattle.rx_sync.specs.Exchange.{has_pulled};
ghost use Rattle.rx_sync.specs.Laws.{MayTurn};
ghost use Rattle.rx_sync.specs.Turn.{end_by, turn};
ghost use Rattle.rx_engine.specs.Play.{Follows, IsMade};
ghost use Rattle.rx_engine.specs.Turning.{happening_at, terms};

use crate::exchanging::make_exchange;
use crate::play::Play;
use rx_handler::Handlers;
use rx_reply::{Exchanged, TurnEnd};
use rx_script::Happening;
use rx_sync::Asks;
use rx_value::{RxList, RxText};
use std::alloc::{AllocError, Global};

/// A turn that is to be made: of so many documents an exchange, so many exchanges at most, over
/// such a link.
#[derive(Drop)]
pub(crate) struct Turn {
    pub name: RxText,
    pub batch: u32,
    pub budget: u32,
    pub link: Vec<Happening>,
}

/// A turn that was made, and whether its last exchange has pulled, so that nothing is to be pushed.
#[derive(Drop)]
pub(crate) struct Turned {
    pub play: Play,
    pub exchanges: RxList<Exchanged>,
    pub ended: TurnEnd,
    pub pulled: bool,
}

/// Makes the exchanges of a turn, until one ends it or none is left. Where `none` nothing is to be
/// pushed before it.
pub(crate) fn take_turn(
    alloc: Global,
    handlers: &Handlers,
    first: Play,
    asks: &mut Asks,
    wanted: &Turn,
    now: u64,
    none: bool,
) -> Result<Turned, AllocError>
    requires batch { 1 ≤ wanted.now.batch }
    requires may { MayTurn (terms wanted.now.name now (kinds_of handlers.now))
        first.playing.world asks.old }
    requires none { none ≡ true → pending_in first.playing.world wanted.now.name ≡ Some 0 }
    ensures turned { IfOk result (λ made. IsMade
        (turn (terms wanted.now.name now (kinds_of handlers.now)) wanted.now.batch
        wanted.now.budget wanted.now.link.items first.playing.world asks.old)
        first.playing made asks.new) }
    ensures staged { IfOk result (λ made. Follows first
        (turn (terms wanted.now.name now (kinds_of handlers.now)) wanted.now.batch
        wanted.now.budget wanted.now.link.items first.playing.world asks.old).records made.play) }
    ensures none { IfOk result (λ made. made.pulled ≡ true
        → pending_in made.play.playing.world wanted.now.name ≡ Some 0) }
{
    let mut play = first;
    let mut exchanges = RxList::new(alloc);
    let mut pulled = none;
    for i in 0..wanted.budget {
        let happening = happening_at(wanted.link.as_slice(), i as usize);
        let (next, came) = make_exchange(
            alloc, handlers, play, asks, wanted, happening, now, pulled,
        )?;
        play = next;
        let Some(exchanged) = came else {
            return Ok(Turned {
                play,
                exchanges,
                ended: TurnEnd::Clock,
                pulled: false,
            });
        };
        pulled = has_pulled(&exchanged);
        let end = end_by(wanted.batch, &exchanged);
        exchanges.push(exchanged)?;
        if let Some(ended) = end {
            return Ok(Turned {
                play,
                exchanges,
                ended,
                pulled,
            });
        }
    }
    Ok(Turned {
        play,
        exchanges,
        ended: TurnEnd::More,
        pulled,
    })
}

// What the link does to an exchange: nothing, where nothing is said.
fn happening_at(link: &[Happening], i: usize) -> Happening
    ensures { result ≡ happening_at i link.now }
{
    match link.get(i) {
        Some(happening) => *happening,
        None => Happening::Ok,
    }
}

/// Whether a reply to a pull was taken.
pub(crate) fn has_pulled(exchanged: &Exchanged) -> bool
    ensures { result ≡ has_pulled (Some exchanged.now) }
{
    matches!(exchanged, Exchanged::Pulled { .. })
}

/// How an exchange ends the turn, if it does.
pub(crate) fn end_by(batch: u32, exchanged: &Exchanged) -> Option<TurnEnd>
    ensures { result ≡ end_by batch (Some exchanged.now) }
{
    match exchanged {
        Exchanged::Pushed { .. } => None,
        Exchanged::Pulled { rows, .. } => if rows.len() < batch as usize {
            Some(TurnEnd::Quiet)
        } else {
            None
        },
        Exchanged::PushLost { .. } | Exchanged::PullLost { .. } => Some(TurnEnd::Lost),
    }
}
