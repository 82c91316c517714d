// How a turn begins with an engine, and how it ends with one.
ghost use Rattle.std.specs.Prelude.{IfOk};
ghost use Rattle.rx_value.specs.Named.{by_bytes};
ghost use Rattle.rx_engine.specs.Turns.{IsBegun, IsEnded, MayEnd};

use crate::changing::AfterTurn;
use crate::engine::Engine;
use crate::marks::settle_turn;
use crate::play::Play;
use crate::remembered::Remembered;
use crate::sound_session::SoundSession;
use crate::turning::Turned;
use rx_diagram::Diagram;
use std::alloc::{AllocError, Global};
use std::rc::Rc;

/// An engine taken apart for a turn, and its moment. Where `none` nothing of the fork is to be
/// pushed.
#[derive(Drop)]
pub(crate) struct Begun {
    pub play: Play,
    pub now: u64,
    pub none: bool,
    pub remembered: Remembered,
    pub diagram: Rc<Diagram>,
}

impl Engine {
    /// Takes an engine apart for a turn of the replication of a name.
    pub(crate) fn begin_turn(self, alloc: Global, name: &str) -> Begun
        ensures { IsBegun name.now self result }
    {
        let Engine {
            journal,
            session,
            diagram,
        } = self;
        let parts = session.release();
        let (session, remembered) = parts;
        let none = remembered.marks.tell_none(session.world(), name);
        let now = session.moment();
        Begun {
            play: Play {
                journal,
                playing: session.begin(alloc),
                past: None,
            },
            now,
            none,
            remembered,
            diagram,
        }
    }
}

impl Turned {
    /// The engine after a turn whose records are on the disk, and the emissions that are due then.
    pub(crate) fn end(
        self,
        alloc: Global,
        name: &str,
        remembered: Remembered,
        diagram: Rc<Diagram>,
    ) -> Result<AfterTurn, AllocError>
        requires may { MayEnd name.now self remembered }
        ensures { IfOk result (IsEnded self (by_bytes remembered.asks.entries)) }
    {
        let Turned {
            play,
            exchanges,
            ended,
            pulled,
        } = self;
        let Play {
            journal,
            playing,
            ..
        } = play;
        let mut remembered = remembered;
        let (session, emissions) = settle_turn(
            alloc,
            playing,
            &mut remembered.marks,
            name,
            pulled,
        )?;
        Ok(AfterTurn {
            engine: Engine {
                journal,
                session: SoundSession::new(session, remembered),
                diagram,
            },
            emissions,
            exchanges,
            ended,
        })
    }
}
