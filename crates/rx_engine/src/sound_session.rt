// A session whose world is sound.
ghost use Rattle.std.specs.Prelude.{◌≡◌};
ghost use Rattle.rx_value.specs.Named.{by_bytes};
ghost use Rattle.rx_session.specs.Streams.{AreStreamed};
ghost use Rattle.rx_world.specs.Made.{IsMadeWorld};
ghost use Rattle.rx_world.specs.Sound.{IsSoundWorld};
ghost use Rattle.rx_engine.specs.Marks.{AreMarked};
ghost use Rattle.rx_engine.specs.Remembered.{AreRemembered};
ghost use Rattle.rx_engine.specs.SoundSession.{HasSoundWorld, with_asks};

use crate::remembered::Remembered;
use rx_session::Session;
use std::marker::Model;

/// A session whose world is one that records made, and sound, with what is remembered beside it.
/// The marks are no part of what a session means.
#[derive(Drop)]
pub(crate) struct SoundSession {
    session: Session,
    remembered: Remembered,
}

impl Model for SoundSession {
    ghost use Rattle.rx_value.specs.Named.{by_bytes};
    ghost use Rattle.rx_engine.specs.Marks.{AreMarked};
    ghost use Rattle.rx_engine.specs.SoundSession.{HasSoundWorld, SessionWithAsks, with_asks, with_asks_code};

    ghost Value = { SessionWithAsks };

    ghost coded = { with_asks_code };

    ghost view = { λ s. with_asks s.session (by_bytes s.remembered.asks.entries) };

    ghost invariant = { λ s. HasSoundWorld
        (with_asks s.session (by_bytes s.remembered.asks.entries))
        × AreMarked s.session.world s.remembered.marks };
}

impl SoundSession {
    pub(crate) fn new(session: Session, remembered: Remembered) -> SoundSession
        requires made { IsMadeWorld session.world }
        requires sound { IsSoundWorld session.world }
        requires remembered { AreRemembered session.world (by_bytes remembered.asks.entries) }
        requires marked { AreMarked session.world remembered.marks }
        ensures { result ≡ with_asks session (by_bytes remembered.asks.entries) }
    {
        SoundSession {
            session,
            remembered,
        }
    }

    pub(crate) fn session(&self) -> &Session
        ensures value { result.now ≡ self.now.session }
        ensures sound { HasSoundWorld self.now }
        ensures streamed { AreStreamed self.now.session.world self.now.session.streams }
    {
        self.session.seen()
    }

    /// The session alone: what is remembered beside it is forgotten.
    pub(crate) fn into_session(self) -> Session
        ensures same { result ≡ self.session }
        ensures made { IsMadeWorld self.session.world }
        ensures sound { IsSoundWorld self.session.world }
    {
        let (session, _remembered) = self.release();
        session
    }

    pub(crate) fn release(self) -> (Session, Remembered)
        ensures same { result.0 ≡ self.session }
        ensures asks { by_bytes result.1.asks.entries ≡ self.asks }
        ensures made { IsMadeWorld self.session.world }
        ensures sound { IsSoundWorld self.session.world }
        ensures remembered { AreRemembered self.session.world self.asks }
        ensures marked { AreMarked self.session.world result.1.marks }
    {
        (self.session, self.remembered)
    }
}
