// What a line that delivers events does to an engine, and its answer.
ghost use Rattle.std.specs.Prelude.{◌≡◌, ◌++◌, ℕ, List, [], None, false, length, IfOk, IsErrOf, IsSome, string_bytes};
ghost use Rattle.rx_handler.specs.Handlers.{Kinds};
ghost use Rattle.rx_journal.specs.Ready.{MayCommit};
ghost use Rattle.rx_outside.specs.declared.stop.Stop.TheVariants as Stop;
ghost use Rattle.rx_record.specs.Content.{Content};
ghost use Rattle.rx_reply.specs.Answer.{deliver};
ghost use Rattle.rx_reply.specs.Reply.{answer_lines};
ghost use Rattle.rx_session.specs.Session.{Session, stream_of};
ghost use Rattle.rx_sync.specs.Remote.{Heard};
ghost use Rattle.rx_engine.specs.Delivering.{HasGoodWorld, IsBegun, IsEnded, MayEnd};
ghost use Rattle.rx_engine.specs.Engine.{Commits, session_of};
ghost use Rattle.rx_engine.specs.Meaning.{delivery_meaning, lines_of};
ghost use Rattle.rx_engine.specs.Play.{Follows, play_of};
ghost use Rattle.rx_engine.specs.Shown.{deliver_of};
ghost use Rattle.rx_engine.specs.Streams.{delivered_by};
ghost use Rattle.rx_engine.specs.declared.engine.Engine.{Engine as Begins};

use crate::delivering::{Delivered, deliver_all};
use crate::engine::Engine;
use crate::marks::settle_turn;
use crate::output::Output;
use crate::play::Play;
use crate::remembered::Remembered;
use crate::sound_session::SoundSession;
use crate::streams::Deliver;
use rx_diagram::Diagram;
use rx_disk::Disk;
use rx_observe::Emission;
use rx_outside::Stop;
use rx_reply::{Given, Reply};
use rx_stream::Event;
use rx_sync::{is_level, is_resync};
use rx_value::RxList;
use std::alloc::{AllocError, Global};
use std::rc::Rc;

/// The engine after a delivery, the emissions that are due then, and what the delivery came to.
#[derive(Drop)]
pub(crate) struct AfterDelivery {
    pub engine: Engine,
    pub emissions: Vec<Emission>,
    pub given: RxList<Given>,
    pub level: bool,
    pub resync: bool,
}

impl Engine {
    ghost use Rattle.rx_engine.specs.Engine.{Answers, IsAfterDelivery, IsAt, standing_of};

    /// The engine after a delivery, and the line of each event that was given, that of the
    /// delivery, and the emissions that are due then.
    pub(crate) fn answer_delivery<D: Disk>(
        self,
        alloc: Global,
        disk: &mut D,
        wanted: &Deliver,
        number: u64,
    ) -> Result<(Engine, Output), Stop>
        requires at { D.tells → (bodies : List (List ℕ)) × IsAt D.Disk disk.old self bodies }
        requires open { IsSome (stream_of wanted.now.name (session_of self)) }
        ensures answers { (kinds : Kinds) (heard : List Heard)
            → IfOk result (λ p. Answers kinds heard
            (delivery_meaning number (deliver_of wanted.now) (standing_of kinds heard self))
            p.0 p.1) }
        ensures commits { Commits D.Disk disk.old disk.new self
            (delivered_by (deliver_of wanted.now) (session_of self)).records (λ p. p.0) result }
        ensures not_journal { IsErrOf result Stop.NotJournal → ⊥ }
    {
        let made = self.make_delivery(alloc, disk, wanted)?;
        let answered = made.answer(alloc, number)?;
        Ok(answered)
    }

    // The engine after a delivery, all of whose records are on the disk.
    fn make_delivery<D: Disk>(
        self,
        alloc: Global,
        disk: &mut D,
        wanted: &Deliver,
    ) -> Result<AfterDelivery, Stop>
        requires at { D.tells → (bodies : List (List ℕ)) × IsAt D.Disk disk.old self bodies }
        requires open { IsSome (stream_of wanted.now.name (session_of self)) }
        ensures delivered { (kinds : Kinds) (heard : List Heard) → IfOk result
            (IsAfterDelivery (deliver_of wanted.now) (standing_of kinds heard self)) }
        ensures commits { Commits D.Disk disk.old disk.new self
            (delivered_by (deliver_of wanted.now) (session_of self)).records
            (λ m. m.engine) result }
        ensures not_journal { IsErrOf result Stop.NotJournal → ⊥ }
    {
        let begun = self.begin_delivery(alloc, wanted);
        let Begun {
            play,
            events,
            now,
            none,
            aside,
        } = begun;
        let made = deliver_all(alloc, play, wanted, events, now, none)?;
        made.end(alloc, disk, wanted.name.as_str(), aside)
    }

    // The engine taken apart, with what the stream had queued.
    fn begin_delivery(self, alloc: Global, wanted: &Deliver) -> Begun
        ensures begun { IsBegun (deliver_of wanted.now) self result }
        ensures good { HasGoodWorld self result.aside.remembered }
    {
        let Engine {
            journal,
            session,
            diagram,
        } = self;
        let parts = session.release();
        let (session, remembered) = parts;
        let name = wanted.name.as_str();
        let none = remembered.marks.tell_none(session.world(), name);
        let now = session.moment();
        let taken = session.begin(alloc).take_queue(alloc, name);
        let (playing, events, lost) = taken;
        Begun {
            play: Play {
                journal,
                playing,
                past: None,
            },
            events,
            now,
            none,
            aside: Aside {
                remembered,
                diagram,
                lost,
            },
        }
    }
}

// An engine of which a delivery is to be made, with what the stream had queued. Where `none`
// nothing of the fork is to be pushed.
#[derive(Drop)]
struct Begun {
    play: Play,
    events: Vec<Event>,
    now: u64,
    none: bool,
    aside: Aside,
}

// What a delivery leaves as it is: the rest of the engine, and whether the stream has lost events.
#[derive(Drop)]
struct Aside {
    remembered: Remembered,
    diagram: Rc<Diagram>,
    lost: bool,
}

impl Delivered {
    // The engine once the records are on the disk, and what the delivery came to.
    fn end<D: Disk>(
        self,
        alloc: Global,
        disk: &mut D,
        name: &str,
        aside: Aside,
    ) -> Result<AfterDelivery, Stop>
        requires at { D.tells → MayCommit D.Disk disk.old self.play.journal }
        requires may { MayEnd name.now self aside.remembered }
        ensures ended { IfOk result (IsEnded name.now self aside) }
        ensures commits { (e : Begins) (session : Session) (cs : List Content)
            → session.world ≡ (session_of e).world
            → Follows (play_of e.journal session) cs self.play
            → Commits D.Disk disk.old disk.new e cs (λ m. m.engine) result }
        ensures not_journal { IsErrOf result Stop.NotJournal → ⊥ }
    {
        let Delivered {
            play,
            given,
            kept,
            none,
        } = self;
        let Aside {
            mut remembered,
            diagram,
            lost,
        } = aside;
        let play = play.commit(disk)?;
        let Play {
            journal,
            playing,
            ..
        } = play;
        let level = is_level(playing.world(), name, none);
        let resync = is_resync(lost, given.as_slice());
        let playing = playing.keep_events(name, kept)?;
        let (session, emissions) = settle_turn(alloc, playing, &mut remembered.marks, name, none)?;
        let engine = Engine {
            journal,
            session: SoundSession::new(session, remembered),
            diagram,
        };
        Ok(AfterDelivery {
            engine,
            emissions,
            given,
            level,
            resync,
        })
    }
}

impl AfterDelivery {
    // The engine, and the line of each event that was given, that of the delivery, and the
    // emissions that are due.
    fn answer(self, alloc: Global, number: u64) -> Result<(Engine, Output), AllocError>
        ensures engine { IfOk result (λ p. p.0 ≡ self.engine) }
        ensures text { IfOk result (λ p. string_bytes p.1.text
            ≡ answer_lines number (deliver self.given self.level self.resync)
            ++ lines_of self.emissions.items) }
        ensures emissions { IfOk result (λ p. p.1.emissions ≡ length self.emissions.items) }
        ensures refused { IfOk result (λ p. p.1.refused ≡ false) }
        ensures end { IfOk result (λ p. p.1.end ≡ None) }
    {
        let AfterDelivery {
            engine,
            emissions,
            given,
            level,
            resync,
        } = self;
        let text = delivery_lines(alloc, given, level, resync, number)?;
        let output = Output::new(alloc, text, emissions.as_slice(), false, None)?;
        Ok((engine, output))
    }
}

// The line of each event of a delivery that was given, and the delivery's own.
fn delivery_lines(
    alloc: Global,
    given: RxList<Given>,
    level: bool,
    resync: bool,
    number: u64,
) -> Result<String, AllocError>
    ensures { IfOk result (λ text. string_bytes text
        ≡ answer_lines number (deliver given level resync)) }
{
    let reply = Reply::Deliver {
        given,
        level,
        resync,
    };
    reply.lines(alloc, number)
}
