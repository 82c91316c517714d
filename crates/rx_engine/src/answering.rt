// Does what a line was judged to be, and answers it.
ghost use Rattle.std.specs.Prelude.{◌≡◌, ◌≤◌, ◌++◌, ℕ, List, [], Some, None, false, length, IfOk, IsErrOf, string_bytes};
ghost use Rattle.rx_handler.specs.Shown.{kinds_of};
ghost use Rattle.rx_outside.specs.declared.stop.Stop.TheVariants as Stop;
ghost use Rattle.rx_reply.specs.Answer.{turn};
ghost use Rattle.rx_reply.specs.Reply.{answer_lines};
ghost use Rattle.rx_reply.specs.declared.turn.TurnEnd.TheVariants.{Quiet};
ghost use Rattle.rx_session.specs.Doing.{nothing, restart, session_after, MayDo};
ghost use Rattle.rx_session.specs.Emissions.{emissions, settled_session};
ghost use Rattle.rx_sync.specs.Laws.{IsLevel};
ghost use Rattle.rx_sync.specs.Remote.{Heard};
ghost use Rattle.rx_engine.specs.Meaning.{asks_kept, turn_meaning, lines_of, records_of};
ghost use Rattle.rx_engine.specs.Shown.{doing_of, turn_of, WritesNoExchange};
ghost use Rattle.rx_engine.specs.Turning.{CanTurn, turned};

use crate::changing::AfterTurn;
use crate::engine::Engine;
use crate::judging::Printed;
use crate::output::Output;
use crate::turning::Turn;
use rx_disk::Disk;
use rx_handler::Handlers;
use rx_outside::Stop;
use rx_reply::{Exchanged, Reply, TurnEnd};
use rx_value::RxList;
use std::alloc::{AllocError, Global};

impl Engine {
    ghost use Rattle.rx_engine.specs.Engine.{Answers, Commits, IsAt, asks_in, session_of, standing_of};

    /// The engine after what a line does, and the reply with the emissions that are due then.
    pub(crate) fn answer<D: Disk>(
        self,
        alloc: Global,
        disk: &mut D,
        printed: Printed,
    ) -> Result<(Engine, Output), Stop>
        requires at { D.tells → (bodies : List (List ℕ)) × IsAt D.Disk disk.old self bodies }
        requires may { MayDo (doing_of printed.doing) (session_of self) }
        requires apart { WritesNoExchange (doing_of printed.doing) }
        ensures session { IfOk result (λ p. session_of p.0
            ≡ settled_session (session_after (doing_of printed.doing) (session_of self))) }
        ensures asks { IfOk result (λ p. asks_in p.0
            ≡ asks_kept (doing_of printed.doing) (session_of self).world (asks_in self)) }
        ensures text { IfOk result (λ p. string_bytes p.1.text ≡ string_bytes printed.text
            ++ lines_of (emissions (session_after (doing_of printed.doing) (session_of self)))) }
        ensures emitted { IfOk result (λ p. p.1.emissions
            ≡ length (emissions (session_after (doing_of printed.doing) (session_of self)))) }
        ensures refused { IfOk result (λ p. p.1.refused ≡ printed.refused) }
        ensures end { IfOk result (λ p. p.1.end ≡ None) }
        ensures commits { Commits D.Disk disk.old disk.new self
            (records_of (doing_of printed.doing)) (λ p. p.0) result }
        ensures idle_disk { doing_of printed.doing ≡ nothing → disk.new ≡ disk.old }
        ensures idle { doing_of printed.doing ≡ nothing → IfOk result (λ p.
            (session_of p.0 ≡ session_of self) × (string_bytes p.1.text ≡ string_bytes printed.text)
            × (p.1.emissions ≡ 0)) }
        ensures not_journal { IsErrOf result Stop.NotJournal
            → (number : ℕ) × (doing_of printed.doing ≡ restart number) }
    {
        let Printed {
            doing,
            text,
            refused,
        } = printed;
        let (engine, emissions) = self.carry_out(alloc, disk, doing)?;
        let output = Output::new(alloc, text, emissions.as_slice(), refused, None)?;
        Ok((engine, output))
    }

    /// The engine after a turn, and the line of each exchange, that of the turn, and the emissions
    /// that are due then.
    pub(crate) fn answer_turn<D: Disk>(
        self,
        alloc: Global,
        disk: &mut D,
        handlers: &Handlers,
        wanted: &Turn,
        number: u64,
    ) -> Result<(Engine, Output), Stop>
        requires at { D.tells → (bodies : List (List ℕ)) × IsAt D.Disk disk.old self bodies }
        requires batch { 1 ≤ wanted.now.batch }
        requires can { CanTurn (kinds_of handlers.now) (session_of self) wanted.now.name }
        ensures answers { (heard : List Heard)
            → IfOk result (λ p. Answers (kinds_of handlers.now) heard
            (turn_meaning number wanted.now.name
            (turned (turn_of wanted.now) (standing_of (kinds_of handlers.now) heard self))
            (standing_of (kinds_of handlers.now) heard self)) p.0 p.1) }
        ensures commits { Commits D.Disk disk.old disk.new self
            (turned (turn_of wanted.now) (standing_of (kinds_of handlers.now) [] self)).records
            (λ p. p.0) result }
        ensures quiet { IfOk result (λ p.
            (turned (turn_of wanted.now) (standing_of (kinds_of handlers.now) [] self)).ended
            ≡ Quiet
            → IsLevel (session_of p.0).world wanted.now.name) }
        ensures not_journal { IsErrOf result Stop.NotJournal → ⊥ }
    {
        let made = self.make_turn(alloc, disk, handlers, wanted)?;
        let answered = made.answer(alloc, number)?;
        Ok(answered)
    }
}

impl AfterTurn {
    /// The engine, and the line of each exchange, that of the turn, and the emissions that are due.
    pub(crate) fn answer(self, alloc: Global, number: u64) -> Result<(Engine, Output), AllocError>
        ensures engine { IfOk result (λ p. p.0 ≡ self.engine) }
        ensures text { IfOk result (λ p. string_bytes p.1.text
            ≡ answer_lines number (turn self.exchanges self.ended)
            ++ lines_of self.emissions.items) }
        ensures emissions { IfOk result (λ p. p.1.emissions ≡ length self.emissions.items) }
        ensures refused { IfOk result (λ p. p.1.refused ≡ false) }
        ensures end { IfOk result (λ p. p.1.end ≡ Some self.ended) }
    {
        let AfterTurn {
            engine,
            emissions,
            exchanges,
            ended,
        } = self;
        let text = turn_lines(alloc, exchanges, ended, number)?;
        let output = Output::new(alloc, text, emissions.as_slice(), false, Some(ended))?;
        Ok((engine, output))
    }
}

// The line of each exchange of a turn, and the turn's own.
fn turn_lines(
    alloc: Global,
    exchanges: RxList<Exchanged>,
    end: TurnEnd,
    number: u64,
) -> Result<String, AllocError>
    ensures { IfOk result (λ text. string_bytes text ≡ answer_lines number (turn exchanges end)) }
{
    let reply = Reply::Turn { exchanges, end };
    reply.lines(alloc, number)
}
