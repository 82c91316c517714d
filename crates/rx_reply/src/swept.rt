ghost use Rattle.std.specs.Prelude.{◌≡◌, ◌++◌, IfOk, OnOk, string_bytes};
ghost use Rattle.json.specs.Tree.{json_tokens};
ghost use Rattle.serde_json.specs.Written.{outline};
ghost use Rattle.rx_reply.specs.Swept.{pass_word, swept_data, swept_lines};
ghost use Rattle.rx_reply.specs.Turn.{exchange_lines};
ghost use Rattle.rx_reply.specs.Writing.{output_line};

use crate::turn::{Exchanged, TurnEnd, add_exchanges};
use crate::writing::{finish_line, line_after, put_number, put_text};
use json::Writer;
use rx_value::{RxList, RxText};
use std::alloc::{AllocError, Global};

/// A turn of a sweep, and what it came to.
#[derive(Debug, Drop)]
pub struct Swept {
    pub pass: Pass,
    /// The name of its replication.
    pub name: RxText,
    pub exchanges: RxList<Exchanged>,
    pub end: TurnEnd,
}

/// On which of its two ways through a tree a sweep makes a turn.
#[derive(Debug, Clone, Copy)]
pub enum Pass {
    /// From the forks of forks to the root.
    Up,
    /// From the root to the forks of forks.
    Down,
}

/// The lines of output of a sweep's turns, in that order: of each its exchanges and its own.
pub(crate) fn swept_lines(alloc: Global, turns: &[Swept]) -> Result<String, AllocError>
    ensures { IfOk result (λ t. string_bytes t ≡ swept_lines turns.now) }
{
    let mut text = String::new(alloc);
    for turn in turns {
        text = turn.add_lines(text)?;
    }
    Ok(text)
}

impl Swept {
    // Adds its lines to a text.
    fn add_lines(&self, text: String) -> Result<String, AllocError>
        ensures { IfOk result (λ t. string_bytes t ≡ string_bytes text
            ++ exchange_lines 1 self.now.exchanges ++ output_line (swept_data self.now)) }
    {
        let exchanged = add_exchanges(text, self.exchanges.as_slice())?;
        let mut writer = line_after(exchanged);
        self.put(&mut writer)?;
        finish_line(writer)
    }

    fn put(&self, writer: &mut Writer) -> Result<(), AllocError>
        ensures tokens { OnOk result (writer.new.tokens
            ≡ writer.old.tokens ++ json_tokens (outline (swept_data self.now))) }
        ensures before { writer.new.before ≡ writer.old.before }
    {
        writer.begin_object()?;
        put_text(writer, "end", self.end.word())?;
        put_number(writer, "exchanges", self.exchanges.len() as u64)?;
        put_text(writer, "pass", self.pass.word())?;
        put_text(writer, "replication", self.name.as_str())?;
        writer.end_object()
    }
}

impl Pass {
    fn word(&self) -> &'static str
        ensures { result.now ≡ pass_word self.now }
    {
        match self {
            Pass::Up => "up",
            Pass::Down => "down",
        }
    }
}
