ghost use Rattle.std.specs.Prelude.{◌≡◌, ◌++◌, IfOk, OnOk, string_bytes};
ghost use Rattle.json.specs.Tree.{json_tokens};
ghost use Rattle.serde_json.specs.Written.{outline};
ghost use Rattle.rx_reply.specs.Given.{given_data, given_lines, took_word};
ghost use Rattle.rx_reply.specs.Writing.{output_line};

use crate::writing::{finish_line, line_after, put_number, put_text, put_texts};
use json::Writer;
use rx_value::{RxList, RxText};
use std::alloc::{AllocError, Global};

/// A queued event that came up for delivery, and what came of it.
#[derive(Debug, Drop)]
pub struct Given {
    /// Its number among the events queued at the start, counted from 1. One that is given twice
    /// has it both times.
    pub event: u64,
    /// The keys of its states, in their order.
    pub rows: RxList<RxText>,
    pub took: Took,
}

/// What came of an event.
#[derive(Debug, Clone, Copy)]
pub enum Took {
    /// The fork is past its place.
    Old,
    /// Documents of the fork wait to be pushed.
    Pending,
    /// It doesn't begin where the fork is.
    Gap,
    /// Its commit found no write time.
    Clock,
    /// It is taken.
    Taken,
    /// The link lost it.
    Lost,
    /// The link put it off.
    Later,
}

/// The lines of output of what came of events, in that order.
pub(crate) fn given_lines(alloc: Global, given: &[Given]) -> Result<String, AllocError>
    ensures { IfOk result (λ t. string_bytes t ≡ given_lines given.now) }
{
    let mut text = String::new(alloc);
    for event in given {
        text = event.add_line(text)?;
    }
    Ok(text)
}

impl Given {
    // Adds its line to a text.
    fn add_line(&self, text: String) -> Result<String, AllocError>
        ensures { IfOk result (λ t. string_bytes t
            ≡ string_bytes text ++ output_line (given_data self.now)) }
    {
        let mut writer = line_after(text);
        self.put(&mut writer)?;
        finish_line(writer)
    }

    fn put(&self, writer: &mut Writer) -> Result<(), AllocError>
        ensures tokens { OnOk result (writer.new.tokens
            ≡ writer.old.tokens ++ json_tokens (outline (given_data self.now))) }
        ensures before { writer.new.before ≡ writer.old.before }
    {
        writer.begin_object()?;
        put_number(writer, "event", self.event)?;
        writer.key("rows")?;
        put_texts(writer, self.rows.as_slice())?;
        put_text(writer, "took", self.took.word())?;
        writer.end_object()
    }
}

impl Took {
    fn word(&self) -> &'static str
        ensures { result.now ≡ took_word self.now }
    {
        match self {
            Took::Old => "old",
            Took::Pending => "pending",
            Took::Gap => "gap",
            Took::Clock => "clock",
            Took::Taken => "taken",
            Took::Lost => "lost",
            Took::Later => "later",
        }
    }
}
