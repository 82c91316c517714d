// What the lines of a script come to.
ghost use Rattle.std.specs.Prelude.{◌≡◌, ◌+◌, ◌-◌, ◌<◌, ◌≤◌, ◌^◌, None, IfSome, IfNone, IfOk, option_map, string_bytes};
ghost use Rattle.rx_engine.specs.Engine.{session_of};
ghost use Rattle.rx_reply.specs.Turn.{end_word};
ghost use Rattle.rx_top.specs.Tally.{summary_text, with_line};

use rx_engine::{Engine, Output};
use rx_reply::TurnEnd;
use rx_trial::{Summary, summary_line};
use rx_value::RxText;
use std::alloc::{AllocError, Global};

/// How many lines there were, how many emissions, how many of the lines were refused, and how the
/// turn of the last one ended, if it made one.
#[derive(Clone, Copy, Debug)]
pub(crate) struct Tally {
    pub(crate) lines: u64,
    pub(crate) emissions: u64,
    pub(crate) refused: u64,
    pub(crate) end: Option<TurnEnd>,
}

impl Tally {
    /// That of no line.
    pub(crate) fn new() -> Tally
        ensures { result ≡ record { lines = 0; emissions = 0; refused = 0; end = None } }
    {
        Tally {
            lines: 0,
            emissions: 0,
            refused: 0,
            end: None,
        }
    }

    /// The tally with a line more, unless the emissions are too many to be counted.
    pub(crate) fn with_line(&self, output: Output) -> Option<Tally>
        requires room { self.now.lines < 2 ^ 64 - 1 }
        requires among { self.now.refused ≤ self.now.lines }
        ensures some { IfSome result (λ t. t ≡ with_line self.now output) }
        ensures none { IfNone result (2 ^ 64 ≤ self.now.emissions + output.emissions) }
    {
        let emissions = self.emissions.checked_add(output.emissions as u64)?;
        Some(Tally {
            lines: self.lines + 1,
            emissions,
            refused: self.refused + u64::from(output.refused),
            end: output.end,
        })
    }

    /// The line that sums it up, with what the engine holds at the end. The engine is dropped.
    pub(crate) fn summary(&self, alloc: Global, engine: Engine) -> Result<String, AllocError>
        ensures { IfOk result (λ text. string_bytes text
            ≡ summary_text self.now (session_of engine).world) }
    {
        self.summary_of(alloc, &engine)
    }

    fn summary_of(&self, alloc: Global, engine: &Engine) -> Result<String, AllocError>
        ensures { IfOk result (λ text. string_bytes text
            ≡ summary_text self.now (session_of engine.now).world) }
    {
        let digest_f = engine.digest(alloc, "f")?;
        let digest_m = engine.digest(alloc, "m")?;
        let end = end_text(alloc, self.end)?;
        let summary = Summary {
            digest_f,
            digest_m,
            emissions: self.emissions,
            end,
            lines: self.lines,
            refused: self.refused,
        };
        let mut text = summary_line(alloc, &summary)?;
        text.push('\n')?;
        Ok(text)
    }
}

// The word of an end, where there is one.
fn end_text(alloc: Global, end: Option<TurnEnd>) -> Result<Option<RxText>, AllocError>
    ensures { IfOk result (λ text. text ≡ option_map end_word end) }
{
    match end {
        Some(end) => Ok(Some(RxText::new(alloc, end_word(end))?)),
        None => Ok(None),
    }
}

fn end_word(end: TurnEnd) -> &'static str
    ensures { result.now ≡ end_word end }
{
    match end {
        TurnEnd::Quiet => "quiet",
        TurnEnd::Lost => "lost",
        TurnEnd::Clock => "clock",
        TurnEnd::More => "more",
    }
}
