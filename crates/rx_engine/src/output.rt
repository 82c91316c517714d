// What a line is answered.
ghost use Rattle.std.specs.Prelude.{◌≡◌, ◌++◌, length, IfOk, OnOk, string_bytes};
ghost use Rattle.rx_engine.specs.Meaning.{lines_of};

use rx_observe::Emission;
use rx_reply::{TurnEnd, emission_line};
use std::alloc::{AllocError, Global};

/// What a line is answered: its reply and the emissions after it, each ended by a line feed.
#[derive(Debug, Drop)]
pub struct Output {
    pub text: String,
    /// How many of the lines are emissions.
    pub emissions: usize,
    pub refused: bool,
    /// How the turn ended, where the line made one.
    pub end: Option<TurnEnd>,
}

impl Output {
    /// The lines of a reply, and those of the emissions after it.
    pub(crate) fn new(
        alloc: Global,
        reply: String,
        emissions: &[Emission],
        refused: bool,
        end: Option<TurnEnd>,
    ) -> Result<Output, AllocError>
        ensures text { IfOk result (λ o. string_bytes o.text
            ≡ string_bytes reply ++ lines_of emissions.now) }
        ensures emissions { IfOk result (λ o. o.emissions ≡ length emissions.now) }
        ensures refused { IfOk result (λ o. o.refused ≡ refused) }
        ensures end { IfOk result (λ o. o.end ≡ end) }
    {
        let mut text = reply;
        add_lines(alloc, emissions, &mut text)?;
        Ok(Output {
            text,
            emissions: emissions.len(),
            refused,
            end,
        })
    }
}

// Adds the line of each emission to the text.
fn add_lines(alloc: Global, emissions: &[Emission], text: &mut String) -> Result<(), AllocError>
    ensures { OnOk result (string_bytes text.new
        ≡ string_bytes text.old ++ lines_of emissions.now) }
{
    for emission in emissions {
        let line = emission_line(alloc, emission.name.as_str(), emission.rows.as_results())?;
        text.push_str(line.as_str())?;
    }
    Ok(())
}
