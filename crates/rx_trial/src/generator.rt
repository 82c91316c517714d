// The script of a trial, line after line.
ghost use Rattle.std.specs.Prelude.{◌≡◌, [], ◌∷◌, IfOk, IfSome, IfNone, OnErr};
ghost use Rattle.rx_trial.specs.Lines.{script};

use crate::lines::Lines;
use crate::printing::text;
use rx_value::RxText;
use std::alloc::{AllocError, Global};
use std::marker::Model;

/// The lines of a script that are left: six, and so many between the first five and the last as
/// were asked for, drawn from the seed.
#[derive(Debug, Drop)]
pub struct Generator {
    lines: Lines,
}

impl Model for Generator {
    ghost use Rattle.std.specs.Prelude.{List, ℕ, map};
    ghost use Rattle.rx_trial.specs.Lines.{lines_left};
    ghost use Rattle.rx_trial.specs.Printing.{text};

    ghost Value = { List (List ℕ) };

    ghost view = { λ g. map text (lines_left g.lines) };
}

impl Generator {
    pub fn new(seed: u64, count: u32) -> Generator
        ensures { result ≡ script seed count }
    {
        Generator {
            lines: Lines {
                given: 0,
                left: count,
                state: seed,
                ended: false,
            },
        }
    }

    /// Takes the next line off.
    pub fn next(&mut self, alloc: Global) -> Result<Option<RxText>, AllocError>
        ensures line { IfOk result (λ next. IfSome next (λ line. self.old ≡ line ∷ self.new)) }
        ensures end { IfOk result (λ next. IfNone next ((self.old ≡ []) × (self.new ≡ []))) }
        ensures err { OnErr result (self.new ≡ self.old) }
    {
        let mut lines = self.lines;
        let Some(line) = lines.next() else {
            return Ok(None);
        };
        let text = RxText::from_string(alloc, text(alloc, line)?)?;
        self.lines = lines;
        Ok(Some(text))
    }
}
