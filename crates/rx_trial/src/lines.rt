// The lines of a script, one after another.
ghost use Rattle.std.specs.Prelude.{◌≡◌, [], ◌∷◌, Some, IfSome, IfNone, slice_get};
ghost use Rattle.rx_trial.specs.Lines.{lines_left, opening};

use crate::drawing;
use crate::line::{Line, Side};

/// The lines that are left.
#[derive(Clone, Copy, Debug)]
pub(crate) struct Lines {
    /// How many lines of the opening were given.
    pub(crate) given: usize,
    /// How many lines are to be drawn, and from what state.
    pub(crate) left: u32,
    pub(crate) state: u64,
    /// Whether the last line was given.
    pub(crate) ended: bool,
}

impl Lines {
    /// Takes the first of them.
    pub(crate) fn next(&mut self) -> Option<Line>
        ensures line { IfSome result (λ line. lines_left self.old ≡ line ∷ lines_left self.new) }
        ensures end { IfNone result ((lines_left self.old ≡ []) × (lines_left self.new ≡ [])) }
    {
        if let Some(line) = opening_line(self.given) {
            self.given += 1;
            return Some(line);
        }
        if self.left > 0 {
            self.left -= 1;
            return Some(drawing::line(&mut self.state));
        }
        if self.ended {
            return None;
        }
        self.ended = true;
        Some(Line::LastTurn)
    }
}

fn opening_line(i: usize) -> Option<Line>
    ensures { result ≡ slice_get opening i }
{
    match i {
        0 => Some(Line::Collection(Side::Master)),
        1 => Some(Line::Collection(Side::Fork)),
        2 => Some(Line::Replicate),
        3 => Some(Line::ObserveFork),
        4 => Some(Line::ObserveMaster),
        _ => None,
    }
}
