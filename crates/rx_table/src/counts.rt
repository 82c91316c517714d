ghost use Rattle.std.specs.Prelude.{◌≡◌};

use crate::action::Action;

/// How many changes a query saw, what the decision table said of them, and how many questions that
/// took. A count stays at its greatest value.
#[derive(Debug, Drop)]
pub struct Counts {
    /// By action, in the order of [`Action`].
    pub by_action: [u64; 15],
    pub changes: u64,
    /// The changes after which the query ran in full.
    pub full: u64,
    /// The questions asked for all changes.
    pub asked: u64,
}

impl Counts {
    ghost use Rattle.rx_table.specs.Counts.{no_counts, counted};

    pub fn new() -> Counts
        ensures { result ≡ no_counts }
    {
        Counts {
            by_action: [0; 15],
            changes: 0,
            full: 0,
            asked: 0,
        }
    }

    /// Counts a change with that action, for which so many questions were asked.
    pub fn count(&mut self, action: Action, asked: u32)
        ensures { self.new ≡ counted action asked self.old }
    {
        let i = action as usize;
        self.by_action[i] = self.by_action[i].saturating_add(1);
        self.changes = self.changes.saturating_add(1);
        if action == Action::RunFullQueryAgain {
            self.full = self.full.saturating_add(1);
        }
        self.asked = self.asked.saturating_add(asked as u64);
    }
}
