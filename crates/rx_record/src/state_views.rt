ghost use Rattle.std.specs.Prelude.{◌≡◌, ◌∷◌, [], None, IsTrue, IfSome, IfNone};
ghost use Rattle.rx_record.specs.Reading.{is_whole};
ghost use Rattle.rx_record.specs.Rows.{states_from};

use crate::again::state_again;
use crate::state_view::StateView;

/// The known states of a record that are still to come, by rising key.
#[derive(Clone, Copy, Debug)]
pub struct StateViews<'a> {
    pub(crate) left: u32,
    pub(crate) bytes: &'a [u8],
    ghost whole: { IsTrue (is_whole (states_from left None bytes.now)) },
}

impl<'a> StateViews<'a> {
    ghost use Rattle.rx_record.specs.Views.{state_in, states_left};

    /// The next state; none after the last.
    pub fn next(&mut self) -> Option<StateView<'a>>
        ensures some { IfSome result
            (λ state. states_left self.old ≡ state_in state ∷ states_left self.new) }
        ensures none { IfNone result (states_left self.old ≡ []) }
    {
        if self.left == 0 {
            return None;
        }
        let (state, rest) = state_again(self.bytes);
        *self = StateViews {
            left: self.left - 1,
            bytes: rest,
        };
        Some(state)
    }
}
