ghost use Rattle.std.specs.Prelude.{◌≡◌, ◌∷◌, [], None, IsTrue, IfSome, IfNone};
ghost use Rattle.rx_record.specs.Reading.{is_whole};
ghost use Rattle.rx_record.specs.Rows.{rows_from};

use crate::again::row_again;
use crate::row_view::RowView;

/// The rows of a record that are still to come, by rising key.
#[derive(Clone, Copy, Debug)]
pub struct RowViews<'a> {
    pub(crate) left: u32,
    pub(crate) bytes: &'a [u8],
    ghost whole: { IsTrue (is_whole (rows_from left None bytes.now)) },
}

impl<'a> RowViews<'a> {
    ghost use Rattle.rx_record.specs.Views.{row_in, rows_left};

    /// The next row; none after the last.
    pub fn next(&mut self) -> Option<RowView<'a>>
        ensures some { IfSome result (λ row. rows_left self.old ≡ row_in row ∷ rows_left self.new) }
        ensures none { IfNone result (rows_left self.old ≡ []) }
    {
        if self.left == 0 {
            return None;
        }
        let (row, rest) = row_again(self.bytes);
        *self = RowViews {
            left: self.left - 1,
            bytes: rest,
        };
        Some(row)
    }
}
