ghost use Rattle.std.specs.Prelude.{◌≡◌, ◌∷◌, [], None, IsTrue, IfSome, IfNone};
ghost use Rattle.rx_record.specs.Reading.{is_whole};
ghost use Rattle.rx_record.specs.PartRows.{part_rows_from};

use crate::again::part_row_again;
use crate::part_view::PartView;

/// The documents of a part that are still to come, by rising place.
#[derive(Clone, Copy, Debug)]
pub struct PartViews<'a> {
    pub(crate) left: u32,
    pub(crate) bytes: &'a [u8],
    ghost whole: { IsTrue (is_whole (part_rows_from left None bytes.now)) },
}

impl<'a> PartViews<'a> {
    ghost use Rattle.rx_record.specs.Views.{part_row_in, part_rows_left};

    /// The next document; none after the last.
    pub fn next(&mut self) -> Option<PartView<'a>>
        ensures some { IfSome result
            (λ row. part_rows_left self.old ≡ part_row_in row ∷ part_rows_left self.new) }
        ensures none { IfNone result (part_rows_left self.old ≡ []) }
    {
        if self.left == 0 {
            return None;
        }
        let (row, rest) = part_row_again(self.bytes);
        *self = PartViews {
            left: self.left - 1,
            bytes: rest,
        };
        Some(row)
    }
}
