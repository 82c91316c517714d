ghost use Rattle.std.specs.Prelude.{◌≡◌, ◌∷◌, [], None, Ok, IsTrue, IfSome, IfNone};
ghost use Rattle.rx_record.specs.Reading.{rest_after, is_read};
ghost use Rattle.rx_record.specs.Fields.{pairs_of, fields_of};

use crate::again::pair_again;
use crate::pair_view::PairView;
use crate::reading::read_count;

/// The fields that are still to come, by rising name.
#[derive(Clone, Copy, Debug)]
pub struct PairViews<'a> {
    pub(crate) left: u32,
    pub(crate) bytes: &'a [u8],
    ghost read: { IsTrue (is_read (pairs_of left None bytes.now)) },
}

impl<'a> PairViews<'a> {
    ghost use Rattle.rx_record.specs.Views.{end_of, pair_in, pairs_left, fields_in};

    pub(crate) fn new(fields: &'a [u8]) -> PairViews<'a>
        requires { IsTrue (is_read (fields_of fields.now)) }
        ensures pairs { pairs_left result ≡ fields_in fields.now }
        ensures end { end_of result ≡ rest_after (fields_of fields.now) }
    {
        let Ok((left, bytes)) = read_count(fields) else {
            unreachable!()
        };
        PairViews { left, bytes }
    }

    /// The next field; none after the last.
    pub fn next(&mut self) -> Option<PairView<'a>>
        ensures some { IfSome result
            (λ pair. pairs_left self.old ≡ pair_in pair ∷ pairs_left self.new) }
        ensures none { IfNone result (pairs_left self.old ≡ []) }
        ensures end { end_of self.new ≡ end_of self.old }
        ensures last { IfNone result (end_of self.old ≡ Ok self.new.bytes.now) }
    {
        if self.left == 0 {
            return None;
        }
        let (pair, rest) = pair_again(self.bytes);
        *self = PairViews {
            left: self.left - 1,
            bytes: rest,
        };
        Some(pair)
    }
}
