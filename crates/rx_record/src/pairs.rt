ghost use Rattle.std.specs.Prelude.{◌≡◌, None, option_map, IfOk, IsTrue};
ghost use Rattle.rx_record.specs.Reading.{Reads, is_whole, Skips};
ghost use Rattle.rx_record.specs.Fields.{pair_of, pairs_of, fields_of};
ghost use Rattle.rx_record.specs.Views.{pair_in, fields_in};

use crate::pair_view::PairView;
use crate::reading::{Read, read_count, read_text_above};
use crate::value_view::read_value;

pub(crate) fn read_pair<'a>(last: Option<&str>, bytes: &'a [u8]) -> Read<'a, PairView<'a>>
    ensures { Reads pair_in result (pair_of (option_map (λ t. t.now) last.entry) bytes.now) }
{
    let (name, rest) = read_text_above(last, bytes)?;
    let (value, rest) = read_value(rest)?;
    Ok((PairView { name, value }, rest))
}

// The bytes after so many pairs.
fn skip_pairs(count: u32, bytes: &[u8]) -> Result<&[u8], usize>
    ensures { Skips result (pairs_of count None bytes.now) }
{
    let mut left = count;
    let mut last = None;
    let mut rest = bytes;
    while left > 0 {
        let (pair, behind) = read_pair(last, rest)?;
        left -= 1;
        last = Some(pair.name);
        rest = behind;
    }
    Ok(rest)
}

// The bytes of fields, from their count on.
pub(crate) fn read_fields(bytes: &[u8]) -> Read<'_, &[u8]>
    ensures exact { Reads (λ fields. fields_in fields.now) result (fields_of bytes.now) }
    ensures whole { IfOk result (λ p. IsTrue (is_whole (fields_of p.0.now))) }
{
    let (count, pairs) = read_count(bytes)?;
    let rest = skip_pairs(count, pairs)?;
    Ok((&bytes[..bytes.len() - rest.len()], rest))
}
