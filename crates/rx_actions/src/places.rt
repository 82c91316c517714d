ghost use Rattle.std.specs.Prelude.{◌≡◌, ◌<◌, ◌≤◌, ◌^◌, true, Some, length};
ghost use Rattle.std.specs.List.{list_any};
ghost use Rattle.rx_query.specs.QuerySpec.{asked};
ghost use Rattle.rx_query.specs.States.{precedes, is_changed};
ghost use Rattle.rx_actions.specs.Moves.{IsFirst, IsFirstBut};

use rx_document::Change;
use rx_query::{Query, Results};
use rx_value::Fields;

// Where the document's old row stands, which is there.
#[tactic(auto, using(crate::proofs::Firsts::none_any))]
pub(crate) fn old_place(change: &Change, results: &Results) -> usize
    requires { list_any (is_changed change.now) results.now ≡ true }
    ensures within { result < length results.now }
    ensures first { IsFirst (is_changed change.now) results.now result }
{
    for i in 0..results.len() {
        if results.row(i).id == change.id {
            return i;
        }
    }
    unreachable!()
}

// Where the first row stands that such fields precede, or the end, one row aside. Rows may be few,
// and to put one in moves those behind it, so each is looked at.
pub(crate) fn sorted_place(query: &Query, fields: &Fields, results: &Results, out: usize) -> usize
    ensures within { result ≤ length results.now }
    ensures fits { length results.now < 2 ^ 64 }
    ensures first { IsFirstBut (λ row. precedes (asked query.now) fields.now row.fields) results.now
        out result }
{
    for i in 0..results.len() {
        if i != out && query.before(fields, &results.row(i).fields).is_lt() {
            return i;
        }
    }
    results.len()
}
