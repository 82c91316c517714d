ghost use Rattle.std.specs.Prelude.{◌≡◌};
ghost use Rattle.rx_observe.specs.Rows.{same_row, same_rows};

use rx_query::{Results, Row};

fn is_same_row(x: &Row, y: &Row) -> bool
    ensures { result ≡ same_row x.now y.now }
{
    x.id == y.id && x.fields == y.fields
}

#[tactic(auto, using(crate::proofs::Unseen::rows_agree, crate::proofs::Unseen::rows_differ))]
pub(crate) fn are_same_rows(x: &Results, y: &Results) -> bool
    ensures { result ≡ same_rows x.now y.now }
{
    if x.len() != y.len() {
        return false;
    }
    for i in 0..x.len() {
        if !is_same_row(x.row(i), y.row(i)) {
            return false;
        }
    }
    true
}
