ghost use Rattle.std.specs.Prelude.{◌≡◌};
ghost use Rattle.rx_query.specs.Order.{sort_cmp, sorts_cmp};

use rx_value::{Fields, RxText, order};
use std::cmp::Ordering;

fn compare_by(name: &str, desc: bool, a: &Fields, b: &Fields) -> Ordering
    ensures { result ≡ sort_cmp name.now desc a.now b.now }
{
    let rising = order(a.get(name), b.get(name));
    if desc { rising.reverse() } else { rising }
}

// By fields in turn, each perhaps reversed.
pub(crate) fn compare(sorts: &[(RxText, bool)], a: &Fields, b: &Fields) -> Ordering
    ensures { result ≡ sorts_cmp sorts.now a.now b.now }
{
    for (name, desc) in sorts {
        let order = compare_by(name.as_str(), *desc, a, b);
        if order.is_ne() {
            return order;
        }
    }
    Ordering::Equal
}
