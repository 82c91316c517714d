ghost use Rattle.std.specs.Prelude.{◌≡◌, IfOk, IfErr, option_map};
ghost use Rattle.rx_value.specs.Named.{named, AreRising};
ghost use Rattle.rx_value.specs.Place.{StandsAt, BelongsAt};

use crate::comparing::is_same;
use crate::rx_text::RxText;

// Where a name stands among pairs of rising names, or, as an `Err`, where it belongs.
pub(crate) fn place<T>(pairs: &[(RxText, T)], name: &str) -> Result<usize, usize>
    requires { AreRising pairs.now }
    ensures found { IfOk result (StandsAt pairs.now name.now) }
    ensures absent { IfErr result (BelongsAt pairs.now name.now) }
{
    pairs.binary_search_by(|pair| pair.0.compare(name))
}

// The thing of a name, by a look at one pair after another. Few are soon looked through, since two
// texts of other lengths are told apart at once.
pub(crate) fn named_among<'a, T>(pairs: &'a [(RxText, T)], name: &str) -> Option<&'a T>
    ensures { option_map (λ t. t.now) result ≡ named pairs.now name.now }
{
    for pair in pairs {
        if is_same(name, pair.0.as_str()) {
            return Some(&pair.1);
        }
    }
    None
}
