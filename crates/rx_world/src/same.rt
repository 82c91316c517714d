ghost use Rattle.std.specs.Bool.{Decides};
ghost use Rattle.std.specs.Prelude.{◌≡◌};
ghost use Rattle.rx_value.specs.Named.{by_name};
ghost use Rattle.rx_world.specs.Holders.{AreWhole};

use indexmap::IndexMap;
use rx_collection::Holder;

// Whether both hold the same collections in the same order. The name of an entry is that of its
// collection.
pub(crate) fn hold_same<H: Holder>(these: &IndexMap<String, H>, those: &IndexMap<String, H>) -> bool
    requires these { AreWhole H.held H.is_broken these.now.entries }
    requires those { AreWhole H.held H.is_broken those.now.entries }
    ensures { Decides result
        (by_name H.held these.now.entries ≡ by_name H.held those.now.entries) }
{
    let mut others = those.values();
    for this in these.values() {
        let Some(that) = others.next() else {
            return false;
        };
        if !this.collection().is_same(that.collection()) {
            return false;
        }
    }
    others.next().is_none()
}
