ghost use Rattle.std.specs.Prelude.{◌≡◌, ◌==◌, if◌then◌else◌, EachIndex, slice_index};
ghost use Rattle.rx_tree.specs.Table.{AreThemselves};

/// How many collections there may be.
pub const MOST_COLLECTIONS: usize = 64;

// The root of each collection. At first each is its own.
pub(crate) fn own_roots() -> [u32; MOST_COLLECTIONS]
    ensures { AreThemselves result }
{
    let mut roots = [0; MOST_COLLECTIONS];
    for i in 0..MOST_COLLECTIONS {
        roots[i] = i as u32;
    }
    roots
}

// All that have the one root have the other.
pub(crate) fn join(roots: &mut [u32], under: u32, top: u32)
    ensures { EachIndex roots.new (λ n. slice_index roots.new n
        ≡ (if slice_index roots.old n == under then top else slice_index roots.old n)) }
{
    for root in roots.iter_mut() {
        if *root == under {
            *root = top;
        }
    }
}
