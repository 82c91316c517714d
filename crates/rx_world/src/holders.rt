// Other holders for the same collections.
ghost use Rattle.std.specs.List.{AllByRecursion, IsDistinct};
ghost use Rattle.std.specs.Map.{keys_of};
ghost use Rattle.std.specs.Prelude.{◌≡◌, false, Ok, IfOk};
ghost use Rattle.std.specs.Str.{bytes_eq};
ghost use Rattle.rx_collection.specs.declared.holder.Plain.{Plain as SeenPlain};
ghost use Rattle.rx_value.specs.Named.{by_bytes, by_name};
ghost use Rattle.rx_world.specs.Holders.{AreMadeFor, AreWhole, holders_in, world_in};

use crate::names::add;
use crate::parts::Parts;
use crate::world::World;
use indexmap::IndexMap;
use rx_collection::{Collection, Holder, Plain};
use std::alloc::{AllocError, Global};

/// The same world, each collection of it in a holder that is made of it.
pub fn with_holders<H: Holder + Drop, F: Fn(Collection) -> Result<H, AllocError>>(
    alloc: Global,
    world: World<Plain>,
    make: &F,
) -> Result<World<H>, AllocError>
    requires callable { F.IsAlwaysCallable make.now }
    requires makes { (c : _) (r : _) → F.post make.now c r
        → IfOk r (λ h. (H.held h ≡ c) × (H.is_broken h ≡ false)) }
    ensures same { IfOk result (λ w. world_in H.held w
        ≡ world_in (λ (p : SeenPlain). p.collection) world) }
    ensures made { IfOk result
        (λ w. AreMadeFor (λ c h. F.post make.now c (Ok h)) (holders_in w)) }
{
    let Parts {
        holders,
        replications,
        epoch,
    } = world.parts;
    let parts = Parts {
        holders: make_all(alloc, holders, make)?,
        replications,
        epoch,
    };
    Ok(World { parts })
}

fn make_all<H: Holder + Drop, F: Fn(Collection) -> Result<H, AllocError>>(
    alloc: Global,
    plain: IndexMap<String, Plain>,
    make: &F,
) -> Result<IndexMap<String, H>, AllocError>
    requires callable { F.IsAlwaysCallable make.now }
    requires makes { (c : _) (r : _) → F.post make.now c r
        → IfOk r (λ h. (H.held h ≡ c) × (H.is_broken h ≡ false)) }
    requires whole { AreWhole (λ (p : SeenPlain). p.collection) (λ (p : SeenPlain). p.broken)
        plain.entries }
    requires distinct { IsDistinct bytes_eq
        (keys_of (by_name (λ (p : SeenPlain). p.collection) plain.entries)) }
    ensures held { IfOk result (λ all. by_name H.held all.entries
        ≡ by_name (λ (p : SeenPlain). p.collection) plain.entries) }
    ensures whole { IfOk result (λ all. AreWhole H.held H.is_broken all.entries) }
    ensures made { IfOk result
        (λ all. AreMadeFor (λ c h. F.post make.now c (Ok h)) (by_bytes all.entries)) }
{
    let mut all = IndexMap::new(alloc);
    for entry in plain {
        let (name, plain) = entry;
        let holder = make(plain.collection)?;
        add(&mut all, name, holder)?;
    }
    Ok(all)
}
