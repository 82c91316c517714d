// The orders in which the forks of a tree are gone through.
ghost use Rattle.std.specs.Prelude.{◌≡◌, ◌==◌, IfOk};
ghost use Rattle.rx_tree.specs.Forest.{follows};
ghost use Rattle.rx_tree.specs.Orders.{forks_of, levels_down, levels_up};

use crate::roots::MOST_COLLECTIONS;
use std::alloc::{AllocError, Global};

// So many levels of the forks below a collection, each before those below it.
pub(crate) fn levels_down(
    alloc: Global,
    forks: &[(u32, u32)],
    levels: usize,
    collection: u32,
) -> Result<Vec<u32>, AllocError>
    ensures { IfOk result
        (λ order. order.items ≡ levels_down (forks_of forks.now) levels collection) }
{
    let mut order = Vec::new(alloc);
    if levels == 0 {
        return Ok(order);
    }
    for fork in &forks_of(alloc, forks, collection)? {
        let below = levels_down(alloc, forks, levels - 1, *fork)?;
        order.push(*fork)?;
        order.extend_from_slice(below.as_slice())?;
    }
    Ok(order)
}

// The same levels, each fork after those below it.
pub(crate) fn levels_up(
    alloc: Global,
    forks: &[(u32, u32)],
    levels: usize,
    collection: u32,
) -> Result<Vec<u32>, AllocError>
    ensures { IfOk result
        (λ order. order.items ≡ levels_up (forks_of forks.now) levels collection) }
{
    let mut order = Vec::new(alloc);
    if levels == 0 {
        return Ok(order);
    }
    for fork in &forks_of(alloc, forks, collection)? {
        let below = levels_up(alloc, forks, levels - 1, *fork)?;
        order.extend_from_slice(below.as_slice())?;
        order.push(*fork)?;
    }
    Ok(order)
}

// The forks of a collection, by rising number.
fn forks_of(alloc: Global, forks: &[(u32, u32)], collection: u32) -> Result<Vec<u32>, AllocError>
    ensures { IfOk result (λ found. found.items ≡ forks_of forks.now collection) }
{
    let mut found = Vec::new(alloc);
    for fork in 0..MOST_COLLECTIONS as u32 {
        if follows(forks, fork, collection) {
            found.push(fork)?;
        }
    }
    Ok(found)
}

fn follows(forks: &[(u32, u32)], fork: u32, master: u32) -> bool
    ensures { result ≡ follows ◌==◌ forks.now master fork }
{
    forks.iter().any(|pair| pair.0 == fork && pair.1 == master)
}
