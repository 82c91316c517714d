// The collection that a line names.
ghost use Rattle.std.specs.Prelude.{◌≡◌, Some, false, IfOk};
ghost use Rattle.rx_value.specs.Due.{DueBy};
ghost use Rattle.rx_value.specs.Named.{named};
ghost use Rattle.rx_world.specs.Valid.{AreValid};
ghost use Rattle.rx_engine.specs.Outcome.{collection_at};
ghost use Rattle.rx_writes.specs.declared.fault.Fault.TheVariants.{Memory};

use rx_collection::{Collection, Holder};
use rx_observe::Live;
use rx_reply::Refusal;
use rx_session::Session;
use rx_value::RxText;
use rx_writes::Fault;
use std::alloc::Global;

/// The collection of a name, which is to be held, with its observed queries.
pub(crate) fn find_live<'a>(
    alloc: Global,
    session: &'a Session,
    coll: &RxText,
) -> Result<&'a Live, Fault>
    ensures exact { DueBy Memory (λ l. l.now.collection) result
        (collection_at coll.now session.now) }
    ensures held { IfOk result (λ l. named session.now.world.collections coll.now
        ≡ Some l.now.collection) }
    ensures called { IfOk result (λ l. l.now.collection.name ≡ coll.now) }
    ensures valid { IfOk result (λ l. AreValid l.now.collection) }
    ensures whole { IfOk result (λ l. l.now.broken ≡ false) }
{
    match session.holder(coll.as_str()) {
        Some(live) => Ok(live),
        None => Err(Fault::Refused(Refusal::NoCollection {
            name: coll.copy(alloc)?,
        })),
    }
}

/// The collection of a name, which is to be held.
pub(crate) fn find_collection<'a>(
    alloc: Global,
    session: &'a Session,
    coll: &RxText,
) -> Result<&'a Collection, Fault>
    ensures exact { DueBy Memory (λ c. c.now) result (collection_at coll.now session.now) }
    ensures held { IfOk result (λ c. named session.now.world.collections coll.now
        ≡ Some c.now) }
    ensures called { IfOk result (λ c. c.now.name ≡ coll.now) }
    ensures valid { IfOk result (λ c. AreValid c.now) }
{
    Ok(find_live(alloc, session, coll)?.collection())
}
