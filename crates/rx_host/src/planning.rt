// What a request comes to, before anything is written.
ghost use Rattle.std.specs.Prelude.{◌≡◌, None, Some, IfOk, IfSome, IsErrOf, option_map};
ghost use Rattle.rx_value.specs.Named.{named};
ghost use Rattle.rx_record.specs.Shown.{content};
ghost use Rattle.rx_replication.specs.Master.{body_of, master_then, reply_with};
ghost use Rattle.rx_serve.specs.Answered.{commit_by};
ghost use Rattle.rx_sync.specs.Laws.{MayCome};
ghost use Rattle.rx_wire.specs.Lawful.{IsRequest};
ghost use Rattle.rx_world.specs.World.{World};
ghost use Rattle.rx_host.specs.Planned.{Writes};

use rx_collection::Collection;
use rx_sync::{Handled, handle_by};
use rx_wire::Request;
use rx_world::StepFault;
use std::alloc::Global;

/// What a collection answers to a request, and the record that is to be kept before the reply is
/// given, if there is one.
pub(crate) fn plan(
    alloc: Global,
    collection: &Collection,
    request: &Request,
    now: u64,
) -> Result<Handled, StepFault>
    requires { IsRequest collection.now.schema request.now }
    ensures reply { IfOk result (λ h. h.reply
        ≡ reply_with request.now (body_of collection.now.documents request.now.ask)) }
    ensures written { IfOk result (λ h. Writes collection.now
        (commit_by collection.now request.now.ask now)
        (master_then collection.now request.now.ask now) (option_map content h.written)) }
    ensures may { (w : World) → named w.collections collection.now.name ≡ Some collection.now
        → IfOk result (λ h. IfSome h.written (λ entry. MayCome w (content entry))) }
    ensures clock_end { IsErrOf result StepFault.ClockEnd
        → master_then collection.now request.now.ask now ≡ None }
{
    handle_by(alloc, collection, request, now)
}
