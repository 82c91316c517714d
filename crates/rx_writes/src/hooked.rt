// The state that is written after hooks.
ghost use Rattle.std.specs.Prelude.{◌≡◌, Some, IfOk};
ghost use Rattle.rx_value.specs.Due.{Due};
ghost use Rattle.rx_value.specs.Named.{named};
ghost use Rattle.rx_value.specs.declared.value.Value.TheVariants.{Text};
ghost use Rattle.rx_world.specs.Step.{IsValidState};
ghost use Rattle.rx_writes.specs.States.{written_state};
ghost use Rattle.rx_writes.specs.declared.fault.Fault.TheVariants.{Memory};

use crate::documents::check_fields;
use crate::fault::Fault;
use rx_collection::Collection;
use rx_update::{Attached, Hooks, When, run_hooks};
use rx_value::State;
use std::alloc::Global;

/// The state that is written in the place of one: after the hooks that stand before such a write,
/// and valid then.
pub(crate) fn written_state(
    alloc: Global,
    hooks: &Hooks,
    attached: &[Attached],
    collection: &Collection,
    when: When,
    state: State,
) -> Result<State, Fault>
    requires carries { named state.fields collection.now.schema.primary ≡ Some (Text state.key) }
    ensures exact { Due Memory result
        (written_state collection.now when attached.now state) }
    ensures key { IfOk result (λ hooked. hooked.key ≡ state.key) }
    ensures carries { IfOk result (λ hooked.
        named hooked.fields collection.now.schema.primary ≡ Some (Text state.key)) }
    ensures valid { IfOk result (λ hooked. IsValidState collection.now.schema hooked) }
{
    let name = collection.name().as_str();
    let hooked = run_hooks(alloc, hooks, attached, name, when, state)?;
    check_fields(alloc, collection.schema(), &hooked.fields)?;
    Ok(hooked)
}
