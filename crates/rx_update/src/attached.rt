ghost use Rattle.std.specs.Prelude.{◌≡◌, IfOk};
ghost use Rattle.rx_value.specs.Due.{Due};
ghost use Rattle.rx_update.specs.Attached.{hooked_all, hooked_by, hooked_where, is_when, stands};
ghost use Rattle.rx_update.specs.Attached.{KeepsTexts, KeepsWhich};
ghost use Rattle.rx_update.specs.Hooked.{hooked as hooked_as};
ghost use Rattle.rx_update.specs.declared.fault.VetoFault.TheVariants.{Memory};

use crate::fault::VetoFault;
use crate::hooks::Hooks;
use crate::kind::{HookKind, hooked};
use rx_value::{RxText, State};
use std::alloc::{AllocError, Global};

/// The most hooks that a collection has.
pub const MAX_HOOKS: usize = 16;

/// Before which local writes a hook stands.
#[derive(Debug, Clone, Copy, PartialEq, Eq)]
pub enum When {
    /// Of a key that isn't live.
    Insert,
    /// Of a document that is live, and stays so.
    Save,
    /// Of a document that is removed, before it is marked.
    Remove,
}

/// A hook that stands before the writes of a collection: its name and kind, and the field that it
/// goes by.
#[derive(Debug, Drop)]
pub struct Attached {
    pub coll: RxText,
    pub when: When,
    pub hook: RxText,
    pub kind: HookKind,
    pub field: RxText,
}

/// The hooks that a run knows, by name, and those that stand before its writes, in the order of
/// attaching.
#[derive(Debug, Drop)]
pub struct Attachments {
    pub known: Vec<(RxText, HookKind)>,
    pub attached: Vec<Attached>,
}

impl When {
    pub fn is(self, other: When) -> bool
        ensures { result ≡ is_when self other }
    {
        matches!(
            (self, other),
            (When::Insert, When::Insert) | (When::Save, When::Save) | (When::Remove, When::Remove)
        )
    }
}

/// What becomes of a state by the hooks that stand before such a write of a collection, each on the
/// answer of the one before, in the order of attaching. A veto names its hook. `hooks` has the
/// closures that they call.
pub fn run_hooks(
    alloc: Global,
    hooks: &Hooks,
    attached: &[Attached],
    coll: &str,
    when: When,
    state: State,
) -> Result<State, VetoFault>
    ensures { Due Memory result (hooked_all coll.now when attached.now state) }
{
    let mut state = state;
    for one in attached {
        state = run_where(alloc, hooks, one, coll, when, state)?;
    }
    Ok(state)
}

// The state after a hook, where that stands there.
fn run_where(
    alloc: Global,
    hooks: &Hooks,
    one: &Attached,
    coll: &str,
    when: When,
    state: State,
) -> Result<State, VetoFault>
    ensures { Due Memory result (hooked_where coll.now when one.now state) }
{
    if stands(one, coll, when) {
        run_one(alloc, hooks, one, &state)
    } else {
        Ok(state)
    }
}

fn stands(one: &Attached, coll: &str, when: When) -> bool
    ensures { result ≡ stands coll.now when one.now }
{
    coll == one.coll.as_str() && when.is(one.when)
}

fn run_one(alloc: Global, hooks: &Hooks, one: &Attached, state: &State) -> Result<State, VetoFault>
    ensures { Due Memory result (hooked_by one.now state.now) }
{
    match call(alloc, hooks, one, state)? {
        Some(next) => Ok(next),
        None => Err(VetoFault::Vetoed(one.hook.copy(alloc)?)),
    }
}

// Calls the closure of its name. Hooks that were given for another run have none, or one of another
// kind; what the kind says is done then without one.
fn call(
    alloc: Global,
    hooks: &Hooks,
    one: &Attached,
    state: &State,
) -> Result<Option<State>, AllocError>
    ensures { IfOk result (λ s. s ≡ hooked_as one.now.kind one.now.field state.now) }
{
    match hooks.find(one.hook.as_str()) {
        Some(hook) if hook.kind() == one.kind => hook.run(alloc, one.field.as_str(), state),
        _ => hooked(alloc, one.kind, one.field.as_str(), state),
    }
}

/// States what holds of all hooks together, and does nothing.
pub fn attached_laws()
    ensures which { KeepsWhich }
    ensures texts { KeepsTexts }
{}
