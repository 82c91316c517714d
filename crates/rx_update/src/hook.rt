ghost use Rattle.std.specs.Prelude.{◌≡◌, IfOk};
ghost use Rattle.std.specs.Result.{ForOk};
ghost use Rattle.rx_update.specs.Hooked.{hooked};

use crate::kind::HookKind;
use rx_value::{RxText, State};
use std::alloc::{AllocError, Global};

type Call = Box<dyn Fn(Global, &str, &State) -> Result<Option<State>, AllocError>>;

/// A hook: a name, a kind, and a closure that does to a state what the kind says.
#[derive(Drop)]
pub struct Hook {
    name: RxText,
    kind: HookKind,
    call: Call,
    ghost callable: { IsAlwaysCallable call },
    ghost hooks: { (alloc : _) (field : _) (state : _) (r : _) → post call alloc field state r
        → ForOk r (λ s. s ≡ hooked kind field.now state.now) },
}

impl Hook {
    pub fn new(name: RxText, kind: HookKind, call: Call) -> Hook
        requires callable { IsAlwaysCallable call }
        requires hooks { (alloc : _) (field : _) (state : _) (r : _)
            → post call alloc field state r
            → ForOk r (λ s. s ≡ hooked kind field.now state.now) }
        ensures name { result.name ≡ name }
        ensures kind { result.kind ≡ kind }
    {
        Hook { name, kind, call }
    }

    pub fn name(&self) -> &RxText
        ensures { result.now ≡ self.now.name }
    {
        &self.name
    }

    pub fn kind(&self) -> HookKind
        ensures { result ≡ self.now.kind }
    {
        self.kind
    }

    /// Asks the closure for what becomes of the state: nothing, where the write is vetoed.
    pub fn run(
        &self,
        alloc: Global,
        field: &str,
        state: &State,
    ) -> Result<Option<State>, AllocError>
        ensures { IfOk result (λ s. s ≡ hooked self.now.kind field.now state.now) }
    {
        (self.call)(alloc, field, state)
    }

    pub(crate) fn into_name(self) -> RxText
        ensures { result ≡ self.name }
    {
        let Hook { name, .. } = self;
        name
    }
}
