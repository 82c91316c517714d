ghost use Rattle.std.specs.Prelude.{◌≡◌, IfOk};
ghost use Rattle.std.specs.Result.{ForOk};
ghost use Rattle.rx_handler.specs.Resolve.{resolve};

use crate::kind::HandlerKind;
use rx_value::{RxText, State};
use std::alloc::{AllocError, Global};

type Call = Box<dyn Fn(Global, &str, &State, &State) -> Result<State, AllocError>>;

/// A handler of conflicts: a name, a kind, and a closure that resolves as the kind says.
#[derive(Drop)]
pub struct Handler {
    name: RxText,
    kind: HandlerKind,
    call: Call,
    ghost callable: { IsAlwaysCallable call },
    ghost resolves: { (alloc : _) (field : _) (real : _) (new : _) (r : _)
        → post call alloc field real new r
        → ForOk r (λ s. s ≡ resolve kind field.now real.now new.now) },
}

impl Handler {
    pub fn new(name: RxText, kind: HandlerKind, call: Call) -> Handler
        requires callable { IsAlwaysCallable call }
        requires resolves { (alloc : _) (field : _) (real : _) (new : _) (r : _)
            → post call alloc field real new r
            → ForOk r (λ s. s ≡ resolve kind field.now real.now new.now) }
        ensures name { result.name ≡ name }
        ensures kind { result.kind ≡ kind }
    {
        Handler { name, kind, call }
    }

    pub fn name(&self) -> &RxText
        ensures { result.now ≡ self.now.name }
    {
        &self.name
    }

    pub fn kind(&self) -> HandlerKind
        ensures { result ≡ self.now.kind }
    {
        self.kind
    }

    pub(crate) fn into_name(self) -> RxText
        ensures { result ≡ self.name }
    {
        let Handler { name, .. } = self;
        name
    }

    /// Asks the closure.
    pub fn resolve(
        &self,
        alloc: Global,
        field: &str,
        real: &State,
        new: &State,
    ) -> Result<State, AllocError>
        ensures { IfOk result (λ s. s ≡ resolve self.now.kind field.now real.now new.now) }
    {
        (self.call)(alloc, field, real, new)
    }
}
