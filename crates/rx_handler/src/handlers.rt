ghost use Rattle.std.specs.Prelude.{◌≡◌, ◌++◌, ◌∷◌, [], IfSome, IsTrue, OnOk, OnErr, option_map};
ghost use Rattle.rx_value.specs.Named.{by_name, named};
ghost use Rattle.rx_handler.specs.Handlers.{are_called, room_for};

use crate::fault::HandlerFault;
use crate::handler::Handler;
use indexmap::IndexMap;
use std::alloc::{AllocError, Global};

/// Handlers by name, in the order of adding.
#[derive(Drop)]
pub struct Handlers {
    alloc: Global,
    held: IndexMap<String, Handler>,
    ghost called: { IsTrue (are_called (λ h. h.name) held.entries) },
}

impl Handlers {
    ghost use Rattle.rx_value.specs.Due.{Due};
    ghost use Rattle.rx_handler.specs.Shown.{kinds_of};
    ghost use Rattle.rx_handler.specs.declared.fault.HandlerFault.TheVariants.{Memory};

    pub fn new(alloc: Global) -> Handlers
        ensures { kinds_of result ≡ [] }
    {
        Handlers {
            alloc,
            held: IndexMap::new(alloc),
        }
    }

    /// Adds a handler at the end. A name is there once.
    pub fn add(&mut self, handler: Handler) -> Result<(), HandlerFault>
        ensures exact { Due Memory result
            (room_for handler.name (kinds_of self.old)) }
        ensures ok { OnOk result (kinds_of self.new
            ≡ kinds_of self.old ++ (handler.name, handler.kind) ∷ []) }
        ensures err { OnErr result (kinds_of self.new ≡ kinds_of self.old) }
    {
        if self.held.contains_key(handler.name().as_str()) {
            return Err(HandlerFault::Twice(handler.into_name()));
        }
        put(self.alloc, &mut self.held, handler)?;
        Ok(())
    }

    /// The handler of that name.
    pub fn find(&self, name: &str) -> Option<&Handler>
        ensures kind { option_map (λ h. h.now.kind) result
            ≡ named (kinds_of self.now) name.now }
        ensures name { IfSome result (λ h. h.now.name ≡ name.now) }
    {
        self.held.get(name)
    }
}

fn put(
    alloc: Global,
    held: &mut IndexMap<String, Handler>,
    handler: Handler,
) -> Result<(), AllocError>
    requires none { named (by_name (λ h. h.kind) held.old.entries) handler.name ≡ None }
    requires called { IsTrue (are_called (λ h. h.name) held.old.entries) }
    ensures called { IsTrue (are_called (λ h. h.name) held.new.entries) }
    ensures ok { OnOk result (by_name (λ h. h.kind) held.new.entries
        ≡ by_name (λ h. h.kind) held.old.entries ++ (handler.name, handler.kind) ∷ []) }
    ensures err { OnErr result (held.new.entries ≡ held.old.entries) }
{
    let name = String::from_str(alloc, handler.name().as_str())?;
    held.insert(name, handler)?;
    Ok(())
}
