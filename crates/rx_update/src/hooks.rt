ghost use Rattle.std.specs.Prelude.{◌≡◌, ◌++◌, ◌∷◌, [], IfOk, OnOk, OnErr, option_map};
ghost use Rattle.rx_value.specs.Due.{Due};
ghost use Rattle.rx_value.specs.Named.{named};
ghost use Rattle.rx_update.specs.Hooks.{room_for};
ghost use Rattle.rx_update.specs.Shown.{hook_kinds};
ghost use Rattle.rx_update.specs.declared.fault.HookFault.TheVariants.{Memory};

use crate::fault::HookFault;
use crate::hook::Hook;
use crate::kind::HookKind;
use rx_value::RxText;
use std::alloc::{AllocError, Global};

/// Hooks by name, in the order of adding. There are few, so one is looked for in turn.
#[derive(Drop)]
pub struct Hooks {
    held: Vec<Hook>,
}

impl Hooks {
    pub fn new(alloc: Global) -> Hooks
        ensures { hook_kinds result ≡ [] }
    {
        Hooks {
            held: Vec::new(alloc),
        }
    }

    /// Adds a hook at the end. A name is there once.
    pub fn add(&mut self, hook: Hook) -> Result<(), HookFault>
        ensures exact { Due Memory result (room_for hook.name (hook_kinds self.old)) }
        ensures ok { OnOk result (hook_kinds self.new
            ≡ hook_kinds self.old ++ (hook.name, hook.kind) ∷ []) }
        ensures err { OnErr result (hook_kinds self.new ≡ hook_kinds self.old) }
    {
        if self.find(hook.name().as_str()).is_some() {
            return Err(HookFault::Twice(hook.into_name()));
        }
        match self.held.push(hook) {
            Ok(()) => Ok(()),
            Err(refused) => Err(AllocError::from(refused).into()),
        }
    }

    /// The names and kinds of all, in the order of adding.
    pub fn known(&self, alloc: Global) -> Result<Vec<(RxText, HookKind)>, AllocError>
        ensures { IfOk result (λ known. known.items ≡ hook_kinds self.now) }
    {
        let mut known = Vec::with_capacity(alloc, self.held.len())?;
        for hook in &self.held {
            known.push((hook.name().copy(alloc)?, hook.kind()))?;
        }
        Ok(known)
    }

    /// The hook of that name.
    pub fn find(&self, name: &str) -> Option<&Hook>
        ensures { option_map (λ h. h.now.kind) result ≡ named (hook_kinds self.now) name.now }
    {
        for hook in &self.held {
            if name == hook.name().as_str() {
                return Some(hook);
            }
        }
        None
    }
}
