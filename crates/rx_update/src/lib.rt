//! Changes by operators, and hooks: what becomes of a document's fields, and the stored calls that
//! stand before a local write.
#![tactic(auto)]

mod attached;
mod fault;
mod hook;
mod hooks;
mod kind;
mod operands;
mod operation;
mod reading;
mod update;

pub use attached::{Attached, Attachments, MAX_HOOKS, When, attached_laws, run_hooks};
pub use fault::{HookFault, UpdateFault, VetoFault};
pub use hook::Hook;
pub use hooks::Hooks;
pub use kind::{HookKind, hook_laws, hooked};
pub use operation::Operation;
pub use update::{Update, update_laws};
