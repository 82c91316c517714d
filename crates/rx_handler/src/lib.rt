//! Handlers of conflicts: what becomes of a document that the fork and its master wrote apart from
//! one another, by the name under which a replication asks for it.
#![tactic(auto)]

mod fault;
mod handler;
mod handlers;
mod kind;
mod resolve;

pub use fault::HandlerFault;
pub use handler::Handler;
pub use handlers::Handlers;
pub use kind::HandlerKind;
pub use resolve::{resolve_laws, resolved};
