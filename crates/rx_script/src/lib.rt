//! The lines of a script: what each one asks, or why it asks nothing.
//!
//! A line is an object. Its member `do` says what it asks:
//!
//! | `do` | members |
//! |---|---|
//! | `collection` | `name`, `schema` |
//! | `insert` | `in`, `doc` |
//! | `bulk` | `in`, `docs` |
//! | `upsert` | `in`, `doc` |
//! | `patch` | `in`, `key`, `set`, and maybe `rev` |
//! | `update` | `in`, `key`, `update`, and maybe `rev` |
//! | `remove` | `in`, `key`, and maybe `rev` |
//! | `hook` | `in`, `when`, `hook`, `field` |
//! | `migrate` | `in`, `schema`, `steps` |
//! | `get` | `in`, `key` |
//! | `find` | `in`, `query` |
//! | `count` | `in`, `query` |
//! | `observe` | `name`, `in`, `query` |
//! | `unobserve` | `name` |
//! | `explain` | `name` |
//! | `replicate` | `name`, `fork`, `master` or `port`, `handler`, and maybe `field` |
//! | `turn` | `name`, and maybe `batch`, `budget` and `link` |
//! | `sweep` | `name`, and maybe `batch` and `budget` |
//! | `stream` | `name` |
//! | `deliver` | `name`, and maybe `link` |
//! | `unstream` | `name` |
//! | `changes` | `in`, and maybe `since` and `batch` |
//! | `tick` | `at` |
//! | `restart` | |
//! | `digest` | `in` |
//!
//! `in`, `name`, `fork` and `master` are names, `key`, `rev`, `hook`, `handler` and `field` are
//! texts, `doc`, `set` and `update` are objects, `docs` is a list of objects, `when` is one of the
//! texts `insert`, `save` and `remove`, `steps` is a list of at most 64 steps of a migration, `at`
//! is a whole number from 0 to 2^53 - 1, and `schema` and `query` are any JSON. `since` is an
//! object of exactly the text `id` and a number `lwt` such as `at`. `port` is a whole number from 1
//! to 65,535, and stands only where `master` doesn't. `batch` and `budget` are whole numbers, 100
//! and 1,000 where they are missing. `link` is a list of what happens to the exchanges of a turn,
//! each one of the texts `ok`, `lose_request`, `lose_reply`, `twice` and `stale`, or an object of
//! exactly the member `late`, a whole number from 1 to 16. The `link` of `deliver` is a list of
//! what happens to queued events, each one of the texts `ok`, `lose`, `twice` and `later`.
//!
//! The first fault counts: the line's length, its JSON, that it is an object; then `do`; then
//! whether a member is missing, in the order of the table, where `master` is one unless `port` is
//! there, or is none of these, by its bytes; then the kinds of the members in the order of the
//! table, then the names in that order, and last whether a batch is from 1 to 100 and a budget
//! from 1 to 100,000.
#![tactic(auto)]

mod delivery;
mod fault;
mod form;
mod forms;
mod happening;
mod line;
mod link;
mod member;
mod since;
mod target;

pub use delivery::Delivery;
pub use fault::LineFault;
pub use happening::Happening;
pub use line::{Line, MAX_BATCH, MAX_BUDGET, MAX_LINE_BYTES, USUAL_BUDGET};
pub use since::Since;
pub use target::Target;
