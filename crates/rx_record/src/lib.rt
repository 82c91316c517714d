//! The records of a journal and their bytes.
//!
//! # Parts
//!
//! All numbers stand with the high byte first.
//!
//! - flag: one byte, 0 for false or 1 for true
//! - count: four bytes
//! - short: two bytes
//! - long: eight bytes
//! - text: a count, and that many bytes of UTF-8
//! - option: a flag, set where there is one, and then the thing
//! - value: byte 0 and a flag; or byte 1 and a whole number from -(2^53 - 1) to 2^53 - 1 in eight
//!   bytes of two's complement; or byte 2 and a text
//! - fields: a count, and that many pairs of a text and a value, the texts rising by their bytes
//! - state: a text, its key; a flag, set where it is deleted; and fields
//! - states: a count, and that many states, the keys rising by their bytes
//! - rows: a count, and that many rows of a long, the height, and a state, the keys rising by their
//!   bytes
//! - place: a long from 1 to 2^53 - 1, the write time, and a text, the key
//! - master: a flag, and then a text, its name, where it isn't set, and a short, its port, where it
//!   is
//! - step: byte 0 and two texts, the names of fields, of which the first is renamed; or byte 1,
//!   such a text and a value, which the field gets where it is missing; or byte 2 and such a text,
//!   of a field that is dropped; or byte 3, such a text and a short from 1 to 1000, by which the
//!   field is scaled
//! - steps: a count of at most 64, and that many steps
//! - documents: a count, and that many of a long, the write time, a long, the height, and a state,
//!   rising by write time and then by the bytes of the key
//!
//! # Bodies
//!
//! The body of a record is the byte of its kind and what the kind says; nothing stands behind it.
//!
//! - 1 collection: two texts, the name and the canonical text of the schema
//! - 2 rows: a text, the collection's name; a long, the last write time; and rows
//! - 3 replication: two texts, its name and the fork's; a master; a text, the handler's name; and
//!   an option of a text, a field's name
//! - 4 exchange: a text, the replication's name; a long, the fork's write time; rows of the fork;
//!   states, which became known; and two options of a place, the checkpoints up and down
//! - 5 epoch: a long, the epoch's number
//! - 6 migration: two texts, a collection's name and the canonical text of its next schema; and
//!   steps
//! - 7 part: a text, a collection's name; and documents
//! - 8 known part: a text, a replication's name; states, which it knows; and two options of a
//!   place, the checkpoints up and down
//! - 9 end: a long, an epoch's number
//!
//! So each record has one spelling. Whether a record is legal on what stands before it, this crate
//! does not say.
#![tactic(auto)]

mod again;
mod at;
mod kinds;
mod known_part;
mod master_view;
mod migration;
mod owning;
mod pair_view;
mod pair_views;
mod pairs;
mod part_rows;
mod part_view;
mod part_views;
mod place_view;
mod reading;
mod record;
mod record_view;
mod row_view;
mod row_views;
mod rows;
mod state_view;
mod state_views;
mod step_list;
mod step_view;
mod value_view;
mod writing;

pub use at::At;
pub use master_view::MasterView;
pub use pair_view::PairView;
pub use pair_views::PairViews;
pub use part_view::PartView;
pub use part_views::PartViews;
pub use place_view::PlaceView;
pub use record::{MasterName, PartRow, Record, RowOut};
pub use record_view::RecordView;
pub use row_view::RowView;
pub use row_views::RowViews;
pub use state_view::StateView;
pub use state_views::StateViews;
pub use value_view::ValueView;
