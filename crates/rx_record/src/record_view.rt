use crate::at::At;
use crate::kinds::read_record;
use crate::master_view::MasterView;
use crate::owning::{own_place_if_there, own_rows, own_states, own_text_if_there};
use crate::part_rows::own_part_rows;
use crate::part_views::PartViews;
use crate::place_view::PlaceView;
use crate::record::Record;
use crate::row_views::RowViews;
use crate::state_views::StateViews;
use crate::step_list::own_steps;
use rx_value::RxText;
use std::alloc::{AllocError, Global};

/// A record, lent from the bytes of its body.
#[derive(Clone, Copy, Debug)]
pub enum RecordView<'a> {
    Collection {
        name: &'a str,
        schema: &'a str,
    },
    Rows {
        name: &'a str,
        lwt: u64,
        rows: RowViews<'a>,
    },
    Replication {
        name: &'a str,
        fork: &'a str,
        master: MasterView<'a>,
        handler: &'a str,
        field: Option<&'a str>,
    },
    Exchange {
        name: &'a str,
        lwt: u64,
        rows: RowViews<'a>,
        known: StateViews<'a>,
        up: Option<PlaceView<'a>>,
        down: Option<PlaceView<'a>>,
    },
    Epoch {
        number: u64,
    },
    Migration {
        name: &'a str,
        schema: &'a str,
        /// The bytes of the steps, from their count on.
        steps: &'a [u8],
    },
    Part {
        name: &'a str,
        rows: PartViews<'a>,
    },
    KnownPart {
        name: &'a str,
        known: StateViews<'a>,
        up: Option<PlaceView<'a>>,
        down: Option<PlaceView<'a>>,
    },
    End {
        number: u64,
    },
}

impl<'a> RecordView<'a> {
    ghost use Rattle.std.specs.Prelude.{◌≡◌, IfOk};
    ghost use Rattle.rx_record.specs.Content.{content_bytes, record_of};
    ghost use Rattle.rx_record.specs.Shown.{content, content_in, Shows};
    ghost use Rattle.rx_record.specs.Writable.{IsWritable};

    /// The record whose body these bytes are, its texts and rows lent from them. Takes no memory.
    pub fn read(body: &'a [u8]) -> Result<RecordView<'a>, At>
        ensures exact { Shows result (record_of body.now) }
        ensures writable { IfOk result (λ view. IsWritable (content_in view)) }
        ensures spelled { IfOk result (λ view. content_bytes (content_in view) ≡ body.now) }
    {
        match read_record(body) {
            Ok((view, [])) => Ok(view),
            Ok((_, rest)) => Err(At((body.len() - rest.len()) as u64)),
            Err(left) => Err(At((body.len() - left) as u64)),
        }
    }

    /// The record in memory of its own.
    pub fn own(&self, alloc: Global) -> Result<Record, AllocError>
        ensures { IfOk result (λ owned. content owned ≡ content_in self.now) }
    {
        match self {
            RecordView::Collection { name, schema } => Ok(Record::Collection {
                name: RxText::new(alloc, name)?,
                schema: RxText::new(alloc, schema)?,
            }),
            RecordView::Rows { name, lwt, rows } => Ok(Record::Rows {
                name: RxText::new(alloc, name)?,
                lwt: *lwt,
                rows: own_rows(alloc, rows)?,
            }),
            RecordView::Replication {
                name,
                fork,
                master,
                handler,
                field,
            } => Ok(Record::Replication {
                name: RxText::new(alloc, name)?,
                fork: RxText::new(alloc, fork)?,
                master: master.own(alloc)?,
                handler: RxText::new(alloc, handler)?,
                field: own_text_if_there(alloc, *field)?,
            }),
            RecordView::Exchange {
                name,
                lwt,
                rows,
                known,
                up,
                down,
            } => Ok(Record::Exchange {
                name: RxText::new(alloc, name)?,
                lwt: *lwt,
                rows: own_rows(alloc, rows)?,
                known: own_states(alloc, known)?,
                up: own_place_if_there(alloc, up)?,
                down: own_place_if_there(alloc, down)?,
            }),
            RecordView::Epoch { number } => Ok(Record::Epoch { number: *number }),
            RecordView::Migration {
                name,
                schema,
                steps,
            } => Ok(Record::Migration {
                name: RxText::new(alloc, name)?,
                schema: RxText::new(alloc, schema)?,
                steps: own_steps(alloc, steps)?,
            }),
            RecordView::Part { name, rows } => Ok(Record::Part {
                name: RxText::new(alloc, name)?,
                rows: own_part_rows(alloc, rows)?,
            }),
            RecordView::KnownPart {
                name,
                known,
                up,
                down,
            } => Ok(Record::KnownPart {
                name: RxText::new(alloc, name)?,
                known: own_states(alloc, known)?,
                up: own_place_if_there(alloc, up)?,
                down: own_place_if_there(alloc, down)?,
            }),
            RecordView::End { number } => Ok(Record::End { number: *number }),
        }
    }
}
