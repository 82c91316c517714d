ghost use Rattle.std.specs.Prelude.{◌≡◌};
ghost use Rattle.rx_reply.specs.Form.{form_seen, reason_seen, form_of, document_form, line_form, schema_reason, selector_reason, query_reason, fields_reason, update_reason, cause_word, migration_word};

use crate::form::{Form, Reason};
use rx_query::QueryFault;
use rx_schema::SchemaFault;
use rx_script::LineFault;
use rx_selector::SelectorFault;
use rx_update::UpdateFault;
use rx_value::{RxText, ValueFault};

/// Why a line is refused.
#[derive(Debug, Drop)]
pub enum Refusal {
    /// The line asks nothing.
    Line(LineFault),
    /// The name of an observed query, or of a replication, is taken.
    Exists,
    NoCollection {
        name: RxText,
    },
    Schema(SchemaFault),
    /// The collection, or the master of the fork, is held with another schema.
    SchemaDiffers,
    /// A document can't be written. Of several documents it is the one of that row, counted from 0.
    Document {
        fault: DocumentFault,
        row: Option<u64>,
    },
    NoDocument,
    Query(QueryFault),
    NoQuery,
    NoReplication,
    /// There is no handler of that name, or its field isn't what it takes.
    NoHandler,
    /// The fork can't follow that master.
    Chain,
    /// There is no later write time.
    Clock,
    TooMany,
    /// The key of that row stands in an earlier row.
    Twice {
        row: u64,
    },
    /// The collection and all that local replications join to it can't go to that schema.
    Migration {
        cause: MigrationCause,
        name: RxText,
    },
    /// The query of that name observes one of those collections.
    Observed {
        name: RxText,
    },
    /// One of those collections follows a master elsewhere.
    Remote,
    /// The replication has no open stream.
    NoStream,
    /// It is no update, or can't be made of the document.
    Update(UpdateFault),
    /// A hook vetoes it. Of several documents it is the one of that row.
    Vetoed {
        hook: RxText,
        row: Option<u64>,
    },
    /// There is no hook of that name, or its field isn't what it takes.
    NoHook,
}

/// Why a document can't be written.
#[derive(Debug, Drop)]
pub enum DocumentFault {
    /// It has no fields to read.
    Fields(ValueFault),
    /// Its fields aren't valid.
    Invalid { cause: Cause, name: RxText },
    /// Its primary key is missing, no text, or another one.
    Key,
    /// It is there with that revision, which isn't what the line goes by.
    Conflict { rev: RxText },
}

/// What makes a field invalid.
#[derive(Debug, Drop, Clone, Copy)]
pub enum Cause {
    Missing,
    Unknown,
    Kind,
    Bounds,
    Length,
}

/// Why a collection can't go to a schema.
#[derive(Debug, Drop, Clone, Copy)]
pub enum MigrationCause {
    Version,
    Primary,
    Invalid,
}

impl Refusal {
    pub(crate) fn form(&self) -> Form<'_>
        ensures { form_seen result ≡ form_of self.now }
    {
        match self {
            Refusal::Line(fault) => line_form(fault),
            Refusal::Exists => Form::plain(9, "exists"),
            Refusal::NoCollection { name } => Form::named(10, "no_collection", name),
            Refusal::Schema(fault) => Form::caused(11, "schema", schema_reason(fault)),
            Refusal::SchemaDiffers => Form::plain(12, "schema_differs"),
            Refusal::Document { fault, row } => Form {
                row: *row,
                ..fault.form()
            },
            Refusal::NoDocument => Form::plain(15, "no_document"),
            Refusal::Query(fault) => Form::caused(16, "query", query_reason(fault)),
            Refusal::NoQuery => Form::plain(17, "no_query"),
            Refusal::NoReplication => Form::plain(18, "no_replication"),
            Refusal::NoHandler => Form::plain(19, "no_handler"),
            Refusal::Chain => Form::plain(21, "chain"),
            Refusal::Clock => Form::plain(22, "clock"),
            Refusal::TooMany => Form::plain(23, "too_many"),
            Refusal::Twice { row } => Form {
                row: Some(*row),
                ..Form::plain(25, "twice")
            },
            Refusal::Migration { cause, name } => {
                Form::caused(28, "migration", (cause.word(), Some(name.as_str())))
            }
            Refusal::Observed { name } => Form::named(29, "observed", name),
            Refusal::Remote => Form::plain(30, "remote"),
            Refusal::NoStream => Form::plain(31, "no_stream"),
            Refusal::Update(fault) => Form::caused(32, "update", update_reason(fault)),
            Refusal::Vetoed { hook, row } => Form {
                row: *row,
                ..Form::named(33, "vetoed", hook)
            },
            Refusal::NoHook => Form::plain(34, "no_hook"),
        }
    }
}

impl DocumentFault {
    fn form(&self) -> Form<'_>
        ensures { form_seen result ≡ document_form self.now }
    {
        match self {
            DocumentFault::Fields(fault) => Form::caused(13, "invalid", fields_reason(fault)),
            DocumentFault::Invalid { cause, name } => {
                Form::caused(13, "invalid", (cause.word(), Some(name.as_str())))
            }
            DocumentFault::Key => Form::plain(24, "key"),
            DocumentFault::Conflict { rev } => Form {
                rev: Some(rev.as_str()),
                ..Form::plain(14, "conflict")
            },
        }
    }
}

impl Cause {
    fn word(&self) -> &'static str
        ensures { result.now ≡ cause_word self.now }
    {
        match self {
            Cause::Missing => "missing",
            Cause::Unknown => "unknown",
            Cause::Kind => "kind",
            Cause::Bounds => "bounds",
            Cause::Length => "length",
        }
    }
}

impl MigrationCause {
    fn word(&self) -> &'static str
        ensures { result.now ≡ migration_word self.now }
    {
        match self {
            MigrationCause::Version => "version",
            MigrationCause::Primary => "primary",
            MigrationCause::Invalid => "invalid",
        }
    }
}

// Want of memory is no refusal, so what it would be called is never printed, here and below.
fn line_form(fault: &LineFault) -> Form<'_>
    ensures { form_seen result ≡ line_form fault.now }
{
    match fault {
        LineFault::TooLong => Form::plain(1, "too_long"),
        LineFault::NotJson => Form::plain(2, "not_json"),
        LineFault::NotObject => Form::plain(3, "not_object"),
        LineFault::UnknownDo(name) => Form::named(4, "unknown_do", name),
        LineFault::Missing(name) => Form::named(5, "missing", name),
        LineFault::Unexpected(name) => Form::named(6, "unexpected", name),
        LineFault::WrongType(name) => Form::named(7, "wrong_type", name),
        LineFault::Name(name) => Form::named(8, "name", name),
        LineFault::Batch(name) => Form::named(20, "batch", name),
        LineFault::Memory => Form::plain(0, "memory"),
    }
}

fn schema_reason(fault: &SchemaFault) -> Reason<'_>
    ensures { reason_seen result ≡ schema_reason fault.now }
{
    match fault {
        SchemaFault::NotObject => ("not_object", None),
        SchemaFault::Keyword(name) => ("keyword", Some(name.as_str())),
        SchemaFault::Version => ("version", None),
        SchemaFault::Primary => ("primary", None),
        SchemaFault::FieldName(name) => ("field_name", Some(name.as_str())),
        SchemaFault::Kind(name) => ("kind", Some(name.as_str())),
        SchemaFault::Bounds(name) => ("bounds", Some(name.as_str())),
        SchemaFault::Required(name) => ("required", Some(name.as_str())),
        SchemaFault::Index(name) => ("index", Some(name.as_str())),
        SchemaFault::TooMany => ("too_many", None),
        SchemaFault::Memory => ("memory", None),
    }
}

fn query_reason(fault: &QueryFault) -> Reason<'_>
    ensures { reason_seen result ≡ query_reason fault.now }
{
    match fault {
        QueryFault::NotObject => ("not_object", None),
        QueryFault::Member(name) => ("member", Some(name.as_str())),
        QueryFault::Selector(fault) => selector_reason(fault),
        QueryFault::Sort(name) => ("sort", Some(name.as_str())),
        QueryFault::Skip => ("skip", None),
        QueryFault::Limit => ("limit", None),
        QueryFault::Memory => ("memory", None),
    }
}

fn selector_reason(fault: &SelectorFault) -> Reason<'_>
    ensures { reason_seen result ≡ selector_reason fault.now }
{
    match fault {
        SelectorFault::Operator(name) => ("operator", Some(name.as_str())),
        SelectorFault::Operand(name) => ("operand", Some(name.as_str())),
        SelectorFault::Field(name) => ("field", Some(name.as_str())),
        SelectorFault::Depth => ("depth", None),
        SelectorFault::NotObject => ("not_object", None),
        SelectorFault::Memory => ("memory", None),
    }
}

fn fields_reason(fault: &ValueFault) -> Reason<'_>
    ensures { reason_seen result ≡ fields_reason fault.now }
{
    match fault {
        ValueFault::NotObject => ("kind", None),
        ValueFault::Kind(name) => ("kind", Some(name.as_str())),
        ValueFault::Range(name) => ("range", Some(name.as_str())),
        ValueFault::Memory => ("memory", None),
    }
}

fn update_reason(fault: &UpdateFault) -> Reason<'_>
    ensures { reason_seen result ≡ update_reason fault.now }
{
    match fault {
        UpdateFault::Operator(name) => ("operator", Some(name.as_str())),
        UpdateFault::Operand(name) => ("operand", Some(name.as_str())),
        UpdateFault::Twice(name) => ("twice", Some(name.as_str())),
        UpdateFault::Key(name) => ("key", Some(name.as_str())),
        UpdateFault::Kind(name) => ("kind", Some(name.as_str())),
        UpdateFault::Range(name) => ("range", Some(name.as_str())),
        UpdateFault::Memory => ("memory", None),
    }
}
