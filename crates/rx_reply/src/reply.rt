ghost use Rattle.std.specs.Prelude.{◌≡◌, ◌++◌, IfOk, OnOk, string_bytes};
ghost use Rattle.json.specs.Tree.{json_tokens};
ghost use Rattle.serde_json.specs.Data.{no_members};
ghost use Rattle.serde_json.specs.Written.{outline};
ghost use Rattle.rx_value.specs.Form.{texts};
ghost use Rattle.rx_reply.specs.Answer as answer;
ghost use Rattle.rx_reply.specs.Answer.{answer_of, rows_of, states_of};
ghost use Rattle.rx_reply.specs.Reply.{line_object, ok_members, written_data, turn_data, sweep_data, deliver_data, answer_data, lines_before, answer_lines, is_refusal};

use crate::explain::put_explain;
use crate::given::{Given, given_lines};
use crate::refusal::Refusal;
use crate::swept::{Swept, swept_lines};
use crate::turn::{Exchanged, TurnEnd, exchange_lines};
use crate::writing::{
    finish_line, line_after, put_maybe_place, put_names, put_number, put_rows, put_states,
    put_text, put_texts,
};
use json::Writer;
use rx_document::{Place, Stored};
use rx_table::Counts;
use rx_value::{RxList, RxText, put_fields};
use std::alloc::{AllocError, Global};

// Room for the line of a usual reply, which then isn't grown step by step.
const ROOM: usize = 128;

/// What a line is answered.
#[derive(Debug, Drop)]
pub enum Reply<'a> {
    /// Whether the collection is new.
    Collection {
        new: bool,
    },
    Insert {
        rev: RxText,
    },
    Upsert {
        rev: RxText,
    },
    Patch {
        rev: RxText,
    },
    Update {
        rev: RxText,
    },
    Remove {
        rev: RxText,
    },
    /// A hook stands before writes from now on.
    Hook,
    /// The collections that went to the schema.
    Migrate {
        collections: Vec<&'a RxText>,
    },
    /// The revisions in the order of the documents.
    Bulk {
        revs: Vec<RxText>,
    },
    Get {
        doc: &'a Stored,
    },
    Find {
        rows: Vec<&'a Stored>,
    },
    Count {
        count: u64,
    },
    Observe,
    /// The query's rows are printed no more.
    Unobserve,
    /// How the changes since the query was observed were answered, also before a restart.
    Explain {
        counts: &'a Counts,
    },
    /// A replication begins.
    Replicate,
    /// The exchanges that a turn made, and how it ended.
    Turn {
        exchanges: RxList<Exchanged>,
        end: TurnEnd,
    },
    /// The turns that a sweep made, and how the last one ended: quiet, where there was none.
    Sweep {
        turns: RxList<Swept>,
        end: TurnEnd,
    },
    /// A stream is opened.
    Stream,
    /// What came of the queued events, whether the fork is level with its master, and whether it
    /// is to pull, as there is what no event can bring it.
    Deliver {
        given: RxList<Given>,
        level: bool,
        resync: bool,
    },
    /// The stream is closed.
    Unstream,
    /// The documents above a place in the order of writing, and the place that they go up to: the
    /// last one's, or the one asked from.
    Changes {
        docs: Vec<&'a Stored>,
        place: Option<Place>,
    },
    Tick,
    /// The epoch that begins.
    Restart {
        epoch: u64,
    },
    /// How many states there are, and what they hash to.
    Digest {
        count: u64,
        digest: RxText,
    },
    Refused(Refusal),
}

impl Reply<'_> {
    pub fn is_refusal(&self) -> bool
        ensures { result ≡ is_refusal (answer_of self.now) }
    {
        matches!(self, Reply::Refused(_))
    }

    /// The lines of output that answer the line of that number: one, and before it one for each
    /// exchange of a turn, for each exchange and turn of a sweep, or for each giving of an event.
    pub fn lines(&self, alloc: Global, number: u64) -> Result<String, AllocError>
        ensures { IfOk result (λ t. string_bytes t ≡ answer_lines number (answer_of self.now)) }
    {
        let mut writer = line_after(self.lines_before(alloc)?);
        self.put(alloc, &mut writer, number)?;
        finish_line(writer)
    }

    fn lines_before(&self, alloc: Global) -> Result<String, AllocError>
        ensures { IfOk result (λ t. string_bytes t ≡ lines_before (answer_of self.now)) }
    {
        match self {
            Reply::Turn { exchanges, .. } => exchange_lines(alloc, exchanges.as_slice()),
            Reply::Sweep { turns, .. } => swept_lines(alloc, turns.as_slice()),
            Reply::Deliver { given, .. } => given_lines(alloc, given.as_slice()),
            _ => String::with_capacity(alloc, ROOM),
        }
    }

    fn put(&self, alloc: Global, writer: &mut Writer, number: u64) -> Result<(), AllocError>
        ensures tokens { OnOk result (writer.new.tokens ≡ writer.old.tokens
            ++ json_tokens (outline (answer_data number (answer_of self.now)))) }
        ensures before { writer.new.before ≡ writer.old.before }
    {
        match self {
            Reply::Collection { new } => put_collection(writer, number, *new),
            Reply::Insert { rev } => put_written(writer, number, "insert", rev),
            Reply::Upsert { rev } => put_written(writer, number, "upsert", rev),
            Reply::Patch { rev } => put_written(writer, number, "patch", rev),
            Reply::Update { rev } => put_written(writer, number, "update", rev),
            Reply::Remove { rev } => put_written(writer, number, "remove", rev),
            Reply::Hook => put_plain(writer, number, "hook"),
            Reply::Migrate { collections } => put_migrate(writer, number, collections.as_slice()),
            Reply::Bulk { revs } => put_bulk(writer, number, revs.as_slice()),
            Reply::Get { doc } => put_get(alloc, writer, number, doc),
            Reply::Find { rows } => put_find(writer, number, rows.as_slice()),
            Reply::Count { count } => put_counted(writer, number, *count),
            Reply::Observe => put_plain(writer, number, "observe"),
            Reply::Unobserve => put_plain(writer, number, "unobserve"),
            Reply::Explain { counts } => put_explain(writer, number, counts),
            Reply::Replicate => put_plain(writer, number, "replicate"),
            Reply::Turn { exchanges, end } => put_turn(writer, number, exchanges.len(), *end),
            Reply::Sweep { turns, end } => put_sweep(writer, number, turns.len(), *end),
            Reply::Stream => put_plain(writer, number, "stream"),
            Reply::Deliver { level, resync, .. } => put_deliver(writer, number, *level, *resync),
            Reply::Unstream => put_plain(writer, number, "unstream"),
            Reply::Changes { docs, place } => put_changes(writer, number, docs.as_slice(), place),
            Reply::Tick => put_plain(writer, number, "tick"),
            Reply::Restart { epoch } => put_restart(writer, number, *epoch),
            Reply::Digest { count, digest } => put_digest(writer, number, *count, digest),
            Reply::Refused(refusal) => refusal.form().put(writer, number),
        }
    }
}

fn put_plain(writer: &mut Writer, number: u64, ok: &str) -> Result<(), AllocError>
    ensures tokens { OnOk result (writer.new.tokens
        ≡ writer.old.tokens
        ++ json_tokens (outline (line_object number (ok_members ok.now no_members)))) }
    ensures before { writer.new.before ≡ writer.old.before }
{
    writer.begin_object()?;
    put_number(writer, "line", number)?;
    put_text(writer, "ok", ok)?;
    writer.end_object()
}

fn put_collection(writer: &mut Writer, number: u64, new: bool) -> Result<(), AllocError>
    ensures tokens { OnOk result (writer.new.tokens
        ≡ writer.old.tokens ++ json_tokens (outline (answer_data number (answer.collection new)))) }
    ensures before { writer.new.before ≡ writer.old.before }
{
    writer.begin_object()?;
    put_number(writer, "line", number)?;
    writer.key("new")?;
    writer.boolean(new)?;
    put_text(writer, "ok", "collection")?;
    writer.end_object()
}

fn put_written(writer: &mut Writer, number: u64, ok: &str, rev: &RxText) -> Result<(), AllocError>
    ensures tokens { OnOk result (writer.new.tokens
        ≡ writer.old.tokens ++ json_tokens (outline (written_data number ok.now rev.now))) }
    ensures before { writer.new.before ≡ writer.old.before }
{
    writer.begin_object()?;
    put_number(writer, "line", number)?;
    put_text(writer, "ok", ok)?;
    put_text(writer, "rev", rev.as_str())?;
    writer.end_object()
}

fn put_migrate(writer: &mut Writer, number: u64, collections: &[&RxText]) -> Result<(), AllocError>
    ensures tokens { OnOk result (writer.new.tokens
        ≡ writer.old.tokens
        ++ json_tokens (outline (answer_data number (answer.migrate (texts collections.now))))) }
    ensures before { writer.new.before ≡ writer.old.before }
{
    writer.begin_object()?;
    writer.key("collections")?;
    put_names(writer, collections)?;
    put_number(writer, "line", number)?;
    put_text(writer, "ok", "migrate")?;
    writer.end_object()
}

fn put_bulk(writer: &mut Writer, number: u64, revs: &[RxText]) -> Result<(), AllocError>
    ensures tokens { OnOk result (writer.new.tokens
        ≡ writer.old.tokens ++ json_tokens (outline (answer_data number (answer.bulk revs.now)))) }
    ensures before { writer.new.before ≡ writer.old.before }
{
    writer.begin_object()?;
    put_number(writer, "line", number)?;
    put_text(writer, "ok", "bulk")?;
    writer.key("revs")?;
    put_texts(writer, revs)?;
    writer.end_object()
}

fn put_get(alloc: Global, writer: &mut Writer, number: u64, doc: &Stored) -> Result<(), AllocError>
    ensures tokens { OnOk result (writer.new.tokens
        ≡ writer.old.tokens ++ json_tokens (outline (answer_data number (answer.get doc.now)))) }
    ensures before { writer.new.before ≡ writer.old.before }
{
    let rev = doc.rev.text(alloc)?;
    writer.begin_object()?;
    writer.key("doc")?;
    put_fields(writer, &doc.state.fields)?;
    put_number(writer, "line", number)?;
    put_number(writer, "lwt", doc.lwt)?;
    put_text(writer, "ok", "get")?;
    put_text(writer, "rev", rev.as_str())?;
    writer.end_object()
}

fn put_find(writer: &mut Writer, number: u64, rows: &[&Stored]) -> Result<(), AllocError>
    ensures tokens { OnOk result (writer.new.tokens
        ≡ writer.old.tokens
        ++ json_tokens (outline (answer_data number (answer.find (rows_of rows.now))))) }
    ensures before { writer.new.before ≡ writer.old.before }
{
    writer.begin_object()?;
    put_number(writer, "line", number)?;
    put_text(writer, "ok", "find")?;
    writer.key("rows")?;
    put_rows(writer, rows)?;
    writer.end_object()
}

fn put_counted(writer: &mut Writer, number: u64, count: u64) -> Result<(), AllocError>
    ensures tokens { OnOk result (writer.new.tokens
        ≡ writer.old.tokens ++ json_tokens (outline (answer_data number (answer.count count)))) }
    ensures before { writer.new.before ≡ writer.old.before }
{
    writer.begin_object()?;
    put_number(writer, "count", count)?;
    put_number(writer, "line", number)?;
    put_text(writer, "ok", "count")?;
    writer.end_object()
}

fn put_turn(
    writer: &mut Writer,
    number: u64,
    exchanges: usize,
    end: TurnEnd,
) -> Result<(), AllocError>
    ensures tokens { OnOk result (writer.new.tokens ≡ writer.old.tokens
        ++ json_tokens (outline (turn_data number exchanges end))) }
    ensures before { writer.new.before ≡ writer.old.before }
{
    writer.begin_object()?;
    put_text(writer, "end", end.word())?;
    put_number(writer, "exchanges", exchanges as u64)?;
    put_number(writer, "line", number)?;
    put_text(writer, "ok", "turn")?;
    writer.end_object()
}

fn put_sweep(writer: &mut Writer, number: u64, turns: usize, end: TurnEnd) -> Result<(), AllocError>
    ensures tokens { OnOk result (writer.new.tokens ≡ writer.old.tokens
        ++ json_tokens (outline (sweep_data number turns end))) }
    ensures before { writer.new.before ≡ writer.old.before }
{
    writer.begin_object()?;
    put_text(writer, "end", end.word())?;
    put_number(writer, "line", number)?;
    put_text(writer, "ok", "sweep")?;
    put_number(writer, "turns", turns as u64)?;
    writer.end_object()
}

fn put_deliver(
    writer: &mut Writer,
    number: u64,
    level: bool,
    resync: bool,
) -> Result<(), AllocError>
    ensures tokens { OnOk result (writer.new.tokens ≡ writer.old.tokens
        ++ json_tokens (outline (deliver_data number level resync))) }
    ensures before { writer.new.before ≡ writer.old.before }
{
    writer.begin_object()?;
    writer.key("level")?;
    writer.boolean(level)?;
    put_number(writer, "line", number)?;
    put_text(writer, "ok", "deliver")?;
    writer.key("resync")?;
    writer.boolean(resync)?;
    writer.end_object()
}

fn put_changes(
    writer: &mut Writer,
    number: u64,
    docs: &[&Stored],
    place: &Option<Place>,
) -> Result<(), AllocError>
    ensures tokens { OnOk result (writer.new.tokens
        ≡ writer.old.tokens
        ++ json_tokens (outline (answer_data number
        (answer.changes (states_of docs.now) place.now)))) }
    ensures before { writer.new.before ≡ writer.old.before }
{
    writer.begin_object()?;
    writer.key("docs")?;
    put_states(writer, docs)?;
    put_number(writer, "line", number)?;
    put_text(writer, "ok", "changes")?;
    put_maybe_place(writer, "place", place)?;
    writer.end_object()
}

fn put_restart(writer: &mut Writer, number: u64, epoch: u64) -> Result<(), AllocError>
    ensures tokens { OnOk result (writer.new.tokens
        ≡ writer.old.tokens ++ json_tokens (outline (answer_data number (answer.restart epoch)))) }
    ensures before { writer.new.before ≡ writer.old.before }
{
    writer.begin_object()?;
    put_number(writer, "epoch", epoch)?;
    put_number(writer, "line", number)?;
    put_text(writer, "ok", "restart")?;
    writer.end_object()
}

fn put_digest(
    writer: &mut Writer,
    number: u64,
    count: u64,
    digest: &RxText,
) -> Result<(), AllocError>
    ensures tokens { OnOk result (writer.new.tokens
        ≡ writer.old.tokens
        ++ json_tokens (outline (answer_data number (answer.digest count digest.now)))) }
    ensures before { writer.new.before ≡ writer.old.before }
{
    writer.begin_object()?;
    put_number(writer, "count", count)?;
    put_text(writer, "digest", digest.as_str())?;
    put_number(writer, "line", number)?;
    put_text(writer, "ok", "digest")?;
    writer.end_object()
}
