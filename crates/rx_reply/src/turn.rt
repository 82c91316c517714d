ghost use Rattle.std.specs.Prelude.{◌≡◌, ◌++◌, IfOk, OnOk, string_bytes};
ghost use Rattle.json.specs.Tree.{json_tokens};
ghost use Rattle.serde_json.specs.Written.{outline};
ghost use Rattle.rx_reply.specs.Turn.{pushed_data, pulled_data, push_lost_data, pull_lost_data, exchange_data, exchange_lines, lost_word, end_word};
ghost use Rattle.rx_reply.specs.Writing.{output_line};

use crate::writing::{finish_line, line_after, put_maybe_place, put_number, put_text, put_texts};
use json::Writer;
use rx_document::Place;
use rx_value::{RxList, RxText};
use std::alloc::{AllocError, Global};

/// What an exchange of a turn came to, by the keys of the documents that went over the link.
#[derive(Debug, Drop)]
pub enum Exchanged {
    /// Documents were pushed. Both lists are in the order of their message.
    Pushed {
        rows: RxList<RxText>,
        conflicts: RxList<RxText>,
    },
    /// Documents were pulled, up to that place.
    Pulled {
        rows: RxList<RxText>,
        place: Option<Place>,
    },
    /// A push was lost.
    PushLost {
        rows: RxList<RxText>,
        why: Lost,
    },
    /// A pull was lost.
    PullLost {
        why: Lost,
    },
}

/// Why an exchange was lost: what the link did to it, or what came of a master that is elsewhere.
#[derive(Debug, Clone, Copy)]
pub enum Lost {
    LoseRequest,
    LoseReply,
    Stale,
    /// No wire was got.
    Dial,
    /// The wire failed.
    Wire,
    /// No line came, or one that is no reply.
    Reply,
    /// A reply to another request came.
    Foreign,
    /// A reply came that doesn't fit its request.
    BadReply,
}

/// How a turn ended.
#[derive(Debug, Clone, Copy)]
pub enum TurnEnd {
    /// A pull brought fewer documents than its batch: the fork's documents are the master's.
    Quiet,
    /// An exchange was lost.
    Lost,
    /// A commit found no write time.
    Clock,
    /// The budget is used.
    More,
}

/// The lines of output of a turn's exchanges, numbered from 1.
pub(crate) fn exchange_lines(alloc: Global, exchanges: &[Exchanged]) -> Result<String, AllocError>
    ensures { IfOk result (λ t. string_bytes t ≡ exchange_lines 1 exchanges.now) }
{
    add_exchanges(String::new(alloc), exchanges)
}

/// The same behind a text.
pub(crate) fn add_exchanges(text: String, exchanges: &[Exchanged]) -> Result<String, AllocError>
    ensures { IfOk result (λ t. string_bytes t
        ≡ string_bytes text ++ exchange_lines 1 exchanges.now) }
{
    let mut text = text;
    for i in 0..exchanges.len() {
        text = exchanges[i].add_line(text, i as u64 + 1)?;
    }
    Ok(text)
}

impl Exchanged {
    // Adds the line of the exchange of that number to a text.
    fn add_line(&self, text: String, number: u64) -> Result<String, AllocError>
        ensures { IfOk result (λ t. string_bytes t
            ≡ string_bytes text ++ output_line (exchange_data number self.now)) }
    {
        let mut writer = line_after(text);
        self.put(&mut writer, number)?;
        finish_line(writer)
    }

    fn put(&self, writer: &mut Writer, number: u64) -> Result<(), AllocError>
        ensures tokens { OnOk result (writer.new.tokens
            ≡ writer.old.tokens ++ json_tokens (outline (exchange_data number self.now))) }
        ensures before { writer.new.before ≡ writer.old.before }
    {
        match self {
            Exchanged::Pushed { rows, conflicts } => {
                put_pushed(writer, number, rows.as_slice(), conflicts.as_slice())
            }
            Exchanged::Pulled { rows, place } => put_pulled(writer, number, rows.as_slice(), place),
            Exchanged::PushLost { rows, why } => {
                put_push_lost(writer, number, rows.as_slice(), *why)
            }
            Exchanged::PullLost { why } => put_pull_lost(writer, number, *why),
        }
    }
}

impl Lost {
    fn word(&self) -> &'static str
        ensures { result.now ≡ lost_word self.now }
    {
        match self {
            Lost::LoseRequest => "lose_request",
            Lost::LoseReply => "lose_reply",
            Lost::Stale => "stale",
            Lost::Dial => "dial",
            Lost::Wire => "wire",
            Lost::Reply => "reply",
            Lost::Foreign => "foreign",
            Lost::BadReply => "bad_reply",
        }
    }
}

impl TurnEnd {
    pub(crate) fn word(&self) -> &'static str
        ensures { result.now ≡ end_word self.now }
    {
        match self {
            TurnEnd::Quiet => "quiet",
            TurnEnd::Lost => "lost",
            TurnEnd::Clock => "clock",
            TurnEnd::More => "more",
        }
    }
}

fn put_pushed(
    writer: &mut Writer,
    number: u64,
    rows: &[RxText],
    conflicts: &[RxText],
) -> Result<(), AllocError>
    ensures tokens { OnOk result (writer.new.tokens ≡ writer.old.tokens
        ++ json_tokens (outline (pushed_data number rows.now conflicts.now))) }
    ensures before { writer.new.before ≡ writer.old.before }
{
    writer.begin_object()?;
    writer.key("conflicts")?;
    put_texts(writer, conflicts)?;
    put_number(writer, "exchange", number)?;
    writer.key("rows")?;
    put_texts(writer, rows)?;
    put_text(writer, "sent", "push")?;
    writer.end_object()
}

fn put_pulled(
    writer: &mut Writer,
    number: u64,
    rows: &[RxText],
    place: &Option<Place>,
) -> Result<(), AllocError>
    ensures tokens { OnOk result (writer.new.tokens ≡ writer.old.tokens
        ++ json_tokens (outline (pulled_data number rows.now place.now))) }
    ensures before { writer.new.before ≡ writer.old.before }
{
    writer.begin_object()?;
    put_number(writer, "exchange", number)?;
    put_maybe_place(writer, "place", place)?;
    writer.key("rows")?;
    put_texts(writer, rows)?;
    put_text(writer, "sent", "pull")?;
    writer.end_object()
}

fn put_push_lost(
    writer: &mut Writer,
    number: u64,
    rows: &[RxText],
    why: Lost,
) -> Result<(), AllocError>
    ensures tokens { OnOk result (writer.new.tokens ≡ writer.old.tokens
        ++ json_tokens (outline (push_lost_data number rows.now why))) }
    ensures before { writer.new.before ≡ writer.old.before }
{
    writer.begin_object()?;
    put_number(writer, "exchange", number)?;
    put_text(writer, "lost", why.word())?;
    writer.key("rows")?;
    put_texts(writer, rows)?;
    put_text(writer, "sent", "push")?;
    writer.end_object()
}

fn put_pull_lost(writer: &mut Writer, number: u64, why: Lost) -> Result<(), AllocError>
    ensures tokens { OnOk result (writer.new.tokens
        ≡ writer.old.tokens ++ json_tokens (outline (pull_lost_data number why))) }
    ensures before { writer.new.before ≡ writer.old.before }
{
    writer.begin_object()?;
    put_number(writer, "exchange", number)?;
    put_text(writer, "lost", why.word())?;
    put_text(writer, "sent", "pull")?;
    writer.end_object()
}
