// Messages, printed token by token.
ghost use Rattle.std.specs.Prelude.{◌≡◌, ◌++◌, ◌∷◌, [], codes, decimal, IfOk, OnOk, IsUtf8};
ghost use Rattle.std.specs.List.{AllByRecursion};
ghost use Rattle.json.specs.Lex.{tokens};
ghost use Rattle.json.specs.Token as token;
ghost use Rattle.json.specs.Tree.{json_tokens};
ghost use Rattle.serde_json.specs.Data.{member, no_members, object, string};
ghost use Rattle.serde_json.specs.Written.{compact_text, outline};
ghost use Rattle.rx_wire.specs.Printing.{place_tokens, HasFields, RowHasFields, AskHasFields, BodyHasFields};
ghost use Rattle.rx_wire.specs.Writing.{ask_members, body_members, reply_data, request_data, request_text, reply_text};

use crate::message::{AskKind, Body, PushRow, Reply, Request};
use crate::state_printing::{put_rows, put_states};
use json::Writer;
use rx_document::Place;
use rx_schema::Schema;
use rx_value::{RxText, State};
use std::alloc::{AllocError, Global};

/// The bytes of a request's text.
pub(crate) fn request_bytes(
    alloc: Global,
    request: &Request,
    schema: &Schema,
) -> Result<Vec<u8>, AllocError>
    ensures text { IfOk result (λ b. b.items ≡ request_text schema.now request.now) }
    ensures utf8 { IfOk result (λ b. IsUtf8 b.items) }
    ensures tokens { IfOk result
        (λ b. tokens b.items ≡ json_tokens (outline (request_data schema.now request.now))) }
    ensures fields { OnOk result (AskHasFields request.now.ask) }
{
    let mut writer = Writer::new(Vec::with_capacity(alloc, 256)?);
    put_request(&mut writer, request, schema.hash().as_str())?;
    Ok(writer.into_inner())
}

/// The bytes of a reply's text.
pub(crate) fn reply_bytes(alloc: Global, reply: &Reply) -> Result<Vec<u8>, AllocError>
    ensures text { IfOk result (λ b. b.items ≡ reply_text reply.now) }
    ensures utf8 { IfOk result (λ b. IsUtf8 b.items) }
    ensures tokens { IfOk result
        (λ b. tokens b.items ≡ json_tokens (outline (reply_data reply.now))) }
    ensures fields { OnOk result (BodyHasFields reply.now.body) }
{
    let mut writer = Writer::new(Vec::with_capacity(alloc, 256)?);
    put_reply(&mut writer, reply)?;
    Ok(writer.into_inner())
}

/// The bytes of the line that tells of the fault of that name.
pub(crate) fn fault_bytes(alloc: Global, name: &str) -> Result<Vec<u8>, AllocError>
    ensures text { IfOk result (λ b. b.items
        ≡ compact_text (object (member (codes "fault") (string name.now) no_members))) }
    ensures utf8 { IfOk result (λ b. IsUtf8 b.items) }
{
    let mut writer = Writer::new(Vec::with_capacity(alloc, 32)?);
    writer.begin_object()?;
    put_text(&mut writer, "fault", name)?;
    writer.end_object()?;
    Ok(writer.into_inner())
}

/// The text of bytes that are UTF-8, which it takes over.
pub(crate) fn text_of(alloc: Global, bytes: Vec<u8>) -> Result<RxText, AllocError>
    requires { IsUtf8 bytes.items }
    ensures { IfOk result (λ t. t ≡ bytes.items) }
{
    RxText::from_string(alloc, unsafe { String::from_utf8_unchecked(bytes) })
}

fn put_request(writer: &mut Writer, request: &Request, hash: &str) -> Result<(), AllocError>
    ensures tokens { OnOk result (writer.new.tokens ≡ writer.old.tokens
        ++ json_tokens (outline (object
        (ask_members hash.now request.now.epoch request.now.n request.now.ask)))) }
    ensures before { writer.new.before ≡ writer.old.before }
    ensures fields { OnOk result (AskHasFields request.now.ask) }
{
    match &request.ask {
        AskKind::Pull { place, batch } => {
            put_pull(writer, hash, request.epoch, request.n, place, *batch)
        }
        AskKind::Push(rows) => put_push(writer, hash, request.epoch, request.n, rows.as_slice()),
    }
}

fn put_pull(
    writer: &mut Writer,
    hash: &str,
    epoch: u64,
    n: u64,
    place: &Option<Place>,
    batch: u32,
) -> Result<(), AllocError>
    ensures tokens { OnOk result (writer.new.tokens ≡ writer.old.tokens
        ++ json_tokens (outline (object
        (ask_members hash.now epoch n (AskKind.Pull place.now batch))))) }
    ensures before { writer.new.before ≡ writer.old.before }
{
    writer.begin_object()?;
    put_text(writer, "ask", "pull")?;
    put_whole(writer, "batch", batch as u64)?;
    put_whole(writer, "epoch", epoch)?;
    put_whole(writer, "n", n)?;
    put_place(writer, place)?;
    put_text(writer, "schema", hash)?;
    writer.end_object()
}

fn put_push(
    writer: &mut Writer,
    hash: &str,
    epoch: u64,
    n: u64,
    rows: &[PushRow],
) -> Result<(), AllocError>
    ensures tokens { OnOk result (writer.new.tokens ≡ writer.old.tokens
        ++ json_tokens (outline (object (ask_members hash.now epoch n (AskKind.Push rows.now))))) }
    ensures before { writer.new.before ≡ writer.old.before }
    ensures fields { OnOk result (AllByRecursion RowHasFields rows.now) }
{
    writer.begin_object()?;
    put_text(writer, "ask", "push")?;
    put_whole(writer, "epoch", epoch)?;
    put_whole(writer, "n", n)?;
    writer.key("rows")?;
    put_rows(writer, rows)?;
    put_text(writer, "schema", hash)?;
    writer.end_object()
}

fn put_reply(writer: &mut Writer, reply: &Reply) -> Result<(), AllocError>
    ensures tokens { OnOk result (writer.new.tokens ≡ writer.old.tokens
        ++ json_tokens (outline (reply_data reply.now))) }
    ensures before { writer.new.before ≡ writer.old.before }
    ensures fields { OnOk result (BodyHasFields reply.now.body) }
{
    match &reply.body {
        Body::Conflicts(states) => {
            put_conflicts(writer, reply.epoch, reply.n, states.as_slice())
        }
        Body::Docs { states, place } => {
            put_docs(writer, reply.epoch, reply.n, states.as_slice(), place)
        }
    }
}

fn put_conflicts(
    writer: &mut Writer,
    epoch: u64,
    n: u64,
    states: &[State],
) -> Result<(), AllocError>
    ensures tokens { OnOk result (writer.new.tokens ≡ writer.old.tokens
        ++ json_tokens (outline (object (body_members epoch n (Body.Conflicts states.now))))) }
    ensures before { writer.new.before ≡ writer.old.before }
    ensures fields { OnOk result (AllByRecursion HasFields states.now) }
{
    writer.begin_object()?;
    writer.key("conflicts")?;
    put_states(writer, states)?;
    put_whole(writer, "epoch", epoch)?;
    put_whole(writer, "n", n)?;
    writer.end_object()
}

fn put_docs(
    writer: &mut Writer,
    epoch: u64,
    n: u64,
    states: &[State],
    place: &Option<Place>,
) -> Result<(), AllocError>
    ensures tokens { OnOk result (writer.new.tokens ≡ writer.old.tokens
        ++ json_tokens (outline (object (body_members epoch n (Body.Docs states.now place.now))))) }
    ensures before { writer.new.before ≡ writer.old.before }
    ensures fields { OnOk result (AllByRecursion HasFields states.now) }
{
    writer.begin_object()?;
    writer.key("docs")?;
    put_states(writer, states)?;
    put_whole(writer, "epoch", epoch)?;
    put_whole(writer, "n", n)?;
    put_place(writer, place)?;
    writer.end_object()
}

// A member that is a text.
fn put_text(writer: &mut Writer, name: &str, text: &str) -> Result<(), AllocError>
    ensures tokens { OnOk result (writer.new.tokens ≡ writer.old.tokens
        ++ token.key name.now ∷ token.string text.now ∷ []) }
    ensures before { writer.new.before ≡ writer.old.before }
{
    writer.key(name)?;
    writer.string(text)
}

// A member that is a whole number.
fn put_whole(writer: &mut Writer, name: &str, n: u64) -> Result<(), AllocError>
    ensures tokens { OnOk result (writer.new.tokens ≡ writer.old.tokens
        ++ token.key name.now ∷ token.number (decimal n) ∷ []) }
    ensures before { writer.new.before ≡ writer.old.before }
{
    writer.key(name)?;
    writer.u64(n)
}

// The member of the place, where there is one.
fn put_place(writer: &mut Writer, place: &Option<Place>) -> Result<(), AllocError>
    ensures tokens { OnOk result (writer.new.tokens ≡ writer.old.tokens ++ place_tokens place.now) }
    ensures before { writer.new.before ≡ writer.old.before }
{
    let Some(place) = place else {
        return Ok(());
    };
    writer.key("place")?;
    writer.begin_object()?;
    put_text(writer, "id", place.id.as_str())?;
    put_whole(writer, "lwt", place.lwt)?;
    writer.end_object()
}
