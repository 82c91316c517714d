// The lines of a report.
ghost use Rattle.std.specs.Prelude.{◌≡◌, ◌<◌, ◌^◌, ◌++◌, length, filter, option_map, IfOk, OnOk, IsSome, string_bytes};
ghost use Rattle.json.specs.Tree.{json_tokens};
ghost use Rattle.serde_json.specs.Written.{outline};
ghost use Rattle.rx_host.specs.Report.{collection_data, collection_lines, counts_data, end_data, is_tombstone, name_in, pending_at, port_in, replication_data, replication_lines, report_of};
ghost use Rattle.rx_host.specs.Worlds.{world_of};
ghost use Rattle.rx_reply.specs.Writing.{output_line};
ghost use Rattle.rx_value.specs.Named.{named};
ghost use Rattle.rx_world.specs.Sound.{IsSoundWorld};

use json::Writer;
use rx_collection::{All, Collection, Holder, Plain};
use rx_digest::digest;
use rx_document::Stored;
use rx_record::MasterName;
use rx_reply::{finish_line, line_after, put_maybe_number, put_maybe_text, put_number, put_text};
use rx_sync::pending;
use rx_world::{Replication, World};
use std::alloc::{AllocError, Global};

/// The lines that tell of a world, where its file ends, and how many records it has.
pub(crate) fn report(
    alloc: Global,
    world: &World<Plain>,
    end: u64,
    records: u64,
) -> Result<String, AllocError>
    requires { IsSoundWorld (world_of world.now) }
    ensures { IfOk result (λ t. string_bytes t ≡ report_of (world_of world.now) end records) }
{
    let text = collection_lines(alloc, world)?;
    let text = add_replications(text, world)?;
    add_end(text, end, world.epoch(), records)
}

fn collection_lines(alloc: Global, world: &World<Plain>) -> Result<String, AllocError>
    ensures { IfOk result
        (λ t. string_bytes t ≡ collection_lines (world_of world.now).collections) }
{
    let mut text = String::new(alloc);
    for i in 0..world.len() {
        text = add_collection(alloc, text, world.holder_at(i).collection())?;
    }
    Ok(text)
}

// Adds the line of a collection.
fn add_collection(
    alloc: Global,
    text: String,
    collection: &Collection,
) -> Result<String, AllocError>
    ensures { IfOk result (λ t. string_bytes t ≡ string_bytes text
        ++ output_line (collection_data collection.now.name collection.now)) }
{
    let digest = digest(alloc, collection)?;
    let mut writer = line_after(text);
    put_counts(
        &mut writer,
        collection.name().as_str(),
        collection.len() as u64,
        count_deleted(collection.all()) as u64,
        digest.as_str(),
        collection.schema().hash().as_str(),
    )?;
    finish_line(writer)
}

fn put_counts(
    writer: &mut Writer,
    name: &str,
    count: u64,
    deleted: u64,
    digest: &str,
    schema: &str,
) -> Result<(), AllocError>
    ensures tokens { OnOk result (writer.new.tokens ≡ writer.old.tokens
        ++ json_tokens (outline (counts_data name.now count deleted digest.now schema.now))) }
    ensures before { writer.new.before ≡ writer.old.before }
{
    writer.begin_object()?;
    put_text(writer, "collection", name)?;
    put_number(writer, "count", count)?;
    put_number(writer, "deleted", deleted)?;
    put_text(writer, "digest", digest)?;
    put_text(writer, "schema", schema)?;
    writer.end_object()
}

// How many documents are tombstones.
fn count_deleted(documents: All<'_>) -> usize
    requires { length documents < 2 ^ 64 }
    ensures { result ≡ length (filter is_tombstone documents.entry) }
{
    documents.filter(|document| is_tombstone(document)).count()
}

#[tactic(auto, unfolding(crate::specs::Report::is_tombstone))]
fn is_tombstone(document: &Stored) -> bool
    ensures { result ≡ is_tombstone document.now }
{
    document.state.deleted
}

// Adds the lines of the replications.
fn add_replications(text: String, world: &World<Plain>) -> Result<String, AllocError>
    requires { IsSoundWorld (world_of world.now) }
    ensures { IfOk result (λ t. string_bytes t ≡ string_bytes text
        ++ replication_lines (world_of world.now) (world_of world.now).replications) }
{
    let mut all = text;
    for i in 0..world.replications() {
        all = add_replication(all, world, world.replication_at(i))?;
    }
    Ok(all)
}

fn add_replication(
    text: String,
    world: &World<Plain>,
    replication: &Replication,
) -> Result<String, AllocError>
    requires held { IsSome (named (world_of world.now).replications replication.now.name) }
    requires sound { IsSoundWorld (world_of world.now) }
    ensures { IfOk result (λ t. string_bytes t ≡ string_bytes text ++ output_line
        (replication_data replication.now.name replication.now
        (pending_at (world_of world.now) replication.now.name))) }
{
    let count = pending(world, replication.name.as_str());
    let mut writer = line_after(text);
    put_replication(&mut writer, replication, count as u64)?;
    finish_line(writer)
}

fn put_replication(
    writer: &mut Writer,
    replication: &Replication,
    pending: u64,
) -> Result<(), AllocError>
    ensures tokens { OnOk result (writer.new.tokens ≡ writer.old.tokens
        ++ json_tokens (outline (replication_data replication.now.name replication.now pending))) }
    ensures before { writer.new.before ≡ writer.old.before }
{
    writer.begin_object()?;
    put_text(writer, "fork", replication.fork.as_str())?;
    put_maybe_text(writer, "master", name_in(&replication.master))?;
    put_number(writer, "pending", pending)?;
    put_maybe_number(writer, "port", port_in(&replication.master))?;
    put_text(writer, "replication", replication.name.as_str())?;
    writer.end_object()
}

fn name_in(master: &MasterName) -> Option<&str>
    ensures { option_map (λ t. t.now) result ≡ name_in master.now }
{
    match master {
        MasterName::Local(name) => Some(name.as_str()),
        MasterName::Port(_) => None,
    }
}

fn port_in(master: &MasterName) -> Option<u64>
    ensures { result ≡ port_in master.now }
{
    match master {
        MasterName::Local(_) => None,
        MasterName::Port(port) => Some(u64::from(*port)),
    }
}

// Adds the line of the file's end.
fn add_end(text: String, end: u64, epoch: u64, records: u64) -> Result<String, AllocError>
    ensures { IfOk result (λ t. string_bytes t ≡ string_bytes text
        ++ output_line (end_data end epoch records)) }
{
    let mut writer = line_after(text);
    put_end(&mut writer, end, epoch, records)?;
    finish_line(writer)
}

fn put_end(writer: &mut Writer, end: u64, epoch: u64, records: u64) -> Result<(), AllocError>
    ensures tokens { OnOk result (writer.new.tokens
        ≡ writer.old.tokens ++ json_tokens (outline (end_data end epoch records))) }
    ensures before { writer.new.before ≡ writer.old.before }
{
    writer.begin_object()?;
    put_number(writer, "end", end)?;
    put_number(writer, "epoch", epoch)?;
    put_number(writer, "records", records)?;
    writer.end_object()
}
