// The texts of cases, each with what it shows.
use crate::case::play_all;
use crate::{
    bytes, commands, copied, counted, elsewhere, explained, hooked, indexed, journal, limits,
    listed, many, migrated, migration_records, queries, reading, replicating, reporting, revisions,
    schemas, selectors, streamed, swept, updates, windowed, windows, words, world,
};
use std::test::Fail;

#[test]
fn lines_are_read_and_write_as_the_texts_say(rt: HostRuntime) -> Result<(), Fail> {
    let alloc = rt.alloc();
    play_all(alloc, "scripts are read by their bytes", bytes::CASES)?;
    play_all(
        alloc,
        "a line is read or its first fault told",
        reading::CASES,
    )?;
    play_all(alloc, "a line is refused by what is stored", world::CASES)?;
    play_all(
        alloc,
        "schemas and fields are valid or their first fault told",
        schemas::CASES,
    )?;
    play_all(
        alloc,
        "writes store documents with revisions and times",
        revisions::CASES,
    )?;
    play_all(
        alloc,
        "an update changes a document or is refused",
        updates::CASES,
    )?;
    play_all(alloc, "hooks stand before writes", hooked::CASES)?;
    play_all(
        alloc,
        "there are 64 collections and 256 queries at most",
        limits::CASES,
    )
}

#[test]
fn queries_are_answered_as_the_texts_say(rt: HostRuntime) -> Result<(), Fail> {
    let alloc = rt.alloc();
    play_all(alloc, "operators hold or are refused", selectors::CASES)?;
    play_all(
        alloc,
        "queries order documents and cut them or are refused",
        queries::CASES,
    )?;
    play_all(alloc, "results are the same by each index", indexed::CASES)?;
    play_all(
        alloc,
        "counts by hand are the same by each index",
        counted::CASES,
    )?;
    play_all(alloc, "observed queries show what changes", windows::CASES)?;
    play_all(
        alloc,
        "observed queries are explained, forgotten and opened again",
        explained::CASES,
    )
}

#[test]
fn journals_are_written_and_taken_as_the_texts_say(rt: HostRuntime) -> Result<(), Fail> {
    let alloc = rt.alloc();
    play_all(
        alloc,
        "journals have these bytes and are taken or left alone",
        journal::CASES,
    )?;
    play_all(alloc, "journals that begin with a copy", copied::CASES)?;
    play_all(
        alloc,
        "a long text is there in the next run",
        windowed::CASES,
    )?;
    play_all(
        alloc,
        "records on the disk are taken or left alone",
        migration_records::CASES,
    )?;
    play_all(
        alloc,
        "journals are reported and generated scripts played",
        reporting::CASES,
    )?;
    play_all(alloc, "a command is exactly its words", words::CASES)?;
    play_all(alloc, "a collection is served", commands::CASES)?;
    play_all(
        alloc,
        "two hundred thousand documents are stored and read back",
        many::CASES,
    )
}

#[test]
fn forks_follow_their_masters_as_the_texts_say(rt: HostRuntime) -> Result<(), Fail> {
    let alloc = rt.alloc();
    play_all(
        alloc,
        "a turn brings a fork and its master together or is refused",
        replicating::CASES,
    )?;
    play_all(alloc, "turns go over wires", elsewhere::CASES)?;
    play_all(
        alloc,
        "changes and digests tell of all states",
        listed::CASES,
    )?;
    play_all(
        alloc,
        "events are taken where they follow what the fork has",
        streamed::CASES,
    )?;
    play_all(
        alloc,
        "a sweep goes up and down or is refused",
        swept::CASES,
    )?;
    play_all(
        alloc,
        "a group goes to the next version or is refused",
        migrated::CASES,
    )
}
