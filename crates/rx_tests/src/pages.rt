// A collection without observers, as the records of a journal make it, and its pages.
ghost use Rattle.std.specs.Prelude.{◌≡◌, false, IfOk};

use crate::run::run_made;
use crate::short::add_script_line;
use rx_collection::{Collection, Plain};
use rx_disk::MemoryDisk;
use rx_document::Place;
use rx_store::open;
use rx_value::RxText;
use rx_world::World;
use std::alloc::{AllocError, Global};
use std::test::Fail;

// Three documents in one commit; then one of them is deleted, and another one written again.
const LINES: [&str; 4] = [
    "C(c)",
    r#"{"do":"bulk","in":"c","docs":[{"id":"b"},{"id":"a"},{"id":"d"}]}"#,
    r#"{"do":"remove","in":"c","key":"b"}"#,
    r#"{"do":"upsert","in":"c","doc":{"id":"a"}}"#,
];

// Above which place, how many documents at most, and these, by rising place. A tombstone has a `-`.
const PAGES: [(Option<(u64, &str)>, usize, &str); 9] = [
    (None, 9, "1d 2b- 3a "),
    (None, 3, "1d 2b- 3a "),
    (None, 2, "1d 2b- "),
    (None, 0, ""),
    (Some((0, "z")), 1, "1d "),
    (Some((1, "c")), 1, "1d "),
    (Some((1, "d")), 1, "2b- "),
    (Some((2, "b")), 2, "3a "),
    (Some((3, "a")), 2, ""),
];

#[test]
fn pages_go_on_over_commits_and_tombstones(rt: HostRuntime) -> Result<(), Fail> {
    let alloc = rt.alloc();
    let mut disk = MemoryDisk::new(alloc, journal(alloc)?, Vec::new(alloc));
    let (_, world) = open(alloc, &mut disk, 4096, &plain)?;
    check_world(alloc, world)
}

// The bytes of the journal that the lines leave.
fn journal(alloc: Global) -> Result<Vec<u8>, AllocError> {
    run_made(alloc, script(alloc)?)?.disk.bytes().to_vec(alloc)
}

fn script(alloc: Global) -> Result<String, AllocError> {
    let mut script = String::new(alloc);
    for line in LINES {
        add_script_line(line, &mut script)?;
    }
    Ok(script)
}

fn check_world(alloc: Global, world: World<Plain>) -> Result<(), Fail> {
    match world.holder("c") {
        Some(holder) => check_pages(alloc, &holder.collection),
        None => Err(Fail::new("no collection")),
    }
}

fn check_pages(alloc: Global, collection: &Collection) -> Result<(), Fail> {
    for (since, most, due) in PAGES {
        let shown = page(alloc, collection, since, most)?;
        compare(shown.as_str(), due)?;
    }
    Ok(())
}

fn compare(shown: &str, due: &str) -> Result<(), Fail> {
    if shown == due {
        return Ok(());
    }
    Err(Fail::new(format_args!("due is {due}, found {shown}")))
}

fn plain(collection: Collection) -> Result<Plain, AllocError>
    ensures { IfOk result (λ p. (p.collection ≡ collection) × (p.broken ≡ false)) }
{
    Ok(Plain::new(collection))
}

// The documents of a page, each with its write time.
fn page(
    alloc: Global,
    collection: &Collection,
    since: Option<(u64, &str)>,
    most: usize,
) -> Result<String, AllocError> {
    let place = match since {
        Some((lwt, key)) => Some(Place {
            lwt,
            id: RxText::new(alloc, key)?,
        }),
        None => None,
    };
    let mut shown = String::new(alloc);
    for stored in collection.page(place.as_ref(), most) {
        let mark = if stored.state.deleted { "-" } else { "" };
        let key = stored.state.key.as_str();
        shown.push_str(format!(in alloc; "{}{key}{mark} ", stored.lwt)?.as_str())?;
    }
    Ok(shown)
}
