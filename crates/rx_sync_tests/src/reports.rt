// What is reported of a journal, and that it stays as it is.
//
// A case is the records of a journal. HASH stands for the hash of its collections' schema, END for
// its length.
//
//     == a fork                    what the case is about
//     + rows f 5 1:a 2:b!          a record, as spelled.rt has it
//     < {"end":END,..}             a line of the report
use crate::served::{add_record, hash};
use crate::spelled::record_of;
use rx_disk::MemoryDisk;
use rx_host::check;
use rx_outside::Stop;
use std::alloc::{AllocError, Global};
use std::test::Fail;

// The digests are what sha256sum prints of the lines of the states.
const CASES: &str = r#"
== no records
< {"end":9,"epoch":0,"records":0}

== an epoch
+ epoch 1
< {"end":23,"epoch":1,"records":1}

== a master with a tombstone, its fork with a document that the master doesn't know of, and a fork of a master elsewhere
+ collection m
+ collection f
+ collection g
+ rows m 1 1:a 1:b!
+ rows f 5 1:a 1:d
+ replication r f m
+ remote s g 7001
+ known r a
+ epoch 1
+ epoch 2
< {"collection":"m","count":2,"deleted":1,"digest":"90cdfd1e62c5942a6d400dbeaa2e10c969ce3a921aecc3dffed14468a3e48eae","schema":HASH}
< {"collection":"f","count":2,"deleted":0,"digest":"a5b2ed5745104a4ed59a1595e00cc7a67e78e4006e7b9ad9086ca8e32775ccb8","schema":HASH}
< {"collection":"g","count":0,"deleted":0,"digest":"e3b0c44298fc1c149afbf4c8996fb92427ae41e4649b934ca495991b7852b855","schema":HASH}
< {"fork":"f","master":"m","pending":1,"replication":"r"}
< {"fork":"g","pending":0,"port":7001,"replication":"s"}
< {"end":END,"epoch":2,"records":10}
"#;

#[test]
fn a_report_tells_what_a_journal_holds(rt: HostRuntime) -> Result<(), Fail> {
    let alloc = rt.alloc();
    let hash = hash(alloc)?;
    let cases = CASES.replace(alloc, "HASH", hash.as_str())?;
    let mut played = 0u64;
    for case in cases.as_str().split("\n== ").skip(1) {
        play(alloc, case)?;
        played = played.saturating_add(1);
    }
    if played == 0 {
        return Err(Fail::new("a text without cases"));
    }
    Ok(())
}

fn play(alloc: Global, case: &str) -> Result<(), Fail> {
    let mut bytes = records_of(alloc, case)?;
    let due = report_due(alloc, case, bytes.len().saturating_add(1))?;
    // Any byte but 1 is a closed gate, and what stands behind it counts for nothing.
    bytes.extend_from_slice(b"\xffRXJOURN1")?;
    compare(alloc, bytes.as_slice(), &[], due.as_str())
}

// A journal of the records that a case says, without a closed gate.
fn records_of(alloc: Global, case: &str) -> Result<Vec<u8>, Fail> {
    let mut bytes = Vec::from_slice(alloc, b"RXJOURN1")?;
    for line in case.lines() {
        if let Some(words) = line.strip_prefix("+ ") {
            add_record(alloc, &mut bytes, record_of(alloc, words)?)?;
        }
    }
    Ok(bytes)
}

// The lines of the report that a case says, of a journal of this length.
fn report_due(alloc: Global, case: &str, length: usize) -> Result<String, AllocError> {
    let mut due = String::new(alloc);
    for line in case.lines() {
        if let Some(line) = line.strip_prefix("< ") {
            write!(due, "{line}\n")?;
        }
    }
    let length = format!(in alloc; "{length}")?;
    due.as_str().replace(alloc, "END", length.as_str())
}

// Bytes, the calls of the disk that fail, and the report or why there is none: what isn't there is a
// journal without records.
const OTHERS: [(&[u8], &[u64], &str); 3] = [
    (b"hello world", &[], "no journal"),
    (b"", &[], "{\"end\":9,\"epoch\":0,\"records\":0}\n"),
    (b"", &[1], "disk"),
];

#[test]
fn what_is_no_journal_or_fails_gives_no_report(rt: HostRuntime) -> Result<(), Fail> {
    for (bytes, fails, due) in OTHERS {
        compare(rt.alloc(), bytes, fails, due)?;
    }
    Ok(())
}

// The report of these bytes is this one, and they stay as they are.
fn compare(alloc: Global, bytes: &[u8], fails: &[u64], due: &str) -> Result<(), Fail> {
    let fails = Vec::from_slice(alloc, fails)?;
    let mut disk = MemoryDisk::new(alloc, Vec::from_slice(alloc, bytes)?, fails);
    let report = reported(alloc, &mut disk)?;
    if report.as_str() != due {
        return Err(Fail::new(format_args!("it reports {report}, and {due} is due")));
    }
    if disk.bytes() != bytes {
        return Err(Fail::new("the journal is changed"));
    }
    Ok(())
}

// The report, or why there is none.
fn reported(alloc: Global, disk: &mut MemoryDisk) -> Result<String, AllocError> {
    match check(alloc, disk) {
        Ok(report) => String::from_str(alloc, report.as_str()),
        Err(Stop::NotJournal) => String::from_str(alloc, "no journal"),
        Err(Stop::Disk) => String::from_str(alloc, "disk"),
        Err(_) => String::from_str(alloc, "another stop"),
    }
}
