// Which record may come next, in journals of both versions, by what is reported of a file.
//
// A case is a journal, and records that may or may not come next in it.
//
//     == a copy                    what the case is about
//     = 2                          the version
//     + collection m               a record, as spelled.rt has it
//     ~ end 0                      the record that stands behind the one that comes next
//     * part m 1.1:a               one that may come next
//     - rows m 1 1:a               and one that may not
//     !                            without one that comes next it is no journal
use crate::served::add_record;
use crate::spelled::record_of;
use rx_disk::MemoryDisk;
use rx_host::check;
use rx_outside::Stop;
use std::alloc::Global;
use std::test::Fail;

const CASES: &str = r#"
== a fork of a fork is one, and a ring isn't
= 1
+ collection a
+ collection b
+ collection c
+ replication r b a
+ replication s c b
* remote t a 7001
- replication t a c
- replication t a a
- replication t b c
- replication t c a
- remote t c 7001

== a migration goes to the next version of the schema
= 1
+ collection m
+ rows m 1 1:a=5 1:b!
+ collection f
+ replication r f m
+ rows f 1 1:c=6
* migration m next
* migration f next
* migration m next scale:n:2 set:n:3
* migration m counted rename:n:count
* migration m counted drop:n
- migration x next
- migration m same
- migration m second
- migration m keyed
- migration m {}
- migration m next drop:id
- migration m next rename:n:id
- migration m next rename:id:n
- migration m next set:id:1
- migration m counted
- migration m next rename:n:count

== a number that grows too great has no next state
= 1
+ collection m
+ rows m 1 1:a=9007199254740991
* migration m next scale:n:1
- migration m next scale:n:2

== documents are of the new schema from then on, and at the next height
= 1
+ collection m
+ rows m 1 1:a=5
+ migration m counted rename:n:count
* rows m 2 2:a#7
- rows m 2 1:a#7
- rows m 2 2:a=7
- rows m 1 2:a#7

== a tombstone goes too
= 1
+ collection m
+ rows m 1 1:a=5!
* migration m counted drop:n
- migration m counted

== so does what is known
= 1
+ collection m
+ rows m 1 1:a
+ collection f
+ rows f 1 1:a
+ replication r f m
+ known r a=5
* migration m next
* migration f counted drop:n
- migration m counted
- migration f counted

== a fork of a master elsewhere stays, and so does what follows it
= 1
+ collection f
+ collection g
+ remote r f 7001
+ replication s g f
- migration f next
- migration g next

== what isn't joined goes alone
= 1
+ collection m
+ rows m 1 1:a=5
+ collection g
+ rows g 1 1:a
* migration g counted
- migration m counted

== one migration behind another
= 1
+ collection m
+ rows m 1 1:a=5
+ migration m next scale:n:2
* migration m second
- migration m same
- migration m next
- migration m counted

== a group goes over any number of replications, by the name of any of its collections
= 1
+ collection m
+ collection f
+ collection g
+ replication r f m
+ replication s g f
+ rows g 1 1:a=5
* migration m next
* migration g next
* migration m counted drop:n
- migration m counted
- migration f counted

== what was left behind may not follow, and what goes together may
= 1
+ collection m
+ collection f
+ collection g
+ migration m next
* replication r g f
- replication r f m
- replication r m f

== what is known later is of the new schema
= 1
+ collection m
+ rows m 1 1:a
+ collection f
+ rows f 1 1:a
+ replication r f m
+ migration f counted
* known r a#7
- known r a=7

== the records of a copy have no place in the first version
= 1
+ collection m
* rows m 1 1:a
- part m 1.1:a
- end 0

== a copy has an end
= 2
+ collection m
!
* end 0
* end 4503599627370496
- end 4503599627370497
- part m 1.1:a
- epoch 1

== and one alone, before which nothing is written
= 2
+ collection m
~ end 0
* collection n
* part m 1.1:a
- collection m
- end 0
- rows m 1 1:a
- epoch 1
- migration m next

== behind it is what a run writes
= 2
+ collection m
+ part m 1.1:a
+ end 3
* rows m 2 2:a
* epoch 4
* collection n
* migration m next
- epoch 1
- epoch 3
- part m 2.1:b
- end 3
- rows m 1 2:a

== the documents of a copy come by rising place, at heights up to their write times
= 2
+ collection m
+ part m 3.2:b
~ end 0
* part m 4.1:a
* part m 4.4:c=1 5.2:a!
* part m 3.1:c
* part m 9007199254740991.1:c
- part m
- part x 4.1:a
- part m 4.5:c
- part m 4.0:c
- part m 3.1:a
- part m 2.1:c
- part m 4.1:b
- part m 5.1:c 4.1:a
- part m 9007199254740992.1:c
- part m 4.1:c#7

== what is known in a copy are states of documents that the fork holds
= 2
+ collection m
+ part m 1.1:a 2.1:b
+ collection f
+ part f 1.1:a 2.1:b
+ replication r f m
~ end 0
* learnt r
* learnt r a
* learnt r a b
* learnt r a b=7
* learnt r a b up:2:b down:2:b
- learnt x a
- learnt r c
- learnt r a#7
- learnt r b a
- learnt r a a
- learnt r a up:2:b
- learnt r a b=7 up:2:b

== it comes by rising key, and no checkpoint falls
= 2
+ collection m
+ part m 1.1:a 2.1:b
+ collection f
+ part f 1.1:a 2.1:b
+ replication r f m
+ learnt r a up:1:a down:1:a
~ end 0
* learnt r b up:2:b down:2:b
* learnt r b up:1:a down:1:a
- learnt r a up:1:a down:1:a
- learnt r b up:1:a
- learnt r b
"#;

#[test]
fn a_record_may_come_next_as_the_journal_has_it(rt: HostRuntime) -> Result<(), Fail> {
    let mut tried = 0u64;
    for case in CASES.split("\n== ").skip(1) {
        tried = tried.saturating_add(try_case(rt.alloc(), case)?);
    }
    assert_eq!(&rt; tried, 107);
    Ok(())
}

// Tries each record that may come next or may not, and counts them.
fn try_case(alloc: Global, case: &str) -> Result<u64, Fail> {
    try_next(alloc, case, "", !has_line(case, "!"))?;
    let mut tried = 0u64;
    for line in case.lines() {
        if let Some(words) = line.strip_prefix("* ") {
            try_next(alloc, case, words, true)?;
            tried = tried.saturating_add(1);
        }
        if let Some(words) = line.strip_prefix("- ") {
            try_next(alloc, case, words, false)?;
            tried = tried.saturating_add(1);
        }
    }
    Ok(tried)
}

fn has_line(case: &str, wanted: &str) -> bool {
    case.lines().any(|line| line == wanted)
}

// The journal with the record, where there is one, is a journal or isn't.
fn try_next(alloc: Global, case: &str, words: &str, is_legal: bool) -> Result<(), Fail> {
    let bytes = file_of(alloc, case, words)?;
    let mut disk = MemoryDisk::new(alloc, bytes, Vec::new(alloc));
    let is_journal = match check(alloc, &mut disk) {
        Ok(_report) => true,
        Err(Stop::NotJournal) => false,
        Err(_) => return Err(Fail::new("a stop")),
    };
    if is_journal == is_legal {
        return Ok(());
    }
    Err(Fail::new(format_args!("{words}, a journal: {is_journal}, in {case}")))
}

fn file_of(alloc: Global, case: &str, words: &str) -> Result<Vec<u8>, Fail> {
    let header = if has_line(case, "= 2") {
        b"RXJOURN2"
    } else {
        b"RXJOURN1"
    };
    let mut bytes = Vec::from_slice(alloc, header)?;
    add_records(alloc, case, "+ ", &mut bytes)?;
    if !words.is_empty() {
        add_record(alloc, &mut bytes, record_of(alloc, words)?)?;
    }
    add_records(alloc, case, "~ ", &mut bytes)?;
    // A closed gate, and what counts for nothing.
    bytes.extend_from_slice(b"\x00\x01")?;
    Ok(bytes)
}

fn add_records(alloc: Global, case: &str, mark: &str, bytes: &mut Vec<u8>) -> Result<(), Fail> {
    for line in case.lines() {
        if let Some(words) = line.strip_prefix(mark) {
            add_record(alloc, bytes, record_of(alloc, words)?)?;
        }
    }
    Ok(())
}
