// The commands that write one text: the report on a journal, and the trial.
use crate::run::{Ran, Setting, run};
use std::alloc::{AllocError, Global};
use std::test::Fail;

#[test]
fn a_large_trial_comes_to_the_same_twice(rt: HostRuntime) -> Result<(), Fail> {
    let first = run_large(rt.alloc())?;
    compare_second(rt.alloc(), &first)
}

fn run_large(alloc: Global) -> Result<Ran, AllocError> {
    run(alloc, &Setting::PLAIN, "trial journal 7 4000", &[], &[])
}

fn compare_second(alloc: Global, first: &Ran) -> Result<(), Fail> {
    let line = first.text()?;
    if first.status == 0 && line.contains(",\"lines\":4006,") && line.lines().count() == 1 {
        return run_large(alloc)?.compare(0, line);
    }
    Err(Fail::new(format_args!("status {}: {line}", first.status)))
}

pub const CASES: &str = r#"// A journal is reported.
== a file that isn't there
$ check journal
< {"end":9,"epoch":0,"records":0}

== a file without a record, whose gate is open
^ 'RXJOURN1' 01
$ check journal
< {"end":9,"epoch":0,"records":0}
= 'RXJOURN1' 01

== a gate byte that is neither 0 nor 1 is closed
^ 'RXJOURN1' 01 00000009 05 0000000000000001 ff
$ check journal
< {"end":23,"epoch":1,"records":1}
= 'RXJOURN1' 01 00000009 05 0000000000000001 ff

== a copy of a world without collections
^ 'RXJOURN2' 01 00000009 09 0000000000000003 00
$ check journal
< {"end":23,"epoch":3,"records":1}
= 'RXJOURN2' 01 00000009 09 0000000000000003 00

== what is no journal
^ ¤2
$ check journal
< {"stop":"not_journal"}
| a file that is cut within a length | 'RXJOURN1' 01 00
| a file that is cut before a body | 'RXJOURN1' 01 00000009
| a file that is cut before its last gate | 'RXJOURN1' 01 00000009 05 0000000000000001
| a record of no kind | 'RXJOURN1' 01 00000009 0f 0000000000000001 00
| a gate that is open behind the last record | 'RXJOURN1' 01 00000009 05 0000000000000001 01

== collections with tombstones, and a replication with a document to push
. C(c) C(f) {"do":"replicate","name":"r","fork":"f","master":"c","handler":"master_wins"}
. I(c,a,1) I(c,b,2)
> {"do":"remove","in":"c","key":"b"}
< {"line":L,"ok":"remove","rev":"2-c"}
> {"do":"turn","name":"r"}
< {"exchange":1,"place":{"id":"b","lwt":3},"rows":["a","b"],"sent":"pull"}
< {"end":"quiet","exchanges":1,"line":L,"ok":"turn"}
. I(f,d,1)
> {"do":"remove","in":"f","key":"d"}
< {"line":L,"ok":"remove","rev":"2-f"}
$ check journal
< {"collection":"c","count":2,"deleted":1,"digest":"69efc36d17a4712c02ff2a5488f22be69bd85f65bc5089abe32e39330227a720","schema":"d3965597d0b8e1c41da9b2dc759684814b6376a695e3324ffc338dfea45c31a5"}
< {"collection":"f","count":3,"deleted":2,"digest":"6b7619069e0fac80b0742d55b91a99863d10eb0e80861cfe23081c4c89cd22fc","schema":"d3965597d0b8e1c41da9b2dc759684814b6376a695e3324ffc338dfea45c31a5"}
< {"fork":"f","master":"c","pending":1,"replication":"r"}
< {"end":936,"epoch":1,"records":10}

// A generated script is played. A refused line of a trial doesn't make its status 1.
== no line of its own
$ trial journal 1 0
< {"digest_f":"e3b0c44298fc1c149afbf4c8996fb92427ae41e4649b934ca495991b7852b855","digest_m":"e3b0c44298fc1c149afbf4c8996fb92427ae41e4649b934ca495991b7852b855","emissions":2,"end":"quiet","lines":6,"refused":0}
! 0

== one line of its own, which is a turn
$ trial journal 0 1
< {"digest_f":"e3b0c44298fc1c149afbf4c8996fb92427ae41e4649b934ca495991b7852b855","digest_m":"e3b0c44298fc1c149afbf4c8996fb92427ae41e4649b934ca495991b7852b855","emissions":2,"end":"quiet","lines":7,"refused":0}
! 0

== a document on either side, a removal of none, a turn that is lost, and the last one
$ trial journal 234 4
< {"digest_f":"3eacd1b96ff2479ae4ff2e817a33d37b7c1ea68892702b30ebe0a312ebca2632","digest_m":"3eacd1b96ff2479ae4ff2e817a33d37b7c1ea68892702b30ebe0a312ebca2632","emissions":4,"end":"quiet","lines":10,"refused":1}
! 0

== the second one on a journal finds its replication there
$ trial journal 1 0
< {"digest_f":"e3b0c44298fc1c149afbf4c8996fb92427ae41e4649b934ca495991b7852b855","digest_m":"e3b0c44298fc1c149afbf4c8996fb92427ae41e4649b934ca495991b7852b855","emissions":2,"end":"quiet","lines":6,"refused":0}
! 0
$ trial journal 1 0
< {"digest_f":"e3b0c44298fc1c149afbf4c8996fb92427ae41e4649b934ca495991b7852b855","digest_m":"e3b0c44298fc1c149afbf4c8996fb92427ae41e4649b934ca495991b7852b855","emissions":2,"end":"quiet","lines":6,"refused":1}
! 0

== a collection of another schema stands in the way, so that the last turn is refused
. C(m)
$ trial journal 1 0
< {"digest_f":"e3b0c44298fc1c149afbf4c8996fb92427ae41e4649b934ca495991b7852b855","digest_m":"e3b0c44298fc1c149afbf4c8996fb92427ae41e4649b934ca495991b7852b855","emissions":1,"end":"none","lines":6,"refused":4}
! 0

== a file that is no journal
^ 'hello' 20 'world'
$ trial journal 1 0
< {"stop":"not_journal"}

== a limit that the first record passes
$ trial journal 1 0 --max-journal 22
< {"limit":22,"stop":"full","would":23}
"#;
