// Journals that begin with a copy: the second version of the format. What a compaction makes, what
// a run takes and goes on from, and what it refuses and leaves alone.
pub const CASES: &str = r#"// A journal is compacted.
== a journal without records
$ compact journal copy
< {"bytes":23,"from":9,"records":1}
% 'RXJOURN2' 01 00000009 09 0000000000000000 00

== the journal of an empty run, and a run on its copy
^ 'RXJOURN1' 01 00000009 05 0000000000000001 00
$ compact journal copy
< {"bytes":23,"from":23,"records":1}
= 'RXJOURN1' 01 00000009 05 0000000000000001 00
% 'RXJOURN2' 01 00000009 09 0000000000000001 00
$ compact journal copy
< {"stop":"exists"}
! 11
% 'RXJOURN2' 01 00000009 09 0000000000000001 00
/
$ run journal
= 'RXJOURN2' 01 00000009 09 0000000000000001 01 00000009 05 0000000000000002 00

== what is outdated is left out; revisions, write times and tombstones stay
. C(c) I(c,a,1) I(c,b,1)
> {"do":"upsert","in":"c","doc":{"id":"a","n":2}}
< {"line":L,"ok":"upsert","rev":"2-c"}
> {"do":"remove","in":"c","key":"b"}
< {"line":L,"ok":"remove","rev":"2-c"}
$ compact journal copy --max-journal 311
< {"bytes":311,"from":460,"records":3}
% COPY 01 00000072 07 00000001 'c' 00000002
% 0000000000000003 0000000000000002 00000001 'a' 00 00000002 00000002 'id' 02 00000001 'a' 00000001 'n' 01 0000000000000002
% 0000000000000004 0000000000000002 00000001 'b' 01 00000002 00000002 'id' 02 00000001 'b' 00000001 'n' 01 0000000000000001
% 01 00000009 09 0000000000000001 00
/
$ run journal
> {"do":"get","in":"c","key":"a"}
< {"doc":{"id":"a","n":2},"line":L,"lwt":3,"ok":"get","rev":"2-c"}
> I(c,b,5)
< insert 3-c

== a copy that would end past the limit, which is no journal as far as it was written
^ 'RXJOURN1' 01 00000009 05 0000000000000001 01 000000a4 01 00000001 'c' 0000009a '{"indexes":[],"primaryKey":"id","properties":{"id":{"maxLength":20,"type":"string"},"n":{"type":"integer"}},"required":["id"],"type":"object","version":0}' 00
$ compact journal copy --max-journal 191
< {"limit":191,"stop":"full","would":192}
% COPY 00
/
$ run journal
< {"stop":"not_journal"}

== records come in their order: collections and replications, and what is in them
^ 'RXJOURN2' 01 000000a4 01 00000001 'f' 0000009a '{"indexes":[],"primaryKey":"id","properties":{"id":{"maxLength":20,"type":"string"},"n":{"type":"integer"}},"required":["id"],"type":"object","version":0}'
^ 01 000000a4 01 00000001 'm' 0000009a '{"indexes":[],"primaryKey":"id","properties":{"id":{"maxLength":20,"type":"string"},"n":{"type":"integer"}},"required":["id"],"type":"object","version":0}'
^ 01 0000003e 07 00000001 'm' 00000001 0000000000000001 0000000000000001 00000001 'a' 00 00000002 00000002 'id' 02 00000001 'a' 00000001 'n' 01 0000000000000001
^ 01 0000003e 07 00000001 'f' 00000001 0000000000000001 0000000000000001 00000001 'a' 00 00000002 00000002 'id' 02 00000001 'a' 00000001 'n' 01 0000000000000001
^ 01 00000021 03 00000001 'r' 00000001 'f' 00 00000001 'm' 0000000b 'master_wins' 00
^ 01 0000004a 08 00000001 'r' 00000001 00000001 'a' 00 00000002 00000002 'id' 02 00000001 'a' 00000001 'n' 01 0000000000000001 01 0000000000000001 00000001 'a' 01 0000000000000001 00000001 'a'
^ 01 00000009 09 0000000000000001 00
$ compact journal copy
< {"bytes":612,"from":612,"records":7}
% 'RXJOURN2' 01 000000a4 01 00000001 'f' 0000009a '{"indexes":[],"primaryKey":"id","properties":{"id":{"maxLength":20,"type":"string"},"n":{"type":"integer"}},"required":["id"],"type":"object","version":0}'
% 01 000000a4 01 00000001 'm' 0000009a '{"indexes":[],"primaryKey":"id","properties":{"id":{"maxLength":20,"type":"string"},"n":{"type":"integer"}},"required":["id"],"type":"object","version":0}'
% 01 00000021 03 00000001 'r' 00000001 'f' 00 00000001 'm' 0000000b 'master_wins' 00
% 01 0000003e 07 00000001 'f' 00000001 0000000000000001 0000000000000001 00000001 'a' 00 00000002 00000002 'id' 02 00000001 'a' 00000001 'n' 01 0000000000000001
% 01 0000003e 07 00000001 'm' 00000001 0000000000000001 0000000000000001 00000001 'a' 00 00000002 00000002 'id' 02 00000001 'a' 00000001 'n' 01 0000000000000001
% 01 0000004a 08 00000001 'r' 00000001 00000001 'a' 00 00000002 00000002 'id' 02 00000001 'a' 00000001 'n' 01 0000000000000001 01 0000000000000001 00000001 'a' 01 0000000000000001 00000001 'a'
% 01 00000009 09 0000000000000001 00

== the greatest epoch of a copy, and one that is too great
^ 'RXJOURN2' 01 00000009 09 0010000000000000 00
$ compact journal copy
< {"bytes":23,"from":23,"records":1}
% 'RXJOURN2' 01 00000009 09 0010000000000000 00
$ run journal
= 'RXJOURN2' 01 00000009 09 0010000000000000 01 00000009 05 0010000000000001 00
$ compact journal copy
< {"stop":"epoch"}
! 12
% 'RXJOURN2' 01 00000009 09 0010000000000000 00

== what is no journal isn't copied
^ 'RXJOURN3' 00 00
$ compact journal copy
< {"stop":"not_journal"}

// A copy is played on.

== a copy of a collection with a document, and records behind its end
^ COPY 01 0000003e 07 00000001 'c' 00000001 0000000000000005 0000000000000002 00000001 'a' 00 00000002 00000002 'id' 02 00000001 'a' 00000001 'n' 01 0000000000000001
^ 01 00000009 09 0000000000000003 00
> {"do":"get","in":"c","key":"a"}
< {"doc":{"id":"a","n":1},"line":L,"lwt":5,"ok":"get","rev":"2-c"}
. I(c,b,1)
= COPY 01 0000003e 07 00000001 'c' 00000001 0000000000000005 0000000000000002 00000001 'a' 00 00000002 00000002 'id' 02 00000001 'a' 00000001 'n' 01 0000000000000001
= 01 00000009 09 0000000000000003 01 00000009 05 0000000000000004
= 01 0000003e 02 00000001 'c' 0000000000000006 00000001 0000000000000001 00000001 'b' 00 00000002 00000002 'id' 02 00000001 'b' 00000001 'n' 01 0000000000000001
= 00
$ run journal
> {"do":"get","in":"c","key":"b"}
< {"doc":{"id":"b","n":1},"line":L,"lwt":6,"ok":"get","rev":"1-c"}
= COPY 01 0000003e 07 00000001 'c' 00000001 0000000000000005 0000000000000002 00000001 'a' 00 00000002 00000002 'id' 02 00000001 'a' 00000001 'n' 01 0000000000000001
= 01 00000009 09 0000000000000003 01 00000009 05 0000000000000004
= 01 0000003e 02 00000001 'c' 0000000000000006 00000001 0000000000000001 00000001 'b' 00 00000002 00000002 'id' 02 00000001 'b' 00000001 'n' 01 0000000000000001 01 00000009 05 0000000000000005
= 00

== a copy of a world without collections
^ 'RXJOURN2' 01 00000009 09 0000000000000000 00
= 'RXJOURN2' 01 00000009 09 0000000000000000 01 00000009 05 0000000000000001 00

== the greatest epoch of a copy
^ 'RXJOURN2' 01 00000009 09 0010000000000000 00
= 'RXJOURN2' 01 00000009 09 0010000000000000 01 00000009 05 0010000000000001 00

== a second part goes on behind the first, by rising write times and then keys
^ COPY 01 00000072 07 00000001 'c' 00000002 0000000000000005 0000000000000001 00000001 'b' 00 00000002 00000002 'id' 02 00000001 'b' 00000001 'n' 01 0000000000000001
^ 0000000000000005 0000000000000005 00000001 'd' 00 00000002 00000002 'id' 02 00000001 'd' 00000001 'n' 01 0000000000000002
^ 01 0000003e 07 00000001 'c' 00000001 0000000000000007 0000000000000007 00000001 'a' 00 00000002 00000002 'id' 02 00000001 'a' 00000001 'n' 01 0000000000000003
^ 01 00000009 09 0000000000000001 00
> {"do":"count","in":"c","query":{}}
< {"count":3,"line":L,"ok":"count"}
> {"do":"get","in":"c","key":"d"}
< {"doc":{"id":"d","n":2},"line":L,"lwt":5,"ok":"get","rev":"5-c"}
> {"do":"get","in":"c","key":"a"}
< {"doc":{"id":"a","n":3},"line":L,"lwt":7,"ok":"get","rev":"7-c"}

== a tombstone stands in a part
^ COPY 01 0000003e 07 00000001 'c' 00000001 0000000000000005 0000000000000002 00000001 'a' 01 00000002 00000002 'id' 02 00000001 'a' 00000001 'n' 01 0000000000000001
^ 01 00000009 09 0000000000000001 00
> {"do":"get","in":"c","key":"a"}
< {"code":15,"line":L,"refused":"no_document"}
> I(c,a,1)
< insert 3-c

== a replication with what it knows
^ 'RXJOURN2' 01 000000a4 01 00000001 'f' 0000009a '{"indexes":[],"primaryKey":"id","properties":{"id":{"maxLength":20,"type":"string"},"n":{"type":"integer"}},"required":["id"],"type":"object","version":0}'
^ 01 000000a4 01 00000001 'm' 0000009a '{"indexes":[],"primaryKey":"id","properties":{"id":{"maxLength":20,"type":"string"},"n":{"type":"integer"}},"required":["id"],"type":"object","version":0}'
^ 01 0000003e 07 00000001 'f' 00000001 0000000000000001 0000000000000001 00000001 'a' 00 00000002 00000002 'id' 02 00000001 'a' 00000001 'n' 01 0000000000000001
^ 01 0000003e 07 00000001 'm' 00000001 0000000000000001 0000000000000001 00000001 'a' 00 00000002 00000002 'id' 02 00000001 'a' 00000001 'n' 01 0000000000000001
^ 01 00000021 03 00000001 'r' 00000001 'f' 00 00000001 'm' 0000000b 'master_wins' 00
^ 01 0000004a 08 00000001 'r' 00000001 00000001 'a' 00 00000002 00000002 'id' 02 00000001 'a' 00000001 'n' 01 0000000000000001 01 0000000000000001 00000001 'a' 01 0000000000000001 00000001 'a'
^ 01 00000009 09 0000000000000001 00
> {"do":"get","in":"f","key":"a"}
< {"doc":{"id":"a","n":1},"line":L,"lwt":1,"ok":"get","rev":"1-f"}

// What is no copy is left alone.

== what is no copy
^ ¤2
< {"stop":"not_journal"}
| the end of the copy is wanting | COPY 01 0000003e 07 00000001 'c' 00000001 0000000000000005 0000000000000002 00000001 'a' 00 00000002 00000002 'id' 02 00000001 'a' 00000001 'n' 01 0000000000000001 00
| a late end, behind a record of a run | COPY 01 00000009 05 0000000000000001 01 00000009 09 0000000000000001 00
| a copy of a world that is not sound: a checkpoint above the fork's last place | 'RXJOURN2' 01 000000a4 01 00000001 'f' 0000009a '{"indexes":[],"primaryKey":"id","properties":{"id":{"maxLength":20,"type":"string"},"n":{"type":"integer"}},"required":["id"],"type":"object","version":0}' 01 000000a4 01 00000001 'm' 0000009a '{"indexes":[],"primaryKey":"id","properties":{"id":{"maxLength":20,"type":"string"},"n":{"type":"integer"}},"required":["id"],"type":"object","version":0}' 01 00000021 03 00000001 'r' 00000001 'f' 00 00000001 'm' 0000000b 'master_wins' 00 01 00000019 08 00000001 'r' 00000000 01 0000000000000001 00000001 'a' 00 01 00000009 09 0000000000000001 00
"#;
