// The bytes of journals: what a run writes, what it takes, and what it refuses and leaves alone.
pub const CASES: &str = r#"// What records are.
== an empty run makes a journal with its epoch
= 52584a4f55524e31 01 00000009 05 0000000000000001 00

== each run has the next epoch
= 52584a4f55524e31 01 00000009 05 0000000000000001 00
$ run journal
= 52584a4f55524e31 01 00000009 05 0000000000000001 01 00000009 05 0000000000000002 00
$ run another
= 52584a4f55524e31 01 00000009 05 0000000000000001 01 00000009 05 0000000000000002 01 00000009 05 0000000000000003 00

== a collection is its name and its canonical schema
. C(c)
= 'RXJOURN1' 01 00000009 05 0000000000000001
= 01 000000a4 01 00000001 'c' 0000009a
= '{"indexes":[],"primaryKey":"id","properties":{"id":{"maxLength":20,"type":"string"},"n":{"type":"integer"}},"required":["id"],"type":"object","version":0}'
= 00

== an insert is one row
. C(c) I(c,a,1)
= BASE 01 0000003e 02 00000001 'c' 0000000000000001 00000001
= 0000000000000001 00000001 'a' 00 00000002 00000002 'id' 02 00000001 'a' 00000001 'n' 01 0000000000000001
= 00

== the canonical schema has all bounds, in order
> {"do":"collection","name":"todos","schema":{"title":"todo schema","version":0,"description":"todos","primaryKey":"id","type":"object","properties":{"id":{"type":"string","maxLength":100},"name":{"type":"string"},"done":{"type":"boolean"},"timestamp":{"type":"string","format":"date-time","maxLength":32},"rank":{"type":"number","minimum":0,"maximum":1000,"multipleOf":1}},"required":["id","name","done","timestamp"],"indexes":["timestamp",["done","rank"]]}}
< made
= 'RXJOURN1' 01 00000009 05 0000000000000001
= 01 0000017e 01 00000005 'todos' 00000170
= '{"indexes":[["timestamp"],["done","rank"]],"primaryKey":"id","properties":{"done":{"type":"boolean"},"id":{"maxLength":100,"type":"string"},"name":{"maxLength":8192,"type":"string"},"rank":{"maximum":1000,"minimum":0,"multipleOf":1,"type":"integer"},"timestamp":{"maxLength":32,"type":"string"}},"required":["done","id","name","timestamp"],"type":"object","version":0}'
= 00

== a commit has its rows by rising keys, with flags, numbers and texts, and a tombstone keeps its fields
. {"do":"collection","name":"d","schema":{LEAST,"properties":{"k":{"type":"string","maxLength":8},"b":{"type":"boolean"},"n":{"type":"integer"}}}}
. {"do":"tick","at":258}
> {"do":"bulk","in":"d","docs":[{"k":"é","n":-7},{"k":"a","b":true}]}
< {"line":L,"ok":"bulk","revs":["1-d","1-d"]}
> {"do":"remove","in":"d","key":"a"}
< {"line":L,"ok":"remove","rev":"2-d"}
> {"do":"patch","in":"d","key":"é","set":{"b":false}}
< {"line":L,"ok":"patch","rev":"2-d"}
= 'RXJOURN1' 01 00000009 05 0000000000000001
= 01 000000b7 01 00000001 'd' 000000ad
= '{"indexes":[],"primaryKey":"k","properties":{"b":{"type":"boolean"},"k":{"maxLength":8,"type":"string"},"n":{"type":"integer"}},"required":["k"],"type":"object","version":0}'
= 01 00000063 02 00000001 'd' 0000000000000102 00000002
= 0000000000000001 00000001 'a' 00 00000002 00000001 'b' 00 01 00000001 'k' 02 00000001 'a'
= 0000000000000001 00000002 c3a9 00 00000002 00000001 'k' 02 00000002 c3a9 00000001 'n' 01 fffffffffffffff9
= 01 00000036 02 00000001 'd' 0000000000000103 00000001
= 0000000000000002 00000001 'a' 01 00000002 00000001 'b' 00 01 00000001 'k' 02 00000001 'a'
= 01 00000046 02 00000001 'd' 0000000000000104 00000001
= 0000000000000002 00000002 c3a9 00 00000003 00000001 'b' 00 00 00000001 'k' 02 00000002 c3a9 00000001 'n' 01 fffffffffffffff9
= 00

== lines that write nothing
. C(c)
> C(c)
< {"line":L,"new":false,"ok":"collection"}
> {"do":"bulk","in":"c","docs":[]}
< {"line":L,"ok":"bulk","revs":[]}
. {"do":"tick","at":5} {"do":"observe","name":"q","in":"c","query":{}}
< {"emit":"q","rows":[]}
> {"do":"find","in":"c","query":{}}
< {"line":L,"ok":"find","rows":[]}
> {"do":"get","in":"c","key":"a"}
< {"code":15,"line":L,"refused":"no_document"}
> {"do":"bulk","in":"c","docs":[{"id":"a"},{"id":"a"}]}
< {"code":25,"line":L,"refused":"twice","row":1}
> {"do":"fly"}
< {"code":4,"line":L,"name":"fly","refused":"unknown_do"}
= BASE 00

== a write of what is held is a row
. C(c) I(c,a,1)
> {"do":"patch","in":"c","key":"a","set":{}}
< {"line":L,"ok":"patch","rev":"2-c"}
= BASE 01 0000003e 02 00000001 'c' 0000000000000001 00000001
= 0000000000000001 00000001 'a' 00 00000002 00000002 'id' 02 00000001 'a' 00000001 'n' 01 0000000000000001
= 01 0000003e 02 00000001 'c' 0000000000000002 00000001
= 0000000000000002 00000001 'a' 00 00000002 00000002 'id' 02 00000001 'a' 00000001 'n' 01 0000000000000001
= 00

// A journal that is legal is played on.

== a document is held by the next run
. C(c) {"do":"observe","name":"q","in":"c","query":{"selector":{"n":1}}}
< {"emit":"q","rows":[]}
. I(c,a,1)
< {"emit":"q","rows":[{"id":"a","n":1}]}
> I(c,a,1)
< {"code":14,"line":L,"refused":"conflict","rev":"1-c"}
$ run journal
> I(c,a,1)
< {"code":14,"line":L,"refused":"conflict","rev":"1-c"}

== documents, revisions, tombstones and times are held, queries and the moment are not
. C(c) C(d) {"do":"tick","at":40}
> {"do":"bulk","in":"c","docs":[{"id":"a","n":1},{"id":"b","n":2},{"id":"e"}]}
< {"line":L,"ok":"bulk","revs":["1-c","1-c","1-c"]}
> {"do":"remove","in":"c","key":"a"}
< {"line":L,"ok":"remove","rev":"2-c"}
> {"do":"patch","in":"c","key":"b","set":{"n":3}}
< {"line":L,"ok":"patch","rev":"2-c"}
. I(d,z,-1) {"do":"observe","name":"q","in":"c","query":{}}
< {"emit":"q","rows":[{"id":"b","n":3},{"id":"e"}]}
$ run journal
> C(c)
< {"line":L,"new":false,"ok":"collection"}
> {"do":"collection","name":"d","schema":S2}
< {"code":12,"line":L,"refused":"schema_differs"}
> {"do":"find","in":"c","query":{}}
< {"line":L,"ok":"find","rows":[{"id":"b","n":3},{"id":"e"}]}
> {"do":"get","in":"c","key":"b"}
< {"doc":{"id":"b","n":3},"line":L,"lwt":42,"ok":"get","rev":"2-c"}
> {"do":"get","in":"c","key":"e"}
< {"doc":{"id":"e"},"line":L,"lwt":40,"ok":"get","rev":"1-c"}
> {"do":"get","in":"c","key":"a"}
< {"code":15,"line":L,"refused":"no_document"}
> I(c,a,5)
< insert 3-c
> {"do":"get","in":"c","key":"a"}
< {"doc":{"id":"a","n":5},"line":L,"lwt":43,"ok":"get","rev":"3-c"}
. I(d,y,1)
> {"do":"get","in":"d","key":"y"}
< {"doc":{"id":"y","n":1},"line":L,"lwt":41,"ok":"get","rev":"1-d"}
. {"do":"observe","name":"q","in":"c","query":{}}
< {"emit":"q","rows":[{"id":"a","n":5},{"id":"b","n":3},{"id":"e"}]}
$ run journal
> {"do":"count","in":"c","query":{}}
< {"count":3,"line":L,"ok":"count"}
> {"do":"count","in":"d","query":{}}
< {"count":2,"line":L,"ok":"count"}

== a file of five bytes is a journal not made yet
^ 'hello'
= 52584a4f55524e31 01 00000009 05 0000000000000001 00

== so is one of nine bytes, whatever they are
^ 'RXJOURN2' 00
= 52584a4f55524e31 01 00000009 05 0000000000000001 00

== and one whose gate is open with nothing behind it
^ 'RXJOURN1' 01
= 52584a4f55524e31 01 00000009 05 0000000000000001 00

== a gate is closed by any byte but 1
^ 'RXJOURN1' 01 00000009 05 0000000000000001 ff
= 52584a4f55524e31 01 00000009 05 0000000000000001 01 00000009 05 0000000000000002 00

== what stands behind the closed gate counts for nothing and is written over
^ 'RXJOURN1' 00 ff
= 52584a4f55524e31 01 00000009 05 0000000000000001 00

== what stands behind may look like a record
^ 'RXJOURN1' 01 00000009 05 0000000000000001 00 01 00000009 05 0000000000000002 00
= 52584a4f55524e31 01 00000009 05 0000000000000001 01 00000009 05 0000000000000002 00 00

== what no record covers stays
^ 'RXJOURN1' 01 00000009 05 0000000000000001 00 ffffffffffffffffffffffffffffffffffffffff
= 52584a4f55524e31 01 00000009 05 0000000000000001 01 00000009 05 0000000000000002 00 ffffffffffff

== no epoch needs to stand in it
^ 'RXJOURN1' 01 000000a4 01 00000001 'c' 0000009a '{"indexes":[],"primaryKey":"id","properties":{"id":{"maxLength":20,"type":"string"},"n":{"type":"integer"}},"required":["id"],"type":"object","version":0}' 00
. I(c,a,1)
= 'RXJOURN1' 01 000000a4 01 00000001 'c' 0000009a '{"indexes":[],"primaryKey":"id","properties":{"id":{"maxLength":20,"type":"string"},"n":{"type":"integer"}},"required":["id"],"type":"object","version":0}'
= 01 00000009 05 0000000000000001
= 01 0000003e 02 00000001 'c' 0000000000000001 00000001 0000000000000001 00000001 'a' 00 00000002 00000002 'id' 02 00000001 'a' 00000001 'n' 01 0000000000000001
= 00

== a record that is legal
^ BASE 01 0000003e 02 00000001 'c' 0000000000000001 00000001 0000000000000001 00000001 'a' 00 00000002 00000002 'id' 02 00000001 'a' 00000001 'n' 01 0000000000000001 00
> {"do":"get","in":"c","key":"a"}
< {"doc":{"id":"a","n":1},"line":L,"lwt":1,"ok":"get","rev":"1-c"}

== a write time may jump
^ BASE 01 0000003e 02 00000001 'c' 00000000000003e8 00000001 0000000000000001 00000001 'a' 00 00000002 00000002 'id' 02 00000001 'a' 00000001 'n' 01 001fffffffffffff 00
> {"do":"get","in":"c","key":"a"}
< {"doc":{"id":"a","n":9007199254740991},"line":L,"lwt":1000,"ok":"get","rev":"1-c"}
. I(c,b,1)
> {"do":"get","in":"c","key":"b"}
< {"doc":{"id":"b","n":1},"line":L,"lwt":1001,"ok":"get","rev":"1-c"}

== a write time may be the last
^ BASE 01 0000003e 02 00000001 'c' 001fffffffffffff 00000001 0000000000000001 00000001 'a' 00 00000002 00000002 'id' 02 00000001 'a' 00000001 'n' 01 ffe0000000000001 00
> {"do":"get","in":"c","key":"a"}
< {"doc":{"id":"a","n":-9007199254740991},"line":L,"lwt":9007199254740991,"ok":"get","rev":"1-c"}
> I(c,b,1)
< {"code":22,"line":L,"refused":"clock"}

== a first row may be a tombstone
^ BASE 01 0000003e 02 00000001 'c' 0000000000000001 00000001 0000000000000001 00000001 'a' 01 00000002 00000002 'id' 02 00000001 'a' 00000001 'n' 01 0000000000000001 00
> {"do":"get","in":"c","key":"a"}
< {"code":15,"line":L,"refused":"no_document"}
> {"do":"find","in":"c","query":{}}
< {"line":L,"ok":"find","rows":[]}
> I(c,a,1)
< insert 2-c

// A journal that is not legal is left alone.

== a file of more than nine bytes has a header
^ 'hello' 20 'world'
< {"stop":"not_journal"}

== the second version's header, and no copy
^ 'RXJOURN2' 00 00
> C(c)
< {"stop":"not_journal"}

== what is no journal
^ ¤2
< {"stop":"not_journal"}
| a header of which a byte is wrong | 'rXJOURN1' 01 00000009 05 0000000000000001 00
| an open gate with one byte behind it | 'RXJOURN1' 01 00
| a file that ends in the place of a gate | 'RXJOURN1' 01 00000009 05 0000000000000001
| a file that ends within a record | 'RXJOURN1' 01 00000009 05 00000000000000
| a record longer than the file | 'RXJOURN1' 01 ffffffff 05 0000000000000001 00
| a record without a byte | 'RXJOURN1' 01 00000000 00
| a first epoch that is 2 | 'RXJOURN1' 01 00000009 05 0000000000000002 00
| a first epoch that is 0 | 'RXJOURN1' 01 00000009 05 0000000000000000 00
| an epoch that jumps | 'RXJOURN1' 01 00000009 05 0000000000000001 01 00000009 05 0000000000000003 00
| an epoch that stays | 'RXJOURN1' 01 00000009 05 0000000000000001 01 00000009 05 0000000000000001 00
| an epoch with a byte behind it | 'RXJOURN1' 01 0000000a 05 0000000000000001 00 00
| an epoch that is cut short | 'RXJOURN1' 01 00000008 05 00000000000000 01 00000009 05 0000000000000001 00
| a record of kind 0 | BASE 01 00000009 00 0000000000000002 00
| a record of kind 9 | BASE 01 00000009 09 0000000000000002 00
| a record of kind 255 | BASE 01 00000001 ff 00
| a second collection of the same name | BASE 01 000000a4 01 00000001 'c' 0000009a '{"indexes":[],"primaryKey":"id","properties":{"id":{"maxLength":20,"type":"string"},"n":{"type":"integer"}},"required":["id"],"type":"object","version":0}' 00
| a collection whose name is none | BASE 01 000000a4 01 00000001 'C' 0000009a '{"indexes":[],"primaryKey":"id","properties":{"id":{"maxLength":20,"type":"string"},"n":{"type":"integer"}},"required":["id"],"type":"object","version":0}' 00
| a schema that is not its canonical text | BASE 01 00000097 01 00000001 'd' 0000008d '{"version":0,"primaryKey":"id","type":"object","properties":{"id":{"type":"string","maxLength":20},"n":{"type":"integer"}},"required":["id"]}' 00
| a schema that is none | BASE 01 0000000c 01 00000001 'd' 00000002 '{}' 00
| a schema that is no JSON | BASE 01 0000000b 01 00000001 'd' 00000001 '{' 00
| rows of a collection that is not held | BASE 01 0000003e 02 00000001 'd' 0000000000000001 00000001 0000000000000001 00000001 'a' 00 00000002 00000002 'id' 02 00000001 'a' 00000001 'n' 01 0000000000000001 00
| no rows | BASE 01 00000012 02 00000001 'c' 0000000000000001 00000000 00
| a write time of 0 | BASE 01 0000003e 02 00000001 'c' 0000000000000000 00000001 0000000000000001 00000001 'a' 00 00000002 00000002 'id' 02 00000001 'a' 00000001 'n' 01 0000000000000001 00
| a write time past the last | BASE 01 0000003e 02 00000001 'c' 0020000000000000 00000001 0000000000000001 00000001 'a' 00 00000002 00000002 'id' 02 00000001 'a' 00000001 'n' 01 0000000000000001 00
| a write time that stays | BASE 01 0000003e 02 00000001 'c' 0000000000000005 00000001 0000000000000001 00000001 'a' 00 00000002 00000002 'id' 02 00000001 'a' 00000001 'n' 01 0000000000000001 01 0000003e 02 00000001 'c' 0000000000000005 00000001 0000000000000001 00000001 'b' 00 00000002 00000002 'id' 02 00000001 'b' 00000001 'n' 01 0000000000000001 00
| a write time that falls | BASE 01 0000003e 02 00000001 'c' 0000000000000005 00000001 0000000000000001 00000001 'a' 00 00000002 00000002 'id' 02 00000001 'a' 00000001 'n' 01 0000000000000001 01 0000003e 02 00000001 'c' 0000000000000004 00000001 0000000000000001 00000001 'b' 00 00000002 00000002 'id' 02 00000001 'b' 00000001 'n' 01 0000000000000001 00
| a first height of 2 | BASE 01 0000003e 02 00000001 'c' 0000000000000001 00000001 0000000000000002 00000001 'a' 00 00000002 00000002 'id' 02 00000001 'a' 00000001 'n' 01 0000000000000001 00
| a first height of 0 | BASE 01 0000003e 02 00000001 'c' 0000000000000001 00000001 0000000000000000 00000001 'a' 00 00000002 00000002 'id' 02 00000001 'a' 00000001 'n' 01 0000000000000001 00
| a height that stays | BASE 01 0000003e 02 00000001 'c' 0000000000000001 00000001 0000000000000001 00000001 'a' 00 00000002 00000002 'id' 02 00000001 'a' 00000001 'n' 01 0000000000000001 01 0000003e 02 00000001 'c' 0000000000000002 00000001 0000000000000001 00000001 'a' 00 00000002 00000002 'id' 02 00000001 'a' 00000001 'n' 01 0000000000000001 00
| a height that jumps | BASE 01 0000003e 02 00000001 'c' 0000000000000001 00000001 0000000000000001 00000001 'a' 00 00000002 00000002 'id' 02 00000001 'a' 00000001 'n' 01 0000000000000001 01 0000003e 02 00000001 'c' 0000000000000002 00000001 0000000000000003 00000001 'a' 00 00000002 00000002 'id' 02 00000001 'a' 00000001 'n' 01 0000000000000001 00
| a state without its key among the fields | BASE 01 00000032 02 00000001 'c' 0000000000000001 00000001 0000000000000001 00000001 'a' 00 00000001 00000001 'n' 01 0000000000000001 00
| a state with another key among the fields | BASE 01 0000003e 02 00000001 'c' 0000000000000001 00000001 0000000000000001 00000001 'a' 00 00000002 00000002 'id' 02 00000001 'b' 00000001 'n' 01 0000000000000001 00
| a state with an unknown field | BASE 01 0000003e 02 00000001 'c' 0000000000000001 00000001 0000000000000001 00000001 'a' 00 00000002 00000002 'id' 02 00000001 'a' 00000001 'z' 01 0000000000000001 00
| a state with a field of another kind | BASE 01 0000003b 02 00000001 'c' 0000000000000001 00000001 0000000000000001 00000001 'a' 00 00000002 00000002 'id' 02 00000001 'a' 00000001 'n' 02 00000001 'x' 00
| a tombstone that is not valid | BASE 01 0000003b 02 00000001 'c' 0000000000000001 00000001 0000000000000001 00000001 'a' 01 00000002 00000002 'id' 02 00000001 'a' 00000001 'n' 02 00000001 'x' 00
| a key that is too long | BASE 01 00000064 02 00000001 'c' 0000000000000001 00000001 0000000000000001 00000014 'abcdefghijklmnopqrst' 00 00000002 00000002 'id' 02 00000014 'abcdefghijklmnopqrst' 00000001 'n' 01 0000000000000001 01 00000066 02 00000001 'c' 0000000000000002 00000001 0000000000000001 00000015 'abcdefghijklmnopqrstu' 00 00000002 00000002 'id' 02 00000015 'abcdefghijklmnopqrstu' 00000001 'n' 01 0000000000000001 00
| rows by falling keys | BASE 01 0000006a 02 00000001 'c' 0000000000000001 00000002 0000000000000001 00000001 'b' 00 00000002 00000002 'id' 02 00000001 'b' 00000001 'n' 01 0000000000000001 0000000000000001 00000001 'a' 00 00000002 00000002 'id' 02 00000001 'a' 00000001 'n' 01 0000000000000001 00
| two rows of one key | BASE 01 0000006a 02 00000001 'c' 0000000000000001 00000002 0000000000000001 00000001 'a' 00 00000002 00000002 'id' 02 00000001 'a' 00000001 'n' 01 0000000000000001 0000000000000002 00000001 'a' 00 00000002 00000002 'id' 02 00000001 'a' 00000001 'n' 01 0000000000000001 00
| fields by falling names | BASE 01 0000003e 02 00000001 'c' 0000000000000001 00000001 0000000000000001 00000001 'a' 00 00000002 00000001 'n' 01 0000000000000001 00000002 'id' 02 00000001 'a' 00
| a value of kind 3 | BASE 01 0000003e 02 00000001 'c' 0000000000000001 00000001 0000000000000001 00000001 'a' 00 00000002 00000002 'id' 02 00000001 'a' 00000001 'n' 03 0000000000000001 00
| a number out of range | BASE 01 0000003e 02 00000001 'c' 0000000000000001 00000001 0000000000000001 00000001 'a' 00 00000002 00000002 'id' 02 00000001 'a' 00000001 'n' 01 0020000000000000 00
| a deletion mark that is neither 0 nor 1 | BASE 01 0000003e 02 00000001 'c' 0000000000000001 00000001 0000000000000001 00000001 'a' 02 00000002 00000002 'id' 02 00000001 'a' 00000001 'n' 01 0000000000000001 00
| a text that is not UTF-8 | BASE 01 0000003e 02 00000001 'c' 0000000000000001 00000001 0000000000000001 00000001 ff 00 00000002 00000002 'id' 02 00000001 ff 00000001 'n' 01 0000000000000001 00
| rows with a byte behind them | BASE 01 0000003f 02 00000001 'c' 0000000000000001 00000001 0000000000000001 00000001 'a' 00 00000002 00000002 'id' 02 00000001 'a' 00000001 'n' 01 0000000000000001 00 00
| more rows are counted than stand there | BASE 01 0000003e 02 00000001 'c' 0000000000000001 00000002 0000000000000001 00000001 'a' 00 00000002 00000002 'id' 02 00000001 'a' 00000001 'n' 01 0000000000000001 00

// A journal ends within its limit.

== the epoch passes the limit
$ run journal --max-journal 22
< {"limit":22,"stop":"full","would":23}
= 'RXJOURN1' 00

== the header that stands is not written again
^ 'RXJOURN1' ff
$ run journal --max-journal 22
< {"limit":22,"stop":"full","would":23}
= 'RXJOURN1' ff

== a file that is no journal yet gets its header
^ 'hello'
$ run journal --max-journal 22
< {"limit":22,"stop":"full","would":23}
= 'RXJOURN1' 00

== the epoch ends at the limit
$ run journal --max-journal 23
= 'RXJOURN1' 01 00000009 05 0000000000000001 00

== the least limit
$ run journal --max-journal 9
> C(c)
< {"limit":9,"stop":"full","would":23}
= 'RXJOURN1' 00

== the greatest limit
$ run journal --max-journal 4294967295
. C(c)
= BASE 00

== an insert passes the limit, and what was answered before stands
$ run journal --max-journal 258
. C(c)
> {"do":"fly"}
< {"code":4,"line":L,"name":"fly","refused":"unknown_do"}
> I(c,a,1)
> I(c,b,1)
< {"limit":258,"stop":"full","would":259}
= BASE 00
$ run journal --max-journal 272
> {"do":"get","in":"c","key":"a"}
< {"code":15,"line":L,"refused":"no_document"}
> I(c,a,1)
< {"limit":272,"stop":"full","would":273}
$ run journal --max-journal 287
. I(c,a,1)

== an insert ends at the limit
$ run journal --max-journal 259
. C(c) I(c,a,1)
> I(c,a,1)
< {"code":14,"line":L,"refused":"conflict","rev":"1-c"}

== a collection passes the limit
$ run journal --max-journal 191
> C(c)
< {"limit":191,"stop":"full","would":192}
= 'RXJOURN1' 01 00000009 05 0000000000000001 00

== a bulk passes the limit as a whole
$ run journal --max-journal 300
. C(c)
> {"do":"bulk","in":"c","docs":[{"id":"a","n":1},{"id":"b","n":1}]}
< {"limit":300,"stop":"full","would":303}
= BASE 00

== the second record of a turn passes the limit, and the first stands
$ run journal --max-journal 610
. C(m) C(f) {"do":"replicate","name":"r","fork":"f","master":"m","handler":"master_wins"} I(f,a,1)
> {"do":"turn","name":"r"}
< {"limit":610,"stop":"full","would":611}
$ run journal
> {"do":"turn","name":"r"}
< {"conflicts":["a"],"exchange":1,"rows":["a"],"sent":"push"}
< {"exchange":2,"place":{"id":"a","lwt":1},"rows":["a"],"sent":"pull"}
< {"end":"quiet","exchanges":2,"line":L,"ok":"turn"}

== the first record of a turn passes the limit
$ run journal --max-journal 532
. C(m) C(f) {"do":"replicate","name":"r","fork":"f","master":"m","handler":"master_wins"} I(f,a,1)
> {"do":"turn","name":"r"}
< {"limit":532,"stop":"full","would":533}
$ run journal
> {"do":"turn","name":"r"}
< {"conflicts":[],"exchange":1,"rows":["a"],"sent":"push"}
< {"exchange":2,"place":{"id":"a","lwt":1},"rows":["a"],"sent":"pull"}
< {"end":"quiet","exchanges":2,"line":L,"ok":"turn"}

== a journal longer than the limit is opened, and not made longer
^ BASE 00
$ run journal --max-journal 100
> C(d)
< {"limit":100,"stop":"full","would":206}
= BASE 00

== bytes behind the closed gate do not count for the limit
^ 'RXJOURN1' 00 ffffffffffffffffffffffffffffffffffffffffffffffffffff
$ run journal --max-journal 23
= 'RXJOURN1' 01 00000009 05 0000000000000001 00 ffffffffffffffffffffffff
"#;
