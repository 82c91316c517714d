// The line that takes a collection, and all that follows it here, to the next version of a schema.
pub const CASES: &str = r#"// A group goes to the next version.
== a number gets another name and grows tenfold, and a flag is set
FORKED
. I(m,a,1)
> {"do":"turn","name":"r"}
< {"exchange":1,"place":{"id":"a","lwt":1},"rows":["a"],"sent":"pull"}
< {"end":"quiet","exchanges":1,"line":L,"ok":"turn"}
> {"do":"migrate","in":"m","schema":COUNTED,"steps":[{"rename":"n","to":"count"},{"scale":"count","by":10},{"set":"on","value":true}]}
< {"collections":["m","f"],"line":L,"ok":"migrate"}
> {"do":"get","in":"f","key":"a"}
< {"doc":{"count":10,"id":"a","on":true},"line":L,"lwt":1,"ok":"get","rev":"1-f"}
> {"do":"turn","name":"r"}
< {"exchange":1,"place":{"id":"a","lwt":1},"rows":[],"sent":"pull"}
< {"end":"quiet","exchanges":1,"line":L,"ok":"turn"}
= BOTH
= 01 00000021 03 00000001 'r' 00000001 'f' 00 00000001 'm' 0000000b 'master_wins' 00
= 01 0000003e 02 00000001 'm' 0000000000000001 00000001
= 0000000000000001 00000001 'a' 00 00000002 00000002 'id' 02 00000001 'a' 00000001 'n' 01 0000000000000001
= 01 00000075 04 00000001 'r' 0000000000000001 00000001
= 0000000000000001 00000001 'a' 00 00000002 00000002 'id' 02 00000001 'a' 00000001 'n' 01 0000000000000001
= 00000001 00000001 'a' 00 00000002 00000002 'id' 02 00000001 'a' 00000001 'n' 01 0000000000000001
= 00 01 0000000000000001 00000001 'a'
= 01 000000ed 06 00000001 'm' 000000bb
= '{"indexes":[],"primaryKey":"id","properties":{"count":{"type":"integer"},"id":{"maxLength":20,"type":"string"},"on":{"type":"boolean"}},"required":["id","on"],"type":"object","version":1}'
= 00000003 00 00000001 'n' 00000005 'count' 03 00000005 'count' 000a 01 00000002 'on' 00 01
= 00
$ check journal
< {"collection":"m","count":1,"deleted":0,"digest":"e40e7869aafd649b4d99e238e5bb78894a93c847d98ad9700b9f2850c949f828","schema":HASHC}
< {"collection":"f","count":1,"deleted":0,"digest":"e40e7869aafd649b4d99e238e5bb78894a93c847d98ad9700b9f2850c949f828","schema":HASHC}
< {"fork":"f","master":"m","pending":0,"replication":"r"}
< {"end":830,"epoch":1,"records":7}
$ run journal
> {"do":"get","in":"f","key":"a"}
< {"doc":{"count":10,"id":"a","on":true},"line":L,"lwt":1,"ok":"get","rev":"1-f"}
> {"do":"turn","name":"r"}
< {"exchange":1,"place":{"id":"a","lwt":1},"rows":[],"sent":"pull"}
< {"end":"quiet","exchanges":1,"line":L,"ok":"turn"}

== without the flag that is required no document goes
FORKED
. I(m,a,1)
> {"do":"turn","name":"r"}
< {"exchange":1,"place":{"id":"a","lwt":1},"rows":["a"],"sent":"pull"}
< {"end":"quiet","exchanges":1,"line":L,"ok":"turn"}
> {"do":"migrate","in":"m","schema":COUNTED,"steps":[{"rename":"n","to":"count"},{"scale":"count","by":10}]}
< {"cause":"invalid","code":28,"line":L,"name":"m","refused":"migration"}
> {"do":"get","in":"f","key":"a"}
< {"doc":{"id":"a","n":1},"line":L,"lwt":1,"ok":"get","rev":"1-f"}

== the greatest factor, and what the steps may not be
. C(m) I(m,a,5)
> {"do":"migrate","in":"m","schema":AFTER,"steps":[]}
< {"cause":"version","code":28,"line":L,"name":"m","refused":"migration"}
> {"do":"migrate","in":"m","schema":NEXT,"steps":[{"drop":"id"}]}
< {"cause":"primary","code":28,"line":L,"name":"m","refused":"migration"}
> {"do":"migrate","in":"m","schema":SMALL,"steps":[]}
< {"cause":"invalid","code":28,"line":L,"name":"m","refused":"migration"}
> {"do":"migrate","in":"m","schema":NEXT,"steps":[{"scale":"n","by":1001}]}
< {"code":7,"line":L,"name":"steps","refused":"wrong_type"}
. {"do":"observe","name":"q","in":"m","query":{}}
< {"emit":"q","rows":[{"id":"a","n":5}]}
> {"do":"migrate","in":"m","schema":NEXT,"steps":[{"scale":"n","by":1000}]}
< {"code":29,"line":L,"name":"q","refused":"observed"}
. {"do":"unobserve","name":"q"}
> {"do":"migrate","in":"m","schema":NEXT,"steps":[{"scale":"n","by":1000}]}
< {"collections":["m"],"line":L,"ok":"migrate"}
> {"do":"get","in":"m","key":"a"}
< {"doc":{"id":"a","n":5000},"line":L,"lwt":1,"ok":"get","rev":"1-m"}

== one migration behind another, and what the new schema is held to
. C(m) I(m,a,1)
> {"do":"migrate","in":"m","schema":NEXT,"steps":[{"scale":"n","by":10}]}
< {"collections":["m"],"line":L,"ok":"migrate"}
> {"do":"migrate","in":"m","schema":AFTER,"steps":[{"scale":"n","by":10}]}
< {"collections":["m"],"line":L,"ok":"migrate"}
> {"do":"migrate","in":"m","schema":NEXT,"steps":[]}
< {"cause":"version","code":28,"line":L,"name":"m","refused":"migration"}
> {"do":"get","in":"m","key":"a"}
< {"doc":{"id":"a","n":100},"line":L,"lwt":1,"ok":"get","rev":"1-m"}
$ run journal
> C(m)
< {"code":12,"line":L,"refused":"schema_differs"}
> {"do":"collection","name":"m","schema":AFTER}
< {"line":L,"new":false,"ok":"collection"}
. C(f)
> {"do":"replicate","name":"r","fork":"f","master":"m","handler":"join"}
< {"code":12,"line":L,"refused":"schema_differs"}
. {"do":"collection","name":"g","schema":AFTER}
. {"do":"replicate","name":"r","fork":"g","master":"m","handler":"join"}
> {"do":"turn","name":"r"}
< {"exchange":1,"place":{"id":"a","lwt":1},"rows":["a"],"sent":"pull"}
< {"end":"quiet","exchanges":1,"line":L,"ok":"turn"}
> {"do":"get","in":"g","key":"a"}
< {"doc":{"id":"a","n":100},"line":L,"lwt":1,"ok":"get","rev":"1-g"}

== a text is set, a field that is there is not, and a number may become a text
. C(m) I(m,a,1) {"do":"insert","in":"m","doc":{"id":"b"}}
> {"do":"migrate","in":"m","schema":{"version":1,"primaryKey":"id","type":"object","properties":{"id":{"type":"string","maxLength":20},"n":{"type":"integer"},"t":{"type":"string","maxLength":3}},"required":["n","t"]},"steps":[{"set":"n","value":-7},{"set":"t","value":"xyzz"}]}
< {"cause":"invalid","code":28,"line":L,"name":"m","refused":"migration"}
> {"do":"migrate","in":"m","schema":{"version":1,"primaryKey":"id","type":"object","properties":{"id":{"type":"string","maxLength":20},"n":{"type":"integer"},"t":{"type":"string","maxLength":3}},"required":["n","t"]},"steps":[{"set":"n","value":-7},{"set":"t","value":"xyz"}]}
< {"collections":["m"],"line":L,"ok":"migrate"}
> {"do":"find","in":"m","query":{}}
< {"line":L,"ok":"find","rows":[{"id":"a","n":1,"t":"xyz"},{"id":"b","n":-7,"t":"xyz"}]}
> {"do":"migrate","in":"m","schema":{"version":2,"primaryKey":"id","type":"object","properties":{"id":{"type":"string","maxLength":20},"n":{"type":"string"}},"required":["n"]},"steps":[{"rename":"t","to":"n"}]}
< {"collections":["m"],"line":L,"ok":"migrate"}
> {"do":"find","in":"m","query":{"selector":{"n":"xyz"}}}
< {"line":L,"ok":"find","rows":[{"id":"a","n":"xyz"},{"id":"b","n":"xyz"}]}

== queries go by the new schema's index
. C(m)
> {"do":"bulk","in":"m","docs":[{"id":"a","n":1},{"id":"b","n":2},{"id":"d"}]}
< {"line":L,"ok":"bulk","revs":["1-m","1-m","1-m"]}
> {"do":"migrate","in":"m","schema":INDEXED,"steps":[{"scale":"n","by":100},{"set":"n","value":500}]}
< {"collections":["m"],"line":L,"ok":"migrate"}
> {"do":"find","in":"m","query":{"selector":{"n":{"$gte":200}},"sort":[{"n":"desc"}]}}
< {"line":L,"ok":"find","rows":[{"id":"d","n":500},{"id":"b","n":200}]}
. {"do":"observe","name":"q","in":"m","query":{"sort":[{"n":"desc"}],"limit":1}}
< {"emit":"q","rows":[{"id":"d","n":500}]}
. I(m,e,700)
< {"emit":"q","rows":[{"id":"e","n":700}]}

== its record passes the limit, and what was answered before stands
$ run journal --max-journal 829
FORKED
. I(m,a,1)
> {"do":"turn","name":"r"}
< {"exchange":1,"place":{"id":"a","lwt":1},"rows":["a"],"sent":"pull"}
< {"end":"quiet","exchanges":1,"line":L,"ok":"turn"}
> {"do":"migrate","in":"m","schema":COUNTED,"steps":[{"rename":"n","to":"count"},{"scale":"count","by":10},{"set":"on","value":true}]}
> {"do":"get","in":"f","key":"a"}
< {"limit":829,"stop":"full","would":830}
$ run journal --max-journal 844
> {"do":"migrate","in":"f","schema":COUNTED,"steps":[{"rename":"n","to":"count"},{"scale":"count","by":10},{"set":"on","value":true}]}
< {"collections":["m","f"],"line":L,"ok":"migrate"}

// A migration is refused by its members.
== a member that isn't there, and another one
> {"do":"migrate","zz":1}
< {"code":5,"line":L,"name":"in","refused":"missing"}
> {"do":"migrate","in":5}
< {"code":5,"line":L,"name":"schema","refused":"missing"}
> {"do":"migrate","in":5,"schema":5}
< {"code":5,"line":L,"name":"steps","refused":"missing"}
> {"do":"migrate","in":5,"steps":5}
< {"code":5,"line":L,"name":"schema","refused":"missing"}
> {"do":"migrate","in":5,"schema":5,"steps":5,"to":1,"by":1}
< {"code":6,"line":L,"name":"by","refused":"unexpected"}
> {"do":"Migrate","in":5}
< {"code":4,"line":L,"name":"Migrate","refused":"unknown_do"}

== a member of another kind, then the name
> {"do":"migrate","in":5,"schema":5,"steps":5}
< {"code":7,"line":L,"name":"in","refused":"wrong_type"}
> {"do":"migrate","in":"M","schema":5,"steps":5}
< {"code":7,"line":L,"name":"steps","refused":"wrong_type"}
> {"do":"migrate","in":"M","schema":5,"steps":null}
< {"code":7,"line":L,"name":"steps","refused":"wrong_type"}
> {"do":"migrate","in":"M","schema":5,"steps":{}}
< {"code":7,"line":L,"name":"steps","refused":"wrong_type"}
> {"do":"migrate","in":"M","schema":5,"steps":[]}
< {"code":8,"line":L,"name":"in","refused":"name"}

== what is no list of steps is told before what isn't held
> {"do":"migrate","in":"m","schema":5,"steps":[{"drop":"a"},{}]}
< {"code":7,"line":L,"name":"steps","refused":"wrong_type"}
> {"do":"migrate","in":"m","schema":5,"steps":[{"drop":"a","to":"b"}]}
< {"code":7,"line":L,"name":"steps","refused":"wrong_type"}
> {"do":"migrate","in":"m","schema":5,"steps":[{"drop":"9a"}]}
< {"code":7,"line":L,"name":"steps","refused":"wrong_type"}
> {"do":"migrate","in":"m","schema":5,"steps":[{"rename":"a","to":""}]}
< {"code":7,"line":L,"name":"steps","refused":"wrong_type"}
> {"do":"migrate","in":"m","schema":5,"steps":[{"set":"a","value":null}]}
< {"code":7,"line":L,"name":"steps","refused":"wrong_type"}
> {"do":"migrate","in":"m","schema":5,"steps":[{"set":"a","value":9007199254740992}]}
< {"code":7,"line":L,"name":"steps","refused":"wrong_type"}
> {"do":"migrate","in":"m","schema":5,"steps":[{"scale":"a","by":0}]}
< {"code":7,"line":L,"name":"steps","refused":"wrong_type"}
> {"do":"migrate","in":"m","schema":5,"steps":[DROPS{"drop":"x"},{"drop":"x"}]}
< {"code":7,"line":L,"name":"steps","refused":"wrong_type"}
> {"do":"migrate","in":"m","schema":5,"steps":[DROPS{"drop":"x"}]}
< {"code":10,"line":L,"name":"m","refused":"no_collection"}

== 64 steps are taken
. C(m) I(m,a,1)
> {"do":"migrate","in":"m","schema":NEXT,"steps":[DROPS{"scale":"n","by":3}]}
< {"collections":["m"],"line":L,"ok":"migrate"}
> {"do":"get","in":"m","key":"a"}
< {"doc":{"id":"a","n":3},"line":L,"lwt":1,"ok":"get","rev":"1-m"}

// A migration is refused by what is stored.
== the collection, the schema, its version, and then the key
> {"do":"migrate","in":"m","schema":5,"steps":[]}
< {"code":10,"line":L,"name":"m","refused":"no_collection"}
. C(m)
> {"do":"migrate","in":"m","schema":5,"steps":[{"drop":"id"}]}
< {"cause":"not_object","code":11,"line":L,"refused":"schema"}
> {"do":"migrate","in":"m","schema":{"version":65536,"primaryKey":"id","type":"object","properties":{}},"steps":[]}
< {"cause":"version","code":11,"line":L,"refused":"schema"}
> {"do":"migrate","in":"m","schema":AFTER,"steps":[{"drop":"id"}]}
< {"cause":"version","code":28,"line":L,"name":"m","refused":"migration"}
> {"do":"migrate","in":"m","schema":S1,"steps":[]}
< {"cause":"version","code":28,"line":L,"name":"m","refused":"migration"}
. {"do":"collection","name":"z","schema":{"version":65535,"primaryKey":"id","type":"object","properties":{"id":{"type":"string","maxLength":20},"n":{"type":"integer"}}}}
> {"do":"migrate","in":"z","schema":S1,"steps":[]}
< {"cause":"version","code":28,"line":L,"name":"z","refused":"migration"}

== the key has another name, or a step names it, which is told before the documents
. C(m) I(m,a,5)
> {"do":"migrate","in":"m","schema":KEYED,"steps":[]}
< {"cause":"primary","code":28,"line":L,"name":"m","refused":"migration"}
> {"do":"migrate","in":"m","schema":KEYED,"steps":[{"rename":"id","to":"k"}]}
< {"cause":"primary","code":28,"line":L,"name":"m","refused":"migration"}
> {"do":"migrate","in":"m","schema":SMALL,"steps":[{"drop":"x"},{"drop":"id"}]}
< {"cause":"primary","code":28,"line":L,"name":"m","refused":"migration"}
> {"do":"migrate","in":"m","schema":NEXT,"steps":[{"rename":"id","to":"id"}]}
< {"cause":"primary","code":28,"line":L,"name":"m","refused":"migration"}
> {"do":"migrate","in":"m","schema":NEXT,"steps":[{"rename":"x","to":"id"}]}
< {"cause":"primary","code":28,"line":L,"name":"m","refused":"migration"}
> {"do":"migrate","in":"m","schema":NEXT,"steps":[{"set":"id","value":"b"}]}
< {"cause":"primary","code":28,"line":L,"name":"m","refused":"migration"}
> {"do":"migrate","in":"m","schema":NEXT,"steps":[{"scale":"id","by":2}]}
< {"cause":"primary","code":28,"line":L,"name":"m","refused":"migration"}
> {"do":"migrate","in":"m","schema":NEXT,"steps":[{"set":"x","value":"id"},{"drop":"x"}]}
< {"collections":["m"],"line":L,"ok":"migrate"}

== a document that would be none, a deleted one too
. C(m) I(m,a,5)
> {"do":"migrate","in":"m","schema":SMALL,"steps":[]}
< {"cause":"invalid","code":28,"line":L,"name":"m","refused":"migration"}
> {"do":"migrate","in":"m","schema":NEXT,"steps":[{"rename":"n","to":"k"}]}
< {"cause":"invalid","code":28,"line":L,"name":"m","refused":"migration"}
> {"do":"migrate","in":"m","schema":BARE,"steps":[]}
< {"cause":"invalid","code":28,"line":L,"name":"m","refused":"migration"}
> {"do":"migrate","in":"m","schema":NEXT,"steps":[{"rename":"n","to":"k"},{"set":"n","value":"x"},{"drop":"k"}]}
< {"cause":"invalid","code":28,"line":L,"name":"m","refused":"migration"}
> {"do":"migrate","in":"m","schema":NEXT,"steps":[{"scale":"n","by":1000},{"scale":"n","by":1000},{"scale":"n","by":1000},{"scale":"n","by":1000},{"scale":"n","by":1000},{"scale":"n","by":2},{"drop":"n"}]}
< {"cause":"invalid","code":28,"line":L,"name":"m","refused":"migration"}
> {"do":"remove","in":"m","key":"a"}
< {"line":L,"ok":"remove","rev":"2-m"}
> {"do":"migrate","in":"m","schema":SMALL,"steps":[]}
< {"cause":"invalid","code":28,"line":L,"name":"m","refused":"migration"}
> {"do":"migrate","in":"m","schema":SMALL,"steps":[{"drop":"n"}]}
< {"collections":["m"],"line":L,"ok":"migrate"}

== the first collection that was made, whichever the line names
. C(f) C(m) {"do":"replicate","name":"r","fork":"f","master":"m","handler":"master_wins"} I(m,a,5)
> {"do":"migrate","in":"f","schema":SMALL,"steps":[]}
< {"cause":"invalid","code":28,"line":L,"name":"m","refused":"migration"}
. I(f,b,5)
> {"do":"migrate","in":"m","schema":SMALL,"steps":[]}
< {"cause":"invalid","code":28,"line":L,"name":"f","refused":"migration"}

== what is known, by the first replication that was made, behind all collections
FORKED
. C(g) {"do":"replicate","name":"a","fork":"g","master":"m","handler":"master_wins"} I(m,a,5)
> {"do":"turn","name":"r"}
< {"exchange":1,"place":{"id":"a","lwt":1},"rows":["a"],"sent":"pull"}
< {"end":"quiet","exchanges":1,"line":L,"ok":"turn"}
> {"do":"turn","name":"a"}
< {"exchange":1,"place":{"id":"a","lwt":1},"rows":["a"],"sent":"pull"}
< {"end":"quiet","exchanges":1,"line":L,"ok":"turn"}
> {"do":"patch","in":"m","key":"a","set":{"n":1}}
< {"line":L,"ok":"patch","rev":"2-m"}
> {"do":"patch","in":"f","key":"a","set":{"n":1}}
< {"line":L,"ok":"patch","rev":"2-f"}
> {"do":"migrate","in":"m","schema":SMALL,"steps":[]}
< {"cause":"invalid","code":28,"line":L,"name":"g","refused":"migration"}
> {"do":"patch","in":"g","key":"a","set":{"n":2}}
< {"line":L,"ok":"patch","rev":"2-g"}
> {"do":"migrate","in":"g","schema":SMALL,"steps":[]}
< {"cause":"invalid","code":28,"line":L,"name":"r","refused":"migration"}
> {"do":"turn","name":"r"}
< {"conflicts":["a"],"exchange":1,"rows":["a"],"sent":"push"}
< {"exchange":2,"place":{"id":"a","lwt":2},"rows":["a"],"sent":"pull"}
< {"end":"quiet","exchanges":2,"line":L,"ok":"turn"}
> {"do":"migrate","in":"f","schema":SMALL,"steps":[]}
< {"cause":"invalid","code":28,"line":L,"name":"a","refused":"migration"}
> {"do":"turn","name":"a"}
< {"conflicts":["a"],"exchange":1,"rows":["a"],"sent":"push"}
< {"exchange":2,"place":{"id":"a","lwt":2},"rows":["a"],"sent":"pull"}
< {"end":"quiet","exchanges":2,"line":L,"ok":"turn"}
> {"do":"migrate","in":"f","schema":SMALL,"steps":[]}
< {"collections":["m","f","g"],"line":L,"ok":"migrate"}

== a fork of a master elsewhere, behind what its states are refused for, before what is observed
. C(f) {"do":"replicate","name":"r","fork":"f","port":4001,"handler":"master_wins"}
> {"do":"turn","name":"r"}
+
@ {"docs":[{"_deleted":false,"id":"b","n":9}],"epoch":1,"n":1,"place":{"id":"b","lwt":5}}
& {"ask":"pull","batch":100,"epoch":1,"n":1,"schema":HASH0}
< {"exchange":1,"place":{"id":"b","lwt":5},"rows":["b"],"sent":"pull"}
< {"end":"quiet","exchanges":1,"line":L,"ok":"turn"}
> {"do":"migrate","in":"f","schema":SMALL,"steps":[]}
< {"cause":"invalid","code":28,"line":L,"name":"f","refused":"migration"}
> {"do":"patch","in":"f","key":"b","set":{"n":1}}
< {"line":L,"ok":"patch","rev":"2-f"}
> {"do":"migrate","in":"f","schema":SMALL,"steps":[]}
< {"cause":"invalid","code":28,"line":L,"name":"r","refused":"migration"}
. {"do":"observe","name":"q","in":"f","query":{}}
< {"emit":"q","rows":[{"id":"b","n":1}]}
> {"do":"migrate","in":"f","schema":NEXT,"steps":[]}
< {"code":30,"line":L,"refused":"remote"}
> {"do":"migrate","in":"f","schema":SMALL,"steps":[]}
< {"cause":"invalid","code":28,"line":L,"name":"r","refused":"migration"}
> {"do":"migrate","in":"f","schema":AFTER,"steps":[]}
< {"cause":"version","code":28,"line":L,"name":"f","refused":"migration"}
. {"do":"unobserve","name":"q"}
> {"do":"migrate","in":"f","schema":NEXT,"steps":[]}
< {"code":30,"line":L,"refused":"remote"}
. C(g)
> {"do":"migrate","in":"g","schema":SMALL,"steps":[]}
< {"collections":["g"],"line":L,"ok":"migrate"}
. C(h) {"do":"replicate","name":"s","fork":"h","master":"f","handler":"master_wins"}
> {"do":"migrate","in":"h","schema":NEXT,"steps":[]}
< {"code":30,"line":L,"refused":"remote"}

== the first observed query of the group, in the order of observing, also behind a restart
FORKED
. C(c) {"do":"observe","name":"z","in":"c","query":{}}
< {"emit":"z","rows":[]}
. {"do":"observe","name":"q","in":"f","query":{}}
< {"emit":"q","rows":[]}
. {"do":"observe","name":"o","in":"m","query":{}}
< {"emit":"o","rows":[]}
> {"do":"migrate","in":"m","schema":NEXT,"steps":[]}
< {"code":29,"line":L,"name":"q","refused":"observed"}
> {"do":"migrate","in":"c","schema":NEXT,"steps":[]}
< {"code":29,"line":L,"name":"z","refused":"observed"}
. I(m,a,5)
< {"emit":"o","rows":[{"id":"a","n":5}]}
> {"do":"migrate","in":"m","schema":SMALL,"steps":[]}
< {"cause":"invalid","code":28,"line":L,"name":"m","refused":"migration"}
. {"do":"unobserve","name":"q"}
> {"do":"restart"}
< {"epoch":2,"line":L,"ok":"restart"}
> {"do":"migrate","in":"f","schema":NEXT,"steps":[]}
< {"code":29,"line":L,"name":"o","refused":"observed"}
. {"do":"unobserve","name":"o"}
> {"do":"migrate","in":"f","schema":NEXT,"steps":[]}
< {"collections":["m","f"],"line":L,"ok":"migrate"}
. {"do":"observe","name":"q","in":"m","query":{"selector":{"n":5}}}
< {"emit":"q","rows":[{"id":"a","n":5}]}

// Heights, times and checkpoints stay.
== revisions, tombstones, write times, and the present moment
. C(c) {"do":"tick","at":40}
> {"do":"bulk","in":"c","docs":[{"id":"a","n":1},{"id":"b","n":2},{"id":"e"}]}
< {"line":L,"ok":"bulk","revs":["1-c","1-c","1-c"]}
> {"do":"remove","in":"c","key":"a"}
< {"line":L,"ok":"remove","rev":"2-c"}
> {"do":"patch","in":"c","key":"b","set":{"n":3}}
< {"line":L,"ok":"patch","rev":"2-c"}
. {"do":"tick","at":50}
> {"do":"migrate","in":"c","schema":COUNTED,"steps":[{"rename":"n","to":"count"},{"set":"on","value":false}]}
< {"collections":["c"],"line":L,"ok":"migrate"}
> {"do":"changes","in":"c"}
< {"docs":[{"_deleted":false,"id":"e","on":false},{"_deleted":true,"count":1,"id":"a","on":false},{"_deleted":false,"count":3,"id":"b","on":false}],"line":L,"ok":"changes","place":{"id":"b","lwt":42}}
> {"do":"changes","in":"c","since":{"id":"e","lwt":40}}
< {"docs":[{"_deleted":true,"count":1,"id":"a","on":false},{"_deleted":false,"count":3,"id":"b","on":false}],"line":L,"ok":"changes","place":{"id":"b","lwt":42}}
> {"do":"get","in":"c","key":"b"}
< {"doc":{"count":3,"id":"b","on":false},"line":L,"lwt":42,"ok":"get","rev":"2-c"}
> {"do":"get","in":"c","key":"e"}
< {"doc":{"id":"e","on":false},"line":L,"lwt":40,"ok":"get","rev":"1-c"}
> {"do":"get","in":"c","key":"a"}
< {"code":15,"line":L,"refused":"no_document"}
> {"do":"restart"}
< {"epoch":2,"line":L,"ok":"restart"}
> {"do":"changes","in":"c"}
< {"docs":[{"_deleted":false,"id":"e","on":false},{"_deleted":true,"count":1,"id":"a","on":false},{"_deleted":false,"count":3,"id":"b","on":false}],"line":L,"ok":"changes","place":{"id":"b","lwt":42}}
> I(c,a,1)
< {"cause":"missing","code":13,"line":L,"name":"on","refused":"invalid"}
> {"do":"insert","in":"c","doc":{"id":"a","n":1,"on":true}}
< {"cause":"unknown","code":13,"line":L,"name":"n","refused":"invalid"}
> {"do":"insert","in":"c","doc":{"id":"a","on":true}}
< insert 3-c
> {"do":"get","in":"c","key":"a"}
< {"doc":{"id":"a","on":true},"line":L,"lwt":50,"ok":"get","rev":"3-c"}
$ run journal
> {"do":"changes","in":"c"}
< {"docs":[{"_deleted":false,"id":"e","on":false},{"_deleted":false,"count":3,"id":"b","on":false},{"_deleted":false,"id":"a","on":true}],"line":L,"ok":"changes","place":{"id":"a","lwt":50}}
> {"do":"get","in":"c","key":"b"}
< {"doc":{"count":3,"id":"b","on":false},"line":L,"lwt":42,"ok":"get","rev":"2-c"}
> {"do":"digest","in":"c"}
< {"count":3,"digest":"89e623ea43da85ed02c3e245a946b9361d3f8a71f89a01591b5724d3cd5e23f1","line":L,"ok":"digest"}

== no write time is needed
. C(c) {"do":"tick","at":9007199254740991} I(c,a,1)
> {"do":"migrate","in":"c","schema":NEXT,"steps":[{"scale":"n","by":7}]}
< {"collections":["c"],"line":L,"ok":"migrate"}
> {"do":"get","in":"c","key":"a"}
< {"doc":{"id":"a","n":7},"line":L,"lwt":9007199254740991,"ok":"get","rev":"1-c"}
> I(c,b,1)
< {"code":22,"line":L,"refused":"clock"}

== a turn goes on from both checkpoints, in the next run too
FORKED
. I(m,a,1) I(m,b,2) I(m,d,3)
> {"do":"turn","name":"r","batch":1,"budget":2}
< {"exchange":1,"place":{"id":"a","lwt":1},"rows":["a"],"sent":"pull"}
< {"exchange":2,"place":{"id":"b","lwt":2},"rows":["b"],"sent":"pull"}
< {"end":"more","exchanges":2,"line":L,"ok":"turn"}
. I(f,e,4)
> {"do":"turn","name":"r","budget":1}
< {"conflicts":[],"exchange":1,"rows":["e"],"sent":"push"}
< {"end":"more","exchanges":1,"line":L,"ok":"turn"}
> {"do":"migrate","in":"f","schema":NEXT,"steps":[{"scale":"n","by":10}]}
< {"collections":["m","f"],"line":L,"ok":"migrate"}
> {"do":"turn","name":"r"}
< {"exchange":1,"place":{"id":"e","lwt":4},"rows":["d","e"],"sent":"pull"}
< {"end":"quiet","exchanges":1,"line":L,"ok":"turn"}
> {"do":"find","in":"f","query":{}}
< {"line":L,"ok":"find","rows":[{"id":"a","n":10},{"id":"b","n":20},{"id":"d","n":30},{"id":"e","n":40}]}
> {"do":"get","in":"f","key":"e"}
< {"doc":{"id":"e","n":40},"line":L,"lwt":3,"ok":"get","rev":"1-f"}
> {"do":"get","in":"m","key":"e"}
< {"doc":{"id":"e","n":40},"line":L,"lwt":4,"ok":"get","rev":"1-m"}
$ run journal
> {"do":"turn","name":"r"}
< {"exchange":1,"place":{"id":"e","lwt":4},"rows":[],"sent":"pull"}
< {"end":"quiet","exchanges":1,"line":L,"ok":"turn"}

== a change that the steps take away isn't pushed
FORKED
. I(m,a,1)
> {"do":"turn","name":"r"}
< {"exchange":1,"place":{"id":"a","lwt":1},"rows":["a"],"sent":"pull"}
< {"end":"quiet","exchanges":1,"line":L,"ok":"turn"}
> {"do":"patch","in":"f","key":"a","set":{"n":2}}
< {"line":L,"ok":"patch","rev":"2-f"}
> {"do":"migrate","in":"f","schema":BARE,"steps":[{"drop":"n"}]}
< {"collections":["m","f"],"line":L,"ok":"migrate"}
> {"do":"turn","name":"r"}
< {"exchange":1,"place":{"id":"a","lwt":1},"rows":[],"sent":"pull"}
< {"end":"quiet","exchanges":1,"line":L,"ok":"turn"}
> {"do":"get","in":"f","key":"a"}
< {"doc":{"id":"a"},"line":L,"lwt":2,"ok":"get","rev":"2-f"}
> {"do":"get","in":"m","key":"a"}
< {"doc":{"id":"a"},"line":L,"lwt":1,"ok":"get","rev":"1-m"}

== a query of another collection hears nothing, and stays warm
FORKED
. C(c) I(m,a,1)
> {"do":"bulk","in":"c","docs":[{"id":"a","n":1},{"id":"b","n":2},{"id":"d","n":3}]}
< {"line":L,"ok":"bulk","revs":["1-c","1-c","1-c"]}
. {"do":"observe","name":"q","in":"c","query":{"sort":[{"n":"asc"}],"skip":2}}
< {"emit":"q","rows":[{"id":"d","n":3}]}
> {"do":"migrate","in":"m","schema":NEXT,"steps":[{"scale":"n","by":3}]}
< {"collections":["m","f"],"line":L,"ok":"migrate"}
> {"do":"patch","in":"c","key":"b","set":{"n":0}}
< {"line":L,"ok":"patch","rev":"2-c"}
> {"do":"explain","name":"q"}
< {"actions":{"doNothing":1},"asked":13,"changes":1,"full":0,"line":L,"ok":"explain"}
> {"do":"migrate","in":"f","schema":AFTER,"steps":[]}
< {"collections":["m","f"],"line":L,"ok":"migrate"}
. I(c,e,9)
< {"emit":"q","rows":[{"id":"d","n":3},{"id":"e","n":9}]}

== the field by which the greater wins is gone, or was scaled
FORKED
. C(g) {"do":"replicate","name":"s","fork":"g","master":"m","handler":"greater","field":"n"}
. I(m,a,3) I(g,a,4)
> {"do":"migrate","in":"m","schema":NEXT,"steps":[{"scale":"n","by":2}]}
< {"collections":["m","f","g"],"line":L,"ok":"migrate"}
> {"do":"turn","name":"s"}
< {"conflicts":["a"],"exchange":1,"rows":["a"],"sent":"push"}
< {"conflicts":[],"exchange":2,"rows":["a"],"sent":"push"}
< {"exchange":3,"place":{"id":"a","lwt":2},"rows":["a"],"sent":"pull"}
< {"end":"quiet","exchanges":3,"line":L,"ok":"turn"}
> {"do":"get","in":"m","key":"a"}
< {"doc":{"id":"a","n":8},"line":L,"lwt":2,"ok":"get","rev":"2-m"}
> {"do":"migrate","in":"m","schema":{"version":2,"primaryKey":"id","type":"object","properties":{"id":{"type":"string","maxLength":20},"k":{"type":"integer"}}},"steps":[{"rename":"n","to":"k"}]}
< {"collections":["m","f","g"],"line":L,"ok":"migrate"}
> {"do":"turn","name":"s"}
< {"code":19,"line":L,"refused":"no_handler"}
> {"do":"turn","name":"r"}
< {"exchange":1,"place":{"id":"a","lwt":2},"rows":["a"],"sent":"pull"}
< {"end":"quiet","exchanges":1,"line":L,"ok":"turn"}

// Requests of the group are forgotten.
== a late request of the group comes no more, and one of another group does
. C(m) C(f) {"do":"replicate","name":"r","fork":"f","master":"m","handler":"fork_wins"} C(p) C(g)
. {"do":"replicate","name":"s","fork":"g","master":"p","handler":"fork_wins"} I(f,a,1) I(g,a,1)
> {"do":"turn","name":"r","link":["lose_request"]}
< {"exchange":1,"lost":"lose_request","rows":["a"],"sent":"push"}
< {"end":"lost","exchanges":1,"line":L,"ok":"turn"}
> {"do":"turn","name":"s","link":["lose_request"]}
< {"exchange":1,"lost":"lose_request","rows":["a"],"sent":"push"}
< {"end":"lost","exchanges":1,"line":L,"ok":"turn"}
> {"do":"patch","in":"f","key":"a","set":{"n":2}}
< {"line":L,"ok":"patch","rev":"2-f"}
> {"do":"patch","in":"g","key":"a","set":{"n":2}}
< {"line":L,"ok":"patch","rev":"2-g"}
> {"do":"migrate","in":"m","schema":NEXT,"steps":[]}
< {"collections":["m","f"],"line":L,"ok":"migrate"}
> {"do":"turn","name":"r","link":[{"late":1}]}
< {"conflicts":[],"exchange":1,"rows":["a"],"sent":"push"}
< {"exchange":2,"place":{"id":"a","lwt":1},"rows":["a"],"sent":"pull"}
< {"end":"quiet","exchanges":2,"line":L,"ok":"turn"}
> {"do":"get","in":"m","key":"a"}
< {"doc":{"id":"a","n":2},"line":L,"lwt":1,"ok":"get","rev":"1-m"}
> {"do":"turn","name":"s","link":[{"late":1}]}
< {"conflicts":["a"],"exchange":1,"rows":["a"],"sent":"push"}
< {"conflicts":[],"exchange":2,"rows":["a"],"sent":"push"}
< {"exchange":3,"place":{"id":"a","lwt":2},"rows":["a"],"sent":"pull"}
< {"end":"quiet","exchanges":3,"line":L,"ok":"turn"}
> {"do":"get","in":"g","key":"a"}
< {"doc":{"id":"a","n":2},"line":L,"lwt":3,"ok":"get","rev":"3-g"}

== that of a fork of a fork comes no more either, behind a request from then on
. C(m) C(f) C(g) {"do":"replicate","name":"r","fork":"f","master":"m","handler":"fork_wins"}
. {"do":"replicate","name":"s","fork":"g","master":"f","handler":"fork_wins"} I(g,a,1)
> {"do":"turn","name":"s","link":["lose_request"]}
< {"exchange":1,"lost":"lose_request","rows":["a"],"sent":"push"}
< {"end":"lost","exchanges":1,"line":L,"ok":"turn"}
> {"do":"migrate","in":"m","schema":NEXT,"steps":[{"scale":"n","by":10}]}
< {"collections":["m","f","g"],"line":L,"ok":"migrate"}
> {"do":"turn","name":"s","link":["lose_request"]}
< {"exchange":1,"lost":"lose_request","rows":["a"],"sent":"push"}
< {"end":"lost","exchanges":1,"line":L,"ok":"turn"}
> {"do":"patch","in":"g","key":"a","set":{"n":2}}
< {"line":L,"ok":"patch","rev":"2-g"}
> {"do":"turn","name":"s","link":[{"late":2}],"budget":1}
< {"conflicts":[],"exchange":1,"rows":["a"],"sent":"push"}
< {"end":"more","exchanges":1,"line":L,"ok":"turn"}
> {"do":"get","in":"f","key":"a"}
< {"doc":{"id":"a","n":2},"line":L,"lwt":1,"ok":"get","rev":"1-f"}

== a request from behind the line comes late as any
FORKED
> {"do":"migrate","in":"m","schema":NEXT,"steps":[]}
< {"collections":["m","f"],"line":L,"ok":"migrate"}
. I(f,a,1)
> {"do":"turn","name":"r","link":["lose_request"]}
< {"exchange":1,"lost":"lose_request","rows":["a"],"sent":"push"}
< {"end":"lost","exchanges":1,"line":L,"ok":"turn"}
> {"do":"patch","in":"f","key":"a","set":{"n":2}}
< {"line":L,"ok":"patch","rev":"2-f"}
> {"do":"turn","name":"r","link":[{"late":1}]}
< {"conflicts":["a"],"exchange":1,"rows":["a"],"sent":"push"}
< {"exchange":2,"place":{"id":"a","lwt":1},"rows":["a"],"sent":"pull"}
< {"end":"quiet","exchanges":2,"line":L,"ok":"turn"}
> {"do":"get","in":"f","key":"a"}
< {"doc":{"id":"a","n":1},"line":L,"lwt":3,"ok":"get","rev":"3-f"}

== a request that was handled before the line is not handled again behind it
FORKED
. I(f,a,1)
> {"do":"turn","name":"r","budget":1}
< {"conflicts":[],"exchange":1,"rows":["a"],"sent":"push"}
< {"end":"more","exchanges":1,"line":L,"ok":"turn"}
> {"do":"patch","in":"f","key":"a","set":{"n":2}}
< {"line":L,"ok":"patch","rev":"2-f"}
> {"do":"turn","name":"r","budget":1}
< {"conflicts":[],"exchange":1,"rows":["a"],"sent":"push"}
< {"end":"more","exchanges":1,"line":L,"ok":"turn"}
> {"do":"patch","in":"m","key":"a","set":{"n":1}}
< {"line":L,"ok":"patch","rev":"3-m"}
> {"do":"migrate","in":"m","schema":NEXT,"steps":[]}
< {"collections":["m","f"],"line":L,"ok":"migrate"}
> {"do":"turn","name":"r","link":[{"late":1}]}
< {"exchange":1,"place":{"id":"a","lwt":3},"rows":["a"],"sent":"pull"}
< {"end":"quiet","exchanges":1,"line":L,"ok":"turn"}
> {"do":"get","in":"m","key":"a"}
< {"doc":{"id":"a","n":1},"line":L,"lwt":3,"ok":"get","rev":"3-m"}

== a stale reply is dropped, whether there is one or none
FORKED
. I(f,a,1)
> {"do":"turn","name":"r"}
< {"conflicts":[],"exchange":1,"rows":["a"],"sent":"push"}
< {"exchange":2,"place":{"id":"a","lwt":1},"rows":["a"],"sent":"pull"}
< {"end":"quiet","exchanges":2,"line":L,"ok":"turn"}
> {"do":"migrate","in":"m","schema":NEXT,"steps":[{"scale":"n","by":10}]}
< {"collections":["m","f"],"line":L,"ok":"migrate"}
. I(m,b,2)
> {"do":"turn","name":"r","link":["stale"]}
< {"exchange":1,"lost":"stale","sent":"pull"}
< {"end":"lost","exchanges":1,"line":L,"ok":"turn"}
> {"do":"turn","name":"r","link":["stale"]}
< {"exchange":1,"lost":"stale","sent":"pull"}
< {"end":"lost","exchanges":1,"line":L,"ok":"turn"}
> {"do":"turn","name":"r"}
< {"exchange":1,"place":{"id":"b","lwt":2},"rows":["b"],"sent":"pull"}
< {"end":"quiet","exchanges":1,"line":L,"ok":"turn"}
> {"do":"find","in":"f","query":{}}
< {"line":L,"ok":"find","rows":[{"id":"a","n":10},{"id":"b","n":2}]}

// Hooks of the group are dropped.
== hooks of the group run no more, and those of another collection do
FORKED
. C(c) {"do":"hook","in":"f","when":"insert","hook":"zero","field":"n"}
. {"do":"hook","in":"c","when":"insert","hook":"zero","field":"n"}
. {"do":"hook","in":"m","when":"save","hook":"count","field":"n"} I(m,a,1)
> {"do":"migrate","in":"m","schema":NEXT,"steps":[]}
< {"collections":["m","f"],"line":L,"ok":"migrate"}
. {"do":"insert","in":"c","doc":{"id":"b"}}
> {"do":"get","in":"c","key":"b"}
< {"doc":{"id":"b","n":0},"line":L,"lwt":1,"ok":"get","rev":"1-c"}
> {"do":"patch","in":"m","key":"a","set":{}}
< {"line":L,"ok":"patch","rev":"2-m"}
> {"do":"get","in":"m","key":"a"}
< {"doc":{"id":"a","n":1},"line":L,"lwt":2,"ok":"get","rev":"2-m"}
. {"do":"insert","in":"f","doc":{"id":"b"}}
> {"do":"get","in":"f","key":"b"}
< {"doc":{"id":"b"},"line":L,"lwt":1,"ok":"get","rev":"1-f"}

== a hook's field goes, and writes go on without it
. C(m) {"do":"hook","in":"m","when":"insert","hook":"zero","field":"n"}
> {"do":"migrate","in":"m","schema":BARE,"steps":[{"drop":"n"}]}
< {"collections":["m"],"line":L,"ok":"migrate"}
. {"do":"insert","in":"m","doc":{"id":"a"}}

// A group of many comes together afterwards.
== a master, three forks and a fork of one of them, each with what is to be pushed
FORKED
. C(g) C(h) C(k) {"do":"replicate","name":"s","fork":"g","master":"m","handler":"fork_wins"}
. {"do":"replicate","name":"t","fork":"h","master":"m","handler":"master_wins"}
. {"do":"replicate","name":"u","fork":"k","master":"h","handler":"master_wins"} I(m,a,1)
> {"do":"turn","name":"r"}
< {"exchange":1,"place":{"id":"a","lwt":1},"rows":["a"],"sent":"pull"}
< {"end":"quiet","exchanges":1,"line":L,"ok":"turn"}
> {"do":"turn","name":"s"}
< {"exchange":1,"place":{"id":"a","lwt":1},"rows":["a"],"sent":"pull"}
< {"end":"quiet","exchanges":1,"line":L,"ok":"turn"}
> {"do":"turn","name":"t"}
< {"exchange":1,"place":{"id":"a","lwt":1},"rows":["a"],"sent":"pull"}
< {"end":"quiet","exchanges":1,"line":L,"ok":"turn"}
> {"do":"turn","name":"u"}
< {"exchange":1,"place":{"id":"a","lwt":1},"rows":["a"],"sent":"pull"}
< {"end":"quiet","exchanges":1,"line":L,"ok":"turn"}
> {"do":"patch","in":"f","key":"a","set":{"n":2}}
< {"line":L,"ok":"patch","rev":"2-f"}
> {"do":"patch","in":"g","key":"a","set":{"n":3}}
< {"line":L,"ok":"patch","rev":"2-g"}
. I(h,d,4) I(k,e,5)
> {"do":"migrate","in":"k","schema":COUNTED,"steps":[{"rename":"n","to":"count"},{"scale":"count","by":10},{"set":"on","value":true}]}
< {"collections":["m","f","g","h","k"],"line":L,"ok":"migrate"}
> {"do":"turn","name":"r"}
< {"conflicts":[],"exchange":1,"rows":["a"],"sent":"push"}
< {"exchange":2,"place":{"id":"a","lwt":2},"rows":["a"],"sent":"pull"}
< {"end":"quiet","exchanges":2,"line":L,"ok":"turn"}
> {"do":"turn","name":"s"}
< {"conflicts":["a"],"exchange":1,"rows":["a"],"sent":"push"}
< {"conflicts":[],"exchange":2,"rows":["a"],"sent":"push"}
< {"exchange":3,"place":{"id":"a","lwt":3},"rows":["a"],"sent":"pull"}
< {"end":"quiet","exchanges":3,"line":L,"ok":"turn"}
> {"do":"turn","name":"t"}
< {"conflicts":[],"exchange":1,"rows":["d"],"sent":"push"}
< {"exchange":2,"place":{"id":"d","lwt":4},"rows":["a","d"],"sent":"pull"}
< {"end":"quiet","exchanges":2,"line":L,"ok":"turn"}
> {"do":"turn","name":"u"}
< {"conflicts":[],"exchange":1,"rows":["e"],"sent":"push"}
< {"exchange":2,"place":{"id":"e","lwt":4},"rows":["d","a","e"],"sent":"pull"}
< {"end":"quiet","exchanges":2,"line":L,"ok":"turn"}
> {"do":"turn","name":"t"}
< {"conflicts":[],"exchange":1,"rows":["e"],"sent":"push"}
< {"exchange":2,"place":{"id":"e","lwt":5},"rows":["e"],"sent":"pull"}
< {"end":"quiet","exchanges":2,"line":L,"ok":"turn"}
> {"do":"turn","name":"r"}
< {"exchange":1,"place":{"id":"e","lwt":5},"rows":["a","d","e"],"sent":"pull"}
< {"end":"quiet","exchanges":1,"line":L,"ok":"turn"}
> {"do":"turn","name":"s"}
< {"exchange":1,"place":{"id":"e","lwt":5},"rows":["d","e"],"sent":"pull"}
< {"end":"quiet","exchanges":1,"line":L,"ok":"turn"}
> {"do":"turn","name":"u"}
< {"exchange":1,"place":{"id":"e","lwt":4},"rows":[],"sent":"pull"}
< {"end":"quiet","exchanges":1,"line":L,"ok":"turn"}
> {"do":"digest","in":"m"}
< {"count":3,"digest":"70717343b046e49b0d83fe16a956df6931c0f9fe2365b0dcd5bbab83b89312d9","line":L,"ok":"digest"}
> {"do":"digest","in":"f"}
< {"count":3,"digest":"70717343b046e49b0d83fe16a956df6931c0f9fe2365b0dcd5bbab83b89312d9","line":L,"ok":"digest"}
> {"do":"digest","in":"g"}
< {"count":3,"digest":"70717343b046e49b0d83fe16a956df6931c0f9fe2365b0dcd5bbab83b89312d9","line":L,"ok":"digest"}
> {"do":"digest","in":"h"}
< {"count":3,"digest":"70717343b046e49b0d83fe16a956df6931c0f9fe2365b0dcd5bbab83b89312d9","line":L,"ok":"digest"}
> {"do":"digest","in":"k"}
< {"count":3,"digest":"70717343b046e49b0d83fe16a956df6931c0f9fe2365b0dcd5bbab83b89312d9","line":L,"ok":"digest"}
$ run journal
> {"do":"digest","in":"m"}
< {"count":3,"digest":"70717343b046e49b0d83fe16a956df6931c0f9fe2365b0dcd5bbab83b89312d9","line":L,"ok":"digest"}
> {"do":"digest","in":"k"}
< {"count":3,"digest":"70717343b046e49b0d83fe16a956df6931c0f9fe2365b0dcd5bbab83b89312d9","line":L,"ok":"digest"}
> {"do":"get","in":"g","key":"a"}
< {"doc":{"count":30,"id":"a","on":true},"line":L,"lwt":3,"ok":"get","rev":"3-g"}

== a group in the order of making, and what isn't joined to it
. C(f) C(x) C(m) C(y) {"do":"replicate","name":"s","fork":"y","master":"x","handler":"join"}
. {"do":"replicate","name":"r","fork":"f","master":"m","handler":"join"} I(y,a,9)
> {"do":"migrate","in":"m","schema":SMALL,"steps":[]}
< {"collections":["f","m"],"line":L,"ok":"migrate"}
> {"do":"replicate","name":"t","fork":"m","master":"y","handler":"join"}
< {"code":12,"line":L,"refused":"schema_differs"}
> {"do":"migrate","in":"y","schema":SMALL,"steps":[{"drop":"n"}]}
< {"collections":["x","y"],"line":L,"ok":"migrate"}
. {"do":"replicate","name":"t","fork":"m","master":"y","handler":"join"}
> {"do":"migrate","in":"f","schema":AFTER,"steps":[]}
< {"collections":["f","x","m","y"],"line":L,"ok":"migrate"}

// Masters and forks elsewhere stay behind.
== the numbers of another group's requests go on
. C(m) C(c) {"do":"replicate","name":"r","fork":"c","port":4001,"handler":"master_wins"}
> {"do":"turn","name":"r"}
+
@ {"docs":[],"epoch":1,"n":1}
& {"ask":"pull","batch":100,"epoch":1,"n":1,"schema":HASH0}
< {"exchange":1,"rows":[],"sent":"pull"}
< {"end":"quiet","exchanges":1,"line":L,"ok":"turn"}
> {"do":"migrate","in":"m","schema":NEXT,"steps":[]}
< {"collections":["m"],"line":L,"ok":"migrate"}
> {"do":"turn","name":"r"}
+
@ {"docs":[],"epoch":1,"n":2}
& {"ask":"pull","batch":100,"epoch":1,"n":2,"schema":HASH0}
< {"exchange":1,"rows":[],"sent":"pull"}
< {"end":"quiet","exchanges":1,"line":L,"ok":"turn"}

== a fork elsewhere of the schema before isn't served, and one of the new schema is
. C(m) I(m,a,1)
> {"do":"migrate","in":"m","schema":NEXT,"steps":[{"scale":"n","by":10}]}
< {"collections":["m"],"line":L,"ok":"migrate"}
$ serve journal m 4001 2
* a peer
@ {"ask":"pull","batch":100,"epoch":1,"n":1,"schema":HASH0}
& {"fault":"schema"}
* a peer
@ {"ask":"pull","batch":100,"epoch":1,"n":1,"schema":HASH1}
& {"docs":[{"_deleted":false,"id":"a","n":10}],"epoch":1,"n":1,"place":{"id":"a","lwt":1}}
< {"connection":1,"end":"request","requests":0}
< {"connection":2,"end":"peer","requests":1}

== a fork whose master elsewhere went on is lost, and a new one of the next version isn't
. C(f) {"do":"replicate","name":"r","fork":"f","port":4001,"handler":"master_wins"}
> {"do":"turn","name":"r"}
+
@ {"fault":"schema"}
& {"ask":"pull","batch":100,"epoch":1,"n":1,"schema":HASH0}
< {"exchange":1,"lost":"reply","sent":"pull"}
< {"end":"lost","exchanges":1,"line":L,"ok":"turn"}
> {"do":"migrate","in":"f","schema":NEXT,"steps":[]}
< {"code":30,"line":L,"refused":"remote"}
. {"do":"collection","name":"g","schema":NEXT}
. {"do":"replicate","name":"s","fork":"g","port":4001,"handler":"master_wins"}
> {"do":"turn","name":"s"}
+
@ {"docs":[],"epoch":1,"n":1}
& {"ask":"pull","batch":100,"epoch":1,"n":1,"schema":HASH1}
< {"exchange":1,"rows":[],"sent":"pull"}
< {"end":"quiet","exchanges":1,"line":L,"ok":"turn"}
"#;
