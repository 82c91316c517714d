// Hooks that stand before the writes of a collection.
pub const CASES: &str = r#"
== a number from the beginning, and a counter of edits
. C(c) {"do":"hook","in":"c","when":"insert","hook":"zero","field":"n"}
. {"do":"insert","in":"c","doc":{"id":"a"}}
. {"do":"hook","in":"c","when":"save","hook":"count","field":"n"}
> {"do":"update","in":"c","key":"a","update":{"$inc":{"n":5}}}
< {"line":L,"ok":"update","rev":"2-c"}
> {"do":"get","in":"c","key":"a"}
< {"doc":{"id":"a","n":6},"line":L,"lwt":2,"ok":"get","rev":"2-c"}
> {"do":"update","in":"c","key":"a","update":{"$unset":{"n":""}}}
< {"line":L,"ok":"update","rev":"3-c"}
> {"do":"get","in":"c","key":"a"}
< {"doc":{"id":"a","n":1},"line":L,"lwt":3,"ok":"get","rev":"3-c"}
> {"do":"patch","in":"c","key":"a","set":{"n":9007199254740991}}
< {"line":L,"ok":"patch","rev":"4-c"}
> {"do":"upsert","in":"c","doc":{"id":"a","n":4}}
< {"line":L,"ok":"upsert","rev":"5-c"}
> {"do":"upsert","in":"c","doc":{"id":"b"}}
< {"line":L,"ok":"upsert","rev":"1-c"}
> {"do":"bulk","in":"c","docs":[{"id":"d"},{"id":"e","n":2}]}
< {"line":L,"ok":"bulk","revs":["1-c","1-c"]}
> {"do":"find","in":"c","query":{}}
< {"line":L,"ok":"find","rows":[{"id":"a","n":5},{"id":"b","n":0},{"id":"d","n":0},{"id":"e","n":2}]}

== in the order of attaching, of one collection, and kept by a restart
. C(c) C(d) {"do":"hook","in":"c","when":"insert","hook":"count","field":"n"}
. {"do":"hook","in":"c","when":"insert","hook":"zero","field":"n"}
. {"do":"hook","in":"c","when":"insert","hook":"count","field":"n"}
> {"do":"restart"}
< {"epoch":2,"line":L,"ok":"restart"}
. {"do":"insert","in":"c","doc":{"id":"a"}} {"do":"insert","in":"d","doc":{"id":"a"}}
> {"do":"get","in":"c","key":"a"}
< {"doc":{"id":"a","n":2},"line":L,"lwt":1,"ok":"get","rev":"1-c"}
> {"do":"get","in":"d","key":"a"}
< {"doc":{"id":"a"},"line":L,"lwt":1,"ok":"get","rev":"1-d"}

== what a lock holds
. {"do":"collection","name":"c","schema":{"version":0,"primaryKey":"id","type":"object","properties":{"id":{"type":"string","maxLength":20},"n":{"type":"integer"},"held":{"type":"boolean"}}}}
. {"do":"hook","in":"c","when":"remove","hook":"lock","field":"held"}
. {"do":"insert","in":"c","doc":{"id":"a","held":true}}
> {"do":"remove","in":"c","key":"a"}
< {"code":33,"line":L,"name":"lock","refused":"vetoed"}
> {"do":"remove","in":"c","key":"a","rev":"2-c"}
< {"code":14,"line":L,"refused":"conflict","rev":"1-c"}
. {"do":"hook","in":"c","when":"insert","hook":"lock","field":"held"}
> {"do":"insert","in":"c","doc":{"id":"a","held":true,"n":"x"}}
< {"code":33,"line":L,"name":"lock","refused":"vetoed"}
> {"do":"insert","in":"c","doc":{"id":"a","n":"x"}}
< {"cause":"kind","code":13,"line":L,"name":"n","refused":"invalid"}
> {"do":"bulk","in":"c","docs":[{"id":"b"},{"id":"d"},{"id":"e","held":true,"n":"x"},{"id":"a"}]}
< {"code":33,"line":L,"name":"lock","refused":"vetoed","row":2}
> {"do":"bulk","in":"c","docs":[{"id":"b"},{"id":"a"},{"id":"e","held":true}]}
< {"code":14,"line":L,"refused":"conflict","rev":"1-c","row":1}
> {"do":"count","in":"c","query":{}}
< {"count":1,"line":L,"ok":"count"}
> {"do":"upsert","in":"c","doc":{"id":"a","held":false}}
< {"line":L,"ok":"upsert","rev":"2-c"}
> {"do":"remove","in":"c","key":"a"}
< {"line":L,"ok":"remove","rev":"3-c"}
> {"do":"upsert","in":"c","doc":{"id":"a","held":true}}
< {"code":33,"line":L,"name":"lock","refused":"vetoed"}

== a lock on saves holds each of them, by the fields that they would leave
. {"do":"collection","name":"c","schema":{"version":0,"primaryKey":"id","type":"object","properties":{"id":{"type":"string","maxLength":20},"n":{"type":"integer"},"held":{"type":"boolean"}}}}
. {"do":"hook","in":"c","when":"save","hook":"lock","field":"held"}
. {"do":"insert","in":"c","doc":{"id":"a","held":true}}
> {"do":"patch","in":"c","key":"a","set":{"n":1}}
< {"code":33,"line":L,"name":"lock","refused":"vetoed"}
> {"do":"update","in":"c","key":"a","update":{"$inc":{"n":1}}}
< {"code":33,"line":L,"name":"lock","refused":"vetoed"}
> {"do":"update","in":"c","key":"a","update":{"$inc":{"held":1}}}
< {"cause":"kind","code":32,"line":L,"name":"held","refused":"update"}
> {"do":"upsert","in":"c","doc":{"id":"a","held":true,"n":"x"}}
< {"code":33,"line":L,"name":"lock","refused":"vetoed"}
> {"do":"get","in":"c","key":"a"}
< {"doc":{"held":true,"id":"a"},"line":L,"lwt":1,"ok":"get","rev":"1-c"}
> {"do":"update","in":"c","key":"a","update":{"$set":{"held":false}}}
< {"line":L,"ok":"update","rev":"2-c"}
> {"do":"remove","in":"c","key":"a"}
< {"line":L,"ok":"remove","rev":"3-c"}

== a tombstone keeps what its hooks leave
. C(c) {"do":"hook","in":"c","when":"remove","hook":"count","field":"n"} I(c,a,1)
> {"do":"remove","in":"c","key":"a"}
< {"line":L,"ok":"remove","rev":"2-c"}
> {"do":"changes","in":"c"}
< {"docs":[{"_deleted":true,"id":"a","n":2}],"line":L,"ok":"changes","place":{"id":"a","lwt":2}}

== a turn runs none
. C(m) C(f) {"do":"replicate","name":"r","fork":"f","master":"m","handler":"master_wins"}
. {"do":"hook","in":"f","when":"insert","hook":"count","field":"n"} I(m,a,1)
> {"do":"turn","name":"r"}
< {"exchange":1,"place":{"id":"a","lwt":1},"rows":["a"],"sent":"pull"}
< {"end":"quiet","exchanges":1,"line":L,"ok":"turn"}
> {"do":"get","in":"f","key":"a"}
< {"doc":{"id":"a","n":1},"line":L,"lwt":1,"ok":"get","rev":"1-f"}

== what is no hook, and one too many
> {"do":"hook","in":"c","when":"insert","hook":"none","field":"n"}
< {"code":10,"line":L,"name":"c","refused":"no_collection"}
. C(c)
> {"do":"hook","in":"c","when":"insert","hook":"none","field":"n"}
< {"code":34,"line":L,"refused":"no_hook"}
> {"do":"hook","in":"c","when":"insert","hook":"count","field":"id"}
< {"code":34,"line":L,"refused":"no_hook"}
> {"do":"hook","in":"c","when":"insert","hook":"lock","field":"n"}
< {"code":34,"line":L,"refused":"no_hook"}
> {"do":"hook","in":"c","when":"insert","hook":"zero","field":"z"}
< {"code":34,"line":L,"refused":"no_hook"}
> {"do":"hook","in":"c","when":"Insert","hook":"zero","field":"n"}
< {"code":7,"line":L,"name":"when","refused":"wrong_type"}
> {"do":"hook","in":5,"when":5,"hook":5,"field":5}
< {"code":7,"line":L,"name":"in","refused":"wrong_type"}
> {"do":"hook","in":"C","when":"save","hook":5,"field":5}
< {"code":7,"line":L,"name":"hook","refused":"wrong_type"}
> {"do":"hook","in":"C","when":"save","hook":"zero","field":5}
< {"code":7,"line":L,"name":"field","refused":"wrong_type"}
> {"do":"hook","in":"C","when":"save","hook":"zero","field":"n"}
< {"code":8,"line":L,"name":"in","refused":"name"}
> {"do":"hook","when":"save","hook":"zero"}
< {"code":5,"line":L,"name":"in","refused":"missing"}

== a collection has sixteen at most, and another has its own
. C(c) C(d) {"do":"hook","in":"c","when":"save","hook":"zero","field":"n"}
‹0..15|
|. {"do":"hook","in":"c","when":"save","hook":"zero","field":"n"}›
> {"do":"hook","in":"c","when":"remove","hook":"zero","field":"n"}
< {"code":23,"line":L,"refused":"too_many"}
> {"do":"hook","in":"c","when":"remove","hook":"zero","field":"id"}
< {"code":34,"line":L,"refused":"no_hook"}
. {"do":"hook","in":"d","when":"save","hook":"zero","field":"n"}
"#;
