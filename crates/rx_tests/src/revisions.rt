// What writes store: revisions, write times, and fields.
pub const CASES: &str = r#"
== heights go on over a tombstone
. C(c) I(c,a,1)
> {"do":"remove","in":"c","key":"a"}
< {"line":L,"ok":"remove","rev":"2-c"}
> I(c,a,1)
< insert 3-c
> {"do":"get","in":"c","key":"a"}
< {"doc":{"id":"a","n":1},"line":L,"lwt":3,"ok":"get","rev":"3-c"}
> {"do":"remove","in":"c","key":"a"}
< {"line":L,"ok":"remove","rev":"4-c"}
> {"do":"upsert","in":"c","doc":{"id":"a"}}
< {"line":L,"ok":"upsert","rev":"5-c"}
> {"do":"remove","in":"c","key":"a"}
< {"line":L,"ok":"remove","rev":"6-c"}
> {"do":"bulk","in":"c","docs":[{"id":"b"},{"id":"a"}]}
< {"line":L,"ok":"bulk","revs":["1-c","7-c"]}
> {"do":"get","in":"c","key":"a"}
< {"doc":{"id":"a"},"line":L,"lwt":7,"ok":"get","rev":"7-c"}

== an insert over a tombstone keeps none of its fields
. {"do":"collection","name":"c","schema":S2} {"do":"insert","in":"c","doc":{"id":"a","n":1,"t":"x"}}
> {"do":"remove","in":"c","key":"a"}
< {"line":L,"ok":"remove","rev":"2-c"}
> {"do":"insert","in":"c","doc":{"id":"a","n":2}}
< insert 3-c
> {"do":"get","in":"c","key":"a"}
< {"doc":{"id":"a","n":2},"line":L,"lwt":3,"ok":"get","rev":"3-c"}

== a revision names the collection
. C(long-name_1) I(long-name_1,a,1) C(d) I(d,a,1)
> {"do":"upsert","in":"d","doc":{"id":"a"}}
< {"line":L,"ok":"upsert","rev":"2-d"}
> {"do":"get","in":"long-name_1","key":"a"}
< {"doc":{"id":"a","n":1},"line":L,"lwt":1,"ok":"get","rev":"1-long-name_1"}

== heights have as many digits as they need
. C(c) I(c,a,1)
> {"do":"patch","in":"c","key":"a","set":{}}
< {"line":L,"ok":"patch","rev":"2-c"}
> {"do":"patch","in":"c","key":"a","set":{}}
< {"line":L,"ok":"patch","rev":"3-c"}
> {"do":"patch","in":"c","key":"a","set":{}}
< {"line":L,"ok":"patch","rev":"4-c"}
> {"do":"patch","in":"c","key":"a","set":{}}
< {"line":L,"ok":"patch","rev":"5-c"}
> {"do":"patch","in":"c","key":"a","set":{}}
< {"line":L,"ok":"patch","rev":"6-c"}
> {"do":"patch","in":"c","key":"a","set":{}}
< {"line":L,"ok":"patch","rev":"7-c"}
> {"do":"patch","in":"c","key":"a","set":{}}
< {"line":L,"ok":"patch","rev":"8-c"}
> {"do":"patch","in":"c","key":"a","set":{}}
< {"line":L,"ok":"patch","rev":"9-c"}
> {"do":"patch","in":"c","key":"a","set":{},"rev":"9-c"}
< {"line":L,"ok":"patch","rev":"10-c"}
> {"do":"get","in":"c","key":"a"}
< {"doc":{"id":"a","n":1},"line":L,"lwt":10,"ok":"get","rev":"10-c"}

== an upsert replaces all fields, and a patch sets the named ones
. {"do":"collection","name":"c","schema":S2}
> {"do":"upsert","in":"c","doc":{"id":"a","n":1,"t":"x"}}
< {"line":L,"ok":"upsert","rev":"1-c"}
> {"do":"upsert","in":"c","doc":{"id":"a","n":2}}
< {"line":L,"ok":"upsert","rev":"2-c"}
> {"do":"get","in":"c","key":"a"}
< {"doc":{"id":"a","n":2},"line":L,"lwt":2,"ok":"get","rev":"2-c"}
> {"do":"patch","in":"c","key":"a","set":{"t":"y"}}
< {"line":L,"ok":"patch","rev":"3-c"}
> {"do":"get","in":"c","key":"a"}
< {"doc":{"id":"a","n":2,"t":"y"},"line":L,"lwt":3,"ok":"get","rev":"3-c"}
> {"do":"patch","in":"c","key":"a","set":{"t":"z","n":3,"id":"a"}}
< {"line":L,"ok":"patch","rev":"4-c"}
> {"do":"get","in":"c","key":"a"}
< {"doc":{"id":"a","n":3,"t":"z"},"line":L,"lwt":4,"ok":"get","rev":"4-c"}

== a write that leaves the fields as they are is a write
. C(c) I(c,a,1)
> {"do":"upsert","in":"c","doc":{"id":"a","n":1}}
< {"line":L,"ok":"upsert","rev":"2-c"}
> {"do":"patch","in":"c","key":"a","set":{"n":1}}
< {"line":L,"ok":"patch","rev":"3-c"}
> {"do":"patch","in":"c","key":"a","set":{}}
< {"line":L,"ok":"patch","rev":"4-c"}
> {"do":"get","in":"c","key":"a"}
< {"doc":{"id":"a","n":1},"line":L,"lwt":4,"ok":"get","rev":"4-c"}

== a bulk is one commit at one time
. C(c)
> {"do":"bulk","in":"c","docs":[{"id":"a"},{"id":"b"},{"id":"d"},{"id":"e"},{"id":"g"}]}
< {"line":L,"ok":"bulk","revs":["1-c","1-c","1-c","1-c","1-c"]}
> {"do":"get","in":"c","key":"a"}
< {"doc":{"id":"a"},"line":L,"lwt":1,"ok":"get","rev":"1-c"}
> {"do":"get","in":"c","key":"g"}
< {"doc":{"id":"g"},"line":L,"lwt":1,"ok":"get","rev":"1-c"}
. I(c,h,1)
> {"do":"get","in":"c","key":"h"}
< {"doc":{"id":"h","n":1},"line":L,"lwt":2,"ok":"get","rev":"1-c"}

== the revisions of a bulk stand in the order of its documents
. C(c) I(c,b,1)
> {"do":"remove","in":"c","key":"b"}
< {"line":L,"ok":"remove","rev":"2-c"}
. I(c,z,1)
> {"do":"remove","in":"c","key":"z"}
< {"line":L,"ok":"remove","rev":"2-c"}
> I(c,z,1)
< insert 3-c
> {"do":"remove","in":"c","key":"z"}
< {"line":L,"ok":"remove","rev":"4-c"}
> {"do":"bulk","in":"c","docs":[{"id":"z"},{"id":"b"},{"id":"a"}]}
< {"line":L,"ok":"bulk","revs":["5-c","3-c","1-c"]}

== an empty bulk writes nothing
. C(c)
> {"do":"bulk","in":"c","docs":[]}
< {"line":L,"ok":"bulk","revs":[]}
. I(c,a,1)
> {"do":"get","in":"c","key":"a"}
< {"doc":{"id":"a","n":1},"line":L,"lwt":1,"ok":"get","rev":"1-c"}

== a write time is the present moment, or one above the last in its collection
. C(c) C(d) {"do":"tick","at":1000} I(c,a,1) I(c,b,1)
> {"do":"get","in":"c","key":"a"}
< {"doc":{"id":"a","n":1},"line":L,"lwt":1000,"ok":"get","rev":"1-c"}
> {"do":"get","in":"c","key":"b"}
< {"doc":{"id":"b","n":1},"line":L,"lwt":1001,"ok":"get","rev":"1-c"}
. {"do":"tick","at":1002}
> {"do":"patch","in":"c","key":"a","set":{}}
< {"line":L,"ok":"patch","rev":"2-c"}
> {"do":"get","in":"c","key":"a"}
< {"doc":{"id":"a","n":1},"line":L,"lwt":1002,"ok":"get","rev":"2-c"}
. {"do":"tick","at":5}
> {"do":"upsert","in":"c","doc":{"id":"a"}}
< {"line":L,"ok":"upsert","rev":"3-c"}
> {"do":"get","in":"c","key":"a"}
< {"doc":{"id":"a"},"line":L,"lwt":1003,"ok":"get","rev":"3-c"}
. I(d,a,1)
> {"do":"get","in":"d","key":"a"}
< {"doc":{"id":"a","n":1},"line":L,"lwt":5,"ok":"get","rev":"1-d"}

== the last write time counts tombstones
. C(c) {"do":"tick","at":50} I(c,a,1) {"do":"tick","at":90}
> {"do":"remove","in":"c","key":"a"}
< {"line":L,"ok":"remove","rev":"2-c"}
. {"do":"tick","at":0} I(c,b,1)
> {"do":"get","in":"c","key":"b"}
< {"doc":{"id":"b","n":1},"line":L,"lwt":91,"ok":"get","rev":"1-c"}

== the last write time but one is followed by the last
. C(c) {"do":"tick","at":9007199254740990} I(c,a,1) {"do":"tick","at":7}
> {"do":"bulk","in":"c","docs":[{"id":"b"},{"id":"d"}]}
< {"line":L,"ok":"bulk","revs":["1-c","1-c"]}
> {"do":"get","in":"c","key":"d"}
< {"doc":{"id":"d"},"line":L,"lwt":9007199254740991,"ok":"get","rev":"1-c"}
> {"do":"remove","in":"c","key":"d"}
< {"code":22,"line":L,"refused":"clock"}

== the write after the last write time
. C(c) {"do":"tick","at":9007199254740991} I(c,a,1)
> I(c,b,1)
< {"code":22,"line":L,"refused":"clock"}

== a document is printed with its members by bytes and its texts as JSON
. {"do":"collection","name":"c","schema":{"version":0,"primaryKey":"id","type":"object","properties":{"id":{"type":"string","maxLength":20},"Z":{"type":"string"},"a":{"type":"boolean"},"a_1":{"type":"integer"},"aB":{"type":"string"}}}}
. {"do":"insert","in":"c","doc":{"id":"k\"\\\/\b\f\n\r\t\u0000\u001f\u00e9","aB":"","a_1":-1,"a":true,"Z":"<😀>"}}
> {"do":"find","in":"c","query":{}}
< {"line":L,"ok":"find","rows":[{"Z":"<😀>","a":true,"aB":"","a_1":-1,"id":"k\"\\/\b\f\n\r\t\u0000\u001fé"}]}
"#;
