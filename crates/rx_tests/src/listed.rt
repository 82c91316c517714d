// The changes of a collection, a page at a time, and its digest. Each digest was taken by another
// program, of a text written by hand.
pub const CASES: &str = r#"
== changes come a page at a time
. C(c)
> {"do":"bulk","in":"c","docs":[{"id":"a"},{"id":"b"},{"id":"d"},{"id":"e"},{"id":"g"}]}
< {"line":L,"ok":"bulk","revs":["1-c","1-c","1-c","1-c","1-c"]}
> {"do":"changes","in":"c","batch":2}
< {"docs":[{"_deleted":false,"id":"a"},{"_deleted":false,"id":"b"}],"line":L,"ok":"changes","place":{"id":"b","lwt":1}}
> {"do":"changes","in":"c","batch":2,"since":{"id":"b","lwt":1}}
< {"docs":[{"_deleted":false,"id":"d"},{"_deleted":false,"id":"e"}],"line":L,"ok":"changes","place":{"id":"e","lwt":1}}
> {"do":"changes","in":"c","batch":2,"since":{"lwt":1,"id":"e"}}
< {"docs":[{"_deleted":false,"id":"g"}],"line":L,"ok":"changes","place":{"id":"g","lwt":1}}
> {"do":"changes","in":"c","batch":2,"since":{"id":"g","lwt":1}}
< {"docs":[],"line":L,"ok":"changes","place":{"id":"g","lwt":1}}
> {"do":"changes","in":"c","batch":100,"since":{"id":"d","lwt":1}}
< {"docs":[{"_deleted":false,"id":"e"},{"_deleted":false,"id":"g"}],"line":L,"ok":"changes","place":{"id":"g","lwt":1}}
> {"do":"changes","in":"c","batch":1}
< {"docs":[{"_deleted":false,"id":"a"}],"line":L,"ok":"changes","place":{"id":"a","lwt":1}}

== pages go on over commits and a tombstone
. C(c)
> {"do":"bulk","in":"c","docs":[{"id":"b","n":2},{"id":"a"},{"id":"d"}]}
< {"line":L,"ok":"bulk","revs":["1-c","1-c","1-c"]}
> {"do":"remove","in":"c","key":"b"}
< {"line":L,"ok":"remove","rev":"2-c"}
> {"do":"upsert","in":"c","doc":{"id":"a","n":-1}}
< {"line":L,"ok":"upsert","rev":"2-c"}
> {"do":"changes","in":"c","batch":2}
< {"docs":[{"_deleted":false,"id":"d"},{"_deleted":true,"id":"b","n":2}],"line":L,"ok":"changes","place":{"id":"b","lwt":2}}
> {"do":"changes","in":"c","batch":2,"since":{"id":"b","lwt":2}}
< {"docs":[{"_deleted":false,"id":"a","n":-1}],"line":L,"ok":"changes","place":{"id":"a","lwt":3}}
> {"do":"changes","in":"c","since":{"id":"c","lwt":1}}
< {"docs":[{"_deleted":false,"id":"d"},{"_deleted":true,"id":"b","n":2},{"_deleted":false,"id":"a","n":-1}],"line":L,"ok":"changes","place":{"id":"a","lwt":3}}
> {"do":"changes","in":"c","since":{"id":"","lwt":0},"batch":1}
< {"docs":[{"_deleted":false,"id":"d"}],"line":L,"ok":"changes","place":{"id":"d","lwt":1}}
> {"do":"changes","in":"c","since":{"id":"any text","lwt":9007199254740991}}
< {"docs":[],"line":L,"ok":"changes","place":{"id":"any text","lwt":9007199254740991}}
$ run journal
> {"do":"changes","in":"c","since":{"id":"b","lwt":2}}
< {"docs":[{"_deleted":false,"id":"a","n":-1}],"line":L,"ok":"changes","place":{"id":"a","lwt":3}}

== what has no documents has no changes
. C(c)
> {"do":"changes","in":"c"}
< {"docs":[],"line":L,"ok":"changes"}
> {"do":"changes","in":"c","since":{"id":"a","lwt":1}}
< {"docs":[],"line":L,"ok":"changes","place":{"id":"a","lwt":1}}
> {"do":"digest","in":"c"}
< {"count":0,"digest":"e3b0c44298fc1c149afbf4c8996fb92427ae41e4649b934ca495991b7852b855","line":L,"ok":"digest"}
= BASE 00

== the mark stands among the fields by its bytes
. {"do":"collection","name":"c","schema":{"version":0,"primaryKey":"id","type":"object","properties":{"N":{"type":"boolean"},"id":{"type":"string","maxLength":20}}}}
. {"do":"insert","in":"c","doc":{"id":"x","N":true}}
> {"do":"changes","in":"c"}
< {"docs":[{"N":true,"_deleted":false,"id":"x"}],"line":L,"ok":"changes","place":{"id":"x","lwt":1}}
> {"do":"digest","in":"c"}
< {"count":1,"digest":"6c27ddd39af4e8ad7db9f312d66aebb56af34553aaeedb38bc5bdf8dc193d693","line":L,"ok":"digest"}

== a digest is of states alone
. C(c) C(d)
> {"do":"bulk","in":"c","docs":[{"id":"b"},{"id":"a","n":1}]}
< {"line":L,"ok":"bulk","revs":["1-c","1-c"]}
> {"do":"digest","in":"c"}
< {"count":2,"digest":"a21aeb7c70b0ee1b4239c7c4249b31e421bf1c081b4ed03822f11b4ce170b99f","line":L,"ok":"digest"}
. I(d,a,3)
> {"do":"upsert","in":"d","doc":{"id":"a","n":1}}
< {"line":L,"ok":"upsert","rev":"2-d"}
. {"do":"insert","in":"d","doc":{"id":"b"}}
> {"do":"digest","in":"d"}
< {"count":2,"digest":"a21aeb7c70b0ee1b4239c7c4249b31e421bf1c081b4ed03822f11b4ce170b99f","line":L,"ok":"digest"}
> {"do":"remove","in":"d","key":"b"}
< {"line":L,"ok":"remove","rev":"2-d"}
> {"do":"digest","in":"d"}
< {"count":2,"digest":"10428ad79fde19b7f63b314c0f0c93bcb4a5d5460ac2cbe5003f6b494cd932a1","line":L,"ok":"digest"}
> {"do":"restart"}
< {"epoch":2,"line":L,"ok":"restart"}
> {"do":"digest","in":"d"}
< {"count":2,"digest":"10428ad79fde19b7f63b314c0f0c93bcb4a5d5460ac2cbe5003f6b494cd932a1","line":L,"ok":"digest"}

== a state is hashed as it is printed
. C(c) {"do":"insert","in":"c","doc":{"id":"a\"\\\u00e9"}}
> {"do":"digest","in":"c"}
< {"count":1,"digest":"d1d2c4c32ca88b97ecca64416a5035a0fe25c85d54d00494890c3151e5bed792","line":L,"ok":"digest"}

== they change nothing
. C(c) {"do":"observe","name":"q","in":"c","query":{}}
< {"emit":"q","rows":[]}
. {"do":"tick","at":7}
> {"do":"changes","in":"c"}
< {"docs":[],"line":L,"ok":"changes"}
> {"do":"digest","in":"c"}
< {"count":0,"digest":"e3b0c44298fc1c149afbf4c8996fb92427ae41e4649b934ca495991b7852b855","line":L,"ok":"digest"}
. I(c,a,1)
< {"emit":"q","rows":[{"id":"a","n":1}]}
> {"do":"changes","in":"c"}
< {"docs":[{"_deleted":false,"id":"a","n":1}],"line":L,"ok":"changes","place":{"id":"a","lwt":7}}
> {"do":"explain","name":"q"}
< {"actions":{"insertFirst":1},"asked":6,"changes":1,"full":0,"line":L,"ok":"explain"}

// What they ask is tested in order.
== members, then kinds, then names, then limits, then the collection
> {"do":"changes","batch":0,"x":1}
< {"code":5,"line":L,"name":"in","refused":"missing"}
> {"do":"changes","in":"C","since":5,"batch":0,"x":1}
< {"code":6,"line":L,"name":"x","refused":"unexpected"}
> {"do":"changes","in":5,"since":5,"batch":"0"}
< {"code":7,"line":L,"name":"in","refused":"wrong_type"}
> {"do":"changes","in":"C","since":5,"batch":"0"}
< {"code":7,"line":L,"name":"since","refused":"wrong_type"}
> {"do":"changes","in":"C","since":{"id":"a","lwt":1},"batch":"0"}
< {"code":7,"line":L,"name":"batch","refused":"wrong_type"}
> {"do":"changes","in":"C","since":5,"batch":0}
< {"code":7,"line":L,"name":"since","refused":"wrong_type"}
> {"do":"changes","in":"C","batch":0}
< {"code":8,"line":L,"name":"in","refused":"name"}
> {"do":"changes","in":"c","batch":0}
< {"code":20,"line":L,"name":"batch","refused":"batch"}
> {"do":"changes","in":"c","batch":1}
< {"code":10,"line":L,"name":"c","refused":"no_collection"}
> {"do":"digest","x":1}
< {"code":5,"line":L,"name":"in","refused":"missing"}
> {"do":"digest","in":5,"key":"a"}
< {"code":6,"line":L,"name":"key","refused":"unexpected"}
> {"do":"digest","in":5}
< {"code":7,"line":L,"name":"in","refused":"wrong_type"}
> {"do":"digest","in":"C"}
< {"code":8,"line":L,"name":"in","refused":"name"}
> {"do":"digest","in":"c"}
< {"code":10,"line":L,"name":"c","refused":"no_collection"}

== a batch is a whole number, and then one from 1 to 100
. C(c)
> {"do":"changes","in":"c","batch":-1}
< {"code":20,"line":L,"name":"batch","refused":"batch"}
> {"do":"changes","in":"c","batch":101}
< {"code":20,"line":L,"name":"batch","refused":"batch"}
> {"do":"changes","in":"c","batch":4294967297}
< {"code":20,"line":L,"name":"batch","refused":"batch"}
> {"do":"changes","in":"c","batch":9007199254740992}
< {"code":20,"line":L,"name":"batch","refused":"batch"}
> {"do":"changes","in":"c","batch":18446744073709551615}
< {"code":20,"line":L,"name":"batch","refused":"batch"}
> {"do":"changes","in":"c","batch":-9223372036854775808}
< {"code":20,"line":L,"name":"batch","refused":"batch"}
> {"do":"changes","in":"c","batch":18446744073709551616}
< {"code":7,"line":L,"name":"batch","refused":"wrong_type"}
> {"do":"changes","in":"c","batch":1.0}
< {"code":7,"line":L,"name":"batch","refused":"wrong_type"}
> {"do":"changes","in":"c","batch":1e1}
< {"code":7,"line":L,"name":"batch","refused":"wrong_type"}
> {"do":"changes","in":"c","batch":-0}
< {"code":7,"line":L,"name":"batch","refused":"wrong_type"}
> {"do":"changes","in":"c","batch":null}
< {"code":7,"line":L,"name":"batch","refused":"wrong_type"}
> {"do":"changes","in":"c","batch":100}
< {"docs":[],"line":L,"ok":"changes"}

== a place is exactly a text and a number
> {"do":"changes","in":"c","since":null}
< {"code":7,"line":L,"name":"since","refused":"wrong_type"}
> {"do":"changes","in":"c","since":"a"}
< {"code":7,"line":L,"name":"since","refused":"wrong_type"}
> {"do":"changes","in":"c","since":["a",1]}
< {"code":7,"line":L,"name":"since","refused":"wrong_type"}
> {"do":"changes","in":"c","since":{}}
< {"code":7,"line":L,"name":"since","refused":"wrong_type"}
> {"do":"changes","in":"c","since":{"id":"a"}}
< {"code":7,"line":L,"name":"since","refused":"wrong_type"}
> {"do":"changes","in":"c","since":{"lwt":1}}
< {"code":7,"line":L,"name":"since","refused":"wrong_type"}
> {"do":"changes","in":"c","since":{"id":1,"lwt":1}}
< {"code":7,"line":L,"name":"since","refused":"wrong_type"}
> {"do":"changes","in":"c","since":{"id":"a","lwt":"1"}}
< {"code":7,"line":L,"name":"since","refused":"wrong_type"}
> {"do":"changes","in":"c","since":{"id":"a","lwt":1.0}}
< {"code":7,"line":L,"name":"since","refused":"wrong_type"}
> {"do":"changes","in":"c","since":{"id":"a","lwt":-1}}
< {"code":7,"line":L,"name":"since","refused":"wrong_type"}
> {"do":"changes","in":"c","since":{"id":"a","lwt":9007199254740992}}
< {"code":7,"line":L,"name":"since","refused":"wrong_type"}
> {"do":"changes","in":"c","since":{"id":"a","lwt":1,"n":1}}
< {"code":7,"line":L,"name":"since","refused":"wrong_type"}
> {"do":"changes","in":"c","since":{"id":"a","lwt":1}}
< {"code":10,"line":L,"name":"c","refused":"no_collection"}
"#;
