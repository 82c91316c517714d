// Lines that are refused by what is stored, and which of two faults is told.
pub const CASES: &str = r#"
== a second insert is a conflict
. C(c) {"do":"observe","name":"q","in":"c","query":{"selector":{"n":1}}}
< {"emit":"q","rows":[]}
. I(c,a,1)
< {"emit":"q","rows":[{"id":"a","n":1}]}
> I(c,a,1)
< {"code":14,"line":L,"refused":"conflict","rev":"1-c"}

== no line but collection takes a name that is not held
. C(c)
> I(d,a,1)
< {"code":10,"line":L,"name":"d","refused":"no_collection"}
> {"do":"bulk","in":"d","docs":[]}
< {"code":10,"line":L,"name":"d","refused":"no_collection"}
> {"do":"upsert","in":"d","doc":{"id":"a"}}
< {"code":10,"line":L,"name":"d","refused":"no_collection"}
> {"do":"patch","in":"d","key":"a","set":{}}
< {"code":10,"line":L,"name":"d","refused":"no_collection"}
> {"do":"remove","in":"d","key":"a"}
< {"code":10,"line":L,"name":"d","refused":"no_collection"}
> {"do":"get","in":"d","key":"a"}
< {"code":10,"line":L,"name":"d","refused":"no_collection"}
> {"do":"find","in":"d","query":{}}
< {"code":10,"line":L,"name":"d","refused":"no_collection"}
> {"do":"count","in":"d","query":{}}
< {"code":10,"line":L,"name":"d","refused":"no_collection"}
> {"do":"observe","name":"q","in":"d","query":{}}
< {"code":10,"line":L,"name":"d","refused":"no_collection"}

== a collection that is not held is told before all else
. C(c) {"do":"observe","name":"q","in":"c","query":{}}
< {"emit":"q","rows":[]}
> {"do":"insert","in":"d","doc":{"n":null}}
< {"code":10,"line":L,"name":"d","refused":"no_collection"}
> {"do":"bulk","in":"d","docs":[{}]}
< {"code":10,"line":L,"name":"d","refused":"no_collection"}
> {"do":"find","in":"d","query":5}
< {"code":10,"line":L,"name":"d","refused":"no_collection"}
> {"do":"count","in":"d","query":[]}
< {"code":10,"line":L,"name":"d","refused":"no_collection"}
> {"do":"observe","name":"q","in":"d","query":5}
< {"code":10,"line":L,"name":"d","refused":"no_collection"}

== the name of an observed query is taken, and told before a fault of the query
. C(c) C(d) {"do":"observe","name":"q","in":"c","query":{}}
< {"emit":"q","rows":[]}
> {"do":"observe","name":"q","in":"c","query":{}}
< {"code":9,"line":L,"refused":"exists"}
> {"do":"observe","name":"q","in":"d","query":{}}
< {"code":9,"line":L,"refused":"exists"}
> {"do":"observe","name":"q","in":"c","query":5}
< {"code":9,"line":L,"refused":"exists"}
> {"do":"observe","name":"c","in":"c","query":5}
< {"cause":"not_object","code":16,"line":L,"refused":"query"}
. {"do":"observe","name":"c","in":"c","query":{"limit":1}}
< {"emit":"c","rows":[]}

== a collection is made once, and the held schema answers that it is not new
. C(c)
> C(c)
< {"line":L,"new":false,"ok":"collection"}
> {"do":"collection","name":"c","schema":{"type":"object","title":"the same","required":["id","id"],"properties":{"n":{"type":"integer","description":"number"},"id":{"maxLength":20,"type":"string"}},"primaryKey":"id","indexes":[],"version":0}}
< {"line":L,"new":false,"ok":"collection"}
> {"do":"collection","name":"c","schema":S2}
< {"code":12,"line":L,"refused":"schema_differs"}
> {"do":"collection","name":"c","schema":{"version":1,"primaryKey":"id","type":"object","properties":{"id":{"type":"string","maxLength":20},"n":{"type":"integer"}},"required":["id"]}}
< {"code":12,"line":L,"refused":"schema_differs"}
> {"do":"collection","name":"c","schema":5}
< {"cause":"not_object","code":11,"line":L,"refused":"schema"}
. {"do":"collection","name":"d","schema":S2}

== an insert tells what cannot be a value, the key, the fields, the conflict
. C(c) I(c,a,1)
> {"do":"insert","in":"c","doc":{"n":null}}
< {"cause":"kind","code":13,"line":L,"name":"n","refused":"invalid"}
> {"do":"insert","in":"c","doc":{"id":5,"n":9007199254740992}}
< {"cause":"range","code":13,"line":L,"name":"n","refused":"invalid"}
> {"do":"insert","in":"c","doc":{"id":null}}
< {"cause":"kind","code":13,"line":L,"name":"id","refused":"invalid"}
> {"do":"insert","in":"c","doc":{"z":1}}
< {"code":24,"line":L,"refused":"key"}
> {"do":"insert","in":"c","doc":{"id":5,"n":"x"}}
< {"code":24,"line":L,"refused":"key"}
> {"do":"insert","in":"c","doc":{"id":true}}
< {"code":24,"line":L,"refused":"key"}
> {"do":"insert","in":"c","doc":{"id":"a","z":1}}
< {"cause":"unknown","code":13,"line":L,"name":"z","refused":"invalid"}
> {"do":"insert","in":"c","doc":{"id":"a","n":"x"}}
< {"cause":"kind","code":13,"line":L,"name":"n","refused":"invalid"}
> {"do":"insert","in":"c","doc":{"id":"a"}}
< {"code":14,"line":L,"refused":"conflict","rev":"1-c"}
. {"do":"insert","in":"c","doc":{"id":"b"}}

== an upsert tells what cannot be a value, the key, the fields
. C(c)
> {"do":"upsert","in":"c","doc":{"n":1.5}}
< {"cause":"kind","code":13,"line":L,"name":"n","refused":"invalid"}
> {"do":"upsert","in":"c","doc":{"x":1}}
< {"code":24,"line":L,"refused":"key"}
> {"do":"upsert","in":"c","doc":{"id":"","x":1}}
< {"cause":"unknown","code":13,"line":L,"name":"x","refused":"invalid"}
> {"do":"upsert","in":"c","doc":{"id":""}}
< {"cause":"length","code":13,"line":L,"name":"id","refused":"invalid"}
> {"do":"upsert","in":"c","doc":{"id":"a"}}
< {"line":L,"ok":"upsert","rev":"1-c"}

== a patch tells the document, the revision, what cannot be a value, the key, the fields
. C(c) I(c,a,1)
> {"do":"patch","in":"c","key":"b","set":{"n":null},"rev":"7-c"}
< {"code":15,"line":L,"refused":"no_document"}
> {"do":"patch","in":"c","key":"a","set":{"n":null},"rev":"2-c"}
< {"code":14,"line":L,"refused":"conflict","rev":"1-c"}
> {"do":"patch","in":"c","key":"a","set":{"n":null,"id":"b"},"rev":"1-c"}
< {"cause":"kind","code":13,"line":L,"name":"n","refused":"invalid"}
> {"do":"patch","in":"c","key":"a","set":{"n":-9007199254740992,"id":"b"}}
< {"cause":"range","code":13,"line":L,"name":"n","refused":"invalid"}
> {"do":"patch","in":"c","key":"a","set":{"id":"b","z":1}}
< {"code":24,"line":L,"refused":"key"}
> {"do":"patch","in":"c","key":"a","set":{"id":5}}
< {"code":24,"line":L,"refused":"key"}
> {"do":"patch","in":"c","key":"a","set":{"id":"a","z":1}}
< {"cause":"unknown","code":13,"line":L,"name":"z","refused":"invalid"}
> {"do":"patch","in":"c","key":"a","set":{"n":true}}
< {"cause":"kind","code":13,"line":L,"name":"n","refused":"invalid"}
> {"do":"patch","in":"c","key":"a","set":{"id":"a"}}
< {"line":L,"ok":"patch","rev":"2-c"}

== a revision is compared as a text, and only where it is given
. C(c) I(c,a,1)
> {"do":"patch","in":"c","key":"a","set":{"n":2},"rev":"01-c"}
< {"code":14,"line":L,"refused":"conflict","rev":"1-c"}
> {"do":"patch","in":"c","key":"a","set":{"n":2},"rev":"1-d"}
< {"code":14,"line":L,"refused":"conflict","rev":"1-c"}
> {"do":"patch","in":"c","key":"a","set":{"n":2},"rev":""}
< {"code":14,"line":L,"refused":"conflict","rev":"1-c"}
> {"do":"patch","in":"c","key":"a","set":{"n":2},"rev":"1-c"}
< {"line":L,"ok":"patch","rev":"2-c"}
> {"do":"remove","in":"c","key":"a","rev":"1-c"}
< {"code":14,"line":L,"refused":"conflict","rev":"2-c"}
> {"do":"remove","in":"c","key":"a","rev":"2-c"}
< {"line":L,"ok":"remove","rev":"3-c"}

== a document that was removed or never was is no document
. C(c) I(c,a,1)
> {"do":"remove","in":"c","key":"a"}
< {"line":L,"ok":"remove","rev":"2-c"}
> {"do":"get","in":"c","key":"a"}
< {"code":15,"line":L,"refused":"no_document"}
> {"do":"get","in":"c","key":"b"}
< {"code":15,"line":L,"refused":"no_document"}
> {"do":"get","in":"c","key":""}
< {"code":15,"line":L,"refused":"no_document"}
> {"do":"get","in":"c","key":"a key of more than twenty characters"}
< {"code":15,"line":L,"refused":"no_document"}
> {"do":"patch","in":"c","key":"a","set":{"n":2},"rev":"2-c"}
< {"code":15,"line":L,"refused":"no_document"}
> {"do":"remove","in":"c","key":"a","rev":"2-c"}
< {"code":15,"line":L,"refused":"no_document"}
> {"do":"remove","in":"c","key":"a","rev":"1-c"}
< {"code":15,"line":L,"refused":"no_document"}

== a bulk tells the first faulty row, and of it the first fault
. C(c) I(c,a,1)
> {"do":"bulk","in":"c","docs":[{"id":"x"},{"n":null},{"z":1}]}
< {"cause":"kind","code":13,"line":L,"name":"n","refused":"invalid","row":1}
> {"do":"bulk","in":"c","docs":[{"id":"x"},{"id":"y"},{"z":1}]}
< {"code":24,"line":L,"refused":"key","row":2}
> {"do":"bulk","in":"c","docs":[{"id":"x"},{"id":"y"},{"id":"x","z":1}]}
< {"code":25,"line":L,"refused":"twice","row":2}
> {"do":"bulk","in":"c","docs":[{"id":"x"},{"id":"x"},{"id":"x"}]}
< {"code":25,"line":L,"refused":"twice","row":1}
> {"do":"bulk","in":"c","docs":[{"id":"a","z":1}]}
< {"cause":"unknown","code":13,"line":L,"name":"z","refused":"invalid","row":0}
> {"do":"bulk","in":"c","docs":[{"id":"x"},{"id":"a"}]}
< {"code":14,"line":L,"refused":"conflict","rev":"1-c","row":1}
> {"do":"bulk","in":"c","docs":[{"id":"a"},{"id":"a","n":null}]}
< {"code":14,"line":L,"refused":"conflict","rev":"1-c","row":0}
> {"do":"bulk","in":"c","docs":[{"id":"x","z":1},{"id":"x"}]}
< {"cause":"unknown","code":13,"line":L,"name":"z","refused":"invalid","row":0}
> {"do":"bulk","in":"c","docs":[{"id":"x"},{"id":"x","n":1e3}]}
< {"cause":"kind","code":13,"line":L,"name":"n","refused":"invalid","row":1}
> {"do":"count","in":"c","query":{}}
< {"count":1,"line":L,"ok":"count"}

== a write after the last write time is refused, and only where nothing else is
. C(c) C(d) {"do":"tick","at":9007199254740991} I(c,a,1)
> I(c,b,1)
< {"code":22,"line":L,"refused":"clock"}
> I(c,a,1)
< {"code":14,"line":L,"refused":"conflict","rev":"1-c"}
> {"do":"insert","in":"c","doc":{"id":"b","n":"x"}}
< {"cause":"kind","code":13,"line":L,"name":"n","refused":"invalid"}
> {"do":"upsert","in":"c","doc":{"id":"a"}}
< {"code":22,"line":L,"refused":"clock"}
> {"do":"upsert","in":"c","doc":{}}
< {"code":24,"line":L,"refused":"key"}
> {"do":"patch","in":"c","key":"a","set":{}}
< {"code":22,"line":L,"refused":"clock"}
> {"do":"patch","in":"c","key":"a","set":{"z":1}}
< {"cause":"unknown","code":13,"line":L,"name":"z","refused":"invalid"}
> {"do":"remove","in":"c","key":"a"}
< {"code":22,"line":L,"refused":"clock"}
> {"do":"remove","in":"c","key":"a","rev":"2-c"}
< {"code":14,"line":L,"refused":"conflict","rev":"1-c"}
> {"do":"bulk","in":"c","docs":[{"id":"b"}]}
< {"code":22,"line":L,"refused":"clock"}
> {"do":"bulk","in":"c","docs":[{"id":"b"},{"id":"a"}]}
< {"code":14,"line":L,"refused":"conflict","rev":"1-c","row":1}
> {"do":"bulk","in":"c","docs":[]}
< {"code":22,"line":L,"refused":"clock"}
. {"do":"tick","at":0}
> I(c,b,1)
< {"code":22,"line":L,"refused":"clock"}
. I(d,b,1)
> {"do":"get","in":"c","key":"a"}
< {"doc":{"id":"a","n":1},"line":L,"lwt":9007199254740991,"ok":"get","rev":"1-c"}

== a refused line changes nothing and emits nothing
. C(c) I(c,a,1) {"do":"observe","name":"q","in":"c","query":{}}
< {"emit":"q","rows":[{"id":"a","n":1}]}
> {"do":"bulk","in":"c","docs":[{"id":"b"},{"id":"d"},{"id":"b"}]}
< {"code":25,"line":L,"refused":"twice","row":2}
> {"do":"patch","in":"c","key":"a","set":{"n":2},"rev":"3-c"}
< {"code":14,"line":L,"refused":"conflict","rev":"1-c"}
> {"do":"get","in":"c","key":"a"}
< {"doc":{"id":"a","n":1},"line":L,"lwt":1,"ok":"get","rev":"1-c"}
> {"do":"get","in":"c","key":"b"}
< {"code":15,"line":L,"refused":"no_document"}
. I(c,b,2)
< {"emit":"q","rows":[{"id":"a","n":1},{"id":"b","n":2}]}
> {"do":"get","in":"c","key":"b"}
< {"doc":{"id":"b","n":2},"line":L,"lwt":2,"ok":"get","rev":"1-c"}

== a number is whole and in range
. C(c) I(c,a,9007199254740991) I(c,b,-9007199254740991)
> I(c,d,9007199254740992)
< {"cause":"range","code":13,"line":L,"name":"n","refused":"invalid"}
> I(c,d,-9007199254740992)
< {"cause":"range","code":13,"line":L,"name":"n","refused":"invalid"}
> I(c,d,18446744073709551615)
< {"cause":"range","code":13,"line":L,"name":"n","refused":"invalid"}
> I(c,d,-9223372036854775808)
< {"cause":"range","code":13,"line":L,"name":"n","refused":"invalid"}
> I(c,d,18446744073709551616)
< {"cause":"kind","code":13,"line":L,"name":"n","refused":"invalid"}
> I(c,d,-9223372036854775809)
< {"cause":"kind","code":13,"line":L,"name":"n","refused":"invalid"}
> I(c,d,1.0)
< {"cause":"kind","code":13,"line":L,"name":"n","refused":"invalid"}
> I(c,d,-0)
< {"cause":"kind","code":13,"line":L,"name":"n","refused":"invalid"}
> I(c,d,1e3)
< {"cause":"kind","code":13,"line":L,"name":"n","refused":"invalid"}
> I(c,d,1e-999)
< {"cause":"kind","code":13,"line":L,"name":"n","refused":"invalid"}
> {"do":"find","in":"c","query":{"sort":[{"n":"asc"}]}}
< {"line":L,"ok":"find","rows":[{"id":"b","n":-9007199254740991},{"id":"a","n":9007199254740991}]}

== what cannot be a value is told by the first name in bytes
. C(c)
> {"do":"insert","in":"c","doc":{"n":9007199254740992,"id":null}}
< {"cause":"kind","code":13,"line":L,"name":"id","refused":"invalid"}
> {"do":"insert","in":"c","doc":{"z":null,"b":[],"a":9007199254740992}}
< {"cause":"range","code":13,"line":L,"name":"a","refused":"invalid"}
> {"do":"insert","in":"c","doc":{"id":"a","Z":{},"n":null}}
< {"cause":"kind","code":13,"line":L,"name":"Z","refused":"invalid"}
> {"do":"insert","in":"c","doc":{"id":"a","":0.5}}
< {"cause":"kind","code":13,"line":L,"name":"","refused":"invalid"}

== a key has at most as many characters as its length, of whatever bytes
. {"do":"collection","name":"c","schema":{"version":0,"primaryKey":"id","type":"object","properties":{"id":{"type":"string","maxLength":2},"n":{"type":"integer"}},"required":["id"]}}
. {"do":"insert","in":"c","doc":{"id":"😀😀"}}
> {"do":"insert","in":"c","doc":{"id":"😀😀😀"}}
< {"cause":"length","code":13,"line":L,"name":"id","refused":"invalid"}
> {"do":"insert","in":"c","doc":{"id":"\ud83d\ude00😀"}}
< {"code":14,"line":L,"refused":"conflict","rev":"1-c"}
. {"do":"insert","in":"c","doc":{"id":"ab"}}
> {"do":"insert","in":"c","doc":{"id":"abc"}}
< {"cause":"length","code":13,"line":L,"name":"id","refused":"invalid"}
> {"do":"insert","in":"c","doc":{"id":""}}
< {"cause":"length","code":13,"line":L,"name":"id","refused":"invalid"}
> {"do":"get","in":"c","key":"😀😀"}
< {"doc":{"id":"😀😀"},"line":L,"lwt":1,"ok":"get","rev":"1-c"}
> {"do":"find","in":"c","query":{}}
< {"line":L,"ok":"find","rows":[{"id":"ab"},{"id":"😀😀"}]}
"#;
