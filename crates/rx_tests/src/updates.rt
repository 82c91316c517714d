// Documents that are changed by operators.
pub const CASES: &str = r#"
== each operator makes of a field what it says
. {"do":"collection","name":"c","schema":S2} {"do":"insert","in":"c","doc":{"id":"a","n":1,"t":"m"}}
> {"do":"update","in":"c","key":"a","update":{"$inc":{"n":5},"$max":{"t":"z"}}}
< {"line":L,"ok":"update","rev":"2-c"}
> {"do":"get","in":"c","key":"a"}
< {"doc":{"id":"a","n":6,"t":"z"},"line":L,"lwt":2,"ok":"get","rev":"2-c"}
> {"do":"update","in":"c","key":"a","update":{"$min":{"n":-2},"$unset":{"t":null}}}
< {"line":L,"ok":"update","rev":"3-c"}
> {"do":"get","in":"c","key":"a"}
< {"doc":{"id":"a","n":-2},"line":L,"lwt":3,"ok":"get","rev":"3-c"}
> {"do":"update","in":"c","key":"a","update":{"$max":{"n":-3},"$set":{"t":""}}}
< {"line":L,"ok":"update","rev":"4-c"}
> {"do":"get","in":"c","key":"a"}
< {"doc":{"id":"a","n":-2,"t":""},"line":L,"lwt":4,"ok":"get","rev":"4-c"}
> {"do":"update","in":"c","key":"a","update":{"$unset":{"n":{},"t":[1]}}}
< {"line":L,"ok":"update","rev":"5-c"}
> {"do":"update","in":"c","key":"a","update":{"$inc":{"n":-7},"$min":{"t":"x"}}}
< {"line":L,"ok":"update","rev":"6-c"}
> {"do":"get","in":"c","key":"a"}
< {"doc":{"id":"a","n":-7,"t":"x"},"line":L,"lwt":6,"ok":"get","rev":"6-c"}

== an update of nothing is a write
. C(c) I(c,a,1)
> {"do":"update","in":"c","key":"a","update":{}}
< {"line":L,"ok":"update","rev":"2-c"}
> {"do":"update","in":"c","key":"a","update":{"$inc":{}}}
< {"line":L,"ok":"update","rev":"3-c"}
> {"do":"get","in":"c","key":"a"}
< {"doc":{"id":"a","n":1},"line":L,"lwt":3,"ok":"get","rev":"3-c"}

== what is no update, or can't be made of the document, by its first cause and name
. C(c) I(c,a,1)
> {"do":"update","in":"c","key":"a","update":{"$foo":{},"$bar":{},"$inc":5}}
< {"cause":"operator","code":32,"line":L,"name":"$bar","refused":"update"}
> {"do":"update","in":"c","key":"a","update":{"$inc":{"b":"x"},"$set":{"a":null}}}
< {"cause":"operand","code":32,"line":L,"name":"a","refused":"update"}
> {"do":"update","in":"c","key":"a","update":{"$inc":{"b":"x"},"$max":5}}
< {"cause":"operand","code":32,"line":L,"name":"$max","refused":"update"}
> {"do":"update","in":"c","key":"a","update":{"$unset":{"n":1,"z":1},"$set":{"n":1,"b":[]}}}
< {"cause":"operand","code":32,"line":L,"name":"b","refused":"update"}
> {"do":"update","in":"c","key":"a","update":{"$set":{"n":9007199254740992}}}
< {"cause":"operand","code":32,"line":L,"name":"n","refused":"update"}
> {"do":"update","in":"c","key":"a","update":{"$inc":{"n":1.5}}}
< {"cause":"operand","code":32,"line":L,"name":"n","refused":"update"}
> {"do":"update","in":"c","key":"a","update":{"$inc":{"n":1},"$max":{"n":1},"$set":{"id":"b"}}}
< {"cause":"twice","code":32,"line":L,"name":"n","refused":"update"}
> {"do":"update","in":"c","key":"a","update":{"$set":{"id":"b"},"$inc":{"n":9007199254740991}}}
< {"cause":"key","code":32,"line":L,"name":"id","refused":"update"}
> {"do":"update","in":"c","key":"a","update":{"$unset":{"id":"a"}}}
< {"cause":"key","code":32,"line":L,"name":"id","refused":"update"}
> {"do":"update","in":"c","key":"a","update":{"$inc":{"n":9007199254740991}}}
< {"cause":"range","code":32,"line":L,"name":"n","refused":"update"}
> {"do":"update","in":"c","key":"a","update":{"$inc":{"n":9007199254740990}}}
< {"line":L,"ok":"update","rev":"2-c"}
> {"do":"update","in":"c","key":"a","update":{"$inc":{"n":-9007199254740991}}}
< {"line":L,"ok":"update","rev":"3-c"}
> {"do":"get","in":"c","key":"a"}
< {"doc":{"id":"a","n":0},"line":L,"lwt":3,"ok":"get","rev":"3-c"}

== a text isn't added to, whatever else is past its range
. {"do":"collection","name":"c","schema":S2} {"do":"insert","in":"c","doc":{"id":"a","n":1,"t":"x"}}
> {"do":"update","in":"c","key":"a","update":{"$inc":{"n":9007199254740991,"t":1}}}
< {"cause":"kind","code":32,"line":L,"name":"t","refused":"update"}
> {"do":"get","in":"c","key":"a"}
< {"doc":{"id":"a","n":1,"t":"x"},"line":L,"lwt":1,"ok":"get","rev":"1-c"}

== what is stored is tested before, the schema behind
> {"do":"update","in":"c","key":"a","update":{"$foo":{}}}
< {"code":10,"line":L,"name":"c","refused":"no_collection"}
. C(c)
> {"do":"update","in":"c","key":"a","update":{"$foo":{}}}
< {"code":15,"line":L,"refused":"no_document"}
. I(c,a,1)
> {"do":"update","in":"c","key":"a","update":{"$foo":{}},"rev":"2-c"}
< {"code":14,"line":L,"refused":"conflict","rev":"1-c"}
> {"do":"update","in":"c","key":"a","update":{"$set":{"n":"x"}},"rev":"1-c"}
< {"cause":"kind","code":13,"line":L,"name":"n","refused":"invalid"}
> {"do":"update","in":"c","key":"a","update":{"$set":{"z":1}}}
< {"cause":"unknown","code":13,"line":L,"name":"z","refused":"invalid"}
> {"do":"remove","in":"c","key":"a"}
< {"line":L,"ok":"remove","rev":"2-c"}
> {"do":"update","in":"c","key":"a","update":{}}
< {"code":15,"line":L,"refused":"no_document"}
. {"do":"tick","at":9007199254740991} I(c,b,1)
> {"do":"update","in":"c","key":"b","update":{"$inc":{"n":1}}}
< {"code":22,"line":L,"refused":"clock"}

== its members
> {"do":"update","in":"c","key":"a"}
< {"code":5,"line":L,"name":"update","refused":"missing"}
> {"do":"update","in":"c","key":"a","update":{},"set":{}}
< {"code":6,"line":L,"name":"set","refused":"unexpected"}
> {"do":"update","in":"c","key":5,"update":5,"rev":5}
< {"code":7,"line":L,"name":"key","refused":"wrong_type"}
> {"do":"update","in":"C","key":"a","update":[],"rev":5}
< {"code":7,"line":L,"name":"update","refused":"wrong_type"}
> {"do":"update","in":"C","key":"a","update":{},"rev":5}
< {"code":7,"line":L,"name":"rev","refused":"wrong_type"}
> {"do":"update","in":"C","key":"a","update":{}}
< {"code":8,"line":L,"name":"in","refused":"name"}

== an observed query hears it
. C(c) {"do":"observe","name":"q","in":"c","query":{"selector":{"n":{"$gte":2}}}}
< {"emit":"q","rows":[]}
. I(c,a,1)
> {"do":"update","in":"c","key":"a","update":{"$inc":{"n":1}}}
< {"line":L,"ok":"update","rev":"2-c"}
< {"emit":"q","rows":[{"id":"a","n":2}]}
"#;
