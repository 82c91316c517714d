// Lines that are refused whatever is stored, and which of two faults is told.
pub const CASES: &str = r#"
== what is no JSON
> {
< {"code":2,"line":L,"refused":"not_json"}
> {"do":"tick","at":5}}
< {"code":2,"line":L,"refused":"not_json"}
> {"do":"tick","at":05}
< {"code":2,"line":L,"refused":"not_json"}
> {"do":"tick","at":1e999}
< {"code":2,"line":L,"refused":"not_json"}
> {"do":"tick","at":NaN}
< {"code":2,"line":L,"refused":"not_json"}
> {'do':'tick'}
< {"code":2,"line":L,"refused":"not_json"}
> {"do":"tick","at":5,}
< {"code":2,"line":L,"refused":"not_json"}
> {"do":"\ud83d"}
< {"code":2,"line":L,"refused":"not_json"}
> { "do" : "tick" , "at" : 5 }
< {"line":L,"ok":"tick"}

== a line that is no JSON, one that is not known, and one that finds nothing
> {
< {"code":2,"line":L,"refused":"not_json"}
> {"do":"fly"}
< {"code":4,"line":L,"name":"fly","refused":"unknown_do"}
> {"do":"get","in":"c","key":"a"}
< {"code":10,"line":L,"name":"c","refused":"no_collection"}

== JSON that is no object
> []
< {"code":3,"line":L,"refused":"not_object"}
> [{"do":"tick","at":5}]
< {"code":3,"line":L,"refused":"not_object"}
> "tick"
< {"code":3,"line":L,"refused":"not_object"}
> null
< {"code":3,"line":L,"refused":"not_object"}
> 5
< {"code":3,"line":L,"refused":"not_object"}

== do is tested first: it is there, it is a text, it is known
> {}
< {"code":5,"line":L,"name":"do","refused":"missing"}
> {"DO":"tick","at":5}
< {"code":5,"line":L,"name":"do","refused":"missing"}
> {"do":5}
< {"code":7,"line":L,"name":"do","refused":"wrong_type"}
> {"do":null,"x":1}
< {"code":7,"line":L,"name":"do","refused":"wrong_type"}
> {"do":["tick"],"at":5}
< {"code":7,"line":L,"name":"do","refused":"wrong_type"}
> {"do":"fly"}
< {"code":4,"line":L,"name":"fly","refused":"unknown_do"}
> {"do":"","x":1}
< {"code":4,"line":L,"name":"","refused":"unknown_do"}
> {"do":"Tick","at":5}
< {"code":4,"line":L,"name":"Tick","refused":"unknown_do"}
> {"do":"a\"\\\né\u0001"}
< {"code":4,"line":L,"name":"a\"\\\né\u0001","refused":"unknown_do"}
> {"do":"streams"}
< {"code":4,"line":L,"name":"streams","refused":"unknown_do"}
> {"do":"sweeps"}
< {"code":4,"line":L,"name":"sweeps","refused":"unknown_do"}

== where a member stands twice the last one counts
> {"do":"fly","do":"tick","at":"x","at":5}
< {"line":L,"ok":"tick"}
> {"do":"tick","do":"fly","at":5}
< {"code":4,"line":L,"name":"fly","refused":"unknown_do"}

== a missing member is told in the order of the line
> {"do":"collection"}
< {"code":5,"line":L,"name":"name","refused":"missing"}
> {"do":"collection","name":"c"}
< {"code":5,"line":L,"name":"schema","refused":"missing"}
> {"do":"insert"}
< {"code":5,"line":L,"name":"in","refused":"missing"}
> {"do":"insert","in":"c"}
< {"code":5,"line":L,"name":"doc","refused":"missing"}
> {"do":"bulk","in":"c"}
< {"code":5,"line":L,"name":"docs","refused":"missing"}
> {"do":"bulk","docs":[]}
< {"code":5,"line":L,"name":"in","refused":"missing"}
> {"do":"upsert","in":"c"}
< {"code":5,"line":L,"name":"doc","refused":"missing"}
> {"do":"patch"}
< {"code":5,"line":L,"name":"in","refused":"missing"}
> {"do":"patch","in":"c","set":{}}
< {"code":5,"line":L,"name":"key","refused":"missing"}
> {"do":"patch","in":"c","key":"a","rev":"1-c"}
< {"code":5,"line":L,"name":"set","refused":"missing"}
> {"do":"remove","rev":"1-c"}
< {"code":5,"line":L,"name":"in","refused":"missing"}
> {"do":"remove","in":"c"}
< {"code":5,"line":L,"name":"key","refused":"missing"}
> {"do":"get","in":"c"}
< {"code":5,"line":L,"name":"key","refused":"missing"}
> {"do":"find","query":{}}
< {"code":5,"line":L,"name":"in","refused":"missing"}
> {"do":"find","in":"c"}
< {"code":5,"line":L,"name":"query","refused":"missing"}
> {"do":"count","in":"c"}
< {"code":5,"line":L,"name":"query","refused":"missing"}
> {"do":"observe"}
< {"code":5,"line":L,"name":"name","refused":"missing"}
> {"do":"observe","name":"q","query":{}}
< {"code":5,"line":L,"name":"in","refused":"missing"}
> {"do":"observe","name":"q","in":"c"}
< {"code":5,"line":L,"name":"query","refused":"missing"}
> {"do":"tick"}
< {"code":5,"line":L,"name":"at","refused":"missing"}

== a missing member is told before one that is not expected or of the wrong kind
> {"do":"insert","in":5,"a":1}
< {"code":5,"line":L,"name":"doc","refused":"missing"}
> {"do":"tick","a":1}
< {"code":5,"line":L,"name":"at","refused":"missing"}
> {"do":"observe","in":"C","query":5}
< {"code":5,"line":L,"name":"name","refused":"missing"}

== of the members that are not expected the first by bytes is told
> {"do":"tick","at":5,"b":1,"a":1}
< {"code":6,"line":L,"name":"a","refused":"unexpected"}
> {"do":"tick","at":5,"a":1,"Z":1}
< {"code":6,"line":L,"name":"Z","refused":"unexpected"}
> {"do":"tick","at":5,"é":1,"z":1}
< {"code":6,"line":L,"name":"z","refused":"unexpected"}
> {"do":"tick","at":5,"in":"c"}
< {"code":6,"line":L,"name":"in","refused":"unexpected"}
> {"do":"insert","in":"c","doc":{},"rev":"1-c"}
< {"code":6,"line":L,"name":"rev","refused":"unexpected"}
> {"do":"get","in":"c","key":"a","rev":"1-c"}
< {"code":6,"line":L,"name":"rev","refused":"unexpected"}
> {"do":"upsert","in":"c","doc":{},"key":"a"}
< {"code":6,"line":L,"name":"key","refused":"unexpected"}
> {"do":"count","in":"c","query":{},"":1}
< {"code":6,"line":L,"name":"","refused":"unexpected"}

== a member that is not expected is told before one of the wrong kind
> {"do":"tick","at":"x","z":1}
< {"code":6,"line":L,"name":"z","refused":"unexpected"}
> {"do":"insert","in":5,"doc":5,"z":1}
< {"code":6,"line":L,"name":"z","refused":"unexpected"}

== a member of the wrong kind is told in the order of the line
> {"do":"collection","name":5,"schema":5}
< {"code":7,"line":L,"name":"name","refused":"wrong_type"}
> {"do":"insert","in":5,"doc":5}
< {"code":7,"line":L,"name":"in","refused":"wrong_type"}
> {"do":"insert","in":"c","doc":[]}
< {"code":7,"line":L,"name":"doc","refused":"wrong_type"}
> {"do":"upsert","in":"c","doc":null}
< {"code":7,"line":L,"name":"doc","refused":"wrong_type"}
> {"do":"bulk","in":"c","docs":{}}
< {"code":7,"line":L,"name":"docs","refused":"wrong_type"}
> {"do":"bulk","in":"c","docs":[{},5]}
< {"code":7,"line":L,"name":"docs","refused":"wrong_type"}
> {"do":"bulk","in":"c","docs":[[]]}
< {"code":7,"line":L,"name":"docs","refused":"wrong_type"}
> {"do":"patch","in":"c","rev":5,"set":5,"key":5}
< {"code":7,"line":L,"name":"key","refused":"wrong_type"}
> {"do":"patch","in":"c","rev":5,"set":5,"key":"a"}
< {"code":7,"line":L,"name":"set","refused":"wrong_type"}
> {"do":"patch","in":"c","rev":null,"set":{},"key":"a"}
< {"code":7,"line":L,"name":"rev","refused":"wrong_type"}
> {"do":"remove","in":"c","key":5,"rev":5}
< {"code":7,"line":L,"name":"key","refused":"wrong_type"}
> {"do":"remove","in":"c","key":"a","rev":1}
< {"code":7,"line":L,"name":"rev","refused":"wrong_type"}
> {"do":"get","in":"c","key":null}
< {"code":7,"line":L,"name":"key","refused":"wrong_type"}
> {"do":"find","in":["c"],"query":5}
< {"code":7,"line":L,"name":"in","refused":"wrong_type"}
> {"do":"observe","name":true,"in":5,"query":5}
< {"code":7,"line":L,"name":"name","refused":"wrong_type"}

== the moment is a whole number from 0 to 2^53 - 1
. {"do":"tick","at":0} {"do":"tick","at":9007199254740991}
> {"do":"tick","at":9007199254740992}
< {"code":7,"line":L,"name":"at","refused":"wrong_type"}
> {"do":"tick","at":18446744073709551615}
< {"code":7,"line":L,"name":"at","refused":"wrong_type"}
> {"do":"tick","at":-1}
< {"code":7,"line":L,"name":"at","refused":"wrong_type"}
> {"do":"tick","at":-0}
< {"code":7,"line":L,"name":"at","refused":"wrong_type"}
> {"do":"tick","at":5.0}
< {"code":7,"line":L,"name":"at","refused":"wrong_type"}
> {"do":"tick","at":1e3}
< {"code":7,"line":L,"name":"at","refused":"wrong_type"}
> {"do":"tick","at":"5"}
< {"code":7,"line":L,"name":"at","refused":"wrong_type"}

== a member of the wrong kind is told before one that is no name
> {"do":"insert","in":"C","doc":5}
< {"code":7,"line":L,"name":"doc","refused":"wrong_type"}
> {"do":"observe","name":"Q","in":5,"query":{}}
< {"code":7,"line":L,"name":"in","refused":"wrong_type"}

== a name is told by its member
> {"do":"collection","name":"C","schema":5}
< {"code":8,"line":L,"name":"name","refused":"name"}
> {"do":"collection","name":"","schema":S1}
< {"code":8,"line":L,"name":"name","refused":"name"}
> {"do":"collection","name":"1c","schema":S1}
< {"code":8,"line":L,"name":"name","refused":"name"}
> {"do":"collection","name":"_c","schema":S1}
< {"code":8,"line":L,"name":"name","refused":"name"}
> {"do":"collection","name":"c.d","schema":S1}
< {"code":8,"line":L,"name":"name","refused":"name"}
> {"do":"collection","name":"cé","schema":S1}
< {"code":8,"line":L,"name":"name","refused":"name"}
> {"do":"collection","name":"c ","schema":S1}
< {"code":8,"line":L,"name":"name","refused":"name"}
> {"do":"collection","name":"cC","schema":S1}
< {"code":8,"line":L,"name":"name","refused":"name"}
> {"do":"observe","name":"Q","in":"C","query":5}
< {"code":8,"line":L,"name":"name","refused":"name"}
> {"do":"observe","name":"q","in":"C","query":5}
< {"code":8,"line":L,"name":"in","refused":"name"}
> {"do":"get","in":"C","key":""}
< {"code":8,"line":L,"name":"in","refused":"name"}
> {"do":"bulk","in":"-","docs":[]}
< {"code":8,"line":L,"name":"in","refused":"name"}

== a name has 1 to 64 bytes
. C(a-_9) C(abcdefghijklmnopqrstuvwxyz0123456789-_abcdefghijklmnopqrstuvwxyz)
> C(abcdefghijklmnopqrstuvwxyz0123456789-_abcdefghijklmnopqrstuvwxyz0)
< {"code":8,"line":L,"name":"name","refused":"name"}

== blank lines count and are not answered
>
. {"do":"tick","at":1}
>
"#;
