// Schemas: the fault of each wrong one and which of two comes first, and which fields are valid.
pub const CASES: &str = r#"// Schemas are read.
== a schema is an object with its members
> {"do":"collection","name":"c","schema":[]}
< {"cause":"not_object","code":11,"line":L,"refused":"schema"}
> {"do":"collection","name":"c","schema":"object"}
< {"cause":"not_object","code":11,"line":L,"refused":"schema"}
> {"do":"collection","name":"c","schema":{}}
< {"cause":"keyword","code":11,"line":L,"name":"type","refused":"schema"}
> {"do":"collection","name":"c","schema":{"type":"object"}}
< {"cause":"keyword","code":11,"line":L,"name":"properties","refused":"schema"}
> {"do":"collection","name":"c","schema":{"properties":{}}}
< {"cause":"keyword","code":11,"line":L,"name":"type","refused":"schema"}
> {"do":"collection","name":"c","schema":{"type":"object","properties":{}}}
< {"cause":"version","code":11,"line":L,"refused":"schema"}
> {"do":"collection","name":"c","schema":{"version":0,"type":"object","properties":{}}}
< {"cause":"primary","code":11,"line":L,"refused":"schema"}
. {"do":"collection","name":"c","schema":{LEAST}}

== a word that is not one of a schema
. {"do":"collection","name":"d","schema":{LEAST,"title":"t","description":"d","keyCompression":false}}
> {"do":"collection","name":"c","schema":{LEAST,"b":1,"a":1}}
< {"cause":"keyword","code":11,"line":L,"name":"a","refused":"schema"}
> {"do":"collection","name":"c","schema":{LEAST,"type":"array"}}
< {"cause":"keyword","code":11,"line":L,"name":"type","refused":"schema"}
> {"do":"collection","name":"c","schema":{LEAST,"type":null,"z":1}}
< {"cause":"keyword","code":11,"line":L,"name":"z","refused":"schema"}
> {"do":"collection","name":"c","schema":{LEAST,"type":1,"properties":1}}
< {"cause":"keyword","code":11,"line":L,"name":"type","refused":"schema"}
> {"do":"collection","name":"c","schema":{LEAST,"properties":[],"keyCompression":1}}
< {"cause":"keyword","code":11,"line":L,"name":"properties","refused":"schema"}
> {"do":"collection","name":"c","schema":{LEAST,"keyCompression":true,"title":1}}
< {"cause":"keyword","code":11,"line":L,"name":"keyCompression","refused":"schema"}
> {"do":"collection","name":"c","schema":{LEAST,"title":1,"description":1}}
< {"cause":"keyword","code":11,"line":L,"name":"title","refused":"schema"}
> {"do":"collection","name":"c","schema":{LEAST,"description":null,"version":-1}}
< {"cause":"keyword","code":11,"line":L,"name":"description","refused":"schema"}
> {"do":"collection","name":"c","schema":{LEAST,"properties":{"a":{"type":"boolean","minimum":0}}}}
< {"cause":"keyword","code":11,"line":L,"name":"minimum","refused":"schema"}
> {"do":"collection","name":"c","schema":{LEAST,"properties":{"a":{"type":"string","multipleOf":1}}}}
< {"cause":"keyword","code":11,"line":L,"name":"multipleOf","refused":"schema"}
> {"do":"collection","name":"c","schema":{LEAST,"properties":{"a":{"type":"integer","maxLength":1}}}}
< {"cause":"keyword","code":11,"line":L,"name":"maxLength","refused":"schema"}
> {"do":"collection","name":"c","schema":{LEAST,"properties":{"a":{"type":"string","z":1,"title":1,"y":1}}}}
< {"cause":"keyword","code":11,"line":L,"name":"y","refused":"schema"}
> {"do":"collection","name":"c","schema":{LEAST,"properties":{"a":{"type":"string","format":1,"description":1}}}}
< {"cause":"keyword","code":11,"line":L,"name":"description","refused":"schema"}
> {"do":"collection","name":"c","schema":{LEAST,"properties":{"a":{"type":"string","maxLength":0,"format":1}}}}
< {"cause":"keyword","code":11,"line":L,"name":"format","refused":"schema"}

== a version is a whole number from 0 to 65,535
. {"do":"collection","name":"d","schema":{LEAST,"version":65535}}
> {"do":"collection","name":"c","schema":{LEAST,"version":65536,"properties":{"a":{}}}}
< {"cause":"version","code":11,"line":L,"refused":"schema"}
> {"do":"collection","name":"c","schema":{LEAST,"version":-1}}
< {"cause":"version","code":11,"line":L,"refused":"schema"}
> {"do":"collection","name":"c","schema":{LEAST,"version":1.0}}
< {"cause":"version","code":11,"line":L,"refused":"schema"}
> {"do":"collection","name":"c","schema":{LEAST,"version":"0"}}
< {"cause":"version","code":11,"line":L,"refused":"schema"}

== a property has a field name
> {"do":"collection","name":"c","schema":{LEAST,"properties":{"b":{},"a-":{}}}}
< {"cause":"field_name","code":11,"line":L,"name":"a-","refused":"schema"}
> {"do":"collection","name":"c","schema":{LEAST,"properties":{"":5}}}
< {"cause":"field_name","code":11,"line":L,"name":"","refused":"schema"}
> {"do":"collection","name":"c","schema":{LEAST,"properties":{"_a":{}}}}
< {"cause":"field_name","code":11,"line":L,"name":"_a","refused":"schema"}

== a property has a kind, and a number a whole step
> {"do":"collection","name":"c","schema":{LEAST,"properties":{"a":5}}}
< {"cause":"kind","code":11,"line":L,"name":"a","refused":"schema"}
> {"do":"collection","name":"c","schema":{LEAST,"properties":{"a":{"type":"float"},"b":5}}}
< {"cause":"kind","code":11,"line":L,"name":"a","refused":"schema"}
> {"do":"collection","name":"c","schema":{LEAST,"properties":{"a":{"type":"number","maxLength":1}}}}
< {"cause":"kind","code":11,"line":L,"name":"a","refused":"schema"}
> {"do":"collection","name":"c","schema":{LEAST,"primaryKey":"x","properties":{"a":5}}}
< {"cause":"kind","code":11,"line":L,"name":"a","refused":"schema"}

== bounds are whole numbers in order
> {"do":"collection","name":"c","schema":{LEAST,"properties":{"a":{"type":"string","maxLength":0},"b":5}}}
< {"cause":"bounds","code":11,"line":L,"name":"a","refused":"schema"}
> {"do":"collection","name":"c","schema":{LEAST,"properties":{"a":{"type":"string","maxLength":131073}}}}
< {"cause":"bounds","code":11,"line":L,"name":"a","refused":"schema"}
> {"do":"collection","name":"c","schema":{LEAST,"properties":{"a":{"type":"string","maxLength":1e3}}}}
< {"cause":"bounds","code":11,"line":L,"name":"a","refused":"schema"}
> {"do":"collection","name":"c","schema":{LEAST,"properties":{"a":{"type":"number","multipleOf":1.0}}}}
< {"cause":"bounds","code":11,"line":L,"name":"a","refused":"schema"}
> {"do":"collection","name":"c","schema":{LEAST,"properties":{"a":{"type":"integer","multipleOf":0}}}}
< {"cause":"bounds","code":11,"line":L,"name":"a","refused":"schema"}
> {"do":"collection","name":"c","schema":{LEAST,"properties":{"a":{"type":"integer","multipleOf":9007199254740992}}}}
< {"cause":"bounds","code":11,"line":L,"name":"a","refused":"schema"}
> {"do":"collection","name":"c","schema":{LEAST,"properties":{"a":{"type":"integer","minimum":-0}}}}
< {"cause":"bounds","code":11,"line":L,"name":"a","refused":"schema"}
> {"do":"collection","name":"c","schema":{LEAST,"properties":{"a":{"type":"integer","minimum":-9007199254740992}}}}
< {"cause":"bounds","code":11,"line":L,"name":"a","refused":"schema"}
> {"do":"collection","name":"c","schema":{LEAST,"properties":{"a":{"type":"integer","minimum":5,"maximum":4}}}}
< {"cause":"bounds","code":11,"line":L,"name":"a","refused":"schema"}

== the primary key is a text with a length
> {"do":"collection","name":"c","schema":{LEAST,"primaryKey":5}}
< {"cause":"primary","code":11,"line":L,"refused":"schema"}
> {"do":"collection","name":"c","schema":{LEAST,"primaryKey":"x","required":["y"]}}
< {"cause":"primary","code":11,"line":L,"refused":"schema"}
> {"do":"collection","name":"c","schema":{LEAST,"properties":{"k":{"type":"string"}}}}
< {"cause":"primary","code":11,"line":L,"refused":"schema"}
> {"do":"collection","name":"c","schema":{LEAST,"properties":{"k":{"type":"integer","minimum":0}}}}
< {"cause":"primary","code":11,"line":L,"refused":"schema"}

== required names are properties
> {"do":"collection","name":"c","schema":{LEAST,"required":"k","indexes":5}}
< {"cause":"required","code":11,"line":L,"name":"required","refused":"schema"}
> {"do":"collection","name":"c","schema":{LEAST,"required":["y",5]}}
< {"cause":"required","code":11,"line":L,"name":"required","refused":"schema"}
> {"do":"collection","name":"c","schema":{LEAST,"required":["k","z","y"]}}
< {"cause":"required","code":11,"line":L,"name":"z","refused":"schema"}

== indexes name properties with bounds
. {"do":"collection","name":"d","schema":{LEAST,"required":["k","k"],"indexes":["k",["k"]]}}
. {"do":"collection","name":"e","schema":{LEAST,"properties":{"k":{"type":"string","maxLength":8},"b":{"type":"boolean"},"n":{"type":"number","minimum":0,"maximum":9,"multipleOf":3}},"indexes":[["n","b"]]}}
> {"do":"collection","name":"c","schema":{LEAST,"indexes":{}}}
< {"cause":"index","code":11,"line":L,"name":"indexes","refused":"schema"}
> {"do":"collection","name":"c","schema":{LEAST,"indexes":[[]]}}
< {"cause":"index","code":11,"line":L,"name":"indexes","refused":"schema"}
> {"do":"collection","name":"c","schema":{LEAST,"indexes":[["k","k"]]}}
< {"cause":"index","code":11,"line":L,"name":"indexes","refused":"schema"}
> {"do":"collection","name":"c","schema":{LEAST,"indexes":["y",5]}}
< {"cause":"index","code":11,"line":L,"name":"indexes","refused":"schema"}
> {"do":"collection","name":"c","schema":{LEAST,"indexes":[["1"]]}}
< {"cause":"index","code":11,"line":L,"name":"indexes","refused":"schema"}
> {"do":"collection","name":"c","schema":{LEAST,"indexes":[["a","b","c","d","e","f","g","h","k"]]}}
< {"cause":"index","code":11,"line":L,"name":"indexes","refused":"schema"}
> {"do":"collection","name":"c","schema":{LEAST,"indexes":[["k","z"],"y"]}}
< {"cause":"index","code":11,"line":L,"name":"z","refused":"schema"}
> {"do":"collection","name":"c","schema":{LEAST,"properties":{"k":{"type":"string","maxLength":8},"a":{"type":"string"}},"indexes":["k","a"]}}
< {"cause":"index","code":11,"line":L,"name":"a","refused":"schema"}
> {"do":"collection","name":"c","schema":{LEAST,"properties":{"k":{"type":"string","maxLength":8},"n":{"type":"integer","minimum":0,"maximum":9}},"indexes":["n"]}}
< {"cause":"index","code":11,"line":L,"name":"n","refused":"schema"}

== a schema has its limits
. {"do":"collection","name":"d","schema":{LEAST,"indexes":["k","k","k","k","k","k","k","k","k","k","k","k","k","k","k","k"]}}
. {"do":"collection","name":"e","schema":{LEAST,"properties":{"k":{"type":"string","maxLength":8},"a":{"type":"string","maxLength":131064}}}}
. {"do":"collection","name":"g","schema":{LEAST,"properties":{"k":{"type":"string","maxLength":8},"a1":{"type":"boolean"},"a2":{"type":"boolean"},"a3":{"type":"boolean"},"a4":{"type":"boolean"},"a5":{"type":"boolean"},"a6":{"type":"boolean"},"a7":{"type":"boolean"},"a8":{"type":"boolean"},"a9":{"type":"boolean"},"a10":{"type":"boolean"},"a11":{"type":"boolean"},"a12":{"type":"boolean"},"a13":{"type":"boolean"},"a14":{"type":"boolean"},"a15":{"type":"boolean"},"a16":{"type":"boolean"},"a17":{"type":"boolean"},"a18":{"type":"boolean"},"a19":{"type":"boolean"},"a20":{"type":"boolean"},"a21":{"type":"boolean"},"a22":{"type":"boolean"},"a23":{"type":"boolean"},"a24":{"type":"boolean"},"a25":{"type":"boolean"},"a26":{"type":"boolean"},"a27":{"type":"boolean"},"a28":{"type":"boolean"},"a29":{"type":"boolean"},"a30":{"type":"boolean"},"a31":{"type":"boolean"},"a32":{"type":"boolean"},"a33":{"type":"boolean"},"a34":{"type":"boolean"},"a35":{"type":"boolean"},"a36":{"type":"boolean"},"a37":{"type":"boolean"},"a38":{"type":"boolean"},"a39":{"type":"boolean"},"a40":{"type":"boolean"},"a41":{"type":"boolean"},"a42":{"type":"boolean"},"a43":{"type":"boolean"},"a44":{"type":"boolean"},"a45":{"type":"boolean"},"a46":{"type":"boolean"},"a47":{"type":"boolean"},"a48":{"type":"boolean"},"a49":{"type":"boolean"},"a50":{"type":"boolean"},"a51":{"type":"boolean"},"a52":{"type":"boolean"},"a53":{"type":"boolean"},"a54":{"type":"boolean"},"a55":{"type":"boolean"},"a56":{"type":"boolean"},"a57":{"type":"boolean"},"a58":{"type":"boolean"},"a59":{"type":"boolean"},"a60":{"type":"boolean"},"a61":{"type":"boolean"},"a62":{"type":"boolean"},"a63":{"type":"boolean"}}}}
> {"do":"collection","name":"c","schema":{LEAST,"properties":{"k":{"type":"string","maxLength":8},"a1":{"type":"boolean"},"a2":{"type":"boolean"},"a3":{"type":"boolean"},"a4":{"type":"boolean"},"a5":{"type":"boolean"},"a6":{"type":"boolean"},"a7":{"type":"boolean"},"a8":{"type":"boolean"},"a9":{"type":"boolean"},"a10":{"type":"boolean"},"a11":{"type":"boolean"},"a12":{"type":"boolean"},"a13":{"type":"boolean"},"a14":{"type":"boolean"},"a15":{"type":"boolean"},"a16":{"type":"boolean"},"a17":{"type":"boolean"},"a18":{"type":"boolean"},"a19":{"type":"boolean"},"a20":{"type":"boolean"},"a21":{"type":"boolean"},"a22":{"type":"boolean"},"a23":{"type":"boolean"},"a24":{"type":"boolean"},"a25":{"type":"boolean"},"a26":{"type":"boolean"},"a27":{"type":"boolean"},"a28":{"type":"boolean"},"a29":{"type":"boolean"},"a30":{"type":"boolean"},"a31":{"type":"boolean"},"a32":{"type":"boolean"},"a33":{"type":"boolean"},"a34":{"type":"boolean"},"a35":{"type":"boolean"},"a36":{"type":"boolean"},"a37":{"type":"boolean"},"a38":{"type":"boolean"},"a39":{"type":"boolean"},"a40":{"type":"boolean"},"a41":{"type":"boolean"},"a42":{"type":"boolean"},"a43":{"type":"boolean"},"a44":{"type":"boolean"},"a45":{"type":"boolean"},"a46":{"type":"boolean"},"a47":{"type":"boolean"},"a48":{"type":"boolean"},"a49":{"type":"boolean"},"a50":{"type":"boolean"},"a51":{"type":"boolean"},"a52":{"type":"boolean"},"a53":{"type":"boolean"},"a54":{"type":"boolean"},"a55":{"type":"boolean"},"a56":{"type":"boolean"},"a57":{"type":"boolean"},"a58":{"type":"boolean"},"a59":{"type":"boolean"},"a60":{"type":"boolean"},"a61":{"type":"boolean"},"a62":{"type":"boolean"},"a63":{"type":"boolean"},"a64":{"type":"boolean"}}}}
< {"cause":"too_many","code":11,"line":L,"refused":"schema"}
. {"do":"collection","name":"h","schema":{LEAST,"properties":{"k":{"type":"string","maxLength":8},"a1":{"type":"string"},"a2":{"type":"string"},"a3":{"type":"string"},"a4":{"type":"string"},"a5":{"type":"string"},"a6":{"type":"string"},"a7":{"type":"string"},"a8":{"type":"string"},"a9":{"type":"string"},"a10":{"type":"string"},"a11":{"type":"string"},"a12":{"type":"string"},"a13":{"type":"string"},"a14":{"type":"string"},"a15":{"type":"string"}}}}
> {"do":"collection","name":"c","schema":{LEAST,"properties":{"k":{"type":"string","maxLength":8},"a1":{"type":"string"},"a2":{"type":"string"},"a3":{"type":"string"},"a4":{"type":"string"},"a5":{"type":"string"},"a6":{"type":"string"},"a7":{"type":"string"},"a8":{"type":"string"},"a9":{"type":"string"},"a10":{"type":"string"},"a11":{"type":"string"},"a12":{"type":"string"},"a13":{"type":"string"},"a14":{"type":"string"},"a15":{"type":"string"},"a16":{"type":"string"}}}}
< {"cause":"too_many","code":11,"line":L,"refused":"schema"}
> {"do":"collection","name":"c","schema":{LEAST,"indexes":["k","k","k","k","k","k","k","k","k","k","k","k","k","k","k","k","k"]}}
< {"cause":"too_many","code":11,"line":L,"refused":"schema"}
> {"do":"collection","name":"c","schema":{LEAST,"properties":{"k":{"type":"string","maxLength":8},"a":{"type":"string","maxLength":131065}}}}
< {"cause":"too_many","code":11,"line":L,"refused":"schema"}
== an index of a text needs its length
> {"do":"collection","name":"c","schema":{"version":0,"primaryKey":"id","type":"object","properties":{"id":{"type":"string","maxLength":20},"n":{"type":"integer"},"t":{"type":"string"}},"required":["id"],"indexes":["t"]}}
< {"cause":"index","code":11,"line":L,"name":"t","refused":"schema"}
. {"do":"collection","name":"c","schema":S2}
> {"do":"find","in":"c","query":{"selector":{"t":{"$regex":"a"}}}}
< {"cause":"operator","code":16,"line":L,"name":"$regex","refused":"query"}
> {"do":"fly"}
< {"code":4,"line":L,"name":"fly","refused":"unknown_do"}

== a schema with each kind of property
> {"do":"collection","name":"todos","schema":{"title":"todo schema","version":0,"description":"todos","primaryKey":"id","type":"object","properties":{"id":{"type":"string","maxLength":100},"name":{"type":"string"},"done":{"type":"boolean"},"timestamp":{"type":"string","format":"date-time","maxLength":32},"rank":{"type":"number","minimum":0,"maximum":1000,"multipleOf":1}},"required":["id","name","done","timestamp"],"indexes":["timestamp",["done","rank"]]}}
< made
> {"do":"collection","name":"todos","schema":{"indexes":[["timestamp"],["done","rank"]],"primaryKey":"id","properties":{"done":{"type":"boolean"},"id":{"maxLength":100,"type":"string"},"name":{"maxLength":8192,"type":"string"},"rank":{"maximum":1000,"minimum":0,"multipleOf":1,"type":"integer"},"timestamp":{"maxLength":32,"type":"string"}},"required":["done","id","name","timestamp"],"type":"object","version":0}}
< {"line":L,"new":false,"ok":"collection"}
> {"do":"collection","name":"todos","schema":{"indexes":[["done","rank"],["timestamp"]],"primaryKey":"id","properties":{"done":{"type":"boolean"},"id":{"maxLength":100,"type":"string"},"name":{"maxLength":8192,"type":"string"},"rank":{"maximum":1000,"minimum":0,"multipleOf":1,"type":"integer"},"timestamp":{"maxLength":32,"type":"string"}},"required":["done","id","name","timestamp"],"type":"object","version":0}}
< {"code":12,"line":L,"refused":"schema_differs"}
. {"do":"insert","in":"todos","doc":{"id":"t0","name":"n0","done":false,"timestamp":"2024-01-01T00:00:00Z","rank":0}}
. {"do":"insert","in":"todos","doc":{"id":"t1","name":"n1","done":true,"timestamp":"2024-01-01T00:00:01Z"}}
> {"do":"insert","in":"todos","doc":{"id":"t2","name":"n2","timestamp":"2024-01-01T00:00:02Z","rank":1001}}
< {"cause":"missing","code":13,"line":L,"name":"done","refused":"invalid"}
> {"do":"insert","in":"todos","doc":{"id":"t2","name":"n2","done":true,"timestamp":"2024-01-01T00:00:02Z","rank":1001}}
< {"cause":"bounds","code":13,"line":L,"name":"rank","refused":"invalid"}
> {"do":"find","in":"todos","query":{"sort":[{"rank":"desc"}]}}
< {"line":L,"ok":"find","rows":[{"done":false,"id":"t0","name":"n0","rank":0,"timestamp":"2024-01-01T00:00:00Z"},{"done":true,"id":"t1","name":"n1","timestamp":"2024-01-01T00:00:01Z"}]}

// Fields are held to them.
== what is missing comes before what is unknown, and that before kinds
. {"do":"collection","name":"c","schema":{LEAST,"properties":{"b":{"type":"boolean"},"i":{"type":"integer"},"k":{"type":"string","maxLength":2},"t":{"type":"string","maxLength":2}},"required":["t","b"]}}
> {"do":"upsert","in":"c","doc":{"k":"a"}}
< {"cause":"missing","code":13,"line":L,"name":"b","refused":"invalid"}
> {"do":"upsert","in":"c","doc":{"k":"a","b":5,"x":1}}
< {"cause":"missing","code":13,"line":L,"name":"t","refused":"invalid"}
> {"do":"upsert","in":"c","doc":{"k":"a","t":5,"b":5,"z":1,"a":1}}
< {"cause":"unknown","code":13,"line":L,"name":"a","refused":"invalid"}
> {"do":"upsert","in":"c","doc":{"k":"a","t":"","b":true,"_deleted":true}}
< {"cause":"unknown","code":13,"line":L,"name":"_deleted","refused":"invalid"}
> {"do":"upsert","in":"c","doc":{"k":"a","t":5,"b":5}}
< {"cause":"kind","code":13,"line":L,"name":"b","refused":"invalid"}
> {"do":"upsert","in":"c","doc":{"k":"a","t":5,"b":true}}
< {"cause":"kind","code":13,"line":L,"name":"t","refused":"invalid"}
> {"do":"upsert","in":"c","doc":{"k":"a","t":"","b":true}}
< {"line":L,"ok":"upsert","rev":"1-c"}
> {"do":"patch","in":"c","key":"a","set":{"y":1,"i":"x"}}
< {"cause":"unknown","code":13,"line":L,"name":"y","refused":"invalid"}

== field after field has its kind and then its bounds or length
. {"do":"collection","name":"c","schema":{LEAST,"properties":{"b":{"type":"boolean"},"i":{"type":"integer","minimum":-6,"maximum":10,"multipleOf":4},"k":{"type":"string","maxLength":2},"t":{"type":"string","maxLength":2}},"required":["t"]}}
> {"do":"upsert","in":"c","doc":{"k":"a","t":"abc","b":"x"}}
< {"cause":"kind","code":13,"line":L,"name":"b","refused":"invalid"}
> {"do":"upsert","in":"c","doc":{"k":"a","t":5,"i":3}}
< {"cause":"bounds","code":13,"line":L,"name":"i","refused":"invalid"}
> {"do":"upsert","in":"c","doc":{"k":"","t":"","i":3}}
< {"cause":"bounds","code":13,"line":L,"name":"i","refused":"invalid"}
> {"do":"upsert","in":"c","doc":{"k":"","t":5}}
< {"cause":"length","code":13,"line":L,"name":"k","refused":"invalid"}
> {"do":"upsert","in":"c","doc":{"k":"abc","t":"abc"}}
< {"cause":"length","code":13,"line":L,"name":"k","refused":"invalid"}

== a number is not below its minimum, not above its maximum and a multiple
. {"do":"collection","name":"c","schema":{LEAST,"properties":{"k":{"type":"string","maxLength":8},"i":{"type":"integer","minimum":-6,"maximum":10,"multipleOf":4}}}}
> {"do":"upsert","in":"c","doc":{"k":"a","i":-8}}
< {"cause":"bounds","code":13,"line":L,"name":"i","refused":"invalid"}
> {"do":"upsert","in":"c","doc":{"k":"a","i":-6}}
< {"cause":"bounds","code":13,"line":L,"name":"i","refused":"invalid"}
> {"do":"upsert","in":"c","doc":{"k":"a","i":-4}}
< {"line":L,"ok":"upsert","rev":"1-c"}
> {"do":"upsert","in":"c","doc":{"k":"a","i":-1}}
< {"cause":"bounds","code":13,"line":L,"name":"i","refused":"invalid"}
> {"do":"upsert","in":"c","doc":{"k":"a","i":0}}
< {"line":L,"ok":"upsert","rev":"2-c"}
> {"do":"upsert","in":"c","doc":{"k":"a","i":6}}
< {"cause":"bounds","code":13,"line":L,"name":"i","refused":"invalid"}
> {"do":"upsert","in":"c","doc":{"k":"a","i":8}}
< {"line":L,"ok":"upsert","rev":"3-c"}
> {"do":"upsert","in":"c","doc":{"k":"a","i":12}}
< {"cause":"bounds","code":13,"line":L,"name":"i","refused":"invalid"}
. {"do":"collection","name":"d","schema":{LEAST,"properties":{"k":{"type":"string","maxLength":8},"i":{"type":"integer","minimum":3,"maximum":3}}}}
> {"do":"upsert","in":"d","doc":{"k":"a","i":2}}
< {"cause":"bounds","code":13,"line":L,"name":"i","refused":"invalid"}
> {"do":"upsert","in":"d","doc":{"k":"a","i":3}}
< {"line":L,"ok":"upsert","rev":"1-d"}
> {"do":"upsert","in":"d","doc":{"k":"a","i":4}}
< {"cause":"bounds","code":13,"line":L,"name":"i","refused":"invalid"}

== a text has at most as many characters as its length
. {"do":"collection","name":"c","schema":{LEAST,"properties":{"k":{"type":"string","maxLength":1},"t":{"type":"string","maxLength":2}}}}
> {"do":"upsert","in":"c","doc":{"k":"é","t":"😀é"}}
< {"line":L,"ok":"upsert","rev":"1-c"}
> {"do":"upsert","in":"c","doc":{"k":"é","t":""}}
< {"line":L,"ok":"upsert","rev":"2-c"}
> {"do":"upsert","in":"c","doc":{"k":"é","t":"abc"}}
< {"cause":"length","code":13,"line":L,"name":"t","refused":"invalid"}
> {"do":"upsert","in":"c","doc":{"k":"éa","t":""}}
< {"cause":"length","code":13,"line":L,"name":"k","refused":"invalid"}
> {"do":"patch","in":"c","key":"é","set":{"t":"abc"}}
< {"cause":"length","code":13,"line":L,"name":"t","refused":"invalid"}
> {"do":"upsert","in":"c","doc":{"k":"","t":""}}
< {"cause":"length","code":13,"line":L,"name":"k","refused":"invalid"}
"#;
