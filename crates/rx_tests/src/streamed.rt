// What a fork hears of its master's commits without asking: a stream, and what becomes of each
// event that is delivered.
pub const CASES: &str = r#"// Events are taken where they follow what the fork has.
== an event that is lost leaves a gap, which a turn closes
FORKED
> {"do":"turn","name":"r"}
< {"exchange":1,"rows":[],"sent":"pull"}
< {"end":"quiet","exchanges":1,"line":L,"ok":"turn"}
. {"do":"stream","name":"r"} I(m,a,1) I(m,b,2)
> {"do":"deliver","name":"r","link":["lose"]}
< {"event":1,"rows":["a"],"took":"lost"}
< {"event":2,"rows":["b"],"took":"gap"}
< {"level":false,"line":L,"ok":"deliver","resync":true}
> {"do":"turn","name":"r"}
< {"exchange":1,"place":{"id":"b","lwt":2},"rows":["a","b"],"sent":"pull"}
< {"end":"quiet","exchanges":1,"line":L,"ok":"turn"}
. I(m,d,3)
> {"do":"deliver","name":"r"}
< {"event":1,"rows":["d"],"took":"taken"}
< {"level":true,"line":L,"ok":"deliver","resync":false}
= BOTH
= 01 00000021 03 00000001 'r' 00000001 'f' 00 00000001 'm' 0000000b 'master_wins' 00
= 01 0000003e 02 00000001 'm' 0000000000000001 00000001
= 0000000000000001 00000001 'a' 00 00000002 00000002 'id' 02 00000001 'a' 00000001 'n' 01 0000000000000001
= 01 0000003e 02 00000001 'm' 0000000000000002 00000001
= 0000000000000001 00000001 'b' 00 00000002 00000002 'id' 02 00000001 'b' 00000001 'n' 01 0000000000000002
= 01 000000c5 04 00000001 'r' 0000000000000001 00000002
= 0000000000000001 00000001 'a' 00 00000002 00000002 'id' 02 00000001 'a' 00000001 'n' 01 0000000000000001
= 0000000000000001 00000001 'b' 00 00000002 00000002 'id' 02 00000001 'b' 00000001 'n' 01 0000000000000002
= 00000002 00000001 'a' 00 00000002 00000002 'id' 02 00000001 'a' 00000001 'n' 01 0000000000000001
= 00000001 'b' 00 00000002 00000002 'id' 02 00000001 'b' 00000001 'n' 01 0000000000000002
= 00 01 0000000000000002 00000001 'b'
= 01 0000003e 02 00000001 'm' 0000000000000003 00000001
= 0000000000000001 00000001 'd' 00 00000002 00000002 'id' 02 00000001 'd' 00000001 'n' 01 0000000000000003
= 01 00000075 04 00000001 'r' 0000000000000002 00000001
= 0000000000000001 00000001 'd' 00 00000002 00000002 'id' 02 00000001 'd' 00000001 'n' 01 0000000000000003
= 00000001 00000001 'd' 00 00000002 00000002 'id' 02 00000001 'd' 00000001 'n' 01 0000000000000003
= 00 01 0000000000000003 00000001 'd'
= 00

== an event that is given twice is taken once
FORKED
> {"do":"turn","name":"r"}
< {"exchange":1,"rows":[],"sent":"pull"}
< {"end":"quiet","exchanges":1,"line":L,"ok":"turn"}
. {"do":"stream","name":"r"} I(m,a,1) I(m,b,2)
> {"do":"deliver","name":"r","link":["twice"]}
< {"event":1,"rows":["a"],"took":"taken"}
< {"event":1,"rows":["a"],"took":"old"}
< {"event":2,"rows":["b"],"took":"taken"}
< {"level":true,"line":L,"ok":"deliver","resync":false}
> {"do":"turn","name":"r"}
< {"exchange":1,"place":{"id":"b","lwt":2},"rows":[],"sent":"pull"}
< {"end":"quiet","exchanges":1,"line":L,"ok":"turn"}
. I(m,d,3)
> {"do":"deliver","name":"r"}
< {"event":1,"rows":["d"],"took":"taken"}
< {"level":true,"line":L,"ok":"deliver","resync":false}
= BOTH
= 01 00000021 03 00000001 'r' 00000001 'f' 00 00000001 'm' 0000000b 'master_wins' 00
= 01 0000003e 02 00000001 'm' 0000000000000001 00000001
= 0000000000000001 00000001 'a' 00 00000002 00000002 'id' 02 00000001 'a' 00000001 'n' 01 0000000000000001
= 01 0000003e 02 00000001 'm' 0000000000000002 00000001
= 0000000000000001 00000001 'b' 00 00000002 00000002 'id' 02 00000001 'b' 00000001 'n' 01 0000000000000002
= 01 00000075 04 00000001 'r' 0000000000000001 00000001
= 0000000000000001 00000001 'a' 00 00000002 00000002 'id' 02 00000001 'a' 00000001 'n' 01 0000000000000001
= 00000001 00000001 'a' 00 00000002 00000002 'id' 02 00000001 'a' 00000001 'n' 01 0000000000000001
= 00 01 0000000000000001 00000001 'a'
= 01 00000075 04 00000001 'r' 0000000000000002 00000001
= 0000000000000001 00000001 'b' 00 00000002 00000002 'id' 02 00000001 'b' 00000001 'n' 01 0000000000000002
= 00000001 00000001 'b' 00 00000002 00000002 'id' 02 00000001 'b' 00000001 'n' 01 0000000000000002
= 00 01 0000000000000002 00000001 'b'
= 01 0000003e 02 00000001 'm' 0000000000000003 00000001
= 0000000000000001 00000001 'd' 00 00000002 00000002 'id' 02 00000001 'd' 00000001 'n' 01 0000000000000003
= 01 00000075 04 00000001 'r' 0000000000000003 00000001
= 0000000000000001 00000001 'd' 00 00000002 00000002 'id' 02 00000001 'd' 00000001 'n' 01 0000000000000003
= 00000001 00000001 'd' 00 00000002 00000002 'id' 02 00000001 'd' 00000001 'n' 01 0000000000000003
= 00 01 0000000000000003 00000001 'd'
= 00

== an event that is put off stands behind all that waits
FORKED
. {"do":"stream","name":"r"} I(m,a,1) I(m,b,2) I(m,d,3)
> {"do":"deliver","name":"r","link":["later","later","later"]}
< {"event":1,"rows":["a"],"took":"later"}
< {"event":2,"rows":["b"],"took":"later"}
< {"event":3,"rows":["d"],"took":"later"}
< {"level":false,"line":L,"ok":"deliver","resync":false}
> {"do":"deliver","name":"r","link":["ok","later"]}
< {"event":1,"rows":["a"],"took":"taken"}
< {"event":2,"rows":["b"],"took":"later"}
< {"event":3,"rows":["d"],"took":"gap"}
< {"level":false,"line":L,"ok":"deliver","resync":true}
> {"do":"deliver","name":"r"}
< {"event":1,"rows":["b"],"took":"taken"}
< {"level":false,"line":L,"ok":"deliver","resync":false}
. I(m,e,4)
> {"do":"deliver","name":"r","link":["later","ok"]}
< {"event":1,"rows":["e"],"took":"later"}
< {"level":false,"line":L,"ok":"deliver","resync":false}
> {"do":"turn","name":"r"}
< {"exchange":1,"place":{"id":"e","lwt":4},"rows":["d","e"],"sent":"pull"}
< {"end":"quiet","exchanges":1,"line":L,"ok":"turn"}
. I(m,g,5)
> {"do":"deliver","name":"r"}
< {"event":1,"rows":["e"],"took":"old"}
< {"event":2,"rows":["g"],"took":"taken"}
< {"level":true,"line":L,"ok":"deliver","resync":false}

== happenings that no event meets, and none at all
FORKED
. {"do":"stream","name":"r"}
> {"do":"deliver","name":"r"}
< {"level":true,"line":L,"ok":"deliver","resync":false}
> {"do":"deliver","name":"r","link":["lose","later"]}
< {"level":true,"line":L,"ok":"deliver","resync":false}
. I(m,a,1)
> {"do":"deliver","name":"r","link":["ok","lose","lose"]}
< {"event":1,"rows":["a"],"took":"taken"}
< {"level":true,"line":L,"ok":"deliver","resync":false}
> {"do":"deliver","name":"r","link":["lose"]}
< {"level":true,"line":L,"ok":"deliver","resync":false}
. I(m,b,2)
> {"do":"deliver","name":"r","link":[]}
< {"event":1,"rows":["b"],"took":"taken"}
< {"level":true,"line":L,"ok":"deliver","resync":false}

== a stream begins behind what the master has
FORKED
. I(m,a,1) {"do":"stream","name":"r"}
> {"do":"deliver","name":"r"}
< {"level":false,"line":L,"ok":"deliver","resync":false}
. I(m,b,2)
> {"do":"deliver","name":"r"}
< {"event":1,"rows":["b"],"took":"gap"}
< {"level":false,"line":L,"ok":"deliver","resync":true}
> {"do":"turn","name":"r"}
< {"exchange":1,"place":{"id":"b","lwt":2},"rows":["a","b"],"sent":"pull"}
< {"end":"quiet","exchanges":1,"line":L,"ok":"turn"}
> {"do":"deliver","name":"r"}
< {"level":true,"line":L,"ok":"deliver","resync":false}
. I(m,d,3)
> {"do":"deliver","name":"r"}
< {"event":1,"rows":["d"],"took":"taken"}
< {"level":true,"line":L,"ok":"deliver","resync":false}

== each line that writes to the master makes an event, and one that is refused makes none
FORKED
. {"do":"stream","name":"r"}
> {"do":"bulk","in":"m","docs":[{"id":"b","n":2},{"id":"d"},{"id":"a","n":1}]}
< {"line":L,"ok":"bulk","revs":["1-m","1-m","1-m"]}
> {"do":"bulk","in":"m","docs":[]}
< {"line":L,"ok":"bulk","revs":[]}
> {"do":"patch","in":"m","key":"a","set":{"n":5}}
< {"line":L,"ok":"patch","rev":"2-m"}
> {"do":"patch","in":"m","key":"z","set":{"n":5}}
< {"code":15,"line":L,"refused":"no_document"}
> {"do":"update","in":"m","key":"b","update":{"$inc":{"n":1}}}
< {"line":L,"ok":"update","rev":"2-m"}
> {"do":"upsert","in":"m","doc":{"id":"d","n":3}}
< {"line":L,"ok":"upsert","rev":"2-m"}
> I(m,d,4)
< {"code":14,"line":L,"refused":"conflict","rev":"2-m"}
> {"do":"remove","in":"m","key":"b"}
< {"line":L,"ok":"remove","rev":"3-m"}
. I(f,x,1) {"do":"unstream","name":"r"} {"do":"stream","name":"r"}
> {"do":"upsert","in":"m","doc":{"id":"d","n":3}}
< {"line":L,"ok":"upsert","rev":"3-m"}
> {"do":"turn","name":"r"}
< {"conflicts":[],"exchange":1,"rows":["x"],"sent":"push"}
< {"exchange":2,"place":{"id":"x","lwt":7},"rows":["a","b","d","x"],"sent":"pull"}
< {"end":"quiet","exchanges":2,"line":L,"ok":"turn"}
> {"do":"remove","in":"m","key":"a"}
< {"line":L,"ok":"remove","rev":"3-m"}
. {"do":"tick","at":40}
> {"do":"bulk","in":"m","docs":[{"id":"b"},{"id":"a","n":7}]}
< {"line":L,"ok":"bulk","revs":["4-m","4-m"]}
> {"do":"deliver","name":"r"}
< {"event":1,"rows":["d"],"took":"old"}
< {"event":2,"rows":["x"],"took":"old"}
< {"event":3,"rows":["a"],"took":"taken"}
< {"event":4,"rows":["a","b"],"took":"taken"}
< {"level":true,"line":L,"ok":"deliver","resync":false}
> {"do":"get","in":"f","key":"a"}
< {"doc":{"id":"a","n":7},"line":L,"lwt":41,"ok":"get","rev":"3-f"}
> {"do":"find","in":"f","query":{}}
< {"line":L,"ok":"find","rows":[{"id":"a","n":7},{"id":"b"},{"id":"d","n":3},{"id":"x","n":1}]}

== what comes of an event is written as by a pull, and as it stands no row is written
FORKED
. {"do":"stream","name":"r"} I(f,a,1)
> {"do":"turn","name":"r","budget":1}
< {"conflicts":[],"exchange":1,"rows":["a"],"sent":"push"}
< {"end":"more","exchanges":1,"line":L,"ok":"turn"}
> {"do":"get","in":"f","key":"a"}
< {"doc":{"id":"a","n":1},"line":L,"lwt":1,"ok":"get","rev":"1-f"}
> {"do":"deliver","name":"r"}
< {"event":1,"rows":["a"],"took":"taken"}
< {"level":true,"line":L,"ok":"deliver","resync":false}
> {"do":"get","in":"f","key":"a"}
< {"doc":{"id":"a","n":1},"line":L,"lwt":1,"ok":"get","rev":"1-f"}
> {"do":"remove","in":"m","key":"a"}
< {"line":L,"ok":"remove","rev":"2-m"}
. {"do":"tick","at":9}
> {"do":"deliver","name":"r"}
< {"event":1,"rows":["a"],"took":"taken"}
< {"level":true,"line":L,"ok":"deliver","resync":false}
> {"do":"get","in":"f","key":"a"}
< {"code":15,"line":L,"refused":"no_document"}
> I(m,a,2)
< insert 3-m
> {"do":"deliver","name":"r"}
< {"event":1,"rows":["a"],"took":"taken"}
< {"level":true,"line":L,"ok":"deliver","resync":false}
> {"do":"get","in":"f","key":"a"}
< {"doc":{"id":"a","n":2},"line":L,"lwt":10,"ok":"get","rev":"3-f"}
> {"do":"upsert","in":"m","doc":{"id":"a","n":2}}
< {"line":L,"ok":"upsert","rev":"4-m"}
> {"do":"deliver","name":"r"}
< {"event":1,"rows":["a"],"took":"taken"}
< {"level":true,"line":L,"ok":"deliver","resync":false}
> {"do":"get","in":"f","key":"a"}
< {"doc":{"id":"a","n":2},"line":L,"lwt":10,"ok":"get","rev":"3-f"}
> {"do":"turn","name":"r"}
< {"exchange":1,"place":{"id":"a","lwt":10},"rows":[],"sent":"pull"}
< {"end":"quiet","exchanges":1,"line":L,"ok":"turn"}

== the words of an event in their order: it is old, the fork has what is to be pushed, there is a gap
FORKED
. {"do":"stream","name":"r"} I(f,x,1) I(m,a,1)
> {"do":"deliver","name":"r","link":["twice"]}
< {"event":1,"rows":["a"],"took":"pending"}
< {"event":1,"rows":["a"],"took":"pending"}
< {"level":false,"line":L,"ok":"deliver","resync":true}
. I(m,b,2)
> {"do":"turn","name":"r"}
< {"conflicts":[],"exchange":1,"rows":["x"],"sent":"push"}
< {"exchange":2,"place":{"id":"x","lwt":3},"rows":["a","b","x"],"sent":"pull"}
< {"end":"quiet","exchanges":2,"line":L,"ok":"turn"}
. I(f,y,1) I(m,d,3)
> {"do":"deliver","name":"r"}
< {"event":1,"rows":["b"],"took":"old"}
< {"event":2,"rows":["x"],"took":"old"}
< {"event":3,"rows":["d"],"took":"pending"}
< {"level":false,"line":L,"ok":"deliver","resync":true}
> {"do":"turn","name":"r"}
< {"conflicts":[],"exchange":1,"rows":["y"],"sent":"push"}
< {"exchange":2,"place":{"id":"y","lwt":5},"rows":["d","y"],"sent":"pull"}
< {"end":"quiet","exchanges":2,"line":L,"ok":"turn"}
> {"do":"deliver","name":"r","link":["twice","later"]}
< {"event":1,"rows":["y"],"took":"old"}
< {"event":1,"rows":["y"],"took":"old"}
< {"level":true,"line":L,"ok":"deliver","resync":false}
> {"do":"deliver","name":"r"}
< {"level":true,"line":L,"ok":"deliver","resync":false}
. I(m,e,4) I(m,g,5)
> {"do":"deliver","name":"r","link":["lose","twice"]}
< {"event":1,"rows":["e"],"took":"lost"}
< {"event":2,"rows":["g"],"took":"gap"}
< {"event":2,"rows":["g"],"took":"gap"}
< {"level":false,"line":L,"ok":"deliver","resync":true}
. I(f,z,1) I(m,h,6)
> {"do":"deliver","name":"r"}
< {"event":1,"rows":["h"],"took":"pending"}
< {"level":false,"line":L,"ok":"deliver","resync":true}

== a document that is to be pushed stays as it is, also where the event has its key
FORKED
. I(m,a,1)
> {"do":"turn","name":"r"}
< {"exchange":1,"place":{"id":"a","lwt":1},"rows":["a"],"sent":"pull"}
< {"end":"quiet","exchanges":1,"line":L,"ok":"turn"}
. {"do":"stream","name":"r"}
> {"do":"patch","in":"f","key":"a","set":{"n":2}}
< {"line":L,"ok":"patch","rev":"2-f"}
> {"do":"patch","in":"m","key":"a","set":{"n":3}}
< {"line":L,"ok":"patch","rev":"2-m"}
> {"do":"deliver","name":"r"}
< {"event":1,"rows":["a"],"took":"pending"}
< {"level":false,"line":L,"ok":"deliver","resync":true}
> {"do":"get","in":"f","key":"a"}
< {"doc":{"id":"a","n":2},"line":L,"lwt":2,"ok":"get","rev":"2-f"}
> {"do":"patch","in":"f","key":"a","set":{"n":1}}
< {"line":L,"ok":"patch","rev":"3-f"}
> {"do":"patch","in":"m","key":"a","set":{"n":4}}
< {"line":L,"ok":"patch","rev":"3-m"}
> {"do":"deliver","name":"r"}
< {"event":1,"rows":["a"],"took":"gap"}
< {"level":false,"line":L,"ok":"deliver","resync":true}
> {"do":"turn","name":"r"}
< {"exchange":1,"place":{"id":"a","lwt":3},"rows":["a"],"sent":"pull"}
< {"end":"quiet","exchanges":1,"line":L,"ok":"turn"}
> {"do":"deliver","name":"r"}
< {"level":true,"line":L,"ok":"deliver","resync":false}
> {"do":"get","in":"f","key":"a"}
< {"doc":{"id":"a","n":4},"line":L,"lwt":4,"ok":"get","rev":"4-f"}

== no write time is left: a row isn't written, and an event without one is taken
FORKED
. I(f,a,1) {"do":"tick","at":9007199254740991} I(f,z,1) {"do":"tick","at":0}
. {"do":"stream","name":"r"}
> {"do":"turn","name":"r","batch":1,"budget":2}
< {"conflicts":[],"exchange":1,"rows":["a"],"sent":"push"}
< {"conflicts":[],"exchange":2,"rows":["z"],"sent":"push"}
< {"end":"more","exchanges":2,"line":L,"ok":"turn"}
> {"do":"deliver","name":"r"}
< {"event":1,"rows":["a"],"took":"taken"}
< {"event":2,"rows":["z"],"took":"taken"}
< {"level":true,"line":L,"ok":"deliver","resync":false}
. I(m,b,2)
> {"do":"deliver","name":"r","link":["twice"]}
< {"event":1,"rows":["b"],"took":"clock"}
< {"event":1,"rows":["b"],"took":"clock"}
< {"level":false,"line":L,"ok":"deliver","resync":false}
> {"do":"deliver","name":"r"}
< {"level":false,"line":L,"ok":"deliver","resync":false}
. I(m,d,3)
> {"do":"deliver","name":"r"}
< {"event":1,"rows":["d"],"took":"gap"}
< {"level":false,"line":L,"ok":"deliver","resync":true}
> {"do":"turn","name":"r"}
< {"end":"clock","exchanges":0,"line":L,"ok":"turn"}

== pushes that are handled, lost, repeated and late make events
FORKED
. {"do":"stream","name":"r"} I(f,a,1)
> {"do":"turn","name":"r","link":["lose_request"]}
< {"exchange":1,"lost":"lose_request","rows":["a"],"sent":"push"}
< {"end":"lost","exchanges":1,"line":L,"ok":"turn"}
> {"do":"deliver","name":"r"}
< {"level":false,"line":L,"ok":"deliver","resync":false}
> {"do":"patch","in":"f","key":"a","set":{"n":2}}
< {"line":L,"ok":"patch","rev":"2-f"}
> {"do":"turn","name":"r","link":[{"late":1}]}
< {"conflicts":["a"],"exchange":1,"rows":["a"],"sent":"push"}
< {"exchange":2,"place":{"id":"a","lwt":1},"rows":["a"],"sent":"pull"}
< {"end":"quiet","exchanges":2,"line":L,"ok":"turn"}
> {"do":"deliver","name":"r"}
< {"event":1,"rows":["a"],"took":"old"}
< {"level":true,"line":L,"ok":"deliver","resync":false}
> {"do":"patch","in":"f","key":"a","set":{"n":3}}
< {"line":L,"ok":"patch","rev":"4-f"}
> {"do":"turn","name":"r","link":["lose_reply"]}
< {"exchange":1,"lost":"lose_reply","rows":["a"],"sent":"push"}
< {"end":"lost","exchanges":1,"line":L,"ok":"turn"}
> {"do":"deliver","name":"r","link":["later"]}
< {"event":1,"rows":["a"],"took":"later"}
< {"level":false,"line":L,"ok":"deliver","resync":false}
> {"do":"deliver","name":"r"}
< {"event":1,"rows":["a"],"took":"pending"}
< {"level":false,"line":L,"ok":"deliver","resync":true}
> {"do":"turn","name":"r","link":["twice"],"budget":1}
< {"conflicts":["a"],"exchange":1,"rows":["a"],"sent":"push"}
< {"end":"more","exchanges":1,"line":L,"ok":"turn"}
> {"do":"deliver","name":"r"}
< {"level":false,"line":L,"ok":"deliver","resync":false}
> {"do":"turn","name":"r"}
< {"exchange":1,"place":{"id":"a","lwt":2},"rows":["a"],"sent":"pull"}
< {"end":"quiet","exchanges":1,"line":L,"ok":"turn"}
> {"do":"patch","in":"f","key":"a","set":{"n":4}}
< {"line":L,"ok":"patch","rev":"5-f"}
> {"do":"turn","name":"r","link":["twice"],"budget":1}
< {"conflicts":[],"exchange":1,"rows":["a"],"sent":"push"}
< {"end":"more","exchanges":1,"line":L,"ok":"turn"}
> {"do":"deliver","name":"r"}
< {"event":1,"rows":["a"],"took":"taken"}
< {"level":true,"line":L,"ok":"deliver","resync":false}
> {"do":"turn","name":"r","link":["stale"]}
< {"exchange":1,"lost":"stale","sent":"pull"}
< {"end":"lost","exchanges":1,"line":L,"ok":"turn"}

== a fork of a fork has what comes to it, and what goes up comes down to all
FORKED
. C(g) C(h) {"do":"replicate","name":"s","fork":"g","master":"f","handler":"master_wins"}
. {"do":"replicate","name":"t","fork":"h","master":"m","handler":"master_wins"}
. {"do":"stream","name":"s"} {"do":"stream","name":"r"} {"do":"stream","name":"t"} I(m,a,1) I(m,b,2)
> {"do":"deliver","name":"s"}
< {"level":true,"line":L,"ok":"deliver","resync":false}
> {"do":"deliver","name":"r","link":["ok","later"]}
< {"event":1,"rows":["a"],"took":"taken"}
< {"event":2,"rows":["b"],"took":"later"}
< {"level":false,"line":L,"ok":"deliver","resync":false}
> {"do":"deliver","name":"s"}
< {"event":1,"rows":["a"],"took":"taken"}
< {"level":true,"line":L,"ok":"deliver","resync":false}
> {"do":"deliver","name":"r"}
< {"event":1,"rows":["b"],"took":"taken"}
< {"level":true,"line":L,"ok":"deliver","resync":false}
> {"do":"deliver","name":"s"}
< {"event":1,"rows":["b"],"took":"taken"}
< {"level":true,"line":L,"ok":"deliver","resync":false}
. I(g,d,3)
> {"do":"turn","name":"s","budget":1}
< {"conflicts":[],"exchange":1,"rows":["d"],"sent":"push"}
< {"end":"more","exchanges":1,"line":L,"ok":"turn"}
> {"do":"turn","name":"r","budget":1}
< {"conflicts":[],"exchange":1,"rows":["d"],"sent":"push"}
< {"end":"more","exchanges":1,"line":L,"ok":"turn"}
> {"do":"deliver","name":"s"}
< {"event":1,"rows":["d"],"took":"taken"}
< {"level":true,"line":L,"ok":"deliver","resync":false}
> {"do":"deliver","name":"r"}
< {"event":1,"rows":["d"],"took":"taken"}
< {"level":true,"line":L,"ok":"deliver","resync":false}
> {"do":"deliver","name":"t"}
< {"event":1,"rows":["a"],"took":"taken"}
< {"event":2,"rows":["b"],"took":"taken"}
< {"event":3,"rows":["d"],"took":"taken"}
< {"level":true,"line":L,"ok":"deliver","resync":false}
> I(h,b,9)
< {"code":14,"line":L,"refused":"conflict","rev":"1-h"}
> {"do":"remove","in":"h","key":"b"}
< {"line":L,"ok":"remove","rev":"2-h"}
> {"do":"turn","name":"t"}
< {"conflicts":[],"exchange":1,"rows":["b"],"sent":"push"}
< {"exchange":2,"place":{"id":"b","lwt":4},"rows":["b"],"sent":"pull"}
< {"end":"quiet","exchanges":2,"line":L,"ok":"turn"}
> {"do":"deliver","name":"t"}
< {"event":1,"rows":["b"],"took":"old"}
< {"level":true,"line":L,"ok":"deliver","resync":false}
> {"do":"deliver","name":"r"}
< {"event":1,"rows":["b"],"took":"taken"}
< {"level":true,"line":L,"ok":"deliver","resync":false}
> {"do":"deliver","name":"s"}
< {"event":1,"rows":["b"],"took":"taken"}
< {"level":true,"line":L,"ok":"deliver","resync":false}
> {"do":"find","in":"g","query":{}}
< {"line":L,"ok":"find","rows":[{"id":"a","n":1},{"id":"d","n":3}]}

// What waits is heard of and ends.
== what is observed of the fork is emitted once, behind the reply
FORKED
. {"do":"observe","name":"q","in":"f","query":{"sort":[{"n":"asc"}],"limit":2}}
< {"emit":"q","rows":[]}
. {"do":"stream","name":"r"}
> {"do":"bulk","in":"m","docs":[{"id":"b","n":2},{"id":"a","n":1}]}
< {"line":L,"ok":"bulk","revs":["1-m","1-m"]}
. I(m,d,0) I(m,e,9)
> {"do":"deliver","name":"r","link":["ok","ok","later"]}
< {"event":1,"rows":["a","b"],"took":"taken"}
< {"event":2,"rows":["d"],"took":"taken"}
< {"event":3,"rows":["e"],"took":"later"}
< {"level":false,"line":L,"ok":"deliver","resync":false}
< {"emit":"q","rows":[{"id":"d","n":0},{"id":"a","n":1}]}
> {"do":"deliver","name":"r"}
< {"event":1,"rows":["e"],"took":"taken"}
< {"level":true,"line":L,"ok":"deliver","resync":false}
> {"do":"remove","in":"m","key":"d"}
< {"line":L,"ok":"remove","rev":"2-m"}
> {"do":"deliver","name":"r"}
< {"event":1,"rows":["d"],"took":"taken"}
< {"level":true,"line":L,"ok":"deliver","resync":false}
< {"emit":"q","rows":[{"id":"a","n":1},{"id":"b","n":2}]}
> {"do":"deliver","name":"r"}
< {"level":true,"line":L,"ok":"deliver","resync":false}

== the record of an event passes the limit, and what was taken before it stands
$ run journal --max-journal 776
FORKED
. {"do":"stream","name":"r"} I(m,a,1) I(m,b,2)
> {"do":"deliver","name":"r"}
> {"do":"get","in":"f","key":"a"}
< {"limit":776,"stop":"full","would":777}
$ run journal
> {"do":"get","in":"f","key":"a"}
< {"doc":{"id":"a","n":1},"line":L,"lwt":1,"ok":"get","rev":"1-f"}
> {"do":"deliver","name":"r"}
< {"code":31,"line":L,"refused":"no_stream"}
> {"do":"turn","name":"r"}
< {"exchange":1,"place":{"id":"b","lwt":2},"rows":["b"],"sent":"pull"}
< {"end":"quiet","exchanges":1,"line":L,"ok":"turn"}

// Restarts and migrations close streams.
== a restart closes all streams
FORKED
. C(g) {"do":"replicate","name":"s","fork":"g","master":"f","handler":"master_wins"}
. {"do":"stream","name":"r"} {"do":"stream","name":"s"} I(m,a,1)
> {"do":"restart"}
< {"epoch":2,"line":L,"ok":"restart"}
> {"do":"deliver","name":"r"}
< {"code":31,"line":L,"refused":"no_stream"}
> {"do":"unstream","name":"s"}
< {"code":31,"line":L,"refused":"no_stream"}
. {"do":"stream","name":"r"}
> {"do":"deliver","name":"r"}
< {"level":false,"line":L,"ok":"deliver","resync":false}
. I(m,b,2)
> {"do":"deliver","name":"r"}
< {"event":1,"rows":["b"],"took":"gap"}
< {"level":false,"line":L,"ok":"deliver","resync":true}
. {"do":"stream","name":"s"}
> {"do":"turn","name":"r"}
< {"exchange":1,"place":{"id":"b","lwt":2},"rows":["a","b"],"sent":"pull"}
< {"end":"quiet","exchanges":1,"line":L,"ok":"turn"}
> {"do":"deliver","name":"s"}
< {"event":1,"rows":["a","b"],"took":"taken"}
< {"level":true,"line":L,"ok":"deliver","resync":false}
. I(m,d,3)
$ run journal
> {"do":"deliver","name":"r"}
< {"code":31,"line":L,"refused":"no_stream"}
> {"do":"unstream","name":"r"}
< {"code":31,"line":L,"refused":"no_stream"}
. {"do":"stream","name":"r"}
> {"do":"deliver","name":"r"}
< {"level":false,"line":L,"ok":"deliver","resync":false}
> {"do":"turn","name":"r"}
< {"exchange":1,"place":{"id":"d","lwt":3},"rows":["d"],"sent":"pull"}
< {"end":"quiet","exchanges":1,"line":L,"ok":"turn"}
> {"do":"deliver","name":"r"}
< {"level":true,"line":L,"ok":"deliver","resync":false}

== a migration closes the streams of its group, and no others
FORKED
. C(g) {"do":"replicate","name":"s","fork":"g","master":"f","handler":"master_wins"} C(p) C(q)
. {"do":"replicate","name":"t","fork":"q","master":"p","handler":"master_wins"}
. {"do":"stream","name":"t"} {"do":"stream","name":"r"} {"do":"stream","name":"s"} I(m,a,5) I(p,a,5)
> {"do":"migrate","in":"g","schema":NEXT,"steps":[{"scale":"n","by":10}]}
< {"collections":["m","f","g"],"line":L,"ok":"migrate"}
> {"do":"deliver","name":"r"}
< {"code":31,"line":L,"refused":"no_stream"}
> {"do":"deliver","name":"s"}
< {"code":31,"line":L,"refused":"no_stream"}
> {"do":"unstream","name":"r"}
< {"code":31,"line":L,"refused":"no_stream"}
> {"do":"deliver","name":"t"}
< {"event":1,"rows":["a"],"took":"taken"}
< {"level":true,"line":L,"ok":"deliver","resync":false}
> {"do":"get","in":"q","key":"a"}
< {"doc":{"id":"a","n":5},"line":L,"lwt":1,"ok":"get","rev":"1-q"}
. {"do":"stream","name":"r"} I(m,b,6)
> {"do":"deliver","name":"r"}
< {"event":1,"rows":["b"],"took":"gap"}
< {"level":false,"line":L,"ok":"deliver","resync":true}
> {"do":"turn","name":"r"}
< {"exchange":1,"place":{"id":"b","lwt":2},"rows":["a","b"],"sent":"pull"}
< {"end":"quiet","exchanges":1,"line":L,"ok":"turn"}
. {"do":"stream","name":"s"} I(m,d,7)
> {"do":"deliver","name":"r"}
< {"event":1,"rows":["d"],"took":"taken"}
< {"level":true,"line":L,"ok":"deliver","resync":false}
> {"do":"deliver","name":"s"}
< {"event":1,"rows":["d"],"took":"gap"}
< {"level":false,"line":L,"ok":"deliver","resync":true}
> {"do":"get","in":"f","key":"d"}
< {"doc":{"id":"d","n":7},"line":L,"lwt":2,"ok":"get","rev":"1-f"}

== a migration that is refused leaves them open
FORKED
. {"do":"stream","name":"r"} I(m,a,5)
> {"do":"migrate","in":"m","schema":AFTER,"steps":[]}
< {"cause":"version","code":28,"line":L,"name":"m","refused":"migration"}
> {"do":"migrate","in":"m","schema":SMALL,"steps":[]}
< {"cause":"invalid","code":28,"line":L,"name":"m","refused":"migration"}
> {"do":"deliver","name":"r"}
< {"event":1,"rows":["a"],"took":"taken"}
< {"level":true,"line":L,"ok":"deliver","resync":false}

== what is pending no more behind a migration, and an event of behind it
FORKED
. I(m,a,1)
> {"do":"turn","name":"r"}
< {"exchange":1,"place":{"id":"a","lwt":1},"rows":["a"],"sent":"pull"}
< {"end":"quiet","exchanges":1,"line":L,"ok":"turn"}
. {"do":"stream","name":"r"}
> {"do":"patch","in":"f","key":"a","set":{"n":2}}
< {"line":L,"ok":"patch","rev":"2-f"}
. {"do":"insert","in":"m","doc":{"id":"b"}}
> {"do":"deliver","name":"r"}
< {"event":1,"rows":["b"],"took":"pending"}
< {"level":false,"line":L,"ok":"deliver","resync":true}
> {"do":"migrate","in":"m","schema":BARE,"steps":[{"drop":"n"}]}
< {"collections":["m","f"],"line":L,"ok":"migrate"}
> {"do":"turn","name":"r"}
< {"exchange":1,"place":{"id":"b","lwt":2},"rows":["b"],"sent":"pull"}
< {"end":"quiet","exchanges":1,"line":L,"ok":"turn"}
. {"do":"stream","name":"r"} {"do":"insert","in":"m","doc":{"id":"d"}}
> {"do":"deliver","name":"r"}
< {"event":1,"rows":["d"],"took":"taken"}
< {"level":true,"line":L,"ok":"deliver","resync":false}

== what waits, and its mark, go with the stream
FORKED
. {"do":"stream","name":"r"} I(m,a,1) {"do":"unstream","name":"r"}
> {"do":"unstream","name":"r"}
< {"code":31,"line":L,"refused":"no_stream"}
. {"do":"stream","name":"r"}
> {"do":"deliver","name":"r"}
< {"level":false,"line":L,"ok":"deliver","resync":false}
> {"do":"turn","name":"r"}
< {"exchange":1,"place":{"id":"a","lwt":1},"rows":["a"],"sent":"pull"}
< {"end":"quiet","exchanges":1,"line":L,"ok":"turn"}
. I(m,b,2)
> {"do":"deliver","name":"r"}
< {"event":1,"rows":["b"],"took":"taken"}
< {"level":true,"line":L,"ok":"deliver","resync":false}

// Streams are refused by members and by what is stored.
== a member that isn't there, and another one
> {"do":"stream"}
< {"code":5,"line":L,"name":"name","refused":"missing"}
> {"do":"stream","link":[]}
< {"code":5,"line":L,"name":"name","refused":"missing"}
> {"do":"stream","name":"r","link":[]}
< {"code":6,"line":L,"name":"link","refused":"unexpected"}
> {"do":"stream","name":5,"budget":1,"batch":1}
< {"code":6,"line":L,"name":"batch","refused":"unexpected"}
> {"do":"unstream"}
< {"code":5,"line":L,"name":"name","refused":"missing"}
> {"do":"unstream","name":5,"link":[]}
< {"code":6,"line":L,"name":"link","refused":"unexpected"}
> {"do":"deliver","zz":1}
< {"code":5,"line":L,"name":"name","refused":"missing"}
> {"do":"deliver","link":5}
< {"code":5,"line":L,"name":"name","refused":"missing"}
> {"do":"deliver","name":5,"link":5,"zz":1,"budget":1}
< {"code":6,"line":L,"name":"budget","refused":"unexpected"}
> {"do":"Stream","name":"r"}
< {"code":4,"line":L,"name":"Stream","refused":"unknown_do"}
> {"do":"delivery","name":"r"}
< {"code":4,"line":L,"name":"delivery","refused":"unknown_do"}

== a member of another kind, then the name
> {"do":"stream","name":5}
< {"code":7,"line":L,"name":"name","refused":"wrong_type"}
> {"do":"stream","name":"R"}
< {"code":8,"line":L,"name":"name","refused":"name"}
> {"do":"unstream","name":null}
< {"code":7,"line":L,"name":"name","refused":"wrong_type"}
> {"do":"unstream","name":""}
< {"code":8,"line":L,"name":"name","refused":"name"}
> {"do":"deliver","name":5,"link":5}
< {"code":7,"line":L,"name":"name","refused":"wrong_type"}
> {"do":"deliver","name":"R","link":5}
< {"code":7,"line":L,"name":"link","refused":"wrong_type"}
> {"do":"deliver","name":"R","link":null}
< {"code":7,"line":L,"name":"link","refused":"wrong_type"}
> {"do":"deliver","name":"R","link":"ok"}
< {"code":7,"line":L,"name":"link","refused":"wrong_type"}
> {"do":"deliver","name":"R","link":{"0":"ok"}}
< {"code":7,"line":L,"name":"link","refused":"wrong_type"}
> {"do":"deliver","name":"R","link":["ok"]}
< {"code":8,"line":L,"name":"name","refused":"name"}

== what is no list of happenings is told before what is stored
> {"do":"deliver","name":"r","link":["ok","Ok"]}
< {"code":7,"line":L,"name":"link","refused":"wrong_type"}
> {"do":"deliver","name":"r","link":[5]}
< {"code":7,"line":L,"name":"link","refused":"wrong_type"}
> {"do":"deliver","name":"r","link":[["ok"]]}
< {"code":7,"line":L,"name":"link","refused":"wrong_type"}
> {"do":"deliver","name":"r","link":[null]}
< {"code":7,"line":L,"name":"link","refused":"wrong_type"}
> {"do":"deliver","name":"r","link":["lose_request"]}
< {"code":7,"line":L,"name":"link","refused":"wrong_type"}
> {"do":"deliver","name":"r","link":["lose_reply"]}
< {"code":7,"line":L,"name":"link","refused":"wrong_type"}
> {"do":"deliver","name":"r","link":["stale"]}
< {"code":7,"line":L,"name":"link","refused":"wrong_type"}
> {"do":"deliver","name":"r","link":["late"]}
< {"code":7,"line":L,"name":"link","refused":"wrong_type"}
> {"do":"deliver","name":"r","link":[{"late":1}]}
< {"code":7,"line":L,"name":"link","refused":"wrong_type"}
> {"do":"deliver","name":"r","link":[{"later":1}]}
< {"code":7,"line":L,"name":"link","refused":"wrong_type"}
> {"do":"deliver","name":"r","link":["ok","lose","twice","later",""]}
< {"code":7,"line":L,"name":"link","refused":"wrong_type"}
> {"do":"deliver","name":"r","link":["ok","lose","twice","later","ok"]}
< {"code":18,"line":L,"refused":"no_replication"}

== a replication that isn't there, a master elsewhere, a stream that is open, and one that isn't
FORKED
. C(p) {"do":"replicate","name":"s","fork":"p","port":4001,"handler":"master_wins"}
> {"do":"stream","name":"z"}
< {"code":18,"line":L,"refused":"no_replication"}
> {"do":"deliver","name":"z"}
< {"code":18,"line":L,"refused":"no_replication"}
> {"do":"unstream","name":"z"}
< {"code":18,"line":L,"refused":"no_replication"}
> {"do":"stream","name":"m"}
< {"code":18,"line":L,"refused":"no_replication"}
> {"do":"stream","name":"s"}
< {"code":30,"line":L,"refused":"remote"}
> {"do":"stream","name":"s"}
< {"code":30,"line":L,"refused":"remote"}
> {"do":"deliver","name":"s"}
< {"code":31,"line":L,"refused":"no_stream"}
> {"do":"unstream","name":"s"}
< {"code":31,"line":L,"refused":"no_stream"}
> {"do":"deliver","name":"r"}
< {"code":31,"line":L,"refused":"no_stream"}
> {"do":"unstream","name":"r"}
< {"code":31,"line":L,"refused":"no_stream"}
. {"do":"stream","name":"r"}
> {"do":"stream","name":"r"}
< {"code":9,"line":L,"refused":"exists"}
. I(m,a,1)
> {"do":"deliver","name":"r","link":["lost"]}
< {"code":7,"line":L,"name":"link","refused":"wrong_type"}
> {"do":"stream","name":"r"}
< {"code":9,"line":L,"refused":"exists"}
> {"do":"deliver","name":"r"}
< {"event":1,"rows":["a"],"took":"taken"}
< {"level":true,"line":L,"ok":"deliver","resync":false}
. {"do":"unstream","name":"r"}
> {"do":"unstream","name":"r"}
< {"code":31,"line":L,"refused":"no_stream"}
> {"do":"deliver","name":"r"}
< {"code":31,"line":L,"refused":"no_stream"}

== the happenings of a delivery are none of a turn's
FORKED
> {"do":"turn","name":"r","link":["lose"]}
< {"code":7,"line":L,"name":"link","refused":"wrong_type"}
> {"do":"turn","name":"r","link":["later"]}
< {"code":7,"line":L,"name":"link","refused":"wrong_type"}

// What waits is cut and given up by number.
== a commit of 250 documents is cut into events of a hundred
. C(c) C(f) {"do":"replicate","name":"r","fork":"f","master":"c","handler":"master_wins"}
. {"do":"stream","name":"r"}
> {"do":"bulk","in":"c","docs":[‹0..250|,|{"id":"k№"}›]}
< {"line":L,"ok":"bulk","revs":[‹0..250|,|"1-c"›]}
> {"do":"deliver","name":"r","link":["ok","later","lose"]}
< {"event":1,"rows":[‹0..100|,|"k№"›],"took":"taken"}
< {"event":2,"rows":[‹100..200|,|"k№"›],"took":"later"}
< {"event":3,"rows":[‹200..250|,|"k№"›],"took":"lost"}
< {"level":false,"line":L,"ok":"deliver","resync":false}
> {"do":"deliver","name":"r"}
< {"event":1,"rows":[‹100..200|,|"k№"›],"took":"taken"}
< {"level":false,"line":L,"ok":"deliver","resync":false}
> {"do":"turn","name":"r"}
< {"exchange":1,"place":{"id":"k249","lwt":1},"rows":[‹200..250|,|"k№"›],"sent":"pull"}
< {"end":"quiet","exchanges":1,"line":L,"ok":"turn"}
> {"do":"deliver","name":"r"}
< {"level":true,"line":L,"ok":"deliver","resync":false}
> {"do":"get","in":"f","key":"k199"}
< {"doc":{"id":"k199"},"line":L,"lwt":2,"ok":"get","rev":"1-f"}
> {"do":"get","in":"f","key":"k200"}
< {"doc":{"id":"k200"},"line":L,"lwt":3,"ok":"get","rev":"1-f"}

== the 65th event gives up those that wait
. C(c) C(f) {"do":"replicate","name":"r","fork":"f","master":"c","handler":"master_wins"}
. {"do":"stream","name":"r"}
// The 66th waits alone, and does not follow what the fork has.
‹0..66|
|. I(c,k№,#)›
> {"do":"deliver","name":"r"}
< {"event":1,"rows":["k065"],"took":"gap"}
< {"level":false,"line":L,"ok":"deliver","resync":true}
> {"do":"deliver","name":"r"}
< {"level":false,"line":L,"ok":"deliver","resync":false}
> {"do":"turn","name":"r"}
< {"exchange":1,"place":{"id":"k065","lwt":66},"rows":[‹0..66|,|"k№"›],"sent":"pull"}
< {"end":"quiet","exchanges":1,"line":L,"ok":"turn"}
// 64 wait, and are taken.
‹0..64|
|. I(c,l№,#)›
> {"do":"deliver","name":"r"}
‹0..64|
|< {"event":⁺,"rows":["l№"],"took":"taken"}›
< {"level":true,"line":L,"ok":"deliver","resync":false}
// A turn is due once where none waits, also where it was made meanwhile, and not by another stream.
‹0..65|
|. I(c,m№,#)›
> {"do":"deliver","name":"r"}
< {"level":false,"line":L,"ok":"deliver","resync":true}
> {"do":"deliver","name":"r"}
< {"level":false,"line":L,"ok":"deliver","resync":false}
‹0..65|
|. I(c,n№,#)›
> {"do":"turn","name":"r","budget":2}
< {"exchange":1,"place":{"id":"n034","lwt":230},"rows":[‹0..65|,|"m№"›,‹0..35|,|"n№"›],"sent":"pull"}
< {"exchange":2,"place":{"id":"n064","lwt":260},"rows":[‹35..65|,|"n№"›],"sent":"pull"}
< {"end":"quiet","exchanges":2,"line":L,"ok":"turn"}
> {"do":"deliver","name":"r"}
< {"level":true,"line":L,"ok":"deliver","resync":true}
> {"do":"deliver","name":"r"}
< {"level":true,"line":L,"ok":"deliver","resync":false}
‹0..65|
|. I(c,o№,#)›
. {"do":"unstream","name":"r"} {"do":"stream","name":"r"}
> {"do":"deliver","name":"r"}
< {"level":false,"line":L,"ok":"deliver","resync":false}
// 63 wait, and of a commit's three events the first is the 64th and the third waits alone.
‹0..63|
|. I(c,p№,#)›
> {"do":"bulk","in":"c","docs":[‹0..250|,|{"id":"q№"}›]}
< {"line":L,"ok":"bulk","revs":[‹0..250|,|"1-c"›]}
> {"do":"deliver","name":"r"}
< {"event":1,"rows":[‹200..250|,|"q№"›],"took":"gap"}
< {"level":false,"line":L,"ok":"deliver","resync":true}
"#;
