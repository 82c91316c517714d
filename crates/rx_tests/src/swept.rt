// Sweeps over trees of forks: in which order the turns come, how they end, and what they leave.
pub const CASES: &str = r#"// Up and down.
== a document of the last fork comes up, and nothing is left for the way down
. C(m) C(f) C(g) {"do":"replicate","name":"r","fork":"f","master":"m","handler":"master_wins"}
. {"do":"replicate","name":"s","fork":"g","master":"f","handler":"master_wins"} I(g,a,1)
> {"do":"sweep","name":"m"}
< {"conflicts":[],"exchange":1,"rows":["a"],"sent":"push"}
< {"exchange":2,"place":{"id":"a","lwt":1},"rows":["a"],"sent":"pull"}
< {"end":"quiet","exchanges":2,"pass":"up","replication":"s"}
< {"conflicts":[],"exchange":1,"rows":["a"],"sent":"push"}
< {"exchange":2,"place":{"id":"a","lwt":1},"rows":["a"],"sent":"pull"}
< {"end":"quiet","exchanges":2,"pass":"up","replication":"r"}
< {"exchange":1,"place":{"id":"a","lwt":1},"rows":[],"sent":"pull"}
< {"end":"quiet","exchanges":1,"pass":"down","replication":"r"}
< {"exchange":1,"place":{"id":"a","lwt":1},"rows":[],"sent":"pull"}
< {"end":"quiet","exchanges":1,"pass":"down","replication":"s"}
< {"end":"quiet","line":L,"ok":"sweep","turns":4}
= BOTH
= 01 000000a4 01 00000001 'g' 0000009a
= '{"indexes":[],"primaryKey":"id","properties":{"id":{"maxLength":20,"type":"string"},"n":{"type":"integer"}},"required":["id"],"type":"object","version":0}'
= 01 00000021 03 00000001 'r' 00000001 'f' 00 00000001 'm' 0000000b 'master_wins' 00
= 01 00000021 03 00000001 's' 00000001 'g' 00 00000001 'f' 0000000b 'master_wins' 00
= 01 0000003e 02 00000001 'g' 0000000000000001 00000001
= 0000000000000001 00000001 'a' 00 00000002 00000002 'id' 02 00000001 'a' 00000001 'n' 01 0000000000000001
= 01 0000003e 02 00000001 'f' 0000000000000001 00000001
= 0000000000000001 00000001 'a' 00 00000002 00000002 'id' 02 00000001 'a' 00000001 'n' 01 0000000000000001
= 01 00000049 04 00000001 's' 0000000000000000 00000000
= 00000001 00000001 'a' 00 00000002 00000002 'id' 02 00000001 'a' 00000001 'n' 01 0000000000000001
= 01 0000000000000001 00000001 'a' 00
= 01 00000056 04 00000001 's' 0000000000000000 00000000
= 00000001 00000001 'a' 00 00000002 00000002 'id' 02 00000001 'a' 00000001 'n' 01 0000000000000001
= 01 0000000000000001 00000001 'a' 01 0000000000000001 00000001 'a'
= 01 0000003e 02 00000001 'm' 0000000000000001 00000001
= 0000000000000001 00000001 'a' 00 00000002 00000002 'id' 02 00000001 'a' 00000001 'n' 01 0000000000000001
= 01 00000049 04 00000001 'r' 0000000000000000 00000000
= 00000001 00000001 'a' 00 00000002 00000002 'id' 02 00000001 'a' 00000001 'n' 01 0000000000000001
= 01 0000000000000001 00000001 'a' 00
= 01 00000056 04 00000001 'r' 0000000000000000 00000000
= 00000001 00000001 'a' 00 00000002 00000002 'id' 02 00000001 'a' 00000001 'n' 01 0000000000000001
= 01 0000000000000001 00000001 'a' 01 0000000000000001 00000001 'a'
= 00

== a collection without forks has no turn
. C(m)
> {"do":"sweep","name":"m"}
< {"end":"quiet","line":L,"ok":"sweep","turns":0}

== forks come as their collections were made, and not as their replications were
. C(m) C(f1) C(g1) C(f2) C(g2)
. {"do":"replicate","name":"a","fork":"f2","master":"m","handler":"join"}
. {"do":"replicate","name":"b","fork":"g2","master":"f2","handler":"join"}
. {"do":"replicate","name":"c","fork":"f1","master":"m","handler":"join"}
. {"do":"replicate","name":"d","fork":"g1","master":"f1","handler":"join"} I(g1,x,1) I(g2,x,2)
> {"do":"sweep","name":"m"}
< {"conflicts":[],"exchange":1,"rows":["x"],"sent":"push"}
< {"exchange":2,"place":{"id":"x","lwt":1},"rows":["x"],"sent":"pull"}
< {"end":"quiet","exchanges":2,"pass":"up","replication":"d"}
< {"conflicts":[],"exchange":1,"rows":["x"],"sent":"push"}
< {"exchange":2,"place":{"id":"x","lwt":1},"rows":["x"],"sent":"pull"}
< {"end":"quiet","exchanges":2,"pass":"up","replication":"c"}
< {"conflicts":[],"exchange":1,"rows":["x"],"sent":"push"}
< {"exchange":2,"place":{"id":"x","lwt":1},"rows":["x"],"sent":"pull"}
< {"end":"quiet","exchanges":2,"pass":"up","replication":"b"}
< {"conflicts":["x"],"exchange":1,"rows":["x"],"sent":"push"}
< {"conflicts":[],"exchange":2,"rows":["x"],"sent":"push"}
< {"exchange":3,"place":{"id":"x","lwt":2},"rows":["x"],"sent":"pull"}
< {"end":"quiet","exchanges":3,"pass":"up","replication":"a"}
< {"exchange":1,"place":{"id":"x","lwt":2},"rows":["x"],"sent":"pull"}
< {"end":"quiet","exchanges":1,"pass":"down","replication":"c"}
< {"exchange":1,"place":{"id":"x","lwt":2},"rows":["x"],"sent":"pull"}
< {"end":"quiet","exchanges":1,"pass":"down","replication":"d"}
< {"exchange":1,"place":{"id":"x","lwt":2},"rows":[],"sent":"pull"}
< {"end":"quiet","exchanges":1,"pass":"down","replication":"a"}
< {"exchange":1,"place":{"id":"x","lwt":2},"rows":["x"],"sent":"pull"}
< {"end":"quiet","exchanges":1,"pass":"down","replication":"b"}
< {"end":"quiet","line":L,"ok":"sweep","turns":8}
> {"do":"get","in":"g1","key":"x"}
< {"doc":{"id":"x","n":2},"line":L,"lwt":2,"ok":"get","rev":"2-g1"}
> {"do":"get","in":"g2","key":"x"}
< {"doc":{"id":"x","n":2},"line":L,"lwt":1,"ok":"get","rev":"1-g2"}

== the tree of an inner collection is what is below it
FORKED
. C(g) {"do":"replicate","name":"s","fork":"g","master":"f","handler":"master_wins"} I(f,a,1)
> {"do":"sweep","name":"f"}
< {"exchange":1,"place":{"id":"a","lwt":1},"rows":["a"],"sent":"pull"}
< {"end":"quiet","exchanges":1,"pass":"up","replication":"s"}
< {"exchange":1,"place":{"id":"a","lwt":1},"rows":[],"sent":"pull"}
< {"end":"quiet","exchanges":1,"pass":"down","replication":"s"}
< {"end":"quiet","line":L,"ok":"sweep","turns":2}
> {"do":"sweep","name":"g"}
< {"end":"quiet","line":L,"ok":"sweep","turns":0}
> {"do":"get","in":"m","key":"a"}
< {"code":15,"line":L,"refused":"no_document"}

== a root whose own master is elsewhere dials nobody
. C(f) C(g) {"do":"replicate","name":"r","fork":"f","port":4001,"handler":"master_wins"}
. {"do":"replicate","name":"s","fork":"g","master":"f","handler":"master_wins"} I(g,a,1)
> {"do":"sweep","name":"f"}
< {"conflicts":[],"exchange":1,"rows":["a"],"sent":"push"}
< {"exchange":2,"place":{"id":"a","lwt":1},"rows":["a"],"sent":"pull"}
< {"end":"quiet","exchanges":2,"pass":"up","replication":"s"}
< {"exchange":1,"place":{"id":"a","lwt":1},"rows":[],"sent":"pull"}
< {"end":"quiet","exchanges":1,"pass":"down","replication":"s"}
< {"end":"quiet","line":L,"ok":"sweep","turns":2}

== emissions come once, behind the reply, in the order of observing
FORKED
. C(g) {"do":"replicate","name":"s","fork":"g","master":"f","handler":"master_wins"} I(g,a,1)
. {"do":"observe","name":"p","in":"m","query":{}}
< {"emit":"p","rows":[]}
. {"do":"observe","name":"q","in":"g","query":{}}
< {"emit":"q","rows":[{"id":"a","n":1}]}
. {"do":"observe","name":"o","in":"f","query":{}}
< {"emit":"o","rows":[]}
> {"do":"sweep","name":"m"}
< {"conflicts":[],"exchange":1,"rows":["a"],"sent":"push"}
< {"exchange":2,"place":{"id":"a","lwt":1},"rows":["a"],"sent":"pull"}
< {"end":"quiet","exchanges":2,"pass":"up","replication":"s"}
< {"conflicts":[],"exchange":1,"rows":["a"],"sent":"push"}
< {"exchange":2,"place":{"id":"a","lwt":1},"rows":["a"],"sent":"pull"}
< {"end":"quiet","exchanges":2,"pass":"up","replication":"r"}
< {"exchange":1,"place":{"id":"a","lwt":1},"rows":[],"sent":"pull"}
< {"end":"quiet","exchanges":1,"pass":"down","replication":"r"}
< {"exchange":1,"place":{"id":"a","lwt":1},"rows":[],"sent":"pull"}
< {"end":"quiet","exchanges":1,"pass":"down","replication":"s"}
< {"end":"quiet","line":L,"ok":"sweep","turns":4}
< {"emit":"p","rows":[{"id":"a","n":1}]}
< {"emit":"o","rows":[{"id":"a","n":1}]}

// A sweep ends with the first turn that is not quiet.
== a budget that is too small, and what is left for the next sweep
. C(m) C(f) {"do":"replicate","name":"r","fork":"f","master":"m","handler":"fork_wins"}
. I(m,a,1) I(f,a,2)
> {"do":"sweep","name":"m","batch":1,"budget":3}
< {"conflicts":["a"],"exchange":1,"rows":["a"],"sent":"push"}
< {"conflicts":[],"exchange":2,"rows":["a"],"sent":"push"}
< {"exchange":3,"place":{"id":"a","lwt":2},"rows":["a"],"sent":"pull"}
< {"end":"more","exchanges":3,"pass":"up","replication":"r"}
< {"end":"more","line":L,"ok":"sweep","turns":1}
> {"do":"sweep","name":"m","batch":1,"budget":1}
< {"exchange":1,"place":{"id":"a","lwt":2},"rows":[],"sent":"pull"}
< {"end":"quiet","exchanges":1,"pass":"up","replication":"r"}
< {"exchange":1,"place":{"id":"a","lwt":2},"rows":[],"sent":"pull"}
< {"end":"quiet","exchanges":1,"pass":"down","replication":"r"}
< {"end":"quiet","line":L,"ok":"sweep","turns":2}

== three exchanges a key and one are enough
. C(m) C(f) {"do":"replicate","name":"r","fork":"f","master":"m","handler":"fork_wins"}
. I(m,a,1) I(f,a,2)
> {"do":"sweep","name":"m","batch":1,"budget":4}
< {"conflicts":["a"],"exchange":1,"rows":["a"],"sent":"push"}
< {"conflicts":[],"exchange":2,"rows":["a"],"sent":"push"}
< {"exchange":3,"place":{"id":"a","lwt":2},"rows":["a"],"sent":"pull"}
< {"exchange":4,"place":{"id":"a","lwt":2},"rows":[],"sent":"pull"}
< {"end":"quiet","exchanges":4,"pass":"up","replication":"r"}
< {"exchange":1,"place":{"id":"a","lwt":2},"rows":[],"sent":"pull"}
< {"end":"quiet","exchanges":1,"pass":"down","replication":"r"}
< {"end":"quiet","line":L,"ok":"sweep","turns":2}

== a master without a later write time
FORKED
. {"do":"tick","at":9007199254740991} I(m,a,1) {"do":"tick","at":0} I(f,b,2)
> {"do":"sweep","name":"m"}
< {"end":"clock","exchanges":0,"pass":"up","replication":"r"}
< {"end":"clock","line":L,"ok":"sweep","turns":1}

// Sweeps are refused by members and by what is stored.
== the members of a sweep
> {"do":"sweep"}
< {"code":5,"line":L,"name":"name","refused":"missing"}
> {"do":"sweep","name":"m","link":[]}
< {"code":6,"line":L,"name":"link","refused":"unexpected"}
> {"do":"sweep","name":5}
< {"code":7,"line":L,"name":"name","refused":"wrong_type"}
> {"do":"sweep","name":"m","batch":"1"}
< {"code":7,"line":L,"name":"batch","refused":"wrong_type"}
> {"do":"sweep","name":"m","budget":[]}
< {"code":7,"line":L,"name":"budget","refused":"wrong_type"}
> {"do":"sweep","name":"M","batch":0}
< {"code":8,"line":L,"name":"name","refused":"name"}
> {"do":"sweep","name":"m","batch":101,"budget":0}
< {"code":20,"line":L,"name":"batch","refused":"batch"}
> {"do":"sweep","name":"m","batch":100,"budget":100001}
< {"code":20,"line":L,"name":"budget","refused":"batch"}
> {"do":"sweep","name":"m","batch":100,"budget":100000}
< {"code":10,"line":L,"name":"m","refused":"no_collection"}

== it names a collection, and no replication
FORKED
> {"do":"sweep","name":"r"}
< {"code":10,"line":L,"name":"r","refused":"no_collection"}
"#;
