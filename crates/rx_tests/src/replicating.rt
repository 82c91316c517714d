// Replications and their turns: what their lines are refused for, and which of two faults is told;
// and what goes over the link.
pub const CASES: &str = r#"// A replication or a turn is refused by its members.
== a replication without a member
> {"do":"replicate"}
< {"code":5,"line":L,"name":"name","refused":"missing"}
> {"do":"replicate","name":"r"}
< {"code":5,"line":L,"name":"fork","refused":"missing"}
> {"do":"replicate","name":"r","fork":"f"}
< {"code":5,"line":L,"name":"master","refused":"missing"}
> {"do":"replicate","name":"r","fork":"f","handler":"join"}
< {"code":5,"line":L,"name":"master","refused":"missing"}
> {"do":"replicate","name":"r","fork":"f","master":"m"}
< {"code":5,"line":L,"name":"handler","refused":"missing"}
> {"do":"replicate","name":"r","fork":"f","port":1}
< {"code":5,"line":L,"name":"handler","refused":"missing"}
> {"do":"replicate","fork":"f","master":"m","port":1,"zz":1}
< {"code":5,"line":L,"name":"name","refused":"missing"}

== a replication with a port beside its master, or with another member
> {"do":"replicate","name":"r","fork":"f","master":"m","port":1,"handler":"join"}
< {"code":6,"line":L,"name":"port","refused":"unexpected"}
> {"do":"replicate","name":"r","fork":"f","master":"m","port":1,"handler":"join","a":1}
< {"code":6,"line":L,"name":"a","refused":"unexpected"}
> {"do":"replicate","name":"r","fork":"f","master":"m","port":1,"handler":"join","z":1}
< {"code":6,"line":L,"name":"port","refused":"unexpected"}
> {"do":"replicate","name":5,"fork":"f","master":null,"port":0,"handler":"join"}
< {"code":6,"line":L,"name":"port","refused":"unexpected"}
> {"do":"replicate","name":5,"fork":"f","port":1,"handler":"join","in":"f"}
< {"code":6,"line":L,"name":"in","refused":"unexpected"}

== a member of a replication of another kind
> {"do":"replicate","name":5,"fork":5,"master":5,"handler":5,"field":5}
< {"code":7,"line":L,"name":"name","refused":"wrong_type"}
> {"do":"replicate","name":"R","fork":5,"master":5,"handler":5,"field":5}
< {"code":7,"line":L,"name":"fork","refused":"wrong_type"}
> {"do":"replicate","name":"R","fork":"F","master":null,"handler":5,"field":5}
< {"code":7,"line":L,"name":"master","refused":"wrong_type"}
> {"do":"replicate","name":"R","fork":"F","port":0,"handler":5,"field":5}
< {"code":7,"line":L,"name":"port","refused":"wrong_type"}
> {"do":"replicate","name":"R","fork":"F","master":"M","handler":null,"field":5}
< {"code":7,"line":L,"name":"handler","refused":"wrong_type"}
> {"do":"replicate","name":"R","fork":"F","master":"M","handler":"","field":null}
< {"code":7,"line":L,"name":"field","refused":"wrong_type"}

== a port that is none
> {"do":"replicate","name":"r","fork":"f","port":65536,"handler":"join"}
< {"code":7,"line":L,"name":"port","refused":"wrong_type"}
> {"do":"replicate","name":"r","fork":"f","port":-1,"handler":"join"}
< {"code":7,"line":L,"name":"port","refused":"wrong_type"}
> {"do":"replicate","name":"r","fork":"f","port":1.0,"handler":"join"}
< {"code":7,"line":L,"name":"port","refused":"wrong_type"}
> {"do":"replicate","name":"r","fork":"f","port":"4001","handler":"join"}
< {"code":7,"line":L,"name":"port","refused":"wrong_type"}
> {"do":"replicate","name":"r","fork":"f","port":null,"handler":"join"}
< {"code":7,"line":L,"name":"port","refused":"wrong_type"}
> {"do":"replicate","name":"r","fork":"f","port":65535,"handler":"join"}
< {"code":10,"line":L,"name":"f","refused":"no_collection"}

== a member of a replication that is no name
> {"do":"replicate","name":"R","fork":"F","master":"M","handler":"H"}
< {"code":8,"line":L,"name":"name","refused":"name"}
> {"do":"replicate","name":"r","fork":"F","master":"M","handler":"H"}
< {"code":8,"line":L,"name":"fork","refused":"name"}
> {"do":"replicate","name":"r","fork":"f","master":"M","handler":"H"}
< {"code":8,"line":L,"name":"master","refused":"name"}
> {"do":"replicate","name":"r","fork":"","port":1,"handler":"H"}
< {"code":8,"line":L,"name":"fork","refused":"name"}

== a turn without a name, or with another member
> {"do":"turn","batch":0,"zz":1}
< {"code":5,"line":L,"name":"name","refused":"missing"}
> {"do":"turn","name":5,"rounds":1}
< {"code":6,"line":L,"name":"rounds","refused":"unexpected"}

== a member of a turn of another kind
> {"do":"turn","name":5,"batch":"x"}
< {"code":7,"line":L,"name":"name","refused":"wrong_type"}
> {"do":"turn","name":"R","batch":1.0,"budget":"x"}
< {"code":7,"line":L,"name":"batch","refused":"wrong_type"}
> {"do":"turn","name":"R","batch":0,"budget":null,"link":5}
< {"code":7,"line":L,"name":"budget","refused":"wrong_type"}
> {"do":"turn","name":"R","batch":0,"link":null}
< {"code":7,"line":L,"name":"link","refused":"wrong_type"}

== a link that is no list of happenings
> {"do":"turn","name":"r","link":{}}
< {"code":7,"line":L,"name":"link","refused":"wrong_type"}
> {"do":"turn","name":"r","link":"ok"}
< {"code":7,"line":L,"name":"link","refused":"wrong_type"}
> {"do":"turn","name":"r","link":["ok","Ok"]}
< {"code":7,"line":L,"name":"link","refused":"wrong_type"}
> {"do":"turn","name":"r","link":["late"]}
< {"code":7,"line":L,"name":"link","refused":"wrong_type"}
> {"do":"turn","name":"r","link":[1]}
< {"code":7,"line":L,"name":"link","refused":"wrong_type"}
> {"do":"turn","name":"r","link":[{}]}
< {"code":7,"line":L,"name":"link","refused":"wrong_type"}
> {"do":"turn","name":"r","link":[{"late":0}]}
< {"code":7,"line":L,"name":"link","refused":"wrong_type"}
> {"do":"turn","name":"r","link":[{"late":17}]}
< {"code":7,"line":L,"name":"link","refused":"wrong_type"}
> {"do":"turn","name":"r","link":[{"late":"1"}]}
< {"code":7,"line":L,"name":"link","refused":"wrong_type"}
> {"do":"turn","name":"r","link":[{"late":1,"of":2}]}
< {"code":7,"line":L,"name":"link","refused":"wrong_type"}

== the name of a turn before its numbers, and these in their order
> {"do":"turn","name":"R","batch":0,"budget":0}
< {"code":8,"line":L,"name":"name","refused":"name"}
> {"do":"turn","name":"r","batch":0,"budget":0}
< {"code":20,"line":L,"name":"batch","refused":"batch"}
> {"do":"turn","name":"r","batch":101}
< {"code":20,"line":L,"name":"batch","refused":"batch"}
> {"do":"turn","name":"r","batch":-1}
< {"code":20,"line":L,"name":"batch","refused":"batch"}
> {"do":"turn","name":"r","batch":18446744073709551615}
< {"code":20,"line":L,"name":"batch","refused":"batch"}
> {"do":"turn","name":"r","budget":0}
< {"code":20,"line":L,"name":"budget","refused":"batch"}
> {"do":"turn","name":"r","batch":100,"budget":100001}
< {"code":20,"line":L,"name":"budget","refused":"batch"}

// A replication is refused by what is stored.
== the name of a replication is taken, which is told before what isn't held
. C(m) C(f) {"do":"observe","name":"r","in":"f","query":{}}
< {"emit":"r","rows":[]}
. {"do":"replicate","name":"r","fork":"f","master":"m","handler":"master_wins"}
> {"do":"replicate","name":"r","fork":"f","master":"m","handler":"master_wins"}
< {"code":9,"line":L,"refused":"exists"}
> {"do":"replicate","name":"r","fork":"x","master":"y","handler":"nobody"}
< {"code":9,"line":L,"refused":"exists"}
> {"do":"restart"}
< {"epoch":2,"line":L,"ok":"restart"}
> {"do":"replicate","name":"r","fork":"f","master":"m","handler":"master_wins"}
< {"code":9,"line":L,"refused":"exists"}
$ run journal
> {"do":"replicate","name":"r","fork":"f","master":"m","handler":"master_wins"}
< {"code":9,"line":L,"refused":"exists"}

== the fork is held, then the master, which is told before the handler
. C(f)
> {"do":"replicate","name":"r","fork":"x","master":"y","handler":"nobody"}
< {"code":10,"line":L,"name":"x","refused":"no_collection"}
> {"do":"replicate","name":"r","fork":"f","master":"y","handler":"nobody"}
< {"code":10,"line":L,"name":"y","refused":"no_collection"}
> {"do":"replicate","name":"r","fork":"f","master":"f","handler":"nobody"}
< {"code":19,"line":L,"refused":"no_handler"}

== a handler is there and takes the field, which is told before the chain
. C(m) C(f)
> {"do":"replicate","name":"r","fork":"f","master":"f","handler":"nobody"}
< {"code":19,"line":L,"refused":"no_handler"}
> {"do":"replicate","name":"r","fork":"f","master":"m","handler":"Join"}
< {"code":19,"line":L,"refused":"no_handler"}
> {"do":"replicate","name":"r","fork":"f","master":"m","handler":""}
< {"code":19,"line":L,"refused":"no_handler"}
> {"do":"replicate","name":"r","fork":"f","master":"m","handler":"greater"}
< {"code":19,"line":L,"refused":"no_handler"}
> {"do":"replicate","name":"r","fork":"f","master":"m","handler":"greater","field":"id"}
< {"code":19,"line":L,"refused":"no_handler"}
> {"do":"replicate","name":"r","fork":"f","master":"m","handler":"greater","field":"z"}
< {"code":19,"line":L,"refused":"no_handler"}
> {"do":"replicate","name":"r","fork":"f","master":"m","handler":"master_wins","field":"n"}
< {"code":19,"line":L,"refused":"no_handler"}
> {"do":"replicate","name":"r","fork":"f","master":"m","handler":"fork_wins","field":"n"}
< {"code":19,"line":L,"refused":"no_handler"}
> {"do":"replicate","name":"r","fork":"f","master":"m","handler":"join","field":"n"}
< {"code":19,"line":L,"refused":"no_handler"}
. {"do":"replicate","name":"r","fork":"f","master":"m","handler":"greater","field":"n"}

== the field is one of the fork's schema, which is told before the schemas
. {"do":"collection","name":"a","schema":{"version":0,"primaryKey":"id","type":"object","properties":{"id":{"type":"string","maxLength":20},"m":{"type":"number","multipleOf":1}}}}
. C(b)
> {"do":"replicate","name":"r","fork":"a","master":"b","handler":"greater","field":"n"}
< {"code":19,"line":L,"refused":"no_handler"}
> {"do":"replicate","name":"r","fork":"a","master":"b","handler":"greater","field":"m"}
< {"code":12,"line":L,"refused":"schema_differs"}

== no collection follows itself, two masters, or one that leads back to it; a fork may be followed
. C(m) C(f)
> {"do":"replicate","name":"r","fork":"f","master":"f","handler":"join"}
< {"code":21,"line":L,"refused":"chain"}
. {"do":"replicate","name":"r","fork":"f","master":"m","handler":"master_wins"} C(g)
. {"do":"replicate","name":"s","fork":"g","master":"f","handler":"join"}
> {"do":"replicate","name":"t","fork":"g","master":"m","handler":"join"}
< {"code":21,"line":L,"refused":"chain"}
> {"do":"replicate","name":"t","fork":"m","master":"f","handler":"join"}
< {"code":21,"line":L,"refused":"chain"}
> {"do":"replicate","name":"t","fork":"m","master":"g","handler":"join"}
< {"code":21,"line":L,"refused":"chain"}
. C(h) {"do":"replicate","name":"t","fork":"h","master":"g","handler":"join"}
> {"do":"replicate","name":"u","fork":"m","master":"h","handler":"join"}
< {"code":21,"line":L,"refused":"chain"}
. C(k) {"do":"replicate","name":"u","fork":"m","master":"k","handler":"join"}
> {"do":"replicate","name":"v","fork":"k","master":"h","handler":"join"}
< {"code":21,"line":L,"refused":"chain"}

== a fork has the schema of its master, which is told after the chain
. C(m) {"do":"collection","name":"f","schema":S2}
> {"do":"replicate","name":"r","fork":"f","master":"m","handler":"join"}
< {"code":12,"line":L,"refused":"schema_differs"}
> {"do":"collection","name":"g","schema":{"type":"object","title":"the same","required":["id","id"],"properties":{"n":{"type":"integer"},"id":{"maxLength":20,"type":"string"}},"primaryKey":"id","version":0}}
< made
. {"do":"replicate","name":"r","fork":"g","master":"m","handler":"join"}
> {"do":"replicate","name":"s","fork":"f","master":"g","handler":"join"}
< {"code":12,"line":L,"refused":"schema_differs"}
> {"do":"replicate","name":"s","fork":"g","master":"f","handler":"join"}
< {"code":21,"line":L,"refused":"chain"}

// A turn is refused by its replication.
== a turn of no replication
. C(f)
> {"do":"turn","name":"f"}
< {"code":18,"line":L,"refused":"no_replication"}
> {"do":"turn","name":"r","batch":1,"budget":100000,"link":["ok","lose_request","lose_reply","twice",{"late":1},{"late":16},"stale"]}
< {"code":18,"line":L,"refused":"no_replication"}

== a handler that isn't there
^ BASE 01 000000a4 01 00000001 'f' 0000009a
^ '{"indexes":[],"primaryKey":"id","properties":{"id":{"maxLength":20,"type":"string"},"n":{"type":"integer"}},"required":["id"],"type":"object","version":0}'
^ 01 0000001c 03 00000001 'r' 00000001 'f' 00 00000001 'c' 00000006 'nobody' 00 00
. I(f,a,1)
> {"do":"turn","name":"r"}
< {"code":19,"line":L,"refused":"no_handler"}

== a handler that isn't there is told before a link over a port, and nothing is written
^ BASE 01 00000019 03 00000001 'r' 00000001 'c' 01 0fa1 00000006 'nobody' 00 00
> {"do":"turn","name":"r"}
< {"code":19,"line":L,"refused":"no_handler"}
> {"do":"turn","name":"r","link":["ok"]}
< {"code":19,"line":L,"refused":"no_handler"}
= BASE 01 00000019 03 00000001 'r' 00000001 'c' 01 0fa1 00000006 'nobody' 00
= 01 00000009 05 0000000000000002 00

== the greater without a field
^ BASE 01 0000001a 03 00000001 'r' 00000001 'c' 01 0fa1 00000007 'greater' 00 00
> {"do":"turn","name":"r"}
< {"code":19,"line":L,"refused":"no_handler"}

== the greater of texts
^ BASE 01 00000020 03 00000001 'r' 00000001 'c' 01 0fa1 00000007 'greater' 01 00000002 'id' 00
> {"do":"turn","name":"r"}
< {"code":19,"line":L,"refused":"no_handler"}

== the greater by a field that no document has
^ BASE 01 0000001f 03 00000001 'r' 00000001 'c' 01 0fa1 00000007 'greater' 01 00000001 'z' 00
> {"do":"turn","name":"r"}
< {"code":19,"line":L,"refused":"no_handler"}

== a handler that takes no field
^ BASE 01 00000023 03 00000001 'r' 00000001 'c' 01 0fa1 0000000b 'master_wins' 01 00000001 'n' 00
> {"do":"turn","name":"r"}
< {"code":19,"line":L,"refused":"no_handler"}

== the greater by a number is there
^ BASE 01 0000001f 03 00000001 'r' 00000001 'c' 01 0fa1 00000007 'greater' 01 00000001 'n' 00
> {"do":"turn","name":"r"}
< {"exchange":1,"lost":"dial","sent":"pull"}
< {"end":"lost","exchanges":1,"line":L,"ok":"turn"}
> {"do":"turn","name":"r","link":["ok"]}
< {"code":6,"line":L,"name":"link","refused":"unexpected"}

// A turn brings a fork and its master together.
== a turn of two empty collections
. C(m) C(f) {"do":"replicate","name":"r","fork":"f","master":"m","handler":"master_wins"}
> {"do":"turn","name":"r"}
< {"exchange":1,"rows":[],"sent":"pull"}
< {"end":"quiet","exchanges":1,"line":L,"ok":"turn"}

== an edit that goes back to what the master had is no edit
. C(m) C(f) {"do":"replicate","name":"r","fork":"f","master":"m","handler":"master_wins"} I(m,a,1)
> {"do":"turn","name":"r"}
< {"exchange":1,"place":{"id":"a","lwt":1},"rows":["a"],"sent":"pull"}
< {"end":"quiet","exchanges":1,"line":L,"ok":"turn"}
> {"do":"patch","in":"f","key":"a","set":{"n":2}}
< {"line":L,"ok":"patch","rev":"2-f"}
> {"do":"patch","in":"m","key":"a","set":{"n":3}}
< {"line":L,"ok":"patch","rev":"2-m"}
> {"do":"patch","in":"f","key":"a","set":{"n":1}}
< {"line":L,"ok":"patch","rev":"3-f"}
> {"do":"turn","name":"r"}
< {"exchange":1,"place":{"id":"a","lwt":2},"rows":["a"],"sent":"pull"}
< {"end":"quiet","exchanges":1,"line":L,"ok":"turn"}
> {"do":"get","in":"f","key":"a"}
< {"doc":{"id":"a","n":3},"line":L,"lwt":4,"ok":"get","rev":"4-f"}

== a fork that wins is pushed again
. C(m) C(f) {"do":"replicate","name":"r","fork":"f","master":"m","handler":"fork_wins"}
. I(m,a,1) I(f,a,2)
> {"do":"turn","name":"r"}
< {"conflicts":["a"],"exchange":1,"rows":["a"],"sent":"push"}
< {"conflicts":[],"exchange":2,"rows":["a"],"sent":"push"}
< {"exchange":3,"place":{"id":"a","lwt":2},"rows":["a"],"sent":"pull"}
< {"end":"quiet","exchanges":3,"line":L,"ok":"turn"}
> {"do":"get","in":"f","key":"a"}
< {"doc":{"id":"a","n":2},"line":L,"lwt":2,"ok":"get","rev":"2-f"}
> {"do":"get","in":"m","key":"a"}
< {"doc":{"id":"a","n":2},"line":L,"lwt":2,"ok":"get","rev":"2-m"}

== on a tie the master is the greater
. {"do":"collection","name":"m","schema":S2} {"do":"collection","name":"f","schema":S2}
. {"do":"replicate","name":"r","fork":"f","master":"m","handler":"greater","field":"n"}
. {"do":"insert","in":"m","doc":{"id":"a","n":1,"t":"x"}}
. {"do":"insert","in":"f","doc":{"id":"a","n":1,"t":"y"}}
> {"do":"turn","name":"r"}
< {"conflicts":["a"],"exchange":1,"rows":["a"],"sent":"push"}
< {"exchange":2,"place":{"id":"a","lwt":1},"rows":["a"],"sent":"pull"}
< {"end":"quiet","exchanges":2,"line":L,"ok":"turn"}
> {"do":"get","in":"f","key":"a"}
< {"doc":{"id":"a","n":1,"t":"x"},"line":L,"lwt":2,"ok":"get","rev":"2-f"}
> {"do":"get","in":"m","key":"a"}
< {"doc":{"id":"a","n":1,"t":"x"},"line":L,"lwt":1,"ok":"get","rev":"1-m"}

== a fork that joins keeps the greater of each field
. {"do":"collection","name":"m","schema":S2} {"do":"collection","name":"f","schema":S2}
. {"do":"replicate","name":"r","fork":"f","master":"m","handler":"join"}
. {"do":"insert","in":"m","doc":{"id":"a","n":5}}
. {"do":"insert","in":"f","doc":{"id":"a","n":1,"t":"y"}}
> {"do":"turn","name":"r"}
< {"conflicts":["a"],"exchange":1,"rows":["a"],"sent":"push"}
< {"conflicts":[],"exchange":2,"rows":["a"],"sent":"push"}
< {"exchange":3,"place":{"id":"a","lwt":2},"rows":["a"],"sent":"pull"}
< {"end":"quiet","exchanges":3,"line":L,"ok":"turn"}
> {"do":"get","in":"m","key":"a"}
< {"doc":{"id":"a","n":5,"t":"y"},"line":L,"lwt":2,"ok":"get","rev":"2-m"}

== a removal goes over the link as any other state
. C(m) C(f) {"do":"replicate","name":"r","fork":"f","master":"m","handler":"master_wins"} I(m,a,1)
> {"do":"turn","name":"r"}
< {"exchange":1,"place":{"id":"a","lwt":1},"rows":["a"],"sent":"pull"}
< {"end":"quiet","exchanges":1,"line":L,"ok":"turn"}
> {"do":"remove","in":"f","key":"a"}
< {"line":L,"ok":"remove","rev":"2-f"}
> {"do":"turn","name":"r"}
< {"conflicts":[],"exchange":1,"rows":["a"],"sent":"push"}
< {"exchange":2,"place":{"id":"a","lwt":2},"rows":["a"],"sent":"pull"}
< {"end":"quiet","exchanges":2,"line":L,"ok":"turn"}
> {"do":"get","in":"m","key":"a"}
< {"code":15,"line":L,"refused":"no_document"}
> {"do":"changes","in":"m"}
< {"docs":[{"_deleted":true,"id":"a","n":1}],"line":L,"ok":"changes","place":{"id":"a","lwt":2}}

== a turn ends where its budget is used, and the next one goes on
. C(m) C(f) {"do":"replicate","name":"r","fork":"f","master":"m","handler":"master_wins"}
> {"do":"bulk","in":"m","docs":[{"id":"a"},{"id":"b"},{"id":"c"}]}
< {"line":L,"ok":"bulk","revs":["1-m","1-m","1-m"]}
> {"do":"turn","name":"r","batch":1,"budget":2}
< {"exchange":1,"place":{"id":"a","lwt":1},"rows":["a"],"sent":"pull"}
< {"exchange":2,"place":{"id":"b","lwt":1},"rows":["b"],"sent":"pull"}
< {"end":"more","exchanges":2,"line":L,"ok":"turn"}
> {"do":"turn","name":"r","batch":1}
< {"exchange":1,"place":{"id":"c","lwt":1},"rows":["c"],"sent":"pull"}
< {"exchange":2,"place":{"id":"c","lwt":1},"rows":[],"sent":"pull"}
< {"end":"quiet","exchanges":2,"line":L,"ok":"turn"}
> {"do":"bulk","in":"f","docs":[{"id":"e"},{"id":"d"},{"id":"g"}]}
< {"line":L,"ok":"bulk","revs":["1-f","1-f","1-f"]}
> {"do":"turn","name":"r","batch":2}
< {"conflicts":[],"exchange":1,"rows":["d","e"],"sent":"push"}
< {"conflicts":[],"exchange":2,"rows":["g"],"sent":"push"}
< {"exchange":3,"place":{"id":"e","lwt":2},"rows":["d","e"],"sent":"pull"}
< {"exchange":4,"place":{"id":"g","lwt":3},"rows":["g"],"sent":"pull"}
< {"end":"quiet","exchanges":4,"line":L,"ok":"turn"}

== a master that has no later write time ends a turn before its first exchange
. C(m) C(f) {"do":"replicate","name":"r","fork":"f","master":"m","handler":"master_wins"}
. {"do":"tick","at":9007199254740991} I(m,a,1) {"do":"tick","at":0} I(f,b,1)
> {"do":"turn","name":"r"}
< {"end":"clock","exchanges":0,"line":L,"ok":"turn"}

== a fork that has no later write time ends a turn, and what the master took stands
. C(m) C(f) {"do":"replicate","name":"r","fork":"f","master":"m","handler":"master_wins"}
. {"do":"tick","at":9007199254740991} I(f,a,1) {"do":"tick","at":0} I(m,b,1)
> {"do":"turn","name":"r"}
< {"conflicts":[],"exchange":1,"rows":["a"],"sent":"push"}
< {"end":"clock","exchanges":1,"line":L,"ok":"turn"}
> {"do":"get","in":"m","key":"a"}
< {"doc":{"id":"a","n":1},"line":L,"lwt":2,"ok":"get","rev":"1-m"}

// A link loses what it is told to.
== a lost reply is made good without a handler
. C(m) C(f) {"do":"replicate","name":"r","fork":"f","master":"m","handler":"master_wins"} I(f,a,1)
> {"do":"turn","name":"r","link":["lose_reply"]}
< {"exchange":1,"lost":"lose_reply","rows":["a"],"sent":"push"}
< {"end":"lost","exchanges":1,"line":L,"ok":"turn"}
> {"do":"turn","name":"r"}
< {"conflicts":["a"],"exchange":1,"rows":["a"],"sent":"push"}
< {"exchange":2,"place":{"id":"a","lwt":1},"rows":["a"],"sent":"pull"}
< {"end":"quiet","exchanges":2,"line":L,"ok":"turn"}
. I(m,b,2)
> {"do":"restart"}
< {"epoch":2,"line":L,"ok":"restart"}
> {"do":"turn","name":"r","link":["stale"]}
< {"exchange":1,"lost":"stale","sent":"pull"}
< {"end":"lost","exchanges":1,"line":L,"ok":"turn"}
> {"do":"turn","name":"r"}
< {"exchange":1,"place":{"id":"b","lwt":2},"rows":["b"],"sent":"pull"}
< {"end":"quiet","exchanges":1,"line":L,"ok":"turn"}
> {"do":"get","in":"f","key":"a"}
< {"doc":{"id":"a","n":1},"line":L,"lwt":1,"ok":"get","rev":"1-f"}

== a push that comes late finds its state held, and a link may be longer than the turn
. C(m) C(f) {"do":"replicate","name":"r","fork":"f","master":"m","handler":"master_wins"} I(f,a,1)
> {"do":"turn","name":"r","link":["lose_reply"]}
< {"exchange":1,"lost":"lose_reply","rows":["a"],"sent":"push"}
< {"end":"lost","exchanges":1,"line":L,"ok":"turn"}
> {"do":"turn","name":"r","link":[{"late":1},"twice",{"late":16}]}
< {"conflicts":["a"],"exchange":1,"rows":["a"],"sent":"push"}
< {"exchange":2,"place":{"id":"a","lwt":1},"rows":["a"],"sent":"pull"}
< {"end":"quiet","exchanges":2,"line":L,"ok":"turn"}

== a lost request is never handled
. C(m) C(f) {"do":"replicate","name":"r","fork":"f","master":"m","handler":"master_wins"} I(f,a,1)
> {"do":"turn","name":"r","link":["lose_request","ok"]}
< {"exchange":1,"lost":"lose_request","rows":["a"],"sent":"push"}
< {"end":"lost","exchanges":1,"line":L,"ok":"turn"}
> {"do":"get","in":"m","key":"a"}
< {"code":15,"line":L,"refused":"no_document"}
> {"do":"turn","name":"r","link":["ok","lose_request"]}
< {"conflicts":[],"exchange":1,"rows":["a"],"sent":"push"}
< {"exchange":2,"lost":"lose_request","sent":"pull"}
< {"end":"lost","exchanges":2,"line":L,"ok":"turn"}
> {"do":"turn","name":"r"}
< {"exchange":1,"place":{"id":"a","lwt":1},"rows":["a"],"sent":"pull"}
< {"end":"quiet","exchanges":1,"line":L,"ok":"turn"}

== a request that is handled twice writes once
. C(m) C(f) {"do":"replicate","name":"r","fork":"f","master":"m","handler":"master_wins"} I(f,a,1)
> {"do":"turn","name":"r","link":["twice","twice"]}
< {"conflicts":[],"exchange":1,"rows":["a"],"sent":"push"}
< {"exchange":2,"place":{"id":"a","lwt":1},"rows":["a"],"sent":"pull"}
< {"end":"quiet","exchanges":2,"line":L,"ok":"turn"}
> {"do":"get","in":"m","key":"a"}
< {"doc":{"id":"a","n":1},"line":L,"lwt":1,"ok":"get","rev":"1-m"}

== a late push is taken again where the master is back at what it assumed
. C(m) C(f) {"do":"replicate","name":"r","fork":"f","master":"m","handler":"master_wins"} I(f,a,1)
> {"do":"turn","name":"r","budget":1}
< {"conflicts":[],"exchange":1,"rows":["a"],"sent":"push"}
< {"end":"more","exchanges":1,"line":L,"ok":"turn"}
> {"do":"patch","in":"f","key":"a","set":{"n":2}}
< {"line":L,"ok":"patch","rev":"2-f"}
> {"do":"turn","name":"r","budget":1}
< {"conflicts":[],"exchange":1,"rows":["a"],"sent":"push"}
< {"end":"more","exchanges":1,"line":L,"ok":"turn"}
> {"do":"patch","in":"m","key":"a","set":{"n":1}}
< {"line":L,"ok":"patch","rev":"3-m"}
> {"do":"turn","name":"r","link":[{"late":1}]}
< {"exchange":1,"place":{"id":"a","lwt":4},"rows":["a"],"sent":"pull"}
< {"end":"quiet","exchanges":1,"line":L,"ok":"turn"}
> {"do":"get","in":"m","key":"a"}
< {"doc":{"id":"a","n":2},"line":L,"lwt":4,"ok":"get","rev":"4-m"}
> {"do":"get","in":"f","key":"a"}
< {"doc":{"id":"a","n":2},"line":L,"lwt":2,"ok":"get","rev":"2-f"}

== a late request from before a restart is forgotten
. C(m) C(f) {"do":"replicate","name":"r","fork":"f","master":"m","handler":"master_wins"} I(f,a,1)
> {"do":"turn","name":"r","link":["lose_request"]}
< {"exchange":1,"lost":"lose_request","rows":["a"],"sent":"push"}
< {"end":"lost","exchanges":1,"line":L,"ok":"turn"}
> {"do":"patch","in":"f","key":"a","set":{"n":2}}
< {"line":L,"ok":"patch","rev":"2-f"}
> {"do":"restart"}
< {"epoch":2,"line":L,"ok":"restart"}
> {"do":"turn","name":"r","link":[{"late":1}]}
< {"conflicts":[],"exchange":1,"rows":["a"],"sent":"push"}
< {"exchange":2,"place":{"id":"a","lwt":1},"rows":["a"],"sent":"pull"}
< {"end":"quiet","exchanges":2,"line":L,"ok":"turn"}
> {"do":"get","in":"m","key":"a"}
< {"doc":{"id":"a","n":2},"line":L,"lwt":1,"ok":"get","rev":"1-m"}

== a late request that was lost is handled first
. C(m) C(f) {"do":"replicate","name":"r","fork":"f","master":"m","handler":"fork_wins"} I(f,a,1)
> {"do":"turn","name":"r","link":["lose_request"]}
< {"exchange":1,"lost":"lose_request","rows":["a"],"sent":"push"}
< {"end":"lost","exchanges":1,"line":L,"ok":"turn"}
> {"do":"patch","in":"f","key":"a","set":{"n":2}}
< {"line":L,"ok":"patch","rev":"2-f"}
> {"do":"turn","name":"r","link":[{"late":1}]}
< {"conflicts":["a"],"exchange":1,"rows":["a"],"sent":"push"}
< {"conflicts":[],"exchange":2,"rows":["a"],"sent":"push"}
< {"exchange":3,"place":{"id":"a","lwt":2},"rows":["a"],"sent":"pull"}
< {"end":"quiet","exchanges":3,"line":L,"ok":"turn"}
> {"do":"get","in":"f","key":"a"}
< {"doc":{"id":"a","n":2},"line":L,"lwt":3,"ok":"get","rev":"3-f"}

// Observed sides tell what a turn brought.
== ten documents come into a window of three
> {"do":"collection","name":"server","schema":{"title":"todo schema","version":0,"description":"todos","primaryKey":"id","type":"object","properties":{"id":{"type":"string","maxLength":100},"name":{"type":"string"},"done":{"type":"boolean"},"timestamp":{"type":"string","format":"date-time","maxLength":32},"rank":{"type":"number","minimum":0,"maximum":1000,"multipleOf":1}},"required":["id","name","done","timestamp"],"indexes":["timestamp",["done","rank"]]}}
< made
> {"do":"collection","name":"todos","schema":{"title":"todo schema","version":0,"description":"todos","primaryKey":"id","type":"object","properties":{"id":{"type":"string","maxLength":100},"name":{"type":"string"},"done":{"type":"boolean"},"timestamp":{"type":"string","format":"date-time","maxLength":32},"rank":{"type":"number","minimum":0,"maximum":1000,"multipleOf":1}},"required":["id","name","done","timestamp"],"indexes":["timestamp",["done","rank"]]}}
< made
. {"do":"replicate","name":"r","fork":"todos","master":"server","handler":"master_wins"}
. {"do":"observe","name":"open","in":"todos","query":{"selector":{"done":{"$eq":false}},"sort":[{"rank":"desc"}],"limit":3}}
< {"emit":"open","rows":[]}
. {"do":"insert","in":"server","doc":{"id":"t0","name":"n0","done":false,"timestamp":"2024-01-01T00:00:00Z","rank":0}}
. {"do":"insert","in":"server","doc":{"id":"t1","name":"n1","done":false,"timestamp":"2024-01-01T00:00:01Z","rank":1}}
. {"do":"insert","in":"server","doc":{"id":"t2","name":"n2","done":false,"timestamp":"2024-01-01T00:00:02Z","rank":2}}
. {"do":"insert","in":"server","doc":{"id":"t3","name":"n3","done":false,"timestamp":"2024-01-01T00:00:03Z","rank":3}}
. {"do":"insert","in":"server","doc":{"id":"t4","name":"n4","done":false,"timestamp":"2024-01-01T00:00:04Z","rank":4}}
. {"do":"insert","in":"server","doc":{"id":"t5","name":"n5","done":false,"timestamp":"2024-01-01T00:00:05Z","rank":5}}
. {"do":"insert","in":"server","doc":{"id":"t6","name":"n6","done":false,"timestamp":"2024-01-01T00:00:06Z","rank":6}}
. {"do":"insert","in":"server","doc":{"id":"t7","name":"n7","done":false,"timestamp":"2024-01-01T00:00:07Z","rank":7}}
. {"do":"insert","in":"server","doc":{"id":"t8","name":"n8","done":false,"timestamp":"2024-01-01T00:00:08Z","rank":8}}
. {"do":"insert","in":"server","doc":{"id":"t9","name":"n9","done":false,"timestamp":"2024-01-01T00:00:09Z","rank":9}}
> {"do":"turn","name":"r","batch":100}
< {"exchange":1,"place":{"id":"t9","lwt":10},"rows":["t0","t1","t2","t3","t4","t5","t6","t7","t8","t9"],"sent":"pull"}
< {"end":"quiet","exchanges":1,"line":L,"ok":"turn"}
< {"emit":"open","rows":[{"done":false,"id":"t9","name":"n9","rank":9,"timestamp":"2024-01-01T00:00:09Z"},{"done":false,"id":"t8","name":"n8","rank":8,"timestamp":"2024-01-01T00:00:08Z"},{"done":false,"id":"t7","name":"n7","rank":7,"timestamp":"2024-01-01T00:00:07Z"}]}
> {"do":"explain","name":"open"}
< {"actions":{"insertFirst":3,"removeLastInsertFirst":7},"asked":123,"changes":10,"full":0,"line":L,"ok":"explain"}

== a fork and its master tell what a turn brought them, in the order in which they were observed
. C(m) C(f) {"do":"replicate","name":"r","fork":"f","master":"m","handler":"master_wins"}
. {"do":"observe","name":"q","in":"f","query":{"selector":{"n":2}}}
< {"emit":"q","rows":[]}
. {"do":"observe","name":"p","in":"m","query":{"selector":{"n":1}}}
< {"emit":"p","rows":[]}
. I(f,a,1) I(m,b,2)
> {"do":"turn","name":"r"}
< {"conflicts":[],"exchange":1,"rows":["a"],"sent":"push"}
< {"exchange":2,"place":{"id":"a","lwt":2},"rows":["b","a"],"sent":"pull"}
< {"end":"quiet","exchanges":2,"line":L,"ok":"turn"}
< {"emit":"q","rows":[{"id":"b","n":2}]}
< {"emit":"p","rows":[{"id":"a","n":1}]}
. {"do":"unobserve","name":"q"} {"do":"observe","name":"q","in":"f","query":{"selector":{"n":2}}}
< {"emit":"q","rows":[{"id":"b","n":2}]}
. I(f,d,1) I(m,e,2)
> {"do":"turn","name":"r"}
< {"conflicts":[],"exchange":1,"rows":["d"],"sent":"push"}
< {"exchange":2,"place":{"id":"d","lwt":4},"rows":["e","d"],"sent":"pull"}
< {"end":"quiet","exchanges":2,"line":L,"ok":"turn"}
< {"emit":"p","rows":[{"id":"a","n":1},{"id":"d","n":1}]}
< {"emit":"q","rows":[{"id":"b","n":2},{"id":"e","n":2}]}
"#;
