// Turns whose master is elsewhere: what goes over their wires, and why an exchange is lost.
pub const CASES: &str = r#"// An exchange is lost by what was heard.
== a master that has nothing
. C(f) {"do":"replicate","name":"r","fork":"f","port":4001,"handler":"master_wins"}
> {"do":"turn","name":"r"}
+
@ {"docs":[],"epoch":1,"n":1}
& {"ask":"pull","batch":100,"epoch":1,"n":1,"schema":"d3965597d0b8e1c41da9b2dc759684814b6376a695e3324ffc338dfea45c31a5"}
< {"exchange":1,"rows":[],"sent":"pull"}
< {"end":"quiet","exchanges":1,"line":L,"ok":"turn"}

== no master at the port
. C(f) {"do":"replicate","name":"r","fork":"f","port":4001,"handler":"master_wins"}
> {"do":"turn","name":"r"}
< {"exchange":1,"lost":"dial","sent":"pull"}
< {"end":"lost","exchanges":1,"line":L,"ok":"turn"}

== a request that cannot be sent
. C(f) {"do":"replicate","name":"r","fork":"f","port":4001,"handler":"master_wins"}
> {"do":"turn","name":"r"}
+ 1
@ {"docs":[],"epoch":1,"n":1}
< {"exchange":1,"lost":"wire","sent":"pull"}
< {"end":"lost","exchanges":1,"line":L,"ok":"turn"}

== a reply that cannot be read
. C(f) {"do":"replicate","name":"r","fork":"f","port":4001,"handler":"master_wins"}
> {"do":"turn","name":"r"}
+ 2
@ {"docs":[],"epoch":1,"n":1}
& {"ask":"pull","batch":100,"epoch":1,"n":1,"schema":"d3965597d0b8e1c41da9b2dc759684814b6376a695e3324ffc338dfea45c31a5"}
< {"exchange":1,"lost":"wire","sent":"pull"}
< {"end":"lost","exchanges":1,"line":L,"ok":"turn"}

== what is behind the line of a reply comes to nobody
. C(f) {"do":"replicate","name":"r","fork":"f","port":4001,"handler":"master_wins"}
> {"do":"turn","name":"r"}
+
@ {"docs":[],"epoch":1,"n":1}
@ {"docs":[],"epoch":9,"n":9}
~ {
& {"ask":"pull","batch":100,"epoch":1,"n":1,"schema":"d3965597d0b8e1c41da9b2dc759684814b6376a695e3324ffc338dfea45c31a5"}
< {"exchange":1,"rows":[],"sent":"pull"}
< {"end":"quiet","exchanges":1,"line":L,"ok":"turn"}

// A turn goes over one wire.
== a turn dials once, pushes and then pulls, and the next one goes on behind the place
. C(f) {"do":"replicate","name":"r","fork":"f","port":4001,"handler":"master_wins"} I(f,b,2)
> {"do":"turn","name":"r"}
+
@ {"conflicts":[],"epoch":1,"n":1}
@ {"docs":[{"_deleted":false,"id":"a","n":1},{"_deleted":false,"id":"b","n":2}],"epoch":1,"n":2,"place":{"id":"b","lwt":1}}
& {"ask":"push","epoch":1,"n":1,"rows":[{"new":{"_deleted":false,"id":"b","n":2}}],"schema":"d3965597d0b8e1c41da9b2dc759684814b6376a695e3324ffc338dfea45c31a5"}
& {"ask":"pull","batch":100,"epoch":1,"n":2,"schema":"d3965597d0b8e1c41da9b2dc759684814b6376a695e3324ffc338dfea45c31a5"}
< {"conflicts":[],"exchange":1,"rows":["b"],"sent":"push"}
< {"exchange":2,"place":{"id":"b","lwt":1},"rows":["a","b"],"sent":"pull"}
< {"end":"quiet","exchanges":2,"line":L,"ok":"turn"}
> {"do":"get","in":"f","key":"a"}
< {"doc":{"id":"a","n":1},"line":L,"lwt":2,"ok":"get","rev":"1-f"}
> {"do":"turn","name":"r"}
+
@ {"docs":[],"epoch":1,"n":3,"place":{"id":"b","lwt":1}}
& {"ask":"pull","batch":100,"epoch":1,"n":3,"place":{"id":"b","lwt":1},"schema":"d3965597d0b8e1c41da9b2dc759684814b6376a695e3324ffc338dfea45c31a5"}
< {"exchange":1,"place":{"id":"b","lwt":1},"rows":[],"sent":"pull"}
< {"end":"quiet","exchanges":1,"line":L,"ok":"turn"}

== a conflict is settled by the handler
. C(f) {"do":"replicate","name":"r","fork":"f","port":4001,"handler":"master_wins"} I(f,a,2)
> {"do":"turn","name":"r"}
+
@ {"conflicts":[{"_deleted":false,"id":"a","n":1}],"epoch":1,"n":1}
@ {"docs":[{"_deleted":false,"id":"a","n":1}],"epoch":1,"n":2,"place":{"id":"a","lwt":5}}
& {"ask":"push","epoch":1,"n":1,"rows":[{"new":{"_deleted":false,"id":"a","n":2}}],"schema":"d3965597d0b8e1c41da9b2dc759684814b6376a695e3324ffc338dfea45c31a5"}
& {"ask":"pull","batch":100,"epoch":1,"n":2,"schema":"d3965597d0b8e1c41da9b2dc759684814b6376a695e3324ffc338dfea45c31a5"}
< {"conflicts":["a"],"exchange":1,"rows":["a"],"sent":"push"}
< {"exchange":2,"place":{"id":"a","lwt":5},"rows":["a"],"sent":"pull"}
< {"end":"quiet","exchanges":2,"line":L,"ok":"turn"}
> {"do":"get","in":"f","key":"a"}
< {"doc":{"id":"a","n":1},"line":L,"lwt":2,"ok":"get","rev":"2-f"}

== a push that is lost stays due, and is asked again by another number
. C(f) {"do":"replicate","name":"r","fork":"f","port":4001,"handler":"master_wins"} I(f,a,2)
> {"do":"turn","name":"r"}
+ 2
& {"ask":"push","epoch":1,"n":1,"rows":[{"new":{"_deleted":false,"id":"a","n":2}}],"schema":"d3965597d0b8e1c41da9b2dc759684814b6376a695e3324ffc338dfea45c31a5"}
< {"exchange":1,"lost":"wire","rows":["a"],"sent":"push"}
< {"end":"lost","exchanges":1,"line":L,"ok":"turn"}
> {"do":"turn","name":"r"}
+
@ {"conflicts":[],"epoch":1,"n":2}
@ {"docs":[{"_deleted":false,"id":"a","n":2}],"epoch":1,"n":3,"place":{"id":"a","lwt":1}}
& {"ask":"push","epoch":1,"n":2,"rows":[{"new":{"_deleted":false,"id":"a","n":2}}],"schema":"d3965597d0b8e1c41da9b2dc759684814b6376a695e3324ffc338dfea45c31a5"}
& {"ask":"pull","batch":100,"epoch":1,"n":3,"schema":"d3965597d0b8e1c41da9b2dc759684814b6376a695e3324ffc338dfea45c31a5"}
< {"conflicts":[],"exchange":1,"rows":["a"],"sent":"push"}
< {"exchange":2,"place":{"id":"a","lwt":1},"rows":["a"],"sent":"pull"}
< {"end":"quiet","exchanges":2,"line":L,"ok":"turn"}

== a turn goes on until its budget is used
. C(f) {"do":"replicate","name":"r","fork":"f","port":4001,"handler":"master_wins"}
> {"do":"turn","name":"r","batch":1,"budget":1}
+
@ {"docs":[{"_deleted":true,"id":"a","n":1}],"epoch":1,"n":1,"place":{"id":"a","lwt":1}}
& {"ask":"pull","batch":1,"epoch":1,"n":1,"schema":"d3965597d0b8e1c41da9b2dc759684814b6376a695e3324ffc338dfea45c31a5"}
< {"exchange":1,"place":{"id":"a","lwt":1},"rows":["a"],"sent":"pull"}
< {"end":"more","exchanges":1,"line":L,"ok":"turn"}

// A replication over a port is refused as any.
== a link of a turn whose master is elsewhere
. C(f) {"do":"replicate","name":"r","fork":"f","port":4001,"handler":"master_wins"}
> {"do":"turn","name":"r","link":["ok"]}
< {"code":6,"line":L,"name":"link","refused":"unexpected"}
> {"do":"turn","name":"r","link":[]}
< {"code":6,"line":L,"name":"link","refused":"unexpected"}
> {"do":"turn","name":"s","link":[]}
< {"code":18,"line":L,"refused":"no_replication"}

== what a replication over a port is refused by
. C(f) {"do":"replicate","name":"r","fork":"f","port":4001,"handler":"master_wins"}
> {"do":"replicate","name":"r","fork":"x","port":1,"handler":"nobody"}
< {"code":9,"line":L,"refused":"exists"}
> {"do":"replicate","name":"s","fork":"x","port":1,"handler":"nobody"}
< {"code":10,"line":L,"name":"x","refused":"no_collection"}
> {"do":"replicate","name":"s","fork":"f","port":1,"handler":"nobody"}
< {"code":19,"line":L,"refused":"no_handler"}
> {"do":"replicate","name":"s","fork":"f","port":1,"handler":"greater"}
< {"code":19,"line":L,"refused":"no_handler"}
> {"do":"replicate","name":"s","fork":"f","port":1,"handler":"join"}
< {"code":21,"line":L,"refused":"chain"}
. C(m) {"do":"replicate","name":"s","fork":"m","port":4001,"handler":"join"}
> {"do":"replicate","name":"t","fork":"m","master":"f","handler":"join"}
< {"code":21,"line":L,"refused":"chain"}
. C(k) {"do":"replicate","name":"t","fork":"k","master":"f","handler":"join"}
> {"do":"restart"}
< {"epoch":2,"line":L,"ok":"restart"}
> {"do":"turn","name":"s"}
+
@ {"docs":[],"epoch":2,"n":1}
& {"ask":"pull","batch":100,"epoch":2,"n":1,"schema":"d3965597d0b8e1c41da9b2dc759684814b6376a695e3324ffc338dfea45c31a5"}
< {"exchange":1,"rows":[],"sent":"pull"}
< {"end":"quiet","exchanges":1,"line":L,"ok":"turn"}
"#;
