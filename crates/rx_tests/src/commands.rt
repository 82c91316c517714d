// The command `serve`: what its peers are sent, what it writes, and the journal that it leaves.
pub const CASES: &str = r#"
== an empty collection, and a line in another spelling
. C(c)
$ serve journal c 4001 1
* a peer
@ {"ask":"pull","batch":100,"epoch":1,"n":1,"schema":"d3965597d0b8e1c41da9b2dc759684814b6376a695e3324ffc338dfea45c31a5"}
@ { "ask":"pull","batch":100,"epoch":1,"n":1,"schema":"d3965597d0b8e1c41da9b2dc759684814b6376a695e3324ffc338dfea45c31a5"}
& {"docs":[],"epoch":1,"n":1}
& {"fault":"spelling"}
< {"connection":1,"end":"request","requests":1}

== what a peer pushed is there for the next one, and for a script
. C(c)
$ serve journal c 4001 2
* a peer
@ {"ask":"push","epoch":1,"n":1,"rows":[{"new":{"_deleted":false,"id":"a","n":1}}],"schema":"d3965597d0b8e1c41da9b2dc759684814b6376a695e3324ffc338dfea45c31a5"}
& {"conflicts":[],"epoch":1,"n":1}
* a peer
@ {"ask":"pull","batch":1,"epoch":3,"n":7,"schema":"d3965597d0b8e1c41da9b2dc759684814b6376a695e3324ffc338dfea45c31a5"}
& {"docs":[{"_deleted":false,"id":"a","n":1}],"epoch":3,"n":7,"place":{"id":"a","lwt":1}}
< {"connection":1,"end":"peer","requests":1}
< {"connection":2,"end":"peer","requests":1}
$ run journal
> {"do":"get","in":"c","key":"a"}
< {"doc":{"id":"a","n":1},"line":L,"lwt":1,"ok":"get","rev":"1-c"}

== a collection that isn't held, and one that is a fork
. C(c) C(f) {"do":"replicate","name":"r","fork":"f","master":"c","handler":"master_wins"}
$ serve journal d 4001 1
* a peer
@ {"ask":"pull","batch":1,"epoch":1,"n":1,"schema":"d3965597d0b8e1c41da9b2dc759684814b6376a695e3324ffc338dfea45c31a5"}
< {"stop":"no_collection"}
! 10
$ serve journal f 4001 1
* a peer
@ {"ask":"pull","batch":1,"epoch":1,"n":1,"schema":"d3965597d0b8e1c41da9b2dc759684814b6376a695e3324ffc338dfea45c31a5"}
< {"stop":"no_collection"}
! 10
$ serve journal c 4001 1
* a peer
< {"connection":1,"end":"peer","requests":0}

== fewer peers dial than are awaited
. C(c)
$ serve journal c 4001 2
* a peer
< {"connection":1,"end":"peer","requests":0}
< {"stop":"read"}
! 4

== a journal that has no room for a push
. C(c)
$ serve journal c 4001 1 --max-journal 204
* a peer
@ {"ask":"push","epoch":1,"n":1,"rows":[{"new":{"_deleted":false,"id":"a"}}],"schema":"d3965597d0b8e1c41da9b2dc759684814b6376a695e3324ffc338dfea45c31a5"}
< {"limit":204,"stop":"full","would":245}

== what is no journal
^ 'hello,world'
$ serve journal c 4001 1
< {"stop":"not_journal"}
"#;
