// Observed queries: what is emitted after each kind of write, and what windows show as documents
// come, change and go.
pub const CASES: &str = r#"// A result is emitted where a line changes it.
== observing emits at once, an empty result too
. C(c) {"do":"observe","name":"q","in":"c","query":{}}
< {"emit":"q","rows":[]}
. I(c,a,1)
< {"emit":"q","rows":[{"id":"a","n":1}]}
. {"do":"observe","name":"p","in":"c","query":{}}
< {"emit":"p","rows":[{"id":"a","n":1}]}

== each kind of write emits, and no other line
. C(c) {"do":"observe","name":"q","in":"c","query":{"selector":{"n":{"$gt":0}}}}
< {"emit":"q","rows":[]}
. {"do":"insert","in":"c","doc":{"id":"a","n":1}}
< {"emit":"q","rows":[{"id":"a","n":1}]}
> {"do":"upsert","in":"c","doc":{"id":"b","n":2}}
< {"line":L,"ok":"upsert","rev":"1-c"}
< {"emit":"q","rows":[{"id":"a","n":1},{"id":"b","n":2}]}
> {"do":"upsert","in":"c","doc":{"id":"a","n":3}}
< {"line":L,"ok":"upsert","rev":"2-c"}
< {"emit":"q","rows":[{"id":"a","n":3},{"id":"b","n":2}]}
> {"do":"patch","in":"c","key":"b","set":{"n":4}}
< {"line":L,"ok":"patch","rev":"2-c"}
< {"emit":"q","rows":[{"id":"a","n":3},{"id":"b","n":4}]}
> {"do":"remove","in":"c","key":"a"}
< {"line":L,"ok":"remove","rev":"3-c"}
< {"emit":"q","rows":[{"id":"b","n":4}]}
> {"do":"bulk","in":"c","docs":[{"id":"d","n":5},{"id":"a","n":6}]}
< {"line":L,"ok":"bulk","revs":["1-c","4-c"]}
< {"emit":"q","rows":[{"id":"a","n":6},{"id":"b","n":4},{"id":"d","n":5}]}
. {"do":"tick","at":9}
> {"do":"get","in":"c","key":"a"}
< {"doc":{"id":"a","n":6},"line":L,"lwt":6,"ok":"get","rev":"4-c"}
> {"do":"count","in":"c","query":{}}
< {"count":3,"line":L,"ok":"count"}
> {"do":"find","in":"c","query":{"limit":1}}
< {"line":L,"ok":"find","rows":[{"id":"a","n":6}]}
> {"do":"bulk","in":"c","docs":[]}
< {"line":L,"ok":"bulk","revs":[]}

== a write that leaves the result as it is emits nothing
. {"do":"collection","name":"c","schema":S2} I(c,a,1)
. {"do":"observe","name":"q","in":"c","query":{"selector":{"n":1}}}
< {"emit":"q","rows":[{"id":"a","n":1}]}
> {"do":"patch","in":"c","key":"a","set":{"n":1}}
< {"line":L,"ok":"patch","rev":"2-c"}
> {"do":"upsert","in":"c","doc":{"id":"a","n":1}}
< {"line":L,"ok":"upsert","rev":"3-c"}
. I(c,b,2)
> {"do":"patch","in":"c","key":"b","set":{"n":3}}
< {"line":L,"ok":"patch","rev":"2-c"}
> {"do":"remove","in":"c","key":"b"}
< {"line":L,"ok":"remove","rev":"3-c"}
> {"do":"bulk","in":"c","docs":[{"id":"b"},{"id":"d","n":2}]}
< {"line":L,"ok":"bulk","revs":["4-c","1-c"]}
> {"do":"patch","in":"c","key":"a","set":{"t":"x"}}
< {"line":L,"ok":"patch","rev":"4-c"}
< {"emit":"q","rows":[{"id":"a","n":1,"t":"x"}]}

== only queries of the collection emit
. C(c) C(d) {"do":"observe","name":"q","in":"c","query":{}}
< {"emit":"q","rows":[]}
. {"do":"observe","name":"p","in":"d","query":{}}
< {"emit":"p","rows":[]}
. I(d,a,1)
< {"emit":"p","rows":[{"id":"a","n":1}]}
. I(c,a,2)
< {"emit":"q","rows":[{"id":"a","n":2}]}

== queries emit in the order of observing
. C(c) {"do":"observe","name":"z","in":"c","query":{"selector":{"n":-7}}}
< {"emit":"z","rows":[]}
. {"do":"observe","name":"a","in":"c","query":{"selector":{"n":-7}}}
< {"emit":"a","rows":[]}
. {"do":"observe","name":"m","in":"c","query":{"selector":{"n":7}}}
< {"emit":"m","rows":[]}
. I(c,k,-7)
< {"emit":"z","rows":[{"id":"k","n":-7}]}
< {"emit":"a","rows":[{"id":"k","n":-7}]}
> {"do":"patch","in":"c","key":"k","set":{"n":7}}
< {"line":L,"ok":"patch","rev":"2-c"}
< {"emit":"z","rows":[]}
< {"emit":"a","rows":[]}
< {"emit":"m","rows":[{"id":"k","n":7}]}

== a bulk emits once a query
. C(c) {"do":"observe","name":"q","in":"c","query":{"sort":[{"n":"desc"}],"limit":2}}
< {"emit":"q","rows":[]}
. {"do":"observe","name":"p","in":"c","query":{"selector":{"n":{"$lt":2}}}}
< {"emit":"p","rows":[]}
> {"do":"bulk","in":"c","docs":[{"id":"a","n":1},{"id":"b","n":3},{"id":"d","n":2},{"id":"e"},{"id":"f","n":3}]}
< {"line":L,"ok":"bulk","revs":["1-c","1-c","1-c","1-c","1-c"]}
< {"emit":"q","rows":[{"id":"b","n":3},{"id":"f","n":3}]}
< {"emit":"p","rows":[{"id":"a","n":1}]}
> {"do":"bulk","in":"c","docs":[{"id":"g","n":2},{"id":"h","n":2}]}
< {"line":L,"ok":"bulk","revs":["1-c","1-c"]}

== the same documents in another order are another result
. C(c)
> {"do":"bulk","in":"c","docs":[{"id":"a","n":1},{"id":"b","n":2}]}
< {"line":L,"ok":"bulk","revs":["1-c","1-c"]}
. {"do":"observe","name":"q","in":"c","query":{"sort":[{"n":"asc"}],"limit":1}}
< {"emit":"q","rows":[{"id":"a","n":1}]}
. {"do":"observe","name":"p","in":"c","query":{"sort":[{"n":"asc"}]}}
< {"emit":"p","rows":[{"id":"a","n":1},{"id":"b","n":2}]}
> {"do":"patch","in":"c","key":"a","set":{"n":3}}
< {"line":L,"ok":"patch","rev":"2-c"}
< {"emit":"q","rows":[{"id":"b","n":2}]}
< {"emit":"p","rows":[{"id":"b","n":2},{"id":"a","n":3}]}

// A window shows what its query gives.
== a window is filled again after a removal
. C(c) I(c,a,1) I(c,b,2) I(c,d,3)
. {"do":"observe","name":"q","in":"c","query":{"sort":[{"n":"asc"}],"limit":2}}
< {"emit":"q","rows":[{"id":"a","n":1},{"id":"b","n":2}]}
> {"do":"remove","in":"c","key":"a"}
< {"line":L,"ok":"remove","rev":"2-c"}
< {"emit":"q","rows":[{"id":"b","n":2},{"id":"d","n":3}]}

== a change among the skipped rows
. C(c) I(c,a,1) I(c,b,2) I(c,d,3)
. {"do":"observe","name":"q","in":"c","query":{"sort":[{"n":"asc"}],"skip":2}}
< {"emit":"q","rows":[{"id":"d","n":3}]}
> {"do":"patch","in":"c","key":"b","set":{"n":0}}
< {"line":L,"ok":"patch","rev":"2-c"}
> {"do":"patch","in":"c","key":"b","set":{"n":4}}
< {"line":L,"ok":"patch","rev":"3-c"}
< {"emit":"q","rows":[{"id":"b","n":4}]}

== a removal among the skipped rows moves the window
. C(c) I(c,a,1) I(c,b,2) I(c,d,3)
. {"do":"observe","name":"q","in":"c","query":{"sort":[{"n":"asc"}],"skip":1}}
< {"emit":"q","rows":[{"id":"b","n":2},{"id":"d","n":3}]}
> {"do":"remove","in":"c","key":"a"}
< {"line":L,"ok":"remove","rev":"2-c"}
< {"emit":"q","rows":[{"id":"d","n":3}]}
> {"do":"remove","in":"c","key":"d"}
< {"line":L,"ok":"remove","rev":"2-c"}
< {"emit":"q","rows":[]}
> {"do":"remove","in":"c","key":"b"}
< {"line":L,"ok":"remove","rev":"2-c"}

== a smaller document takes the one place
. C(c) I(c,b,2) {"do":"observe","name":"q","in":"c","query":{"sort":[{"n":"asc"}],"limit":1}}
< {"emit":"q","rows":[{"id":"b","n":2}]}
. I(c,a,1)
< {"emit":"q","rows":[{"id":"a","n":1}]}
. I(c,d,1)
> {"do":"remove","in":"c","key":"a"}
< {"line":L,"ok":"remove","rev":"2-c"}
< {"emit":"q","rows":[{"id":"d","n":1}]}

== a row that leaves a full window makes place for the next
. C(c) I(c,a,1) I(c,b,2) I(c,d,3)
. {"do":"observe","name":"q","in":"c","query":{"sort":[{"n":"asc"}],"limit":2}}
< {"emit":"q","rows":[{"id":"a","n":1},{"id":"b","n":2}]}
> {"do":"patch","in":"c","key":"b","set":{"n":5}}
< {"line":L,"ok":"patch","rev":"2-c"}
< {"emit":"q","rows":[{"id":"a","n":1},{"id":"d","n":3}]}

== a document comes first, last and between
. C(c) {"do":"observe","name":"q","in":"c","query":{"sort":[{"n":"asc"}]}}
< {"emit":"q","rows":[]}
. I(c,m,5)
< {"emit":"q","rows":[{"id":"m","n":5}]}
. I(c,z,1)
< {"emit":"q","rows":[{"id":"z","n":1},{"id":"m","n":5}]}
. I(c,a,9)
< {"emit":"q","rows":[{"id":"z","n":1},{"id":"m","n":5},{"id":"a","n":9}]}
. I(c,b,5)
< {"emit":"q","rows":[{"id":"z","n":1},{"id":"b","n":5},{"id":"m","n":5},{"id":"a","n":9}]}
. {"do":"insert","in":"c","doc":{"id":"y"}}
< {"emit":"q","rows":[{"id":"y"},{"id":"z","n":1},{"id":"b","n":5},{"id":"m","n":5},{"id":"a","n":9}]}

== the first, the last and a middle row go
. C(c)
> {"do":"bulk","in":"c","docs":[{"id":"a","n":1},{"id":"b","n":2},{"id":"d","n":3},{"id":"e","n":4},{"id":"f","n":5}]}
< {"line":L,"ok":"bulk","revs":["1-c","1-c","1-c","1-c","1-c"]}
. {"do":"observe","name":"q","in":"c","query":{"selector":{"n":{"$gt":0}},"sort":[{"n":"asc"}]}}
< {"emit":"q","rows":[{"id":"a","n":1},{"id":"b","n":2},{"id":"d","n":3},{"id":"e","n":4},{"id":"f","n":5}]}
> {"do":"remove","in":"c","key":"a"}
< {"line":L,"ok":"remove","rev":"2-c"}
< {"emit":"q","rows":[{"id":"b","n":2},{"id":"d","n":3},{"id":"e","n":4},{"id":"f","n":5}]}
> {"do":"patch","in":"c","key":"f","set":{"n":-5}}
< {"line":L,"ok":"patch","rev":"2-c"}
< {"emit":"q","rows":[{"id":"b","n":2},{"id":"d","n":3},{"id":"e","n":4}]}
> {"do":"upsert","in":"c","doc":{"id":"d"}}
< {"line":L,"ok":"upsert","rev":"2-c"}
< {"emit":"q","rows":[{"id":"b","n":2},{"id":"e","n":4}]}
> {"do":"remove","in":"c","key":"d"}
< {"line":L,"ok":"remove","rev":"3-c"}

== a row is changed in its place
. {"do":"collection","name":"c","schema":S2}
> {"do":"bulk","in":"c","docs":[{"id":"a","n":1},{"id":"b","n":2},{"id":"d","n":3}]}
< {"line":L,"ok":"bulk","revs":["1-c","1-c","1-c"]}
. {"do":"observe","name":"q","in":"c","query":{"sort":[{"n":"desc"}],"limit":3}}
< {"emit":"q","rows":[{"id":"d","n":3},{"id":"b","n":2},{"id":"a","n":1}]}
> {"do":"patch","in":"c","key":"a","set":{"t":"last"}}
< {"line":L,"ok":"patch","rev":"2-c"}
< {"emit":"q","rows":[{"id":"d","n":3},{"id":"b","n":2},{"id":"a","n":1,"t":"last"}]}
> {"do":"patch","in":"c","key":"d","set":{"t":"first"}}
< {"line":L,"ok":"patch","rev":"2-c"}
< {"emit":"q","rows":[{"id":"d","n":3,"t":"first"},{"id":"b","n":2},{"id":"a","n":1,"t":"last"}]}
> {"do":"patch","in":"c","key":"b","set":{"t":"middle"}}
< {"line":L,"ok":"patch","rev":"2-c"}
< {"emit":"q","rows":[{"id":"d","n":3,"t":"first"},{"id":"b","n":2,"t":"middle"},{"id":"a","n":1,"t":"last"}]}
. {"do":"insert","in":"c","doc":{"id":"e","n":0}}
> {"do":"patch","in":"c","key":"e","set":{"t":"outside"}}
< {"line":L,"ok":"patch","rev":"2-c"}

== a row moves within the result
. C(c)
> {"do":"bulk","in":"c","docs":[{"id":"a","n":1},{"id":"b","n":2},{"id":"d","n":3}]}
< {"line":L,"ok":"bulk","revs":["1-c","1-c","1-c"]}
. {"do":"observe","name":"q","in":"c","query":{"sort":[{"n":"asc"}]}}
< {"emit":"q","rows":[{"id":"a","n":1},{"id":"b","n":2},{"id":"d","n":3}]}
> {"do":"patch","in":"c","key":"a","set":{"n":9}}
< {"line":L,"ok":"patch","rev":"2-c"}
< {"emit":"q","rows":[{"id":"b","n":2},{"id":"d","n":3},{"id":"a","n":9}]}
> {"do":"patch","in":"c","key":"a","set":{"n":0}}
< {"line":L,"ok":"patch","rev":"3-c"}
< {"emit":"q","rows":[{"id":"a","n":0},{"id":"b","n":2},{"id":"d","n":3}]}
> {"do":"upsert","in":"c","doc":{"id":"b","n":3}}
< {"line":L,"ok":"upsert","rev":"2-c"}
< {"emit":"q","rows":[{"id":"a","n":0},{"id":"b","n":3},{"id":"d","n":3}]}
> {"do":"upsert","in":"c","doc":{"id":"d"}}
< {"line":L,"ok":"upsert","rev":"2-c"}
< {"emit":"q","rows":[{"id":"d"},{"id":"a","n":0},{"id":"b","n":3}]}

== documents move past a full window, and through it
. C(c)
> {"do":"bulk","in":"c","docs":[{"id":"a","n":1},{"id":"b","n":2},{"id":"d","n":3},{"id":"e","n":4},{"id":"f","n":5}]}
< {"line":L,"ok":"bulk","revs":["1-c","1-c","1-c","1-c","1-c"]}
. {"do":"observe","name":"q","in":"c","query":{"sort":[{"n":"asc"}],"skip":1,"limit":2}}
< {"emit":"q","rows":[{"id":"b","n":2},{"id":"d","n":3}]}
> {"do":"patch","in":"c","key":"f","set":{"n":6}}
< {"line":L,"ok":"patch","rev":"2-c"}
> {"do":"patch","in":"c","key":"f","set":{"n":0}}
< {"line":L,"ok":"patch","rev":"3-c"}
< {"emit":"q","rows":[{"id":"a","n":1},{"id":"b","n":2}]}
> {"do":"patch","in":"c","key":"a","set":{"n":9}}
< {"line":L,"ok":"patch","rev":"2-c"}
< {"emit":"q","rows":[{"id":"b","n":2},{"id":"d","n":3}]}
> {"do":"patch","in":"c","key":"b","set":{"n":-1}}
< {"line":L,"ok":"patch","rev":"2-c"}
< {"emit":"q","rows":[{"id":"f","n":0},{"id":"d","n":3}]}
> {"do":"patch","in":"c","key":"d","set":{"n":8}}
< {"line":L,"ok":"patch","rev":"2-c"}
< {"emit":"q","rows":[{"id":"f","n":0},{"id":"e","n":4}]}
> {"do":"remove","in":"c","key":"b"}
< {"line":L,"ok":"remove","rev":"3-c"}
< {"emit":"q","rows":[{"id":"e","n":4},{"id":"d","n":8}]}
> {"do":"remove","in":"c","key":"a"}
< {"line":L,"ok":"remove","rev":"3-c"}
> {"do":"bulk","in":"c","docs":[{"id":"a","n":-2},{"id":"g","n":7}]}
< {"line":L,"ok":"bulk","revs":["4-c","1-c"]}
< {"emit":"q","rows":[{"id":"f","n":0},{"id":"e","n":4}]}

== a window of one shows the greatest
. C(c)
. {"do":"observe","name":"q","in":"c","query":{"selector":{"n":{"$exists":true}},"sort":[{"n":"desc"}],"limit":1}}
< {"emit":"q","rows":[]}
. I(c,a,1)
< {"emit":"q","rows":[{"id":"a","n":1}]}
. I(c,b,2)
< {"emit":"q","rows":[{"id":"b","n":2}]}
. I(c,d,2)
> {"do":"patch","in":"c","key":"d","set":{"n":3}}
< {"line":L,"ok":"patch","rev":"2-c"}
< {"emit":"q","rows":[{"id":"d","n":3}]}
> {"do":"patch","in":"c","key":"d","set":{"n":1}}
< {"line":L,"ok":"patch","rev":"3-c"}
< {"emit":"q","rows":[{"id":"b","n":2}]}
> {"do":"upsert","in":"c","doc":{"id":"b"}}
< {"line":L,"ok":"upsert","rev":"2-c"}
< {"emit":"q","rows":[{"id":"a","n":1}]}
> {"do":"patch","in":"c","key":"a","set":{"n":7}}
< {"line":L,"ok":"patch","rev":"2-c"}
< {"emit":"q","rows":[{"id":"a","n":7}]}

== a window behind all documents stays empty until they reach it
. C(c) {"do":"observe","name":"q","in":"c","query":{"skip":2}}
< {"emit":"q","rows":[]}
. I(c,d,1) I(c,b,1) I(c,a,1)
< {"emit":"q","rows":[{"id":"d","n":1}]}
. I(c,e,1)
< {"emit":"q","rows":[{"id":"d","n":1},{"id":"e","n":1}]}
> {"do":"remove","in":"c","key":"b"}
< {"line":L,"ok":"remove","rev":"2-c"}
< {"emit":"q","rows":[{"id":"e","n":1}]}
> {"do":"remove","in":"c","key":"a"}
< {"line":L,"ok":"remove","rev":"2-c"}
< {"emit":"q","rows":[]}
> {"do":"bulk","in":"c","docs":[{"id":"a"},{"id":"b"}]}
< {"line":L,"ok":"bulk","revs":["3-c","3-c"]}
< {"emit":"q","rows":[{"id":"d","n":1},{"id":"e","n":1}]}

== documents come before a full window
. C(c) I(c,a,5) I(c,b,6) I(c,d,7)
. {"do":"observe","name":"q","in":"c","query":{"sort":[{"n":"asc"}],"limit":2}}
< {"emit":"q","rows":[{"id":"a","n":5},{"id":"b","n":6}]}
. I(c,e,1)
< {"emit":"q","rows":[{"id":"e","n":1},{"id":"a","n":5}]}
> {"do":"patch","in":"c","key":"d","set":{"n":0}}
< {"line":L,"ok":"patch","rev":"2-c"}
< {"emit":"q","rows":[{"id":"d","n":0},{"id":"e","n":1}]}

== a window runs dry, is filled again and runs dry once more
. C(c)
> {"do":"bulk","in":"c","docs":[{"id":"a","n":1},{"id":"b","n":2},{"id":"d","n":3},{"id":"e","n":4},{"id":"f","n":5},{"id":"g","n":6},{"id":"h","n":7}]}
< {"line":L,"ok":"bulk","revs":["1-c","1-c","1-c","1-c","1-c","1-c","1-c"]}
. {"do":"observe","name":"q","in":"c","query":{"sort":[{"n":"asc"}],"limit":2}}
< {"emit":"q","rows":[{"id":"a","n":1},{"id":"b","n":2}]}
> {"do":"remove","in":"c","key":"a"}
< {"line":L,"ok":"remove","rev":"2-c"}
< {"emit":"q","rows":[{"id":"b","n":2},{"id":"d","n":3}]}
> {"do":"remove","in":"c","key":"d"}
< {"line":L,"ok":"remove","rev":"2-c"}
< {"emit":"q","rows":[{"id":"b","n":2},{"id":"e","n":4}]}
> {"do":"remove","in":"c","key":"b"}
< {"line":L,"ok":"remove","rev":"2-c"}
< {"emit":"q","rows":[{"id":"e","n":4},{"id":"f","n":5}]}
> {"do":"remove","in":"c","key":"e"}
< {"line":L,"ok":"remove","rev":"2-c"}
< {"emit":"q","rows":[{"id":"f","n":5},{"id":"g","n":6}]}
> {"do":"remove","in":"c","key":"g"}
< {"line":L,"ok":"remove","rev":"2-c"}
< {"emit":"q","rows":[{"id":"f","n":5},{"id":"h","n":7}]}
> {"do":"remove","in":"c","key":"f"}
< {"line":L,"ok":"remove","rev":"2-c"}
< {"emit":"q","rows":[{"id":"h","n":7}]}
> {"do":"remove","in":"c","key":"h"}
< {"line":L,"ok":"remove","rev":"2-c"}
< {"emit":"q","rows":[]}
. I(c,i,8)
< {"emit":"q","rows":[{"id":"i","n":8}]}

== documents come, move and go behind a window
. C(c)
> {"do":"bulk","in":"c","docs":[{"id":"a","n":1},{"id":"b","n":2},{"id":"d","n":3},{"id":"e","n":5},{"id":"f","n":7}]}
< {"line":L,"ok":"bulk","revs":["1-c","1-c","1-c","1-c","1-c"]}
. {"do":"observe","name":"q","in":"c","query":{"sort":[{"n":"asc"}],"limit":2}}
< {"emit":"q","rows":[{"id":"a","n":1},{"id":"b","n":2}]}
. I(c,g,4)
> {"do":"patch","in":"c","key":"d","set":{"n":6}}
< {"line":L,"ok":"patch","rev":"2-c"}
> {"do":"remove","in":"c","key":"a"}
< {"line":L,"ok":"remove","rev":"2-c"}
< {"emit":"q","rows":[{"id":"b","n":2},{"id":"g","n":4}]}
> {"do":"patch","in":"c","key":"b","set":{"n":8}}
< {"line":L,"ok":"patch","rev":"2-c"}
< {"emit":"q","rows":[{"id":"g","n":4},{"id":"e","n":5}]}
> {"do":"remove","in":"c","key":"g"}
< {"line":L,"ok":"remove","rev":"2-c"}
< {"emit":"q","rows":[{"id":"e","n":5},{"id":"d","n":6}]}
> {"do":"remove","in":"c","key":"e"}
< {"line":L,"ok":"remove","rev":"2-c"}
< {"emit":"q","rows":[{"id":"d","n":6},{"id":"f","n":7}]}
> {"do":"remove","in":"c","key":"d"}
< {"line":L,"ok":"remove","rev":"3-c"}
< {"emit":"q","rows":[{"id":"f","n":7},{"id":"b","n":8}]}

== a change while all matching documents are skipped
. C(c) I(c,a,1) {"do":"observe","name":"q","in":"c","query":{"skip":5}}
< {"emit":"q","rows":[]}
> {"do":"patch","in":"c","key":"a","set":{"n":2}}
< {"line":L,"ok":"patch","rev":"2-c"}

== a limit of 0 is none
. C(c) {"do":"observe","name":"q","in":"c","query":{"sort":[{"n":"asc"}],"skip":0,"limit":0}}
< {"emit":"q","rows":[]}
. I(c,a,1)
< {"emit":"q","rows":[{"id":"a","n":1}]}
. I(c,b,0)
< {"emit":"q","rows":[{"id":"b","n":0},{"id":"a","n":1}]}
"#;
