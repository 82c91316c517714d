// Observed queries that are forgotten, explained and opened again.
pub const CASES: &str = r#"
== no query has that name
> {"do":"unobserve","name":"q"}
< {"code":17,"line":L,"refused":"no_query"}
> {"do":"explain","name":"q"}
< {"code":17,"line":L,"refused":"no_query"}
> {"do":"unobserve"}
< {"code":5,"line":L,"name":"name","refused":"missing"}
> {"do":"explain"}
< {"code":5,"line":L,"name":"name","refused":"missing"}
> {"do":"explain","name":"q","in":"c"}
< {"code":6,"line":L,"name":"in","refused":"unexpected"}
> {"do":"unobserve","name":5}
< {"code":7,"line":L,"name":"name","refused":"wrong_type"}
> {"do":"explain","name":"Q"}
< {"code":8,"line":L,"name":"name","refused":"name"}
> {"do":"restart","at":5}
< {"code":6,"line":L,"name":"at","refused":"unexpected"}

== the first document comes first
. C(c) {"do":"observe","name":"q","in":"c","query":{"selector":{"n":1}}}
< {"emit":"q","rows":[]}
> {"do":"explain","name":"q"}
< {"actions":{},"asked":0,"changes":0,"full":0,"line":L,"ok":"explain"}
. I(c,a,1)
< {"emit":"q","rows":[{"id":"a","n":1}]}
> I(c,a,1)
< {"code":14,"line":L,"refused":"conflict","rev":"1-c"}
> {"do":"explain","name":"q"}
< {"actions":{"insertFirst":1},"asked":6,"changes":1,"full":0,"line":L,"ok":"explain"}

== a full window that loses a row is queried again
. C(c) I(c,a,1) I(c,b,2) I(c,d,3)
. {"do":"observe","name":"q","in":"c","query":{"sort":[{"n":"asc"}],"limit":2}}
< {"emit":"q","rows":[{"id":"a","n":1},{"id":"b","n":2}]}
> {"do":"remove","in":"c","key":"a"}
< {"line":L,"ok":"remove","rev":"2-c"}
< {"emit":"q","rows":[{"id":"b","n":2},{"id":"d","n":3}]}
> {"do":"explain","name":"q"}
< {"actions":{"runFullQueryAgain":1},"asked":13,"changes":1,"full":1,"line":L,"ok":"explain"}

== a full window whose row moves past its end is queried again
. C(c) I(c,a,1) I(c,b,2) I(c,d,3)
. {"do":"observe","name":"q","in":"c","query":{"sort":[{"n":"asc"}],"limit":2}}
< {"emit":"q","rows":[{"id":"a","n":1},{"id":"b","n":2}]}
> {"do":"patch","in":"c","key":"b","set":{"n":5}}
< {"line":L,"ok":"patch","rev":"2-c"}
< {"emit":"q","rows":[{"id":"a","n":1},{"id":"d","n":3}]}
> {"do":"explain","name":"q"}
< {"actions":{"runFullQueryAgain":1},"asked":10,"changes":1,"full":1,"line":L,"ok":"explain"}

== a change among the skipped rows needs nothing
. C(c) I(c,a,1) I(c,b,2) I(c,d,3)
. {"do":"observe","name":"q","in":"c","query":{"sort":[{"n":"asc"}],"skip":2}}
< {"emit":"q","rows":[{"id":"d","n":3}]}
> {"do":"patch","in":"c","key":"b","set":{"n":0}}
< {"line":L,"ok":"patch","rev":"2-c"}
> {"do":"explain","name":"q"}
< {"actions":{"doNothing":1},"asked":13,"changes":1,"full":0,"line":L,"ok":"explain"}

== a removal among the skipped rows takes the first row away
. C(c) I(c,a,1) I(c,b,2) I(c,d,3)
. {"do":"observe","name":"q","in":"c","query":{"sort":[{"n":"asc"}],"skip":1}}
< {"emit":"q","rows":[{"id":"b","n":2},{"id":"d","n":3}]}
> {"do":"remove","in":"c","key":"a"}
< {"line":L,"ok":"remove","rev":"2-c"}
< {"emit":"q","rows":[{"id":"d","n":3}]}
> {"do":"explain","name":"q"}
< {"actions":{"removeFirstItem":1},"asked":14,"changes":1,"full":0,"line":L,"ok":"explain"}

== the one place is taken by a smaller document
. C(c) I(c,b,2) {"do":"observe","name":"q","in":"c","query":{"sort":[{"n":"asc"}],"limit":1}}
< {"emit":"q","rows":[{"id":"b","n":2}]}
. I(c,a,1)
< {"emit":"q","rows":[{"id":"a","n":1}]}
> {"do":"explain","name":"q"}
< {"actions":{"removeFirstInsertFirst":1},"asked":13,"changes":1,"full":0,"line":L,"ok":"explain"}

== documents come before a full window
. C(c) I(c,a,5) I(c,b,6) I(c,d,7)
. {"do":"observe","name":"q","in":"c","query":{"sort":[{"n":"asc"}],"limit":2}}
< {"emit":"q","rows":[{"id":"a","n":5},{"id":"b","n":6}]}
. I(c,e,1)
< {"emit":"q","rows":[{"id":"e","n":1},{"id":"a","n":5}]}
> {"do":"patch","in":"c","key":"d","set":{"n":0}}
< {"line":L,"ok":"patch","rev":"2-c"}
< {"emit":"q","rows":[{"id":"d","n":0},{"id":"e","n":1}]}
> {"do":"explain","name":"q"}
< {"actions":{"removeLastInsertFirst":2},"asked":25,"changes":2,"full":0,"line":L,"ok":"explain"}

== a change while all matching documents are skipped
. C(c) I(c,a,1) {"do":"observe","name":"q","in":"c","query":{"skip":5}}
< {"emit":"q","rows":[]}
> {"do":"patch","in":"c","key":"a","set":{"n":2}}
< {"line":L,"ok":"patch","rev":"2-c"}
> {"do":"remove","in":"c","key":"a"}
< {"line":L,"ok":"remove","rev":"3-c"}
> {"do":"explain","name":"q"}
< {"actions":{"doNothing":2},"asked":10,"changes":2,"full":0,"line":L,"ok":"explain"}

== the rows of a bulk count one by one, by rising keys
. C(c) {"do":"observe","name":"q","in":"c","query":{}}
< {"emit":"q","rows":[]}
> {"do":"bulk","in":"c","docs":[{"id":"d"},{"id":"a"},{"id":"b"}]}
< {"line":L,"ok":"bulk","revs":["1-c","1-c","1-c"]}
< {"emit":"q","rows":[{"id":"a"},{"id":"b"},{"id":"d"}]}
> {"do":"explain","name":"q"}
< {"actions":{"insertFirst":1,"insertLast":2},"asked":32,"changes":3,"full":0,"line":L,"ok":"explain"}

== each place of a row that stays
. C(c)
> {"do":"bulk","in":"c","docs":[{"id":"a"},{"id":"b"},{"id":"d"}]}
< {"line":L,"ok":"bulk","revs":["1-c","1-c","1-c"]}
. {"do":"observe","name":"q","in":"c","query":{}}
< {"emit":"q","rows":[{"id":"a"},{"id":"b"},{"id":"d"}]}
> {"do":"patch","in":"c","key":"a","set":{"n":1}}
< {"line":L,"ok":"patch","rev":"2-c"}
< {"emit":"q","rows":[{"id":"a","n":1},{"id":"b"},{"id":"d"}]}
> {"do":"patch","in":"c","key":"b","set":{"n":2}}
< {"line":L,"ok":"patch","rev":"2-c"}
< {"emit":"q","rows":[{"id":"a","n":1},{"id":"b","n":2},{"id":"d"}]}
> {"do":"patch","in":"c","key":"d","set":{"n":3}}
< {"line":L,"ok":"patch","rev":"2-c"}
< {"emit":"q","rows":[{"id":"a","n":1},{"id":"b","n":2},{"id":"d","n":3}]}
> {"do":"patch","in":"c","key":"d","set":{}}
< {"line":L,"ok":"patch","rev":"3-c"}
> {"do":"explain","name":"q"}
< {"actions":{"removeFirstInsertFirst":1,"removeLastInsertLast":2,"replaceExisting":1},"asked":52,"changes":4,"full":0,"line":L,"ok":"explain"}

== each place of a row that goes
. C(c)
> {"do":"bulk","in":"c","docs":[{"id":"a"},{"id":"b"},{"id":"d"},{"id":"e"}]}
< {"line":L,"ok":"bulk","revs":["1-c","1-c","1-c","1-c"]}
. {"do":"observe","name":"q","in":"c","query":{}}
< {"emit":"q","rows":[{"id":"a"},{"id":"b"},{"id":"d"},{"id":"e"}]}
> {"do":"remove","in":"c","key":"b"}
< {"line":L,"ok":"remove","rev":"2-c"}
< {"emit":"q","rows":[{"id":"a"},{"id":"d"},{"id":"e"}]}
> {"do":"remove","in":"c","key":"e"}
< {"line":L,"ok":"remove","rev":"2-c"}
< {"emit":"q","rows":[{"id":"a"},{"id":"d"}]}
> {"do":"remove","in":"c","key":"a"}
< {"line":L,"ok":"remove","rev":"2-c"}
< {"emit":"q","rows":[{"id":"d"}]}
> {"do":"explain","name":"q"}
< {"actions":{"removeExisting":1,"removeFirstItem":1,"removeLastItem":1},"asked":39,"changes":3,"full":0,"line":L,"ok":"explain"}

== skipped rows change places with the window
. C(c) I(c,a,1) I(c,b,2) I(c,d,3)
. {"do":"observe","name":"q","in":"c","query":{"sort":[{"n":"asc"}],"skip":2}}
< {"emit":"q","rows":[{"id":"d","n":3}]}
> {"do":"patch","in":"c","key":"b","set":{"n":0}}
< {"line":L,"ok":"patch","rev":"2-c"}
> {"do":"patch","in":"c","key":"b","set":{"n":4}}
< {"line":L,"ok":"patch","rev":"3-c"}
< {"emit":"q","rows":[{"id":"b","n":4}]}
> {"do":"explain","name":"q"}
< {"actions":{"doNothing":1,"removeFirstInsertLast":1},"asked":26,"changes":2,"full":0,"line":L,"ok":"explain"}

== each place of a row that comes
. C(c) {"do":"observe","name":"q","in":"c","query":{"sort":[{"n":"asc"}]}}
< {"emit":"q","rows":[]}
. I(c,m,5)
< {"emit":"q","rows":[{"id":"m","n":5}]}
. I(c,z,1)
< {"emit":"q","rows":[{"id":"z","n":1},{"id":"m","n":5}]}
. I(c,a,9)
< {"emit":"q","rows":[{"id":"z","n":1},{"id":"m","n":5},{"id":"a","n":9}]}
. I(c,b,5)
< {"emit":"q","rows":[{"id":"z","n":1},{"id":"b","n":5},{"id":"m","n":5},{"id":"a","n":9}]}
. {"do":"insert","in":"c","doc":{"id":"y"}}
< {"emit":"q","rows":[{"id":"y"},{"id":"z","n":1},{"id":"b","n":5},{"id":"m","n":5},{"id":"a","n":9}]}
> {"do":"explain","name":"q"}
< {"actions":{"insertAtSortPosition":1,"insertFirst":3,"insertLast":1},"asked":58,"changes":5,"full":0,"line":L,"ok":"explain"}

== rows go by a removal, by a change, and once
. C(c)
> {"do":"bulk","in":"c","docs":[{"id":"a","n":1},{"id":"b","n":2},{"id":"d","n":3},{"id":"e","n":4},{"id":"f","n":5}]}
< {"line":L,"ok":"bulk","revs":["1-c","1-c","1-c","1-c","1-c"]}
. {"do":"observe","name":"q","in":"c","query":{"selector":{"n":{"$gt":0}},"sort":[{"n":"asc"}]}}
< {"emit":"q","rows":[{"id":"a","n":1},{"id":"b","n":2},{"id":"d","n":3},{"id":"e","n":4},{"id":"f","n":5}]}
> {"do":"remove","in":"c","key":"a"}
< {"line":L,"ok":"remove","rev":"2-c"}
< {"emit":"q","rows":[{"id":"b","n":2},{"id":"d","n":3},{"id":"e","n":4},{"id":"f","n":5}]}
> {"do":"patch","in":"c","key":"f","set":{"n":-5}}
< {"line":L,"ok":"patch","rev":"2-c"}
< {"emit":"q","rows":[{"id":"b","n":2},{"id":"d","n":3},{"id":"e","n":4}]}
> {"do":"upsert","in":"c","doc":{"id":"d"}}
< {"line":L,"ok":"upsert","rev":"2-c"}
< {"emit":"q","rows":[{"id":"b","n":2},{"id":"e","n":4}]}
> {"do":"remove","in":"c","key":"d"}
< {"line":L,"ok":"remove","rev":"3-c"}
> {"do":"explain","name":"q"}
< {"actions":{"doNothing":1,"removeExisting":1,"removeFirstItem":1,"removeLastItem":1},"asked":53,"changes":4,"full":0,"line":L,"ok":"explain"}

== a change that moves no row
. {"do":"collection","name":"c","schema":S2}
> {"do":"bulk","in":"c","docs":[{"id":"a","n":1},{"id":"b","n":2},{"id":"d","n":3}]}
< {"line":L,"ok":"bulk","revs":["1-c","1-c","1-c"]}
. {"do":"observe","name":"q","in":"c","query":{"sort":[{"n":"desc"}],"limit":3}}
< {"emit":"q","rows":[{"id":"d","n":3},{"id":"b","n":2},{"id":"a","n":1}]}
> {"do":"patch","in":"c","key":"a","set":{"t":"last"}}
< {"line":L,"ok":"patch","rev":"2-c"}
< {"emit":"q","rows":[{"id":"d","n":3},{"id":"b","n":2},{"id":"a","n":1,"t":"last"}]}
> {"do":"patch","in":"c","key":"d","set":{"t":"first"}}
< {"line":L,"ok":"patch","rev":"2-c"}
< {"emit":"q","rows":[{"id":"d","n":3,"t":"first"},{"id":"b","n":2},{"id":"a","n":1,"t":"last"}]}
> {"do":"patch","in":"c","key":"b","set":{"t":"middle"}}
< {"line":L,"ok":"patch","rev":"2-c"}
< {"emit":"q","rows":[{"id":"d","n":3,"t":"first"},{"id":"b","n":2,"t":"middle"},{"id":"a","n":1,"t":"last"}]}
. {"do":"insert","in":"c","doc":{"id":"e","n":0}}
> {"do":"patch","in":"c","key":"e","set":{"t":"outside"}}
< {"line":L,"ok":"patch","rev":"2-c"}
> {"do":"explain","name":"q"}
< {"actions":{"doNothing":2,"removeFirstInsertFirst":1,"removeLastInsertLast":1,"replaceExisting":1},"asked":63,"changes":5,"full":0,"line":L,"ok":"explain"}

== a change that moves a row
. C(c)
> {"do":"bulk","in":"c","docs":[{"id":"a","n":1},{"id":"b","n":2},{"id":"d","n":3}]}
< {"line":L,"ok":"bulk","revs":["1-c","1-c","1-c"]}
. {"do":"observe","name":"q","in":"c","query":{"sort":[{"n":"asc"}]}}
< {"emit":"q","rows":[{"id":"a","n":1},{"id":"b","n":2},{"id":"d","n":3}]}
> {"do":"patch","in":"c","key":"a","set":{"n":9}}
< {"line":L,"ok":"patch","rev":"2-c"}
< {"emit":"q","rows":[{"id":"b","n":2},{"id":"d","n":3},{"id":"a","n":9}]}
> {"do":"patch","in":"c","key":"a","set":{"n":0}}
< {"line":L,"ok":"patch","rev":"3-c"}
< {"emit":"q","rows":[{"id":"a","n":0},{"id":"b","n":2},{"id":"d","n":3}]}
> {"do":"upsert","in":"c","doc":{"id":"b","n":3}}
< {"line":L,"ok":"upsert","rev":"2-c"}
< {"emit":"q","rows":[{"id":"a","n":0},{"id":"b","n":3},{"id":"d","n":3}]}
> {"do":"upsert","in":"c","doc":{"id":"d"}}
< {"line":L,"ok":"upsert","rev":"2-c"}
< {"emit":"q","rows":[{"id":"d"},{"id":"a","n":0},{"id":"b","n":3}]}
> {"do":"explain","name":"q"}
< {"actions":{"removeExistingAndInsertAtSortPosition":4},"asked":51,"changes":4,"full":0,"line":L,"ok":"explain"}

== a full window behind skipped rows
. C(c)
> {"do":"bulk","in":"c","docs":[{"id":"a","n":1},{"id":"b","n":2},{"id":"d","n":3},{"id":"e","n":4},{"id":"f","n":5}]}
< {"line":L,"ok":"bulk","revs":["1-c","1-c","1-c","1-c","1-c"]}
. {"do":"observe","name":"q","in":"c","query":{"sort":[{"n":"asc"}],"skip":1,"limit":2}}
< {"emit":"q","rows":[{"id":"b","n":2},{"id":"d","n":3}]}
> {"do":"patch","in":"c","key":"f","set":{"n":6}}
< {"line":L,"ok":"patch","rev":"2-c"}
> {"do":"patch","in":"c","key":"f","set":{"n":0}}
< {"line":L,"ok":"patch","rev":"3-c"}
< {"emit":"q","rows":[{"id":"a","n":1},{"id":"b","n":2}]}
> {"do":"patch","in":"c","key":"a","set":{"n":9}}
< {"line":L,"ok":"patch","rev":"2-c"}
< {"emit":"q","rows":[{"id":"b","n":2},{"id":"d","n":3}]}
> {"do":"patch","in":"c","key":"b","set":{"n":-1}}
< {"line":L,"ok":"patch","rev":"2-c"}
< {"emit":"q","rows":[{"id":"f","n":0},{"id":"d","n":3}]}
> {"do":"patch","in":"c","key":"d","set":{"n":8}}
< {"line":L,"ok":"patch","rev":"2-c"}
< {"emit":"q","rows":[{"id":"f","n":0},{"id":"e","n":4}]}
> {"do":"remove","in":"c","key":"b"}
< {"line":L,"ok":"remove","rev":"3-c"}
< {"emit":"q","rows":[{"id":"e","n":4},{"id":"d","n":8}]}
> {"do":"remove","in":"c","key":"a"}
< {"line":L,"ok":"remove","rev":"3-c"}
> {"do":"bulk","in":"c","docs":[{"id":"a","n":-2},{"id":"g","n":7}]}
< {"line":L,"ok":"bulk","revs":["4-c","1-c"]}
< {"emit":"q","rows":[{"id":"f","n":0},{"id":"e","n":4}]}
> {"do":"explain","name":"q"}
< {"actions":{"doNothing":3,"runFullQueryAgain":6},"asked":105,"changes":9,"full":6,"line":L,"ok":"explain"}

== a document enters a full window in its middle
. C(c) I(c,a,1) I(c,b,3)
. {"do":"observe","name":"q","in":"c","query":{"sort":[{"n":"asc"}],"limit":2}}
< {"emit":"q","rows":[{"id":"a","n":1},{"id":"b","n":3}]}
. I(c,d,2)
< {"emit":"q","rows":[{"id":"a","n":1},{"id":"d","n":2}]}
> {"do":"explain","name":"q"}
< {"actions":{"insertAtSortPositionRemoveLast":1},"asked":13,"changes":1,"full":0,"line":L,"ok":"explain"}

== a document moves within reach of a full window
. C(c) I(c,a,1) I(c,b,3) I(c,d,9)
. {"do":"observe","name":"q","in":"c","query":{"sort":[{"n":"asc"}],"limit":2}}
< {"emit":"q","rows":[{"id":"a","n":1},{"id":"b","n":3}]}
> {"do":"patch","in":"c","key":"d","set":{"n":2}}
< {"line":L,"ok":"patch","rev":"2-c"}
< {"emit":"q","rows":[{"id":"a","n":1},{"id":"d","n":2}]}
> {"do":"explain","name":"q"}
< {"actions":{"insertAtSortPositionRemoveLast":1},"asked":12,"changes":1,"full":0,"line":L,"ok":"explain"}

== a full window behind skipped rows is entered in its middle
. C(c)
> {"do":"bulk","in":"c","docs":[{"id":"a","n":1},{"id":"b","n":2},{"id":"d","n":4},{"id":"e","n":6}]}
< {"line":L,"ok":"bulk","revs":["1-c","1-c","1-c","1-c"]}
. {"do":"observe","name":"q","in":"c","query":{"sort":[{"n":"asc"}],"skip":1,"limit":2}}
< {"emit":"q","rows":[{"id":"b","n":2},{"id":"d","n":4}]}
. I(c,f,3)
< {"emit":"q","rows":[{"id":"b","n":2},{"id":"f","n":3}]}
> {"do":"patch","in":"c","key":"e","set":{"n":3}}
< {"line":L,"ok":"patch","rev":"2-c"}
< {"emit":"q","rows":[{"id":"b","n":2},{"id":"e","n":3}]}
> {"do":"remove","in":"c","key":"e"}
< {"line":L,"ok":"remove","rev":"3-c"}
< {"emit":"q","rows":[{"id":"b","n":2},{"id":"f","n":3}]}
> {"do":"explain","name":"q"}
< {"actions":{"insertAtSortPositionRemoveLast":2,"runFullQueryAgain":1},"asked":38,"changes":3,"full":1,"line":L,"ok":"explain"}

== a full window in the order of the key alone
. C(c)
> {"do":"bulk","in":"c","docs":[{"id":"b"},{"id":"f"},{"id":"h"}]}
< {"line":L,"ok":"bulk","revs":["1-c","1-c","1-c"]}
. {"do":"observe","name":"q","in":"c","query":{"limit":3}}
< {"emit":"q","rows":[{"id":"b"},{"id":"f"},{"id":"h"}]}
. {"do":"insert","in":"c","doc":{"id":"d"}}
< {"emit":"q","rows":[{"id":"b"},{"id":"d"},{"id":"f"}]}
. {"do":"insert","in":"c","doc":{"id":"z"}}
> {"do":"explain","name":"q"}
< {"actions":{"doNothing":1,"insertAtSortPositionRemoveLast":1},"asked":25,"changes":2,"full":0,"line":L,"ok":"explain"}

== a window of one
. C(c)
. {"do":"observe","name":"q","in":"c","query":{"selector":{"n":{"$exists":true}},"sort":[{"n":"desc"}],"limit":1}}
< {"emit":"q","rows":[]}
. I(c,a,1)
< {"emit":"q","rows":[{"id":"a","n":1}]}
. I(c,b,2)
< {"emit":"q","rows":[{"id":"b","n":2}]}
. I(c,d,2)
> {"do":"patch","in":"c","key":"d","set":{"n":3}}
< {"line":L,"ok":"patch","rev":"2-c"}
< {"emit":"q","rows":[{"id":"d","n":3}]}
> {"do":"patch","in":"c","key":"d","set":{"n":1}}
< {"line":L,"ok":"patch","rev":"3-c"}
< {"emit":"q","rows":[{"id":"b","n":2}]}
> {"do":"upsert","in":"c","doc":{"id":"b"}}
< {"line":L,"ok":"upsert","rev":"2-c"}
< {"emit":"q","rows":[{"id":"a","n":1}]}
> {"do":"patch","in":"c","key":"a","set":{"n":7}}
< {"line":L,"ok":"patch","rev":"2-c"}
< {"emit":"q","rows":[{"id":"a","n":7}]}
> {"do":"explain","name":"q"}
< {"actions":{"doNothing":1,"insertFirst":1,"removeFirstInsertFirst":2,"runFullQueryAgain":3},"asked":73,"changes":7,"full":3,"line":L,"ok":"explain"}

== a window behind all documents
. C(c) {"do":"observe","name":"q","in":"c","query":{"skip":2}}
< {"emit":"q","rows":[]}
. I(c,d,1) I(c,b,1) I(c,a,1)
< {"emit":"q","rows":[{"id":"d","n":1}]}
. I(c,e,1)
< {"emit":"q","rows":[{"id":"d","n":1},{"id":"e","n":1}]}
> {"do":"remove","in":"c","key":"b"}
< {"line":L,"ok":"remove","rev":"2-c"}
< {"emit":"q","rows":[{"id":"e","n":1}]}
> {"do":"remove","in":"c","key":"a"}
< {"line":L,"ok":"remove","rev":"2-c"}
< {"emit":"q","rows":[]}
> {"do":"bulk","in":"c","docs":[{"id":"a"},{"id":"b"}]}
< {"line":L,"ok":"bulk","revs":["3-c","3-c"]}
< {"emit":"q","rows":[{"id":"d","n":1},{"id":"e","n":1}]}
> {"do":"explain","name":"q"}
< {"actions":{"insertLast":1,"removeFirstItem":2,"runFullQueryAgain":5},"asked":78,"changes":8,"full":5,"line":L,"ok":"explain"}

== a change that no query of the collection sees counts, and one of another collection doesn't
. C(c) C(d) {"do":"observe","name":"q","in":"c","query":{"selector":{"n":1}}}
< {"emit":"q","rows":[]}
. I(d,a,1) I(c,a,2)
> {"do":"bulk","in":"c","docs":[]}
< {"line":L,"ok":"bulk","revs":[]}
> {"do":"explain","name":"q"}
< {"actions":{"doNothing":1},"asked":6,"changes":1,"full":0,"line":L,"ok":"explain"}

== a query that is forgotten emits no more, and its name is free
. C(c) {"do":"observe","name":"q","in":"c","query":{}}
< {"emit":"q","rows":[]}
. {"do":"observe","name":"p","in":"c","query":{}}
< {"emit":"p","rows":[]}
. {"do":"observe","name":"o","in":"c","query":{}}
< {"emit":"o","rows":[]}
. I(c,a,1)
< {"emit":"q","rows":[{"id":"a","n":1}]}
< {"emit":"p","rows":[{"id":"a","n":1}]}
< {"emit":"o","rows":[{"id":"a","n":1}]}
. {"do":"unobserve","name":"q"}
> {"do":"unobserve","name":"q"}
< {"code":17,"line":L,"refused":"no_query"}
> {"do":"explain","name":"q"}
< {"code":17,"line":L,"refused":"no_query"}
> {"do":"remove","in":"c","key":"a"}
< {"line":L,"ok":"remove","rev":"2-c"}
< {"emit":"p","rows":[]}
< {"emit":"o","rows":[]}
. {"do":"observe","name":"q","in":"c","query":{}}
< {"emit":"q","rows":[]}
> {"do":"explain","name":"q"}
< {"actions":{},"asked":0,"changes":0,"full":0,"line":L,"ok":"explain"}
. I(c,b,1)
< {"emit":"p","rows":[{"id":"b","n":1}]}
< {"emit":"o","rows":[{"id":"b","n":1}]}
< {"emit":"q","rows":[{"id":"b","n":1}]}

// Observed queries outlive an opening.
== a query is cold after an opening, and emits with its next change
. C(c) I(c,a,1) {"do":"observe","name":"q","in":"c","query":{}}
< {"emit":"q","rows":[{"id":"a","n":1}]}
> {"do":"restart"}
< {"epoch":2,"line":L,"ok":"restart"}
> {"do":"patch","in":"c","key":"a","set":{"n":2}}
< {"line":L,"ok":"patch","rev":"2-c"}
< {"emit":"q","rows":[{"id":"a","n":2}]}
> {"do":"explain","name":"q"}
< {"actions":{"runFullQueryAgain":1},"asked":4,"changes":1,"full":1,"line":L,"ok":"explain"}

== counts and the last emitted result stay, and the second change finds the query warm
. C(c) {"do":"observe","name":"q","in":"c","query":{}}
< {"emit":"q","rows":[]}
. I(c,a,1)
< {"emit":"q","rows":[{"id":"a","n":1}]}
> {"do":"restart"}
< {"epoch":2,"line":L,"ok":"restart"}
> {"do":"explain","name":"q"}
< {"actions":{"insertFirst":1},"asked":6,"changes":1,"full":0,"line":L,"ok":"explain"}
> {"do":"patch","in":"c","key":"a","set":{}}
< {"line":L,"ok":"patch","rev":"2-c"}
> {"do":"explain","name":"q"}
< {"actions":{"insertFirst":1,"runFullQueryAgain":1},"asked":10,"changes":2,"full":1,"line":L,"ok":"explain"}
> {"do":"restart"}
< {"epoch":3,"line":L,"ok":"restart"}
> {"do":"bulk","in":"c","docs":[{"id":"b"},{"id":"d"}]}
< {"line":L,"ok":"bulk","revs":["1-c","1-c"]}
< {"emit":"q","rows":[{"id":"a","n":1},{"id":"b"},{"id":"d"}]}
> {"do":"explain","name":"q"}
< {"actions":{"insertFirst":1,"insertLast":1,"runFullQueryAgain":2},"asked":27,"changes":4,"full":2,"line":L,"ok":"explain"}

== the present moment stays, and what was stored
. C(c) {"do":"tick","at":50} I(c,a,1) {"do":"tick","at":70}
> {"do":"restart"}
< {"epoch":2,"line":L,"ok":"restart"}
> C(c)
< {"line":L,"new":false,"ok":"collection"}
> I(c,a,1)
< {"code":14,"line":L,"refused":"conflict","rev":"1-c"}
. I(c,b,1)
> {"do":"get","in":"c","key":"b"}
< {"doc":{"id":"b","n":1},"line":L,"lwt":70,"ok":"get","rev":"1-c"}
$ run journal
> {"do":"restart"}
< {"epoch":4,"line":L,"ok":"restart"}
> {"do":"get","in":"c","key":"a"}
< {"doc":{"id":"a","n":1},"line":L,"lwt":50,"ok":"get","rev":"1-c"}
> {"do":"explain","name":"q"}
< {"code":17,"line":L,"refused":"no_query"}
"#;
