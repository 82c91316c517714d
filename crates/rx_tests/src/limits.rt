// How many collections and observed queries there may be.
pub const CASES: &str = r#"
== as many as may be
‹0..64|
|. C(c#)›
‹0..256|
|. {"do":"observe","name":"q#","in":"c0","query":{}}
< {"emit":"q#","rows":[]}›
> C(x)
< {"code":23,"line":L,"refused":"too_many"}
> C(c0)
< {"line":L,"new":false,"ok":"collection"}
> {"do":"collection","name":"c0","schema":S2}
< {"code":12,"line":L,"refused":"schema_differs"}
> {"do":"collection","name":"x","schema":[]}
< {"cause":"not_object","code":11,"line":L,"refused":"schema"}
> {"do":"observe","name":"x","in":"c0","query":{}}
< {"code":23,"line":L,"refused":"too_many"}
> {"do":"observe","name":"x","in":"c0","query":[]}
< {"cause":"not_object","code":16,"line":L,"refused":"query"}
> {"do":"observe","name":"q255","in":"c0","query":{}}
< {"code":9,"line":L,"refused":"exists"}
> {"do":"observe","name":"x","in":"x","query":{}}
< {"code":10,"line":L,"name":"x","refused":"no_collection"}
. I(c63,a,1)
$ run journal
> C(x)
< {"code":23,"line":L,"refused":"too_many"}
> {"do":"count","in":"c63","query":{}}
< {"count":1,"line":L,"ok":"count"}
"#;
