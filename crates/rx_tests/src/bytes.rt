// Scripts in pieces of any size, of long lines, deep ones, and bytes that no text of cases holds.
pub const CASES: &str = r#"
== a script is played alike in pieces of any size
: ¤1
. C(c) {"do":"observe","name":"q","in":"c","query":{"selector":{"n":1}}}
< {"emit":"q","rows":[]}
. I(c,a,1)
< {"emit":"q","rows":[{"id":"a","n":1}]}
> {"do":"fly"}
< {"code":4,"line":L,"name":"fly","refused":"unknown_do"}
| 1
| 2
| 3
| 64
| 4096

// The first line is as long as may be, and the second one has a space more.
== a line that is too long is refused and the script goes on
> ‹0..16384||                                                                ›
>  ‹0..16384||                                                                ›
< {"code":1,"line":L,"refused":"too_long"}
. {"do":"tick","at":5}

// The other bytes of the line are twenty.
== the longest line is played
> {"do":"tick","at":5‹0..16383||                                                                ›                                            }
< {"line":L,"ok":"tick"}
> {"do":"tick","at":5‹0..16383||                                                                ›                                             }
< {"code":1,"line":L,"refused":"too_long"}

== a line nests 127 levels deep at most
> [‹0..126||[›‹0..126||]›]
< {"code":3,"line":L,"refused":"not_object"}
> [[‹0..126||[›‹0..126||]›]]
< {"code":2,"line":L,"refused":"not_json"}
> {"do":"tick","at":‹0..126||[›‹0..126||]›}
< {"code":7,"line":L,"name":"at","refused":"wrong_type"}
> {"do":"tick","at":[‹0..126||[›‹0..126||]›]}
< {"code":2,"line":L,"refused":"not_json"}

// Bytes that are no UTF-8, a byte order mark, a 0, and spaces that make no line blank; lines that
// end by a return too, and a last line without an end.
== blank lines count and the last line needs no end
: ¤1
- 0a 20090d0a 22ff220a efbbbf '{}' 0a 0b0a 0c0a 09 '{"do":"tick","at":1}' 0d0a 000a c2a00a
- '{"do":"tick","at":2}' 2009
< {"code":2,"line":3,"refused":"not_json"}
< {"code":2,"line":4,"refused":"not_json"}
< {"code":2,"line":5,"refused":"not_json"}
< {"code":2,"line":6,"refused":"not_json"}
< {"line":7,"ok":"tick"}
< {"code":2,"line":8,"refused":"not_json"}
< {"code":2,"line":9,"refused":"not_json"}
< {"line":10,"ok":"tick"}
| 1
| 7
| 4096
"#;
