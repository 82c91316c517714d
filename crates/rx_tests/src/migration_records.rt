// Records of migrations that stand on the disk behind a document a, whose n is 1, and which no line
// may have written. They are taken or the journal is left alone.
//
// A row has a name, the length of the record, and the steps with their count or the collection with
// its schema; and where it is taken, the n of the document after it.
pub const CASES: &str = r#"
== steps that are taken
^ BASE 01 0000003e 02 00000001 'c' 0000000000000001 00000001 0000000000000001 00000001 'a' 00 00000002 00000002 'id' 02 00000001 'a' 00000001 'n' 01 0000000000000001
^ 01 ¤2 06 00000001 'c' 0000009a '{"indexes":[],"primaryKey":"id","properties":{"id":{"maxLength":20,"type":"string"},"n":{"type":"integer"}},"required":["id"],"type":"object","version":1}' ¤3 00
$ check journal
# 1 {"end":
$ run journal
> {"do":"get","in":"c","key":"a"}
< {"doc":{"id":"a","n":¤4},"line":L,"lwt":1,"ok":"get","rev":"1-c"}
| no steps | 000000a8 | 00000000 | 1
| a step of each kind | 000000d0 | 00000004 00 00000001 'z' 00000001 'y' 01 00000001 'n' 01 0000000000000005 02 00000001 'z' 03 00000001 'n' 0002 | 2
| 64 steps | 00000228 | 00000040 ‹0..64||02000000017a› | 1
| a name of 64 letters | 000000ed | 00000001 02 00000040 ‹0..64||61› | 1
| a text with the name of the key | 000000bb | 00000002 01 00000001 'z' 02 00000002 'id' 02 00000001 'z' | 1
| a number at the end of its range | 000000b7 | 00000001 01 00000001 'n' 01 001fffffffffffff | 1
| a factor of 1 | 000000b0 | 00000001 03 00000001 'n' 0001 | 1
| a factor of 1000 | 000000b0 | 00000001 03 00000001 'n' 03e8 | 1000
| a product in range | 000000d0 | 00000005 ‹0..5||03000000016e03e8› | 1000000000000000

== steps that are none
^ BASE 01 0000003e 02 00000001 'c' 0000000000000001 00000001 0000000000000001 00000001 'a' 00 00000002 00000002 'id' 02 00000001 'a' 00000001 'n' 01 0000000000000001
^ 01 ¤2 06 00000001 'c' 0000009a '{"indexes":[],"primaryKey":"id","properties":{"id":{"maxLength":20,"type":"string"},"n":{"type":"integer"}},"required":["id"],"type":"object","version":1}' ¤3 00
$ check journal
< {"stop":"not_journal"}
$ run journal
> {"do":"get","in":"c","key":"a"}
< {"stop":"not_journal"}
| 65 steps | 0000022e | 00000041 ‹0..64||02000000017a› 02 00000001 'z'
| one step more than is counted | 0000022e | 00000040 ‹0..64||02000000017a› 02 00000001 'z'
| one step less than is counted | 00000222 | 00000040 ‹0..63||02000000017a›
| as many steps as can be counted | 00000228 | ffffffff ‹0..64||02000000017a›
| a count that is cut short | 000000a7 | 000000
| no count | 000000a4 | 
| a name of 65 letters | 000000ee | 00000001 02 00000041 ‹0..64||61› 'a'
| the key is dropped | 000000af | 00000001 02 00000002 'id'
| the key is dropped by the last of 64 | 00000229 | 00000040 ‹0..63||02000000017a› 02 00000002 'id'
| the key is renamed | 000000b4 | 00000001 00 00000002 'id' 00000001 'z'
| a field is renamed over the key | 000000b4 | 00000001 00 00000001 'z' 00000002 'id'
| the key is set | 000000b5 | 00000001 01 00000002 'id' 02 00000001 'b'
| the key is scaled | 000000b1 | 00000001 03 00000002 'id' 0002
| a name that begins with a digit | 000000af | 00000001 02 00000002 '9a'
| a name that begins with an underscore | 000000af | 00000001 02 00000002 '_a'
| a name without a letter | 000000ad | 00000001 02 00000000
| a name with a sign | 000000b0 | 00000001 02 00000003 'a-b'
| a name of another letter | 000000af | 00000001 02 00000002 c3a9
| a name that is no UTF-8 | 000000ae | 00000001 02 00000001 ff
| a renamed field has no name | 000000b4 | 00000001 00 00000002 '9a' 00000001 'z'
| a field is renamed to no name | 000000b2 | 00000001 00 00000001 'z' 00000000
| a set field has no name | 000000b1 | 00000001 01 00000002 '9a' 00 01
| a scaled field has no name | 000000b1 | 00000001 03 00000002 '9a' 0002
| a length past the end | 000000ae | 00000001 02 ffffffff 'z'
| a step of kind 4 | 000000ae | 00000001 04 00000001 'z'
| a step of kind 255 | 000000ae | 00000001 ff 00000001 'z'
| a step without a byte | 000000a8 | 00000001
| a byte behind the steps | 000000af | 00000001 02 00000001 'z' 00
| a value of kind 3 | 000000b7 | 00000001 01 00000001 'n' 03 0000000000000001
| a flag that is neither 0 nor 1 | 000000b0 | 00000001 01 00000001 'n' 00 02
| a number out of its range | 000000b7 | 00000001 01 00000001 'n' 01 0020000000000000
| a number far out of it | 000000b7 | 00000001 01 00000001 'n' 01 8000000000000000
| a text that is no UTF-8 | 000000ba | 00000002 01 00000001 'z' 02 00000001 ff 02 00000001 'z'
| a factor of 0 | 000000b0 | 00000001 03 00000001 'n' 0000
| a factor of 1001 | 000000b0 | 00000001 03 00000001 'n' 03e9
| a factor of 65535 | 000000b0 | 00000001 03 00000001 'n' ffff
| a factor that is cut short | 000000af | 00000001 03 00000001 'n' 02
| a product out of range, dropped again | 000000de | 00000007 ‹0..5||03000000016e03e8› 03 00000001 'n' 03e8 02 00000001 'n'
| a field that is none of the schema's | 000000b3 | 00000001 00 00000001 'n' 00000001 'z'
| a number that becomes a flag | 000000b6 | 00000002 02 00000001 'n' 01 00000001 'n' 00 01

== schemas that are taken
^ BASE 01 0000003e 02 00000001 'c' 0000000000000001 00000001 0000000000000001 00000001 'a' 00 00000002 00000002 'id' 02 00000001 'a' 00000001 'n' 01 0000000000000001
^ 01 ¤2 06 ¤3 00000000 00
$ check journal
# 1 {"end":
$ run journal
> {"do":"get","in":"c","key":"a"}
< {"doc":{"id":"a","n":¤4},"line":L,"lwt":1,"ok":"get","rev":"1-c"}
| the next version | 000000a8 | 00000001 'c' 0000009a '{"indexes":[],"primaryKey":"id","properties":{"id":{"maxLength":20,"type":"string"},"n":{"type":"integer"}},"required":["id"],"type":"object","version":1}' | 1
| the number is bounded | 000000b4 | 00000001 'c' 000000a6 '{"indexes":[],"primaryKey":"id","properties":{"id":{"maxLength":20,"type":"string"},"n":{"maximum":1,"type":"integer"}},"required":["id"],"type":"object","version":1}' | 1

== schemas that are none
^ BASE 01 0000003e 02 00000001 'c' 0000000000000001 00000001 0000000000000001 00000001 'a' 00 00000002 00000002 'id' 02 00000001 'a' 00000001 'n' 01 0000000000000001
^ 01 ¤2 06 ¤3 00000000 00
$ check journal
< {"stop":"not_journal"}
$ run journal
> {"do":"get","in":"c","key":"a"}
< {"stop":"not_journal"}
| and bounded below the document's | 000000b4 | 00000001 'c' 000000a6 '{"indexes":[],"primaryKey":"id","properties":{"id":{"maxLength":20,"type":"string"},"n":{"maximum":0,"type":"integer"}},"required":["id"],"type":"object","version":1}'
| a collection that is not held | 000000a8 | 00000001 'd' 0000009a '{"indexes":[],"primaryKey":"id","properties":{"id":{"maxLength":20,"type":"string"},"n":{"type":"integer"}},"required":["id"],"type":"object","version":1}'
| a collection whose name is none | 000000a8 | 00000001 'C' 0000009a '{"indexes":[],"primaryKey":"id","properties":{"id":{"maxLength":20,"type":"string"},"n":{"type":"integer"}},"required":["id"],"type":"object","version":1}'
| the version that is held | 000000a8 | 00000001 'c' 0000009a '{"indexes":[],"primaryKey":"id","properties":{"id":{"maxLength":20,"type":"string"},"n":{"type":"integer"}},"required":["id"],"type":"object","version":0}'
| the version behind the next | 000000a8 | 00000001 'c' 0000009a '{"indexes":[],"primaryKey":"id","properties":{"id":{"maxLength":20,"type":"string"},"n":{"type":"integer"}},"required":["id"],"type":"object","version":2}'
| the last version | 000000ac | 00000001 'c' 0000009e '{"indexes":[],"primaryKey":"id","properties":{"id":{"maxLength":20,"type":"string"},"n":{"type":"integer"}},"required":["id"],"type":"object","version":65535}'
| a version that is none | 000000ac | 00000001 'c' 0000009e '{"indexes":[],"primaryKey":"id","properties":{"id":{"maxLength":20,"type":"string"},"n":{"type":"integer"}},"required":["id"],"type":"object","version":65537}'
| members in another order | 000000a8 | 00000001 'c' 0000009a '{"primaryKey":"id","indexes":[],"properties":{"id":{"maxLength":20,"type":"string"},"n":{"type":"integer"}},"required":["id"],"type":"object","version":1}'
| a member less | 0000009b | 00000001 'c' 0000008d '{"primaryKey":"id","properties":{"id":{"maxLength":20,"type":"string"},"n":{"type":"integer"}},"required":["id"],"type":"object","version":1}'
| another key | 000000cb | 00000001 'c' 000000bd '{"indexes":[],"primaryKey":"k","properties":{"id":{"maxLength":20,"type":"string"},"k":{"maxLength":20,"type":"string"},"n":{"type":"integer"}},"required":["k"],"type":"object","version":1}'
| a field less | 00000091 | 00000001 'c' 00000083 '{"indexes":[],"primaryKey":"id","properties":{"id":{"maxLength":20,"type":"string"}},"required":["id"],"type":"object","version":1}'
| a flag of that name | 000000a8 | 00000001 'c' 0000009a '{"indexes":[],"primaryKey":"id","properties":{"id":{"maxLength":20,"type":"string"},"n":{"type":"boolean"}},"required":["id"],"type":"object","version":1}'
| a flag that is required besides | 000000c3 | 00000001 'c' 000000b5 '{"indexes":[],"primaryKey":"id","properties":{"id":{"maxLength":20,"type":"string"},"n":{"type":"integer"},"o":{"type":"boolean"}},"required":["id","o"],"type":"object","version":1}'
| no schema | 00000010 | 00000001 'c' 00000002 '{}'
| no JSON | 0000000f | 00000001 'c' 00000001 '{'
| no text | 0000000e | 00000001 'c' 00000000
"#;
