// Masters elsewhere that answer what they shouldn't. The exchange is lost by its name, nothing is
// written, and the next turn is the one that was due: over a right reply it goes on and is quiet.
//
// A character that a master sends stands for the byte of its number.
use crate::case::play_all;
use crate::random::Random;
use std::alloc::{AllocError, Global};
use std::test::Fail;

#[test]
fn a_turn_goes_on_after_any_reply(rt: HostRuntime) -> Result<(), Fail> {
    for text in [FIRST, PULLED, PUSHED] {
        play_all(rt.alloc(), "any reply", text)?;
    }
    Ok(())
}

#[test]
fn a_turn_goes_on_after_bytes_at_random(rt: HostRuntime) -> Result<(), Fail> {
    for template in [PULLED, PUSHED] {
        play_random(rt.alloc(), template)?;
    }
    Ok(())
}

// Plays the case of a text with bytes that are no UTF-8 in place of its rows: some that no text of
// cases holds, and then any.
fn play_random(alloc: Global, template: &str) -> Result<(), Fail> {
    let (facts, _) = template.split_once("\n| ").unwrap_or((template, ""));
    let mut text = String::from_str(alloc, facts)?;
    text.push_str("\n| @ \u{ff}\u{fe}\u{0} | reply")?;
    let mut random = Random::new(104_729);
    for _ in 0..16 {
        add_random_row(&mut random, &mut text)?;
    }
    play_all(alloc, "bytes at random", text.as_str())
}

// Any bytes but those that end a line.
fn add_random_row(random: &mut Random, text: &mut String) -> Result<(), AllocError> {
    text.push_str("\n| @ ")?;
    for _ in 0..random.below(200) {
        let byte = u8::try_from(random.below(256)).unwrap_or(b'?');
        if byte != b'\n' && byte != b'\r' {
            text.push(char::from(byte))?;
        }
    }
    text.push_str(" | reply")
}

const FIRST: &str = r#"// Before anything was replicated, a pull is answered.
== the first pull
. C(f) {"do":"replicate","name":"r","fork":"f","port":4001,"handler":"master_wins"}
> {"do":"turn","name":"r"}
+
¤1
& {"ask":"pull","batch":100,"epoch":1,"n":1,"schema":"d3965597d0b8e1c41da9b2dc759684814b6376a695e3324ffc338dfea45c31a5"}
< {"exchange":1,"lost":"¤2","sent":"pull"}
< {"end":"lost","exchanges":1,"line":L,"ok":"turn"}
> {"do":"turn","name":"r"}
+
@ {"docs":[],"epoch":1,"n":2}
& {"ask":"pull","batch":100,"epoch":1,"n":2,"schema":"d3965597d0b8e1c41da9b2dc759684814b6376a695e3324ffc338dfea45c31a5"}
< {"exchange":1,"rows":[],"sent":"pull"}
< {"end":"quiet","exchanges":1,"line":L,"ok":"turn"}
= 'RXJOURN1' 01 00000009 05 0000000000000001 01 000000a4 01 00000001 'f' 0000009a
= '{"indexes":[],"primaryKey":"id","properties":{"id":{"maxLength":20,"type":"string"},"n":{"type":"integer"}},"required":["id"],"type":"object","version":0}'
= 01 0000001e 03 00000001 'r' 00000001 'f' 01 0fa1 0000000b 'master_wins' 00
= 00
// Documents without a place.
| @ {"docs":[{"_deleted":false,"id":"a"}],"epoch":1,"n":1} | bad_reply
// A place without documents.
| @ {"docs":[],"epoch":1,"n":1,"place":{"id":"a","lwt":1}} | bad_reply
// A push's reply.
| @ {"conflicts":[],"epoch":1,"n":1} | bad_reply
// Another spelling.
| @ { "docs":[],"epoch":1,"n":1} | reply
// A peer that ends at once.
|  | reply
// Another epoch.
| @ {"docs":[],"epoch":2,"n":1} | foreign
// Another number.
| @ {"docs":[],"epoch":1,"n":2} | foreign
"#;

const PULLED: &str = r#"
== a pull of two documents behind those that are known
. C(c) {"do":"replicate","name":"r","fork":"c","port":4001,"handler":"master_wins"}
> {"do":"turn","name":"r","batch":2}
+
@ {"docs":[{"_deleted":false,"id":"b","n":1}],"epoch":1,"n":1,"place":{"id":"b","lwt":5}}
& {"ask":"pull","batch":2,"epoch":1,"n":1,"schema":"d3965597d0b8e1c41da9b2dc759684814b6376a695e3324ffc338dfea45c31a5"}
< {"exchange":1,"place":{"id":"b","lwt":5},"rows":["b"],"sent":"pull"}
< {"end":"quiet","exchanges":1,"line":L,"ok":"turn"}
> {"do":"turn","name":"r","batch":2}
+
¤1
& {"ask":"pull","batch":2,"epoch":1,"n":2,"place":{"id":"b","lwt":5},"schema":"d3965597d0b8e1c41da9b2dc759684814b6376a695e3324ffc338dfea45c31a5"}
< {"exchange":1,"lost":"¤2","sent":"pull"}
< {"end":"lost","exchanges":1,"line":L,"ok":"turn"}
> {"do":"changes","in":"c"}
< {"docs":[{"_deleted":false,"id":"b","n":1}],"line":L,"ok":"changes","place":{"id":"b","lwt":1}}
> {"do":"turn","name":"r","batch":2}
+
@ {"docs":[{"_deleted":false,"id":"c","n":3}],"epoch":1,"n":3,"place":{"id":"c","lwt":6}}
& {"ask":"pull","batch":2,"epoch":1,"n":3,"place":{"id":"b","lwt":5},"schema":"d3965597d0b8e1c41da9b2dc759684814b6376a695e3324ffc338dfea45c31a5"}
< {"exchange":1,"place":{"id":"c","lwt":6},"rows":["c"],"sent":"pull"}
< {"end":"quiet","exchanges":1,"line":L,"ok":"turn"}
= BASE 01 0000001e 03 00000001 'r' 00000001 'c' 01 0fa1 0000000b 'master_wins' 00
= 01 00000075 04 00000001 'r' 0000000000000001 00000001
= 0000000000000001 00000001 'b' 00 00000002 00000002 'id' 02 00000001 'b' 00000001 'n' 01 0000000000000001
= 00000001 00000001 'b' 00 00000002 00000002 'id' 02 00000001 'b' 00000001 'n' 01 0000000000000001
= 00 01 0000000000000005 00000001 'b'
= 01 00000075 04 00000001 'r' 0000000000000002 00000001
= 0000000000000001 00000001 'c' 00 00000002 00000002 'id' 02 00000001 'c' 00000001 'n' 01 0000000000000003
= 00000001 00000001 'c' 00 00000002 00000002 'id' 02 00000001 'c' 00000001 'n' 01 0000000000000003
= 00 01 0000000000000006 00000001 'c'
= 00
| @ {"docs":[{"_deleted":false,"id":"c","n":3}],"epoch":1,"n":2} | bad_reply
| @ {"docs":[],"epoch":1,"n":2} | bad_reply
| @ {"docs":[],"epoch":1,"n":2,"place":{"id":"b","lwt":4}} | bad_reply
| @ {"docs":[],"epoch":1,"n":2,"place":{"id":"b","lwt":6}} | bad_reply
| @ {"docs":[],"epoch":1,"n":2,"place":{"id":"c","lwt":5}} | bad_reply
| @ {"docs":[{"_deleted":false,"id":"c","n":3}],"epoch":1,"n":2,"place":{"id":"c","lwt":4}} | bad_reply
| @ {"docs":[{"_deleted":false,"id":"a","n":3}],"epoch":1,"n":2,"place":{"id":"a","lwt":5}} | bad_reply
| @ {"docs":[{"_deleted":false,"id":"b","n":3}],"epoch":1,"n":2,"place":{"id":"b","lwt":5}} | bad_reply
| @ {"docs":[{"_deleted":false,"id":"c","n":3}],"epoch":1,"n":2,"place":{"id":"d","lwt":6}} | bad_reply
| @ {"docs":[{"_deleted":false,"id":"c","n":3},{"_deleted":false,"id":"d"}],"epoch":1,"n":2,"place":{"id":"c","lwt":6}} | bad_reply
| @ {"docs":[{"_deleted":false,"id":"c"},{"_deleted":false,"id":"d"},{"_deleted":false,"id":"e"}],"epoch":1,"n":2,"place":{"id":"e","lwt":6}} | bad_reply
| @ {"conflicts":[],"epoch":1,"n":2} | bad_reply
| @ {"conflicts":[{"_deleted":false,"id":"b","n":1}],"epoch":1,"n":2} | bad_reply
// A key twice, and states that no document can have.
| @ {"docs":[{"_deleted":false,"id":"c"},{"_deleted":true,"id":"c"}],"epoch":1,"n":2,"place":{"id":"c","lwt":6}} | reply
| @ {"docs":[{"_deleted":false,"id":"c","z":3}],"epoch":1,"n":2,"place":{"id":"c","lwt":6}} | reply
| @ {"docs":[{"_deleted":false,"n":3}],"epoch":1,"n":2,"place":{"id":"c","lwt":6}} | reply
| @ {"docs":[{"_deleted":false,"id":"","n":3}],"epoch":1,"n":2,"place":{"id":"","lwt":6}} | reply
| @ {"docs":[{"_deleted":false,"id":"c","n":"3"}],"epoch":1,"n":2,"place":{"id":"c","lwt":6}} | reply
| @ {"docs":[{"_deleted":false,"id":"c","n":9007199254740992}],"epoch":1,"n":2,"place":{"id":"c","lwt":6}} | reply
| @ {"docs":[{"_deleted":false,"id":"c","n":null}],"epoch":1,"n":2,"place":{"id":"c","lwt":6}} | reply
| @ {"docs":[{"id":"c","n":3}],"epoch":1,"n":2,"place":{"id":"c","lwt":6}} | reply
| @ {"docs":[{"_deleted":0,"id":"c"}],"epoch":1,"n":2,"place":{"id":"c","lwt":6}} | reply
| @ {"docs":["c"],"epoch":1,"n":2,"place":{"id":"c","lwt":6}} | reply
// No line of the grammar, or one in another spelling.
| @ {"docs":[],"epoch":1,"n":2,"place":{"id":"b","lwt":5}}  | reply
| @ {"docs":[],"epoch":1,"place":{"id":"b","lwt":5},"n":2} | reply
| @ {"docs":[],"docs":[],"epoch":1,"n":2,"place":{"id":"b","lwt":5}} | reply
| @ {"docs":[],"epoch":1,"n":2,"place":{"id":"\u0062","lwt":5}} | reply
| @ {"docs":[],"epoch":1,"n":2,"place":{"id":"b","lwt":5,"up":1}} | reply
| @ {"docs":[],"epoch":1,"n":2,"place":{"id":"b","lwt":0}} | reply
| @ {"docs":[],"epoch":1,"n":2.0,"place":{"id":"b","lwt":5}} | reply
| @ {"docs":[],"epoch":1,"more":false,"n":2,"place":{"id":"b","lwt":5}} | reply
| @ {"docs":[],"epoch":1,"place":{"id":"b","lwt":5}} | reply
| @ {"docs":[],"epoch":1,"n":2,"place":{"id":"b","lwt":5} | reply
| @ {"fault":"schema"} | reply
| @ {"ask":"pull","batch":2,"epoch":1,"n":2,"place":{"id":"b","lwt":5},"schema":"d3965597d0b8e1c41da9b2dc759684814b6376a695e3324ffc338dfea45c31a5"} | reply
| @ [] | reply
| @  | reply
// Bytes that are no UTF-8, alone, behind a byte order mark, and within a text.
| @ ï»¿{"docs":[],"epoch":1,"n":2,"place":{"id":"b","lwt":5}} | reply
| @ {"docs":[{"_deleted":false,"id":"Ã"}],"epoch":1,"n":2,"place":{"id":"Ã","lwt":6}} | reply
// Replies to other requests, which are told before what is wrong with them.
| @ {"docs":[],"epoch":2,"n":2,"place":{"id":"b","lwt":5}} | foreign
| @ {"docs":[{"_deleted":false,"id":"b","n":1}],"epoch":1,"n":1,"place":{"id":"b","lwt":5}} | foreign
| @ {"conflicts":[],"epoch":1,"n":3} | foreign
// Lines without an end: at once, within it, before a line feed, and after a megabyte.
|  | reply
| ~ {"docs":[],"epoch":1 | reply
| ~ {"docs":[],"epoch":1,"n":2,"place":{"id":"b","lwt":5}} | reply
| ~ ‹0..16384||aaaaaaaaaaaaaaaaaaaaaaaaaaaaaaaaaaaaaaaaaaaaaaaaaaaaaaaaaaaaaaaa› | reply
// Lines that are long or deep, and one document more than a reply may have.
| @ ‹0..16384||aaaaaaaaaaaaaaaaaaaaaaaaaaaaaaaaaaaaaaaaaaaaaaaaaaaaaaaaaaaaaaaa› | reply
| @ ‹0..1000||[[[[[[[[[[[[[[[[[[[[[[[[[[[[[[[[[[[[[[[[[[[[[[[[[[[[[[[[[[[[[[[[[[[[[[[[[[[[[[[[[[[[[[[[[[[[[[[[[[[[› | reply
| @ {"docs":[‹100..201|,|{"_deleted":false,"id":"d#"}›],"epoch":1,"n":2,"place":{"id":"d200","lwt":6}} | reply
"#;

const PUSHED: &str = r#"
== a push of two documents
. C(c) {"do":"replicate","name":"r","fork":"c","port":4001,"handler":"master_wins"}
. I(c,a,2) I(c,b,3)
> {"do":"turn","name":"r"}
+
¤1
& {"ask":"push","epoch":1,"n":1,"rows":[{"new":{"_deleted":false,"id":"a","n":2}},{"new":{"_deleted":false,"id":"b","n":3}}],"schema":"d3965597d0b8e1c41da9b2dc759684814b6376a695e3324ffc338dfea45c31a5"}
< {"exchange":1,"lost":"¤2","rows":["a","b"],"sent":"push"}
< {"end":"lost","exchanges":1,"line":L,"ok":"turn"}
> {"do":"changes","in":"c"}
< {"docs":[{"_deleted":false,"id":"a","n":2},{"_deleted":false,"id":"b","n":3}],"line":L,"ok":"changes","place":{"id":"b","lwt":2}}
> {"do":"turn","name":"r"}
+
@ {"conflicts":[],"epoch":1,"n":2}
@ {"docs":[{"_deleted":false,"id":"a","n":2},{"_deleted":false,"id":"b","n":3}],"epoch":1,"n":3,"place":{"id":"b","lwt":9}}
& {"ask":"push","epoch":1,"n":2,"rows":[{"new":{"_deleted":false,"id":"a","n":2}},{"new":{"_deleted":false,"id":"b","n":3}}],"schema":"d3965597d0b8e1c41da9b2dc759684814b6376a695e3324ffc338dfea45c31a5"}
& {"ask":"pull","batch":100,"epoch":1,"n":3,"schema":"d3965597d0b8e1c41da9b2dc759684814b6376a695e3324ffc338dfea45c31a5"}
< {"conflicts":[],"exchange":1,"rows":["a","b"],"sent":"push"}
< {"exchange":2,"place":{"id":"b","lwt":9},"rows":["a","b"],"sent":"pull"}
< {"end":"quiet","exchanges":2,"line":L,"ok":"turn"}
= BASE 01 0000001e 03 00000001 'r' 00000001 'c' 01 0fa1 0000000b 'master_wins' 00
= 01 0000003e 02 00000001 'c' 0000000000000001 00000001
= 0000000000000001 00000001 'a' 00 00000002 00000002 'id' 02 00000001 'a' 00000001 'n' 01 0000000000000002
= 01 0000003e 02 00000001 'c' 0000000000000002 00000001
= 0000000000000001 00000001 'b' 00 00000002 00000002 'id' 02 00000001 'b' 00000001 'n' 01 0000000000000003
= 01 0000006d 04 00000001 'r' 0000000000000000 00000000 00000002
= 00000001 'a' 00 00000002 00000002 'id' 02 00000001 'a' 00000001 'n' 01 0000000000000002
= 00000001 'b' 00 00000002 00000002 'id' 02 00000001 'b' 00000001 'n' 01 0000000000000003
= 01 0000000000000002 00000001 'b' 00
= 01 0000007a 04 00000001 'r' 0000000000000000 00000000 00000002
= 00000001 'a' 00 00000002 00000002 'id' 02 00000001 'a' 00000001 'n' 01 0000000000000002
= 00000001 'b' 00 00000002 00000002 'id' 02 00000001 'b' 00000001 'n' 01 0000000000000003
= 01 0000000000000002 00000001 'b' 01 0000000000000009 00000001 'b'
= 00
| @ {"docs":[],"epoch":1,"n":1} | bad_reply
| @ {"conflicts":[{"_deleted":false,"id":"z","n":2}],"epoch":1,"n":1} | bad_reply
| @ {"conflicts":[{"_deleted":false,"id":"a","n":1},{"_deleted":false,"id":"b","n":1},{"_deleted":false,"id":"c","n":1}],"epoch":1,"n":1} | bad_reply
| @ {"conflicts":[{"_deleted":false,"id":"a","n":1},{"_deleted":false,"id":"a","n":1}],"epoch":1,"n":1} | reply
| @ {"conflicts":[{"_deleted":false,"id":"a","z":1}],"epoch":1,"n":1} | reply
| @ {"conflicts":[{"_deleted":false,"id":5}],"epoch":1,"n":1} | reply
| @ {"conflicts":[null],"epoch":1,"n":1} | reply
| @ {"conflicts":{},"epoch":1,"n":1} | reply
| @ {"conflicts":[], "epoch":1,"n":1} | reply
| @ {"conflicts":[],"docs":[],"epoch":1,"n":1} | reply
| @ {"conflicts":[],"epoch":1,"n":1,"place":{"id":"b","lwt":9}} | reply
| @ {"conflicts":[],"epoch":0,"n":1} | reply
| @ {"conflicts":[],"epoch":2,"n":1} | foreign
| @ {"conflicts":[],"epoch":1,"n":2} | foreign
// Lines without an end: at once, within it, before a line feed, and after a megabyte.
|  | reply
| ~ {"docs":[],"epoch":1 | reply
| ~ {"docs":[],"epoch":1,"n":2,"place":{"id":"b","lwt":5}} | reply
| ~ ‹0..16384||aaaaaaaaaaaaaaaaaaaaaaaaaaaaaaaaaaaaaaaaaaaaaaaaaaaaaaaaaaaaaaaa› | reply
// Lines that are long or deep, and one document more than a reply may have.
| @ ‹0..16384||aaaaaaaaaaaaaaaaaaaaaaaaaaaaaaaaaaaaaaaaaaaaaaaaaaaaaaaaaaaaaaaa› | reply
| @ ‹0..1000||[[[[[[[[[[[[[[[[[[[[[[[[[[[[[[[[[[[[[[[[[[[[[[[[[[[[[[[[[[[[[[[[[[[[[[[[[[[[[[[[[[[[[[[[[[[[[[[[[[[[› | reply
| @ {"docs":[‹100..201|,|{"_deleted":false,"id":"d#"}›],"epoch":1,"n":2,"place":{"id":"d200","lwt":6}} | reply
"#;
