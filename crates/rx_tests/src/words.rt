// The words of a command. `''` is a word without a byte.
pub const CASES: &str = r#"
== no word at all
$
< {"stop":"usage"}

== words that are no command
$ ¤1
< {"stop":"usage"}
| run
| run ''
| journal
| Run journal
| run -j
| run -
| run j k
| fly j
| check
| check j k
| check j --max-journal 23
| serve j c 80
| serve j c 80 1 2
| serve j C 80 1
| serve j c 0 1
| serve j c 65536 1
| serve j c 80 0
| serve j c 80 1000001
| trial j 1
| trial j 1 0 0
| trial j 18446744073709551616 0
| trial j 1 1000001
| trial j -1 0
| compact j
| compact j k l
| --help

== words that give no limit
$ ¤1
< {"stop":"usage"}
| run j --max-journal
| run j --max-journal 8
| run j --max-journal 4294967296
| run j --max-journal 99999999999999999999999
| run j --max-journal -9
| run j --max-journal +9
| run j --max-journal 9x
| run j --max-journal 9.0
| run j --max-journal=
| run j --max-journal=8
| run j --max-journal =23
| run j --max-journal 23 --max-journal 23
| run j --max-journal=23 --max-journal 23
| --max-journal 23 run j
| --max-journal=23 run j
| run --max-journal 23
| run --max-journal j
| run j --max-journal 23 k
| run j --max-journa 23
| run j --max-journals=23
| run j -max-journal 23

== a limit stands behind the command, before or behind the path
$ run j --max-journal 23
= 'RXJOURN1' 01 00000009 05 0000000000000001 00

== a limit behind an equals sign
$ run j --max-journal=23
= 'RXJOURN1' 01 00000009 05 0000000000000001 00

== a limit before the path
$ run --max-journal 23 j
= 'RXJOURN1' 01 00000009 05 0000000000000001 00

== a limit behind an equals sign before the path
$ run --max-journal=23 j
= 'RXJOURN1' 01 00000009 05 0000000000000001 00

== a limit with zeros in front
$ run j --max-journal 00000000000000000000000000000023
= 'RXJOURN1' 01 00000009 05 0000000000000001 00

== a path may be any word that does not begin with a hyphen
$ run run
= 'RXJOURN1' 01 00000009 05 0000000000000001 00
$ run j-é=--max-journal
= 'RXJOURN1' 01 00000009 05 0000000000000001 01 00000009 05 0000000000000002 00
"#;
