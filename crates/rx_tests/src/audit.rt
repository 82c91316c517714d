// What the replies to a script say of a fork's writes, and whether one of them was lost. A write
// that was answered stands in the fork until it is written again, or an exchange names its key: a
// push as a conflict, which the handler settled, or a pull, which brings what the master wrote
// later. No pull comes, and no turn is quiet, while a write is still to be pushed.
//
// The documents have the keys k0 to k19, and a number and a text of one character at most. The
// fork's changes are asked for after each turn.
use std::alloc::{AllocError, Global};
use std::test::Fail;

const KEYS: usize = 20;

#[derive(Clone, Copy, PartialEq, Eq)]
struct State {
    deleted: bool,
    n: Option<char>,
    t: Option<char>,
}

// What the fork knows of the master, as far as the replies tell: nothing yet, its own state, one
// that it had before, or one that a conflict brought.
#[derive(Clone, Copy, PartialEq, Eq)]
enum Known {
    Nothing,
    Own,
    Before(State),
    Untold,
}

// A document of the fork. Its state isn't told between an exchange and the changes behind the turn.
#[derive(Clone, Copy)]
struct Document {
    state: Option<State>,
    known: Known,
}

/// A reply that can't be, with what is wrong about it.
#[derive(Debug, Drop)]
pub enum Fault {
    Memory,
    Wrong(String),
}

impl From<AllocError> for Fault {
    fn from(_: AllocError) -> Fault {
        Fault::Memory
    }
}

fn wrong(alloc: Global, what: &str, text: &str) -> Fault {
    match format!(in alloc; "{what}: {text}") {
        Ok(text) => Fault::Wrong(text),
        Err(_) => Fault::Memory,
    }
}

/// What was followed so far, and how much of it there was.
#[derive(Drop)]
pub struct Audit {
    alloc: Global,
    documents: Vec<Document>,
    is_quiet: bool,
    pub conflicts: u64,
    pub pushed: u64,
    pub pulled: u64,
    // How often a document of the fork was compared with what it has to be.
    pub compared: u64,
}

/// Follows a script by its output, to their ends.
pub fn follow(alloc: Global, script: &str, output: &str) -> Result<Audit, Fault> {
    let mut audit = Audit::new(alloc)?;
    let mut asked = script.lines();
    for line in output.lines() {
        if line.contains("\"sent\":\"") {
            audit.exchange(line)?;
        } else if let Some(asked) = asked.next() {
            audit.reply(asked, line)?;
        } else {
            return Err(wrong(alloc, "nothing asks for", line));
        }
    }
    match asked.next() {
        None => Ok(audit),
        Some(asked) => Err(wrong(alloc, "no reply to", asked)),
    }
}

impl Audit {
    fn new(alloc: Global) -> Result<Audit, AllocError> {
        let mut documents = Vec::new(alloc);
        for _ in 0..KEYS {
            documents.push(Document {
                state: None,
                known: Known::Nothing,
            })?;
        }
        Ok(Audit {
            alloc,
            documents,
            is_quiet: false,
            conflicts: 0,
            pushed: 0,
            pulled: 0,
            compared: 0,
        })
    }

    fn reply(&mut self, asked: &str, reply: &str) -> Result<(), Fault> {
        if reply.starts_with("{\"end\":") {
            self.is_quiet = reply.starts_with("{\"end\":\"quiet\"");
        } else if reply.starts_with("{\"docs\":") {
            self.changes(reply)?;
        } else if asked.contains("\"in\":\"f\"") && reply.contains("\"rev\":") {
            self.write(asked, reply);
        }
        Ok(())
    }

    // A refusal has a revision too.
    fn write(&mut self, asked: &str, reply: &str) {
        if let Some(document) = key_of(asked).and_then(|key| self.documents.get_mut(key)) {
            if reply.contains("\"ok\":") {
                *document = document.written(asked);
            }
        }
    }

    fn exchange(&mut self, line: &str) -> Result<(), Fault> {
        if line.contains("\"lost\":") {
            return Ok(());
        }
        if line.contains("\"sent\":\"push\"") {
            self.push(line)?;
        } else {
            self.pull(line)?;
        }
        Ok(())
    }

    // What was pushed is known, or in a conflict.
    fn push(&mut self, line: &str) -> Result<(), AllocError> {
        let rows = keys(self.alloc, line, "\"rows\":[")?;
        let conflicts = keys(self.alloc, line, "\"conflicts\":[")?;
        self.pushed = self.pushed.saturating_add(rows.len() as u64);
        self.conflicts = self.conflicts.saturating_add(conflicts.len() as u64);
        self.learn(rows.as_slice(), Known::Own);
        self.learn(conflicts.as_slice(), Known::Untold);
        self.leave_untold(conflicts.as_slice());
        Ok(())
    }

    fn pull(&mut self, line: &str) -> Result<(), Fault> {
        if self.documents.iter().any(|document| document.is_pending()) {
            return Err(wrong(self.alloc, "something is to be pushed before", line));
        }
        for document in self.documents.iter_mut() {
            document.known = Known::Own;
        }
        let rows = keys(self.alloc, line, "\"rows\":[")?;
        self.pulled = self.pulled.saturating_add(rows.len() as u64);
        self.leave_untold(rows.as_slice());
        Ok(())
    }

    fn learn(&mut self, keys: &[usize], known: Known) {
        for key in keys {
            if let Some(document) = self.documents.get_mut(*key) {
                document.known = known;
            }
        }
    }

    fn leave_untold(&mut self, keys: &[usize]) {
        for key in keys {
            if let Some(document) = self.documents.get_mut(*key) {
                document.state = None;
            }
        }
    }

    // The fork's documents are those that it was told it has.
    fn changes(&mut self, reply: &str) -> Result<(), Fault> {
        for text in reply.split("{\"_deleted\":").skip(1) {
            let found = state_of(text, text.starts_with("true"));
            let Some(document) = key_of(text).and_then(|key| self.documents.get_mut(key)) else {
                return Err(wrong(self.alloc, "no document has", text));
            };
            if document.state.is_some_and(|state| state != found) {
                return Err(wrong(self.alloc, "a write is gone from", text));
            }
            self.compared = self
                .compared
                .saturating_add(u64::from(document.state.is_some()));
            document.state = Some(found);
            if self.is_quiet && document.is_pending() {
                return Err(wrong(self.alloc, "to be pushed after a quiet turn", text));
            }
        }
        Ok(())
    }
}

impl Document {
    // A write that gives back the state that is known leaves nothing to be pushed.
    fn written(self, asked: &str) -> Document {
        let state = self.after(asked);
        let known = match self.known {
            Known::Own => self.state.map_or(Known::Nothing, Known::Before),
            known => known,
        };
        let is_back = state.is_some_and(|state| known == Known::Before(state));
        Document {
            state,
            known: if is_back { Known::Own } else { known },
        }
    }

    // An upsert replaces the fields, a patch sets the number, and a removal keeps them.
    fn after(self, asked: &str) -> Option<State> {
        let told = state_of(asked, false);
        if asked.contains("\"doc\":") {
            return Some(told);
        }
        let state = self.state?;
        if asked.contains("\"set\":") {
            Some(State { n: told.n, ..state })
        } else {
            Some(State {
                deleted: true,
                ..state
            })
        }
    }

    fn is_pending(&self) -> bool {
        match self.known {
            Known::Nothing | Known::Before(_) => self.state.is_some(),
            Known::Own | Known::Untold => false,
        }
    }
}

// The first key that stands as a member's value.
fn key_of(text: &str) -> Option<usize> {
    let (_, rest) = text.split_once(":\"k")?;
    let (number, _) = rest.split_once('"')?;
    number.parse().ok()
}

// The keys of the list that begins so.
fn keys(alloc: Global, line: &str, begin: &str) -> Result<Vec<usize>, AllocError> {
    let mut keys = Vec::new(alloc);
    let (_, rest) = line.split_once(begin).unwrap_or(("", ""));
    let (list, _) = rest.split_once(']').unwrap_or((rest, ""));
    for word in list.split('"') {
        if let Some(number) = word.strip_prefix('k') {
            if let Ok(key) = number.parse() {
                keys.push(key)?;
            }
        }
    }
    Ok(keys)
}

fn state_of(text: &str, deleted: bool) -> State {
    State {
        deleted,
        n: first_after(text, "\"n\":"),
        t: first_after(text, "\"t\":\""),
    }
}

fn first_after(text: &str, mark: &str) -> Option<char> {
    text.split_once(mark)?.1.chars().next()
}

const SCRIPT: &str = r#"{"do":"upsert","in":"f","doc":{"id":"k1","n":1}}
{"do":"turn","name":"r"}
{"do":"changes","in":"f"}
"#;

// What that script may be answered, and what it may not.
const SOUND: &str = r#"
== pushed
{"line":1,"ok":"upsert","rev":"1-f"}
{"conflicts":[],"exchange":1,"rows":["k1"],"sent":"push"}
{"exchange":2,"rows":["k1"],"sent":"pull"}
{"end":"quiet","exchanges":2,"line":2,"ok":"turn"}
{"docs":[{"_deleted":false,"id":"k1","n":1}],"line":3,"ok":"changes"}
== written by the master after the push
{"line":1,"ok":"upsert","rev":"1-f"}
{"conflicts":[],"exchange":1,"rows":["k1"],"sent":"push"}
{"exchange":2,"rows":["k1"],"sent":"pull"}
{"end":"quiet","exchanges":2,"line":2,"ok":"turn"}
{"docs":[{"_deleted":false,"id":"k1","n":2}],"line":3,"ok":"changes"}
== in a conflict
{"line":1,"ok":"upsert","rev":"1-f"}
{"conflicts":["k1"],"exchange":1,"rows":["k1"],"sent":"push"}
{"end":"more","exchanges":1,"line":2,"ok":"turn"}
{"docs":[{"_deleted":true,"id":"k1","n":2}],"line":3,"ok":"changes"}
== lost on its way
{"line":1,"ok":"upsert","rev":"1-f"}
{"exchange":1,"lost":"lose_reply","rows":["k1"],"sent":"push"}
{"end":"lost","exchanges":1,"line":2,"ok":"turn"}
{"docs":[{"_deleted":false,"id":"k1","n":1}],"line":3,"ok":"changes"}"#;

const LOST: &str = r#"
== pulled over
{"line":1,"ok":"upsert","rev":"1-f"}
{"exchange":1,"rows":["k1"],"sent":"pull"}
{"end":"quiet","exchanges":1,"line":2,"ok":"turn"}
{"docs":[{"_deleted":false,"id":"k1","n":2}],"line":3,"ok":"changes"}
== not pushed before a pull
{"line":1,"ok":"upsert","rev":"1-f"}
{"exchange":1,"rows":[],"sent":"pull"}
{"end":"more","exchanges":1,"line":2,"ok":"turn"}
{"docs":[{"_deleted":false,"id":"k1","n":1}],"line":3,"ok":"changes"}
== not pushed by a quiet turn
{"line":1,"ok":"upsert","rev":"1-f"}
{"end":"quiet","exchanges":0,"line":2,"ok":"turn"}
{"docs":[{"_deleted":false,"id":"k1","n":1}],"line":3,"ok":"changes"}
== gone once it was pushed
{"line":1,"ok":"upsert","rev":"1-f"}
{"conflicts":[],"exchange":1,"rows":["k1"],"sent":"push"}
{"exchange":2,"rows":[],"sent":"pull"}
{"end":"quiet","exchanges":2,"line":2,"ok":"turn"}
{"docs":[{"_deleted":false,"id":"k1","n":2}],"line":3,"ok":"changes"}
== gone by an exchange that was lost
{"line":1,"ok":"upsert","rev":"1-f"}
{"exchange":1,"lost":"lose_reply","rows":["k1"],"sent":"push"}
{"end":"lost","exchanges":1,"line":2,"ok":"turn"}
{"docs":[{"_deleted":true,"id":"k1","n":1}],"line":3,"ok":"changes"}
== no reply to the last line
{"line":1,"ok":"upsert","rev":"1-f"}
{"conflicts":[],"exchange":1,"rows":["k1"],"sent":"push"}
{"end":"more","exchanges":1,"line":2,"ok":"turn"}"#;

#[test]
fn a_lost_write_is_found(rt: HostRuntime) -> Result<(), Fail> {
    assert_eq!(rt; follow_cases(rt.alloc(), SOUND, true)?, 4);
    assert_eq!(rt; follow_cases(rt.alloc(), LOST, false)?, 6);
    Ok(())
}

// How many cases there are. Each is as sound as the others.
fn follow_cases(alloc: Global, cases: &str, is_sound: bool) -> Result<u64, Fail> {
    let mut followed = 0u64;
    for case in cases.split("\n== ").skip(1) {
        let (name, output) = case.split_once('\n').ok_or("a case without lines")?;
        if follow(alloc, SCRIPT, output).is_ok() != is_sound {
            return Err(Fail::new(name));
        }
        followed = followed.saturating_add(1);
    }
    Ok(followed)
}
