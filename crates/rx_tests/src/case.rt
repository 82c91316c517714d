// A text of cases: a script each, what it is answered, and the journal around it.
//
// A text has a fact a line, whose first word tells what it is.
//
//     == a second insert is a conflict           the case's name
//     ^ 52584a4f55524e31 00                      bytes that the journal holds before
//     $ run journal --max-journal 22             the words of a run on the journal that the last one left
//     : 3                                        the most bytes of a read, from here on
//     > I(c,a,1)                                 a line of its script
//     < {"line":L,"ok":"insert","rev":"1-c"}     a line that is due, with L for the number of the script's line
//     . C(c) I(c,a,1)                            lines that are answered as they are where all is well
//     - 22ff220a                                 bytes that are the script
//     # 2 "sent":"push"                          so often the output has this, whatever its lines are
//     * a peer                                   one more that dials
//     + 2                                        one more master elsewhere; calls of its wire that
//                                                fail
//     @ {"ask":"pull",..}                        a line that the last of these sends
//     ~ {"docs":                                 a text that it sends, without the end of a line
//     & {"docs":[],..}                           a line that peers are sent, and then masters
//     ! 1                                        the status, where it isn't that of the last line
//     = 52584a4f55524e31 00                      bytes that the journal holds afterwards
//     % 52584a4f55524e32 00                      bytes that the copy holds afterwards
//     /                                          the copy is the journal from here on
//     | ["n"] | 5                                the case with these for ¤1 and ¤2; each such line once
//     // what follows is refused                 a comment
//
// Without a `$` the words are `run journal`. Bytes are in hex, and texts between apostrophes. The
// journal that the last run leaves has to open again, unless it was no journal before. Words and
// series in a text stand for longer texts, as `long_text` tells.
use crate::run::{MASTER, PEER, RUN, Ran, Setting, run};
use crate::short::{add_due_line, add_script_line, add_usual_line, journal_bytes, long_text};
use std::alloc::{AllocError, Global};
use std::mem;
use std::test::Fail;

/// Plays each case of a text that shows this.
pub fn play_all(alloc: Global, what: &str, text: &str) -> Result<(), Fail> {
    let cases = long_text(alloc, text)?;
    play_cases(alloc, what, cases.as_str())
}

fn play_cases(alloc: Global, what: &str, cases: &str) -> Result<(), Fail> {
    let mut played = 0u64;
    for case in cases.split("\n== ") {
        if let Some((name, facts)) = case.split_once('\n') {
            play_rows(alloc, name, facts)?;
            played = played.saturating_add(1);
        }
    }
    if played == 0 {
        return Err(Fail::new(format_args!("{what}: a text without cases")));
    }
    Ok(())
}

// Plays a case once for each of its rows, or as it is where it has none.
fn play_rows(alloc: Global, name: &str, facts: &str) -> Result<(), Fail> {
    let Some((facts, rows)) = facts.split_once("\n| ") else {
        return play(alloc, name, facts, &[]);
    };
    for row in rows.split("\n| ") {
        play_row(alloc, facts, row.lines().next().unwrap_or(""))?;
    }
    Ok(())
}

fn play_row(alloc: Global, facts: &str, row: &str) -> Result<(), Fail> {
    let facts = facts_of(alloc, facts, row)?;
    play(alloc, row, facts.as_str(), &[])
}

const COLUMNS: [&str; 4] = ["¤1", "¤2", "¤3", "¤4"];

fn facts_of(alloc: Global, facts: &str, row: &str) -> Result<String, AllocError> {
    let mut text = String::from_str(alloc, facts)?;
    for (column, meant) in COLUMNS.iter().zip(row.split(" | ")) {
        text = text.as_str().replace(alloc, column, meant)?;
    }
    Ok(text)
}

/// A case, as far as its lines were read.
#[derive(Drop)]
struct Case<'a> {
    name: &'a str,
    // How much of a script a read gives.
    piece: usize,
    // The bytes of the journal as they are now.
    journal: Vec<u8>,
    next: Next<'a>,
    // The status of the last run, and the copy that it left.
    ended: u8,
    copy: Vec<u8>,
}

/// The run that is being read, and what is due of it.
#[derive(Drop)]
struct Next<'a> {
    is_read: bool,
    words: &'a str,
    script: String,
    bytes: Vec<u8>,
    count: u64,
    due: String,
    told: String,
    // What peers and masters send, as `Setting` has it, and what they are to be sent. A fact that
    // tells what is sent adds to the masters' where the last of them was a master.
    peers: String,
    masters: String,
    at_master: bool,
    replies: String,
    status: u8,
    after: Vec<u8>,
    copied: Vec<u8>,
}

/// Plays one case, on a journal that holds these bytes.
pub fn play(alloc: Global, name: &str, facts: &str, held: &[u8]) -> Result<(), Fail> {
    let mut case = Case {
        name,
        piece: Setting::PLAIN.piece,
        journal: held.to_vec(alloc)?,
        next: Next::new(alloc),
        ended: 0,
        copy: Vec::new(alloc),
    };
    case.play(alloc, facts)
}

impl<'a> Next<'a> {
    fn new(alloc: Global) -> Next<'a> {
        Next {
            is_read: false,
            words: RUN,
            script: String::new(alloc),
            bytes: Vec::new(alloc),
            count: 0,
            due: String::new(alloc),
            told: String::new(alloc),
            peers: String::new(alloc),
            masters: String::new(alloc),
            at_master: false,
            replies: String::new(alloc),
            status: 0,
            after: Vec::new(alloc),
            copied: Vec::new(alloc),
        }
    }

    fn read(&mut self, alloc: Global, mark: &str, rest: &str) -> Result<(), Fail> {
        self.is_read = true;
        match mark {
            ">" => Ok(self.read_script(rest)?),
            "<" => Ok(self.read_due(rest)?),
            "." => Ok(self.read_usual(rest)?),
            "!" => Ok(self.status = rest.parse()?),
            "#" => Ok(write!(self.told, "{rest}\n")?),
            "-" => journal_bytes(alloc, rest, &mut self.bytes),
            "=" => journal_bytes(alloc, rest, &mut self.after),
            "%" => journal_bytes(alloc, rest, &mut self.copied),
            _ => self.read_outside(mark, rest),
        }
    }

    // A fact of what peers and masters send and are sent.
    fn read_outside(&mut self, mark: &str, rest: &str) -> Result<(), Fail> {
        match mark {
            "*" => Ok(self.read_peer()?),
            "+" => self.read_master(rest),
            "@" => self.read_sent(rest, "\n"),
            "~" => self.read_sent(rest, ""),
            "&" => Ok(write!(self.replies, "{rest}\n")?),
            _ => Err(Fail::new(format_args!("what is {mark} {rest}"))),
        }
    }

    fn read_peer(&mut self) -> Result<(), AllocError> {
        self.at_master = false;
        self.peers.push_str(PEER)
    }

    fn read_master(&mut self, calls: &str) -> Result<(), Fail> {
        for call in calls.split_whitespace() {
            let _: u64 = call.parse()?;
        }
        self.at_master = true;
        Ok(write!(self.masters, "{MASTER}{calls}\n")?)
    }

    fn read_sent(&mut self, text: &str, end: &str) -> Result<(), Fail> {
        if self.at_master {
            Ok(write!(self.masters, "{text}{end}")?)
        } else if self.peers.is_empty() {
            Err(Fail::new(format_args!("nobody sends {text}")))
        } else {
            Ok(write!(self.peers, "{text}{end}")?)
        }
    }

    fn read_script(&mut self, line: &str) -> Result<(), AllocError> {
        self.count = self.count.saturating_add(1);
        add_script_line(line, &mut self.script)
    }

    fn read_due(&mut self, line: &str) -> Result<(), AllocError> {
        self.status = status_after(line, self.status);
        add_due_line(line, self.count, &mut self.due)
    }

    // Several lines without a space may stand in one fact.
    fn read_usual(&mut self, lines: &str) -> Result<(), AllocError> {
        for line in lines.split_whitespace() {
            self.read_script(line)?;
            add_usual_line(line, self.count, &mut self.due)?;
        }
        Ok(())
    }

    fn compare_output(&self, name: &str, output: &str) -> Result<(), Fail> {
        if self.told.is_empty() {
            compare_lines(name, self.due.as_str(), output)
        } else {
            compare_told(name, self.told.as_str(), output)
        }
    }
}

impl<'a> Case<'a> {
    fn play(&mut self, alloc: Global, facts: &'a str) -> Result<(), Fail> {
        for fact in facts.lines() {
            self.read(alloc, fact)?;
        }
        self.run(alloc)?;
        self.reopen(alloc)
    }

    fn read(&mut self, alloc: Global, fact: &'a str) -> Result<(), Fail> {
        let (mark, rest) = fact.split_once(' ').unwrap_or((fact, ""));
        match mark {
            "" | "//" => Ok(()),
            "^" => journal_bytes(alloc, rest, &mut self.journal),
            ":" => Ok(self.piece = rest.parse()?),
            "$" => self.read_words(alloc, rest),
            "/" => self.go_on_with_copy(alloc),
            _ => self.next.read(alloc, mark, rest),
        }
    }

    // Where a run was read before these words, it is made.
    fn read_words(&mut self, alloc: Global, words: &'a str) -> Result<(), Fail> {
        if self.next.is_read {
            self.run(alloc)?;
        }
        self.next.words = words;
        self.next.is_read = true;
        Ok(())
    }

    // The run that was read is made, and what it copied is the journal of the next one.
    fn go_on_with_copy(&mut self, alloc: Global) -> Result<(), Fail> {
        self.run(alloc)?;
        mem::swap(&mut self.journal, &mut self.copy);
        Ok(())
    }

    // Makes the run that was read, and begins another.
    fn run(&mut self, alloc: Global) -> Result<(), Fail> {
        let ran = self.ran(alloc)?;
        self.compare(&ran)?;
        self.next = Next::new(alloc);
        Ok(self.keep(&ran)?)
    }

    // What the last run left is what the next one finds.
    fn keep(&mut self, last: &Ran) -> Result<(), AllocError> {
        self.ended = last.status;
        self.journal.clear();
        self.journal.extend_from_slice(last.disk.bytes())?;
        self.copy.clear();
        self.copy.extend_from_slice(last.copy.bytes())
    }

    fn ran(&self, alloc: Global) -> Result<Ran, AllocError> {
        let next = &self.next;
        let setting = Setting {
            piece: self.piece,
            peers: next.peers.as_str(),
            masters: next.masters.as_str(),
            copy: self.copy.as_slice(),
            ..Setting::PLAIN
        };
        let script = if next.bytes.is_empty() {
            next.script.as_str().as_bytes()
        } else {
            next.bytes.as_slice()
        };
        run(alloc, &setting, next.words, script, self.journal.as_slice())
    }

    fn compare(&self, ran: &Ran) -> Result<(), Fail> {
        self.next.compare_output(self.name, ran.text()?)?;
        let fault = self.fault_of(ran);
        if fault.is_empty() {
            return Ok(());
        }
        Err(Fail::new(format_args!(
            "{}: {fault}, with status {} and a journal of {} bytes, the first {} as due",
            self.name,
            ran.status,
            ran.disk.bytes().len(),
            same_bytes(ran.disk.bytes(), self.next.after.as_slice())
        )))
    }

    // What is wrong besides the lines, or an empty text. A report, words that are no command, and
    // what is no journal leave the bytes alone.
    fn fault_of(&self, ran: &Ran) -> &'static str {
        let next = &self.next;
        let journal = ran.disk.bytes();
        let kept = ran.status == 2 || ran.status == 7 || next.words.starts_with("check ");
        if next.told.is_empty() && ran.output.as_slice() != next.due.as_str().as_bytes() {
            "the ends of lines"
        } else if ran.sent.as_slice() != next.replies.as_str().as_bytes() {
            "what the peers were sent"
        } else if ran.status != next.status {
            "another status"
        } else if kept && journal != self.journal.as_slice() {
            "the journal is changed"
        } else if !next.after.is_empty() && journal != next.after.as_slice() {
            "another journal"
        } else if !next.copied.is_empty() && ran.copy.bytes() != next.copied.as_slice() {
            "another copy"
        } else {
            ""
        }
    }

    fn reopen(&mut self, alloc: Global) -> Result<(), Fail> {
        if self.ended == 7 {
            return Ok(());
        }
        self.run(alloc)
    }
}

// The lines that end a run early, each with its status.
const STOPS: [(&str, u8); 4] = [
    ("{\"stop\":\"usage\"", 2),
    ("{\"stop\":\"not_journal\"", 7),
    ("\"stop\":\"full\"", 8),
    ("\"refused\":", 1),
];

// The status of a run that was due to end with another one before this line.
fn status_after(line: &str, status: u8) -> u8 {
    for (text, told) in STOPS.iter() {
        if line.contains(*text) {
            return *told;
        }
    }
    status
}

// How many bytes are as due.
fn same_bytes(found: &[u8], due: &[u8]) -> usize {
    found
        .iter()
        .zip(due.iter())
        .take_while(|(a, b)| a == b)
        .count()
}

/// Compares an output with the lines that are due.
pub fn compare_lines(name: &str, due: &str, output: &str) -> Result<(), Fail> {
    let same = due
        .lines()
        .zip(output.lines())
        .take_while(|(a, b)| a == b)
        .count();
    let line = due.lines().skip(same).next();
    let found = output.lines().skip(same).next();
    if line.is_none() && found.is_none() {
        return Ok(());
    }
    Err(Fail::new(format_args!(
        "{name}: due {same} from 0 is {}, found {}",
        line.unwrap_or("nothing"),
        found.unwrap_or("nothing")
    )))
}

// Compares how often an output has texts.
fn compare_told(name: &str, told: &str, output: &str) -> Result<(), Fail> {
    for line in told.lines() {
        let (due, text) = line.split_once(' ').unwrap_or((line, ""));
        let count = output.matches(text).count();
        let due: usize = due.parse()?;
        if count != due {
            return Err(Fail::new(format_args!("{name}: {count} times {text}, due {due}")));
        }
    }
    Ok(())
}
