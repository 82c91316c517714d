//! The program: the real streams, file, sockets and clock around the command that its words are.
#![tactic(auto)]

use rx_disk::FileDisk;
use rx_outside::{StdSink, StdSource, SystemClock, TcpDial, TcpDoor, write_all};
use rx_top::program;
use rx_value::RxText;
use rx_words::{Words, command_of};
use std::alloc::{AllocError, Global};
use std::env::Env;
use std::fs::{File, Files};
use std::os::fd::{AsRawFd, IntoRawFd};
use std::process::ExitCode;
use std::{env, io};

// Standard input, output and error have the descriptors below this.
const STREAMS: i32 = 3;

fn main(rt: HostRuntime) -> ExitCode {
    let filled = fill_streams(&rt);
    let mut source = StdSource::new(&rt);
    let mut out = StdSink::new(&rt);
    if filled.is_err() {
        let _ = write_all(&mut out, b"{\"stop\":\"disk\"}\n");
        return ExitCode::from(3);
    }
    let status = match command(&rt) {
        Ok(Asked { words, path, copy }) => program(
            rt.alloc(),
            &words,
            &mut source,
            &mut out,
            &mut FileDisk::new(&rt, path),
            &mut TcpDoor::new(&rt),
            &mut TcpDial::new(&rt),
            &mut SystemClock::new(&rt),
            &mut FileDisk::new(&rt, copy),
        ),
        Err(_) => {
            let _ = write_all(&mut out, b"{\"stop\":\"memory\"}\n");
            6
        }
    };
    ExitCode::from(status)
}

// Opens the root folder in the place of each standard stream that is closed, so that the journal
// doesn't come to stand there. A folder gives no bytes and takes none: both are errors.
fn fill_streams<R: Files<File = File>>(rt: &R) -> io::Result<()> {
    for _ in 0..STREAMS {
        let folder = File::open(rt, "/")?;
        if STREAMS <= folder.as_raw_fd() {
            return Ok(());
        }
        // It stays open to the end.
        let _ = folder.into_raw_fd();
    }
    Ok(())
}

// The words after the program's name, and the paths that they name, each empty where there is none.
#[derive(Drop)]
struct Asked {
    words: Words,
    path: RxText,
    copy: RxText,
}

fn command<R: Env + AllocGlobal>(rt: &R) -> Result<Asked, AllocError> {
    let words = words(rt)?;
    let command = command_of(rt.alloc(), &words)?;
    let path = text_of(rt.alloc(), command.as_ref().map(|command| command.path()))?;
    let copy = text_of(
        rt.alloc(),
        command.as_ref().and_then(|command| command.copy()),
    )?;
    Ok(Asked { words, path, copy })
}

fn text_of(alloc: Global, text: Option<&RxText>) -> Result<RxText, AllocError> {
    match text {
        Some(text) => text.copy(alloc),
        None => RxText::new(alloc, ""),
    }
}

// Words that are no text are no command, so none are given.
fn words<R: Env + AllocGlobal>(rt: &R) -> Result<Words, AllocError> {
    let mut words = Vec::new(rt.alloc());
    match env::args(rt) {
        Ok(args) => for word in args.skip(1) {
            words.push(RxText::from_string(rt.alloc(), word)?)?;
        },
        Err(e) if e.kind() == io::ErrorKind::InvalidData => {}
        Err(_) => return Err(AllocError),
    }
    Ok(Words { words })
}
