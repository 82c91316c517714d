// The standard streams over a system whose calls are interrupted, come short and fail.
use rx_outside::{Sink, Source, StdSink, StdSource};
use std::alloc::{AllocError, Allocator, Global};
use std::cell::{Cell, RefCell};
use std::fmt::Display;
use std::io;
use std::io::{BufRead, ErrorKind, Lines, Read};
use std::test::Fail;

const BYTES: &[u8] = b"abcdefgh";

// The calls of a system: so many that are interrupted, and then those of a text. Of these `i` is
// interrupted too, `b` fails, and a digit gives or takes so many bytes at most. Behind them a call
// gives or takes none.
#[derive(Clone, Copy)]
struct Calls<'a> {
    interrupted: usize,
    rest: &'a [u8],
}

impl<'a> Calls<'a> {
    fn next(&mut self) -> io::Result<usize> {
        if self.interrupted > 0 {
            self.interrupted -= 1;
            return Err(ErrorKind::Interrupted.into());
        }
        let Some((call, rest)) = self.rest.split_first() else {
            return Ok(0);
        };
        self.rest = rest;
        match call {
            b'i' => Err(ErrorKind::Interrupted.into()),
            b'0'..=b'9' => Ok((*call - b'0') as usize),
            _ => Err(ErrorKind::BrokenPipe.into()),
        }
    }
}

// An input that is read by such calls.
#[derive(Clone, Copy)]
struct Typed<'a> {
    calls: Calls<'a>,
    left: &'a [u8],
}

impl<'a> Read for Typed<'a> {
    fn read(&mut self, buf: &mut [u8]) -> io::Result<usize> {
        let count = self.calls.next()?.min(buf.len()).min(self.left.len());
        let (given, left) = self.left.split_at(count);
        buf[..count].copy_from_slice(given);
        self.left = left;
        Ok(count)
    }
}

impl<'a> BufRead for Typed<'a> {
    fn fill_buf(&mut self) -> io::Result<&[u8]> {
        Err(ErrorKind::Unsupported.into())
    }

    fn consume(&mut self, _amount: usize) {}
}

impl<'a> Input for Typed<'a> {
    type Reader = Typed<'a>;

    fn read_line<A: Allocator + Clone>(&self, _buf: &mut String<A>) -> io::Result<usize> {
        Err(ErrorKind::Unsupported.into())
    }

    fn lines<A: Allocator>(&self, alloc: A) -> Lines<Typed<'a>, A> {
        self.reader().lines(alloc)
    }

    fn reader(&self) -> Typed<'a> {
        *self
    }
}

// An output that is written to by such calls, and what it took.
#[derive(Drop)]
struct Printed<'a> {
    calls: Cell<Calls<'a>>,
    taken: RefCell<Vec<u8>>,
}

impl<'a> Print for Printed<'a> {
    fn print<D: Display + Drop>(&self, _value: D) -> io::Result<()> {
        Err(ErrorKind::Unsupported.into())
    }

    fn println<D: Display + Drop>(&self, _value: D) -> io::Result<()> {
        Err(ErrorKind::Unsupported.into())
    }

    fn write_all(&self, _bytes: &[u8]) -> io::Result<()> {
        Err(ErrorKind::Unsupported.into())
    }

    fn write_some(&self, bytes: &[u8]) -> io::Result<usize> {
        let mut calls = self.calls.get();
        let most = calls.next();
        self.calls.set(calls);
        let count = most?.min(bytes.len());
        self.taken
            .try_borrow_mut()?
            .extend_from_slice(&bytes[..count])?;
        Ok(count)
    }
}

// How many calls are interrupted, those behind them, and what reads of up to four bytes give: their
// bytes, or `!` where one fails.
const READS: [(usize, &[u8], &[u8]); 11] = [
    (0, b"", b""),
    (0, b"31", b"abc|d|"),
    (0, b"93", b"abcd|efg|"),
    (0, b"499", b"abcd|efgh|"),
    (0, b"i2ii1", b"ab|c|"),
    (0, b"b2", b"!ab|"),
    (0, b"2b1b", b"ab|!c|!"),
    (63, b"2", b"ab|"),
    (64, b"2", b"!ab|"),
    (127, b"2", b"!ab|"),
    (128, b"2", b"!!ab|"),
];

#[test]
fn a_read_that_is_interrupted_is_made_again(rt: HostRuntime) -> Result<(), Fail> {
    for (interrupted, rest, due) in READS {
        let calls = Calls { interrupted, rest };
        let mut source = StdSource::new(&Typed { calls, left: BYTES });
        if given(rt.alloc(), &mut source)?.as_slice() != due {
            return Err(Fail::new(format_args!("{interrupted} interrupted, then {rest:?}")));
        }
    }
    Ok(())
}

// What reads of up to four bytes give, to the end.
fn given<S: Source>(alloc: Global, source: &mut S) -> Result<Vec<u8>, AllocError> {
    let mut all = Vec::new(alloc);
    for _ in BYTES {
        let mut piece = [0u8; 4];
        match source.read(&mut piece) {
            Ok(0) => break,
            Ok(count) => {
                all.extend_from_slice(&piece[..count])?;
                all.push(b'|')?;
            }
            Err(_) => all.push(b'!')?,
        }
    }
    Ok(all)
}

// How many calls are interrupted, those behind them, and how many bytes are taken by writes of all
// that are left, or `!` where one fails.
const WRITES: [(usize, &[u8], &[u8]); 11] = [
    (0, b"9", b"8"),
    (0, b"35", b"35"),
    (0, b"i3ii9", b"35"),
    (0, b"b8", b"!8"),
    (0, b"3b5", b"3!5"),
    (0, b"08", b"!8"),
    (0, b"1i0i8", b"1!7"),
    (63, b"8", b"8"),
    (64, b"8", b"!8"),
    (127, b"8", b"!8"),
    (128, b"8", b"!!8"),
];

#[test]
fn a_write_that_is_interrupted_is_made_again(rt: HostRuntime) -> Result<(), Fail> {
    for (interrupted, rest, due) in WRITES {
        let out = Printed {
            calls: Cell::new(Calls { interrupted, rest }),
            taken: RefCell::new(Vec::new(rt.alloc())),
        };
        let mut sink = StdSink::new(&out);
        let answered = taken(rt.alloc(), &mut sink)?;
        if answered.as_slice() != due || out.taken.try_borrow()?.as_slice() != BYTES {
            return Err(Fail::new(format_args!("{interrupted} interrupted, then {rest:?}")));
        }
        // Nothing is taken where there is nothing to write.
        assert_eq!(rt; sink.write(b"").ok(), Some(0));
    }
    Ok(())
}

// How many bytes are taken by writes of all that are left, to the end.
fn taken<K: Sink>(alloc: Global, sink: &mut K) -> Result<Vec<u8>, AllocError> {
    let mut all = Vec::new(alloc);
    let mut left = BYTES;
    for _ in BYTES {
        if left.is_empty() {
            break;
        }
        match sink.write(left) {
            Ok(count) => {
                left = left.split_at(count).1;
                all.push(*b"012345678".get(count).unwrap_or(&b'?'))?;
            }
            Err(_) => all.push(b'!')?,
        }
    }
    Ok(all)
}
