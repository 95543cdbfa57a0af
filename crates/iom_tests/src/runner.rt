ghost use Rattle.std.specs.Prelude.{Some};

use crate::expect::expect;
use iom_command_line::{ArgsFault, read_words};
use iom_runner::{ProgramFault, RunFault, run, run_words};
use iom_virtio_blk::MemoryDisk;
use std::alloc::Global;
use std::io::{self, ErrorKind, Read, Write};
use std::process::Abort;
use std::test::Fail;

/// A reader that gives at most so many bytes a call, is interrupted so many times in a row before each, and
/// fails at one: after so many calls. After that it goes on.
#[derive(Drop)]
struct Slow<'a> {
    rest: &'a [u8],
    at_once: usize,
    in_a_row: usize,
    /// How many interruptions are to come before the next call that isn't interrupted.
    interruptions: usize,
    calls: usize,
}

impl Read for Slow<'_> {
    ghost remaining = { λ r. Some r.rest.now };

    fn read(&mut self, buf: &mut [u8]) -> io::Result<usize> {
        if self.calls == 0 {
            self.calls = usize::MAX;
            return Err(io::Error::from(ErrorKind::Other));
        }
        self.calls -= 1;
        if self.interruptions > 0 {
            self.interruptions -= 1;
            return Err(io::Error::from(ErrorKind::Interrupted));
        }
        self.interruptions = self.in_a_row;
        let count = self.rest.len().min(buf.len()).min(self.at_once.max(1));
        let (front, back) = self.rest.split_at(count);
        buf[..count].copy_from_slice(front);
        self.rest = back;
        Ok(count)
    }
}

/// A writer that takes at most so many bytes a call, is interrupted so many times in a row before each, and
/// fails at one call, or takes nothing: when its room is used up. After that it goes on.
#[derive(Drop)]
struct Stingy {
    got: Vec<u8>,
    at_once: usize,
    room: usize,
    in_a_row: usize,
    /// How many interruptions are to come before the next call that isn't interrupted.
    interruptions: usize,
    takes_nothing: bool,
}

impl Write for Stingy {
    ghost contents = { λ w. Some w.got.items };

    fn write(&mut self, buf: &[u8]) -> io::Result<usize> {
        if self.interruptions > 0 {
            self.interruptions -= 1;
            return Err(io::Error::from(ErrorKind::Interrupted));
        }
        self.interruptions = self.in_a_row;
        if self.room == 0 {
            self.room = usize::MAX;
            if self.takes_nothing {
                return Ok(0);
            }
            return Err(io::Error::from(ErrorKind::Other));
        }
        let count = buf.len().min(self.at_once).min(self.room);
        self.got.extend_from_slice(&buf[..count])?;
        self.room -= count;
        Ok(count)
    }

    fn flush(&mut self) -> io::Result<()> {
        Ok(())
    }
}

/// How a run ends.
#[derive(Clone, Copy, PartialEq)]
enum End {
    Done,
    Reading,
    Writing,
    Memory,
    /// The line with this number is bad.
    BadLine(u64),
}

fn end_of(done: Result<(), RunFault>) -> End {
    match done {
        Ok(()) => End::Done,
        Err(RunFault::Reading) => End::Reading,
        Err(RunFault::Writing) => End::Writing,
        Err(RunFault::Memory) => End::Memory,
        Err(RunFault::Script(line)) => End::BadLine(line),
    }
}

/// Runs a script without disks, and writes its lines, with counts or without.
fn ends(alloc: Global, reader: &mut Slow, writer: &mut Stingy, counts: bool) -> End {
    let disks = Vec::<MemoryDisk>::new(alloc);
    end_of(run(alloc, reader, writer, disks, counts))
}

/// A run: its script; how many bytes are read and how many are written at once, and after how many interruptions; after
/// how many calls reading fails, and after how many bytes writing; how it ends, and what it wrote by then.
#[derive(Clone, Copy)]
struct Play<'a> {
    script: &'a [u8],
    /// Whether the counts are written behind each line.
    counts: bool,
    read: usize,
    written: usize,
    interruptions: usize,
    calls: usize,
    room: usize,
    /// Writing doesn't fail after that many bytes, but takes nothing.
    takes_nothing: bool,
    end: End,
    lines: &'a [u8],
}

/// Whether the run ends so, and wrote that.
fn is_so(alloc: Global, play: &Play) -> bool {
    let mut reader = Slow {
        rest: play.script,
        at_once: play.read,
        in_a_row: play.interruptions,
        interruptions: play.interruptions,
        calls: play.calls,
    };
    let mut writer = Stingy {
        got: Vec::new(alloc),
        at_once: play.written,
        room: play.room,
        in_a_row: play.interruptions,
        interruptions: play.interruptions,
        takes_nothing: play.takes_nothing,
    };
    ends(alloc, &mut reader, &mut writer, play.counts) == play.end
        && writer.got.as_slice() == play.lines
}

static FIRST_PATH: &[u8] = b"\
    world 64 1\n\
    device 000001 raw\n\
    attach 000001 first\n\
    grant 000001 3 5 rw\n\
    read 000001 0x3ffc 4\n\
    read 000001 0x3ffc 5\n\
    commit 000001\n\
    release 000001 3\n\
    fetch\n\
    fetch\n\
    poll\n\
    read 000001 0x3ffc 4\n";

static FIRST_PATH_LINES: &[u8] = b"\
    ok\n\
    ok\n\
    ok\n\
    ok\n\
    accepted 1\n\
    badspan\n\
    read 00000000\n\
    ticket 1\n\
    did iotinval.vma\n\
    did iofence.c\n\
    confirmed 1-1\n\
    fault 13\n";

/// An answer that comes when the page is released already, and its ticket confirmed.
static LATE_ANSWER: &[u8] = b"\
    world 64 1\n\
    device 000002 ats\n\
    attach 000002 first ats\n\
    grant 000002 3 5 rw\n\
    ask 000002 3\n\
    deliver 0\n\
    release 000002 3\n\
    fetch\n\
    fetch\n\
    deliver 1\n\
    deliver 1\n\
    fetch\n\
    poll\n\
    deliver 0\n\
    aread 000002 0x3000 4\n";

static LATE_ANSWER_LINES: &[u8] = b"\
    ok\n\
    ok\n\
    ok\n\
    ok\n\
    sent\n\
    answer 5 rw\n\
    ticket 1\n\
    did iotinval.vma\n\
    did ats.inval\n\
    invalidated 1\n\
    closed 1\n\
    did iofence.c\n\
    confirmed 1-1\n\
    stale\n\
    miss\n";

/// The first path, read and written whole.
fn whole() -> Play<'static> {
    Play {
        script: FIRST_PATH,
        counts: false,
        read: usize::MAX,
        written: usize::MAX,
        interruptions: 1,
        calls: usize::MAX,
        room: usize::MAX,
        takes_nothing: false,
        end: End::Done,
        lines: FIRST_PATH_LINES,
    }
}

/// Scripts that say nothing, or of which a line is bad: nothing is written.
static SILENT: [(&[u8], End); 10] = [
    (b"", End::Done),
    (b"\n# nothing\n", End::Done),
    (b"# a\0b\r\xff\n", End::Done),
    (b"world 64 1\nfetch 1\n", End::BadLine(2)),
    (b"world 64 1\nfetch", End::BadLine(2)),
    (b"world 64 1\r\n", End::BadLine(1)),
    (b"world 64 1\n\nfetch\0\n", End::BadLine(3)),
    (b"world 64 1\nfetch \xff\n", End::BadLine(2)),
    (
        b"world 64 1\n#\n\ngrant 000001 18446744073709551616 5 rw\n",
        End::BadLine(4),
    ),
    (b"fetch\n", End::BadLine(1)),
];

#[test]
fn scripts_are_told(rt: HostRuntime) {
    expect(&rt, is_so(rt.alloc(), &whole()));
    for (script, end) in SILENT.iter() {
        let play = Play {
            script,
            end: *end,
            lines: b"",
            ..whole()
        };
        expect(&rt, is_so(rt.alloc(), &play));
    }
}

#[test]
fn a_write_of_no_bytes_is_a_fault(rt: HostRuntime) {
    let play = Play {
        written: 10,
        room: 20,
        takes_nothing: true,
        end: End::Writing,
        lines: b"ok\nok\nok\nok\naccepted",
        ..whole()
    };
    expect(&rt, is_so(rt.alloc(), &play));
}

#[test]
fn short_reads_and_writes_are_continued(rt: HostRuntime) {
    for at_once in 1..9usize {
        let play = Play {
            read: at_once,
            written: at_once,
            ..whole()
        };
        expect(&rt, is_so(rt.alloc(), &play));
    }
}

// No number of interruptions counts as a failure.
#[test]
fn interruptions_are_outlasted(rt: HostRuntime) {
    let play = Play {
        interruptions: 5000,
        ..whole()
    };
    expect(&rt, is_so(rt.alloc(), &play));
}

/// A message is lost, and its device quarantined; then the world settles, twice.
static SETTLING: &[u8] = b"world 64 1\ndevice 000002 ats\nattach 000002 first ats\n\
    grant 000002 3 5 rw\nrelease 000002 3\nfetch\nfetch\ndrop 0\nquarantine 000002\nsettle\nfree 5\nsettle\n";

static SETTLING_LINES: &[u8] =
    b"ok\nok\nok\nok\nticket 1\ndid iotinval.vma\ndid ats.inval\ndropped\n\
    ticket 2\nsettled 6\nfree yes\nsettled 0\n";

/// Scripts of different kinds, one with counts, and their lines.
fn rows() -> [(&'static [u8], bool, &'static [u8]); 5] {
    [
        (b"world 64 1\nsettle\n", false, b"ok\nsettled 0\n"),
        (SETTLING, false, SETTLING_LINES),
        (FIRST_PATH, false, FIRST_PATH_LINES),
        (LATE_ANSWER, false, LATE_ANSWER_LINES),
        (COUNTED, true, COUNTED_LINES),
    ]
}

/// How many calls read the script, 30 bytes at once: the last one finds its end.
fn calls_for(script: &[u8]) -> usize {
    script.len().saturating_add(29) / 30 + 1
}

#[test]
fn a_failing_read_writes_nothing(rt: HostRuntime) {
    for (script, counts, lines) in rows() {
        let calls_in_all = calls_for(script);
        for calls in 0..=calls_in_all {
            let fails = calls < calls_in_all;
            let play = Play {
                script,
                counts,
                read: 30,
                written: 7,
                interruptions: 0,
                calls,
                end: if fails { End::Reading } else { End::Done },
                lines: if fails { b"" } else { lines },
                ..whole()
            };
            expect(&rt, is_so(rt.alloc(), &play));
        }
    }
}

#[test]
fn a_failing_write_leaves_a_beginning(rt: HostRuntime) {
    for (script, counts, lines) in rows() {
        for room in 0..lines.len() {
            let play = Play {
                script,
                counts,
                written: 10,
                // What is written behind the failure would be taken.
                interruptions: 0,
                room,
                end: End::Writing,
                lines: lines.get(..room).unwrap_or(b""),
                ..whole()
            };
            expect(&rt, is_so(rt.alloc(), &play));
        }
    }
}

/// A script of a beginning and a line or a part of one so many times; how many bytes are written at once; how the run ends,
/// and the beginning of what it wrote and the line so many times.
struct Long<'a> {
    script: (&'a [u8], &'a [u8], usize),
    written: usize,
    end: End,
    lines: (&'a [u8], &'a [u8], usize),
}

const NO_LINES: (&[u8], &[u8], usize) = (b"", b"", 0);

/// A megabyte of one line; of lines: 11 bytes of the first and 5 of each other, 1,048,576 in all; one line more than that;
/// and more than a whole buffer of lines, written a byte at a time.
static LONG: [Long; 4] = [
    Long {
        script: (b"", b"poll", 262145),
        written: usize::MAX,
        end: End::BadLine(1),
        lines: NO_LINES,
    },
    Long {
        script: (b"world 64 1\n", b"poll\n", 209713),
        written: usize::MAX,
        end: End::Done,
        lines: (b"ok\n", b"confirmed -\n", 209713),
    },
    Long {
        script: (b"world 64 1\n", b"poll\n", 209714),
        written: usize::MAX,
        end: End::BadLine(209715),
        lines: NO_LINES,
    },
    Long {
        script: (b"world 64 1\n", b"poll\n", 7000),
        written: 1,
        end: End::Done,
        lines: (b"ok\n", b"confirmed -\n", 7000),
    },
];

/// The bytes, as often as that, after a beginning.
fn many(rt: &impl Abort, alloc: Global, (front, piece, count): (&[u8], &[u8], usize)) -> Vec<u8> {
    let mut bytes = Vec::from_slice(alloc, front).expect(rt, "memory for a text");
    for _ in 0..count {
        bytes
            .extend_from_slice(piece)
            .expect(rt, "memory for a text");
    }
    bytes
}

#[test]
fn long_scripts_are_told(rt: HostRuntime) {
    for long in LONG.iter() {
        let script = many(&rt, rt.alloc(), long.script);
        let lines = many(&rt, rt.alloc(), long.lines);
        let play = Play {
            script: script.as_slice(),
            written: long.written,
            end: long.end,
            lines: lines.as_slice(),
            ..whole()
        };
        expect(&rt, is_so(rt.alloc(), &play));
    }
}

/// A page is granted and released, and the ticket isn't confirmed.
static COUNTED: &[u8] = b"world 64 1\ndevice 000001 raw\nattach 000001 first\n\
    grant 000001 3 5 rw\nread 000001 0x3000 1\nrelease 000001 3\n";

/// Four frames are the system's. The device's root takes one, and the page's tables two.
static COUNTED_LINES: &[u8] = b"\
    ok\n= tickets 0 flight 0 messages 0 free 60\n\
    ok\n= tickets 0 flight 0 messages 0 free 60\n\
    ok\n= tickets 0 flight 0 messages 0 free 59\n\
    ok\n= tickets 0 flight 0 messages 0 free 56\n\
    accepted 1\n= tickets 0 flight 1 messages 0 free 56\n\
    ticket 1\n= tickets 1 flight 1 messages 0 free 56\n";

/// Whether the program ends so with the words and an input, and writes that.
fn is_run(rt: &HostRuntime, words: &[&str], script: &[u8], end: End, lines: &[u8]) -> bool {
    let mut input = script;
    let mut written = Vec::new(rt.alloc());
    let ended = match run_words(rt, rt.alloc(), words, &mut input, &mut written) {
        Ok(()) => Some(End::Done),
        Err(ProgramFault::Run(fault)) => Some(end_of(Err(fault))),
        Err(ProgramFault::Args(_)) => None,
    };
    ended == Some(end) && written.as_slice() == lines
}

// Counts stand behind each line where they are asked for. Where a file is absent nothing is read and written.
#[test]
fn words_say_what_is_run(rt: HostRuntime) {
    let first = is_run(&rt, &[], FIRST_PATH, End::Done, FIRST_PATH_LINES);
    expect(&rt, first);
    let counted = is_run(&rt, &["--trace"], COUNTED, End::Done, COUNTED_LINES);
    expect(&rt, counted);
    let absent = is_run(&rt, &["absent.iommu"], FIRST_PATH, End::Reading, b"");
    expect(&rt, absent);
}

/// Faults with their texts and statuses.
static FAULTS: [(ProgramFault, &str, u8); 6] = [
    (ProgramFault::Run(RunFault::Reading), "reading failed", 1),
    (ProgramFault::Run(RunFault::Writing), "writing failed", 1),
    (ProgramFault::Run(RunFault::Memory), "out of memory", 1),
    (
        ProgramFault::Run(RunFault::Script(18)),
        "line 18: bad script",
        2,
    ),
    (ProgramFault::Args(ArgsFault::Bad), "bad command line", 3),
    (ProgramFault::Args(ArgsFault::Memory), "out of memory", 1),
];

/// Ends the test where the fault has another text or another status.
fn is_told(
    rt: &(impl Abort + AllocGlobal),
    fault: &ProgramFault,
    text: &str,
    status: u8,
) -> Result<(), Fail> {
    let reply = format!(in rt.alloc(); "{fault}")?;
    expect(rt, reply.as_str() == text && fault.status() == status);
    Ok(())
}

#[test]
fn faults_have_texts_and_statuses(rt: HostRuntime) -> Result<(), Fail> {
    for (fault, text, status) in FAULTS.iter() {
        is_told(&rt, fault, text, *status)?;
    }
    Ok(())
}

/// The words of a command line, and whether counts are asked for and which file is named; or that they are none.
static WORDS: [(&[&str], Option<(bool, Option<&str>)>); 23] = [
    (&[], Some((false, None))),
    (&["--trace"], Some((true, None))),
    (&["a"], Some((false, Some("a")))),
    (&["a b-c"], Some((false, Some("a b-c")))),
    (&["/"], Some((false, Some("/")))),
    (
        &["\u{e9}=\u{1f600}"],
        Some((false, Some("\u{e9}=\u{1f600}"))),
    ),
    (&["help"], Some((false, Some("help")))),
    (&["--trace", "a"], Some((true, Some("a")))),
    (&["--trace", "a b-c"], Some((true, Some("a b-c")))),
    (&["--trace", "/"], Some((true, Some("/")))),
    (
        &["--trace", "\u{e9}=\u{1f600}"],
        Some((true, Some("\u{e9}=\u{1f600}"))),
    ),
    (&["--trace", "help"], Some((true, Some("help")))),
    (&[""], None),
    (&["-"], None),
    (&["--"], None),
    (&["--help"], None),
    (&["-h"], None),
    (&["a", "b"], None),
    (&["--", "a"], None),
    (&["a", "--trace"], None),
    (&["--trace", "--trace"], None),
    (&["--trace", ""], None),
    (&["--trace", "a", "b"], None),
];

fn are_read(alloc: Global, words: &[&str], expected: &Option<(bool, Option<&str>)>) -> bool {
    match (read_words(alloc, words), expected) {
        (Ok(read), Some((trace, file))) => read.trace == *trace && read.file == *file,
        (Err(ArgsFault::Bad), None) => true,
        _ => false,
    }
}

#[test]
fn command_lines_are_read(rt: HostRuntime) {
    for (words, expected) in WORDS.iter() {
        expect(&rt, are_read(rt.alloc(), words, expected));
    }
}
