// The forms that lines have.

/// The forms of lines, as docs/LANGUAGE.md names their words. Those in capitals stand for others. The last one is no event.
pub(crate) static SCRIPT_FORMS: [&str; 37] = [
    "device ID raw",
    "device ID ats",
    "device ID blk K",
    "device ID ablk K",
    "medium ID K",
    "attach ID MODE",
    "attach ID MODE ats",
    "detach ID",
    "grant ID PAGE FRAME RIGHT",
    "release ID PAGE",
    "quarantine ID",
    "revive ID",
    "restart",
    "fetch",
    "timeout",
    "poll",
    "faults",
    "read ID ADDR LEN",
    "write ID ADDR HEX",
    "tread ID ADDR LEN",
    "twrite ID ADDR HEX",
    "aread ID ADDR LEN",
    "awrite ID ADDR HEX",
    "ask ID PAGE",
    "forge ID SERIAL",
    "deliver K",
    "drop K",
    "repeat K",
    "reset ID",
    "queue ID SIZE DESC AVAIL USED",
    "step ID",
    "status ID",
    "commit ID",
    "poke ADDR HEX",
    "peek ADDR LEN",
    "free FRAME",
    "settle",
];

/// How many of them are events.
pub(crate) const EVENTS: usize = 36;

/// The form of the first line of a script that says something.
pub(crate) static FIRST: [&str; 1] = ["world F L"];

/// Those of the first line of a trace that says something, before its answer. The second one sets limits aside.
pub(crate) static TRACE_FIRST: [&str; 2] = ["world F L", "world F L unlimited"];

/// Those that a trace has beside the events of scripts, before their answers.
pub(crate) static TRACE_FORMS: [&str; 7] = [
    "grant ID PAGE+N FRAME RIGHT",
    "release ID PAGE+N",
    "attach ID with ID",
    "attach ID with ID ats",
    "handoff FRAME",
    "take FRAME",
    "tables-freed FRAME ..",
];

/// The forms of the first line of a driver under test that says something.
pub(crate) static HARDWARE_FIRST: [&str; 5] = [
    "hardware F",
    "hardware F stepped",
    "hardware F nonleaf",
    "hardware F napot",
    "hardware F nonleaf napot",
];

/// The forms of a driver's lines, and of those of devices and hardware, as docs/DRIVER.md names their words.
pub(crate) static HARDWARE_FORMS: [&str; 38] = [
    "device ID raw",
    "device ID ats",
    "device ID blk K",
    "device ID ablk K",
    "medium ID K",
    "reset ID",
    "read ID ADDR LEN",
    "write ID ADDR HEX",
    "tread ID ADDR LEN",
    "twrite ID ADDR HEX",
    "aread ID ADDR LEN",
    "awrite ID ADDR HEX",
    "ask ID PAGE",
    "forge ID SERIAL",
    "load ID",
    "commit ID",
    "fetch",
    "timeout",
    "deliver K",
    "drop K",
    "repeat K",
    "queue ID SIZE DESC AVAIL USED",
    "step ID",
    "status ID",
    "poke ADDR HEX",
    "peek ADDR LEN",
    "mmio-read OFFSET WIDTH",
    "mmio-write OFFSET WIDTH VALUE",
    "claim grant ID PAGE FRAME RIGHT",
    "claim ready ID PAGE",
    "claim release ID PAGE",
    "claim done T",
    "claim handoff FRAME",
    "claim take FRAME",
    "claim trust ID",
    "auto SEED",
    "traffic ID FIRST LAST",
    "quiesce",
];
