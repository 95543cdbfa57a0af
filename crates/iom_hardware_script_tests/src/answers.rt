use crate::expect::expect;
use iom_hardware_script::{Answer, append_answer};
use iom_machine::Outcome;
use iom_script::LineBuffer;

/// Answers, each with its text.
static TEXTS: [(Answer, &[u8]); 10] = [
    (Answer::Value(0), b"value 0x0"),
    (Answer::Value(15), b"value 0xf"),
    (Answer::Value(16), b"value 0x10"),
    (Answer::Value(0x1ff402), b"value 0x1ff402"),
    (Answer::Value(u64::MAX), b"value 0xffffffffffffffff"),
    (Answer::BadOffset, b"refused 24 BadOffset"),
    (Answer::BadWidth, b"refused 25 BadWidth"),
    (Answer::NoSuchClaim, b"refused 26 NoSuchClaim"),
    (Answer::Claimed(u32::MAX), b"claim 4294967295"),
    (Answer::Good, b"good"),
];

#[test]
fn answers_have_their_texts(rt: HostRuntime) {
    let mut out = LineBuffer::new(rt.alloc()).expect(&rt, "memory for a buffer");
    for (answer, text) in TEXTS.iter() {
        out.clear();
        append_answer(&mut out, answer);
        expect(&rt, out.as_slice() == *text);
    }
}

// Of the line of an outcome the line feed is taken off, so that more can follow; it is taken off once.
#[test]
fn more_follows_the_text_of_an_outcome(rt: HostRuntime) {
    let mut out = LineBuffer::new(rt.alloc()).expect(&rt, "memory for a buffer");
    out.take_line_feed();
    expect(&rt, out.as_slice().is_empty());
    out.append_line(&Outcome::Wrote(4096));
    out.take_line_feed();
    out.take_line_feed();
    out.append(b"; violated: 000001 writes frame ");
    out.append_decimal(7);
    out.append(b", entry at ");
    out.append_hex_number(0x3a018);
    let text = b"wrote 4096; violated: 000001 writes frame 7, entry at 0x3a018".as_slice();
    expect(&rt, out.as_slice() == text);
}
