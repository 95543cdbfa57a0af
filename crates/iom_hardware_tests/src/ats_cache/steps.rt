use crate::expect::expect;
use iom_ats_cache::{Atc, Taken};
use iom_base::{AccessKind, Cause, Rights};
use iom_fabric::{Message, PageNumber, Range, Translation};
use std::process::Abort;

/// What is done to a cache, and what is seen of it.
#[derive(Clone, Copy)]
pub(crate) enum Step {
    /// An answer of this epoch for a page: that it is at a frame, with rights.
    Answer(u64, u64, u32, Rights, Taken),
    /// That it is refused.
    Refusal(u64, u64, Taken),
    /// The question for a page is of this epoch, which is the cache's.
    Ask(u64, u64),
    /// A read of a page goes to this frame, or isn't found.
    Read(u64, Option<u32>),
    Write(u64, Option<u32>),
    /// The invalidation of this number is done, and told so by the number: of a page, or of everything.
    Invalidate(u64, u64),
    InvalidateAll(u64),
    Reset,
    /// For each page from one up to another, the last excepted, an answer of epoch 0 is kept: the frame of its number.
    KeepEach(u32, u32),
    /// And found.
    FindEach(u32, u32),
}

fn page(rt: &impl Abort, number: u64) -> PageNumber {
    PageNumber::new(number).expect(rt, "a page")
}

fn answer(
    rt: &impl Abort,
    atc: &mut Atc,
    epoch: u64,
    number: u64,
    translation: Translation,
    want: Taken,
) {
    expect(rt, atc.answer(epoch, page(rt, number), translation) == want);
}

fn answer_page(
    rt: &impl Abort,
    atc: &mut Atc,
    epoch: u64,
    number: u64,
    frame: u32,
    rights: Rights,
    want: Taken,
) {
    answer(
        rt,
        atc,
        epoch,
        number,
        Translation::Page { frame, rights },
        want,
    );
}

fn ask(rt: &impl Abort, atc: &Atc, number: u64, epoch: u64) {
    let page = page(rt, number);
    expect(rt, atc.ask(page) == Message::Ask { epoch, page });
    expect(rt, atc.epoch() == epoch);
}

fn look(rt: &impl Abort, atc: &Atc, number: u64, kind: AccessKind, want: Option<u32>) {
    expect(rt, atc.look(page(rt, number), kind) == want);
}

fn invalidate(rt: &impl Abort, atc: &mut Atc, serial: u64, range: Range) {
    assert!(rt; atc.epoch() < 100);
    expect(
        rt,
        atc.invalidate(serial, range) == Message::InvDone { serial },
    );
}

fn reset(rt: &impl Abort, atc: &mut Atc) {
    assert!(rt; atc.epoch() < 100);
    atc.reset();
}

fn keep_each(rt: &impl Abort, atc: &mut Atc, from: u32, to: u32) {
    for number in from..to {
        answer_page(
            rt,
            atc,
            0,
            u64::from(number),
            number,
            Rights::RW,
            Taken::Kept,
        );
    }
}

fn find_each(rt: &impl Abort, atc: &Atc, from: u32, to: u32) {
    for number in from..to {
        look(rt, atc, u64::from(number), AccessKind::Read, Some(number));
    }
}

fn effect(rt: &impl Abort, atc: &mut Atc, step: Step) {
    match step {
        Step::Answer(epoch, number, frame, rights, want) => {
            answer_page(rt, atc, epoch, number, frame, rights, want);
        }
        Step::Refusal(epoch, number, want) => {
            let refusal = Translation::Refused(Cause::ReadPageFault);
            answer(rt, atc, epoch, number, refusal, want);
        }
        Step::Ask(number, epoch) => ask(rt, atc, number, epoch),
        Step::Read(number, want) => look(rt, atc, number, AccessKind::Read, want),
        Step::Write(number, want) => look(rt, atc, number, AccessKind::Write, want),
        Step::Invalidate(serial, number) => {
            invalidate(rt, atc, serial, Range::Page(page(rt, number)));
        }
        Step::InvalidateAll(serial) => invalidate(rt, atc, serial, Range::Everything),
        Step::Reset => reset(rt, atc),
        Step::KeepEach(from, to) => keep_each(rt, atc, from, to),
        Step::FindEach(from, to) => find_each(rt, atc, from, to),
    }
}

/// A new cache takes the steps.
pub(crate) fn follow(rt: &impl Abort, steps: &[Step]) {
    let mut atc = Atc::new();
    for step in steps.iter() {
        effect(rt, &mut atc, *step);
    }
}

#[test]
fn equal_caches_are_the_same(rt: HostRuntime) {
    let mut atc = Atc::new();
    let mut other = Atc::new();
    keep_each(&rt, &mut atc, 3, 5);
    keep_each(&rt, &mut other, 3, 5);
    expect(&rt, atc.is_same(&other));
    keep_each(&rt, &mut other, 3, 4);
    expect(&rt, !atc.is_same(&other));
}
