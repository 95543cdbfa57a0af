use crate::expect::expect;
use iom_base::{DeviceId, Refusal, Rights};
use iom_ledger::{Ledger, MAX_PENDING, Row};
use std::alloc::{AllocError, Global};
use std::process::Abort;
use std::test::Fail;

/// The line of each refusal, in the order of their numbers.
static REFUSALS: [(Refusal, &str); 23] = [
    (Refusal::NoSuchDevice, "refused 1 NoSuchDevice"),
    (Refusal::AlreadyAttached, "refused 2 AlreadyAttached"),
    (Refusal::NotAttached, "refused 3 NotAttached"),
    (Refusal::NotTrusted, "refused 4 NotTrusted"),
    (Refusal::FrameOutOfRange, "refused 5 FrameOutOfRange"),
    (Refusal::FrameReserved, "refused 6 FrameReserved"),
    (Refusal::IovaOutOfRange, "refused 7 IovaOutOfRange"),
    (Refusal::IovaBusy, "refused 8 IovaBusy"),
    (Refusal::NotGranted, "refused 9 NotGranted"),
    (Refusal::NoFrames, "refused 10 NoFrames"),
    (Refusal::QueueFull, "refused 11 QueueFull"),
    (Refusal::TooManyPending, "refused 12 TooManyPending"),
    (Refusal::Quarantined, "refused 13 Quarantined"),
    (Refusal::NumbersUsedUp, "refused 14 NumbersUsedUp"),
    (Refusal::Memory, "refused 15 Memory"),
    (Refusal::StillGranted, "refused 16 StillGranted"),
    (Refusal::IdTooWide, "refused 17 IdTooWide"),
    (Refusal::TooManyDevices, "refused 18 TooManyDevices"),
    (Refusal::NotStarted, "refused 19 NotStarted"),
    (Refusal::AlreadyPlugged, "refused 20 AlreadyPlugged"),
    (Refusal::WrongKind, "refused 21 WrongKind"),
    (Refusal::BadMedium, "refused 22 BadMedium"),
    (Refusal::BadQueue, "refused 23 BadQueue"),
];

fn is_told(rt: &impl Abort, alloc: Global, refusal: Refusal, line: &str) -> Result<(), AllocError> {
    let text = format!(in alloc; "{refusal}")?;
    expect(rt, text.as_str() == line);
    Ok(())
}

// Each of them is told by its number and its name.
#[test]
fn each_refusal_is_told_by_number_and_name(rt: HostRuntime) -> Result<(), Fail> {
    for (refusal, line) in REFUSALS.iter() {
        is_told(&rt, rt.alloc(), *refusal, line)?;
    }
    Ok(())
}

/// What stands at a page: the frame and its rights.
pub(crate) type At = Option<(u32, Rights)>;

/// A call of a ledger, or what it answers.
#[derive(Clone, Copy)]
pub(crate) enum Step<'a> {
    Grant(DeviceId, u64, u32, Rights),
    Release(DeviceId, u64, u32),
    ReleaseAll(DeviceId, u32),
    Confirm(u32),
    /// The grants and the unconfirmed releases of a frame, where it has a row.
    Row(u32, Option<(u128, u128)>),
    Free(u32, bool),
    /// Of those below a limit the highest free one that isn't named.
    HighestFree(u32, Option<u32>, Option<u32>),
    Holds(DeviceId, u64, At),
    Lingers(DeviceId, u64, At),
    HoldsAnything(DeviceId, bool),
    LingersAnything(DeviceId, bool),
    Pending(usize),
    /// All pages at which the device holds something or something lingers, in the order of the list.
    Pages(DeviceId, &'a [u64]),
}

/// Grants, where the page is vacant. Whether there was memory for it.
fn grant(ledger: &mut Ledger, device: DeviceId, page: u64, frame: u32, rights: Rights) -> bool {
    let is_right = rights == Rights::R || rights == Rights::RW;
    if !is_right || ledger.holds(device, page).is_some() || ledger.lingers(device, page).is_some() {
        return false;
    }
    ledger.grant(device, page, frame, rights).is_ok()
}

/// Releases what is held at the page.
fn release(ledger: &mut Ledger, device: DeviceId, page: u64, ticket: u32) -> bool {
    let Ok(()) = ledger.make_room() else {
        return false;
    };
    if ledger.holds(device, page).is_none() || ledger.pending() >= MAX_PENDING {
        return false;
    }
    ledger.release(device, page, ticket);
    true
}

fn release_all(ledger: &mut Ledger, device: DeviceId, ticket: u32) -> bool {
    let Ok(()) = ledger.make_room() else {
        return false;
    };
    if ledger.pending() >= MAX_PENDING {
        return false;
    }
    ledger.release_all(device, ticket);
    true
}

fn has_row(ledger: &Ledger, frame: u32, expected: Option<(u128, u128)>) -> bool {
    let row: Option<Row> = ledger.row(frame).copied();
    row.map(|row| (row.grants, row.pending)) == expected
}

fn highest_free(ledger: &Ledger, limit: u32, named: Option<u32>) -> Option<u32> {
    let free = ledger.free_frames();
    free.highest_in_both(free, limit, named)
}

/// The pages of the device are these, and there is none behind the last.
fn are_listed(ledger: &Ledger, device: DeviceId, pages: &[u64]) -> bool {
    for (index, page) in pages.iter().enumerate() {
        if ledger.page_at(device, index) != Some(*page) {
            return false;
        }
    }
    ledger.page_count(device) == pages.len() && ledger.page_at(device, pages.len()).is_none()
}

/// Whether the step is done and answered so.
fn effect(ledger: &mut Ledger, step: Step) -> bool {
    match step {
        Step::Grant(device, page, frame, rights) => grant(ledger, device, page, frame, rights),
        Step::Release(device, page, ticket) => release(ledger, device, page, ticket),
        Step::ReleaseAll(device, ticket) => release_all(ledger, device, ticket),
        Step::Confirm(ticket) => {
            ledger.confirm(ticket);
            true
        }
        _ => answers(ledger, step),
    }
}

/// Whether what is asked is answered so.
fn answers(ledger: &Ledger, step: Step) -> bool {
    match step {
        Step::Row(frame, row) => has_row(ledger, frame, row),
        Step::Free(frame, is) => {
            ledger.is_free(frame) == is && ledger.free_frames().contains(frame) == is
        }
        Step::HighestFree(limit, named, highest) => highest_free(ledger, limit, named) == highest,
        Step::Holds(device, page, at) => {
            ledger.holds(device, page) == at && (at.is_none() || !ledger.is_vacant(device, page))
        }
        Step::Lingers(device, page, at) => ledger.lingers(device, page) == at,
        Step::HoldsAnything(device, is) => ledger.holds_anything(device) == is,
        Step::LingersAnything(device, is) => ledger.lingers_anything(device) == is,
        Step::Pending(count) => ledger.pending() == count,
        Step::Pages(device, pages) => are_listed(ledger, device, pages),
        _ => false,
    }
}

/// A ledger of so many frames that took the steps.
fn after(rt: &impl Abort, alloc: Global, frames: u32, steps: &[Step]) -> Box<Ledger> {
    let mut ledger = ledger_of(alloc, frames).expect(rt, "memory for a ledger");
    for step in steps.iter() {
        expect(rt, effect(&mut ledger, *step));
    }
    ledger
}

/// A ledger of so many frames takes the steps.
pub(crate) fn follow(rt: &impl Abort, alloc: Global, frames: u32, steps: &[Step]) {
    let _ledger = after(rt, alloc, frames, steps);
}

/// A ledger of no grants, boxed: of what a test owns in place each later proof would carry every part.
fn ledger_of(alloc: Global, frames: u32) -> Result<Box<Ledger>, AllocError> {
    let ledger = Ledger::new(alloc, frames)?;
    Ok(Box::new(alloc, ledger)?)
}

/// Two devices hold the frame, one of them at two pages: it is free once the last ticket is confirmed. The counts grow
/// beyond the four frames.
static TWO_DEVICES: [Step; 39] = [
    Step::Free(5, true),
    Step::Grant(1, 3, 5, Rights::RW),
    Step::Free(5, false),
    Step::Grant(1, 4, 5, Rights::R),
    Step::Free(5, false),
    Step::Release(1, 3, 1),
    Step::Free(5, false),
    Step::Confirm(1),
    Step::Free(5, false),
    Step::Release(1, 4, 2),
    Step::Free(5, false),
    Step::Confirm(2),
    Step::Free(5, true),
    Step::Grant(1, 3, 5, Rights::RW),
    Step::Free(5, false),
    Step::Grant(2, 4, 5, Rights::R),
    Step::Free(5, false),
    Step::Release(1, 3, 3),
    Step::Free(5, false),
    Step::Confirm(3),
    Step::Free(5, false),
    Step::Grant(1, 7, 5, Rights::R),
    Step::Free(5, false),
    Step::Grant(1, 8, 6, Rights::R),
    Step::Free(5, false),
    Step::Release(1, 7, 4),
    Step::Free(5, false),
    Step::ReleaseAll(1, 5),
    Step::Free(5, false),
    Step::ReleaseAll(2, 6),
    Step::Free(5, false),
    Step::Confirm(6),
    Step::Free(5, false),
    Step::Confirm(5),
    Step::Free(5, false),
    Step::Confirm(4),
    Step::Free(5, true),
    Step::Free(6, true),
    Step::Free(u32::MAX, true),
];

#[test]
fn a_frame_of_two_devices_is_free_after_the_last_confirmation(rt: HostRuntime) {
    follow(&rt, rt.alloc(), 4, &TWO_DEVICES);
}

/// What stands at a page.
#[derive(Clone, Copy, PartialEq)]
enum Page {
    Vacant,
    Held(u32, Rights),
    Lingers(u32, Rights),
    Both,
}

/// What every look-up answers: at pages 16 and 17 of device 1 and page 16 of device 2; which of the frames 5, 6 and 7 are
/// free; which of the two devices hold something, and of which something lingers; and how many tickets are pending.
struct Look {
    first: Page,
    second: Page,
    other: Page,
    free: [bool; 3],
    holds: [bool; 2],
    lingers: [bool; 2],
    pending: usize,
}

fn page_at(ledger: &Ledger, device: DeviceId, page: u64) -> Page {
    match (ledger.holds(device, page), ledger.lingers(device, page)) {
        (Some((frame, rights)), None) => Page::Held(frame, rights),
        (None, Some((frame, rights))) => Page::Lingers(frame, rights),
        (None, None) => Page::Vacant,
        (Some(_), Some(_)) => Page::Both,
    }
}

fn free_look(ledger: &Ledger) -> [bool; 3] {
    [ledger.is_free(5), ledger.is_free(6), ledger.is_free(7)]
}

fn looks(rt: &impl Abort, ledger: &Ledger, look: &Look) {
    expect(rt, page_at(ledger, 1, 16) == look.first);
    expect(rt, page_at(ledger, 1, 17) == look.second);
    expect(rt, page_at(ledger, 2, 16) == look.other);
    expect(rt, free_look(ledger) == look.free);
    let holds = [ledger.holds_anything(1), ledger.holds_anything(2)];
    expect(rt, holds == look.holds);
    let lingers = [ledger.lingers_anything(1), ledger.lingers_anything(2)];
    expect(rt, lingers == look.lingers);
    expect(rt, ledger.pending() == look.pending);
}

/// Entries, each with what the history leaves then, worked out by hand.
static HISTORY: [(Step, Look); 14] = [
    (
        Step::Grant(1, 16, 5, Rights::RW),
        Look {
            first: Page::Held(5, Rights::RW),
            second: Page::Vacant,
            other: Page::Vacant,
            free: [false, true, true],
            holds: [true, false],
            lingers: [false, false],
            pending: 0,
        },
    ),
    (
        Step::Grant(2, 16, 5, Rights::R),
        Look {
            first: Page::Held(5, Rights::RW),
            second: Page::Vacant,
            other: Page::Held(5, Rights::R),
            free: [false, true, true],
            holds: [true, true],
            lingers: [false, false],
            pending: 0,
        },
    ),
    (
        Step::Grant(1, 17, 6, Rights::R),
        Look {
            first: Page::Held(5, Rights::RW),
            second: Page::Held(6, Rights::R),
            other: Page::Held(5, Rights::R),
            free: [false, false, true],
            holds: [true, true],
            lingers: [false, false],
            pending: 0,
        },
    ),
    (
        Step::Release(1, 16, 1),
        Look {
            first: Page::Lingers(5, Rights::RW),
            second: Page::Held(6, Rights::R),
            other: Page::Held(5, Rights::R),
            free: [false, false, true],
            holds: [true, true],
            lingers: [true, false],
            pending: 1,
        },
    ),
    (
        Step::Confirm(9),
        Look {
            first: Page::Lingers(5, Rights::RW),
            second: Page::Held(6, Rights::R),
            other: Page::Held(5, Rights::R),
            free: [false, false, true],
            holds: [true, true],
            lingers: [true, false],
            pending: 1,
        },
    ),
    (
        Step::ReleaseAll(2, 2),
        Look {
            first: Page::Lingers(5, Rights::RW),
            second: Page::Held(6, Rights::R),
            other: Page::Lingers(5, Rights::R),
            free: [false, false, true],
            holds: [true, false],
            lingers: [true, true],
            pending: 2,
        },
    ),
    (
        Step::Confirm(1),
        Look {
            first: Page::Vacant,
            second: Page::Held(6, Rights::R),
            other: Page::Lingers(5, Rights::R),
            free: [false, false, true],
            holds: [true, false],
            lingers: [false, true],
            pending: 1,
        },
    ),
    (
        Step::Grant(1, 16, 7, Rights::RW),
        Look {
            first: Page::Held(7, Rights::RW),
            second: Page::Held(6, Rights::R),
            other: Page::Lingers(5, Rights::R),
            free: [false, false, false],
            holds: [true, false],
            lingers: [false, true],
            pending: 1,
        },
    ),
    (
        Step::ReleaseAll(1, 3),
        Look {
            first: Page::Lingers(7, Rights::RW),
            second: Page::Lingers(6, Rights::R),
            other: Page::Lingers(5, Rights::R),
            free: [false, false, false],
            holds: [false, false],
            lingers: [true, true],
            pending: 2,
        },
    ),
    (
        Step::Confirm(2),
        Look {
            first: Page::Lingers(7, Rights::RW),
            second: Page::Lingers(6, Rights::R),
            other: Page::Vacant,
            free: [true, false, false],
            holds: [false, false],
            lingers: [true, false],
            pending: 1,
        },
    ),
    (
        Step::ReleaseAll(2, 4),
        Look {
            first: Page::Lingers(7, Rights::RW),
            second: Page::Lingers(6, Rights::R),
            other: Page::Vacant,
            free: [true, false, false],
            holds: [false, false],
            lingers: [true, false],
            pending: 2,
        },
    ),
    (
        Step::Confirm(3),
        Look {
            first: Page::Vacant,
            second: Page::Vacant,
            other: Page::Vacant,
            free: [true, true, true],
            holds: [false, false],
            lingers: [false, false],
            pending: 1,
        },
    ),
    (
        Step::Confirm(4),
        Look {
            first: Page::Vacant,
            second: Page::Vacant,
            other: Page::Vacant,
            free: [true, true, true],
            holds: [false, false],
            lingers: [false, false],
            pending: 0,
        },
    ),
    (
        Step::Grant(2, 16, 6, Rights::RW),
        Look {
            first: Page::Vacant,
            second: Page::Vacant,
            other: Page::Held(6, Rights::RW),
            free: [true, false, true],
            holds: [false, true],
            lingers: [false, false],
            pending: 0,
        },
    ),
];

#[test]
fn each_lookup_answers_what_the_history_says(rt: HostRuntime) -> Result<(), Fail> {
    let mut ledger = ledger_of(rt.alloc(), 8)?;
    for (step, look) in HISTORY.iter() {
        expect(&rt, effect(&mut ledger, *step));
        looks(&rt, &ledger, look);
    }
    Ok(())
}

/// The grant of frame 5 at the page was refused, and the row was this: nothing has changed.
fn is_unchanged(
    rt: &impl Abort,
    ledger: &Ledger,
    device: DeviceId,
    page: u64,
    before: &Option<Row>,
) {
    expect(rt, ledger.row(5).copied() == *before);
    expect(rt, ledger.holds(device, page) == None);
    expect(rt, ledger.lingers(device, page) == None);
    expect(rt, ledger.holds_anything(device) == (page > 0));
}

/// The device is granted frame 5 at the page, which is vacant, at the second call where it is refused at the
/// first.
fn grant_again(
    rt: &impl Abort,
    ledger: &mut Ledger,
    device: DeviceId,
    page: u64,
) -> Result<(), Fail> {
    if ledger.holds(device, page).is_none() && ledger.lingers(device, page).is_none() {
        let before = ledger.row(5).copied();
        if ledger.grant(device, page, 5, Rights::R).is_err() {
            is_unchanged(rt, ledger, device, page, &before);
            ledger.grant(device, page, 5, Rights::R)?;
        }
        expect(rt, ledger.holds(device, page) == Some((5, Rights::R)));
        expect(rt, !ledger.is_vacant(device, page));
    }
    Ok(())
}

// Where a call finds no memory it changes nothing.
#[test]
fn a_refused_call_changes_nothing_and_succeeds_at_once_when_repeated(
    rt: HostRuntime,
) -> Result<(), Fail> {
    let mut ledger = match ledger_of(rt.alloc(), 2) {
        Ok(ledger) => ledger,
        Err(_) => ledger_of(rt.alloc(), 2)?,
    };
    for device in 1..4 {
        for page in 0..20 {
            grant_again(&rt, &mut ledger, device, page)?;
        }
    }
    Ok(())
}

/// Of six frames 4 and 2 are granted, and 5 and one beyond memory after them: the free ones come and go with
/// the rows, and those beyond memory are free too.
static SIX_FRAMES: [Step; 38] = [
    Step::Free(u32::MAX, true),
    Step::HighestFree(u32::MAX, None, Some(u32::MAX - 1)),
    Step::Grant(1, 3, 4, Rights::RW),
    Step::HighestFree(6, None, Some(5)),
    Step::Free(3, true),
    Step::Grant(2, 3, 4, Rights::R),
    Step::HighestFree(6, None, Some(5)),
    Step::Free(3, true),
    Step::Grant(1, 4, 2, Rights::R),
    Step::HighestFree(6, None, Some(5)),
    Step::Free(3, true),
    Step::Grant(1, 5, 5, Rights::R),
    Step::HighestFree(6, None, Some(3)),
    Step::Free(3, true),
    Step::Grant(1, 6, 900, Rights::R),
    Step::HighestFree(6, None, Some(3)),
    Step::Free(3, true),
    Step::Release(1, 3, 1),
    Step::HighestFree(6, None, Some(3)),
    Step::Free(3, true),
    Step::Confirm(1),
    Step::HighestFree(6, None, Some(3)),
    Step::Free(3, true),
    Step::ReleaseAll(2, 2),
    Step::HighestFree(6, None, Some(3)),
    Step::Free(3, true),
    Step::Confirm(2),
    Step::HighestFree(6, None, Some(4)),
    Step::Free(3, true),
    Step::ReleaseAll(1, 3),
    Step::HighestFree(6, None, Some(4)),
    Step::Free(3, true),
    Step::Confirm(3),
    Step::HighestFree(6, None, Some(5)),
    Step::Free(3, true),
    Step::HighestFree(4, Some(3), Some(2)),
    Step::HighestFree(1, Some(0), None),
    Step::Free(900, true),
];

#[test]
fn the_free_frames_are_those_of_no_row(rt: HostRuntime) {
    follow(&rt, rt.alloc(), 6, &SIX_FRAMES);
}

/// Two grants.
static GRANTED: [Step; 2] = [
    Step::Grant(1, 3, 5, Rights::R),
    Step::Grant(1, 4, 5, Rights::R),
];

/// One of the two is released.
static RELEASED: [Step; 3] = [
    Step::Grant(1, 3, 5, Rights::R),
    Step::Grant(1, 4, 5, Rights::R),
    Step::Release(1, 3, 1),
];

// Ledgers to which the same happened are equal, and others aren't.
#[test]
fn ledgers_are_compared(rt: HostRuntime) {
    let granted = after(&rt, rt.alloc(), 8, &GRANTED);
    let again = after(&rt, rt.alloc(), 8, &GRANTED);
    let released = after(&rt, rt.alloc(), 8, &RELEASED);
    expect(&rt, granted.is_same(&again));
    expect(&rt, !granted.is_same(&released));
}
