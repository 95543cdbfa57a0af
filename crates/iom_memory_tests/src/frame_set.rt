use crate::expect::expect;
use iom_frame_set::FrameSet;
use std::alloc::{AllocError, Global};
use std::process::Abort;

// The sets of a test are boxed: of what a test owns in place each later proof would carry every part.

/// A set of all frames.
fn full(rt: &impl Abort, alloc: Global) -> Box<FrameSet> {
    Box::new(alloc, FrameSet::full(alloc)).expect(rt, "memory for a set")
}

/// A set of these frames.
fn set_of(rt: &impl Abort, alloc: Global, frames: &[u32]) -> Box<FrameSet> {
    let set = with_frames(alloc, frames).expect(rt, "memory for a set");
    Box::new(alloc, set).expect(rt, "memory for a set")
}

/// The same in place, with room for each frame below 6,000.
fn with_frames(alloc: Global, frames: &[u32]) -> Result<FrameSet, AllocError> {
    let mut set = FrameSet::empty(alloc);
    set.make_room(5999)?;
    for frame in frames {
        if *frame < 6000 {
            set.insert(*frame);
        }
    }
    Ok(set)
}

/// A limit, the named frame, and the highest frame below the limit that is in both sets and isn't named.
type Case = (u32, Option<u32>, Option<u32>);

static WITH_ALL: [Case; 11] = [
    (u32::MAX, None, Some(5000)),
    (u32::MAX, Some(5000), Some(130)),
    (5000, None, Some(130)),
    (5000, Some(64), Some(130)),
    (130, None, Some(64)),
    (130, Some(64), Some(63)),
    (64, Some(63), Some(3)),
    (63, None, Some(3)),
    (4, Some(3), None),
    (3, None, None),
    (0, None, None),
];

static WITH_OTHER: [Case; 4] = [
    (u32::MAX, None, Some(64)),
    (64, None, Some(3)),
    (5000, Some(64), Some(3)),
    (3, None, None),
];

/// Asked of either set, each case is answered so.
fn are_found(rt: &impl Abort, set: &FrameSet, with: &FrameSet, cases: &[Case]) {
    for (limit, named, highest) in cases {
        expect(rt, set.highest_in_both(with, *limit, *named) == *highest);
        expect(rt, with.highest_in_both(set, *limit, *named) == *highest);
    }
}

#[test]
fn the_highest_frame_in_both_is_found(rt: HostRuntime) {
    let all = full(&rt, rt.alloc());
    let set = set_of(&rt, rt.alloc(), &[3, 63, 64, 130, 5000]);
    let other = set_of(&rt, rt.alloc(), &[2, 3, 62, 65, 64, 131, 4096, 5001]);
    are_found(&rt, &set, &all, &WITH_ALL);
    are_found(&rt, &set, &other, &WITH_OTHER);
}

/// A limit, and how many of the frames 3, 63, 64, 130 and 5,000 are below it.
static COUNTS: [(u32, u32); 5] = [(6000, 5), (131, 4), (130, 3), (64, 2), (3, 0)];

fn are_counted(rt: &impl Abort, set: &FrameSet, all: &FrameSet) {
    for (limit, count) in COUNTS.iter() {
        expect(rt, set.count_in_both(all, *limit) == *count);
    }
}

// Of the common frames those below the limit are counted, also in the middle of a word.
#[test]
fn the_frames_in_both_are_counted(rt: HostRuntime) {
    let all = full(&rt, rt.alloc());
    let set = set_of(&rt, rt.alloc(), &[3, 63, 64, 130, 5000]);
    are_counted(&rt, &set, &all);
    expect(&rt, all.count_in_both(&all, 100) == 100);
}

/// The highest frame of both below 4,096, besides the named one, is this.
fn is_highest(rt: &impl Abort, set: &FrameSet, all: &FrameSet, named: Option<u32>, highest: u32) {
    let found = set.highest_in_both(all, 4096, named);
    expect(rt, found == Some(highest));
}

/// All frames but 8 are taken out, one by one.
fn take_out(set: &mut FrameSet) -> Result<(), AllocError> {
    set.make_room(4095)?;
    for frame in (8..4096u32).rev() {
        set.remove(frame);
    }
    Ok(())
}

/// From the largest memory all frames but 8 are taken out, one by one.
#[test]
fn a_frame_that_is_taken_out_is_found_no_more(rt: HostRuntime) {
    let mut set = full(&rt, rt.alloc());
    let all = full(&rt, rt.alloc());
    is_highest(&rt, &set, &all, None, 4095);
    expect(&rt, take_out(&mut set).is_ok());
    expect(&rt, !set.contains(4095));
    expect(&rt, set.contains(4096));
    is_highest(&rt, &set, &all, None, 7);
    is_highest(&rt, &set, &all, Some(7), 6);
}

// Sets are equal that have the same frames, in whatever order these were put in.
#[test]
fn sets_are_compared(rt: HostRuntime) {
    let set = set_of(&rt, rt.alloc(), &[3, 130]);
    let turned = set_of(&rt, rt.alloc(), &[130, 3]);
    let smaller = set_of(&rt, rt.alloc(), &[3]);
    let all = full(&rt, rt.alloc());
    expect(&rt, set.is_same(&turned));
    expect(&rt, !set.is_same(&smaller));
    expect(&rt, !set.is_same(&all));
}
