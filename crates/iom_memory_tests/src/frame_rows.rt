use crate::expect::expect;
use crate::ledger::{Step, follow};
use iom_base::Rights;
use iom_ledger::Row;
use std::alloc::{AllocError, Global};
use std::process::Abort;
use std::test::Fail;

/// A frame is granted at two pages, and given back at one after the other.
static TWO_PAGES: [Step; 14] = [
    Step::Row(5, Some((0, 0))),
    Step::Grant(1, 3, 5, Rights::RW),
    Step::Row(5, Some((1, 0))),
    Step::Grant(1, 4, 5, Rights::R),
    Step::Row(5, Some((2, 0))),
    Step::Release(1, 3, 1),
    Step::Row(5, Some((1, 1))),
    Step::Confirm(1),
    Step::Row(5, Some((1, 0))),
    Step::Release(1, 4, 2),
    Step::Row(5, Some((0, 1))),
    Step::Confirm(2),
    Step::Row(5, Some((0, 0))),
    Step::Free(5, true),
];

#[test]
fn a_row_counts_both_grants_of_its_frame(rt: HostRuntime) {
    follow(&rt, rt.alloc(), 64, &TWO_PAGES);
}

/// Of three pages with the frame one is released before all of its device, and one is another device's.
static THREE_PAGES: [Step; 28] = [
    Step::Grant(1, 3, 5, Rights::RW),
    Step::Row(5, Some((1, 0))),
    Step::Grant(1, 4, 5, Rights::R),
    Step::Row(5, Some((2, 0))),
    Step::Grant(2, 3, 5, Rights::R),
    Step::Row(5, Some((3, 0))),
    Step::Grant(1, 5, 6, Rights::R),
    Step::Row(5, Some((3, 0))),
    Step::Release(1, 3, 1),
    Step::Row(5, Some((2, 1))),
    Step::ReleaseAll(1, 2),
    Step::Row(5, Some((1, 2))),
    Step::Confirm(7),
    Step::Row(5, Some((1, 2))),
    Step::Confirm(1),
    Step::Row(5, Some((1, 1))),
    Step::Row(6, Some((0, 1))),
    Step::Confirm(2),
    Step::Row(5, Some((1, 0))),
    Step::Grant(1, 4, 5, Rights::RW),
    Step::Row(5, Some((2, 0))),
    Step::ReleaseAll(2, 3),
    Step::Row(5, Some((1, 1))),
    Step::ReleaseAll(1, 3),
    Step::Row(5, Some((0, 2))),
    Step::Confirm(3),
    Step::Row(5, Some((0, 0))),
    Step::Row(6, Some((0, 0))),
];

#[test]
fn a_release_of_all_counts_each_page_once(rt: HostRuntime) {
    follow(&rt, rt.alloc(), 64, &THREE_PAGES);
}

/// Rows come with a grant of a frame beyond, up to its own, and stay.
static OUTSIDE: [Step; 15] = [
    Step::Row(3, Some((0, 0))),
    Step::Row(4, None),
    Step::Row(u32::MAX, None),
    Step::Free(4, true),
    Step::Grant(1, 3, 6, Rights::R),
    Step::Row(5, Some((0, 0))),
    Step::Row(6, Some((1, 0))),
    Step::Row(7, None),
    Step::Release(1, 3, 1),
    Step::Row(6, Some((0, 1))),
    Step::Confirm(1),
    Step::Row(6, Some((0, 0))),
    Step::Grant(1, 3, 2, Rights::R),
    Step::Row(6, Some((0, 0))),
    Step::Row(7, None),
];

#[test]
fn a_frame_outside_has_no_row(rt: HostRuntime) {
    follow(&rt, rt.alloc(), 4, &OUTSIDE);
}

/// The row is free or not, and shows its counts.
fn is_shown(
    rt: &impl Abort,
    alloc: Global,
    row: Row,
    is_free: bool,
    shown: &str,
) -> Result<(), AllocError> {
    expect(rt, row.is_free() == is_free);
    let text = format!(in alloc; "{row:?}")?;
    expect(rt, text.as_str() == shown);
    Ok(())
}

static ROWS: [(u128, u128, bool, &str); 4] = [
    (0, 0, true, "Row { grants: 0, pending: 0 }"),
    (1, 0, false, "Row { grants: 1, pending: 0 }"),
    (0, 1, false, "Row { grants: 0, pending: 1 }"),
    (
        u128::MAX,
        2,
        false,
        "Row { grants: 340282366920938463463374607431768211455, pending: 2 }",
    ),
];

/// A row is free where both of its counts are 0, and shows them.
#[test]
fn a_row_is_free_where_nothing_names_its_frame(rt: HostRuntime) -> Result<(), Fail> {
    for (grants, pending, is_free, shown) in ROWS.iter() {
        let row = Row {
            grants: *grants,
            pending: *pending,
        };
        is_shown(&rt, rt.alloc(), row, *is_free, shown)?;
    }
    Ok(())
}
