use crate::mailbox::Mailbox;
use crate::making::{cell, long_test, test};
use iom_litmus::{Histogram, Search, SearchFault};
use iom_litmus_test::{Test, Value};
use std::alloc::Global;
use std::process::Abort;
use std::test::Fail;

fn expect(rt: &impl Abort, holds: bool) {
    assert!(rt; holds);
}

fn explored(alloc: Global, test: &Test, most: usize) -> Result<Histogram, SearchFault> {
    let search = Search::<Mailbox> {
        alloc,
        test,
        opening: &(),
    };
    match search.explore(most, &mut ()) {
        Ok(explored) => Ok(explored.histogram),
        Err(fault) => Err(fault),
    }
}

/// How many schedules have this answer, and are stuck or not.
fn count_of(histogram: &Histogram, answer: &[u8], stuck: bool) -> u64 {
    for row in histogram.rows.as_slice() {
        if let [Value::Text(text), Value::Truth(truth)] = row.outcome.as_slice() {
            if text.as_slice() == answer && *truth == stuck {
                return row.count;
            }
        }
    }
    0
}

// One sends, one looks, and the message comes: the look is before the sending, between, or behind.
#[test]
fn three_orders(rt: HostRuntime) -> Result<(), Fail> {
    let alloc = rt.alloc();
    let test = test(
        alloc,
        cell(alloc, b"send", None)?,
        cell(alloc, b"look", None)?,
        0,
    )?;
    let histogram = explored(alloc, &test, 100).expect(&rt, "there are three");
    expect(&rt, count_of(&histogram, b"came", false) == 1);
    expect(&rt, count_of(&histogram, b"none", false) == 2);
    expect(&rt, histogram.rows.as_slice().len() == 2);
    Ok(())
}

// The message may also be lost: then each order is there once more, and no look sees it.
#[test]
fn a_message_may_be_lost(rt: HostRuntime) -> Result<(), Fail> {
    let alloc = rt.alloc();
    let test = test(
        alloc,
        cell(alloc, b"send", None)?,
        cell(alloc, b"look", None)?,
        1,
    )?;
    let histogram = explored(alloc, &test, 100).expect(&rt, "there are six");
    expect(&rt, count_of(&histogram, b"came", false) == 1);
    expect(&rt, count_of(&histogram, b"none", false) == 5);
    Ok(())
}

// Who waits for the message is stuck where it is lost.
#[test]
fn a_column_may_be_stuck(rt: HostRuntime) -> Result<(), Fail> {
    let alloc = rt.alloc();
    let waiting = cell(alloc, b"look", Some(b"c*"))?;
    let test = test(alloc, cell(alloc, b"send", None)?, waiting, 1)?;
    let histogram = explored(alloc, &test, 100).expect(&rt, "there are two");
    expect(&rt, count_of(&histogram, b"came", false) == 1);
    expect(&rt, count_of(&histogram, b"", true) == 1);
    expect(&rt, histogram.rows.as_slice().len() == 2);
    Ok(())
}

// More places than it may find.
#[test]
fn a_search_gives_up(rt: HostRuntime) -> Result<(), Fail> {
    let alloc = rt.alloc();
    let test = test(
        alloc,
        cell(alloc, b"send", None)?,
        cell(alloc, b"look", None)?,
        0,
    )?;
    let histogram = explored(alloc, &test, 100).expect(&rt, "there are few");
    expect(&rt, explored(alloc, &test, histogram.places).is_ok());
    expect(
        &rt,
        matches!(explored(alloc, &test, 2), Err(SearchFault::TooMany)),
    );
    Ok(())
}

// Two columns of fourteen looks each: 28! / (14! * 14!) orders over 15 * 15 places.
#[test]
fn equal_places_are_gone_on_from_once(rt: HostRuntime) -> Result<(), Fail> {
    let alloc = rt.alloc();
    let test = long_test(alloc, 14)?;
    let histogram = explored(alloc, &test, 225).expect(&rt, "there are 225 places");
    expect(&rt, histogram.places == 225);
    let [row] = histogram.rows.as_slice() else {
        expect(&rt, false);
        return Ok(());
    };
    expect(&rt, row.count == 40_116_600);
    expect(&rt, row.schedule.as_slice().len() == 28);
    Ok(())
}
