use crate::expect::{
    both_of, expect, expect_done, expect_grant, expect_hand_on, expect_may, expect_on,
    expect_release,
};
use iom_base::{Refusal, Rights};
use iom_claims::{Claims, Grant, NoSuchClaim, OpenClaim};
use std::test::Fail;

// A page is withdrawn and granted again before the first claim is done, and the claims are done in the other order.
#[test]
fn a_page_is_granted_again_while_its_claim_is_open(rt: HostRuntime) -> Result<(), Fail> {
    let mut claims = Claims::new(rt.alloc());
    expect_grant(&rt, &mut claims, both_of(1, 3, 5), Ok(()));
    expect_release(&rt, &mut claims, 1, 3, Ok(1));
    expect_grant(&rt, &mut claims, both_of(1, 3, 6), Ok(()));
    expect_may(&rt, &claims, 1, 5, true, true);
    expect_may(&rt, &claims, 1, 6, true, true);
    expect_release(&rt, &mut claims, 1, 3, Ok(2));
    expect_done(&rt, &mut claims, 2, Ok(()));
    expect_may(&rt, &claims, 1, 5, true, true);
    expect_may(&rt, &claims, 1, 6, false, false);
    let first = OpenClaim {
        number: 1,
        grant: both_of(1, 3, 5),
    };
    expect_on(&rt, &claims, 5, None, Some(first));
    expect(&rt, claims.open_claim(1) == Some(both_of(1, 3, 5)));
    expect_done(&rt, &mut claims, 1, Ok(()));
    expect_may(&rt, &claims, 1, 5, false, false);
    expect_done(&rt, &mut claims, 1, Err(NoSuchClaim));
    expect(&rt, claims.open_claim(1).is_none());
    Ok(())
}

// A frame that two devices hold, one of them to read it.
#[test]
fn the_first_holder_is_told(rt: HostRuntime) -> Result<(), Fail> {
    let mut claims = Claims::new(rt.alloc());
    let reader = Grant {
        device: 2,
        page: 9,
        frame: 5,
        rights: Rights::R,
    };
    expect_on(&rt, &claims, 5, None, None);
    expect_grant(&rt, &mut claims, reader, Ok(()));
    expect_grant(&rt, &mut claims, both_of(1, 3, 5), Ok(()));
    expect_may(&rt, &claims, 2, 5, true, false);
    expect_may(&rt, &claims, 2, 9, false, false);
    expect_on(&rt, &claims, 5, Some(reader), None);
    expect_release(&rt, &mut claims, 2, 9, Ok(1));
    expect(&rt, claims.held_at(2, 9).is_none());
    expect(&rt, claims.held_at(1, 3) == Some((5, Rights::RW)));
    let withdrawn = OpenClaim {
        number: 1,
        grant: reader,
    };
    expect_on(&rt, &claims, 5, Some(both_of(1, 3, 5)), Some(withdrawn));
    Ok(())
}

// A page that is held takes no other frame, and one that isn't gives none up. Neither takes a number.
#[test]
fn what_is_refused_changes_nothing(rt: HostRuntime) -> Result<(), Fail> {
    let mut claims = Claims::new(rt.alloc());
    expect_release(&rt, &mut claims, 1, 3, Err(Refusal::NotGranted));
    expect_grant(&rt, &mut claims, both_of(1, 3, 5), Ok(()));
    expect_grant(&rt, &mut claims, both_of(1, 3, 6), Err(Refusal::IovaBusy));
    expect(&rt, claims.held_at(1, 3) == Some((5, Rights::RW)));
    expect_release(&rt, &mut claims, 1, 4, Err(Refusal::NotGranted));
    expect_done(&rt, &mut claims, 1, Err(NoSuchClaim));
    expect_release(&rt, &mut claims, 1, 3, Ok(1));
    Ok(())
}

// A frame is handed on until it is taken, or granted.
#[test]
fn a_frame_is_handed_on_until_it_is_taken_or_granted(rt: HostRuntime) -> Result<(), Fail> {
    let mut claims = Claims::new(rt.alloc());
    expect(&rt, !claims.is_handed_on(5));
    expect_hand_on(&rt, &mut claims, 5);
    expect_hand_on(&rt, &mut claims, 7);
    expect(&rt, claims.is_handed_on(5));
    claims.take(5);
    expect(&rt, !claims.is_handed_on(5));
    expect(&rt, claims.is_handed_on(7));
    expect_grant(&rt, &mut claims, both_of(1, 3, 7), Ok(()));
    expect(&rt, !claims.is_handed_on(7));
    Ok(())
}

// In which order frames were handed on is no matter.
#[test]
fn equal_claims_are_the_same(rt: HostRuntime) -> Result<(), Fail> {
    let mut claims = Claims::new(rt.alloc());
    let mut other = Claims::new(rt.alloc());
    expect_hand_on(&rt, &mut claims, 5);
    expect_hand_on(&rt, &mut claims, 7);
    expect_hand_on(&rt, &mut other, 7);
    expect(&rt, !claims.is_same(&other));
    expect_hand_on(&rt, &mut other, 5);
    expect(&rt, claims.is_same(&other));
    expect_grant(&rt, &mut other, both_of(1, 3, 6), Ok(()));
    expect(&rt, !claims.is_same(&other));
    Ok(())
}
