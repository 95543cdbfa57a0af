// The words behind `; again: `: which claims that were good aren't any more.
use crate::words::why;
use iom_chronicle::Chronicle;
use iom_hardware_session::{GoodClaim, Session, Wrong};
use std::alloc::{AllocError, Global};

/// Which claim it is.
fn name_of(alloc: Global, claim: GoodClaim) -> Result<String, AllocError> {
    match claim {
        GoodClaim::Done { number, .. } => format!(in alloc; "claim {number}: "),
        GoodClaim::HandedOff { frame } => format!(in alloc; "handoff {frame}: "),
    }
}

/// The frame that the claim is about.
fn frame_of(claim: GoodClaim) -> u32 {
    match claim {
        GoodClaim::Done { frame, .. } | GoodClaim::HandedOff { frame } => frame,
    }
}

/// What is told of one that isn't good any more.
fn fallen_one(
    alloc: Global,
    session: &Session,
    chronicle: &Chronicle,
    claim: GoodClaim,
    wrong: Wrong,
) -> Result<String, AllocError> {
    let reason = why(alloc, session, chronicle, frame_of(claim), 0, wrong)?;
    // Where nothing is certain that is told of no claim in particular.
    let name = if wrong == Wrong::Uncertain {
        String::new(alloc)
    } else {
        name_of(alloc, claim)?
    };
    format!(in alloc; "; again: {name}{reason}")
}

/// What is told of all that aren't good any more, one after another. Where nothing is certain none is good, and that is
/// told once.
pub(crate) fn fallen(
    alloc: Global,
    session: &Session,
    chronicle: &Chronicle,
) -> Result<String, AllocError> {
    let mut words = String::new(alloc);
    for own in session.watched() {
        if let Some(wrong) = own.why {
            words.push_str(&fallen_one(alloc, session, chronicle, own.claim, wrong)?)?;
            if wrong == Wrong::Uncertain {
                break;
            }
        }
    }
    Ok(words)
}
