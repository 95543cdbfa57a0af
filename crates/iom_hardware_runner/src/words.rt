// The words behind `wrong: ` and `violated: `.
use crate::under_way::{first_walking, next_reader};
use iom_base::{AccessKind, DeviceId};
use iom_chronicle::{Chronicle, Origin};
use iom_hardware_session::{Found, Session, Wrong};
use iom_inflight::MadeAt;
use std::alloc::{AllocError, Global};

/// What a device can do by an access of the kind.
fn can(kind: AccessKind) -> &'static str {
    match kind {
        AccessKind::Read => "read",
        AccessKind::Write => "write",
    }
}

/// By which way the device can reach the frame.
fn reached(
    alloc: Global,
    session: &Session,
    chronicle: &Chronicle,
    device: DeviceId,
    frame: u32,
    kind: AccessKind,
) -> Result<String, AllocError> {
    let verb = can(kind);
    match chronicle.way(session.hardware(), device, frame, kind) {
        Some(way) => format!(in alloc; "{device:06x} can {verb} frame {frame} by {way}"),
        None if first_walking(session).is_some() => {
            format!(in alloc; "{device:06x} can {verb} frame {frame} by a walk that is under way")
        }
        None => format!(in alloc; "{device:06x} can {verb} frame {frame}"),
    }
}

/// Who holds the frame.
fn held(
    alloc: Global,
    session: &Session,
    chronicle: &Chronicle,
    frame: u32,
) -> Result<String, AllocError> {
    let Some(grant) = session.claims().holder_of(frame) else {
        return format!(in alloc; "it is held");
    };
    let since = chronicle.held_since(grant.device, grant.page).unwrap_or(0);
    format!(in alloc;
        "{:06x} holds it at page {} since line {}",
        grant.device, grant.page, since
    )
}

/// Which claim on the frame is open.
fn lingers(
    alloc: Global,
    session: &Session,
    chronicle: &Chronicle,
    frame: u32,
) -> Result<String, AllocError> {
    let Some(claim) = session.claims().lingering_on(frame) else {
        return format!(in alloc; "a claim isn't done");
    };
    let line = chronicle.released_at(claim.number).unwrap_or(0);
    format!(in alloc;
        "claim {} isn't done, released at line {}",
        claim.number, line
    )
}

/// How hardware uses the frame.
fn used(
    alloc: Global,
    session: &Session,
    chronicle: &Chronicle,
    frame: u32,
) -> Result<String, AllocError> {
    if let Some(use_found) = chronicle.use_of(session.hardware(), frame) {
        return format!(in alloc; "{use_found}");
    }
    match next_reader(session, frame) {
        Some(device) => {
            format!(in alloc; "the walk of {device:06x} that is under way reads it next")
        }
        None => format!(in alloc; "hardware uses it"),
    }
}

/// Who can write what hardware reads.
fn uncertain(
    alloc: Global,
    session: &Session,
    chronicle: &Chronicle,
) -> Result<String, AllocError> {
    let Some(conflict) = session.conflict() else {
        return format!(in alloc; "a message is of an epoch to come");
    };
    let frame = conflict.frame;
    let read = match u32::try_from(frame) {
        Ok(number) => chronicle.read_as(session.hardware(), number),
        Err(_) => None,
    };
    let writer = match conflict.device {
        Some(device) => format!(in alloc; "{device:06x}")?,
        None => format!(in alloc; "the IOMMU")?,
    };
    match read {
        Some(how) => format!(in alloc; "{writer} can write frame {frame}, which {how}"),
        None => format!(in alloc; "{writer} can write frame {frame}, which hardware reads"),
    }
}

/// What a request finds instead.
fn not_ready(
    alloc: Global,
    chronicle: &Chronicle,
    page: u64,
    found: Found,
) -> Result<String, AllocError> {
    match found {
        Found::NoContext => format!(in alloc; "no context"),
        Found::Fault(cause) => format!(in alloc; "fault {}", cause.code()),
        Found::Walk { frame } => format!(in alloc; "on frame {frame} by a walk"),
        Found::Cached { space, frame } => {
            let since = chronicle.cached_since(space, page).unwrap_or(0);
            format!(in alloc; "on frame {frame} by the translation cached since line {since}")
        }
        Found::Pointed { space, frame } => {
            let since = chronicle.pointed_since(space, page).unwrap_or(0);
            format!(in alloc;
                "on frame {frame} by a walk from the pointer cached since line {since}"
            )
        }
    }
}

/// Why a claim of the frame, or of the page, isn't true.
pub(crate) fn why(
    alloc: Global,
    session: &Session,
    chronicle: &Chronicle,
    frame: u32,
    page: u64,
    wrong: Wrong,
) -> Result<String, AllocError> {
    match wrong {
        Wrong::Held => held(alloc, session, chronicle, frame),
        Wrong::Lingers => lingers(alloc, session, chronicle, frame),
        Wrong::Reached(device, kind) => reached(alloc, session, chronicle, device, frame, kind),
        Wrong::Used => used(alloc, session, chronicle, frame),
        Wrong::Uncertain => uncertain(alloc, session, chronicle),
        Wrong::NotReady(found) => not_ready(alloc, chronicle, page, found),
    }
}

/// Since when the device may not reach the frame.
fn right(
    alloc: Global,
    chronicle: &Chronicle,
    device: DeviceId,
    frame: u32,
) -> Result<String, AllocError> {
    match chronicle.right_ended(device, frame) {
        Some(line) => format!(in alloc; "not its own since line {line}"),
        None => format!(in alloc; "never granted"),
    }
}

/// What let the access through: that it was in flight already when the right ended, or else by which way it was accepted.
fn blame(alloc: Global, ended: Option<u64>, origin: Option<Origin>) -> Result<String, AllocError> {
    let Some(origin) = origin else {
        return format!(in alloc; "in flight");
    };
    match ended {
        Some(line) if origin.line < line => {
            format!(in alloc; "in flight since line {}", origin.line)
        }
        _ => format!(in alloc; "{origin}"),
    }
}

/// The words of an access that nothing claimed allows.
pub(crate) fn violation(
    alloc: Global,
    chronicle: &Chronicle,
    made: MadeAt,
    origin: Option<Origin>,
) -> Result<String, AllocError> {
    let verb = match made.kind {
        AccessKind::Read => "reads",
        AccessKind::Write => "writes",
    };
    let right = right(alloc, chronicle, made.device, made.frame)?;
    let ended = chronicle.right_ended(made.device, made.frame);
    let blame = blame(alloc, ended, origin)?;
    format!(in alloc;
        "; violated: {:06x} {verb} frame {}, {right}: {blame}",
        made.device, made.frame
    )
}
