// Pictures of the examples, as they are stored.
use crate::scripts::first_difference;
use crate::traces::trace_of;
use iom_picture::{Choice, Reading, draw, read_trace};
use std::fs;

/// The examples with a picture: `docs/GALLERY.md` of the repository shows them.
static PICTURES: [&str; 12] = [
    "first-path",
    "stale-read",
    "later-access",
    "guest-rewrites",
    "fault-storm",
    "detach-lingering",
    "late-answer",
    "lost-invalidation",
    "no-answer",
    "quarantine",
    "revival",
    "buffer-taken-back",
];

/// Whether a trace of the example is stored that also shows on which frames accesses were accepted: its lines alone don't tell,
/// since its device has both stages, or is a block device.
fn is_shown(name: &str) -> bool {
    name == "guest-rewrites" || name == "buffer-taken-back"
}

/// The trace of the example.
fn trace_for(rt: &HostRuntime, name: &str) -> anyhow::Result<String> {
    let alloc = rt.alloc();
    if is_shown(name) {
        let trace = fs::read_to_string(rt, format!(in alloc; "traces/{name}-shown.trace")?)?;
        return Ok(trace);
    }
    let script = fs::read_to_string(rt, format!(in alloc; "examples/{name}.iommu")?)?;
    let output = fs::read_to_string(rt, format!(in alloc; "examples/{name}.out")?)?;
    Ok(trace_of(alloc, &script, &output)?)
}

/// The picture of the example.
fn drawn(rt: &HostRuntime, name: &str) -> anyhow::Result<String> {
    let alloc = rt.alloc();
    let trace = trace_for(rt, name)?;
    match read_trace(alloc, &mut trace.as_bytes())? {
        Reading::BadLine(line) => Ok(format!(in alloc; "line {line} isn't in the grammar")?),
        Reading::Trace(timeline) => {
            let picture = draw(alloc, Choice::everything(), &timeline)?;
            Ok(String::from_utf8(picture)?)
        }
    }
}

/// Draws each example that has a picture, and prints whether it is the stored one.
pub(crate) fn tell(rt: &HostRuntime) -> anyhow::Result<()> {
    for name in &PICTURES {
        let stored = fs::read_to_string(rt, format!(in rt.alloc(); "pictures/{name}.svg")?)?;
        let picture = drawn(rt, name)?;
        if picture.as_str() == stored.as_str() {
            println!(rt; "picture of {name}: as stored")?;
        } else {
            let line = first_difference(&picture, &stored);
            println!(rt; "picture of {name}: line {line} differs")?;
        }
    }
    Ok(())
}
