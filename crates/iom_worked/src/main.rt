//! Runs worked scripts, judges traces, follows translations, and prints what comes of them; the gate compares those lines.
//!
//! - `data/rows`: worked scripts, with the lines that were worked out by hand from the rules before there was a program.
//! - `data/examples`, which the repository also shows as `examples/`: scripts worth reading, with what they print. So the
//!   outputs that a reader sees can't drift from what the program prints.
//! - `data/told`: traces of three scripts, as `iommu-tell` tells them, which were written by hand.
//! - `data/pictures`, which `docs/GALLERY.md` of the repository shows: pictures of examples.
//! - `data/traces`: traces, among them those of `docs/JUDGE.md`.
//! - `data/judged`: outputs that another checker judged, one that shares no code with this repository.
//! - `data/vectors`: translations that independent implementations confirmed.
#![tactic(auto)]

mod annotated;
mod judged;
mod pictures;
mod scripts;
mod told;
mod traces;
mod vectors;

fn main(rt: HostRuntime) -> anyhow::Result<()> {
    scripts::tell_rows(&rt)?;
    scripts::tell_examples(&rt)?;
    told::tell(&rt)?;
    pictures::tell(&rt)?;
    traces::tell(&rt)?;
    judged::tell(&rt)?;
    vectors::tell(&rt)
}
