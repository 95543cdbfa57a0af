// How far a long search is, told on standard error, where that is a terminal.
use iom_litmus::Watch;
use std::io::IsTerminal;
use std::time::Instant;

/// Seconds from one word to the next.
const PAUSE: u64 = 1;

/// The search of the test in what has this name.
#[derive(Drop)]
pub(crate) struct Progress<'a> {
    rt: &'a HostRuntime,
    name: &'a str,
    /// When something was said last, or the search began. None where nobody reads it, or there is no clock.
    last: Option<Instant>,
}

impl<'a> Progress<'a> {
    pub(crate) fn new(rt: &'a HostRuntime, name: &'a str) -> Progress<'a> {
        let last = if rt.stderr().is_terminal() {
            Instant::now(rt).ok()
        } else {
            None
        };
        Progress { rt, name, last }
    }
}

impl Watch for Progress<'_> {
    fn at(&mut self, places: usize, depth: usize) {
        let Some(last) = self.last else {
            return;
        };
        let Ok(now) = Instant::now(self.rt) else {
            return;
        };
        if now.duration_since(last).as_secs() >= PAUSE {
            let name = self.name;
            let _ = eprintln!(self.rt; "iommu-litmus: {name}: {places} places, {depth} steps deep");
            self.last = Some(now);
        }
    }
}
