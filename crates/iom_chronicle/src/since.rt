/// What is there, and since which line.
#[derive(Clone, Copy)]
pub(crate) struct Since<T> {
    pub(crate) what: T,
    pub(crate) line: u64,
}

impl<T: Copy + PartialEq> Since<T> {
    /// What is there now, at this line: since the old one where it is the same.
    pub(crate) fn noticed(old: Option<Since<T>>, now: Option<T>, line: u64) -> Option<Since<T>> {
        let what = now?;
        match old {
            Some(known) if known.what == what => Some(known),
            _ => Some(Since { what, line }),
        }
    }
}
