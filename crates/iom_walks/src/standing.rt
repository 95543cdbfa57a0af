// Where a request stands that is under way.
use iom_stepped_requests::{Answer, RequestWalk};

/// A request that is under way, but for the bytes of a write.
#[derive(Clone, Copy)]
pub(crate) struct Standing {
    /// Where it stands; where it is served already, where it stood before that.
    pub(crate) walk: RequestWalk,
    /// Its answer, where it was begun anew and needs no load: it ends at its next one.
    pub(crate) served: Option<Answer>,
    /// How many bytes it asks for.
    pub(crate) len: u16,
}
