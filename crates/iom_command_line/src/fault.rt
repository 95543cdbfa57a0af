use thiserror::Error;

/// Why a command line can't be read.
#[derive(Debug, Drop, Error)]
pub enum ArgsFault {
    /// It isn't one of the lawful ones.
    #[error("bad command line")]
    Bad,
    #[error("out of memory")]
    Memory,
}
