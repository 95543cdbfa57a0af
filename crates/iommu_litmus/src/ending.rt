// How it ends.

/// How tests were answered, all together: what is said later here comes first.
#[derive(Clone, Copy, PartialEq, Eq)]
pub(crate) enum Ending {
    /// Each question is answered as its test says.
    Ok,
    /// Some test isn't decided.
    Undecided,
    /// Some question is answered otherwise than its test says.
    Otherwise,
    /// Some file isn't a test.
    NotATest,
    /// Reading, writing or memory failed.
    Failed,
    /// The command line isn't lawful.
    BadCommandLine,
}

impl Ending {
    fn rank(self) -> u8 {
        match self {
            Ending::Ok => 0,
            Ending::Undecided => 1,
            Ending::Otherwise => 2,
            Ending::NotATest => 3,
            Ending::Failed => 4,
            Ending::BadCommandLine => 5,
        }
    }

    /// How both end together.
    pub(crate) fn join(self, next: Ending) -> Ending {
        if next.rank() > self.rank() {
            next
        } else {
            self
        }
    }

    /// The exit status.
    pub(crate) fn status(self) -> u8 {
        match self {
            Ending::Ok => 0,
            Ending::Otherwise => 1,
            Ending::NotATest => 2,
            Ending::BadCommandLine => 3,
            Ending::Failed => 4,
            Ending::Undecided => 5,
        }
    }
}
