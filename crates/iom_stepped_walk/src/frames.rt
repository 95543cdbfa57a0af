ghost use Rattle.std.specs.Prelude.{◌≡◌, ◌<◌, ◌+◌, ◌++◌, ◌∷◌, [], length};
ghost use Rattle.iom_stage_walk.specs.Both.{padded};
ghost use Rattle.iom_stepped_walk.specs.Filled.{filled_places};

/// The frames from which the entries of a guest's tables were loaded so far, the root's first: four at most.
#[derive(Clone, Copy, PartialEq, Eq)]
pub struct GuestFrames {
    frames: [Option<u32>; 4],
    count: usize,
    ghost counted: { length (filled_places frames) ≡ count },
    ghost filled: { frames ≡ padded 4 (filled_places frames) },
}

impl GuestFrames {
    /// None yet.
    pub(crate) fn none() -> GuestFrames
        ensures { filled_places result.frames ≡ [] }
    {
        GuestFrames {
            frames: [None; 4],
            count: 0,
        }
    }

    /// One more.
    pub(crate) fn with(self, frame: u32) -> GuestFrames
        requires { length (filled_places self.frames) < 4 }
        ensures { filled_places result.frames ≡ filled_places self.frames ++ frame ∷ [] }
    {
        let mut frames = self.frames;
        frames[self.count] = Some(frame);
        GuestFrames {
            frames,
            count: self.count + 1,
        }
    }

    /// As a walk tells them: the places that aren't filled are empty.
    pub(crate) fn places(self) -> [Option<u32>; 4]
        ensures { result ≡ padded 4 (filled_places self.frames) }
    {
        self.frames
    }
}
