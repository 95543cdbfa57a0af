// The claims that were good: what they said, and whether it is still so.
ghost use Rattle.std.specs.Prelude.{◌≡◌, ◌<◌, vec_len, vec_capacity};
ghost use Rattle.iom_hardware_session.specs.Watching.{is_about_same, is_frame_handed_off, still_good, without_frame, with_if_good};

use crate::answer::{ClaimAnswer, Wrong};
use iom_base::DeviceId;

/// What a claim said that was good.
#[derive(Clone, Copy, PartialEq, Eq)]
pub enum GoodClaim {
    /// What the device withdrew on the frame, under the number, is out of its reach.
    Done {
        number: u32,
        device: DeviceId,
        frame: u32,
    },
    /// Nobody uses the frame.
    HandedOff {
        frame: u32,
    },
}

impl GoodClaim {
    /// Whether both are about the same frame, and of the same device where it is one's.
    pub(crate) fn is_about_same(self, other: GoodClaim) -> bool
        ensures { result ≡ is_about_same self other }
    {
        match self {
            GoodClaim::Done {
                number: _,
                device,
                frame,
            } => match other {
                GoodClaim::Done {
                    number: _,
                    device: its,
                    frame: on,
                } => device == its && frame == on,
                GoodClaim::HandedOff { frame: _ } => false,
            },
            GoodClaim::HandedOff { frame } => other.is_hand_off_of(frame),
        }
    }

    /// Whether it says that nobody uses this frame.
    pub(crate) fn is_hand_off_of(self, frame: u32) -> bool
        ensures { result ≡ is_frame_handed_off frame self }
    {
        match self {
            GoodClaim::Done { .. } => false,
            GoodClaim::HandedOff { frame: own } => own == frame,
        }
    }
}

/// A claim that was good, and why it isn't any more since the last line, if so.
#[derive(Clone, Copy, PartialEq, Eq)]
pub struct Watched {
    pub claim: GoodClaim,
    pub why: Option<Wrong>,
}

/// Those that aren't good any more drop out.
pub(crate) fn drop_fallen(watched: &mut Vec<Watched>)
    ensures { watched.new.items ≡ still_good watched.old.items }
{
    watched.retain(|own| own.why.is_none());
}

/// A frame comes back: a claim that nobody uses it drops out.
pub(crate) fn drop_hand_off(watched: &mut Vec<Watched>, frame: u32)
    ensures { watched.new.items ≡ without_frame frame watched.old.items }
{
    watched.retain(|own| !own.claim.is_hand_off_of(frame));
}

/// Watches a claim, if it is answered that it is good, in the place of one about the same.
pub(crate) fn watch(watched: &mut Vec<Watched>, found: ClaimAnswer, claim: GoodClaim)
    requires room { vec_len watched.old < vec_capacity watched.old }
    ensures { watched.new.items ≡ with_if_good found claim watched.old.items }
{
    if let ClaimAnswer::Good = found {
        watched.retain(|own| !claim.is_about_same(own.claim));
        watched.push_reserved(Watched { claim, why: None });
    }
}
