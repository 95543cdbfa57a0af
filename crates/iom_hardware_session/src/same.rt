// Whether two sessions are equal.
ghost use Rattle.std.specs.Prelude.{◌≡◌, ◌↔◌, IsTrue};
ghost use Rattle.iom_hardware_session.specs.Same.{IsSameSession};

use crate::beside::Beside;
use crate::state::Session;
use crate::watched::Watched;
use iom_base::DeviceId;

/// Whether the devices are the same, and in the same order.
fn are_same_devices(trusted: &[DeviceId], others: &[DeviceId]) -> bool
    ensures { IsTrue result ↔ (trusted.now ≡ others.now) }
{
    trusted == others
}

/// Whether the claims are equal, with what is found of them, and in the same order.
fn are_same_watched(watched: &[Watched], others: &[Watched]) -> bool
    ensures { IsTrue result ↔ (watched.now ≡ others.now) }
{
    watched == others
}

impl Session {
    /// Whether the two are equal but for how many events there were, for what was last looked at, and for what is inside
    /// block devices: then whatever lines go through both, but those of block devices, are answered alike. False where
    /// hardware keeps something beside, requests under way or pointers: these aren't compared.
    pub fn is_same(&self, other: &Session) -> bool
        ensures { IsTrue result ↔ IsSameSession self.now other.now }
    {
        if !are_same_devices(&self.trusted, &other.trusted) {
            return false;
        }
        if !are_same_watched(&self.watched, &other.watched) {
            return false;
        }
        if !self.claims.is_same(&other.claims) {
            return false;
        }
        match (&self.beside, &other.beside) {
            (Beside::Nothing, Beside::Nothing) => {}
            _ => return false,
        }
        self.hardware.board.is_same(&other.hardware.board)
    }
}
