use iom_base::{DeviceId, Mode};

/// The stages by which a device's addresses are translated.
#[derive(Clone, Copy, PartialEq, Eq)]
pub struct Stages {
    /// Which stages they are.
    pub(crate) mode: Mode,
    /// The frame of the root of its tables, which the driver writes: those of the first stage where that
    /// translates alone, else those of the second, whose root fills four frames from this one on.
    pub(crate) root: u32,
    /// Its address-space number, which commands name it by: the PSCID of a first stage, the GSCID of a second.
    pub(crate) number: u32,
    /// Whether the device may ask for translations and keep them (`EN_ATS` of its context).
    pub(crate) ats: bool,
}

/// How a device that is plugged in is attached.
#[derive(Clone, Copy, PartialEq, Eq)]
pub enum Attachment {
    /// To nothing.
    Detached,
    /// In these stages.
    Attached(Stages),
    /// It was quarantined under the ticket. Its tables and its number stay its own.
    Quarantined { ticket: u32, stage: Stages },
    /// It was detached under the ticket. Until that is confirmed, its tables and its number are still its own.
    Leaving { ticket: u32, stage: Stages },
}

/// A device that is plugged in, as the driver keeps it.
#[derive(Clone, Copy, PartialEq, Eq)]
pub struct Device {
    pub(crate) id: DeviceId,
    /// Whether it has a cache of translations of its own (ATS) that obeys invalidations.
    pub(crate) trusted: bool,
    pub(crate) attachment: Attachment,
}

impl Device {
    ghost use Rattle.std.specs.Prelude.{◌≡◌, ◌&&◌, not};

    // Whether ATS is asked for a device that may not have it.
    pub(crate) fn lacks_trust(self, ats: bool) -> bool
        ensures { result ≡ (ats && not self.trusted) }
    {
        ats && !self.trusted
    }
}

impl Attachment {
    ghost use Rattle.std.specs.Prelude.{◌≡◌};
    ghost use Rattle.iom_driver.specs.Confirmed.{has_left_until};
    ghost use Rattle.iom_driver.specs.Devices.{attached_stages, owned_stages, is_attached_with_ats};

    // The stages of an attached device.
    pub(crate) fn attached_stages(self) -> Option<Stages>
        ensures { result ≡ attached_stages self }
    {
        match self {
            Attachment::Attached(stage) => Some(stage),
            _ => None,
        }
    }

    // The stages of an attached, a quarantined or a leaving device.
    pub(crate) fn owned_stages(self) -> Option<Stages>
        ensures { result ≡ owned_stages self }
    {
        match self {
            Attachment::Detached => None,
            Attachment::Attached(stage) => Some(stage),
            Attachment::Quarantined { ticket, stage } => Some(stage),
            Attachment::Leaving { ticket, stage } => Some(stage),
        }
    }

    // Whether the device may keep translations of its own: it is attached with ATS.
    pub(crate) fn asks_for_translations(self) -> bool
        ensures { result ≡ is_attached_with_ats self }
    {
        match self {
            Attachment::Attached(stage) => stage.ats,
            _ => false,
        }
    }

    // Whether it leaves under a ticket up to this one.
    pub(crate) fn has_left(self, done: u32) -> bool
        ensures { result ≡ has_left_until done self }
    {
        match self {
            Attachment::Leaving { ticket, .. } => ticket <= done,
            _ => false,
        }
    }
}
