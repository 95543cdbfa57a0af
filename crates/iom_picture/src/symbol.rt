// The bars and signs of a picture, with what they mean.
use iom_timeline::{CopyKind, MarkKind, WaitCause};

#[derive(Clone, Copy, PartialEq, Eq)]
pub(crate) enum Symbol {
    Held,
    Lingering,
    CachedTranslation,
    DeviceCache,
    Answer,
    InFlight,
    OfNoUse,
    Quarantined,
    WaitsForAccesses,
    WaitsForDevices,
    Stopped,
    Folded,
    Accepted,
    Made,
    Fault,
    FenceDone,
    Confirmed,
    TimedOut,
    Restarted,
    Lost,
    Free,
    NotFree,
    HandedOff,
}

/// All of them, in the order of the legend.
pub(crate) static SYMBOLS: [Symbol; 23] = [
    Symbol::Held,
    Symbol::Lingering,
    Symbol::CachedTranslation,
    Symbol::DeviceCache,
    Symbol::Answer,
    Symbol::InFlight,
    Symbol::OfNoUse,
    Symbol::Quarantined,
    Symbol::WaitsForAccesses,
    Symbol::WaitsForDevices,
    Symbol::Stopped,
    Symbol::Folded,
    Symbol::Accepted,
    Symbol::Made,
    Symbol::Fault,
    Symbol::FenceDone,
    Symbol::Confirmed,
    Symbol::TimedOut,
    Symbol::Restarted,
    Symbol::Lost,
    Symbol::Free,
    Symbol::NotFree,
    Symbol::HandedOff,
];

impl Symbol {
    pub(crate) fn of_copy(kind: CopyKind) -> Symbol {
        match kind {
            CopyKind::CachedTranslation => Symbol::CachedTranslation,
            CopyKind::DeviceCache => Symbol::DeviceCache,
            CopyKind::Answer => Symbol::Answer,
            CopyKind::InFlight => Symbol::InFlight,
        }
    }

    pub(crate) fn of_wait(cause: WaitCause) -> Symbol {
        match cause {
            WaitCause::Accesses => Symbol::WaitsForAccesses,
            WaitCause::Devices => Symbol::WaitsForDevices,
            WaitCause::Stopped => Symbol::Stopped,
        }
    }

    pub(crate) fn of_mark(kind: MarkKind) -> Symbol {
        match kind {
            MarkKind::Accepted(_) | MarkKind::AcceptedStep => Symbol::Accepted,
            MarkKind::Made => Symbol::Made,
            MarkKind::Fault(_) => Symbol::Fault,
            MarkKind::FenceDone => Symbol::FenceDone,
            MarkKind::TimedOut => Symbol::TimedOut,
            MarkKind::Restarted => Symbol::Restarted,
            MarkKind::Lost => Symbol::Lost,
            MarkKind::Confirmed { .. } => Symbol::Confirmed,
            MarkKind::Asked { is_free: true } => Symbol::Free,
            MarkKind::Asked { is_free: false } => Symbol::NotFree,
            MarkKind::HandedOff => Symbol::HandedOff,
        }
    }

    /// Its words.
    pub(crate) fn words(self) -> &'static str {
        match self {
            Symbol::Held => "held",
            Symbol::Lingering => "lingering",
            Symbol::CachedTranslation => "IOMMU may remember",
            Symbol::DeviceCache => "in the device's cache",
            Symbol::Answer => "answer under way",
            Symbol::InFlight => "access in flight",
            Symbol::OfNoUse => "left over, of no use",
            Symbol::Quarantined => "quarantined by the driver",
            Symbol::WaitsForAccesses => "waits for accesses",
            Symbol::WaitsForDevices => "waits for a device",
            Symbol::Stopped => "queue is stopped",
            Symbol::Folded => "lines with nothing new",
            Symbol::Accepted => "accepted",
            Symbol::Made => "made",
            Symbol::Fault => "refused",
            Symbol::FenceDone => "fence done",
            Symbol::Confirmed => "poll confirms (dotted)",
            Symbol::TimedOut => "timeout",
            Symbol::Restarted => "queue restarted",
            Symbol::Lost => "message lost",
            Symbol::Free => "frame is free",
            Symbol::NotFree => "frame isn't free",
            Symbol::HandedOff => "handed to others",
        }
    }

    /// The fill of its bar. Colours are those of Okabe and Ito, and in grey each bar has a tone or a pattern of its own.
    pub(crate) fn fill(self) -> &'static str {
        match self {
            Symbol::Held => "#0072b2",
            Symbol::Lingering => "url(#lingering)",
            Symbol::CachedTranslation => "#e69f00",
            Symbol::DeviceCache => "url(#kept)",
            Symbol::Answer => "url(#answer)",
            Symbol::OfNoUse => "#ffffff",
            Symbol::Quarantined => "url(#cut)",
            Symbol::WaitsForAccesses => "url(#waits)",
            Symbol::WaitsForDevices => "url(#asks)",
            Symbol::Stopped => "#d55e00",
            Symbol::Folded => "#ececec",
            _ => "#222222",
        }
    }

    /// The outline of its bar, as attributes.
    pub(crate) fn outline(self) -> &'static str {
        match self {
            Symbol::Lingering => " stroke=\"#0072b2\"",
            Symbol::OfNoUse => " stroke=\"#888888\"",
            Symbol::Quarantined => " stroke=\"#d55e00\" stroke-dasharray=\"6 3\"",
            _ => "",
        }
    }

    /// Whether it is a bar, and no sign.
    pub(crate) fn is_bar(self) -> bool {
        match self {
            Symbol::Held
            | Symbol::Lingering
            | Symbol::CachedTranslation
            | Symbol::DeviceCache
            | Symbol::Answer
            | Symbol::InFlight
            | Symbol::OfNoUse
            | Symbol::Quarantined
            | Symbol::WaitsForAccesses
            | Symbol::WaitsForDevices
            | Symbol::Stopped
            | Symbol::Folded => true,
            _ => false,
        }
    }
}
