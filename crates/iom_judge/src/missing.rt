// What a trace doesn't show, and how it may.
use iom_base::DeviceId;
use thiserror::Error;

/// An access of which something isn't shown.
#[derive(Clone, Copy, Debug, Error)]
#[error("access {number} of {device:06x}, accepted in line {line},")]
pub struct Begun {
    /// It is the device's accepted one with this number.
    pub device: DeviceId,
    pub number: u64,
    /// The line that accepted it.
    pub line: u64,
}

/// What a line doesn't show, and another depends on; and what to write so that it does.
#[derive(Clone, Copy, Debug, Error)]
pub enum Missing {
    /// Which frames became tables in this line.
    #[error("it isn't shown which frames became tables in line {line}: write `; tables FRAMES` behind its answer")]
    Tables { line: u64 },
    /// On which frame the access of a device in both stages is.
    #[error("{0} may be on several frames: write `; on FRAME` behind its answer")]
    Frame(Begun),
    /// Which access a block device's step began.
    #[error("{0} isn't shown: write `; read {reads:06x} ADDRESS LENGTH` or `; write {writes:06x} ADDRESS BYTES` behind its answer", reads = .0.device, writes = .0.device)]
    Access(Begun),
    /// What happens to the other devices of the domain, where the line is of one that isn't its first.
    #[error("{device:06x} shares the domain of {first:06x}: a grant or a release of {first:06x} is one of each device of the domain")]
    Domain { device: DeviceId, first: DeviceId },
    /// How other devices leave the domain of this one before its tables go back.
    #[error("others still share the domain of {first:06x}, and its tables: write first how each of them is detached or quarantined")]
    Sharers { first: DeviceId },
    /// What the device may reach that is attached to the domain of the other one, where that has pages whose tickets aren't confirmed.
    #[error("{with:06x} has pages whose tickets aren't confirmed, which {device:06x} may reach too: attach it behind the poll that confirms them")]
    Pending { device: DeviceId, with: DeviceId },
}
