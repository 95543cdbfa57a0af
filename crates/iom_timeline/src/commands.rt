// The commands that the driver queued and the IOMMU hasn't taken.
use crate::devices::{Device, Devices, Standing};
use iom_base::DeviceId;
use iom_machine::CommandName;
use std::alloc::{AllocError, Global};

/// The most commands that can wait.
const MAX_WAITING: usize = 255;

/// What is to be forgotten of a device.
#[derive(Clone, Copy)]
pub(crate) enum Scope {
    Page(u64),
    Everything,
}

/// A command of the queue.
#[derive(Clone, Copy)]
pub(crate) enum Command {
    /// IOTINVAL.VMA, or where there is a second stage IOTINVAL.GVMA.
    Invalidate {
        name: CommandName,
        device: DeviceId,
        scope: Scope,
    },
    /// IODIR.INVAL_DDT
    InvalidateContext {
        device: DeviceId,
    },
    /// ATS.INVAL
    AskDevice {
        device: DeviceId,
        scope: Scope,
    },
    /// IOFENCE.C
    Fence,
}

impl Command {
    /// By which name a fetch tells of it.
    pub(crate) fn name(self) -> CommandName {
        match self {
            Command::Invalidate { name, .. } => name,
            Command::InvalidateContext { .. } => CommandName::IodirInvalDdt,
            Command::AskDevice { .. } => CommandName::AtsInval,
            Command::Fence => CommandName::IofenceC,
        }
    }
}

/// What a release of the page makes the IOMMU forget: all pages, where a guest's own tables may lead any of them there.
fn scope_of(device: &Device, page: u64) -> Scope {
    if device.is_guest() {
        Scope::Everything
    } else {
        Scope::Page(page)
    }
}

/// The command queue: those before the head are taken.
#[derive(Drop)]
pub(crate) struct Commands {
    queued: Vec<Command>,
    head: usize,
}

impl Commands {
    pub(crate) fn new(alloc: Global) -> Commands {
        Commands {
            queued: Vec::new(alloc),
            head: 0,
        }
    }

    fn push(&mut self, command: Command) -> Result<(), AllocError> {
        self.queued.push(command)?;
        Ok(())
    }

    pub(crate) fn push_fence(&mut self) -> Result<(), AllocError> {
        self.push(Command::Fence)
    }

    /// Pages of the device are to be forgotten, IOTINVAL.
    fn push_invalidation(&mut self, device: &Device, scope: Scope) -> Result<(), AllocError> {
        self.push(Command::Invalidate {
            name: device.invalidation(),
            device: device.id,
            scope,
        })
    }

    /// A page is released: IOTINVAL, where the device may have it too ATS.INVAL, and IOFENCE.C are queued.
    pub(crate) fn push_release(&mut self, device: &Device, page: u64) -> Result<(), AllocError> {
        let scope = scope_of(device, page);
        self.push_invalidation(device, scope)?;
        if device.has_ats {
            self.push(Command::AskDevice {
                device: device.id,
                scope,
            })?;
        }
        self.push_fence()
    }

    /// The device's context and all its pages are to be forgotten.
    pub(crate) fn push_farewell(&mut self, device: &Device) -> Result<(), AllocError> {
        self.push(Command::InvalidateContext { device: device.id })?;
        self.push_invalidation(device, Scope::Everything)
    }

    /// What a restart queues for the device.
    fn push_anew(&mut self, device: &Device) -> Result<(), AllocError> {
        if device.standing == Standing::Detached {
            return Ok(());
        }
        self.push_farewell(device)?;
        if device.has_ats && device.standing == Standing::Attached {
            return self.push(Command::AskDevice {
                device: device.id,
                scope: Scope::Everything,
            });
        }
        Ok(())
    }

    /// The driver empties the queue, and queues anew what is still needed.
    pub(crate) fn restart(&mut self, devices: &Devices) -> Result<(), AllocError> {
        self.queued.clear();
        self.head = 0;
        for device in devices.all.values() {
            self.push_anew(device)?;
        }
        self.push_fence()
    }

    /// Takes the next command.
    pub(crate) fn take(&mut self) -> Option<Command> {
        let command = self.queued.get(self.head).copied()?;
        self.head = self.head.saturating_add(1);
        Some(command)
    }

    /// How many commands are taken with the next one of this name: 1 but where the trace leaves fetches out. 0 where none
    /// of this name waits.
    pub(crate) fn count_to(&self, name: CommandName) -> usize {
        for before in 0..MAX_WAITING {
            let Some(command) = self.queued.get(self.head.saturating_add(before)) else {
                return 0;
            };
            if command.name() == name {
                return before.saturating_add(1);
            }
        }
        0
    }
}
