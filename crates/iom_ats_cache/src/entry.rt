use iom_base::Rights;
use iom_fabric::PageNumber;

/// What a device keeps of a page: its frame of 4 KiB, and what may be done there.
#[derive(Clone, Copy, PartialEq, Eq)]
pub struct Entry {
    pub page: PageNumber,
    pub frame: u32,
    pub rights: Rights,
}

impl Default for Entry {
    fn default() -> Entry {
        Entry {
            page: PageNumber::new(0).unwrap(),
            frame: 0,
            rights: Rights::R,
        }
    }
}
