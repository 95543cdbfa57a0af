use crate::page_number::PageNumber;
use iom_base::{Cause, Rights};

/// What a question is answered with.
#[derive(Clone, Copy, PartialEq, Eq)]
pub enum Translation {
    /// The frame of the page, and what may be done there.
    Page { frame: u32, rights: Rights },
    /// There is none, and why.
    Refused(Cause),
}

/// What a device drops.
#[derive(Clone, Copy, PartialEq, Eq)]
pub enum Range {
    Page(PageNumber),
    Everything,
}

/// What is said on the link between a device and the IOMMU. Which device it is stands beside, since no
/// message says who sends it.
#[derive(Clone, Copy, PartialEq, Eq)]
pub enum Message {
    /// A device asks for the translation of a page, in its epoch (Translation Request, section 10.2).
    Ask {
        epoch: u64,
        page: PageNumber,
    },
    /// The IOMMU answers that question (Translation Completion, section 10.2).
    Answer {
        epoch: u64,
        page: PageNumber,
        translation: Translation,
    },
    /// The IOMMU asks a device to drop what it knows, by a number of its own (Invalidate Request, section 10.3).
    InvReq {
        serial: u64,
        range: Range,
    },
    /// A device says that it did what was asked by that number (Invalidate Completion, section 10.3).
    InvDone {
        serial: u64,
    },
}
