// What is said of a device's pages, and of the frames that it may reach, or that the processor or the driver names.
use crate::facts::Facts;
use crate::past::{Place, Release, Stay};
use crate::words::{Hex, InLine, MOST_SAID, Said, Under, Words, name_of};
use iom_base::{AccessKind, DeviceId, Owner, PAGE_SIZE, Refusal, Rights, Span};
use iom_machine::Device;
use iom_machine_judge::reasons::frame_refusal;
use std::alloc::{AllocError, Global};

/// Where a device may find what it means by a page.
#[derive(Clone, Copy)]
pub(crate) enum Meant {
    At(Place),
    /// At any page that it may access so: a guest's own tables stand in front of those of its grants, or did until it left.
    Anywhere(DeviceId, AccessKind),
}

impl Meant {
    /// Where the device may find what it means by this page, for an access of the kind.
    pub(crate) fn by(device: &Device, page: u64, kind: AccessKind) -> Meant {
        match device.attachment.mode() {
            Some(mode) if mode.is_both() => Meant::Anywhere(device.id, kind),
            _ => Meant::At(Place::new(device.id, page)),
        }
    }
}

/// Says that the bytes aren't some of one page.
pub(crate) fn say_bad_span(words: &mut Words) -> Said {
    words.say("its bytes are none or too many, or leave their page")?;
    words.could("badspan")
}

/// Says that the frame is stale which was had so, if one is: at this page, or at the one that the line names.
pub(crate) fn say_stale(words: &mut Words, stale: Option<(Option<u64>, Stay)>) -> Said {
    let Some((page, stay)) = stale else {
        return Ok(());
    };
    let frame = stay.frame;
    match page {
        None => words.say(format_args!("frame {frame} is stale there: {stay}")),
        Some(page) => words.say(format_args!("frame {frame} is stale at page {page}: {stay}")),
    }
}

impl Facts<'_> {
    /// The frame that the device holds at the place, or that lingers there: never both.
    fn reached(&self, place: Place) -> Option<(u64, Rights)> {
        let Place { device, page } = place;
        let held = self.kept.grants.held(device, page);
        held.or(self.kept.grants.lingering(device, page))
    }

    /// Puts those places of the device to the others at which it reaches a frame that is sought, or has rights that are.
    pub(crate) fn add_places<F: Fn(u64, Rights) -> bool>(
        &self,
        places: &mut Vec<Place>,
        id: DeviceId,
        is_sought: F,
    ) -> Said
        requires { F.IsAlwaysCallable is_sought }
    {
        for index in 0..self.kept.grants.page_count(id) {
            if let Some(page) = self.kept.grants.page_at(id, index) {
                let place = Place::new(id, page);
                if let Some((frame, rights)) = self.reached(place) {
                    if is_sought(frame, rights) {
                        places.push(place)?;
                    }
                }
            }
        }
        Ok(())
    }

    /// The places at which the device may find what it means.
    fn places_of(&self, alloc: Global, meant: Meant) -> Result<Vec<Place>, AllocError> {
        let mut places = Vec::new(alloc);
        match meant {
            Meant::At(place) => places.push(place)?,
            Meant::Anywhere(id, kind) => {
                let allows = |_frame: u64, rights: Rights| rights.allows(kind);
                self.add_places(&mut places, id, allows)?;
            }
        }
        Ok(places)
    }

    /// Puts the frames to the others that the device may find there, and that may come: eight at most.
    pub(crate) fn add_frames<F: Fn(u64) -> bool>(
        &self,
        frames: &mut Vec<u64>,
        meant: Meant,
        may_come: F,
    ) -> Said
        requires { F.IsAlwaysCallable may_come }
    {
        let places = self.places_of(*frames.allocator(), meant)?;
        for place in places.iter() {
            if let Some((frame, _rights)) = self.reached(*place) {
                if frames.len() < MOST_SAID && !frames.contains(&frame) && may_come(frame) {
                    frames.push(frame)?;
                }
            }
        }
        Ok(())
    }

    /// The release of the page, if its ticket isn't confirmed.
    pub(crate) fn pending_of(&self, place: Place) -> Option<Release> {
        let last = self.notes.past.last_at(place)?;
        last.release.filter(|release| release.confirmed.is_none())
    }

    /// Says what the device holds at the page, or what lingers there.
    pub(crate) fn say_page(&self, words: &mut Words, place: Place) -> Said {
        let Place { device, page } = place;
        if let Some((frame, rights)) = self.kept.grants.held(device, page) {
            let last = self.notes.past.last_at(place);
            let last = last.filter(|stay| stay.frame == frame);
            let granted = InLine("granted", last.map(|stay| stay.granted));
            return words.say(format_args!(
                "{device:06x} holds frame {frame} {rights} at page {page}{granted}"
            ));
        }
        let Some((frame, rights)) = self.kept.grants.lingering(device, page) else {
            return words.say(format_args!(
                "{device:06x} holds nothing at page {page}, and nothing lingers there"
            ));
        };
        let under = Under(None, self.pending_of(place));
        words.say(format_args!(
            "frame {frame} {rights} lingers for {device:06x} at page {page} {under}"
        ))
    }

    /// Says what is at these places: of many, at the first.
    fn say_places(&self, words: &mut Words, places: &[Place]) -> Said {
        for place in places.iter().take(MOST_SAID) {
            self.say_page(words, *place)?;
        }
        words.say_more(places.len())
    }

    /// Says what the device reaches there.
    pub(crate) fn say_meant(&self, words: &mut Words, meant: Meant) -> Said {
        let places = self.places_of(words.alloc, meant)?;
        if let (Meant::Anywhere(id, kind), []) = (meant, places.as_slice()) {
            let name = name_of(kind);
            return words.say(format_args!(
                "{id:06x} holds no frame that it may {name}, and none lingers for it"
            ));
        }
        self.say_places(words, &places)
    }

    /// Whether the device reaches the frame there.
    fn is_reached(&self, meant: Meant, frame: u64) -> bool {
        match meant {
            Meant::At(place) => self.reached(place).is_some_and(|(found, _)| found == frame),
            Meant::Anywhere(id, kind) => self.kept.grants.may(id, 0, frame, kind),
        }
    }

    /// How the frame is stale there, if it is, and isn't reached, and at which page, where the line names none.
    pub(crate) fn stale(&self, meant: Meant, frame: u64) -> Option<(Option<u64>, Stay)> {
        if self.is_reached(meant, frame) {
            return None;
        }
        let past = &self.notes.past;
        let id = match meant {
            Meant::At(place) => return Some((None, past.stale_at(place, frame)?)),
            Meant::Anywhere(id, _kind) => id,
        };
        let mut places = past.last.keys().filter(|place| {
            place.device == id && !self.is_reached(Meant::At(**place), frame)
        });
        places.find_map(|place| Some((Some(place.page), past.stale_at(*place, frame)?)))
    }

    /// Says what is stale there: the frame that the line shows, if that is, and else what was at the page last.
    pub(crate) fn say_shown(&self, words: &mut Words, meant: Meant) -> Said {
        if self.on.is_some_and(|frame| self.is_reached(meant, frame)) {
            return Ok(());
        }
        let stale = self.on.and_then(|frame| self.stale(meant, frame));
        if stale.is_some() {
            return say_stale(words, stale);
        }
        if let Meant::At(place) = meant {
            let last = self.notes.past.last_at(place);
            let last = last.filter(|stay| stay.is_stale());
            say_stale(words, last.map(|stay| (None, stay)))?;
        }
        match self.on {
            None => Ok(()),
            Some(frame) => self.say_frame(words, frame),
        }
    }

    /// Says what is known of a frame: whose it is, and which devices reach it, and where.
    pub(crate) fn say_frame(&self, words: &mut Words, frame: u64) -> Said {
        let (owner, count) = (self.kept.frames.owner(frame), self.kept.frames.count());
        match owner {
            _ if frame >= count => words.say(format_args!(
                "memory has frames 0 to {count}, less one"
            ))?,
            None => words.say(format_args!("frame {frame} is nobody's table or directory page"))?,
            Some(Owner::System) => words.say(format_args!("frame {frame} belongs to the system"))?,
            Some(Owner::OneDevice(id)) => words.say(format_args!(
                "frame {frame} is a table of {id:06x}"
            ))?,
        }
        let mut places = Vec::new(words.alloc);
        for device in self.kept.devices.as_slice() {
            self.add_places(
                &mut places,
                device.id,
                |reached: u64, _rights| reached == frame,
            )?;
        }
        self.say_places(words, &places)
    }

    /// Says what is known of a frame of which it is told whether it is free, and what could have been told.
    pub(crate) fn say_free(&self, words: &mut Words, frame: u64) -> Said {
        self.say_frame(words, frame)?;
        match frame_refusal(self.kept, frame) {
            Some(refusal) => words.could(refusal),
            None if self.kept.is_free(frame) => words.could("free yes"),
            None => words.could("free no"),
        }
    }

    /// So many of the frame's bytes from the offset on; none, where they leave it.
    pub(crate) fn bytes_at(&self, frame: u64, offset: u64, len: u64) -> Hex<'_> {
        let (start, end) = (offset as usize, offset.saturating_add(len) as usize);
        match self.kept.frames.bytes(frame).get(start..end) {
            None => Hex(&[]),
            Some(bytes) => Hex(bytes),
        }
    }

    /// Says what is known of bytes that the processor reads or writes, and what could have come.
    pub(crate) fn say_bytes(&self, words: &mut Words, kind: AccessKind, at: u64, len: u64) -> Said {
        if Span::new(at, len).is_none() {
            return say_bad_span(words);
        }
        let (frame, offset) = (at / PAGE_SIZE, at % PAGE_SIZE);
        self.say_frame(words, frame)?;
        if let Some(refusal) = frame_refusal(self.kept, frame) {
            return words.could(refusal);
        }
        match (kind, self.kept.frames.is_reserved(frame)) {
            (AccessKind::Write, true) => words.could(Refusal::FrameReserved),
            (AccessKind::Write, false) => words.could("ok"),
            (AccessKind::Read, true) => words.could(format_args!("any {len} bytes")),
            (AccessKind::Read, false) => {
                let bytes = self.bytes_at(frame, offset, len);
                words.could(format_args!("bytes {bytes}"))
            }
        }
    }
}
