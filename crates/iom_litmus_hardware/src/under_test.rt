//! Hardware under a driver, and what is claimed of it, as the system of a litmus test.
ghost use Rattle.std.specs.Prelude.{◌≡◌, IfOk, OnOk};
ghost use Rattle.iom_litmus.specs.Replies.{no_reply};
ghost use Rattle.iom_litmus_hardware.specs.Lines.{LeadsBy};
ghost use Rattle.iom_litmus_hardware.specs.Openings.{Opens};
ghost use Rattle.iom_litmus_hardware.specs.Places.{AreListed};
ghost use Rattle.iom_litmus_hardware.specs.Systems.{readings, rules};

use crate::lines::{line_for_tests, take};
use crate::opening::{MOST_EVENTS, Opening};
use iom_base::{DeviceId, Sequence};
use iom_hardware_script::HardwareLine;
use iom_hardware_session::Session;
use iom_litmus::{HardwareStep, Reply, System};
use iom_litmus_looks::{event_of, fingerprint_of, ids_of, memory_text, mixed};
use iom_script::LineBuffer;
use std::alloc::{AllocError, Global};
use std::marker::Model;

/// Hardware under a driver, and what is claimed of it.
#[derive(Drop)]
pub struct UnderTest {
    session: Session,
    /// The ids of the devices, in the order of plugging.
    ids: Sequence<DeviceId>,
    /// Where answers are written, once one was.
    buffer: Option<LineBuffer>,
}

impl Model for UnderTest {
    ghost use Rattle.std.specs.Coded.{codes};
    ghost use Rattle.iom_litmus_hardware.specs.Places.{Tested, place_of, IsWhole};
    ghost use Rattle.iom_litmus_looks.specs.Codes.{rows_coded, translations_coded};

    ghost Value = { Tested };

    ghost coded = { Prim.hlevel (codes, rows_coded, translations_coded) };

    ghost view = { λ t. record { place = place_of t.session; ids = t.ids } };

    ghost invariant = { λ t. IsWhole t.session };
}

impl UnderTest {
    /// The ids are those of the devices that are there now.
    fn list(&mut self, alloc: Global) -> Result<(), AllocError>
        ensures listed { OnOk result (AreListed self.new) }
        ensures place { self.new.place ≡ self.old.place }
    {
        self.ids = ids_of(alloc, &self.session.hardware().devices)?;
        Ok(())
    }

    /// Nothing happens.
    fn pass(&mut self, alloc: Global) -> Result<Reply, AllocError>
        ensures listed { OnOk result (AreListed self.new) }
        ensures place { self.new.place ≡ self.old.place }
        ensures reply { IfOk result (λ reply. reply ≡ no_reply) }
    {
        self.list(alloc)?;
        Ok(Reply::none(alloc))
    }

    /// The line happens.
    fn take(&mut self, alloc: Global, said: &HardwareLine) -> Result<Reply, AllocError>
        ensures listed { OnOk result (AreListed self.new) }
        ensures leads { IfOk result (λ reply. LeadsBy said.now self.old.place reply self.new.place) }
    {
        if self.session.hardware().events >= MOST_EVENTS {
            return Err(AllocError);
        }
        let mut buffer = match self.buffer.take() {
            Some(buffer) => buffer,
            None => LineBuffer::new(alloc)?,
        };
        let reply = take(alloc, &mut self.session, said, &mut buffer)?;
        self.buffer = Some(buffer);
        self.list(alloc)?;
        Ok(reply)
    }
}

impl System for UnderTest {
    type Opening = Opening;

    ghost opens = { Opens };

    ghost rules = { rules };

    ghost readings = { readings };

    fn new(alloc: Global, opening: &Opening) -> Result<UnderTest, AllocError> {
        let session = opening.session(alloc)?;
        let ids = ids_of(alloc, &session.hardware().devices)?;
        Ok(UnderTest {
            session,
            ids,
            buffer: None,
        })
    }

    fn run(&mut self, alloc: Global, line: &[u8]) -> Result<Reply, AllocError> {
        match line_for_tests(alloc, line)? {
            Some(said) => self.take(alloc, &said),
            None => self.pass(alloc),
        }
    }

    fn act(&mut self, alloc: Global, step: HardwareStep) -> Result<Reply, AllocError> {
        match event_of(step) {
            Some(event) => self.take(alloc, &HardwareLine::Event(event)),
            None => self.pass(alloc),
        }
    }

    fn fetches(&self) -> bool {
        let hardware = self.session.hardware();
        hardware.iommu.fetch_has_effect(&hardware.memory)
    }

    fn devices(&self) -> &[DeviceId] {
        self.ids.as_slice()
    }

    fn is_in_flight(&self, device: DeviceId) -> bool {
        self.session.hardware().oldest(device).is_some()
    }

    fn is_in_walk(&self, _device: DeviceId) -> bool {
        false
    }

    fn messages(&self) -> usize {
        self.session.hardware().messages().len()
    }

    fn is_same_message(&self, place: usize, other: usize) -> bool {
        self.session
            .hardware()
            .messages()
            .is_same_message(place, other)
    }

    fn times_out(&self) -> bool {
        self.session.hardware().iommu.can_time_out()
    }

    fn memory(
        &self,
        alloc: Global,
        address: u64,
        length: usize,
    ) -> Result<Sequence<u8>, AllocError> {
        memory_text(alloc, &self.session.hardware().memory, address, length)
    }

    fn is_same(&self, other: &UnderTest) -> bool {
        self.session.is_same(&other.session) && self.ids.as_slice() == other.ids.as_slice()
    }

    fn shrink(&mut self) {
        self.buffer = None;
    }

    fn fingerprint(&self) -> u64 {
        mixed(
            fingerprint_of(self.session.hardware()),
            u64::from(self.session.claims().last()),
        )
    }
}
