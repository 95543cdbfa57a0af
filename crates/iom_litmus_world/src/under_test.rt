//! A world, hardware with the driver, as the system of a litmus test.
ghost use Rattle.std.specs.Prelude.{◌≡◌, false, IfOk, OnOk};
ghost use Rattle.iom_litmus.specs.Replies.{no_reply};
ghost use Rattle.iom_litmus_world.specs.Lines.{is_of_block, LeadsBy};
ghost use Rattle.iom_litmus_world.specs.Openings.{Opens};
ghost use Rattle.iom_litmus_world.specs.Places.{AreListed};
ghost use Rattle.iom_litmus_world.specs.Systems.{readings, rules};

use crate::events::{event_for_tests, take};
use crate::opening::{MOST_EVENTS, Opening};
use iom_base::{DeviceId, Sequence};
use iom_litmus::{HardwareStep, Reply, System};
use iom_litmus_looks::{event_of, fingerprint_of, ids_of, memory_text};
use iom_machine::Event;
use iom_script::LineBuffer;
use iom_virtio_blk::Disk;
use iom_world::World;
use std::alloc::{AllocError, Global};
use std::marker::Model;

/// A world, hardware with the driver, without a disk.
#[derive(Drop)]
pub struct UnderTest<D: Disk> {
    world: World<D>,
    /// The ids of the devices, in the order of plugging.
    ids: Sequence<DeviceId>,
    /// Where answers are put together, once one was.
    buffer: Option<LineBuffer>,
}

impl<D: Disk> Model for UnderTest<D> {
    ghost use Rattle.std.specs.Coded.{codes};
    ghost use Rattle.iom_litmus_looks.specs.Codes.{rows_coded, translations_coded};
    ghost use Rattle.iom_litmus_world.specs.Places.{Tested, place_of};

    ghost Value = { Tested };

    ghost coded = { Prim.hlevel (codes, rows_coded, translations_coded) };

    ghost view = { λ t. record { place = place_of t.world; ids = t.ids } };
}

impl<D: Disk> UnderTest<D> {
    /// The ids are those of the devices that are there now.
    fn list(&mut self, alloc: Global) -> Result<(), AllocError>
        ensures listed { OnOk result (AreListed self.new) }
        ensures place { self.new.place ≡ self.old.place }
    {
        self.ids = ids_of(alloc, &self.world.hardware().board.devices)?;
        Ok(())
    }

    /// Nothing happens.
    fn pass(&mut self, alloc: Global) -> Result<Reply, AllocError>
        ensures listed { OnOk result (AreListed self.new) }
        ensures place { self.new.place ≡ self.old.place }
        ensures reply { IfOk result (λ reply. reply ≡ no_reply) }
    {
        self.list(alloc)?;
        Ok(Reply::none(alloc))
    }

    /// The event happens.
    fn take(&mut self, alloc: Global, event: &Event) -> Result<Reply, AllocError>
        requires event { is_of_block event.now ≡ false }
        ensures listed { OnOk result (AreListed self.new) }
        ensures leads { IfOk result (λ reply. LeadsBy D.Disk event.now self.old.place reply self.new.place) }
    {
        if self.world.events() >= MOST_EVENTS {
            return Err(AllocError);
        }
        let mut buffer = match self.buffer.take() {
            Some(buffer) => buffer,
            None => LineBuffer::new(alloc)?,
        };
        let reply = take(alloc, &mut self.world, event, &mut buffer)?;
        self.buffer = Some(buffer);
        self.list(alloc)?;
        Ok(reply)
    }
}

impl<D: Disk> System for UnderTest<D> {
    type Opening = Opening;

    ghost opens = { Opens D.Disk };

    ghost rules = { rules D.Disk };

    ghost readings = { readings };

    fn new(alloc: Global, opening: &Opening) -> Result<UnderTest<D>, AllocError> {
        let world = opening.world(alloc)?;
        let ids = ids_of(alloc, &world.hardware().board.devices)?;
        Ok(UnderTest {
            world,
            ids,
            buffer: None,
        })
    }

    fn run(&mut self, alloc: Global, line: &[u8]) -> Result<Reply, AllocError> {
        match event_for_tests(alloc, line)? {
            Some(event) => self.take(alloc, &event),
            None => self.pass(alloc),
        }
    }

    fn act(&mut self, alloc: Global, step: HardwareStep) -> Result<Reply, AllocError> {
        match event_of(step) {
            Some(event) => self.take(alloc, &event),
            None => self.pass(alloc),
        }
    }

    fn fetches(&self) -> bool {
        let hardware = &self.world.hardware().board;
        hardware.iommu.fetch_has_effect(&hardware.memory)
    }

    fn devices(&self) -> &[DeviceId] {
        self.ids.as_slice()
    }

    fn is_in_flight(&self, device: DeviceId) -> bool {
        self.world.oldest(device).is_some()
    }

    fn is_in_walk(&self, _device: DeviceId) -> bool {
        false
    }

    fn messages(&self) -> usize {
        self.world.hardware().board.messages().len()
    }

    fn is_same_message(&self, place: usize, other: usize) -> bool {
        self.world
            .hardware()
            .board
            .messages()
            .is_same_message(place, other)
    }

    fn times_out(&self) -> bool {
        self.world.hardware().board.iommu.can_time_out()
    }

    fn memory(
        &self,
        alloc: Global,
        address: u64,
        length: usize,
    ) -> Result<Sequence<u8>, AllocError> {
        memory_text(alloc, &self.world.hardware().board.memory, address, length)
    }

    fn is_same(&self, other: &UnderTest<D>) -> bool {
        self.world.is_same(&other.world) && self.ids.as_slice() == other.ids.as_slice()
    }

    fn shrink(&mut self) {
        self.buffer = None;
    }

    fn fingerprint(&self) -> u64 {
        fingerprint_of(&self.world.hardware().board)
    }
}
