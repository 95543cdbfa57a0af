//! What tries at a place leave behind.
ghost use Rattle.std.specs.Prelude.{◌≡◌, OnOk};
ghost use Rattle.iom_litmus.specs.Graphs.{IsSpareOf, IsLeftOrNoted};
ghost use Rattle.iom_litmus.specs.Listed.{IsListed, KeepsListed};

use crate::happenings::deed_of;
use crate::listed::is_spot_among;
use crate::node::Node;
use crate::place::{Deed, Place};
use crate::step::Step;
use crate::system::System;
use iom_base::Sequence;
use iom_litmus_test::{Spot, Test};
use std::alloc::{AllocError, Global};

/// What tries left.
#[derive(Drop)]
pub(crate) struct Tries<S> {
    /// The place that is tried at once more, where a try left it as it was.
    pub(crate) spare: Option<Place<S>>,
    /// The awaited cells that changed the system where they were answered otherwise, each once.
    pub(crate) changing: Sequence<Spot>,
}

impl<S: System> Tries<S> {
    /// Nothing was tried. It takes no memory.
    pub(crate) fn new(alloc: Global) -> Tries<S> {
        Tries {
            spare: None,
            changing: Sequence::new(alloc),
        }
    }

    /// Notes the cell, where it isn't noted yet.
    fn note(&mut self, spot: Spot) -> Result<(), AllocError>
        ensures noted { OnOk result (IsListed self.new.changing spot) }
        ensures keeps { OnOk result (KeepsListed self.old.changing self.new.changing) }
    {
        if is_spot_among(self.changing.as_slice(), spot) {
            return Ok(());
        }
        self.changing.push(spot)?;
        Ok(())
    }

    /// Keeps what a try of the step at this place left, where it is the same place still. Else the cell that changed it
    /// is noted.
    pub(crate) fn give_back(
        &mut self,
        test: &Test,
        node: &Node<S>,
        step: Step,
        left: Place<S>,
    ) -> Result<(), AllocError>
        ensures spare { OnOk result (IsSpareOf test.now node.now self.new.spare) }
        ensures noted { OnOk result (IsLeftOrNoted self.new.changing test.now node.now step left) }
        ensures keeps { OnOk result (KeepsListed self.old.changing self.new.changing) }
    {
        if node.place.is_same(test, &left) {
            self.spare = Some(left);
            return Ok(());
        }
        let happened = node.place.happened.as_slice();
        if let Some(Deed::Cell(spot)) = deed_of(test, happened, step) {
            self.note(spot)?;
        }
        self.spare = None;
        Ok(())
    }
}
