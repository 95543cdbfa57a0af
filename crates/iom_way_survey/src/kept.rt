// What a context with EN_ATS lets through of a device.
ghost use Rattle.std.specs.Prelude.{◌≡◌, ◌<◌, ℕ, length, slice_get, Some};
ghost use Rattle.iom_board.specs.BoardParts.{board_parts};
ghost use Rattle.iom_table_survey.specs.Reaches.{AddsReach};
ghost use Rattle.iom_way_survey.specs.Found.{IsKeptAmong, AnswersWith, IsAnsweredAmong, IsInCache, LetsDevice};

use iom_ats_cache::Entry;
use iom_base::{DeviceId, DeviceKind};
use iom_board::Board;
use iom_device::Device;
use iom_fabric::{Fabric, Message, OnLink, Translation};
use iom_table_survey::Reach;

/// The entry at a place.
fn entry_at(entries: &[Entry], place: usize) -> Entry
    requires { place < length entries.now }
    ensures { slice_get entries.now place ≡ Some result }
{
    match entries.get(place) {
        Some(entry) => *entry,
        None => unreachable!(),
    }
}

/// The message at a place.
fn message_at(fabric: &Fabric, place: usize) -> OnLink
    requires { place < length fabric.now }
    ensures { slice_get fabric.now place ≡ Some result }
{
    match fabric.get(place) {
        Some(on) => on,
        None => unreachable!(),
    }
}

/// What the entries of a cache map.
fn survey_entries(entries: &[Entry], reach: &mut Reach)
    ensures { AddsReach reach.old reach.new (IsKeptAmong entries.now) }
{
    for place in 0..entries.len() {
        let entry = entry_at(entries, place);
        reach.insert(entry.frame, entry.rights);
    }
}

/// What the message maps, where it is an answer to the device that it would keep: one of its epoch.
fn survey_message(on: OnLink, id: DeviceId, epoch: u64, reach: &mut Reach)
    ensures { AddsReach reach.old reach.new (AnswersWith id epoch on) }
{
    if on.device != id {
        return;
    }
    let Message::Answer {
        epoch: asked,
        translation: Translation::Page { frame, rights },
        ..
    } = on.message
    else {
        return;
    };
    if asked == epoch {
        reach.insert(frame, rights);
    }
}

/// What the messages under way map, of those that the device would keep.
fn survey_messages(fabric: &Fabric, id: DeviceId, epoch: u64, reach: &mut Reach)
    ensures { AddsReach reach.old reach.new (IsAnsweredAmong id epoch fabric.now) }
{
    for place in 0..fabric.len() {
        let on = message_at(fabric, place);
        survey_message(on, id, epoch, reach);
    }
}

/// What the device's own cache has.
fn survey_cache(device: &Device, reach: &mut Reach)
    ensures { AddsReach reach.old reach.new (IsInCache device.now.cache) }
{
    if let Some(cache) = &device.cache {
        survey_entries(cache.entries(), reach);
    }
}

/// What is let through of the device.
pub(crate) fn survey_ats(hardware: &Board, device: &Device, reach: &mut Reach)
    ensures { AddsReach reach.old reach.new (LetsDevice hardware.now.fabric device.now) }
{
    match device.kind {
        DeviceKind::Raw => reach.insert_all(),
        DeviceKind::Ats | DeviceKind::CachedBlock => {
            survey_cache(device, reach);
            survey_messages(&hardware.fabric, device.id, device.epoch(), reach);
        }
        DeviceKind::Block => {}
    }
}
