// Which devices can ask, and how another one is refused.
ghost use Rattle.std.specs.Prelude.{◌≡◌};
ghost use Rattle.iom_base.specs.DeviceKinds.{forges, is_any_kind};
ghost use Rattle.iom_board.specs.Permits.{IsPermitted};
ghost use Rattle.iom_board.specs.Senders.{cached_by, untranslated_by};

use iom_base::{DeviceKind, Refusal};
use iom_board::Sender;

/// Whether a device of this kind asks so for what the IOMMU translates.
fn sends_untranslated(sender: Sender, kind: DeviceKind) -> bool
    ensures { result ≡ untranslated_by sender kind }
{
    match sender {
        Sender::Own => kind.sends_untranslated(),
        Sender::Step => kind.is_block_device(),
    }
}

/// Why a device of this kind isn't one that asks so: it isn't there, or can't.
pub(crate) fn why_not_asking(known: Option<DeviceKind>, sender: Sender) -> Option<Refusal>
    ensures { IsPermitted (untranslated_by sender) known result }
{
    let Some(kind) = known else {
        return Some(Refusal::NoSuchDevice);
    };
    if sends_untranslated(sender, kind) {
        None
    } else {
        Some(Refusal::WrongKind)
    }
}

/// Whether a device of this kind asks so through a cache of its own.
fn sends_through_cache(sender: Sender, kind: DeviceKind) -> bool
    ensures { result ≡ cached_by sender kind }
{
    match sender {
        Sender::Own => kind.sends_through_cache(),
        Sender::Step => kind.is_block_device(),
    }
}

/// Why a device of this kind isn't one that asks so through its cache.
pub(crate) fn why_not_cached(known: Option<DeviceKind>, sender: Sender) -> Option<Refusal>
    ensures { IsPermitted (cached_by sender) known result }
{
    let Some(kind) = known else {
        return Some(Refusal::NoSuchDevice);
    };
    if sends_through_cache(sender, kind) {
        None
    } else {
        Some(Refusal::WrongKind)
    }
}

/// Why a device of this kind can't say of a request that it is translated.
pub(crate) fn why_not_forging(known: Option<DeviceKind>) -> Option<Refusal>
    ensures { IsPermitted forges known result }
{
    let Some(kind) = known else {
        return Some(Refusal::NoSuchDevice);
    };
    if kind.forges() {
        None
    } else {
        Some(Refusal::WrongKind)
    }
}

/// Why nothing comes of a device: it isn't there.
pub(crate) fn why_not_there(known: Option<DeviceKind>) -> Option<Refusal>
    ensures { IsPermitted is_any_kind known result }
{
    match known {
        None => Some(Refusal::NoSuchDevice),
        Some(_) => None,
    }
}
