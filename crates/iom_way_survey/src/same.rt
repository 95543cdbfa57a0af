// Whether two contexts are the same, field by field.
ghost use Rattle.std.specs.Prelude.{◌≡◌, IsTrue};

use iom_base::{Ppn, Size};
use iom_device_dir::{Context, FirstStage, GuestRoot, Pscid, SecondStage};

fn is_same_size(one: Size, other: Size) -> bool
    ensures { IsTrue result → one ≡ other }
{
    one == other
}

fn is_same_root(one: Ppn, other: Ppn) -> bool
    ensures { IsTrue result → one ≡ other }
{
    one == other
}

fn is_same_guest_root(one: GuestRoot, other: GuestRoot) -> bool
    ensures { IsTrue result → one ≡ other }
{
    one == other
}

fn is_same_pscid(one: Pscid, other: Pscid) -> bool
    ensures { IsTrue result → one ≡ other }
{
    one == other
}

fn is_same_first(one: FirstStage, other: FirstStage) -> bool
    ensures { IsTrue result → one ≡ other }
{
    match (one, other) {
        (FirstStage::Bare, FirstStage::Bare) => true,
        (
            FirstStage::Tables { size, root },
            FirstStage::Tables {
                size: its,
                root: own,
            },
        ) => {
            if !is_same_size(size, its) {
                return false;
            }
            is_same_root(root, own)
        }
        _ => false,
    }
}

fn is_same_second(one: SecondStage, other: SecondStage) -> bool
    ensures { IsTrue result → one ≡ other }
{
    match (one, other) {
        (SecondStage::Bare, SecondStage::Bare) => true,
        (
            SecondStage::Tables { size, root },
            SecondStage::Tables {
                size: its,
                root: own,
            },
        ) => {
            if !is_same_size(size, its) {
                return false;
            }
            is_same_guest_root(root, own)
        }
        _ => false,
    }
}

/// Whether the contexts are the same.
fn is_same_context(one: &Context, other: &Context) -> bool
    ensures { IsTrue result → one.now ≡ other.now }
{
    if one.en_ats != other.en_ats || one.gscid != other.gscid {
        return false;
    }
    if !is_same_pscid(one.pscid, other.pscid) {
        return false;
    }
    if !is_same_first(one.first_stage, other.first_stage) {
        return false;
    }
    is_same_second(one.second_stage, other.second_stage)
}

/// Whether the directory has the context that is cached.
pub(crate) fn is_same(stored: Option<Context>, cached: Option<Context>) -> bool
    ensures { IsTrue result → stored ≡ cached }
{
    match (stored, cached) {
        (Some(one), Some(other)) => is_same_context(&one, &other),
        _ => false,
    }
}
