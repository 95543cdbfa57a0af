use crate::expect::expect;
use crate::steps::{keep, new_plain, new_ways};
use iom_base::Rights;
use iom_command_queue::{AtsRange, Command, DeviceNumber, PageNumber, Pscid};
use iom_tlb::{Cover, Space, TransCache, Translation, invalidate};
use std::alloc::Global;
use std::process::Abort;

/// Two host address spaces, two VMs, two address spaces of the first VM and one of the second.
static SPACES: [Space; 7] = [
    Space::First { pscid: 1 },
    Space::First { pscid: 2 },
    Space::Second { gscid: 1 },
    Space::Second { gscid: 2 },
    Space::Both { gscid: 1, pscid: 1 },
    Space::Both { gscid: 1, pscid: 2 },
    Space::Both { gscid: 2, pscid: 1 },
];

static TRANSLATION: Translation = Translation {
    frame: 5,
    rights: Rights::RW,
    order: 0,
};

/// A command, by the fields that count.
pub(crate) enum Order {
    /// GSCID, PSCID and page, where GV, PSCV and AV are 1.
    Vma(Option<u16>, Option<u32>, Option<u64>),
    Gvma(Option<u16>, Option<u64>),
    Fence,
    /// An invalidation of the directory.
    Directory,
    /// One of a device's cache.
    Ats,
}

/// A command, and which of the address spaces have pages 3 and 4 after it: 1 for each that has.
type Left = (Order, [u8; 7], [u8; 7]);

/// What each row of the tables of IOTINVAL.VMA and IOTINVAL.GVMA leaves. Of GVMA AV is ignored if GV is 0; a two-stage
/// translation doesn't tell which guest physical pages it was made from, so each of the VM goes. At the end commands that leave
/// every translation.
#[rattlefmt::skip]
static ROWS: [Left; 15] = [
    (Order::Vma(None, None, None), [0, 0, 1, 1, 1, 1, 1], [0, 0, 1, 1, 1, 1, 1]),
    (Order::Vma(None, Some(1), None), [0, 1, 1, 1, 1, 1, 1], [0, 1, 1, 1, 1, 1, 1]),
    (Order::Vma(None, None, Some(3)), [0, 0, 1, 1, 1, 1, 1], [1, 1, 1, 1, 1, 1, 1]),
    (Order::Vma(None, Some(1), Some(3)), [0, 1, 1, 1, 1, 1, 1], [1, 1, 1, 1, 1, 1, 1]),
    (Order::Vma(Some(1), None, None), [1, 1, 1, 1, 0, 0, 1], [1, 1, 1, 1, 0, 0, 1]),
    (Order::Vma(Some(1), Some(1), None), [1, 1, 1, 1, 0, 1, 1], [1, 1, 1, 1, 0, 1, 1]),
    (Order::Vma(Some(1), None, Some(3)), [1, 1, 1, 1, 0, 0, 1], [1, 1, 1, 1, 1, 1, 1]),
    (Order::Vma(Some(1), Some(1), Some(3)), [1, 1, 1, 1, 0, 1, 1], [1, 1, 1, 1, 1, 1, 1]),
    (Order::Gvma(None, None), [1, 1, 0, 0, 0, 0, 0], [1, 1, 0, 0, 0, 0, 0]),
    (Order::Gvma(None, Some(3)), [1, 1, 0, 0, 0, 0, 0], [1, 1, 0, 0, 0, 0, 0]),
    (Order::Gvma(Some(1), None), [1, 1, 0, 1, 0, 0, 1], [1, 1, 0, 1, 0, 0, 1]),
    (Order::Gvma(Some(1), Some(3)), [1, 1, 0, 1, 0, 0, 1], [1, 1, 1, 1, 0, 0, 1]),
    (Order::Fence, [1; 7], [1; 7]),
    (Order::Directory, [1; 7], [1; 7]),
    (Order::Ats, [1; 7], [1; 7]),
];

fn page_of(number: &Option<u64>) -> Option<PageNumber> {
    number.and_then(|number| PageNumber::new(number))
}

pub(crate) fn command_of(rt: &impl Abort, order: &Order) -> Command {
    match order {
        Order::Vma(gscid, pscid, page) => Command::IotinvalVma {
            gscid: *gscid,
            pscid: pscid.and_then(|number| Pscid::new(number)),
            page: page_of(page),
        },
        Order::Gvma(gscid, page) => Command::IotinvalGvma {
            gscid: *gscid,
            page: page_of(page),
        },
        Order::Fence => Command::IofenceC {
            store: None,
            wsi: false,
            pr: true,
            pw: true,
        },
        Order::Directory => Command::IodirInvalDdt { device: None },
        Order::Ats => Command::AtsInval {
            device: DeviceNumber::new(1).expect(rt, "24 bits"),
            range: AtsRange::Everything,
        },
    }
}

/// Pages 3 and 4 of each of the address spaces.
fn fill<C: TransCache>(cache: &mut C) {
    for space in SPACES.iter() {
        keep(cache, *space, 3, TRANSLATION);
        keep(cache, *space, 4, TRANSLATION);
    }
}

/// Those of the address spaces have the page, and no others.
fn has<C: TransCache>(rt: &impl Abort, cache: &mut C, page: u64, want: &[u8; 7]) {
    for (space, unchanged) in SPACES.iter().zip(want.iter()) {
        let expected = (*unchanged == 1).then_some(TRANSLATION);
        expect(rt, cache.look(*space, page) == expected);
    }
}

/// What a row's command leaves of pages 3 and 4 in a cache that was empty.
fn leaves<C: TransCache>(rt: &impl Abort, cache: &mut C, row: &Left) {
    fill(cache);
    invalidate(cache, &command_of(rt, &row.0));
    has(rt, cache, 3, &row.1);
    has(rt, cache, 4, &row.2);
}

/// The same in either cache.
fn leaves_in_each(rt: &impl Abort, alloc: Global, row: &Left) {
    let mut plain = new_plain(rt, alloc);
    leaves(rt, &mut plain, row);
    let mut ways = new_ways(rt, alloc);
    leaves(rt, &mut ways, row);
}

#[test]
fn commands_take_out_what_the_tables_say(rt: HostRuntime) {
    for row in ROWS.iter() {
        leaves_in_each(&rt, rt.alloc(), row);
    }
}

/// A cover of a space's kind, with nothing named.
static SECOND: Cover = Cover::Second {
    gscid: None,
    page: None,
};

fn takes_out_one_kind<C: TransCache>(rt: &impl Abort, cache: &mut C) {
    fill(cache);
    cache.drop_where(&SECOND);
    has(rt, cache, 3, &[1, 1, 0, 0, 1, 1, 1]);
    has(rt, cache, 4, &[1, 1, 0, 0, 1, 1, 1]);
}

// It takes out that kind.
#[test]
fn a_cover_is_of_one_kind(rt: HostRuntime) {
    expect(
        &rt,
        SECOND.covers(Space::Second { gscid: 9 }, 9, TRANSLATION),
    );
    let mut plain = new_plain(&rt, rt.alloc());
    takes_out_one_kind(&rt, &mut plain);
    let mut ways = new_ways(&rt, rt.alloc());
    takes_out_one_kind(&rt, &mut ways);
}
