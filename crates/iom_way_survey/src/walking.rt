// What requests that are under way may still come to.
ghost use Rattle.std.specs.Prelude.{◌≡◌, ◌<◌, ◌≤◌, ◌^◌, length, Some, option_map};
ghost use Rattle.iom_stepped_walk.specs.Indices.{index_at};
ghost use Rattle.iom_stepped_requests.specs.declared.walk.Serving.TheVariants.{Served};
ghost use Rattle.iom_table_survey.specs.Reaches.{AddsReach};
ghost use Rattle.iom_table_survey.specs.Rows.{GrowsBy};
ghost use Rattle.iom_walks.specs.Walks.{under_way_of};
ghost use Rattle.iom_way_survey.specs.Walking.{IsOneThat, HandReads, HandLeads, MapsPage, serving_of, SecondReads, SecondLeads, WalkReads, WalkLeads, RequestReads, RequestLeads, SpaceReads, SpaceLeads, sought_by, found_of, frame_let_through, LetsNext, LetsOn, IsLetThrough};
ghost use Rattle.iom_way_survey.specs.Surveys.{rows_in};

use iom_base::{AccessKind, Cause, DeviceId, PAGE_SIZE, Ppn, Rights, TABLE_ENTRIES};
use iom_device_dir::Context;
use iom_phys_mem::Memory;
use iom_stage_walk::{Entry, entry_at};
use iom_stepped_requests::{Answer, Request, RequestWalk, Serving};
use iom_stepped_walk::{Locating, SecondTables, TableInHand, TableWalk, finish_locating};
use iom_table_survey::{FrameRow, Reach, span, survey};
use iom_tlb::Space;
use iom_walks::Walks;

/// The index of the page that is looked for.
fn index_in(hand: TableInHand) -> u16
    requires { hand.level < 4 }
    ensures value { result ≡ index_at hand.is_wide hand.level hand.page }
    ensures small { result < 2048 }
{
    let entries = if hand.is_wide {
        4 * TABLE_ENTRIES
    } else {
        TABLE_ENTRIES
    };
    (hand.page / span(hand.level) % entries) as u16
}

/// The frame to which a leaf in the table maps the page, where it is aligned.
fn survey_leaf(hand: TableInHand, base: u64, rights: Rights, reach: &mut Reach)
    requires level { hand.level < 4 }
    requires base { base < 2 ^ 44 }
    ensures { AddsReach reach.old reach.new (MapsPage hand base rights) }
{
    let pages = span(hand.level);
    if base % pages == 0 {
        reach.insert_run(base + hand.page % pages, 1, rights);
    }
}

/// The one path from the table in hand on, of at most four tables.
fn survey_hand(memory: &Memory, hand: TableInHand, tables: &mut FrameRow, reach: &mut Reach)
    requires { hand.level < 4 }
    ensures tables { GrowsBy tables.old tables.new (HandReads memory.now hand) }
    ensures leaves { AddsReach reach.old reach.new (HandLeads memory.now hand) }
{
    let index = index_in(hand);
    tables.insert(hand.table.number() + u64::from(index) / TABLE_ENTRIES);
    match entry_at(memory, hand.table.number(), index) {
        Entry::Leaf(base, rights) => survey_leaf(hand, base, rights, reach),
        Entry::Pointer(next) => {
            if hand.level > 0 {
                let below = TableInHand {
                    table: Ppn::new(next).unwrap(),
                    level: hand.level - 1,
                    is_wide: false,
                    page: hand.page,
                };
                survey_hand(memory, below, tables, reach);
            }
        }
        Entry::Invalid | Entry::Outside => {}
    }
}

/// The path from the table in hand, where the walk has one.
fn survey_in_hand(
    memory: &Memory,
    hand: Option<TableInHand>,
    tables: &mut FrameRow,
    reach: &mut Reach,
)
    requires { (own : TableInHand) → hand ≡ Some own → own.level < 4 }
    ensures tables { GrowsBy tables.old tables.new (λ f. IsOneThat hand (λ own. HandReads memory.now own f)) }
    ensures leaves { AddsReach reach.old reach.new (λ kind f. IsOneThat hand (λ own. HandLeads memory.now own kind f)) }
{
    if let Some(own) = hand {
        survey_hand(memory, own, tables, reach);
    }
}

/// All tables of the second stage, where later walks of that stage may begin at its root.
fn survey_to_come(
    memory: &Memory,
    second: Option<SecondTables>,
    tables: &mut FrameRow,
    reach: &mut Reach,
)
    requires { length memory.now ≤ 4096 }
    ensures tables { GrowsBy tables.old tables.new (λ f. IsOneThat second (λ own. SecondReads memory.now own f)) }
    ensures leaves { AddsReach reach.old reach.new (λ kind f. IsOneThat second (λ own. SecondLeads memory.now own kind f)) }
{
    if let Some(own) = second {
        let levels = own.size.levels() as u32;
        survey(memory, false, own.root.number(), 4, levels, tables, reach);
    }
}

/// What a walk of tables may still come to.
fn survey_walk(memory: &Memory, walk: TableWalk, tables: &mut FrameRow, reach: &mut Reach)
    requires { length memory.now ≤ 4096 }
    ensures tables { GrowsBy tables.old tables.new (WalkReads memory.now walk) }
    ensures leaves { AddsReach reach.old reach.new (WalkLeads memory.now walk) }
{
    survey_in_hand(memory, walk.table_in_hand(), tables, reach);
    survey_to_come(memory, walk.second_stage_to_come(), tables, reach);
}

/// What the walk of tables of a request may still come to, where it makes one.
pub(crate) fn survey_request(
    memory: &Memory,
    serving: Option<Serving>,
    tables: &mut FrameRow,
    reach: &mut Reach,
)
    requires { length memory.now ≤ 4096 }
    ensures tables { GrowsBy tables.old tables.new (RequestReads memory.now serving) }
    ensures leaves { AddsReach reach.old reach.new (RequestLeads memory.now serving) }
{
    if let Some(Serving::GoesOn(RequestWalk::InTables { walk, .. })) = serving {
        survey_walk(memory, walk, tables, reach);
    }
}

/// The same, where its translation is kept in the address space.
pub(crate) fn survey_kept(
    memory: &Memory,
    serving: Option<Serving>,
    space: Space,
    tables: &mut FrameRow,
    reach: &mut Reach,
)
    requires { length memory.now ≤ 4096 }
    ensures tables { GrowsBy tables.old tables.new (SpaceReads memory.now space serving) }
    ensures leaves { AddsReach reach.old reach.new (SpaceLeads memory.now space serving) }
{
    if let Some(
        Serving::GoesOn(
            RequestWalk::InTables {
                space: kept,
                walk,
                ..
            },
        ),
    ) = serving
    {
        if kept == space {
            survey_walk(memory, walk, tables, reach);
        }
    }
}

/// The context, where one was located.
pub(crate) fn located(answer: Result<Context, Cause>) -> Option<Context>
    ensures { result ≡ found_of answer }
{
    match answer {
        Ok(context) => Some(context),
        Err(_) => None,
    }
}

/// The context to which a request comes that is on its way through the directory, if memory stays as it is.
pub(crate) fn sought_by(memory: &Memory, serving: Option<Serving>) -> Option<Context>
    ensures { result ≡ sought_by memory.now serving }
{
    match serving {
        Some(Serving::GoesOn(RequestWalk::InDirectory { walk, .. })) => {
            located(finish_locating(Locating::GoesOn(walk), memory))
        }
        _ => None,
    }
}

/// The frame on which an answer lets its request through.
fn frame_let_through(request: Request, answer: Answer) -> Option<u64>
    ensures { result ≡ frame_let_through request answer }
{
    match answer {
        Answer::AsItIs => Some(request.asked.address / PAGE_SIZE),
        Answer::Cached(translation) => Some(u64::from(translation.frame)),
        Answer::Reaches(walked) => Some(u64::from(walked.frame)),
        Answer::Faults(_) => None,
    }
}

/// The load of a guest's entry, where a walk of tables stands at one.
fn survey_entry(walk: TableWalk, reach: &mut Reach)
    ensures { AddsReach reach.old reach.new (LetsNext walk) }
{
    match walk {
        TableWalk::InGuestTable { frame, .. } => {
            reach.insert_for(u64::from(frame), AccessKind::Read);
        }
        TableWalk::InFirstStage { .. }
        | TableWalk::InSecondStage { .. }
        | TableWalk::ToGuestEntry { .. }
        | TableWalk::ToGuestPage { .. } => {}
    }
}

/// The access of a request that has its answer.
fn survey_answered(request: Request, answer: Answer, reach: &mut Reach)
    ensures { AddsReach reach.old reach.new (LetsOn request (Served answer)) }
{
    if let Some(frame) = frame_let_through(request, answer) {
        reach.insert_for(frame, request.asked.kind);
    }
}

/// The access that is let through at the next load of a request.
fn survey_next(request: Request, serving: Serving, reach: &mut Reach)
    ensures { AddsReach reach.old reach.new (LetsOn request serving) }
{
    match serving {
        Serving::Served(answer) => survey_answered(request, answer, reach),
        Serving::GoesOn(RequestWalk::InTables { walk, .. }) => survey_entry(walk, reach),
        Serving::GoesOn(RequestWalk::InDirectory { .. }) => {}
    }
}

/// How far the request of the device has come, if one is under way.
pub(crate) fn serving_beside(walks: Option<&Walks>, id: DeviceId) -> Option<Serving>
    ensures { result ≡ serving_of (rows_in (option_map (λ w. w.now) walks.entry)) id }
{
    match walks {
        Some(own) => own.serving(id),
        None => None,
    }
}

/// The access of the device's request that is let through at its next load.
fn survey_own(walks: &Walks, id: DeviceId, reach: &mut Reach)
    ensures { AddsReach reach.old reach.new (IsLetThrough (under_way_of walks.now id)) }
{
    if let Some(request) = walks.request(id) {
        if let Some(serving) = walks.serving(id) {
            survey_next(request, serving, reach);
        }
    }
}

/// The same, where requests may be under way.
pub(crate) fn survey_let_through(walks: Option<&Walks>, id: DeviceId, reach: &mut Reach)
    ensures { AddsReach reach.old reach.new (IsLetThrough (under_way_of (rows_in (option_map (λ w. w.now) walks.entry)) id)) }
{
    if let Some(own) = walks {
        survey_own(own, id, reach);
    }
}
