ghost use Rattle.std.specs.Prelude.{◌≡◌, ◌<◌, IfOk, IfSome, IfNone, []};
ghost use Rattle.iom_pointers.specs.Pointers.{IsDeepest, HasNoneFor, HasOneOfEachKey, Follows, is_lower, with_pointer, without_covered};

use crate::pointer::Pointer;
use crate::walk::index_in;
use iom_base::Ppn;
use iom_command_queue::Command;
use iom_phys_mem::Memory;
use iom_stage_walk::{Entry, entry_at};
use iom_stepped_walk::TableInHand;
use iom_table_survey::span;
use iom_tlb::Space;
use std::alloc::{AllocError, Global};
use std::marker::Model;

/// How many pointers are cached at most.
pub const MAX_POINTERS: usize = 1024;

/// The pointers to tables that hardware caches, of each key one.
#[derive(Drop)]
pub struct Pointers {
    kept: Vec<Pointer>,
}

impl Model for Pointers {
    ghost use Rattle.std.specs.Prelude.{◌≤◌, List, length, vec_capacity};
    ghost use Rattle.iom_pointers.specs.Pointers.{pointer_limit, HasOneOfEachKey};
    ghost use Rattle.iom_pointers.specs.declared.pointer.Pointer.{Pointer};

    ghost Value = { List Pointer };

    ghost view = { λ p. p.kept.items };

    ghost invariant = { λ p. (pointer_limit ≤ vec_capacity p.kept) × (length p.kept.items ≤ pointer_limit)
        × HasOneOfEachKey p.kept.items };
}

/// Whether the table of the one stands lower than that of the other, if there is one.
fn is_lower(own: Pointer, other: Option<Pointer>) -> bool
    ensures { result ≡ is_lower own other }
{
    match other {
        Some(found) => own.level < found.level,
        None => true,
    }
}

/// The one of a list that is for the page of the space and stands lowest.
fn deepest_of(kept: &[Pointer], space: Space, page: u64) -> Option<Pointer>
    ensures some { IfSome result (IsDeepest kept.now space page) }
    ensures none { IfNone result (HasNoneFor kept.now space page) }
{
    let mut deepest = None;
    for place in 0..kept.len() {
        let own = kept[place];
        if own.is_for(space, page) && is_lower(own, deepest) {
            deepest = Some(own);
        }
    }
    deepest
}

impl Pointers {
    /// None, with room for all that are ever cached. Takes all its memory here.
    pub fn new(alloc: Global) -> Result<Pointers, AllocError>
        ensures { IfOk result (λ pointers. pointers ≡ []) }
    {
        Ok(Pointers {
            kept: Vec::with_capacity(alloc, MAX_POINTERS)?,
        })
    }

    /// What is always so: of each key there is one. It does nothing.
    pub fn facts(&self)
        ensures { HasOneOfEachKey self.now }
    {
        let _kept = &self.kept;
    }

    /// All of them, that which was kept last at the end.
    pub fn as_slice(&self) -> &[Pointer]
        ensures { result.now ≡ self.now }
    {
        &self.kept
    }

    /// Where a walk to the page of the address space begins: at the table of the lowest level. None where the walk begins
    /// at the root.
    pub fn deepest(&self, space: Space, page: u64) -> Option<Pointer>
        ensures some { IfSome result (IsDeepest self.now space page) }
        ensures none { IfNone result (HasNoneFor self.now space page) }
    {
        deepest_of(&self.kept, space, page)
    }

    /// Keeps the pointer, in place of an older one of its key. Where 1,024 others are kept it forgets them all.
    pub fn keep(&mut self, pointer: Pointer)
        ensures { self.new ≡ with_pointer pointer self.old }
    {
        self.kept.retain(|own| !own.has_key_of(&pointer));
        if self.kept.len() == MAX_POINTERS {
            self.kept.clear();
        }
        self.kept.push(pointer).unwrap();
    }

    /// Keeps all pointers by which a walk passes that has this table in hand, down to the entry at which it ends. What it
    /// finds is kept in the address space.
    pub fn follow(&mut self, memory: &Memory, space: Space, hand: TableInHand)
        requires { hand.level < 4 }
        ensures { Follows memory.now space hand self.old self.new }
    {
        if hand.level == 0 {
            return;
        }
        let index = index_in(hand);
        if let Entry::Pointer(next) = entry_at(memory, hand.table.number(), index) {
            let pointer = Pointer {
                space,
                level: hand.level - 1,
                prefix: hand.page / span(hand.level),
                table: Ppn::new(next).unwrap(),
            };
            self.keep(pointer);
            self.follow(memory, space, pointer.hand(hand.page));
        }
    }

    /// Forgets what the command takes out: of an IOTINVAL that names no page the pointers of its address spaces, else
    /// none.
    pub fn forget(&mut self, command: &Command)
        ensures { self.new ≡ without_covered command.now self.old }
    {
        self.kept.retain(|own| !own.is_covered(command));
    }
}
