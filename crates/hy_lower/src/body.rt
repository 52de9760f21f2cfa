// Bodies as their segments look at them.
use hy_types::{TyId, TyTable};
use sqlite_items::Items;
use std::alloc::Global;

/// Where a local of a body stands.
#[derive(Clone, Copy, Debug, PartialEq, Eq)]
pub enum Home {
    /// In words of the frame, from that one on.
    Words(u32),
    /// In a slot: the local stands for a place elsewhere. So many accesses are opened on the way to it, in the slots from
    /// `first` on.
    Slot { slot: u32, first: u32, count: u32 },
}

/// The slots that are filled by accesses opened one after another: first `left` from `next` on, and then `last`.
#[derive(Clone, Copy, Debug, PartialEq, Eq)]
pub struct Line {
    pub next: u32,
    pub left: u32,
    pub last: u32,
}

/// What the homes of a body's locals are made of.
#[derive(Drop)]
pub(crate) struct Slots {
    /// How many locals the body is lent.
    pub lent: u32,
    /// The locals that a `Lend` or `Project` fills.
    pub filled: Items<u32>,
    /// The locals of the slots after those that the body is lent, in order.
    pub order: Items<u32>,
    /// For each access on the way to what a `Lend` opens, the local.
    pub inner: Items<u32>,
}

/// A body, as its segments look at it.
#[derive(Drop)]
pub(crate) struct Body<'a> {
    pub alloc: Global,
    pub types: &'a TyTable,
    /// The words of each type, by its number.
    pub sizes: &'a [u32],
    /// The type of each local.
    pub locals: Items<TyId>,
    /// Where each local stands.
    pub homes: Items<Home>,
    /// The first word that no local has.
    pub scratch: u32,
    /// The first slot that neither a local nor a `Lend` has.
    pub slot: u32,
}
