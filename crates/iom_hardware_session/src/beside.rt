use iom_pointers::{Features, Pointers};
use iom_walks::Walks;

/// What hardware keeps beside its registers, its caches and its accesses in flight, by how its walks are made.
#[derive(Drop)]
pub enum Beside {
    /// Nothing: a walk is one event, from the root.
    Nothing,
    /// The requests that are under way: a walk takes several events.
    UnderWay(Walks),
    /// What its walks do beside, and the pointers to tables that it caches: a walk is one event, and may begin at one of
    /// these.
    Pointers(Features, Pointers),
}
