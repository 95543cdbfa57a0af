/// Somebody who watches a search. What they do changes nothing of it.
pub trait Watch {
    /// So many places were found, and the search goes on from one to which so many steps lead.
    fn at(&mut self, places: usize, depth: usize);
}

/// Nobody.
impl Watch for () {
    fn at(&mut self, _places: usize, _depth: usize) {}
}
