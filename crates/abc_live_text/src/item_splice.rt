//! A splice of a list: a run of items, and those that replace it.

/// The `removed` items of a list from index `at` on, and the `new` items that replace them.
#[derive(Drop)]
pub struct ItemSplice<'a, T> {
    pub at: usize,
    pub removed: usize,
    pub new: &'a [T],
}
