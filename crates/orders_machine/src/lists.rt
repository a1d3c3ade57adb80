//! Lists that are read and written by a place.

/// What stands at a place; nothing behind the end.
pub(crate) fn at<T: Copy + Drop>(items: &[T], place: usize) -> Option<T> {
    match items.get(place) {
        Some(item) => Some(*item),
        None => None,
    }
}

/// Puts this at a place; behind the end nothing changes.
pub(crate) fn put<T: Copy + Drop>(items: &mut Vec<T>, place: usize, item: T) {
    if place < items.len() {
        items[place] = item;
    }
}
