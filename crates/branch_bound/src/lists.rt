// Lists of a fixed length, read and written at any place: beyond the end there is a default, and nothing is written.

// What stands at a place, or the default beyond the end.
pub(crate) fn at<T: Copy>(list: &[T], place: usize, default: T) -> T {
    if place < list.len() {
        list[place]
    } else {
        default
    }
}

// Writes at a place, or nothing beyond the end.
pub(crate) fn put<T: Copy>(list: &mut [T], place: usize, item: T) {
    if place < list.len() {
        list[place] = item;
    }
}
