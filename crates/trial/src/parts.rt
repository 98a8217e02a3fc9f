// The first of a list.

// So many, or all that there are.
pub fn first<T>(list: &[T], length: usize) -> &[T] {
    &list[..length.min(list.len())]
}

// The same to be written.
pub fn first_mut<T>(list: &mut [T], length: usize) -> &mut [T] {
    let most = length.min(list.len());
    &mut list[..most]
}
