// Two places that are marked with one another.

/// Two places: the first is to be marked where the second is, if `to_first` says so, and the second where the first is, if
/// `to_second` does.
#[derive(Clone, Copy)]
pub struct Link {
    pub first: usize,
    pub second: usize,
    pub to_first: bool,
    pub to_second: bool,
}
