// What a run is of.
use pf_frame::Frame;

/// A frame with a capacity for each arc, a source and a sink. It does not change while a run goes on.
#[derive(Clone, Copy)]
pub struct Network<'a> {
    pub frame: &'a Frame,
    pub caps: &'a [i128],
    pub source: u32,
    pub sink: u32,
}
