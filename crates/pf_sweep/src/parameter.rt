// A parameter of a sweep.

/// The parameter `p/unit`: so many units of `1/unit`.
#[derive(Clone, Copy)]
pub struct Parameter {
    pub p: i128,
    pub unit: i128,
}
