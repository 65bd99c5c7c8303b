//! What messages cost.

#[derive(Clone, Copy, Debug, PartialEq, Eq)]
pub struct Rates {
    /// What it costs to pass control to the other server: 0 to 1,000,000.
    pub latency: u32,
    /// What each byte costs that is sent: 0 to 1,000.
    pub per_byte: u32,
}
