// What each piece of parallel work passes as it begins.

/// Is passed by each piece of parallel work once, as it begins. Pieces may pass it at the same time.
pub trait Gate: Sync {
    /// Passes the piece of this number.
    fn enter(&self, piece: u32);
}

/// The gate that lets every piece pass and does nothing.
#[derive(Clone, Copy, Debug)]
pub struct Pass;

impl Gate for Pass {
    fn enter(&self, _piece: u32) {}
}
