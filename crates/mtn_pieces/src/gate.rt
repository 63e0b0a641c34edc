// How many pieces there may be, and what each passes before its work.

/// The greatest number of pieces of a call.
pub const MAX_PIECES: usize = 64;

/// What each piece of work passes before it begins, with its number. It changes nothing that a contract sees, and takes no
/// memory; a test may wait in it for another piece.
pub trait Gate: Sync + Drop {
    /// Lets the piece with this number go on.
    fn pass(&self, piece: usize);
}

/// A gate that lets every piece go on at once.
#[derive(Clone, Copy)]
pub struct FreeGate;

impl Gate for FreeGate {
    fn pass(&self, _piece: usize) {}
}
