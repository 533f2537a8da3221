//! Why a store has no value.

use pc_base::StoreFault;

/// A store that couldn't be made or opened: its disk, and why.
#[derive(Drop)]
pub struct OpenFault<D> {
    pub disk: D,
    pub cause: StoreFault,
}
