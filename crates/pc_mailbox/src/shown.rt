//! What a client was shown of its update list.

use pc_account_history::Listed;
use pc_base::List;

/// Uids with their stamps.
pub type Shown = List<Listed>;
