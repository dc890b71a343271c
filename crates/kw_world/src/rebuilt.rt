//! The lists of a rebalance: the versions that it needs, the cells that it keeps, where its new
//! rows start, and the rows that it took.
use kw_cells::cell::Cell;
use kw_cells::limits::{MOST_GATHERED, MOST_NEEDED, MOST_STARTS};
use kw_cells::short_list::ShortList;

/// The versions that a rebalance needs, since a scan may still ask for them, in the order of the
/// seats.
pub type Needed = ShortList<u64, MOST_NEEDED>;

/// The cells that a rebalance keeps, by rising key and version.
pub type KeptCells = ShortList<Cell, MOST_GATHERED>;

/// The places in the kept cells at which the new rows of a rebalance start.
pub type Starts = ShortList<usize, MOST_STARTS>;

/// The rows that a rebalance took, in the order of taking.
pub type Taken = ShortList<u32, MOST_STARTS>;
