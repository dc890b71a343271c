//! A row to begin at for a key, by what one caller has for speed.
//!
//! A walk from the first row of a map is long, so each call guesses a row nearer to its key. The
//! caller's own entries name one without touching what others write. Where that row is in use no
//! more, they are brought up to what the index has published since, and asked again. A guess is
//! looked at before a walk begins there, so no reply depends on it.
ghost use Rattle.std.specs.Prelude.{◌<◌, IfSome};

use kw_index::hints::Hints;
use kw_index::index::Index;
use kw_table::Shared;

/// A row to begin at for the key, by the hints' own entries: as they are where the row that they
/// name is in use, and else brought up to what the index has published.
///
/// None where they name none, or the hints are of a map of another size than the index. A row is
/// below the index's number of rows. Takes no memory.
pub fn guess(shared: &Shared, index: &Index, hints: &mut Hints, key: u32) -> Option<u32>
    ensures { IfSome result (λ row. row < index.now) }
{
    match hints.own.guess(index, key) {
        Some(row) if shared.serves(row, key) => Some(row),
        _ => guess_anew(shared, index, hints, key),
    }
}

// The same by what is published. A row that is being replaced just then does not serve, and no
// others are published yet: the walk begins at the row on its left, since it would begin at the
// first row of the map else.
fn guess_anew(shared: &Shared, index: &Index, hints: &mut Hints, key: u32) -> Option<u32>
    ensures { IfSome result (λ row. row < index.now) }
{
    let row = hints.own.guess_anew(index, key)?;
    if shared.serves(row, key) {
        return Some(row);
    }
    let below = shared.least(row)?.checked_sub(1)?;
    hints.own.guess(index, below)
}
