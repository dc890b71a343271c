//! Two lists put together, for whoever makes a long list of parts.
ghost use Rattle.std.specs.Prelude.{◌≡◌, ◌++◌, IfOk};

use std::alloc::AllocError;

/// The items of one list and then those of another. Where the first list is empty, and has no more
/// room than the other one takes, nothing is copied, so the first part of a long list never is.
/// Room that a list was given for all parts is kept.
pub fn joined<T: Drop>(items: Vec<T>, more: Vec<T>) -> Result<Vec<T>, AllocError>
    ensures { IfOk result (λ all. all.items ≡ items.items ++ more.items) }
{
    if items.is_empty() && items.capacity() <= more.len() {
        return Ok(more);
    }
    let (mut all, mut more) = (items, more);
    all.append(&mut more)?;
    Ok(all)
}
