//! Tables by number, whose ends are looked at where they are read and written.
ghost use Rattle.std.specs.Prelude.{◌≡◌, IfOk};

use std::alloc::AllocError;

/// The number as tables keep it. One that is too large for them is refused as want of memory.
pub(crate) fn narrow(number: usize) -> Result<u32, AllocError>
    ensures { IfOk result (λ narrow. narrow ≡ number) }
{
    match u32::try_from(number) {
        Ok(narrow) => Ok(narrow),
        Err(_) => Err(AllocError),
    }
}

/// The entry at a place, or the one given where there is none.
pub(crate) fn at<T: Copy>(table: &[T], place: usize, otherwise: T) -> T {
    if place < table.len() {
        table[place]
    } else {
        otherwise
    }
}

/// Changes the entry at a place, where there is one.
pub(crate) fn put<T: Copy>(table: &mut [T], place: usize, entry: T) {
    if place < table.len() {
        table[place] = entry;
    }
}
