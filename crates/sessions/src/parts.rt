//! The parts of a bundle.
ghost use Rattle.std.specs.Prelude.{◌≡◌, OnOk};
ghost use Rattle.sessions.specs.Parts.{sections, add_to};

use std::alloc::AllocError;

/// A session with its lines, each with its newline.
#[derive(Debug, Drop)]
pub struct Part {
    pub session: u32,
    pub bytes: Vec<u8>,
}

/// Adds bytes to the part of a session, which stands last where there was none.
pub(crate) fn add(parts: &mut Vec<Part>, session: u32, bytes: Vec<u8>) -> Result<(), AllocError>
    ensures { OnOk result (sections parts.new.items ≡ add_to session bytes.items (sections parts.old.items)) }
{
    for part in parts.iter_mut() {
        if part.session == session {
            return part.bytes.extend_from_slice(&bytes);
        }
    }
    parts.push(Part { session, bytes })?;
    Ok(())
}
