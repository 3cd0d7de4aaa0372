//! What a line of a bundle is.
ghost use Rattle.std.specs.Prelude.{◌≡◌};
ghost use Rattle.sessions.specs.Switches.{kind_of as kind_of_line, session_of as session_of_bytes};

/// A line of a bundle: one that its session gets, a switch to a session, or a switch that isn't well written.
#[derive(Clone, Copy)]
pub(crate) enum LineKind {
    Plain,
    Switch(u32),
    Faulty,
}

/// The session whose number these bytes write.
fn session_of(bytes: &[u8]) -> Option<u32>
    ensures { result ≡ session_of_bytes bytes.now }
{
    match bytes {
        [unit] if unit.is_ascii_digit() => Some(u32::from(*unit - b'0')),
        [b'1', unit] if unit.is_ascii_digit() && *unit <= b'5' => Some(
            10 + u32::from(*unit - b'0'),
        ),
        _ => None,
    }
}

pub(crate) fn kind_of(line: &[u8]) -> LineKind
    ensures { result ≡ kind_of_line line.now }
{
    match line {
        [b'@', number @ ..] => match session_of(number) {
            Some(session) => LineKind::Switch(session),
            None => LineKind::Faulty,
        },
        _ => LineKind::Plain,
    }
}
