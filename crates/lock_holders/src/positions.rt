//! Session numbers and positions: sessions are numbered from 1, and the position of a session in lists with an item
//! for each is its number less 1.

ghost use Rattle.std.specs.Prelude.{◌≡◌, ◌+◌, ◌-◌, ◌<◌, ◌≤◌};

/// The position of `session`.
pub fn position_of(session: u16) -> usize
    requires { 1 ≤ session }
    ensures { result ≡ session - 1 }
{
    session as usize - 1
}

/// The session at `position`.
pub fn session_at(position: usize) -> u16
    requires { position < 65535 }
    ensures { result ≡ position + 1 }
{
    position as u16 + 1
}
