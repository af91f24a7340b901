//! Locking a path: the ancestors of a resource, from the database down, and then the resource.

ghost use Rattle.std.specs.Prelude.{◌≡◌, ◌≤◌, length};
ghost use Rattle.lock_desk.specs.Paths.{lock_of_level, grants};

use lock_modes::Mode;
use lock_rules::{Call, Reply};
use lock_tree::{LEVELS, Resource};

/// The call that locks level `level` of the path to `resource`: the resource itself in `mode`, an ancestor in the mode that
/// `mode` needs of a parent.
pub fn lock_of_level(resource: &Resource, mode: Mode, level: u8) -> Call
    requires some { 1 ≤ level }
    requires few { level ≤ length resource.now }
    ensures { result ≡ lock_of_level resource.now mode level }
{
    let numbers = resource.numbers();
    let count = level as usize;
    if count == numbers.len() {
        return Call::Lock(*resource, mode);
    }
    let mut first = [0; LEVELS];
    first[..count].copy_from_slice(&numbers[..count]);
    match Resource::from_prefix(&first, count) {
        Some(ancestor) => Call::Lock(ancestor, mode.parent_need()),
        None => unreachable!(),
    }
}

/// Whether the reply grants a lock.
pub fn grants(reply: &Reply) -> bool
    ensures { result ≡ grants reply.now }
{
    matches!(reply, Reply::Granted(_))
}
