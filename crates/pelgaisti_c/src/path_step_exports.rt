//! The exports of single steps on the way down a path, for callers that make the calls of a path themselves.

ghost use Rattle.std.specs.Prelude.{◌≡◌, ◌≢◌, ◌+◌, ◌↔◌, ◌⊎◌, ℕ, List};
ghost use Rattle.lock_modes.specs.Codes.{code_of};
ghost use Rattle.lock_modes.specs.Order.{need_of};
ghost use Rattle.lock_modes.specs.declared.Mode.{Mode};
ghost use Rattle.lock_desk.specs.Paths.{lock_of_level};
ghost use Rattle.library_books.specs.Numbers.{HasLevelBehind, IsModeCode, IsRestOf, numbers_of_call};

use library_books::numbers::{CallNumbers, ResourceNumbers, call_numbers, read_mode, read_path};
use library_books::status::{NO_SUCH_LEVEL, NO_SUCH_MODE, OK};
use lock_desk::lock_of_level;

/// The code of the mode that a lock in the mode with this code needs of the parent, at least. A number that is no mode's comes back as it
/// is.
#[unsafe(no_mangle)]
pub extern "C" fn pelgaisti_raw_parent_mode(mode: u32) -> u32
    ensures { ((m : Mode) × (mode ≡ code_of m) × (result ≡ code_of (need_of m))) ⊎ (¬ (IsModeCode mode) × (result ≡ mode)) }
{
    match read_mode(mode) {
        Some(known) => u32::from(known.parent_need().code()),
        None => mode,
    }
}

/// Writes the call that locks the next level of a path of which `level` levels are locked: an ancestor of the resource in the mode that
/// `mode` needs of a parent, or the resource in `mode`.
#[unsafe(no_mangle)]
pub extern "C" fn pelgaisti_raw_path_call(
    resource: &ResourceNumbers,
    mode: u32,
    level: u32,
    call: &mut CallNumbers,
) -> u32
    ensures ok { result ≡ OK → (r : List ℕ) × (m : Mode) × IsRestOf resource.now level r × (mode ≡ code_of m)
        × (call.new ≡ numbers_of_call (lock_of_level r m (level + 1))) }
    ensures failed { result ≢ OK → call.new ≡ call.old }
    ensures level { result ≡ NO_SUCH_LEVEL ↔ ¬ (HasLevelBehind resource.now level) }
    ensures mode { result ≡ NO_SUCH_MODE → HasLevelBehind resource.now level × ¬ (IsModeCode mode) }
    ensures statuses { (result ≡ OK) ⊎ ((result ≡ NO_SUCH_LEVEL) ⊎ (result ≡ NO_SUCH_MODE)) }
{
    let path = given!(read_path(resource, level), NO_SUCH_LEVEL);
    let wanted = given!(read_mode(mode), NO_SUCH_MODE);
    *call = call_numbers(&lock_of_level(&path, wanted, level as u8 + 1));
    OK
}
