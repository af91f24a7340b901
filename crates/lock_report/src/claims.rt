//! The lines of a listing: their words, and tests of them.

ghost use Rattle.std.specs.Prelude.{◌≡◌};
ghost use Rattle.lock_report.specs.Claims.{word_of_kind, is_lock_kind, is_request_kind, is_last};

use lock_rules::ClaimKind;
use lock_tree::{Resource, same_path_is_equality};

/// The word of a claim in rows of CSV: `held` of a lock, `conversion` and `fresh` of a waiting request.
pub fn kind_word(kind: ClaimKind) -> &'static str
    ensures { result.now ≡ word_of_kind kind }
{
    match kind {
        ClaimKind::Held => "held",
        ClaimKind::Conversion => "conversion",
        ClaimKind::Fresh => "fresh",
    }
}

/// Whether a claim of this kind is a lock.
pub fn is_lock_kind(kind: ClaimKind) -> bool
    ensures { result ≡ is_lock_kind kind }
{
    match kind {
        ClaimKind::Held => true,
        ClaimKind::Conversion | ClaimKind::Fresh => false,
    }
}

/// Whether a claim of this kind is a waiting request.
pub fn is_request_kind(kind: ClaimKind) -> bool
    ensures { result ≡ is_request_kind kind }
{
    match kind {
        ClaimKind::Held => false,
        ClaimKind::Conversion | ClaimKind::Fresh => true,
    }
}

/// Whether this is the resource of the line before.
pub fn is_last(last: Option<Resource>, resource: Resource) -> bool
    ensures { result ≡ is_last last resource }
{
    same_path_is_equality();
    match last {
        None => false,
        Some(last) => resource == last,
    }
}
