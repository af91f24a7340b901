//! The handle by which C holds a session.

ghost use Rattle.std.specs.Prelude.{◌≡◌, ◌≢◌, Some, None, IsSome, IfSome, IfNone, false, is_some};
ghost use Rattle.library_sessions.specs.declared.session_share.SessionShare.{SessionShare as ShareValue};

use crate::held_share::HeldShare;
use crate::session_share::SessionShare;
use library_books::raw_box::RawBox;
use std::alloc::Global;
use std::mem;

/// A session's handle in C's memory: `pelgaisti_session` of the header. A handle whose bytes are all zero is closed.
#[repr(C)]
#[derive(Drop)]
pub struct SessionHandle {
    /// 1 if the handle is open. Any other number means closed.
    pub is_open: u32,
    pub held: HeldShare,
    ghost open: { is_open ≡ 1 → IsSome held.share },
    ghost closed: { is_open ≢ 1 → held.share ≡ None },
    ghost free: { (share : ShareValue) → held.share ≡ Some share → is_some share.looking ≡ false },
}

impl SessionHandle {
    /// Takes the share out of an open handle and leaves the handle closed. Returns `None` if the handle is closed.
    pub fn take(&mut self, alloc: Global) -> Option<Box<SessionShare>>
        ensures some { IfSome result (λ share. self.old.held.share ≡ Some share.value) }
        ensures free { IfSome result (λ share. is_some share.value.looking ≡ false) }
        ensures open { IfSome result (λ _. self.old.is_open ≡ 1) }
        ensures taken { IfSome result (λ _. (self.new.is_open ≡ 0) × (self.new.held.share ≡ None)) }
        ensures none { IfNone result (self.new ≡ self.old) }
        ensures closed { IfNone result ((self.old.is_open ≢ 1) × (self.old.held.share ≡ None)) }
    {
        if self.is_open != 1 {
            return None;
        }
        let closed = SessionHandle {
            is_open: 0,
            held: HeldShare::from_raw_box(RawBox::nothing(alloc)),
        };
        let SessionHandle { is_open: _, held } = mem::replace(self, closed);
        Some(held.into_raw_box().into_box())
    }

    /// Opens the handle with `share`, which doesn't look. The handle should be closed: a share that it holds is leaked.
    pub fn put(&mut self, share: Box<SessionShare>)
        requires free { is_some share.value.looking ≡ false }
        ensures { (self.new.is_open ≡ 1) × (self.new.held.share ≡ Some share.value) }
    {
        *self = SessionHandle {
            is_open: 1,
            held: HeldShare::from_raw_box(RawBox::of(share)),
        };
    }
}
