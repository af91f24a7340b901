//! The pointer in a session's handle.

ghost use Rattle.std.specs.Prelude.{◌≡◌, Option};
ghost use Rattle.library_sessions.specs.inner.Held.{share_at, share_coded};
ghost use Rattle.library_sessions.specs.declared.session_share.SessionShare.{SessionShare as ShareValue};

use crate::session_share::SessionShare;
use library_books::raw_box::{Opaque, RawBox};
use std::alloc::Global;
use std::marker::Model;

/// A `RawBox<SessionShare, Global>` that may cross to C, where no generic struct may. To drop it leaks its share.
#[repr(C)]
#[derive(Drop)]
pub struct HeldShare {
    at: *mut Opaque,
    alloc: Global,
    pub ghost share: { Option ShareValue } by { share_coded },
}

impl Model for HeldShare {
    ghost also_owns = { λ held. share_at held.alloc held.at held.share };
}

impl HeldShare {
    /// Takes over the share of `raw`, if there is one.
    pub fn from_raw_box(raw: RawBox<SessionShare, Global>) -> HeldShare
        ensures { result.share ≡ raw.value }
    {
        let RawBox { at, alloc } = raw;
        HeldShare {
            at: at as *mut Opaque,
            alloc,
        }
    }

    /// Gives up the share, if there is one, to a raw box.
    pub fn into_raw_box(self) -> RawBox<SessionShare, Global>
        ensures { result.value ≡ self.share }
    {
        let HeldShare { at, alloc } = self;
        RawBox {
            at: at as *mut SessionShare,
            alloc,
        }
    }
}

unsafe impl Send for HeldShare {}
