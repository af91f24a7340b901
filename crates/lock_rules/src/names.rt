//! The names of refusals, written and read.

ghost use Rattle.std.specs.Prelude.{◌≡◌, ◌↔◌, Some};
ghost use Rattle.lock_rules.specs.declared.calls.Why.{Why as WhyValue};
ghost use Rattle.lock_rules.specs.Names.{name_of_why};

use crate::calls::Why;
use crate::kinds::REFUSALS;

impl Why {
    /// Returns the name that histories and messages write.
    pub fn name(self) -> &'static str
        ensures { result.now ≡ name_of_why self }
    {
        match self {
            Why::AlreadyOpen => "AlreadyOpen",
            Why::NoTransaction => "NoTransaction",
            Why::IsWaiting => "IsWaiting",
            Why::IsDoomed => "IsDoomed",
            Why::NothingAsked => "NothingAsked",
            Why::NotHeld => "NotHeld",
            Why::ParentNotHeld => "ParentNotHeld",
            Why::ChildHeld => "ChildHeld",
            Why::TooManyLocks => "TooManyLocks",
            Why::WouldWait => "WouldWait",
            Why::NotWaiting => "NotWaiting",
        }
    }

    /// Returns the refusal of this name. `None` if the text isn't exactly a name.
    pub fn parse(text: &str) -> Option<Why>
        ensures { (w : WhyValue) → (result ≡ Some w) ↔ (text.now ≡ name_of_why w) }
    {
        for why in REFUSALS {
            if text == why.name() {
                return Some(why);
            }
        }
        None
    }
}
