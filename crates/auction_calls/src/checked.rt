//! Calls whose fields were checked.

ghost use Rattle.std.specs.Prelude.{◌≡◌, true, false, Some, MatchResult};
ghost use Rattle.auction_calls.specs.Calls.{is_call};
ghost use Rattle.auction_calls.specs.BadFields.{bad_field};

use crate::action::ActionCall;
use crate::call_field::CallField;
use crate::ranges::bad_field;
use std::marker::Model;

/// A call that was handed back, and the first of its fields that is out of its range.
#[derive(Drop)]
pub struct BadCall {
    pub call: ActionCall,
    pub field: CallField,
}

/// A call whose fields are in their ranges, as its actions take it.
#[derive(Drop)]
pub struct CheckedCall {
    call: ActionCall,
}

impl Model for CheckedCall {
    ghost use Rattle.std.specs.Prelude.{◌≡◌, true};
    ghost use Rattle.auction_calls.specs.declared.action.ActionCall.{ActionCall};
    ghost use Rattle.auction_calls.specs.Calls.{is_call};

    ghost Value = { ActionCall };

    ghost view = { λ a. a.call };

    ghost invariant = { λ a. is_call a.call ≡ true };
}

impl CheckedCall {
    /// The call, if each of its fields is in its range. Where one is not, the call is handed back with the first that
    /// is not. It visits each byte of the texts of its action once, and takes no memory.
    pub fn check(call: ActionCall) -> Result<CheckedCall, BadCall>
        ensures { MatchResult result
            (λ checked. (is_call call ≡ true) × (checked ≡ call))
            (λ bad. (is_call call ≡ false) × (bad.call ≡ call) × (bad_field call ≡ Some bad.field)) }
    {
        match bad_field(&call) {
            None => Ok(CheckedCall { call }),
            Some(field) => Err(BadCall { call, field }),
        }
    }

    /// The call.
    pub fn call(&self) -> &ActionCall
        ensures value { result.now ≡ self.now }
        ensures in_ranges { is_call self.now ≡ true }
    {
        &self.call
    }

    /// The call, which is not copied.
    pub fn into_call(self) -> ActionCall
        ensures value { result ≡ self }
        ensures in_ranges { is_call self ≡ true }
    {
        self.call
    }
}
