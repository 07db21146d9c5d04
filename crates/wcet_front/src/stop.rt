//! Why a command goes no further.

ghost use Rattle.std.specs.Prelude.{◌≡◌};
ghost use Rattle.wcet_front.specs.declared.stop.Stop.TheVariants as stop;

use crate::reply::Reply;
use wx_base::NoMemory;

/// Why there is nothing to go on with.
#[derive(Drop)]
pub enum Stop {
    /// The reply is known.
    Replied { reply: Reply },
    /// Memory is wanting.
    NoMemory,
}

impl From<NoMemory> for Stop {
    ghost from_gives = { λ _ e. e ≡ stop.NoMemory };

    fn from(_error: NoMemory) -> Stop {
        Stop::NoMemory
    }
}
