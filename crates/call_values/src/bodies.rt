//! What a call says besides who it is addressed to.
ghost use Rattle.std.specs.Prelude.{◌≡◌};
ghost use Rattle.call_values.specs.Views.{IsBody, sender_in};

use crate::{Casualty, Category, First, Kind, Message, Mmsi, Second};

/// What a call says besides who it is addressed to (ITU-R M.493, composition of the calls).
#[derive(Clone, Copy, Debug, PartialEq, Eq)]
pub enum Body {
    /// A distress alert. Its sender is the casualty.
    Alert(Casualty),
    /// Another ship's distress alert, acknowledged or relayed.
    Distress {
        from: Mmsi,
        acknowledges: bool,
        casualty: Casualty,
    },
    /// A category, a sender, two telecommands and a message.
    Request {
        category: Category,
        from: Mmsi,
        first: First,
        second: Second,
        message: Message,
    },
    /// A test, or a ship's position asked for or given.
    Service {
        category: Category,
        from: Mmsi,
        kind: Kind,
    },
}

impl Body {
    /// The station that says this (ITU-R M.493, self-identification); in a distress alert the casualty.
    pub fn sender(&self) -> Mmsi
        ensures { result ≡ sender_in self.now }
    {
        match *self {
            Body::Alert(casualty) => casualty.mmsi,
            Body::Distress { from, .. } | Body::Request { from, .. } | Body::Service { from, .. } =>
                from,
        }
    }

    /// The law that all of its parts are in their ranges. It does nothing.
    #[inline(always)]
    pub fn lawful(&self)
        ensures { IsBody self.now }
    {
        match self {
            Body::Alert(casualty) => casualty.lawful(),
            Body::Distress { from, casualty, .. } => {
                let _ = from.number();
                casualty.lawful();
            }
            Body::Request {
                from,
                first,
                second,
                message,
                ..
            } => {
                let _ = from.number();
                let _ = first.number();
                let _ = second.number();
                message.lawful();
            }
            Body::Service { from, kind, .. } => {
                let _ = from.number();
                kind.lawful();
            }
        }
    }
}
