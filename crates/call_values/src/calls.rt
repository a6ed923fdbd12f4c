//! Calls, form by form, and the casualty of a distress call.
ghost use Rattle.std.specs.Prelude.{◌≡◌};
ghost use Rattle.call_values.specs.Calls.{IsCasualty, IsCall};
ghost use Rattle.call_values.specs.Views.{address_of, body_of, sender_of};

use crate::{
    Area, Body, Category, Comm, End, Field, First, HourMinute, Kind, Message, Mmsi, Nature,
    Position, Second, To,
};

/// A ship in distress, as a distress call describes it (ITU-R M.493, distress alert).
#[derive(Clone, Copy, Debug, PartialEq, Eq)]
pub struct Casualty {
    pub mmsi: Mmsi,
    pub nature: Nature,
    pub position: Position,
    pub time: HourMinute,
    /// The kind of communication that is to follow.
    pub comm: Comm,
}

impl Casualty {
    /// The law that every casualty's parts are in their ranges. It does nothing.
    #[inline(always)]
    pub fn lawful(&self)
        ensures { IsCasualty self.now }
    {
        let _ = self.mmsi.number();
        let _ = self.nature.number();
        let _ = self.position.known();
        let _ = self.time.known();
        let _ = self.comm.number();
    }
}

/// A digital selective call (ITU-R M.493, composition of the calls). The telecommands and ends that each form may have
/// are this project's profile.
#[derive(Clone, Copy, Debug, PartialEq, Eq)]
pub enum Call {
    /// A distress alert. Its sender is the casualty.
    Alert(Casualty),
    /// A coast station's acknowledgement of a distress alert, to all ships.
    Ack {
        from: Mmsi,
        casualty: Casualty,
    },
    /// A distress alert relayed by another station, which may ask for an acknowledgement.
    Relay {
        to: To,
        from: Mmsi,
        casualty: Casualty,
        ask: bool,
    },
    /// The acknowledgement of a distress relay.
    RelayAck {
        to: To,
        from: Mmsi,
        casualty: Casualty,
    },
    /// A call to all ships.
    AllShips {
        category: Category,
        from: Mmsi,
        first: First,
        second: Second,
        f1: Field,
        f2: Field,
    },
    /// A call to the ships in an area.
    AreaCall {
        area: Area,
        category: Category,
        from: Mmsi,
        first: First,
        second: Second,
        f1: Field,
        f2: Field,
    },
    /// A call to a group of ships.
    GroupCall {
        group: Mmsi,
        category: Category,
        from: Mmsi,
        first: First,
        second: Second,
        f1: Field,
        f2: Field,
    },
    /// A call to one station.
    Individual {
        to: Mmsi,
        category: Category,
        from: Mmsi,
        first: First,
        second: Second,
        message: Message,
        end: End,
    },
    /// A test, or a ship's position asked for or given, to one station.
    Service {
        to: Mmsi,
        category: Category,
        from: Mmsi,
        kind: Kind,
    },
}

impl Call {
    /// Who the call is addressed to (ITU-R M.493, format specifier and address). A distress alert and its
    /// acknowledgement are for all ships.
    #[inline(always)]
    pub fn address(&self) -> To
        ensures { result ≡ address_of self.now }
    {
        match self {
            Call::Alert(_) | Call::Ack { .. } | Call::AllShips { .. } => To::All,
            Call::Relay { to, .. } | Call::RelayAck { to, .. } => *to,
            Call::AreaCall { area, .. } => To::Area(*area),
            Call::GroupCall { group, .. } => To::Group(*group),
            Call::Individual { to, .. } | Call::Service { to, .. } => To::One(*to),
        }
    }

    /// What the call says besides.
    #[inline(always)]
    pub fn body(&self) -> Body
        ensures { result ≡ body_of self.now }
    {
        match *self {
            Call::Alert(casualty) => Body::Alert(casualty),
            Call::Ack { from, casualty } => Body::Distress {
                from,
                acknowledges: true,
                casualty,
            },
            Call::Relay { from, casualty, .. } | Call::RelayAck { from, casualty, .. } =>
                Body::Distress {
                    from,
                    acknowledges: false,
                    casualty,
                },
            Call::AllShips {
                category,
                from,
                first,
                second,
                f1,
                f2,
            }
            | Call::AreaCall {
                category,
                from,
                first,
                second,
                f1,
                f2,
                ..
            }
            | Call::GroupCall {
                category,
                from,
                first,
                second,
                f1,
                f2,
                ..
            } => Body::Request {
                category,
                from,
                first,
                second,
                message: Message::Fields(f1, f2),
            },
            Call::Individual {
                category,
                from,
                first,
                second,
                message,
                ..
            } => Body::Request {
                category,
                from,
                first,
                second,
                message,
            },
            Call::Service {
                category,
                from,
                kind,
                ..
            } => Body::Service {
                category,
                from,
                kind,
            },
        }
    }

    /// The station that sent the call (ITU-R M.493, self-identification); in a distress alert the casualty.
    pub fn sender(&self) -> Mmsi
        ensures { result ≡ sender_of self.now }
    {
        self.body().sender()
    }

    /// The law that every call's parts are in their ranges. It is inlined with what it asks, and then does nothing.
    #[inline(always)]
    pub fn lawful(&self)
        ensures { IsCall self.now }
    {
        self.address().lawful();
        self.body().lawful();
    }
}
