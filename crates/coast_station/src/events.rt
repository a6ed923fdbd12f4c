//! The events of a coast station.
ghost use Rattle.coast_station.specs.Events.{IsCoastWhat};

use call_values::{Call, CoastDelay, Mmsi, To};

/// An event at a coast station, at a moment in milliseconds.
#[derive(Clone, Copy, Debug, PartialEq, Eq)]
pub struct CoastEvent {
    pub at: u64,
    pub what: CoastWhat,
}

/// What happens at a coast station (ITU-R M.541, procedures of coast stations).
#[derive(Clone, Copy, Debug, PartialEq, Eq)]
pub enum CoastWhat {
    /// The operator accepts the distress alert of this ship, to be acknowledged so long after the alert. On MF and HF a
    /// delay must be given.
    Accept(Mmsi, Option<CoastDelay>),
    /// Time has passed.
    Tick,
    /// The operator relays the distress alert of this ship, and may ask for an acknowledgement.
    Relay(Mmsi, To, bool),
    /// The operator sends a call.
    Send(Call),
    /// The operator accepts or declines the call that was got under this number.
    Answer(u8, bool),
    /// A call was heard.
    Heard(Call),
}

impl CoastWhat {
    /// The law that every event's parts are in their ranges. It does nothing.
    pub fn lawful(&self)
        ensures { IsCoastWhat self.now }
    {
        match self {
            CoastWhat::Tick | CoastWhat::Send(_) | CoastWhat::Answer(_, _) | CoastWhat::Heard(_) =>
                {}
            CoastWhat::Accept(mmsi, delay) => {
                let _ = mmsi.number();
                if let Some(delay) = delay {
                    let _ = delay.number();
                }
            }
            CoastWhat::Relay(mmsi, to, _) => {
                let _ = mmsi.number();
                to.lawful();
            }
        }
    }
}
