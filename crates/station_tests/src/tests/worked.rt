//! Calls and acts of the stations' tests.
use arrayvec::ArrayVec;
use call_values::worked::FIX;
use call_values::{
    Call, Casualty, Category, Comm, End, Field, First, HourMinute, Kind, Message, Mmsi, Nature,
    Position, Second,
};
use std::process::Abort;
use std::test::Fail;
use traffic_rules::{Act, Acts, StationRefusal, add_act, single};

/// An event at a moment, and what is done at it.
pub(crate) type Row<What> = (u64, What, Result<Acts, StationRefusal>);

/// What goes through events.
pub(crate) trait Station {
    type What: Copy;

    /// The acts of an event replace those in the list.
    fn go(&mut self, at: u64, what: Self::What, acts: &mut Acts) -> Result<(), StationRefusal>;
}

/// A station goes through events in order, and does at each what its row says. One list takes the acts of all, and is
/// empty after a refused one.
pub(crate) fn follow<S: Station>(
    rt: &impl Abort,
    station: &mut S,
    rows: &[Row<S::What>],
) -> Result<(), Fail> {
    let mut acts = nothing();
    for row in rows {
        let at = row.0;
        let (answer, given): (_, &[Act]) = match &row.2 {
            Ok(acts) => (Ok(()), acts),
            Err(refusal) => (Err(*refusal), &[]),
        };
        assert_eq!(rt; station.go(at, row.1, &mut acts), answer, "at {at}");
        assert_eq!(rt; acts.as_slice(), given, "at {at}");
    }
    Ok(())
}

pub(crate) fn mmsi(number: u32) -> Result<Mmsi, Fail> {
    Ok(Mmsi::new(number).ok_or("identity")?)
}

/// A ship in distress at 42° 31' N 83° 12' W, disabled and adrift, which wants F3E or G3E.
pub(crate) fn casualty(number: u32, hour: u8, minute: u8) -> Result<Casualty, Fail> {
    Ok(Casualty {
        mmsi: mmsi(number)?,
        nature: Nature::new(106).ok_or("nature")?,
        position: Position::new(FIX).ok_or("position")?,
        time: HourMinute::new(hour, minute).ok_or("time")?,
        comm: Comm::new(100).ok_or("communication")?,
    })
}

/// The same of a ship that knows neither its position nor the time.
pub(crate) fn unplaced(number: u32) -> Result<Casualty, Fail> {
    Ok(Casualty {
        position: Position::unknown(),
        time: HourMinute::unknown(),
        ..casualty(number, 0, 0)?
    })
}

/// A test, or a position that is asked for or given.
pub(crate) fn service(to: u32, from: u32, kind: Kind) -> Result<Call, Fail> {
    Ok(Call::Service {
        to: mmsi(to)?,
        category: Category::Safety,
        from: mmsi(from)?,
        kind,
    })
}

/// A routine call with these telecommands.
pub(crate) fn proposal(to: u32, from: u32, first: u8, second: u8, end: End) -> Result<Call, Fail> {
    Ok(Call::Individual {
        to: mmsi(to)?,
        category: Category::Routine,
        from: mmsi(from)?,
        first: First::new(first).ok_or("first telecommand")?,
        second: Second::new(second).ok_or("second telecommand")?,
        message: Message::Fields(Field::absent(), Field::absent()),
        end,
    })
}

/// A routine call on J3E telephony with this second telecommand.
pub(crate) fn individual(to: u32, from: u32, second: u8, end: End) -> Result<Call, Fail> {
    proposal(to, from, 109, second, end)
}

/// A call is sent once.
pub(crate) fn sent(call: Call) -> Acts {
    single(Act::Send { call, times: 1 })
}

pub(crate) fn nothing() -> Acts {
    ArrayVec::new()
}

/// These acts, and one more after them where there is room.
pub(crate) fn and(mut acts: Acts, act: Act) -> Acts {
    if acts.len() < 32 {
        add_act(&mut acts, act);
    }
    acts
}
