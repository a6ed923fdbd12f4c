//! What the lines of a traffic file have come to.
ghost use Rattle.std.specs.Prelude.{◌≡◌, ◌≤◌, ◌∷◌, ◌++◌, [], length, OnOk};
ghost use Rattle.ship_station.specs.StandsFor.{StandsFor as ShipStandsFor};
ghost use Rattle.input_lines.specs.PointLine.{IsBody};
ghost use Rattle.traffic_replay.specs.inside.Progress.{GoesOn, IsBehindBase, IsReadyAt, identities_in, point_at};

use call_values::Mmsi;
use coast_station::Coast;
use ship_station::Ship;
use std::alloc::{AllocError, Global};
use traffic_lines::{Point, StationLine};

/// A ship whose groups are being named.
#[derive(Drop)]
pub(crate) struct Groups {
    own: Mmsi,
    /// The second that moments count from.
    pub base: u64,
    named: Vec<Mmsi>,
}

/// What the next line is to name.
#[derive(Drop)]
pub(crate) enum Stage {
    /// The station.
    Station,
    /// The base, after the line of this station.
    Base(StationLine),
    /// A group of this ship after these groups, or what shows that there is no further one.
    Groups(Groups),
    /// An event at this ship, or what receivers showed. Moments count from this second.
    Ship { base: u64, ship: Ship },
    /// An event at this coast station, or what receivers showed.
    Coast(Coast),
}

impl Groups {
    /// A ship of which no group is named so far.
    pub(crate) fn none(alloc: Global, own: Mmsi, base: u64) -> Groups
        ensures own { result.own ≡ own }
        ensures base { result.base ≡ base }
        ensures none { result.named.items ≡ [] }
    {
        Groups {
            own,
            base,
            named: Vec::new(alloc),
        }
    }

    /// How many groups are named so far.
    pub(crate) fn held(&self) -> u8
        requires { length self.now.named.items ≤ 16 }
        ensures { result ≡ length self.now.named.items }
    {
        self.named.len() as u8
    }

    /// The ship belongs to this group too.
    pub(crate) fn name(&mut self, mmsi: Mmsi) -> Result<(), AllocError>
        ensures named { OnOk result (self.new.named.items ≡ self.old.named.items ++ mmsi ∷ []) }
        ensures own { self.new.own ≡ self.old.own }
        ensures base { self.new.base ≡ self.old.base }
    {
        self.named.push(mmsi)?;
        Ok(())
    }

    /// The ship of these groups, in front of its first event.
    pub(crate) fn ship(&self) -> Ship
        requires { length self.now.named.items ≤ 16 }
        ensures { ShipStandsFor result (identities_in self.now) [] }
    {
        Ship::new(self.own, &self.named)
    }
}

impl Stage {
    /// The point of the next line.
    pub(crate) fn point(&self) -> Point
        requires { IsReadyAt self.now }
        ensures { result ≡ point_at self.now }
    {
        match self {
            Stage::Station => Point::Station,
            Stage::Base(_) => Point::Base,
            Stage::Groups(groups) => Point::Groups {
                held: groups.held(),
            },
            Stage::Ship { .. } => Point::Ship,
            Stage::Coast(_) => Point::Coast,
        }
    }

    /// Goes on to events: a ship's groups are all named.
    #[inline(never)]
    pub(crate) fn begin(&mut self)
        requires ready { IsReadyAt self.old }
        requires body { IsBody (point_at self.old) }
        ensures { GoesOn self.old self.new }
    {
        if let Stage::Groups(groups) = self {
            let (base, ship) = (groups.base, groups.ship());
            *self = Stage::Ship { base, ship };
        }
    }
}

/// The stage after the line that names this second as the base, which comes after that of this station.
#[inline(never)]
pub(crate) fn behind_base(alloc: Global, named: StationLine, base: u64) -> Stage
    ensures { IsBehindBase named base result }
{
    match named {
        StationLine::Ship(own) => Stage::Groups(Groups::none(alloc, own, base)),
        StationLine::Coast(own, band) => Stage::Coast(Coast::new(own, band)),
    }
}
