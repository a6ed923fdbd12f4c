//! Areas that calls are addressed to.
ghost use Rattle.std.specs.Prelude.{◌≡◌, ◌≤◌, ◌↔◌, IfSome, IsSome};
ghost use Rattle.call_values.specs.Areas.{Rectangle, IsArea};

use std::marker::Model;

/// A rectangle on the Mercator projection that an area call is for (ITU-R M.493, geographical coordinates): its
/// north-west corner, and its sides southwards and eastwards, all in whole degrees.
#[derive(Clone, Copy, Debug, PartialEq, Eq)]
pub struct Area {
    quadrant: u8,
    latitude: u8,
    longitude: u8,
    south: u8,
    east: u8,
}

impl Model for Area {
    ghost Value = { Rectangle };

    ghost view = { λ a. record {
      quadrant = a.quadrant;
      latitude = a.latitude;
      longitude = a.longitude;
      south = a.south;
      east = a.east;
    } };

    ghost invariant = { λ a. IsArea (record {
      quadrant = a.quadrant;
      latitude = a.latitude;
      longitude = a.longitude;
      south = a.south;
      east = a.east;
    }) };

    ghost inverse = { λ v. record {
      quadrant = v.quadrant;
      latitude = v.latitude;
      longitude = v.longitude;
      south = v.south;
      east = v.east;
    } };
}

impl Area {
    /// The area with this corner and these sides, and `None` exactly where the quadrant passes 3, the latitude 90, the
    /// longitude 180 or a side 99. Quadrant 0 is north-east, 1 north-west, 2 south-east and 3 south-west.
    pub fn new(quadrant: u8, latitude: u8, longitude: u8, south: u8, east: u8) -> Option<Area>
        ensures value { IfSome result (λ a. a
            ≡ record { quadrant = quadrant; latitude = latitude; longitude = longitude; south = south; east = east }) }
        ensures some { IsSome result
            ↔ IsArea (record {
              quadrant = quadrant;
              latitude = latitude;
              longitude = longitude;
              south = south;
              east = east;
            }) }
    {
        if quadrant <= 3 && latitude <= 90 && longitude <= 180 && south <= 99 && east <= 99 {
            Some(Area {
                quadrant,
                latitude,
                longitude,
                south,
                east,
            })
        } else {
            None
        }
    }

    /// The quadrant of the corner, 0 to 3.
    pub fn quadrant(&self) -> u8
        ensures value { result ≡ self.now.quadrant }
        ensures range { result ≤ 3 }
    {
        self.quadrant
    }

    /// The latitude of the corner in degrees, 0 to 90.
    pub fn latitude(&self) -> u8
        ensures value { result ≡ self.now.latitude }
        ensures range { result ≤ 90 }
    {
        self.latitude
    }

    /// The longitude of the corner in degrees, 0 to 180.
    pub fn longitude(&self) -> u8
        ensures value { result ≡ self.now.longitude }
        ensures range { result ≤ 180 }
    {
        self.longitude
    }

    /// The side from north to south in degrees, 0 to 99.
    pub fn south(&self) -> u8
        ensures value { result ≡ self.now.south }
        ensures range { result ≤ 99 }
    {
        self.south
    }

    /// The side from west to east in degrees, 0 to 99.
    pub fn east(&self) -> u8
        ensures value { result ≡ self.now.east }
        ensures range { result ≤ 99 }
    {
        self.east
    }

    /// The law that every area's parts are in their ranges. It does nothing.
    pub fn lawful(&self)
        ensures { IsArea self.now }
    {
        let _quadrant = self.quadrant;
    }
}
