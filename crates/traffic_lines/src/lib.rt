//! The lines of traffic files: a station, its base and groups, and events at their moments. And those of files of
//! exchanges.
#![tactic(auto)]

mod coasts;
mod events;
mod exchanges;
mod laws;
mod lines;
mod others;
mod points;
mod reading;
mod rows;
mod ships;
mod values;
mod worlds;

pub use exchanges::{read_end_event, read_exchange_base, read_exchange_coast, read_exchange_ship};
pub use laws::{one_traffic_line, one_world_line, traffic_lines_begin};
pub use lines::{
    CoastOwn, Deed, Event, Hearing, Point, ShipLine, ShipOwn, StationLine, StationOwn, TrafficLine,
};
pub use reading::{read_base, read_coast_line, read_ship_event, read_ship_line, read_station};
pub use worlds::{EndEvent, ExchangePoint, WorldLine};
