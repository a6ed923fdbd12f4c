//! Stations, file by file.

mod areas;
mod coasts;
mod exchanges;
mod ships;
mod traffic;
mod worked;
