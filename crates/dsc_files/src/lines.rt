//! What a line of a file of any kind says.
ghost use Rattle.std.specs.Prelude.{◌≡◌, Some};
ghost use Rattle.dsc_files.specs.Files.{line_of_book, line_of_call, line_of_entry, line_of_join, line_of_point, line_of_sentence, line_of_traffic, line_of_world};

use crate::events::{EventLine, ExchangeLine, event_line, exchange_line};
use crate::points::PointLine;
use call_texts::extra_of;
use call_values::{Band, Call, Mmsi};
use input_lines::{BookLine, CallLine, JoinLine, SentenceLine};
use slot_evidence::{Reception, Sheet};
use slot_join::Extra;
use traffic_lines::{EndEvent, ExchangePoint, Point, TrafficLine, WorldLine};

/// Which lines a file has.
#[derive(Clone, Copy, Debug, PartialEq, Eq)]
pub enum FileKind {
    /// Receptions and evidence, which are joined.
    Join,
    /// Calls, with an expansion after them or none.
    Call,
    /// Calls and sentences.
    Sentence,
    /// Traffic of a station, at this point.
    Traffic(Point),
    /// Elements of one stream.
    Stream,
    /// Sentences.
    Book,
    /// An exchange of a ship and a coast station, at this point.
    Exchange(ExchangePoint),
}

/// What a line says.
#[derive(Debug, Drop)]
pub enum Line {
    /// The line is empty or a comment.
    Nothing,
    /// A receiver of this group heard these elements.
    Reception { group: u32, elements: Reception },
    /// Receivers of this group showed what this sheet keeps.
    Evidence { group: u32, sheet: Sheet },
    /// A call, and what follows it, which is nothing or an expansion.
    Call { call: Call, extra: Extra },
    /// A sentence, which is the line itself: it begins with `$`.
    Sentence,
    /// The station is this ship.
    Ship(Mmsi),
    /// The station is this coast station, which works in this band.
    Coast(Mmsi, Band),
    /// The second that moments count from, from the beginning of 1970, at most 9,999,999,999.
    Base(u64),
    /// The ship belongs to this group.
    Group(Mmsi),
    /// So many milliseconds after the base this happens.
    Event { at: u32, what: EventLine },
    /// The stream goes on with these elements, at least one.
    Stream(Reception),
    /// So many milliseconds after the base this happens at the ship of an exchange.
    AtShip { at: u32, what: ExchangeLine },
    /// So many milliseconds after the base this happens at the coast station of an exchange.
    AtCoast { at: u32, what: ExchangeLine },
}

impl From<JoinLine> for Line {
    ghost from_gives = { λ says line. line ≡ line_of_join says };

    fn from(says: JoinLine) -> Line {
        match says {
            JoinLine::Nothing => Line::Nothing,
            JoinLine::Reception { group, elements } => Line::Reception { group, elements },
            JoinLine::Evidence { group, sheet } => Line::Evidence { group, sheet },
        }
    }
}

impl From<CallLine> for Line {
    ghost from_gives = { λ says line. line ≡ line_of_call says };

    fn from(says: CallLine) -> Line {
        match says {
            CallLine::Nothing => Line::Nothing,
            CallLine::Call { call, expansion } => Line::Call {
                call,
                extra: extra_of(expansion),
            },
        }
    }
}

impl From<&SentenceLine<'_>> for Line {
    ghost from_gives = { λ says line. line ≡ line_of_sentence says.now };

    fn from(says: &SentenceLine<'_>) -> Line {
        match says {
            SentenceLine::Said(says) => Line::from(*says),
            SentenceLine::Sentence(_) => Line::Sentence,
        }
    }
}

impl From<BookLine> for Line {
    ghost from_gives = { λ says line. line ≡ line_of_book says };

    fn from(says: BookLine) -> Line {
        match says {
            BookLine::Nothing => Line::Nothing,
            BookLine::Sentence => Line::Sentence,
        }
    }
}

impl From<TrafficLine> for Line {
    ghost from_gives = { λ says line. line ≡ line_of_traffic says };

    fn from(says: TrafficLine) -> Line {
        match says {
            TrafficLine::Ship(mmsi) => Line::Ship(mmsi),
            TrafficLine::Coast(mmsi, band) => Line::Coast(mmsi, band),
            TrafficLine::Base(second) => Line::Base(second),
            TrafficLine::Group(mmsi) => Line::Group(mmsi),
            TrafficLine::Event { at, what } => {
                let what = event_line(what);
                Line::Event { at, what }
            }
        }
    }
}

impl From<PointLine> for Line {
    ghost from_gives = { λ says line. line ≡ line_of_point says };

    fn from(says: PointLine) -> Line {
        match says {
            PointLine::Joined(says) => Line::from(says),
            PointLine::Traffic(says) => Line::from(says),
        }
    }
}

impl From<EndEvent> for Line {
    ghost from_gives = { λ says line. line ≡ line_of_entry says };

    fn from(says: EndEvent) -> Line {
        match says {
            EndEvent::AtShip { at, what } => Line::AtShip {
                at,
                what: exchange_line(what),
            },
            EndEvent::AtCoast { at, what } => Line::AtCoast {
                at,
                what: exchange_line(what),
            },
        }
    }
}

impl From<WorldLine> for Line {
    ghost from_gives = { λ says line. line ≡ line_of_world (Some says) };

    fn from(says: WorldLine) -> Line {
        match says {
            WorldLine::Ship(mmsi) => Line::Ship(mmsi),
            WorldLine::Coast(mmsi, band) => Line::Coast(mmsi, band),
            WorldLine::Base(second) => Line::Base(second),
            WorldLine::EndEvent(entry) => Line::from(entry),
        }
    }
}
