//! The groups of ships that a ship belongs to, at most 16.
ghost use Rattle.std.specs.Prelude.{◌≡◌, ◌≤◌, length};

use call_values::Mmsi;
use std::marker::Model;

/// At most 16 groups of ships, by their identities.
#[derive(Drop)]
pub(crate) struct OwnGroups {
    identities: [Mmsi; 16],
    count: usize,
}

impl Model for OwnGroups {
    ghost use Rattle.std.specs.Prelude.{ℕ, List, ◌≤◌, take};

    ghost Value = { List ℕ };

    ghost view = { λ g. take g.count g.identities };

    ghost invariant = { λ g. g.count ≤ 16 };
}

impl OwnGroups {
    /// These groups. The places after them hold an identity of no meaning.
    pub(crate) fn new(groups: &[Mmsi], blank: Mmsi) -> OwnGroups
        requires { length groups.now ≤ 16 }
        ensures { result ≡ groups.now }
    {
        let mut identities = [blank; 16];
        identities[..groups.len()].copy_from_slice(groups);
        OwnGroups {
            identities,
            count: groups.len(),
        }
    }

    /// The list of them.
    pub(crate) fn list(&self) -> &[Mmsi]
        ensures { result.now ≡ self.now }
    {
        &self.identities[..self.count]
    }
}
