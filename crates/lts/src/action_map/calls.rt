// How an action map is made, and what it answers.
ghost use Rattle.std.specs.Prelude.{◌≡◌, ◌<◌, nat_lt, position, IfSome};
ghost use Rattle.lts.specs.Map.{Made, entry, identity, Changed};

use crate::action_map::ActionMap;
use crate::map_fault::MapFault;

// The place of the first entry that is no action.
fn first_stranger(entries: &[u8; 64]) -> Option<usize>
    ensures first { result ≡ position (λ action. nat_lt 63 action) entries.now }
    ensures inside { IfSome result (λ place. place < 64) }
{
    entries.iter().position(|action| *action > 63)
}

impl ActionMap {
    // A map with these entries, unless one of them is no action: then the first of those is told.
    pub fn new(entries: [u8; 64]) -> Result<ActionMap, MapFault>
        ensures { Made entries result }
    {
        match first_stranger(&entries) {
            Some(place) => Err(MapFault::Entry(place)),
            None => Ok(ActionMap { entries }),
        }
    }

    // The map under which each action stands for itself.
    pub fn identity() -> ActionMap
        ensures { result.entries ≡ identity }
    {
        let mut entries = [0; 64];
        for (action, entry) in entries.iter_mut().enumerate() {
            *entry = action as u8;
        }
        ActionMap { entries }
    }

    // The map with another entry for one action; nothing where either is no action.
    pub fn with(&self, action: u8, entry: u8) -> Option<ActionMap>
        ensures { Changed self.now.entries action entry result }
    {
        if action > 63 || entry > 63 {
            return None;
        }
        let mut entries = self.entries;
        entries[action as usize] = entry;
        Some(ActionMap { entries })
    }

    // What an action is replaced by; nothing past the last action.
    pub fn get(&self, action: u8) -> Option<u8>
        ensures { result ≡ entry self.now.entries action }
    {
        self.entries.get(action as usize).copied()
    }
}
