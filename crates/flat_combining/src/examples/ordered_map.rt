//! A map whose keys are kept in order.

ghost use Rattle.std.specs.Prelude.{◌≡◌, []};

use crate::machine::Machine;
use std::alloc::{AllocError as NoMemory, Global};
use std::collections::BTreeMap;
use std::marker::Model;

/// What a session may call.
#[derive(Clone, Copy, Debug, PartialEq, Eq)]
pub enum MapCall {
    /// Add a key with its value.
    Add(u32, u64),
    /// Take a key out.
    Take(u32),
    /// Look a key up.
    Get(u32),
    /// Look the least key up.
    First,
}

/// What it gets back.
#[derive(Clone, Copy, Debug, PartialEq, Eq)]
pub enum MapReply {
    /// The key is in the map, with its value.
    Added,
    /// Refused: the key was in the map already, with this value, and stays so.
    Present(u64),
    /// The key was taken out; this was its value.
    Taken(u64),
    /// This key is in the map, with this value.
    Found(u32, u64),
    /// Refused: no such key is in the map.
    Absent,
}

/// A map whose keys are kept in order.
#[derive(Drop)]
pub struct OrderedMap {
    /// The keys with their values.
    map: BTreeMap<u32, u64, Global>,
}

impl Model for OrderedMap {
    ghost use Rattle.std.specs.Prelude.{ℕ, List};

    ghost Value = { List (ℕ × ℕ) };

    ghost use Rattle.flat_combining.specs.declared.examples.ordered_map.OrderedMap.TheInside.{Inside};

    ghost view = { λ (ordered : Inside). ordered.map.entries };
}

impl OrderedMap {
    /// A map with no keys.
    pub fn new(alloc: Global) -> OrderedMap
        ensures { result ≡ [] }
    {
        OrderedMap {
            map: BTreeMap::new(alloc),
        }
    }
}

impl Machine for OrderedMap {
    type Call = MapCall;

    type Reply = MapReply;

    ghost use Rattle.flat_combining.specs.examples.Maps.{entries_after, reply_of};
    ghost use Rattle.flat_combining.specs.declared.examples.ordered_map.MapCall.TheVariants.{First};

    ghost initial = { [] };

    ghost after = { λ entries _ call. entries_after entries call };

    ghost reply = { λ entries _ call. reply_of entries call };

    ghost any_call = { First };

    fn step(&mut self, _session: u16, call: MapCall) -> Result<MapReply, NoMemory> {
        match call {
            MapCall::Add(key, value) => {
                if let Some(present) = self.map.get(&key) {
                    return Ok(MapReply::Present(*present));
                }
                let Ok(_) = self.map.insert(key, value) else {
                    return Err(NoMemory);
                };
                Ok(MapReply::Added)
            }
            MapCall::Take(key) => {
                let Some(value) = self.map.remove(&key) else {
                    return Ok(MapReply::Absent);
                };
                Ok(MapReply::Taken(value))
            }
            MapCall::Get(key) => {
                let Some(value) = self.map.get(&key) else {
                    return Ok(MapReply::Absent);
                };
                Ok(MapReply::Found(key, *value))
            }
            MapCall::First => {
                let Some((key, value)) = self.map.first_key_value() else {
                    return Ok(MapReply::Absent);
                };
                Ok(MapReply::Found(*key, *value))
            }
        }
    }
}
