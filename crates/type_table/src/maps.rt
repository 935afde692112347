//! The maps of inputs: where each of their records went.

ghost use Rattle.std.specs.Prelude.{◌≡◌, ◌↔◌, ◌<◌, ◌^◌, IsTrue, [], ℕ, List, Option, Some, None, length, get_or, IfOk, IfErr, IfSome};
ghost use Rattle.type_trees.specs.Depth.{AreBelow};
ghost use Rattle.type_table.specs.Maps.{IsMap, kept_maps, with_map, followed_by, maps_followed_by};

use std::alloc::{AllocError, Allocator, Global};
use std::marker::Model;

/// Keeps the map of each input that is added to a table: for each record of the input, the number of
/// its type.
///
/// A number is the position of a type in the table, and in the end in the canonical list.
pub trait KeepMaps {
    /// The maps so far, one for each input, or none if they are not kept.
    ghost maps: { Self → Option (List (List ℕ)) };

    /// Forgets the maps so far.
    fn clear(&mut self)
        ensures { IfSome (maps self.new) (λ none. none ≡ []) };

    /// Keeps the map of the next input. If this runs out of memory, the maps stay as they were.
    fn keep(&mut self, numbers: &[u32]) -> Result<(), AllocError>
        requires { IsMap numbers.now }
        ensures ok { IfOk result (λ _. maps self.new ≡ with_map (maps self.old) numbers.now) }
        ensures err { IfErr result (λ _. self.new ≡ self.old) };

    /// Puts the number that stands at each number in its place, or 0 if none does.
    fn follow(&mut self, numbers: &[u32])
        requires { AreBelow (2 ^ 31) numbers.now }
        ensures { maps self.new ≡ maps_followed_by (maps self.old) numbers.now };

    /// How many inputs have a map: none, if they are not kept.
    fn count(&self) -> usize
        ensures { result ≡ length (kept_maps (maps self.now)) };

    /// The map of the input at a position, from 0: of no records, where it has none.
    fn map_of(&self, input: usize) -> &[u32]
        ensures value { result.now ≡ get_or (kept_maps (maps self.now)) input [] }
        ensures is_map { IsMap result.now };
}

/// Keeps no maps.
#[derive(Clone, Copy, Debug)]
pub struct NoMaps;

impl KeepMaps for NoMaps {
    ghost maps = { λ _. None };

    fn clear(&mut self) {}

    fn keep(&mut self, _numbers: &[u32]) -> Result<(), AllocError> {
        Ok(())
    }

    fn follow(&mut self, _numbers: &[u32]) {}

    fn count(&self) -> usize {
        0
    }

    fn map_of(&self, _input: usize) -> &[u32] {
        &[]
    }
}

/// The maps of inputs, in their order. A map takes four bytes for each record of its input.
#[derive(Debug, Drop)]
pub struct TypeMaps<A: Allocator = Global> {
    alloc: A,
    maps: Vec<Vec<u32, A>, A>,
}

impl<A: Allocator> Model for TypeMaps<A> {
    ghost use Rattle.std.specs.Prelude.{List, ℕ, map, All};
    ghost use Rattle.type_table.specs.Maps.{IsMap};

    ghost Value = { List (List ℕ) };

    ghost view = { λ m. map (λ numbers. numbers.items) m.maps.items };

    ghost invariant = { λ m. All IsMap (map (λ numbers. numbers.items) m.maps.items) };
}

impl<A: Allocator + Copy> TypeMaps<A> {
    /// No maps. This does not allocate.
    pub fn new(alloc: A) -> TypeMaps<A>
        ensures { result ≡ [] }
    {
        TypeMaps {
            alloc,
            maps: Vec::new(alloc),
        }
    }
}

impl<A: Allocator> TypeMaps<A> {
    /// How many inputs have a map.
    pub fn len(&self) -> usize
        ensures { result ≡ length self.now }
    {
        self.maps.len()
    }

    /// Whether no input has a map.
    pub fn is_empty(&self) -> bool
        ensures { IsTrue result ↔ (length self.now ≡ 0) }
    {
        self.len() == 0
    }

    /// The map of the input at a position, from 0.
    pub fn get(&self, input: usize) -> &[u32]
        requires inside { input < length self.now }
        ensures value { result.now ≡ get_or self.now input [] }
        ensures few { length result.now < 2 ^ 31 }
        ensures small { AreBelow (2 ^ 31) result.now }
    {
        &self.maps[input]
    }
}

/// Puts the number that stands at each number in its place, or 0 if none does.
fn follow_map(map: &mut [u32], numbers: &[u32])
    ensures { map.new ≡ followed_by map.old numbers.now }
{
    for number in map.iter_mut() {
        *number = match numbers.get(*number as usize) {
            Some(next) => *next,
            None => 0,
        };
    }
}

impl<A: Allocator + Copy> KeepMaps for TypeMaps<A> {
    ghost maps = { λ m. Some m };

    fn clear(&mut self) {
        self.maps.clear();
    }

    fn keep(&mut self, numbers: &[u32]) -> Result<(), AllocError> {
        let mut map = Vec::with_capacity(self.alloc, numbers.len())?;
        map.extend_from_slice(numbers)?;
        self.maps.push(map)?;
        Ok(())
    }

    fn follow(&mut self, numbers: &[u32]) {
        for map in self.maps.iter_mut() {
            follow_map(map, numbers);
        }
    }

    fn count(&self) -> usize {
        self.len()
    }

    #[tactic(auto, using(std::proofs::lemmas::List::get_or_past))]
    fn map_of(&self, input: usize) -> &[u32] {
        if input < self.len() {
            self.get(input)
        } else {
            &[]
        }
    }
}
