//! The quantisation table sets of a configuration.

ghost use Rattle.std.specs.Prelude.{◌≡◌, ℕ, ◌+◌, ◌<◌, ◌≤◌, max, [], ◌∷◌, ◌++◌, length};
ghost use Rattle.std.specs.Prelude.{slice_index_or, OnOk, OnErr, IsTrue, ◌↔◌};
ghost use Rattle.ffv1_record.specs.Sets.{AreSets, most_contexts};

use ffv1_plane::QuantSet;
use std::alloc::{AllocError, Allocator, Global};
use std::marker::Model;

/// Quantisation table sets, in order. In a contract they are the list of the sets.
#[derive(Drop)]
pub struct Sets<A: Allocator = Global> {
    sets: Vec<QuantSet<A>, A>,
}

impl<A: Allocator> Model for Sets<A> {
    ghost use Rattle.std.specs.Prelude.{List};
    ghost use Rattle.ffv1_plane.specs.Quantisation.{Set};
    ghost use Rattle.ffv1_record.specs.Sets.{AreSets};

    ghost Value = { List Set };

    ghost view = { λ s. s.sets.items };

    ghost invariant = { λ s. AreSets s.sets.items };
}

/// The greater of two numbers.
fn greater(a: u32, b: u32) -> u32
    ensures { result ≡ max a b }
{
    if a < b { b } else { a }
}

impl<A: Allocator> Sets<A> {
    /// No sets. It takes no memory.
    pub fn new(alloc: A) -> Sets<A>
        ensures { result ≡ [] }
    {
        Sets {
            sets: Vec::new(alloc),
        }
    }

    /// One set more, as the last. If a growth is refused nothing changes, and the set is
    /// dropped.
    pub fn push(&mut self, set: QuantSet<A>) -> Result<(), AllocError>
        ensures ok { OnOk result (self.new ≡ self.old ++ set ∷ []) }
        ensures err { OnErr result (self.new ≡ self.old) }
    {
        set.is_a_bounded_set();
        self.sets.push(set)?;
        Ok(())
    }

    /// How many sets there are.
    pub fn len(&self) -> usize
        ensures count { result ≡ length self.now }
        ensures sets { AreSets self.now }
    {
        self.sets.len()
    }

    /// Whether there is no set.
    pub fn is_empty(&self) -> bool
        ensures { IsTrue result ↔ (length self.now ≡ 0) }
    {
        self.sets.is_empty()
    }

    /// The set of this number, from 0.
    pub fn get(&self, index: usize) -> &QuantSet<A>
        requires { index < length self.now }
        ensures { result.now ≡ slice_index_or self.now index [] }
    {
        &self.sets[index]
    }

    /// The sets, in order.
    pub fn as_slice(&self) -> &[QuantSet<A>]
        ensures value { result.now ≡ self.now }
        ensures sets { AreSets self.now }
    {
        &self.sets
    }

    /// The largest number of contexts of the sets, at most 32768; 0 if there is none.
    pub fn most_contexts(&self) -> u32
        ensures value { result ≡ most_contexts self.now }
        ensures few { result ≤ 32768 }
    {
        let mut most = 0;
        for index in 0..self.sets.len() {
            most = greater(most, self.sets[index].contexts());
        }
        most
    }
}
