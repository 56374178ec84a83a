//! A body: a list of parts, each with bytes of its own or the rest of what a lookup found.
ghost use Rattle.std.specs.Prelude.{◌≡◌, ◌==◌, ◌<◌, ◌+◌, min, sum_by, ◌^◌, ◌↔◌, ◌++◌, ◌∷◌, [], length, IsSome, OnOk, OnErr, option_copied, option_to_list, slice_get};
ghost use Rattle.std.specs.List.{list_all};
ghost use Rattle.edge_body.specs.Parts.{is_known, part_length, known_length, most_length};

use cache_types::Octets;
use std::alloc::{AllocError, Global};
use std::collections::LinkedList;
use std::marker::Model;

/// A part of a body.
#[derive(Debug, Drop)]
pub enum Part {
    Own(Octets),
    /// What the object of a hit has from a place on, in bytes. The length is that of the whole object, where the lookup
    /// told it.
    Rest {
        hit: u64,
        place: u64,
        length: Option<u64>,
    },
}

/// A list of parts, which contracts see as this list.
#[derive(Drop)]
pub struct Body {
    parts: LinkedList<Part>,
}

impl Model for Body {
    ghost use Rattle.std.specs.Prelude.{List};
    ghost use Rattle.edge_body.specs.declared.body.Part.{Part};

    ghost Value = { List Part };

    ghost view = { λ body. body.parts };
}

impl Body {
    /// A body without parts.
    pub fn new(alloc: Global) -> Body
        ensures { result ≡ [] }
    {
        Body {
            parts: LinkedList::new(alloc),
        }
    }

    /// How many parts there are.
    pub fn len(&self) -> usize
        ensures { result ≡ length self.now }
    {
        self.parts.len()
    }

    pub fn is_empty(&self) -> bool
        ensures { result ≡ (length self.now == 0) }
    {
        self.parts.is_empty()
    }

    /// One part more at the end.
    pub fn push_back(&mut self, part: Part) -> Result<(), AllocError>
        ensures ok { OnOk result (self.new ≡ self.old ++ part ∷ []) }
        ensures err { OnErr result (self.new ≡ self.old) }
    {
        self.parts.push_back(part)?;
        Ok(())
    }

    /// One part more at the front.
    pub fn push_front(&mut self, part: Part) -> Result<(), AllocError>
        ensures ok { OnOk result (self.new ≡ part ∷ self.old) }
        ensures err { OnErr result (self.new ≡ self.old) }
    {
        self.parts.push_front(part)?;
        Ok(())
    }

    /// The parts of the other body at the end. It takes no memory.
    pub fn join(&mut self, other: Body)
        requires { length self.old + length other < 2 ^ 63 }
        ensures { self.new ≡ self.old ++ other }
    {
        let Body { parts: mut others } = other;
        let _joined = self.parts.append(&mut others);
    }

    /// The first part.
    pub fn first(&self) -> Option<&Part>
        ensures { option_copied result ≡ slice_get self.now 0 }
    {
        self.parts.front()
    }

    /// Takes the first part out.
    pub fn pop_front(&mut self) -> Option<Part>
        ensures parts { self.old ≡ option_to_list result ++ self.new }
        ensures some { IsSome result ↔ (0 < length self.old) }
    {
        self.parts.pop_front()
    }

    /// How many bytes there are, where each part's length is known; 18446744073709551615 where they are more.
    pub fn known_length(&self) -> Option<u64>
        ensures { result ≡ known_length self.now }
    {
        if !all_known(&self.parts) {
            return None;
        }
        Some(sum_of(&self.parts))
    }
}

fn all_known(parts: &LinkedList<Part>) -> bool
    ensures { result ≡ list_all is_known parts.now }
{
    parts.iter().all(|part| is_known(part))
}

fn sum_of(parts: &LinkedList<Part>) -> u64
    ensures { result ≡ min (sum_by part_length parts.now) most_length }
{
    let mut sum: u64 = 0;
    for part in parts.iter() {
        sum = sum.saturating_add(part_length(part));
    }
    sum
}

fn is_known(part: &Part) -> bool
    ensures { result ≡ is_known part.now }
{
    match part {
        Part::Own(_) => true,
        Part::Rest { length: None, .. } => false,
        Part::Rest {
            length: Some(_),
            ..
        } => true,
    }
}

fn part_length(part: &Part) -> u64
    ensures { result ≡ part_length part.now }
{
    match part {
        Part::Own(bytes) => bytes.bytes().len() as u64,
        Part::Rest { length: None, .. } => 0,
        Part::Rest {
            place,
            length: Some(length),
            ..
        } => length.saturating_sub(*place),
    }
}
