// Numbers that the lines of a text may give, each once.
ghost use Rattle.std.specs.Prelude.{◌≡◌, ◌<◌, ◌≤ℤ◌, pos, length, map, IfOk};
ghost use Rattle.pf_model.specs.Cut.{has};
ghost use Rattle.pf_graph.specs.Text.{ones, put_slot};

use pf_frame::NoMemory;
use std::alloc::Global;
use std::marker::Model;

/// A number for each place, which is 1 until one is put there, and which places one was put to.
#[derive(Drop)]
pub struct Slots {
    numbers: Vec<u32>,
    given: Vec<bool>,
}

impl Model for Slots {
    ghost use Rattle.std.specs.Prelude.{◌≡◌, length, map, pos};
    ghost use Rattle.pf_graph.specs.Text.{SlotNumbers};

    ghost Value = { SlotNumbers };

    ghost view = { λ s. record { numbers = map pos s.numbers.items; given = s.given.items } };

    ghost invariant = { λ s. length s.given.items ≡ length s.numbers.items };
}

impl Slots {
    /// So many places.
    pub fn new(alloc: Global, count: u32) -> Result<Slots, NoMemory>
        ensures { IfOk result (λ slots. slots ≡ ones count) }
    {
        let numbers = vec![in alloc; 1u32; count as usize]?;
        let given = vec![in alloc; false; count as usize]?;
        Ok(Slots { numbers, given })
    }

    /// Whether a number was put to this place.
    pub fn is_given(&self, place: u32) -> bool
        requires { place < length self.now.numbers }
        ensures { result ≡ has self.now.given place }
    {
        self.given[place as usize]
    }

    /// Puts the number to this place.
    pub fn put(&mut self, place: u32, number: u32)
        requires { place < length self.old.numbers }
        ensures { self.new ≡ put_slot self.old place (pos number) }
    {
        self.numbers[place as usize] = number;
        self.given[place as usize] = true;
    }

    /// The numbers.
    pub fn into_numbers(self) -> Vec<u32>
        ensures { map pos result.items ≡ self.numbers }
    {
        let Slots { numbers, .. } = self;
        numbers
    }
}
