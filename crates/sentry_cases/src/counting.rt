//! A generator whose words count upwards.

ghost use Rattle.std.specs.Prelude.{ℕ, ◌+◌, ◌%◌, ◌^◌};
ghost use Rattle.rand_core.specs.Steps.{stream_of, steps_u32};

use rand_core::utils::NextWord;
use rand_core::{Rng, utils};
use std::marker::Model;

/// A generator of the words after this one: of 0, the words 1, 2 and so on.
#[derive(Drop)]
pub struct Counting(pub u32);

impl Model for Counting {
    ghost Value = { ℕ };

    ghost view = { λ counting. counting.0 };
}

impl NextWord<u32> for Counting {
    ghost step = { λ word. ((word + 1) % 2 ^ 32, (word + 1) % 2 ^ 32) };

    fn next_word(&mut self) -> u32 {
        self.0 = self.0.wrapping_add(1);
        self.0
    }
}

impl Rng for Counting {
    ghost stream = { stream_of (steps_u32 (λ word. ((word + 1) % 2 ^ 32, (word + 1) % 2 ^ 32))) };

    fn next_u32(&mut self) -> u32 {
        self.next_word()
    }

    fn next_u64(&mut self) -> u64 {
        utils::next_u64_via_u32(self)
    }

    fn fill_bytes(&mut self, dst: &mut [u8]) {
        utils::fill_bytes_via_u32(self, dst)
    }
}
