//! The numbers of the generator, and the cells that they stand for.
ghost use Rattle.std.specs.Prelude.{◌≡◌, ◌+◌, ◌*◌, ◌%◌, ◌<◌};
ghost use Rattle.sample_world.specs.Sample.{next_number, place_of};

use crate::sizes::{GENERATOR_PRIME, SAMPLE_ROWS};
use dt_model::Coords;

/// The number that the generator gives after another.
pub fn next_number(number: u32) -> u32
    requires small { number < GENERATOR_PRIME }
    ensures value { result ≡ next_number number }
    ensures small { result < GENERATOR_PRIME }
{
    (75 * number + 74) % GENERATOR_PRIME
}

/// The coordinates of the cell that a number stands for.
pub fn place_of(number: u32) -> Coords
    ensures value { result ≡ place_of number }
{
    let mut place = Coords::new();
    place.push(number % SAMPLE_ROWS);
    place.push(number / SAMPLE_ROWS);
    place
}
