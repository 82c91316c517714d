// A source of one line that has no end.
ghost use Rattle.std.specs.Prelude.{[]};

use rx_outside::{Failed, Source};

#[derive(Drop)]
pub struct Endless;

impl Source for Endless {
    ghost tells = { ⊥ };

    ghost left = { λ _. [] };

    ghost faults = { λ _. 0 };

    fn read(&mut self, into: &mut [u8]) -> Result<usize, Failed> {
        into.fill(b'x');
        Ok(into.len())
    }
}
