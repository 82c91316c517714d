// Numbers that look random, the same in each run.
ghost use Rattle.std.specs.Prelude.{◌<◌};

#[derive(Drop)]
pub struct Random {
    state: u64,
}

impl Random {
    pub fn new(state: u64) -> Random {
        Random { state }
    }

    /// A number below that one.
    pub fn below(&mut self, limit: u64) -> u64
        requires { 0 < limit }
    {
        self.state = self
            .state
            .wrapping_mul(6_364_136_223_846_793_005)
            .wrapping_add(1_442_695_040_888_963_407);
        (self.state >> 33) % limit
    }

    /// One of these, or the empty text where there are none.
    pub fn one_of<'a>(&mut self, texts: &[&'a str]) -> &'a str {
        let last = (texts.len() as u64).max(1);
        match texts.get(self.below(last) as usize) {
            Some(text) => text,
            None => "",
        }
    }
}
