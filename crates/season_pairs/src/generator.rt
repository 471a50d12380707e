ghost use Rattle.std.specs.Prelude.{◌≤◌};

/// Numbers from a fixed seed, the same on every run.
#[derive(Drop)]
pub struct Generator {
    state: u64,
}

impl Generator {
    /// A generator that begins at this seed.
    pub fn new(seed: u64) -> Generator {
        Generator { state: seed }
    }

    /// The next number: the state goes on by a fixed step, and is mixed.
    pub fn next(&mut self) -> u64 {
        self.state = self.state.wrapping_add(0x9E37_79B9_7F4A_7C15);
        let mixed = self.state;
        let mixed = (mixed ^ (mixed >> 30)).wrapping_mul(0xBF58_476D_1CE4_E5B9);
        let mixed = (mixed ^ (mixed >> 27)).wrapping_mul(0x94D0_49BB_1331_11EB);
        mixed ^ (mixed >> 31)
    }

    /// A number below the bound; 0 where the bound is 0.
    pub fn below(&mut self, bound: usize) -> usize
        ensures { result ≤ bound }
    {
        if bound == 0 {
            return 0;
        }
        (self.next() % bound as u64) as usize
    }

    /// Yes in so many of a hundred cases.
    pub fn chance(&mut self, percent: usize) -> bool {
        self.below(100) < percent
    }
}
