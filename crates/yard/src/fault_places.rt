ghost use Rattle.std.specs.Prelude.{◌≡◌, Some, None};
ghost use Rattle.yard.specs.Passing.{at_place};

use clock::Fault;

/// Adds the berth, or the berth and the file, to a clock kind's refusal on its way up.
pub trait Place {
    fn at(self, berth: usize, file: usize) -> Self;

    fn at_berth(self, berth: usize) -> Self;
}

impl<T> Place for Result<T, Fault> {
    fn at(self, berth: usize, file: usize) -> Result<T, Fault>
        ensures { result ≡ at_place (Some berth) (Some file) self }
    {
        self.map_err(|fault| Fault::from(fault.cause).at_berth(berth).at_file(file))
    }

    fn at_berth(self, berth: usize) -> Result<T, Fault>
        ensures { result ≡ at_place (Some berth) None self }
    {
        self.map_err(|fault| Fault::from(fault.cause).at_berth(berth))
    }
}
