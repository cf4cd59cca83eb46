// The number by which an ending is told.
ghost use Rattle.std.specs.Prelude.{◌≡◌};
ghost use Rattle.newton.specs.Run.{ending_number};

use crate::Ending;

pub fn ending_number(ending: Ending) -> u8
    ensures { result ≡ ending_number ending }
{
    match ending {
        Ending::Unchanged => 0,
        Ending::Further => 1,
        Ending::SmallStep => 2,
        Ending::SecondSingular => 3,
        Ending::AllRounds => 4,
    }
}
