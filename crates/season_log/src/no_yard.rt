ghost use Rattle.std.specs.Prelude.{◌≡◌};
ghost use Rattle.season_log.specs.declared.mistakes.Mistake.TheVariants.{UnknownCall, NoYard};
ghost use Rattle.season_log.specs.Rows.{IsCall, IsNoCall};

use crate::forms::form_of;
use crate::mistakes::Mistake;

/// What is wrong with a line that speaks to a yard where there is none: that no
/// call has its name is told first.
pub fn without_yard(name: &str) -> Mistake<'_>
    ensures unknown { IsNoCall name.now → result ≡ UnknownCall name.entry }
    ensures no_yard { IsCall name.now → result ≡ NoYard name.entry }
{
    match form_of(name) {
        None => Mistake::UnknownCall(name),
        Some(_) => Mistake::NoYard(name),
    }
}
