ghost use Rattle.std.specs.Prelude.{◌≡◌};
ghost use Rattle.season_log.specs.Words.{number_word};

use crate::mistakes::Mistake;
use payload::decimal;

/// The berth, the file or the number of berths that a word stands for.
pub(crate) fn number(word: &str) -> Result<usize, Mistake<'_>>
    ensures { result ≡ number_word word.entry }
{
    match decimal(word) {
        Ok(number) => Ok(number as usize),
        Err(error) => Err(Mistake::NotNumber(word, error)),
    }
}
