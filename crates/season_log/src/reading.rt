ghost use Rattle.std.specs.Prelude.{◌≡◌, ◌≤◌, None, Some, true, false, take, length, IfOk, IfErr};
ghost use Rattle.season_log.specs.Calls.{Spells, Unread, Complete};
ghost use Rattle.season_log.specs.Rows.{row};
ghost use Rattle.season_log.specs.Forms.{HasName, Makes};
ghost use Rattle.season_log.specs.Words.{Numbers, number_mistake, PayloadMistake};

use crate::forms::form_of;
use crate::mistakes::{Mistake, PayloadError};
use crate::numbers::number;
use std::str::FromStr;
use yard_rules::{Call, Reading, Writing};

/// The call of this name that the words after it ask for.
pub fn read_call<'a, P: FromStr>(
    name: &'a str,
    arguments: &[&'a str],
) -> Result<Call<P>, Mistake<'a>>
where
    PayloadError: From<P::Err>,
    ensures read { IfOk result (Spells P.from_str_gives name.now arguments.now) }
    ensures complete { Complete P.from_str_gives name.now arguments.now result }
    ensures refused { let c = ⟦<PayloadError as From<P::Err>>⟧.from_gives in
        IfErr result (Unread P.from_str_gives c name.entry arguments.now) }
{
    spelled_call(name, arguments)
}

// The same, to whose two clauses `read_call` adds that no call is missed.
fn spelled_call<'a, P: FromStr>(
    name: &'a str,
    arguments: &[&'a str],
) -> Result<Call<P>, Mistake<'a>>
where
    PayloadError: From<P::Err>,
    ensures read { IfOk result (Spells P.from_str_gives name.now arguments.now) }
    ensures refused { let c = ⟦<PayloadError as From<P::Err>>⟧.from_gives in
        IfErr result (Unread P.from_str_gives c name.entry arguments.now) }
{
    let Some(form) = form_of(name) else {
        return Err(Mistake::UnknownCall(name));
    };
    if arguments.len() != form.word_count() {
        return Err(Mistake::WordCount(form.written));
    }
    let (numbers, payload) = arguments.split_at(form.numbers);
    let numbers = read_numbers(numbers)?;
    let call = match payload {
        [word] => payload_call(name, numbers, read_payload(word)?),
        _ => plain_call(name, numbers),
    };
    Ok(call)
}

// The numbers that these words stand for, and zeros after them.
fn read_numbers<'a>(words: &[&'a str]) -> Result<[usize; 3], Mistake<'a>>
    requires { length words.now ≤ 3 }
    ensures read { IfOk result (λ ns. Numbers words.now (take (length words.now) ns)) }
    ensures refused { IfErr result (λ m. number_mistake words.now ≡ Some m) }
{
    match words {
        [] => Ok([0, 0, 0]),
        [a] => Ok([number(a)?, 0, 0]),
        [a, b] => Ok([number(a)?, number(b)?, 0]),
        [a, b, c] => Ok([number(a)?, number(b)?, number(c)?]),
        _ => unreachable!(),
    }
}

/// The payload that a word stands for.
pub fn read_payload<P: FromStr>(word: &str) -> Result<P, Mistake<'_>>
where
    PayloadError: From<P::Err>,
    ensures read { IfOk result (λ p. P.from_str_gives word.now (Ok p)) }
    ensures refused { let c = ⟦<PayloadError as From<P::Err>>⟧.from_gives in
        IfErr result (PayloadMistake P.from_str_gives c word.entry) }
{
    match word.parse::<P>() {
        Ok(payload) => Ok(payload),
        Err(error) => Err(Mistake::NotPayload(word, PayloadError::from(error))),
    }
}

// The call of this name, which takes no payload, with the first of these numbers.
fn plain_call<P>(name: &str, numbers: [usize; 3]) -> Call<P>
    requires { HasName name.now false }
    ensures { Makes (row result) name.now numbers None }
{
    let [a, b, f] = numbers;
    match name {
        "judge" => Call::Reads(Reading::Judge { a, b, f }),
        "report" => Call::Reads(Reading::Report { a, b }),
        "show" => Call::Reads(Reading::Show { a, f: b }),
        "fork" => Call::Writes(Writing::Fork { a, b }),
        "pull" => Call::Writes(Writing::Pull { a, b }),
        "retire" => Call::Writes(Writing::Retire { a, b }),
        "drop" => Call::Writes(Writing::Drop { a }),
        "seal" => Call::Seal,
        _ => unreachable!(),
    }
}

// The call of this name, which takes this payload, with the first of these numbers.
fn payload_call<P>(name: &str, numbers: [usize; 3], payload: P) -> Call<P>
    requires { HasName name.now true }
    ensures { Makes (row result) name.now numbers (Some payload) }
{
    let [a, b, f] = numbers;
    match name {
        "edit" => Call::Writes(Writing::Edit { a, f: b, payload }),
        "settle" => Call::Writes(Writing::Settle { a, b, f, payload }),
        _ => unreachable!(),
    }
}
