use crate::generator::Generator;
use crate::plans::{EVENLY, Plan, Weights};
use crate::samples::Sample;
use edit_model::{Kind, Model, Needs};
use yard_rules::{Call, Reading, Writing};

/// The card that a call is given: the yard's, or one of other sizes.
#[derive(Clone, Copy)]
pub enum Given {
    Own,
    OtherBerths,
    OtherFiles,
}

/// A call, and what it is given beside its arguments.
#[derive(Clone, Copy)]
pub struct Order<T> {
    pub call: T,
    /// The card that it is made under.
    pub given: Given,
    /// The length of the buffer.
    pub room: usize,
    /// What its bytes are beforehand.
    pub byte: u8,
}

impl<T> Order<T> {
    /// A call under the yard's card, with a buffer that is just long enough.
    pub fn plain(call: T, files: usize) -> Order<T> {
        Order {
            call,
            given: Given::Own,
            room: files,
            byte: 9,
        }
    }

    /// Whether the card has other sizes than the tables.
    pub fn is_other(&self) -> bool {
        !matches!(self.given, Given::Own)
    }
}

/// Draws a call, and what it is given.
pub fn draw_order<M: Kind, P: Sample>(
    from: &mut Generator,
    plan: &Plan,
    model: &Model<M>,
) -> Order<Call<P>> {
    let wrong = from.chance(plan.wrong);
    let call = draw_call(from, plan, model, wrong);
    give(from, plan, call, wrong)
}

// What a call is given; where it is to be wrong, at times something else.
fn give<T>(from: &mut Generator, plan: &Plan, call: T, wrong: bool) -> Order<T> {
    Order {
        call,
        given: draw_card(from, wrong),
        room: draw_room(from, plan.files, wrong),
        byte: 4 + from.below(250) as u8,
    }
}

/// Draws a call each argument of which may be wrong.
pub fn draw_rough<P: Sample>(from: &mut Generator, plan: &Plan) -> Order<Call<P>> {
    let a = from.below(plan.berths.saturating_add(2));
    let b = from.below(plan.berths.saturating_add(2));
    let f = from.below(plan.files.saturating_add(2));
    let payload = draw_payload(from);
    let draw = from.below(8);
    Order {
        call: EVENLY.call(draw, a, b, f, payload),
        given: draw_card(from, true),
        room: from.below(plan.files.saturating_add(2)),
        byte: 4 + from.below(250) as u8,
    }
}

/// Draws a call of judge or report.
pub fn draw_reading<M: Kind>(
    from: &mut Generator,
    plan: &Plan,
    model: &Model<M>,
) -> Order<Reading> {
    let wrong = from.chance(plan.wrong);
    let a = draw_berth(from, model, true, wrong);
    let b = draw_berth(from, model, true, wrong);
    let call = if from.chance(50) {
        Reading::Report { a, b }
    } else {
        let f = draw_file(from, plan.files, wrong);
        Reading::Judge { a, b, f }
    };
    give(from, plan, call, wrong)
}

// The yard's card; where the call is to be wrong, at times one of other sizes.
fn draw_card(from: &mut Generator, wrong: bool) -> Given {
    match from.below(14) {
        0 if wrong => Given::OtherBerths,
        1 if wrong => Given::OtherFiles,
        _ => Given::Own,
    }
}

impl Weights {
    // The call that a draw of this number gives, with these arguments.
    fn call<P: Copy>(&self, draw: usize, a: usize, b: usize, f: usize, payload: P) -> Call<P> {
        let mut left = draw;
        if comes(&mut left, self.fork) {
            Call::Writes(Writing::Fork { a, b })
        } else if comes(&mut left, self.edit) {
            Call::Writes(Writing::Edit { a, f, payload })
        } else if comes(&mut left, self.judge) {
            Call::Reads(Reading::Judge { a, b, f })
        } else if comes(&mut left, self.report) {
            Call::Reads(Reading::Report { a, b })
        } else if comes(&mut left, self.pull) {
            Call::Writes(Writing::Pull { a, b })
        } else if comes(&mut left, self.settle) {
            Call::Writes(Writing::Settle { a, b, f, payload })
        } else if comes(&mut left, self.retire) {
            Call::Writes(Writing::Retire { a, b })
        } else {
            Call::Writes(Writing::Drop { a })
        }
    }
}

// Whether a draw falls into this weight; where not, the weight is taken off.
fn comes(left: &mut usize, weight: usize) -> bool {
    if *left < weight {
        return true;
    }
    *left -= weight;
    false
}

fn draw_call<M: Kind, P: Sample>(
    from: &mut Generator,
    plan: &Plan,
    model: &Model<M>,
    wrong: bool,
) -> Call<P> {
    let weights = plan.weights;
    let draw = from.below(100);
    let a = draw_berth(from, model, true, wrong);
    let empty = Needs::of(&weights.call(draw, a, a, 0, ())).is_some_and(|needs| needs.b_empty);
    let b = draw_second(from, model, a, empty, wrong);
    let f = draw_file(from, plan.files, wrong);
    let payload = draw_payload::<P>(from);
    match weights.call(draw, a, b, f, payload) {
        // where there is no second replica, an edit; and the last replica stays, so
        // that there is something to call
        Call::Writes(writing) if (a == b && !wrong) || ends(&writing, model) => {
            Call::Writes(Writing::Edit { a, f, payload })
        }
        call => call,
    }
}

// Whether no replica would be left.
fn ends<M: Kind, P: Sample>(call: &Writing<P>, model: &Model<M>) -> bool {
    matches!(call, Writing::Drop { .. }) && model.in_use() <= 1
}

// A berth that is in use or not, as is wanted; where the call is to be wrong, at
// times any number.
fn draw_berth<M: Kind>(from: &mut Generator, model: &Model<M>, works: bool, wrong: bool) -> usize {
    if wrong && from.chance(40) {
        return from.below(model.berths.saturating_add(3));
    }
    let start = from.below(model.berths);
    let later = (start..model.berths).find(|b| model.works(*b) == works);
    let found = later.or_else(|| (0..start).find(|b| model.works(*b) == works));
    found.unwrap_or(start)
}

// A second berth, which is another one as a rule.
fn draw_second<M: Kind>(
    from: &mut Generator,
    model: &Model<M>,
    a: usize,
    empty: bool,
    wrong: bool,
) -> usize {
    let mut b = draw_berth(from, model, !empty, wrong);
    for _ in 0..4 {
        if b != a || wrong {
            return b;
        }
        b = draw_berth(from, model, !empty, wrong);
    }
    b
}

fn draw_file(from: &mut Generator, files: usize, wrong: bool) -> usize {
    if wrong && from.chance(30) {
        return files.saturating_add(from.below(3));
    }
    from.below(files)
}

// Few numbers, so that some copies in conflict are twins; or one of many.
fn draw_payload<P: Sample>(from: &mut Generator) -> P {
    let bound = if from.chance(50) { 3 } else { 9000 };
    P::sample(from.below(bound) as u64)
}

// As long as the files, or longer; where the call is to be wrong, at times shorter.
fn draw_room(from: &mut Generator, files: usize, wrong: bool) -> usize {
    if wrong && from.chance(40) {
        return from.below(files);
    }
    files.saturating_add(from.below(4))
}
