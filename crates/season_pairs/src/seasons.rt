use crate::cards::Cards;
use crate::drawing::{Order, draw_order, draw_reading, draw_rough};
use crate::generator::Generator;
use crate::pair::Pair;
use crate::plans::Plan;
use crate::samples::Sample;
use crate::scripts::Script;
use crate::tables::Tables;
use crate::tally::Tally;
use anyhow::{Context, Result};
use clock::Clock;
use edit_model::{Kind, Model};
use std::alloc::Global;
use std::fmt::Display;
use yard::OpenCard;
use yard_rules::Call;

/// Runs a plan, and prints what it ran.
pub fn season<C, M, P>(
    rt: &(impl Print + AllocGlobal),
    plan: &Plan,
    total: &mut Tally,
) -> Result<()>
where
    C: Clock + Display,
    C::Pen: Display,
    M: Kind,
    P: Sample,
{
    let Plan {
        name,
        rounds,
        berths,
        files,
        ..
    } = *plan;
    println!(rt;
        "{}, {}: {name}, {rounds} times {berths} berths, {files} files",
        M::NAME,
        P::NAME
    )?;
    let mut tally = Tally::none();
    for round in 0..rounds {
        tally = Round::<C, M, P>::run(rt.alloc(), plan, round, tally).context(format_args!(
            "{}, {}: {name}, round {round}",
            M::NAME,
            P::NAME
        ))?;
    }
    tally.print(rt)?;
    total.add(&tally);
    Ok(())
}

// One yard beside its model, from its opening to the sealed card.
#[derive(Drop)]
struct Round<C: Clock, M: Kind, P: Sample> {
    plan: Plan,
    pair: Pair<C, M, P>,
    cards: Cards<OpenCard>,
    from: Generator,
    tally: Tally,
}

// A seed for each plan, round, kind and payload.
fn seed<M: Kind, P: Sample>(plan: u64, round: u64) -> u64 {
    plan.wrapping_mul(1_000_000)
        .wrapping_add(round.wrapping_mul(1_000))
        .wrapping_add(M::START)
        .wrapping_add(P::START)
}

impl<C, M, P> Round<C, M, P>
where
    C: Clock + Display,
    C::Pen: Display,
    M: Kind,
    P: Sample,
{
    // Counts on from a tally.
    fn run(heap: Global, plan: &Plan, round: u64, tally: Tally) -> Result<Tally> {
        let mut run = Round::<C, M, P>::open(heap, plan, round, tally)?;
        run.script()?;
        run.drawn()?;
        run.rough()?;
        run.compare_all()?;
        run.sealed()
    }

    fn open(heap: Global, plan: &Plan, round: u64, tally: Tally) -> Result<Round<C, M, P>> {
        let Plan { berths, files, .. } = *plan;
        let copies = berths.saturating_mul(files);
        let (own, tables) = Tables::<C, P>::open(heap, berths, files, copies)??;
        let cards = Cards::beside::<C, P>(heap, own, berths, files)?;
        let edits = plan.scripted.saturating_add(plan.calls);
        let model = Model::<M>::open(heap, berths, files, edits / 64 + 1)?;
        Ok(Round {
            plan: *plan,
            pair: Pair {
                heap,
                tables,
                model,
            },
            cards,
            from: Generator::new(seed::<M, P>(plan.seed, round)),
            tally,
        })
    }

    // The calls of the plan's script.
    fn script(&mut self) -> Result<()> {
        for number in 0..self.plan.scripted {
            let order = Order::plain(self.plan.script.call(number), self.plan.files);
            self.step(&order)
                .context(format_args!("scripted call {number}: {:?}", order.call))?;
        }
        Ok(())
    }

    // The calls that are drawn.
    fn drawn(&mut self) -> Result<()> {
        for number in 0..self.plan.calls {
            let order = draw_order(&mut self.from, &self.plan, &self.pair.model);
            self.step(&order)
                .context(format_args!("drawn call {number}: {:?}", order.call))?;
        }
        Ok(())
    }

    // Of calls with any arguments those that are to be refused with 1 to 6.
    fn rough(&mut self) -> Result<()> {
        for number in 0..self.plan.rough {
            let order = draw_rough::<P>(&mut self.from, &self.plan);
            let due = self
                .pair
                .model
                .refusal(&order.call, order.is_other(), order.room);
            if due.is_some() {
                self.step(&order)
                    .context(format_args!("rough call {number}: {:?}", order.call))?;
            }
        }
        Ok(())
    }

    // One call, and what is compared after it.
    fn step(&mut self, order: &Order<Call<P>>) -> Result<()> {
        let answer = self.pair.call(self.cards.of(order.given), order)?;
        self.tally.count(&answer);
        let every = self.plan.every;
        if every != 0 && self.tally.calls % every == 0 {
            return self.compare_all();
        }
        self.pair.compare_tables()?;
        // the words of a long count are compared at times only
        if let Script::Edits { .. } = self.plan.script {
            return Ok(());
        }
        self.pair.compare_named(&order.call, &mut self.tally)
    }

    fn compare_all(&mut self) -> Result<()> {
        self.pair.compare_all(&self.cards.own, &mut self.tally)
    }

    // Judge and report under the sealed cards, which leave everything as it was.
    fn sealed(self) -> Result<Tally> {
        let Round {
            plan,
            mut pair,
            cards,
            mut from,
            mut tally,
        } = self;
        let cards = cards.seal();
        for number in 0..plan.sealed {
            let order = draw_reading(&mut from, &plan, &pair.model);
            let answer = pair
                .read(cards.of(order.given), &order)
                .context(format_args!("sealed call {number}: {:?}", order.call))?;
            tally.count(&answer);
        }
        pair.compare_all(&cards.own, &mut tally)?;
        Ok(tally)
    }
}
