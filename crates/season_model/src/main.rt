//! Seasons of random calls on a yard, beside a model that keeps the edits behind
//! every copy, and the pens and clocks in another form. Every answer, buffer,
//! state, payload and verdict is compared with what the model says, and so is
//! every refusal; a difference ends the run with an error that says where it is.

#![tactic(auto)]

use anyhow::{Result, ensure};
use clock::Clock;
use edit_model::{Kind, Names, Trees};
use payload::{Ticket, Valve};
use season_pairs::{
    LIMITS, Label, NAME_COUNT, ORDINARIES, Sample, TREE_COUNT, Tally, season, try_openings,
};
use std::fmt::Display;
use tree_clock::TreeClock;
use vector_clock::VectorClock;

fn main(rt: HostRuntime) -> Result<()> {
    run(&rt)
}

fn run(rt: &(impl Print + AllocGlobal)) -> Result<()> {
    let mut total = Tally::none();
    try_all::<TreeClock, Trees, Ticket>(rt)?;
    try_all::<VectorClock, Names, Valve>(rt)?;
    ordinaries::<TreeClock, Trees>(rt, &mut total)?;
    ordinaries::<VectorClock, Names>(rt, &mut total)?;
    limits(rt, &mut total)?;
    sum_up(rt, &total)
}

// The openings, and what was tried.
fn try_all<C: Clock, M: Kind, P: Sample>(rt: &(impl Print + AllocGlobal)) -> Result<()> {
    let (opened, refused) = try_openings::<C, P>(rt.alloc())?;
    println!(rt;
        "{}, {}: {opened} yards opened, {refused} refused",
        M::NAME,
        P::NAME
    )?;
    Ok(())
}

// The ordinary seasons of a kind, with each payload.
fn ordinaries<C, M>(rt: &(impl Print + AllocGlobal), total: &mut Tally) -> Result<()>
where
    C: Clock + Display,
    C::Pen: Display,
    M: Kind,
{
    ordinary::<C, M, Valve>(rt, total)?;
    ordinary::<C, M, Ticket>(rt, total)?;
    ordinary::<C, M, Label>(rt, total)
}

// The ordinary seasons of a kind and a payload.
fn ordinary<C, M, P>(rt: &(impl Print + AllocGlobal), total: &mut Tally) -> Result<()>
where
    C: Clock + Display,
    C::Pen: Display,
    M: Kind,
    P: Sample,
{
    for plan in &ORDINARIES {
        season::<C, M, P>(rt, plan, total)?;
    }
    Ok(())
}

// The seasons that drive pens and clocks to their limits.
fn limits(rt: &(impl Print + AllocGlobal), total: &mut Tally) -> Result<()> {
    for plan in &LIMITS {
        season::<TreeClock, Trees, Label>(rt, plan, total)?;
        season::<VectorClock, Names, Ticket>(rt, plan, total)?;
    }
    season::<TreeClock, Trees, Valve>(rt, &TREE_COUNT, total)?;
    season::<VectorClock, Names, Label>(rt, &NAME_COUNT, total)
}

fn sum_up(rt: &impl Print, total: &Tally) -> Result<()> {
    println!(rt; "in all")?;
    total.print(rt)?;
    check_causes(total)?;
    println!(rt; "0 differences")?;
    Ok(())
}

// Every refusal of a yard came, and no call was refused with 12 or 14.
fn check_causes(total: &Tally) -> Result<()> {
    for cause in [1, 2, 3, 4, 5, 6, 7, 8, 11, 13, 15, 16] {
        ensure!(total.refused[cause] > 0, "no call was refused with {cause}");
    }
    for cause in [12, 14] {
        ensure!(total.refused[cause] == 0, "a call was refused with {cause}");
    }
    Ok(())
}
