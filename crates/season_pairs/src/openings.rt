use crate::samples::Sample;
use crate::tables::Tables;
use anyhow::{Context, Result, ensure};
use clock::Clock;
use edit_model::Answer;
use std::alloc::Global;
use yard::Card;

/// Opens yards of all sizes about the limits, with copy tables that fit and that
/// do not. Answers how many were opened, and how many refused.
pub fn try_openings<C: Clock, P: Sample>(heap: Global) -> Result<(usize, usize)> {
    let mut opened = 0usize;
    let mut refused = 0usize;
    for berths in 0usize..19 {
        for files in [0usize, 1, 2, 3, 16, 31, 32, 33, 40] {
            for more in 0usize..3 {
                let copies = (berths * files + more).saturating_sub(1);
                let fits = (1..17).contains(&berths) && (1..33).contains(&files) && more == 1;
                try_opening::<C, P>(heap, (berths, files, copies), fits).context(format_args!(
                    "open {berths} {files} {copies}"
                ))?;
                if fits {
                    opened = opened.saturating_add(1);
                } else {
                    refused = refused.saturating_add(1);
                }
            }
        }
    }
    Ok((opened, refused))
}

// Opens a yard over tables of these lengths, and compares what it is to be.
fn try_opening<C: Clock, P: Sample>(
    heap: Global,
    sizes: (usize, usize, usize),
    fits: bool,
) -> Result<()> {
    let (berths, files, copies) = sizes;
    let (card, tables) = match Tables::<C, P>::open(heap, berths, files, copies)? {
        Ok(opened) => opened,
        Err(fault) => {
            let came = Answer::from(fault);
            ensure!(
                !fits && came == Answer::refused(1, None, None),
                "came {came:?}"
            );
            return Ok(());
        }
    };
    ensure!(fits, "expected refused 1");
    ensure!(
        card.berths() == berths && card.files() == files,
        "the card's sizes"
    );
    for b in 0..berths {
        ensure!(tables.works(b) == (b == 0), "berth {b}");
        for f in 0..files {
            let place = b.saturating_mul(files).saturating_add(f);
            ensure!(tables.holds(place, f as u64), "berth {b} file {f}");
        }
    }
    Ok(())
}
