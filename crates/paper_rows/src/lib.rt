//! The worked examples of the clock rules, as data that one computed test
//! checks against the definitions. A subject has its rows in a file of specs/,
//! and `Rows.antt` joins them.

#![tactic(auto)]

ghost use Rattle.std.specs.Prelude.{◌≡◌, true};
ghost use Rattle.paper_rows.specs.Rows.{all_rows_hold};

/// Every worked example comes out as its row says.
pub fn rows_hold()
    ensures { all_rows_hold ≡ true }
{}
