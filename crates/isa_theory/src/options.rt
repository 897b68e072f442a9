//! The options.
ghost use Rattle.std.specs.Prelude.{◌≡◌};
ghost use Rattle.isa_theory.specs.Options.{default_options, with_setting};
ghost use Rattle.isa_theory.specs.Results.{Answers};

use isa_outer::{Kind, Setting};

/// The greatest depth of conditions in conditions.
const GREATEST_SIMP_DEPTH: u64 = 200;
/// The greatest depth of the tableau.
const GREATEST_BLAST_DEPTH: u64 = 100;
/// The greatest number of steps of a method.
const GREATEST_BUDGET: u64 = 2_000_000;

/// What the options are set to.
#[derive(Clone, Copy)]
pub struct Options {
    /// How deep the simplifier tries conditions in conditions.
    pub simp_depth_limit: u32,
    /// How many unsafe rules `blast` takes on a branch.
    pub blast_depth_limit: u32,
    /// How many steps a method may take before a result.
    pub step_budget: u64,
    /// Whether types are printed.
    pub show_types: bool,
}

impl Options {
    /// What the options are where nothing is set.
    pub fn new() -> Options
        ensures { result ≡ default_options }
    {
        Options {
            simp_depth_limit: 40,
            blast_depth_limit: 20,
            step_budget: 200_000,
            show_types: false,
        }
    }

    /// The options with one that is set anew; a number outside its range is refused.
    #[tactic(auto, unfolding(crate::specs::Options::with_setting))]
    pub fn with(self, setting: Setting) -> Result<Options, Kind>
        ensures { Answers result (with_setting self setting) }
    {
        let mut options = self;
        match setting {
            Setting::SimpDepthLimit(limit) => {
                if limit > GREATEST_SIMP_DEPTH {
                    return Err(Kind::Number);
                }
                options.simp_depth_limit = limit as u32;
            }
            Setting::BlastDepthLimit(limit) => {
                if limit > GREATEST_BLAST_DEPTH {
                    return Err(Kind::Number);
                }
                options.blast_depth_limit = limit as u32;
            }
            Setting::StepBudget(budget) => {
                if budget < 1 || budget > GREATEST_BUDGET {
                    return Err(Kind::Number);
                }
                options.step_budget = budget;
            }
            Setting::ShowTypes(shown) => options.show_types = shown,
        }
        Ok(options)
    }
}
