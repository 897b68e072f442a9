//! The inferences of the kernel by name.

/// An inference of the kernel.
#[derive(Clone, Copy)]
pub enum Rule {
    Axiom,
    Assume,
    ImpliesIntr,
    ImpliesElim,
    ForallIntr,
    ForallElim,
    Reflexive,
    Symmetric,
    Transitive,
    Combination,
    AbstractRule,
    Beta,
    Eta,
    EqualIntr,
    EqualElim,
    Instantiate,
    Generalize,
    Rename,
    Discharge,
    Undischarge,
    NormalForm,
    /// With the number of the cite.
    Cite(u64),
}

impl Rule {
    /// The inference of that name.
    pub fn of_word(word: &str) -> Option<Rule> {
        match word {
            "axiom" => Some(Rule::Axiom),
            "assume" => Some(Rule::Assume),
            "implies_intr" => Some(Rule::ImpliesIntr),
            "implies_elim" => Some(Rule::ImpliesElim),
            "forall_intr" => Some(Rule::ForallIntr),
            "forall_elim" => Some(Rule::ForallElim),
            "instantiate" => Some(Rule::Instantiate),
            "generalize" => Some(Rule::Generalize),
            "rename" => Some(Rule::Rename),
            "discharge" => Some(Rule::Discharge),
            "undischarge" => Some(Rule::Undischarge),
            _ => match word.strip_prefix("cite:") {
                Some(number) => Rule::of_cite(number),
                None => Rule::of_equations(word),
            },
        }
    }

    /// The cite by that number.
    fn of_cite(number: &str) -> Option<Rule> {
        match number.parse::<u64>() {
            Ok(number) => Some(Rule::Cite(number)),
            Err(_) => None,
        }
    }

    /// The inference of that name, of those that make or use equations.
    fn of_equations(word: &str) -> Option<Rule> {
        match word {
            "reflexive" => Some(Rule::Reflexive),
            "symmetric" => Some(Rule::Symmetric),
            "transitive" => Some(Rule::Transitive),
            "combination" => Some(Rule::Combination),
            "abstract_rule" => Some(Rule::AbstractRule),
            "beta" => Some(Rule::Beta),
            "eta" => Some(Rule::Eta),
            "equal_intr" => Some(Rule::EqualIntr),
            "equal_elim" => Some(Rule::EqualElim),
            "normal_form" => Some(Rule::NormalForm),
            _ => None,
        }
    }
}
