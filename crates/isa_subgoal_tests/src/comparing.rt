use isa_terms::{Term, TermNode, same_term};

/// Whether the terms are equal, the names of their binders included.
pub fn is_same(t: &Term, u: &Term) -> bool {
    same_term(t, u) && have_same_binders(t, u)
}

/// Whether the names of the binders are equal, of terms that are equal up to them.
fn have_same_binders(t: &Term, u: &Term) -> bool {
    match (t.view(), u.view()) {
        (TermNode::Abs(name, _, body), TermNode::Abs(other, _, second)) => {
            name.same(other) && have_same_binders(body, second)
        }
        (TermNode::App(fun, arg), TermNode::App(second, argument)) => {
            have_same_binders(fun, second) && have_same_binders(arg, argument)
        }
        _ => true,
    }
}

/// Whether the terms are just these.
pub fn are(terms: &[Term], wanted: &[Term]) -> bool {
    match (terms.split_first(), wanted.split_first()) {
        (None, None) => true,
        (Some((t, ts)), Some((u, us))) => is_same(t, u) && are(ts, us),
        _ => false,
    }
}
