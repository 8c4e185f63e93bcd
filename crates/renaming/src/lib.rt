// When another translator's listing of a party is ours: up to a one-to-one renaming of its placeholders. That is meaning, in specs/. Here
// stands only the verdict that a judge gives.
#![tactic(auto)]

// What a judge says of a listing, where it is judged: it is ours up to a renaming, or the place at which no renaming can agree.
#[derive(Drop)]
pub enum Verdict {
    Same,
    Differs(usize),
}
