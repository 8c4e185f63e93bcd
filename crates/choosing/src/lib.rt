// The rules by their names: by what number each is named in a derivation, of what kinds its conclusion and premises are, and whether a line
// follows by it (`follows`). `Kind::is_there` says whether what a line of a kind names is there, and `is_there` the same of the kind's number.
#![tactic(auto)]

ghost use Rattle.std.specs.Prelude.{◌≡◌, [], ◌∷◌, map};
ghost use Rattle.std.proofs.Math.Option.{some};
ghost use Rattle.typing.specs.Reading.{effects};
ghost use Rattle.typing.specs.Derivation.{rule_of};
ghost use Rattle.choosing.specs.Named.{number_of, kind_says, Names};
ghost use Rattle.choosing.specs.Kinds.{kind_at, premises_of};
ghost use Rattle.choosing.specs.Choose.{reads, is_there, number_there, Ready, follows_by};

use ruling::{
    Line, by_cipher, by_cipher_Un, by_effect_check, by_effect_end, by_effect_none, by_empty,
    by_entry, by_name, by_pair, by_pair_Un, by_type_Un, by_type_channel, by_type_nonce,
    by_type_pair, by_type_symkey,
};
use running::{
    by_begin, by_cast, by_check, by_decrypt, by_decrypt_Un, by_end, by_inp, by_inp_Un, by_match,
    by_match_Un, by_new, by_out, by_out_Un, by_parallel, by_split, by_split_Un, by_stop,
};
use spans::{Effect, Thing, effects_end, environment_end, process_end, term_end, type_end};

// What a line gives: the kinds of judgements.
#[derive(Clone, Copy, PartialEq, Eq)]
pub enum Kind {
    Environment,
    Type,
    Effect,
    Term,
    Process,
}

// The rules, in the order of their numbers.
#[derive(Clone, Copy)]
pub enum Rule {
    Empty,
    Entry,
    EffectNone,
    EffectEnd,
    EffectCheck,
    TypeUn,
    TypePair,
    TypeChannel,
    TypeSymkey,
    TypeNonce,
    Name,
    Pair,
    Cipher,
    CipherUn,
    PairUn,
    Stop,
    Begin,
    End,
    Parallel,
    New,
    Out,
    Inp,
    Split,
    Match,
    Cast,
    Check,
    Decrypt,
    OutUn,
    InpUn,
    SplitUn,
    MatchUn,
    DecryptUn,
}

// A number that names no rule.
#[derive(Clone, Copy)]
pub struct UnknownRule;

impl TryFrom<u32> for Rule {
    type Error = UnknownRule;

    ghost try_from_gives = { Names };

    // The rule of a number: they count from 1.
    fn try_from(number: u32) -> Result<Rule, UnknownRule> {
        match number {
            1 => Ok(Rule::Empty),
            2 => Ok(Rule::Entry),
            3 => Ok(Rule::EffectNone),
            4 => Ok(Rule::EffectEnd),
            5 => Ok(Rule::EffectCheck),
            6 => Ok(Rule::TypeUn),
            7 => Ok(Rule::TypePair),
            8 => Ok(Rule::TypeChannel),
            9 => Ok(Rule::TypeSymkey),
            10 => Ok(Rule::TypeNonce),
            11 => Ok(Rule::Name),
            12 => Ok(Rule::Pair),
            13 => Ok(Rule::Cipher),
            14 => Ok(Rule::CipherUn),
            15 => Ok(Rule::PairUn),
            16 => Ok(Rule::Stop),
            17 => Ok(Rule::Begin),
            18 => Ok(Rule::End),
            19 => Ok(Rule::Parallel),
            20 => Ok(Rule::New),
            21 => Ok(Rule::Out),
            22 => Ok(Rule::Inp),
            23 => Ok(Rule::Split),
            24 => Ok(Rule::Match),
            25 => Ok(Rule::Cast),
            26 => Ok(Rule::Check),
            27 => Ok(Rule::Decrypt),
            28 => Ok(Rule::OutUn),
            29 => Ok(Rule::InpUn),
            30 => Ok(Rule::SplitUn),
            31 => Ok(Rule::MatchUn),
            32 => Ok(Rule::DecryptUn),
            _ => Err(UnknownRule),
        }
    }
}

#[tactic(auto, unfolding(typing::specs::Check::printed, typing::specs::Derivation::rules, typing::specs::Derivation::nth, typing::specs::Derivation::rule_of, crate::specs::Kinds::kind_of, crate::specs::Kinds::kinds_of, crate::specs::Kinds::premise_kinds, crate::specs::Kinds::all_kinds, crate::specs::Kinds::kind_at, crate::specs::Kinds::premises_of, crate::specs::Choose::says, crate::specs::Choose::says_all, crate::specs::Choose::follows_by))]
impl Rule {
    // The kind of its conclusion.
    pub fn conclusion(self) -> Kind
        ensures { some (kind_says result) ≡ kind_at (number_of self) 0 }
    {
        match self {
            Rule::Empty | Rule::Entry => Kind::Environment,
            Rule::EffectNone | Rule::EffectEnd | Rule::EffectCheck => Kind::Effect,
            Rule::TypeUn
            | Rule::TypePair
            | Rule::TypeChannel
            | Rule::TypeSymkey
            | Rule::TypeNonce => Kind::Type,
            Rule::Name | Rule::Pair | Rule::Cipher | Rule::CipherUn | Rule::PairUn => Kind::Term,
            Rule::Stop
            | Rule::Begin
            | Rule::End
            | Rule::Parallel
            | Rule::New
            | Rule::Out
            | Rule::Inp
            | Rule::Split
            | Rule::Match
            | Rule::Cast
            | Rule::Check
            | Rule::Decrypt
            | Rule::OutUn
            | Rule::InpUn
            | Rule::SplitUn
            | Rule::MatchUn
            | Rule::DecryptUn => Kind::Process,
        }
    }

    // The kinds of its premises.
    pub fn premises(self) -> &'static [Kind]
        ensures { map kind_says result.now ≡ premises_of (number_of self) }
    {
        match self {
            Rule::Empty => &[],
            Rule::Entry | Rule::TypeChannel | Rule::TypeSymkey => &[Kind::Type],
            Rule::EffectNone | Rule::TypeUn | Rule::Name | Rule::Stop => &[Kind::Environment],
            Rule::EffectEnd | Rule::EffectCheck => &[Kind::Effect, Kind::Term],
            Rule::TypePair => &[Kind::Type, Kind::Type],
            Rule::TypeNonce => &[Kind::Effect],
            Rule::Pair | Rule::Cipher | Rule::CipherUn | Rule::PairUn => &[Kind::Term, Kind::Term],
            Rule::Begin | Rule::End | Rule::New => &[Kind::Process],
            Rule::Parallel => &[Kind::Process, Kind::Process],
            Rule::Out
            | Rule::Match
            | Rule::Check
            | Rule::Decrypt
            | Rule::OutUn
            | Rule::MatchUn
            | Rule::DecryptUn => &[Kind::Term, Kind::Term, Kind::Process],
            Rule::Inp | Rule::Split | Rule::Cast | Rule::InpUn | Rule::SplitUn => &[
                Kind::Term,
                Kind::Process,
            ],
        }
    }

    // Whether line i follows by it from the lines j, k and l, as many as it has premises.
    pub fn follows(self, w: &[u32], i: Line, j: Line, k: Line, l: Line) -> bool
        requires { Ready (rule_of (number_of self)) w.now i (j ∷ k ∷ l ∷ []) }
        ensures { result ≡ follows_by (rule_of (number_of self)) w.now i (j ∷ k ∷ l ∷ []) }
    {
        match self {
            Rule::Empty => by_empty(w, i),
            Rule::Entry => by_entry(w, i, j),
            Rule::EffectNone => by_effect_none(w, i, j),
            Rule::EffectEnd => by_effect_end(w, i, j, k),
            Rule::EffectCheck => by_effect_check(w, i, j, k),
            Rule::TypeUn => by_type_Un(w, i, j),
            Rule::TypePair => by_type_pair(w, i, j, k),
            Rule::TypeChannel => by_type_channel(w, i, j),
            Rule::TypeSymkey => by_type_symkey(w, i, j),
            Rule::TypeNonce => by_type_nonce(w, i, j),
            Rule::Name => by_name(w, i, j),
            Rule::Pair => by_pair(w, i, j, k),
            Rule::Cipher => by_cipher(w, i, j, k),
            Rule::CipherUn => by_cipher_Un(w, i, j, k),
            Rule::PairUn => by_pair_Un(w, i, j, k),
            Rule::Stop => by_stop(w, i, j),
            Rule::Begin => by_begin(w, i, j),
            Rule::End => by_end(w, i, j),
            Rule::Parallel => by_parallel(w, i, j, k),
            Rule::New => by_new(w, i, j),
            Rule::Out => by_out(w, i, j, k, l),
            Rule::Inp => by_inp(w, i, j, k),
            Rule::Split => by_split(w, i, j, k),
            Rule::Match => by_match(w, i, j, k, l),
            Rule::Cast => by_cast(w, i, j, k),
            Rule::Check => by_check(w, i, j, k, l),
            Rule::Decrypt => by_decrypt(w, i, j, k, l),
            Rule::OutUn => by_out_Un(w, i, j, k, l),
            Rule::InpUn => by_inp_Un(w, i, j, k),
            Rule::SplitUn => by_split_Un(w, i, j, k),
            Rule::MatchUn => by_match_Un(w, i, j, k, l),
            Rule::DecryptUn => by_decrypt_Un(w, i, j, k, l),
        }
    }
}

// k effects stand at a.
#[tactic(auto, using(crate::specs::Choose::Tests::ending))]
fn effects_there(w: &[u32], a: usize, k: usize) -> bool
    ensures { result ≡ reads (effects k) w.now a }
{
    if k == 0 {
        return true;
    }
    let Some(end) = Effect::end(w, a) else {
        return false;
    };
    effects_end(w, end, k - 1).is_some()
}

impl Kind {
    // What a line of the kind names is there.
    #[tactic(auto, using(crate::specs::Choose::Tests::reads_end), unfolding(crate::specs::Choose::is_there))]
    pub fn is_there(self, w: &[u32], l: Line) -> bool
        ensures { result ≡ is_there (kind_says self) w.now l }
    {
        environment_end(w, l.e).is_some()
            && match self {
                Kind::Environment => true,
                Kind::Type => type_end(w, l.t).is_some(),
                Kind::Effect => effects_there(w, l.f, l.k),
                Kind::Term => term_end(w, l.s).is_some() && type_end(w, l.t).is_some(),
                Kind::Process => process_end(w, l.s).is_some() && effects_there(w, l.f, l.k),
            }
    }
}

// The same of a kind by its number; of a number that is no kind's nothing is there.
#[tactic(auto, unfolding(crate::specs::Choose::number_there))]
pub fn is_there(w: &[u32], kind: u32, l: Line) -> bool
    ensures { result ≡ number_there kind w.now l }
{
    match kind {
        1 => Kind::Environment.is_there(w, l),
        2 => Kind::Type.is_there(w, l),
        3 => Kind::Effect.is_there(w, l),
        4 => Kind::Term.is_there(w, l),
        5 => Kind::Process.is_there(w, l),
        _ => false,
    }
}
