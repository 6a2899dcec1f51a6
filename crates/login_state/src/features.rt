ghost use Rattle.std.specs.Prelude.{◌≡◌, ℕ, List, [], ◌∷◌, ◌++◌, ◌↔◌, ◌||◌, false, not, IfOk, OnOk, IsTrue};
ghost use Rattle.adc_line.specs.WordsLeft.{words_left};
ghost use Rattle.login_state.specs.Seen.{is_in, unseen};
ghost use Rattle.login_state.specs.Support.{has_feature, is_mentioned, speaks_of, features_added, features_of, all_said, mentions_in, features_left, supported_after, IsLastAdded};
ghost use Rattle.login_state.specs.SupportAnswers.{are_mentions, support_after, GivesSupport, GoesOnLineByLine};
ghost use Rattle.std.specs.List.{IsDistinct};
ghost use Rattle.std.specs.Str.{bytes_eq};

use crate::fault::SupFault;
use crate::feature::{Feature, Mention, mention_at};
use adc_line::Words;
use std::alloc::{AllocError, Global};
use std::collections::BTreeSet;
use std::marker::Model;

/// The most features that a client may have.
const MOST: usize = 64;

/// The features that a client supports (ADC 1.0, "SUP"): those whose last mention adds them, each once, the latest of
/// these mentions first.
#[derive(Drop)]
pub struct Features {
    names: Vec<Feature>,
}

impl Model for Features {
    ghost use Rattle.std.specs.Prelude.{ℕ, List};

    ghost Value = { List (List ℕ) };

    ghost view = { λ features. features.names.items };
}

impl Features {
    /// Makes the features of a client that has none. Takes no memory.
    ///
    /// `before_any`: these are the features of a client that sent no SUP.
    pub fn new(alloc: Global) -> Features
        ensures exact { result ≡ [] }
        ensures before_any { result ≡ features_of [] }
    {
        Features {
            names: Vec::new(alloc),
        }
    }

    /// Gives what is supported once the words of a SUP were read, each `AD` or `RM` and a feature's name; `BAS0` is read as
    /// BASE, and `UCM0` as UCMD (ADC 1.0, "SUP"). These features stay as they are.
    ///
    /// `line_by_line`: if these are the features of a client that sent some SUP, the answer is those after this one too.
    ///
    /// Refused with the first of these that applies: `Bad` where a word is no mention of a feature, `TooMany` where more
    /// than 64 features are left after the whole line. `Memory` comes last.
    pub fn apply(&self, alloc: Global, words: Words<'_>) -> Result<Features, SupFault>
        ensures exact { GivesSupport result (support_after self.now (words_left words.entry)) }
        ensures line_by_line { GoesOnLineByLine self.now (words_left words.entry) result }
    {
        self.read(alloc, words)
    }

    #[tactic(auto, unfolding(crate::specs::SupportAnswers::support_after))]
    fn read(&self, alloc: Global, words: Words<'_>) -> Result<Features, SupFault>
        ensures { GivesSupport result (support_after self.now (words_left words.entry)) }
    {
        if !are_mentions(words) {
            return Err(SupFault::Bad);
        }
        let mentions = mentions(alloc, words)?;
        let names = supported_after(alloc, &self.names, mentions)?;
        if names.len() > MOST {
            return Err(SupFault::TooMany);
        }
        Ok(Features { names })
    }

    /// Tests whether it has this feature. Takes no memory.
    ///
    /// `last`: a client that sent some SUP has the features whose last mention in any of them adds them. `once`: each is
    /// listed, and so counted, once.
    pub fn has(&self, feature: Feature) -> bool
        ensures exact { result ≡ has_feature feature self.now }
        ensures last { (lines : List (List (List ℕ))) → self.now ≡ features_of lines → (IsTrue result ↔ IsLastAdded feature (all_said lines)) }
        ensures once { (lines : List (List (List ℕ))) → self.now ≡ features_of lines → IsDistinct bytes_eq self.now }
    {
        self.is_listed(feature)
    }

    fn is_listed(&self, feature: Feature) -> bool
        ensures { result ≡ has_feature feature self.now }
    {
        self.names.iter().any(|other| feature == *other)
    }
}

/// Tests whether each word says something of a feature.
fn are_mentions(words: Words<'_>) -> bool
    ensures { result ≡ are_mentions (words_left words.entry) }
{
    for word in words {
        if mention_at(word.as_bytes()).is_none() {
            return false;
        }
    }
    true
}

/// Reads the words, one after another.
#[tactic(auto, unfolding(crate::specs::Support::mentions_in))]
fn mentions(alloc: Global, words: Words<'_>) -> Result<Vec<Mention>, AllocError>
    ensures { IfOk result (λ mentions. mentions.items ≡ mentions_in (words_left words.entry)) }
{
    let mut mentions = Vec::new(alloc);
    for word in words {
        if let Some(mention) = mention_at(word.as_bytes()) {
            mentions.push(mention)?;
        }
    }
    Ok(mentions)
}

/// Gives the features that the mentions add, and those of `before` that they do not speak of.
#[tactic(auto, unfolding(crate::specs::Support::supported_after))]
fn supported_after(
    alloc: Global,
    before: &[Feature],
    mentions: Vec<Mention>,
) -> Result<Vec<Feature>, AllocError>
    ensures { IfOk result (λ names. names.items ≡ supported_after before.now mentions.items) }
{
    let mut seen = BTreeSet::new(alloc);
    let mut names = last_added(alloc, mentions, &mut seen)?;
    for feature in before {
        if !is_seen(&seen, *feature) {
            names.push(*feature)?;
        }
    }
    Ok(names)
}

/// Gives the features whose last mention adds them, the latest first. A set of those that were seen keeps the time in
/// bounds that a long line takes.
fn last_added(
    alloc: Global,
    mentions: Vec<Mention>,
    seen: &mut BTreeSet<[u8; 4]>,
) -> Result<Vec<Feature>, AllocError>
    requires { (feature : List ℕ) → is_in seen.old feature ≡ false }
    ensures names { IfOk result (λ names. names.items ≡ features_left mentions.items) }
    ensures seen { OnOk result ((feature : List ℕ) → is_in seen.new feature ≡ is_mentioned feature mentions.items) }
{
    let mut names = Vec::new(alloc);
    let mut left = mentions;
    'mentions: while let Some(mention) = left.pop() {
        note(&mut names, seen, mention)?;
    }
    Ok(names)
}

/// Takes a mention into account, all later ones of which were.
fn note(
    names: &mut Vec<Feature>,
    seen: &mut BTreeSet<[u8; 4]>,
    mention: Mention,
) -> Result<(), AllocError>
    ensures names { OnOk result (names.new.items ≡ names.old.items ++ unseen (is_in seen.old) (features_added mention [])) }
    ensures seen { OnOk result ((other : List ℕ) → is_in seen.new other ≡ (is_in seen.old other || speaks_of other mention)) }
{
    match mention {
        Mention::Adds(feature) => {
            let fresh = see(seen, feature)?;
            if fresh {
                names.push(feature)?;
            }
        }
        Mention::Removes(feature) => {
            see(seen, feature)?;
        }
    }
    Ok(())
}

/// Notes that a feature was seen, and tells whether that is new.
fn see(seen: &mut BTreeSet<[u8; 4]>, feature: Feature) -> Result<bool, AllocError>
    ensures fresh { IfOk result (λ fresh. fresh ≡ not (is_in seen.old feature)) }
    ensures seen { OnOk result ((other : List ℕ) → is_in seen.new other ≡ (is_in seen.old other || bytes_eq other feature)) }
{
    let fresh = seen.insert(feature.name())?;
    Ok(fresh)
}

fn is_seen(seen: &BTreeSet<[u8; 4]>, feature: Feature) -> bool
    ensures { result ≡ is_in seen.now feature }
{
    seen.contains(&feature.name())
}
