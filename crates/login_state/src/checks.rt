ghost use Rattle.std.specs.Prelude.{◌≡◌, ◌↔◌, Some};
ghost use Rattle.login_state.specs.Checks.{first_denial, IsFirstDenial};
ghost use Rattle.login_state.specs.Orders.{sup_rules, inf_rules, update_rules, entry_rules, pass_rules};
ghost use Rattle.login_state.specs.Rules.{unless_supported, wrong_password};

use crate::asks::{EntryAsk, InfAsk, UpdateAsk};
use crate::deny::{Deny, Severity};
use crate::feature::Feature;
use crate::features::Features;
use crate::named_field::NamedField;
use crate::rules::{
    account_touched, bad_nick, bad_nick_of_login, bad_required, bad_value, ban_denial, cid_taken,
    foreign_id, foreign_pid, missing, nick_taken, registration_denial, too_many_fields,
    wrong_address, wrong_words,
};

/// The answer of a check.
#[derive(Clone, Copy, Debug, PartialEq, Eq)]
pub enum Check {
    /// The permission: nothing speaks against it.
    Go,
    /// The first of the reasons against it, in the order of the checks.
    Deny(Deny),
}

/// Checks whether a client with these features may go on after its SUP: without BASE it may not (245), nor without TIGR (247)
/// (ADC 1.0, "SUP"). Takes no memory.
pub fn check_sup(features: &Features) -> Check
    ensures exact { result ≡ first_denial (sup_rules features.now) }
    ensures first { IsFirstDenial result (sup_rules features.now) }
{
    first_denial(&[
        unless_supported(features, Feature::base(), Deny::NoBase),
        unless_supported(features, Feature::tigr(), Deny::NoHash),
    ])
}

/// Checks a login (ADC 1.0, "INF"). The first checks, in their order: the words (140); ID, PD and NI are there (243 FM);
/// ID, PD, SS and SF are valid (243 FB); ID is the hash of PD (227). The next: the nick is one (221); the identifier is not
/// shut out for good (231) or for a time (232); the address (246). The last: accounts alone are let in (226); the nick is
/// free (222); the identifier is free (224). Takes no memory.
pub fn check_inf(ask: &InfAsk) -> Check
    ensures exact { result ≡ first_denial (inf_rules ask.now) }
    ensures first { IsFirstDenial result (inf_rules ask.now) }
{
    first_denial(&[
        wrong_words(ask.words),
        missing(ask.id, NamedField::Id),
        missing(ask.pid, NamedField::PrivateId),
        missing(ask.nick, NamedField::Nick),
        bad_required(ask.id, NamedField::Id),
        bad_required(ask.pid, NamedField::PrivateId),
        bad_value(Severity::Fatal, &ask.values),
        foreign_pid(ask.identity),
        bad_nick_of_login(ask.nick),
        ban_denial(ask.entry.ban),
        wrong_address(Severity::Fatal, ask.address),
        registration_denial(ask.admission),
        nick_taken(Severity::Fatal, ask.entry.nick_claim),
        cid_taken(ask.entry.cid_claim),
    ])
}

/// Checks an update of a present user (ADC 1.0, "INF"). The checks are all of severity 1. The first, in their order: the
/// words (140); ID (143 FBID); SS and SF (143 FB); the nick is one (121). The last: the change of nick concerns no account
/// (125 FCBINF); the address (146); at most 40 fields once merged (140); the nick is free (122). Takes no memory.
pub fn check_update(ask: &UpdateAsk) -> Check
    ensures exact { result ≡ first_denial (update_rules ask.now) }
    ensures first { IsFirstDenial result (update_rules ask.now) }
{
    first_denial(&[
        wrong_words(ask.words),
        foreign_id(ask.identity),
        bad_value(Severity::Recoverable, &ask.values),
        bad_nick(ask.nick),
        account_touched(ask.account),
        wrong_address(Severity::Recoverable, ask.address),
        too_many_fields(ask.size),
        nick_taken(Severity::Recoverable, ask.nick_claim),
    ])
}

/// Checks that the digest that a client gave for its password is the expected one, else 223 (ADC 1.0, "PAS"). `None` stands
/// for words that give no digest. A client has one try, so the comparison need not take the same time for each answer. All
/// that may have changed since the login is left to [`check_entry`]. Takes no memory.
pub fn check_pass(expected: &[u8; 24], given: Option<[u8; 24]>) -> Check
    ensures exact { result ≡ first_denial (pass_rules expected.now given) }
    ensures right { (result ≡ Check.Go) ↔ (given ≡ Some expected.now) }
{
    first_denial(&[wrong_password(expected, given)])
}

/// Checks whether a client whose password was right may still enter, for things may have changed since its login. The checks,
/// in their order: the identifier is not shut out for good (231) or for a time (232); the nick is free (222); the
/// identifier is free (224). Takes no memory.
pub fn check_entry(ask: &EntryAsk) -> Check
    ensures exact { result ≡ first_denial (entry_rules ask.now) }
    ensures first { IsFirstDenial result (entry_rules ask.now) }
{
    first_denial(&[
        ban_denial(ask.ban),
        nick_taken(Severity::Fatal, ask.nick_claim),
        cid_taken(ask.cid_claim),
    ])
}

/// Gives the first denial of the rules, each of which has been asked.
fn first_denial(rules: &[Option<Deny>]) -> Check
    ensures { result ≡ first_denial rules.now }
{
    for rule in rules {
        if let Some(deny) = rule {
            return Check::Deny(*deny);
        }
    }
    Check::Go
}

fn unless_supported(features: &Features, feature: Feature, deny: Deny) -> Option<Deny>
    ensures { result ≡ unless_supported features.now feature deny }
{
    if features.has(feature) {
        None
    } else {
        Some(deny)
    }
}

fn wrong_password(expected: &[u8; 24], given: Option<[u8; 24]>) -> Option<Deny>
    ensures { result ≡ wrong_password expected.now given }
{
    match given {
        Some(given) => {
            if given == *expected {
                None
            } else {
                Some(Deny::Password)
            }
        }
        None => Some(Deny::Password),
    }
}
