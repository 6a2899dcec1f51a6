ghost use Rattle.std.specs.Prelude.{◌≡◌, ℕ, List};
ghost use Rattle.std.specs.Option.{option_copied, option_map_or};
ghost use Rattle.feature_route.specs.Wants.{wants_of};
ghost use Rattle.feature_route.specs.Audiences.{audience, direct_audience, echo_audience};

use crate::receivers::Audience;
use crate::want::Want;
use adc_base32::Sid;
use adc_line::{Kind, Line};

/// Tells for whom a line is, by its type (ADC 1.0, "Message types"); `target_present` says whether the user that it names
/// as its target is present.
///
/// B: all. D: the target, and nobody where that user is away. E: the target and the sender, once each
/// also where they are the same, and nobody where the target is away. F: those who have every feature
/// that its feature word wants and none that it does not want, the sender treated alike. C, H, I, U:
/// nobody.
#[tactic(auto, unfolding(crate::specs::Audiences::audience))]
pub fn audience(line: &Line, target_present: bool) -> Audience<'_>
    ensures { result ≡ audience line.now target_present }
{
    match line.kind() {
        Kind::Broadcast => Audience::All,
        Kind::Direct => direct_audience(line.target(), target_present),
        Kind::Echo => echo_audience(line.target(), line.from(), target_present),
        Kind::Feature => feature_audience(line.features()),
        Kind::Client | Kind::Hub | Kind::Info | Kind::Udp => Audience::Nobody,
    }
}

fn direct_audience<'a>(target: Option<Sid>, target_present: bool) -> Audience<'a>
    ensures { result ≡ direct_audience target_present target }
{
    match target {
        Some(target) if target_present => Audience::One(target),
        _ => Audience::Nobody,
    }
}

fn echo_audience<'a>(target: Option<Sid>, own: Option<Sid>, target_present: bool) -> Audience<'a>
    ensures { result ≡ echo_audience target_present target own }
{
    let Some(target) = target else {
        return Audience::Nobody;
    };
    let Some(own) = own else {
        return Audience::Nobody;
    };
    if !target_present {
        return Audience::Nobody;
    }
    if target == own {
        return Audience::One(target);
    }
    Audience::Two(target, own)
}

fn feature_audience(word: Option<&str>) -> Audience<'_>
    ensures { result ≡ option_map_or (λ (word : List ℕ). Audience.Having (wants_of word)) (option_copied word.entry) Audience.Nobody }
{
    match word {
        Some(word) => Audience::Having(Want::of(word)),
        None => Audience::Nobody,
    }
}
