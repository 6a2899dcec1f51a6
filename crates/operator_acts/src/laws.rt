ghost use Rattle.operator_acts.specs.BanHistory.{LeftByLastAct, HeldByLastAct};

/// Says what any list of accepted bans and unbans leaves, each made of the one before by
/// [`crate::Bans::add`] and [`crate::Bans::remove`]. It does nothing.
///
/// `left`: what is left of the ban on a client identifier is what the last act on it leaves. `held`: a
/// ban is held on it where that act is a ban.
pub fn ban_laws()
    ensures left { LeftByLastAct }
    ensures held { HeldByLastAct }
{}
