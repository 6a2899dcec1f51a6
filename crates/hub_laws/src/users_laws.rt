//! The laws that users of a hub ask for first. Each is proved of the rules themselves.

ghost use Rattle.hub_laws.specs.Greetings.{NewcomersHearTheTopic};
ghost use Rattle.hub_laws.specs.CommonOrder.{AllHearInOneOrder, AllHearTheSame};
ghost use Rattle.hub_invariants.specs.Promises.{FewAreOpen};
ghost use Rattle.hub_laws.specs.BanLimits.{BansAreFew};
ghost use Rattle.hub_laws.specs.Forms.{LinesAreMessages, LinesEndOnce};
ghost use Rattle.hub_laws.specs.Limits.{FewLinesWait, UsersAreWellFormed};
ghost use Rattle.hub_laws.specs.Types.{OperatorsHaveAccounts};
ghost use Rattle.hub_laws.specs.Outsiders.{OutsidersHearNothing};
ghost use Rattle.hub_laws.specs.Owners.{CidsAreShown};
ghost use Rattle.hub_laws.specs.Refusals.{RefusalsAreToldAlone};
ghost use Rattle.hub_laws.specs.Messages.{MessagesAreAccepted};
ghost use Rattle.hub_laws.specs.Intervals.{SearchesAreAccepted, SearchesAreApart};
ghost use Rattle.hub_laws.specs.Commands.{BansAreCarriedOut, KicksAreCarriedOut, TopicsAreCarriedOut, UnbansAreCarriedOut};
ghost use Rattle.hub_laws.specs.Logins.{LoginsAreAccepted, PasswordsAreAccepted};
ghost use Rattle.hub_laws.specs.Lists.{AllListTheSame};
ghost use Rattle.hub_laws.specs.Origins.{LinesHaveOrigins};

/// Says what stays within limits: after every call at most 1,024 lines and 1 MiB wait for a connection, no more connections are open
/// than the hub admits, and at most 1,024 client identifiers are banned. Whoever is present has a nick, the features BASE and
/// TIGR, and at most 40 fields; and is shown as an operator (CT4) only under the nick of an operator's account.
pub fn limit_laws()
    ensures waiting { FewLinesWait }
    ensures open { FewAreOpen }
    ensures bans { BansAreFew }
    ensures users { UsersAreWellFormed }
    ensures operators { OperatorsHaveAccounts }
{}

/// Says that nobody outside hears: a connection whose user is not present is owed nothing by the calls of others.
pub fn outsider_laws()
    ensures { OutsidersHearNothing }
{}

/// Says that a refusal is told to its sender alone: it is owed one status. Where the refusal is fatal, the others hear that the
/// user left; where it is not, nothing else changes.
pub fn refusal_laws()
    ensures { RefusalsAreToldAlone }
{}

/// Says that newcomers are told the topic that holds, when the hub greets them (ADC 1.0, "SUP", "INF").
pub fn greeting_laws()
    ensures { NewcomersHearTheTopic }
{}

/// Says that nobody is present under another's CID: whoever is present sent, in the accepted login of its own connection, a PID
/// whose hash is its CID (ADC 1.0, "INF", "ID", "PD").
pub fn owner_laws()
    ensures { CidsAreShown }
{}

/// Says that all hear others in one order, that of the calls: whatever two connections both hear of two calls, they hear in the
/// same order; and of one call of another, those who hear something hear the same lines.
pub fn hearing_laws()
    ensures order { AllHearInOneOrder }
    ensures same { AllHearTheSame }
{}

/// Says that what must work works for messages: those of a user who is present are accepted, in the grammar and under its own SID, but
/// for the few that `MessagesAreAccepted` names (ADC 1.0, "Message types").
pub fn message_laws()
    ensures { MessagesAreAccepted }
{}

/// Says of searches: two of one connection that went out are at least the interval apart; and a search of a user who is present is
/// refused only within the interval since the last that went out (ADC 1.0, "SCH").
pub fn search_laws()
    ensures apart { SearchesAreApart }
    ensures accepted { SearchesAreAccepted }
{}

/// Says that what an operator asks for is carried out: a user who is present is shut out by a kick; by a ban too, which holds from
/// then on, unless 1,024 client identifiers are banned, and its own is not; an identifier whose ban is ended may enter; a topic is set.
pub fn command_laws()
    ensures kicks { KicksAreCarriedOut }
    ensures bans { BansAreCarriedOut }
    ensures unbans { UnbansAreCarriedOut }
    ensures topics { TopicsAreCarriedOut }
{}

/// Says that a login that meets every check of the protocol and of the settings enters, or is asked for a password, where its nick is
/// an account's; and that the right password enters, where nobody took the nick or the CID meanwhile, and no ban came (ADC 1.0, "INF", "PAS").
pub fn login_laws()
    ensures logins { LoginsAreAccepted }
    ensures passwords { PasswordsAreAccepted }
{}

/// Says that there is one list for all: what a user who is present, and does not lag, was told of users by the lines of type BINF and
/// IQUI, one after another, comes to exactly those who are present, in order of entry, with their fields. So two list the same.
pub fn list_laws()
    ensures { AllListTheSame }
{}

/// Says that no line is forged: each that a connection is owed is of the type I, which a hub alone sends; or is a BINF that names the
/// user whose entry or update it tells; or is a message of a user, byte for byte, of the type B, D, E or F, under its own SID.
pub fn origin_laws()
    ensures { LinesHaveOrigins }
{}

/// Says that each line that a connection is owed is one line of the protocol's grammar: one line feed ends it. A user's message of the
/// type B, D, E or F meets the whole grammar. A line of the hub is words with one blank between each two: its type and command, a BINF's
/// SID, and parameters that spell texts; a BINF is UTF-8 too. Two lines have an empty word: a menu's entry without a name, and an empty
/// challenge. No hub that settings make has such an entry, and joins give challenges of 24 bytes (ADC 1.0, "Message syntax").
pub fn form_laws()
    ensures ends { LinesEndOnce }
    ensures messages { LinesAreMessages }
{}
