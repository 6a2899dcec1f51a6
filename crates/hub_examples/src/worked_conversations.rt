//! Conversations that are computed from the rules, down to the bytes that are owed. The hash is any that gives the identifiers of the
//! examples as their own digests, and the digest of the one password that is asked for.

ghost use Rattle.hub_examples.specs.Commands.{CommandsAreForOperators};
ghost use Rattle.hub_examples.specs.Conversations.{BothAreHeard, ChatIsHeard, DeniedAndOut, LoginIsHeard, ThreeAnswers};
ghost use Rattle.hub_examples.specs.Departures.{DeparturesArePlayed};
ghost use Rattle.hub_examples.specs.Identifiers.{FirstIsGivenAgain, NextIsGiven};
ghost use Rattle.hub_examples.specs.Lags.{WhoTakesNothingLags};
ghost use Rattle.hub_examples.specs.Messages.{MessagesAreForTheirTargets, NewcomersHearOfUpdates, SearchesAreByFeatures, UpdatesChangeWhoHears};
ghost use Rattle.hub_examples.specs.PasswordLogins.{NickIsLookedAtAgain, PasswordIsAsked, RightPasswordEnters, WrongPasswordIsRefused};
ghost use Rattle.hub_examples.specs.Pings.{PingTellsOfTheHub};
ghost use Rattle.hub_examples.specs.Removals.{BanEndsByItself, KickShutsOut, NickIsFreeAfterKick, OperatorIsShown};
ghost use Rattle.hub_examples.specs.Searches.{SearchesMustWait};
ghost use Rattle.hub_examples.specs.Visitors.{SomeHashIsSo};

/// Says of logins, from the opening of the hub on: a client that says what it supports gets three lines (ADC 1.0, "SUP", "SID", "INF");
/// one that does not support BASE is told so, and shut out; a user that logs in is present and hears of itself; where a second one does,
/// both hear of each other.
pub fn worked_logins()
    ensures answers { ThreeAnswers }
    ensures denial { DeniedAndOut }
    ensures login { LoginIsHeard }
    ensures both { BothAreHeard }
{}

/// Says of chat, from the opening of the hub on: both users hear what one of them says (ADC 1.0, "MSG"); one who takes nothing lags from the
/// first line on that does not fit, is owed what came before it, and the other does not lag.
pub fn worked_chats()
    ensures heard { ChatIsHeard }
    ensures lag { WhoTakesNothingLags }
{}

/// Says of passwords, from the opening of the hub on: a login with the nick of an account is asked for its password, and is not present
/// yet; with the right digest it enters, is shown as an operator, and its client has the menu (ADC 1.0, "GPA", "PAS"; ADC-EXT, "UCMD");
/// with a wrong one it is told so, and shut out; of two that wait with the same nick only the first enters.
/// There is a hash as the examples have it.
pub fn worked_passwords()
    ensures asked { PasswordIsAsked }
    ensures right { RightPasswordEnters }
    ensures wrong { WrongPasswordIsRefused }
    ensures taken { NickIsLookedAtAgain }
    ensures hash { SomeHashIsSo }
{}

/// Says of operators, from the opening of the hub on: whoever enters is told who is one; all hear whom it kicks and why, and the user is
/// shut out, but may come again at once; one that is banned for 60 seconds may come again after these, and not a second before
/// (ADC 1.0, "QUI"); only an operator's commands are done, and all hear of a new topic.
pub fn worked_operators()
    ensures shown { OperatorIsShown }
    ensures kick { KickShutsOut }
    ensures again { NickIsFreeAfterKick }
    ensures ban { BanEndsByItself }
    ensures commands { CommandsAreForOperators }
{}

/// Says of three users, from the opening of the hub on: a direct message is heard by its target and an echoed one by its sender too, and
/// by nobody where the target is not there; a search by features is heard by those who have what it wants; an update of these changes
/// who hears the next one, and whoever comes later is told of it; those who are there hear of each who leaves (ADC 1.0, "Message
/// types", "INF", "QUI").
pub fn worked_messages()
    ensures targets { MessagesAreForTheirTargets }
    ensures searches { SearchesAreByFeatures }
    ensures updates { UpdatesChangeWhoHears }
    ensures newcomers { NewcomersHearOfUpdates }
    ensures departures { DeparturesArePlayed }
{}

/// Says of session identifiers, from the opening of the hub on: where one leaves, the next to join has the identifier after the last one
/// and not that which is free; once each was given, the first is given again (ADC 1.0, "SID").
pub fn worked_identifiers()
    ensures next { NextIsGiven }
    ensures again { FirstIsGivenAgain }
{}

/// Says of questions, from the opening of the hub on: a client that asks about the hub is told how many users are present, what they
/// share, how many may come and how long the hub is open (ADC-EXT, "PING"); a search that is too soon does not go out.
pub fn worked_questions()
    ensures ping { PingTellsOfTheHub }
    ensures interval { SearchesMustWait }
{}
