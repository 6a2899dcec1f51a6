//! The laws that every history keeps, in the words of the protocol. Each law is proved of the rules themselves.

ghost use Rattle.hub_invariants.specs.Promises.{FewAreOpen, OthersAreOut, PresentAreUsers, SidsAreGiven, SidsDiffer, TakenIsTheSum, UsersAreOpen};
ghost use Rattle.hub_laws.specs.Uniqueness.{CidsDiffer, NicksDiffer};
ghost use Rattle.hub_laws.specs.EntryOrder.{PresentInOrder};
ghost use Rattle.hub_invariants.specs.Lag.{LagIsTheFirst, OwedAreShares};
ghost use Rattle.hub_invariants.specs.OpenConnections.{OpenAreThoseThatStayed};
ghost use Rattle.hub_laws.specs.StageSteps.{StageIsLastMade};
ghost use Rattle.hub_invariants.specs.Said.{FeaturesAreLastAdded, InfoIsMerged};
ghost use Rattle.hub_laws.specs.Searched.{SearchIsTheLast, TotalsAreSums};
ghost use Rattle.hub_invariants.specs.World.{BanIsTheLastAct, TopicIsTheLast};
ghost use Rattle.hub_laws.specs.Delivery.{DeliveredAreTheFirst};
ghost use Rattle.hub_laws.specs.Departures.{DeparturesAreHeard};
ghost use Rattle.hub_laws.specs.BanLimits.{BansAreApart, BansAreFew};
ghost use Rattle.hub_laws.specs.Joins.{JoinsAreCounted, JoinsStay};
ghost use Rattle.hub_laws.specs.ShutOut.{KicksShutOut, OutIsForGood, WhoIsOutHearsNothing};
ghost use Rattle.hub_laws.specs.Operators.{NobodyBannedEnters, OnlyOperatorsBan, OnlyOperatorsSetTopics, OnlyOperatorsShutOut};
ghost use Rattle.hub_laws.specs.SenderOrder.{CallsKeepTheirOrder, MessagesKeepTheirOrder, OwedGrows, SendersAreNamed};
ghost use Rattle.hub_laws.specs.Passwords.{ChallengesAreTold, PasswordsAreNotTold};
ghost use Rattle.hub_laws.specs.Registered.{NicksAreProved, OnlyAccountsEnter};
ghost use Rattle.hub_laws.specs.Removals.{NamesakesComeLater, OnlyUsersAreRemoved, RemovalsAreHeard, RemovalsComeFirst};
ghost use Rattle.hub_laws.specs.Routes.{EmptyLinesOweNothing, JoinsAndTakesOweNothing, MessagesAreRouted, QuietQuits, StrangersAreNotHeard, WhoIsOutIsNotHeard};
ghost use Rattle.hub_laws.specs.Secrets.{InfoIsPublic, UpdatesAreHeard, UpdatesArePassed};
ghost use Rattle.hub_laws.specs.CarriedOut.{DecidedIsTaken};
ghost use Rattle.hub_laws.specs.OperatorActs.{ActsAreHeard};
ghost use Rattle.hub_laws.specs.Welcome.{EntrantsAreWelcomed, EntriesAreHeard};

/// Says who is present: exactly those whose connections are at the stage NORMAL, all of them open; who never joined, or
/// quit, is shut out (ADC 1.0, "States"). They stand in the order of the entries by which they entered. In a legal history
/// open are those that joined and did not quit. A stage is what the last entry that changes it made it.
pub fn presence_laws()
    ensures users { PresentAreUsers }
    ensures open { UsersAreOpen }
    ensures others { OthersAreOut }
    ensures order { PresentInOrder }
    ensures stayed { OpenAreThoseThatStayed }
    ensures stage { StageIsLastMade }
{}

/// Says of session identifiers: two open connections have two, none has `AAAA`, and no more are open than the hub admits
/// (ADC 1.0, "SID"). In a legal history a connection has, whatever came later, the first identifier that was free when it
/// joined, and the owner, the address and the challenge of its join; joins are as many as the replies that accept one.
pub fn identifier_laws()
    ensures differ { SidsDiffer }
    ensures given { SidsAreGiven }
    ensures few { FewAreOpen }
    ensures stay { JoinsStay }
    ensures counted { JoinsAreCounted }
{}

/// Says of takes: in a legal history what a connection took is the sum over the replies to its takes, and the bytes of these replies,
/// joined, are those of the first lines that it was owed. It is owed the shares of all calls in order, up to the first that
/// did not fit with what then waited, by lines or by bytes; from that one on it lags.
pub fn take_laws()
    ensures taken { TakenIsTheSum }
    ensures delivered { DeliveredAreTheFirst }
    ensures owed { OwedAreShares }
    ensures lag { LagIsTheFirst }
{}

/// Says in which order lines of others come: each call adds its lines behind all that a connection was owed before. So it hears of
/// each other connection what that one's lines and its quit owe it, in the order of these calls; and of that one's messages those
/// that are for it, byte for byte, each once for each time that it was sent, in the order in which they were sent: all of them, or,
/// where it lags, the first of them. Each names its sender.
pub fn order_laws()
    ensures grows { OwedGrows }
    ensures calls { CallsKeepTheirOrder }
    ensures named { SendersAreNamed }
    ensures messages { MessagesKeepTheirOrder }
{}

/// Says who is owed a message that a user may send, by its type: all who are present, its target, target and sender, or those
/// who have certain features (ADC 1.0, "Message types"). Where a user enters, all who are present hear who it is, once; it
/// hears who they are, in order of entry, who it is itself, and the menu, where its client has one (ADC 1.0, "INF"; ADC-EXT,
/// "UCMD"). A join, a take, an empty line, a line of a connection that is shut out, and the quit of one whose user was not
/// present owe nobody anything; nor does a line by which one who is not present does not enter owe others anything.
pub fn routing_laws()
    ensures messages { MessagesAreRouted }
    ensures entries { EntriesAreHeard }
    ensures entrants { EntrantsAreWelcomed }
    ensures calls { JoinsAndTakesOweNothing }
    ensures empty { EmptyLinesOweNothing }
    ensures out { WhoIsOutIsNotHeard }
    ensures quits { QuietQuits }
    ensures strangers { StrangersAreNotHeard }
{}

/// Says of who is shut out: it is owed nothing more by any call, and stays shut out. A kick or a ban of a user who is present
/// shuts its connection out. Where a user leaves, or is shut out for its own line, each other who is present hears that, once
/// (ADC 1.0, "QUI").
pub fn leaving_laws()
    ensures nothing { WhoIsOutHearsNothing }
    ensures stays { OutIsForGood }
    ensures kicks { KicksShutOut }
    ensures departures { DeparturesAreHeard }
{}

/// Says how others hear of a kick or a ban: all who are present are owed the line that says it, once, and the operator then that it is
/// done (ADC 1.0, "QUI"); and nobody is shut out but who is present. Who does not lag is owed it before whatever comes later; and whoever
/// is present under that nick afterwards took it later, so that no line of a user who has it then comes before.
pub fn removal_laws()
    ensures heard { RemovalsAreHeard }
    ensures users { OnlyUsersAreRemoved }
    ensures first { RemovalsComeFirst }
    ensures namesakes { NamesakesComeLater }
{}

/// Says who is who: whoever is present under the nick of an account gave, while the hub waited for it, a password that is the account's,
/// hashed with the challenge of its own join (ADC 1.0, "GPA", "PAS"). Where only registered users may enter, all who are present have
/// accounts.
pub fn account_laws()
    ensures proved { NicksAreProved }
    ensures registered { OnlyAccountsEnter }
{}

/// Says what stays secret: what is known of a user, which is all that the lines of an entry say of it, holds no private identifier
/// (PD), nothing that a hub alone may say (CT), no address that the hub can't check (I6, U6), and no other I4 than the address
/// that the hub sees (ADC 1.0, "INF"). What an accepted update says that is passed on holds none of that either, where an I4 may be
/// empty; all who are present hear that, and nobody anything else.
pub fn secret_laws()
    ensures info { InfoIsPublic }
    ensures passed { UpdatesArePassed }
    ensures heard { UpdatesAreHeard }
{}

/// Says what is told of passwords: whether they were right. Where two hubs differ in the passwords of their accounts alone, and the same
/// calls are made of both, but that clients give other passwords, each right in both hubs or in neither, each connection is owed the
/// same lines in both. So none of them is made of a password, of its digest, or of what a client gave as one. Where a password is asked
/// for, the connection is owed the challenge of its own join, and nothing else (ADC 1.0, "GPA", "PAS").
pub fn password_laws()
    ensures alike { PasswordsAreNotTold }
    ensures asked { ChallengesAreTold }
{}

/// Says what operators left: of a ban what the last act on its client identifier leaves, and the topic that was set last. Nobody
/// enters while its client identifier has a ban; at most 1,024 client identifiers have one, and each has one. A call that is no
/// line of an operator who is present changes no ban, no topic, and the stage of no connection but its own. All who are present
/// hear of an act, once, and the operator that it is done (ADC 1.0, "QUI").
pub fn operator_laws()
    ensures bans { BanIsTheLastAct }
    ensures topic { TopicIsTheLast }
    ensures banned { NobodyBannedEnters }
    ensures few { BansAreFew }
    ensures apart { BansAreApart }
    ensures only_bans { OnlyOperatorsBan }
    ensures only_topics { OnlyOperatorsSetTopics }
    ensures only_removals { OnlyOperatorsShutOut }
    ensures heard { ActsAreHeard }
{}

/// Says what is known of a client: it supports the features whose last mention in any of its accepted SUP adds them (ADC
/// 1.0, "SUP"). Its user's fields are the merge of all its accepted INF, without what is not passed on (ADC 1.0, "INF").
/// Two users who are present have two nicks, by their normal forms C, and two client identifiers.
pub fn knowledge_laws()
    ensures features { FeaturesAreLastAdded }
    ensures info { InfoIsMerged }
    ensures nicks { NicksDiffer }
    ensures identifiers { CidsDiffer }
{}

/// Says of searches that the interval between them is counted from the last accepted one (ADC 1.0, "SCH"). The totals are
/// how many users are present, and the sums of what their fields SS and SF say (ADC-EXT, "PING").
pub fn counting_laws()
    ensures search { SearchIsTheLast }
    ensures totals { TotalsAreSums }
{}

/// Says of what is decided that it is carried out: who enters has a nick and a client identifier that nobody has, an update gives
/// no other user's nick, and there is room for a ban. So where a line is refused, only memory can be wanting.
pub fn decision_laws()
    ensures { DecidedIsTaken }
{}
