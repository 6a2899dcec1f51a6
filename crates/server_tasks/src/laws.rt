//! What follows of the rules by which clients are waited for and senders give way: each law is the contract of a function.
ghost use Rattle.server_tasks.specs.Patience.{PatienceEnds, PatienceIsShort, PatienceLasts};
ghost use Rattle.server_tasks.specs.Turns.{GivesWayForSoLong, CountsFromTheFirst, HandsOverSixteen};

/// Says for how long a client is waited for that is far behind and takes nothing: at 1,200 ticks at most, and at 40 at most if
/// it is not known to read. Once it has moved, it is waited for at 40 at least.
pub fn patience_laws()
    ensures ends { PatienceEnds }
    ensures short { PatienceIsShort }
    ensures lasts { PatienceLasts }
{}

/// Says for how long a sender gives way in its turn: for 40 ticks from the first on at which it asked, and then it hands over 16
/// lines.
pub fn turn_laws()
    ensures long { GivesWayForSoLong }
    ensures first { CountsFromTheFirst }
    ensures sixteen { HandsOverSixteen }
{}
