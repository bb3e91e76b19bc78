//! What holds of messages, whatever connections they come by.
ghost use Rattle.rp_messages.specs.Laws.{HeadDecides, OthersAreFixed, MessagesAreTurns, TwoConnections};

use rp_laws::two_runs;

/// Where a head alone decides the answer, that is the answer whatever the body is.
pub fn heads_decide()
    ensures { HeadDecides }
{}

/// A message that is no partner's request is answered by what it is, whatever is held, and changes nothing.
pub fn others_are_fixed()
    ensures { OthersAreFixed }
{}

/// A run of messages is a run of the turns that they ask for; all other messages change nothing.
pub fn messages_are_turns()
    ensures { MessagesAreTurns }
{}

/// Two runs of messages, of any connections in any order, that look the same to a partner: each of his requests is answered
/// by the same bytes in both.
pub fn two_connections()
    ensures { TwoConnections }
{
    two_runs();
}
