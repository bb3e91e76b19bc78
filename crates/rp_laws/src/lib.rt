//! What holds of the plain repository for each partner, whatever the others do.
//!
//! Each function has a law as its contract, over the definitions that the repository's own calls cite.
#![tactic(auto)]

ghost use Rattle.rp_laws.specs.Laws.{KeepsOrder, KeepsValid, OpensValid, EditsAreSaid, ChangesOnlyNamed, RefusedChangesNothing, OwnTurnReply, OwnTurnPart, OutsideTurnPart, OutsideTurnReach, KeepingOffIsOutside, KeepingOffPart, KeepingOffReach, OneRunReplies, OneRunPart, TwoRuns, TextAgain};

use ex_loaded::LoadedSchema;
use p21_laws::accepted_schemas;

/// A step keeps models and groups in order.
pub fn step_keeps_order()
    ensures { KeepsOrder }
{}

/// A partner's step keeps the repository valid, and it is valid when it is opened.
pub fn step_keeps_validity()
    ensures step { KeepsValid }
    ensures opening { OpensValid }
{}

/// A step changes at most the rows of the names that the request says, and nothing where it is refused. Each of its edits has
/// such a name, and gives nobody a level but whom the request grants to.
pub fn step_changes_named_rows()
    ensures rows { ChangesOnlyNamed }
    ensures refused { RefusedChangesNothing }
    ensures edits { EditsAreSaid }
{}

/// A partner's reply, and what he sees after his turn, come from what he sees alone.
pub fn own_turn()
    ensures reply { OwnTurnReply }
    ensures part { OwnTurnPart }
{}

/// A turn of another that avoids what a partner reaches leaves what he sees and what he reaches.
pub fn outside_turn()
    ensures part { OutsideTurnPart }
    ensures reach { OutsideTurnReach }
{}

/// A turn of another is outside for a partner whatever it is answered, where the partner reaches no name that its request says,
/// and it is no grant to him: so it leaves what he sees and what he reaches.
pub fn request_that_keeps_off()
    ensures outside { KeepingOffIsOutside }
    ensures part { KeepingOffPart }
    ensures reach { KeepingOffReach }
{}

/// In a run where the others' turns are outside, a partner's replies are those that he gets alone.
pub fn one_run()
    ensures replies { OneRunReplies }
    ensures part { OneRunPart }
{}

/// Two runs that begin with the same for a partner give him equal replies to equal requests.
pub fn two_runs()
    ensures { TwoRuns }
{}

/// In a valid repository of these schemas, what each model holds is read of its canonical text, where the names of its links
/// are linked, as the same header and instances.
pub fn model_text_again(schemas: &[LoadedSchema<'_>])
    ensures { TextAgain schemas.now }
{
    accepted_schemas(schemas);
}
