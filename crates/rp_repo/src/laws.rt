//! What holds of whole inputs for each partner, whatever the others' lines hold.

ghost use Rattle.rp_repo.specs.LineLaws.{LinesAreTurns, TwoInputs};

use rp_laws::two_runs;

/// A run over lines is a run of the turns that they ask for; all other lines change nothing.
pub fn lines_are_turns()
    ensures { LinesAreTurns }
{}

/// Two inputs whose runs look the same to a partner give him the same reply lines, byte for byte.
pub fn two_inputs()
    ensures { TwoInputs }
{
    two_runs();
}
