//! How a command ends, and the exit status of the process.
ghost use Rattle.std.specs.Prelude.{◌≡◌};
ghost use Rattle.rp_program.specs.Statuses as spec;

use ex_check::Verdict;
use rp_delivery::Judgement;

/// What a command did.
#[derive(Clone, Copy, PartialEq, Eq)]
pub enum Done {
    /// It told how to use the program.
    Helped,
    /// It answered all lines of the input, so many.
    Answered(u64),
    /// It served connections, until that was to end.
    Served,
    /// It told whether a text is a schema.
    Checked(Verdict),
    /// It validated files, of which this is said.
    Validated(Judgement),
}

/// The exit status of a process whose command ended so.
pub fn status_of<F>(ended: &Result<Done, F>) -> u8
    ensures { result ≡ spec.status_of ended.now }
{
    match ended {
        Ok(Done::Helped | Done::Answered(_) | Done::Served) => 0,
        Ok(Done::Checked(Verdict::Accepted)) => 0,
        Ok(Done::Validated(Judgement::Kept)) => 0,
        Ok(Done::Checked(Verdict::Refused) | Done::Validated(Judgement::NotKept)) => 1,
        Err(_) => 2,
    }
}
